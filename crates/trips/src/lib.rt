// Both ways round: a field that was written is read back as it was, and a field that was read is written as it stood. No code: the laws
// stand in specs/laws, over the definitions, and in proofs/, over what the functions promise. Hosts don't call it.
#![tactic(auto)]
