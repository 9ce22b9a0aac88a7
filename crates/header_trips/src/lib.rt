// What holds of the two moves between headers: a moved sheet is accepted and priced as before, moved back it is the sheet that it was, and a reader
// that knows the short header alone accepts what was moved back. No code: specs/ says it, and specs/laws proves it; proofs/ says it of what the functions
// promise. Hosts don't call it.
#![tactic(auto)]
