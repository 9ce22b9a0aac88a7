// Demand 3, the two laws of the answers: 3M lifted by whole steps lifts every priced contract by exactly that; a spread turned round changes
// no answer. No code: specs/ says what they are, of the definition of a sheet's answers, and specs/laws proves them; proofs/ says them of what `closings` promises.
// Hosts don't call it.
#![tactic(auto)]
