// What stands at the start of a lent buffer behind a call that fills it: a whole sheet or a whole text, or nothing and why. No code: such a call answers
// with a length or a refusal, and the definitions and laws of both stand in specs/, for all that fill a buffer. Hosts don't call it.
#![tactic(auto)]
