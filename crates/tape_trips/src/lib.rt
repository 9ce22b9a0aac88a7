// Both ways round of the text tape: the text of a sheet, read again, gives that sheet; a text that is accepted, written again, gives that text; and how
// long a text can be. No code: the laws stand in specs/laws, over the definitions. Hosts don't call it.
#![tactic(auto)]
