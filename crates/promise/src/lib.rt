// What it is for a contract to leave nothing open. No code: the law stands in specs/, for every crate to cite. Hosts don't call it.
#![tactic(auto)]
