#![tactic(auto)]

// What both editions mean: the definitions are in specs/, and there is no code beside them.
