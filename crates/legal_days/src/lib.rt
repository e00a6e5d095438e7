// What a legal window and a legal day are: in specs/, the definitions that a reader has to believe.
// It has no code.
#![tactic(auto)]
