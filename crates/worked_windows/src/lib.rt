// The worked windows: in proofs/, every word of the definitions computed at points of their
// histories. It has no code.
#![tactic(auto)]
