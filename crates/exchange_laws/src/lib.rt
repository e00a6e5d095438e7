// Which orders of a window serve as well as its own: those that come of it by exchanges of
// neighbours that are apart. No function here does any work: its contract is a law.
#![tactic(auto)]

pub mod laws;
