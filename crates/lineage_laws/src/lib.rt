// What is true of every lineage table, and of what its calls leave, and when a line may be
// rearranged. No function here does any work: its contract is a law.
#![tactic(auto)]

pub mod laws;
