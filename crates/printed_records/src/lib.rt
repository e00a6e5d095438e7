// That the record of a legal day agrees with its script. The contract of each public function is a
// law, and nothing is left of its call.
#![tactic(auto)]

pub mod held_days;
pub mod laws;
