// The serial meaning as calls: what a whole routine does, and what the items of an order do one
// after another.
#![tactic(auto)]

mod effects;
mod orders;
mod routines;

pub use effects::{Outcome, outcome_of};
pub use orders::{RunAnswers, run_order};
pub use routines::run_whole;
