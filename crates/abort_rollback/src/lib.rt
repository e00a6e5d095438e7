// How a run that is aborted takes back what it wrote: its next undo, and the end of its accesses.
#![tactic(auto)]

mod undos;
mod withdrawals;

pub use undos::{Undo, next_undo};
pub use withdrawals::withdraw;
