// The state of a home after each of its windows, kept on a disk, so that what was acknowledged
// survives any crash.
#![tactic(auto)]

mod journals;
mod scans;
mod slot_files;
mod states;

pub use day_clock::Failed;
pub use journals::{FILE_NAME, Journal, OpenFault};
