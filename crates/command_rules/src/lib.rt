// The runs of a window and their routines, and what the runs of a line do one after another.
#![tactic(auto)]

pub mod footprints;
mod indexed_rosters;
pub mod jobs;
mod rosters;

pub use indexed_rosters::IndexedRoster;
pub use jobs::{driven, fails, is_always, reads, register_after, writes};
pub use rosters::{Roster, RosterRun};
