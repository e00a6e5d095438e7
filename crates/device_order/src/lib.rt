// The order of the runs on each device of a home, with its failures and restarts, and why a line of
// runs is a serial execution.
#![tactic(auto)]

pub mod device_laws;
pub mod exchange;
pub mod records;
pub mod walks;
pub mod window_laws;

pub use records::{Event, HeldGrip, OrderEntry, Probe, RunStage, Usage};
pub use walks::{GripOut, WalkState};
