// The hub of a home: its windows, and the steps in them.
#![tactic(auto)]

mod changes;
mod close_calls;
mod decisions;
mod entries;
mod failures;
mod freed_runs;
mod give_calls;
pub mod homes;
pub mod hubs;
mod join_calls;
mod lenders;
mod next_commands;
mod open_calls;
mod open_windows;
mod placings;
mod probe_calls;
pub mod refusals;
mod restandings;
mod resumed_homes;
mod returns;
mod step_calls;
mod take_calls;
pub mod turns;
pub mod waits;
mod weak_steps;

pub use device_gate::{Done, Grip, Ready, Slip, Stranger, Task, Told};
pub use homes::Home;
pub use hubs::Hub;
pub use refusals::NotQuiet;
pub use routine_reader::script_kinds;
pub use turns::Turn;
pub use waits::Why;
