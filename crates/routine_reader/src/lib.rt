// A day's script, read from its bytes, and what it says of its home and of its windows.
#![tactic(auto)]

mod commands;
mod devices;
pub mod faults;
mod forms;
mod homes;
mod names;
mod readers;
mod rosters;
mod routines;
pub mod scripts;
mod windows;

pub use faults::{Count, Part, ReadFault, Spot};
pub use homes::{script_kinds, start_world};
pub use readers::{read_script, read_script_once};
pub use rosters::roster;
pub use scripts::{DeviceText, RoutineText, RunText, Script, WindowText};
