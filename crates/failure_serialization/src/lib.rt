// Where the failure or the restart of a device stands in the line, and which run a failure loses.
#![tactic(auto)]

mod events;
mod losses;
mod places;

pub use events::{device_failed, device_recovered};
