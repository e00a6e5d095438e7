// A window worked by threads, at most one for each run, over a hub behind a lock.
#![tactic(auto)]

mod detectors;
pub mod held;
pub mod kept_windows;
pub mod names;
pub mod rooms;
mod sleepers;
mod wakers;
pub mod windows;
mod workers;

pub use held::{DoneGrip, Held, Steps};
pub use kept_windows::{KeepFault, run_kept_window};
pub use names::Name;
pub use rooms::{RoomDone, RoomHub, run_rooms};
pub use wakers::BackOff;
pub use windows::{Means, run_window, run_window_by};
