// The rooms of a home, each with a hub of its own: how a window is split among them, and how their
// orders are joined.
#![tactic(auto)]

mod joins;
pub mod laws;
mod lists;
mod naming;
mod numbers;
mod rosters;
mod scripts;
mod splits;
mod told_windows;

pub use joins::joined;
pub use lists::{reversed, room_for, turned};
pub use naming::rooms;
pub use rosters::{RoomRoster, RoomWindow, Rooms};
pub use scripts::room_script;
pub use splits::{SplitFault, split};
pub use told_windows::told_window;
