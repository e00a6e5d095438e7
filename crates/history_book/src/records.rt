//! The record of a closed window.
use crate::entries::Kept;
use home_types::{Item, List, Mode, World};

/// What is left of a window when it is closed.
#[derive(Drop)]
pub struct WindowRecord {
    /// The mode with which the window was opened.
    pub mode: Mode,
    /// The state of the home when it was opened.
    pub first: World,
    pub history: List<Kept>,
    /// The serial order: the line of the history.
    pub order: List<Item>,
    /// The state of the home when it was closed.
    pub last: World,
    /// By how much each device's count of drives and senses that answered rose in the window.
    pub turns: List<u64>,
    /// By how much each device's count of faults rose in the window.
    pub faults: List<u64>,
}
