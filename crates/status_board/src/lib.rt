// A board on which the counts of a day stand while it runs.
#![tactic(auto)]

pub mod boards;
pub mod day_counts;
mod passes;
pub mod tellers;
pub mod watches;

pub use boards::{Board, Publisher, Watcher};
pub use day_counts::Counts;
pub use tellers::{Silent, Teller};
pub use watches::{watch, watch_telling};
