// The commands of the program: each takes words, a source and a sink, and answers how it ended.
#![tactic(auto)]

mod board_lines;
mod checks;
mod chunks;
mod day_words;
mod days;
mod divisions;
mod faults;
mod finishes;
mod inputs;
mod keeps;
mod kept_days;
mod nonblocking;
mod onlookers;
mod plays;
mod replays;
mod room_days;
mod room_devices;
mod room_finishes;
mod room_plays;
mod rooms;
mod runs;
mod told_windows;
mod trials;
mod watches;
mod ways;

pub use faults::Fault;
pub use finishes::{Day, Finish};
pub use keeps::keep_command;
pub use nonblocking::still_command;
pub use room_finishes::RoomFinish;
pub use rooms::room_command;
pub use runs::run_command;
pub use told_windows::ToldWindow;
pub use watches::{watch_command, watch_command_telling};
