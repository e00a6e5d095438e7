// The words of the command line.
#![tactic(auto)]

pub mod command_lines;
mod option_words;
mod readers;
mod room_words;
mod trial_numbers;

pub use command_lines::{CommandLine, Options, WordFault};
pub use readers::read_words;
pub use room_words::read_room_words;
