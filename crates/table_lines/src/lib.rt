// What the programs of stored tables share: the table read whole, its lines, each with a verb, and
// the cases that they make.
#![tactic(auto)]

mod cases;
mod inputs;

pub use cases::{LineFault, TableCase, play_cases, push_byte, push_bytes};
pub use inputs::{exit_of, read_table};
