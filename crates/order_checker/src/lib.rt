// Whether a record is the serial execution of the order that it prints, judged by the script and
// the record alone.
#![tactic(auto)]

mod answers;
mod heads;
mod home_lines;
mod lines;
mod order_lines;
mod records;
mod run_lines;
mod totals;
mod values;
mod verdicts;
mod windows;
mod words;

pub use records::check_record;
pub use verdicts::{Place, Verdict};
