// The calls of a live home, kept on a disk: nothing is let out before the calls on which it rests
// are synced.
#![tactic(auto)]

mod call_files;
mod call_logs;
mod faults;
mod heads;
mod log_files;
mod scans;

pub use call_logs::{AppendFault, CallLog, LetOut, Synced};
pub use faults::LogFault;
pub use heads::Head;
