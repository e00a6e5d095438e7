// The calls that changed a live home, as values and as bytes, and the calls read from bytes.
#![tactic(auto)]

pub mod calls;
mod laws;
mod reading;
mod records;
mod times;
mod writing;

pub use calls::{CALL_SIZE, Logged};
pub use laws::{good_bytes_are_calls, same_bytes};
pub use reading::{good_bytes, read_call, read_calls};
pub use writing::write_call;
