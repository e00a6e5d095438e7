// Devices whose calls are made elsewhere, and the answers to them that are handed in.
#![tactic(auto)]

pub mod answers;
pub mod devices;

pub use answers::{hand_in, may_tell};
pub use devices::{HandedBench, HandedDevice};
