// The devices of a home, home or out, and the grips with which they are out: each makes one device
// call.
#![tactic(auto)]

pub mod gates;
pub mod grips;
pub mod slips;
pub mod strangers;

pub use gates::{Gate, Place};
pub use grips::{Done, Grip, Ready, Stage};
pub use slips::{Slip, Task, Told};
pub use strangers::Stranger;
