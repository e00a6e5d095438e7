// An open window beside the grips that are out of it: a hub for who keeps a device's number and its
// ticket, and no grip.
#![tactic(auto)]

pub mod answers;
mod hands;
mod homecomings;
pub mod tables;
pub mod told;

pub use tables::Table;
pub use told::{NotTaken, Taken};
