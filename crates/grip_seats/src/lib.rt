// A desk that knows what is out of each of its places, and a pass for each thing that is out.
#![tactic(auto)]

pub mod desks;
mod views;

pub use desks::{Desk, Pass};
