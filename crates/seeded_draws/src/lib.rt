// The generator by which picks and scripts are drawn from a number.
#![tactic(auto)]

mod draws;

pub use draws::Draws;
