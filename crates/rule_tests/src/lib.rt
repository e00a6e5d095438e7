//! Tests of the crates below the hub, by their public calls alone: a file for each crate.
#![tactic(auto)]

#[cfg(test)]
mod call_logs;
#[cfg(test)]
mod chains;
#[cfg(test)]
mod clocks;
#[cfg(test)]
mod devices;
#[cfg(test)]
mod failures;
#[cfg(test)]
mod journals;
#[cfg(test)]
mod lines;
#[cfg(test)]
mod rooms;
#[cfg(test)]
mod trials;
#[cfg(test)]
mod whole_routines;
