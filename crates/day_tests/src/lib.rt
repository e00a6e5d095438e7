//! Tests of the crates above the hub, by their public calls alone: a file for each crate.
#![tactic(auto)]

#[cfg(test)]
mod boards;
#[cfg(test)]
mod finals;
#[cfg(test)]
mod hubs;
#[cfg(test)]
mod keeps;
#[cfg(test)]
mod replays;
#[cfg(test)]
mod rooms;
#[cfg(test)]
mod runs;
#[cfg(test)]
mod watches;
