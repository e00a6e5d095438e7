// A sound script to which windows are appended while its home lives on.
#![tactic(auto)]

pub mod refusals;
pub mod scripts;

pub use refusals::{NotAdded, NotBegun};
pub use scripts::LiveScript;
