// The runs of a window that are marked as blocked, each at a device, as the bits of words.
#![tactic(auto)]

pub mod marks;
mod run_bits;

pub use marks::BlockedRuns;
pub use run_bits::{bit_of, has_bit};
