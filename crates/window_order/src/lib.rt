// The order of a window as its history and the grips that are out make it, and the line and the
// lineage table that are kept beside it: each step of a hub keeps them, and the promises of a
// window follow from it.
#![tactic(auto)]

mod joins;
mod leavings;
mod order_states;
mod releases;
mod reschedules;

pub use leavings::{line_items, stands_in};
pub use order_states::{Noted, OrderState, note_of, seal};
