// The lineage table: for each device its committed value, and the accesses to it in line order.
#![tactic(auto)]

mod accesses;
mod cursors;
mod lineages;
mod run_devices;
mod tables;

pub use accesses::{Access, Status};
pub use cursors::{knot_behind, knot_from};
pub use home_types::View;
pub use tables::Table;
