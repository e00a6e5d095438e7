//! A doubly linked list in one raw block. Its links are numbers of places, so a block that grows
//! keeps them all.
#![tactic(auto)]

mod block;
mod chain;
mod iter;
mod knots;
mod links;
mod memory;

// A crate names a chain in a contract only where the types of its fields are exported.
#[doc(hidden)]
pub use block::Block;
pub use chain::Chain;
pub use iter::Iter;
pub use knots::Knot;
#[doc(hidden)]
pub use links::{Links, Node};
#[doc(hidden)]
pub use memory::Memory;
