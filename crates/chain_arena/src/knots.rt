//! The names of pairs.

/// The name of a pair in a chain, from 0 to 4,294,967,294: the number of its place in the block. It
/// is valid until the pair leaves, also where the chain grows; then it may be given again.
#[derive(Clone, Copy, Debug, PartialEq, Eq)]
pub struct Knot(pub(crate) u32);
