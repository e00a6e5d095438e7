//! How each device of a home stands.
use crate::lists::List;
use crate::numbers::Value;

/// Where a device stands, and whether it is up.
#[derive(Clone, Copy, Debug, PartialEq, Eq)]
pub struct Stand {
    pub value: Value,
    pub up: bool,
}

/// The state of a home: where each device stands, by its number.
#[derive(Drop)]
pub struct World {
    pub devices: List<Stand>,
}
