//! The kinds of devices, and the values that each has.
ghost use Rattle.std.specs.Prelude.{◌≡◌};
ghost use Rattle.home_types.specs.Kinds.{has_value, nearest as nearest_value};

use crate::numbers::Value;

/// Which values a device has.
#[derive(Clone, Copy, Debug, PartialEq, Eq)]
pub enum Kind {
    /// The values from 0 to one less than this number, each with a name in the script.
    States(u32),
    /// The values from the first number to the second, both included.
    Range(Value, Value),
}

impl Kind {
    /// Whether a device of this kind has the value `v`.
    pub fn has(&self, v: Value) -> bool
        ensures { result ≡ has_value self.now v }
    {
        match *self {
            Kind::States(count) => v < count,
            Kind::Range(low, high) => low <= v && v <= high,
        }
    }

    /// Gives the value of this kind that is nearest to `v`: what a `store` drives.
    ///
    /// A kind with no value answers all the same: 0 for `States(0)`, `low` where `low` is above
    /// `high`.
    pub fn nearest(&self, v: Value) -> Value
        ensures { result ≡ nearest_value self.now v }
    {
        match *self {
            Kind::States(count) => v.min(count.saturating_sub(1)),
            Kind::Range(low, high) => v.min(high).max(low),
        }
    }
}
