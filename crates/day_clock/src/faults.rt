//! A failed call of a source or a sink, and the count of such calls.
ghost use Rattle.std.specs.Prelude.{◌≡◌, ◌+◌};

use std::marker::Model;
use std::snapshot::Snapshot;

/// A call of a source or a sink has failed. Its count of faults has risen then.
#[derive(Clone, Copy, Debug, PartialEq, Eq)]
pub struct Failed;

/// How often something has failed, seen as that number. The number itself is for contracts alone:
/// the program keeps no more than whether it is 0, so that it never runs over.
#[derive(Drop)]
pub struct FaultCount {
    // The count as it was before the last fault, where there was one.
    before: Option<Snapshot<FaultCount>>,
}

impl Model for FaultCount {
    ghost use Rattle.std.specs.Prelude.{ℕ};
    ghost use Rattle.day_clock.specs.Faults.{one_more};

    ghost Value = { ℕ };

    ghost view = { λ c. one_more c.before };

    ghost size = { λ count. count };

    ghost use Rattle.std.proofs.Common.{arith};

    ghost size_decreases = { λ a h. Prim.grind (arith) };
}

impl FaultCount {
    /// Makes the count of something that has not failed.
    pub fn new() -> FaultCount
        ensures { result ≡ 0 }
    {
        FaultCount { before: None }
    }

    /// Counts one more fault.
    pub fn raise(&mut self)
        ensures { self.new ≡ self.old + 1 }
    {
        let before = Snapshot::of(&*self);
        self.before = Some(before);
    }
}
