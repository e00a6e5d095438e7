//! The ranges of a disk that were written. They are for contracts alone: the program keeps no more
//! than the newest.
ghost use Rattle.std.specs.Prelude.{◌≡◌, [], ◌∷◌};
ghost use Rattle.slot_disks.specs.WrittenRanges.{Range};

use std::marker::Model;
use std::snapshot::Snapshot;

/// Ranges that were written, the newest first.
#[derive(Drop)]
pub(crate) struct WrittenRanges {
    at: usize,
    len: usize,
    // The ranges without the newest one, where there is one.
    before: Option<Snapshot<WrittenRanges>>,
}

impl Model for WrittenRanges {
    ghost use Rattle.std.specs.Prelude.{List, length};
    ghost use Rattle.slot_disks.specs.WrittenRanges.{Range, with_newest};

    ghost Value = { List Range };

    ghost view = { λ s. with_newest s.at s.len s.before };

    ghost size = { λ ranges. length ranges };

    ghost use Rattle.std.proofs.Common.{arith};

    ghost size_decreases = { λ a h. Prim.grind (arith) };
}

impl WrittenRanges {
    /// No range.
    pub(crate) fn none() -> WrittenRanges
        ensures { result ≡ [] }
    {
        WrittenRanges {
            at: 0,
            len: 0,
            before: None,
        }
    }

    /// Puts the range of `len` bytes from `at` on in front.
    pub(crate) fn add(&mut self, at: usize, len: usize)
        ensures { self.new ≡ (record { at = at; len = len }) ∷ self.old }
    {
        let before = Snapshot::of(&*self);
        self.before = Some(before);
        self.at = at;
        self.len = len;
    }
}
