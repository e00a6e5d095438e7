//! What the seats of a desk know, and the steps by which they come to know it.
ghost use Rattle.std.specs.Prelude.{ℕ};

use atomic_table::{Join, Play, Split, TableRule};
use std::collections::LinkedList;

/// What a seat knows: whether it is the desk's, and then what is out of each place; and what it
/// claims is out of which place. No value of it is made.
pub struct SeatView<T> {
    pub keeps: bool,
    pub out: LinkedList<Option<T>>,
    pub claim: Option<(u64, T)>,
}

/// One seat at most is the desk's, what is claimed is out, and of no place is it claimed twice.
pub struct EachOnce;

impl<T> TableRule<(u64, T), SeatView<T>, u64> for EachOnce {
    ghost use Rattle.grip_seats.specs.Views.{AreKept, opening_view};

    ghost holds = { λ _. AreKept };

    ghost first = { opening_view };
}

/// Something goes out of the desk.
pub struct GoesOut;

impl<T> Play<(u64, T), SeatView<T>> for GoesOut {
    ghost use Rattle.grip_seats.specs.Views.{HasLent};

    ghost then = { HasLent };
}

/// Its claim is cut from the desk's seat.
pub struct CutClaim;

impl<T> Split<SeatView<T>> for CutClaim {
    ghost use Rattle.grip_seats.specs.Views.{claim_alone, without_claim};

    ghost left = { without_claim };

    ghost right = { claim_alone };
}

impl<T> Join<SeatView<T>> for CutClaim {
    ghost use Rattle.grip_seats.specs.Views.{nobody, with_claim};

    ghost both = { with_claim };

    ghost spent = { nobody };
}

/// What the desk's seat claims comes home.
pub struct ComesHome;

impl<T> Play<(u64, T), SeatView<T>> for ComesHome {
    ghost use Rattle.grip_seats.specs.Views.{HasReturned};

    ghost then = { HasReturned };
}
