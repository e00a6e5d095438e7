//! The rule of the board's cell: it holds the last publishing, and each pass knows a beginning of
//! the list of publishings.
use crate::day_counts::Counts;
use atomic_table::{Join, Split};
use crossbeam_utils::atomic::seq_cell::{Pass, RuledSeqCell};
use crossbeam_utils::rule::{Outcome, Protocol};
use std::collections::LinkedList;

/// What a pass knows: whether it publishes, the publishings that it has seen, and those that a pass
/// which it took in has seen and that it has not compared yet. No value of it is made.
pub struct PassView {
    pub publishes: bool,
    pub seen: LinkedList<Counts>,
    pub met: LinkedList<Counts>,
}

/// There is one list of publishings, whose numbers never fall; one pass at most adds to it, and
/// each pass has seen a beginning of it.
pub struct OneList;

impl Protocol<Counts, PassView> for OneList {
    ghost use Rattle.status_board.specs.Views.{ViewsAreKept, publishing};
    ghost use Rattle.std.specs.Prelude.{[]};

    ghost holds = { ViewsAreKept };

    ghost first = { publishing [] };
}

/// The pass that publishes adds what it writes.
pub struct Publishes;

impl Outcome<Counts, PassView> for Publishes {
    ghost use Rattle.status_board.specs.Views.{HasPublished};

    ghost then = { HasPublished };
}

/// A pass reads, and has then seen all publishings.
pub struct Looks;

impl Outcome<Counts, PassView> for Looks {
    ghost use Rattle.status_board.specs.Views.{HasLooked};

    ghost then = { HasLooked };
}

/// A pass that watches is cut off, and has seen what the other has.
pub struct CutsWatcher;

impl Split<PassView> for CutsWatcher {
    ghost use Rattle.status_board.specs.Views.{watching};

    ghost left = { λ v. v };

    ghost right = { λ v. watching v.seen };
}

/// A pass is taken in.
pub struct TakesIn;

impl Join<PassView> for TakesIn {
    ghost use Rattle.status_board.specs.Views.{meeting, watching};
    ghost use Rattle.std.specs.Prelude.{[]};

    ghost both = { meeting };

    ghost spent = { watching [] };
}

/// The cell of a board.
pub type BoardCell = RuledSeqCell<Counts, PassView, OneList, 5>;

/// A pass of that cell.
pub type BoardPass = Pass<Counts, PassView>;
