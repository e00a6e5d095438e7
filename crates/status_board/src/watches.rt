//! Watching a board until the day is over.
ghost use Rattle.status_board.specs.Publishings.{IsNotBelow, Rises, StartsWith, last_of};
ghost use Rattle.std.specs.Prelude.{◌≡◌, true};

use crate::boards::{Board, Watcher};
use crate::day_counts::Counts;
use crate::tellers::{Silent, Teller};
use std::sync::Wait;

/// Reads again and again, until the counts are over. It may wait: what is said of its answer holds
/// if it returns.
pub fn watch<R: Wait>(rt: &R, board: &Board, w: Watcher) -> (Watcher, Counts)
    requires { w.board ≡ board.now }
    ensures board { result.0.board ≡ w.board }
    ensures grows { StartsWith result.0.list w.list }
    ensures answer { result.1 ≡ last_of result.0.list }
    ensures over { result.1.over ≡ true }
    ensures rises { Rises result.0.list }
    ensures later { IsNotBelow (last_of w.list) result.1 }
{
    let mut w = w;
    let counts = watch_telling(rt, board, &mut w, &mut Silent);
    (w, counts)
}

/// Does the same with a watcher that is lent, and tells each reading that is another one than the
/// reading before it.
///
/// Between two readings it sleeps, for some hundredths of a second at most, so not each publishing
/// is read; that the day is over wakes it.
pub fn watch_telling<R: Wait, T: Teller>(
    rt: &R,
    board: &Board,
    w: &mut Watcher,
    teller: &mut T,
) -> Counts
    requires { w.old.board ≡ board.now }
    ensures board { w.new.board ≡ w.old.board }
    ensures grows { StartsWith w.new.list w.old.list }
    ensures answer { result ≡ last_of w.new.list }
    ensures over { result.over ≡ true }
    ensures rises { Rises w.new.list }
    ensures later { IsNotBelow (last_of w.old.list) result }
{
    let mut told = None;
    for _ in rt.forever() {
        let rings = board.rings();
        let counts = board.read(rt, w);
        if told != Some(counts) {
            teller.tell(&counts);
            told = Some(counts);
        }
        if counts.over {
            return counts;
        }
        board.nap(rt, rings);
    }
    unreachable!()
}
