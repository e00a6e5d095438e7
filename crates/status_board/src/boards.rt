//! A board, who publishes on it, and who watches it.
ghost use Rattle.status_board.specs.Publishings.{IsNotBelow, Rises, StartsWith, last_of};
ghost use Rattle.status_board.specs.Sights.{Sight};
ghost use Rattle.std.specs.Prelude.{◌≡◌, ◌+◌, ◌++◌, ◌∷◌, [], IfOk, false};

use crate::day_counts::Counts;
use crate::passes::{BoardCell, BoardPass, CutsWatcher, Looks, Publishes, TakesIn};
use home_types::NoMemory;
use std::alloc::Global;
use std::marker::Model;
use std::sync::{Condvar, Wait};
use std::time::Duration;

/// How long a watcher sleeps between two readings, in ms. It is woken where the day is over.
const NAP: u64 = 50;

/// Counts that one publishes and others read.
///
/// Contracts see its name alone. What was published is known by the publisher and the watchers.
#[derive(Drop)]
pub struct Board {
    cell: BoardCell,
    bell: Condvar,
}

/// The right to publish on a board, with all that was published. There is one for each board.
#[derive(Drop)]
pub struct Publisher {
    pass: BoardPass,
}

/// The right to read a board, with what is known by it of what was published.
#[derive(Drop)]
pub struct Watcher {
    pass: BoardPass,
}

impl Model for Board {
    ghost use Rattle.atomic_table.specs.Seated.{TableId};

    ghost Value = { TableId };

    ghost view = { λ b. b.cell.table.shared.table_id };
}

impl Model for Publisher {
    ghost use Rattle.crossbeam_utils.specs.Seq.{cell_view};
    ghost use Rattle.status_board.specs.Publishings.{Rises};
    ghost use Rattle.status_board.specs.Sights.{Sight};
    ghost use Rattle.status_board.specs.Views.{publishing};
    ghost use Rattle.std.specs.Prelude.{◌≡◌};

    ghost Value = { Sight };

    ghost view = { λ p. record { board = p.pass.table_id; list = (cell_view p.pass).seen } };

    ghost invariant = { λ p. (cell_view p.pass ≡ publishing (cell_view p.pass).seen)
        × Rises (cell_view p.pass).seen };
}

impl Model for Watcher {
    ghost use Rattle.crossbeam_utils.specs.Seq.{cell_view};
    ghost use Rattle.status_board.specs.Publishings.{Rises};
    ghost use Rattle.status_board.specs.Sights.{Sight};
    ghost use Rattle.status_board.specs.Views.{watching};
    ghost use Rattle.std.specs.Prelude.{◌≡◌};

    ghost Value = { Sight };

    ghost view = { λ w. record { board = w.pass.table_id; list = (cell_view w.pass).seen } };

    ghost invariant = { λ w. (cell_view w.pass ≡ watching (cell_view w.pass).seen)
        × Rises (cell_view w.pass).seen };
}

impl Board {
    /// A board with zeros, not over, and who publishes on it.
    ///
    /// No other call takes memory. Each other call may wait for those under way.
    pub fn open(alloc: Global) -> Result<(Board, Publisher), NoMemory>
        ensures { IfOk result (λ opened. (opened.1.board ≡ opened.0) × (opened.1.list ≡ [])) }
    {
        match BoardCell::ruled(alloc, Counts::none()) {
            Ok((cell, pass)) => {
                let bell = Condvar::new();
                Ok((Board { cell, bell }, Publisher { pass }))
            }
            Err(_) => Err(NoMemory),
        }
    }

    /// Publishes these counts, of which no number is smaller than in those before. Nothing follows
    /// counts that are over.
    pub fn publish<R: Wait>(&self, rt: &R, p: &mut Publisher, c: Counts)
        requires board { p.old.board ≡ self.now }
        requires rises { IsNotBelow (last_of p.old.list) c }
        requires sum { c.runs ≡ c.committed + c.aborted }
        requires going { (last_of p.old.list).over ≡ false }
        ensures board { p.new.board ≡ p.old.board }
        ensures list { p.new.list ≡ p.old.list ++ c ∷ [] }
        ensures rises { Rises p.new.list }
    {
        self.cell.swap_as::<Publishes, R>(rt, &mut p.pass, c);
        if c.over {
            self.bell.notify_all();
        }
    }

    /// A watcher, who knows what was published so far.
    pub fn watcher<R: Wait>(&self, _rt: &R, p: &mut Publisher) -> Watcher
        requires { p.old.board ≡ self.now }
        ensures watcher { result ≡ p.old }
        ensures same { p.new ≡ p.old }
        ensures rises { Rises result.list }
    {
        let pass = self.cell.split_pass::<CutsWatcher>(&mut p.pass);
        Watcher { pass }
    }

    /// The counts that were published last: zeros, and not over, where none were.
    ///
    /// No number of them is smaller than in those that the watcher has read before, or in those
    /// that were published when it was made.
    pub fn read<R: Wait>(&self, rt: &R, w: &mut Watcher) -> Counts
        requires { w.old.board ≡ self.now }
        ensures board { w.new.board ≡ w.old.board }
        ensures grows { StartsWith w.new.list w.old.list }
        ensures answer { result ≡ last_of w.new.list }
        ensures rises { Rises w.new.list }
        ensures later { IsNotBelow (last_of w.old.list) result }
    {
        self.cell.load_as::<Looks, R>(rt, &mut w.pass)
    }

    /// Takes a watcher back: what it knows was published.
    pub fn meet<R: Wait>(&self, rt: &R, p: &mut Publisher, w: Watcher)
        requires publisher { p.old.board ≡ self.now }
        requires watcher { w.board ≡ self.now }
        ensures met { StartsWith p.new.list w.list }
        ensures same { p.new ≡ p.old }
        ensures rises { Rises p.new.list }
    {
        let Watcher { pass: mut watching } = w;
        // A pass that has read cannot be joined; one that was just cut off can.
        let seen = self.cell.split_pass::<CutsWatcher>(&mut watching);
        let Publisher { pass } = p;
        self.cell.join_pass::<TakesIn>(pass, seen);
        self.cell.load_as::<Looks, R>(rt, pass);
    }

    /// How often the bell was rung.
    pub(crate) fn rings(&self) -> u64 {
        self.bell.notifications()
    }

    /// Sleeps until the bell was rung more often than that, or for a nap. No promise rests on it.
    pub(crate) fn nap<R: Wait>(&self, rt: &R, rings: u64) {
        self.bell.sleep(rt, rings, Duration::from_millis(NAP));
    }
}
