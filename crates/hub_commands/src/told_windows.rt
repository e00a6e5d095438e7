//! What is kept of a window once its lines are written: how many of its runs committed, and how many
//! were aborted.
ghost use Rattle.std.specs.Prelude.{◌≡◌, ◌+◌, ◌<◌, ◌^◌, true};
ghost use Rattle.std.specs.List.{count_by, list_all};
ghost use Rattle.day_report.specs.Days.{abort_count, commit_count, is_abort, is_commit};
ghost use Rattle.printed_records.specs.SmallTimes.{are_small};

use day_report::{Ends, aborts_in, commits_in};
use history_book::WindowRecord;
use printed_records::held_days::small_entries;
use std::marker::Model;
use std::snapshot::Snapshot;

/// A window that was closed: the counts of its runs. Its record is let go, so that a day takes no
/// more memory the more windows it has. In clauses the window is that record: what they say of it
/// reads "there was a record such that".
#[derive(Drop)]
pub struct ToldWindow {
    committed: u64,
    aborted: u64,
    whole: Snapshot<WindowRecord>,
}

impl Model for ToldWindow {
    ghost use Rattle.std.specs.Prelude.{◌≡◌, true};
    ghost use Rattle.std.specs.List.{count_by};
    ghost use Rattle.day_report.specs.Days.{is_abort, is_commit};
    ghost use Rattle.history_book.specs.declared.records.WindowRecord.{WindowRecord};
    ghost use Rattle.printed_records.specs.SmallTimes.{are_small};

    ghost Value = { WindowRecord };

    ghost view = { λ s. s.whole.value };

    ghost invariant = { λ s.
        (s.committed ≡ count_by (λ kept. is_commit kept.entry) s.whole.value.history.items)
        × (s.aborted ≡ count_by (λ kept. is_abort kept.entry) s.whole.value.history.items)
        × (are_small s.whole.value.history.items ≡ true) };
}

impl ToldWindow {
    /// The window of this record.
    pub fn of(closed: &WindowRecord) -> ToldWindow
        ensures { result ≡ closed.now }
    {
        let history = closed.history.as_slice();
        small_entries(history);
        ToldWindow {
            committed: commits_in(history) as u64,
            aborted: aborts_in(history) as u64,
            whole: Snapshot::of(closed),
        }
    }

    /// How many of its runs committed.
    pub fn committed(&self) -> u64
        ensures { result ≡ count_by (λ kept. is_commit kept.entry) self.now.history.items }
    {
        self.committed
    }

    /// How many of its runs were aborted.
    pub fn aborted(&self) -> u64
        ensures { result ≡ count_by (λ kept. is_abort kept.entry) self.now.history.items }
    {
        self.aborted
    }

    /// The times in its record are numbers of 64 bits.
    fn small(&self)
        ensures { are_small self.now.history.items ≡ true }
    {
        let _ = &self.committed;
    }
}

/// Counts the ends of the runs of some windows.
pub fn ends_told(windows: &[ToldWindow]) -> Ends
    ensures committed { result.committed ≡ commit_count windows.now }
    ensures aborted { result.aborted ≡ abort_count windows.now }
    ensures room { result.committed + result.aborted < 2 ^ 128 }
{
    let mut ends = Ends {
        committed: 0,
        aborted: 0,
    };
    'windows: for window in windows {
        ends.committed += window.committed() as u128;
        ends.aborted += window.aborted() as u128;
    }
    ends
}

/// The times in the records of some windows are numbers of 64 bits.
pub fn small_times(windows: &[ToldWindow])
    ensures { list_all (λ closed. are_small closed.history.items) windows.now ≡ true }
{
    'windows: for window in windows {
        window.small();
    }
}
