//! What the entries of a history say of a run, kept with each entry more.
ghost use Rattle.std.specs.Prelude.{◌≡◌, ◌+◌, ◌<◌, ◌^◌, Some, length, slice_index_or};
ghost use Rattle.std.specs.Option.{option_or};
ghost use Rattle.history_book.specs.Books.{answer_count, doom_of, end_of, placing_of};
ghost use Rattle.history_book.specs.Progress.{noted, nothing_done, progress_after, progress_in, tells_of};

use crate::entries::{Cause, End, Entry, Kept};
use home_types::RunNo;

/// What the entries say of a run. What is told a second time changes nothing.
#[derive(Clone, Copy, Debug, PartialEq, Eq)]
pub struct RunProgress {
    /// The moment when it arrived, in ms.
    pub arrived: Option<u64>,
    /// The stamp of its placing: how many entries the history had. A run that was placed later has
    /// a greater one.
    pub placed: Option<u64>,
    /// How many of its commands are answered.
    pub answered: u64,
    pub doomed: Option<Cause>,
    pub ended: Option<End>,
}

/// Nothing has happened to a run.
pub(crate) const NOTHING_DONE: RunProgress = RunProgress {
    arrived: None,
    placed: None,
    answered: 0,
    doomed: None,
    ended: None,
};

impl RunProgress {
    /// There is one entry more, which tells of the run, and before which so many stood.
    #[inline(always)]
    pub(crate) fn note(&mut self, entry: Entry, before: u64)
        requires { self.old.answered + 1 < 2 ^ 64 }
        ensures { self.new ≡ progress_after entry before self.old }
    {
        match entry {
            Entry::Arrived(_, moment) => keep_first(&mut self.arrived, moment),
            Entry::Placed(_, _, _) => keep_first(&mut self.placed, before),
            Entry::Did(_, _, _) => self.answered += 1,
            Entry::Doomed(_, cause) => keep_first(&mut self.doomed, cause),
            Entry::Ended(_, end) => keep_first(&mut self.ended, end),
            Entry::Undid(_, _, _) | Entry::Fell(_) | Entry::Rose(_) => {}
        }
    }
}

/// This is told, where nothing was told before.
#[inline(always)]
fn keep_first<T: Drop>(told: &mut Option<T>, new: T)
    ensures { told.new ≡ option_or told.old (Some new) }
{
    if told.is_none() {
        *told = Some(new);
    }
}

/// The run of this number has one entry more, before which so many stood.
#[inline(always)]
pub(crate) fn note(progress: &mut [RunProgress], r: RunNo, entry: Entry, before: u64)
    requires { r.0 < length progress.old
        → (slice_index_or progress.old r.0 nothing_done).answered + 1 < 2 ^ 64 }
    ensures { progress.new ≡ noted r.0 entry before progress.old }
{
    let r = r.0 as usize;
    if r < progress.len() {
        progress[r].note(entry, before);
    }
}

/// What the entries say of the run `r`, read one after another.
fn read_anew(history: &[Kept], r: RunNo) -> RunProgress
    ensures { result ≡ progress_in history.now r.0 }
{
    let mut progress = NOTHING_DONE;
    'entries: for at in 0..history.len() {
        let entry = history[at].entry;
        if tells_of(r, entry) {
            progress.note(entry, at as u64);
        }
    }
    progress
}

/// Whether the entry tells of the run `r`.
fn tells_of(r: RunNo, entry: Entry) -> bool
    ensures { result ≡ tells_of r.0 entry }
{
    match entry.run() {
        Some(run) => run == r,
        None => false,
    }
}

/// How the run `r` ended, by all entries.
#[cold]
#[inline(never)]
pub(crate) fn end_anew(history: &[Kept], r: RunNo) -> Option<End>
    ensures { result ≡ end_of history.now r.0 }
{
    read_anew(history, r).ended
}

/// The cause with which the run `r` was doomed, by all entries.
#[cold]
#[inline(never)]
pub(crate) fn doom_anew(history: &[Kept], r: RunNo) -> Option<Cause>
    ensures { result ≡ doom_of history.now r.0 }
{
    read_anew(history, r).doomed
}

/// How many entries stood before the run `r` was placed, by all entries.
#[cold]
#[inline(never)]
pub(crate) fn placing_anew(history: &[Kept], r: RunNo) -> Option<u64>
    ensures { result ≡ placing_of history.now r.0 }
{
    read_anew(history, r).placed
}

/// How many commands of the run `r` were answered, by all entries.
#[cold]
#[inline(never)]
pub(crate) fn answered_anew(history: &[Kept], r: RunNo) -> u64
    ensures { result ≡ answer_count history.now r.0 }
{
    read_anew(history, r).answered
}
