//! A window's history, apart by the runs of which its entries tell.
ghost use Rattle.std.specs.Prelude.{◌≡◌, ◌++◌, ◌∷◌, [], IfOk, OnOk, length};
ghost use Rattle.day_report.specs.RunEntries.{AreApart, run_told_of};

use history_book::{Entry, Kept};
use std::alloc::{AllocError, Global};
use std::marker::Model;

/// The answers and the end of a run, in the order of the history.
#[derive(Drop)]
pub(crate) struct RunEntries {
    entries: Vec<Kept>,
}

impl Model for RunEntries {
    ghost use Rattle.std.specs.Prelude.{List};
    ghost use Rattle.history_book.specs.declared.entries.Kept.{Kept};

    ghost Value = { List Kept };

    ghost view = { λ s. s.entries.items };
}

impl RunEntries {
    /// No entries, with room for so many.
    fn with_room(alloc: Global, room: usize) -> Result<RunEntries, AllocError>
        ensures { IfOk result (λ entries. entries ≡ []) }
    {
        let entries = Vec::with_capacity(alloc, room)?;
        Ok(RunEntries { entries })
    }

    /// Puts the entry behind the others.
    fn add(&mut self, kept: Kept) -> Result<(), AllocError>
        ensures { OnOk result (self.new ≡ self.old ++ kept ∷ []) }
    {
        self.entries.push(kept)?;
        Ok(())
    }

    /// The entries in order.
    pub(crate) fn as_slice(&self) -> &[Kept]
        ensures { result.now ≡ self.now }
    {
        self.entries.as_slice()
    }
}

/// The run of whose answers or of whose end the entry tells; 0 where it tells of no such thing.
fn told_of(entry: Entry) -> u32
    ensures { result ≡ run_told_of entry }
{
    match entry {
        Entry::Did(run, _, _) => run.0,
        Entry::Ended(run, _) => run.0,
        _ => 0,
    }
}

/// The entries of each of so many runs, those of run 1 first. Goes over the history once, and
/// passes over what tells of no such run.
pub(crate) fn entries_by_run(
    alloc: Global,
    runs: usize,
    history: &[Kept],
) -> Result<Vec<RunEntries>, AllocError>
    ensures runs { IfOk result (λ parts. length parts.items ≡ runs) }
    ensures apart { IfOk result (λ parts. AreApart parts.items history.now) }
{
    // a run that commits has fewer answers than its share of the entries, where each run has as
    // many
    let room = history.len().checked_div(runs).unwrap_or(0);
    let mut parts = empty_parts(alloc, runs, room)?;
    'entries: for kept in history {
        put_to_run(&mut parts, *kept)?;
    }
    Ok(parts)
}

/// No entries for each of so many runs, with room for so many.
fn empty_parts(alloc: Global, runs: usize, room: usize) -> Result<Vec<RunEntries>, AllocError>
    ensures runs { IfOk result (λ parts. length parts.items ≡ runs) }
    ensures apart { IfOk result (λ parts. AreApart parts.items []) }
{
    let mut parts = Vec::with_capacity(alloc, runs)?;
    'runs: for _ in 0..runs {
        parts.push_reserved(RunEntries::with_room(alloc, room)?);
    }
    Ok(parts)
}

/// Puts the entry behind those of its run, where it tells of a run that has a part.
fn put_to_run(parts: &mut Vec<RunEntries>, kept: Kept) -> Result<(), AllocError>
    ensures runs { length parts.new.items ≡ length parts.old.items }
    ensures apart { OnOk result ((history : _) → AreApart parts.old.items history
        → AreApart parts.new.items (history ++ kept ∷ [])) }
{
    let run = told_of(kept.entry) as usize;
    if 0 < run && run <= parts.len() {
        parts[run - 1].add(kept)?;
    }
    Ok(())
}
