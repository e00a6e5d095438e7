//! The history of a window, a list that only grows, with what it says of each run found at once.
ghost use Rattle.std.specs.Prelude.{◌≡◌, ◌+◌, ◌<◌, ◌≤◌, [], ◌∷◌, ◌++◌, IfOk, IfSome, IsSome, is_some, length, max, OnOk, OnErr, slice_get};
ghost use Rattle.std.specs.Option.{option_copied};
ghost use Rattle.history_book.specs.Books.{answer_count, doom_of, end_of, placing_of};
ghost use Rattle.history_book.specs.Progress.{progress_in};
ghost use Rattle.home_types.specs.Limits.{most_runs};

use crate::entries::{Cause, End, Kept};
use crate::progress::{
    NOTHING_DONE, RunProgress, answered_anew, doom_anew, end_anew, note, placing_anew,
};
use home_types::{List, NoMemory, RunNo, limits};
use std::alloc::Global;
use std::marker::Model;

/// The places that are kept: one for each run that a window may have, by its number, and the
/// detector's 0.
pub(crate) const PLACES: usize = limits::RUNS as usize + 1;

/// The history of a window. Contracts see its entries, and beside them how many more it takes with
/// no memory.
#[derive(Drop)]
pub struct Book {
    kept: List<Kept>,
    // what the entries say of each run, by its number, so that a question about it reads none of
    // them; empty before room is made
    progress: Vec<RunProgress>,
}

impl Model for Book {
    ghost use Rattle.home_types.specs.Listed.{Listed};
    ghost use Rattle.history_book.specs.declared.entries.Kept.{Kept};
    ghost use Rattle.history_book.specs.BookParts.{IsReadAlong};

    ghost Value = { Listed Kept };

    ghost view = { λ b. b.kept };

    ghost invariant = { λ b. IsReadAlong b.kept b.progress.items };
}

impl Book {
    /// Makes an empty book. Takes no memory.
    pub fn new(alloc: Global) -> Book
        ensures empty { result.items ≡ [] }
        ensures no_room { result.spare ≡ 0 }
    {
        Book {
            kept: List::new(alloc),
            progress: Vec::new(alloc),
        }
    }

    /// Makes an empty book with room for `n` entries and no more, or answers `NoMemory`.
    pub fn with_room(alloc: Global, n: u64) -> Result<Book, NoMemory>
        ensures empty { IfOk result (λ book. book.items ≡ []) }
        ensures room { IfOk result (λ book. book.spare ≡ n) }
    {
        let mut book = Book::new(alloc);
        book.reserve(n)?;
        Ok(book)
    }

    /// Makes room for `n` more entries and for no more than these, or answers `NoMemory`. The
    /// entries stay in both cases, and so does the room that there was.
    pub fn reserve(&mut self, n: u64) -> Result<(), NoMemory>
        ensures items { self.new.items ≡ self.old.items }
        ensures room { OnOk result (self.new.spare ≡ max self.old.spare n) }
        ensures kept { self.old.spare ≤ self.new.spare }
        ensures refused { OnErr result (self.new ≡ self.old) }
    {
        if self.progress.resize(PLACES, NOTHING_DONE).is_err() {
            return Err(NoMemory);
        }
        self.kept.reserve(n)
    }

    /// Appends an entry. Takes no memory, and uses one place of the room.
    ///
    /// Asks for room.
    #[inline(always)]
    pub fn push(&mut self, kept: Kept)
        requires { 0 < self.old.spare }
        ensures items { self.new.items ≡ self.old.items ++ kept ∷ [] }
        ensures spare { self.new.spare + 1 ≡ self.old.spare }
    {
        let pushed = self.kept.push(kept);
        pushed.unwrap();
        let place = self.kept.len() - 1;
        if let Some(r) = kept.entry.run() {
            note(self.progress.as_mut_slice(), r, kept.entry, place);
        }
    }

    /// How many more entries the book takes with no memory.
    pub(crate) fn spare(&self) -> u64
        ensures { result ≡ self.now.spare }
    {
        self.kept.spare()
    }

    /// How many entries the book has.
    pub fn len(&self) -> u64
        ensures { result ≡ length self.now.items }
    {
        self.kept.len()
    }

    /// The entry at the place `i`, counted from 0.
    pub fn get(&self, i: u64) -> Option<Kept>
        ensures { result ≡ slice_get self.now.items i }
    {
        self.kept.get(i).copied()
    }

    /// The entries, in order.
    pub fn into_list(self) -> List<Kept>
        ensures { result ≡ self }
    {
        let Book { kept, .. } = self;
        kept
    }

    /// What the entries say of the run `r`, where a window may have a run of this number, and there
    /// is an entry or room for one.
    #[inline(always)]
    pub(crate) fn known(&self, r: RunNo) -> Option<&RunProgress>
        ensures known { IfSome (option_copied result) (λ p. p ≡ progress_in self.now.items r.0) }
        ensures there { r.0 ≤ most_runs → 0 < length self.now.items + self.now.spare
            → IsSome result }
    {
        self.progress.get(r.0 as usize)
    }

    /// How the run `r` ended. `None` where it has no `Ended` entry.
    #[inline(always)]
    pub fn end_of(&self, r: RunNo) -> Option<End>
        ensures { result ≡ end_of self.now.items r.0 }
    {
        match self.known(r) {
            Some(known) => known.ended,
            None => end_anew(self.kept.as_slice(), r),
        }
    }

    /// The cause of the first `Doomed` entry of the run `r`. `None` where it has none.
    #[inline(always)]
    pub fn doom_of(&self, r: RunNo) -> Option<Cause>
        ensures { result ≡ doom_of self.now.items r.0 }
    {
        match self.known(r) {
            Some(known) => known.doomed,
            None => doom_anew(self.kept.as_slice(), r),
        }
    }

    /// Whether the run `r` has a `Doomed` entry.
    #[inline(always)]
    pub fn is_doomed(&self, r: RunNo) -> bool
        ensures { result ≡ is_some (doom_of self.now.items r.0) }
    {
        match self.known(r) {
            Some(known) => known.doomed.is_some(),
            None => doom_anew(self.kept.as_slice(), r).is_some(),
        }
    }

    /// How many entries stood before the first `Placed` entry of the run `r`. `None` where it has
    /// none.
    #[inline(always)]
    pub fn placing_of(&self, r: RunNo) -> Option<u64>
        ensures { result ≡ placing_of self.now.items r.0 }
    {
        match self.known(r) {
            Some(known) => known.placed,
            None => placing_anew(self.kept.as_slice(), r),
        }
    }

    /// How many commands of the run `r` were answered: the number of its `Did` entries.
    #[inline(always)]
    pub fn answered(&self, r: RunNo) -> u64
        ensures { result ≡ answer_count self.now.items r.0 }
    {
        match self.known(r) {
            Some(known) => known.answered,
            None => answered_anew(self.kept.as_slice(), r),
        }
    }
}
