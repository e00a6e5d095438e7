//! The texts that a live home makes: of the window closed last, of an entry, of the head of its
//! record.
ghost use Rattle.std.specs.Prelude.{◌≡◌, ◌≢◌, IfErr, IfOk, None, length, slice_get};
ghost use Rattle.day_report.specs.Days as said;
ghost use Rattle.home_states.specs.Texts.{HasToldEntry, HasToldWindow, IsEntryText, MayNotTellEntry, MayNotTellWindow, first_against_text, window_entries_told, window_told};
ghost use Rattle.std.specs.Option.{option_copied};

use crate::homes::{LiveHome, Phase};
use crate::refusals::NotTold;
use day_report::{entry_text, head_text, window_text};
use history_book::Kept;
use home_types::{Bytes, NoMemory};
use routine_reader::WindowText;
use std::alloc::Global;

impl LiveHome {
    /// The text that was made last; before the first one it is empty.
    pub fn text(&self) -> &[u8]
        ensures { result.now ≡ self.now.text }
    {
        self.text.as_slice()
    }

    /// Makes the text of the window that was closed last, as a record has it, and with its trace
    /// where that is asked for.
    ///
    /// Refused where no window was closed since the last one was begun or opened, or there is no
    /// memory; it may be asked again.
    pub fn tell_window(&mut self, alloc: Global, trace: bool) -> Result<(), NotTold>
        ensures told { IfOk result (λ _. HasToldWindow self.old trace self.new) }
        ensures free { IfOk result (λ _. first_against_text self.old.closed ≡ None) }
        ensures refused { IfErr result (λ why. MayNotTellWindow self.old why) }
        ensures same { IfErr result (λ _. self.new ≡ self.old) }
    {
        let Some(closed) = &self.closed else {
            return Err(NotTold::Absent);
        };
        let script = self.script.script();
        match window_text(
            alloc,
            script,
            closed.number,
            &closed.closed,
            self.mode,
            trace,
        ) {
            Ok(text) => {
                self.text = text;
                Ok(())
            }
            Err(NoMemory) => Err(NotTold::NoMemory),
        }
    }

    /// Makes the head of a record of this home's windows: its two lines.
    ///
    /// Refused where there is no memory; it may be asked again.
    pub fn tell_head(&mut self, alloc: Global) -> Result<(), NotTold>
        ensures told { IfOk result
            (λ _. self.new ≡ record self.old { text = said.head_text self.old.mode }) }
        ensures refused { IfErr result (λ why. why ≡ NotTold.NoMemory) }
        ensures same { IfErr result (λ _. self.new ≡ self.old) }
    {
        match head_text(alloc, self.mode) {
            Ok(text) => {
                self.text = text;
                Ok(())
            }
            Err(NoMemory) => Err(NotTold::NoMemory),
        }
    }

    /// How many entries the window that is open has so far, or the one closed last where none is
    /// open.
    pub fn entry_count(&self) -> u64
        ensures { result ≡ length (window_entries_told self.now) }
    {
        match &self.phase {
            Phase::InWindow(_, table) => table.hub().entry_count(),
            Phase::Between(_) => match &self.closed {
                Some(closed) => closed.closed.history.len(),
                None => 0,
            },
            Phase::Moving => unreachable!(),
        }
    }

    /// The entry at this place, counted from 0, of the window that is open, or of the one closed
    /// last where none is.
    pub fn entry(&self, at: u64) -> Option<Kept>
        ensures { result ≡ slice_get (window_entries_told self.now) at }
    {
        match &self.phase {
            Phase::InWindow(_, table) => table.hub().entry(at),
            Phase::Between(_) => match &self.closed {
                Some(closed) => closed.closed.history.get(at).copied(),
                None => None,
            },
            Phase::Moving => unreachable!(),
        }
    }

    /// Makes the line of the entry at this place, counted from 0, as a trace has it: of the window
    /// that is open, or of the one closed last where none is. Any entry that `entry` answers has a
    /// line.
    ///
    /// Refused where there is no such entry, or no memory; it may be asked again.
    pub fn tell_entry(&mut self, alloc: Global, at: u64) -> Result<(), NotTold>
        ensures told { IfOk result (λ _. HasToldEntry self.old at self.new) }
        ensures free { IfOk result
            (λ _. first_against_text (slice_get (window_entries_told self.old) at) ≡ None) }
        ensures refused { IfErr result (λ why. MayNotTellEntry self.old at why) }
        ensures same { IfErr result (λ _. self.new ≡ self.old) }
    {
        let Some(kept) = self.entry(at) else {
            return Err(NotTold::Absent);
        };
        match self.text_of(alloc, kept) {
            Ok(text) => {
                self.text = text;
                Ok(())
            }
            Err(NoMemory) => Err(NotTold::NoMemory),
        }
    }

    /// The line of an entry of the window that is open, or of the one closed last.
    fn text_of(&self, alloc: Global, kept: Kept) -> Result<Bytes, NoMemory>
        requires some { window_told self.now ≢ None }
        ensures { IfOk result (λ text. IsEntryText self.now kept text) }
    {
        match self.window_told() {
            Some(window) => entry_text(alloc, self.script.script(), window, kept),
            None => unreachable!(),
        }
    }

    /// The window of the script of which entries are told: the one that is open, or the one closed
    /// last where none is. `None` where there is neither.
    fn window_told(&self) -> Option<&WindowText>
        ensures { option_copied result ≡ window_told self.now }
    {
        let number = match &self.phase {
            Phase::InWindow(number, _) => *number,
            Phase::Between(_) => match &self.closed {
                Some(closed) => closed.number,
                None => return None,
            },
            Phase::Moving => unreachable!(),
        };
        self.script.script().windows.get(number as u64)
    }
}
