//! A live home, and what it is in.
ghost use Rattle.std.specs.Prelude.{◌≡◌, IfErr, IfOk, IsTrue, false};
ghost use Rattle.home_states.specs.LiveHomes.{BeginsAs, IsLive};
ghost use Rattle.hub_core.specs.Openings.{is_mode};
ghost use Rattle.routine_reader.specs.Readings.{script_reading};
ghost use Rattle.routine_reader.specs.Spots.{is_memory};
ghost use Rattle.std.specs.Prelude.{Err};

use handed_devices::{HandedBench, HandedDevice};
use history_book::WindowRecord;
use home_types::{Bytes, Mode};
use hub_core::Home;
use hub_table::Table;
use live_scripts::LiveScript;
use routine_reader::{ReadFault, read_script};
use std::alloc::Global;
use std::marker::Model;
use std::mem;

/// What a live home is in.
#[derive(Drop)]
pub enum Phase {
    /// Between two windows.
    Between(Home<HandedDevice>),
    /// In the window of the script with this number, counted from 0.
    InWindow(u32, Table<HandedDevice>),
    /// Neither, while the one is made of the other. No live home is left so.
    Moving,
}

/// The window that was closed last: its number in the script, counted from 0, and its record.
#[derive(Drop)]
pub struct ClosedWindow {
    pub number: u32,
    pub closed: WindowRecord,
}

/// A home with its script, between its windows or in one. Its device calls are made elsewhere, and
/// their answers are handed in.
///
/// The type keeps that it is in a window or between two, that its home is of the script's kinds of
/// devices, that the window which is open has the runs of the script's window, those with them that
/// have joined, and that each device call which it hands out has a number of its own, from 1, in
/// all its windows.
#[derive(Drop)]
pub struct LiveHome {
    pub(crate) script: LiveScript,
    pub(crate) mode: Mode,
    pub(crate) phase: Phase,
    /// How many device calls were handed out before the window that is open, or so far, where none
    /// is.
    pub(crate) tickets_before: u64,
    /// How many device calls were handed out so far.
    pub(crate) tickets: u64,
    /// Whether the script's last window was begun, and no window was opened since.
    pub(crate) is_draft: bool,
    /// The window closed last, until the next one is begun or opened.
    pub(crate) closed: Option<ClosedWindow>,
    /// The text that was made last.
    pub(crate) text: Bytes,
}

impl Model for LiveHome {
    ghost use Rattle.home_states.specs.LiveHomes.{IsCounted, LiveState};

    ghost Value = { LiveState };

    ghost view = { λ s. record {
      script = s.script;
      mode = s.mode;
      phase = s.phase;
      tickets_before = s.tickets_before;
      is_draft = s.is_draft;
      closed = s.closed;
      text = s.text;
    } };

    ghost invariant = { λ s. IsCounted (record {
      script = s.script;
      mode = s.mode;
      phase = s.phase;
      tickets_before = s.tickets_before;
      is_draft = s.is_draft;
      closed = s.closed;
      text = s.text;
    }) s.tickets };
}

impl LiveHome {
    /// Reads the script, and builds its home: every device up at its start, and no window open. All
    /// windows are opened in this mode.
    ///
    /// Answers why the script is refused, also `NoMemory`, which may come at any point.
    pub fn open(alloc: Global, bytes: &[u8], mode: Mode) -> Result<LiveHome, ReadFault>
        requires goes { IsTrue (is_mode mode) }
        ensures opened { IfOk result (λ live. BeginsAs bytes.now mode live) }
        ensures refused { IfErr result
            (λ fault. is_memory fault ≡ false → script_reading bytes.now ≡ Err fault) }
    {
        let text = match Bytes::of(alloc, &[]) {
            Ok(text) => text,
            Err(_) => return Err(ReadFault::NoMemory),
        };
        let script = match read_script(alloc, bytes) {
            Ok(script) => script,
            Err(fault) => {
                drop(text);
                return Err(fault);
            }
        };
        match Home::build(alloc, &mut HandedBench, &script) {
            Ok(home) => Ok(LiveHome {
                script: LiveScript::of(script),
                mode,
                phase: Phase::Between(home),
                tickets_before: 0,
                tickets: 0,
                is_draft: false,
                closed: None,
                text,
            }),
            Err(_) => {
                drop(script);
                drop(text);
                Err(ReadFault::NoMemory)
            }
        }
    }

    /// Does nothing. Its contract is what holds of every live home.
    pub fn kept_invariant(&self)
        ensures { IsLive self.now }
    {
        let _ = &self.mode;
    }
}

/// Puts this phase in the place of the one that it was, which is let go.
pub(crate) fn settle(phase: &mut Phase, next: Phase)
    ensures { phase.new ≡ next }
{
    drop(mem::replace(phase, next));
}

/// Puts this window, or none, in the place of the one that was closed last, which is let go.
pub(crate) fn remember(closed: &mut Option<ClosedWindow>, next: Option<ClosedWindow>)
    ensures { closed.new ≡ next }
{
    drop(mem::replace(closed, next));
}
