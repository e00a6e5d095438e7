//! A window of the script is opened on the home, and closed.
ghost use Rattle.std.specs.Prelude.{◌≡◌, ◌≤◌, ◌*◌, ℕ, IfErr, IfOk, IsTrue, None};
ghost use Rattle.home_states.specs.LiveHomes.{IsWindowOf};
ghost use Rattle.home_states.specs.Openings.{CannotOpen, HasClosed, HasOpened, IsOpenedOn, MayNotClose, MayNotOpen, first_against_home, first_against_opening};
ghost use Rattle.home_states.specs.Tickets.{WindowTickets, window_tickets};
ghost use Rattle.routine_reader.specs.Rosters.{kinds_of};
ghost use Rattle.hub_core.specs.Openings.{is_mode};

use crate::homes::{ClosedWindow, LiveHome, Phase, remember, settle};
use crate::numbers::few;
use crate::refusals::{NotClosed, NotOpened};
use handed_devices::HandedDevice;
use home_types::{Mode, NoMemory};
use hub_core::Home;
use hub_table::Table;
use live_scripts::LiveScript;
use std::alloc::Global;
use std::mem;

/// Windows that may be opened on a home.
const WINDOWS_OF_A_HOME: u32 = 1 << 31;

impl LiveHome {
    /// Opens the window of the script with this number, counted from 0. Takes all memory of the
    /// window.
    ///
    /// Refused in a window, where there is no such window, where the home has had as many windows
    /// as it may, and where there is no memory: then nothing has changed.
    pub fn window(&mut self, alloc: Global, number: u32) -> Result<(), NotOpened>
        ensures opened { IfOk result (λ _. HasOpened self.old number self.new) }
        ensures free { IfOk result (λ _. first_against_opening self.old number ≡ None) }
        ensures refused { IfErr result (λ why. MayNotOpen self.old number why) }
        ensures same { IfErr result (λ _. self.new ≡ self.old) }
    {
        match mem::replace(&mut self.phase, Phase::Moving) {
            Phase::Between(home) => {
                match open_on(alloc, home, &self.script, number, self.mode) {
                    Ok(table) => {
                        settle(&mut self.phase, Phase::InWindow(number, table));
                        self.is_draft = false;
                        remember(&mut self.closed, None);
                        Ok(())
                    }
                    Err((home, why)) => {
                        settle(&mut self.phase, Phase::Between(home));
                        Err(why)
                    }
                }
            }
            Phase::InWindow(open, table) => {
                settle(&mut self.phase, Phase::InWindow(open, table));
                Err(NotOpened::InWindow)
            }
            Phase::Moving => unreachable!(),
        }
    }

    /// Closes the window that is open, whose record can then be asked for.
    ///
    /// Refused where none is open, and where something is left to do: then nothing has changed.
    /// Takes no memory.
    pub fn close_window(&mut self) -> Result<(), NotClosed>
        ensures closed { IfOk result (λ _. HasClosed self.old self.new) }
        ensures refused { IfErr result (λ why. MayNotClose self.old why) }
        ensures same { IfErr result (λ _. self.new ≡ self.old) }
    {
        match mem::replace(&mut self.phase, Phase::Moving) {
            Phase::InWindow(number, table) => {
                few(&table);
                match table.close() {
                    Ok((home, record)) => {
                        settle(&mut self.phase, Phase::Between(home));
                        self.tickets_before = self.tickets;
                        let closed = ClosedWindow {
                            number,
                            closed: record,
                        };
                        remember(&mut self.closed, Some(closed));
                        Ok(())
                    }
                    Err((table, why)) => {
                        settle(&mut self.phase, Phase::InWindow(number, table));
                        Err(NotClosed::NotQuiet(why))
                    }
                }
            }
            Phase::Between(home) => {
                settle(&mut self.phase, Phase::Between(home));
                Err(NotClosed::NoWindow)
            }
            Phase::Moving => unreachable!(),
        }
    }
}

/// Opens the window of the script with this number on the home.
fn open_on(
    alloc: Global,
    home: Home<HandedDevice>,
    script: &LiveScript,
    number: u32,
    mode: Mode,
) -> Result<Table<HandedDevice>, (Home<HandedDevice>, NotOpened)>
    requires goes { IsTrue (is_mode mode) }
    requires fits { home.kinds ≡ kinds_of script.now }
    ensures opened { IfOk result (λ table. IsOpenedOn script.now mode number home table) }
    ensures own { IfOk result (λ table. IsWindowOf script.now mode number table.setting) }
    ensures numbers { IfOk result (λ table. (before : ℕ) → before ≤ home.opened * window_tickets
        → WindowTickets before table) }
    ensures free { IfOk result (λ _. first_against_home script.now number home ≡ None) }
    ensures refused { IfErr result (λ refused. CannotOpen script.now number home refused.1) }
    ensures same { IfErr result (λ refused. refused.0 ≡ home) }
{
    let Some(window) = script.script().windows.get(number as u64) else {
        return Err((home, NotOpened::Absent));
    };
    if home.opened() >= WINDOWS_OF_A_HOME {
        return Err((home, NotOpened::TooMany));
    }
    match script.roster(alloc, number) {
        Ok(roster) => {
            home.kept_invariant();
            match Table::open(alloc, home, roster, mode, window.probes) {
                Ok(table) => Ok(table),
                Err((home, NoMemory)) => Err((home, NotOpened::NoMemory)),
            }
        }
        Err(NoMemory) => Err((home, NotOpened::NoMemory)),
    }
}
