//! Windows of the moment: a window is begun, and runs are added to it, before it is opened and while
//! it is open. And devices that were found elsewhere, or are lost, between two windows.
ghost use Rattle.std.specs.Prelude.{◌≡◌, IfErr, IfOk, IfSome, None, Some};
ghost use Rattle.day_clock.specs.Times.{IsCivilTime};
ghost use Rattle.home_states.specs.DraftRefusals.{MayNotAdd, MayNotBegin, added_why, begun_why, first_against_adding, first_against_beginning};
ghost use Rattle.home_states.specs.Drafts.{HasBegunWindow, HasLost, HasRestood, MayNotLose, MayNotRestand, WasLost, WasRestood, first_against_finding, first_against_loss, first_against_losing, first_against_restanding, time_told};
ghost use Rattle.home_states.specs.Joinings.{HasTakenRun};
ghost use Rattle.home_states.specs.Rebuilt.{HasBegunAt, MayNotBeginAt, first_against_begin, why_no_time};

use crate::homes::{LiveHome, Phase, remember};
use crate::joinings::join_in;
use crate::refusals::{NotBegun, NotLost, NotRestood};
use day_clock::{When, read_time};
use handed_devices::HandedDevice;
use home_types::{DeviceNo, RunNo, Value};
use hub_core::Home;
use live_scripts::{NotAdded, NotBegun as NotAppended};
use std::alloc::Global;
use std::str;

impl LiveHome {
    /// Appends a window without runs to the script, at the time that the text tells and with so
    /// many rounds of probes, and answers its number, from 0. The record of the window closed last
    /// cannot be asked for from then on.
    ///
    /// Refused in a window, where the text is no time or one that is not later than that of the
    /// window before, and where the window would have too many rounds of probes. A script has at
    /// most the windows of a day: those of a full day are dropped, and the new one is the first of
    /// the next.
    pub fn begin_window(&mut self, alloc: Global, at: &[u8], probes: u32) -> Result<u32, NotBegun>
        ensures begun { IfOk result (λ k. HasBegunWindow self.old at.now probes k self.new) }
        ensures free { IfOk result (λ _. first_against_beginning self.old at.now probes ≡ None) }
        ensures refused { IfErr result (λ why. MayNotBegin self.old at.now probes why) }
        ensures same { IfErr result (λ _. self.new ≡ self.old) }
    {
        match time_in(at) {
            Some(time) => self.begin_at(alloc, time, probes),
            None => Err(self.why_no_time()),
        }
    }

    /// Appends a window without runs to the script, at this time, as `begin_window` does.
    pub(crate) fn begin_at(
        &mut self,
        alloc: Global,
        time: When,
        probes: u32,
    ) -> Result<u32, NotBegun>
        requires time { IsCivilTime time }
        ensures begun { IfOk result (λ k. HasBegunAt self.old time probes k self.new) }
        ensures free { IfOk result (λ _. first_against_begin self.old time probes ≡ None) }
        ensures refused { IfErr result (λ why. MayNotBeginAt self.old time probes why) }
        ensures same { IfErr result (λ _. self.new ≡ self.old) }
    {
        match &self.phase {
            Phase::Between(_) => {}
            Phase::InWindow(_, _) => return Err(NotBegun::InWindow),
            Phase::Moving => unreachable!(),
        }
        match self.script.begin(alloc, time, probes) {
            Ok(number) => {
                // its contract says that the script is sound still
                let _script = self.script.script();
                self.is_draft = true;
                remember(&mut self.closed, None);
                Ok(number)
            }
            Err(why) => Err(not_begun(why)),
        }
    }

    /// Why no window is begun at a text that is no time.
    fn why_no_time(&self) -> NotBegun
        ensures { result ≡ why_no_time self.now }
    {
        match &self.phase {
            Phase::Between(_) => NotBegun::BadTime,
            Phase::InWindow(_, _) => NotBegun::InWindow,
            Phase::Moving => unreachable!(),
        }
    }

    /// Appends a run of the routine, counted from 0, to the window that was begun last, or to the
    /// one that is open, and answers its number there, from 1. It waits for the end of the run that
    /// it follows. A run that joins an open window has not arrived, and nothing else of the window
    /// changes; who sleeps by `is_blocked` asks again.
    ///
    /// Refused where no window was begun since one was opened, and none is open, or one that is not
    /// the script's last; where there is no such routine; where the window has as many runs as it
    /// may; and where the run that is followed is not before it.
    pub fn add_run(&mut self, routine: u32, follows: Option<RunNo>) -> Result<RunNo, NotBegun>
        ensures added { IfOk result (λ r. HasTakenRun self.old routine follows r.0 self.new) }
        ensures free { IfOk result (λ _. first_against_adding self.old routine follows ≡ None) }
        ensures refused { IfErr result (λ why. MayNotAdd self.old routine follows why) }
        ensures same { IfErr result (λ _. self.new ≡ self.old) }
    {
        match &mut self.phase {
            Phase::Between(_) => {
                if !self.is_draft {
                    return Err(NotBegun::NoDraft);
                }
                match self.script.add_run(routine, follows) {
                    Ok(run) => {
                        // its contract says that the script is sound still
                        let _script = self.script.script();
                        Ok(run)
                    }
                    Err(why) => Err(not_added(why)),
                }
            }
            Phase::InWindow(number, table) => {
                join_in(&mut self.script, *number, table, routine, follows)
            }
            Phase::Moving => unreachable!(),
        }
    }

    /// Tells the home, between two windows, that the device was found up at this value, as somebody
    /// turned it by hand.
    ///
    /// Refused in a window, where the home has no such device, and where the device has no such
    /// value.
    pub fn restand(&mut self, d: DeviceNo, value: Value) -> Result<(), NotRestood>
        ensures restood { IfOk result (λ _. HasRestood self.old d.0 value self.new) }
        ensures free { IfOk result (λ _. first_against_restanding self.old d.0 value ≡ None) }
        ensures refused { IfErr result (λ why. MayNotRestand self.old d.0 value why) }
        ensures same { IfErr result (λ _. self.new ≡ self.old) }
    {
        match &mut self.phase {
            Phase::Between(home) => restand_in(home, d, value),
            Phase::InWindow(_, _) => Err(NotRestood::InWindow),
            Phase::Moving => unreachable!(),
        }
    }

    /// Tells the home, between two windows, that the device is lost: it is counted down, so the
    /// next window begins with it down, and a probe finds it. Nothing else changes. One that is
    /// down already may be lost again.
    ///
    /// Refused in a window, and where the home has no such device.
    pub fn lose(&mut self, d: DeviceNo) -> Result<(), NotLost>
        ensures lost { IfOk result (λ _. HasLost self.old d.0 self.new) }
        ensures free { IfOk result (λ _. first_against_losing self.old d.0 ≡ None) }
        ensures refused { IfErr result (λ why. MayNotLose self.old d.0 why) }
        ensures same { IfErr result (λ _. self.new ≡ self.old) }
    {
        match &mut self.phase {
            Phase::Between(home) => lose_in(home, d),
            Phase::InWindow(_, _) => Err(NotLost::InWindow),
            Phase::Moving => unreachable!(),
        }
    }
}

/// The time that these bytes tell, `None` where they are none.
fn time_in(bytes: &[u8]) -> Option<When>
    ensures time { result ≡ time_told bytes.now }
    ensures civil { IfSome result IsCivilTime }
{
    match str::from_utf8(bytes) {
        Ok(text) => match read_time(text) {
            Ok(time) => Some(time),
            Err(_) => None,
        },
        Err(_) => None,
    }
}

fn not_begun(why: NotAppended) -> NotBegun
    ensures { result ≡ begun_why why }
{
    match why {
        NotAppended::NotLater => NotBegun::BadTime,
        NotAppended::TooManyProbes => NotBegun::TooMany,
        NotAppended::NoMemory => NotBegun::NoMemory,
    }
}

pub(crate) fn not_added(why: NotAdded) -> NotBegun
    ensures { result ≡ added_why why }
{
    match why {
        NotAdded::NoWindow => NotBegun::NoDraft,
        NotAdded::NoRoutine => NotBegun::Absent,
        NotAdded::NotBefore => NotBegun::BadFollow,
        NotAdded::TooManyRuns => NotBegun::TooMany,
        NotAdded::NoMemory => NotBegun::NoMemory,
    }
}

/// Tells the home that the device was found at this value.
fn restand_in(home: &mut Home<HandedDevice>, d: DeviceNo, value: Value) -> Result<(), NotRestood>
    ensures restood { IfOk result (λ _. WasRestood home.old d.0 value home.new) }
    ensures free { IfOk result (λ _. first_against_finding home.old d.0 value ≡ None) }
    ensures refused { IfErr result (λ why. first_against_finding home.old d.0 value ≡ Some why) }
    ensures same { IfErr result (λ _. home.new ≡ home.old) }
{
    home.kept_invariant();
    let (Some(kind), Some(device)) = (home.kind(d), home.device(d)) else {
        return Err(NotRestood::Absent);
    };
    if !kind.has(value) {
        return Err(NotRestood::NoValue);
    }
    let found = found_at(device, value);
    home.restand(d, found, value);
    Ok(())
}

/// The device as it is known, found at this value.
fn found_at(device: &HandedDevice, value: Value) -> HandedDevice
    ensures { result ≡ record device.now { value = value } }
{
    HandedDevice {
        number: device.number,
        value,
        turns: device.turns,
        drives: device.drives,
        probes: device.probes,
        faults: device.faults,
    }
}

/// Tells the home that the device is lost.
fn lose_in(home: &mut Home<HandedDevice>, d: DeviceNo) -> Result<(), NotLost>
    ensures lost { IfOk result (λ _. WasLost home.old d.0 home.new) }
    ensures free { IfOk result (λ _. first_against_loss home.old d.0 ≡ None) }
    ensures refused { IfErr result (λ why. first_against_loss home.old d.0 ≡ Some why) }
    ensures same { IfErr result (λ _. home.new ≡ home.old) }
{
    home.kept_invariant();
    if home.world().devices.len() <= d.0 as u64 {
        return Err(NotLost::Absent);
    }
    home.lose(d);
    Ok(())
}
