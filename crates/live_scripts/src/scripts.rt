//! A sound script that grows.
ghost use Rattle.std.specs.Prelude.{◌≡◌, ◌++◌, ◌+◌, ◌<◌, ◌∷◌, [], IfErr, IfOk, IsOk, None, Some, length, true};
ghost use Rattle.command_rules.specs.Rosters.{plain_run, runs_of};
ghost use Rattle.day_clock.specs.Times.{IsCivilTime};
ghost use Rattle.live_scripts.specs.Growth.{CannotAdd, CannotBegin, HasBegun, HasRoomForRun, HasRun, first_against_run, first_against_window, first_in_window, is_earlier, is_later_than_last, new_run};
ghost use Rattle.routine_reader.specs.Rosters.{run_of_text, script_runs};
ghost use Rattle.routine_reader.specs.Scripts.{plain_script};
ghost use Rattle.routine_reader.specs.Sound.{IsSound};

use crate::refusals::{NotAdded, NotBegun};
use command_rules::{Roster, RosterRun};
use day_clock::When;
use home_types::{List, NoMemory, RunNo, limits};
use routine_reader::{RunText, Script, WindowText, roster};
use std::alloc::Global;
use std::marker::Model;

/// The seed of a window that is begun; nothing is drawn from it where the window is stepped by
/// hand.
const SEED: u64 = 1;

/// A sound script to which windows can be appended. The type keeps that it is sound.
#[derive(Drop)]
pub struct LiveScript {
    script: Script,
}

impl Model for LiveScript {
    ghost use Rattle.routine_reader.specs.Scripts.{plain_script};
    ghost use Rattle.routine_reader.specs.Sound.{IsSound};
    ghost use Rattle.routine_reader.specs.declared.scripts.Script.{Script};

    ghost Value = { Script };

    ghost view = { λ s. s.script };

    ghost invariant = { λ s. IsSound (plain_script s.script) };
}

impl LiveScript {
    /// The script, with its windows so far.
    pub fn of(script: Script) -> LiveScript
        requires sound { IsSound (plain_script script) }
        ensures { result ≡ script }
    {
        LiveScript { script }
    }

    /// The script as it is now, which is sound.
    pub fn script(&self) -> &Script
        ensures is { result.now ≡ self.now }
        ensures sound { IsSound (plain_script self.now) }
    {
        &self.script
    }

    /// The runs of the window with this number, counted from 0, with the commands of their
    /// routines, or `NoMemory`.
    pub fn roster(&self, alloc: Global, window: u32) -> Result<Roster, NoMemory>
        requires window { window < length self.now.windows.items }
        ensures { IfOk result (λ roster. runs_of roster ≡ script_runs self.now window) }
    {
        roster(alloc, &self.script, window)
    }

    /// Appends a window without runs, at this time and with so many rounds of probes, and answers
    /// its number, from 0. There is room for all runs that it may have.
    ///
    /// A script has the windows of a day: where it has all 288 of one, they are dropped, and the
    /// window is the first of the next. Its time has to be later than that of the window before,
    /// also of one that is dropped.
    pub fn begin(&mut self, alloc: Global, at: When, probes: u32) -> Result<u32, NotBegun>
        requires time { IsCivilTime at }
        ensures begun { IfOk result (λ k. HasBegun self.old at probes k self.new) }
        ensures free { IfOk result (λ _. first_against_window self.old at probes ≡ None) }
        ensures refused { IfErr result (λ why. CannotBegin self.old at probes why) }
        ensures same { IfErr result (λ _. self.new ≡ self.old) }
    {
        if !self.is_later_than_last(at) {
            return Err(NotBegun::NotLater);
        }
        if probes > limits::PROBES {
            return Err(NotBegun::TooManyProbes);
        }
        let mut runs = List::new(alloc);
        if runs.reserve(limits::RUNS as u64).is_err() {
            drop(runs);
            return Err(NotBegun::NoMemory);
        }
        let window = WindowText {
            at,
            seed: SEED,
            probes,
            turns: List::new(alloc),
            runs,
        };
        if self.script.windows.len() < limits::WINDOWS as u64 {
            append(&mut self.script.windows, window)
        } else {
            let mut windows = List::new(alloc);
            match append(&mut windows, window) {
                Ok(number) => {
                    self.script.windows = windows;
                    Ok(number)
                }
                Err(why) => {
                    drop(windows);
                    Err(why)
                }
            }
        }
    }

    /// Whether a window at this time may be appended.
    fn is_later_than_last(&self, at: When) -> bool
        ensures { result ≡ is_later_than_last self.now at }
    {
        match self.script.windows.as_slice().last() {
            Some(last) => last.at.is_before(at),
            None => true,
        }
    }

    /// Appends a run of this routine, counted from 0, to the last window, and answers its number
    /// there, from 1. It waits for the end of the run that it follows. Takes no memory where the
    /// window has room for it.
    pub fn add_run(&mut self, routine: u32, follows: Option<RunNo>) -> Result<RunNo, NotAdded>
        ensures added { IfOk result (λ r. HasRun self.old routine follows r.0 self.new) }
        ensures free { IfOk result (λ _. first_against_run self.old routine follows ≡ None) }
        ensures roomy { first_against_run self.old routine follows ≡ None
            → HasRoomForRun self.old → IsOk result }
        ensures refused { IfErr result (λ why. CannotAdd self.old routine follows why) }
        ensures same { IfErr result (λ _. self.new ≡ self.old) }
    {
        self.allows(routine, follows)?;
        match self.script.windows.pop() {
            Some(window) => {
                let mut window = window;
                let added = append_run(&mut window, routine, follows);
                let kept = self.script.windows.push(window);
                kept.unwrap();
                added
            }
            None => unreachable!(),
        }
    }

    /// The run that `add_run` would append, with the commands of its routine. Where it is answered,
    /// the window has room for it: so `add_run` takes no memory, and is not refused.
    pub fn next_run(&self, routine: u32, follows: Option<RunNo>) -> Result<RosterRun, NotAdded>
        ensures run { IfOk result
            (λ run. plain_run run ≡ run_of_text self.now (new_run routine follows)) }
        ensures free { IfOk result (λ _. first_against_run self.now routine follows ≡ None) }
        ensures room { IfOk result (λ _. HasRoomForRun self.now) }
        ensures refused { IfErr result (λ why. CannotAdd self.now routine follows why) }
    {
        self.allows(routine, follows)?;
        if !self.has_room_for_run() {
            return Err(NotAdded::NoMemory);
        }
        let text = &self.script.routines.as_slice()[routine as usize];
        match text.routine.share() {
            Ok(routine) => Ok(RosterRun { routine, follows }),
            Err(NoMemory) => Err(NotAdded::NoMemory),
        }
    }

    /// Whether a run of this routine, which follows the other, may be appended; if not, the first
    /// reason against it.
    fn allows(&self, routine: u32, follows: Option<RunNo>) -> Result<(), NotAdded>
        ensures free { IfOk result (λ _. first_against_run self.now routine follows ≡ None) }
        ensures refused { IfErr result
            (λ why. first_against_run self.now routine follows ≡ Some why) }
    {
        if self.script.routines.len() <= routine as u64 {
            return Err(NotAdded::NoRoutine);
        }
        match self.script.windows.as_slice().last() {
            Some(window) => takes_run(window, follows),
            None => Err(NotAdded::NoWindow),
        }
    }

    /// Whether the last window has room for one run more.
    fn has_room_for_run(&self) -> bool
        ensures { result ≡ true → HasRoomForRun self.now }
    {
        match self.script.windows.as_slice().last() {
            Some(window) => window.runs.spare() > 0,
            None => false,
        }
    }
}

/// Appends a window, and answers its number.
fn append(windows: &mut List<WindowText>, window: WindowText) -> Result<u32, NotBegun>
    requires few { length windows.old.items < 288 }
    ensures number { IfOk result (λ k. k ≡ length windows.old.items) }
    ensures appended { IfOk result (λ _. windows.new.items ≡ windows.old.items ++ window ∷ []) }
    ensures memory { IfErr result (λ why. why ≡ NotBegun.NoMemory) }
    ensures same { IfErr result (λ _. windows.new ≡ windows.old) }
{
    let number = windows.len() as u32;
    match windows.push(window) {
        Ok(()) => Ok(number),
        Err(NoMemory) => Err(NotBegun::NoMemory),
    }
}

/// Appends a run to the window, and answers its number.
fn append_run(
    window: &mut WindowText,
    routine: u32,
    follows: Option<RunNo>,
) -> Result<RunNo, NotAdded>
    requires free { first_in_window window.old follows ≡ None }
    ensures number { IfOk result (λ r. r.0 ≡ length window.old.runs.items + 1) }
    ensures appended { IfOk result (λ _. window.new.runs.items
        ≡ window.old.runs.items ++ new_run routine follows ∷ []) }
    ensures rest { IfOk result (λ _. window.new ≡ record window.old { runs = window.new.runs }) }
    ensures roomy { 0 < window.old.runs.spare → IsOk result }
    ensures memory { IfErr result (λ why. why ≡ NotAdded.NoMemory) }
    ensures same { IfErr result (λ _. window.new ≡ window.old) }
{
    let earlier = window.runs.len();
    match window.runs.push(RunText { routine, follows }) {
        Ok(()) => Ok(RunNo(earlier as u32 + 1)),
        Err(NoMemory) => Err(NotAdded::NoMemory),
    }
}

/// Whether the window may have one run more, which follows this one; if not, the first reason
/// against it.
fn takes_run(window: &WindowText, follows: Option<RunNo>) -> Result<(), NotAdded>
    ensures free { IfOk result (λ _. first_in_window window.now follows ≡ None) }
    ensures refused { IfErr result (λ why. first_in_window window.now follows ≡ Some why) }
{
    let earlier = window.runs.len();
    if earlier >= limits::RUNS as u64 {
        return Err(NotAdded::TooManyRuns);
    }
    if !is_earlier(follows, earlier as u32) {
        return Err(NotAdded::NotBefore);
    }
    Ok(())
}

/// Whether a run behind so many others may follow this one.
fn is_earlier(follows: Option<RunNo>, earlier: u32) -> bool
    ensures { result ≡ is_earlier follows earlier }
{
    match follows {
        Some(run) => 1 <= run.0 && run.0 <= earlier,
        None => true,
    }
}
