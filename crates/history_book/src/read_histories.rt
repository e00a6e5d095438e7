//! The history of a window beside what is fixed in the window: what it says of each run, and of its
//! commands.
ghost use Rattle.std.specs.Prelude.{◌≡◌, ◌+◌, ◌<◌, ◌≤◌, ◌&&◌, ◌||◌, IfSome, IsTrue, OnErr, OnOk, Some, [], find, is_none, length, not, option_map, slice_get, ℕ};
ghost use Rattle.command_rules.specs.Rosters.{command_at, commands_of, is_run, plain_run, runs_of};
ghost use Rattle.history_book.specs.Joined.{with_joined};
ghost use Rattle.home_types.specs.declared.commands.Command.{Command};
ghost use Rattle.history_book.specs.Progress.{progress_of};
ghost use Rattle.history_book.specs.ReadHistories.{read_in, with_entry};
ghost use Rattle.history_book.specs.Readings.{is_doomed, is_live, next_command, next_of, pends};
ghost use Rattle.history_book.specs.Settings.{is_strict, is_weak, run_numbers, scheduler_of};
ghost use Rattle.history_book.specs.WellFormed.{may_follow};
ghost use Rattle.home_types.specs.Kinds.{kind_at};
ghost use Rattle.home_types.specs.Limits.{most_commands, most_devices, most_runs};

use crate::books::{Book, PLACES};
use crate::entries::{Entry, Kept};
use crate::progress::RunProgress;
use command_rules::{IndexedRoster, Roster, RosterRun, register_after};
use home_types::{
    Command, DeviceNo, Kind, List, Mode, NoMemory, RunNo, Scheduler, Value, Visibility, World,
};
use std::marker::Model;

/// The history of a window, each entry of which may follow those before it, beside what is fixed in
/// the window.
///
/// Contracts see what is fixed, the entries, and how many more it takes with no memory.
#[derive(Drop)]
pub struct ReadHistory {
    roster: IndexedRoster,
    mode: Mode,
    kinds: List<Kind>,
    first: World,
    book: Book,
    // what the last load of each run found, by its number: that depends on the run's commands,
    // which the book does not know
    registers: [Value; PLACES],
}

impl Model for ReadHistory {
    ghost use Rattle.command_rules.specs.Rosters.{runs_of};
    ghost use Rattle.history_book.specs.ReadHistories.{HistoryState, IsReadWith};

    ghost Value = { HistoryState };

    ghost view = { λ h. record {
      setting = record {
        runs = runs_of h.roster;
        mode = h.mode;
        kinds = h.kinds.items;
        first = h.first.devices.items;
      };
      history = h.book.items;
      spare = h.book.spare;
    } };

    ghost invariant = { λ h. IsReadWith (record {
      setting = record {
        runs = runs_of h.roster;
        mode = h.mode;
        kinds = h.kinds.items;
        first = h.first.devices.items;
      };
      history = h.book.items;
      spare = h.book.spare;
    }) h.registers };
}

impl ReadHistory {
    /// The history of a window that opens, in this book, which is empty. Takes no memory.
    pub fn empty(
        roster: IndexedRoster,
        mode: Mode,
        kinds: List<Kind>,
        first: World,
        book: Book,
    ) -> ReadHistory
        requires no_entry { book.items ≡ [] }
        requires few { length (runs_of roster) ≤ most_runs }
        requires room { 0 < length (runs_of roster) → 0 < book.spare }
        ensures setting { result.setting ≡ record {
          runs = runs_of roster;
          mode = mode;
          kinds = kinds.items;
          first = first.devices.items;
        } }
        ensures history { result.history ≡ [] }
        ensures spare { result.spare ≡ book.spare }
    {
        ReadHistory {
            roster,
            mode,
            kinds,
            first,
            book,
            registers: [0; PLACES],
        }
    }

    /// What is left of it when the window is closed: its mode, the kinds of the home's devices, the
    /// first state, and the entries.
    pub fn into_parts(self) -> (Mode, List<Kind>, World, List<Kept>)
        ensures mode { result.0 ≡ self.setting.mode }
        ensures kinds { result.1.items ≡ self.setting.kinds }
        ensures first { result.2.devices.items ≡ self.setting.first }
        ensures history { result.3.items ≡ self.history }
    {
        let ReadHistory {
            roster: _,
            mode,
            kinds,
            first,
            book,
            registers: _,
        } = self;
        (mode, kinds, first, book.into_list())
    }

    /// Appends an entry, by a step of this maker: a run, or 0 for the detector. Takes no memory.
    ///
    /// Asks for room, and that the entry may follow those before it.
    #[inline(always)]
    pub fn push(&mut self, maker: u32, entry: Entry)
        requires room { 0 < self.old.spare }
        requires follows { IsTrue (may_follow self.old.setting (read_in self.old) entry) }
        ensures { self.new ≡ with_entry self.old maker entry }
    {
        self.book.push(Kept { maker, entry });
        if let Entry::Did(r, k, answer) = entry {
            let at = r.0 as usize;
            let job = command_in(&self.roster, r, k).job;
            self.registers[at] = register_after(job, answer, self.registers[at]);
        }
    }

    /// Appends a run to those of the window, as its last one, which has not arrived, and makes room
    /// for so many entries more than are left. All memory is taken before the run is appended.
    ///
    /// Answers `NoMemory` where there is none to be had: then there may be more room, and all else
    /// stays as it is; the run is dropped.
    pub fn join(&mut self, run: RosterRun, entries: u64) -> Result<(), NoMemory>
        requires number { length self.old.setting.runs < most_runs }
        requires few { length run.routine.commands.items ≤ most_commands }
        requires low { (k : ℕ) (c : Command) → slice_get run.routine.commands.items k ≡ Some c
            → c.device.0 < most_devices }
        requires some { 0 < entries }
        ensures joined { OnOk result
            (self.new.setting ≡ with_joined self.old.setting (plain_run run)) }
        ensures refused { OnErr result (self.new.setting ≡ self.old.setting) }
        ensures history { self.new.history ≡ self.old.history }
        ensures room { OnOk result (self.new.spare ≡ self.old.spare + entries) }
        ensures kept { self.old.spare ≤ self.new.spare }
    {
        let Some(room) = self.book.spare().checked_add(entries) else {
            drop(run);
            return Err(NoMemory);
        };
        if self.book.reserve(room).is_err() {
            drop(run);
            return Err(NoMemory);
        }
        self.roster.join(run)
    }

    /// The runs of the window.
    pub fn roster(&self) -> &Roster
        ensures { runs_of result.now ≡ self.now.setting.runs }
    {
        self.roster.roster()
    }

    /// The runs of the window, with their footprints.
    pub fn indexed_roster(&self) -> &IndexedRoster
        ensures { runs_of result.now ≡ self.now.setting.runs }
    {
        &self.roster
    }

    /// The entries.
    pub fn book(&self) -> &Book
        ensures { result.now.items ≡ self.now.history }
    {
        &self.book
    }

    /// The window's model.
    pub fn model(&self) -> Visibility
        ensures { result ≡ self.now.setting.mode.model }
    {
        self.mode.model
    }

    /// By what runs are placed: the models other than the eventual one serve them when they come.
    pub fn scheduler(&self) -> Scheduler
        ensures { result ≡ scheduler_of self.now.setting.mode }
    {
        match self.mode.model {
            Visibility::Weak | Visibility::Global | Visibility::Partitioned => Scheduler::Fcfs,
            Visibility::Eventual => self.mode.scheduler,
        }
    }

    /// Whether the window is one of the weak model.
    pub fn is_weak(&self) -> bool
        ensures { result ≡ is_weak self.now.setting.mode }
    {
        match self.mode.model {
            Visibility::Weak => true,
            Visibility::Global | Visibility::Partitioned | Visibility::Eventual => false,
        }
    }

    /// Whether the window is one of the two models under which runs do not overlap.
    pub fn is_strict(&self) -> bool
        ensures { result ≡ is_strict self.now.setting.mode }
    {
        match self.mode.model {
            Visibility::Global | Visibility::Partitioned => true,
            Visibility::Weak | Visibility::Eventual => false,
        }
    }

    /// Whether the window has the run.
    pub fn has_run(&self, r: RunNo) -> bool
        ensures { result ≡ is_run self.now.setting.runs r.0 }
    {
        1 <= r.0 && r.0 as u64 <= self.run_count()
    }

    /// How many runs the window has.
    pub fn run_count(&self) -> u64
        ensures count { result ≡ length self.now.setting.runs }
        ensures few { result ≤ most_runs }
    {
        self.roster.roster().runs.len()
    }

    /// How many devices the home has.
    pub fn device_count(&self) -> u64
        ensures { result ≡ length self.now.setting.first }
    {
        self.first.devices.len()
    }

    /// How many entries there are.
    pub fn len(&self) -> u64
        ensures { result ≡ length self.now.history }
    {
        self.book.len()
    }

    /// The kind of the device.
    pub fn kind(&self, d: DeviceNo) -> Kind
        ensures { result ≡ kind_at self.now.setting.kinds d.0 }
    {
        match self.kinds.get(d.0 as u64) {
            Some(kind) => *kind,
            None => Kind::States(0),
        }
    }

    /// What the history says of the run.
    #[inline(always)]
    pub fn progress(&self, r: RunNo) -> RunProgress
        requires { IsTrue (is_run self.now.setting.runs r.0) }
        ensures { result ≡ progress_of ((read_in self.now).run r.0) }
    {
        *self.book.known(r).unwrap()
    }

    /// What the run's last load found.
    #[inline(always)]
    pub fn register(&self, r: RunNo) -> Value
        requires { IsTrue (is_run self.now.setting.runs r.0) }
        ensures { result ≡ ((read_in self.now).run r.0).register }
    {
        self.registers[r.0 as usize]
    }

    /// The number of the run's first command with no answer.
    #[inline(always)]
    pub fn next(&self, r: RunNo) -> u32
        requires { IsTrue (is_run self.now.setting.runs r.0) }
        ensures { result ≡ next_of (read_in self.now) r.0 }
    {
        self.roster.kept_invariant();
        self.progress(r).answered as u32
    }

    /// The run's first command with no answer.
    #[inline(always)]
    pub fn next_command(&self, r: RunNo) -> Option<Command>
        requires { IsTrue (is_run self.now.setting.runs r.0) }
        ensures { result ≡ next_command self.now.setting (read_in self.now) r.0 }
    {
        let next = self.progress(r).answered;
        self.roster.commands(r).get(next as usize).copied()
    }

    /// The run's command of this number.
    pub fn command(&self, r: RunNo, k: u32) -> Command
        requires run { IsTrue (is_run self.now.setting.runs r.0) }
        requires there { k < length (commands_of self.now.setting.runs r.0) }
        ensures { result ≡ command_at self.now.setting.runs r.0 k }
    {
        command_in(&self.roster, r, k)
    }

    /// The device of the run's command with the number `k`; none where there is no such command.
    #[inline(always)]
    pub fn device_of(&self, r: RunNo, k: u32) -> Option<DeviceNo>
        ensures there { IfSome result (λ d. IsTrue (is_run self.now.setting.runs r.0)
            × (k < length (commands_of self.now.setting.runs r.0))) }
        ensures device { IfSome result (λ d. d ≡ (command_at self.now.setting.runs r.0 k).device) }
    {
        if !self.has_run(r) {
            return None;
        }
        match self.roster.commands(r).get(k as usize) {
            Some(command) => Some(command.device),
            None => None,
        }
    }

    /// Whether the run is live and not doomed.
    pub fn is_going(&self, r: RunNo) -> bool
        requires { IsTrue (is_run self.now.setting.runs r.0) }
        ensures { result
            ≡ (is_live (read_in self.now) r.0 && not (is_doomed (read_in self.now) r.0)) }
    {
        let progress = self.progress(r);
        progress.placed.is_some() && progress.ended.is_none() && progress.doomed.is_none()
    }

    /// Whether the run is done with the device, on which its last answered command is, the one with
    /// the number `k`: it is doomed, or has no later command there.
    #[inline(always)]
    pub fn is_done(&self, r: RunNo, k: u32, d: DeviceNo) -> bool
        requires run { IsTrue (is_run self.now.setting.runs r.0) }
        requires there { k < length (commands_of self.now.setting.runs r.0) }
        requires device { (command_at self.now.setting.runs r.0 k).device.0 ≡ d.0 }
        requires answered { next_of (read_in self.now) r.0 ≡ k + 1 }
        ensures { result ≡ (is_doomed (read_in self.now) r.0
            || not (pends self.now.setting (read_in self.now) r.0 d.0)) }
    {
        self.progress(r).doomed.is_some() || self.roster.is_last(r, k)
    }

    /// The smallest run that has not ended.
    pub fn first_unended(&self) -> Option<RunNo>
        ensures { option_map (λ x. x.0) result
            ≡ find (λ r. is_none ((read_in self.now).run r).ended) (run_numbers self.now.setting) }
    {
        'runs: for at in 0..self.run_count() {
            let r = RunNo(at as u32 + 1);
            if self.progress(r).ended.is_none() {
                return Some(r);
            }
        }
        None
    }
}

/// The run's command of this number.
fn command_in(roster: &IndexedRoster, r: RunNo, k: u32) -> Command
    requires run { IsTrue (is_run (runs_of roster.now) r.0) }
    requires there { k < length (commands_of (runs_of roster.now) r.0) }
    ensures { result ≡ command_at (runs_of roster.now) r.0 k }
{
    roster.commands(r)[k as usize]
}
