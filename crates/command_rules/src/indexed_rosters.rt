//! A roster with the footprint of each run, made once: its devices as bits, and which commands are
//! the last ones there.
ghost use Rattle.std.specs.Prelude.{◌≡◌, ◌<◌, ◌≤◌, ◌&&◌, ◌++◌, ◌∷◌, [], IfOk, OnErr, OnOk, IsTrue, Some, length, option_map, slice_get, ℕ};
ghost use Rattle.command_rules.specs.Footprints.{FitsIndex, IsFootprint};
ghost use Rattle.command_rules.specs.Rosters.{commands_of, is_last, is_run, plain_run, reads_first, runs_of, shares, touches, writes_on};
ghost use Rattle.home_types.specs.declared.commands.Command.{Command};
ghost use Rattle.home_types.specs.DeviceSets.{IsFirstFrom};
ghost use Rattle.std.specs.FinSet as set;
ghost use Rattle.home_types.specs.Limits.{most_commands, most_devices};

use crate::jobs::{is_always, reads};
use crate::rosters::{Roster, RosterRun};
use home_types::{Command, DeviceNo, DeviceSet, List, NoMemory, RunNo};
use std::alloc::Global;
use std::marker::Model;

/// The devices of a run's commands, which of its commands are the last ones on their devices, and
/// which of its devices it reads first and writes.
#[derive(Drop)]
pub(crate) struct Footprint {
    devices: DeviceSet,
    /// A bit for each command, the lowest for the first one.
    lasts: u64,
    /// The devices that it reads first.
    first_reads: DeviceSet,
    /// The devices that it writes.
    written: DeviceSet,
}

/// The runs of an open window, with the footprint of each, made once, as the run comes, and never
/// changed: no other call goes over the commands of a run.
///
/// Contracts see the roster.
#[derive(Drop)]
pub struct IndexedRoster {
    roster: Roster,
    footprints: List<Footprint>,
}

impl Model for IndexedRoster {
    ghost use Rattle.std.specs.Prelude.{length};
    ghost use Rattle.command_rules.specs.Footprints.{AreFootprints, FitsIndex};
    ghost use Rattle.command_rules.specs.Rosters.{runs_of};
    ghost use Rattle.command_rules.specs.declared.rosters.Roster.{Roster};

    ghost Value = { Roster };

    ghost view = { λ i. i.roster };

    ghost invariant = { λ i. FitsIndex (runs_of i.roster)
        × AreFootprints (length i.roster.runs.items) (runs_of i.roster) i.footprints.items };
}

impl IndexedRoster {
    /// Makes the footprints of these runs.
    ///
    /// Answers `NoMemory` where there is none to be had; the roster is dropped then.
    pub fn open(alloc: Global, roster: Roster) -> Result<IndexedRoster, NoMemory>
        requires { FitsIndex (runs_of roster) }
        ensures { IfOk result (λ indexed. indexed ≡ roster) }
    {
        let mut footprints = List::new(alloc);
        footprints.reserve(roster.runs.len())?;
        'runs: for at in 0..roster.runs.len() {
            let run = roster.runs.get(at).unwrap();
            footprints.push(footprint_of(run.routine.commands.as_slice()))?;
        }
        Ok(IndexedRoster { roster, footprints })
    }

    /// Appends a run, which is the last one then, with its footprint. All memory is taken before
    /// anything is appended.
    ///
    /// Answers `NoMemory` where there is none to be had: the runs stay as they are, and the run is
    /// dropped.
    pub fn join(&mut self, run: RosterRun) -> Result<(), NoMemory>
        requires few { length run.routine.commands.items ≤ most_commands }
        requires low { (k : ℕ) (c : Command) → slice_get run.routine.commands.items k ≡ Some c
            → c.device.0 < most_devices }
        ensures joined { OnOk result
            (runs_of self.new ≡ runs_of self.old ++ plain_run run ∷ []) }
        ensures refused { OnErr result (runs_of self.new ≡ runs_of self.old) }
    {
        if self.roster.runs.reserve(1).is_err() {
            drop(run);
            return Err(NoMemory);
        }
        if self.footprints.reserve(1).is_err() {
            drop(run);
            return Err(NoMemory);
        }
        let footprint = footprint_of(run.routine.commands.as_slice());
        let Ok(()) = self.footprints.push(footprint) else {
            unreachable!();
        };
        let Ok(()) = self.roster.runs.push(run) else {
            unreachable!();
        };
        Ok(())
    }

    /// The runs.
    pub fn roster(&self) -> &Roster
        ensures { result.now ≡ self.now }
    {
        &self.roster
    }

    /// Does nothing. Its contract is what holds of every indexed roster.
    pub fn kept_invariant(&self)
        ensures { FitsIndex (runs_of self.now) }
    {
        let _ = &self.footprints;
    }

    /// The commands of `r`, in order.
    pub fn commands(&self, r: RunNo) -> &[Command]
        requires { IsTrue (is_run (runs_of self.now) r.0) }
        ensures { result.now ≡ commands_of (runs_of self.now) r.0 }
    {
        self.roster.commands(r)
    }

    /// Whether some command of `r` is on the device `d`.
    pub fn touches(&self, r: RunNo, d: DeviceNo) -> bool
        requires { IsTrue (is_run (runs_of self.now) r.0) }
        ensures { result ≡ touches (runs_of self.now) r.0 d.0 }
    {
        self.footprint(r).devices.has(d)
    }

    /// Whether some device is touched by both `a` and `b`.
    pub fn shares(&self, a: RunNo, b: RunNo) -> bool
        requires one { IsTrue (is_run (runs_of self.now) a.0) }
        requires other { IsTrue (is_run (runs_of self.now) b.0) }
        ensures { result ≡ shares (runs_of self.now) a.0 b.0 }
    {
        let others = &self.footprint(b).devices;
        self.footprint(a).devices.meets(others)
    }

    /// Whether the command of `r` with the number `k`, from 0, is its last one on its device.
    pub fn is_last(&self, r: RunNo, k: u32) -> bool
        requires run { IsTrue (is_run (runs_of self.now) r.0) }
        requires there { k < length (commands_of (runs_of self.now) r.0) }
        ensures { result ≡ is_last (runs_of self.now) r.0 k }
    {
        (self.footprint(r).lasts >> k) & 1 == 1
    }

    /// The devices that `r` touches.
    pub fn devices(&self, r: RunNo) -> &DeviceSet
        requires { IsTrue (is_run (runs_of self.now) r.0) }
        ensures { (d : ℕ) → set.contains result.now d ≡ touches (runs_of self.now) r.0 d }
    {
        &self.footprint(r).devices
    }

    /// The smallest device from `from` on that `r` touches. `None` where it touches none there.
    pub fn next_device(&self, r: RunNo, from: DeviceNo) -> Option<DeviceNo>
        requires { IsTrue (is_run (runs_of self.now) r.0) }
        ensures { IsFirstFrom (touches (runs_of self.now) r.0) from.0
            (option_map (λ d. d.0) result) }
    {
        self.footprint(r).devices.next(from)
    }

    /// Whether `r` reads the device `d` first.
    pub fn reads_first(&self, r: RunNo, d: DeviceNo) -> bool
        requires { IsTrue (is_run (runs_of self.now) r.0) }
        ensures { result ≡ reads_first (runs_of self.now) r.0 d.0 }
    {
        self.footprint(r).first_reads.has(d)
    }

    /// The devices that `r` reads first and `x` writes.
    pub fn first_reads_of(&self, r: RunNo, x: RunNo) -> DeviceSet
        requires reader { IsTrue (is_run (runs_of self.now) r.0) }
        requires writer { IsTrue (is_run (runs_of self.now) x.0) }
        ensures { (d : ℕ) → set.contains result d
            ≡ (reads_first (runs_of self.now) r.0 d && writes_on (runs_of self.now) x.0 d) }
    {
        let written = &self.footprint(x).written;
        self.footprint(r).first_reads.both(written)
    }

    /// The footprint of the run.
    fn footprint(&self, r: RunNo) -> &Footprint
        requires { IsTrue (is_run (runs_of self.now) r.0) }
        ensures footprint { IsFootprint (commands_of (runs_of self.now) r.0) result.now }
        ensures few { length (commands_of (runs_of self.now) r.0) ≤ most_commands }
    {
        self.footprints.get(r.0 as u64 - 1).unwrap()
    }
}

/// The footprint of a run with these commands. Goes over them from the last one on: a command is
/// the last one on its device where no later one is there, and the first one where no earlier one
/// is.
fn footprint_of(commands: &[Command]) -> Footprint
    requires few { length commands.now ≤ most_commands }
    requires low { (k : ℕ) (c : Command) → slice_get commands.now k ≡ Some c
        → c.device.0 < most_devices }
    ensures { IsFootprint commands.now result }
{
    let mut devices = DeviceSet::none();
    let mut lasts: u64 = 0;
    let mut first_reads = DeviceSet::none();
    let mut written = DeviceSet::none();
    'commands: for passed in 0..commands.len() {
        let k = commands.len() - 1 - passed;
        let device = commands[k].device;
        if reads(commands[k].job) {
            first_reads.add(device);
        } else {
            if is_always(commands[k].when) {
                first_reads.remove(device);
            }
            written.add(device);
        }
        if !devices.has(device) {
            devices.add(device);
            lasts |= 1 << k;
        }
    }
    Footprint {
        devices,
        lasts,
        first_reads,
        written,
    }
}
