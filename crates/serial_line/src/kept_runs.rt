//! The runs of a window, of which a line keeps the devices, and whom they follow.
ghost use Rattle.std.specs.Prelude.{◌≡◌, ◌<◌, IfOk, Some, length, option_copied, option_map, slice_get, ℕ};
ghost use Rattle.std.specs.FinSet as set;
ghost use Rattle.std.specs.List.{list_any};
ghost use Rattle.command_rules.specs.Apart.{meet};
ghost use Rattle.command_rules.specs.Footprints.{FitsIndex};
ghost use Rattle.command_rules.specs.Rosters.{follows, is_on, plain_run, run_in_roster, runs_of, shares, touches};
ghost use Rattle.home_types.specs.Limits.{most_devices, most_runs};
ghost use Rattle.home_types.specs.declared.commands.Command.{Command};
ghost use Rattle.serial_line.specs.KeptRuns.{AreKeptOf, KeepsOneMore, has_device, kept_run};

use command_rules::{Roster, RosterRun};
use home_types::limits::RUNS;
use home_types::{Command, DeviceNo, DeviceSet, Item, List, NoMemory, RunNo};
use std::alloc::Global;
use std::marker::Model;

/// The devices of a run's commands, and the run that it follows.
#[derive(Drop)]
pub(crate) struct KeptRun {
    pub(crate) devices: DeviceSet,
    pub(crate) follows: Option<RunNo>,
}

/// The runs of a window, in the order of their numbers, with room for as many as a window may have.
///
/// Contracts see each with one command for each of its devices.
#[derive(Drop)]
pub(crate) struct KeptRuns {
    runs: List<KeptRun>,
}

impl Model for KeptRuns {
    ghost use Rattle.std.specs.Prelude.{List, map};
    ghost use Rattle.std.specs.Coded.{coded_list};
    ghost use Rattle.command_rules.specs.Rosters.{Run};
    ghost use Rattle.serial_line.specs.KeptRuns.{kept_run, run_code};

    ghost Value = { List Run };

    ghost coded = { coded_list run_code };

    ghost view = { λ k. map kept_run k.runs.items };

    ghost use Rattle.serial_line.specs.KeptRuns.{HasRoomForRuns};

    ghost invariant = { λ k. HasRoomForRuns k.runs };
}

impl KeptRuns {
    /// Keeps the devices of the runs of this roster, and whom they follow, with room for as many
    /// runs as a window may have.
    ///
    /// Answers `NoMemory` where there is none to be had.
    pub(crate) fn of(alloc: Global, roster: &Roster) -> Result<KeptRuns, NoMemory>
        requires { FitsIndex (runs_of roster.now) }
        ensures { IfOk result (λ kept. AreKeptOf (runs_of roster.now) kept) }
    {
        let mut runs = List::new(alloc);
        runs.reserve(roster.runs.len().max(RUNS as u64))?;
        'runs: for at in 0..roster.runs.len() {
            let run = roster.runs.get(at).unwrap();
            runs.push(kept_of(run))?;
        }
        Ok(KeptRuns { runs })
    }

    /// Keeps one run more, the last one then. Takes no memory.
    pub(crate) fn join(&mut self, run: &RosterRun)
        requires few { length self.old < most_runs }
        requires low { (k : ℕ) (c : Command) → slice_get run.now.routine.commands.items k ≡ Some c
            → c.device.0 < most_devices }
        ensures { KeepsOneMore self.old self.new (plain_run run.now) }
    {
        let Ok(()) = self.runs.push(kept_of(run)) else {
            unreachable!();
        };
    }

    /// Whether the items share a device, or are runs of which one follows the other.
    pub(crate) fn meet(&self, i: Item, j: Item) -> bool
        ensures { result ≡ meet self.now i j }
    {
        match i {
            Item::Ran(one) => match j {
                Item::Ran(other) => {
                    self.share(one, other) || self.follows(one, other) || self.follows(other, one)
                }
                Item::Failed(device, _) => self.touches(one, device),
                Item::Back(device, _) => self.touches(one, device),
            },
            Item::Failed(device, _) => self.has_device(device, j),
            Item::Back(device, _) => self.has_device(device, j),
        }
    }

    /// Whether the device is one of the item's.
    fn has_device(&self, device: DeviceNo, item: Item) -> bool
        ensures { result ≡ has_device self.now device.0 item }
    {
        match item {
            Item::Ran(run) => self.touches(run, device),
            Item::Failed(failed, _) => device == failed,
            Item::Back(back, _) => device == back,
        }
    }

    /// Whether some device is one of both runs.
    fn share(&self, one: RunNo, other: RunNo) -> bool
        ensures { result ≡ shares self.now one.0 other.0 }
    {
        match self.run(one) {
            Some(kept) => self.touches_one_of(other, &kept.devices),
            None => false,
        }
    }

    /// Whether one of the devices is one of the run's.
    fn touches_one_of(&self, run: RunNo, devices: &DeviceSet) -> bool
        ensures { result ≡ list_any (touches self.now run.0) (set.items devices.now) }
    {
        match self.run(run) {
            Some(kept) => kept.devices.meets(devices),
            None => false,
        }
    }

    /// Whether the device is one of the run's.
    fn touches(&self, run: RunNo, device: DeviceNo) -> bool
        ensures { result ≡ touches self.now run.0 device.0 }
    {
        match self.run(run) {
            Some(kept) => kept.devices.has(device),
            None => false,
        }
    }

    /// Whether the run follows this one.
    fn follows(&self, run: RunNo, first: RunNo) -> bool
        ensures { result ≡ follows self.now run.0 first.0 }
    {
        match self.run(run) {
            Some(kept) => kept.follows == Some(first),
            None => false,
        }
    }

    /// What is kept of the run, `None` where there is none of this number.
    fn run(&self, run: RunNo) -> Option<&KeptRun>
        ensures { option_map kept_run (option_copied result) ≡ run_in_roster self.now run.0 }
    {
        if run.0 == 0 {
            return None;
        }
        self.runs.get(run.0 as u64 - 1)
    }
}

/// What is kept of the run: the devices of its commands, and whom it follows.
fn kept_of(run: &RosterRun) -> KeptRun
    requires { (k : ℕ) (c : Command) → slice_get run.now.routine.commands.items k ≡ Some c
        → c.device.0 < most_devices }
    ensures devices { (d : ℕ) → set.contains result.devices d
        ≡ list_any (is_on d) run.now.routine.commands.items }
    ensures leader { result.follows ≡ run.now.follows }
{
    KeptRun {
        devices: devices_of(run.routine.commands.as_slice()),
        follows: run.follows,
    }
}

/// The devices of the commands.
fn devices_of(commands: &[Command]) -> DeviceSet
    requires { (k : ℕ) (c : Command) → slice_get commands.now k ≡ Some c
        → c.device.0 < most_devices }
    ensures { (d : ℕ) → set.contains result d ≡ list_any (is_on d) commands.now }
{
    let mut devices = DeviceSet::none();
    'commands: for command in commands {
        devices.add(command.device);
    }
    devices
}
