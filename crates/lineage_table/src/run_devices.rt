//! To which devices each run has an access.
ghost use Rattle.std.specs.Prelude.{◌≡◌, ◌<◌, ◌==◌, ◌↔◌, IfOk, IsTrue, length, option_map};
ghost use Rattle.home_types.specs.DeviceSets.{IsFirstFrom};
ghost use Rattle.home_types.specs.Limits.{most_devices};
ghost use Rattle.lineage_table.specs.RunDevices.{AreEmpty, HasLess, HasMore, HaveSets, is_in};
ghost use Rattle.std.specs.FinSet as set;
ghost use Rattle.std.specs.Prelude.{◌&&◌, ℕ};

use home_types::limits::RUNS;
use home_types::{DeviceNo, DeviceSet, NoMemory, RunNo};
use std::alloc::Global;
use std::marker::Model;

/// How many sets there are: one for each run that a window may have, by its number, and one for 0.
const SETS: usize = RUNS as usize + 1;

/// For each run number that a window may have a set of devices.
#[derive(Drop)]
pub(crate) struct RunDevices {
    sets: Vec<DeviceSet>,
}

impl Model for RunDevices {
    ghost use Rattle.std.specs.Prelude.{List};
    ghost use Rattle.std.specs.Coded.{coded_list, coded_ℕ};
    ghost use Rattle.std.specs.FinSet as set;
    ghost use Rattle.home_types.specs.DeviceSets.{Devices};
    ghost use Rattle.lineage_table.specs.RunDevices.{HaveSets};

    ghost Value = { List Devices };

    ghost coded = { coded_list (set.code coded_ℕ) };

    ghost view = { λ s. s.sets.items };

    ghost invariant = { λ s. HaveSets s.sets.items };
}

impl RunDevices {
    /// An empty set for each run number that a window may have.
    ///
    /// Answers `NoMemory` where there is none to be had.
    pub(crate) fn open(alloc: Global) -> Result<RunDevices, NoMemory>
        ensures sets { IfOk result HaveSets }
        ensures none { IfOk result AreEmpty }
    {
        let Ok(mut sets) = Vec::with_capacity(alloc, SETS) else {
            return Err(NoMemory);
        };
        'runs: for _ in 0..SETS {
            sets.push_reserved(DeviceSet::none());
        }
        Ok(RunDevices { sets })
    }

    /// Whether there is a set for the run.
    pub(crate) fn has_set(&self, r: RunNo) -> bool
        ensures { IsTrue result ↔ r.0 < length self.now }
    {
        (r.0 as usize) < self.sets.len()
    }

    /// Puts the device into the set of the run, where there is one.
    pub(crate) fn add(&mut self, r: RunNo, d: DeviceNo)
        requires { d.0 < most_devices }
        ensures { HasMore r.0 d.0 self.old self.new }
    {
        if (r.0 as usize) < self.sets.len() {
            self.sets[r.0 as usize].add(d);
        }
    }

    /// Takes the device out of the set of the run, where there is one.
    pub(crate) fn remove(&mut self, r: RunNo, d: DeviceNo)
        requires { d.0 < most_devices }
        ensures { HasLess (λ q. q == r.0) d.0 self.old self.new }
    {
        if (r.0 as usize) < self.sets.len() {
            self.sets[r.0 as usize].remove(d);
        }
    }

    /// The devices of the run's set that are in this one too.
    pub(crate) fn among(&self, r: RunNo, devices: &DeviceSet) -> DeviceSet
        requires { r.0 < length self.now }
        ensures { (d : ℕ) → set.contains result d
            ≡ (is_in self.now r.0 d && set.contains devices.now d) }
    {
        self.sets[r.0 as usize].both(devices)
    }

    /// The smallest device of the run's set from `from` on.
    pub(crate) fn next(&self, r: RunNo, from: DeviceNo) -> Option<DeviceNo>
        requires { r.0 < length self.now }
        ensures { IsFirstFrom (λ d. is_in self.now r.0 d) from.0 (option_map (λ d. d.0) result) }
    {
        self.sets[r.0 as usize].next(from)
    }
}
