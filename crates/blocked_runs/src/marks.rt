//! The runs of a window that are marked as blocked, each at a device.
ghost use Rattle.std.specs.Prelude.{◌≡◌, ◌≢◌, IfOk, IsTrue, not, true};
ghost use Rattle.blocked_runs.specs.Marks.{AreLeft, HasMarked, NoneMarked, is_marked};
ghost use Rattle.command_rules.specs.Rosters.{is_run, runs_of, touches};

use crate::run_bits::{bit_of, has_bit};
use command_rules::IndexedRoster;
use home_types::{DeviceNo, List, NoMemory, RunNo};
use std::alloc::Global;
use std::marker::Model;

/// The runs of a window that are marked, a bit for each run, and for each device those that were
/// marked there.
///
/// A run that is marked no more may still have its bit at a device.
#[derive(Drop)]
pub struct BlockedRuns {
    runs: u64,
    at: List<u64>,
}

impl Model for BlockedRuns {
    ghost use Rattle.blocked_runs.specs.Marks.{BlockedState};

    ghost Value = { BlockedState };

    ghost view = { λ b. record { runs = b.runs; at = b.at.items } };
}

impl BlockedRuns {
    /// No run is marked, in a home of so many devices. Takes all memory that it needs.
    pub fn open(alloc: Global, devices: u64) -> Result<BlockedRuns, NoMemory>
        ensures { IfOk result (λ blocked. NoneMarked blocked) }
    {
        let mut at = List::new(alloc);
        at.reserve(devices)?;
        'devices: for _ in 0..devices {
            at.push(0)?;
        }
        Ok(BlockedRuns { runs: 0, at })
    }

    /// Whether the run is marked.
    pub fn is_marked(&self, r: RunNo) -> bool
        ensures { result ≡ is_marked self.now r.0 }
    {
        has_bit(self.runs, r)
    }

    /// The runs that are marked, the run r as the bit r - 1.
    pub fn marked(&self) -> u64
        ensures { result ≡ self.now.runs }
    {
        self.runs
    }

    /// Marks the run at this device. A run above 64 and one at no device of the home stay as they
    /// are.
    pub fn mark(&mut self, r: RunNo, d: DeviceNo)
        ensures { HasMarked self.old r.0 d.0 self.new }
    {
        let Some(there) = self.at.get(d.0 as u64) else {
            return;
        };
        let bit = bit_of(r);
        let with = *there | bit;
        self.at.set(d.0 as u64, with);
        self.runs |= bit;
    }

    /// Those that were marked at the device are marked no more.
    pub fn unmark_at(&mut self, d: DeviceNo)
        ensures { AreLeft self.old self.new (λ e. e ≢ d.0) }
    {
        let Some(there) = self.at.get(d.0 as u64) else {
            return;
        };
        self.runs &= !*there;
        self.at.set(d.0 as u64, 0);
    }

    /// Those that were marked at a device of the run are marked no more.
    pub fn unmark_among(&mut self, roster: &IndexedRoster, r: RunNo)
        requires { IsTrue (is_run (runs_of roster.now) r.0) }
        ensures { AreLeft self.old self.new (λ d. not (touches (runs_of roster.now) r.0 d) ≡ true) }
    {
        if self.runs == 0 {
            return;
        }
        roster.kept_invariant();
        let devices = roster.devices(r);
        let mut from = DeviceNo(0);
        'marked: while let Some(d) = devices.next(from) {
            self.unmark_at(d);
            from = DeviceNo(d.0 + 1);
        }
    }

    /// No run is marked any more.
    pub fn unmark_all(&mut self)
        ensures { NoneMarked self.new }
    {
        self.runs = 0;
    }
}
