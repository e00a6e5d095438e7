//! The rooms of a home, and what each of them has of a window.
ghost use Rattle.command_rules.specs.Rosters.{plain_run, runs_of};
ghost use Rattle.std.specs.Prelude.{◌≡◌, IfOk, map};

use command_rules::{Roster, RosterRun};
use history_book::WindowRecord;
use home_types::{DeviceNo, List, NoMemory, RunNo, Text};
use std::alloc::Global;

/// The rooms of a home, numbered from 0 in the order of their first devices.
#[derive(Drop)]
pub struct Rooms {
    pub names: List<Text>,
    /// The number of the room of each device of the home.
    pub room_of: List<u32>,
}

/// What a room has of a window, as a window of its own.
#[derive(Drop)]
pub struct RoomRoster {
    /// The number of the room.
    pub room: u32,
    /// The home's numbers of the room's devices, in ascending order. The room's own number of a
    /// device is its place here.
    pub devices: List<DeviceNo>,
    /// The home's numbers of the room's runs, in ascending order. The room's own numbers count
    /// from 1.
    pub runs: List<RunNo>,
    /// The room's runs, in the room's own numbers.
    pub roster: Roster,
}

/// A closed window of a room. The record speaks in the room's own numbers.
#[derive(Drop)]
pub struct RoomWindow {
    pub roster: RoomRoster,
    pub closed: WindowRecord,
}

/// The same runs for one more owner; no command is copied.
fn share_runs(alloc: Global, runs: &[RosterRun]) -> Result<List<RosterRun>, NoMemory>
    ensures { IfOk result (λ shared. map plain_run shared.items ≡ map plain_run runs.now) }
{
    let mut shared = List::new(alloc);
    'runs: for run in runs {
        shared.push(RosterRun {
            routine: run.routine.share()?,
            follows: run.follows,
        })?;
    }
    Ok(shared)
}

impl RoomRoster {
    /// The room's runs once more, for the hub that is opened with them; no command is copied.
    pub fn runs_again(&self, alloc: Global) -> Result<Roster, NoMemory>
        ensures { IfOk result (λ again. runs_of again ≡ runs_of self.now.roster) }
    {
        Ok(Roster {
            runs: share_runs(alloc, self.roster.runs.as_slice())?,
        })
    }
}
