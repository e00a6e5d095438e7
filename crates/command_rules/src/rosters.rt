ghost use Rattle.std.specs.Prelude.{◌≡◌, ◌<◌, ◌^◌, IsTrue, length};

use crate::footprints::{
    first_command_on, has_command_on, last_command_on, settled_by_read, sum_to_last,
};
use crate::jobs::writes;
use home_types::{Command, DeviceNo, List, Routine, RunNo};

/// A run of a window: its routine, and the run whose end it waits for.
#[derive(Drop)]
pub struct RosterRun {
    pub routine: Routine,
    /// A run with a smaller number.
    pub follows: Option<RunNo>,
}

/// The runs of a window, in the order of their numbers, which count from 1.
#[derive(Drop)]
pub struct Roster {
    pub runs: List<RosterRun>,
}

impl Roster {
    ghost use Rattle.command_rules.specs.Rosters.{runs_of, is_run, commands_of, touches, first_on, last_on, reads_first, writes_on, estimate_to_last, followed_by, shares};

    /// The commands of `r`, in order.
    pub fn commands(&self, r: RunNo) -> &[Command]
        requires { IsTrue (is_run (runs_of self.now) r.0) }
        ensures { result.now ≡ commands_of (runs_of self.now) r.0 }
    {
        let run = self.runs.get(r.0 as u64 - 1).unwrap();
        run.routine.commands.as_slice()
    }

    /// Whether some command of `r` is on the device `d`.
    pub fn touches(&self, r: RunNo, d: DeviceNo) -> bool
        requires { IsTrue (is_run (runs_of self.now) r.0) }
        ensures { result ≡ touches (runs_of self.now) r.0 d.0 }
    {
        has_command_on(self.commands(r), d)
    }

    /// The number, from 0, of the first command of `r` on the device `d`. `None` where no command
    /// is on it.
    pub fn first(&self, r: RunNo, d: DeviceNo) -> Option<u32>
        requires run { IsTrue (is_run (runs_of self.now) r.0) }
        requires few { length (commands_of (runs_of self.now) r.0) < 2 ^ 32 }
        ensures { result ≡ first_on (runs_of self.now) r.0 d.0 }
    {
        first_command_on(self.commands(r), d).map(|place| place as u32)
    }

    /// The number, from 0, of the last command of `r` on the device `d`. `None` where no command is
    /// on it.
    pub fn last(&self, r: RunNo, d: DeviceNo) -> Option<u32>
        requires run { IsTrue (is_run (runs_of self.now) r.0) }
        requires few { length (commands_of (runs_of self.now) r.0) < 2 ^ 32 }
        ensures { result ≡ last_on (runs_of self.now) r.0 d.0 }
    {
        last_command_on(self.commands(r), d).map(|place| place as u32)
    }

    /// Whether a command of `r` on the device `d` reads it, and no command on it with the guard
    /// `Always` before that writes it.
    pub fn reads_first(&self, r: RunNo, d: DeviceNo) -> bool
        requires { IsTrue (is_run (runs_of self.now) r.0) }
        ensures { result ≡ reads_first (runs_of self.now) r.0 d.0 }
    {
        settled_by_read(self.commands(r), d)
    }

    /// Whether some command of `r` on the device `d` writes it.
    pub fn writes(&self, r: RunNo, d: DeviceNo) -> bool
        requires { IsTrue (is_run (runs_of self.now) r.0) }
        ensures { result ≡ writes_on (runs_of self.now) r.0 d.0 }
    {
        let commands = self.commands(r);
        commands
            .iter()
            .any(|command| command.device == d && writes(command.job))
    }

    /// The sum of the estimates of `r`, in ms, up to and with its last command on the device `d`: 0
    /// where no command is on it.
    pub fn estimate_to_last(&self, r: RunNo, d: DeviceNo) -> u64
        requires run { IsTrue (is_run (runs_of self.now) r.0) }
        requires few { length (commands_of (runs_of self.now) r.0) < 2 ^ 32 }
        ensures { result ≡ estimate_to_last d.0 (commands_of (runs_of self.now) r.0) }
    {
        sum_to_last(self.commands(r), d)
    }

    /// The run that `r` follows.
    pub fn followed_by(&self, r: RunNo) -> Option<RunNo>
        requires { IsTrue (is_run (runs_of self.now) r.0) }
        ensures { result ≡ followed_by (runs_of self.now) r.0 }
    {
        let follower = self.runs.get(r.0 as u64 - 1).unwrap();
        follower.follows
    }

    /// Whether some device is touched by both `a` and `b`.
    pub fn shares(&self, a: RunNo, b: RunNo) -> bool
        requires one { IsTrue (is_run (runs_of self.now) a.0) }
        requires other { IsTrue (is_run (runs_of self.now) b.0) }
        ensures { result ≡ shares (runs_of self.now) a.0 b.0 }
    {
        let others = self.commands(b);
        let commands = self.commands(a);
        commands
            .iter()
            .any(|command| has_command_on(others, command.device))
    }
}
