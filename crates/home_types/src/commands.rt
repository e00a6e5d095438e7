ghost use Rattle.std.specs.Prelude.{◌≡◌, IfOk};
ghost use Rattle.home_types.specs.Commands.{holds};

use crate::lists::List;
use crate::memory::NoMemory;
use crate::numbers::{DeviceNo, Value};
use crate::shared_lists::SharedList;
use std::alloc::Global;

/// What a command does with its device, and with the register of its run.
#[derive(Clone, Copy, Debug, PartialEq, Eq)]
pub enum Job {
    /// Drives the device to the value.
    Set(Value),
    /// Senses the device and compares with the value.
    Check(Value),
    /// Senses the device into the register.
    Load,
    /// Drives the device to the value nearest to the register.
    Store,
}

/// What a command asks of the register of its run: where it does not hold, the command is skipped.
#[derive(Clone, Copy, Debug, PartialEq, Eq)]
pub enum Guard {
    /// Nothing.
    Always,
    /// The register is this value.
    Is(Value),
    /// The register is less than this value.
    Below(Value),
}

impl Guard {
    /// Whether it holds of a register with this value.
    pub fn holds(&self, register: Value) -> bool
        ensures { result ≡ holds self.now register }
    {
        match self {
            Guard::Always => true,
            Guard::Is(value) => register == *value,
            Guard::Below(value) => register < *value,
        }
    }
}

/// One command of a routine.
#[derive(Clone, Copy, Debug, PartialEq, Eq)]
pub struct Command {
    pub device: DeviceNo,
    pub job: Job,
    /// Where it does not hold, the command is skipped.
    pub when: Guard,
    /// Whether the run aborts where the command fails; else it is best effort.
    pub must: bool,
    /// The estimate of how long it takes, in ms, at most `limits::COMMAND_MS`.
    pub ms: u32,
    /// By how many ms a replay's moment rises with it, at most `limits::COMMAND_MS`.
    pub takes: u32,
}

/// A list of commands, to be done in order, which its script and its runs own together.
#[derive(Drop)]
pub struct Routine {
    pub commands: SharedList<Command>,
}

impl Routine {
    /// Makes a routine of these commands, or answers `NoMemory`; they are dropped then.
    pub fn new(alloc: Global, commands: List<Command>) -> Result<Routine, NoMemory>
        ensures { IfOk result (λ routine. routine.commands ≡ commands) }
    {
        Ok(Routine {
            commands: SharedList::new(alloc, commands)?,
        })
    }

    /// The same routine for one more owner: no command is copied. `NoMemory` where it has 2^63
    /// owners.
    pub fn share(&self) -> Result<Routine, NoMemory>
        ensures { IfOk result (λ routine. routine ≡ self.now) }
    {
        Ok(Routine {
            commands: self.commands.share()?,
        })
    }
}

/// What a command was told.
#[derive(Clone, Copy, Debug, PartialEq, Eq)]
pub enum Answer {
    /// A write that worked.
    Fine,
    /// A read that worked, with the value that it found.
    Found(Value),
    /// The device is down for this run.
    Down,
    /// The command's guard did not hold: nothing was done.
    Skipped,
}

/// How a run sees a device from its first answer there on.
#[derive(Clone, Copy, Debug, PartialEq, Eq)]
pub enum View {
    Up,
    Down,
}
