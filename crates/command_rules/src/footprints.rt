ghost use Rattle.std.specs.Prelude.{◌≡◌, ◌<◌, ◌^◌, false, find, length, option_map, position, unwrap_or, IfSome};
ghost use Rattle.std.specs.List.{list_any};
ghost use Rattle.command_rules.specs.Rosters.{estimate_to_last, is_on, settles};
ghost use Rattle.command_rules.specs.Searches.{last_place};
ghost use Rattle.home_types.specs.Commands.{reads as reads_job};

use crate::jobs::{is_always, reads};
use home_types::{Command, DeviceNo};

/// Whether some of the commands is on the device `d`.
pub fn has_command_on(commands: &[Command], d: DeviceNo) -> bool
    ensures { result ≡ list_any (is_on d.0) commands.now }
{
    commands.iter().any(|command| command.device == d)
}

/// The place of the first command on the device `d`.
pub fn first_command_on(commands: &[Command], d: DeviceNo) -> Option<usize>
    ensures { result ≡ position (is_on d.0) commands.now }
{
    commands.iter().position(|command| command.device == d)
}

/// The place of the last command on the device `d`.
pub fn last_command_on(commands: &[Command], d: DeviceNo) -> Option<usize>
    ensures last { result ≡ last_place (is_on d.0) commands.now }
    ensures within { IfSome result (λ place. place < length commands.now) }
{
    commands.iter().rposition(|command| command.device == d)
}

/// Whether the first command that decides how the device `d` is used first is one that reads it.
pub fn settled_by_read(commands: &[Command], d: DeviceNo) -> bool
    ensures { result
        ≡ unwrap_or (option_map (λ c. reads_job c.job) (find (settles d.0) commands.now)) false }
{
    let first = commands.iter().find(|command| command.device == d
        && (reads(command.job) || is_always(command.when)));
    match first {
        Some(command) => reads(command.job),
        None => false,
    }
}

/// The sum of the estimates, in ms, up to and with the last command on the device `d`: 0 where no
/// command is on it.
pub fn sum_to_last(commands: &[Command], d: DeviceNo) -> u64
    requires { length commands.now < 2 ^ 32 }
    ensures { result ≡ estimate_to_last d.0 commands.now }
{
    let mut sum = 0;
    let mut to_last = 0;
    'commands: for command in commands {
        sum += command.ms as u64;
        if command.device == d {
            to_last = sum;
        }
    }
    to_last
}
