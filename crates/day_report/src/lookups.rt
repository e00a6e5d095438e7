//! What the numbers of a record name in the script. A number that names nothing has no text.
ghost use Rattle.std.specs.Prelude.{◌≡◌};
ghost use Rattle.std.specs.Option.{option_copied};
ghost use Rattle.day_report.specs.Words as said;

use home_types::{DeviceNo, Text};
use routine_reader::{DeviceText, RoutineText, RunText, Script, WindowText};

pub fn device_at(script: &Script, device: DeviceNo) -> Option<&DeviceText>
    ensures { option_copied result ≡ said.device_at script.now device.0 }
{
    script.devices.get(device.0 as u64)
}

#[tactic(auto, unfolding(crate::specs::Words::device_name))]
pub fn device_name(script: &Script, device: DeviceNo) -> &str
    ensures { result.now ≡ said.device_name script.now device.0 }
{
    match device_at(script, device) {
        Some(device) => device.name.as_str(),
        None => "",
    }
}

pub fn routine_at(script: &Script, number: u32) -> Option<&RoutineText>
    ensures { option_copied result ≡ said.routine_at script.now number }
{
    script.routines.get(number as u64)
}

#[tactic(auto, unfolding(crate::specs::Words::routine_name))]
pub fn routine_name(script: &Script, number: u32) -> &str
    ensures { result.now ≡ said.routine_name script.now number }
{
    match routine_at(script, number) {
        Some(routine) => routine.name.as_str(),
        None => "",
    }
}

/// The run of this number, from 1.
pub fn run_at(window: &WindowText, run: u64) -> Option<&RunText>
    ensures { option_copied result ≡ said.run_at window.now run }
{
    if run == 0 {
        return None;
    }
    window.runs.get(run - 1)
}

/// The device of a run's command. Commands count from 0.
#[tactic(auto, unfolding(crate::specs::Words::device_of))]
pub fn device_of<'a>(
    script: &'a Script,
    window: &WindowText,
    run: u64,
    command: u32,
) -> Option<&'a DeviceText>
    ensures { option_copied result ≡ said.device_of script.now window.now run command }
{
    let run = run_at(window, run)?;
    let routine = routine_at(script, run.routine)?;
    let command = routine.routine.commands.as_slice().get(command as usize)?;
    device_at(script, command.device)
}

/// The names of the states of that device.
#[tactic(auto, unfolding(crate::specs::Words::states_of))]
pub fn states_of<'a>(script: &'a Script, window: &WindowText, run: u64, command: u32) -> &'a [Text]
    ensures { result.now ≡ said.states_of script.now window.now run command }
{
    match device_of(script, window, run, command) {
        Some(device) => device.states.as_slice(),
        None => &[],
    }
}
