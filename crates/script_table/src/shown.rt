//! A script that was read, as a line of the output.
use home_types::{Command, Guard, Job, Kind};
use routine_reader::{DeviceText, RoutineText, RunText, Script, WindowText};
use std::alloc::{AllocError, Global};
use std::fmt::Write;

/// A script on one line: each device, routine and window with all that it says.
pub fn script_text(alloc: Global, script: &Script) -> Result<String, AllocError> {
    let mut line = String::from_str(alloc, "script")?;
    for device in script.devices.as_slice() {
        push_device(&mut line, device)?;
    }
    for routine in script.routines.as_slice() {
        push_routine(&mut line, routine)?;
    }
    for window in script.windows.as_slice() {
        push_window(&mut line, window)?;
    }
    Ok(line)
}

fn push_device(line: &mut String, device: &DeviceText) -> Result<(), AllocError> {
    write!(line, ", device {}", device.name.as_str())?;
    match device.kind {
        Kind::States(_) => {
            for state in device.states.as_slice() {
                write!(line, " {}", state.as_str())?;
            }
        }
        Kind::Range(low, high) => write!(line, " {low}..{high}")?,
    }
    write!(line, " start {}", device.start)?;
    for (from, to) in device.downs.as_slice() {
        write!(line, " down {from}..{to}")?;
    }
    Ok(())
}

fn push_routine(line: &mut String, routine: &RoutineText) -> Result<(), AllocError> {
    write!(line, ", routine {}", routine.name.as_str())?;
    for command in routine.routine.commands.as_slice() {
        push_command(line, command)?;
    }
    Ok(())
}

fn push_command(line: &mut String, command: &Command) -> Result<(), AllocError> {
    write!(line, " {} ", command.device.0)?;
    match command.job {
        Job::Set(value) => write!(line, "set {value}")?,
        Job::Check(value) => write!(line, "check {value}")?,
        Job::Load => write!(line, "load")?,
        Job::Store => write!(line, "store")?,
    }
    let must = if command.must { "must" } else { "best" };
    write!(line, " {must} {} {}", command.ms, command.takes)?;
    match command.when {
        Guard::Always => Ok(()),
        Guard::Is(number) => write!(line, " when is {number}"),
        Guard::Below(number) => write!(line, " when below {number}"),
    }
}

fn push_window(line: &mut String, window: &WindowText) -> Result<(), AllocError> {
    let at = window.at;
    write!(
        line,
        ", window {}-{}-{}-{}-{}-{} seed {} probes {} turns",
        at.year, at.month, at.day, at.hour, at.minute, at.second, window.seed, window.probes,
    )?;
    for turn in window.turns.as_slice() {
        write!(line, " {turn}")?;
    }
    write!(line, " runs")?;
    for run in window.runs.as_slice() {
        push_run(line, run)?;
    }
    Ok(())
}

fn push_run(line: &mut String, run: &RunText) -> Result<(), AllocError> {
    write!(line, " {}", run.routine)?;
    match run.follows {
        Some(followed) => write!(line, " after {}", followed.0),
        None => Ok(()),
    }
}
