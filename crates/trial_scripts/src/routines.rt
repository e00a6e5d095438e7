//! The routines of a trial's script, drawn.
ghost use Rattle.home_types.specs.Listed.{Listed};
ghost use Rattle.routine_reader.specs.Scripts.{plain_routine};
ghost use Rattle.seeded_draws.specs.Draws.{below, drawn};
ghost use Rattle.std.specs.Prelude.{◌≡◌, ◌<◌, IfOk, map};
ghost use Rattle.trial_scripts.specs.Drawings.{draw_each};
ghost use Rattle.trial_scripts.specs.TrialRoutines.{draw_command, draw_job, draw_routine, draw_routines};

use crate::devices::HOME_DEVICES;
use crate::names::numbered_name;
use home_types::{Command, DeviceNo, Guard, Job, List, NoMemory, Routine, Value};
use routine_reader::RoutineText;
use seeded_draws::Draws;
use std::alloc::Global;

/// How many routines there are.
pub const HOME_ROUTINES: u32 = 64;

/// How many commands a routine has.
const COMMANDS: u32 = 4;

/// How many jobs a command may have.
const JOBS: u64 = 4;

/// Values that are driven or compared with are below this one.
const VALUES: u64 = 1000;

/// What a command is estimated to take, and takes in a replay, in ms.
const COMMAND_MS: u32 = 100;

/// Draws a value that is driven or compared with.
fn draw_value(draws: &mut Draws) -> Value
    ensures value { result ≡ below draws.new 1000 }
    ensures state { draws.new ≡ drawn draws.old }
{
    draws.below(VALUES) as u32
}

/// Draws the job of a command, and its value where it has one.
#[tactic(auto, unfolding(crate::specs::TrialRoutines::draw_job))]
fn draw_job(draws: &mut Draws) -> Job
    ensures { record { made = result; state = draws.new } ≡ draw_job draws.old }
{
    match draws.below(JOBS) {
        0 => Job::Set(draw_value(draws)),
        1 => Job::Check(draw_value(draws)),
        2 => Job::Load,
        _ => Job::Store,
    }
}

/// Draws a command: its device, then its job. A check is best effort.
#[tactic(auto, unfolding(crate::specs::TrialRoutines::draw_command))]
fn draw_command(draws: &mut Draws) -> Command
    ensures { record { made = result; state = draws.new } ≡ draw_command draws.old }
{
    let device = DeviceNo(draws.below(u64::from(HOME_DEVICES)) as u16);
    let job = draw_job(draws);
    Command {
        device,
        job,
        when: Guard::Always,
        must: !matches!(job, Job::Check(_)),
        ms: COMMAND_MS,
        takes: COMMAND_MS,
    }
}

fn draw_commands(alloc: Global, draws: &mut Draws) -> Result<List<Command>, NoMemory>
    ensures { IfOk result (λ commands. record {
      made = commands.items;
      state = draws.new;
    } ≡ draw_each (λ _. draw_command) 4 draws.old) }
{
    let mut commands = List::new(alloc);
    'commands: for _ in 0..COMMANDS {
        commands.push(draw_command(draws))?;
    }
    Ok(commands)
}

/// Draws the routine with this number, from 0.
#[tactic(auto, unfolding(crate::specs::TrialRoutines::draw_routine))]
fn draw_routine(alloc: Global, draws: &mut Draws, number: u32) -> Result<RoutineText, NoMemory>
    requires { number < 100 }
    ensures { IfOk result (λ routine. record {
      made = plain_routine routine;
      state = draws.new;
    } ≡ draw_routine number draws.old) }
{
    Ok(RoutineText {
        name: numbered_name(alloc, 'r', number)?,
        routine: Routine::new(alloc, draw_commands(alloc, draws)?)?,
    })
}

/// Draws the routines, one after the other, or answers `NoMemory`.
#[tactic(auto, unfolding(crate::specs::TrialRoutines::draw_routines))]
pub fn draw_routines(alloc: Global, draws: &mut Draws) -> Result<List<RoutineText>, NoMemory>
    ensures { IfOk result (λ routines. record {
      made = map plain_routine routines.items;
      state = draws.new;
    } ≡ draw_routines draws.old) }
{
    let mut routines = List::new(alloc);
    'routines: for number in 0..HOME_ROUTINES {
        routines.push(draw_routine(alloc, draws, number)?)?;
    }
    Ok(routines)
}
