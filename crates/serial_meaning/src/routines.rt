//! The execution of a whole routine.
ghost use Rattle.std.specs.Prelude.{◌≡◌, ◌<◌, length, IfOk, IfSome, IfNone, OnErr};
ghost use Rattle.serial_meaning.specs.Conditions.{HasDevices, HasKinds};
ghost use Rattle.serial_meaning.specs.Executions.{routine_answers, routine_in, shown_answers};
ghost use Rattle.serial_meaning.specs.Progress.{DoesCommand, DoesCommands};

use crate::effects::outcome_of;
use command_rules::fails;
use home_types::{Answer, Command, Kind, List, NoMemory, Routine, Stand, Value, World};
use std::alloc::Global;

/// A routine in execution, with no failed must command so far.
#[derive(Drop)]
pub(crate) struct RoutineProgress {
    pub home: List<Stand>,
    register: Value,
    pub answers: List<Answer>,
}

impl RoutineProgress {
    /// Does the next command. `None` where it is a must command that fails.
    fn advance(
        mut self,
        command: Command,
        kinds: &List<Kind>,
    ) -> Result<Option<RoutineProgress>, NoMemory>
        requires kinds { HasKinds self.home.items kinds.now.items }
        requires device { command.device.0 < length self.home.items }
        ensures done { IfOk result (DoesCommand kinds.now.items self command) }
        ensures kept { IfOk result
            (λ next. IfSome next (λ run. length run.home.items ≡ length self.home.items)) }
    {
        let device = command.device.0 as usize;
        let kind = kinds.as_slice()[device];
        let stand = self.home.as_slice()[device];
        let outcome = outcome_of(kind, command.when, command.job, self.register, stand);
        if fails(command, outcome.answer) {
            return Ok(None);
        }
        self.home.set(device as u64, outcome.stand);
        self.register = outcome.register;
        self.answers.push(outcome.answer)?;
        Ok(Some(self))
    }
}

/// Executes the commands in order, from this home. `None` where a must command fails.
pub(crate) fn execute_commands(
    alloc: Global,
    home: List<Stand>,
    commands: &[Command],
    kinds: &List<Kind>,
) -> Result<Option<RoutineProgress>, NoMemory>
    requires kinds { HasKinds home.items kinds.now.items }
    requires devices { HasDevices home.items commands.now }
    ensures done { IfOk result (DoesCommands kinds.now.items home.items commands.now) }
    ensures kept { IfOk result
        (λ run. IfSome run (λ whole. length whole.home.items ≡ length home.items)) }
{
    let mut run = RoutineProgress {
        home,
        register: 0,
        answers: List::new(alloc),
    };
    'commands: for command in commands {
        match run.advance(*command, kinds)? {
            Some(next) => run = next,
            None => return Ok(None),
        }
    }
    Ok(Some(run))
}

/// Runs a whole routine in the world and gives its answers. `None` exactly where a must command
/// fails.
///
/// Asks for a kind for each device of the world, and that each command is on one of these devices.
///
/// Answers `NoMemory` where there is none for a copy of the world and for the answers. The world is
/// unchanged after that and after `None`.
pub fn run_whole(
    alloc: Global,
    world: &mut World,
    routine: &Routine,
    kinds: &List<Kind>,
) -> Result<Option<List<Answer>>, NoMemory>
    requires kinds { HasKinds world.old.devices.items kinds.now.items }
    requires devices { HasDevices world.old.devices.items routine.now.commands.items }
    ensures answers { IfOk result (λ told.
        shown_answers told ≡ routine_answers (routine_in world.old routine.now kinds.now)) }
    ensures done { IfOk result (λ told. IfSome told (λ _.
        world.new.devices.items ≡ (routine_in world.old routine.now kinds.now).home)) }
    ensures refused { IfOk result (λ told. IfNone told (world.new ≡ world.old)) }
    ensures no_memory { OnErr result (world.new ≡ world.old) }
    ensures size { length world.new.devices.items ≡ length world.old.devices.items }
{
    let home = List::of(alloc, world.devices.as_slice())?;
    match execute_commands(alloc, home, routine.commands.as_slice(), kinds)? {
        Some(run) => {
            world.devices = run.home;
            Ok(Some(run.answers))
        }
        None => Ok(None),
    }
}
