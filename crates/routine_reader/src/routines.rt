//! The routines of a script, read.
ghost use Rattle.home_types.specs.Limits.{most_commands, most_routines};
ghost use Rattle.home_types.specs.Listed.{Listed};
ghost use Rattle.routine_reader.specs.AreRead.{AreDevices};
ghost use Rattle.routine_reader.specs.Commands.{next_command_read};
ghost use Rattle.routine_reader.specs.Routines.{commands_reading, next_routine, routine_members, routine_names, routine_reading};
ghost use Rattle.routine_reader.specs.Scripts.{plain_device, plain_routine};
ghost use Rattle.routine_reader.specs.Walks.{IsReading, read_each};
ghost use Rattle.serde_json.specs.View.{view};
ghost use Rattle.std.specs.Prelude.{◌≡◌, ◌≤◌, ◌++◌, ◌∷◌, [], IfOk, length, map, option_map};

use crate::commands::read_command;
use crate::devices::NamedDevices;
use crate::faults::{Count, Part, ReadFault, within_limit};
use crate::forms::{Form, has_form, list_at, text_at};
use crate::names::{Names, new_name};
use crate::scripts::RoutineText;
use home_types::{Command, List, Routine, Text};
use serde_json::Value as Json;
use std::alloc::Global;

/// The members of a routine, each of its type.
#[derive(Clone, Copy)]
struct RoutineMembers<'a> {
    name: &'a str,
    commands: &'a [Json],
}

fn routine_members(value: &Json) -> Option<RoutineMembers<'_>>
    ensures { option_map (λ members. record {
      name = members.name.now;
      commands = map view members.commands.now;
    }) result ≡ routine_members (view value.now) }
{
    if !has_form(Form::Routine, value) {
        return None;
    }
    Some(RoutineMembers {
        name: text_at(value, "name")?,
        commands: list_at(value, "commands")?,
    })
}

fn read_each_command(
    alloc: Global,
    version: u64,
    devices: &NamedDevices<'_>,
    routine: u32,
    values: &[Json],
) -> Result<List<Command>, ReadFault>
    requires devices { AreDevices devices.now }
    requires few { length values.now ≤ most_commands }
    ensures { IsReading (λ commands. commands.items) result
        (read_each (next_command_read version (map plain_device devices.now.texts.items) routine) []
        (map view values.now)) }
{
    let mut commands = List::new(alloc);
    commands.reserve(values.len() as u64)?;
    'values: for value in values {
        let number = commands.len() as u32 + 1;
        let command = read_command(version, devices, routine, number, value)?;
        commands.push(command)?;
    }
    Ok(commands)
}

/// Reads the commands of a routine: 1 to `limits::COMMANDS`.
#[tactic(auto, unfolding(crate::specs::Routines::commands_reading))]
fn read_commands(
    alloc: Global,
    version: u64,
    devices: &NamedDevices<'_>,
    routine: u32,
    values: &[Json],
) -> Result<List<Command>, ReadFault>
    requires { AreDevices devices.now }
    ensures { IsReading (λ commands. commands.items) result (commands_reading version
        (map plain_device devices.now.texts.items) routine (map view values.now)) }
{
    if values.is_empty() {
        return Err(ReadFault::Shape(Part::Routine.at(routine)));
    }
    within_limit(Count::Commands, values.len() as u64)?;
    read_each_command(alloc, version, devices, routine, values)
}

/// Reads the routine with this number of a script of this version, after routines with these names,
/// and adds its name to them.
#[tactic(auto, unfolding(crate::specs::Routines::routine_reading))]
fn read_routine<'a>(
    alloc: Global,
    version: u64,
    devices: &NamedDevices<'_>,
    number: u32,
    names: &mut Names<'a>,
    value: &'a Json,
) -> Result<RoutineText, ReadFault>
    requires { AreDevices devices.now }
    ensures reading { IsReading plain_routine result (routine_reading version
        (map plain_device devices.now.texts.items) number names.old (view value.now)) }
    ensures named { IfOk result (λ routine. names.new ≡ names.old ++ routine.name ∷ []) }
{
    let spot = Part::Routine.at(number);
    let Some(members) = routine_members(value) else {
        return Err(ReadFault::Shape(spot));
    };
    let name = new_name(spot, names, members.name)?;
    let commands = read_commands(alloc, version, devices, number, members.commands)?;
    names.add(name)?;
    Ok(RoutineText {
        name: Text::of(alloc, name)?,
        routine: Routine::new(alloc, commands)?,
    })
}

/// The routines of a script, with their numbers by name.
#[derive(Drop)]
pub struct Routines<'a> {
    pub names: Names<'a>,
    pub texts: List<RoutineText>,
}

/// Reads the routines of a script of this version with these devices.
pub fn read_routines<'a>(
    alloc: Global,
    version: u64,
    devices: &NamedDevices<'_>,
    values: &'a [Json],
) -> Result<Routines<'a>, ReadFault>
    requires devices { AreDevices devices.now }
    requires few { length values.now ≤ most_routines }
    ensures reading { IsReading (λ routines. map plain_routine routines.texts.items) result
        (read_each (next_routine version (map plain_device devices.now.texts.items)) []
        (map view values.now)) }
    ensures names { IfOk result
        (λ routines. routines.names ≡ routine_names (map plain_routine routines.texts.items)) }
    ensures few { IfOk result (λ routines. length routines.texts.items ≤ most_routines) }
{
    let mut names = Names::new(alloc);
    let mut texts = List::new(alloc);
    texts.reserve(values.len() as u64)?;
    'values: for value in values {
        let number = texts.len() as u32 + 1;
        let routine = read_routine(alloc, version, devices, number, &mut names, value)?;
        texts.push(routine)?;
    }
    Ok(Routines { names, texts })
}
