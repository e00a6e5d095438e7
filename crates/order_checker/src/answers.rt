//! The printed answers against those of the serial execution.
ghost use Rattle.std.specs.Prelude.{◌≡◌, ◌<◌, ◌≤◌, ◌&&◌, All, IfNone, IfOk, IfSome, IsTrue, [], None, Some, false, length, map, not, slice_get, unwrap_or};
ghost use Rattle.std.specs.Option.{option_map_or};
ghost use Rattle.command_rules.specs.Rosters.{commands_of, is_run, runs_of};
ghost use Rattle.home_types.specs.Commands.{command_effect, fails, routine_execution};
ghost use Rattle.home_types.specs.HomeStates.{stand_at};
ghost use Rattle.home_types.specs.Kinds.{kind_at};
ghost use Rattle.serial_meaning.specs.Progress.{effect_of};
ghost use Rattle.home_types.specs.Limits.{most_commands};
ghost use Rattle.order_checker.specs.Answers.{first_wrong, home_after, home_behind, is_same, item_wrong, wrong_in};
ghost use Rattle.order_checker.specs.Ends.{plain_ends};
ghost use Rattle.order_checker.specs.Readers.{IsReader};
ghost use Rattle.order_checker.specs.RunLines.{told_of};
ghost use Rattle.order_checker.specs.Steps.{IsTold};
ghost use Rattle.serial_meaning.specs.Conditions.{HasDevices, IsItemOf};

use crate::order_lines::{OrderReader, told_of, turn};
use crate::run_lines::RunEnd;
use crate::verdicts::{Halt, Place};
use command_rules::fails;
use home_types::{Answer, Command, Item, List, RunNo, Stand, Value};
use routine_reader::DeviceText;
use serial_meaning::{Outcome, outcome_of};
use std::alloc::Global;

fn is_same(answer: Answer, printed: Answer) -> bool
    ensures { result ≡ is_same answer printed }
{
    match (answer, printed) {
        (Answer::Fine, Answer::Fine) => true,
        (Answer::Down, Answer::Down) | (Answer::Skipped, Answer::Skipped) => true,
        (Answer::Found(a), Answer::Found(b)) => a == b,
        _ => false,
    }
}

/// Whether the answer is the printed one to the command with this number.
fn is_printed(answer: Answer, told: &[Answer], command: usize) -> bool
    ensures { result
        ≡ option_map_or (λ printed. is_same answer printed) (slice_get told.now command) false }
{
    match told.get(command) {
        Some(printed) => is_same(answer, *printed),
        None => false,
    }
}

/// Whether the command answered as it is printed, and did not fail.
fn is_right(command: Command, answer: Answer, told: &[Answer], number: usize) -> bool
    ensures { result ≡ (option_map_or (λ printed. is_same answer printed)
        (slice_get told.now number) false && not (fails command answer)) }
{
    is_printed(answer, told, number) && !fails(command, answer)
}

/// What the command does in this home, with this register.
#[tactic(auto, using(crate::proofs::Effects::kind_of))]
fn effect_in(
    home: &List<Stand>,
    devices: &[DeviceText],
    command: Command,
    register: Value,
) -> Outcome
    requires home { length home.now.items ≡ length devices.now }
    requires device { command.device.0 < length home.now.items }
    ensures { effect_of result
        ≡ command_effect (kind_at (map (λ d. d.kind) devices.now) command.device.0) command.when
        command.job register (stand_at home.now.items command.device.0) }
{
    let device = command.device.0 as usize;
    let stand = home.as_slice()[device];
    outcome_of(
        devices[device].kind,
        command.when,
        command.job,
        register,
        stand,
    )
}

/// Executes the commands in the home, up to the first, counted from 0, whose answer is not the
/// printed one, or that is a must and fails.
fn first_wrong(
    home: &mut List<Stand>,
    devices: &[DeviceText],
    commands: &[Command],
    told: &[Answer],
) -> Option<u32>
    requires home { length home.old.items ≡ length devices.now }
    requires devices { HasDevices home.old.items commands.now }
    requires few { length commands.now ≤ most_commands }
    ensures some { IfSome result (λ k. first_wrong commands.now
        (routine_execution (map (λ d. d.kind) devices.now) commands.now home.old.items).answers
        told.now ≡ Some k) }
    ensures none { IfNone result (first_wrong commands.now
        (routine_execution (map (λ d. d.kind) devices.now) commands.now home.old.items).answers
        told.now ≡ None) }
    ensures home { IfNone result (home.new.items
        ≡ (routine_execution (map (λ d. d.kind) devices.now) commands.now home.old.items).home) }
    ensures same { length home.new.items ≡ length home.old.items }
{
    let mut register = 0;
    'commands: for (i, command) in commands.iter().enumerate() {
        let outcome = effect_in(home, devices, *command, register);
        if !is_right(*command, outcome.answer, told, i) {
            return Some(i as u32);
        }
        home.set(command.device.0 as u64, outcome.stand);
        register = outcome.register;
    }
    None
}

/// The printed answers of the run, none where it is not committed.
fn printed_of(ends: &[RunEnd], run: RunNo) -> &[Answer]
    ensures { result.now ≡ unwrap_or (told_of (plain_ends ends.now) run.0) [] }
{
    match told_of(ends, run.0 as u64) {
        Some(told) => told,
        None => &[],
    }
}

/// Executes the routine of a run in the home, up to the first wrong command, which is the answer.
fn run_in(reader: &OrderReader<'_>, home: &mut List<Stand>, run: RunNo) -> Option<Place>
    requires run { IsTrue (is_run (runs_of reader.now.roster.now) run.0) }
    requires home { length home.old.items ≡ length reader.now.devices.now }
    requires reader { IsReader reader.now }
    ensures some { IfSome result (λ place. wrong_in (runs_of reader.now.roster.now)
        (map (λ d. d.kind) reader.now.devices.now)
        (plain_ends reader.now.ends.now) home.old.items run ≡ Some place) }
    ensures none { IfNone result
        (wrong_in (runs_of reader.now.roster.now) (map (λ d. d.kind) reader.now.devices.now)
        (plain_ends reader.now.ends.now) home.old.items run ≡ None) }
    ensures home { IfNone result
        (home.new.items ≡ (routine_execution (map (λ d. d.kind) reader.now.devices.now)
        (commands_of (runs_of reader.now.roster.now) run.0) home.old.items).home) }
    ensures same { length home.new.items ≡ length home.old.items }
{
    let commands = reader.roster.commands(run);
    let told = printed_of(reader.ends, run);
    match first_wrong(home, reader.devices, commands, told) {
        Some(command) => Some(Place::Answer(run, command)),
        None => None,
    }
}

/// Executes an item in the home. The answer is the first wrong command, if there is one.
fn item_in(reader: &OrderReader<'_>, home: &mut List<Stand>, item: Item) -> Option<Place>
    requires home { length home.old.items ≡ length reader.now.devices.now }
    requires reader { IsReader reader.now }
    requires item { IsItemOf home.old.items reader.now.roster.now item }
    ensures some { IfSome result (λ place. item_wrong (runs_of reader.now.roster.now)
        (map (λ d. d.kind) reader.now.devices.now)
        (plain_ends reader.now.ends.now) home.old.items item ≡ Some place) }
    ensures none { IfNone result
        (item_wrong (runs_of reader.now.roster.now) (map (λ d. d.kind) reader.now.devices.now)
        (plain_ends reader.now.ends.now) home.old.items item ≡ None) }
    ensures home { IfNone result (home.new.items ≡ home_after (runs_of reader.now.roster.now)
        (map (λ d. d.kind) reader.now.devices.now) home.old.items item) }
    ensures same { length home.new.items ≡ length home.old.items }
{
    match item {
        Item::Ran(run) => run_in(reader, home, run),
        Item::Failed(_, _) | Item::Back(_, _) => {
            turn(home, item);
            None
        }
    }
}

/// The home behind the items, which are done one after another; or the first wrong command.
pub fn home_behind(
    alloc: Global,
    reader: &OrderReader<'_>,
    items: &[Item],
) -> Result<List<Stand>, Halt>
    requires reader { IsReader reader.now }
    requires items { All (IsItemOf reader.now.home.now.items reader.now.roster.now) items.now }
    ensures behind { IsTold (λ behind. behind.items) result
        (home_behind (runs_of reader.now.roster.now) (map (λ d. d.kind) reader.now.devices.now)
        (plain_ends reader.now.ends.now) reader.now.home.now.items items.now) }
    ensures same { IfOk result (λ behind. length behind.items ≡ length reader.now.devices.now) }
{
    let mut home = List::of(alloc, reader.home.as_slice())?;
    'items: for item in items {
        if let Some(wrong) = item_in(reader, &mut home, *item) {
            return Err(Halt::At(wrong));
        }
    }
    Ok(home)
}
