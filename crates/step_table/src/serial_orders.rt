//! Whether the printed order of a window, executed serially, gives its record.
ghost use Rattle.std.specs.Prelude.{◌≡◌, ◌<◌, length};
ghost use Rattle.std.specs.List.{list_all};
ghost use Rattle.routine_reader.specs.Scripts.{plain_script};
ghost use Rattle.routine_reader.specs.Sound.{IsSound};
ghost use Rattle.step_table.specs.Orders.{command_fits as fits_command, item_fits as fits_item, run_fits as fits_run};

use command_rules::{Roster, RosterRun};
use history_book::{End, Entry, Kept, WindowRecord};
use home_types::{Answer, Command, Item, Kind, List, NoMemory, RunNo, World};
use routine_reader::{Script, roster};
use serial_meaning::{RunAnswers, run_order};
use std::alloc::Global;

/// What an order does from a first state: the state that it leaves, and what its runs answer.
#[derive(Drop)]
struct Redone {
    world: World,
    runs: List<RunAnswers>,
}

/// Whether the items of the record's order, done one after another from its first state, give its
/// answers and its last state.
pub fn is_serial(alloc: Global, script: &Script, closed: &WindowRecord) -> Result<bool, NoMemory>
    requires sound { IsSound (plain_script script.now) }
{
    if script.windows.len() == 0 {
        return Ok(false);
    }
    let roster = roster(alloc, script, 0)?;
    let kinds = script_kinds(alloc, script)?;
    match redo(alloc, &roster, &kinds, closed)? {
        Some(redone) => Ok(agrees(&redone, closed)),
        None => Ok(false),
    }
}

fn script_kinds(alloc: Global, script: &Script) -> Result<List<Kind>, NoMemory> {
    let mut kinds = List::new(alloc);
    for device in script.devices.as_slice() {
        kinds.push(device.kind)?;
    }
    Ok(kinds)
}

/// Does the items of the record's order. `None` where they are not of the roster and the home, or
/// one does not apply.
fn redo(
    alloc: Global,
    roster: &Roster,
    kinds: &List<Kind>,
    closed: &WindowRecord,
) -> Result<Option<Redone>, NoMemory> {
    let mut world = World {
        devices: List::of(alloc, closed.first.devices.as_slice())?,
    };
    let devices = world.devices.len();
    let runs = roster.runs.len();
    if kinds.len() != devices
        || !runs_fit(devices, roster.runs.as_slice())
        || !items_fit(devices, runs, closed.order.as_slice())
    {
        return Ok(None);
    }
    match run_order(alloc, &mut world, &closed.order, roster, kinds)? {
        Some(runs) => Ok(Some(Redone { world, runs })),
        None => Ok(None),
    }
}

fn runs_fit(devices: u64, runs: &[RosterRun]) -> bool
    ensures { result ≡ list_all (fits_run devices) runs.now }
{
    runs.iter().all(|run| run_fits(devices, run))
}

fn run_fits(devices: u64, run: &RosterRun) -> bool
    ensures { result ≡ fits_run devices run.now }
{
    commands_fit(devices, run.routine.commands.as_slice())
}

fn commands_fit(devices: u64, commands: &[Command]) -> bool
    ensures { result ≡ list_all (fits_command devices) commands.now }
{
    commands
        .iter()
        .all(|command| command_fits(devices, *command))
}

fn command_fits(devices: u64, command: Command) -> bool
    ensures { result ≡ fits_command devices command }
{
    (command.device.0 as u64) < devices
}

fn items_fit(devices: u64, runs: u64, items: &[Item]) -> bool
    ensures { result ≡ list_all (fits_item devices runs) items.now }
{
    items.iter().all(|item| item_fits(devices, runs, *item))
}

fn item_fits(devices: u64, runs: u64, item: Item) -> bool
    ensures { result ≡ fits_item devices runs item }
{
    match item {
        Item::Ran(r) => 0 < r.0 && (r.0 as u64) <= runs,
        Item::Failed(d, _) | Item::Back(d, _) => (d.0 as u64) < devices,
    }
}

/// Whether the record has these answers for its committed runs, and this last state.
fn agrees(redone: &Redone, closed: &WindowRecord) -> bool {
    let history = closed.history.as_slice();
    let runs = redone.runs.as_slice();
    redone.world.devices.as_slice() == closed.last.devices.as_slice()
        && history.iter().all(|kept| is_redone(runs, *kept))
        && runs.iter().all(|told| has_answers(history, told.run, told.answers.as_slice()))
}

/// Whether the run that commits is one of these.
fn is_redone(runs: &[RunAnswers], kept: Kept) -> bool {
    match kept.entry {
        Entry::Ended(r, End::Committed) => runs.iter().any(|told| told.run == r),
        _ => true,
    }
}

/// Whether the run has these answers in the history, and no others.
fn has_answers(history: &[Kept], r: RunNo, answers: &[Answer]) -> bool {
    let has_each = answers
        .iter()
        .enumerate()
        .all(|(k, answer)| has_answer(history, r, k, *answer));
    has_each && history.iter().all(|kept| is_within(*kept, r, answers))
}

fn has_answer(history: &[Kept], r: RunNo, k: usize, answer: Answer) -> bool {
    history.iter().any(|kept| match kept.entry {
        Entry::Did(maker, place, told) => maker == r && place as usize == k && told == answer,
        _ => false,
    })
}

/// Whether the entry is none of the run's answers, or one of these.
fn is_within(kept: Kept, r: RunNo, answers: &[Answer]) -> bool {
    match kept.entry {
        Entry::Did(maker, k, answer) if maker == r => answers.get(k as usize) == Some(&answer),
        _ => true,
    }
}
