//! The windows of a script, read: their time, runs, turns and seeds.
ghost use Rattle.home_types.specs.Limits.{most_routines, most_runs, most_turns, most_windows};
ghost use Rattle.day_clock.specs.Times.{IsCivilTime};
ghost use Rattle.home_types.specs.Listed.{Listed};
ghost use Rattle.routine_reader.specs.Scripts.{plain_window};
ghost use Rattle.routine_reader.specs.Walks.{IsReading, read_each};
ghost use Rattle.routine_reader.specs.Windows.{follows_reading, is_later, next_run_read, next_turn, next_window_read, run_members, run_reading, time_reading, turn_reading, window_members, window_reading};
ghost use Rattle.serde_json.specs.View.{view};
ghost use Rattle.std.specs.Prelude.{◌≡◌, ◌<◌, ◌≤◌, ◌^◌, [], All, IfOk, length, map, option_map};

use crate::faults::{Count, Part, ReadFault, Spot, within_limit};
use crate::forms::{
    Form, has_form, list_at, list_or_empty, long_number_or, number_if_there, number_of, number_or,
    text_at,
};
use crate::names::Names;
use crate::scripts::{RunText, WindowText};
use day_clock::{When, read_time};
use home_types::{List, RunNo};
use serde_json::Value as Json;
use std::alloc::Global;

/// The seed of a window that gives none.
const DEFAULT_SEED: u64 = 1;

/// The members of a window, each of its type.
#[derive(Clone, Copy)]
struct WindowMembers<'a> {
    at: &'a str,
    seed: u64,
    probes: u32,
    turns: &'a [Json],
    runs: &'a [Json],
}

fn window_members(value: &Json) -> Option<WindowMembers<'_>>
    ensures { option_map (λ members. record {
      at = members.at.now;
      seed = members.seed;
      probes = members.probes;
      turns = map view members.turns.now;
      runs = map view members.runs.now;
    }) result ≡ window_members (view value.now) }
{
    if !has_form(Form::Window, value) {
        return None;
    }
    Some(WindowMembers {
        at: text_at(value, "at")?,
        seed: long_number_or(value, "seed", DEFAULT_SEED)?,
        probes: number_or(value, "probes", 0)?,
        turns: list_or_empty(value, "turns")?,
        runs: list_at(value, "runs")?,
    })
}

fn is_later(before: Option<When>, time: When) -> bool
    ensures { result ≡ is_later before time }
{
    match before {
        Some(before) => before.is_before(time),
        None => true,
    }
}

/// Reads the time of a window, later than that of the window before.
fn read_window_time(spot: Spot, before: Option<When>, text: &str) -> Result<When, ReadFault>
    ensures reading { result ≡ time_reading spot before text.now }
    ensures in_range { IfOk result IsCivilTime }
{
    match read_time(text) {
        Ok(time) if is_later(before, time) => Ok(time),
        _ => Err(ReadFault::BadTime(spot)),
    }
}

/// Reads a turn of a window with so many runs.
fn read_turn(window: u32, runs: u32, number: u32, value: &Json) -> Result<u32, ReadFault>
    ensures { result ≡ turn_reading window runs number (view value.now) }
{
    let Some(turn) = number_of(value) else {
        return Err(ReadFault::Shape(Part::Window.at(window)));
    };
    if turn > runs {
        return Err(ReadFault::BadTurn(Part::Turn.inside(window, number)));
    }
    Ok(turn)
}

fn read_each_turn(
    alloc: Global,
    window: u32,
    runs: u32,
    values: &[Json],
) -> Result<List<u32>, ReadFault>
    requires { length values.now ≤ most_turns }
    ensures { IsReading (λ turns. turns.items) result
        (read_each (next_turn window runs) [] (map view values.now)) }
{
    let mut turns = List::new(alloc);
    turns.reserve(values.len() as u64)?;
    'values: for value in values {
        let number = turns.len() as u32 + 1;
        let turn = read_turn(window, runs, number, value)?;
        turns.push(turn)?;
    }
    Ok(turns)
}

/// The members of a run, each of its type.
#[derive(Clone, Copy)]
struct RunMembers<'a> {
    routine: &'a str,
    follows: Option<u32>,
}

fn run_members(value: &Json) -> Option<RunMembers<'_>>
    ensures { option_map
        (λ members. record { routine = members.routine.now; follows = members.follows }) result
        ≡ run_members (view value.now) }
{
    if !has_form(Form::Run, value) {
        return None;
    }
    Some(RunMembers {
        routine: text_at(value, "routine")?,
        follows: number_if_there(value, "follows")?,
    })
}

/// Reads the run that the run with this number follows, if any: an earlier one.
fn read_follows(spot: Spot, number: u32, follows: Option<u32>) -> Result<Option<RunNo>, ReadFault>
    ensures { result ≡ follows_reading spot number follows }
{
    match follows {
        None => Ok(None),
        Some(followed) if 1 <= followed && followed < number => Ok(Some(RunNo(followed))),
        Some(_) => Err(ReadFault::BadFollow(spot)),
    }
}

/// Reads the run at this place, of routines with these names.
#[tactic(auto, unfolding(crate::specs::Windows::run_reading))]
fn read_run(
    routines: &Names<'_>,
    window: u32,
    number: u32,
    value: &Json,
) -> Result<RunText, ReadFault>
    requires { length routines.now ≤ most_routines }
    ensures { result ≡ run_reading routines.now window number (view value.now) }
{
    let spot = Part::Run.inside(window, number);
    let Some(members) = run_members(value) else {
        return Err(ReadFault::Shape(spot));
    };
    let Some(routine) = routines.place_of(members.routine) else {
        return Err(ReadFault::UnknownName(spot));
    };
    let follows = read_follows(spot, number, members.follows)?;
    Ok(RunText {
        routine: routine as u32,
        follows,
    })
}

fn read_each_run(
    alloc: Global,
    routines: &Names<'_>,
    window: u32,
    values: &[Json],
) -> Result<List<RunText>, ReadFault>
    requires routines { length routines.now ≤ most_routines }
    requires few { length values.now ≤ most_runs }
    ensures { IsReading (λ runs. runs.items) result
        (read_each (next_run_read routines.now window) [] (map view values.now)) }
{
    let mut runs = List::new(alloc);
    runs.reserve(values.len() as u64)?;
    'values: for value in values {
        let number = runs.len() as u32 + 1;
        let run = read_run(routines, window, number, value)?;
        runs.push(run)?;
    }
    Ok(runs)
}

/// Reads the window with this number, after one at the time `before`, of routines with these names.
#[tactic(auto, unfolding(crate::specs::Windows::window_reading))]
fn read_window(
    alloc: Global,
    routines: &Names<'_>,
    number: u32,
    before: Option<When>,
    value: &Json,
) -> Result<WindowText, ReadFault>
    requires { length routines.now ≤ most_routines }
    ensures reading { IsReading plain_window result
        (window_reading routines.now number before (view value.now)) }
    ensures in_range { IfOk result (λ window. IsCivilTime window.at) }
{
    let spot = Part::Window.at(number);
    let Some(members) = window_members(value) else {
        return Err(ReadFault::Shape(spot));
    };
    let at = read_window_time(spot, before, members.at)?;
    within_limit(Count::Probes, u64::from(members.probes))?;
    within_limit(Count::Turns, members.turns.len() as u64)?;
    within_limit(Count::Runs, members.runs.len() as u64)?;
    let runs = members.runs.len() as u32;
    let turns = read_each_turn(alloc, number, runs, members.turns)?;
    let runs = read_each_run(alloc, routines, number, members.runs)?;
    Ok(WindowText {
        at,
        seed: members.seed,
        probes: members.probes,
        turns,
        runs,
    })
}

/// Reads the windows of a script, of routines with these names.
pub fn read_windows(
    alloc: Global,
    routines: &Names<'_>,
    values: &[Json],
) -> Result<List<WindowText>, ReadFault>
    requires routines { length routines.now ≤ most_routines }
    requires few { length values.now ≤ most_windows }
    ensures reading { IsReading (λ windows. map plain_window windows.items) result
        (read_each (next_window_read routines.now) [] (map view values.now)) }
    ensures in_range { IfOk result
        (λ windows. All (λ window. IsCivilTime window.at) windows.items) }
{
    let mut windows = List::new(alloc);
    windows.reserve(values.len() as u64)?;
    let mut before = None;
    'values: for value in values {
        let number = windows.len() as u32 + 1;
        let window = read_window(alloc, routines, number, before, value)?;
        before = Some(window.at);
        windows.push(window)?;
    }
    Ok(windows)
}
