//! A window of a record.
ghost use Rattle.std.specs.Prelude.{◌≡◌, ◌+◌, ◌<◌, ◌≤◌, ◌*◌, All, IfOk, Some, [], drop, is_some, length, map, slice_get};
ghost use Rattle.std.specs.List.{count_by};
ghost use Rattle.home_types.specs.Limits.{most_devices, most_runs};
ghost use Rattle.order_checker.specs.Ends.{plain_end, plain_ends};
ghost use Rattle.order_checker.specs.Lines.{line_at, lines_of};
ghost use Rattle.order_checker.specs.Readers.{IsReader, progress_told, runs_told, setting_for_order};
ghost use Rattle.order_checker.specs.HomeLines.{home_agrees};
ghost use Rattle.order_checker.specs.OrderLines.{order_told};
ghost use Rattle.serial_meaning.specs.Conditions.{IsItemOf};
ghost use Rattle.order_checker.specs.Steps.{IsTold, walk};
ghost use Rattle.order_checker.specs.Windows.{next_run_told, order_end_told, run_text_told, window_line_told, window_told};
ghost use Rattle.routine_reader.specs.Scripts.{plain_script};
ghost use Rattle.routine_reader.specs.Sound.{IsSound};

use crate::answers::home_behind;
use crate::heads::is_window_line;
use crate::home_lines::check_home;
use crate::lines::next_line;
use crate::order_lines::OrderReader;
use crate::run_lines::{RunEnd, RunReader, read_run_line};
use crate::verdicts::{Halt, Place};
use home_types::{Item, List, RunNo, Stand};
use routine_reader::{DeviceText, RunText, Script, WindowText, roster};
use std::alloc::Global;

/// What was read of a record so far.
#[derive(Drop)]
pub struct Progress<'a> {
    /// How many windows.
    pub windows: u32,
    /// Where the devices stand.
    pub home: List<Stand>,
    /// What is left of the record.
    pub rest: &'a [u8],
    pub runs: u64,
    pub committed: u64,
}

/// How the runs of a window ended, and what is left of the record.
#[derive(Drop)]
struct RunLines<'a> {
    ends: List<RunEnd>,
    rest: &'a [u8],
}

/// How a run ended, and what is left of the record.
#[derive(Drop)]
struct RunLine<'a> {
    end: RunEnd,
    rest: &'a [u8],
}

/// Reads the line of a run, of a window with so many.
fn read_run<'a>(
    alloc: Global,
    script: &Script,
    runs: usize,
    number: RunNo,
    run: &RunText,
    text: &'a [u8],
) -> Result<RunLine<'a>, Halt>
    requires { run.now.routine < length script.now.routines.items }
    ensures told { IsTold (λ told. plain_end told.end) result
        (run_text_told script.now runs number.0 run.now (lines_of text.now)) }
    ensures rest { IfOk result (λ told. lines_of told.rest.now ≡ drop 1 (lines_of text.now)) }
{
    let Some((line, rest)) = next_line(text) else {
        return Err(Halt::At(Place::Run(number)));
    };
    let routine = &script.routines.as_slice()[run.routine as usize];
    let reader = RunReader {
        devices: script.devices.as_slice(),
        runs,
        run: number,
        name: routine.name.as_str(),
        commands: routine.routine.commands.as_slice(),
    };
    let end = read_run_line(alloc, &reader, line)?;
    Ok(RunLine { end, rest })
}

/// Reads the lines of a window's runs.
fn read_runs<'a>(
    alloc: Global,
    script: &Script,
    runs: &[RunText],
    text: &'a [u8],
) -> Result<RunLines<'a>, Halt>
    requires few { length runs.now ≤ most_runs }
    requires routines { All (λ run. run.routine < length script.now.routines.items) runs.now }
    ensures told { IsTold runs_told result (walk (next_run_told script.now (length runs.now))
        (record { ends = []; lines = lines_of text.now }) runs.now) }
    ensures count { IfOk result (λ told. length told.ends.items ≡ length runs.now) }
{
    let mut ends = List::new(alloc);
    ends.reserve(runs.len() as u64)?;
    let mut rest = text;
    'runs: for (i, run) in runs.iter().enumerate() {
        let told = read_run(alloc, script, runs.len(), RunNo(i as u32 + 1), run, rest)?;
        ends.push(told.end)?;
        rest = told.rest;
    }
    Ok(RunLines { ends, rest })
}

/// Reads the first line of the window with this number, from 1, and gives what stands behind it.
fn after_window_line<'a>(
    alloc: Global,
    number: u32,
    window: &WindowText,
    text: &'a [u8],
) -> Result<&'a [u8], Halt>
    ensures { IsTold (λ rest. lines_of rest.now) result
        (window_line_told number window.now.at (lines_of text.now)) }
{
    let Some((line, behind)) = next_line(text) else {
        return Err(Halt::At(Place::Window));
    };
    if is_window_line(alloc, number, window.at, line)? {
        Ok(behind)
    } else {
        Err(Halt::At(Place::Window))
    }
}

fn committed_in(ends: &[RunEnd]) -> usize
    ensures { result ≡ count_by is_some (plain_ends ends.now) }
{
    ends.iter()
        .filter(|end| matches!(end, RunEnd::Committed(_)))
        .count()
}

/// The items of an order, and what is left of the record.
#[derive(Drop)]
struct OrderLine<'a> {
    items: List<Item>,
    rest: &'a [u8],
}

/// Reads the order line.
fn read_order<'a>(
    alloc: Global,
    reader: &OrderReader<'_>,
    text: &'a [u8],
) -> Result<OrderLine<'a>, Halt>
    requires { IsReader reader.now }
    ensures told { IsTold (λ told. told.items.items) result
        (order_told (setting_for_order reader.now) (line_at (lines_of text.now) 0)) }
    ensures of_roster { IfOk result
        (λ told. All (IsItemOf reader.now.home.now.items reader.now.roster.now) told.items.items) }
    ensures rest { IfOk result (λ told. lines_of told.rest.now ≡ drop 1 (lines_of text.now)) }
{
    let Some((line, rest)) = next_line(text) else {
        return Err(Halt::At(Place::Order(0)));
    };
    let items = reader.read(alloc, line)?;
    Ok(OrderLine { items, rest })
}

/// Where the devices stand behind an order, and what is left of the record.
#[derive(Drop)]
struct OrderEnd<'a> {
    home: List<Stand>,
    rest: &'a [u8],
}

/// Reads the order line of the window with this number, from 0, and executes the order.
#[tactic(auto, unfolding(crate::specs::Windows::order_end_told))]
fn read_order_end<'a>(
    alloc: Global,
    script: &Script,
    number: u32,
    window: &WindowText,
    home: &List<Stand>,
    told: &RunLines<'a>,
) -> Result<OrderEnd<'a>, Halt>
    requires sound { IsSound (plain_script script.now) }
    requires window { slice_get script.now.windows.items number ≡ Some window.now }
    requires home { length home.now.items ≡ length script.now.devices.items }
    requires count { length told.now.ends.items ≡ length window.now.runs.items }
    ensures told { IsTold (λ end. end.home.items) result
        (order_end_told script.now home.now.items window.now (runs_told told.now)) }
    ensures home { IfOk result (λ end. length end.home.items ≡ length script.now.devices.items) }
    ensures rest { IfOk result
        (λ end. lines_of end.rest.now ≡ drop 1 (lines_of told.now.rest.now)) }
{
    let roster = roster(alloc, script, number)?;
    let reader = OrderReader {
        devices: script.devices.as_slice(),
        home,
        roster: &roster,
        ends: told.ends.as_slice(),
    };
    let order = read_order(alloc, &reader, told.rest)?;
    let home = home_behind(alloc, &reader, order.items.as_slice())?;
    Ok(OrderEnd {
        home,
        rest: order.rest,
    })
}

/// Reads the home line, and gives what stands behind it.
#[tactic(auto, unfolding(crate::specs::HomeLines::home_agrees))]
fn after_home<'a>(
    alloc: Global,
    devices: &[DeviceText],
    home: &[Stand],
    text: &'a [u8],
) -> Result<&'a [u8], Halt>
    requires { length home.now ≤ most_devices }
    ensures told { IsTold (λ _. length home.now) result
        (home_agrees devices.now home.now (line_at (lines_of text.now) 0)) }
    ensures rest { IfOk result (λ rest. lines_of rest.now ≡ drop 1 (lines_of text.now)) }
{
    let Some((line, rest)) = next_line(text) else {
        return Err(Halt::At(Place::Home));
    };
    check_home(alloc, devices, home, line)?;
    Ok(rest)
}

/// Reads the lines of a window, from what was read before it.
#[tactic(auto, unfolding(crate::specs::Windows::window_told))]
pub fn read_window<'a>(
    alloc: Global,
    script: &Script,
    before: Progress<'a>,
    window: &WindowText,
) -> Result<Progress<'a>, Halt>
    requires sound { IsSound (plain_script script.now) }
    requires window { slice_get script.now.windows.items before.windows ≡ Some window.now }
    requires home { length before.home.items ≡ length script.now.devices.items }
    requires runs { before.runs ≤ before.windows * most_runs }
    requires committed { before.committed ≤ before.runs }
    ensures told { IsTold progress_told result
        (window_told script.now (progress_told before.entry) window.now) }
    ensures home { IfOk result (λ next. length next.home.items ≡ length script.now.devices.items) }
    ensures windows { IfOk result (λ next. next.windows ≡ before.entry.windows + 1) }
    ensures runs { IfOk result (λ next. next.runs ≤ next.windows * most_runs) }
    ensures committed { IfOk result (λ next. next.committed ≤ next.runs) }
{
    let Progress {
        windows,
        home,
        rest,
        runs,
        committed,
    } = before;
    let rest = after_window_line(alloc, windows + 1, window, rest)?;
    let told = read_runs(alloc, script, window.runs.as_slice(), rest)?;
    let end = read_order_end(alloc, script, windows, window, &home, &told)?;
    let devices = script.devices.as_slice();
    let rest = after_home(alloc, devices, end.home.as_slice(), end.rest)?;
    Ok(Progress {
        windows: windows + 1,
        home: end.home,
        rest,
        runs: runs + window.runs.len(),
        committed: committed + committed_in(told.ends.as_slice()) as u64,
    })
}
