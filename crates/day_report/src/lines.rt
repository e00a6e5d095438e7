//! The lines of a window.
ghost use Rattle.std.specs.Prelude.{◌≡◌, ◌++◌, OnOk, string_bytes};
ghost use Rattle.home_types.specs.HomeStates.{stand_at as stand_in};
ghost use Rattle.history_book.specs.Books.{end_in, end_of};
ghost use Rattle.day_report.specs.Lines as said;

use crate::lookups::{device_name, routine_name, states_of};
use crate::numerals::push_time;
use crate::run_entries::entries_by_run;
use crate::words::{push_answer, push_cause, push_value};
use day_clock::When;
use history_book::{End, Entry, Kept};
use home_types::{Answer, Item, Stand, Visibility, World};
use routine_reader::{DeviceText, RunText, Script, WindowText};
use std::alloc::{AllocError, Global};
use std::fmt::Write;

/// Appends the first line of a window. Windows count from 0, and from 1 in print.
#[tactic(auto, unfolding(crate::specs::Lines::window_line))]
pub fn push_window_line(text: &mut String, window: u32, at: &When) -> Result<(), AllocError>
    ensures { OnOk result
        (string_bytes text.new ≡ string_bytes text.old ++ said.window_line window at.now) }
{
    write!(text, "window {} ", window as u64 + 1)?;
    push_time(text, at)?;
    text.push_str("\n")
}

/// Appends what an entry says. Commands count from 1 in print.
#[tactic(auto, unfolding(crate::specs::Lines::entry_text))]
fn push_entry(
    text: &mut String,
    script: &Script,
    window: &WindowText,
    entry: Entry,
) -> Result<(), AllocError>
    ensures { OnOk result (string_bytes text.new
        ≡ string_bytes text.old ++ said.entry_text script.now window.now entry) }
{
    match entry {
        Entry::Arrived(run, moment) => write!(text, "arrived {} at {moment}", run.0),
        Entry::Placed(run, at, moment) => write!(text, "placed {} place {at} at {moment}", run.0),
        Entry::Did(run, command, answer) => {
            write!(text, "did {}.{} ", run.0, command as u64 + 1)?;
            push_answer(
                text,
                states_of(script, window, run.0 as u64, command),
                answer,
            )
        }
        Entry::Undid(run, device, drove) => {
            let how = if drove { "drove" } else { "dropped" };
            write!(
                text,
                "undid {} {} {how}",
                run.0,
                device_name(script, device)
            )
        }
        Entry::Fell(device) => write!(text, "fell {}", device_name(script, device)),
        Entry::Rose(device) => write!(text, "rose {}", device_name(script, device)),
        Entry::Doomed(run, cause) => {
            write!(text, "doomed {} ", run.0)?;
            push_cause(text, script, window, run.0 as u64, cause)
        }
        Entry::Ended(run, End::Committed) => write!(text, "ended {} committed", run.0),
        Entry::Ended(run, End::Aborted(_)) => write!(text, "ended {} aborted", run.0),
    }
}

/// Appends the line of an entry in the trace.
#[tactic(auto, unfolding(crate::specs::Lines::trace_line))]
pub fn push_trace_line(
    text: &mut String,
    script: &Script,
    window: &WindowText,
    kept: Kept,
) -> Result<(), AllocError>
    ensures { OnOk result (string_bytes text.new
        ≡ string_bytes text.old ++ said.trace_line script.now window.now kept) }
{
    text.push_str("# ")?;
    push_entry(text, script, window, kept.entry)?;
    text.push_str("\n")
}

/// Appends the trace: the history line by line.
#[tactic(auto, using(crate::proofs::Growing::one_piece_more, crate::proofs::Growing::no_piece), unfolding(crate::specs::Lines::trace_lines))]
pub fn push_trace(
    text: &mut String,
    script: &Script,
    window: &WindowText,
    history: &[Kept],
) -> Result<(), AllocError>
    ensures { OnOk result (string_bytes text.new
        ≡ string_bytes text.old ++ said.trace_lines script.now window.now history.now) }
{
    'entries: for kept in history {
        push_trace_line(text, script, window, *kept)?;
    }
    Ok(())
}

/// How the run ended, where the entry says so.
fn end_in(run: u64, entry: Entry) -> Option<End>
    ensures { result ≡ end_in run entry }
{
    match entry {
        Entry::Ended(ended, end) if ended.0 as u64 == run => Some(end),
        _ => None,
    }
}

/// How the run ended: its first entry that says so.
fn end_of(run: u64, history: &[Kept]) -> Option<End>
    ensures { result ≡ end_of history.now run }
{
    history.iter().find_map(|kept| end_in(run, kept.entry))
}

/// Appends the answer of an entry, where it is one of the run.
#[tactic(auto, unfolding(crate::specs::Lines::answer_word, crate::specs::Words::answer_text))]
fn push_answer_of(
    text: &mut String,
    script: &Script,
    window: &WindowText,
    run: u64,
    entry: Entry,
) -> Result<(), AllocError>
    ensures { OnOk result (string_bytes text.new
        ≡ string_bytes text.old ++ said.answer_word script.now window.now run entry) }
{
    match entry {
        Entry::Did(asked, command, answer) if asked.0 as u64 == run => {
            // the device's states are looked up for a value alone
            match answer {
                Answer::Fine => text.push_str(" ."),
                Answer::Found(value) => {
                    text.push_str(" ")?;
                    push_value(text, states_of(script, window, run, command), value)
                }
                Answer::Down => text.push_str(" -"),
                Answer::Skipped => text.push_str(" /"),
            }
        }
        _ => Ok(()),
    }
}

/// Appends the answers of a run, in the order of the history.
#[tactic(auto, using(crate::proofs::Growing::one_piece_more, crate::proofs::Growing::no_piece), unfolding(crate::specs::Lines::answer_words))]
fn push_answers(
    text: &mut String,
    script: &Script,
    window: &WindowText,
    history: &[Kept],
    run: u64,
) -> Result<(), AllocError>
    ensures { OnOk result (string_bytes text.new
        ≡ string_bytes text.old ++ said.answer_words script.now window.now run history.now) }
{
    'entries: for kept in history {
        push_answer_of(text, script, window, run, kept.entry)?;
    }
    Ok(())
}

/// Appends the end of a run, with its answers or the cause.
#[tactic(auto, unfolding(crate::specs::Lines::end_text))]
fn push_end(
    text: &mut String,
    script: &Script,
    window: &WindowText,
    history: &[Kept],
    run: u64,
) -> Result<(), AllocError>
    ensures { OnOk result (string_bytes text.new ≡ string_bytes text.old
        ++ said.end_text script.now window.now history.now run (end_of history.now run)) }
{
    match end_of(run, history) {
        Some(End::Committed) => {
            text.push_str(" committed")?;
            push_answers(text, script, window, history, run)
        }
        Some(End::Aborted(cause)) => {
            text.push_str(" aborted ")?;
            push_cause(text, script, window, run, cause)
        }
        None => Ok(()),
    }
}

/// Appends the line of a run: its number, its routine and its end.
#[tactic(auto, unfolding(crate::specs::Lines::line_of_run))]
fn push_run(
    text: &mut String,
    script: &Script,
    window: &WindowText,
    history: &[Kept],
    run: u64,
    routine: u32,
) -> Result<(), AllocError>
    ensures { OnOk result (string_bytes text.new
        ≡ string_bytes text.old ++ said.line_of_run script.now window.now history.now run routine) }
{
    write!(text, "run {run} {}", routine_name(script, routine))?;
    push_end(text, script, window, history, run)?;
    text.push_str("\n")
}

/// Appends a line for each run of the window. Goes over the history once.
#[tactic(auto, using(crate::proofs::Growing::one_numbered_piece_more, crate::proofs::Growing::no_piece), unfolding(crate::specs::Lines::run_lines))]
pub fn push_runs(
    alloc: Global,
    text: &mut String,
    script: &Script,
    window: &WindowText,
    history: &[Kept],
) -> Result<(), AllocError>
    ensures { OnOk result (string_bytes text.new
        ≡ string_bytes text.old ++ said.run_lines script.now window.now history.now) }
{
    let all = window.runs.as_slice();
    let parts = entries_by_run(alloc, all.len(), history)?;
    'runs: for (i, run) in all.iter().enumerate() {
        push_run(
            text,
            script,
            window,
            parts[i].as_slice(),
            i as u64 + 1,
            run.routine,
        )?;
    }
    Ok(())
}

/// Appends an item of the order.
#[tactic(auto, unfolding(crate::specs::Lines::item_word))]
fn push_item(text: &mut String, script: &Script, item: Item) -> Result<(), AllocError>
    ensures { OnOk result
        (string_bytes text.new ≡ string_bytes text.old ++ said.item_word script.now item) }
{
    match item {
        Item::Ran(run) => write!(text, " {}", run.0),
        Item::Failed(device, _) => write!(text, " fail({})", device_name(script, device)),
        Item::Back(device, _) => write!(text, " back({})", device_name(script, device)),
    }
}

/// Appends the word for a list with nothing in it, where it has nothing.
fn push_none<T>(text: &mut String, items: &[T]) -> Result<(), AllocError>
    ensures { OnOk result
        (string_bytes text.new ≡ string_bytes text.old ++ said.none_word items.now) }
{
    if items.is_empty() {
        text.push_str(" none")?;
    }
    Ok(())
}

/// Appends the items of the order.
#[tactic(auto, using(crate::proofs::Growing::one_piece_more, crate::proofs::Growing::no_piece), unfolding(crate::specs::Lines::item_words))]
fn push_items(text: &mut String, script: &Script, order: &[Item]) -> Result<(), AllocError>
    ensures { OnOk result
        (string_bytes text.new ≡ string_bytes text.old ++ said.item_words script.now order.now) }
{
    push_none(text, order)?;
    'items: for item in order {
        push_item(text, script, *item)?;
    }
    Ok(())
}

/// Appends the serial order, which the weak model does not claim.
#[tactic(auto, unfolding(crate::specs::Lines::order_line))]
pub fn push_order(
    text: &mut String,
    script: &Script,
    model: Visibility,
    order: &[Item],
) -> Result<(), AllocError>
    ensures { OnOk result (string_bytes text.new
        ≡ string_bytes text.old ++ said.order_line script.now model order.now) }
{
    if model == Visibility::Weak {
        return text.push_str("order unclaimed\n");
    }
    text.push_str("order")?;
    push_items(text, script, order)?;
    text.push_str("\n")
}

/// Appends a device where it stands, with a mark where it is down.
#[tactic(auto, unfolding(crate::specs::Lines::home_word))]
fn push_stand(text: &mut String, device: &DeviceText, stand: Stand) -> Result<(), AllocError>
    ensures { OnOk result
        (string_bytes text.new ≡ string_bytes text.old ++ said.home_word device.now stand) }
{
    text.push_str(" ")?;
    text.push_str(device.name.as_str())?;
    text.push_str("=")?;
    push_value(text, device.states.as_slice(), stand.value)?;
    if !stand.up {
        text.push_str("!")?;
    }
    Ok(())
}

/// Where a device stands. One that is not in the home is down at 0.
#[tactic(auto, using(crate::proofs::Homes::stand_at_missing))]
fn stand_at(home: &World, device: u64) -> Stand
    ensures { result ≡ stand_in home.now.devices.items device }
{
    match home.devices.get(device) {
        Some(stand) => *stand,
        None => Stand {
            value: 0,
            up: false,
        },
    }
}

/// Appends each device where it stands.
#[tactic(auto, using(crate::proofs::Growing::one_numbered_piece_more, crate::proofs::Growing::no_piece), unfolding(crate::specs::Lines::home_words))]
fn push_stands(text: &mut String, devices: &[DeviceText], home: &World) -> Result<(), AllocError>
    ensures { OnOk result (string_bytes text.new
        ≡ string_bytes text.old ++ said.home_words devices.now home.now.devices.items) }
{
    push_none(text, devices)?;
    'devices: for (i, device) in devices.iter().enumerate() {
        push_stand(text, device, stand_at(home, i as u64))?;
    }
    Ok(())
}

/// Appends the home: each device in the order of the script.
#[tactic(auto, unfolding(crate::specs::Lines::home_line))]
pub fn push_home(text: &mut String, devices: &[DeviceText], home: &World) -> Result<(), AllocError>
    ensures { OnOk result (string_bytes text.new
        ≡ string_bytes text.old ++ said.home_line devices.now home.now.devices.items) }
{
    text.push_str("home")?;
    push_stands(text, devices, home)?;
    text.push_str("\n")
}
