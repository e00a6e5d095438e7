//! The three parts of a day's text.
ghost use Rattle.std.specs.Prelude.{◌≡◌, ◌<◌, ◌+◌, ◌^◌, ◌++◌, IfOk, OnOk, string_bytes, count_by};
ghost use Rattle.day_report.specs.Days as said;

use crate::lines::{push_home, push_order, push_runs, push_trace, push_window_line};
use history_book::{End, Entry, Kept, WindowRecord};
use home_types::{Bytes, List, Mode, NoMemory, Scheduler, Visibility};
use routine_reader::{Script, WindowText};
use std::alloc::{AllocError, Global};
use std::fmt::Write;

/// Writes the head of a day: two lines, the second with the words of the mode.
#[tactic(auto, unfolding(crate::specs::Days::head_text))]
pub fn head_text(alloc: Global, mode: Mode) -> Result<Bytes, NoMemory>
    ensures { IfOk result (λ b. b ≡ said.head_text mode) }
{
    let model = model_word(mode.model);
    let scheduler = scheduler_word(mode.scheduler);
    match format!(in alloc; "safehome day\nmodel {model} {scheduler}\n") {
        Ok(text) => Ok(Bytes::from_text(text)),
        Err(_) => Err(NoMemory),
    }
}

/// Writes the head of a day that goes on behind so many windows: that of a day, and a line with
/// their number.
#[tactic(auto, unfolding(crate::specs::Days::head_text))]
pub fn kept_head_text(alloc: Global, mode: Mode, kept: u32) -> Result<Bytes, NoMemory>
    ensures { IfOk result (λ b. b ≡ said.head_text mode ++ said.kept_line kept) }
{
    let model = model_word(mode.model);
    let scheduler = scheduler_word(mode.scheduler);
    match format!(in alloc; "safehome day\nmodel {model} {scheduler}\nkept {kept}\n") {
        Ok(text) => Ok(Bytes::from_text(text)),
        Err(_) => Err(NoMemory),
    }
}

fn model_word(model: Visibility) -> &'static str
    ensures { result.now ≡ said.model_word model }
{
    match model {
        Visibility::Weak => "wv",
        Visibility::Global => "gsv",
        Visibility::Partitioned => "psv",
        Visibility::Eventual => "ev",
    }
}

fn scheduler_word(scheduler: Scheduler) -> &'static str
    ensures { result.now ≡ said.scheduler_word scheduler }
{
    match scheduler {
        Scheduler::Fcfs => "fcfs",
        Scheduler::JustInTime => "jit",
        Scheduler::Timeline => "timeline",
    }
}

/// Writes the lines of a window, counted from 0: its time, its trace where that is asked for, its
/// runs with their answers or the cause of their abort, the serial order, and the home at the end.
///
/// Nothing is asked of the record. A run, command or device that is not in the script has an empty
/// name, a value that is not in its device's states is written as its number, and a window that is
/// not there has no line.
#[tactic(auto, unfolding(crate::specs::Days::window_text))]
pub fn window_text(
    alloc: Global,
    script: &Script,
    window: u32,
    closed: &WindowRecord,
    mode: Mode,
    trace: bool,
) -> Result<Bytes, NoMemory>
    ensures { IfOk result (λ b. b ≡ said.window_text script.now window closed.now mode trace) }
{
    let mut text = String::new(alloc);
    if let Some(found) = script.windows.get(window as u64) {
        match push_window(alloc, &mut text, script, window, found, closed, mode, trace) {
            Ok(()) => {}
            Err(_) => return Err(NoMemory),
        }
    }
    Ok(Bytes::from_text(text))
}

#[tactic(auto, unfolding(crate::specs::Days::window_lines))]
fn push_window(
    alloc: Global,
    text: &mut String,
    script: &Script,
    number: u32,
    window: &WindowText,
    closed: &WindowRecord,
    mode: Mode,
    trace: bool,
) -> Result<(), AllocError>
    ensures { OnOk result (string_bytes text.new ≡ string_bytes text.old
        ++ said.window_lines script.now number window.now closed.now mode trace) }
{
    let history = closed.history.as_slice();
    push_window_line(text, number, &window.at)?;
    if trace {
        push_trace(text, script, window, history)?;
    }
    push_runs(alloc, text, script, window, history)?;
    push_order(text, script, mode.model, closed.order.as_slice())?;
    push_home(text, script.devices.as_slice(), &closed.last)
}

/// Writes the last line of a day: how many windows it has, and how many runs, committed and
/// aborted.
#[tactic(auto, unfolding(crate::specs::Days::total_text))]
pub fn total_text(alloc: Global, windows: &List<WindowRecord>) -> Result<Bytes, NoMemory>
    ensures { IfOk result (λ b. b ≡ said.total_text windows.now.items) }
{
    counts_text(alloc, windows.len(), ends_of(windows.as_slice()))
}

/// Writes the last line of a day of so many windows, whose runs ended so.
pub fn counts_text(alloc: Global, windows: u64, ends: Ends) -> Result<Bytes, NoMemory>
    requires { ends.committed + ends.aborted < 2 ^ 128 }
    ensures { IfOk result (λ b. b ≡ said.counts_line windows ends.committed ends.aborted) }
{
    let mut text = String::new(alloc);
    match push_counts(&mut text, windows, ends.committed, ends.aborted) {
        Ok(()) => Ok(Bytes::from_text(text)),
        Err(_) => Err(NoMemory),
    }
}

fn push_counts(
    text: &mut String,
    windows: u64,
    committed: u128,
    aborted: u128,
) -> Result<(), AllocError>
    requires { committed + aborted < 2 ^ 128 }
    ensures { OnOk result (string_bytes text.new
        ≡ string_bytes text.old ++ said.counts_line windows committed aborted) }
{
    let runs = committed + aborted;
    writeln!(
        text,
        "total windows {windows} runs {runs} committed {committed} aborted {aborted}"
    )
}

/// How many runs of some windows committed, and how many were aborted: wide enough for any number
/// of records.
#[derive(Clone, Copy)]
pub struct Ends {
    pub committed: u128,
    pub aborted: u128,
}

/// Counts the ends of the runs of some windows.
pub fn ends_of(windows: &[WindowRecord]) -> Ends
    ensures committed { result.committed ≡ said.commit_count windows.now }
    ensures aborted { result.aborted ≡ said.abort_count windows.now }
    ensures room { result.committed + result.aborted < 2 ^ 128 }
{
    let mut ends = Ends {
        committed: 0,
        aborted: 0,
    };
    'windows: for closed in windows {
        let history = closed.history.as_slice();
        ends.committed += commits_in(history) as u128;
        ends.aborted += aborts_in(history) as u128;
    }
    ends
}

/// How many runs committed, by this history.
pub fn commits_in(history: &[Kept]) -> usize
    ensures { result ≡ count_by (λ kept. said.is_commit kept.entry) history.now }
{
    history.iter().filter(|kept| is_commit(kept.entry)).count()
}

/// How many runs were aborted, by this history.
pub fn aborts_in(history: &[Kept]) -> usize
    ensures { result ≡ count_by (λ kept. said.is_abort kept.entry) history.now }
{
    history.iter().filter(|kept| is_abort(kept.entry)).count()
}

fn is_commit(entry: Entry) -> bool
    ensures { result ≡ said.is_commit entry }
{
    matches!(entry, Entry::Ended(_, End::Committed))
}

fn is_abort(entry: Entry) -> bool
    ensures { result ≡ said.is_abort entry }
{
    matches!(entry, Entry::Ended(_, End::Aborted(_)))
}
