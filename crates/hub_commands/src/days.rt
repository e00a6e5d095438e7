//! A day, window after window: how it begins, goes on and ends, and what is written of it.
ghost use Rattle.std.specs.Prelude.{◌≡◌, ◌+◌, ◌<◌, ◌≤◌, ◌++◌, ◌∷◌, [], IfOk, None, Some, length};
ghost use Rattle.day_report.specs.Days.{head_text, total_text, window_text as window_lines_of};
ghost use Rattle.home_types.specs.Limits.{most_windows};
ghost use Rattle.hub_commands.specs.Days.{new_course};
ghost use Rattle.hub_commands.specs.Finishes.{written};
ghost use Rattle.hub_commands.specs.Going.{DayHasBegun, GoesOnOrEnds, HandsBack, HasEnded, HasWritten, IsLastOf, KeepsWindows, windows_in};
ghost use Rattle.hub_commands.specs.LastLines.{LineIsWritten};
ghost use Rattle.hub_commands.specs.Chunks.{StopEnds};
ghost use Rattle.hub_commands.specs.Statuses.{status_for_fault};
ghost use Rattle.hub_commands.specs.Trials.{HasStarved};
ghost use Rattle.routine_reader.specs.Scripts.{plain_script};
ghost use Rattle.routine_reader.specs.Sound.{IsSound};

use crate::chunks::{ChunkFault, write_chunk};
use crate::faults::Fault;
use crate::finishes::{Day, Finish};
use crate::plays::{DayUnderWay, UntoldDay};
use crate::told_windows::{ToldWindow, ends_told};
use crate::ways::Way;
use command_words::Options;
use day_clock::Sink;
use day_report::{counts_text, head_text, window_text};
use device_states::{Bench, Device};
use history_book::WindowRecord;
use home_types::{Bytes, List, NoMemory};
use hub_core::Home;
use routine_reader::Script;
use std::alloc::Global;

/// Ends the call before there is a day.
pub fn refuse<Dev: Device>(fault: Fault) -> Finish<Dev>
    ensures fault { result.fault ≡ Some fault }
    ensures day { result.day ≡ None }
    ensures status { result.status ≡ status_for_fault result.fault }
{
    Finish {
        status: fault.status(),
        day: None,
        fault: Some(fault),
    }
}

/// Ends the call with the windows that were closed, and without devices.
pub fn end_without_devices<Dev: Device>(windows: List<ToldWindow>, fault: Fault) -> Finish<Dev>
    ensures fault { result.fault ≡ Some fault }
    ensures day { result.day ≡ Some (record { windows = windows; devices = None }) }
    ensures status { result.status ≡ status_for_fault result.fault }
{
    Finish {
        status: fault.status(),
        day: Some(Day {
            windows,
            devices: None,
        }),
        fault: Some(fault),
    }
}

/// Ends a call for want of memory, with the windows of its day, if there is one.
pub fn starve<Dev: Device>(day: Option<Day<Dev>>) -> Finish<Dev>
    ensures status { result.status ≡ status_for_fault result.fault }
    ensures starved { HasStarved day result.day result.fault }
{
    match day {
        Some(Day { windows, .. }) => end_without_devices(windows, Fault::Memory),
        None => refuse(Fault::Memory),
    }
}

/// Ends a day on which a chunk of the record was not written: with its devices where the sink
/// failed, and without them where memory was wanted.
fn stop<Dev: Device>(day: DayUnderWay<Dev>, fault: ChunkFault) -> Finish<Dev>
    ensures status { result.status ≡ status_for_fault result.fault }
    ensures ends { StopEnds day.windows day.home.devices fault result.day result.fault }
{
    let DayUnderWay { home, windows } = day;
    match fault {
        ChunkFault::Sink => Finish {
            status: Fault::Write.status(),
            day: Some(Day {
                windows,
                devices: Some(home.into_devices()),
            }),
            fault: Some(Fault::Write),
        },
        ChunkFault::Memory => end_without_devices(windows, Fault::Memory),
    }
}

/// The lines of the day's last window, before whose first one so many windows of the script went.
fn last_lines(
    alloc: Global,
    script: &Script,
    options: Options,
    before: u32,
    windows: &List<ToldWindow>,
    closed: &WindowRecord,
) -> Result<Bytes, NoMemory>
    requires some { 0 < length windows.now.items }
    requires few { before + length windows.now.items ≤ most_windows }
    requires last { IsLastOf closed.now windows.now.items }
    ensures { (earlier : _) (last : _) → windows.now.items ≡ earlier ++ last ∷ []
        → IfOk result (λ lines. lines
        ≡ window_lines_of script.now (before + length earlier) last options.mode options.trace) }
{
    let number = windows.len() - 1;
    window_text(
        alloc,
        script,
        before + number as u32,
        closed,
        options.mode,
        options.trace,
    )
}

/// The last line of the day.
fn total_line(alloc: Global, windows: &List<ToldWindow>) -> Result<Bytes, NoMemory>
    ensures { IfOk result (λ b. b ≡ total_text windows.now.items) }
{
    counts_text(alloc, windows.len(), ends_told(windows.as_slice()))
}

/// Begins a day on this home, on which no window was opened: writes the head of the record.
pub fn begin_on<W: Way, D: Device, K: Sink>(
    _way: &W,
    alloc: Global,
    options: Options,
    home: Home<D>,
    head: Result<Bytes, NoMemory>,
    sink: &mut K,
) -> Result<DayUnderWay<D>, Finish<D>>
    ensures begun { DayHasBegun (W.works _way.now) D.shows options
        (written (K.holds sink.old) (K.holds sink.new) (K.faults sink.old) (K.faults sink.new))
        home head result }
    ensures kept { KeepsWindows result [] }
{
    let day = DayUnderWay {
        home,
        windows: List::new(alloc),
    };
    match write_chunk(sink, head) {
        Ok(()) => Ok(day),
        Err(fault) => Err(stop(day, fault)),
    }
}

/// Begins the script's day: has the devices built by the bench, and writes the head of the record.
pub fn begin<W: Way, K: Sink, B: Bench>(
    way: &W,
    alloc: Global,
    script: &Script,
    options: Options,
    sink: &mut K,
    bench: &mut B,
) -> Result<DayUnderWay<B::Dev>, Finish<B::Dev>>
    requires sound { IsSound (plain_script script.now) }
    ensures goes_on { GoesOnOrEnds (W.works way.now) B.Dev.shows (new_course script.now) options
        (written (K.holds sink.old) (K.holds sink.new) (K.faults sink.old) (K.faults sink.new)) 0
        result }
    ensures kept { KeepsWindows result [] }
{
    let Ok(home) = Home::build(alloc, bench, script) else {
        return Err(end_without_devices(List::new(alloc), Fault::Memory));
    };
    begin_on(
        way,
        alloc,
        options,
        home,
        head_text(alloc, options.mode),
        sink,
    )
}

/// Goes on with what came of the next window: writes its lines. So many windows of the script went
/// before the day.
pub fn go_on<W: Way, D: Device, K: Sink>(
    _way: &W,
    alloc: Global,
    script: &Script,
    options: Options,
    before: u32,
    next: Result<UntoldDay<D>, List<ToldWindow>>,
    sink: &mut K,
) -> Result<DayUnderWay<D>, Finish<D>>
    requires some { IfOk next (λ day. 0 < length day.windows.items) }
    requires last { IfOk next (λ day. IsLastOf day.closed day.windows.items) }
    requires few { IfOk next (λ day. before + length day.windows.items ≤ most_windows) }
    ensures written { HasWritten (W.works _way.now) D.shows script.now before options
        (written (K.holds sink.old) (K.holds sink.new) (K.faults sink.old) (K.faults sink.new)) next
        result }
    ensures kept { KeepsWindows result (windows_in next) }
{
    let next = match next {
        Ok(next) => next,
        Err(windows) => return Err(end_without_devices(windows, Fault::Memory)),
    };
    let UntoldDay {
        home,
        windows,
        closed,
    } = next;
    let lines = last_lines(alloc, script, options, before, &windows, &closed);
    drop(closed);
    let day = DayUnderWay { home, windows };
    match write_chunk(sink, lines) {
        Ok(()) => Ok(day),
        Err(fault) => Err(stop(day, fault)),
    }
}

/// Ends a day whose windows were all played: writes the total.
pub fn end<W: Way, D: Device, K: Sink>(
    _way: &W,
    alloc: Global,
    options: Options,
    day: DayUnderWay<D>,
    sink: &mut K,
) -> Finish<D>
    ensures status { result.status ≡ status_for_fault result.fault }
    ensures ends { HasEnded (W.works _way.now) D.shows options
        (written (K.holds sink.old) (K.holds sink.new) (K.faults sink.old) (K.faults sink.new)) day
        result.day result.fault }
    ensures kept { HandsBack result.day day.windows.items }
{
    if let Err(fault) = write_chunk(sink, total_line(alloc, &day.windows)) {
        return stop(day, fault);
    }
    let DayUnderWay { home, windows } = day;
    Finish {
        status: 0,
        day: Some(Day {
            windows,
            devices: Some(home.into_devices()),
        }),
        fault: None,
    }
}

/// Ends a call with its last line, behind a day: with the day where the line is written or the sink
/// failed, and with its windows alone where memory was wanted.
pub fn end_with_line<Dev: Device, K: Sink>(
    sink: &mut K,
    line: Result<Bytes, NoMemory>,
    day: Option<Day<Dev>>,
) -> Finish<Dev>
    ensures status { result.status ≡ status_for_fault result.fault }
    ensures ends { (bytes : _) → IfOk line (λ b. b ≡ bytes) → LineIsWritten bytes
        (written (K.holds sink.old) (K.holds sink.new) (K.faults sink.old) (K.faults sink.new))
        day result.day result.fault }
{
    match write_chunk(sink, line) {
        Ok(()) => Finish {
            status: 0,
            day,
            fault: None,
        },
        Err(ChunkFault::Sink) => Finish {
            status: Fault::Write.status(),
            day,
            fault: Some(Fault::Write),
        },
        Err(ChunkFault::Memory) => starve(day),
    }
}
