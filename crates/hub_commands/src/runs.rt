//! The call for `run`: a day that is run with threads.
ghost use Rattle.std.specs.Prelude.{◌≡◌, ◌+◌, ◌<◌, ◌≤◌, [], IfErr, IfOk, IsTrue, None, length, map, string_bytes};
ghost use Rattle.home_types.specs.Limits.{most_windows};
ghost use Rattle.hub_commands.specs.CommandsTaken.{run_line_of};
ghost use Rattle.hub_commands.specs.Boards.{IsToldOf};
ghost use Rattle.hub_commands.specs.Days.{plain};
ghost use Rattle.hub_commands.specs.Calls.{CallEnds, IsProbedInAll};
ghost use Rattle.hub_commands.specs.Finishes.{DayEnds, read_off, written};
ghost use Rattle.hub_commands.specs.Going.{IsLastOf, IsToldOfDay, PlaysOneMore};
ghost use Rattle.hub_commands.specs.Played.{IsWorkedAs};
ghost use Rattle.hub_commands.specs.Statuses.{status_for_fault};
ghost use Rattle.hub_commands.specs.Ways.{IsRunWithin};
ghost use Rattle.hub_core.specs.OpenHubs.{configuration_of};
ghost use Rattle.hub_core.specs.Openings.{is_mode};
ghost use Rattle.hub_core.specs.Steps.{opened};
ghost use Rattle.routine_reader.specs.Rosters.{kinds_of};
ghost use Rattle.routine_reader.specs.Scripts.{plain_script};
ghost use Rattle.routine_reader.specs.Sound.{IsSound};

use crate::day_words::{DayCall, read_day_words};
use crate::days::{begin, end, go_on, refuse};
use crate::faults::Fault;
use crate::finishes::Finish;
use crate::inputs::read_input;
use crate::onlookers::{Nobody, Onlooker, tell_of};
use crate::plays::{DayUnderWay, UntoldDay, close_next, open_next};
use crate::told_windows::ToldWindow;
use crate::ways::InThreads;
use command_words::{Options, WordFault};
use day_clock::{Clock, Sink, Source};
use device_states::{Bench, Device};
use history_book::WindowRecord;
use home_types::{List, Mode, NoMemory};
use hub_core::{Home, Hub};
use hub_threads::run_window;
use routine_reader::{Script, WindowText};
use std::alloc::Global;
use std::sync::Wait;
use std::thread::Threads;

/// Runs the window of this text, which was just opened, with threads. Where memory is wanted the
/// hub is dropped.
fn run_opened<R: Threads + Wait + Sync, D: Device + Send, C: Clock + Sync>(
    rt: &R,
    alloc: Global,
    hub: Hub<D>,
    window: &WindowText,
    clock: &C,
) -> Result<(Home<D>, WindowRecord), NoMemory>
    requires fresh { configuration_of hub ≡ opened hub.setting hub.rounds }
    requires rounds { hub.rounds ≡ window.now.probes }
    ensures { IfOk result
        (λ done. IsWorkedAs (IsRunWithin (C.earliest clock.now) (C.latest clock.now)) D.shows hub
        window.now done.0 done.1) }
{
    match run_window(rt, alloc, hub, window.probes, clock) {
        Ok(done) => Ok(done),
        Err((hub, NoMemory)) => {
            drop(hub);
            Err(NoMemory)
        }
    }
}

/// Runs the next window of the script, with threads.
///
/// Where memory is wanted the windows before come back; the home is dropped.
fn run_next<R: Threads + Wait + Sync, D: Device + Send, C: Clock + Sync>(
    rt: &R,
    alloc: Global,
    script: &Script,
    mode: Mode,
    day: DayUnderWay<D>,
    clock: &C,
) -> Result<UntoldDay<D>, List<ToldWindow>>
    requires sound { IsSound (plain_script script.now) }
    requires goes { IsTrue (is_mode mode) }
    requires next { length day.windows.items < length script.now.windows.items }
    requires kinds { day.home.kinds ≡ kinds_of script.now }
    requires few { day.home.opened ≤ most_windows }
    ensures played { IfOk result
        (λ next. PlaysOneMore (IsRunWithin (C.earliest clock.now) (C.latest clock.now)) D.shows
        script.now 0 mode day next) }
    ensures more { IfOk result (λ next. length next.windows.items ≡ length day.windows.items + 1) }
    ensures last { IfOk result (λ next. IsLastOf next.closed next.windows.items) }
    ensures starved { IfErr result (λ windows. windows.items ≡ day.windows.items) }
{
    match open_next(alloc, script, mode, 0, day) {
        Ok((hub, window, windows)) => {
            close_next(windows, run_opened(rt, alloc, hub, window, clock))
        }
        Err(windows) => Err(windows),
    }
}

/// Runs the script's day on devices of the bench, with threads, and writes its record: the head,
/// each window as it closes, and the total. Who looks on is told of each window before its lines
/// are written.
pub fn run_day<R: Threads + Wait + Sync, K: Sink, B: Bench, C: Clock + Sync, O: Onlooker>(
    rt: &R,
    alloc: Global,
    script: &Script,
    options: Options,
    sink: &mut K,
    bench: &mut B,
    clock: &C,
    onlooker: &mut O,
) -> Finish<B::Dev>
where
    B::Dev: Send,
    requires sound { IsSound (plain_script script.now) }
    requires goes { IsTrue (is_mode options.mode) }
    requires stands { O.stands onlooker.old }
    requires new { IsToldOf (O.told onlooker.old) [] }
    ensures status { result.status ≡ status_for_fault result.fault }
    ensures ends { DayEnds (IsRunWithin (C.earliest clock.now) (C.latest clock.now)) B.Dev.shows
        plain script.now options
        (written (K.holds sink.old) (K.holds sink.new) (K.faults sink.old) (K.faults sink.new))
        result.day result.fault }
    ensures stands { O.stands onlooker.new }
    ensures same { O.posts_on onlooker.new ≡ O.posts_on onlooker.old }
    ensures told { IsToldOfDay (O.told onlooker.new) result.day }
{
    let way = InThreads { clock };
    let mut day = match begin(&way, alloc, script, options, sink, bench) {
        Ok(day) => day,
        Err(finish) => return finish,
    };
    'windows: for _ in 0..script.windows.len() {
        let next = run_next(rt, alloc, script, options.mode, day, clock);
        tell_of(rt, onlooker, &next);
        day = match go_on(&way, alloc, script, options, 0, next, sink) {
            Ok(day) => day,
            Err(finish) => return finish,
        };
    }
    end(&way, alloc, options, day, sink)
}

/// Runs the command that may wait.
///
/// `run` reads a day's script from the source, works its windows on devices of the bench with
/// threads, at most one for each run, at the moments of the clock, and writes the record to the
/// sink. The turns and the seeds of windows are not heeded. The words are those on the command
/// line, without the program's name; every other command is refused as words.
///
/// The status tells how the call ended, as that of `still_command` does. It may wait: what is said
/// of its answer holds if it returns.
pub fn run_command<R: Threads + Wait + Sync, S: Source, K: Sink, B: Bench, C: Clock + Sync>(
    rt: &R,
    alloc: Global,
    words: &[String],
    source: &mut S,
    sink: &mut K,
    bench: &mut B,
    clock: &C,
) -> Finish<B::Dev>
where
    B::Dev: Send,
    ensures status { result.status ≡ status_for_fault result.fault }
    ensures ends { CallEnds (IsRunWithin (C.earliest clock.now) (C.latest clock.now)) B.Dev.shows
        (run_line_of (map string_bytes words.now)) (read_off (S.left source.old) (S.left source.new)
        (S.faults source.old) (S.faults source.new))
        (written (K.holds sink.old) (K.holds sink.new) (K.faults sink.old) (K.faults sink.new))
        result.day result.fault }
    ensures probed { result.fault ≡ None → IsProbedInAll B.Dev.shows (read_off (S.left source.old)
        (S.left source.new) (S.faults source.old) (S.faults source.new)) result.day }
    // No device is built, so none is called, before a day begins.
    ensures unasked { result.day ≡ None → bench.new ≡ bench.old }
{
    let options = match read_day_words(alloc, DayCall::Runs, words) {
        Ok(options) => options,
        Err(WordFault::Words) => return refuse(Fault::Words),
        Err(WordFault::NoMemory) => return refuse(Fault::Memory),
    };
    let script = match read_input(alloc, source) {
        Ok(script) => script,
        Err(fault) => return refuse(fault),
    };
    run_day(rt, alloc, &script, options, sink, bench, clock, &mut Nobody)
}
