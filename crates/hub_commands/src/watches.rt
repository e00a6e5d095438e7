//! The call for `watch`: a day that is run with threads, and watched while it runs.
ghost use Rattle.std.specs.Prelude.{◌≡◌, [], IfSome, IsSome, IsTrue, None, map, string_bytes, true};
ghost use Rattle.hub_commands.specs.Boards.{IsPosting, board_line};
ghost use Rattle.hub_commands.specs.Calls.{CallEnds, IsProbedInAll};
ghost use Rattle.hub_commands.specs.CommandsTaken.{watch_line_of};
ghost use Rattle.hub_commands.specs.Days.{boarded, plain};
ghost use Rattle.hub_commands.specs.Finishes.{DayEnds, IsUnwritten, read_off, written};
ghost use Rattle.hub_commands.specs.LastLines.{LineEnds};
ghost use Rattle.hub_commands.specs.Statuses.{status_for_fault};
ghost use Rattle.hub_commands.specs.Watched.{IsPublished};
ghost use Rattle.hub_commands.specs.Ways.{IsRunWithin};
ghost use Rattle.hub_core.specs.Openings.{is_mode};
ghost use Rattle.routine_reader.specs.Scripts.{plain_script};
ghost use Rattle.routine_reader.specs.Sound.{IsSound};
ghost use Rattle.status_board.specs.Publishings.{last_of};

use crate::board_lines::board_line;
use crate::day_words::{DayCall, read_day_words};
use crate::days::{end_with_line, end_without_devices, refuse};
use crate::faults::Fault;
use crate::finishes::Finish;
use crate::inputs::read_input;
use crate::onlookers::Posting;
use crate::runs::run_day;
use command_words::{Options, WordFault};
use day_clock::{Clock, Sink, Source};
use device_states::{Bench, Device};
use home_types::{List, NoMemory};
use routine_reader::Script;
use status_board::{Board, Counts, Publisher, Silent, Teller, Watcher, watch_telling};
use std::alloc::Global;
use std::sync::Wait;
use std::thread::{Threads, join_mut};

/// Runs the day, and publishes what it has come to: after each window, and as over at its end,
/// however it ends.
fn run_published<R: Threads + Wait + Sync, K: Sink, B: Bench, C: Clock + Sync>(
    rt: &R,
    alloc: Global,
    script: &Script,
    options: Options,
    sink: &mut K,
    bench: &mut B,
    clock: &C,
    posting: &mut Posting<'_>,
) -> Finish<B::Dev>
where
    B::Dev: Send,
    requires sound { IsSound (plain_script script.now) }
    requires goes { IsTrue (is_mode options.mode) }
    requires stands { IsPosting posting.old.board.now posting.old.publisher posting.old.last }
    requires empty { posting.old.publisher.list ≡ [] }
    ensures status { result.status ≡ status_for_fault result.fault }
    ensures ends { DayEnds (IsRunWithin (C.earliest clock.now) (C.latest clock.now)) B.Dev.shows
        plain script.now options
        (written (K.holds sink.old) (K.holds sink.new) (K.faults sink.old) (K.faults sink.new))
        result.day result.fault }
    ensures published { IsPublished posting.new.publisher.list result.day }
    ensures own { posting.new.publisher.board ≡ posting.old.publisher.board }
{
    let finish = run_day(rt, alloc, script, options, sink, bench, clock, posting);
    posting.end(rt);
    finish
}

/// Runs the day beside a watcher, who is worked in a thread of its own, or behind the day where
/// none could be started. Answers how the day ended, and the counts that the watcher has read last.
fn run_watched<R: Threads + Wait + Sync, K: Sink, B: Bench, C: Clock + Sync, T: Teller + Send>(
    rt: &R,
    alloc: Global,
    script: &Script,
    options: Options,
    sink: &mut K,
    bench: &mut B,
    clock: &C,
    posting: &mut Posting<'_>,
    board: &Board,
    watcher: &mut Watcher,
    teller: &mut T,
) -> (Finish<B::Dev>, Counts)
where
    B::Dev: Send,
    requires sound { IsSound (plain_script script.now) }
    requires goes { IsTrue (is_mode options.mode) }
    requires stands { IsPosting posting.old.board.now posting.old.publisher posting.old.last }
    requires empty { posting.old.publisher.list ≡ [] }
    requires watcher { watcher.old.board ≡ board.now }
    ensures status { result.0.status ≡ status_for_fault result.0.fault }
    ensures ends { DayEnds (IsRunWithin (C.earliest clock.now) (C.latest clock.now)) B.Dev.shows
        plain script.now options
        (written (K.holds sink.old) (K.holds sink.new) (K.faults sink.old) (K.faults sink.new))
        result.0.day result.0.fault }
    ensures published { IsPublished posting.new.publisher.list result.0.day }
    ensures own { posting.new.publisher.board ≡ posting.old.publisher.board }
    ensures watcher { watcher.new.board ≡ watcher.old.board }
    ensures seen { result.1 ≡ last_of watcher.new.list }
    ensures over { result.1.over ≡ true }
{
    let (seen, finish) = join_mut(
        rt,
        &mut || watch_telling(rt, board, watcher, teller),
        &mut || -> Finish<B::Dev>
            requires { IsSound (plain_script script.now) × IsTrue (is_mode options.mode)
                × IsPosting posting.now.board.now posting.now.publisher posting.now.last
                × (posting.now.publisher.list ≡ []) }
        { run_published(rt, alloc, script, options, sink, bench, clock, posting) },
    );
    (finish, seen)
}

/// Ends a watched day: writes the line of these counts, where the day's record is written whole.
fn end_watched<Dev: Device, K: Sink>(
    alloc: Global,
    seen: Counts,
    finish: Finish<Dev>,
    sink: &mut K,
) -> Finish<Dev>
    requires status { finish.status ≡ status_for_fault finish.fault }
    ensures status { result.status ≡ status_for_fault result.fault }
    ensures ends { LineEnds (board_line seen)
        (written (K.holds sink.old) (K.holds sink.new) (K.faults sink.old) (K.faults sink.new))
        finish.day finish.fault result.day result.fault }
{
    if finish.fault.is_some() {
        return finish;
    }
    let Finish { day, .. } = finish;
    end_with_line(sink, board_line(alloc, &seen), day)
}

/// Runs the script's day with threads, and watches it.
fn watch_day<R: Threads + Wait + Sync, K: Sink, B: Bench, C: Clock + Sync, T: Teller + Send>(
    rt: &R,
    alloc: Global,
    script: &Script,
    options: Options,
    sink: &mut K,
    bench: &mut B,
    clock: &C,
    teller: &mut T,
) -> (Finish<B::Dev>, Option<Publisher>)
where
    B::Dev: Send,
    requires sound { IsSound (plain_script script.now) }
    requires goes { IsTrue (is_mode options.mode) }
    ensures status { result.0.status ≡ status_for_fault result.0.fault }
    ensures ends { DayEnds (IsRunWithin (C.earliest clock.now) (C.latest clock.now)) B.Dev.shows
        boarded script.now options
        (written (K.holds sink.old) (K.holds sink.new) (K.faults sink.old) (K.faults sink.new))
        result.0.day result.0.fault }
    ensures published { IfSome result.1 (λ publisher. IsPublished publisher.list result.0.day) }
    ensures opened { result.0.fault ≡ None → IsSome result.1 }
    ensures unopened { result.1 ≡ None → IsUnwritten
        (written (K.holds sink.old) (K.holds sink.new) (K.faults sink.old) (K.faults sink.new)) }
{
    let Ok((board, mut publisher)) = Board::open(alloc) else {
        return (end_without_devices(List::new(alloc), Fault::Memory), None);
    };
    let mut watcher = board.watcher(rt, &mut publisher);
    teller.begin(script.windows.len());
    let mut posting = Posting::new(&board, publisher);
    let (finish, seen) = run_watched(
        rt,
        alloc,
        script,
        options,
        sink,
        bench,
        clock,
        &mut posting,
        &board,
        &mut watcher,
        teller,
    );
    let Posting { mut publisher, .. } = posting;
    board.meet(rt, &mut publisher, watcher);
    (end_watched(alloc, seen, finish, sink), Some(publisher))
}

/// Runs `watch`, and tells nobody what the watcher reads while the day runs:
/// `watch_command_telling` with nobody to tell.
pub fn watch_command<R: Threads + Wait + Sync, S: Source, K: Sink, B: Bench, C: Clock + Sync>(
    rt: &R,
    alloc: Global,
    words: &[String],
    source: &mut S,
    sink: &mut K,
    bench: &mut B,
    clock: &C,
) -> (Finish<B::Dev>, Option<Publisher>)
where
    B::Dev: Send,
    ensures status { result.0.status ≡ status_for_fault result.0.fault }
    ensures ends { CallEnds (IsRunWithin (C.earliest clock.now) (C.latest clock.now)) B.Dev.shows
        (watch_line_of (map string_bytes words.now)) (read_off (S.left source.old)
        (S.left source.new) (S.faults source.old) (S.faults source.new))
        (written (K.holds sink.old) (K.holds sink.new) (K.faults sink.old) (K.faults sink.new))
        result.0.day result.0.fault }
    ensures probed { result.0.fault ≡ None → IsProbedInAll B.Dev.shows (read_off (S.left source.old)
        (S.left source.new) (S.faults source.old) (S.faults source.new)) result.0.day }
    // No device is built, so none is called, before a day begins.
    ensures unasked { result.0.day ≡ None → bench.new ≡ bench.old }
    ensures published { IfSome result.1 (λ publisher. IsPublished publisher.list result.0.day) }
    ensures opened { result.0.fault ≡ None → IsSome result.1 }
    ensures unopened { result.1 ≡ None → IsUnwritten
        (written (K.holds sink.old) (K.holds sink.new) (K.faults sink.old) (K.faults sink.new)) }
{
    watch_command_telling(rt, alloc, words, source, sink, bench, clock, &mut Silent)
}

/// Runs the command `watch`, which may wait.
///
/// It does what `run_command` does for `run`, and watches the day while it runs: after each window
/// the counts of the closed windows are published on a board, and at the day's end, however it
/// ends, the last of them as over. A watcher reads the board beside the day, and tells the teller
/// each reading that is another one than the reading before; where no thread could be started for
/// it, it reads once the day is over. Where all is written one line more follows, with the counts
/// that the watcher has read last.
///
/// Hands back the publisher with all that was published, where memory for the board was found;
/// where it was not, nothing was written. The status tells how the call ended, as that of
/// `run_command` does.
pub fn watch_command_telling<
    R: Threads + Wait + Sync,
    S: Source,
    K: Sink,
    B: Bench,
    C: Clock + Sync,
    T: Teller + Send,
>(
    rt: &R,
    alloc: Global,
    words: &[String],
    source: &mut S,
    sink: &mut K,
    bench: &mut B,
    clock: &C,
    teller: &mut T,
) -> (Finish<B::Dev>, Option<Publisher>)
where
    B::Dev: Send,
    ensures status { result.0.status ≡ status_for_fault result.0.fault }
    ensures ends { CallEnds (IsRunWithin (C.earliest clock.now) (C.latest clock.now)) B.Dev.shows
        (watch_line_of (map string_bytes words.now)) (read_off (S.left source.old)
        (S.left source.new) (S.faults source.old) (S.faults source.new))
        (written (K.holds sink.old) (K.holds sink.new) (K.faults sink.old) (K.faults sink.new))
        result.0.day result.0.fault }
    ensures probed { result.0.fault ≡ None → IsProbedInAll B.Dev.shows (read_off (S.left source.old)
        (S.left source.new) (S.faults source.old) (S.faults source.new)) result.0.day }
    // No device is built, so none is called, before a day begins.
    ensures unasked { result.0.day ≡ None → bench.new ≡ bench.old }
    ensures published { IfSome result.1 (λ publisher. IsPublished publisher.list result.0.day) }
    ensures opened { result.0.fault ≡ None → IsSome result.1 }
    ensures unopened { result.1 ≡ None → IsUnwritten
        (written (K.holds sink.old) (K.holds sink.new) (K.faults sink.old) (K.faults sink.new)) }
{
    let options = match read_day_words(alloc, DayCall::Watches, words) {
        Ok(options) => options,
        Err(WordFault::Words) => return (refuse(Fault::Words), None),
        Err(WordFault::NoMemory) => return (refuse(Fault::Memory), None),
    };
    let script = match read_input(alloc, source) {
        Ok(script) => script,
        Err(fault) => return (refuse(fault), None),
    };
    watch_day(rt, alloc, &script, options, sink, bench, clock, teller)
}
