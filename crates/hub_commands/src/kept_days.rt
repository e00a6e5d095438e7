//! A day whose states are kept: each is on the disk before the text of its window is written.
ghost use Rattle.std.specs.Prelude.{◌≡◌, ◌+◌, ◌<◌, ◌≤◌, [], IfOk, IsTrue, None, Some, length, true};
ghost use Rattle.slot_disks.specs.Disks.{LeavesThis};
ghost use Rattle.home_types.specs.Limits.{most_windows};
ghost use Rattle.hub_commands.specs.Finishes.{written};
ghost use Rattle.hub_commands.specs.Going.{IsLastOf, KeepsWindows};
ghost use Rattle.hub_commands.specs.KeptDays.{BeginsBehind, HandsAllBack, HasEndedBehind, HasKept, HasKeptNext, HomeGoesOn};
ghost use Rattle.hub_commands.specs.Statuses.{status_for_fault};
ghost use Rattle.hub_commands.specs.Ways.{IsReplayOf};
ghost use Rattle.hub_core.specs.Openings.{is_mode};
ghost use Rattle.routine_reader.specs.Rosters.{kinds_of};
ghost use Rattle.routine_reader.specs.Scripts.{plain_script};
ghost use Rattle.routine_reader.specs.Sound.{IsSound};

use crate::days::{begin_on, end, end_without_devices, go_on};
use crate::faults::Fault;
use crate::finishes::{Day, Finish};
use crate::plays::{DayUnderWay, UntoldDay};
use crate::replays::replay_next;
use crate::ways::StepByStep;
use command_words::Options;
use day_clock::{Failed, Sink};
use day_report::kept_head_text;
use device_states::{Bench, Device};
use home_journal::Journal;
use home_types::{List, NoMemory};
use hub_core::Home;
use routine_reader::Script;
use slot_disks::Disk;
use std::alloc::Global;

/// A day under way, and the journal that keeps the states of its home.
pub struct KeptDay<Dev: Device, Q: Disk> {
    pub day: DayUnderWay<Dev>,
    pub journal: Journal<Q>,
}

/// The same, and the record of the day's last window, whose lines are not written yet.
struct UntoldKeptDay<Dev: Device, Q: Disk> {
    day: UntoldDay<Dev>,
    journal: Journal<Q>,
}

/// Gives the disk of the journal back.
fn hand_back<Q: Disk>(journal: Journal<Q>) -> Q
    ensures disk { result ≡ journal.disk }
    ensures durable { Q.told ≡ true → LeavesThis (Q.seen result) (Q.images result) }
{
    journal.settled();
    journal.into_disk()
}

/// The home behind the states that are kept: resumed in the last of them, or, where none is, built
/// anew.
fn home_behind<B: Bench, Q: Disk>(
    alloc: Global,
    script: &Script,
    journal: &Journal<Q>,
    bench: &mut B,
) -> Result<Home<B::Dev>, NoMemory>
    requires sound { IsSound (plain_script script.now) }
    requires kinds { journal.now.kinds ≡ kinds_of script.now }
    ensures home { IfOk result
        (λ home. HomeGoesOn B.Dev.shows script.now journal.now.kept journal.now.last home) }
    ensures none { journal.now.last ≡ None → journal.now.kept ≡ 0 }
{
    match journal.last() {
        Some(world) => Home::resume(alloc, bench, script, world),
        None => Home::build(alloc, bench, script),
    }
}

/// Begins the day behind the states that are kept: has the devices built by the bench, and writes
/// the head of the record with the number of these states.
fn begin_behind<K: Sink, B: Bench, Q: Disk>(
    alloc: Global,
    script: &Script,
    options: Options,
    journal: &Journal<Q>,
    sink: &mut K,
    bench: &mut B,
) -> Result<DayUnderWay<B::Dev>, Finish<B::Dev>>
    requires sound { IsSound (plain_script script.now) }
    requires kinds { journal.now.kinds ≡ kinds_of script.now }
    ensures goes_on { BeginsBehind IsReplayOf B.Dev.shows script.now journal.now.kept
        journal.now.last options
        (written (K.holds sink.old) (K.holds sink.new) (K.faults sink.old) (K.faults sink.new))
        result }
    ensures kept { KeepsWindows result [] }
    ensures none { journal.now.last ≡ None → journal.now.kept ≡ 0 }
{
    let Ok(home) = home_behind(alloc, script, journal, bench) else {
        return Err(end_without_devices(List::new(alloc), Fault::Memory));
    };
    let head = kept_head_text(alloc, options.mode, journal.kept());
    begin_on(&StepByStep, alloc, options, home, head, sink)
}

/// Ends a day whose last window may not be kept, since the disk failed: its text is not written.
fn end_unkept<Dev: Device>(day: UntoldDay<Dev>) -> Finish<Dev>
    ensures status { result.status ≡ status_for_fault result.fault }
    ensures fault { result.fault ≡ Some Fault.Disk }
    ensures ends { HandsAllBack day.home.devices day.windows result.day }
{
    let UntoldDay {
        home,
        windows,
        closed,
    } = day;
    drop(closed);
    Finish {
        status: Fault::Disk.status(),
        day: Some(Day {
            windows,
            devices: Some(home.into_devices()),
        }),
        fault: Some(Fault::Disk),
    }
}

/// Keeps the state in which the day's last window left the home, and then writes the lines of that
/// window.
fn write_kept<D: Device, K: Sink, Q: Disk>(
    alloc: Global,
    script: &Script,
    options: Options,
    before: u32,
    next: UntoldKeptDay<D, Q>,
    sink: &mut K,
) -> Result<KeptDay<D, Q>, (Finish<D>, Q)>
    requires some { 0 < length next.day.windows.items }
    requires last { IsLastOf next.day.closed next.day.windows.items }
    requires few { before + length next.day.windows.items ≤ most_windows }
    requires room { next.journal.kept < next.journal.most }
    requires kinds { next.day.home.kinds ≡ next.journal.kinds }
    ensures { HasKept IsReplayOf D.shows Q.told Q.seen Q.images Q.moment Q.images_since Q.faults
        script.now before options
        (written (K.holds sink.old) (K.holds sink.new) (K.faults sink.old) (K.faults sink.new)) next
        result }
{
    let UntoldKeptDay { day, journal } = next;
    match journal.keep(day.home.world()) {
        Ok(journal) => {
            match go_on(&StepByStep, alloc, script, options, before, Ok(day), sink) {
                Ok(day) => Ok(KeptDay { day, journal }),
                Err(finish) => Err((finish, hand_back(journal))),
            }
        }
        Err((disk, Failed)) => Err((end_unkept(day), disk)),
    }
}

/// Replays the next window of the script, keeps the state in which it left the home, and writes its
/// lines.
fn keep_next<D: Device, K: Sink, Q: Disk>(
    alloc: Global,
    script: &Script,
    options: Options,
    before: u32,
    kept: KeptDay<D, Q>,
    sink: &mut K,
) -> Result<KeptDay<D, Q>, (Finish<D>, Q)>
    requires sound { IsSound (plain_script script.now) }
    requires goes { IsTrue (is_mode options.mode) }
    requires next { before + length kept.day.windows.items < length script.now.windows.items }
    requires kinds { kept.day.home.kinds ≡ kinds_of script.now }
    requires few { kept.day.home.opened ≤ most_windows }
    requires room { kept.journal.kept < kept.journal.most }
    requires same { kept.journal.kinds ≡ kinds_of script.now }
    ensures { HasKeptNext IsReplayOf D.shows Q.told Q.seen Q.images Q.moment Q.images_since Q.faults
        script.now before options
        (written (K.holds sink.old) (K.holds sink.new) (K.faults sink.old) (K.faults sink.new)) kept
        result }
{
    let KeptDay { day, journal } = kept;
    match replay_next(alloc, script, options.mode, before, day) {
        Ok(day) => {
            let next = UntoldKeptDay { day, journal };
            write_kept(alloc, script, options, before, next, sink)
        }
        Err(windows) => {
            let finish = end_without_devices(windows, Fault::Memory);
            Err((finish, hand_back(journal)))
        }
    }
}

/// Replays the windows of the script's day behind the states that are kept, keeps the state after
/// each, and writes the record: the head with the number of the states that were kept before, each
/// window once its state is kept, and the total of these windows.
pub fn keep_day<K: Sink, B: Bench, Q: Disk>(
    alloc: Global,
    script: &Script,
    options: Options,
    journal: Journal<Q>,
    sink: &mut K,
    bench: &mut B,
) -> (Finish<B::Dev>, Q)
    requires sound { IsSound (plain_script script.now) }
    requires goes { IsTrue (is_mode options.mode) }
    requires kinds { journal.kinds ≡ kinds_of script.now }
    requires most { journal.most ≡ length script.now.windows.items }
    ensures status { result.0.status ≡ status_for_fault result.0.fault }
    ensures ends { HasEndedBehind IsReplayOf B.Dev.shows Q.told Q.seen Q.images Q.moment
        Q.images_since Q.faults script.now journal.kept journal.last options
        (written (K.holds sink.old) (K.holds sink.new) (K.faults sink.old) (K.faults sink.new))
        journal.disk result.1 result.0.day result.0.fault }
    ensures durable { Q.told ≡ true → LeavesThis (Q.seen journal.disk) (Q.images journal.disk) }
{
    journal.settled();
    let before = journal.kept();
    let day = match begin_behind(alloc, script, options, &journal, sink, bench) {
        Ok(day) => day,
        Err(finish) => return (finish, hand_back(journal)),
    };
    let left = script.windows.len() - u64::from(before);
    let mut kept = KeptDay { day, journal };
    'windows: for _ in 0..left {
        kept = match keep_next(alloc, script, options, before, kept, sink) {
            Ok(next) => next,
            Err(ended) => return ended,
        };
    }
    let KeptDay { day, journal } = kept;
    let finish = end(&StepByStep, alloc, options, day, sink);
    let disk = hand_back(journal);
    (finish, disk)
}
