//! Windows with a known end, whoever steps their runs.
ghost use Rattle.std.specs.Prelude.{◌≡◌, ◌<◌, IfOk, IfSome};
ghost use Rattle.hub_core.specs.OpenHubs.{configuration_of};
ghost use Rattle.hub_core.specs.Steps.{opened};
ghost use Rattle.routine_reader.specs.Rosters.{kinds_of};
ghost use Rattle.routine_reader.specs.Scripts.{plain_script};
ghost use Rattle.routine_reader.specs.Sound.{IsSound};

use day_clock::SetClock;
use device_states::{Bench, CalmBench, CalmDevice, Device};
use history_book::{End, Entry, Kept, WindowRecord};
use home_journal::Journal;
use home_types::{Bytes, Item, List, Mode, NoMemory, Scheduler, Stand, Visibility};
use hub_core::{Home, Hub, script_kinds};
use hub_threads::{BackOff, KeepFault, Means, run_kept_window, run_window_by};
use routine_reader::{Script, read_script, roster};
use slot_disks::{Disk, MemoryDisk};
use std::alloc::Global;
use std::sync::Wait;
use std::thread::Threads;

/// Five runs that all want the lamp: each leaves it at its own number.
const SCRIPT: &str = r#"{"safehome": 1, "devices": [
  {"name": "lamp", "low": 0, "high": 9, "start": 0},
  {"name": "heat", "low": 10, "high": 30, "start": 18},
  {"name": "fan", "states": ["off", "on"], "start": "off"}],
 "routines": [
  {"name": "a",
    "commands": [{"on": "lamp", "do": "set", "to": 7}, {"on": "heat", "do": "set", "to": 20},
      {"on": "lamp", "do": "set", "to": 1}]},
  {"name": "b",
    "commands": [{"on": "fan", "do": "set", "to": "on"}, {"on": "lamp", "do": "set", "to": 2}]},
  {"name": "c", "commands": [{"on": "heat", "do": "load"}, {"on": "lamp", "do": "set", "to": 3}]},
  {"name": "d",
    "commands": [{"on": "lamp", "do": "set", "to": 4}, {"on": "fan", "do": "set", "to": "off"}]},
  {"name": "e",
    "commands": [{"on": "heat", "do": "set", "to": 22}, {"on": "fan", "do": "set", "to": "on"},
      {"on": "lamp", "do": "set", "to": 5}]}],
 "windows": [{"at": "2021-04-26T18:30", "probes": 2,
    "runs": [{"routine": "a"}, {"routine": "b"}, {"routine": "c"}, {"routine": "d"},
      {"routine": "e"}]}]}"#;

/// A lamp, and two windows: in the first it is switched on, in the second off.
const EVENING: &str =
    r#"{"safehome": 1, "devices": [{"name": "lamp", "states": ["off", "on"], "start": "off"}],
 "routines": [
  {"name": "come", "commands": [{"on": "lamp", "do": "set", "to": "on"}]},
  {"name": "sleep", "commands": [{"on": "lamp", "do": "set", "to": "off"}]}],
 "windows": [
  {"at": "2021-04-26T18:30", "runs": [{"routine": "come"}]},
  {"at": "2021-04-26T22:30", "probes": 1, "runs": [{"routine": "sleep"}]}]}"#;

/// As many bytes as the disk has room for.
const ROOM: u64 = 100;

const RUNS: u64 = 5;

const ROUNDS: u32 = 2;

/// Under the first of them runs wait for each other once they are placed, under the second for
/// their place too.
const SCHEDULERS: [Scheduler; 2] = [Scheduler::Fcfs, Scheduler::JustInTime];

/// Pauses of an hour: only a waker ends them in a test's time.
const LONG: BackOff = BackOff {
    blocked: 3_600_000,
    restless: 3_600_000,
};

#[test]
fn the_calling_thread_steps_all_runs(rt: HostRuntime) {
    assert!(rt; ends_right(&rt, rt.alloc(), 0));
}

#[test]
fn some_runs_have_a_thread(rt: HostRuntime) {
    assert!(rt; ends_right(&rt, rt.alloc(), 1));
    assert!(rt; ends_right(&rt, rt.alloc(), 3));
}

#[test]
fn each_run_has_a_thread(rt: HostRuntime) {
    assert!(rt; ends_right(&rt, rt.alloc(), u32::MAX));
}

/// A hub that begins again behind each window, on a disk that fails from this call on until the
/// first kill. It makes four calls of an empty disk to open the journal, and four to keep a state.
#[test]
fn a_hub_goes_on_behind_what_is_kept(rt: HostRuntime) {
    for k in 1..10 {
        let lost = if k < 9 { 4 } else { 3 };
        assert!(rt; lives(&rt, rt.alloc(), k, false) == Some(lost));
        let left = if k < 7 { 4 } else { 3 };
        assert!(rt; lives(&rt, rt.alloc(), k, true) == Some(left));
    }
}

/// Whether the window ends as it should where at most so many threads are started, and nobody wakes
/// without a bell.
fn ends_right<R: Threads + Wait + Sync>(rt: &R, alloc: Global, threads: u32) -> bool {
    let mut right = true;
    for scheduler in SCHEDULERS {
        right &= match fresh_hub(alloc, scheduler) {
            Some(hub) => is_worked_right(rt, alloc, hub, threads),
            None => false,
        };
    }
    right
}

fn is_worked_right<R: Threads + Wait + Sync>(
    rt: &R,
    alloc: Global,
    hub: Hub<CalmDevice>,
    threads: u32,
) -> bool
    requires { configuration_of hub ≡ opened hub.setting hub.rounds }
{
    let means = Means {
        threads,
        back_off: LONG,
    };
    match run_window_by(rt, alloc, hub, ROUNDS, &SetClock::new(7), means) {
        Ok((home, closed)) => {
            let right = is_right(home, &closed);
            drop(closed);
            right
        }
        Err((hub, _)) => {
            drop(hub);
            false
        }
    }
}

/// The hub of the script's window, in which nothing was done yet.
fn fresh_hub(alloc: Global, scheduler: Scheduler) -> Option<Hub<CalmDevice>>
    ensures { IfSome result (λ hub. configuration_of hub ≡ opened hub.setting hub.rounds) }
{
    let script = read_script(alloc, SCRIPT.as_bytes()).ok()?;
    let hub = open_first(alloc, &script, scheduler)?;
    if hub.fresh() {
        Some(hub)
    } else {
        drop(hub);
        None
    }
}

/// Opens the script's first window on a new home, under this scheduler.
fn open_first(alloc: Global, script: &Script, scheduler: Scheduler) -> Option<Hub<CalmDevice>>
    requires sound { IsSound (plain_script script.now) }
{
    let home = Home::build(alloc, &mut CalmBench, script).ok()?;
    let (hub, _rounds) = open_window(alloc, script, 0, home, scheduler)?;
    Some(hub)
}

/// Opens the script's window of this number, from 0, under this scheduler, on a home that has
/// opened none. Answers the hub, and how often each device may be probed.
fn open_window<D: Device>(
    alloc: Global,
    script: &Script,
    number: u32,
    home: Home<D>,
    scheduler: Scheduler,
) -> Option<(Hub<D>, u32)>
    requires sound { IsSound (plain_script script.now) }
    requires kinds { home.kinds ≡ kinds_of script.now }
    requires new { home.opened ≡ 0 }
    ensures kinds { IfSome result (λ hub. hub.0.setting.kinds ≡ kinds_of script.now) }
    ensures fresh { IfSome result (λ hub. configuration_of hub.0 ≡ opened hub.0.setting hub.1) }
    ensures rounds { IfSome result (λ hub. hub.0.rounds ≡ hub.1) }
{
    let Some(window) = script.windows.get(number as u64) else {
        drop(home);
        return None;
    };
    let Ok(roster) = roster(alloc, script, number) else {
        drop(home);
        return None;
    };
    home.kept_invariant();
    let mode = Mode {
        model: Visibility::Eventual,
        scheduler,
    };
    match home.open_window(alloc, roster, mode, window.probes) {
        Ok(hub) => Some((hub, window.probes)),
        Err((home, NoMemory)) => {
            drop(home);
            None
        }
    }
}

/// Whether every run committed, the order has all of them, the lamp stands as the last of them
/// leaves it, and each device was probed in each round.
fn is_right(home: Home<CalmDevice>, closed: &WindowRecord) -> bool {
    let lamp = home.world().devices.get(0).map(|stand| stand.value);
    let devices = home.into_devices();
    committed(closed.history.as_slice()) == RUNS as usize
        && closed.order.len() == RUNS
        && lamp == last_of(&closed.order)
        && devices
            .as_slice()
            .iter()
            .all(|device| device.probes() == u64::from(ROUNDS))
}

/// How many runs committed.
fn committed(history: &[Kept]) -> usize {
    history
        .iter()
        .filter(|kept| matches!(kept.entry, Entry::Ended(_, End::Committed)))
        .count()
}

/// The number of the last run in the order.
fn last_of(order: &List<Item>) -> Option<u32> {
    match order.as_slice().last() {
        Some(Item::Ran(r)) => Some(r.0),
        _ => None,
    }
}

/// How often a hub begins until it finds both windows kept, and the lamp off again. At each kill
/// the disk has the writes since its last sync, or has lost them.
fn lives<R: Threads + Wait + Sync>(
    rt: &R,
    alloc: Global,
    fails_from: u64,
    writes: bool,
) -> Option<u32> {
    let empty = Bytes::of(alloc, &[]).ok()?;
    let disk = MemoryDisk::new(alloc, empty, ROOM, Some(fails_from)).ok()?;
    match read_script(alloc, EVENING.as_bytes()) {
        Ok(script) => lives_on(rt, alloc, &script, disk, writes),
        Err(_) => None,
    }
}

fn lives_on<R: Threads + Wait + Sync>(
    rt: &R,
    alloc: Global,
    script: &Script,
    disk: MemoryDisk,
    writes: bool,
) -> Option<u32>
    requires sound { IsSound (plain_script script.now) }
{
    let mut disk = disk;
    for begun in 1..6 {
        let (left, over) = live(rt, alloc, script, disk);
        if over {
            return Some(begun);
        }
        disk = left.crashed(writes);
    }
    None
}

/// Begins behind what the disk keeps, and works the next window. Answers whether there is none, and
/// the lamp is off.
fn live<R: Threads + Wait + Sync>(
    rt: &R,
    alloc: Global,
    script: &Script,
    disk: MemoryDisk,
) -> (MemoryDisk, bool)
    requires sound { IsSound (plain_script script.now) }
{
    let Ok(kinds) = script_kinds(alloc, script) else {
        return (disk, false);
    };
    let most = script.windows.len() as u32;
    match Journal::open(alloc, disk, &kinds, most) {
        Ok(journal) => {
            if journal.kept() == most {
                let off = is_off(&journal);
                (journal.into_disk(), off)
            } else {
                (work_next(rt, alloc, &mut CalmBench, script, journal), false)
            }
        }
        Err((disk, _fault)) => (disk, false),
    }
}

/// Whether the last state that is kept has the first device up at 0.
fn is_off<Q: Disk>(journal: &Journal<Q>) -> bool {
    match journal.last() {
        Some(world) => world.devices.get(0) == Some(&Stand { value: 0, up: true }),
        None => false,
    }
}

/// Works the window behind those that are kept, and keeps its state. Answers the disk, also where
/// that fails.
fn work_next<R: Threads + Wait + Sync, B: Bench, Q: Disk>(
    rt: &R,
    alloc: Global,
    bench: &mut B,
    script: &Script,
    journal: Journal<Q>,
) -> Q
where
    B::Dev: Send,
    requires sound { IsSound (plain_script script.now) }
    requires kinds { journal.kinds ≡ kinds_of script.now }
    requires next { journal.kept < journal.most }
{
    let Ok(home) = home_of(alloc, bench, script, &journal) else {
        return journal.into_disk();
    };
    let number = journal.kept();
    let Some((hub, rounds)) = open_window(alloc, script, number, home, Scheduler::Fcfs) else {
        return journal.into_disk();
    };
    match run_kept_window(rt, alloc, hub, rounds, &SetClock::new(7), journal) {
        Ok((home, closed, journal)) => {
            drop(home);
            drop(closed);
            journal.into_disk()
        }
        Err(KeepFault::Failed(home, closed, disk)) => {
            drop(home);
            drop(closed);
            disk
        }
        Err(KeepFault::NoMemory(hub, journal)) => {
            drop(hub);
            journal.into_disk()
        }
    }
}

/// The home of the script: as the last state that is kept has it, or new where none is.
fn home_of<B: Bench, Q: Disk>(
    alloc: Global,
    bench: &mut B,
    script: &Script,
    journal: &Journal<Q>,
) -> Result<Home<B::Dev>, NoMemory>
    requires sound { IsSound (plain_script script.now) }
    requires kinds { journal.now.kinds ≡ kinds_of script.now }
    ensures kinds { IfOk result (λ home. home.kinds ≡ kinds_of script.now) }
    ensures new { IfOk result (λ home. home.opened ≡ 0) }
{
    match journal.last() {
        Some(world) => Home::resume(alloc, bench, script, world),
        None => Home::build(alloc, bench, script),
    }
}
