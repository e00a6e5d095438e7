//! Days that are kept on a disk in memory: a stored one, and one of three windows, each call of
//! whose disk fails in turn. The outcomes are those of `reference`.
use crate::runs::{LIGHT, streams};
use day_clock::BytesSink;
use device_states::SimBench;
use home_types::{Bytes, NoMemory};
use hub_commands::{Fault, keep_command};
use slot_disks::MemoryDisk;
use std::alloc::Global;
use std::test::*;

/// A day of three windows.
const THREE: &str = r#"{"safehome":1,
 "devices":[{"name":"lamp","states":["off","on"],"start":"off"},
  {"name":"heat","low":10,"high":30,"start":15}],
 "routines":[{"name":"come",
    "commands":[{"on":"lamp","do":"set","to":"on"},{"on":"heat","do":"set","to":21}]},
  {"name":"read","commands":[{"on":"lamp","do":"check","to":"on"}]},
  {"name":"leave","commands":[{"on":"lamp","do":"set","to":"off"}]}],
 "windows":[{"at":"2021-04-26T07:00:00","runs":[{"routine":"come"}]},
  {"at":"2021-04-26T12:00:00","runs":[{"routine":"read"}]},
  {"at":"2021-04-26T20:00:00","runs":[{"routine":"leave"},{"routine":"read"}]}]}"#;

/// The head of each record.
const HEAD: &str = "safehome day\nmodel ev fcfs\n";

/// The window of `LIGHT`.
const LIGHT_WINDOWS: &[&str] = &[
    "window 1 2021-04-26T07:00:00\nrun 1 light committed .\norder 1\nhome lamp=on\n",
];

/// The total of that window, and of no window.
const LIGHT_TOTALS: &[&str] = &[
    "total windows 1 runs 1 committed 1 aborted 0\n",
    "total windows 0 runs 0 committed 0 aborted 0\n",
];

/// The windows of `THREE`.
const WINDOWS: &[&str] = &[
    "window 1 2021-04-26T07:00:00\nrun 1 come committed . .\norder 1\nhome lamp=on heat=21\n",
    "window 2 2021-04-26T12:00:00\nrun 1 read committed on\norder 1\nhome lamp=on heat=21\n",
    "window 3 2021-04-26T20:00:00\n\
    run 1 leave committed .\n\
    run 2 read aborted refuted 1 found off\n\
    order 1\n\
    home lamp=off heat=21\n",
];

/// The total of all of these windows, of all but the first, and so on.
const TOTALS: &[&str] = &[
    "total windows 3 runs 4 committed 3 aborted 1\n",
    "total windows 2 runs 3 committed 2 aborted 1\n",
    "total windows 1 runs 2 committed 1 aborted 1\n",
    "total windows 0 runs 0 committed 0 aborted 0\n",
];

/// The line with this number of kept states.
const KEPT: &[&str] = &["kept 0\n", "kept 1\n", "kept 2\n", "kept 3\n"];

/// A file whose first slot has the number of the second window.
const DAMAGED: [u8; 13] = [1, 2, 0, 0, 0, 1, 0, 1, 0, 0, 0, 1, 0];

/// As many bytes as a disk has room for.
const ROOM: u64 = 200;

/// How a call ended: its status, the text of its fault, the windows that it closed, its record, and
/// the disk.
#[derive(Drop)]
struct Kept {
    status: u8,
    closed: u64,
    fault: String,
    sink: BytesSink,
    disk: MemoryDisk,
}

/// A disk with these bytes whose calls fail from this one on.
fn disk_of(alloc: Global, bytes: &[u8], fails_from: Option<u64>) -> Result<MemoryDisk, NoMemory> {
    MemoryDisk::new(alloc, Bytes::of(alloc, bytes)?, ROOM, fails_from)
}

/// Keeps the day of this script on the disk.
fn keep(alloc: Global, script: &str, disk: MemoryDisk) -> Result<Kept, NoMemory> {
    let (words, mut source, mut sink) = match streams(alloc, &["keep"], script, 4096) {
        Ok(all) => all,
        Err(fault) => {
            drop(disk);
            return Err(fault);
        }
    };
    let (finish, disk) = keep_command(alloc, &words, &mut source, &mut sink, &mut SimBench, disk);
    drop(words);
    drop(source);
    let status = finish.status;
    let closed = match &finish.day {
        Some(day) => day.windows.len(),
        None => 0,
    };
    let fault = text_of(alloc, &finish.fault);
    drop(finish);
    match fault {
        Ok(fault) => Ok(Kept {
            status,
            closed,
            fault,
            sink,
            disk,
        }),
        Err(refused) => {
            drop(sink);
            drop(disk);
            Err(refused)
        }
    }
}

/// The text of the fault, empty where there is none.
fn text_of(alloc: Global, fault: &Option<Fault>) -> Result<String, NoMemory> {
    match fault {
        Some(fault) => fault.to_string(alloc).map_err(|_| NoMemory),
        None => Ok(String::new(alloc)),
    }
}

/// The record behind so many kept windows: the head, the windows up to this number, and the total
/// where it is asked for.
fn record_of(
    alloc: Global,
    windows: &[&str],
    totals: &[&str],
    kept: usize,
    to: usize,
    whole: bool,
) -> Result<String, NoMemory> {
    let mut due = String::new(alloc);
    push(&mut due, HEAD)?;
    push_at(&mut due, KEPT, kept)?;
    for place in kept..to {
        push_at(&mut due, windows, place)?;
    }
    if whole {
        push_at(&mut due, totals, kept)?;
    }
    Ok(due)
}

/// Puts the text at this place of these at the end, where there is one.
fn push_at(text: &mut String, texts: &[&str], place: usize) -> Result<(), NoMemory> {
    match texts.get(place) {
        Some(more) => push(text, more),
        None => Ok(()),
    }
}

/// Puts this text at the end.
fn push(text: &mut String, more: &str) -> Result<(), NoMemory> {
    text.push_str(more).map_err(|_| NoMemory)
}

/// Whether the bytes are the record of the day of three windows.
fn is_three(
    alloc: Global,
    held: &[u8],
    kept: usize,
    to: usize,
    whole: bool,
) -> Result<bool, NoMemory> {
    let due = record_of(alloc, WINDOWS, TOTALS, kept, to, whole)?;
    Ok(held == due.as_bytes())
}

/// Whether they are the record of the day of `LIGHT`.
fn is_light(alloc: Global, held: &[u8], kept: usize) -> Result<bool, NoMemory> {
    let due = record_of(alloc, LIGHT_WINDOWS, LIGHT_TOTALS, kept, 1, true)?;
    Ok(held == due.as_bytes())
}

/// How many states the disk keeps after a crash, by the day of three windows that goes on there to
/// its end: `None` where that record is no whole one.
fn kept_after(alloc: Global, disk: MemoryDisk, written: bool) -> Result<Option<usize>, NoMemory> {
    let again = keep(alloc, THREE, disk.crashed(written))?;
    let found = whole_behind(alloc, again.sink.held());
    let ends = again.status == 0;
    drop(again);
    if ends { found } else { Ok(None) }
}

/// Behind how many kept windows these bytes are the whole record of that day.
fn whole_behind(alloc: Global, held: &[u8]) -> Result<Option<usize>, NoMemory> {
    for kept in 0..KEPT.len() {
        if is_three(alloc, held, kept, 3, true)? {
            return Ok(Some(kept));
        }
    }
    Ok(None)
}

#[test]
fn a_kept_day_goes_on_behind_its_window(rt: HostRuntime) {
    let disk = disk_of(rt.alloc(), &[], None).expect(&rt, "memory");
    let first = keep(rt.alloc(), LIGHT, disk).expect(&rt, "memory");
    assert_eq!(rt; (first.status, first.closed), (0, 1));
    assert_eq!(rt; is_light(rt.alloc(), first.sink.held(), 0), Ok(true));
    let Kept { disk, .. } = first;
    let again = keep(rt.alloc(), LIGHT, disk).expect(&rt, "memory");
    assert_eq!(rt; (again.status, again.closed), (0, 0));
    assert_eq!(rt; is_light(rt.alloc(), again.sink.held(), 1), Ok(true));
    drop(again);
}

#[test]
fn a_damaged_journal_is_told(rt: HostRuntime) {
    let disk = disk_of(rt.alloc(), &DAMAGED, None).expect(&rt, "memory");
    let ended = keep(rt.alloc(), LIGHT, disk).expect(&rt, "memory");
    assert_eq!(rt; ended.status, 10);
    assert_eq!(rt; ended.fault.as_str(), "damaged 1");
    assert!(rt; ended.sink.held().is_empty());
    drop(ended);
}

/// Each call of the disk fails in turn: the sync, the length, a write and a sync of the opening,
/// then two writes and two syncs for each window.
#[test]
fn every_call_of_the_disk_fails(rt: HostRuntime) {
    for call in 1..=17u64 {
        for written in [false, true] {
            let disk = disk_of(rt.alloc(), &[], Some(call)).expect(&rt, "memory");
            let ended = keep(rt.alloc(), THREE, disk).expect(&rt, "memory");
            let fails = call <= 16;
            assert_eq!(rt; ended.status, if fails { 9 } else { 0 });
            let texts = if call <= 4 {
                0
            } else {
                (call as usize - 5) / 4
            };
            let held = ended.sink.held();
            if call <= 4 {
                assert!(rt; held.is_empty());
            } else {
                assert_eq!(rt; is_three(rt.alloc(), held, 0, texts, !fails), Ok(true));
            }
            // the state is on the disk from its window's third call on, where the writes are
            let gate = call > 4 && (call - 5) % 4 >= 2;
            let kept = texts + usize::from(fails && gate && written);
            let Kept { disk, .. } = ended;
            assert_eq!(rt;
                kept_after(rt.alloc(), disk, written).expect(&rt, "memory"),
                Some(kept)
            );
        }
    }
}
