//! Days that are watched: a stored one, and some that end early, of which the watcher is told all
//! the same that they are over. That the calls return is what no clause says.
use crate::runs::{LIGHT, LIGHT_RECORD, streams};
use day_clock::{BytesSink, SetClock};
use device_states::{Bench, Device, SimBench, SimDevice};
use home_types::{DeviceNo, NoMemory, Value};
use hub_commands::{Finish, watch_command, watch_command_telling};
use status_board::{Counts, Publisher, Teller};
use std::alloc::Global;
use std::sync::Wait;
use std::thread::Threads;

/// The line of the board behind `LIGHT_RECORD`.
const LIGHT_BOARD: &str = "board windows 1 runs 1 committed 1 aborted 0\n";

/// How many bytes the head of a record has.
const HEAD: u64 = 27;

/// What a watcher has told last, and whether it ever told a number that fell.
#[derive(Drop)]
struct Told {
    windows: u64,
    last: Counts,
    fell: bool,
}

impl Teller for Told {
    fn begin(&mut self, windows: u64) {
        self.windows = windows;
    }

    fn tell(&mut self, counts: &Counts) {
        let last = self.last;
        self.fell = self.fell
            || last.over
            || counts.windows < last.windows
            || counts.runs < last.runs
            || counts.committed < last.committed
            || counts.aborted < last.aborted;
        self.last = *counts;
    }
}

/// How a watched day ended: the call's answer, what its sink holds, and what was told.
#[derive(Drop)]
struct Watched<Dev: Device> {
    finish: Finish<Dev>,
    publisher: Option<Publisher>,
    sink: BytesSink,
    told: Told,
}

/// A bench without memory for a device.
#[derive(Clone, Copy)]
struct EmptyBench;

impl Bench for EmptyBench {
    type Dev = SimDevice;

    fn build(
        &mut self,
        _alloc: Global,
        _d: DeviceNo,
        _start: Value,
        _downs: &[(u32, u32)],
    ) -> Result<SimDevice, NoMemory> {
        Err(NoMemory)
    }
}

#[test]
fn a_watched_day_has_the_line_of_its_board(rt: HostRuntime) {
    let watched = watch(&rt, rt.alloc(), &["watch"], 4096, &mut SimBench).expect(&rt, "memory");
    assert_eq!(rt; watched.finish.status, 0);
    assert!(rt; is_light(watched.sink.held(), 4096));
    assert!(rt; watched.publisher.is_some());
    assert_eq!(rt; watched.told.windows, 1);
    assert_eq!(rt; watched.told.last, light(true));
    assert!(rt; !watched.told.fell);
    drop(watched);
}

#[test]
fn a_watched_day_tells_nobody(rt: HostRuntime) {
    let words = ["watch", "--model=ev"];
    let (words, mut source, mut sink) = streams(rt.alloc(), &words, LIGHT, 4096).expect(
        &rt, "memory",
    );
    let clock = SetClock::new(7);
    let (finish, publisher) = watch_command(
        &rt,
        rt.alloc(),
        &words,
        &mut source,
        &mut sink,
        &mut SimBench,
        &clock,
    );
    drop(source);
    drop(words);
    assert_eq!(rt; finish.status, 0);
    drop(finish);
    assert!(rt; is_light(sink.held(), 4096));
    drop(sink);
    assert!(rt; publisher.is_some());
    drop(publisher);
}

#[test]
fn a_day_whose_sink_is_full_is_over(rt: HostRuntime) {
    let whole = LIGHT_RECORD.len() as u64 + LIGHT_BOARD.len() as u64;
    for room in 0..=whole {
        let watched = watch(&rt, rt.alloc(), &["watch"], room, &mut SimBench).expect(&rt, "memory");
        assert_eq!(rt; watched.finish.status, if room < whole { 4 } else { 0 });
        assert!(rt; is_light(watched.sink.held(), room));
        assert!(rt; watched.publisher.is_some());
        // the window is told of before its lines are written, and the head comes before all windows
        let last = if room < HEAD {
            light_before(true)
        } else {
            light(true)
        };
        assert_eq!(rt; watched.told.last, last);
        assert!(rt; !watched.told.fell);
        drop(watched);
    }
}

#[test]
fn a_day_without_memory_is_over(rt: HostRuntime) {
    let watched = watch(&rt, rt.alloc(), &["watch"], 4096, &mut EmptyBench).expect(&rt, "memory");
    assert_eq!(rt; watched.finish.status, 5);
    assert!(rt; watched.sink.held().is_empty());
    assert!(rt; watched.publisher.is_some());
    assert_eq!(rt; watched.told.last, light_before(true));
    drop(watched);
}

#[test]
fn other_words_open_no_board(rt: HostRuntime) {
    for words in &[
        &["run"][..],
        &["replay"],
        &["watch", "--tell"],
        &["watch", "--"],
        &[],
    ] {
        let watched = watch(&rt, rt.alloc(), words, 4096, &mut SimBench).expect(&rt, "memory");
        assert_eq!(rt; watched.finish.status, 2);
        assert!(rt; watched.sink.held().is_empty());
        assert!(rt; watched.publisher.is_none());
        assert_eq!(rt; watched.told.last, light_before(false));
        drop(watched);
    }
}

/// Watches the day of one lamp with these words, into a sink with so much room.
fn watch<R: Threads + Wait + Sync, B: Bench>(
    rt: &R,
    alloc: Global,
    words: &[&str],
    room: u64,
    bench: &mut B,
) -> Result<Watched<B::Dev>, NoMemory>
where
    B::Dev: Send,
{
    let (words, mut source, mut sink) = streams(alloc, words, LIGHT, room)?;
    let clock = SetClock::new(7);
    let mut told = Told {
        windows: 0,
        last: Counts::none(),
        fell: false,
    };
    let (finish, publisher) = watch_command_telling(
        rt,
        alloc,
        &words,
        &mut source,
        &mut sink,
        bench,
        &clock,
        &mut told,
    );
    drop(words);
    drop(source);
    Ok(Watched {
        finish,
        publisher,
        sink,
        told,
    })
}

/// Whether these are the bytes of the day of one lamp with its board's line, or as many as there is
/// room for.
fn is_light(held: &[u8], room: u64) -> bool {
    let due = LIGHT_RECORD.bytes().chain(LIGHT_BOARD.bytes());
    due.take(room as usize).eq(held.iter().copied())
}

/// The counts of the day of one lamp behind its window.
fn light(over: bool) -> Counts {
    Counts {
        windows: 1,
        runs: 1,
        committed: 1,
        aborted: 0,
        over,
    }
}

/// .. and before it.
fn light_before(over: bool) -> Counts {
    Counts {
        over,
        ..Counts::none()
    }
}
