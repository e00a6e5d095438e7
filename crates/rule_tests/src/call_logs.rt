//! A log of calls on a disk that fails, that is full, and on bytes that were torn. The stored bytes
//! and outcomes are those of an independent reader of the page docs/CALL-LOG.md.
ghost use Rattle.logged_calls.specs.Calls.{HasCivilTime};

use call_log::{AppendFault, CallLog, Head, LogFault};
use home_types::{Bytes, List, NoMemory, RunNo};
use logged_calls::{Logged, good_bytes};
use slot_disks::{Disk, MemoryDisk};
use std::alloc::Global;
use std::process::Abort;

const HEAD: Head = Head {
    version: 1,
    mode: 2,
    script: 0x0807060504030201,
};

const FIRST: Logged = Logged::Took(RunNo(1), 1500);

const SECOND: Logged = Logged::Took(RunNo(2), 1750);

/// The file of a log with that head and both calls.
const TWO_CALLS: [u8; 76] = [
    1, 255, 0, 2, 0, 1, 0, 0, 0, 1, 2, 3, 4, 5, 6, 7, 8, 220, 43, 120, 208, 15, 17, 20, 0, 1, 4, 0,
    0, 0, 1, 0, 0, 0, 0, 0, 0, 0, 0, 0, 0, 0, 220, 5, 0, 0, 0, 0, 0, 0, 1, 4, 0, 0, 0, 2, 0, 0, 0,
    0, 0, 0, 0, 0, 0, 0, 0, 214, 6, 0, 0, 0, 0, 0, 0, 0,
];

/// How many calls that file has, `n` where it is no log, or a letter for the place of the first call
/// that is damaged, with each of its bytes in turn set to 0, to 1, to 2 and to 255.
const TORN: [(u8, &str); 4] = [
    (
        0,
        "0n2n2n222nnnnnnnnnnnnnnn20a222222222222222222222221b222222222222222222222222",
    ),
    (
        1,
        "2nnnn2nnn2nnnnnnnnnnnnnnn2aaaa2222aaaaaaaa222222222bbbb2222bbbbbbbb222222222",
    ),
    (
        2,
        "0nn2nnnnnn2nnnnnnnnnnnnnn0aaaa2222aaaaaaaa222222221bbbb2222bbbbbbbb222222222",
    ),
    (
        255,
        "02nnnnnnnnnnnnnnnnnnnnnnn0aaaa2222aaaaaaaa222222221bbbb2222bbbbbbbb222222222",
    ),
];

/// The same of that file cut to each length from 0 on.
const CUT: &str = "00000000000000000000000000000000000000000000000000011111111111111111111111112";

/// A log that holds back the numbers of runs.
type Log = CallLog<MemoryDisk, u32, u32>;

fn disk_of(
    alloc: Global,
    bytes: &[u8],
    room: u64,
    fails_from: Option<u64>,
) -> Result<MemoryDisk, NoMemory> {
    MemoryDisk::new(alloc, Bytes::of(alloc, bytes)?, room, fails_from)
}

/// A digit for how many calls are found on the disk, or a letter for why it is refused.
fn outcome(alloc: Global, disk: MemoryDisk, head: Head) -> u8 {
    let opened: Result<(Log, List<u8>), (MemoryDisk, LogFault)> = CallLog::open(
        alloc, disk, head, 2,
    );
    match opened {
        Ok((log, calls)) => {
            let count = good_bytes(calls.as_slice()) / 24;
            drop(log);
            drop(calls);
            if count < 10 { b'0' + count as u8 } else { b'?' }
        }
        Err((disk, fault)) => {
            drop(disk);
            letter(fault)
        }
    }
}

fn letter(fault: LogFault) -> u8 {
    match fault {
        LogFault::NoMemory => b'M',
        LogFault::Failed => b'F',
        LogFault::NotALog => b'n',
        LogFault::OtherVersion => b'v',
        LogFault::OtherMode => b'm',
        LogFault::OtherScript => b's',
        LogFault::Damaged(place) if place < 10 => b'a' + place as u8,
        LogFault::Damaged(_) => b'?',
    }
}

/// Opens a log on this disk, appends both calls with a report each, and syncs after each. Answers
/// the disk, and how many reports were let out.
fn both_calls(alloc: Global, disk: MemoryDisk) -> (MemoryDisk, u64) {
    let opened: Result<(Log, List<u8>), (MemoryDisk, LogFault)> = CallLog::open(
        alloc, disk, HEAD, 2,
    );
    match opened {
        Ok((log, calls)) => {
            drop(calls);
            match one_call(alloc, log, FIRST, 1) {
                Ok((log, first)) => match one_call(alloc, log, SECOND, 2) {
                    Ok((log, second)) => (log.into_disk(), first.saturating_add(second)),
                    Err(disk) => (disk, first),
                },
                Err(disk) => (disk, 0),
            }
        }
        Err((disk, _)) => (disk, 0),
    }
}

/// Appends the call with a report, and syncs. Answers how many reports were let out.
fn one_call(alloc: Global, log: Log, call: Logged, report: u32) -> Result<(Log, u64), MemoryDisk>
    requires { HasCivilTime call }
{
    let mut log = log;
    if log.append(call).is_err() || log.hold_report(report).is_err() {
        return Err(log.into_disk());
    }
    match log.sync() {
        Ok(synced) => {
            let (log, out) = synced.let_out(alloc);
            let count = out.reports.len();
            drop(out);
            Ok((log, count))
        }
        Err((disk, _)) => Err(disk),
    }
}

#[test]
fn each_call_of_the_disk_fails_in_turn(rt: HostRuntime) {
    // opening makes 9 calls of an empty disk, and each sync of the log 4
    for k in 1..20 {
        let disk = disk_of(rt.alloc(), &[], 100, Some(k)).expect(&rt, "memory");
        let (disk, out) = both_calls(rt.alloc(), disk);
        let (let_out, least) = if k > 17 {
            (2, b'2')
        } else if k > 13 {
            (1, b'1')
        } else {
            (0, b'0')
        };
        assert_eq!(rt; out, let_out, "call {k}");
        let left = outcome(rt.alloc(), disk.crashed(false), HEAD);
        assert_eq!(rt; left, least, "call {k}");
        let disk = disk_of(rt.alloc(), &[], 100, Some(k)).expect(&rt, "memory");
        let (disk, _) = both_calls(rt.alloc(), disk);
        let left = outcome(rt.alloc(), disk.crashed(true), HEAD);
        let most = if k > 15 {
            b'2'
        } else if k > 11 {
            b'1'
        } else {
            b'0'
        };
        assert_eq!(rt; left, most, "call {k}");
    }
}

#[test]
fn a_full_disk_lets_nothing_out(rt: HostRuntime) {
    // there is room for the head and one call, with the gate after them
    for (room, let_out, kept) in [(50, 0, b'0'), (51, 1, b'1'), (75, 1, b'1'), (76, 2, b'2')] {
        let disk = disk_of(rt.alloc(), &[], room, None).expect(&rt, "memory");
        let (disk, out) = both_calls(rt.alloc(), disk);
        assert_eq!(rt; out, let_out, "room for {room}");
        let left = outcome(rt.alloc(), disk.crashed(false), HEAD);
        assert_eq!(rt; left, kept, "room for {room}");
    }
}

#[test]
fn the_file_of_two_calls(rt: HostRuntime) {
    let disk = disk_of(rt.alloc(), &[], 100, None).expect(&rt, "memory");
    let (disk, _) = both_calls(rt.alloc(), disk);
    let mut disk = disk;
    let mut bytes = [0u8; 100];
    let count = disk.read(0, &mut bytes);
    assert!(rt; count == Ok(76));
    assert!(rt; bytes[..76] == TWO_CALLS[..]);
    drop(disk);
}

#[test]
fn a_torn_file(rt: HostRuntime) {
    for (byte, outcomes) in TORN {
        for at in 0..TWO_CALLS.len() {
            let mut bytes = TWO_CALLS;
            bytes[at] = byte;
            let disk = disk_of(rt.alloc(), &bytes, 100, None).expect(&rt, "memory");
            let found = outcome(rt.alloc(), disk, HEAD);
            assert!(rt;
                Some(&found) == outcomes.as_bytes().get(at),
                "byte {at} set to {byte}"
            );
        }
    }
}

#[test]
fn a_file_that_is_cut(rt: HostRuntime) {
    for len in 0..TWO_CALLS.len() + 1 {
        let disk = disk_of(rt.alloc(), &TWO_CALLS[..len], 100, None).expect(&rt, "memory");
        let found = outcome(rt.alloc(), disk, HEAD);
        assert!(rt; Some(&found) == CUT.as_bytes().get(len), "{len} bytes");
    }
}

#[test]
fn a_log_of_another_head(rt: HostRuntime) {
    let heads = [
        (Head { version: 2, ..HEAD }, b'v'),
        (Head { mode: 3, ..HEAD }, b'm'),
        (Head { script: 1, ..HEAD }, b's'),
        (HEAD, b'2'),
    ];
    for (head, fault) in heads {
        let disk = disk_of(rt.alloc(), &TWO_CALLS, 100, None).expect(&rt, "memory");
        assert_eq!(rt; outcome(rt.alloc(), disk, head), fault);
    }
}

#[test]
fn a_log_that_is_full(rt: HostRuntime) {
    let disk = disk_of(rt.alloc(), &TWO_CALLS, 100, None).expect(&rt, "memory");
    let opened: Result<(Log, List<u8>), (MemoryDisk, LogFault)> = CallLog::open(
        rt.alloc(),
        disk,
        HEAD,
        2,
    );
    match opened {
        Ok((mut log, calls)) => {
            drop(calls);
            assert!(rt; log.append(FIRST) == Err(AppendFault::Full));
            drop(log);
        }
        Err((disk, _)) => {
            drop(disk);
            panic!(rt; "not opened");
        }
    }
}

/// Begins the log of that file anew for another script, on a disk that fails from this call on.
fn begun_anew(alloc: Global, fails_from: Option<u64>) -> Result<MemoryDisk, NoMemory> {
    let disk = disk_of(alloc, &TWO_CALLS, 100, fails_from)?;
    let opened: Result<(Log, List<u8>), (MemoryDisk, LogFault)> = CallLog::open(
        alloc, disk, HEAD, 2,
    );
    match opened {
        Ok((log, calls)) => {
            drop(calls);
            Ok(match log.begin_anew(Head { script: 9, ..HEAD }) {
                Ok(log) => log.into_disk(),
                Err((disk, _)) => disk,
            })
        }
        Err((disk, _)) => Ok(disk),
    }
}

#[test]
fn a_log_begun_anew(rt: HostRuntime) {
    let new = Head { script: 9, ..HEAD };
    // opening makes 3 calls of this disk, and beginning anew 6
    for k in 1..11 {
        let disk = begun_anew(rt.alloc(), Some(k)).expect(&rt, "memory");
        let old = outcome(rt.alloc(), disk.crashed(false), HEAD);
        let disk = begun_anew(rt.alloc(), Some(k)).expect(&rt, "memory");
        let begun = outcome(rt.alloc(), disk.crashed(false), new);
        // until the first gate is shut the log is the old one, and then the new one
        let (of_old, of_new) = if k > 9 {
            (b's', b'0')
        } else if k > 5 {
            (b'0', b'0')
        } else {
            (b'2', b's')
        };
        assert_eq!(rt; old, of_old, "call {k}");
        assert_eq!(rt; begun, of_new, "call {k}");
    }
}
