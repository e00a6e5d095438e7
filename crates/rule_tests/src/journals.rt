//! A journal on a disk that fails, on bytes that were torn, at its greatest size, and in the file
//! of the system. The stored bytes and outcomes are those of `reference/journal.py`, which checks
//! them here.
ghost use Rattle.home_journal.specs.Journals.{IsStateOf};
ghost use Rattle.home_types.specs.Limits.{most_devices, most_windows};
ghost use Rattle.std.specs.Prelude.{◌≡◌, ◌≤◌, [], ◌∷◌, IfOk, length};

use home_journal::{FILE_NAME, Journal, OpenFault};
use home_types::{Bytes, Kind, List, NoMemory, Stand, World};
use slot_disks::{Disk, FileDisk, MemoryDisk};
use std::alloc::{AllocError, Global};
use std::fs;
use std::process::Abort;
use std::rt::Files;

/// A file that keeps one state of a home with a lamp, which is on.
const ONE_LAMP: [u8; 13] = [1, 1, 0, 0, 0, 1, 0, 1, 0, 0, 0, 1, 0];

/// A file that keeps two states of a home with a lamp and a heater from 10 to 30: off and 18, then
/// on and 25, where the heater is down.
const TWO_DEVICES: [u8; 35] = [
    1, 1, 0, 0, 0, 2, 0, 0, 0, 0, 0, 1, 18, 0, 0, 0, 1, 1, 2, 0, 0, 0, 2, 0, 1, 0, 0, 0, 1, 25, 0,
    0, 0, 0, 0,
];

/// How many states the second file keeps, or a letter for the place of the first slot that is not
/// good, with each of its bytes in turn set to 0, to 1, to 2 and to 255.
const TORN: [(u8, &str); 4] = [
    (0, "0a222a222222a22221b222b222222b22222"),
    (1, "22aaaaa2aaa2aaaa22bbbbbb2bbb2bbbb22"),
    (2, "0aaaa2aaaaaaaaaaa12bbb2bbbbbbbbbbb2"),
    (255, "0aaaaaaaaaaaaaaaa1bbbbbbbbbbbbbbbb2"),
];

/// The same of that file cut to each length from 0 on.
const CUT: &str = "000000000000000000111111111111111112";

/// As many bytes as a disk of the small tests has room for.
const ROOM: u64 = 100;

const LAMP: Kind = Kind::States(2);

const HEAT: Kind = Kind::Range(10, 30);

const ON: Stand = Stand { value: 1, up: true };

/// The kinds of a home with a lamp.
fn one_lamp(alloc: Global) -> Result<List<Kind>, NoMemory>
    ensures { IfOk result (λ kinds. kinds.items ≡ Kind.States 2 ∷ []) }
{
    List::of(alloc, &[LAMP])
}

/// That home, with the lamp on.
fn lamp_on(alloc: Global) -> Result<World, NoMemory>
    ensures { IfOk result (λ home. IsStateOf (Kind.States 2 ∷ []) home.devices.items) }
{
    let devices = List::of(alloc, &[ON])?;
    Ok(World { devices })
}

fn disk_of(alloc: Global, bytes: &[u8], fails_from: Option<u64>) -> Result<MemoryDisk, NoMemory> {
    MemoryDisk::new(alloc, Bytes::of(alloc, bytes)?, ROOM, fails_from)
}

/// A digit for how many states are kept on the disk, or a letter for the place of the first slot
/// that is not good.
fn outcome(alloc: Global, disk: MemoryDisk, kinds: &List<Kind>, most: u32) -> u8
    requires devices { length kinds.now.items ≤ most_devices }
    requires windows { most ≤ most_windows }
{
    match Journal::open(alloc, disk, kinds, most) {
        Ok(journal) => {
            let kept = journal.kept();
            drop(journal);
            if kept < 10 { b'0' + kept as u8 } else { b'?' }
        }
        Err((disk, fault)) => {
            drop(disk);
            match fault {
                OpenFault::Damaged(place) if place < 10 => b'a' + place as u8,
                _ => b'?',
            }
        }
    }
}

/// Opens a journal for one window of a home with a lamp, on an empty disk that fails from this call
/// on, and keeps a state. Answers the disk, and whether all went well.
fn kept_one(rt: &impl Abort, alloc: Global, fails_from: u64) -> (MemoryDisk, bool) {
    let kinds = one_lamp(alloc).expect(rt, "memory");
    let home = lamp_on(alloc).expect(rt, "memory");
    let disk = disk_of(alloc, &[], Some(fails_from)).expect(rt, "memory");
    let kept = keep_on(alloc, disk, &kinds, &home);
    drop(home);
    drop(kinds);
    kept
}

/// The same on this disk, of a home of these kinds that stands so.
fn keep_on(alloc: Global, disk: MemoryDisk, kinds: &List<Kind>, home: &World) -> (MemoryDisk, bool)
    requires kinds { kinds.now.items ≡ Kind.States 2 ∷ [] }
    requires home { IsStateOf (Kind.States 2 ∷ []) home.now.devices.items }
{
    match Journal::open(alloc, disk, kinds, 1) {
        Ok(journal) => {
            if journal.kept() > 0 {
                return (journal.into_disk(), false);
            }
            match journal.keep(home) {
                Ok(journal) => (journal.into_disk(), true),
                Err((disk, _)) => (disk, false),
            }
        }
        Err((disk, _)) => (disk, false),
    }
}

#[test]
fn each_call_of_the_disk_fails_in_turn(rt: HostRuntime) {
    let kinds = one_lamp(rt.alloc()).expect(&rt, "memory");
    for k in 1..10 {
        let (disk, well) = kept_one(&rt, rt.alloc(), k);
        assert_eq!(rt; well, k == 9);
        let left = outcome(rt.alloc(), disk.crashed(false), &kinds, 1);
        assert_eq!(rt; left, if k == 9 { b'1' } else { b'0' });
        let (disk, _) = kept_one(&rt, rt.alloc(), k);
        let left = outcome(rt.alloc(), disk.crashed(true), &kinds, 1);
        assert_eq!(rt; left, if k >= 7 { b'1' } else { b'0' });
    }
}

#[test]
fn a_torn_slot(rt: HostRuntime) {
    let kinds = List::of(rt.alloc(), &[LAMP, HEAT]).expect(&rt, "memory");
    for (byte, outcomes) in TORN {
        for at in 0..TWO_DEVICES.len() {
            let mut bytes = TWO_DEVICES;
            bytes[at] = byte;
            let disk = disk_of(rt.alloc(), &bytes, None).expect(&rt, "memory");
            let found = outcome(rt.alloc(), disk, &kinds, 2);
            assert!(rt;
                Some(&found) == outcomes.as_bytes().get(at),
                "byte {at} set to {byte}"
            );
        }
    }
}

#[test]
fn a_file_that_is_cut(rt: HostRuntime) {
    let kinds = List::of(rt.alloc(), &[LAMP, HEAT]).expect(&rt, "memory");
    for len in 0..TWO_DEVICES.len() + 1 {
        let disk = disk_of(rt.alloc(), &TWO_DEVICES[..len], None).expect(&rt, "memory");
        let found = outcome(rt.alloc(), disk, &kinds, 2);
        assert!(rt; Some(&found) == CUT.as_bytes().get(len), "{len} bytes");
    }
}

/// The last state of a journal that is opened by three calls of its disk; none where it needs more
/// or is damaged.
fn last_by_three_calls(
    alloc: Global,
    bytes: &[u8],
    kinds: &[Kind],
    most: u32,
) -> Result<Option<(u32, List<Stand>)>, NoMemory>
    requires devices { length kinds.now ≤ most_devices }
    requires windows { most ≤ most_windows }
{
    let kinds = List::of(alloc, kinds)?;
    let disk = disk_of(alloc, bytes, Some(4))?;
    match Journal::open(alloc, disk, &kinds, most) {
        Ok(journal) => {
            let kept = journal.kept();
            let last = match journal.last() {
                Some(home) => List::of(alloc, home.devices.as_slice()),
                None => Ok(List::new(alloc)),
            };
            drop(journal);
            Ok(Some((kept, last?)))
        }
        Err((disk, _)) => {
            drop(disk);
            Ok(None)
        }
    }
}

#[test]
fn slots_behind_the_last_window_do_not_count(rt: HostRuntime) {
    let found = last_by_three_calls(rt.alloc(), &TWO_DEVICES, &[LAMP, HEAT], 1);
    let (kept, last) = found.expect(&rt, "memory").expect(&rt, "opened");
    assert_eq!(rt; kept, 1);
    let stood = [
        Stand { value: 0, up: true },
        Stand {
            value: 18,
            up: true,
        },
    ];
    assert!(rt; last.as_slice() == stood.as_slice());
}

/// A file that keeps 288 states of a home with 256 devices, each at the number of the window.
fn greatest_file(alloc: Global) -> Result<Vec<u8>, AllocError> {
    let mut bytes = Vec::new(alloc);
    for number in 1..289u32 {
        bytes.push(1)?;
        bytes.extend_from_slice(&number.to_le_bytes())?;
        bytes.extend_from_slice(&[0, 1])?;
        for _ in 0..256 {
            bytes.extend_from_slice(&number.to_le_bytes())?;
            bytes.push(1)?;
        }
    }
    bytes.push(0)?;
    Ok(bytes)
}

#[test]
fn the_greatest_journal_is_read_by_one_call(rt: HostRuntime) {
    let bytes = greatest_file(rt.alloc()).expect(&rt, "memory");
    assert_eq!(rt; bytes.len(), 288 * 1287 + 1);
    let kinds = [Kind::States(289); 256];
    let found = last_by_three_calls(rt.alloc(), bytes.as_slice(), &kinds, 288);
    let (kept, last) = found.expect(&rt, "memory").expect(&rt, "opened");
    assert_eq!(rt; kept, 288);
    assert_eq!(rt; last.len(), 256);
    assert!(rt;
        last.as_slice()
            .iter()
            .all(|stand| stand.value == 288 && stand.up)
    );
}

/// Opens the journal of a home with a lamp in the file of the system, and keeps a state where none
/// is kept. Answers how many were, and whether the lamp was on in the last one.
fn kept_in_the_file<R: Files + Drop>(alloc: Global, files: R) -> Result<(u32, bool), OpenFault> {
    let (Ok(kinds), Ok(home)) = (one_lamp(alloc), lamp_on(alloc)) else {
        return Err(OpenFault::NoMemory);
    };
    match Journal::open(alloc, FileDisk::new(files, FILE_NAME), &kinds, 1) {
        Ok(journal) => {
            let kept = journal.kept();
            let is_on = match journal.last() {
                Some(last) => last.devices.as_slice() == [ON].as_slice(),
                None => false,
            };
            if kept == 0 {
                match journal.keep(&home) {
                    Ok(journal) => drop(journal),
                    Err((disk, _)) => {
                        drop(disk);
                        return Err(OpenFault::Failed);
                    }
                }
            } else {
                drop(journal);
            }
            Ok((kept, is_on))
        }
        Err((disk, fault)) => {
            drop(disk);
            Err(fault)
        }
    }
}

#[test]
fn the_file_of_the_system(rt: HostRuntime) {
    let _ = fs::remove_file(&rt, FILE_NAME);
    assert_eq!(rt; kept_in_the_file(rt.alloc(), rt), Ok((0, false)));
    let bytes = fs::read(&rt, FILE_NAME).expect(&rt, "the file");
    assert!(rt; bytes.as_slice() == ONE_LAMP.as_slice());
    assert_eq!(rt; kept_in_the_file(rt.alloc(), rt), Ok((1, true)));
    let mut disk = FileDisk::new(rt, FILE_NAME);
    let mut into = [0; 4];
    assert_eq!(rt; disk.len(), Ok(13));
    assert_eq!(rt; disk.read(10, &mut into), Ok(3));
    assert!(rt; into == [0, 1, 0, 0]);
    drop(disk);
    fs::remove_file(&rt, FILE_NAME).expect(&rt, "removed");
    // Where a folder has the name, the system refuses to write it as a file.
    fs::create_dir(&rt, FILE_NAME).expect(&rt, "a folder");
    assert_eq!(rt; kept_in_the_file(rt.alloc(), rt), Err(OpenFault::Failed));
    fs::remove_dir(&rt, FILE_NAME).expect(&rt, "removed");
}
