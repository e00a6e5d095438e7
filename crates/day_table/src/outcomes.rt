//! The call of a case, and what came of it, as lines of the output.
use crate::cases::{Before, Behaviour, Case, copy_of};
use day_clock::{BytesSink, BytesSource, Source};
use device_states::{Device, SimBench};
use home_types::{Bytes, List, NoMemory};
use hub_commands::{Finish, keep_command, still_command};
use slot_disks::{Disk, MemoryDisk};
use std::alloc::{AllocError, Global};
use std::fmt::Write as _;
use std::io::{self, Write};

/// Makes the call of a case, and writes its end: the status, the fault's text, how many windows and
/// devices came back, of a day that was to be kept what a crash leaves of the disk, how many bytes
/// of the input were left, and what the sink holds. Disk and sink are kept for the next case.
pub fn write_outcome<W: Write>(
    alloc: Global,
    case: &Case,
    before: &mut Before,
    out: &mut W,
) -> io::Result<()> {
    let Ok((mut source, mut sink)) = ends_of(alloc, case) else {
        return Err(io::Error::from(io::ErrorKind::OutOfMemory));
    };
    let told = write_call(alloc, case, before, out, &mut source, &mut sink);
    drop(source);
    drop(sink);
    told
}

fn write_call<W: Write>(
    alloc: Global,
    case: &Case,
    before: &mut Before,
    out: &mut W,
    source: &mut BytesSource,
    sink: &mut BytesSink,
) -> io::Result<()> {
    let text = end_text(alloc, case, before, source, sink)?;
    before.record = copy_of(alloc, sink.held())?;
    let left = left_of(source);
    let held = sink.held();
    let told = write_all_of(out, text.as_str(), held, left);
    told
}

fn write_all_of<W: Write>(out: &mut W, text: &str, held: &[u8], left: u64) -> io::Result<()> {
    out.write_all(text.as_bytes())?;
    write!(out, "left {left}\nrecord {}\n", held.len())?;
    out.write_all(held)?;
    out.write_all(b"\n")
}

fn end_text(
    alloc: Global,
    case: &Case,
    before: &mut Before,
    source: &mut BytesSource,
    sink: &mut BytesSink,
) -> Result<String, AllocError> {
    let mut text = format!(in alloc; "case {}\n", case.name)?;
    let told = if case.asks_for("keep") {
        push_kept(alloc, case, before, source, sink, &mut text)
    } else {
        push_call(alloc, case, source, sink, &mut text)
    };
    told?;
    Ok(text)
}

/// Makes a call that is to keep a day. Behind it the disk crashes.
fn push_kept(
    alloc: Global,
    case: &Case,
    before: &mut Before,
    source: &mut BytesSource,
    sink: &mut BytesSink,
    text: &mut String,
) -> Result<(), AllocError> {
    let Ok(disk) = disk_of(alloc, case) else {
        return Err(AllocError);
    };
    let (finish, disk) = keep_command(
        alloc,
        case.words.as_slice(),
        source,
        sink,
        &mut SimBench,
        disk,
    );
    let told = push_end(text, &finish);
    drop(finish);
    before.file = left_on(alloc, disk.crashed(!case.loses))?;
    told?;
    push_file(text, before.file.as_slice())
}

/// The disk of a case.
fn disk_of(alloc: Global, case: &Case) -> Result<MemoryDisk, NoMemory> {
    let bytes = Bytes::of(alloc, case.file.as_slice())?;
    let from = if case.disk.from == 0 {
        None
    } else {
        Some(case.disk.from)
    };
    MemoryDisk::new(alloc, bytes, case.disk.room, from)
}

/// What stands on a disk.
fn left_on(alloc: Global, mut disk: MemoryDisk) -> Result<Vec<u8>, AllocError> {
    let file = whole_file(alloc, &mut disk);
    drop(disk);
    file
}

/// What a disk gives, up to the first call that fails.
fn whole_file(alloc: Global, disk: &mut MemoryDisk) -> Result<Vec<u8>, AllocError> {
    let mut piece = [0u8; 4096];
    let mut file = Vec::new(alloc);
    for _ in 0..u64::MAX {
        match disk.read(file.len() as u64, &mut piece) {
            Ok(0) | Err(_) => break,
            Ok(count) => file.extend_from_slice(&piece[..count])?,
        }
    }
    Ok(file)
}

fn push_file(text: &mut String, file: &[u8]) -> Result<(), AllocError> {
    text.push_str("disk")?;
    for byte in file {
        write!(text, " {byte}")?;
    }
    text.push_str("\n")
}

fn push_call(
    alloc: Global,
    case: &Case,
    source: &mut BytesSource,
    sink: &mut BytesSink,
    text: &mut String,
) -> Result<(), AllocError> {
    let finish = still_command(alloc, case.words.as_slice(), source, sink, &mut SimBench);
    let told = push_end(text, &finish);
    drop(finish);
    told
}

/// The source and the sink of a case.
fn ends_of(alloc: Global, case: &Case) -> Result<(BytesSource, BytesSink), NoMemory> {
    let input = Bytes::of(alloc, case.input.as_slice())?;
    let source = BytesSource::new(input, failing(alloc, case.source)?, case.source.most.max(1));
    let sink = BytesSink::new(
        alloc,
        case.room,
        failing(alloc, case.sink)?,
        case.sink.most.max(1),
    )?;
    Ok((source, sink))
}

fn failing(alloc: Global, behaviour: Behaviour) -> Result<List<u64>, NoMemory> {
    List::of(alloc, &[behaviour.fails])
}

/// How many bytes the source still has. A call that fails takes none.
fn left_of(source: &mut BytesSource) -> u64 {
    let mut piece = [0u8; 4096];
    let mut left = 0u64;
    for _ in 0..u64::MAX {
        match source.read(&mut piece) {
            Ok(0) => break,
            Ok(count) => left = left.saturating_add(count as u64),
            Err(_) => {}
        }
    }
    left
}

fn push_end<Dev: Device>(text: &mut String, finish: &Finish<Dev>) -> Result<(), AllocError> {
    writeln!(text, "status {}", finish.status)?;
    if let Some(fault) = &finish.fault {
        writeln!(text, "fault {fault}")?;
    }
    let Some(day) = &finish.day else {
        return writeln!(text, "no day");
    };
    let windows = day.windows.len();
    match &day.devices {
        Some(devices) => writeln!(text, "day windows {windows} devices {}", devices.len()),
        None => writeln!(text, "day windows {windows} no devices"),
    }
}
