//! The file of a log: how it is read and made ready, and how a group of slots is written.
ghost use Rattle.std.specs.Prelude.{◌≡◌, ◌+◌, ◌*◌, ◌<◌, ◌≢◌, ◌≤◌, ◌++◌, [], ◌∷◌, Err, IfErr, IfOk, OnErr, OnOk, drop, length, take, true};
ghost use Rattle.call_log.specs.KeptCalls.{kept_calls};
ghost use Rattle.call_log.specs.LogFiles.{IsRead};
ghost use Rattle.call_log.specs.declared.faults.LogFault.TheVariants.{Failed as DiskFailed, NoMemory as MemoryLacks};
ghost use Rattle.slot_disks.specs.Disks.{LeavesOnly, LeavesThis};
ghost use Rattle.slot_disks.specs.SlotFiles.{AddsGroup, IsOldOrSame, IsSettled, LeavesGroup, ReadsBytes, SettlesGroup};
ghost use Rattle.slot_disks.specs.Slots.{open_slots};
ghost use Rattle.logged_calls.specs.CallBytes.{call_size};

use crate::faults::LogFault;
use crate::heads::Head;
use crate::scans::scan;
use day_clock::Failed;
use home_types::{List, NoMemory};
use logged_calls::CALL_SIZE;
use slot_disks::{Disk, Layout, front_of, length_of, shut_gate, sync_first, write_group};
use std::alloc::Global;

// The slots of a log with room for so many calls: one more, for the head.
fn layout_of(most: u32) -> Layout
    ensures { result ≡ (record { size = call_size; most = most + 1 }) }
{
    Layout {
        size: CALL_SIZE as u32,
        most: u64::from(most) + 1,
    }
}

/// Syncs, reads the open slots, and shuts the gate after them. Appends the bytes of the calls, and
/// answers how many slots are open, or why the log is refused.
pub(crate) fn prepare<Q: Disk>(
    alloc: Global,
    disk: &mut Q,
    most: u32,
    head: Head,
    calls: &mut List<u8>,
) -> Result<Result<u64, LogFault>, Failed>
    requires fresh { calls.old.items ≡ [] }
    ensures settled { Q.told ≡ true → IfOk result (λ found. IfOk found
        (λ count. IsSettled call_size (most + 1) count (Q.seen disk.new) (Q.images disk.new))) }
    ensures few { IfOk result (λ found. IfOk found (λ count. count ≤ most + 1)) }
    ensures read { Q.told ≡ true → IfOk result (λ found. IfOk found (λ _. IsRead head
        (open_slots call_size (most + 1) (Q.seen disk.old)) calls.new.items)) }
    ensures same { Q.told ≡ true → IfOk result (λ found. IfOk found
        (λ _. open_slots call_size (most + 1) (Q.seen disk.new)
        ≡ open_slots call_size (most + 1) (Q.seen disk.old))) }
    ensures refused { Q.told ≡ true → IfOk result (λ found. IfErr found (λ fault. fault ≢ MemoryLacks
        → kept_calls head most (Q.seen disk.old) ≡ Err fault)) }
    ensures unwritten { Q.told ≡ true
        → IfOk result (λ found. IfErr found (λ _. Q.seen disk.new ≡ Q.seen disk.old)) }
    ensures not_failed { IfOk result (λ found. IfErr found (λ fault. fault ≢ DiskFailed)) }
    ensures any_moment { Q.told ≡ true → LeavesOnly Q.moment Q.images_since disk.old disk.new
        (IsOldOrSame (Q.images disk.old) call_size (most + 1)
        (open_slots call_size (most + 1) (Q.seen disk.old))) }
    ensures later { Q.faults disk.old ≤ Q.faults disk.new }
    ensures failed { OnErr result (Q.faults disk.old < Q.faults disk.new) }
{
    let Ok(block) = load(alloc, disk, most)? else {
        return Ok(Err(LogFault::NoMemory));
    };
    let scanned = scan(block.as_slice(), most, head, calls);
    drop(block);
    match scanned {
        Ok(found) => {
            shut_gate(disk, layout_of(most), found)?;
            Ok(Ok(found.count))
        }
        Err(fault) => Ok(Err(fault)),
    }
}

// Syncs, and then reads the front of the file.
fn load<Q: Disk>(
    alloc: Global,
    disk: &mut Q,
    most: u32,
) -> Result<Result<Vec<u8>, NoMemory>, Failed>
    ensures bytes { Q.told ≡ true → IfOk result (λ loaded. IfOk loaded
        (λ block. block.items ≡ take ((most + 1) * (call_size + 1) + 1) (Q.seen disk.old))) }
    ensures reads { Q.told ≡ true
        → ReadsBytes Q.seen Q.images Q.moment Q.images_since disk.old disk.new }
    ensures durable { Q.told ≡ true
        → OnOk result (LeavesThis (Q.seen disk.new) (Q.images disk.new)) }
    ensures later { Q.faults disk.old ≤ Q.faults disk.new }
    ensures failed { OnErr result (Q.faults disk.old < Q.faults disk.new) }
{
    sync_first(disk)?;
    let size = length_of(disk)?;
    let all = layout_of(most).bytes();
    let Ok(mut block) = vec![in alloc; 0u8; size.min(all) as usize] else {
        return Ok(Err(NoMemory));
    };
    match front_of(disk, block.as_mut_slice()) {
        Ok(count) => {
            block.truncate(count);
            Ok(Ok(block))
        }
        Err(failed) => {
            drop(block);
            Err(failed)
        }
    }
}

/// Writes a group of slots after those that are open; a shut gate is at its end. Takes no memory.
pub(crate) fn write_slots<Q: Disk>(
    disk: &mut Q,
    most: u32,
    count: u64,
    group: &[u8],
) -> Result<(), Failed>
    requires settled { Q.told ≡ true
        → IsSettled call_size (most + 1) count (Q.seen disk.old) (Q.images disk.old) }
    requires some { 0 < length group.now }
    requires next { count ≤ most }
    requires room { count * (call_size + 1) + length group.now
        ≤ (most + 1) * (call_size + 1) + 1 }
    ensures added { Q.told ≡ true → OnOk result
        (AddsGroup call_size (most + 1) (drop 1 group.now) (Q.seen disk.old) (Q.seen disk.new)) }
    ensures settled { Q.told ≡ true → OnOk result (SettlesGroup call_size (most + 1) count
        (drop 1 group.now) (Q.seen disk.new) (Q.images disk.new)) }
    ensures any_moment { Q.told ≡ true → LeavesGroup Q.moment Q.images_since call_size (most + 1)
        (drop 1 group.now) (open_slots call_size (most + 1) (Q.seen disk.old)) disk.old disk.new }
    ensures later { Q.faults disk.old ≤ Q.faults disk.new }
    ensures failed { OnErr result (Q.faults disk.old < Q.faults disk.new) }
{
    write_group(disk, layout_of(most), count, &group[1..])
}
