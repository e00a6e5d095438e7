//! The calls in the file of a log: how they are found, and how more of them are kept.
ghost use Rattle.std.specs.Prelude.{◌≡◌, ◌+◌, ◌<◌, ◌≢◌, ◌≤◌, ◌++◌, [], ◌∷◌, Err, IfErr, IfOk, Ok, OnErr, OnOk, length, map, true, vec_capacity};
ghost use Rattle.call_log.specs.CallLogs.{AddsCalls, IsOpenFile, LeavesCalls, LeavesNone, LeavesOldOrSame, LeavesSameOrNew, call_slots};
ghost use Rattle.call_log.specs.KeptCalls.{kept_calls};
ghost use Rattle.call_log.specs.declared.faults.LogFault.TheVariants.{Failed as DiskFailed, NoMemory as MemoryLacks};
ghost use Rattle.slot_disks.specs.Disks.{LeavesOnly};
ghost use Rattle.slot_disks.specs.SlotFiles.{IsOldOrSame, IsSettled};
ghost use Rattle.slot_disks.specs.Slots.{open_slots};
ghost use Rattle.logged_calls.specs.CallBytes.{call_size, calls_from};
ghost use Rattle.logged_calls.specs.Calls.{HasCivilTime, IsLoggable};

use crate::faults::LogFault;
use crate::heads::Head;
use crate::log_files::{prepare, write_slots};
use day_clock::Failed;
use home_types::{List, NoMemory};
use logged_calls::{Logged, same_bytes};
use slot_disks::{Disk, write_synced};
use std::alloc::Global;

/// How many bytes a slot has, with its gate.
const SLOT_SIZE: usize = 25;

/// Finds the calls that the file has, and begins a log where it has none. `group` has room for a
/// slot. Appends the bytes of the calls, and answers how many they are, or why the log is refused.
pub(crate) fn open_file<Q: Disk>(
    alloc: Global,
    disk: &mut Q,
    most: u32,
    head: Head,
    group: &mut Vec<u8>,
    calls: &mut List<u8>,
) -> Result<Result<u32, LogFault>, Failed>
    requires fresh { calls.old.items ≡ [] }
    requires empty { group.old.items ≡ [] }
    requires roomy { call_size + 2 ≤ vec_capacity group.old }
    ensures few { IfOk result (λ found. IfOk found (λ kept. kept ≤ most)) }
    ensures settled { Q.told ≡ true → IfOk result (λ found. IfOk found (λ kept.
        IsSettled call_size (most + 1) (kept + 1) (Q.seen disk.new) (Q.images disk.new))) }
    ensures found { Q.told ≡ true → IfOk result (λ found. IfOk found
        (λ _. kept_calls head most (Q.seen disk.old) ≡ Ok (calls_from calls.new.items))) }
    ensures same { Q.told ≡ true → IfOk result (λ found. IfOk found
        (λ _. kept_calls head most (Q.seen disk.new) ≡ kept_calls head most (Q.seen disk.old))) }
    ensures refused { Q.told ≡ true → IfOk result (λ found. IfErr found (λ fault. fault ≢ MemoryLacks
        → kept_calls head most (Q.seen disk.old) ≡ Err fault)) }
    ensures unwritten { Q.told ≡ true
        → IfOk result (λ found. IfErr found (λ _. Q.seen disk.new ≡ Q.seen disk.old)) }
    ensures not_failed { IfOk result (λ found. IfErr found (λ fault. fault ≢ DiskFailed)) }
    ensures any_moment { Q.told ≡ true → LeavesOnly Q.moment Q.images_since disk.old disk.new
        (LeavesOldOrSame (Q.images disk.old) head most (Q.seen disk.old)) }
    ensures group { group.new.items ≡ [] }
    ensures roomy { call_size + 2 ≤ vec_capacity group.new }
    ensures later { Q.faults disk.old ≤ Q.faults disk.new }
    ensures failed { OnErr result (Q.faults disk.old < Q.faults disk.new) }
{
    same_bytes();
    match prepare(alloc, disk, most, head, calls)? {
        Ok(count) => {
            if count > 0 {
                return Ok(Ok((count - 1) as u32));
            }
            write_head(disk, most, head, group)?;
            Ok(Ok(0))
        }
        Err(fault) => Ok(Err(fault)),
    }
}

// Begins a log in a file in which no slot is open. Takes no memory.
fn write_head<Q: Disk>(
    disk: &mut Q,
    most: u32,
    head: Head,
    group: &mut Vec<u8>,
) -> Result<(), Failed>
    requires empty { group.old.items ≡ [] }
    requires roomy { call_size + 2 ≤ vec_capacity group.old }
    requires settled { Q.told ≡ true
        → IsSettled call_size (most + 1) 0 (Q.seen disk.old) (Q.images disk.old) }
    ensures settled { Q.told ≡ true → OnOk result
        (IsSettled call_size (most + 1) 1 (Q.seen disk.new) (Q.images disk.new)) }
    ensures none { Q.told ≡ true → OnOk result (kept_calls head most (Q.seen disk.new) ≡ Ok []) }
    ensures any_moment { Q.told ≡ true → LeavesOnly Q.moment Q.images_since disk.old disk.new
        (LeavesNone head most) }
    ensures group { group.new.items ≡ [] }
    ensures roomy { vec_capacity group.old ≤ vec_capacity group.new }
    ensures later { Q.faults disk.old ≤ Q.faults disk.new }
    ensures failed { OnErr result (Q.faults disk.old < Q.faults disk.new) }
{
    group.push_reserved(1);
    put(group, &head.bytes());
    group.push_reserved(0);
    let written = write_slots(disk, most, 0, group.as_slice());
    group.clear();
    written
}

// Puts bytes at the end, for which there is room.
fn put(bytes: &mut Vec<u8>, more: &[u8])
    requires { length bytes.old.items + length more.now ≤ vec_capacity bytes.old }
    ensures items { bytes.new.items ≡ bytes.old.items ++ more.now }
    ensures room { vec_capacity bytes.old ≤ vec_capacity bytes.new }
{
    let done = bytes.extend_from_slice(more);
    done.unwrap();
}

/// Puts a call among those that are to be written, and its slot behind theirs.
pub(crate) fn add_call(
    pending: &mut Vec<Logged>,
    group: &mut Vec<u8>,
    call: Logged,
) -> Result<(), NoMemory>
    requires time { HasCivilTime call }
    requires slots { group.old.items ≡ call_slots pending.old.items }
    requires roomy { length group.old.items < vec_capacity group.old }
    ensures ok { OnOk result (pending.new.items ≡ pending.old.items ++ call ∷ []) }
    ensures err { OnErr result (pending.new.items ≡ pending.old.items) }
    ensures slots { group.new.items ≡ call_slots pending.new.items }
    ensures roomy { length group.new.items < vec_capacity group.new }
    ensures loggable { IsLoggable call }
    ensures room { vec_capacity group.old ≤ vec_capacity group.new }
{
    call.kept_invariant();
    if pending.reserve(1).is_err() || group.reserve(SLOT_SIZE + 1).is_err() {
        return Err(NoMemory);
    }
    group.push_reserved(1);
    put(group, &call.bytes());
    pending.push_reserved(call);
    Ok(())
}

/// Writes the calls that are pending, and syncs: all of them are kept then. Where there are none
/// nothing is done. Takes no memory.
pub(crate) fn write_calls<Q: Disk>(
    disk: &mut Q,
    most: u32,
    head: Head,
    kept: u32,
    pending: &[Logged],
    group: &mut Vec<u8>,
) -> Result<(), Failed>
    requires open { IsOpenFile head most kept pending.now group.old.items (vec_capacity group.old)
        Q.told (Q.seen disk.old) (Q.images disk.old) }
    ensures settled { Q.told ≡ true → OnOk result (IsSettled call_size (most + 1)
        (kept + length pending.now + 1) (Q.seen disk.new) (Q.images disk.new)) }
    ensures kept { Q.told ≡ true → OnOk result (AddsCalls (kept_calls head most (Q.seen disk.old))
        (kept_calls head most (Q.seen disk.new)) pending.now) }
    ensures any_moment { Q.told ≡ true → LeavesCalls Q.seen Q.moment Q.images_since head most
        disk.old disk.new pending.now }
    ensures group { OnOk result (group.new.items ≡ []) }
    ensures roomy { vec_capacity group.old ≤ vec_capacity group.new }
    ensures later { Q.faults disk.old ≤ Q.faults disk.new }
    ensures failed { OnErr result (Q.faults disk.old < Q.faults disk.new) }
{
    if pending.is_empty() {
        group.clear();
        return Ok(());
    }
    same_bytes();
    group.push_reserved(0);
    write_slots(disk, most, u64::from(kept) + 1, group.as_slice())?;
    group.clear();
    Ok(())
}

// Shuts the first gate: no slot is open then, and a crash leaves the file as it was or with no open
// slot.
fn shut_first<Q: Disk>(disk: &mut Q, most: u32, kept: u32) -> Result<(), Failed>
    requires settled { Q.told ≡ true
        → IsSettled call_size (most + 1) (kept + 1) (Q.seen disk.old) (Q.images disk.old) }
    ensures settled { Q.told ≡ true → OnOk result
        (IsSettled call_size (most + 1) 0 (Q.seen disk.new) (Q.images disk.new)) }
    ensures any_moment { Q.told ≡ true → LeavesOnly Q.moment Q.images_since disk.old disk.new
        (IsOldOrSame (λ c. c ≡ Q.seen disk.old) call_size (most + 1) []) }
    ensures later { Q.faults disk.old ≤ Q.faults disk.new }
    ensures failed { OnErr result (Q.faults disk.old < Q.faults disk.new) }
{
    write_synced(disk, 0, &[0])
}

/// Begins the log anew with this head. Takes no memory.
pub(crate) fn restart<Q: Disk>(
    disk: &mut Q,
    most: u32,
    kept: u32,
    head: Head,
    group: &mut Vec<u8>,
) -> Result<(), Failed>
    requires empty { group.old.items ≡ [] }
    requires roomy { call_size + 2 ≤ vec_capacity group.old }
    requires settled { Q.told ≡ true
        → IsSettled call_size (most + 1) (kept + 1) (Q.seen disk.old) (Q.images disk.old) }
    ensures settled { Q.told ≡ true → OnOk result
        (IsSettled call_size (most + 1) 1 (Q.seen disk.new) (Q.images disk.new)) }
    ensures none { Q.told ≡ true → OnOk result (kept_calls head most (Q.seen disk.new) ≡ Ok []) }
    ensures any_moment { Q.told ≡ true → LeavesSameOrNew Q.seen Q.moment Q.images_since head most
        disk.old disk.new }
    ensures group { group.new.items ≡ [] }
    ensures roomy { vec_capacity group.old ≤ vec_capacity group.new }
    ensures later { Q.faults disk.old ≤ Q.faults disk.new }
    ensures failed { OnErr result (Q.faults disk.old < Q.faults disk.new) }
{
    shut_first(disk, most, kept)?;
    write_head(disk, most, head, group)
}
