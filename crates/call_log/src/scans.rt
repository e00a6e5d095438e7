//! What the file of a log holds.
ghost use Rattle.std.specs.Prelude.{◌≡◌, ◌+◌, ◌≢◌, ◌≤◌, [], Err, IfErr, IfOk, OnOk, length, take};
ghost use Rattle.call_log.specs.KeptCalls.{kept_calls};
ghost use Rattle.call_log.specs.LogFiles.{IsRead, ReadsOn, RefusesAt};
ghost use Rattle.call_log.specs.declared.faults.LogFault.TheVariants.{Failed, NoMemory};
ghost use Rattle.logged_calls.specs.CallBytes.{call_size};
ghost use Rattle.slot_disks.specs.SlotFiles.{IsFound};
ghost use Rattle.slot_disks.specs.Slots.{open_slots};

use crate::faults::LogFault;
use crate::heads::Head;
use home_types::List;
use logged_calls::{CALL_SIZE, read_call, write_call};
use slot_disks::Found;

/// Reads the slots that are open, one after another: the head, and then the calls, whose bytes are
/// appended to `calls`.
pub(crate) fn scan(
    bytes: &[u8],
    most: u32,
    head: Head,
    calls: &mut List<u8>,
) -> Result<Found, LogFault>
    requires fresh { calls.old.items ≡ [] }
    ensures found { IfOk result (λ found. IsFound call_size (most + 1) bytes.now found) }
    ensures read { OnOk result
        (IsRead head (open_slots call_size (most + 1) bytes.now) calls.new.items) }
    ensures refused { IfErr result
        (λ fault. fault ≢ NoMemory → kept_calls head most bytes.now ≡ Err fault) }
    ensures not_failed { IfErr result (λ fault. fault ≢ Failed) }
{
    let slots = u64::from(most) + 1;
    let mut rest = bytes;
    'slots: for place in 0..slots {
        let [gate, after @ ..] = rest else {
            return Ok(Found {
                count: place,
                is_shut: false,
            });
        };
        if *gate != 1 {
            return Ok(Found {
                count: place,
                is_shut: true,
            });
        }
        if after.len() <= CALL_SIZE {
            return Ok(Found {
                count: place,
                is_shut: false,
            });
        }
        match read_slot(after, place, head, calls) {
            Ok(()) => rest = &after[CALL_SIZE..],
            Err(fault) => return Err(fault),
        }
    }
    Ok(Found {
        count: slots,
        is_shut: false,
    })
}

// Reads what stands after the gate of the slot at this place: the first has the head, each other one
// a call.
fn read_slot(after: &[u8], place: u64, head: Head, calls: &mut List<u8>) -> Result<(), LogFault>
    requires whole { call_size ≤ length after.now }
    requires place { place ≤ 4294967295 }
    ensures read { OnOk result
        (ReadsOn head place (take call_size after.now) calls.old.items calls.new.items) }
    ensures refused { IfErr result (λ fault. fault ≢ NoMemory
        → RefusesAt head place (take call_size after.now) calls.old.items fault) }
    ensures not_failed { IfErr result (λ fault. fault ≢ Failed) }
{
    let body = &after[..CALL_SIZE];
    if place == 0 {
        return match head.fault_in(body) {
            Some(fault) => Err(fault),
            None => Ok(()),
        };
    }
    match read_call(body, 0) {
        Some(call) => match write_call(calls, call) {
            Ok(()) => Ok(()),
            Err(_) => Err(LogFault::NoMemory),
        },
        None => Err(LogFault::Damaged((place - 1) as u32)),
    }
}
