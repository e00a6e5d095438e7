//! The bytes of a call that changed a home, for a log.
ghost use Rattle.std.specs.Prelude.{◌≡◌, ◌≢◌, ◌↔◌, ◌<◌, ◌++◌, ◌≤◌, ◌^◌, IfNone, IfSome, drop, length, pos};
ghost use Rattle.lazbendix_c.specs.Logs.{FitsRecord, HasLogged, IsNone, told_bytes, told_of};
ghost use Rattle.logged_calls.specs.CallBytes.{call_bytes, call_size};
ghost use Rattle.logged_calls.specs.Calls.{IsLoggable};
ghost use Rattle.logged_calls.specs.declared.calls.Logged.{Logged};

use crate::statuses::{DONE, NO_CALL, TOO_MANY};
use logged_calls::{CALL_SIZE, Logged, good_bytes_are_calls, read_call, same_bytes};

/// The numbers of a call, by the table of docs/CALL-LOG.md. One that its kind does not speak of is 0.
#[repr(C)]
#[derive(Clone, Copy, Debug, PartialEq, Eq)]
pub struct ToldCall {
    /// A time, a run that is followed, or a ticket.
    pub first: u64,
    /// A moment.
    pub second: u64,
    pub kind: u32,
    /// Of a run that was added, whether it follows another; of an answer, what it is.
    pub sort: u32,
    pub device: u32,
    /// A value, a run, a routine, a window or rounds of probes.
    pub value: u32,
}

/// Writes the bytes of the call into the room, as a log has them: so `lazbendix_reopen` reads the
/// call again.
///
/// Where the answer is not `DONE` nothing was written.
#[unsafe(no_mangle)]
pub extern "C" fn lazbendix_log(call: &ToldCall, room: &mut [u8]) -> i32
    ensures done { result ≡ pos 0 → HasLogged call.now room.old room.new }
    ensures none { result ≡ pos 19 → IsNone call.now }
    ensures short { length room.old < call_size ↔ result ≡ pos 9 }
    ensures others { result ≢ pos 0 → result ≢ pos 9 → result ≡ pos 19 }
    ensures untold { result ≢ pos 0 → room.new ≡ room.old }
{
    if room.len() < CALL_SIZE {
        return TOO_MANY;
    }
    match call_of(call) {
        Some(logged) => {
            copy_call(&logged.bytes(), room);
            DONE
        }
        None => NO_CALL,
    }
}

/// The call with these numbers; `None` where no call has them.
fn call_of(told: &ToldCall) -> Option<Logged>
    ensures some { IfSome result (λ call. IsLoggable call × (told_of call ≡ told.now)) }
    ensures none { IfNone result (IsNone told.now) }
{
    if told.kind < 256 && told.sort < 256 && told.device < 65536 {
        read_whole(&bytes_of(told))
    } else {
        None
    }
}

/// The numbers as bytes.
fn bytes_of(told: &ToldCall) -> [u8; CALL_SIZE]
    requires fits { (told.now.kind < 256) × (told.now.sort < 256) × (told.now.device < 65536) }
    ensures bytes { result ≡ told_bytes told.now }
    ensures fits { FitsRecord told.now }
{
    let d = (told.device as u16).to_le_bytes();
    let v = told.value.to_le_bytes();
    let f = told.first.to_le_bytes();
    let s = told.second.to_le_bytes();
    [
        told.kind as u8,
        told.sort as u8,
        d[0],
        d[1],
        v[0],
        v[1],
        v[2],
        v[3],
        f[0],
        f[1],
        f[2],
        f[3],
        f[4],
        f[5],
        f[6],
        f[7],
        s[0],
        s[1],
        s[2],
        s[3],
        s[4],
        s[5],
        s[6],
        s[7],
    ]
}

/// The call that has just these bytes; `None` where no call has them.
fn read_whole(bytes: &[u8; CALL_SIZE]) -> Option<Logged>
    ensures some { IfSome result (λ call. IsLoggable call × (call_bytes call ≡ bytes.now)) }
    ensures none { IfNone result ((call : Logged) → IsLoggable call → call_bytes call ≢ bytes.now) }
{
    same_bytes();
    good_bytes_are_calls();
    read_call(bytes, 0)
}

/// Copies the bytes of a call into the front of the room.
fn copy_call(bytes: &[u8; CALL_SIZE], room: &mut [u8])
    requires roomy { call_size ≤ length room.old }
    ensures { room.new ≡ bytes.now ++ drop call_size room.old }
{
    room[..CALL_SIZE].copy_from_slice(bytes);
}
