//! The calls read from bytes.
ghost use Rattle.std.specs.Prelude.{◌≡◌, ◌+◌, ◌≤◌, [], ◌∷◌, All, IfNone, IfOk, IfSome, drop, length};
ghost use Rattle.logged_calls.specs.CallBytes.{call_size, calls_from, front_call, good_bytes};
ghost use Rattle.logged_calls.specs.Calls.{IsLoggable};

use crate::calls::{CALL_SIZE, Logged};
use crate::records::Record;
use home_types::{List, NoMemory};
use std::alloc::Global;

/// The call whose `CALL_SIZE` bytes begin at this place.
///
/// `None` where fewer bytes are left, and where they are those of no call: there the calls end.
pub fn read_call(bytes: &[u8], at: usize) -> Option<Logged>
    ensures call { result ≡ front_call (drop at bytes.now) }
    ensures next { IfSome result (λ call. calls_from (drop at bytes.now)
        ≡ call ∷ calls_from (drop (at + call_size) bytes.now)) }
    ensures end { IfNone result (calls_from (drop at bytes.now) ≡ []) }
    ensures loggable { IfSome result IsLoggable }
    ensures within { IfSome result (λ _. at + call_size ≤ length bytes.now) }
{
    if at > bytes.len() {
        return None;
    }
    front_call(&bytes[at..])
}

// The call in front of these bytes.
fn front_call(bytes: &[u8]) -> Option<Logged>
    ensures call { result ≡ front_call bytes.now }
    ensures loggable { IfSome result IsLoggable }
    ensures within { IfSome result (λ _. call_size ≤ length bytes.now) }
{
    if bytes.len() < CALL_SIZE {
        return None;
    }
    match Record::in_front(bytes).call() {
        Some(call) => {
            // its contract says that it is loggable
            call.kept_invariant();
            Some(call)
        }
        None => None,
    }
}

/// How many bytes are good: those of the calls that are read from them, up to the first record that
/// is cut off or is of no call. Takes no memory.
pub fn good_bytes(bytes: &[u8]) -> usize
    ensures good { result ≡ good_bytes bytes.now }
    ensures within { result ≤ length bytes.now }
{
    let mut at = 0;
    'calls: while read_call(bytes, at).is_some() {
        at += CALL_SIZE;
    }
    at
}

/// The calls read from the bytes, in order, up to the first record that is cut off or is of no
/// call. So many times `CALL_SIZE` bytes are good.
///
/// Answers `NoMemory` where there is none to be had.
pub fn read_calls(alloc: Global, bytes: &[u8]) -> Result<List<Logged>, NoMemory>
    ensures calls { IfOk result (λ calls. calls.items ≡ calls_from bytes.now) }
    ensures loggable { IfOk result (λ calls. All IsLoggable calls.items) }
{
    let mut calls = List::new(alloc);
    let mut at = 0;
    'calls: while let Some(call) = read_call(bytes, at) {
        calls.push(call)?;
        at += CALL_SIZE;
    }
    Ok(calls)
}
