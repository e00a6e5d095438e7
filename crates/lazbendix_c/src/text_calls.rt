//! The texts of a home, and the entries of its window.
ghost use Rattle.std.specs.Prelude.{◌≡◌, ◌≢◌, ◌↔◌, None, length, pos, slice_get};
ghost use Rattle.home_states.specs.Texts.{HasToldEntry, window_entries_told};
ghost use Rattle.lazbendix_c.specs.Calls.{Changes, IsClosed, IsOpen, SameHome, Shows};
ghost use Rattle.lazbendix_c.specs.Refusals.{IsNoEntryText, IsNoRecord};
ghost use Rattle.lazbendix_c.specs.Texts.{HasRead, HasToldHead, HasToldRecord, IsEntryAt};

use crate::handles::Handle;
use crate::numbers::copy_from;
use crate::statuses::{ABSENT, CLOSED, DONE, NO_MEMORY, entry_status, record_status};
use crate::told_entries::{ToldEntry, tell_entry};
use home_states::LiveHome;
use std::alloc::Global;

/// Makes the text of the window that was closed last, with its trace where `trace` is not 0, and
/// tells how long it is.
///
/// Where the answer is not `DONE` nothing has changed; after `NO_MEMORY` it may be asked again.
#[unsafe(no_mangle)]
pub extern "C" fn lazbendix_record(
    alloc: Global,
    h: &mut Handle,
    trace: u32,
    len: &mut usize,
) -> i32
    ensures done { result ≡ pos 0
        → Changes (λ s t. HasToldRecord s trace len.new t) h.old h.new }
    ensures refused { result ≢ pos 0 → result ≢ pos 1
        → Shows (λ s. IsNoRecord s result) h.old }
    ensures same { result ≢ pos 0 → SameHome h.old h.new }
    ensures untold { result ≢ pos 0 → len.new ≡ len.old }
    ensures closed { IsClosed h.old ↔ result ≡ pos 1 }
    ensures untouched { result ≡ pos 1 → h.new ≡ h.old }
{
    match h.take(alloc) {
        Some(mut state) => {
            let status = record(alloc, &mut state, trace, len);
            h.put(state);
            status
        }
        None => CLOSED,
    }
}

fn record(alloc: Global, state: &mut LiveHome, trace: u32, len: &mut usize) -> i32
    ensures done { result ≡ pos 0 → HasToldRecord state.old trace len.new state.new }
    ensures refused { result ≢ pos 0 → IsNoRecord state.old result }
    ensures open { result ≢ pos 1 }
    ensures same { result ≢ pos 0 → state.new ≡ state.old }
    ensures untold { result ≢ pos 0 → len.new ≡ len.old }
{
    match state.tell_window(alloc, trace != 0) {
        Ok(()) => {
            *len = state.text().len();
            DONE
        }
        Err(why) => record_status(why),
    }
}

/// Makes the head of a record of this home's windows, and tells how long it is.
///
/// Where the answer is not `DONE` there was no memory, and nothing has changed.
#[unsafe(no_mangle)]
pub extern "C" fn lazbendix_head(alloc: Global, h: &mut Handle, len: &mut usize) -> i32
    ensures done { result ≡ pos 0
        → Changes (λ s t. HasToldHead s len.new t) h.old h.new }
    ensures refused { result ≢ pos 0 → result ≢ pos 1 → result ≡ pos 5 }
    ensures same { result ≢ pos 0 → SameHome h.old h.new }
    ensures untold { result ≢ pos 0 → len.new ≡ len.old }
    ensures closed { IsClosed h.old ↔ result ≡ pos 1 }
    ensures untouched { result ≡ pos 1 → h.new ≡ h.old }
{
    match h.take(alloc) {
        Some(mut state) => {
            let status = match state.tell_head(alloc) {
                Ok(()) => {
                    *len = state.text().len();
                    DONE
                }
                Err(_) => NO_MEMORY,
            };
            h.put(state);
            status
        }
        None => CLOSED,
    }
}

/// Makes the line of the entry at this place, counted from 0, of the window that is open, or of the
/// one closed last, and tells how long it is.
///
/// Where the answer is not `DONE` nothing has changed.
#[unsafe(no_mangle)]
pub extern "C" fn lazbendix_entry_text(
    alloc: Global,
    h: &mut Handle,
    at: u64,
    len: &mut usize,
) -> i32
    ensures done { result ≡ pos 0
        → Changes (λ s t. HasToldEntry s at t × (len.new ≡ length t.text)) h.old h.new }
    ensures refused { result ≢ pos 0 → result ≢ pos 1
        → Shows (λ s. IsNoEntryText s at result) h.old }
    ensures same { result ≢ pos 0 → SameHome h.old h.new }
    ensures untold { result ≢ pos 0 → len.new ≡ len.old }
    ensures closed { IsClosed h.old ↔ result ≡ pos 1 }
    ensures untouched { result ≡ pos 1 → h.new ≡ h.old }
{
    match h.take(alloc) {
        Some(mut state) => {
            let status = entry_text(alloc, &mut state, at, len);
            h.put(state);
            status
        }
        None => CLOSED,
    }
}

fn entry_text(alloc: Global, state: &mut LiveHome, at: u64, len: &mut usize) -> i32
    ensures done { result ≡ pos 0
        → HasToldEntry state.old at state.new × (len.new ≡ length state.new.text) }
    ensures refused { result ≢ pos 0 → IsNoEntryText state.old at result }
    ensures open { result ≢ pos 1 }
    ensures same { result ≢ pos 0 → state.new ≡ state.old }
    ensures untold { result ≢ pos 0 → len.new ≡ len.old }
{
    match state.tell_entry(alloc, at) {
        Ok(()) => {
            *len = state.text().len();
            DONE
        }
        Err(why) => entry_status(why),
    }
}

/// Copies the text that was made last into the room, from the byte at `from` on, as much as there
/// is and fits, and tells how much. Before the first text it is empty.
#[unsafe(no_mangle)]
pub extern "C" fn lazbendix_read(
    alloc: Global,
    h: &mut Handle,
    from: usize,
    room: &mut [u8],
    got: &mut usize,
) -> i32
    ensures done { result ≡ pos 0
        → Shows (λ s. HasRead s.text from room.old room.new got.new) h.old }
    ensures same { SameHome h.old h.new }
    ensures open { IsOpen h.old → result ≡ pos 0 }
    ensures untold { result ≢ pos 0 → (room.new ≡ room.old) × (got.new ≡ got.old) }
    ensures closed { IsClosed h.old ↔ result ≡ pos 1 }
    ensures untouched { result ≡ pos 1 → h.new ≡ h.old }
{
    match h.take(alloc) {
        Some(state) => {
            *got = copy_from(state.text(), from, room);
            h.put(state);
            DONE
        }
        None => CLOSED,
    }
}

/// Tells how many entries the window that is open has so far, or the one closed last where none is
/// open.
#[unsafe(no_mangle)]
pub extern "C" fn lazbendix_entry_count(alloc: Global, h: &mut Handle, count: &mut u64) -> i32
    ensures done { result ≡ pos 0
        → Shows (λ s. count.new ≡ length (window_entries_told s)) h.old }
    ensures same { SameHome h.old h.new }
    ensures open { IsOpen h.old → result ≡ pos 0 }
    ensures untold { result ≢ pos 0 → count.new ≡ count.old }
    ensures closed { IsClosed h.old ↔ result ≡ pos 1 }
    ensures untouched { result ≡ pos 1 → h.new ≡ h.old }
{
    match h.take(alloc) {
        Some(state) => {
            *count = state.entry_count();
            h.put(state);
            DONE
        }
        None => CLOSED,
    }
}

/// Tells the entry at this place, counted from 0, of the window that is open, or of the one closed
/// last, and its maker: the run that made the step, or 0 for the detector.
#[unsafe(no_mangle)]
pub extern "C" fn lazbendix_entry_at(
    alloc: Global,
    h: &mut Handle,
    at: u64,
    entry: &mut ToldEntry,
    maker: &mut u32,
) -> i32
    ensures done { result ≡ pos 0 → Shows (λ s. IsEntryAt s at entry.new maker.new) h.old }
    ensures absent { result ≢ pos 0 → result ≢ pos 1 → Shows
        (λ s. (result ≡ pos 8) × (slice_get (window_entries_told s) at ≡ None)) h.old }
    ensures same { SameHome h.old h.new }
    ensures untold { result ≢ pos 0 → (entry.new ≡ entry.old) × (maker.new ≡ maker.old) }
    ensures closed { IsClosed h.old ↔ result ≡ pos 1 }
    ensures untouched { result ≡ pos 1 → h.new ≡ h.old }
{
    match h.take(alloc) {
        Some(state) => {
            let status = match state.entry(at) {
                Some(kept) => {
                    tell_entry(&kept.entry, entry);
                    *maker = kept.maker;
                    DONE
                }
                None => ABSENT,
            };
            h.put(state);
            status
        }
        None => CLOSED,
    }
}
