//! What is asked of an open window beside its steps: which runs wait, with what a device is out, and
//! which items of its order are final. And the version of the library.
ghost use Rattle.std.specs.Prelude.{◌≡◌, ◌≢◌, ◌↔◌, None, Some, pos};
ghost use Rattle.home_states.specs.LiveHomes.{hub_in};
ghost use Rattle.home_states.specs.Queries.{IsLent, final_count, first_against_final, first_against_lent};
ghost use Rattle.hub_table.specs.Tables.{SlipAndTask};
ghost use Rattle.lazbendix_c.specs.Calls.{IsClosed, SameHome, Shows};
ghost use Rattle.lazbendix_c.specs.Numbers.{device_number};
ghost use Rattle.lazbendix_c.specs.Queries.{AreKnownBlocked, IsToldFinal, IsToldLent, version};
ghost use Rattle.lazbendix_c.specs.Refusals.{IsNotFinal, IsNotInWindow, IsNotLent};
ghost use Rattle.lazbendix_c.specs.Told.{out_turn};

use crate::handles::Handle;
use crate::numbers::device_number;
use crate::statuses::{CLOSED, DONE, NO_WINDOW, final_status, lent_status};
use crate::told_turns::{ToldItem, ToldTurn, item_of, tell_out};
use home_states::LiveHome;
use home_types::DeviceNo;
use std::alloc::Global;

/// The number of the version, 1.2.3 as 1002003: that of the file VERSION, to which
/// library/tests/declarations.py compares it.
const VERSION: i32 = 1001000;

/// Tells which runs need not be taken, the run r as the bit r - 1: those of which
/// `lazbendix_blocked` tells 1.
#[unsafe(no_mangle)]
pub extern "C" fn lazbendix_blocked_runs(alloc: Global, h: &mut Handle, runs: &mut u64) -> i32
    ensures done { result ≡ pos 0 → Shows (λ s. AreKnownBlocked s runs.new) h.old }
    ensures refused { result ≢ pos 0 → result ≢ pos 1
        → Shows (λ s. IsNotInWindow s result) h.old }
    ensures same { SameHome h.old h.new }
    ensures untold { result ≢ pos 0 → runs.new ≡ runs.old }
    ensures closed { IsClosed h.old ↔ result ≡ pos 1 }
    ensures untouched { result ≡ pos 1 → h.new ≡ h.old }
{
    match h.take(alloc) {
        Some(state) => {
            let status = match state.blocked_runs() {
                Some(word) => {
                    *runs = word;
                    DONE
                }
                None => NO_WINDOW,
            };
            h.put(state);
            status
        }
        None => CLOSED,
    }
}

/// Tells with what the device is out, as the take or the probe that sent it out told it.
#[unsafe(no_mangle)]
pub extern "C" fn lazbendix_out(
    alloc: Global,
    h: &mut Handle,
    device: u32,
    turn: &mut ToldTurn,
) -> i32
    ensures done { result ≡ pos 0 → Shows (λ s. IsToldLent s device turn.new) h.old }
    ensures free { result ≡ pos 0
        → Shows (λ s. first_against_lent s (device_number device) ≡ None) h.old }
    ensures refused { result ≢ pos 0 → result ≢ pos 1
        → Shows (λ s. IsNotLent s (device_number device) result) h.old }
    ensures same { SameHome h.old h.new }
    ensures untold { result ≢ pos 0 → turn.new ≡ turn.old }
    ensures closed { IsClosed h.old ↔ result ≡ pos 1 }
    ensures untouched { result ≡ pos 1 → h.new ≡ h.old }
{
    match h.take(alloc) {
        Some(state) => {
            let status = out(&state, device_number(device), turn);
            h.put(state);
            status
        }
        None => CLOSED,
    }
}

fn out(state: &LiveHome, device: DeviceNo, turn: &mut ToldTurn) -> i32
    ensures done { result ≡ pos 0 → (out : SlipAndTask)
        × IsLent state.now device.0 out × (turn.new ≡ out_turn out.0 out.1) }
    ensures free { result ≡ pos 0 → first_against_lent state.now device.0 ≡ None }
    ensures refused { result ≢ pos 0 → IsNotLent state.now device.0 result }
    ensures open { result ≢ pos 1 }
    ensures untold { result ≢ pos 0 → turn.new ≡ turn.old }
{
    match state.lent(device) {
        Ok((slip, task)) => {
            tell_out(slip, task, turn);
            DONE
        }
        Err(why) => lent_status(why),
    }
}

/// Tells how many items of the window's order are final: they stay in their order, whatever comes,
/// and but under the weak model the order of its record begins with them.
#[unsafe(no_mangle)]
pub extern "C" fn lazbendix_sealed(alloc: Global, h: &mut Handle, count: &mut u32) -> i32
    ensures done { result ≡ pos 0
        → Shows (λ s. final_count (hub_in s) ≡ Some count.new) h.old }
    ensures refused { result ≢ pos 0 → result ≢ pos 1
        → Shows (λ s. (result ≡ pos 7) × (hub_in s ≡ None)) h.old }
    ensures same { SameHome h.old h.new }
    ensures untold { result ≢ pos 0 → count.new ≡ count.old }
    ensures closed { IsClosed h.old ↔ result ≡ pos 1 }
    ensures untouched { result ≡ pos 1 → h.new ≡ h.old }
{
    match h.take(alloc) {
        Some(state) => {
            let status = match state.sealed() {
                Some(sealed) => {
                    *count = sealed;
                    DONE
                }
                None => NO_WINDOW,
            };
            h.put(state);
            status
        }
        None => CLOSED,
    }
}

/// Tells the final item at this place of the window's order, counted from 0.
#[unsafe(no_mangle)]
pub extern "C" fn lazbendix_final_item(
    alloc: Global,
    h: &mut Handle,
    at: u32,
    item: &mut ToldItem,
) -> i32
    ensures done { result ≡ pos 0 → Shows (λ s. IsToldFinal s at item.new) h.old }
    ensures free { result ≡ pos 0 → Shows (λ s. first_against_final s at ≡ None) h.old }
    ensures refused { result ≢ pos 0 → result ≢ pos 1
        → Shows (λ s. IsNotFinal s at result) h.old }
    ensures same { SameHome h.old h.new }
    ensures untold { result ≢ pos 0 → item.new ≡ item.old }
    ensures closed { IsClosed h.old ↔ result ≡ pos 1 }
    ensures untouched { result ≡ pos 1 → h.new ≡ h.old }
{
    match h.take(alloc) {
        Some(state) => {
            let status = match state.final_item(at) {
                Ok(found) => {
                    *item = item_of(found);
                    DONE
                }
                Err(why) => final_status(why),
            };
            h.put(state);
            status
        }
        None => CLOSED,
    }
}

/// Answers the version of the library, 1.2.3 as 1002003. Asks for no handle.
#[unsafe(no_mangle)]
pub extern "C" fn lazbendix_version() -> i32
    ensures { result ≡ version }
{
    VERSION
}
