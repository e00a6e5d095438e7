//! Windows of the moment, and devices that others turned or that are lost.
ghost use Rattle.std.specs.Prelude.{◌≡◌, ◌≢◌, ◌↔◌, None, pos};
ghost use Rattle.home_states.specs.DraftRefusals.{first_against_adding, first_against_beginning};
ghost use Rattle.home_states.specs.Drafts.{HasBegunWindow, HasLost, HasRestood, first_against_losing, first_against_restanding};
ghost use Rattle.home_states.specs.Joinings.{HasTakenRun};
ghost use Rattle.lazbendix_c.specs.Calls.{Changes, IsClosed, SameHome, Shows};
ghost use Rattle.lazbendix_c.specs.Numbers.{device_number, followed};
ghost use Rattle.lazbendix_c.specs.Refusals.{IsNotAdded, IsNotBegun, IsNotLost, IsNotRestood};

use crate::handles::Handle;
use crate::numbers::{device_number, followed};
use crate::statuses::{CLOSED, DONE, draft_status, losing_status, restanding_status};
use home_states::LiveHome;
use std::alloc::Global;

/// Appends a window without runs to the script, at the time that the text tells and with so many
/// rounds of probes, and tells its number, counted from 0.
///
/// Where the answer is not `DONE` nothing has changed.
#[unsafe(no_mangle)]
pub extern "C" fn lazbendix_begin_window(
    alloc: Global,
    h: &mut Handle,
    at: &[u8],
    probes: u32,
    number: &mut u32,
) -> i32
    ensures done { result ≡ pos 0
        → Changes (λ s t. HasBegunWindow s at.now probes number.new t) h.old h.new }
    ensures free { result ≡ pos 0
        → Shows (λ s. first_against_beginning s at.now probes ≡ None) h.old }
    ensures refused { result ≢ pos 0 → result ≢ pos 1
        → Shows (λ s. IsNotBegun s at.now probes result) h.old }
    ensures same { result ≢ pos 0 → SameHome h.old h.new }
    ensures untold { result ≢ pos 0 → number.new ≡ number.old }
    ensures closed { IsClosed h.old ↔ result ≡ pos 1 }
    ensures untouched { result ≡ pos 1 → h.new ≡ h.old }
{
    match h.take(alloc) {
        Some(mut state) => {
            let status = begin_window(alloc, &mut state, at, probes, number);
            h.put(state);
            status
        }
        None => CLOSED,
    }
}

fn begin_window(
    alloc: Global,
    state: &mut LiveHome,
    at: &[u8],
    probes: u32,
    number: &mut u32,
) -> i32
    ensures done { result ≡ pos 0
        → HasBegunWindow state.old at.now probes number.new state.new }
    ensures free { result ≡ pos 0 → first_against_beginning state.old at.now probes ≡ None }
    ensures refused { result ≢ pos 0 → IsNotBegun state.old at.now probes result }
    ensures open { result ≢ pos 1 }
    ensures same { result ≢ pos 0 → state.new ≡ state.old }
    ensures untold { result ≢ pos 0 → number.new ≡ number.old }
{
    match state.begin_window(alloc, at, probes) {
        Ok(begun) => {
            *number = begun;
            DONE
        }
        Err(why) => draft_status(why),
    }
}

/// Appends a run of the routine, counted from 0, to the window that was begun, or to the one that is
/// open, where it is the script's last one, and tells its number there, from 1. It waits for the end
/// of the run that it follows, 0 for none. A run that joins an open window has not arrived, and
/// nothing else of the window changes; who sleeps by `lazbendix_blocked` asks again.
///
/// Where the answer is not `DONE` nothing has changed.
#[unsafe(no_mangle)]
pub extern "C" fn lazbendix_add_run(
    alloc: Global,
    h: &mut Handle,
    routine: u32,
    follows: u32,
    run: &mut u32,
) -> i32
    ensures done { result ≡ pos 0 → Changes
        (λ s t. HasTakenRun s routine (followed follows) run.new t) h.old h.new }
    ensures free { result ≡ pos 0
        → Shows (λ s. first_against_adding s routine (followed follows) ≡ None) h.old }
    ensures refused { result ≢ pos 0 → result ≢ pos 1
        → Shows (λ s. IsNotAdded s routine (followed follows) result) h.old }
    ensures same { result ≢ pos 0 → SameHome h.old h.new }
    ensures untold { result ≢ pos 0 → run.new ≡ run.old }
    ensures closed { IsClosed h.old ↔ result ≡ pos 1 }
    ensures untouched { result ≡ pos 1 → h.new ≡ h.old }
{
    match h.take(alloc) {
        Some(mut state) => {
            let status = match state.add_run(routine, followed(follows)) {
                Ok(added) => {
                    *run = added.0;
                    DONE
                }
                Err(why) => draft_status(why),
            };
            h.put(state);
            status
        }
        None => CLOSED,
    }
}

/// Tells the home, between two windows, that the device was found up at this value.
///
/// Where the answer is not `DONE` nothing has changed.
#[unsafe(no_mangle)]
pub extern "C" fn lazbendix_restand(alloc: Global, h: &mut Handle, device: u32, value: u32) -> i32
    ensures done { result ≡ pos 0
        → Changes (λ s t. HasRestood s (device_number device) value t) h.old h.new }
    ensures free { result ≡ pos 0
        → Shows (λ s. first_against_restanding s (device_number device) value ≡ None) h.old }
    ensures refused { result ≢ pos 0 → result ≢ pos 1
        → Shows (λ s. IsNotRestood s (device_number device) value result) h.old }
    ensures same { result ≢ pos 0 → SameHome h.old h.new }
    ensures closed { IsClosed h.old ↔ result ≡ pos 1 }
    ensures untouched { result ≡ pos 1 → h.new ≡ h.old }
{
    match h.take(alloc) {
        Some(mut state) => {
            let status = match state.restand(device_number(device), value) {
                Ok(()) => DONE,
                Err(why) => restanding_status(why),
            };
            h.put(state);
            status
        }
        None => CLOSED,
    }
}

/// Tells the home, between two windows, that the device is lost: the next window begins with it
/// down, and a probe finds it.
///
/// Where the answer is not `DONE` nothing has changed.
#[unsafe(no_mangle)]
pub extern "C" fn lazbendix_lose(alloc: Global, h: &mut Handle, device: u32) -> i32
    ensures done { result ≡ pos 0
        → Changes (λ s t. HasLost s (device_number device) t) h.old h.new }
    ensures free { result ≡ pos 0
        → Shows (λ s. first_against_losing s (device_number device) ≡ None) h.old }
    ensures refused { result ≢ pos 0 → result ≢ pos 1
        → Shows (λ s. IsNotLost s (device_number device) result) h.old }
    ensures same { result ≢ pos 0 → SameHome h.old h.new }
    ensures closed { IsClosed h.old ↔ result ≡ pos 1 }
    ensures untouched { result ≡ pos 1 → h.new ≡ h.old }
{
    match h.take(alloc) {
        Some(mut state) => {
            let status = match state.lose(device_number(device)) {
                Ok(()) => DONE,
                Err(why) => losing_status(why),
            };
            h.put(state);
            status
        }
        None => CLOSED,
    }
}
