//! A window is opened on the home, and closed.
ghost use Rattle.std.specs.Prelude.{◌≡◌, ◌≢◌, ◌↔◌, None, pos};
ghost use Rattle.home_states.specs.Openings.{HasClosed, HasOpened, first_against_opening};
ghost use Rattle.lazbendix_c.specs.Calls.{Changes, IsClosed, SameHome, Shows};
ghost use Rattle.lazbendix_c.specs.Refusals.{IsNotClosed, IsNotOpened};

use crate::handles::Handle;
use crate::statuses::{CLOSED, DONE, closing_status, opening_status};
use home_states::LiveHome;
use std::alloc::Global;

/// Opens the script's window of this number, counted from 0.
///
/// Where the answer is not `DONE` nothing has changed.
#[unsafe(no_mangle)]
pub extern "C" fn lazbendix_window(alloc: Global, h: &mut Handle, number: u32) -> i32
    ensures done { result ≡ pos 0 → Changes (λ s t. HasOpened s number t) h.old h.new }
    ensures free { result ≡ pos 0 → Shows (λ s. first_against_opening s number ≡ None) h.old }
    ensures refused { result ≢ pos 0 → result ≢ pos 1
        → Shows (λ s. IsNotOpened s number result) h.old }
    ensures same { result ≢ pos 0 → SameHome h.old h.new }
    ensures closed { IsClosed h.old ↔ result ≡ pos 1 }
    ensures untouched { result ≡ pos 1 → h.new ≡ h.old }
{
    match h.take(alloc) {
        Some(mut state) => {
            let status = window(alloc, &mut state, number);
            h.put(state);
            status
        }
        None => CLOSED,
    }
}

fn window(alloc: Global, state: &mut LiveHome, number: u32) -> i32
    ensures done { result ≡ pos 0 → HasOpened state.old number state.new }
    ensures free { result ≡ pos 0 → first_against_opening state.old number ≡ None }
    ensures refused { result ≢ pos 0 → IsNotOpened state.old number result }
    ensures open { result ≢ pos 1 }
    ensures same { result ≢ pos 0 → state.new ≡ state.old }
{
    match state.window(alloc, number) {
        Ok(()) => DONE,
        Err(why) => opening_status(why),
    }
}

/// Closes the window, whose record can then be asked for.
///
/// Where the answer is not `DONE` nothing has changed.
#[unsafe(no_mangle)]
pub extern "C" fn lazbendix_close_window(alloc: Global, h: &mut Handle) -> i32
    ensures done { result ≡ pos 0 → Changes (λ s t. HasClosed s t) h.old h.new }
    ensures refused { result ≢ pos 0 → result ≢ pos 1
        → Shows (λ s. IsNotClosed s result) h.old }
    ensures same { result ≢ pos 0 → SameHome h.old h.new }
    ensures closed { IsClosed h.old ↔ result ≡ pos 1 }
    ensures untouched { result ≡ pos 1 → h.new ≡ h.old }
{
    match h.take(alloc) {
        Some(mut state) => {
            let status = close_window(&mut state);
            h.put(state);
            status
        }
        None => CLOSED,
    }
}

fn close_window(state: &mut LiveHome) -> i32
    ensures done { result ≡ pos 0 → HasClosed state.old state.new }
    ensures refused { result ≢ pos 0 → IsNotClosed state.old result }
    ensures open { result ≢ pos 1 }
    ensures same { result ≢ pos 0 → state.new ≡ state.old }
{
    match state.close_window() {
        Ok(()) => DONE,
        Err(why) => closing_status(why),
    }
}
