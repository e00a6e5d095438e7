//! The steps of an open window.
ghost use Rattle.std.specs.Prelude.{◌≡◌, ◌≢◌, ◌↔◌, IfSome, None, Some, pos};
ghost use Rattle.home_states.specs.LiveHomes.{IsWindowOpen, hub_in};
ghost use Rattle.home_states.specs.Steps.{HasNextNumber, HasProbed, IsOfNoCall};
ghost use Rattle.hub_table.specs.Tables.{SlipAndTask};
ghost use Rattle.lazbendix_c.specs.Calls.{Changes, IsClosed, IsOpen, SameHome, Shows};
ghost use Rattle.lazbendix_c.specs.Numbers.{device_number, told_as};
ghost use Rattle.lazbendix_c.specs.Refusals.{IsNotAnswered, IsNotInWindow, IsNotSent};
ghost use Rattle.lazbendix_c.specs.Steps.{HasGiven, HasLeft, HasSent, HasStepped, IsKnownBlocked, one_where};
ghost use Rattle.lazbendix_c.specs.Told.{out_turn};

use crate::handles::Handle;
use crate::numbers::{device_number, told_as};
use crate::statuses::{CLOSED, DONE, NO_PROBE, NO_WINDOW, WRONG, answer_status};
use crate::told_entries::{ToldMade, tell_made};
use crate::told_turns::{ToldLeft, ToldTurn, left_of, tell_out, tell_turn};
use home_states::LiveHome;
use home_types::{DeviceNo, RunNo};
use std::alloc::Global;

/// Makes the step of the run at this moment, in ms from the window's beginning, or at the last one
/// where that is later.
///
/// Where the answer is not `DONE` nothing has changed.
#[unsafe(no_mangle)]
pub extern "C" fn lazbendix_take(
    alloc: Global,
    h: &mut Handle,
    run: u32,
    now: u64,
    turn: &mut ToldTurn,
) -> i32
    ensures done { result ≡ pos 0
        → Changes (λ s t. HasStepped s run now turn.new t) h.old h.new }
    ensures refused { result ≢ pos 0 → result ≢ pos 1
        → Shows (λ s. IsNotInWindow s result) h.old }
    ensures same { result ≢ pos 0 → SameHome h.old h.new }
    ensures untold { result ≢ pos 0 → turn.new ≡ turn.old }
    ensures closed { IsClosed h.old ↔ result ≡ pos 1 }
    ensures untouched { result ≡ pos 1 → h.new ≡ h.old }
{
    match h.take(alloc) {
        Some(mut state) => {
            let status = take(&mut state, run, now, turn);
            h.put(state);
            status
        }
        None => CLOSED,
    }
}

fn take(state: &mut LiveHome, run: u32, now: u64, turn: &mut ToldTurn) -> i32
    ensures done { result ≡ pos 0 → HasStepped state.old run now turn.new state.new }
    ensures refused { result ≢ pos 0 → IsNotInWindow state.old result }
    ensures same { result ≢ pos 0 → state.new ≡ state.old }
    ensures untold { result ≢ pos 0 → turn.new ≡ turn.old }
{
    match &state.take(RunNo(run), now) {
        Some(taken) => {
            tell_turn(run, taken, turn);
            DONE
        }
        None => NO_WINDOW,
    }
}

/// Hands in what the device told to the call with this ticket, at this moment, in ms, or at the
/// last one where that is later: a run's call or a probe. A ticket of a window before is not out.
///
/// Where the answer is not `DONE` nothing has changed, and a device that is out stays out.
#[unsafe(no_mangle)]
pub extern "C" fn lazbendix_give(
    alloc: Global,
    h: &mut Handle,
    device: u32,
    ticket: u64,
    answer: u32,
    value: u32,
    now: u64,
    made: &mut ToldMade,
) -> i32
    ensures done { result ≡ pos 0 → Changes
        (λ s t. HasGiven s device ticket answer value now made.new t) h.old h.new }
    ensures refused { result ≢ pos 0 → result ≢ pos 1 → IfSome (told_as answer value) (λ told.
        Shows (λ s. IsNotAnswered s (device_number device) ticket told result) h.old) }
    ensures wrong { told_as answer value ≡ None → IsOpen h.old → result ≡ pos 11 }
    ensures late { IfSome h.old.home.state (λ s. IsWindowOpen s → IsOfNoCall s ticket
        → told_as answer value ≢ None → result ≡ pos 10) }
    ensures same { result ≢ pos 0 → SameHome h.old h.new }
    ensures untold { result ≢ pos 0 → made.new ≡ made.old }
    ensures closed { IsClosed h.old ↔ result ≡ pos 1 }
    ensures untouched { result ≡ pos 1 → h.new ≡ h.old }
{
    match h.take(alloc) {
        Some(mut state) => {
            let status = give(&mut state, device, ticket, answer, value, now, made);
            h.put(state);
            status
        }
        None => CLOSED,
    }
}

fn give(
    state: &mut LiveHome,
    device: u32,
    ticket: u64,
    answer: u32,
    value: u32,
    now: u64,
    made: &mut ToldMade,
) -> i32
    ensures done { result ≡ pos 0
        → HasGiven state.old device ticket answer value now made.new state.new }
    ensures refused { result ≢ pos 0 → IfSome (told_as answer value)
        (λ told. IsNotAnswered state.old (device_number device) ticket told result) }
    ensures wrong { told_as answer value ≡ None → result ≡ pos 11 }
    ensures late { IsWindowOpen state.old → IsOfNoCall state.old ticket
        → told_as answer value ≢ None → result ≡ pos 10 }
    ensures same { result ≢ pos 0 → state.new ≡ state.old }
    ensures untold { result ≢ pos 0 → made.new ≡ made.old }
    ensures open { result ≢ pos 1 }
{
    let Some(told) = told_as(answer, value) else {
        return WRONG;
    };
    match &state.answer(device_number(device), ticket, told, now) {
        Ok(entries) => {
            tell_made(entries, made);
            DONE
        }
        Err(why) => answer_status(*why),
    }
}

/// Sends a probe to the device, where one may be sent: its answer is given as that of a run's call.
///
/// Where the answer is not `DONE` nothing has changed.
#[unsafe(no_mangle)]
pub extern "C" fn lazbendix_probe(
    alloc: Global,
    h: &mut Handle,
    device: u32,
    turn: &mut ToldTurn,
) -> i32
    ensures done { result ≡ pos 0
        → Changes (λ s t. HasSent s device turn.new t) h.old h.new }
    ensures refused { result ≢ pos 0 → result ≢ pos 1
        → Shows (λ s. IsNotSent s (device_number device) result) h.old }
    ensures same { result ≢ pos 0 → SameHome h.old h.new }
    ensures untold { result ≢ pos 0 → turn.new ≡ turn.old }
    ensures closed { IsClosed h.old ↔ result ≡ pos 1 }
    ensures untouched { result ≡ pos 1 → h.new ≡ h.old }
{
    match h.take(alloc) {
        Some(mut state) => {
            let status = probe(&mut state, device_number(device), turn);
            h.put(state);
            status
        }
        None => CLOSED,
    }
}

fn probe(state: &mut LiveHome, device: DeviceNo, turn: &mut ToldTurn) -> i32
    ensures done { result ≡ pos 0 → (out : SlipAndTask)
        × HasProbed state.old device.0 (Some out) state.new
        × HasNextNumber state.old (Some out) state.new × (turn.new ≡ out_turn out.0 out.1) }
    ensures refused { result ≢ pos 0 → IsNotSent state.old device.0 result }
    ensures open { result ≢ pos 1 }
    ensures same { result ≢ pos 0 → state.new ≡ state.old }
    ensures untold { result ≢ pos 0 → turn.new ≡ turn.old }
{
    match state.probe(device) {
        Some(Some((slip, task))) => {
            tell_out(slip, task, turn);
            DONE
        }
        Some(None) => NO_PROBE,
        None => NO_WINDOW,
    }
}

/// Tells whether the run need not be taken, 1 or 0: it is known to wait, at every moment, until
/// another step.
#[unsafe(no_mangle)]
pub extern "C" fn lazbendix_blocked(alloc: Global, h: &mut Handle, run: u32, yes: &mut u32) -> i32
    ensures done { result ≡ pos 0 → Shows (λ s. IsKnownBlocked s run yes.new) h.old }
    ensures refused { result ≢ pos 0 → result ≢ pos 1
        → Shows (λ s. IsNotInWindow s result) h.old }
    ensures same { SameHome h.old h.new }
    ensures untold { result ≢ pos 0 → yes.new ≡ yes.old }
    ensures closed { IsClosed h.old ↔ result ≡ pos 1 }
    ensures untouched { result ≡ pos 1 → h.new ≡ h.old }
{
    match h.take(alloc) {
        Some(state) => {
            let status = match state.is_blocked(RunNo(run)) {
                Some(is_blocked) => {
                    *yes = one_where(is_blocked);
                    DONE
                }
                None => NO_WINDOW,
            };
            h.put(state);
            status
        }
        None => CLOSED,
    }
}

/// 1 where it is so, else 0.
fn one_where(so: bool) -> u32
    ensures { result ≡ one_where so }
{
    if so { 1 } else { 0 }
}

/// Tells what is left to do in the window before it can be closed.
#[unsafe(no_mangle)]
pub extern "C" fn lazbendix_quiet(alloc: Global, h: &mut Handle, left: &mut ToldLeft) -> i32
    ensures done { result ≡ pos 0 → Shows (λ s. HasLeft s left.new) h.old }
    ensures refused { result ≢ pos 0 → result ≢ pos 1
        → Shows (λ s. (result ≡ pos 7) × (hub_in s ≡ None)) h.old }
    ensures same { SameHome h.old h.new }
    ensures untold { result ≢ pos 0 → left.new ≡ left.old }
    ensures closed { IsClosed h.old ↔ result ≡ pos 1 }
    ensures untouched { result ≡ pos 1 → h.new ≡ h.old }
{
    match h.take(alloc) {
        Some(state) => {
            let status = match state.quiet() {
                Some(why) => {
                    *left = left_of(why);
                    DONE
                }
                None => NO_WINDOW,
            };
            h.put(state);
            status
        }
        None => CLOSED,
    }
}
