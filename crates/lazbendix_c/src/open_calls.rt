//! A home is opened behind a handle, and ended.
ghost use Rattle.std.specs.Prelude.{◌≡◌, ◌≢◌, ◌↔◌, IfErr, IsOk, None, Ok, Some, pos};
ghost use Rattle.home_states.specs.LiveHomes.{LiveState};
ghost use Rattle.lazbendix_c.specs.Calls.{HasOpenedHome, IsClosed, IsNoOpening, IsOpen, SameHome};
ghost use Rattle.lazbendix_c.specs.Faults.{fault_of};
ghost use Rattle.lazbendix_c.specs.Numbers.{mode_of};
ghost use Rattle.lazbendix_c.specs.Refusals.{refusal_status};

use crate::handles::Handle;
use crate::numbers::mode_of;
use crate::statuses::{CLOSED, DONE, MODE, NO_MEMORY, OPEN, REFUSED};
use crate::told_faults::{ToldFault, fault_of};
use home_states::LiveHome;
use routine_reader::ReadFault;
use std::alloc::Global;

/// Reads the script, and opens its home on a closed handle: every device up at its start, and no
/// window open. Its windows are opened in the mode of this model and this scheduler.
///
/// Where the answer is not `DONE` the handle is as it was; where it is `REFUSED` the fault tells
/// why, and else the fault is as it was. The script is read in memory, so that `NO_MEMORY` may come
/// of any script.
#[unsafe(no_mangle)]
pub extern "C" fn lazbendix_open(
    alloc: Global,
    h: &mut Handle,
    script: &[u8],
    model: u32,
    scheduler: u32,
    fault: &mut ToldFault,
) -> i32
    ensures done { result ≡ pos 0 → HasOpenedHome script.now model scheduler h.old h.new }
    ensures refused { result ≢ pos 0
        → IsNoOpening script.now model scheduler h.old fault.new result }
    ensures mode { IsClosed h.old → mode_of model scheduler ≡ None → result ≡ pos 4 }
    ensures open { IsOpen h.old ↔ result ≡ pos 2 }
    ensures same { result ≢ pos 0 → SameHome h.old h.new }
    ensures untouched { IsClosed h.old → result ≢ pos 0 → h.new ≡ h.old }
    ensures untold { result ≢ pos 3 → fault.new ≡ fault.old }
{
    match h.take(alloc) {
        Some(state) => {
            h.put(state);
            OPEN
        }
        None => match mode_of(model, scheduler) {
            Some(mode) => {
                let opened = LiveHome::open(alloc, script, mode);
                open_as(alloc, h, opened, fault)
            }
            None => MODE,
        },
    }
}

/// Puts the home that was opened behind a closed handle, or tells why there is none.
fn open_as(
    alloc: Global,
    h: &mut Handle,
    opened: Result<LiveHome, ReadFault>,
    fault: &mut ToldFault,
) -> i32
    requires closed { IsClosed h.old }
    ensures done { result ≡ pos 0 → (s : LiveState) × (opened ≡ Ok s) × (h.new.home.state ≡ Some s) }
    ensures refused { IfErr opened (λ why. result ≡ refusal_status why) }
    ensures told { IfErr opened (λ why. result ≡ pos 3 → fault.new ≡ fault_of why) }
    ensures room { IsOk opened → result ≢ pos 0 → result ≡ pos 5 }
    ensures same { result ≢ pos 0 → h.new ≡ h.old }
    ensures untold { result ≢ pos 3 → fault.new ≡ fault.old }
{
    match opened {
        Ok(state) => match Box::new(alloc, state) {
            Ok(state) => {
                h.put(state);
                DONE
            }
            Err(_) => NO_MEMORY,
        },
        Err(ReadFault::NoMemory) => NO_MEMORY,
        Err(why) => {
            *fault = fault_of(why);
            REFUSED
        }
    }
}

/// Closes the handle, and frees all that was behind it, whatever is open or out. A closed one stays
/// closed.
#[unsafe(no_mangle)]
pub extern "C" fn lazbendix_end(alloc: Global, h: &mut Handle) -> i32
    ensures ended { IsClosed h.new }
    ensures done { IsOpen h.old → result ≡ pos 0 }
    ensures closed { IsClosed h.old ↔ result ≡ pos 1 }
    ensures untouched { result ≡ pos 1 → h.new ≡ h.old }
{
    match h.take(alloc) {
        Some(state) => {
            drop(state);
            DONE
        }
        None => CLOSED,
    }
}
