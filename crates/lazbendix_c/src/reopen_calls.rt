//! A home is opened again from its script and the calls that were made on it.
ghost use Rattle.std.specs.Prelude.{◌≡◌, ◌≢◌, ◌↔◌, ◌*◌, ◌≤◌, Err, None, Ok, Some, false, length, pos, ℕ};
ghost use Rattle.home_states.specs.LiveHomes.{LiveState};
ghost use Rattle.lazbendix_c.specs.Calls.{IsClosed, IsOpen, SameHome};
ghost use Rattle.lazbendix_c.specs.Faults.{fault_of};
ghost use Rattle.lazbendix_c.specs.Numbers.{mode_of};
ghost use Rattle.lazbendix_c.specs.Reopenings.{HasReopened, IsNoReopening};
ghost use Rattle.logged_calls.specs.CallBytes.{call_size, good_bytes};
ghost use Rattle.routine_reader.specs.Spots.{is_memory};
ghost use Rattle.routine_reader.specs.declared.faults.ReadFault.{ReadFault};

use crate::handles::Handle;
use crate::numbers::mode_of;
use crate::statuses::{DONE, MODE, NO_CALL, NO_MEMORY, OPEN, REFUSED};
use crate::told_faults::{ToldFault, fault_of};
use home_states::{LiveHome, NotRebuilt};
use logged_calls::{CALL_SIZE, good_bytes};
use routine_reader::ReadFault;
use std::alloc::Global;

/// Opens the home of the script on a closed handle, as `lazbendix_open` does, and makes the calls
/// on it that the log tells: so it is the home on which these calls were made, also in the middle
/// of a window. Tells how many bytes of the log are good: those of these calls.
///
/// Where the answer is not `DONE` the handle is as it was. Where it is `REFUSED` the fault tells
/// why, and else the fault is as it was. Where it is `NO_CALL` the home refuses a call of the log,
/// and the good bytes are those of the calls before it.
#[unsafe(no_mangle)]
pub extern "C" fn lazbendix_reopen(
    alloc: Global,
    h: &mut Handle,
    script: &[u8],
    log: &[u8],
    model: u32,
    scheduler: u32,
    fault: &mut ToldFault,
    good: &mut u64,
) -> i32
    ensures done { result ≡ pos 0 → HasReopened script.now log.now model scheduler h.old h.new }
    ensures good { result ≡ pos 0 → good.new ≡ good_bytes log.now }
    ensures refused { result ≢ pos 0
        → IsNoReopening script.now log.now model scheduler h.old fault.new good.new result }
    ensures mode { IsClosed h.old → mode_of model scheduler ≡ None → result ≡ pos 4 }
    ensures open { IsOpen h.old ↔ result ≡ pos 2 }
    ensures same { result ≢ pos 0 → SameHome h.old h.new }
    ensures untouched { IsClosed h.old → result ≢ pos 0 → h.new ≡ h.old }
    ensures untold { result ≢ pos 3 → fault.new ≡ fault.old }
    ensures unsaid { result ≢ pos 0 → result ≢ pos 19 → good.new ≡ good.old }
{
    match h.take(alloc) {
        Some(state) => {
            h.put(state);
            OPEN
        }
        None => match mode_of(model, scheduler) {
            Some(mode) => {
                let rebuilt = LiveHome::rebuild(alloc, script, mode, log);
                reopen_as(alloc, h, rebuilt, log, fault, good)
            }
            None => MODE,
        },
    }
}

/// Puts the home that was made again behind a closed handle, or tells why there is none.
fn reopen_as(
    alloc: Global,
    h: &mut Handle,
    rebuilt: Result<LiveHome, NotRebuilt>,
    log: &[u8],
    fault: &mut ToldFault,
    good: &mut u64,
) -> i32
    requires closed { IsClosed h.old }
    requires within { (at : ℕ) → rebuilt ≡ Err (NotRebuilt.Refused at)
        → call_size * at ≤ length log.now }
    ensures done { result ≡ pos 0
        → (s : LiveState) × (rebuilt ≡ Ok s) × (h.new.home.state ≡ Some s) }
    ensures good { result ≡ pos 0 → good.new ≡ good_bytes log.now }
    ensures refused { result ≡ pos 3 → (why : ReadFault)
        × (rebuilt ≡ Err (NotRebuilt.Unread why)) × (is_memory why ≡ false)
        × (fault.new ≡ fault_of why) }
    ensures call { result ≡ pos 19 → (at : ℕ)
        × (rebuilt ≡ Err (NotRebuilt.Refused at)) × (good.new ≡ call_size * at) }
    ensures others { result ≢ pos 0 → result ≢ pos 3 → result ≢ pos 19 → result ≡ pos 5 }
    ensures same { result ≢ pos 0 → h.new ≡ h.old }
    ensures untold { result ≢ pos 3 → fault.new ≡ fault.old }
    ensures unsaid { result ≢ pos 0 → result ≢ pos 19 → good.new ≡ good.old }
{
    match rebuilt {
        Ok(state) => match Box::new(alloc, state) {
            Ok(state) => {
                h.put(state);
                *good = good_bytes(log) as u64;
                DONE
            }
            Err(_) => NO_MEMORY,
        },
        Err(NotRebuilt::NoMemory) | Err(NotRebuilt::Unread(ReadFault::NoMemory)) => NO_MEMORY,
        Err(NotRebuilt::Unread(why)) => {
            *fault = fault_of(why);
            REFUSED
        }
        Err(NotRebuilt::Refused(at)) => {
            let _long = log.len();
            *good = at * CALL_SIZE as u64;
            NO_CALL
        }
    }
}
