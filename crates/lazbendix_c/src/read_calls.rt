//! How a home stands between its windows, and the names and numbers of its script.
ghost use Rattle.std.specs.Prelude.{◌≡◌, ◌≢◌, ◌↔◌, None, pos};
ghost use Rattle.home_states.specs.Readings.{run_count, script_device_name, script_routine_name, value_name};
ghost use Rattle.lazbendix_c.specs.Calls.{IsClosed, IsOpen, SameHome, Shows};
ghost use Rattle.lazbendix_c.specs.Numbers.{device_number};
ghost use Rattle.lazbendix_c.specs.Readings.{AreScriptCounts, HasNamed, IsToldStand};
ghost use Rattle.lazbendix_c.specs.Refusals.{IsNotStanding};

use crate::handles::Handle;
use crate::numbers::{copy_from, device_number};
use crate::statuses::{CLOSED, DONE, standing_status};
use crate::told_turns::{ToldCounts, ToldStand, stand_of};
use std::alloc::Global;

/// Tells how the device stands between two windows.
#[unsafe(no_mangle)]
pub extern "C" fn lazbendix_stand(
    alloc: Global,
    h: &mut Handle,
    device: u32,
    stand: &mut ToldStand,
) -> i32
    ensures done { result ≡ pos 0 → Shows (λ s. IsToldStand s device stand.new) h.old }
    ensures refused { result ≢ pos 0 → result ≢ pos 1
        → Shows (λ s. IsNotStanding s (device_number device) result) h.old }
    ensures same { SameHome h.old h.new }
    ensures untold { result ≢ pos 0 → stand.new ≡ stand.old }
    ensures closed { IsClosed h.old ↔ result ≡ pos 1 }
    ensures untouched { result ≡ pos 1 → h.new ≡ h.old }
{
    match h.take(alloc) {
        Some(state) => {
            let status = match state.stand(device_number(device)) {
                Ok(found) => {
                    *stand = stand_of(found);
                    DONE
                }
                Err(why) => standing_status(why),
            };
            h.put(state);
            status
        }
        None => CLOSED,
    }
}

/// Tells how many devices, routines and windows the script has, with the windows that were begun.
#[unsafe(no_mangle)]
pub extern "C" fn lazbendix_counts(alloc: Global, h: &mut Handle, counts: &mut ToldCounts) -> i32
    ensures done { result ≡ pos 0 → Shows (λ s. AreScriptCounts s counts.new) h.old }
    ensures same { SameHome h.old h.new }
    ensures open { IsOpen h.old → result ≡ pos 0 }
    ensures untold { result ≢ pos 0 → counts.new ≡ counts.old }
    ensures closed { IsClosed h.old ↔ result ≡ pos 1 }
    ensures untouched { result ≡ pos 1 → h.new ≡ h.old }
{
    match h.take(alloc) {
        Some(state) => {
            *counts = ToldCounts {
                devices: state.device_count(),
                routines: state.routine_count(),
                windows: state.window_count(),
            };
            h.put(state);
            DONE
        }
        None => CLOSED,
    }
}

/// Tells how many runs the script's window of this number has, counted from 0; 0 where there is
/// none.
#[unsafe(no_mangle)]
pub extern "C" fn lazbendix_run_count(
    alloc: Global,
    h: &mut Handle,
    window: u32,
    count: &mut u64,
) -> i32
    ensures done { result ≡ pos 0 → Shows (λ s. count.new ≡ run_count s window) h.old }
    ensures same { SameHome h.old h.new }
    ensures open { IsOpen h.old → result ≡ pos 0 }
    ensures untold { result ≢ pos 0 → count.new ≡ count.old }
    ensures closed { IsClosed h.old ↔ result ≡ pos 1 }
    ensures untouched { result ≡ pos 1 → h.new ≡ h.old }
{
    match h.take(alloc) {
        Some(state) => {
            *count = state.run_count(window);
            h.put(state);
            DONE
        }
        None => CLOSED,
    }
}

/// Copies the name of the device into the room, as much as fits, and tells how long it is; 0 where
/// there is no device.
#[unsafe(no_mangle)]
pub extern "C" fn lazbendix_device_name(
    alloc: Global,
    h: &mut Handle,
    device: u32,
    room: &mut [u8],
    len: &mut usize,
) -> i32
    ensures done { result ≡ pos 0 → Shows
        (λ s. HasNamed (script_device_name s.script device) room.old room.new len.new) h.old }
    ensures same { SameHome h.old h.new }
    ensures open { IsOpen h.old → result ≡ pos 0 }
    ensures untold { result ≢ pos 0 → (room.new ≡ room.old) × (len.new ≡ len.old) }
    ensures closed { IsClosed h.old ↔ result ≡ pos 1 }
    ensures untouched { result ≡ pos 1 → h.new ≡ h.old }
{
    match h.take(alloc) {
        Some(state) => {
            *len = name_into(state.device_name(device), room);
            h.put(state);
            DONE
        }
        None => CLOSED,
    }
}

/// Copies the name of the routine, counted from 0, into the room, as much as fits, and tells how
/// long it is; 0 where there is no routine.
#[unsafe(no_mangle)]
pub extern "C" fn lazbendix_routine_name(
    alloc: Global,
    h: &mut Handle,
    routine: u32,
    room: &mut [u8],
    len: &mut usize,
) -> i32
    ensures done { result ≡ pos 0
        → Shows (λ s. HasNamed (script_routine_name s.script routine) room.old room.new len.new)
        h.old }
    ensures same { SameHome h.old h.new }
    ensures open { IsOpen h.old → result ≡ pos 0 }
    ensures untold { result ≢ pos 0 → (room.new ≡ room.old) × (len.new ≡ len.old) }
    ensures closed { IsClosed h.old ↔ result ≡ pos 1 }
    ensures untouched { result ≡ pos 1 → h.new ≡ h.old }
{
    match h.take(alloc) {
        Some(state) => {
            *len = name_into(state.routine_name(routine), room);
            h.put(state);
            DONE
        }
        None => CLOSED,
    }
}

/// Copies the name of the device's value into the room, as much as fits, and tells how long it is;
/// 0 where it has none.
#[unsafe(no_mangle)]
pub extern "C" fn lazbendix_value_name(
    alloc: Global,
    h: &mut Handle,
    device: u32,
    value: u32,
    room: &mut [u8],
    len: &mut usize,
) -> i32
    ensures done { result ≡ pos 0 → Shows
        (λ s. HasNamed (value_name s.script device value) room.old room.new len.new) h.old }
    ensures same { SameHome h.old h.new }
    ensures open { IsOpen h.old → result ≡ pos 0 }
    ensures untold { result ≢ pos 0 → (room.new ≡ room.old) × (len.new ≡ len.old) }
    ensures closed { IsClosed h.old ↔ result ≡ pos 1 }
    ensures untouched { result ≡ pos 1 → h.new ≡ h.old }
{
    match h.take(alloc) {
        Some(state) => {
            *len = name_into(state.value_name(device, value), room);
            h.put(state);
            DONE
        }
        None => CLOSED,
    }
}

/// Copies the name into the room, as much as fits, and answers how long it is.
fn name_into(name: &str, room: &mut [u8]) -> usize
    ensures { HasNamed name.now room.old room.new result }
{
    let _fits = copy_from(name.as_bytes(), 0, room);
    name.len()
}
