//! A script, read from its bytes.
ghost use Rattle.home_types.specs.Limits.{most_devices, most_routines, most_windows};
ghost use Rattle.day_clock.specs.Times.{IsCivilTime};
ghost use Rattle.routine_reader.specs.Readings.{day_members, json_value_of, members_reading, parts_reading, script_reading, value_reading};
ghost use Rattle.routine_reader.specs.Scripts.{plain_script};
ghost use Rattle.routine_reader.specs.Sound.{IsSound};
ghost use Rattle.routine_reader.specs.Spots.{is_memory};
ghost use Rattle.routine_reader.specs.Walks.{IsReading};
ghost use Rattle.serde_json.specs.View.{view};
ghost use Rattle.std.specs.Prelude.{◌≡◌, ◌≤◌, All, Err, IfErr, IfOk, None, Ok, Some, false, length, map, option_map};

use crate::devices::read_devices;
use crate::faults::{Count, ReadFault, Spot, within_limit};
use crate::forms::{Form, GUARDED, UNGUARDED, has_form, list_at, long_number_at};
use crate::routines::read_routines;
use crate::scripts::Script;
use crate::windows::read_windows;
use home_types::limits;
use serde_json::Value as Json;
use std::alloc::Global;
use std::mem;

/// The value of these bytes.
fn read_value(alloc: Global, bytes: &[u8]) -> Result<Json, ReadFault>
    ensures reading { IfOk result (λ value. json_value_of bytes.now ≡ Some (view value)) }
    ensures refused { IfErr result (λ fault. is_memory fault ≡ false
        → (fault ≡ ReadFault.NotJson) × (json_value_of bytes.now ≡ None)) }
{
    match Json::from_slice(alloc, bytes) {
        Ok(value) => Ok(value),
        Err(error) => {
            if error.is_memory() {
                Err(ReadFault::NoMemory)
            } else {
                Err(ReadFault::NotJson)
            }
        }
    }
}

/// The members of the top object, each of its type.
#[derive(Clone, Copy)]
struct Members<'a> {
    version: u64,
    devices: &'a [Json],
    routines: &'a [Json],
    windows: &'a [Json],
}

fn members_of(value: &Json) -> Option<Members<'_>>
    ensures { option_map (λ members. record {
      version = members.version;
      devices = map view members.devices.now;
      routines = map view members.routines.now;
      windows = map view members.windows.now;
    }) result ≡ day_members (view value.now) }
{
    if !has_form(Form::Day, value) {
        return None;
    }
    Some(Members {
        version: long_number_at(value, "safehome")?,
        devices: list_at(value, "devices")?,
        routines: list_at(value, "routines")?,
        windows: list_at(value, "windows")?,
    })
}

/// Reads the devices, then the routines, then the windows.
#[tactic(auto, unfolding(crate::specs::Readings::parts_reading))]
fn read_parts(alloc: Global, members: &Members<'_>) -> Result<Script, ReadFault>
    requires devices { length members.now.devices.now ≤ most_devices }
    requires routines { length members.now.routines.now ≤ most_routines }
    requires windows { length members.now.windows.now ≤ most_windows }
    ensures reading { IsReading plain_script result (parts_reading (record {
      version = members.now.version;
      devices = map view members.now.devices.now;
      routines = map view members.now.routines.now;
      windows = map view members.now.windows.now;
    })) }
    ensures in_range { IfOk result
        (λ script. All (λ window. IsCivilTime window.at) script.windows.items) }
{
    let devices = read_devices(alloc, members.devices)?;
    let routines = read_routines(alloc, members.version, &devices, members.routines)?;
    let windows = read_windows(alloc, &routines.names, members.windows)?;
    Ok(Script {
        devices: devices.texts,
        routines: routines.texts,
        windows,
    })
}

/// Reads a script of version 1 or 2, with no more of each than the limit.
#[tactic(auto, unfolding(crate::specs::Readings::members_reading))]
fn read_members(alloc: Global, members: &Members<'_>) -> Result<Script, ReadFault>
    ensures reading { IsReading plain_script result (members_reading (record {
      version = members.now.version;
      devices = map view members.now.devices.now;
      routines = map view members.now.routines.now;
      windows = map view members.now.windows.now;
    })) }
    ensures sound { IfOk result (λ script. IsSound (plain_script script)) }
{
    if members.version != UNGUARDED && members.version != GUARDED {
        return Err(ReadFault::BadVersion(members.version));
    }
    within_limit(Count::Devices, members.devices.len() as u64)?;
    within_limit(Count::Routines, members.routines.len() as u64)?;
    within_limit(Count::Windows, members.windows.len() as u64)?;
    read_parts(alloc, members)
}

#[tactic(auto, unfolding(crate::specs::Readings::value_reading))]
fn read_top(alloc: Global, value: &Json) -> Result<Script, ReadFault>
    ensures reading { IsReading plain_script result (value_reading (view value.now)) }
    ensures sound { IfOk result (λ script. IsSound (plain_script script)) }
{
    let Some(members) = members_of(value) else {
        return Err(ReadFault::Shape(Spot::TOP));
    };
    read_members(alloc, &members)
}

/// Reads a script of version 1 or 2, or gives the first refusal of a walk over it.
///
/// # Errors
///
/// The first of these, in this order:
///
/// - `TooMany` with `Bytes` for more than `limits::SCRIPT_BYTES` bytes, and `NotJson` where
///   `serde_json` reads no value;
/// - at the top: `Shape`, `BadVersion`, and `TooMany` for the devices, the routines and the
///   windows;
/// - at each device in order: `Shape`, then of its name `BadName` and `DoubleName`, of its states
///   `Shape`, `TooMany`, `BadName` and `DoubleName`, of its range and its start `BadState`, of its
///   downs `TooMany` and `Shape`;
/// - at each routine in order: `Shape`, then of its name `BadName` and `DoubleName`, of its
///   commands `Shape` and `TooMany`, and at each command `Shape`, `UnknownName`, `BadState`, and
///   `TooMany` for `ms` and `takes`;
/// - at each window in order: `Shape`, `BadTime`, `TooMany` for probes, turns and runs, at each
///   turn `Shape` and `BadTurn`, and at each run `Shape`, `UnknownName` and `BadFollow`.
///
/// `NoMemory` may come at any point.
pub fn read_script(alloc: Global, bytes: &[u8]) -> Result<Script, ReadFault>
    ensures reading { IfOk result (λ script. script_reading bytes.now ≡ Ok (plain_script script)) }
    ensures sound { IfOk result (λ script. IsSound (plain_script script)) }
    ensures refused { IfErr result
        (λ fault. is_memory fault ≡ false → script_reading bytes.now ≡ Err fault) }
{
    let value = read_bytes(alloc, bytes)?;
    read_top(alloc, &value)
}

/// Reads a script as `read_script` does, for a program that ends when it is done with the script.
///
/// The value that the bytes make on the way is never let go, so that nothing walks over it once
/// more: its memory goes back to the system when the program ends. A process that lives on reads by
/// `read_script`.
///
/// # Errors
///
/// Those of `read_script`.
pub fn read_script_once(alloc: Global, bytes: &[u8]) -> Result<Script, ReadFault>
    ensures reading { IfOk result (λ script. script_reading bytes.now ≡ Ok (plain_script script)) }
    ensures sound { IfOk result (λ script. IsSound (plain_script script)) }
    ensures refused { IfErr result
        (λ fault. is_memory fault ≡ false → script_reading bytes.now ≡ Err fault) }
{
    let value = read_bytes(alloc, bytes)?;
    let read = read_top(alloc, &value);
    mem::forget(value);
    read
}

/// The value of these bytes, where they are not too many.
#[tactic(auto, unfolding(crate::specs::Readings::script_reading))]
fn read_bytes(alloc: Global, bytes: &[u8]) -> Result<Json, ReadFault>
    ensures reading { IfOk result (λ value. script_reading bytes.now ≡ value_reading (view value)) }
    ensures refused { IfErr result
        (λ fault. is_memory fault ≡ false → script_reading bytes.now ≡ Err fault) }
{
    if bytes.len() as u64 > limits::SCRIPT_BYTES {
        return Err(ReadFault::TooMany {
            kind: Count::Bytes,
            count: limits::SCRIPT_BYTES + 1,
            limit: limits::SCRIPT_BYTES,
        });
    }
    read_value(alloc, bytes)
}
