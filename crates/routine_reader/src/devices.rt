//! The devices of a script, read.
ghost use Rattle.home_types.specs.Limits.{most_devices, most_downs, most_states};
ghost use Rattle.home_types.specs.Listed.{Listed};
ghost use Rattle.routine_reader.specs.AreRead.{AreDevices};
ghost use Rattle.routine_reader.specs.Devices.{device_members, device_reading, device_values, down_reading, downs_reading, has_states_or_range, next_device_read, next_down, state_name, state_names, value_in};
ghost use Rattle.routine_reader.specs.Names.{is_among};
ghost use Rattle.routine_reader.specs.Scripts.{plain_device};
ghost use Rattle.routine_reader.specs.Walks.{IsReading, read_each};
ghost use Rattle.serde_json.specs.View.{view};
ghost use Rattle.std.specs.Prelude.{◌≡◌, ◌<◌, ◌≤◌, ◌^◌, ◌++◌, ◌∷◌, [], All, IfOk, false, length, map, option_map};

use crate::faults::{Count, Part, ReadFault, Spot, within_limit};
use crate::forms::{
    Form, has_form, items_in, lacks, list_if_there, list_or_empty, number_of, number_or, state_at,
    text_at,
};
use crate::names::{Names, new_name, place_of};
use crate::scripts::DeviceText;
use home_types::{Kind, List, NoMemory, Text, Value};
use serde_json::Value as Json;
use std::alloc::Global;

/// The members of a device, each of its type.
#[derive(Clone, Copy)]
struct DeviceMembers<'a> {
    name: &'a str,
    states: Option<&'a [Json]>,
    /// 0 where it has states, as `high` is.
    low: Value,
    high: Value,
    start: &'a Json,
    down: &'a [Json],
}

/// Whether it has either `states`, or both `low` and `high`.
fn has_states_or_range(value: &Json) -> bool
    ensures { result ≡ has_states_or_range (view value.now) }
{
    if lacks(value, "states") {
        !lacks(value, "low") && !lacks(value, "high")
    } else {
        lacks(value, "low") && lacks(value, "high")
    }
}

fn device_members(value: &Json) -> Option<DeviceMembers<'_>>
    ensures { option_map (λ members. record {
      name = members.name.now;
      states = option_map (λ items. map view items.now) members.states;
      low = members.low;
      high = members.high;
      start = view members.start.now;
      down = map view members.down.now;
    }) result ≡ device_members (view value.now) }
{
    if !has_form(Form::Device, value) || !has_states_or_range(value) {
        return None;
    }
    Some(DeviceMembers {
        name: text_at(value, "name")?,
        states: list_if_there(value, "states")?,
        low: number_or(value, "low", 0)?,
        high: number_or(value, "high", 0)?,
        start: state_at(value, "start")?,
        down: list_or_empty(value, "down")?,
    })
}

/// Reads the name of a state, unlike these.
fn read_state<'a>(spot: Spot, names: &Names<'a>, value: &'a Json) -> Result<&'a str, ReadFault>
    ensures reading { IsReading (λ name. name.now) result
        (state_name spot names.now (view value.now)) }
    ensures new { IfOk result (λ name. is_among names.now name.now ≡ false) }
{
    match value.as_str() {
        Some(text) => new_name(spot, names, text),
        None => Err(ReadFault::Shape(spot)),
    }
}

fn read_each_state(alloc: Global, spot: Spot, values: &[Json]) -> Result<List<Text>, ReadFault>
    ensures reading { IsReading (λ names. names.items) result
        (read_each (state_name spot) [] (map view values.now)) }
    ensures count { IfOk result (λ names. length names.items ≡ length values.now) }
{
    let mut names = Names::new(alloc);
    let mut states = List::new(alloc);
    states.reserve(values.len() as u64)?;
    'values: for value in values {
        let name = read_state(spot, &names, value)?;
        names.add(name)?;
        states.push(Text::of(alloc, name)?)?;
    }
    Ok(states)
}

/// Reads the states of a device: 1 to `limits::STATES` names, all different.
#[tactic(auto, unfolding(crate::specs::Devices::state_names))]
fn read_states(alloc: Global, spot: Spot, values: &[Json]) -> Result<List<Text>, ReadFault>
    ensures reading { IsReading (λ names. names.items) result
        (state_names spot (map view values.now)) }
    ensures few { IfOk result (λ names. length names.items ≤ most_states) }
{
    if values.is_empty() {
        return Err(ReadFault::Shape(spot));
    }
    within_limit(Count::States, values.len() as u64)?;
    read_each_state(alloc, spot, values)
}

/// The values of a device, and the names of its states.
struct DeviceValues {
    kind: Kind,
    states: List<Text>,
}

/// Reads the values of a device: its states, or the numbers from `low` to `high`.
#[tactic(auto, unfolding(crate::specs::Devices::device_values))]
fn read_values(
    alloc: Global,
    spot: Spot,
    members: &DeviceMembers<'_>,
) -> Result<DeviceValues, ReadFault>
    ensures reading { IsReading
        (λ values. record { kind = values.kind; states = values.states.items }) result
        (device_values spot (option_map (λ items. map view items.now) members.now.states)
        members.now.low members.now.high) }
    ensures few { IfOk result (λ values. length values.states.items ≤ most_states) }
{
    let DeviceMembers {
        states,
        low,
        high,
        ..
    } = *members;
    if let Some(values) = states {
        let states = read_states(alloc, spot, values)?;
        return Ok(DeviceValues {
            kind: Kind::States(states.len() as u32),
            states,
        });
    }
    if low > high {
        return Err(ReadFault::BadState(spot));
    }
    Ok(DeviceValues {
        kind: Kind::Range(low, high),
        states: List::new(alloc),
    })
}

/// The value that a text or a whole number is: the place of a state, or a number of the range.
pub fn value_in(kind: Kind, states: &[Text], value: &Json) -> Option<Value>
    requires { length states.now ≤ most_states }
    ensures { result ≡ value_in kind states.now (view value.now) }
{
    match kind {
        Kind::States(_) => {
            let place = place_of(states, value.as_str()?)?;
            Some(place as u32)
        }
        Kind::Range(_, _) => {
            let number = number_of(value)?;
            if kind.has(number) { Some(number) } else { None }
        }
    }
}

/// Reads a range of calls in which a device is down.
fn read_down(spot: Spot, value: &Json) -> Result<(u32, u32), ReadFault>
    ensures { result ≡ down_reading spot (view value.now) }
{
    if let Some([from, to]) = items_in(value)
        && let Some(from) = number_of(from)
        && let Some(to) = number_of(to)
        && 1 <= from
        && from < to
    {
        return Ok((from, to));
    }
    Err(ReadFault::Shape(spot))
}

fn read_each_down(
    alloc: Global,
    device: u32,
    values: &[Json],
) -> Result<List<(u32, u32)>, ReadFault>
    requires { length values.now ≤ most_downs }
    ensures { IsReading (λ downs. downs.items) result
        (read_each (next_down device) [] (map view values.now)) }
{
    let mut downs = List::new(alloc);
    downs.reserve(values.len() as u64)?;
    'values: for value in values {
        let number = downs.len() as u32 + 1;
        let down = read_down(Part::Down.inside(device, number), value)?;
        downs.push(down)?;
    }
    Ok(downs)
}

#[tactic(auto, unfolding(crate::specs::Devices::downs_reading))]
fn read_downs(alloc: Global, device: u32, values: &[Json]) -> Result<List<(u32, u32)>, ReadFault>
    ensures { IsReading (λ downs. downs.items) result (downs_reading device (map view values.now)) }
{
    within_limit(Count::Downs, values.len() as u64)?;
    read_each_down(alloc, device, values)
}

/// Reads the device with this number, after devices with these names, and adds its name to them.
#[tactic(auto, unfolding(crate::specs::Devices::device_reading))]
fn read_device<'a>(
    alloc: Global,
    number: u32,
    names: &mut Names<'a>,
    value: &'a Json,
) -> Result<DeviceText, ReadFault>
    ensures reading { IsReading plain_device result
        (device_reading number names.old (view value.now)) }
    ensures few { IfOk result (λ device. length device.states.items ≤ most_states) }
    ensures named { IfOk result (λ device. names.new ≡ names.old ++ device.name ∷ []) }
{
    let spot = Part::Device.at(number);
    let Some(members) = device_members(value) else {
        return Err(ReadFault::Shape(spot));
    };
    let name = new_name(spot, names, members.name)?;
    let DeviceValues { kind, states } = read_values(alloc, spot, &members)?;
    let Some(start) = value_in(kind, states.as_slice(), members.start) else {
        return Err(ReadFault::BadState(spot));
    };
    let downs = read_downs(alloc, number, members.down)?;
    names.add(name)?;
    Ok(DeviceText {
        name: Text::of(alloc, name)?,
        kind,
        states,
        start,
        downs,
    })
}

/// The devices of a script, with their numbers by name.
#[derive(Drop)]
pub struct NamedDevices<'a> {
    pub names: Names<'a>,
    pub texts: List<DeviceText>,
}

/// Reads the devices of a script.
pub fn read_devices<'a>(alloc: Global, values: &'a [Json]) -> Result<NamedDevices<'a>, ReadFault>
    requires { length values.now ≤ most_devices }
    ensures reading { IsReading (λ devices. map plain_device devices.texts.items) result
        (read_each next_device_read [] (map view values.now)) }
    ensures devices { IfOk result AreDevices }
{
    let mut names = Names::new(alloc);
    let mut texts = List::new(alloc);
    texts.reserve(values.len() as u64)?;
    'values: for value in values {
        let number = texts.len() as u32 + 1;
        let device = read_device(alloc, number, &mut names, value)?;
        texts.push(device)?;
    }
    Ok(NamedDevices { names, texts })
}
