//! What words name in a script: its devices, their values, and answers.
ghost use Rattle.std.specs.Prelude.{◌≡◌, ◌<◌, ◌^◌, IfSome, IsTrue, length};
ghost use Rattle.std.specs.List.{position};
ghost use Rattle.std.specs.Str.{bytes_eq};
ghost use Rattle.home_types.specs.Kinds.{has_value};
ghost use Rattle.order_checker.specs.Values.{answer_of, device_named, is_device, value_at, value_of, value_written};

use crate::words::{number_of, reads};
use command_rules::{is_always, writes};
use home_types::{Answer, Command, DeviceNo, Kind, Text, Value};
use routine_reader::DeviceText;

/// The number of the device with this name, from 0.
pub fn device_named(devices: &[DeviceText], name: &[u8]) -> Option<usize>
    ensures place { result ≡ device_named devices.now name.now }
    ensures within { IfSome result (λ d. d < length devices.now) }
{
    devices
        .iter()
        .position(|device| reads(name, device.name.as_str()))
}

/// Whether a device has this name.
pub fn is_device(devices: &[DeviceText], name: &[u8]) -> bool
    ensures { result ≡ is_device devices.now name.now }
{
    devices
        .iter()
        .any(|device| reads(name, device.name.as_str()))
}

/// The place of the state with this name, from 0.
fn state_named(states: &[Text], name: &[u8]) -> Option<usize>
    ensures { result ≡ position (λ state. bytes_eq name.now state) states.now }
{
    states.iter().position(|state| reads(name, state.as_str()))
}

/// The place of the state with this name, or the number itself.
fn value_written(kind: Kind, states: &[Text], word: &[u8]) -> Option<u64>
    ensures { result ≡ value_written kind states.now word.now }
{
    match kind {
        Kind::States(_) => match state_named(states, word) {
            Some(place) => Some(place as u64),
            None => None,
        },
        Kind::Range(_, _) => number_of(word),
    }
}

/// Whether a device of the kind has the number as a value.
fn has(kind: Kind, number: u64) -> bool
    ensures has { result ≡ has_value kind number }
    ensures small { IsTrue result → number < 2 ^ 32 }
{
    match kind {
        Kind::States(count) => number < count as u64,
        Kind::Range(low, high) => low as u64 <= number && number <= high as u64,
    }
}

/// The value of the device that the word is.
pub fn value_of(device: &DeviceText, word: &[u8]) -> Option<Value>
    ensures { result ≡ value_of device.now word.now }
{
    let number = value_written(device.kind, device.states.as_slice(), word)?;
    if has(device.kind, number) {
        Some(number as Value)
    } else {
        None
    }
}

/// The same of the device with this number.
pub fn value_at(devices: &[DeviceText], device: DeviceNo, word: &[u8]) -> Option<Value>
    ensures { result ≡ value_at devices.now device.0 word.now }
{
    let device = devices.get(device.0 as usize)?;
    value_of(device, word)
}

/// The answer to the command that the word is: `-` to any, `/` to one with a guard, `.` to a write,
/// a value of its device to a read.
pub fn answer_of(devices: &[DeviceText], command: Command, word: &[u8]) -> Option<Answer>
    ensures { result ≡ answer_of devices.now command word.now }
{
    if reads(word, "-") {
        return Some(Answer::Down);
    }
    if !is_always(command.when) && reads(word, "/") {
        return Some(Answer::Skipped);
    }
    if !writes(command.job) {
        return value_at(devices, command.device, word).map(Answer::Found);
    }
    if reads(word, ".") {
        Some(Answer::Fine)
    } else {
        None
    }
}
