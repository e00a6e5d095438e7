//! The home line.
ghost use Rattle.std.specs.Prelude.{◌≡◌, ◌≤◌, Some, [], false, length, slice_get};
ghost use Rattle.std.specs.Option.{option_map_or};
ghost use Rattle.home_types.specs.Limits.{most_devices};
ghost use Rattle.order_checker.specs.HomeLines.{home_agrees, home_words_told, next_device_told, next_stand, stand_by_word, stand_written, stands_so, stands_told};
ghost use Rattle.order_checker.specs.Steps.{IsTold, walk};
ghost use Rattle.order_checker.specs.Words.{cut_at, texts, words_of};

use crate::values::value_of;
use crate::verdicts::{Halt, Place};
use crate::words::{cut_at, is_none_word, reads, words_of};
use home_types::{DeviceNo, List, Stand};
use routine_reader::DeviceText;
use std::alloc::Global;

/// Where the device stands, by what stands behind the `=`.
fn stand_written(device: &DeviceText, text: &[u8]) -> Option<Stand>
    ensures { result ≡ stand_written device.now text.now (cut_at 33 text.now) }
{
    match cut_at(text, b'!') {
        Some((value, behind)) if behind.is_empty() => {
            let value = value_of(device, value)?;
            Some(Stand { value, up: false })
        }
        Some(_) => None,
        None => {
            let value = value_of(device, text)?;
            Some(Stand { value, up: true })
        }
    }
}

/// Where the device stands, by a word `NAME=VALUE` or `NAME=VALUE!` with its name and one of its
/// values.
#[tactic(auto, unfolding(crate::specs::HomeLines::stand_by_word))]
fn stand_of(device: &DeviceText, word: &[u8]) -> Option<Stand>
    ensures { result ≡ stand_by_word device.now word.now }
{
    let (name, text) = cut_at(word, b'=')?;
    if !reads(name, device.name.as_str()) {
        return None;
    }
    stand_written(device, text)
}

/// Reads where each device stands, by as many words.
fn read_each_stand(
    alloc: Global,
    devices: &[DeviceText],
    words: &[&[u8]],
) -> Result<List<Stand>, Halt>
    requires { length words.now ≡ length devices.now }
    ensures { IsTold (λ stands. stands.items) result
        (walk (next_stand (texts words.now)) [] devices.now) }
{
    let mut stands = List::new(alloc);
    stands.reserve(devices.len() as u64)?;
    'devices: for (i, device) in devices.iter().enumerate() {
        let Some(stand) = stand_of(device, words[i]) else {
            return Err(Halt::At(Place::Home));
        };
        stands.push(stand)?;
    }
    Ok(stands)
}

/// Reads where each device stands, by the words behind the first.
#[tactic(auto, unfolding(crate::specs::HomeLines::stands_told))]
fn read_stands(alloc: Global, devices: &[DeviceText], words: &[&[u8]]) -> Result<List<Stand>, Halt>
    ensures { IsTold (λ stands. stands.items) result (stands_told devices.now (texts words.now)) }
{
    if devices.is_empty() {
        return if is_none_word(words) {
            Ok(List::new(alloc))
        } else {
            Err(Halt::At(Place::Home))
        };
    }
    if words.len() != devices.len() {
        return Err(Halt::At(Place::Home));
    }
    read_each_stand(alloc, devices, words)
}

/// Reads where each device stands, by the home line.
fn read_home_line(alloc: Global, devices: &[DeviceText], line: &[u8]) -> Result<List<Stand>, Halt>
    ensures { IsTold (λ stands. stands.items) result
        (home_words_told devices.now (words_of line.now)) }
{
    let words = words_of(alloc, line)?;
    match words.as_slice() {
        [first, words @ ..] if reads(first, "home") => read_stands(alloc, devices, words),
        _ => Err(Halt::At(Place::Home)),
    }
}

fn stands_so(told: Stand, stand: Stand) -> bool
    ensures { result ≡ stands_so told stand }
{
    told.value == stand.value && told.up == stand.up
}

/// Whether the device with this number is told to stand so.
fn is_told(told: &[Stand], device: usize, stand: Stand) -> bool
    ensures { result ≡ option_map_or (λ t. stands_so t stand) (slice_get told.now device) false }
{
    match told.get(device) {
        Some(told) => stands_so(*told, stand),
        None => false,
    }
}

/// Asks that each device stands as it is told.
fn all_stand_so(told: &[Stand], home: &[Stand]) -> Result<(), Halt>
    requires { length home.now ≤ most_devices }
    ensures { IsTold (λ _. length home.now) result (walk (next_device_told told.now) 0 home.now) }
{
    'stands: for (i, stand) in home.iter().enumerate() {
        if !is_told(told, i, *stand) {
            return Err(Halt::At(Place::Device(DeviceNo(i as u16))));
        }
    }
    Ok(())
}

/// Asks that each device stands as the home line tells.
#[tactic(auto, unfolding(crate::specs::HomeLines::home_agrees))]
pub fn check_home(
    alloc: Global,
    devices: &[DeviceText],
    home: &[Stand],
    line: &[u8],
) -> Result<(), Halt>
    requires { length home.now ≤ most_devices }
    ensures { IsTold (λ _. length home.now) result
        (home_agrees devices.now home.now (Some line.now)) }
{
    let told = read_home_line(alloc, devices, line)?;
    all_stand_so(told.as_slice(), home)
}
