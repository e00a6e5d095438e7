//! A state of the home as the bytes of a slot.
ghost use Rattle.std.specs.Prelude.{◌≡◌, ◌+◌, ◌<◌, ◌^◌, ◌≤◌, ◌++◌, [], ◌∷◌, All, IfOk, Some, None, false, length, true, vec_capacity};
ghost use Rattle.home_journal.specs.Slots.{body_size, slot_state, stand_bytes, stands_of, state_bytes};
ghost use Rattle.home_types.specs.Limits.{most_devices};

use home_types::{Kind, List, NoMemory, Stand, World};
use slot_disks::Layout;
use std::alloc::Global;

/// The slots of a home with so many devices.
pub(crate) fn layout_of(devices: u64, most: u32) -> Layout
    requires { devices ≤ most_devices }
    ensures size { result.size ≡ body_size devices }
    ensures most { result.most ≡ most }
{
    Layout {
        size: 6 + 5 * devices as u32,
        most: u64::from(most),
    }
}

/// Makes a state of so many devices, all of them down at 0.
pub(crate) fn blank_state(alloc: Global, devices: u64) -> Result<World, NoMemory>
    ensures { IfOk result (λ home. length home.devices.items ≡ devices) }
{
    let mut stands = List::new(alloc);
    stands.reserve(devices)?;
    'devices: while stands.len() < devices {
        stands.push(Stand {
            value: 0,
            up: false,
        })?;
    }
    Ok(World { devices: stands })
}

/// Copies the state. Takes no memory.
pub(crate) fn copy_state(to: &mut World, from: &[Stand])
    requires { length to.old.devices.items ≡ length from.now }
    ensures { to.new.devices.items ≡ from.now }
{
    'devices: for at in 0..from.len() {
        to.devices.set(at as u64, from[at]);
    }
}

/// Puts what stands behind the gate of the slot of this state, and a gate that is not open, in
/// place of the bytes that are there. Takes no memory.
pub(crate) fn fill_slot(slot: &mut Vec<u8>, number: u32, home: &[Stand])
    requires room { body_size (length home.now) < vec_capacity slot.old }
    requires devices { length home.now ≤ most_devices }
    ensures bytes { slot.new.items ≡ state_bytes number home.now ++ 0 ∷ [] }
    ensures small { All (λ s. s.value < 2 ^ 32) home.now }
    ensures room { vec_capacity slot.old ≤ vec_capacity slot.new }
{
    slot.clear();
    put(slot, &number.to_le_bytes());
    put(slot, &(home.len() as u16).to_le_bytes());
    'devices: for stand in home {
        put_stand(slot, stand);
    }
    put(slot, &[0]);
}

// Puts the bytes of where a device stands at the end, for which there is room.
fn put_stand(bytes: &mut Vec<u8>, stand: &Stand)
    requires { length bytes.old.items + 5 ≤ vec_capacity bytes.old }
    ensures items { bytes.new.items ≡ bytes.old.items ++ stand_bytes stand.now }
    ensures size { length bytes.new.items ≡ length bytes.old.items + 5 }
    ensures small { stand.now.value < 2 ^ 32 }
    ensures room { vec_capacity bytes.old ≤ vec_capacity bytes.new }
{
    put(bytes, &stand.value.to_le_bytes());
    put(bytes, &[u8::from(stand.up)]);
}

// Puts bytes at the end, for which there is room.
fn put(bytes: &mut Vec<u8>, more: &[u8])
    requires { length bytes.old.items + length more.now ≤ vec_capacity bytes.old }
    ensures items { bytes.new.items ≡ bytes.old.items ++ more.now }
    ensures room { vec_capacity bytes.old ≤ vec_capacity bytes.new }
{
    let done = bytes.extend_from_slice(more);
    done.unwrap();
}

/// Reads what stands behind the gate of the slot of this window, and tells whether the slot is
/// good: the state is in `home` then, which has as many devices as there are kinds.
pub(crate) fn read_state(body: &[u8], number: u32, kinds: &[Kind], home: &mut World) -> bool
    requires devices { length home.old.devices.items ≡ length kinds.now }
    ensures good { result ≡ true
        → slot_state kinds.now number body.now ≡ Some home.new.devices.items }
    ensures bad { result ≡ false → slot_state kinds.now number body.now ≡ None }
    ensures devices { length home.new.devices.items ≡ length kinds.now }
{
    let [a, b, c, d, e, f, stands @ ..] = body else {
        return false;
    };
    if u32::from_le_bytes([*a, *b, *c, *d]) != number {
        return false;
    }
    if usize::from(u16::from_le_bytes([*e, *f])) != kinds.len() {
        return false;
    }
    read_stands(stands, kinds, home)
}

// Reads where the devices stand, and tells whether each value is one of its kind and each last byte
// 0 or 1.
fn read_stands(stands: &[u8], kinds: &[Kind], home: &mut World) -> bool
    requires devices { length home.old.devices.items ≡ length kinds.now }
    ensures good { result ≡ true → stands_of kinds.now stands.now ≡ Some home.new.devices.items }
    ensures bad { result ≡ false → stands_of kinds.now stands.now ≡ None }
    ensures devices { length home.new.devices.items ≡ length kinds.now }
{
    let mut rest = stands;
    'devices: for at in 0..kinds.len() {
        let [a, b, c, d, up, behind @ ..] = rest else {
            return false;
        };
        let value = u32::from_le_bytes([*a, *b, *c, *d]);
        if !kinds[at].has(value) {
            return false;
        }
        if *up > 1 {
            return false;
        }
        home.devices.set(
            at as u64,
            Stand {
                value,
                up: *up == 1,
            },
        );
        rest = behind;
    }
    true
}
