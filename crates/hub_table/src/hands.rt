//! Places for the grips that are out, one for each device.
ghost use Rattle.std.specs.Prelude.{◌≡◌, ◌≤◌, IfNone, IfSome, None, Some, [], length, slice_get, slice_set, vec_capacity};
ghost use Rattle.hub_table.specs.Tables.{PlacesAreEmpty, lent_in_place};

use device_gate::{Grip, Ready, Slip, Task};
use device_states::Device;
use home_types::DeviceNo;
use std::mem;

/// So many places in this list, which is empty and has room for them. None of them holds a grip.
pub(crate) fn empty_hands<D: Device>(
    hands: Vec<Option<Grip<D, Ready>>>,
    count: usize,
) -> Vec<Option<Grip<D, Ready>>>
    requires empty { hands.items ≡ [] }
    requires room { vec_capacity hands ≡ count }
    ensures empty { PlacesAreEmpty result.items }
    ensures count { length result.items ≡ count }
{
    let mut hands = hands;
    'hands: while hands.len() < count {
        hands.push_reserved(None);
    }
    hands
}

/// Lets places go that hold nothing.
pub(crate) fn drop_empty<D: Device>(hands: Vec<Option<Grip<D, Ready>>>)
    requires { PlacesAreEmpty hands.items }
{
    let mut hands = hands;
    'hands: while let Some(hand) = hands.pop() {
        match hand {
            None => {}
            Some(_held) => unreachable!(),
        }
    }
    hands.destroy_empty();
}

/// With what the device is out whose grip lies in this place. `None` where there is none.
pub(crate) fn look<D: Device>(
    hands: &Vec<Option<Grip<D, Ready>>>,
    d: DeviceNo,
) -> Option<(Slip, Task)>
    ensures { result ≡ lent_in_place (slice_get hands.now.items d.0) }
{
    if (d.0 as usize) < hands.len() {
        match &hands[d.0 as usize] {
            Some(grip) => Some((grip.slip(), grip.task())),
            None => None,
        }
    } else {
        None
    }
}

/// Puts the grip into the place of its device, which holds nothing.
pub(crate) fn put<D: Device>(
    hands: &mut Vec<Option<Grip<D, Ready>>>,
    d: DeviceNo,
    grip: Grip<D, Ready>,
)
    requires free { slice_get hands.old.items d.0 ≡ Some None }
    ensures { hands.new.items ≡ slice_set hands.old.items d.0 (Some grip) }
{
    match mem::replace(&mut hands[d.0 as usize], Some(grip)) {
        None => {}
        Some(_held) => unreachable!(),
    }
}

/// Takes the grip of the device out of its place. `None` where it holds nothing.
pub(crate) fn lift<D: Device>(
    hands: &mut Vec<Option<Grip<D, Ready>>>,
    d: DeviceNo,
) -> Option<Grip<D, Ready>>
    ensures found { IfSome result (λ grip. slice_get hands.old.items d.0 ≡ Some (Some grip)) }
    ensures lifted { IfSome result (λ _. hands.new.items ≡ slice_set hands.old.items d.0 None) }
    ensures none { IfNone result (lent_in_place (slice_get hands.old.items d.0) ≡ None) }
    ensures same { IfNone result (hands.new.items ≡ hands.old.items) }
{
    if (d.0 as usize) < hands.len() {
        mem::replace(&mut hands[d.0 as usize], None)
    } else {
        None
    }
}
