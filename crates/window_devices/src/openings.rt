//! The devices of a window that opens: each is home, and known as it is.
ghost use Rattle.std.specs.Prelude.{IfErr, IfOk, None, Some, length, replicate, slice_get, ◌<◌, ◌≡◌, ◌≤◌};
ghost use Rattle.device_gate.specs.Places.{AreNumbered, all_home};
ghost use Rattle.home_types.specs.HomeStates.{stand_at};
ghost use Rattle.window_devices.specs.KnownDevices.{AreKnown, IsRoomFor, known_first};

use crate::checkouts::Checkouts;
use crate::known::{DeviceCallCounts, DeviceProgress, NO_EVENTS};
use device_gate::Gate;
use device_states::Device;
use home_types::{DeviceNo, List, NoMemory, World};
use lock_leasing::Purpose;
use std::alloc::Global;

impl<D: Device> Checkouts<D> {
    /// The devices of a home that is in this state, all of them home. Each has so many rounds of
    /// probes, and none of so many runs holds one.
    ///
    /// Takes all of its memory. Answers `NoMemory` where there is none to be had, and gives the
    /// devices back.
    pub fn open(
        alloc: Global,
        devices: List<D>,
        world: &World,
        runs: u64,
        rounds: u32,
    ) -> Result<Checkouts<D>, (List<D>, NoMemory)>
        requires numbers { AreNumbered D.shows devices.items }
        requires size { length devices.items ≤ length world.now.devices.items }
        ensures places { IfOk result (λ checkouts. checkouts.gate.places ≡ all_home devices.items) }
        ensures tickets { IfOk result (λ checkouts. checkouts.gate.tickets ≡ 0) }
        ensures known { IfOk result (λ checkouts. AreKnown D.shows devices.items
            world.now.devices.items
            rounds (length devices.items) checkouts.known.items) }
        ensures held_tokens { IfOk result
            (λ checkouts. checkouts.held_tokens.items ≡ replicate runs None) }
        ensures refused { IfErr result (λ refused. refused.0 ≡ devices) }
    {
        let Ok(known) = known_devices(alloc, &devices, world, rounds) else {
            return Err((devices, NoMemory));
        };
        let Ok(held_tokens) = no_held_tokens(alloc, runs) else {
            drop(known);
            return Err((devices, NoMemory));
        };
        match Gate::open(alloc, devices) {
            Ok(gate) => Ok(Checkouts {
                gate,
                known,
                held_tokens,
            }),
            Err(refused) => {
                drop(known);
                drop(held_tokens);
                Err(refused)
            }
        }
    }
}

/// What is known of each device of a home that is in this state.
fn known_devices<D: Device>(
    alloc: Global,
    devices: &List<D>,
    world: &World,
    rounds: u32,
) -> Result<List<DeviceProgress>, NoMemory>
    requires size { length devices.now.items ≤ length world.now.devices.items }
    ensures { IfOk result
        (λ known. AreKnown D.shows devices.now.items world.now.devices.items rounds
        (length devices.now.items) known.items) }
{
    let mut known = roomy_list(alloc, devices.len())?;
    'devices: for at in 0..devices.len() {
        known.push(known_device(devices, world, at, rounds))?;
    }
    Ok(known)
}

/// What is known of the device of a home that is in this state.
fn known_device<D: Device>(devices: &List<D>, world: &World, at: u64, rounds: u32) -> DeviceProgress
    requires there { at < length devices.now.items }
    requires size { length devices.now.items ≤ length world.now.devices.items }
    ensures { (device : D) → slice_get devices.now.items at ≡ Some device
        → result ≡ known_first rounds (stand_at world.now.devices.items at).value
        (D.shows device).turns (D.shows device).probes (D.shows device).faults }
{
    let device = devices.get(at).unwrap();
    let stand = world.devices.get(at).unwrap();
    DeviceProgress {
        held: stand.value,
        probes_left: rounds,
        purpose: Purpose::Commands(0),
        at_opening: DeviceCallCounts {
            turns: device.turns(),
            probes: device.probes(),
            faults: device.faults(),
        },
        events: NO_EVENTS,
    }
}

/// None of so many runs holds a grip.
fn no_held_tokens(alloc: Global, runs: u64) -> Result<List<Option<DeviceNo>>, NoMemory>
    ensures { IfOk result (λ held_tokens. held_tokens.items ≡ replicate runs None) }
{
    let mut held_tokens = roomy_list(alloc, runs)?;
    'runs: for _ in 0..runs {
        held_tokens.push(None)?;
    }
    Ok(held_tokens)
}

/// An empty list with room for so many items and no more.
pub fn roomy_list<T: Drop>(alloc: Global, n: u64) -> Result<List<T>, NoMemory>
    ensures { IfOk result (λ list. IsRoomFor list n) }
{
    let mut list = List::new(alloc);
    list.reserve(n)?;
    Ok(list)
}
