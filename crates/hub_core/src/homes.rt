//! A home between two windows: its devices, and how they stand.
ghost use Rattle.std.specs.Prelude.{◌≡◌, ◌≤◌, IfOk, length};
ghost use Rattle.home_journal.specs.Journals.{IsStateOf};
ghost use Rattle.home_types.specs.Limits.{most_devices};
ghost use Rattle.hub_core.specs.Homes.{AreNew, HomeIsKept};
ghost use Rattle.routine_reader.specs.Rosters.{kinds_of, start_home};
ghost use Rattle.routine_reader.specs.Scripts.{plain_script};
ghost use Rattle.routine_reader.specs.Sound.{IsSound};

use device_states::{Bench, Device};
use home_types::{DeviceNo, Kind, List, NoMemory, World};
use routine_reader::{Script, script_kinds, start_world};
use std::alloc::Global;
use std::marker::Model;

/// A home between its windows: the kinds of its devices, its state, and the devices themselves.
///
/// The type keeps that each device is the one of its number, and, where it is up, stands where the
/// state says.
#[derive(Drop)]
pub struct Home<D: Device> {
    pub(crate) kinds: List<Kind>,
    pub(crate) world: World,
    pub(crate) devices: List<D>,
    pub(crate) opened: u32,
}

impl<D: Device> Model for Home<D> {
    ghost use Rattle.hub_core.specs.Homes.{HomeIsKept, HomeState};

    ghost Value = { HomeState D };

    ghost view = { λ h. record {
      kinds = h.kinds.items;
      world = h.world.devices.items;
      devices = h.devices.items;
      opened = h.opened;
    } };

    ghost invariant = { λ h. HomeIsKept D.shows (record {
      kinds = h.kinds.items;
      world = h.world.devices.items;
      devices = h.devices.items;
      opened = h.opened;
    }) };
}

impl<D: Device> Home<D> {
    /// Builds the home of the script on the bench: every device up at its start.
    ///
    /// Answers `NoMemory` where there is none to be had.
    pub fn build<B: Bench<Dev = D>>(
        alloc: Global,
        bench: &mut B,
        script: &Script,
    ) -> Result<Home<D>, NoMemory>
        requires sound { IsSound (plain_script script.now) }
        ensures kinds { IfOk result (λ home. home.kinds ≡ kinds_of script.now) }
        ensures world { IfOk result (λ home. home.world ≡ start_home script.now) }
        ensures opened { IfOk result (λ home. home.opened ≡ 0) }
        ensures devices { IfOk result
            (λ home. AreNew D.shows script.now.devices.items home.devices) }
    {
        let devices = build_devices(alloc, script, bench)?;
        let world = start_world(alloc, script)?;
        let kinds = script_kinds(alloc, script)?;
        Ok(Home {
            kinds,
            world,
            devices,
            opened: 0,
        })
    }

    /// The state of the home: after the last window, or as the home was built or resumed. A journal
    /// of these kinds keeps it.
    pub fn world(&self) -> &World
        ensures world { result.now.devices.items ≡ self.now.world }
        ensures state { IsStateOf self.now.kinds result.now.devices.items }
    {
        &self.world
    }

    /// How many windows were opened on this home.
    pub fn opened(&self) -> u32
        ensures { result ≡ self.now.opened }
    {
        self.opened
    }

    /// Does nothing. Its contract is what holds of every home.
    pub fn kept_invariant(&self)
        ensures { HomeIsKept D.shows self.now }
    {
        let _ = &self.opened;
    }

    /// The devices, in the order of their numbers.
    pub fn into_devices(self) -> List<D>
        ensures devices { result.items ≡ self.devices }
        ensures kept { HomeIsKept D.shows self }
    {
        let Home {
            kinds: _,
            world: _,
            devices,
            opened: _,
        } = self;
        devices
    }
}

/// Builds the devices of the script on the bench, each at its start.
fn build_devices<B: Bench>(
    alloc: Global,
    script: &Script,
    bench: &mut B,
) -> Result<List<B::Dev>, NoMemory>
    requires few { length script.now.devices.items ≤ most_devices }
    ensures { IfOk result (λ devices. AreNew B.Dev.shows script.now.devices.items devices.items) }
{
    let mut devices = List::new(alloc);
    'texts: for (number, text) in script.devices.as_slice().iter().enumerate() {
        let device = bench.build(
            alloc,
            DeviceNo(number as u16),
            text.start,
            text.downs.as_slice(),
        )?;
        devices.push(device)?;
    }
    Ok(devices)
}
