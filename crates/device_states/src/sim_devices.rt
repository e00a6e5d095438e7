//! A simulated device, which dies in the calls that its plan lists, and its bench.
ghost use Rattle.std.specs.Prelude.{◌≡◌, ◌<◌, ◌^◌, IfOk, OnErr, OnOk};
ghost use Rattle.device_states.specs.Devices.{HasRoom};

use crate::benches::Bench;
use crate::devices::{Dead, Device};
use home_types::{DeviceNo, List, NoMemory, Value};
use std::alloc::Global;
use std::boxed::Box;
use std::marker::Model;

/// A device in memory that is down in calls of listed numbers. It tells its plan.
///
/// Its calls of all three kinds are numbered together, from 1. A call that dies leaves the device
/// where it stands.
#[derive(Drop)]
pub struct SimDevice {
    parts: Box<SimParts>,
}

/// What a simulated device keeps. It stands in a box, since a device goes from hand to hand at each
/// call.
#[derive(Drop)]
struct SimParts {
    number: DeviceNo,
    // The device is down from the first call of a pair to before the second.
    downs: List<(u32, u32)>,
    value: Value,
    turns: u64,
    // How many of the turns were drives.
    drives: u64,
    probes: u64,
    // How many of the probes the device has answered.
    answered: u64,
    faults: u64,
}

impl Model for SimDevice {
    ghost use Rattle.std.specs.Prelude.{◌+◌, ◌≤◌};
    ghost use Rattle.device_states.specs.SimDevices.{SimState};

    ghost Value = { SimState };

    // Each call was answered or has died.
    ghost view = { λ s. record {
      tag = s.parts.value.number.0;
      plan = s.parts.value.downs.items;
      stands = s.parts.value.value;
      calls = s.parts.value.turns + s.parts.value.answered + s.parts.value.faults;
      turns = s.parts.value.turns;
      drives = s.parts.value.drives;
      probes = s.parts.value.probes;
      faults = s.parts.value.faults;
    } };

    ghost invariant = { λ s. (s.parts.value.answered ≤ s.parts.value.probes)
        × (s.parts.value.drives ≤ s.parts.value.turns) };
}

impl SimDevice {
    ghost use Rattle.device_states.specs.SimDevices.{dies_next, died, next_call_answer};

    // Whether the next call dies.
    fn is_down(&self) -> bool
        ensures { result ≡ dies_next self.now }
    {
        // No range reaches to 2^64 - 1, so a greater number may count as that one.
        let call = self
            .parts
            .turns
            .saturating_add(self.parts.answered)
            .saturating_add(self.parts.faults)
            .saturating_add(1);
        self.parts
            .downs
            .as_slice()
            .iter()
            .any(|range| range.0 as u64 <= call && call < range.1 as u64)
    }

    // Counts the fault of the next call where it dies.
    fn fail_if_down(&mut self) -> Result<(), Dead>
        requires { self.old.faults < 2 ^ 63 }
        ensures answer { result ≡ next_call_answer self.old }
        ensures down { OnErr result (self.new ≡ died self.old) }
        ensures up { OnOk result (self.new ≡ self.old) }
    {
        if self.is_down() {
            self.parts.faults += 1;
            return Err(Dead);
        }
        Ok(())
    }
}

impl Device for SimDevice {
    ghost use Rattle.std.specs.Prelude.{Some};
    ghost use Rattle.device_states.specs.SimDevices.{after_drive, after_probe, after_sense, next_call_answer, sense_answer};

    ghost shows = { λ s. record {
      tag = s.tag;
      plan = Some s.plan;
      stands = s.stands;
      turns = s.turns;
      drives = s.drives;
      probes = s.probes;
      faults = s.faults;
    } };

    fn drive(&mut self, v: Value) -> Result<(), Dead>
        requires room { HasRoom self.old.turns self.old.probes self.old.faults }
        ensures answer { result ≡ next_call_answer self.old }
        ensures after { self.new ≡ after_drive self.old v }
    {
        self.fail_if_down()?;
        self.parts.value = v;
        self.parts.turns += 1;
        self.parts.drives += 1;
        Ok(())
    }

    fn sense(&mut self) -> Result<Value, Dead>
        requires room { HasRoom self.old.turns self.old.probes self.old.faults }
        ensures answer { result ≡ sense_answer self.old }
        ensures after { self.new ≡ after_sense self.old }
    {
        self.fail_if_down()?;
        self.parts.turns += 1;
        Ok(self.parts.value)
    }

    fn probe(&mut self) -> Result<(), Dead>
        requires room { HasRoom self.old.turns self.old.probes self.old.faults }
        ensures answer { result ≡ next_call_answer self.old }
        ensures after { self.new ≡ after_probe self.old }
    {
        self.parts.probes += 1;
        self.fail_if_down()?;
        self.parts.answered += 1;
        Ok(())
    }

    fn turns(&self) -> u64 {
        self.parts.turns
    }

    fn drives(&self) -> u64 {
        self.parts.drives
    }

    fn probes(&self) -> u64 {
        self.parts.probes
    }

    fn faults(&self) -> u64 {
        self.parts.faults
    }
}

/// The bench of simulated devices. A device takes memory for itself and for a copy of its ranges,
/// so building one may answer `NoMemory`.
#[derive(Clone, Copy, Debug, PartialEq, Eq)]
pub struct SimBench;

impl Bench for SimBench {
    ghost use Rattle.device_states.specs.SimDevices.{fresh_device};

    type Dev = SimDevice;

    fn build(
        &mut self,
        alloc: Global,
        d: DeviceNo,
        start: Value,
        downs: &[(u32, u32)],
    ) -> Result<SimDevice, NoMemory>
        ensures fresh { IfOk result (λ device. device ≡ fresh_device d.0 start downs.now) }
    {
        let parts = SimParts {
            number: d,
            downs: List::of(alloc, downs)?,
            value: start,
            turns: 0,
            drives: 0,
            probes: 0,
            answered: 0,
            faults: 0,
        };
        match Box::new(alloc, parts) {
            Ok(parts) => Ok(SimDevice { parts }),
            Err(_) => Err(NoMemory),
        }
    }
}
