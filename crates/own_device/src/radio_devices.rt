//! A device type of one's own, which fails, and its bench.
ghost use Rattle.std.specs.Prelude.{◌≡◌, ◌+◌, ◌<◌, ◌≤◌, ◌^◌, OnErr, OnOk};

use device_states::{Bench, Dead, Device};
use home_types::{DeviceNo, NoMemory, Value};
use std::alloc::{AllocError, Global};
use std::cell::Cell;
use std::rc::Rc;

/// How many answers a link carries between two that it loses.
const CARRIED: u32 = 2;

/// Where the thing on the wall stands that a device moves. It outlives the device, and no hub sees
/// it.
pub type Thing = Rc<Cell<Value>>;

/// A device behind a radio link that loses each third answer.
///
/// The calls themselves arrive: a drive whose answer is lost has moved the device all the same.
#[derive(Drop)]
pub struct RadioDevice {
    number: DeviceNo,
    value: Value,
    thing: Thing,
    turns: u64,
    drives: u64,
    probes: u64,
    faults: u64,
    until_loss: u32,
    ghost few_drives: { drives ≤ turns },
}

impl RadioDevice {
    /// Waits for the answer to a call, and counts a fault where the link loses it.
    fn hear(&mut self) -> Result<(), Dead>
        requires room { self.old.faults < 2 ^ 63 }
        ensures heard { OnOk result
            (self.new ≡ record self.old { until_loss = self.new.until_loss }) }
        ensures lost { OnErr result (self.new ≡ record self.old {
          until_loss = self.new.until_loss;
          faults = self.old.faults + 1;
        }) }
    {
        if self.until_loss == 0 {
            self.until_loss = CARRIED;
            self.faults += 1;
            return Err(Dead);
        }
        self.until_loss -= 1;
        Ok(())
    }
}

impl Device for RadioDevice {
    ghost use Rattle.std.specs.Prelude.{None};

    ghost shows = { λ s. record {
      tag = s.number.0;
      plan = None;
      stands = s.value;
      turns = s.turns;
      drives = s.drives;
      probes = s.probes;
      faults = s.faults;
    } };

    fn drive(&mut self, v: Value) -> Result<(), Dead> {
        self.value = v;
        self.thing.set(v);
        self.hear()?;
        self.turns += 1;
        self.drives += 1;
        Ok(())
    }

    fn sense(&mut self) -> Result<Value, Dead> {
        self.hear()?;
        self.turns += 1;
        Ok(self.value)
    }

    fn probe(&mut self) -> Result<(), Dead> {
        self.probes += 1;
        self.hear()
    }

    fn turns(&self) -> u64 {
        self.turns
    }

    fn drives(&self) -> u64 {
        self.drives
    }

    fn probes(&self) -> u64 {
        self.probes
    }

    fn faults(&self) -> u64 {
        self.faults
    }
}

/// The bench on which radio devices are made. They tell no plan.
///
/// It puts a thing on the wall with its first device, at the device's start. Each later device of
/// the number finds the thing where it stands.
#[derive(Drop)]
pub struct RadioBench {
    things: Vec<Thing>,
}

impl RadioBench {
    /// A bench with nothing on the wall.
    pub fn new(alloc: Global) -> RadioBench {
        RadioBench {
            things: Vec::new(alloc),
        }
    }

    /// The things on the wall, in the order of their devices' numbers.
    pub fn things(&self) -> &[Thing] {
        self.things.as_slice()
    }

    /// The thing of this number, which is put up at `start` if it is not there.
    fn thing(&mut self, alloc: Global, d: DeviceNo, start: Value) -> Result<Thing, AllocError> {
        if let Some(thing) = self.things.get(d.0 as usize) {
            return thing.clone();
        }
        let thing = Rc::new(alloc, Cell::new(start))?;
        self.things.push(thing.clone()?)?;
        Ok(thing)
    }
}

impl Bench for RadioBench {
    type Dev = RadioDevice;

    fn build(
        &mut self,
        alloc: Global,
        d: DeviceNo,
        start: Value,
        _downs: &[(u32, u32)],
    ) -> Result<RadioDevice, NoMemory> {
        let Ok(thing) = self.thing(alloc, d, start) else {
            return Err(NoMemory);
        };
        Ok(RadioDevice {
            number: d,
            value: start,
            thing,
            turns: 0,
            drives: 0,
            probes: 0,
            faults: 0,
            until_loss: CARRIED,
        })
    }
}
