//! A device that never fails, and its bench.
ghost use Rattle.std.specs.Prelude.{◌≤◌};

use crate::benches::Bench;
use crate::devices::{Dead, Device};
use home_types::{DeviceNo, NoMemory, Value};
use std::alloc::Global;

/// A device in memory that never fails. It tells no plan.
#[derive(Debug, Drop)]
pub struct CalmDevice {
    number: DeviceNo,
    value: Value,
    answered: u64,
    driven: u64,
    probed: u64,
    ghost few_drives: { driven ≤ answered },
}

impl Device for CalmDevice {
    ghost use Rattle.std.specs.Prelude.{None};

    ghost shows = { λ s. record {
      tag = s.number.0;
      plan = None;
      stands = s.value;
      turns = s.answered;
      drives = s.driven;
      probes = s.probed;
      faults = 0;
    } };

    fn drive(&mut self, v: Value) -> Result<(), Dead> {
        self.value = v;
        self.answered += 1;
        self.driven += 1;
        Ok(())
    }

    fn sense(&mut self) -> Result<Value, Dead> {
        self.answered += 1;
        Ok(self.value)
    }

    fn probe(&mut self) -> Result<(), Dead> {
        self.probed += 1;
        Ok(())
    }

    fn turns(&self) -> u64 {
        self.answered
    }

    fn drives(&self) -> u64 {
        self.driven
    }

    fn probes(&self) -> u64 {
        self.probed
    }

    fn faults(&self) -> u64 {
        0
    }
}

/// The bench of devices that never fail.
#[derive(Clone, Copy, Debug, PartialEq, Eq)]
pub struct CalmBench;

impl Bench for CalmBench {
    type Dev = CalmDevice;

    fn build(
        &mut self,
        _alloc: Global,
        d: DeviceNo,
        start: Value,
        _downs: &[(u32, u32)],
    ) -> Result<CalmDevice, NoMemory> {
        Ok(CalmDevice {
            number: d,
            value: start,
            answered: 0,
            driven: 0,
            probed: 0,
        })
    }
}
