//! What a grip was handed out for, and what its call told.
ghost use Rattle.std.specs.Prelude.{◌≡◌};
ghost use Rattle.device_gate.specs.Calls.{answer_told, has_died, held_after, is_counted_up, value_after};

use home_types::{Answer, DeviceNo, Value};

/// What was known of a device when it left the gate.
#[derive(Clone, Copy, Debug, PartialEq, Eq)]
pub struct Slip {
    /// The number of the grip, from 1 in each gate.
    pub ticket: u64,
    pub device: DeviceNo,
    /// The run for which the device is out, or 0 for the detector.
    pub maker: u32,
    /// The value at which the device stood.
    pub stood: Value,
    /// Its drives and senses that had worked.
    pub turns: u64,
    /// Those of them that were drives.
    pub drives: u64,
    /// Its probes.
    pub probes: u64,
    /// Its faults.
    pub faults: u64,
}

/// What a grip is to do with its device.
#[derive(Clone, Copy, Debug, PartialEq, Eq)]
pub enum Task {
    /// Drive it to the value.
    Drive(Value),
    /// Sense its value.
    Sense,
    /// Probe it; where it is counted down and answers, drive it to the value.
    Probe(Option<Value>),
}

impl Task {
    /// Whether the device is counted up as it leaves.
    pub fn is_counted_up(self) -> bool
        ensures { result ≡ is_counted_up self }
    {
        match self {
            Task::Drive(_) | Task::Sense | Task::Probe(None) => true,
            Task::Probe(Some(_)) => false,
        }
    }

    /// Where a device stands that stood at the value `stood`, once the task has worked.
    pub fn value_after(self, stood: Value) -> Value
        ensures { result ≡ value_after self stood }
    {
        match self {
            Task::Drive(value) | Task::Probe(Some(value)) => value,
            Task::Sense | Task::Probe(None) => stood,
        }
    }

    /// Where a device is known to stand that has come home and told this, and stood at the value
    /// `held` before: as the task leaves it, and as before where a call died.
    pub fn held_after(self, told: Told, held: Value) -> Value
        ensures { result ≡ held_after told self held }
    {
        if told.died() {
            held
        } else {
            self.value_after(held)
        }
    }
}

/// What the device told a grip.
#[derive(Clone, Copy, Debug, PartialEq, Eq)]
pub enum Told {
    /// The drive, or the probe with its drive, worked.
    Worked,
    /// The sense found this value.
    Sensed(Value),
    /// A call did not answer.
    Died,
}

impl Told {
    /// Whether a call died.
    pub fn died(self) -> bool
        ensures { result ≡ has_died self }
    {
        match self {
            Told::Died => true,
            Told::Worked | Told::Sensed(_) => false,
        }
    }

    /// The answer to a command whose device told this.
    pub fn answer(self) -> Answer
        ensures { result ≡ answer_told self }
    {
        match self {
            Told::Worked => Answer::Fine,
            Told::Sensed(found) => Answer::Found(found),
            Told::Died => Answer::Down,
        }
    }
}
