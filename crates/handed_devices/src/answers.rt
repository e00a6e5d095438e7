//! The answer to a call that was made elsewhere, handed in for the grip with which the device is
//! out.
ghost use Rattle.std.specs.Prelude.{◌≡◌, ◌+◌, ◌≤◌, IfErr, IfOk, false, true};
ghost use Rattle.device_gate.specs.Calls.{answered_drives, answered_turns, failed, may_tell, probed};
ghost use Rattle.device_gate.specs.Grips.{WasCalled};
ghost use Rattle.device_states.specs.Devices.{HasRoom};
ghost use Rattle.handed_devices.specs.Answers.{known_value};

use crate::devices::HandedDevice;
use device_gate::{Done, Grip, Ready, Slip, Task, Told};
use device_states::Device;
use home_types::Value;

/// Whether the device of the slip may tell this of the task: of a drive or a probe that it worked,
/// of a sense the value at which it stood, and of each of them that it died.
pub fn may_tell(slip: Slip, task: Task, told: Told) -> bool
    ensures { result ≡ may_tell task slip.stood told }
{
    match (task, told) {
        (_, Told::Died) => true,
        (Task::Drive(_), Told::Worked) => true,
        (Task::Sense, Told::Sensed(found)) => found == slip.stood,
        (Task::Probe(_), Told::Worked) => true,
        (_, _) => false,
    }
}

/// Hands in what the device of the grip told elsewhere, for its one task: for a probe with a value
/// to restore that it answered both the probe and the drive, or that it did not answer one of them.
///
/// An answer that the device may not tell is refused, and the grip comes back as it is.
pub fn hand_in(
    grip: Grip<HandedDevice, Ready>,
    told: Told,
) -> Result<Grip<HandedDevice, Done>, Grip<HandedDevice, Ready>>
    ensures told { IfOk result (λ done. done.stage.told ≡ told) }
    ensures slip { IfOk result (λ done. done.slip ≡ grip.slip) }
    ensures task { IfOk result (λ done. done.task ≡ grip.task) }
    ensures value { IfOk result
        (λ done. done.device.value ≡ known_value told grip.task grip.slip.stood) }
    ensures same { IfErr result (λ back. back ≡ grip) }
    ensures refused { IfErr result (λ back. may_tell grip.task grip.slip.stood told ≡ false) }
{
    let (slip, task) = (grip.slip(), grip.task());
    if !may_tell(slip, task, told) {
        return Err(grip);
    }
    grip.kept_invariant();
    Ok(grip.answered(after_call(slip, task, told), told))
}

/// The device of the slip, as it is after its task was done elsewhere and it told this of it.
fn after_call(slip: Slip, task: Task, told: Told) -> HandedDevice
    requires room { HasRoom slip.turns (slip.probes + 1) slip.faults }
    requires drives { slip.drives ≤ slip.turns }
    requires fits { may_tell task slip.stood told ≡ true }
    ensures called { WasCalled told task slip (⟦<HandedDevice as Device>⟧.shows result) }
    ensures value { result.value ≡ known_value told task slip.stood }
{
    HandedDevice {
        number: slip.device,
        value: known_value(task, slip.stood, told),
        turns: slip.turns + answered(task, told),
        drives: slip.drives + driven(task, told),
        probes: slip.probes + probed(task),
        faults: slip.faults + failed(told),
    }
}

/// Where a device that stood at the value is taken to stand: as the task leaves it, and as before
/// where a call died, since nothing tells then.
fn known_value(task: Task, stood: Value, told: Told) -> Value
    ensures { result ≡ known_value told task stood }
{
    match (task, told) {
        (_, Told::Died) | (Task::Sense, _) | (Task::Probe(None), _) => stood,
        (Task::Drive(value), _) | (Task::Probe(Some(value)), _) => value,
    }
}

/// The drives and senses that the device answered.
fn answered(task: Task, told: Told) -> u64
    ensures { result ≡ answered_turns task told }
{
    match (task, told) {
        (_, Told::Died) | (Task::Probe(None), _) => 0,
        (_, _) => 1,
    }
}

/// The drives that the device answered.
fn driven(task: Task, told: Told) -> u64
    ensures { result ≡ answered_drives task told }
{
    match (task, told) {
        (_, Told::Died) | (Task::Sense, _) | (Task::Probe(None), _) => 0,
        (Task::Drive(_), _) | (Task::Probe(Some(_)), _) => 1,
    }
}

/// The probes that were made.
fn probed(task: Task) -> u64
    ensures { result ≡ probed task }
{
    match task {
        Task::Drive(_) | Task::Sense => 0,
        Task::Probe(_) => 1,
    }
}

/// The calls that failed.
fn failed(told: Told) -> u64
    ensures { result ≡ failed told }
{
    match told {
        Told::Worked | Told::Sensed(_) => 0,
        Told::Died => 1,
    }
}
