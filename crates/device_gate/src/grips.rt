//! The grip of a device: made ready for one task, done by one call, spent by giving it back.
ghost use Rattle.std.specs.Prelude.{◌≡◌, ◌+◌, IfSome, IsTrue};
ghost use Rattle.device_states.specs.Devices.{MayBeCalled, MayBeProbed, Shown};
ghost use Rattle.device_gate.specs.Calls.{answered_drives, answered_turns, failed, may_tell, probed, stands_after};
ghost use Rattle.device_gate.specs.Grips.{Gripped, IsAsLeft, WasCalled};
ghost use Rattle.device_gate.specs.declared.slips.Slip.{Slip};
ghost use Rattle.device_gate.specs.declared.slips.Task.{Task};

use crate::slips::{Slip, Task, Told};
use device_states::{Dead, Device};
use home_types::Value;
use std::marker::Model;

/// How far a grip has come: `Ready` or `Done`.
pub trait Stage {
    /// How the device is by what it shows, against its task and slip.
    ghost fits: { Self → Task → Slip → Shown → Type 0 };
}

/// The stage of a grip whose call is still to be made: its device is as it left.
#[derive(Drop)]
pub struct Ready;

/// The stage of a grip whose call was made, with what the device told.
#[derive(Drop)]
pub struct Done {
    told: Told,
}

impl Stage for Ready {
    ghost fits = { λ _ task slip shown. IsAsLeft task slip shown };
}

impl Stage for Done {
    ghost fits = { λ done task slip shown. WasCalled done.told task slip shown };
}

/// A device that is out, with its slip and what is to be done with it.
///
/// A grip cannot be dropped: a ready one is spent by `act`, or by `answered` where its call was
/// made elsewhere, a done one by the gate that takes its device in. Its type keeps how the device
/// is: as it left while the grip is ready, and as the call and its answer say when it is done.
pub struct Grip<D: Device, S: Stage> {
    device: D,
    slip: Slip,
    task: Task,
    stage: S,
}

impl<D: Device, S: Stage> Model for Grip<D, S> {
    ghost use Rattle.device_gate.specs.Grips.{Gripped};

    ghost Value = { Gripped D S };

    ghost view = { λ g.
        record { device = g.device; slip = g.slip; task = g.task; stage = g.stage } };

    ghost invariant = { λ g. S.fits g.stage g.task g.slip (D.shows g.device) };
}

impl<D: Device, S: Stage> Grip<D, S> {
    /// What was known of the device as it left.
    pub fn slip(&self) -> Slip
        ensures { result ≡ self.now.slip }
    {
        self.slip
    }

    /// What is to be done with the device, or was.
    pub fn task(&self) -> Task
        ensures { result ≡ self.now.task }
    {
        self.task
    }
}

impl<D: Device> Grip<D, Ready> {
    /// A grip of a device that is as the slip says.
    #[inline(always)]
    pub(crate) fn new(device: D, slip: Slip, task: Task) -> Grip<D, Ready>
        requires { IsAsLeft task slip (D.shows device) }
        ensures device { result.device ≡ device }
        ensures slip { result.slip ≡ slip }
        ensures task { result.task ≡ task }
    {
        Grip {
            device,
            slip,
            task,
            stage: Ready,
        }
    }

    /// Does nothing. Its contract is that the device is as its slip says, with room for what the
    /// task does to its counts.
    pub fn kept_invariant(&self)
        ensures { IsAsLeft self.now.task self.now.slip (D.shows self.now.device) }
    {
        let _ = &self.slip;
    }

    /// Takes the answer to a call that was made elsewhere: what the device told, and the device as
    /// it is after that.
    ///
    /// The device that the grip held is let go. The grip makes no call.
    pub fn answered(self, device: D, told: Told) -> Grip<D, Done>
        requires called { WasCalled told self.task self.slip (D.shows device) }
        requires plan { (D.shows device).plan ≡ (D.shows self.device).plan }
        ensures told { result.stage.told ≡ told }
        ensures slip { result.slip ≡ self.slip }
        ensures task { result.task ≡ self.task }
        ensures device { result.device ≡ device }
        ensures tag { (D.shows result.device).tag ≡ (D.shows self.device).tag }
        ensures plan { (D.shows result.device).plan ≡ (D.shows self.device).plan }
    {
        let Grip {
            device: left,
            slip,
            task,
            stage: Ready,
        } = self;
        drop(left);
        Grip {
            device,
            slip,
            task,
            stage: Done { told },
        }
    }

    /// Makes the device call: one, and for a probe that is answered by a device counted down also
    /// the drive that restores its value.
    #[inline(always)]
    pub fn act(self) -> Grip<D, Done>
        ensures slip { result.slip ≡ self.slip }
        ensures task { result.task ≡ self.task }
        ensures tag { (D.shows result.device).tag ≡ (D.shows self.device).tag }
        ensures plan { (D.shows result.device).plan ≡ (D.shows self.device).plan }
    {
        let Grip {
            mut device,
            slip,
            task,
            stage: Ready,
        } = self;
        let told = call(&mut device, task);
        Grip {
            device,
            slip,
            task,
            stage: Done { told },
        }
    }
}

impl<D: Device> Grip<D, Done> {
    /// What the device told.
    pub fn told(&self) -> Told
        ensures { result ≡ self.now.stage.told }
    {
        self.stage.told
    }

    /// The device, and how it is after the call.
    pub(crate) fn spent(self) -> D
        ensures device { result ≡ self.device }
        ensures called { WasCalled self.stage.told self.task self.slip (D.shows self.device) }
    {
        let Grip {
            device,
            slip: _,
            task: _,
            stage: Done { told: _ },
        } = self;
        device
    }
}

/// Does the task with the device.
#[inline(always)]
fn call<D: Device>(device: &mut D, task: Task) -> Told
    requires room { MayBeProbed (D.shows device.old) }
    ensures told { IsTrue (may_tell task (D.shows device.old).stands result) }
    ensures stands { IfSome (stands_after task (D.shows device.old).stands result)
        (λ v. (D.shows device.new).stands ≡ v) }
    ensures turns { (D.shows device.new).turns
        ≡ (D.shows device.old).turns + answered_turns task result }
    ensures drives { (D.shows device.new).drives
        ≡ (D.shows device.old).drives + answered_drives task result }
    ensures probes { (D.shows device.new).probes ≡ (D.shows device.old).probes + probed task }
    ensures faults { (D.shows device.new).faults ≡ (D.shows device.old).faults + failed result }
    ensures tag { (D.shows device.new).tag ≡ (D.shows device.old).tag }
    ensures plan { (D.shows device.new).plan ≡ (D.shows device.old).plan }
{
    match task {
        Task::Drive(value) => drive(device, value),
        Task::Sense => match device.sense() {
            Ok(value) => Told::Sensed(value),
            Err(Dead) => Told::Died,
        },
        Task::Probe(restored) => probe(device, restored),
    }
}

/// Drives the device to the value.
#[inline(always)]
fn drive<D: Device>(device: &mut D, value: Value) -> Told
    requires room { MayBeCalled (D.shows device.old) }
    ensures told { IsTrue (may_tell (Task.Drive value) (D.shows device.old).stands result) }
    ensures stands { IfSome (stands_after (Task.Drive value) (D.shows device.old).stands result)
        (λ v. (D.shows device.new).stands ≡ v) }
    ensures turns { (D.shows device.new).turns
        ≡ (D.shows device.old).turns + answered_turns (Task.Drive value) result }
    ensures drives { (D.shows device.new).drives
        ≡ (D.shows device.old).drives + answered_drives (Task.Drive value) result }
    ensures probes { (D.shows device.new).probes ≡ (D.shows device.old).probes }
    ensures faults { (D.shows device.new).faults ≡ (D.shows device.old).faults + failed result }
    ensures tag { (D.shows device.new).tag ≡ (D.shows device.old).tag }
    ensures plan { (D.shows device.new).plan ≡ (D.shows device.old).plan }
{
    match device.drive(value) {
        Ok(()) => Told::Worked,
        Err(Dead) => Told::Died,
    }
}

/// Probes the device, and where it answers drives it to the value that is to be restored.
fn probe<D: Device>(device: &mut D, restored: Option<Value>) -> Told
    requires room { MayBeProbed (D.shows device.old) }
    ensures told { IsTrue (may_tell (Task.Probe restored) (D.shows device.old).stands result) }
    ensures stands { IfSome (stands_after (Task.Probe restored) (D.shows device.old).stands result)
        (λ v. (D.shows device.new).stands ≡ v) }
    ensures turns { (D.shows device.new).turns
        ≡ (D.shows device.old).turns + answered_turns (Task.Probe restored) result }
    ensures drives { (D.shows device.new).drives
        ≡ (D.shows device.old).drives + answered_drives (Task.Probe restored) result }
    ensures probes { (D.shows device.new).probes ≡ (D.shows device.old).probes + 1 }
    ensures faults { (D.shows device.new).faults ≡ (D.shows device.old).faults + failed result }
    ensures tag { (D.shows device.new).tag ≡ (D.shows device.old).tag }
    ensures plan { (D.shows device.new).plan ≡ (D.shows device.old).plan }
{
    match (device.probe(), restored) {
        (Err(Dead), _) => Told::Died,
        (Ok(()), None) => Told::Worked,
        (Ok(()), Some(value)) => drive(device, value),
    }
}
