//! A device: three calls that may die, and what is counted of them.
ghost use Rattle.std.specs.Prelude.{◌≡◌, ◌+◌, ◌≤◌, OnOk, OnErr, IfOk};
ghost use Rattle.device_states.specs.Devices.{MayBeCalled};

use home_types::Value;

/// A device did not answer a call.
#[derive(Clone, Copy, Debug, PartialEq, Eq)]
pub struct Dead;

/// A device of a home.
///
/// It may fail at any call, and each failure raises its count of faults by one. A call asks that
/// its turns, probes and faults are below 2^63, so that no count overflows: its drives are among
/// its turns.
pub trait Device: Drop {
    ghost use Rattle.device_states.specs.Devices.{Shown};

    /// What it shows: its device number; the ranges of calls in which it is down, as it was built
    /// with them, where it tells them; the value at which it stands; how many drives and senses it
    /// has answered; how many of these were drives; how many probes were made of it, whatever it
    /// answered; and how many calls it has failed.
    ghost shows: { Self → Shown };

    /// Drives the device to the value `v`.
    ///
    /// Answers `Dead` where the device fails. Where it stands then is not told.
    fn drive(&mut self, v: Value) -> Result<(), Dead>
        requires room { MayBeCalled (shows self.old) }
        ensures stands { OnOk result ((shows self.new).stands ≡ v) }
        ensures counted { OnOk result ((shows self.new).turns ≡ (shows self.old).turns + 1) }
        ensures driven { OnOk result ((shows self.new).drives ≡ (shows self.old).drives + 1) }
        ensures calm { OnOk result ((shows self.new).faults ≡ (shows self.old).faults) }
        ensures uncounted { OnErr result ((shows self.new).turns ≡ (shows self.old).turns) }
        ensures undriven { OnErr result ((shows self.new).drives ≡ (shows self.old).drives) }
        ensures cause { OnErr result ((shows self.new).faults ≡ (shows self.old).faults + 1) }

        ensures probes { (shows self.new).probes ≡ (shows self.old).probes }
        ensures tag { (shows self.new).tag ≡ (shows self.old).tag }
        ensures plan { (shows self.new).plan ≡ (shows self.old).plan };

    /// Senses the value at which the device stands.
    ///
    /// Answers `Dead` where the device fails. Where it stands then is not told.
    fn sense(&mut self) -> Result<Value, Dead>
        requires room { MayBeCalled (shows self.old) }
        ensures found { IfOk result (λ x. x ≡ (shows self.old).stands) }
        ensures stands { OnOk result ((shows self.new).stands ≡ (shows self.old).stands) }
        ensures counted { OnOk result ((shows self.new).turns ≡ (shows self.old).turns + 1) }
        ensures calm { OnOk result ((shows self.new).faults ≡ (shows self.old).faults) }
        ensures uncounted { OnErr result ((shows self.new).turns ≡ (shows self.old).turns) }
        ensures cause { OnErr result ((shows self.new).faults ≡ (shows self.old).faults + 1) }

        ensures undriven { (shows self.new).drives ≡ (shows self.old).drives }
        ensures probes { (shows self.new).probes ≡ (shows self.old).probes }
        ensures tag { (shows self.new).tag ≡ (shows self.old).tag }
        ensures plan { (shows self.new).plan ≡ (shows self.old).plan };

    /// Asks the device whether it answers.
    ///
    /// Answers `Dead` where the device fails. Where it stands then is not told.
    fn probe(&mut self) -> Result<(), Dead>
        requires room { MayBeCalled (shows self.old) }
        ensures stands { OnOk result ((shows self.new).stands ≡ (shows self.old).stands) }
        ensures calm { OnOk result ((shows self.new).faults ≡ (shows self.old).faults) }
        ensures cause { OnErr result ((shows self.new).faults ≡ (shows self.old).faults + 1) }

        ensures counted { (shows self.new).probes ≡ (shows self.old).probes + 1 }
        ensures turns { (shows self.new).turns ≡ (shows self.old).turns }
        ensures undriven { (shows self.new).drives ≡ (shows self.old).drives }
        ensures tag { (shows self.new).tag ≡ (shows self.old).tag }
        ensures plan { (shows self.new).plan ≡ (shows self.old).plan };

    /// How many drives and senses the device has answered.
    fn turns(&self) -> u64
        ensures { result ≡ (shows self.now).turns };

    /// How many drives the device has answered. They are among its turns.
    fn drives(&self) -> u64
        ensures told { result ≡ (shows self.now).drives }
        ensures few { (shows self.now).drives ≤ (shows self.now).turns };

    /// How many probes were made of the device, whatever it answered.
    fn probes(&self) -> u64
        ensures { result ≡ (shows self.now).probes };

    /// How many calls the device has failed.
    fn faults(&self) -> u64
        ensures { result ≡ (shows self.now).faults };
}
