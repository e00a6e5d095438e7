//! Answers to calls that were made elsewhere, for the devices that are out.
ghost use Rattle.std.specs.Prelude.{◌≡◌, IfErr, IfOk, Some, slice_get};
ghost use Rattle.device_gate.specs.Grips.{Gripped};
ghost use Rattle.device_gate.specs.Places.{kept_of};
ghost use Rattle.device_gate.specs.declared.grips.Done.{Done};
ghost use Rattle.handed_devices.specs.declared.devices.HandedDevice.{HandedDevice};
ghost use Rattle.history_book.specs.Sealed.{StaysSealed};
ghost use Rattle.hub_core.specs.HubCalls.{SameWindow};
ghost use Rattle.hub_core.specs.OpenHubs.{configuration_of};
ghost use Rattle.hub_table.specs.Answers.{HasComeBack, refusal, unfit_for};
ghost use Rattle.lock_leasing.specs.Configurations.{read_of};

use crate::hands::{lift, look};
use crate::homecomings::take_home;
use crate::tables::Table;
use crate::told::NotTaken;
use device_gate::{Slip, Task, Told};
use handed_devices::{HandedDevice, hand_in, may_tell};
use history_book::Made;
use home_types::DeviceNo;

impl Table<HandedDevice> {
    /// Hands in what the device told elsewhere to the call with this ticket, and gives it back at
    /// this moment, in ms, or at the last one where that is later.
    ///
    /// Answers the entries that it makes, or why it is not taken: then nothing changes, and a
    /// device that is out stays out. Takes no memory.
    pub fn answer(
        &mut self,
        d: DeviceNo,
        ticket: u64,
        told: Told,
        moment: u64,
    ) -> Result<Made, NotTaken>
        ensures answered { IfOk result
            (λ made. HasComeBack self.old d.0 ticket told moment made self.new) }
        ensures refused { IfErr result
            (λ why. refusal (kept_of (slice_get self.old.places d.0)) ticket told ≡ Some why) }
        ensures same { IfErr result (λ _. self.new ≡ self.old) }
        ensures sealed { IfOk result (λ _. StaysSealed (read_of (configuration_of self.old))
            (read_of (configuration_of self.new))) }
        ensures window { IfOk result (λ _. SameWindow self.old self.new) }
    {
        if let Some(why) = refusal(look(&self.grips, d), ticket, told) {
            return Err(why);
        }
        match lift(&mut self.grips, d) {
            Some(grip) => match hand_in(grip, told) {
                Ok(done) => Ok(take_home(&mut self.hub, done, moment)),
                Err(_back) => unreachable!(),
            },
            None => unreachable!(),
        }
    }
}

/// Why this is no answer to what the device is out with, `None` where it is one.
fn refusal(out: Option<(Slip, Task)>, ticket: u64, told: Told) -> Option<NotTaken>
    ensures { result ≡ refusal out ticket told }
{
    match out {
        Some((slip, task)) => {
            if slip.ticket != ticket {
                Some(NotTaken::NotOut)
            } else if may_tell(slip, task, told) {
                None
            } else {
                Some(unfit_for(task, told))
            }
        }
        None => Some(NotTaken::NotOut),
    }
}

/// What is wrong with an answer to the task that the device may not tell.
fn unfit_for(task: Task, told: Told) -> NotTaken
    ensures { result ≡ unfit_for task told }
{
    match (task, told) {
        (Task::Sense, Told::Sensed(_)) => NotTaken::Differs,
        (_, _) => NotTaken::OtherKind,
    }
}
