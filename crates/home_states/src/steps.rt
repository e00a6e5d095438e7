//! The steps of an open window, and what is asked of it.
ghost use Rattle.std.specs.Prelude.{◌≡◌, IfErr, IfNone, IfOk, IfSome, IsTrue};
ghost use Rattle.home_states.specs.LiveHomes.{IsBetweenWindows, IsWindowOpen, hub_in};
ghost use Rattle.home_states.specs.Rebuilt.{ProbesInOrder, StepsInOrder, sends_no_probe};
ghost use Rattle.home_states.specs.Steps.{HasAnswered, HasNextNumber, HasProbed, HasTaken, IsBlockedRun, IsNoAnswer, IsOfNoCall, left_to_do, not_out};
ghost use Rattle.home_states.specs.Tickets.{call_told};
ghost use Rattle.std.specs.Prelude.{Err, None, Some, true};

use crate::homes::{LiveHome, Phase};
use crate::numbers::{answer_numbered, few, number_call, number_turn};
use crate::refusals::NotAnswered;
use device_gate::{Slip, Task, Told};
use history_book::Made;
use home_types::{DeviceNo, RunNo};
use hub_core::NotQuiet;
use hub_table::Taken;

impl LiveHome {
    /// Makes the step of the run at this moment, in ms from the window's beginning, or at the last
    /// one where that is later. `None` where no window is open, and then nothing has changed. Takes
    /// no memory.
    ///
    /// The ticket of a device that goes out is the number of the call in the life of the home: from
    /// 1, and one more with each call that goes out.
    pub fn take(&mut self, r: RunNo, moment: u64) -> Option<Taken>
        ensures taken { IfSome result (λ taken. HasTaken self.old r.0 moment taken self.new) }
        ensures number { IfSome result
            (λ taken. HasNextNumber self.old (call_told taken) self.new) }
        ensures stood { IfSome result (λ taken. StepsInOrder self.old taken) }
        ensures none { IfNone result (IsBetweenWindows self.old) }
        ensures same { IfNone result (self.new ≡ self.old) }
    {
        match &mut self.phase {
            Phase::InWindow(_, table) => {
                let taken = table.take(r, moment);
                few(table);
                Some(number_turn(taken, self.tickets_before, &mut self.tickets))
            }
            Phase::Between(_) => None,
            Phase::Moving => unreachable!(),
        }
    }

    /// Hands in what the device told elsewhere to the call with this ticket, at this moment, in ms,
    /// or at the last one where that is later, and answers the entries that it makes.
    ///
    /// A ticket of a window before is not out, and neither is one that was not given yet.
    ///
    /// Where it is refused nothing has changed, and a device that is out stays out. Takes no
    /// memory.
    pub fn answer(
        &mut self,
        d: DeviceNo,
        ticket: u64,
        told: Told,
        moment: u64,
    ) -> Result<Made, NotAnswered>
        ensures answered { IfOk result
            (λ made. HasAnswered self.old d.0 ticket told moment made self.new) }
        ensures refused { IfErr result (λ why. IsNoAnswer self.old d.0 ticket told why) }
        ensures late { IsWindowOpen self.old → IsOfNoCall self.old ticket
            → result ≡ Err not_out }
        ensures same { IfErr result (λ _. self.new ≡ self.old) }
    {
        match &mut self.phase {
            Phase::InWindow(_, table) => {
                let numbers = (self.tickets_before, self.tickets);
                match answer_numbered(table, numbers, d, ticket, told, moment) {
                    Ok(made) => Ok(made),
                    Err(why) => Err(NotAnswered::NotTaken(why)),
                }
            }
            Phase::Between(_) => Err(NotAnswered::NoWindow),
            Phase::Moving => unreachable!(),
        }
    }

    /// Sends a probe to the device, where one may be sent, and tells its slip and its task. `None`
    /// where no window is open, and then nothing has changed. Takes no memory.
    pub fn probe(&mut self, d: DeviceNo) -> Option<Option<(Slip, Task)>>
        ensures probed { IfSome result (λ probe. HasProbed self.old d.0 probe self.new) }
        ensures number { IfSome result (λ probe. HasNextNumber self.old probe self.new) }
        ensures stood { IfSome result (λ probe. IfSome probe (ProbesInOrder self.old)) }
        ensures sent { result ≡ Some None → sends_no_probe (hub_in self.old) d.0 ≡ true }
        ensures none { IfNone result (IsBetweenWindows self.old) }
        ensures same { IfNone result (self.new ≡ self.old) }
    {
        match &mut self.phase {
            Phase::InWindow(_, table) => {
                let call = table.probe(d);
                few(table);
                Some(number_call(call, self.tickets_before, &mut self.tickets))
            }
            Phase::Between(_) => None,
            Phase::Moving => unreachable!(),
        }
    }

    /// Whether the run is known to wait, at every moment, until another step may free it. `None`
    /// where no window is open.
    pub fn is_blocked(&self, r: RunNo) -> Option<bool>
        ensures blocked { IfSome result (λ yes. IsTrue yes → IsBlockedRun self.now r.0) }
        ensures open { IfSome result (λ _. IsWindowOpen self.now) }
        ensures none { IfNone result (IsBetweenWindows self.now) }
    {
        match &self.phase {
            Phase::InWindow(_, table) => Some(table.hub().is_blocked(r)),
            Phase::Between(_) => None,
            Phase::Moving => unreachable!(),
        }
    }

    /// Why the window cannot be closed yet: the smallest run that has not ended, else the smallest
    /// device that is out. `None` where no window is open.
    pub fn quiet(&self) -> Option<Option<NotQuiet>>
        ensures quiet { result ≡ left_to_do (hub_in self.now) }
        ensures none { IfNone result (hub_in self.now ≡ None) }
    {
        match &self.phase {
            Phase::InWindow(_, table) => Some(table.hub().quiet()),
            Phase::Between(_) => None,
            Phase::Moving => unreachable!(),
        }
    }
}
