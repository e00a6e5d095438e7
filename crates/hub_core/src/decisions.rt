//! What a run does at its turn: the cases of the rules, in their order, with nothing changed.
ghost use Rattle.std.specs.Prelude.{IsTrue, None, false, length, max, option_map, true, unwrap_or, ℕ, ◌<◌, ◌≡◌};
ghost use Rattle.command_rules.specs.Rosters.{command_at, commands_of, is_run};
ghost use Rattle.history_book.specs.Readings.{is_live};
ghost use Rattle.history_book.specs.Settings.{is_weak};
ghost use Rattle.hub_core.specs.Decisions.{current_command, skipped_command, strong_command, strong_doomed, told_choice, unbarred_command};
ghost use Rattle.hub_core.specs.HubSteps.{command_task, task_of};
ghost use Rattle.hub_core.specs.OpenHubs.{configuration_of};
ghost use Rattle.hub_core.specs.Steps.{choice_of, decide_answered};
ghost use Rattle.hub_core.specs.PlannedPlaces.{HasSameRoom, HoldsChosen, IsForHome};
ghost use Rattle.lineage_table.specs.Accesses.{access_of};
ghost use Rattle.lineage_table.specs.Lineages.{accesses_at};
ghost use Rattle.lock_leasing.specs.Configurations.{is_out, point_of, read_of};
ghost use Rattle.lock_leasing.specs.Holders.{sees_it_down};
ghost use Rattle.lock_leasing.specs.Standings.{IsAtCommand};
ghost use Rattle.lock_leasing.specs.Waits.{grip_wait};
ghost use Rattle.visibility_models.specs.Models.{IsUnderWay};

use crate::open_windows::OpenWindow;
use crate::waits::Why;
use abort_rollback::{Undo, next_undo};
use command_rules::{driven, reads};
use device_gate::Task;
use device_states::Device;
use history_book::{Cause, End};
use home_types::{Command, DeviceNo, RunNo, View};
use lineage_table::Table;
use lock_leasing::{Purpose, Touch, test_touch};
use timeline_scheduler::Scratch;
use visibility_models::{down_at_end, may_go};

/// What the step of a run is to do.
#[derive(Clone, Copy, Debug, PartialEq, Eq)]
pub(crate) enum Chosen {
    /// The window has no such run.
    Absent,
    /// The run has ended so before.
    Over(End),
    Arrives,
    /// It is placed behind so many items of the line.
    Joins(u32),
    Commits,
    /// It is doomed for this cause, has nothing left to undo, and ends.
    Aborts(Cause),
    /// It is doomed, and its write on the device, which is counted down, is dropped.
    Drops(DeviceNo),
    /// The lease of this other run on the device is past this deadline, in ms: the borrower is
    /// doomed.
    Revokes(RunNo, DeviceNo, u64),
    /// Its next command, of this number, is answered `Down` with no call of its device, and dooms
    /// it where it is a must.
    AnswersDown(u32, bool),
    /// Its next command, of this number, is skipped, since its guard does not hold.
    Skips(u32),
    /// It is doomed, since all its commands are answered and the device, which it needs up, is
    /// counted down.
    FailsAtEnd(DeviceNo),
    Waits(Why),
    HandsOut(DeviceNo, Purpose),
}

impl<D: Device> OpenWindow<D> {
    /// What the step of the run `r` is to do at this moment, in ms, or at the last one where that
    /// is later. Where that is to be placed by the timeline, the scratch then holds the set and the
    /// planned times.
    ///
    /// Most steps are of a run at its next command: that is looked at before the other cases.
    #[inline(always)]
    pub(crate) fn decide(&self, r: RunNo, moment: u64, scratch: &mut Scratch) -> Chosen
        requires scratch { IsForHome self.now.setting self.now.rounds scratch.old }
        ensures choice { told_choice r.0 (max self.now.moment moment) result
            ≡ choice_of (configuration_of self.now) r.0 moment }
        ensures planned { HoldsChosen scratch.new (configuration_of self.now) r.0
            (max self.now.moment moment) result }
        ensures size { HasSameRoom scratch.old scratch.new }
    {
        match self.command_now(r) {
            Some((k, command)) => self.decide_command(r, k, command, self.moment.max(moment)),
            None => self.decide_by_case(r, moment, scratch),
        }
    }

    /// What the step of the run `r` is to do at this moment, in ms, or at the last one where that
    /// is later, by the cases of a step in order. Where that is to be placed by the timeline, the
    /// scratch then holds the set and the planned times.
    #[inline(never)]
    fn decide_by_case(&self, r: RunNo, moment: u64, scratch: &mut Scratch) -> Chosen
        requires scratch { IsForHome self.now.setting self.now.rounds scratch.old }
        ensures choice { told_choice r.0 (max self.now.moment moment) result
            ≡ choice_of (configuration_of self.now) r.0 moment }
        ensures planned { HoldsChosen scratch.new (configuration_of self.now) r.0
            (max self.now.moment moment) result }
        ensures size { HasSameRoom scratch.old scratch.new }
    {
        if !self.history.has_run(r) {
            return Chosen::Absent;
        }
        let progress = self.history.progress(r);
        if let Some(end) = progress.ended {
            return Chosen::Over(end);
        }
        if let Some(d) = self.grip_of(r) {
            return Chosen::Waits(Why::Busy(d));
        }
        let Some(arrived) = progress.arrived else {
            return Chosen::Arrives;
        };
        let moment = self.moment.max(moment);
        if progress.placed.is_none() {
            return self.decide_arrived(r, arrived, moment, scratch);
        }
        if self.history.is_weak() {
            return self.decide_weakly(r, progress);
        }
        if let Some(cause) = progress.doomed {
            return self.decide_doomed(r, cause);
        }
        match self.history.next_command(r) {
            Some(command) => {
                let k = self.history.next(r);
                if command.when.holds(self.history.register(r)) {
                    self.decide_command(r, k, command, moment)
                } else {
                    self.decide_skip(r, k)
                }
            }
            None => self.decide_answered(r),
        }
    }

    /// What `r` is to do, which is doomed for this cause: it undoes its effective writes, by
    /// ascending device, and then ends. A write on a device that is counted down is dropped.
    fn decide_doomed(&self, r: RunNo, cause: Cause) -> Chosen
        requires strong { is_weak self.now.setting.mode ≡ false }
        requires live { is_live (read_of (configuration_of self.now)) r.0 ≡ true }
        ensures { (m : ℕ) → told_choice r.0 m result
            ≡ strong_doomed (point_of (configuration_of self.now)) r.0 cause }
    {
        let standing = self.standing();
        match next_undo(standing.table, r) {
            Undo::Drive(d, value) => {
                if self.is_out(d) {
                    Chosen::Waits(Why::Busy(d))
                } else {
                    Chosen::HandsOut(d, Purpose::Undoes(value))
                }
            }
            Undo::Drop(d) => {
                if self.is_out(d) {
                    Chosen::Waits(Why::Busy(d))
                } else {
                    Chosen::Drops(d)
                }
            }
            Undo::Finished => Chosen::Aborts(cause),
        }
    }

    /// What `r` is to do, which has all its commands answered: it commits, where the model finds no
    /// device down that it needs up.
    fn decide_answered(&self, r: RunNo) -> Chosen
        requires strong { is_weak self.now.setting.mode ≡ false }
        requires turn { IsUnderWay (read_of (configuration_of self.now)) r.0 }
        ensures { (m : ℕ) → told_choice r.0 m result
            ≡ decide_answered (point_of (configuration_of self.now)) r.0 }
    {
        let standing = self.standing();
        match down_at_end(self.history.model(), &standing, r) {
            Some(d) => Chosen::FailsAtEnd(d),
            None => Chosen::Commits,
        }
    }

    /// What `r` is to do whose next command, with the number `k`, has a guard that does not hold:
    /// it is skipped, where the model lets the run go.
    fn decide_skip(&self, r: RunNo, k: u32) -> Chosen
        requires strong { is_weak self.now.setting.mode ≡ false }
        requires turn { IsUnderWay (read_of (configuration_of self.now)) r.0 }
        ensures { (m : ℕ) → told_choice r.0 m result
            ≡ skipped_command (point_of (configuration_of self.now)) r.0 k }
    {
        let standing = self.standing();
        match may_go(self.history.model(), &standing, r) {
            Some(x) => Chosen::Waits(Why::Strict(x)),
            None => Chosen::Skips(k),
        }
    }

    /// What the next command of `r`, with the number `k`, is to do at this moment, in ms: it
    /// revokes a lease on its device that is overdue, or does what it may where none is.
    #[inline(always)]
    fn decide_command(&self, r: RunNo, k: u32, command: Command, moment: u64) -> Chosen
        requires strong { is_weak self.now.setting.mode ≡ false }
        requires turn { IsAtCommand (configuration_of self.now) r.0 k }
        requires command { command_at self.now.setting.runs r.0 k ≡ command }
        ensures { told_choice r.0 moment result
            ≡ strong_command (point_of (configuration_of self.now)) r.0 moment k command }
    {
        let d = command.device;
        match self.overdue_lease(r, d, moment) {
            Some((borrower, deadline)) => Chosen::Revokes(borrower, d, deadline),
            None => self.decide_current(r, k, command),
        }
    }

    /// What the next command of `r`, with the number `k`, is to do, where no lease on its device is
    /// overdue.
    #[inline(always)]
    fn decide_current(&self, r: RunNo, k: u32, command: Command) -> Chosen
        requires strong { is_weak self.now.setting.mode ≡ false }
        requires turn { IsAtCommand (configuration_of self.now) r.0 k }
        requires command { command_at self.now.setting.runs r.0 k ≡ command }
        ensures { (m : ℕ) → told_choice r.0 m result
            ≡ current_command (point_of (configuration_of self.now)) r.0 k command }
    {
        let standing = self.standing();
        match test_touch(&standing, r, k) {
            Touch::Behind(d, x) => return Chosen::Waits(Why::Behind(d, x)),
            Touch::Dirty(d, x) => return Chosen::Waits(Why::Dirty(d, x)),
            Touch::Free => {}
        }
        if let Some(x) = may_go(self.history.model(), &standing, r) {
            return Chosen::Waits(Why::Strict(x));
        }
        self.decide_unbarred(r, k, command)
    }

    /// What the next command of `r`, with the number `k`, is to do, where no run bars it.
    ///
    /// A run that sees the device down is told so, whether it is home or not. Else the run waits
    /// until it is home, and is told that it is down where it is counted so.
    #[inline(always)]
    fn decide_unbarred(&self, r: RunNo, k: u32, command: Command) -> Chosen
        requires strong { is_weak self.now.setting.mode ≡ false }
        requires turn { IsAtCommand (configuration_of self.now) r.0 k }
        requires command { command_at self.now.setting.runs r.0 k ≡ command }
        ensures { (m : ℕ) → told_choice r.0 m result
            ≡ unbarred_command (point_of (configuration_of self.now)) r.0 k command }
    {
        let d = command.device;
        if sees_down(&self.order.table, r, d) {
            return Chosen::AnswersDown(k, command.must);
        }
        if self.is_out(d) {
            return Chosen::Waits(Why::Busy(d));
        }
        if self.order.table.is_up(d) {
            Chosen::HandsOut(d, Purpose::Commands(k))
        } else {
            Chosen::AnswersDown(k, command.must)
        }
    }

    /// The device whose grip the run holds.
    pub(crate) fn grip_of(&self, r: RunNo) -> Option<DeviceNo>
        requires { IsTrue (is_run self.now.setting.runs r.0) }
        ensures { option_map (λ d. d.0) result
            ≡ grip_wait self.now.setting (configuration_of self.now).grips r.0 }
    {
        *self.checkouts.held_tokens.get(r.0 as u64 - 1).unwrap()
    }

    /// Whether the device is out.
    pub(crate) fn is_out(&self, d: DeviceNo) -> bool
        ensures { result ≡ is_out (configuration_of self.now).grips d.0 }
    {
        self.checkouts.gate.slip(d).is_some()
    }

    /// What the grip of the run is to do for this purpose.
    #[inline(always)]
    pub(crate) fn task(&self, r: RunNo, purpose: Purpose) -> Task
        requires command { (k : ℕ) → purpose ≡ Purpose.Commands k
            → IsTrue (is_run self.now.setting.runs r.0)
            × (k < length (commands_of self.now.setting.runs r.0)) }
        ensures { result ≡ task_of (configuration_of self.now) r.0 purpose }
    {
        match purpose {
            Purpose::Commands(k) => self.command_task(r, k),
            Purpose::Undoes(value) => Task::Drive(value),
            Purpose::Probes(value) => Task::Probe(value),
        }
    }

    /// What the command `k` of the run does with its device.
    #[inline(always)]
    fn command_task(&self, r: RunNo, k: u32) -> Task
        requires run { IsTrue (is_run self.now.setting.runs r.0) }
        requires command { k < length (commands_of self.now.setting.runs r.0) }
        ensures { result ≡ command_task (configuration_of self.now) r.0
            (command_at self.now.setting.runs r.0 k) }
    {
        let command = self.history.command(r, k);
        if reads(command.job) {
            return Task::Sense;
        }
        let kind = self.history.kind(command.device);
        let register = self.history.register(r);
        Task::Drive(driven(kind, command.job, register))
    }
}

/// Whether the run sees the device down, as its access tells.
#[inline(always)]
fn sees_down(table: &Table, r: RunNo, d: DeviceNo) -> bool
    requires { d.0 < length table.now }
    ensures { result
        ≡ unwrap_or (option_map sees_it_down (access_of r.0 (accesses_at table.now d.0))) false }
{
    match table.access(d, r) {
        Some(access) => access.view == Some(View::Down),
        None => false,
    }
}
