//! Where a run that has arrived is placed, or for what it waits.
ghost use Rattle.std.specs.Prelude.{◌≡◌, IfSome, IsTrue, false, length};
ghost use Rattle.command_rules.specs.Rosters.{followed_by, is_run};
ghost use Rattle.history_book.specs.ReadHistories.{read_in};
ghost use Rattle.history_book.specs.Settings.{is_weak};
ghost use Rattle.hub_core.specs.Decisions.{told_choice};
ghost use Rattle.hub_core.specs.OpenHubs.{configuration_of};
ghost use Rattle.hub_core.specs.PlannedPlaces.{HasSameRoom, HoldsChosen, IsForHome};
ghost use Rattle.hub_core.specs.Steps.{decide_arrived, place_choice};
ghost use Rattle.jit_scheduler.specs.Admissions.{IsToBePlaced};
ghost use Rattle.lock_leasing.specs.Configurations.{point_of, read_of};
ghost use Rattle.lock_leasing.specs.Places.{just_in_time, scheduled_place};
ghost use Rattle.lock_leasing.specs.Waits.{follow_wait};

use crate::decisions::Chosen;
use crate::open_windows::OpenWindow;
use crate::waits::Why;
use device_states::Device;
use fcfs_scheduler::place as last_place;
use history_book::ReadHistory;
use home_types::{RunNo, Scheduler};
use jit_scheduler::{Admit, admit};
use lock_leasing::Standing;
use timeline_scheduler::{Scratch, place as least_place};

impl<D: Device> OpenWindow<D> {
    /// What the run `r` is to do at this moment, which arrived at that one, both in ms, and is not
    /// placed: it waits for the run that it follows, and is then placed. Where that is by the
    /// timeline, the scratch then holds the set of items that stand before it, and the planned
    /// times.
    pub(crate) fn decide_arrived(
        &self,
        r: RunNo,
        arrived: u64,
        moment: u64,
        scratch: &mut Scratch,
    ) -> Chosen
        requires run { IsTrue (is_run self.now.setting.runs r.0) }
        requires turn { IsToBePlaced (read_of (configuration_of self.now)) r.0 arrived }
        requires scratch { IsForHome self.now.setting self.now.rounds scratch.old }
        ensures choice { told_choice r.0 moment result
            ≡ decide_arrived (point_of (configuration_of self.now)) r.0 moment }
        ensures planned { HoldsChosen scratch.new (configuration_of self.now) r.0 moment result }
        ensures size { HasSameRoom scratch.old scratch.new }
    {
        match awaited_leader(&self.history, r) {
            Some(leader) => Chosen::Waits(Why::Follow(leader)),
            None => self.decide_place(r, arrived, moment, scratch),
        }
    }

    /// Where the scheduler places the run `r`, or by which run it denies a device to it.
    fn decide_place(&self, r: RunNo, arrived: u64, moment: u64, scratch: &mut Scratch) -> Chosen
        requires run { IsTrue (is_run self.now.setting.runs r.0) }
        requires turn { IsToBePlaced (read_of (configuration_of self.now)) r.0 arrived }
        requires scratch { IsForHome self.now.setting self.now.rounds scratch.old }
        ensures choice { told_choice r.0 moment result ≡ place_choice r.0 moment
            (scheduled_place (point_of (configuration_of self.now)) r.0 moment) }
        ensures planned { HoldsChosen scratch.new (configuration_of self.now) r.0 moment result }
        ensures size { HasSameRoom scratch.old scratch.new }
    {
        match self.history.scheduler() {
            Scheduler::Fcfs => Chosen::Joins(self.end_of_line(r)),
            Scheduler::JustInTime => self.admit_in_time(r, arrived, moment),
            Scheduler::Timeline => {
                let standing = self.standing();
                Chosen::Joins(least_place(&standing, r, moment, scratch))
            }
        }
    }

    /// Where the run `r` is placed just in time.
    fn admit_in_time(&self, r: RunNo, arrived: u64, moment: u64) -> Chosen
        requires strong { is_weak self.now.setting.mode ≡ false }
        requires run { IsTrue (is_run self.now.setting.runs r.0) }
        requires turn { IsToBePlaced (read_of (configuration_of self.now)) r.0 arrived }
        ensures { told_choice r.0 moment result ≡ place_choice r.0 moment
            (just_in_time (point_of (configuration_of self.now)) r.0 moment) }
    {
        match admit(&self.standing(), r, arrived, moment) {
            Admit::At(place) => Chosen::Joins(place),
            Admit::Denied(d, x) => Chosen::Waits(Why::Denied(d, x)),
            Admit::Patience => Chosen::Joins(self.end_of_line(r)),
        }
    }

    /// The end of the line, where a run is placed that is served when it comes.
    fn end_of_line(&self, r: RunNo) -> u32
        ensures { result ≡ length (read_of (configuration_of self.now)).line }
    {
        let standing = Standing {
            table: &self.order.table,
            line: &self.order.line,
            book: self.history.book(),
            roster: self.history.indexed_roster(),
        };
        last_place(&standing, r)
    }
}

/// The run that `r` follows, where that has not ended.
fn awaited_leader(history: &ReadHistory, r: RunNo) -> Option<RunNo>
    requires run { IsTrue (is_run history.now.setting.runs r.0) }
    requires leader { IfSome (followed_by history.now.setting.runs r.0)
        (λ f. IsTrue (is_run history.now.setting.runs f.0)) }
    ensures { result ≡ follow_wait history.now.setting (read_in history.now) r.0 }
{
    let leader = history.roster().followed_by(r)?;
    if history.progress(leader).ended.is_none() {
        Some(leader)
    } else {
        None
    }
}
