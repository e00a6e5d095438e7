//! What each choice of a step makes of the window, and the entries that it writes.
ghost use Rattle.std.specs.Prelude.{IfSome, IsSome, IsTrue, None, Some, [], false, if◌then◌else◌, max, not, option_map, true, ◌<◌, ◌||◌, ◌≡◌};
ghost use Rattle.hub_core.specs.Decisions.{told_choice};
ghost use Rattle.hub_core.specs.HubCalls.{Answers, DeviceGoesOut, SameWindow};
ghost use Rattle.hub_core.specs.OpenHubs.{configuration_of};
ghost use Rattle.window_order.specs.OrderStates.{is_first, left_by, noted_first};
ghost use Rattle.hub_core.specs.OrderStates.{MayLeave, MayNoteAnswer};
ghost use Rattle.hub_core.specs.PlannedPlaces.{HasSameRoom, HoldsPlan};
ghost use Rattle.hub_core.specs.Steps.{HandsOut, Moves, Over, choice_of};
ghost use Rattle.history_book.specs.ReadHistories.{read_in, with_doom};
ghost use Rattle.history_book.specs.Readings.{is_access, is_doomed, is_fine, is_told, pends};
ghost use Rattle.history_book.specs.Settings.{is_weak};
ghost use Rattle.history_book.specs.WellFormed.{may_follow};
ghost use Rattle.lineage_table.specs.Lineages.{lineage_at, with_lineage};
ghost use Rattle.lock_leasing.specs.Tables.{view_when};
ghost use Rattle.history_book.specs.declared.entries.End.TheVariants.{Aborted, Committed};
ghost use Rattle.window_order.specs.TableChanges.{ChangesEach, doomed_lineage};

use crate::decisions::Chosen;
use crate::open_windows::OpenWindow;
use device_gate::{Grip, Ready};
use device_states::Device;
use history_book::{Cause, End, Entry, Made, ReadHistory, must_down, one_made};
use home_types::{Answer, DeviceNo, RunNo, Value};
use lock_leasing::Purpose;
use timeline_scheduler::{Scratch, plan_uses};
use window_devices::DeviceProgress;
use window_order::{OrderState, note_of};

impl<D: Device> OpenWindow<D> {
    /// The last moment is this one, or the one before where that is later.
    pub(crate) fn reach(&mut self, moment: u64)
        ensures { self.new ≡ record self.old { moment = max self.old.moment moment } }
    {
        self.moment = self.moment.max(moment);
    }

    /// The run arrives.
    pub(crate) fn arrive(&mut self, r: RunNo, moment: u64) -> Made
        requires { choice_of (configuration_of self.old) r.0 moment
            ≡ told_choice r.0 (max self.old.moment moment) Chosen.Arrives }
        ensures answer { Answers self.old r.0 moment (Moves result) self.new }
        ensures window { SameWindow self.old self.new }
    {
        self.moment = self.moment.max(moment);
        let entry = Entry::Arrived(r, self.moment);
        self.history.push(r.0, entry);
        one_made(entry)
    }

    /// The run is placed behind so many items of the line. Where that is by the timeline, the
    /// scratch holds their set, and its planned times.
    pub(crate) fn join(&mut self, r: RunNo, moment: u64, at: u32, scratch: &mut Scratch) -> Made
        requires chosen { choice_of (configuration_of self.old) r.0 moment
            ≡ told_choice r.0 (max self.old.moment moment) (Chosen.Joins at) }
        requires planned { HoldsPlan scratch.old (configuration_of self.old) r.0
            (max self.old.moment moment) at }
        ensures answer { Answers self.old r.0 moment (Moves result) self.new }
        ensures window { SameWindow self.old self.new }
        ensures size { HasSameRoom scratch.old scratch.new }
    {
        if self.history.is_weak() {
            self.place_weakly(r, moment, at)
        } else {
            self.place(r, moment, at, scratch)
        }
    }

    /// The entry, the line and the table are told the place of the run, behind so many items of the
    /// line. By the timeline these are brought before the others first.
    fn place(&mut self, r: RunNo, moment: u64, at: u32, scratch: &mut Scratch) -> Made
        requires strong { is_weak self.old.setting.mode ≡ false }
        requires chosen { choice_of (configuration_of self.old) r.0 moment
            ≡ told_choice r.0 (max self.old.moment moment) (Chosen.Joins at) }
        requires planned { HoldsPlan scratch.old (configuration_of self.old) r.0
            (max self.old.moment moment) at }
        ensures answer { Answers self.old r.0 moment (Moves result) self.new }
        ensures window { SameWindow self.old self.new }
        ensures size { HasSameRoom scratch.old scratch.new }
    {
        self.moment = self.moment.max(moment);
        plan_uses(&self.history, r, self.moment, scratch);
        self.order
            .arrange(self.history.scheduler(), scratch.flags());
        self.order
            .join(self.history.roster(), r, at, scratch.uses());
        let entry = Entry::Placed(r, at, self.moment);
        self.history.push(r.0, entry);
        one_made(entry)
    }

    /// The run's write on the device, which is counted down, is dropped: it is undone with no call.
    pub(crate) fn drop_undo(&mut self, r: RunNo, moment: u64, d: DeviceNo) -> Made
        requires { choice_of (configuration_of self.old) r.0 moment
            ≡ told_choice r.0 (max self.old.moment moment) (Chosen.Drops d) }
        ensures answer { Answers self.old r.0 moment (Moves result) self.new }
        ensures window { SameWindow self.old self.new }
    {
        self.moment = self.moment.max(moment);
        self.order.undone(d, r);
        let entry = Entry::Undid(r, d, false);
        self.history.push(r.0, entry);
        one_made(entry)
    }

    /// The run's command with the number `k` is answered `Down` with no call of its device, and
    /// where it is a must the run is doomed.
    pub(crate) fn answer_down(&mut self, r: RunNo, moment: u64, k: u32, must: bool) -> Made
        requires { choice_of (configuration_of self.old) r.0 moment
            ≡ told_choice r.0 (max self.old.moment moment) (Chosen.AnswersDown k must) }
        ensures answer { Answers self.old r.0 moment (Moves result) self.new }
        ensures window { SameWindow self.old self.new }
    {
        let d = self.history.command(r, k).device;
        self.moment = self.moment.max(moment);
        let entry = Entry::Did(r, k, Answer::Down);
        self.history.push(r.0, entry);
        self.order.line.mark(r, d);
        note_answer(&self.history, &mut self.order, r, k, d, Answer::Down, 0);
        let doomed = doom_for(&mut self.history, &mut self.order, r, must_down(k, must));
        Made {
            a: Some(entry),
            b: doomed,
            c: None,
        }
    }

    /// The run's command with the number `k` is skipped, since its guard does not hold. That is no
    /// access to its device.
    pub(crate) fn skip(&mut self, r: RunNo, moment: u64, k: u32) -> Made
        requires { choice_of (configuration_of self.old) r.0 moment
            ≡ told_choice r.0 (max self.old.moment moment) (Chosen.Skips k) }
        ensures answer { Answers self.old r.0 moment (Moves result) self.new }
        ensures window { SameWindow self.old self.new }
    {
        let d = self.history.command(r, k).device;
        self.moment = self.moment.max(moment);
        let entry = Entry::Did(r, k, Answer::Skipped);
        self.history.push(r.0, entry);
        leave_skipped(&self.history, &mut self.order, r, k, d);
        one_made(entry)
    }

    /// The run, which has all its commands answered, is doomed, since it needs the device up, which
    /// is counted down.
    pub(crate) fn fail_at_end(&mut self, r: RunNo, moment: u64, d: DeviceNo) -> Made
        requires { choice_of (configuration_of self.old) r.0 moment
            ≡ told_choice r.0 (max self.old.moment moment) (Chosen.FailsAtEnd d) }
        ensures answer { Answers self.old r.0 moment (Moves result) self.new }
        ensures window { SameWindow self.old self.new }
    {
        self.moment = self.moment.max(moment);
        self.order.doom(r, None);
        let entry = Entry::Doomed(r, Cause::DownAtEnd(d));
        self.history.push(r.0, entry);
        one_made(entry)
    }

    /// The lease of the borrower on the device is overdue for the run `r`, which asks for it, with
    /// this deadline, in ms: the borrower is doomed. It is done with each device that it has
    /// acquired, but for the one that is out for a command of it.
    pub(crate) fn revoke(
        &mut self,
        r: RunNo,
        moment: u64,
        borrower: RunNo,
        d: DeviceNo,
        deadline: u64,
    ) -> Made
        requires { choice_of (configuration_of self.old) r.0 moment
            ≡ told_choice r.0 (max self.old.moment moment) (Chosen.Revokes borrower d deadline) }
        ensures answer { Answers self.old r.0 moment (Moves result) self.new }
        ensures window { SameWindow self.old self.new }
    {
        let out = self.grip_of(borrower);
        self.moment = self.moment.max(moment);
        self.order.doom(borrower, out);
        let cause = Cause::Revoked {
            lender: r,
            device: d,
            deadline,
            moment: self.moment,
        };
        let entry = Entry::Doomed(borrower, cause);
        self.history.push(r.0, entry);
        one_made(entry)
    }

    /// The run commits.
    pub(crate) fn commit(&mut self, r: RunNo, moment: u64) -> Made
        requires { choice_of (configuration_of self.old) r.0 moment
            ≡ told_choice r.0 (max self.old.moment moment) Chosen.Commits }
        ensures answer { Answers self.old r.0 moment (Over Committed result) self.new }
        ensures window { SameWindow self.old self.new }
    {
        self.moment = self.moment.max(moment);
        self.order.settle(r);
        let entry = Entry::Ended(r, End::Committed);
        self.history.push(r.0, entry);
        one_made(entry)
    }

    /// The run ends aborted, for this cause.
    pub(crate) fn abort(&mut self, r: RunNo, moment: u64, cause: Cause) -> Made
        requires { choice_of (configuration_of self.old) r.0 moment
            ≡ told_choice r.0 (max self.old.moment moment) (Chosen.Aborts cause) }
        ensures answer { Answers self.old r.0 moment (Over (Aborted cause) result) self.new }
        ensures window { SameWindow self.old self.new }
    {
        self.order.table.kept_invariant();
        self.moment = self.moment.max(moment);
        self.order.withdraw(r);
        let entry = Entry::Ended(r, End::Aborted(cause));
        self.history.push(r.0, entry);
        one_made(entry)
    }

    /// The device goes out for the run.
    #[inline(always)]
    pub(crate) fn hand_out(
        &mut self,
        r: RunNo,
        moment: u64,
        d: DeviceNo,
        purpose: Purpose,
    ) -> Grip<D, Ready>
        requires { choice_of (configuration_of self.old) r.0 moment
            ≡ HandsOut d.0 purpose }
        ensures out { DeviceGoesOut self.old r.0 moment result self.new }
        ensures window { SameWindow self.old self.new }
    {
        let task = self.task(r, purpose);
        let known = self.checkouts.known(d);
        self.moment = self.moment.max(moment);
        self.order.touch(r, d, purpose);
        self.checkouts
            .send(d, r.0, DeviceProgress { purpose, ..known }, task)
    }
}

/// The run, whose command with the number `k` was just answered so, and not skipped, notes that on
/// the device, which stands at this value. Under the weak model it has no access there, and notes
/// nothing.
#[inline(always)]
pub(crate) fn note_answer(
    history: &ReadHistory,
    order: &mut OrderState,
    r: RunNo,
    k: u32,
    d: DeviceNo,
    answer: Answer,
    held: Value,
)
    requires access { is_access answer ≡ true }
    requires told { is_weak history.now.setting.mode ≡ false
        → MayNoteAnswer history.now r.0 k d.0 order.old.table }
    ensures line { order.new.line ≡ order.old.line }
    ensures weakly { is_weak history.now.setting.mode ≡ true → order.new.table ≡ order.old.table }
    ensures ordered { is_weak history.now.setting.mode ≡ false
        → order.new.table ≡ with_lineage order.old.table d.0 (noted_first r.0
        (is_first r.0 (lineage_at order.old.table d.0)) (view_when (is_told answer))
        (if is_fine answer then Some held else None) (is_doomed (read_in history.now) r.0
        || not (pends history.now.setting (read_in history.now) r.0 d.0))) }
{
    if history.is_weak() {
        return;
    }
    let is_last = history.is_done(r, k, d);
    order.note(d, r, note_of(answer, held, is_last));
}

/// The run, whose command with the number `k` was just skipped, leaves the device where that was
/// its last command there. Under the weak model it has no access there.
fn leave_skipped(history: &ReadHistory, order: &mut OrderState, r: RunNo, k: u32, d: DeviceNo)
    requires { MayLeave history.now r.0 k d.0 order.old.table }
    ensures line { order.new.line ≡ order.old.line }
    ensures weakly { is_weak history.now.setting.mode ≡ true → order.new.table ≡ order.old.table }
    ensures ordered { is_weak history.now.setting.mode ≡ false
        → order.new.table ≡ (if is_doomed (read_in history.now) r.0 || not
        (pends history.now.setting (read_in history.now) r.0 d.0) then with_lineage order.old.table
        d.0 (left_by r.0 (is_first r.0 (lineage_at order.old.table d.0))) else order.old.table) }
{
    if history.is_weak() {
        return;
    }
    if history.is_done(r, k, d) {
        order.leave(d, r);
    }
}

/// The run is doomed, where there is a cause.
#[inline(always)]
pub(crate) fn doom_for(
    history: &mut ReadHistory,
    order: &mut OrderState,
    r: RunNo,
    cause: Option<Cause>,
) -> Option<Entry>
    requires room { IsSome cause → 0 < history.old.spare }
    requires follows { IfSome cause
        (λ c. IsTrue (may_follow history.old.setting (read_in history.old) (Entry.Doomed r c))) }
    ensures entry { result ≡ option_map (λ c. Entry.Doomed r c) cause }
    ensures history { history.new ≡ with_doom history.old r.0 cause }
    ensures line { order.new.line ≡ order.old.line }
    ensures table { cause ≡ None → order.new.table ≡ order.old.table }
    ensures doomed { IsSome cause
        → ChangesEach (λ d. doomed_lineage r.0) order.old.table order.new.table }
{
    let Some(cause) = cause else {
        return None;
    };
    order.doom(r, None);
    let entry = Entry::Doomed(r, cause);
    history.push(r.0, entry);
    Some(entry)
}
