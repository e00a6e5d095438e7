//! The runs that a step may have freed are blocked no more.
ghost use Rattle.std.specs.Prelude.{false, not, option_to_list, true, ◌&&◌, ◌≡◌, ◌≢◌, ◌⊎◌};
ghost use Rattle.command_rules.specs.Rosters.{touches};
ghost use Rattle.history_book.specs.Settings.{is_strict};
ghost use Rattle.hub_core.specs.BlockedMarks.{AreFreedWeakly, MayBeMarked, is_waiting};
ghost use Rattle.blocked_runs.specs.Marks.{AreLeft};
ghost use Rattle.hub_core.specs.BlockedRuns.{EndNoWait, is_quiet};
ghost use Rattle.hub_core.specs.MarkedRuns.{IsAnsweredStill, is_out_for_command};
ghost use Rattle.hub_core.specs.OpenHubs.{configuration_of};
ghost use Rattle.lock_leasing.specs.Configurations.{read_of};
ghost use Rattle.std.specs.List.{list_all};

use crate::open_windows::OpenWindow;
use crate::turns::Turn;
use blocked_runs::BlockedRuns;
use device_states::Device;
use history_book::{Entry, Made, ReadHistory};
use home_types::{DeviceNo, RunNo};

/// The run waits: it is marked at the device of its next command, if it is at a command. A lender
/// is not: its wait may end as a lease falls due.
#[inline(always)]
pub(crate) fn mark_waiting<D: Device>(blocked: &mut BlockedRuns, window: &OpenWindow<D>, r: RunNo)
    ensures { MayBeMarked (configuration_of window.now) blocked.old r.0 blocked.new }
{
    let Some(d) = window.next_device(r) else {
        return;
    };
    if window.may_lend(r, d) {
        return;
    }
    blocked.mark(r, d);
}

/// A step of the run under the weak model: it may have freed everybody, and where it waits the run
/// alone is marked.
pub(crate) fn free_weakly<D: Device>(
    blocked: &mut BlockedRuns,
    window: &OpenWindow<D>,
    turn: &Turn<D>,
    r: RunNo,
)
    ensures { AreFreedWeakly (is_waiting turn.now) (configuration_of window.now) r.0 blocked.new }
{
    blocked.unmark_all();
    match turn {
        Turn::Wait(_) => mark_waiting(blocked, window, r),
        Turn::Go(_) => {}
        Turn::Moved(_) => {}
        Turn::Over(_, _) => {}
        Turn::Absent => {}
    }
}

/// The device has gone out for a run. While it is out for a command, its run holds it, and who is
/// blocked there stays so.
#[inline(always)]
pub(crate) fn free_going<D: Device>(blocked: &mut BlockedRuns, window: &OpenWindow<D>, d: DeviceNo)
    ensures { AreLeft blocked.old blocked.new
        (λ e. is_out_for_command (configuration_of window.now) d.0 ≡ false → e ≢ d.0) }
{
    if !window.is_out_for_command(d) {
        blocked.unmark_at(d);
    }
}

/// The device has come home, with these entries. A run that has been answered there and has a
/// command left there holds it still, and who is blocked there stays so. An answer alone frees
/// nobody elsewhere.
#[inline(always)]
pub(crate) fn free_back<D: Device>(
    blocked: &mut BlockedRuns,
    window: &OpenWindow<D>,
    d: DeviceNo,
    made: &Made,
)
    ensures { AreLeft blocked.old blocked.new
        (λ e. IsAnsweredStill (configuration_of window.now) d.0 made.now
        ⊎ ((e ≢ d.0) × (list_all (is_quiet window.now.setting e) made.now ≡ true))) }
{
    match window.answer_alone(d, made) {
        Some((r, k)) => {
            if !window.holds_still(r, k, d) {
                blocked.unmark_at(d);
            }
        }
        None => {
            blocked.unmark_at(d);
            free_each(blocked, &window.history, made);
        }
    }
}

/// A run's step has made these entries. Where the run was placed at the end of the line, nobody is
/// free.
#[inline(always)]
pub(crate) fn free_made<D: Device>(blocked: &mut BlockedRuns, window: &OpenWindow<D>, made: &Made)
    ensures { AreLeft blocked.old blocked.new (λ d. EndNoWait window.now.setting
        (read_of (configuration_of window.now)) d made.now) }
{
    if window.is_placed_last(made) {
        return;
    }
    free_each(blocked, &window.history, made);
}

/// A step has made these entries.
#[inline(always)]
fn free_each(blocked: &mut BlockedRuns, history: &ReadHistory, made: &Made)
    ensures { AreLeft blocked.old blocked.new
        (λ d. list_all (is_quiet history.now.setting d) made.now ≡ true) }
{
    free_some(blocked, history, made.a);
    free_some(blocked, history, made.b);
    free_some(blocked, history, made.c);
}

/// A step has made this entry, where there is one.
#[inline(always)]
fn free_some(blocked: &mut BlockedRuns, history: &ReadHistory, entry: Option<Entry>)
    ensures { AreLeft blocked.old blocked.new
        (λ d. list_all (is_quiet history.now.setting d) (option_to_list entry) ≡ true) }
{
    if let Some(entry) = entry {
        free_by(blocked, history, entry);
    }
}

/// A step has made this entry. A doom may free those that are blocked at the devices of its run, as
/// may a placing and an end, which free everybody under the two strict models; an entry on a device
/// those that are blocked there.
#[inline(always)]
fn free_by(blocked: &mut BlockedRuns, history: &ReadHistory, entry: Entry)
    ensures { AreLeft blocked.old blocked.new (λ d. is_quiet history.now.setting d entry ≡ true) }
{
    match entry {
        Entry::Arrived(..) => {}
        Entry::Placed(r, ..) => free_passed(blocked, history, r),
        Entry::Doomed(r, _) => free_beside(blocked, history, r),
        Entry::Ended(r, _) => free_passed(blocked, history, r),
        Entry::Undid(_, d, _) | Entry::Fell(d) | Entry::Rose(d) => blocked.unmark_at(d),
        Entry::Did(r, k, _) => match history.device_of(r, k) {
            Some(d) => blocked.unmark_at(d),
            // There is such a command.
            None => blocked.unmark_all(),
        },
    }
}

/// The run stands where it did not, or stands before the others no more.
fn free_passed(blocked: &mut BlockedRuns, history: &ReadHistory, r: RunNo)
    ensures { AreLeft blocked.old blocked.new (λ d.
        (not (is_strict history.now.setting.mode) && not (touches history.now.setting.runs r.0 d))
        ≡ true) }
{
    if history.is_strict() {
        return blocked.unmark_all();
    }
    free_beside(blocked, history, r);
}

/// Those that are blocked at the devices of the run are free.
fn free_beside(blocked: &mut BlockedRuns, history: &ReadHistory, r: RunNo)
    ensures { AreLeft blocked.old blocked.new
        (λ d. not (touches history.now.setting.runs r.0 d) ≡ true) }
{
    if !history.has_run(r) {
        // There is such a run.
        return blocked.unmark_all();
    }
    blocked.unmark_among(history.indexed_roster(), r);
}
