//! The four calls that make a step of a hub: the window's step, and then the marks. After each of
//! them the items of the line that were final before stand first, in their order, and no fewer are
//! final.
ghost use Rattle.std.specs.Prelude.{◌≡◌, max};
ghost use Rattle.history_book.specs.Sealed.{StaysSealed};
ghost use Rattle.hub_core.specs.BlockedMarks.{AreBlocked};
ghost use Rattle.hub_core.specs.Decisions.{told_choice};
ghost use Rattle.hub_core.specs.HubCalls.{IsGiven, IsProbeGiven, IsProbed, IsTurn, PlansEarliest, SameWindow};
ghost use Rattle.hub_core.specs.HubsKept.{HubIsKept};
ghost use Rattle.hub_core.specs.OpenHubs.{configuration_of};
ghost use Rattle.hub_core.specs.PlannedPlaces.{HasSameRoom, HoldsChosen};
ghost use Rattle.hub_core.specs.Steps.{choice_of};
ghost use Rattle.lock_leasing.specs.Configurations.{read_of};

use crate::decisions::Chosen;
use crate::freed_runs::{free_back, free_going, free_made, free_weakly, mark_waiting};
use crate::hubs::Hub;
use crate::open_windows::OpenWindow;
use crate::turns::Turn;
use blocked_runs::BlockedRuns;
use device_gate::{Done, Grip, Ready, Stranger};
use device_states::Device;
use history_book::Made;
use home_types::{DeviceNo, RunNo};
use timeline_scheduler::Scratch;

impl<D: Device> Hub<D> {
    /// Makes the step of the run `r` at this moment, in ms, or at the last one where that is later.
    ///
    /// Answers what the run does: hands out a device, makes entries, waits, or is over. `Wait` and
    /// `Absent` change nothing but the last moment. Takes no memory.

    #[inline(always)]
    pub fn take(&mut self, r: RunNo, moment: u64) -> Turn<D>
        ensures turn { IsTurn self.old r.0 moment result self.new }
        ensures earliest { PlansEarliest (configuration_of self.old) r.0 result }
        ensures sealed { StaysSealed (read_of (configuration_of self.old))
            (read_of (configuration_of self.new)) }
        ensures window { SameWindow self.old self.new }
    {
        self.window.whole_invariant();
        let chosen = self.window.decide(r, moment, &mut self.scratch);
        match chosen {
            Chosen::HandsOut(d, purpose) => {
                let grip = self.window.hand_out(r, moment, d, purpose);
                self.window.whole_invariant();
                if self.window.is_weak() {
                    self.blocked.unmark_all();
                } else {
                    free_going(&mut self.blocked, &self.window, grip.slip().device);
                }
                Turn::Go(grip)
            }
            Chosen::Waits(why) if !self.window.is_weak() => {
                self.window.wait(r, moment, why);
                self.window.whole_invariant();
                mark_waiting(&mut self.blocked, &self.window, r);
                Turn::Wait(why)
            }
            _ => make_step(
                &mut self.window,
                &mut self.blocked,
                &mut self.scratch,
                r,
                moment,
                chosen,
            ),
        }
    }

    /// Takes the device of a run's grip home, at this moment, in ms, or at the last one where that
    /// is later.
    ///
    /// Answers the entries that it makes: the command's answer, for a read with the value found,
    /// and the doom of a run whose must `check` found another value; or that the run's write is
    /// undone. A grip that is not the one with which its device is out, or that is the detector's,
    /// comes back with a `Stranger`, and nothing changes. Takes no memory.
    #[tactic(auto, using(crate::proofs::calls::FinalItems::given_sealed))]
    #[inline(always)]
    pub fn give(
        &mut self,
        grip: Grip<D, Done>,
        moment: u64,
    ) -> Result<Made, (Grip<D, Done>, Stranger)>
        ensures given { IsGiven self.old grip moment result self.new }
        ensures sealed { StaysSealed (read_of (configuration_of self.old))
            (read_of (configuration_of self.new)) }
        ensures window { SameWindow self.old self.new }
    {
        self.window.whole_invariant();
        let d = grip.slip().device;
        match self.window.give(grip, moment) {
            Ok(made) => {
                self.window.whole_invariant();
                if self.window.is_weak() {
                    self.blocked.unmark_all();
                } else {
                    free_back(&mut self.blocked, &self.window, d, &made);
                }
                Ok(made)
            }
            Err(refused) => Err(refused),
        }
    }

    /// Hands out a probe of the device: none where it is out or no device of the home, or no probe
    /// of it is left.
    ///
    /// Where the device is counted down, and answers the probe, the grip drives it to the value at
    /// which it should stand. Where none goes out, the runs that are marked as blocked stay so.
    /// Takes no memory.
    #[tactic(auto, using(crate::proofs::calls::FinalItems::probed_sealed))]
    pub fn take_probe(&mut self, d: DeviceNo) -> Option<Grip<D, Ready>>
        ensures probed { IsProbed self.old d.0 result self.new }
        ensures sealed { StaysSealed (read_of (configuration_of self.old))
            (read_of (configuration_of self.new)) }
        ensures window { SameWindow self.old self.new }
    {
        self.window.whole_invariant();
        match self.window.take_probe(d) {
            Some(grip) => {
                self.window.whole_invariant();
                if self.window.is_weak() {
                    self.blocked.unmark_all();
                } else {
                    self.blocked.unmark_at(d);
                }
                Some(grip)
            }
            None => None,
        }
    }

    /// Takes the device of the detector's grip home.
    ///
    /// Answers the entries that it makes: a device that was counted up, and did not answer, has
    /// failed, and the run is doomed that sees it up and is not done with it; one that was counted
    /// down, and answered, is back. A grip that is not the one with which its device is out, or
    /// that is a run's, comes back with a `Stranger`, and nothing changes. Takes no memory.
    #[tactic(auto, using(crate::proofs::calls::FinalItems::probe_given_sealed))]
    pub fn give_probe(&mut self, grip: Grip<D, Done>) -> Result<Made, (Grip<D, Done>, Stranger)>
        ensures given { IsProbeGiven self.old grip result self.new }
        ensures sealed { StaysSealed (read_of (configuration_of self.old))
            (read_of (configuration_of self.new)) }
        ensures window { SameWindow self.old self.new }
    {
        self.window.whole_invariant();
        let d = grip.slip().device;
        match self.window.give_probe(grip) {
            Ok(made) => {
                self.window.whole_invariant();
                if self.window.is_weak() {
                    self.blocked.unmark_all();
                } else {
                    free_back(&mut self.blocked, &self.window, d, &made);
                }
                Ok(made)
            }
            Err(refused) => Err(refused),
        }
    }
}

/// Makes the step that is chosen, in the window and then in the marks.
///
/// It is apart from `take`, most of whose steps hand out or wait: only a call of it makes room for
/// what the others make.
#[inline(never)]
fn make_step<D: Device>(
    window: &mut OpenWindow<D>,
    blocked: &mut BlockedRuns,
    scratch: &mut Scratch,
    r: RunNo,
    moment: u64,
    chosen: Chosen,
) -> Turn<D>
    requires chosen { told_choice r.0 (max window.old.moment moment) chosen
        ≡ choice_of (configuration_of window.old) r.0 moment }
    requires planned { HoldsChosen scratch.old (configuration_of window.old) r.0
        (max window.old.moment moment) chosen }
    requires marks { AreBlocked (configuration_of window.old) blocked.old }
    ensures turn { IsTurn window.old r.0 moment result window.new }
    ensures window { SameWindow window.old window.new }
    ensures size { HasSameRoom scratch.old scratch.new }
    ensures kept { HubIsKept D.shows window.new }
    ensures marks { AreBlocked (configuration_of window.new) blocked.new }
{
    window.whole_invariant();
    let turn = window.follow(r, moment, chosen, scratch);
    window.whole_invariant();
    if window.is_weak() {
        free_weakly(blocked, window, &turn, r);
        return turn;
    }
    match &turn {
        Turn::Go(grip) => {
            let d = grip.slip().device;
            free_going(blocked, window, d);
        }
        Turn::Moved(made) => free_made(blocked, window, made),
        Turn::Over(_, made) => free_made(blocked, window, made),
        Turn::Wait(_) => mark_waiting(blocked, window, r),
        Turn::Absent => {}
    }
    turn
}
