//! A run takes its turn in its window.
ghost use Rattle.std.specs.Prelude.{◌≡◌, max};
ghost use Rattle.hub_core.specs.Decisions.{told_choice};
ghost use Rattle.hub_core.specs.HubCalls.{IsTurn, SameWindow};
ghost use Rattle.hub_core.specs.OpenHubs.{configuration_of};
ghost use Rattle.hub_core.specs.PlannedPlaces.{HasSameRoom, HoldsChosen};
ghost use Rattle.hub_core.specs.Steps.{choice_of};

use crate::decisions::Chosen;
use crate::open_windows::OpenWindow;
use crate::turns::Turn;
use crate::waits::Why;
use device_states::Device;
use history_book::{End, Made, NONE_MADE};
use home_types::RunNo;
use timeline_scheduler::Scratch;

impl<D: Device> OpenWindow<D> {
    /// Makes the step of the run `r` that is chosen at this moment, in ms, or at the last one where
    /// that is later.
    ///
    /// Answers what the run does: hands out a device, makes entries, waits, or is over. `Wait` and
    /// `Absent` change nothing but the last moment. A place by the timeline stands in the scratch.
    /// Takes no memory.
    #[inline(always)]
    pub(crate) fn follow(
        &mut self,
        r: RunNo,
        moment: u64,
        chosen: Chosen,
        scratch: &mut Scratch,
    ) -> Turn<D>
        requires chosen { told_choice r.0 (max self.old.moment moment) chosen
            ≡ choice_of (configuration_of self.old) r.0 moment }
        requires planned { HoldsChosen scratch.old (configuration_of self.old) r.0
            (max self.old.moment moment) chosen }
        ensures turn { IsTurn self.old r.0 moment result self.new }
        ensures window { SameWindow self.old self.new }
        ensures size { HasSameRoom scratch.old scratch.new }
    {
        match chosen {
            Chosen::Absent => {
                self.reach(moment);
                Turn::Absent
            }
            Chosen::Over(end) => {
                self.reach(moment);
                Turn::Over(end, NONE_MADE)
            }
            Chosen::Waits(why) => {
                self.wait(r, moment, why);
                Turn::Wait(why)
            }
            Chosen::Arrives => Turn::Moved(self.arrive(r, moment)),
            Chosen::Joins(place) => Turn::Moved(self.join(r, moment, place, scratch)),
            Chosen::Drops(d) => Turn::Moved(self.drop_undo(r, moment, d)),
            Chosen::Revokes(borrower, d, deadline) => {
                Turn::Moved(self.revoke(r, moment, borrower, d, deadline))
            }
            Chosen::AnswersDown(k, must) => Turn::Moved(self.answer_down(r, moment, k, must)),
            Chosen::Skips(k) => Turn::Moved(self.skip(r, moment, k)),
            Chosen::FailsAtEnd(d) => Turn::Moved(self.fail_at_end(r, moment, d)),
            Chosen::Commits => Turn::Over(End::Committed, self.commit(r, moment)),
            Chosen::Aborts(cause) => {
                Turn::Over(End::Aborted(cause), self.abort(r, moment, cause))
            }
            Chosen::HandsOut(d, purpose) => Turn::Go(self.hand_out(r, moment, d, purpose)),
        }
    }

    /// The run waits: nothing changes, but that the last moment may be later.
    #[inline(always)]
    pub(crate) fn wait(&mut self, r: RunNo, moment: u64, why: Why)
        requires { told_choice r.0 (max self.old.moment moment) (Chosen.Waits why)
            ≡ choice_of (configuration_of self.old) r.0 moment }
        ensures turn { IsTurn self.old r.0 moment (Turn.Wait why) self.new }
        ensures window { SameWindow self.old self.new }
    {
        self.reach(moment);
    }
}
