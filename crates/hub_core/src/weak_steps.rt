//! The steps of runs under the weak model, where they are others than in the models with an order.
ghost use Rattle.std.specs.Prelude.{max, true, ℕ, ◌≡◌};
ghost use Rattle.command_rules.specs.Rosters.{is_run};
ghost use Rattle.history_book.specs.Progress.{progress_of};
ghost use Rattle.history_book.specs.Settings.{is_weak};
ghost use Rattle.hub_core.specs.Decisions.{told_choice};
ghost use Rattle.hub_core.specs.HubCalls.{Answers, SameWindow};
ghost use Rattle.hub_core.specs.OpenHubs.{configuration_of};
ghost use Rattle.hub_core.specs.Steps.{Moves, choice_of};
ghost use Rattle.hub_core.specs.WeakSteps.{weak_rest};
ghost use Rattle.lock_leasing.specs.Configurations.{point_of, read_of};

use crate::decisions::Chosen;
use crate::open_windows::OpenWindow;
use crate::waits::Why;
use device_states::Device;
use history_book::{Entry, Made, RunProgress, one_made};
use home_types::{Item, RunNo};
use lock_leasing::Purpose;

impl<D: Device> OpenWindow<D> {
    /// What the run is to do, which is placed and has not ended: it ends at once where it is
    /// doomed, else its next command is skipped, waits for a device that is out, is told that it is
    /// down, or goes out, and with none left the run commits.
    #[inline(always)]
    pub(crate) fn decide_weakly(&self, r: RunNo, progress: RunProgress) -> Chosen
        requires run { is_run self.now.setting.runs r.0 ≡ true }
        requires known { progress ≡ progress_of ((read_of (configuration_of self.now)).run r.0) }
        ensures { (m : ℕ) → told_choice r.0 m result
            ≡ weak_rest (point_of (configuration_of self.now)) r.0 }
    {
        if let Some(cause) = progress.doomed {
            return Chosen::Aborts(cause);
        }
        let Some(command) = self.history.next_command(r) else {
            return Chosen::Commits;
        };
        let k = self.history.next(r);
        if !command.when.holds(self.history.register(r)) {
            return Chosen::Skips(k);
        }
        let d = command.device;
        if self.is_out(d) {
            return Chosen::Waits(Why::Busy(d));
        }
        if self.order.table.is_up(d) {
            Chosen::HandsOut(d, Purpose::Commands(k))
        } else {
            Chosen::AnswersDown(k, command.must)
        }
    }

    /// The run is placed behind so many items of the line, which is its end, and has no access.
    pub(crate) fn place_weakly(&mut self, r: RunNo, moment: u64, at: u32) -> Made
        requires weak { is_weak self.old.setting.mode ≡ true }
        requires chosen { choice_of (configuration_of self.old) r.0 moment
            ≡ told_choice r.0 (max self.old.moment moment) (Chosen.Joins at) }
        ensures answer { Answers self.old r.0 moment (Moves result) self.new }
        ensures window { SameWindow self.old self.new }
    {
        self.moment = self.moment.max(moment);
        self.order.line.insert(at, Item::Ran(r));
        let entry = Entry::Placed(r, at, self.moment);
        self.history.push(r.0, entry);
        one_made(entry)
    }
}
