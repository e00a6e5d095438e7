//! For how long a run that is placed is planned to use its devices.
ghost use Rattle.std.specs.Prelude.{IsTrue, List, ℕ, ◌<◌, ◌≡◌};
ghost use Rattle.std.specs.List.{All};
ghost use Rattle.command_rules.specs.Rosters.{commands_of, is_run};
ghost use Rattle.history_book.specs.Plans.{planned_times};
ghost use Rattle.history_book.specs.ReadHistories.{read_in};
ghost use Rattle.history_book.specs.Settings.{scheduler_of};
ghost use Rattle.home_types.specs.Limits.{most_devices};
ghost use Rattle.home_types.specs.declared.items.Item.{Item};
ghost use Rattle.home_types.specs.declared.modes.Scheduler.TheVariants.{Timeline};
ghost use Rattle.timeline_scheduler.specs.PlannedUses.{AreUsesOf};
ghost use Rattle.timeline_scheduler.specs.Scratches.{HoldsTimes};

use crate::scratches::Scratch;
use history_book::ReadHistory;
use home_types::{RunNo, Scheduler};

/// The scratch holds then for how long the run, which is placed at this moment, in ms, is planned to
/// use each of its devices: where it is placed by the timeline, by the plan that the scratch holds.
pub fn plan_uses(history: &ReadHistory, r: RunNo, moment: u64, scratch: &mut Scratch)
    requires run { IsTrue (is_run history.now.setting.runs r.0) }
    requires homed { All (λ c. c.device.0 < most_devices)
        (commands_of history.now.setting.runs r.0) }
    ensures uses { (front : List Item)
        → (scheduler_of history.now.setting.mode ≡ Timeline → HoldsTimes scratch.old.slots
        (planned_times history.now.setting (read_in history.now) r.0 front moment)) → AreUsesOf
        history.now.setting.runs r.0 scratch.new.uses
        (planned_times history.now.setting (read_in history.now) r.0 front moment) }
    ensures rest { scratch.new ≡ record scratch.old { uses = scratch.new.uses } }
{
    let commands = history.roster().commands(r);
    match history.scheduler() {
        Scheduler::Fcfs | Scheduler::JustInTime => scratch.use_in_turn(commands, moment),
        Scheduler::Timeline => scratch.use_as_planned(commands),
    }
}
