//! A run joins an open window.
ghost use Rattle.std.specs.List.{All};
ghost use Rattle.std.specs.Prelude.{IfErr, IfOk, OnErr, OnOk, length, ◌+◌, ◌<◌, ◌≡◌, ◌≤◌};
ghost use Rattle.command_rules.specs.Rosters.{plain_run};
ghost use Rattle.hub_core.specs.Joins.{MayJoin, joined};
ghost use Rattle.window_order.specs.Joins.{HasMoreRoom, HasRoomFor};

use crate::hubs::Hub;
use crate::open_calls::{ENTRIES_OF_A_RUN, bounds_of};
use crate::open_windows::OpenWindow;
use command_rules::RosterRun;
use device_states::Device;
use home_types::{DeviceNo, Item, List, NoMemory, RunNo};
use window_order::OrderState;

impl<D: Device> Hub<D> {
    /// The run joins the window as its last one, and its number is answered. It has not arrived:
    /// that is its first step. It may join at any moment between two steps, also where all runs
    /// have ended.
    ///
    /// Takes the memory that the window would have taken at its opening for one run more. Answers
    /// `NoMemory` where there is none to be had: the hub is as it was, and the run is dropped.
    pub fn add_run(&mut self, run: RosterRun) -> Result<RunNo, NoMemory>
        requires may { MayJoin self.old.setting (plain_run run) }
        ensures joined { IfOk result (λ _. self.new ≡ joined self.old (plain_run run)) }
        ensures number { IfOk result (λ r. r.0 ≡ length self.new.setting.runs) }
        ensures refused { IfErr result (λ _. self.new ≡ self.old) }
    {
        if self.scratch.make_room().is_err() {
            drop(run);
            return Err(NoMemory);
        }
        self.window.join_run(run)?;
        // a run that was marked is asked once more, and marked anew
        self.blocked.unmark_all();
        Ok(RunNo(self.window.history.run_count() as u32))
    }
}

impl<D: Device> OpenWindow<D> {
    /// The run joins the window as its last one. All room is made before anything is appended.
    ///
    /// Answers `NoMemory` where there is none to be had: then nothing has changed but that there
    /// may be more room, and the run is dropped.
    fn join_run(&mut self, run: RosterRun) -> Result<(), NoMemory>
        requires may { MayJoin self.old.setting (plain_run run) }
        ensures joined { OnOk result (self.new ≡ joined self.old (plain_run run)) }
        ensures refused { OnErr result (self.new ≡ self.old) }
    {
        let earlier = self.history.run_count();
        let bounds = bounds_of(earlier + 1, self.history.device_count(), self.rounds);
        let (items, held_tokens) = (&mut self.closing.order, &mut self.checkouts.held_tokens);
        let Ok(()) = make_room(&mut self.order, items, held_tokens, bounds.items, &run) else {
            drop(run);
            return Err(NoMemory);
        };
        self.history.join(run, ENTRIES_OF_A_RUN)?;
        let last = self.history.roster().runs.get(earlier).unwrap();
        self.order.join_run(last);
        let Ok(()) = self.checkouts.held_tokens.push(None) else {
            unreachable!();
        };
        Ok(())
    }
}

/// Makes room for what the window keeps of the run beside its history: in the line and the table,
/// for so many items of the record's order, and for its hand. All else stays, and so does the room
/// that there was.
fn make_room(
    order: &mut OrderState,
    items: &mut List<Item>,
    held_tokens: &mut List<Option<DeviceNo>>,
    most: u64,
    run: &RosterRun,
) -> Result<(), NoMemory>
    requires homed { All (λ c. c.device.0 < length order.old.table)
        run.now.routine.commands.items }
    ensures marks { order.new.line.marks ≡ order.old.line.marks }
    ensures sealed { order.new.line.sealed ≡ order.old.line.sealed }
    ensures runs { order.new.line.runs ≡ order.old.line.runs }
    ensures spare { order.old.line.spare ≤ order.new.line.spare }
    ensures place { OnOk result (order.old.line.spare + 1 ≤ order.new.line.spare) }
    ensures table { HasMoreRoom order.old.table order.new.table }
    ensures accesses { OnOk result (HasRoomFor (plain_run run.now) order.old.table order.new.table) }
    ensures items_are { items.new.items ≡ items.old.items }
    ensures items_kept { items.old.spare ≤ items.new.spare }
    ensures items_room { OnOk result (most ≤ items.new.spare) }
    ensures hands_are { held_tokens.new.items ≡ held_tokens.old.items }
    ensures hand { OnOk result (0 < held_tokens.new.spare) }
{
    order.make_room(run)?;
    items.reserve(most)?;
    held_tokens.reserve(1)
}
