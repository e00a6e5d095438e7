//! What a run that joins the window makes of its line and its lineage table: room for it first,
//! which may be refused, then the run, which is not.
ghost use Rattle.std.specs.Prelude.{OnOk, Some, length, slice_get, ℕ, ◌+◌, ◌<◌, ◌≡◌, ◌≤◌};
ghost use Rattle.std.specs.List.{All, list_any};
ghost use Rattle.command_rules.specs.Rosters.{is_on, plain_run};
ghost use Rattle.home_types.specs.Limits.{most_devices, most_runs};
ghost use Rattle.serial_line.specs.KeptRuns.{KeepsOneMore};
ghost use Rattle.window_order.specs.Joins.{HasMoreRoom, HasRoomFor};

use crate::order_states::OrderState;
use command_rules::RosterRun;
use home_types::{Command, DeviceNo, NoMemory};
use lineage_table::Table;

impl OrderState {
    /// Makes room for a run that joins the window: for one item more of the line than it has room
    /// for, and for one access more on each device of the run. All else stays, and so does the room
    /// that there was.
    ///
    /// Answers `NoMemory` where there is none to be had, or where the line would take 2^32 items:
    /// then nothing has changed but that there may be more room.
    pub fn make_room(&mut self, run: &RosterRun) -> Result<(), NoMemory>
        requires homed { All (λ c. c.device.0 < length self.old.table)
            run.now.routine.commands.items }
        ensures marks { self.new.line.marks ≡ self.old.line.marks }
        ensures sealed { self.new.line.sealed ≡ self.old.line.sealed }
        ensures runs { self.new.line.runs ≡ self.old.line.runs }
        ensures spare { self.old.line.spare ≤ self.new.line.spare }
        ensures item { OnOk result (self.old.line.spare + 1 ≤ self.new.line.spare) }
        ensures table { HasMoreRoom self.old.table self.new.table }
        ensures accesses { OnOk result
            (HasRoomFor (plain_run run.now) self.old.table self.new.table) }
    {
        let items = self.line.spare() as u64 + 1;
        if self.line.len() as u64 + items > u32::MAX as u64 {
            return Err(NoMemory);
        }
        self.line.reserve(items)?;
        make_room_on_each(&mut self.table, run)
    }

    /// The run joins the window as its last one: the line keeps its devices, and whom it follows.
    /// It takes no place in the line and has no access yet. Takes no memory.
    ///
    /// Asks that the window has fewer runs than it may have, and that each command is on one of the
    /// devices that a home may have.
    pub fn join_run(&mut self, run: &RosterRun)
        requires few { length self.old.line.runs < most_runs }
        requires low { (k : ℕ) (c : Command) → slice_get run.now.routine.commands.items k ≡ Some c
            → c.device.0 < most_devices }
        ensures marks { self.new.line.marks ≡ self.old.line.marks }
        ensures spare { self.new.line.spare ≡ self.old.line.spare }
        ensures sealed { self.new.line.sealed ≡ self.old.line.sealed }
        ensures runs { KeepsOneMore self.old.line.runs self.new.line.runs (plain_run run.now) }
        ensures table { self.new.table ≡ self.old.table }
    {
        self.line.join(run);
    }
}

/// Makes room for one access more on each device of the run, once for each, however many of its
/// commands are on it. All else stays, and so does the room that there was.
fn make_room_on_each(table: &mut Table, run: &RosterRun) -> Result<(), NoMemory>
    requires { All (λ c. c.device.0 < length table.old) run.now.routine.commands.items }
    ensures more { HasMoreRoom table.old table.new }
    ensures enough { OnOk result (HasRoomFor (plain_run run.now) table.old table.new) }
{
    let commands = run.routine.commands.as_slice();
    'commands: for at in 0..commands.len() {
        let d = commands[at].device;
        // with the first command on it a device has its room
        if !is_on_some(&commands[..at], d) {
            table.make_room(d)?;
        }
    }
    Ok(())
}

/// Whether some of the commands is on the device.
fn is_on_some(commands: &[Command], d: DeviceNo) -> bool
    ensures { result ≡ list_any (is_on d.0) commands.now }
{
    commands.iter().any(|command| command.device == d)
}
