//! The serialization line of a window and its lineage table.
ghost use Rattle.std.specs.Prelude.{IfOk, IsTrue, None, Some, [], drop, false, get_or, if◌then◌else◌, length, true, ℕ, ◌+◌, ◌<◌, ◌^◌, ◌∷◌, ◌≡◌, ◌≤◌};
ghost use Rattle.std.specs.List.{All};
ghost use Rattle.abort_rollback.specs.Undos.{next_undo};
ghost use Rattle.command_rules.specs.Footprints.{FitsIndex};
ghost use Rattle.command_rules.specs.Rosters.{commands_of, is_run, runs_of, touches};
ghost use Rattle.history_book.specs.Readings.{is_access, is_fine, is_told};
ghost use Rattle.home_types.specs.Limits.{most_devices};
ghost use Rattle.home_types.specs.declared.items.Item.TheVariants.{Ran};
ghost use Rattle.home_types.specs.declared.modes.Scheduler.TheVariants.{Timeline};
ghost use Rattle.window_order.specs.OrderStates.{IsSealed, IsUnreleased, MayArrange, MayNote, arranged, is_first, left_by, noted_first, scheduled_with};
ghost use Rattle.lineage_table.specs.Lineages.{TableIsOpened, accesses_at, committed_lineage, lineage_at, removed, undone, with_lineage};
ghost use Rattle.lock_leasing.specs.Configurations.{is_command, is_undo};
ghost use Rattle.lock_leasing.specs.Tables.{view_when};
ghost use Rattle.serial_line.specs.KeptRuns.{AreKeptOf};
ghost use Rattle.serial_line.specs.Labels.{is_sealed};
ghost use Rattle.serial_line.specs.Marks.{front_of, items_of, marks_without, settling, stands, touching, with_item};
ghost use Rattle.window_order.specs.TableChanges.{ChangesEach, IsNewOn, doomed_unless, first_with_access};

use crate::releases::{pass_before, release_all};
use crate::reschedules::wait_again;
use abort_rollback::{Undo, withdraw};
use command_rules::Roster;
use commit_compaction::commit;
use history_book::PlannedUse;
use home_types::{
    Answer, DeviceNo, DeviceSet, Item, NoMemory, RunNo, Scheduler, Value, View, World,
};
use lineage_table::{Access, Status, Table};
use lock_leasing::Purpose;
use serial_line::Line;
use std::alloc::Global;

/// The line of a window, in which each run has touched the devices whose grip it had for a command,
/// and the lineage table.
#[derive(Drop)]
pub struct OrderState {
    pub line: Line,
    pub table: Table,
}

/// What an answer of a run tells of its device.
#[derive(Clone, Copy, Debug, PartialEq, Eq)]
pub struct Noted {
    /// How the run sees the device, if this is its first answer there.
    pub view: View,
    /// The value that it wrote.
    pub wrote: Option<Value>,
    /// No command of the run on the device is left.
    pub is_last: bool,
}

impl OrderState {
    /// Opens the line and the table of a window of these runs, with room for so many items of the
    /// line and no more.
    ///
    /// Answers `NoMemory` where there is none to be had.
    pub fn open(
        alloc: Global,
        world: &World,
        roster: &Roster,
        items: u64,
    ) -> Result<OrderState, NoMemory>
        requires devices { length world.now.devices.items ≤ most_devices }
        requires items { items < 2 ^ 32 }
        requires runs { FitsIndex (runs_of roster.now) }
        ensures marks { IfOk result (λ order. order.line.marks ≡ []) }
        ensures room { IfOk result (λ order. order.line.spare ≡ items) }
        ensures none_sealed { IfOk result (λ order. order.line.sealed ≡ 0) }
        ensures runs { IfOk result (λ order. AreKeptOf (runs_of roster.now) order.line.runs) }
        ensures table { IfOk result
            (λ order. TableIsOpened (runs_of roster.now) world.now.devices.items order.table) }
    {
        let mut line = Line::open(alloc, roster)?;
        line.reserve(items)?;
        let table = Table::open(alloc, world, roster)?;
        Ok(OrderState { line, table })
    }

    /// Where runs are placed by the timeline, the items with a flag stand before the others, each
    /// part in its order. Takes no memory.
    pub fn arrange(&mut self, scheduler: Scheduler, before: &[bool])
        requires flags { scheduler ≡ Timeline → MayArrange before.now self.old.line }
        requires sealed { self.old.line.sealed ≤ front_of self.old.line.marks }
        ensures marks { self.new.line.marks ≡ arranged scheduler before.now self.old.line.marks }
        ensures spare { self.new.line.spare ≡ self.old.line.spare }
        ensures sealed { self.new.line.sealed ≡ self.old.line.sealed }
        ensures front { self.new.line.sealed ≤ front_of self.new.line.marks }
        ensures runs { self.new.line.runs ≡ self.old.line.runs }
        ensures table { self.new.table ≡ self.old.table }
    {
        match scheduler {
            Scheduler::Fcfs | Scheduler::JustInTime => {}
            Scheduler::Timeline => self.line.rearrange(before),
        }
    }

    /// The run stands at this place in the line, counted from 0, and has an access on each of its
    /// devices, with these uses of them. There it stands before the first access of a run behind
    /// it, which waits, as do those behind it: those that were passed wait again. What stands
    /// before the first live run is sealed then. Takes no memory.
    pub fn join(&mut self, roster: &Roster, r: RunNo, at: u32, uses: &[Option<PlannedUse>])
        requires run { IsTrue (is_run (runs_of roster.now) r.0) }
        requires few { length self.old.table ≤ most_devices }
        requires homed { All (λ c. c.device.0 < length self.old.table)
            (commands_of (runs_of roster.now) r.0) }
        requires room { 0 < self.old.line.spare }
        requires place { at ≤ length self.old.line.marks }
        requires behind { self.old.line.sealed ≤ at }
        requires sealed { self.old.line.sealed ≤ front_of self.old.line.marks }
        requires known { is_run self.old.line.runs r.0 ≡ true }
        requires absent { stands (Ran r) self.old.line.marks ≡ false }
        requires new { (d : ℕ) → d < length self.old.table
            → touches (runs_of roster.now) r.0 d ≡ true
            → IsNewOn r.0 (drop at (items_of self.old.line.marks)) (lineage_at self.old.table d) }
        ensures marks { self.new.line.marks ≡ with_item at (Ran r) self.old.line.marks }
        ensures spare { self.new.line.spare + 1 ≡ self.old.line.spare }
        ensures sealed { IsSealed self.new.line }
        ensures kept { self.new.line.runs ≡ self.old.line.runs }
        ensures table { ChangesEach
            (scheduled_with (runs_of roster.now) r.0 uses.now
            (drop at (items_of self.old.line.marks)))
            self.old.table self.new.table }
    {
        schedule(&mut self.table, &self.line, at, roster, r, uses);
        self.line.insert(at, Item::Ran(r));
        seal(&mut self.line);
    }

    /// The device goes out to the run for this purpose: it has touched it where that is a command,
    /// and its write there is undone where that is an undo.
    #[inline(always)]
    pub fn touch(&mut self, r: RunNo, d: DeviceNo, purpose: Purpose)
        requires run { stands (Ran r) self.old.line.marks ≡ true }
        requires device { d.0 < most_devices }
        requires homed { d.0 < length self.old.table }
        ensures marks { self.new.line.marks ≡ (if is_command purpose
            then touching r.0 d.0 self.old.line.marks else self.old.line.marks) }
        ensures spare { self.new.line.spare ≡ self.old.line.spare }
        ensures sealed { self.new.line.sealed ≡ self.old.line.sealed }
        ensures runs { self.new.line.runs ≡ self.old.line.runs }
        ensures table { self.new.table ≡ (if is_undo purpose
            then with_lineage self.old.table d.0 (undone r.0) else self.old.table) }
    {
        match purpose {
            Purpose::Commands(_) => self.line.mark(r, d),
            Purpose::Undoes(_) => self.table.undone(d, r),
            Purpose::Probes(_) => {}
        }
    }

    /// The run has skipped its last command on the device: its access is gone where it has not
    /// touched the device, and else released.
    pub fn leave(&mut self, d: DeviceNo, r: RunNo)
        requires device { d.0 < length self.old.table }
        requires turn { IsUnreleased r.0 (lineage_at self.old.table d.0) }
        ensures line { self.new.line ≡ self.old.line }
        ensures table { self.new.table ≡ with_lineage self.old.table d.0
            (left_by r.0 (is_first r.0 (lineage_at self.old.table d.0))) }
    {
        if self.is_first(d, r) {
            self.table.remove(d, r);
        } else {
            self.table.release(d, r);
        }
    }

    /// The run's write on the device is undone.
    pub fn undone(&mut self, d: DeviceNo, r: RunNo)
        requires { d.0 < length self.old.table }
        ensures line { self.new.line ≡ self.old.line }
        ensures table { self.new.table ≡ with_lineage self.old.table d.0 (undone r.0) }
    {
        self.table.undone(d, r);
    }

    /// The run notes an answer on the device. Where it is its first one there, the scheduled
    /// accesses before its own are passed.
    #[inline(always)]
    pub fn note(&mut self, d: DeviceNo, r: RunNo, told: Noted)
        requires device { d.0 < length self.old.table }
        requires turn { MayNote r.0 (lineage_at self.old.table d.0) }
        ensures line { self.new.line ≡ self.old.line }
        ensures table { self.new.table ≡ with_lineage self.old.table d.0 (noted_first r.0
            (is_first r.0 (lineage_at self.old.table d.0)) told.view told.wrote told.is_last) }
    {
        self.table.kept_invariant();
        if !self.table.note(d, r, told.view, told.wrote, told.is_last) {
            pass_before(&mut self.table, d, r);
            self.table.note(d, r, told.view, told.wrote, told.is_last);
        }
    }

    /// Whether the run has not touched the device, on which it has an access.
    pub fn is_first(&self, d: DeviceNo, r: RunNo) -> bool
        requires { d.0 < length self.now.table }
        ensures { result ≡ is_first r.0 (lineage_at self.now.table d.0) }
    {
        match self.table.access(d, r) {
            Some(access) => access.status == Status::Scheduled,
            None => false,
        }
    }

    /// The run is doomed: it is done with each device that it has acquired, but for the one that is
    /// out for a command of it, where there is one.
    pub fn doom(&mut self, r: RunNo, out: Option<DeviceNo>)
        ensures line { self.new.line ≡ self.old.line }
        ensures table { ChangesEach (doomed_unless out r.0) self.old.table self.new.table }
    {
        release_all(&mut self.table, r, out);
    }

    /// The run, which has nothing left to undo, is aborted: it has no access any more, and leaves
    /// the line. What stands before the first live run is sealed then.
    pub fn withdraw(&mut self, r: RunNo)
        requires run { stands (Ran r) self.old.line.marks ≡ true }
        requires sealed { IsSealed self.old.line }
        requires live { is_sealed (Ran r) self.old.line ≡ false }
        requires finished { next_undo self.old.table r.0 ≡ Undo.Finished }
        ensures marks { self.new.line.marks ≡ marks_without r.0 self.old.line.marks }
        ensures spare { self.new.line.spare ≡ self.old.line.spare + 1 }
        ensures sealed { IsSealed self.new.line }
        ensures runs { self.new.line.runs ≡ self.old.line.runs }
        ensures table { ChangesEach (λ d. removed r.0) self.old.table self.new.table }
    {
        withdraw(&mut self.table, r);
        self.line.remove(r);
        seal(&mut self.line);
    }

    /// The run commits. It stays in the line, which notes that it has ended. What stands before the
    /// first live run is sealed then.
    pub fn settle(&mut self, r: RunNo)
        requires sealed { IsSealed self.old.line }
        ensures marks { self.new.line.marks ≡ settling r.0 self.old.line.marks }
        ensures spare { self.new.line.spare ≡ self.old.line.spare }
        ensures sealed { IsSealed self.new.line }
        ensures runs { self.new.line.runs ≡ self.old.line.runs }
        ensures table { ChangesEach (λ d. committed_lineage r.0) self.old.table self.new.table }
    {
        commit(&mut self.table, r);
        self.line.settle(r);
        seal(&mut self.line);
    }
}

/// The items before the first run that has not ended are sealed.
pub fn seal(line: &mut Line)
    requires { line.old.sealed ≤ front_of line.old.marks }
    ensures { line.new ≡ record line.old { sealed = front_of line.old.marks } }
{
    let front = line.front();
    line.seal(front);
}

/// The run, which is placed in the line at this place, has an access on each of its devices, with
/// these uses of them.
fn schedule(
    table: &mut Table,
    line: &Line,
    at: u32,
    roster: &Roster,
    r: RunNo,
    uses: &[Option<PlannedUse>],
)
    requires run { IsTrue (is_run (runs_of roster.now) r.0) }
    requires few { length table.old ≤ most_devices }
    requires homed { All (λ c. c.device.0 < length table.old)
        (commands_of (runs_of roster.now) r.0) }
    requires new { (d : ℕ) → d < length table.old → touches (runs_of roster.now) r.0 d ≡ true
        → IsNewOn r.0 (drop at (items_of line.now.marks)) (lineage_at table.old d) }
    ensures { ChangesEach
        (scheduled_with (runs_of roster.now) r.0 uses.now (drop at (items_of line.now.marks)))
        table.old table.new }
{
    let commands = roster.commands(r);
    let mut done = DeviceSet::none();
    'commands: for command in commands {
        let d = command.device;
        if done.has(d) {
            continue;
        }
        done.add(d);
        if let Some(used) = use_of(uses, d) {
            let before = first_behind(line, table, at, d);
            wait_again(table, d, before);
            table.schedule(d, before, waiting(r, used));
        }
    }
}

/// The use of the device among these, which stand by the number of their device.
fn use_of(uses: &[Option<PlannedUse>], d: DeviceNo) -> Option<PlannedUse>
    ensures { result ≡ get_or uses.now d.0 None }
{
    match uses.get(d.0 as usize) {
        Some(used) => *used,
        None => None,
    }
}

/// The access of a run that has not touched the device yet, and is planned to use it so.
fn waiting(r: RunNo, used: PlannedUse) -> Access
    ensures { result ≡ record {
      run = r;
      status = Status.Scheduled;
      view = None;
      wrote = None;
      from = used.from;
      to = used.to;
    } }
{
    Access {
        run: r,
        status: Status::Scheduled,
        view: None,
        wrote: None,
        from: used.from,
        to: used.to,
    }
}

/// The first run from this place of the line on that has an access on the device.
fn first_behind(line: &Line, table: &Table, at: u32, d: DeviceNo) -> Option<RunNo>
    requires { d.0 < length table.now }
    ensures { result
        ≡ first_with_access (accesses_at table.now d.0) (drop at (items_of line.now.marks)) }
{
    'items: for k in at..line.len() {
        let item = line.get(k).unwrap();
        let found = run_with_access(table, d, item);
        if found.is_some() {
            return found;
        }
    }
    None
}

/// The run that the item is, where it has an access on the device.
fn run_with_access(table: &Table, d: DeviceNo, item: Item) -> Option<RunNo>
    requires { d.0 < length table.now }
    ensures { result ≡ first_with_access (accesses_at table.now d.0) (item ∷ []) }
{
    match item {
        Item::Ran(r) => {
            if table.next_device(r, d) == Some(d) {
                Some(r)
            } else {
                None
            }
        }
        Item::Failed(..) | Item::Back(..) => None,
    }
}

/// What the answer, which is no skipped one, tells of its device, which stands at this value then.
pub fn note_of(answer: Answer, held: Value, is_last: bool) -> Noted
    requires { is_access answer ≡ true }
    ensures view { result.view ≡ view_when (is_told answer) }
    ensures wrote { result.wrote ≡ (if is_fine answer then Some held else None) }
    ensures last { result.is_last ≡ is_last }
{
    match answer {
        Answer::Fine => Noted {
            view: View::Up,
            wrote: Some(held),
            is_last,
        },
        Answer::Found(_) => Noted {
            view: View::Up,
            wrote: None,
            is_last,
        },
        Answer::Down => Noted {
            view: View::Down,
            wrote: None,
            is_last,
        },
        Answer::Skipped => unreachable!(),
    }
}
