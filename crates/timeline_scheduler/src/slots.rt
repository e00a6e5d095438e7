//! For each device, when it is free behind the items that stand before a run, and when the run is
//! planned to use it.
ghost use Rattle.std.specs.Prelude.{IfNone, IfOk, IfSome, IsTrue, None, Some, false, fold, length, max, slice_index_or, true, ℕ, ◌-◌, ◌<◌, ◌≡◌};
ghost use Rattle.chain_arena.specs.Chains.{values_of};
ghost use Rattle.command_rules.specs.ClosedSets.{chosen};
ghost use Rattle.command_rules.specs.Items.{is_ran, of_run};
ghost use Rattle.command_rules.specs.Rosters.{commands_of, is_run, runs_of};
ghost use Rattle.home_types.specs.declared.items.Item.TheVariants.{Ran};
ghost use Rattle.home_types.specs.declared.items.Item.{Item};
ghost use Rattle.lineage_table.specs.Accesses.{access_of, has_access};
ghost use Rattle.lineage_table.specs.Lineages.{accesses_at};
ghost use Rattle.serial_line.specs.Marks.{items_of};
ghost use Rattle.timeline_scheduler.specs.Gathered.{IsKnown, ItemsAreKnown};
ghost use Rattle.timeline_scheduler.specs.Scratches.{HoldsTimes, planned_in};
ghost use Rattle.timeline_scheduler.specs.Slots.{RunsAreHomed, changed, cleared, devices_among, is_counted, is_misfit, later_end, latest_end, overlaps, plan_behind, slot_at, slot_behind, slot_waiting, used_again, waited_item, waited_run, whole_passed};

use crate::gathered::PLACES;
use chain_arena::{Chain, Knot};
use command_rules::IndexedRoster;
use home_types::{DeviceNo, Item, NoMemory, RunNo};
use lineage_table::{Access, Status, Table, knot_from};
use lock_leasing::Standing;
use std::alloc::Global;
use std::marker::Model;

/// What is known of a device behind the items that stand before a run.
#[derive(Clone, Copy, Debug, PartialEq, Eq)]
pub struct Slot {
    /// When it is free for the run, in ms.
    pub(crate) free: u64,
    /// From when and to when the run is planned to use the device, in ms. `None` where it does not.
    pub(crate) planned: Option<(u64, u64)>,
}

/// A device of which nothing was passed, and for which nothing is planned.
const FREE: Slot = Slot {
    free: 0,
    planned: None,
};

/// What is known of each device of a home.
#[derive(Drop)]
pub(crate) struct Slots {
    slots: Vec<Slot>,
    // for each device where the access that was looked at last stands
    nears: Vec<Option<Knot>>,
}

impl Model for Slots {
    ghost use Rattle.std.specs.Prelude.{List, length, ◌≡◌};
    ghost use Rattle.timeline_scheduler.specs.declared.slots.Slot.{Slot};

    ghost Value = { List Slot };

    ghost view = { λ s. s.slots.items };

    ghost invariant = { λ s. length s.nears.items ≡ length s.slots.items };
}

impl Slots {
    /// Makes the room for so many devices.
    ///
    /// Answers `NoMemory` where there is none to be had.
    pub(crate) fn open(alloc: Global, devices: u32) -> Result<Slots, NoMemory>
        ensures { IfOk result (λ slots. length slots ≡ devices) }
    {
        let Ok(mut slots) = Vec::with_capacity(alloc, devices as usize) else {
            return Err(NoMemory);
        };
        let Ok(mut nears) = Vec::with_capacity(alloc, devices as usize) else {
            return Err(NoMemory);
        };
        'devices: for _ in 0..devices {
            slots.push_reserved(FREE);
            nears.push_reserved(None);
        }
        Ok(Slots { slots, nears })
    }

    /// From when and to when a run is planned to use the device, in ms: from the start of its first
    /// command there to the end of its last one. `None` where it has no command there.
    pub(crate) fn planned(&self, d: DeviceNo) -> Option<(u64, u64)>
        ensures { result ≡ planned_in self.now d.0 }
    {
        match self.slots.get(d.0 as usize) {
            Some(slot) => slot.planned,
            None => None,
        }
    }

    /// Nothing was passed, and nothing is planned.
    pub(crate) fn clear(&mut self)
        ensures { self.new ≡ cleared self.old }
    {
        'devices: for d in 0..self.slots.len() {
            self.slots[d] = FREE;
        }
    }

    /// The runs that are counted stand before the run `r`: each device of `r` is free at the latest
    /// planned end there, of those of them that are not done with it.
    pub(crate) fn pass(&mut self, s: &Standing, r: RunNo, counted: &[bool])
        requires size { length self.old ≡ length s.now.table }
        requires run { IsTrue (is_run s.now.runs r.0) }
        requires homed { RunsAreHomed (length s.now.table) s.now.runs }
        ensures { self.new
            ≡ changed (slot_behind s.now.table (λ x. slice_index_or counted.now x false))
            (devices_among s.now.runs r.0 (length self.old)) self.old }
    {
        s.roster.kept_invariant();
        let footprint = s.roster.devices(r);
        let mut from = DeviceNo(0);
        'devices: while let Some(d) = footprint.next(from) {
            let slot = self.slots[d.0 as usize];
            let free = latest_end(s.table.chain(d), counted);
            self.slots[d.0 as usize] = Slot { free, ..slot };
            from = DeviceNo(d.0 + 1);
        }
    }

    /// The items with a flag stand before the run `r`, which waits for those of them that write a
    /// device on which it begins with a read.
    pub(crate) fn wait_for_writers(&mut self, s: &Standing, r: RunNo, before: &[bool])
        requires size { length self.old ≡ length s.now.table }
        requires flags { length before.now ≡ length s.now.line }
        requires run { IsTrue (is_run s.now.runs r.0) }
        requires known { ItemsAreKnown s.now.runs (items_of s.now.line) }
        requires homed { RunsAreHomed (length s.now.table) s.now.runs }
        ensures { self.new ≡ fold (λ ss i. waited_item s.now.table s.now.runs r.0 i ss) self.old
            (chosen before.now (items_of s.now.line)) }
    {
        'items: for at in 0..s.line.len() {
            if !before[at as usize] {
                continue;
            }
            let item = s.line.get(at).unwrap();
            self.wait_for(s, r, item);
        }
    }

    /// This item stands before the run `r`: where it is a run that writes a device on which `r`
    /// begins with a read, the device is free at the planned end of that whole run.
    fn wait_for(&mut self, s: &Standing, r: RunNo, item: Item)
        requires size { length self.old ≡ length s.now.table }
        requires run { IsTrue (is_run s.now.runs r.0) }
        requires known { IsKnown s.now.runs item }
        requires homed { RunsAreHomed (length s.now.table) s.now.runs }
        ensures { self.new ≡ waited_item s.now.table s.now.runs r.0 item self.old }
    {
        match item {
            Item::Ran(x) => self.wait_for_run(s, r, x),
            Item::Failed(..) | Item::Back(..) => {}
        }
    }

    /// Where the run `r` begins with a read on a device that the run `x` writes, the device is free
    /// at the planned end of the whole run `x`.
    fn wait_for_run(&mut self, s: &Standing, r: RunNo, x: RunNo)
        requires size { length self.old ≡ length s.now.table }
        requires run { IsTrue (is_run s.now.runs r.0) }
        requires other { IsTrue (is_run s.now.runs x.0) }
        requires homed { RunsAreHomed (length s.now.table) s.now.runs }
        ensures { self.new ≡ waited_run s.now.table s.now.runs r.0 x.0 self.old }
    {
        let waiting = s.roster.first_reads_of(r, x);
        match waiting.next(DeviceNo(0)) {
            Some(_) => {
                let whole = self.whole_end(s.table, x);
                self.wait_for_writer(s.roster, r, x, whole);
            }
            None => {}
        }
    }

    /// The planned end of the whole run `x`, by its accesses.
    fn whole_end(&mut self, table: &Table, x: RunNo) -> u64
        requires size { length self.old ≡ length table.now }
        ensures slots { self.new ≡ self.old }
        ensures whole { result ≡ whole_passed table.now x.0 }
    {
        table.kept_invariant();
        let mut whole = 0;
        let mut from = DeviceNo(0);
        'devices: while let Some(d) = table.next_device(x, from) {
            let access = find(table, d, x, &mut self.nears[d.0 as usize]);
            whole = whole.max(access.to);
            from = DeviceNo(d.0 + 1);
        }
        whole
    }

    /// Where the run `r` begins with a read on a device that the run `x` writes, the device is free
    /// at the planned end of the whole run `x`.
    fn wait_for_writer(&mut self, roster: &IndexedRoster, r: RunNo, x: RunNo, whole: u64)
        requires run { IsTrue (is_run (runs_of roster.now) r.0) }
        requires writer { IsTrue (is_run (runs_of roster.now) x.0) }
        requires homed { RunsAreHomed (length self.old) (runs_of roster.now) }
        ensures { self.new ≡ changed (slot_waiting (runs_of roster.now) r.0 x.0 whole)
            (devices_among (runs_of roster.now) r.0 (length self.old)) self.old }
    {
        roster.kept_invariant();
        let waiting = roster.first_reads_of(r, x);
        let mut from = DeviceNo(0);
        'devices: while let Some(d) = waiting.next(from) {
            let slot = self.slots[d.0 as usize];
            self.slots[d.0 as usize] = slot.behind_writer(whole);
            from = DeviceNo(d.0 + 1);
        }
    }

    /// Plans the commands of the run `r` behind the items that were passed: each starts when the
    /// one before it ends, the first at this moment, in ms, and when its device is free, and takes
    /// as long as its estimate.
    ///
    /// Asks that nothing is planned yet.
    pub(crate) fn plan(&mut self, roster: &IndexedRoster, r: RunNo, moment: u64)
        requires run { IsTrue (is_run (runs_of roster.now) r.0) }
        requires homed { RunsAreHomed (length self.old) (runs_of roster.now) }
        requires none { (d : ℕ) → (slot_at self.old d).planned ≡ None }
        ensures times { HoldsTimes self.new
            (plan_behind self.old (commands_of (runs_of roster.now) r.0) moment) }
        ensures size { length self.new ≡ length self.old }
    {
        let commands = roster.commands(r);
        let mut clock = moment;
        'commands: for command in commands {
            let slot = self.slots[command.device.0 as usize];
            let start = clock.max(slot.free);
            clock = start.saturating_add(command.ms as u64);
            let planned = Some(used_again(slot.planned, start, clock));
            self.slots[command.device.0 as usize] = Slot { planned, ..slot };
        }
    }

    /// Whether the item is a run that is planned to start on a device of the run `r` before `r`,
    /// planned so, is off it.
    pub(crate) fn is_misfit(&mut self, s: &Standing, r: RunNo, item: Item) -> bool
        requires size { length self.old ≡ length s.now.table }
        requires run { IsTrue (is_run s.now.runs r.0) }
        ensures misfit { result ≡ of_run (is_misfit s.now.table s.now.runs r.0 self.old) item }
        ensures slots { self.new ≡ self.old }
    {
        match item {
            Item::Ran(x) => self.overlaps(s, r, x),
            Item::Failed(..) | Item::Back(..) => false,
        }
    }

    /// Whether that is so of the run `x`.
    fn overlaps(&mut self, s: &Standing, r: RunNo, x: RunNo) -> bool
        requires size { length self.old ≡ length s.now.table }
        requires run { IsTrue (is_run s.now.runs r.0) }
        ensures misfit { result ≡ is_misfit s.now.table s.now.runs r.0 self.old x.0 }
        ensures slots { self.new ≡ self.old }
    {
        let shared = s.table.devices_among(x, s.roster.devices(r));
        let mut from = DeviceNo(0);
        'shared: while let Some(d) = shared.next(from) {
            let access = find(s.table, d, x, &mut self.nears[d.0 as usize]);
            if self.slots[d.0 as usize].overlaps(access) {
                return true;
            }
            from = DeviceNo(d.0 + 1);
        }
        false
    }
}

impl Slot {
    /// The slot behind a run that writes the device, whose whole plan ends at this moment: the
    /// device is free then.
    fn behind_writer(self, whole: u64) -> Slot
        ensures { result ≡ record self { free = max self.free whole } }
    {
        Slot {
            free: self.free.max(whole),
            ..self
        }
    }

    /// Whether this access is planned to start before the plan ends on the device.
    fn overlaps(self, access: Access) -> bool
        ensures { result ≡ overlaps self (Some access) }
    {
        match self.planned {
            Some((_, to)) => access.from < to,
            None => false,
        }
    }
}

/// The access of the run `x` to the device. It is looked for behind the one at `near` first, which
/// is then where it stands.
fn find(table: &Table, d: DeviceNo, x: RunNo, near: &mut Option<Knot>) -> Access
    requires device { d.0 < length table.now }
    requires there { has_access x.0 (accesses_at table.now d.0) ≡ true }
    ensures { access_of x.0 (accesses_at table.now d.0) ≡ Some result }
{
    table.kept_invariant();
    let accesses = table.chain(d);
    accesses.kept_invariant();
    let k = knot_from(accesses, x, *near).unwrap();
    *near = Some(k);
    *accesses.get(k)
}

/// For each number of a run whether it is one of the items with a flag, and not doomed.
pub(crate) fn counted_runs(s: &Standing, before: &[bool]) -> [bool; PLACES]
    requires flags { length before.now ≡ length s.now.line }
    requires known { ItemsAreKnown s.now.runs (items_of s.now.line) }
    ensures { (x : ℕ) → slice_index_or result x false
        ≡ is_counted s.now.history (chosen before.now (items_of s.now.line)) x }
{
    let mut counted = [false; PLACES];
    'items: for at in 0..s.line.len() {
        if !before[at as usize] {
            continue;
        }
        let item = s.line.get(at).unwrap();
        let Some(x) = run_of(item) else {
            continue;
        };
        counted[x.0 as usize] = !s.book.is_doomed(x);
    }
    counted
}

/// The run that the item is. `None` where it is an event.
fn run_of(item: Item) -> Option<RunNo>
    ensures some { IfSome result (λ x. item ≡ Ran x) }
    ensures none { IfNone result ((x : ℕ) → is_ran x item ≡ false) }
{
    match item {
        Item::Ran(x) => Some(x),
        Item::Failed(..) | Item::Back(..) => None,
    }
}

/// The latest planned end of these accesses, of those of runs that are counted and are not done
/// with the device.
fn latest_end(accesses: &Chain<Access>, counted: &[bool]) -> u64
    ensures { result ≡ latest_end (λ x. slice_index_or counted.now x false)
        (values_of accesses.now.pairs) }
{
    accesses
        .iter()
        .fold(0, |end, (_, access)| later_end(end, *access, counted))
}

/// The latest planned end with this access, where it was this one without it.
fn later_end(end: u64, access: Access, counted: &[bool]) -> u64
    ensures { result ≡ later_end (λ x. slice_index_or counted.now x false) end access }
{
    if access.status != Status::Released && is_set(counted, access.run) {
        end.max(access.to)
    } else {
        end
    }
}

/// Whether the flag of the run is set.
fn is_set(flags: &[bool], x: RunNo) -> bool
    ensures { result ≡ slice_index_or flags.now x.0 false }
{
    match flags.get(x.0 as usize) {
        Some(flag) => *flag,
        None => false,
    }
}

/// The use of a device with one more command, which is planned from and to these times, in ms.
fn used_again(used: Option<(u64, u64)>, from: u64, to: u64) -> (u64, u64)
    ensures { result ≡ used_again used from to }
{
    match used {
        Some((first, _)) => (first, to),
        None => (from, to),
    }
}
