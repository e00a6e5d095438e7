//! The lineage table: the lineage of each device of a home.
ghost use Rattle.std.specs.Prelude.{◌&&◌, ◌≡◌, ◌+◌, ◌<◌, ◌≤◌, ◌==◌, ◌||◌, ◌^◌, [], false, if◌then◌else◌, IfOk, IfSome, IsSome, IsTrue, OnErr, OnOk, Some, length, not, option_map, slice_index_or, true, ℕ};
ghost use Rattle.std.specs.List.{list_any};
ghost use Rattle.std.specs.FinSet as set;
ghost use Rattle.std.specs.Option.{ForSome};
ghost use Rattle.chain_arena.specs.Chains.{values_of};
ghost use Rattle.command_rules.specs.Rosters.{is_on, runs_of};
ghost use Rattle.lineage_table.specs.Accesses.{IsDisciplined, IsFirstBefore, access_of, accesses_before, accesses_without, effective_writer, has_access, run_behind, some_acquired, some_scheduled, status_of, value_standing, written_by};
ghost use Rattle.home_types.specs.DeviceSets.{IsFirstFrom};
ghost use Rattle.home_types.specs.Limits.{most_devices};
ghost use Rattle.lineage_table.specs.Answers.{MayAnswer, answered_if};
ghost use Rattle.lineage_table.specs.RunDevices.{HasLess};
ghost use Rattle.lineage_table.specs.Lineages.{TableIsOpened, accesses_at, acquired, counted_up, lineage_at, released, removed, runs_on, scheduled, settled, undone, with_committed, with_lineage, with_more_room, with_value_written};

use crate::accesses::{Access, Status};
use crate::lineages::Lineage;
use crate::run_devices::RunDevices;
use chain_arena::Chain;
use command_rules::Roster;
use home_types::{Command, DeviceNo, DeviceSet, NoMemory, RunNo, Value, View, World};
use std::alloc::Global;
use std::marker::Model;

/// The lineages of a home's devices while a window is open, each in the place of its device's
/// number.
///
/// A device's lineage has its committed value, its accesses in line order and whether it is counted
/// up. Contracts see beside these how many more accesses it takes. Only `open` and `make_room` take
/// memory.
#[derive(Drop)]
pub struct Table {
    lineages: Vec<Lineage>,
    // the devices to which each run has an access, for the run numbers that a window may have
    devices: RunDevices,
}

impl Model for Table {
    ghost use Rattle.std.specs.Prelude.{List};
    ghost use Rattle.lineage_table.specs.Lineages.{LineageState};
    ghost use Rattle.lineage_table.specs.RunDevices.{TableIsSound};

    ghost Value = { List LineageState };

    ghost view = { λ t. t.lineages.items };

    ghost invariant = { λ t. TableIsSound t.devices t.lineages.items };
}

impl Table {
    /// Opens the table of a home, with no accesses, and room for those of the roster's runs and for
    /// no more than these.
    ///
    /// Answers `NoMemory` where there is none to be had.
    pub fn open(alloc: Global, world: &World, roster: &Roster) -> Result<Table, NoMemory>
        requires few { length world.now.devices.items ≤ most_devices }
        ensures { IfOk result (TableIsOpened (runs_of roster.now) world.now.devices.items) }
    {
        let stands = world.devices.as_slice();
        let Ok(mut lineages) = Vec::with_capacity(alloc, stands.len()) else {
            return Err(NoMemory);
        };
        let devices = RunDevices::open(alloc)?;
        let runs = count_runs(roster);
        'devices: for d in 0..stands.len() {
            lineages.push_reserved(Lineage::open(alloc, stands[d], runs[d])?);
        }
        Ok(Table { lineages, devices })
    }

    /// Makes room for one access more to the device, or answers `NoMemory`, and nothing changes
    /// then.
    pub fn make_room(&mut self, d: DeviceNo) -> Result<(), NoMemory>
        requires { d.0 < length self.old }
        ensures made { OnOk result (self.new ≡ with_lineage self.old d.0 with_more_room) }
        ensures refused { OnErr result (self.new ≡ self.old) }
    {
        let made = self.lineages[d.0 as usize].make_room();
        self.lineages[d.0 as usize].kept_invariant();
        made
    }

    /// Puts the scheduled access of a run before that of the run `before`, or last. Takes no
    /// memory.
    ///
    /// The run has no access on the device yet, the run `before` has a scheduled one, and there is
    /// room.
    pub fn schedule(&mut self, d: DeviceNo, before: Option<RunNo>, access: Access)
        requires device { d.0 < length self.old }
        requires scheduled { access.status ≡ Status.Scheduled }
        requires new { has_access access.run.0 (accesses_at self.old d.0) ≡ false }
        requires room { 0 < (lineage_at self.old d.0).room }
        requires before { ForSome before
            (λ r. status_of r.0 (accesses_at self.old d.0) ≡ Some Status.Scheduled) }
        ensures { self.new ≡ with_lineage self.old d.0 (scheduled before access) }
    {
        self.lineages[d.0 as usize].schedule(before, access);
        self.lineages[d.0 as usize].kept_invariant();
        self.devices.add(access.run, d);
    }

    /// Marks that the run has its first answer on the device, and sees it so from then on.
    ///
    /// Its access is scheduled, none is acquired, and no scheduled one stands before it.
    #[inline(always)]
    pub fn acquire(&mut self, d: DeviceNo, r: RunNo, view: View)
        requires device { d.0 < length self.old }
        requires scheduled { status_of r.0 (accesses_at self.old d.0) ≡ Some Status.Scheduled }
        requires none_acquired { some_acquired (accesses_at self.old d.0) ≡ false }
        requires first { some_scheduled (accesses_before r.0 (accesses_at self.old d.0)) ≡ false }
        ensures { self.new ≡ with_lineage self.old d.0 (acquired r.0 view) }
    {
        self.lineages[d.0 as usize].acquire(r, view);
        self.lineages[d.0 as usize].kept_invariant();
    }

    /// Marks that the run, whose access is acquired, wrote the value.
    pub fn note_write(&mut self, d: DeviceNo, r: RunNo, v: Value)
        requires device { d.0 < length self.old }
        requires acquired { status_of r.0 (accesses_at self.old d.0) ≡ Some Status.Acquired }
        ensures { self.new ≡ with_lineage self.old d.0 (with_value_written r.0 v) }
    {
        self.lineages[d.0 as usize].note_write(r, v);
        self.lineages[d.0 as usize].kept_invariant();
    }

    /// The run notes an answer on the device: with its first one it acquires it, and sees it so;
    /// then the value that it wrote, where there is one; and with its last one it is done there.
    ///
    /// Answers false, and changes nothing, where a scheduled access stands before its own.
    #[inline(always)]
    pub fn note(
        &mut self,
        d: DeviceNo,
        r: RunNo,
        view: View,
        wrote: Option<Value>,
        is_last: bool,
    ) -> bool
        requires device { d.0 < length self.old }
        requires may { MayAnswer r.0 (accesses_at self.old d.0) }
        ensures turn { result
            ≡ not (some_scheduled (accesses_before r.0 (accesses_at self.old d.0))) }
        ensures noted { self.new
            ≡ with_lineage self.old d.0 (answered_if result r.0 view wrote is_last) }
    {
        let noted = self.lineages[d.0 as usize].note(r, view, wrote, is_last);
        self.lineages[d.0 as usize].kept_invariant();
        noted
    }

    /// Marks that the run, whose access is acquired, is done with the device.
    pub fn release(&mut self, d: DeviceNo, r: RunNo)
        requires device { d.0 < length self.old }
        requires acquired { status_of r.0 (accesses_at self.old d.0) ≡ Some Status.Acquired }
        ensures { self.new ≡ with_lineage self.old d.0 (released r.0) }
    {
        self.lineages[d.0 as usize].release(r);
        self.lineages[d.0 as usize].kept_invariant();
    }

    /// Marks that what the run wrote is undone. Nothing changes where it has no access, or wrote
    /// nothing.
    pub fn undone(&mut self, d: DeviceNo, r: RunNo)
        requires { d.0 < length self.old }
        ensures { self.new ≡ with_lineage self.old d.0 (undone r.0) }
    {
        self.lineages[d.0 as usize].undone(r);
        self.lineages[d.0 as usize].kept_invariant();
    }

    /// Takes the access of the run out. Answers false where it has none.
    pub fn remove(&mut self, d: DeviceNo, r: RunNo) -> bool
        requires { d.0 < length self.old }
        ensures found { result ≡ has_access r.0 (accesses_at self.old d.0) }
        ensures left { self.new ≡ with_lineage self.old d.0 (removed r.0) }
    {
        let found = self.lineages[d.0 as usize].remove(r);
        self.lineages[d.0 as usize].kept_invariant();
        self.devices.remove(r, d);
        found
    }

    /// The access of the run, where it has one.
    #[inline(always)]
    pub fn access(&self, d: DeviceNo, r: RunNo) -> Option<Access>
        requires { d.0 < length self.now }
        ensures { result ≡ access_of r.0 (accesses_at self.now d.0) }
    {
        self.lineages[d.0 as usize].access(r)
    }

    /// The accesses to the device, in line order.
    pub fn chain(&self, d: DeviceNo) -> &Chain<Access>
        requires { d.0 < length self.now }
        ensures { values_of result.now.pairs ≡ accesses_at self.now d.0 }
    {
        self.lineages[d.0 as usize].chain()
    }

    /// The run of the first access before that of the run of which the test holds, or of all where
    /// the run has none.
    pub fn first_before<F: Fn(Access) -> bool>(
        &self,
        d: DeviceNo,
        r: RunNo,
        test: F,
    ) -> Option<RunNo>
        requires device { d.0 < length self.now }
        requires test { F.IsAlwaysCallable test }
        ensures { IsFirstBefore (F.post test) r.0 (accesses_at self.now d.0) result }
    {
        self.lineages[d.0 as usize].first_before(r, test)
    }

    /// The run of the access immediately behind that of the run. `None` where none is.
    pub fn run_behind(&self, d: DeviceNo, r: RunNo) -> Option<RunNo>
        requires { d.0 < length self.now }
        ensures { result ≡ run_behind r.0 (accesses_at self.now d.0) }
    {
        self.lineages[d.0 as usize].run_behind(r)
    }

    /// Does nothing. Its contract is what the accesses to each device keep: the released ones stand
    /// before the acquired one, and that before the scheduled ones, and no run has two.
    pub fn kept_invariant(&self)
        ensures { (d : ℕ) → IsDisciplined (accesses_at self.now d) }
    {
        let _ = &self.lineages;
    }

    /// The smallest device from `from` on to which the run has an access.
    ///
    /// Of the runs that a window may have it looks at four words at most; for others it goes over
    /// the devices.
    pub fn next_device(&self, r: RunNo, from: DeviceNo) -> Option<DeviceNo>
        ensures next { IsFirstFrom (λ d. has_access r.0 (accesses_at self.now d)) from.0
            (option_map (λ d. d.0) result) }
        ensures homed { IfSome result (λ d. d.0 < length self.now) }
        ensures few { IfSome result (λ d. d.0 < most_devices) }
    {
        if self.devices.has_set(r) {
            self.devices.next(r, from)
        } else {
            self.search_device(r, from)
        }
    }

    /// The smallest device from `from` on to which the run has an access, by going over the
    /// devices.
    fn search_device(&self, r: RunNo, from: DeviceNo) -> Option<DeviceNo>
        ensures { IsFirstFrom (λ d. has_access r.0 (accesses_at self.now d)) from.0
            (option_map (λ d. d.0) result) }
    {
        'devices: for d in from.0 as usize..self.lineages.len() {
            if self.lineages[d].access(r).is_some() {
                return Some(DeviceNo(d as u16));
            }
        }
        None
    }

    /// The devices of this set to which the run has an access.
    ///
    /// Of the runs that a window may have it looks at four words; for others it goes over the
    /// devices.
    pub fn devices_among(&self, r: RunNo, devices: &DeviceSet) -> DeviceSet
        ensures devices { (d : ℕ) → set.contains result d
            ≡ (has_access r.0 (accesses_at self.now d) && set.contains devices.now d) }
        ensures homed { (d : ℕ) → set.contains result d ≡ true
            → (d < length self.now) × (d < most_devices) }
    {
        if self.devices.has_set(r) {
            self.devices.among(r, devices)
        } else {
            self.search_among(r, devices)
        }
    }

    /// The devices of this set to which the run has an access, by going over the devices.
    fn search_among(&self, r: RunNo, devices: &DeviceSet) -> DeviceSet
        ensures { (d : ℕ) → set.contains result d
            ≡ (has_access r.0 (accesses_at self.now d) && set.contains devices.now d) }
    {
        let mut found = DeviceSet::none();
        'devices: for d in 0..self.lineages.len() {
            let device = DeviceNo(d as u16);
            if self.lineages[d].access(r).is_some() && devices.has(device) {
                found.add(device);
            }
        }
        found
    }

    /// How many more accesses the device takes.
    pub fn room(&self, d: DeviceNo) -> u64
        requires { d.0 < length self.now }
        ensures { result ≡ (lineage_at self.now d.0).room }
    {
        self.lineages[d.0 as usize].room()
    }

    /// The value that stands on the device: the last one written, else the committed one.
    pub fn stand(&self, d: DeviceNo) -> Value
        requires { d.0 < length self.now }
        ensures { result
            ≡ value_standing (lineage_at self.now d.0).committed (accesses_at self.now d.0) }
    {
        self.lineages[d.0 as usize].stand()
    }

    /// The value that would stand on the device without the run's access: what an undo of the run
    /// drives.
    pub fn stand_without(&self, d: DeviceNo, r: RunNo) -> Value
        requires { d.0 < length self.now }
        ensures { result ≡ value_standing (lineage_at self.now d.0).committed
            (accesses_without r.0 (accesses_at self.now d.0)) }
    {
        self.lineages[d.0 as usize].stand_without(r)
    }

    /// The live run that wrote the value that stands. `None` where no access has a written value.
    pub fn effective_writer(&self, d: DeviceNo) -> Option<RunNo>
        requires { d.0 < length self.now }
        ensures { result ≡ effective_writer (accesses_at self.now d.0) }
    {
        self.lineages[d.0 as usize].effective_writer()
    }

    /// Sets whether the device is counted up.
    pub fn set_up(&mut self, d: DeviceNo, up: bool)
        requires { d.0 < length self.old }
        ensures { self.new ≡ with_lineage self.old d.0 (counted_up up) }
    {
        self.lineages[d.0 as usize].set_up(up);
        self.lineages[d.0 as usize].kept_invariant();
    }

    /// Whether the device is counted up.
    pub fn is_up(&self, d: DeviceNo) -> bool
        requires { d.0 < length self.now }
        ensures { result ≡ (lineage_at self.now d.0).up }
    {
        self.lineages[d.0 as usize].is_up()
    }

    /// Commits the value that the run wrote. Its access and those before it leave.
    pub fn settle(&mut self, d: DeviceNo, r: RunNo)
        requires device { d.0 < length self.old }
        requires wrote { IsSome (written_by r.0 (accesses_at self.old d.0)) }
        ensures { self.new ≡ with_lineage self.old d.0 (settled r.0) }
    {
        take_out_through(&mut self.devices, self.lineages[d.0 as usize].chain(), d, r);
        self.lineages[d.0 as usize].settle(r);
        self.lineages[d.0 as usize].kept_invariant();
    }

    /// Sets the committed value of a device that has no accesses, as under the weak model.
    pub fn set_committed(&mut self, d: DeviceNo, v: Value)
        requires device { d.0 < length self.old }
        requires none { accesses_at self.old d.0 ≡ [] }
        ensures { self.new ≡ with_lineage self.old d.0 (with_committed v) }
    {
        self.lineages[d.0 as usize].set_committed(v);
        self.lineages[d.0 as usize].kept_invariant();
    }

    /// The number of devices.
    pub fn devices(&self) -> u32
        ensures count { result ≡ length self.now }
        ensures few { result ≤ 2 ^ 16 }
    {
        self.lineages.len() as u32
    }
}

/// Takes the device out of the sets of the run and of those whose accesses stand before its own.
fn take_out_through(devices: &mut RunDevices, accesses: &Chain<Access>, d: DeviceNo, r: RunNo)
    requires device { d.0 < most_devices }
    requires access { IsTrue (has_access r.0 (values_of accesses.now.pairs)) }
    ensures { HasLess
        (λ q. has_access q (accesses_before r.0 (values_of accesses.now.pairs)) || (q == r.0)) d.0
        devices.old devices.new }
{
    'leaving: for (_, access) in accesses.iter() {
        devices.remove(access.run, d);
        if access.run == r {
            return;
        }
    }
    unreachable!()
}

/// For each device that a home may have, how many runs of the roster have it in their footprint.
/// Goes over the commands once.
fn count_runs(roster: &Roster) -> [usize; 256]
    ensures { (d : ℕ) → d < most_devices
        → slice_index_or result d 0 ≡ runs_on (runs_of roster.now) d }
{
    let mut counts = [0; 256];
    'runs: for run in roster.runs.as_slice() {
        count_run(&mut counts, run.routine.commands.as_slice());
    }
    counts
}

/// Counts one run more for each device of its commands.
fn count_run(counts: &mut [usize; 256], commands: &[Command])
    requires room { (d : ℕ) → d < most_devices → slice_index_or counts.old d 0 + 1 < 2 ^ 64 }
    ensures { (d : ℕ) → d < most_devices → slice_index_or counts.new d 0
        ≡ slice_index_or counts.old d 0 + (if list_any (is_on d) commands.now then 1 else 0) }
{
    let mut seen = DeviceSet::none();
    'commands: for command in commands {
        let device = command.device;
        if device.0 < 256 && !seen.has(device) {
            seen.add(device);
            counts[device.0 as usize] += 1;
        }
    }
}
