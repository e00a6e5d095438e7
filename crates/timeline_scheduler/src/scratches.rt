//! The room in which the timeline looks for the set of items behind which a run is placed.
ghost use Rattle.std.specs.List.{All, list_any};
ghost use Rattle.std.specs.Prelude.{IfOk, IsTrue, None, OnErr, OnOk, Some, count_by, false, length, map, not, option_map, slice_get, slice_index_or, true, ℕ, ◌+◌, ◌<◌, ◌^◌, ◌≡◌, ◌≤◌};
ghost use Rattle.command_rules.specs.Apart.{meet};
ghost use Rattle.command_rules.specs.ClosedSets.{chosen, closure, either_of};
ghost use Rattle.command_rules.specs.Items.{of_run};
ghost use Rattle.command_rules.specs.Rosters.{commands_of, is_on, is_run};
ghost use Rattle.home_types.specs.Limits.{most_devices};
ghost use Rattle.serial_line.specs.Marks.{items_of};
ghost use Rattle.timeline_scheduler.specs.Bases.{seeds};
ghost use Rattle.timeline_scheduler.specs.Gathered.{ItemsAreKnown};
ghost use Rattle.timeline_scheduler.specs.PlannedUses.{planned_again, planned_in_turn, planned_use, use_between};
ghost use Rattle.timeline_scheduler.specs.Scratches.{HoldsTimes, planned_in};
ghost use Rattle.timeline_scheduler.specs.Slots.{RunsAreHomed, is_misfit, plan_behind, slots_behind};

use crate::bases::is_needed;
use crate::gathered::Gathered;
use crate::slots::{Slots, counted_runs};
use history_book::PlannedUse;
use home_types::{Command, DeviceNo, NoMemory, RunNo, limits};
use lock_leasing::Standing;
use std::alloc::Global;
use std::marker::Model;

/// The room in which the timeline looks for the set of items behind which a run is placed, for the
/// devices of one home and so many items of a line. It holds the last set, the times of the last
/// plan, and for how long the run that was placed last is planned to use its devices.
#[derive(Drop)]
pub struct Scratch {
    slots: Slots,
    // for each item whether it is in the set
    before: Vec<bool>,
    items: u32,
    // for each of the 256 devices that a home may have
    uses: Vec<Option<PlannedUse>>,
}

impl Model for Scratch {
    ghost use Rattle.home_types.specs.Limits.{most_devices};
    ghost use Rattle.std.specs.Prelude.{length, vec_capacity, ◌≡◌, ◌≤◌};
    ghost use Rattle.timeline_scheduler.specs.Scratches.{ScratchRoom};

    ghost Value = { ScratchRoom };

    ghost view = { λ s. record {
      slots = s.slots;
      before = s.before.items;
      items = s.items;
      uses = s.uses.items;
    } };

    ghost invariant = { λ s. (length s.before.items ≤ s.items)
        × (s.items ≤ vec_capacity s.before) × (length s.uses.items ≡ most_devices) };
}

impl Scratch {
    /// Makes the room for so many devices, and for so many items of the line.
    ///
    /// Answers `NoMemory` where there is none to be had.
    pub fn open(alloc: Global, devices: u32, items: u32) -> Result<Scratch, NoMemory>
        ensures devices { IfOk result (λ scratch. length scratch.slots ≡ devices) }
        ensures items { IfOk result (λ scratch. scratch.items ≡ items) }
    {
        let slots = Slots::open(alloc, devices)?;
        let uses = no_uses(alloc)?;
        match Vec::with_capacity(alloc, items as usize) {
            Ok(before) => Ok(Scratch {
                slots,
                before,
                items,
                uses,
            }),
            Err(_) => {
                drop(slots);
                drop(uses);
                Err(NoMemory)
            }
        }
    }

    /// Makes room for one item of the line more. What it holds stays in both cases.
    ///
    /// Answers `NoMemory` where there is none to be had, or there is room for 2^32 - 1 items
    /// already: the room stays as it is.
    pub fn make_room(&mut self) -> Result<(), NoMemory>
        ensures made { OnOk result (self.new ≡ record self.old { items = self.old.items + 1 }) }
        ensures refused { OnErr result (self.new ≡ self.old) }
    {
        let Some(items) = self.items.checked_add(1) else {
            return Err(NoMemory);
        };
        let more = items as usize - self.before.len();
        if self.before.reserve_exact(more).is_err() {
            return Err(NoMemory);
        }
        self.items = items;
        Ok(())
    }

    /// From when and to when the run that was placed last is planned to use the device, in ms: from
    /// the start of its first command there to the end of its last one. `None` where it has no
    /// command there.
    pub fn planned(&self, d: DeviceNo) -> Option<(u64, u64)>
        ensures { result ≡ planned_in self.now.slots d.0 }
    {
        self.slots.planned(d)
    }

    /// Whether the item that stood at this place, counted from 0, is in the set of the run that was
    /// placed last.
    pub fn before(&self, at: u32) -> bool
        ensures { result ≡ slice_index_or self.now.before at false }
    {
        match self.before.get(at as usize) {
            Some(flag) => *flag,
            None => false,
        }
    }

    /// For each item, in the order in which they stood, whether it is in that set.
    pub fn flags(&self) -> &[bool]
        ensures { result.now ≡ self.now.before }
    {
        self.before.as_slice()
    }

    /// For how long the run that was placed last is planned to use each of its devices, by the
    /// number of the device. What is there of any other device means nothing.
    pub fn uses(&self) -> &[Option<PlannedUse>]
        ensures { result.now ≡ self.now.uses }
    {
        self.uses.as_slice()
    }

    /// Holds for how long a run with these commands is planned to use its devices, where it waits
    /// for none: the commands follow one another from this moment on, in ms.
    pub(crate) fn use_in_turn(&mut self, commands: &[Command], moment: u64)
        requires { All (λ c. c.device.0 < most_devices) commands.now }
        ensures uses { (d : ℕ) → list_any (is_on d) commands.now ≡ true → slice_get self.new.uses d
            ≡ Some (planned_use (planned_in_turn moment commands.now) d) }
        ensures rest { self.new ≡ record self.old { uses = self.new.uses } }
    {
        self.forget_uses(commands);
        let mut clock = moment;
        'commands: for command in commands {
            let from = clock;
            clock = clock.saturating_add(command.ms as u64);
            let d = command.device.0 as usize;
            self.uses[d] = Some(used_again(self.uses[d], from, clock));
        }
    }

    /// No use of the devices of these commands is held.
    fn forget_uses(&mut self, commands: &[Command])
        requires { All (λ c. c.device.0 < most_devices) commands.now }
        ensures uses { (d : ℕ) → list_any (is_on d) commands.now ≡ true
            → slice_get self.new.uses d ≡ Some None }
        ensures rest { self.new ≡ record self.old { uses = self.new.uses } }
    {
        'commands: for command in commands {
            self.uses[command.device.0 as usize] = None;
        }
    }

    /// Holds for how long a run with these commands is planned to use its devices by the last plan.
    pub(crate) fn use_as_planned(&mut self, commands: &[Command])
        requires { All (λ c. c.device.0 < most_devices) commands.now }
        ensures uses { (d : ℕ) → list_any (is_on d) commands.now ≡ true → slice_get self.new.uses d
            ≡ Some (option_map use_between (planned_in self.old.slots d)) }
        ensures rest { self.new ≡ record self.old { uses = self.new.uses } }
    {
        'commands: for command in commands {
            let d = command.device;
            self.uses[d.0 as usize] = use_between(self.slots.planned(d));
        }
    }

    /// How many items are in the set.
    pub(crate) fn count(&self) -> u32
        requires { length self.now.before < 2 ^ 32 }
        ensures { result ≡ count_by (λ flag. flag) self.now.before }
    {
        count_set(self.before.as_slice()) as u32
    }

    /// The set is that of the items of the line that must stand before the run `r` wherever it is
    /// placed.
    pub(crate) fn seed(&mut self, s: &Standing, r: RunNo)
        requires room { length s.now.line ≤ self.old.items }
        requires run { IsTrue (is_run s.now.runs r.0) }
        requires known { ItemsAreKnown s.now.runs (items_of s.now.line) }
        ensures flags { self.new ≡ record self.old {
          before = seeds s.now.history s.now.runs r.0 s.now.line;
        } }
        ensures few { length s.now.line < 2 ^ 32 }
    {
        self.before.clear();
        'items: for at in 0..s.line.len() {
            self.before.push_reserved(is_needed(s, r, at));
        }
    }

    /// The items that must stand before one of the set are put in.
    pub(crate) fn close(&mut self, s: &Standing)
        requires size { length self.old.before ≡ length s.now.line }
        requires known { ItemsAreKnown s.now.runs (items_of s.now.line) }
        ensures { self.new ≡ record self.old {
          before =
              closure (meet s.now.runs) self.old.before
              (items_of s.now.line);
        } }
    {
        let mut gathered = Gathered::new();
        let mut at = s.line.len();
        'items: while at > 0 {
            at -= 1;
            let item = s.line.get(at).unwrap();
            let flag = self.before[at as usize];
            self.before[at as usize] = gathered.take_in(s.roster, item, flag);
        }
    }

    /// Plans the run `r` behind the items of the set, its first command from this moment on, in ms.
    pub(crate) fn plan(&mut self, s: &Standing, r: RunNo, moment: u64)
        requires size { length self.old.slots ≡ length s.now.table }
        requires flags { length self.old.before ≡ length s.now.line }
        requires run { IsTrue (is_run s.now.runs r.0) }
        requires known { ItemsAreKnown s.now.runs (items_of s.now.line) }
        requires homed { RunsAreHomed (length s.now.table) s.now.runs }
        ensures times { HoldsTimes self.new.slots (plan_behind (slots_behind s.now.table
            s.now.history s.now.runs r.0 (chosen self.old.before (items_of s.now.line))
            self.old.slots) (commands_of s.now.runs r.0) moment) }
        ensures rest { self.new ≡ record self.old { slots = self.new.slots } }
        ensures size { length self.new.slots ≡ length self.old.slots }
    {
        let before = self.before.as_slice();
        let counted = counted_runs(s, before);
        self.slots.clear();
        self.slots.pass(s, r, &counted);
        self.slots.wait_for_writers(s, r, before);
        self.slots.plan(s.roster, r, moment);
    }

    /// The runs outside of the set that are planned to start on a device before the run `r`,
    /// planned so, is off it are put in. Answers whether there are some.
    pub(crate) fn take_misfits(&mut self, s: &Standing, r: RunNo) -> bool
        requires size { length self.old.slots ≡ length s.now.table }
        requires flags { length self.old.before ≡ length s.now.line }
        requires run { IsTrue (is_run s.now.runs r.0) }
        ensures flags { self.new ≡ record self.old {
          before =
              either_of self.old.before (map
              (of_run (is_misfit s.now.table s.now.runs r.0 self.old.slots))
              (items_of s.now.line));
        } }
        ensures none { result ≡ false → self.new.before ≡ self.old.before }
        ensures more { result ≡ true → count_by not self.new.before < count_by not self.old.before }
    {
        let mut some = false;
        'items: for at in 0..s.line.len() {
            if self.before[at as usize] {
                continue;
            }
            let item = s.line.get(at).unwrap();
            if !self.slots.is_misfit(s, r, item) {
                continue;
            }
            self.before[at as usize] = true;
            some = true;
        }
        some
    }
}

/// No use of any of the devices that a home may have.
fn no_uses(alloc: Global) -> Result<Vec<Option<PlannedUse>>, NoMemory>
    ensures { IfOk result (λ uses. length uses.items ≡ most_devices) }
{
    let Ok(mut uses) = Vec::with_capacity(alloc, limits::DEVICES as usize) else {
        return Err(NoMemory);
    };
    'devices: for _ in 0..limits::DEVICES {
        uses.push_reserved(None);
    }
    Ok(uses)
}

/// The use of a device with one more command, which is planned from and to these times.
fn used_again(used: Option<PlannedUse>, from: u64, to: u64) -> PlannedUse
    ensures { result ≡ planned_again used from to }
{
    match used {
        Some(used) => PlannedUse {
            from: used.from,
            to,
        },
        None => PlannedUse { from, to },
    }
}

/// The use of a device that is planned from and to these times, in ms.
fn use_between(planned: Option<(u64, u64)>) -> Option<PlannedUse>
    ensures { result ≡ option_map use_between planned }
{
    match planned {
        Some((from, to)) => Some(PlannedUse { from, to }),
        None => None,
    }
}

/// How many of these flags are set.
fn count_set(flags: &[bool]) -> usize
    ensures { result ≡ count_by (λ flag. flag) flags.now }
{
    flags.iter().filter(|flag| **flag).count()
}
