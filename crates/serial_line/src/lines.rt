ghost use Rattle.std.specs.Prelude.{◌≡◌, true, false, if◌then◌else◌, ◌++◌, ◌+◌, ◌-◌, ◌<◌, ◌≤◌, ◌^◌, [], drop, insert, is_some, length, max, option_map, remove, slice_get, take, unwrap_or, IfOk, IfSome, IsTrue, OnOk, OnErr, Some, ℕ};
ghost use Rattle.command_rules.specs.Apart.{meet};
ghost use Rattle.command_rules.specs.ClosedSets.{Exchanged, HoldsFirst, IsClosed, are_apart, brought, exchanged, may_pass, rearranged};
ghost use Rattle.command_rules.specs.Footprints.{FitsIndex};
ghost use Rattle.command_rules.specs.Rosters.{plain_run, runs_of};
ghost use Rattle.home_types.specs.Limits.{most_devices, most_runs};
ghost use Rattle.home_types.specs.declared.commands.Command.{Command};
ghost use Rattle.home_types.specs.declared.items.Item.TheVariants.{Ran};
ghost use Rattle.serial_line.specs.KeptRuns.{AreKeptOf, KeepsOneMore, is_known};
ghost use Rattle.serial_line.specs.Labels.{AreGivenAnew, LabelsAreInOrder, end_leaves_room, has_free, is_sealed, label_of, labels_without, new_label};
ghost use Rattle.serial_line.specs.Marks.{all_differ, front_of, items_of, last_meeting, mark_has_touched, marks_without, meet_marks, meets, place_of, settling, stands, touching, with_item};
ghost use Rattle.serial_line.specs.RunPlaces.{ArePlacesBefore, AreRunPlaces, with_place};

use crate::entries::MarkedItem;
use crate::kept_runs::KeptRuns;
use crate::order_labels::{insert_label, remove_label, with_room};
use command_rules::{Roster, RosterRun};
use home_types::{DeviceNo, DeviceSet, Item, NoMemory, RunNo, limits};
use std::alloc::Global;
use std::marker::Model;

/// The places that are kept: one for each run that a window may have, by its number.
const PLACES: usize = limits::RUNS as usize + 1;

/// The line of a window: its items in their order, each with a label, by which two of them are
/// compared. The first items may be sealed: no item comes between them any more, and none of them
/// leaves.
///
/// The line keeps the devices of each run of its window, and whom it follows. So it tells of two
/// neighbours whether they are apart: they share no device, and neither follows the other. These
/// may be exchanged.
///
/// Contracts see each item with the devices that it has touched and whether it is a run that has
/// ended, the labels in the same order, how many more items the line takes with no memory, how many
/// are sealed, and the runs of the window, with one command for each of their devices.
#[derive(Drop)]
pub struct Line {
    entries: Vec<MarkedItem>,
    // of each item, in the order of the items
    labels: Vec<u64>,
    spare: u32,
    // where each run stands, so that a question about a run looks at no other item
    places: [Option<u32>; PLACES],
    // how many items stand before the first run that has not ended
    front: u32,
    // how many of the first items are sealed
    sealed: u32,
    runs: KeptRuns,
}

impl Model for Line {
    ghost use Rattle.serial_line.specs.Marks.{Marked, marked_code};

    ghost Value = { Marked };

    ghost coded = { marked_code };

    ghost use Rattle.serial_line.specs.Lines.{LineIsSound};

    ghost view = { λ l. record {
      marks = l.entries.items;
      labels = l.labels.items;
      spare = l.spare;
      sealed = l.sealed;
      runs = l.runs;
    } };

    ghost invariant = { LineIsSound };
}

impl Line {
    /// Makes an empty line for the runs of this roster, and keeps their devices and whom they
    /// follow, with room for as many runs as a window may have. Answers `NoMemory` where there is
    /// none to be had.
    ///
    /// Asks that each command is on one of the 256 devices that a home may have, and that there are
    /// no more of a run than a routine may have.
    pub fn open(alloc: Global, roster: &Roster) -> Result<Line, NoMemory>
        requires { FitsIndex (runs_of roster.now) }
        ensures empty { IfOk result (λ line. line.marks ≡ []) }
        ensures no_label { IfOk result (λ line. line.labels ≡ []) }
        ensures no_room { IfOk result (λ line. line.spare ≡ 0) }
        ensures none_sealed { IfOk result (λ line. line.sealed ≡ 0) }
        ensures runs { IfOk result (λ line. AreKeptOf (runs_of roster.now) line.runs) }
    {
        let runs = KeptRuns::of(alloc, roster)?;
        Ok(Line {
            entries: Vec::new(alloc),
            labels: Vec::new(alloc),
            spare: 0,
            places: [None; PLACES],
            front: 0,
            sealed: 0,
            runs,
        })
    }

    /// Keeps the devices of one run more, the last one of the window then, and whom it follows. The
    /// items and all that is told of them stay. Takes no memory.
    ///
    /// Asks that fewer runs are kept than a window may have, and that each command of the run is on
    /// one of the 256 devices that a home may have.
    pub fn join(&mut self, run: &RosterRun)
        requires few { length self.old.runs < most_runs }
        requires low { (k : ℕ) (c : Command) → slice_get run.now.routine.commands.items k ≡ Some c
            → c.device.0 < most_devices }
        ensures joined { KeepsOneMore self.old.runs self.new.runs (plain_run run.now) }
        ensures rest { self.new ≡ record self.old { runs = self.new.runs } }
    {
        self.runs.join(run);
    }

    /// Makes room for `n` more items and for no more than these, or answers `NoMemory`. The items
    /// and their labels stay in both cases, and so does the room that there was.
    ///
    /// Asks that the items and the `n` together are below 2^32.
    pub fn reserve(&mut self, n: u64) -> Result<(), NoMemory>
        requires few { length self.old.marks + n < 2 ^ 32 }
        ensures marks { self.new.marks ≡ self.old.marks }
        ensures labels { self.new.labels ≡ self.old.labels }
        ensures sealed { self.new.sealed ≡ self.old.sealed }
        ensures runs { self.new.runs ≡ self.old.runs }
        ensures room { OnOk result (self.new.spare ≡ max self.old.spare n) }
        ensures kept { self.old.spare ≤ self.new.spare }
        ensures refused { OnErr result (self.new ≡ self.old) }
        ensures few { length self.new.marks + self.new.spare < 2 ^ 32 }
    {
        let more = n as u32;
        if self.spare < more {
            // both have room for just as many more in each case, so the labels are moved last
            let alloc = *self.labels.allocator();
            let labels = with_room(alloc, self.labels.as_slice(), n as usize)?;
            if self.entries.reserve_exact(n as usize).is_err() {
                return Err(NoMemory);
            }
            self.labels = labels;
            self.spare = more;
        }
        Ok(())
    }

    /// Puts an item at the place `at`, counted from 0: a run that has touched nothing, or an event.
    /// The others stay in their order, with their touches, and with their labels where one is free
    /// for the item, which gets the one in the middle; else those of the items that are not sealed
    /// are given anew. Takes no memory, and uses one place of the room.
    ///
    /// Asks for room, for a place up to the end and behind the items that are sealed, and for an
    /// item that is not in the line; a run is one of the window.
    pub fn insert(&mut self, at: u32, item: Item)
        requires room { 0 < self.old.spare }
        requires place { at ≤ length self.old.marks }
        requires unsealed { self.old.sealed ≤ at }
        requires absent { stands item self.old.marks ≡ false }
        requires known { IsTrue (is_known self.old.runs item) }
        ensures marks { self.new.marks ≡ with_item at item self.old.marks }
        ensures spare { self.new.spare + 1 ≡ self.old.spare }
        ensures sealed { self.new.sealed ≡ self.old.sealed }
        ensures runs { self.new.runs ≡ self.old.runs }
        ensures final_labels { take self.old.sealed self.new.labels
            ≡ take self.old.sealed self.old.labels }
        ensures labels { has_free 0 at self.old.labels ≡ true
            → remove self.new.labels at ≡ self.old.labels }
        ensures given { has_free 0 at self.old.labels ≡ true
            → self.new.labels ≡ insert self.old.labels at (new_label at self.old.labels) }
        ensures anew { has_free 0 at self.old.labels ≡ false
            → AreGivenAnew self.old.sealed self.new.labels }
    {
        let inserted = self.entries.insert(at as usize, MarkedItem::new(item));
        inserted.unwrap();
        insert_label(&mut self.labels, at, self.sealed);
        self.spare -= 1;
        let entries = self.entries.as_slice();
        tell_places(&mut self.places, entries, at);
        self.front = front_from(entries, self.front.min(at));
    }

    /// Takes a run out, and keeps its room; answers whether it was there. The others stay in their
    /// order, with their touches, and with their labels where the last of these leaves room for
    /// 2^32 more items; else those of the items that are not sealed are given anew.
    ///
    /// Asks that the run is none of those that are sealed.
    pub fn remove(&mut self, run: RunNo) -> bool
        requires unsealed { is_sealed (Ran run) self.old ≡ false }
        ensures was_there { result ≡ stands (Ran run) self.old.marks }
        ensures marks { self.new.marks ≡ marks_without run.0 self.old.marks }
        ensures spare { self.new.spare ≡ (if result then self.old.spare + 1 else self.old.spare) }
        ensures sealed { self.new.sealed ≡ self.old.sealed }
        ensures runs { self.new.runs ≡ self.old.runs }
        ensures final_labels { take self.old.sealed self.new.labels
            ≡ take self.old.sealed self.old.labels }
        ensures labels { end_leaves_room (labels_without run self.old) ≡ true
            → self.new.labels ≡ labels_without run self.old }
        ensures anew { IsTrue result → end_leaves_room (labels_without run self.old) ≡ false
            → AreGivenAnew self.old.sealed self.new.labels }
    {
        match self.place_of(Item::Ran(run)) {
            Some(at) => {
                self.entries.remove(at as usize);
                remove_label(&mut self.labels, at, self.sealed);
                self.spare += 1;
                let entries = self.entries.as_slice();
                tell_place(&mut self.places, Item::Ran(run), None);
                tell_places(&mut self.places, entries, at);
                self.front = front_from(entries, self.front.min(at));
                true
            }
            None => false,
        }
    }

    /// The run has touched the device from now on, one of the 256 that a home may have. Takes no
    /// memory.
    pub fn mark(&mut self, run: RunNo, device: DeviceNo)
        requires run { stands (Ran run) self.old.marks ≡ true }
        requires device { device.0 < most_devices }
        ensures marks { self.new.marks ≡ touching run.0 device.0 self.old.marks }
        ensures labels { self.new.labels ≡ self.old.labels }
        ensures spare { self.new.spare ≡ self.old.spare }
        ensures sealed { self.new.sealed ≡ self.old.sealed }
        ensures runs { self.new.runs ≡ self.old.runs }
    {
        if let Some(at) = self.place_of(Item::Ran(run)) {
            self.entries[at as usize].touch(run, device);
        }
    }

    /// The run, where it is in the line, has ended, and stays there. Takes no memory.
    pub fn settle(&mut self, run: RunNo)
        ensures marks { self.new.marks ≡ settling run.0 self.old.marks }
        ensures labels { self.new.labels ≡ self.old.labels }
        ensures spare { self.new.spare ≡ self.old.spare }
        ensures sealed { self.new.sealed ≡ self.old.sealed }
        ensures runs { self.new.runs ≡ self.old.runs }
    {
        if let Some(at) = self.place_of(Item::Ran(run)) {
            self.entries[at as usize].settle();
            self.front = front_from(self.entries.as_slice(), self.front);
        }
    }

    /// Whether items stand at this place, counted from 0, and the next one, and are apart: they
    /// share no device, and neither is a run that follows the other.
    pub fn apart(&self, at: u32) -> bool
        ensures { result ≡ are_apart (meet self.now.runs) at (items_of self.now.marks) }
    {
        let first = self.entries.get(at as usize);
        let second = self.entries.get(at as usize + 1);
        match (first, second) {
            (Some(first), Some(second)) => !self.runs.meet(first.item(), second.item()),
            _ => false,
        }
    }

    /// Exchanges the item at this place, counted from 0, and the next one, each with its touches.
    /// All else stays, and so do the labels in their places. Takes no memory.
    ///
    /// Asks that the two are there and apart, and that neither is sealed.
    pub fn swap(&mut self, at: u32)
        requires apart { IsTrue (are_apart (meet self.old.runs) at (items_of self.old.marks)) }
        requires unsealed { self.old.sealed ≤ at }
        ensures marks { self.new.marks ≡ exchanged at self.old.marks }
        ensures labels { self.new.labels ≡ self.old.labels }
        ensures spare { self.new.spare ≡ self.old.spare }
        ensures sealed { self.new.sealed ≡ self.old.sealed }
        ensures runs { self.new.runs ≡ self.old.runs }
    {
        self.entries.swap(at as usize, at as usize + 1);
        let entries = self.entries.as_slice();
        tell_place(&mut self.places, entries[at as usize].item(), Some(at));
        tell_place(
            &mut self.places,
            entries[at as usize + 1].item(),
            Some(at + 1),
        );
        self.front = front_from(entries, self.front.min(at));
    }

    /// The item at the place `from` comes to the place `to`, which is not behind it; those between
    /// stand behind it.
    fn bring(&mut self, to: u32, from: u32)
        requires order { to ≤ from }
        requires apart { IsTrue (may_pass (meet_marks self.old.runs) to from self.old.marks) }
        requires unsealed { to < from → self.old.sealed ≤ to }
        ensures marks { self.new.marks
            ≡ take to self.old.marks ++ brought (from - to) (drop to self.old.marks) }
        ensures exchanges { Exchanged (meet_marks self.old.runs) self.old.marks self.new.marks }
        ensures labels { self.new.labels ≡ self.old.labels }
        ensures spare { self.new.spare ≡ self.old.spare }
        ensures sealed { self.new.sealed ≡ self.old.sealed }
        ensures runs { self.new.runs ≡ self.old.runs }
    {
        let mut at = from;
        'past: while at > to {
            self.swap(at - 1);
            at -= 1;
        }
    }

    /// The items with a flag stand before the others, each part in its order, with their touches:
    /// it exchanges neighbours that are apart, and those that are sealed stay. The labels stay in
    /// their places. Takes no memory.
    ///
    /// Asks for a flag for each item. Each item that is sealed has one, and with each item that has
    /// one also each item before it that is not apart from it.
    pub fn rearrange(&mut self, before: &[bool])
        requires size { length before.now ≡ length self.old.marks }
        requires closed { IsClosed (meet self.old.runs) before.now (items_of self.old.marks) }
        requires sealed { HoldsFirst self.old.sealed before.now }
        ensures marks { self.new.marks ≡ rearranged before.now self.old.marks }
        ensures exchanges { Exchanged (meet_marks self.old.runs) self.old.marks self.new.marks }
        ensures stay { take self.old.sealed self.new.marks ≡ take self.old.sealed self.old.marks }
        ensures labels { self.new.labels ≡ self.old.labels }
        ensures spare { self.new.spare ≡ self.old.spare }
        ensures sealed { self.new.sealed ≡ self.old.sealed }
        ensures runs { self.new.runs ≡ self.old.runs }
    {
        let mut done = 0;
        'items: for at in 0..self.len() {
            if before[at as usize] {
                self.bring(done, at);
                done += 1;
            }
        }
    }

    /// How many items stand before the first run that has not ended: all where there is none. Looks
    /// at no item.
    pub fn front(&self) -> u32
        ensures front { result ≡ front_of self.now.marks }
        ensures within { result ≤ length self.now.marks }
    {
        self.front
    }

    /// How many of the first items are sealed: these stay, in their places and with their labels.
    pub fn sealed(&self) -> u32
        ensures sealed { result ≡ self.now.sealed }
        ensures within { result ≤ length self.now.marks }
    {
        self.sealed
    }

    /// The first `upto` items are sealed from now on. Takes no memory.
    ///
    /// Asks for no fewer than are sealed, and for no more than there are.
    pub fn seal(&mut self, upto: u32)
        requires grows { self.old.sealed ≤ upto }
        requires within { upto ≤ length self.old.marks }
        ensures { self.new ≡ record self.old { sealed = upto } }
    {
        self.sealed = upto;
    }

    /// The label of an item: of two items of the line the earlier one has the smaller label. `None`
    /// where the item is not in the line.
    pub fn label(&self, item: Item) -> Option<u64>
        ensures label { result ≡ label_of item self.now }
        ensures there { is_some result ≡ stands item self.now.marks }
        ensures in_order { LabelsAreInOrder self.now }
        ensures each { length self.now.labels ≡ length self.now.marks }
    {
        match self.place_of(item) {
            Some(at) => Some(self.labels[at as usize]),
            None => None,
        }
    }

    /// The place of an item, counted from 0; no item stands twice. `None` where it is not in the
    /// line.
    pub fn place_of(&self, item: Item) -> Option<u32>
        ensures place { result ≡ place_of item self.now.marks }
        ensures there { is_some result ≡ stands item self.now.marks }
        ensures once { all_differ (items_of self.now.marks) ≡ true }
    {
        let _ = &self.places;
        match self.kept_place(item) {
            Some(place) => place,
            None => self.search(item),
        }
    }

    /// The place that is kept of the item, `None` where none is: it is no run, or one of a number
    /// that no window has.
    fn kept_place(&self, item: Item) -> Option<Option<u32>>
        ensures { IfSome result (λ place. place ≡ place_of item self.now.marks) }
    {
        match item {
            Item::Ran(run) => self.places.get(run.0 as usize).copied(),
            Item::Failed(..) | Item::Back(..) => None,
        }
    }

    /// The place of an item, by a search from the end.
    fn search(&self, item: Item) -> Option<u32>
        ensures { result ≡ place_of item self.now.marks }
    {
        let mut at = self.entries.len();
        while at > 0 {
            at -= 1;
            if self.entries[at].is(item) {
                return Some(at as u32);
            }
        }
        None
    }

    /// The item at the place `at`, counted from 0. `None` from the end of the line on.
    pub fn get(&self, at: u32) -> Option<Item>
        ensures { result ≡ slice_get (items_of self.now.marks) at }
    {
        self.entries.get(at as usize).map(MarkedItem::item)
    }

    /// How many items the line has. With its room they are always below 2^32.
    pub fn len(&self) -> u32
        ensures len { result ≡ length self.now.marks }
        ensures few { length self.now.marks + self.now.spare < 2 ^ 32 }
        ensures sealed { self.now.sealed ≤ length self.now.marks }
    {
        self.entries.len() as u32
    }

    /// How many more items the line takes with no memory.
    pub fn spare(&self) -> u32
        ensures { result ≡ self.now.spare }
    {
        self.spare
    }

    /// The last place of an item that has touched one of the devices, counted from 0. `None` where
    /// no item has.
    pub fn last_meeting(&self, devices: &DeviceSet) -> Option<u32>
        ensures { result ≡ last_meeting devices.now self.now.marks }
    {
        let mut at = self.entries.len();
        while at > 0 {
            at -= 1;
            if self.entries[at].meets(devices) {
                return Some(at as u32);
            }
        }
        None
    }

    /// Whether the item at the place `at`, counted from 0, has touched one of the devices. From the
    /// end of the line on none has.
    pub fn meets(&self, at: u32, devices: &DeviceSet) -> bool
        ensures { result
            ≡ unwrap_or (option_map (meets devices.now) (slice_get self.now.marks at)) false }
    {
        match self.entries.get(at as usize) {
            Some(entry) => entry.meets(devices),
            None => false,
        }
    }

    /// Whether the run has touched the device.
    pub fn touched(&self, run: RunNo, device: DeviceNo) -> bool
        requires { stands (Ran run) self.now.marks ≡ true }
        ensures { result ≡ mark_has_touched run.0 device.0 self.now.marks }
    {
        match self.place_of(Item::Ran(run)) {
            Some(at) => self.entries[at as usize].has_touched(device),
            None => false,
        }
    }
}

/// The number of items before the first run that has not ended, which is no smaller than `from`.
fn front_from(entries: &[MarkedItem], from: u32) -> u32
    requires few { length entries.now < 2 ^ 32 }
    requires from { from ≤ front_of entries.now }
    ensures { result ≡ front_of entries.now }
{
    let count = entries.len() as u32;
    'items: for at in from..count {
        if entries[at as usize].is_open() {
            return at;
        }
    }
    count
}

/// Each run from this place on is told its place; those before it have theirs, and those that are
/// not in the line none.
fn tell_places(places: &mut [Option<u32>], entries: &[MarkedItem], from: u32)
    requires once { all_differ (items_of entries.now) ≡ true }
    requires few { length entries.now < 2 ^ 32 }
    requires before { ArePlacesBefore from entries.now places.old }
    ensures { AreRunPlaces entries.now places.new }
{
    'entries: for at in from..entries.len() as u32 {
        tell_place(places, entries[at as usize].item(), Some(at));
    }
}

/// The run that the item is has this place from now on, where one is kept of it.
fn tell_place(places: &mut [Option<u32>], item: Item, place: Option<u32>)
    ensures { places.new ≡ with_place item place places.old }
{
    if let Item::Ran(run) = item {
        let run = run.0 as usize;
        if run < places.len() {
            places[run] = place;
        }
    }
}
