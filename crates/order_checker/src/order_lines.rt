//! The order line.
ghost use Rattle.std.specs.Prelude.{◌≡◌, ◌<◌, ◌≤◌, All, IfOk, IfSome, IsTrue, [], ◌||◌, fold, is_none, length, map, option_map};
ghost use Rattle.std.specs.List.{list_any};
ghost use Rattle.command_rules.specs.Items.{is_ran};
ghost use Rattle.command_rules.specs.Rosters.{is_run, runs_of};
ghost use Rattle.home_types.specs.Limits.{most_devices};
ghost use Rattle.serial_meaning.specs.Conditions.{IsItemOf};
ghost use Rattle.order_checker.specs.Ends.{plain_end, plain_ends};
ghost use Rattle.order_checker.specs.OrderLines.{event_device, home_with_event, is_up_behind, item_of, items_told, may_stand_here, next_item, next_stands, order_line_told, order_place, order_words_told, run_item};
ghost use Rattle.order_checker.specs.Readers.{IsInHome, IsReader, setting_for_order};
ghost use Rattle.order_checker.specs.RunLines.{is_told_committed, told_of};
ghost use Rattle.order_checker.specs.Steps.{IsTold, walk};
ghost use Rattle.order_checker.specs.Values.{device_named};
ghost use Rattle.order_checker.specs.Words.{texts, words_of};

use crate::run_lines::RunEnd;
use crate::values::device_named;
use crate::verdicts::{Halt, Place};
use crate::words::{cut_at, is_none_word, number_of, reads, words_of};
use command_rules::Roster;
use home_types::{Answer, DeviceNo, Item, List, RunNo, Stand};
use routine_reader::DeviceText;
use std::alloc::Global;

/// The item of the order with this number, from 1.
fn order_place(item: u64) -> Place
    ensures { result ≡ order_place item }
{
    Place::Order(item.min(u32::MAX as u64) as u32)
}

/// The answers with which a run ended, where it is committed.
fn answers_in(end: &RunEnd) -> Option<&[Answer]>
    ensures { option_map (λ answers. answers.now) result ≡ plain_end end.now }
{
    match end {
        RunEnd::Committed(answers) => Some(answers.as_slice()),
        RunEnd::Aborted => None,
    }
}

/// The answers of the run with this number, where it is committed.
#[tactic(auto, using(crate::proofs::Told::told_at))]
pub fn told_of(ends: &[RunEnd], run: u64) -> Option<&[Answer]>
    ensures told { option_map (λ answers. answers.now) result ≡ told_of (plain_ends ends.now) run }
    ensures within { IfSome result (λ answers. (1 ≤ run) × (run ≤ length ends.now)) }
{
    if run == 0 {
        return None;
    }
    let end = ends.get((run - 1) as usize)?;
    answers_in(end)
}

/// Whether the run stands among the items.
fn has_run(items: &[Item], run: RunNo) -> bool
    ensures { result ≡ list_any (is_ran run.0) items.now }
{
    items.iter().any(|item| matches!(*item, Item::Ran(stands) if stands.0 == run.0))
}

/// Whether a run that ended so stands among the items, if it is committed.
fn stands_if_committed(end: &RunEnd, items: &[Item], run: RunNo) -> bool
    ensures { result ≡ (is_none (plain_end end.now) || list_any (is_ran run.0) items.now) }
{
    match end {
        RunEnd::Committed(_) => has_run(items, run),
        RunEnd::Aborted => true,
    }
}

/// The device in `KIND(DEVICE)`.
fn event_device(devices: &[DeviceText], kind: &str, word: &[u8]) -> Option<DeviceNo>
    requires { length devices.now ≤ most_devices }
    ensures device { option_map (λ d. d.0) result ≡ event_device devices.now kind.now word.now }
    ensures within { IfSome result (λ d. d.0 < length devices.now) }
{
    let (front, inner) = cut_at(word, b'(')?;
    let (name, behind) = cut_at(inner, b')')?;
    if !reads(front, kind) || !behind.is_empty() {
        return None;
    }
    let device = device_named(devices, name)?;
    Some(DeviceNo(device as u16))
}

/// Turns the device of a failure or a restart. A run leaves which devices are up.
pub fn turn(home: &mut List<Stand>, item: Item)
    requires { IsInHome (length home.old.items) item }
    ensures { home.new.items ≡ home_with_event home.old.items item }
{
    let (device, up) = match item {
        Item::Ran(_) => return,
        Item::Failed(device, _) => (device, false),
        Item::Back(device, _) => (device, true),
    };
    let value = home.as_slice()[device.0 as usize].value;
    home.set(device.0 as u64, Stand { value, up });
}

/// What the words of an order are judged by: the devices and where they stand before the window,
/// its runs, and how these ended.
#[derive(Clone, Copy)]
pub struct OrderReader<'a> {
    pub devices: &'a [DeviceText],
    pub home: &'a List<Stand>,
    pub roster: &'a Roster,
    pub ends: &'a [RunEnd],
}

impl<'a> OrderReader<'a> {
    /// Whether the run that this one follows stands earlier, if it is committed.
    fn may_follow(&self, earlier: &[Item], run: RunNo) -> bool
        requires { IsTrue (is_run (runs_of self.now.roster.now) run.0) }
        ensures { result ≡ may_stand_here (runs_of self.now.roster.now)
            (plain_ends self.now.ends.now) earlier.now run.0 }
    {
        match self.roster.followed_by(run) {
            Some(followed) => {
                told_of(self.ends, followed.0 as u64).is_none() || has_run(earlier, followed)
            }
            None => true,
        }
    }

    /// The run whose number the word is, where it may stand behind these items.
    fn run_item(&self, earlier: &[Item], word: &[u8]) -> Option<Item>
        requires { IsReader self.now }
        ensures item { result ≡ run_item (runs_of self.now.roster.now)
            (plain_ends self.now.ends.now) earlier.now word.now }
        ensures of_roster { IfSome result (IsItemOf self.now.home.now.items self.now.roster.now) }
    {
        let number = number_of(word)?;
        told_of(self.ends, number)?;
        let run = RunNo(number as u32);
        if !has_run(earlier, run) && self.may_follow(earlier, run) {
            Some(Item::Ran(run))
        } else {
            None
        }
    }

    /// The item that the word is, where it may stand behind these; `home` has the failures and
    /// restarts among them.
    #[tactic(auto, unfolding(crate::specs::OrderLines::item_of))]
    fn item_of(&self, home: &List<Stand>, earlier: &List<Item>, word: &[u8]) -> Option<Item>
        requires reader { IsReader self.now }
        requires home { home.now.items
            ≡ fold home_with_event self.now.home.now.items earlier.now.items }
        requires same { length home.now.items ≡ length self.now.home.now.items }
        ensures item { result ≡ item_of (setting_for_order self.now) earlier.now.items word.now }
        ensures of_roster { IfSome result (IsItemOf self.now.home.now.items self.now.roster.now) }
    {
        if let Some(item) = self.run_item(earlier.as_slice(), word) {
            return Some(item);
        }
        if let Some(device) = event_device(self.devices, "fail", word) {
            if home.as_slice()[device.0 as usize].up {
                return Some(Item::Failed(device, 0));
            }
        }
        if let Some(device) = event_device(self.devices, "back", word) {
            if !home.as_slice()[device.0 as usize].up {
                return Some(Item::Back(device, 0));
            }
        }
        None
    }

    /// Reads the items that the words are, one by one.
    fn read_each_item(&self, alloc: Global, words: &[&[u8]]) -> Result<List<Item>, Halt>
        requires { IsReader self.now }
        ensures items { IsTold (λ items. items.items) result
            (walk (next_item (setting_for_order self.now)) [] (texts words.now)) }
        ensures of_roster { IfOk result
            (λ items. All (IsItemOf self.now.home.now.items self.now.roster.now) items.items) }
    {
        let mut items = List::new(alloc);
        items.reserve(words.len() as u64)?;
        let mut home = List::of(alloc, self.home.as_slice())?;
        'words: for (i, word) in words.iter().enumerate() {
            let Some(item) = self.item_of(&home, &items, word) else {
                return Err(Halt::At(order_place(i as u64 + 1)));
            };
            turn(&mut home, item);
            items.push(item)?;
        }
        Ok(items)
    }

    /// Reads the items that the words are.
    fn read_items(&self, alloc: Global, words: &[&[u8]]) -> Result<List<Item>, Halt>
        requires { IsReader self.now }
        ensures items { IsTold (λ items. items.items) result
            (items_told (setting_for_order self.now) (texts words.now)) }
        ensures of_roster { IfOk result
            (λ items. All (IsItemOf self.now.home.now.items self.now.roster.now) items.items) }
    {
        if is_none_word(words) {
            return Ok(List::new(alloc));
        }
        self.read_each_item(alloc, words)
    }

    /// Asks that each committed run stands among the items.
    fn all_stand(&self, items: &[Item]) -> Result<(), Halt>
        requires { IsReader self.now }
        ensures { IsTold (λ _. length self.now.ends.now) result
            (walk (next_stands items.now) 0 (plain_ends self.now.ends.now)) }
    {
        'ends: for (i, end) in self.ends.iter().enumerate() {
            if !stands_if_committed(end, items, RunNo(i as u32 + 1)) {
                return Err(Halt::At(Place::Order(0)));
            }
        }
        Ok(())
    }

    /// Reads the items, which have each committed run.
    #[tactic(auto, unfolding(crate::specs::OrderLines::order_words_told))]
    fn read_words(&self, alloc: Global, words: &[&[u8]]) -> Result<List<Item>, Halt>
        requires { IsReader self.now }
        ensures items { IsTold (λ items. items.items) result
            (order_words_told (setting_for_order self.now) (texts words.now)) }
        ensures of_roster { IfOk result
            (λ items. All (IsItemOf self.now.home.now.items self.now.roster.now) items.items) }
    {
        let items = self.read_items(alloc, words)?;
        self.all_stand(items.as_slice())?;
        Ok(items)
    }

    /// Reads the order line.
    pub fn read(&self, alloc: Global, line: &[u8]) -> Result<List<Item>, Halt>
        requires { IsReader self.now }
        ensures items { IsTold (λ items. items.items) result
            (order_line_told (setting_for_order self.now) (words_of line.now)) }
        ensures of_roster { IfOk result
            (λ items. All (IsItemOf self.now.home.now.items self.now.roster.now) items.items) }
    {
        let words = words_of(alloc, line)?;
        match words.as_slice() {
            [first, items @ ..] if !items.is_empty() && reads(first, "order") => {
                self.read_words(alloc, items)
            }
            _ => Err(Halt::At(Place::Order(0))),
        }
    }
}
