//! Items of the line that stand behind another one: whether it meets one of them.
ghost use Rattle.std.specs.Prelude.{◌≡◌, ◌||◌, ◌∷◌, [], List, if◌then◌else◌};
ghost use Rattle.std.specs.List.{list_any};
ghost use Rattle.command_rules.specs.Apart.{are_tied, meet};
ghost use Rattle.command_rules.specs.Rosters.{Run, runs_of};
ghost use Rattle.home_types.specs.declared.items.Item.{Item};
ghost use Rattle.home_types.specs.declared.items.Item.TheVariants.{Ran};
ghost use Rattle.timeline_scheduler.specs.Gathered.{IsGathered, IsKnown};

use command_rules::IndexedRoster;
use home_types::{DeviceSet, Item, RunNo, limits};

/// The places that are kept: one for each run that a window may have, by its number.
pub(crate) const PLACES: usize = limits::RUNS as usize + 1;

/// Some items: their devices, the runs among them, and the runs that these follow.
#[derive(Drop)]
pub(crate) struct Gathered {
    devices: DeviceSet,
    runs: [bool; PLACES],
    leaders: [bool; PLACES],
}

impl Gathered {
    /// No items.
    pub(crate) fn new() -> Gathered
        ensures { (runs : List Run) → IsGathered runs [] result }
    {
        Gathered {
            devices: DeviceSet::none(),
            runs: [false; PLACES],
            leaders: [false; PLACES],
        }
    }

    /// This item is one of them too where this flag is set, or where it meets one of them. Answers
    /// whether it is.
    pub(crate) fn take_in(&mut self, roster: &IndexedRoster, item: Item, flag: bool) -> bool
        requires { IsKnown (runs_of roster.now) item }
        ensures answer { (items : List Item) → IsGathered (runs_of roster.now) items self.old
            → result ≡ (flag || list_any (meet (runs_of roster.now) item) items) }
        ensures gathered { (items : List Item) → IsGathered (runs_of roster.now) items self.old
            → IsGathered (runs_of roster.now) (if result then item ∷ items else items) self.new }
    {
        if !self.wants(roster, item, flag) {
            return false;
        }
        self.add(roster, item);
        true
    }

    /// Whether this flag is set, or the item meets one of them.
    fn wants(&self, roster: &IndexedRoster, item: Item, flag: bool) -> bool
        requires { IsKnown (runs_of roster.now) item }
        ensures { (items : List Item) → IsGathered (runs_of roster.now) items self.now
            → result ≡ (flag || list_any (meet (runs_of roster.now) item) items) }
    {
        flag || self.meets(roster, item)
    }

    /// Whether the item meets one of them.
    fn meets(&self, roster: &IndexedRoster, item: Item) -> bool
        requires { IsKnown (runs_of roster.now) item }
        ensures { (items : List Item) → IsGathered (runs_of roster.now) items self.now
            → result ≡ list_any (meet (runs_of roster.now) item) items }
    {
        match item {
            Item::Ran(x) => self.meets_run(roster, x),
            Item::Failed(d, _) => self.devices.has(d),
            Item::Back(d, _) => self.devices.has(d),
        }
    }

    /// Whether the run shares a device with one of them, or is tied to one.
    fn meets_run(&self, roster: &IndexedRoster, x: RunNo) -> bool
        requires { IsKnown (runs_of roster.now) (Ran x) }
        ensures { (items : List Item) → IsGathered (runs_of roster.now) items self.now
            → result ≡ list_any (meet (runs_of roster.now) (Ran x)) items }
    {
        if self.devices.meets(roster.devices(x)) {
            return true;
        }
        self.is_tied(roster, x)
    }

    /// Whether the run follows one of them, or one of them follows it.
    fn is_tied(&self, roster: &IndexedRoster, x: RunNo) -> bool
        requires { IsKnown (runs_of roster.now) (Ran x) }
        ensures { (items : List Item) → IsGathered (runs_of roster.now) items self.now
            → result ≡ list_any (are_tied (runs_of roster.now) (Ran x)) items }
    {
        let leads = self.leaders[x.0 as usize];
        if leads {
            return true;
        }
        match roster.roster().followed_by(x) {
            Some(leader) => self.runs[leader.0 as usize],
            None => false,
        }
    }

    /// This item is one of them too.
    fn add(&mut self, roster: &IndexedRoster, item: Item)
        requires { IsKnown (runs_of roster.now) item }
        ensures { (items : List Item) → IsGathered (runs_of roster.now) items self.old
            → IsGathered (runs_of roster.now) (item ∷ items) self.new }
    {
        match item {
            Item::Ran(x) => self.add_run(roster, x),
            Item::Failed(d, _) => self.devices.add(d),
            Item::Back(d, _) => self.devices.add(d),
        }
    }

    /// This run is one of them too.
    fn add_run(&mut self, roster: &IndexedRoster, x: RunNo)
        requires { IsKnown (runs_of roster.now) (Ran x) }
        ensures { (items : List Item) → IsGathered (runs_of roster.now) items self.old
            → IsGathered (runs_of roster.now) (Ran x ∷ items) self.new }
    {
        let devices = roster.devices(x);
        self.devices = self.devices.either(devices);
        self.runs[x.0 as usize] = true;
        let Some(leader) = roster.roster().followed_by(x) else {
            return;
        };
        self.leaders[leader.0 as usize] = true;
    }
}
