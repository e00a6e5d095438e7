//! The serial execution of a list of items.
ghost use Rattle.std.specs.Prelude.{◌≡◌, ◌<◌, All, length, IfOk, IfSome, IfNone, IsTrue, OnErr};
ghost use Rattle.command_rules.specs.Rosters.{is_run, runs_of};
ghost use Rattle.serial_meaning.specs.Conditions.{HasKinds, HasRosterDevices, IsItemOf};
ghost use Rattle.serial_meaning.specs.Executions.{order_answers, order_in, shown_runs};
ghost use Rattle.serial_meaning.specs.Progress.{DoesFailure, DoesItem, DoesRestart};

use crate::routines::execute_commands;
use command_rules::Roster;
use home_types::{Answer, DeviceNo, Item, Kind, List, NoMemory, RunNo, Stand, World};
use std::alloc::Global;

/// What a run of an order answered.
#[derive(Drop)]
pub struct RunAnswers {
    pub run: RunNo,
    pub answers: List<Answer>,
}

/// An order in execution, each of whose items applied so far.
#[derive(Drop)]
struct OrderProgress {
    home: List<Stand>,
    answers: List<RunAnswers>,
}

impl OrderProgress {
    ghost use Rattle.home_types.specs.declared.items.Item.TheVariants.{Ran};

    /// Does the next item. `None` where it does not apply.
    fn serve(
        self,
        alloc: Global,
        item: Item,
        roster: &Roster,
        kinds: &List<Kind>,
    ) -> Result<Option<OrderProgress>, NoMemory>
        requires kinds { HasKinds self.home.items kinds.now.items }
        requires devices { HasRosterDevices self.home.items roster.now }
        requires item { IsItemOf self.home.items roster.now item }
        ensures done { IfOk result (DoesItem (runs_of roster.now) kinds.now.items self item) }
        ensures kept { IfOk result
            (λ next. IfSome next (λ order. length order.home.items ≡ length self.home.items)) }
    {
        match item {
            Item::Ran(r) => self.run(alloc, r, roster, kinds),
            Item::Failed(d, _) => Ok(self.fail(d)),
            Item::Back(d, _) => Ok(self.restart(d)),
        }
    }

    /// Runs the whole routine of `r`. `None` where it is refused.
    fn run(
        self,
        alloc: Global,
        r: RunNo,
        roster: &Roster,
        kinds: &List<Kind>,
    ) -> Result<Option<OrderProgress>, NoMemory>
        requires kinds { HasKinds self.home.items kinds.now.items }
        requires devices { HasRosterDevices self.home.items roster.now }
        requires run { IsTrue (is_run (runs_of roster.now) r.0) }
        ensures done { IfOk result (DoesItem (runs_of roster.now) kinds.now.items self (Ran r)) }
        ensures kept { IfOk result
            (λ next. IfSome next (λ order. length order.home.items ≡ length self.home.items)) }
    {
        let OrderProgress { home, mut answers } = self;
        match execute_commands(alloc, home, roster.commands(r), kinds)? {
            Some(whole) => {
                answers.push(RunAnswers {
                    run: r,
                    answers: whole.answers,
                })?;
                Ok(Some(OrderProgress {
                    home: whole.home,
                    answers,
                }))
            }
            None => Ok(None),
        }
    }

    /// The device fails. `None` where it is down.
    fn fail(mut self, d: DeviceNo) -> Option<OrderProgress>
        requires { d.0 < length self.home.items }
        ensures done { DoesFailure self d result }
        ensures kept { IfSome result (λ order. length order.home.items ≡ length self.home.items) }
    {
        let stand = self.home.as_slice()[d.0 as usize];
        if !stand.up {
            return None;
        }
        self.home.set(
            d.0 as u64,
            Stand {
                value: stand.value,
                up: false,
            },
        );
        Some(self)
    }

    /// The device restarts. `None` where it is up.
    fn restart(mut self, d: DeviceNo) -> Option<OrderProgress>
        requires { d.0 < length self.home.items }
        ensures done { DoesRestart self d result }
        ensures kept { IfSome result (λ order. length order.home.items ≡ length self.home.items) }
    {
        let stand = self.home.as_slice()[d.0 as usize];
        if stand.up {
            return None;
        }
        self.home.set(
            d.0 as u64,
            Stand {
                value: stand.value,
                up: true,
            },
        );
        Some(self)
    }
}

/// Does the items one after another in the world and gives the answers of each run, in order.
/// `None` exactly where an item does not apply: a run with a must command that fails, a failure of
/// a device that is down, or a restart of one that is up.
///
/// Asks for a kind for each device of the world, that each command of the roster is on one of these
/// devices, and that each item is a run of the roster or an event of one of these devices.
///
/// Answers `NoMemory` where there is none for a copy of the world and for the answers. The world is
/// unchanged after that and after `None`.
pub fn run_order(
    alloc: Global,
    world: &mut World,
    items: &List<Item>,
    roster: &Roster,
    kinds: &List<Kind>,
) -> Result<Option<List<RunAnswers>>, NoMemory>
    requires kinds { HasKinds world.old.devices.items kinds.now.items }
    requires devices { HasRosterDevices world.old.devices.items roster.now }
    requires items { All (IsItemOf world.old.devices.items roster.now) items.now.items }
    ensures answers { IfOk result (λ told.
        shown_runs told ≡ order_answers (order_in world.old items.now roster.now kinds.now)) }
    ensures done { IfOk result (λ told. IfSome told (λ _.
        world.new.devices.items ≡ (order_in world.old items.now roster.now kinds.now).home)) }
    ensures refused { IfOk result (λ told. IfNone told (world.new ≡ world.old)) }
    ensures no_memory { OnErr result (world.new ≡ world.old) }
    ensures size { length world.new.devices.items ≡ length world.old.devices.items }
{
    let mut order = OrderProgress {
        home: List::of(alloc, world.devices.as_slice())?,
        answers: List::new(alloc),
    };
    'items: for item in items.as_slice() {
        match order.serve(alloc, *item, roster, kinds)? {
            Some(next) => order = next,
            None => return Ok(None),
        }
    }
    world.devices = order.home;
    Ok(Some(order.answers))
}
