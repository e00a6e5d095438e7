//! What is asked of an open window: which runs wait, with what a device is out, and which items of
//! its order are final.
ghost use Rattle.std.specs.Prelude.{◌≡◌, IfErr, IfNone, IfOk, IfSome, None, Some, slice_get, true, ℕ};
ghost use Rattle.blocked_runs.specs.RunBits.{has_run};
ghost use Rattle.home_states.specs.LiveHomes.{IsBetweenWindows, IsWindowOpen, hub_in};
ghost use Rattle.home_states.specs.Queries.{IsFinal, IsLent, MayNotTellFinal, MayNotTellLent, final_count, final_items, first_against_final, first_against_lent, first_against_lent_of, lent_of, no_item};
ghost use Rattle.home_states.specs.Steps.{IsBlockedRun};
ghost use Rattle.home_states.specs.Tickets.{WindowTickets};

use crate::homes::{LiveHome, Phase};
use crate::numbers::lent_numbered;
use crate::refusals::{NotFinal, NotLent};
use device_gate::{Slip, Task};
use handed_devices::HandedDevice;
use home_types::{DeviceNo, Item};
use hub_table::Table;

impl LiveHome {
    /// The runs that are known to wait, as `is_blocked` tells it, the run r as the bit r - 1. `None`
    /// where no window is open.
    pub fn blocked_runs(&self) -> Option<u64>
        ensures blocked { IfSome result
            (λ word. (r : ℕ) → has_run word r ≡ true → IsBlockedRun self.now r) }
        ensures open { IfSome result (λ _. IsWindowOpen self.now) }
        ensures none { IfNone result (IsBetweenWindows self.now) }
    {
        match &self.phase {
            Phase::InWindow(_, table) => Some(table.hub().blocked_runs()),
            Phase::Between(_) => None,
            Phase::Moving => unreachable!(),
        }
    }

    /// With what the device is out: its slip, with the number of its call in the life of the home,
    /// and its task, as `take` or `probe` told them.
    ///
    /// Refused where no window is open, where the home has no such device, and where the device is
    /// home.
    pub fn lent(&self, d: DeviceNo) -> Result<(Slip, Task), NotLent>
        ensures lent { IfOk result (λ out. IsLent self.now d.0 out) }
        ensures free { IfOk result (λ _. first_against_lent self.now d.0 ≡ None) }
        ensures refused { IfErr result (λ why. MayNotTellLent self.now d.0 why) }
    {
        match &self.phase {
            Phase::InWindow(_, table) => lent_in(table, self.tickets_before, d),
            Phase::Between(_) => Err(NotLent::NoWindow),
            Phase::Moving => unreachable!(),
        }
    }

    /// How many items of the order are final: those before the first live run, all where none is
    /// live. They stay in their order, whatever comes, and outside the weak model the order of the
    /// window's record begins with them. `None` where no window is open.
    pub fn sealed(&self) -> Option<u32>
        ensures { result ≡ final_count (hub_in self.now) }
    {
        match &self.phase {
            Phase::InWindow(_, table) => Some(table.hub().sealed()),
            Phase::Between(_) => None,
            Phase::Moving => unreachable!(),
        }
    }

    /// The item at this place of the order, counted from 0.
    ///
    /// Refused where no window is open, and from `sealed` on.
    pub fn final_item(&self, at: u32) -> Result<Item, NotFinal>
        ensures item { IfOk result (λ item. IsFinal self.now at item) }
        ensures free { IfOk result (λ _. first_against_final self.now at ≡ None) }
        ensures refused { IfErr result (λ why. MayNotTellFinal self.now at why) }
    {
        match &self.phase {
            Phase::InWindow(_, table) => final_in(table, at),
            Phase::Between(_) => Err(NotFinal::NoWindow),
            Phase::Moving => unreachable!(),
        }
    }
}

/// With what the device is out of the window, before which so many calls went.
fn lent_in(table: &Table<HandedDevice>, before: u64, d: DeviceNo) -> Result<(Slip, Task), NotLent>
    requires low { WindowTickets before table.now }
    ensures lent { IfOk result (λ out. lent_of table.now before d.0 ≡ Some out) }
    ensures free { IfOk result (λ _. first_against_lent_of table.now d.0 ≡ None) }
    ensures refused { IfErr result (λ why. first_against_lent_of table.now d.0 ≡ Some why) }
{
    if table.hub().device_count() <= d.0 as u64 {
        return Err(NotLent::Absent);
    }
    match lent_numbered(table, before, d) {
        Some(out) => Ok(out),
        None => Err(NotLent::IsHome),
    }
}

/// The final item at this place of the order of the window.
fn final_in(table: &Table<HandedDevice>, at: u32) -> Result<Item, NotFinal>
    ensures item { IfOk result (λ item. slice_get (final_items table.now) at ≡ Some item) }
    ensures free { IfOk result (λ _. no_item (slice_get (final_items table.now) at) ≡ None) }
    ensures refused { IfErr result
        (λ why. no_item (slice_get (final_items table.now) at) ≡ Some why) }
{
    match table.hub().final_item(at) {
        Some(item) => Ok(item),
        None => Err(NotFinal::Absent),
    }
}
