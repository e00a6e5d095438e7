//! The items that must stand before a run wherever it is placed.
ghost use Rattle.std.specs.Prelude.{◌≡◌, ◌<◌, IsTrue, Some, length, slice_get};
ghost use Rattle.command_rules.specs.Items.{of_run};
ghost use Rattle.command_rules.specs.Rosters.{is_run};
ghost use Rattle.serial_line.specs.Marks.{items_of};
ghost use Rattle.timeline_scheduler.specs.Bases.{goes_on, run_binds, seeds};
ghost use Rattle.timeline_scheduler.specs.Gathered.{IsKnown, ItemsAreKnown};

use history_book::End;
use home_types::{Item, RunNo};
use lock_leasing::Standing;

/// Whether the item at this place must stand before the run `r`: it stands before each run that has
/// not ended, has touched a device of `r`, or is a run that must.
pub(crate) fn is_needed(s: &Standing, r: RunNo, at: u32) -> bool
    requires run { IsTrue (is_run s.now.runs r.0) }
    requires known { ItemsAreKnown s.now.runs (items_of s.now.line) }
    requires there { at < length s.now.line }
    ensures { slice_get (seeds s.now.history s.now.runs r.0 s.now.line) at ≡ Some result }
{
    if at < s.line.front() {
        return true;
    }
    if s.line.meets(at, s.roster.devices(r)) {
        return true;
    }
    let item = s.line.get(at).unwrap();
    binds_item(s, r, item)
}

/// Whether the item is a run that must stand before the run `r`, whatever it has touched.
fn binds_item(s: &Standing, r: RunNo, item: Item) -> bool
    requires run { IsTrue (is_run s.now.runs r.0) }
    requires known { IsKnown s.now.runs item }
    ensures { result ≡ of_run (run_binds s.now.history s.now.runs r.0) item }
{
    match item {
        Item::Ran(x) => binds(s, r, x),
        Item::Failed(..) | Item::Back(..) => false,
    }
}

/// Whether the run `x`, which stands in the line, must stand before the run `r`, whatever it has
/// touched: its next command is on one of the devices of `r`, or it is the committed run that `r`
/// follows.
fn binds(s: &Standing, r: RunNo, x: RunNo) -> bool
    requires run { IsTrue (is_run s.now.runs r.0) }
    requires other { IsTrue (is_run s.now.runs x.0) }
    ensures { result ≡ run_binds s.now.history s.now.runs r.0 x.0 }
{
    match s.book.end_of(x) {
        None => goes_on(s, r, x),
        Some(End::Committed) => s.roster.roster().followed_by(r) == Some(x),
        Some(End::Aborted(_)) => false,
    }
}

/// Whether the first command of the run `x` without an answer is on one of the devices of the run
/// `r`.
fn goes_on(s: &Standing, r: RunNo, x: RunNo) -> bool
    requires run { IsTrue (is_run s.now.runs r.0) }
    requires other { IsTrue (is_run s.now.runs x.0) }
    ensures { result ≡ goes_on s.now.history s.now.runs r.0 x.0 }
{
    match s.roster.commands(x).get(s.book.answered(x) as usize) {
        Some(command) => s.roster.touches(r, command.device),
        None => false,
    }
}
