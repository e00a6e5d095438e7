//! Laws of a lineage table: the order of statuses and of the line, and what keeps the value that
//! stands. And the law of the line: neighbours that are apart may be exchanged.
ghost use Rattle.std.specs.Prelude.{All, IsSome, IsTrue, Some, drop, false, insert, length, ℕ, ◌<◌, ◌≡◌, ◌≢◌, ◌≤◌};
ghost use Rattle.command_rules.specs.Apart.{meet};
ghost use Rattle.command_rules.specs.ClosedSets.{are_apart};
ghost use Rattle.command_rules.specs.Rosters.{runs_of};
ghost use Rattle.device_order.specs.Exchanges.{SameOutcome};
ghost use Rattle.lineage_laws.specs.Laws.{AreInRunOrder, RunsDiffer, StandByStatus, is_one_of_runs, next_with_access, with_exchange};
ghost use Rattle.lineage_table.specs.Lineages.{accesses_at, lineage_at, released, removed, settled, stand_of_lineage};
ghost use Rattle.lineage_table.specs.Accesses.{accesses_without, effective_writer, put_access_before, status_of, written_by};
ghost use Rattle.serial_meaning.specs.Conditions.{HasKinds, HasRosterDevices, IsItemOf};
ghost use Rattle.serial_meaning.specs.Executions.{order_in};

use command_rules::Roster;
use home_types::{DeviceNo, Item, Kind, List, RunNo, World};
use lineage_table::{Access, Status, Table};

/// Among the accesses of `d` the released ones stand before the acquired one and that before the
/// scheduled ones, and at most one is acquired.
pub fn statuses(table: &Table, d: DeviceNo)
    requires { d.0 < length table.now }
    ensures { StandByStatus (accesses_at table.now d.0) }
{
    // The type of the table keeps it.
    table.kept_invariant();
}

/// Where the runs of the accesses of `d` stand in `runs` in the same order, they do so without the
/// access of any one run, without any left part, and with an access that is put before that of the
/// next run of `runs` that has one.
pub fn line_order(table: &Table, d: DeviceNo, runs: &List<RunNo>)
    requires device { d.0 < length table.now }
    requires differ { RunsDiffer runs.now.items }
    requires order { AreInRunOrder runs.now.items (accesses_at table.now d.0) }
    ensures without { (r : ℕ)
        → AreInRunOrder runs.now.items (accesses_without r (accesses_at table.now d.0)) }
    ensures left { (k : ℕ) → AreInRunOrder runs.now.items (drop k (accesses_at table.now d.0)) }
    ensures put { (place : ℕ) (access : Access) → place ≤ length runs.now.items
        → is_one_of_runs access.run runs.now.items ≡ false
        → AreInRunOrder (insert runs.now.items place access.run) (put_access_before
        (next_with_access (drop place runs.now.items) (accesses_at table.now d.0)) access
        (accesses_at table.now d.0)) }
{}

/// The list with the acquired access of `r` released has the same standing value.
pub fn release_keeps(table: &Table, d: DeviceNo, r: RunNo)
    requires device { d.0 < length table.now }
    requires acquired { status_of r.0 (accesses_at table.now d.0) ≡ Some Status.Acquired }
    ensures { stand_of_lineage (released r.0 (lineage_at table.now d.0))
        ≡ stand_of_lineage (lineage_at table.now d.0) }
{}

/// The list without the access of `r`, which is not the effective writer of `d`, has the same
/// standing value.
pub fn removal_keeps(table: &Table, d: DeviceNo, r: RunNo)
    requires device { d.0 < length table.now }
    requires not_effective { effective_writer (accesses_at table.now d.0) ≢ Some r }
    ensures { stand_of_lineage (removed r.0 (lineage_at table.now d.0))
        ≡ stand_of_lineage (lineage_at table.now d.0) }
{}

/// What is left when the value of `r`, which wrote, is committed has the same standing value.
pub fn compaction_keeps(table: &Table, d: DeviceNo, r: RunNo)
    requires device { d.0 < length table.now }
    requires wrote { IsSome (written_by r.0 (accesses_at table.now d.0)) }
    ensures { stand_of_lineage (settled r.0 (lineage_at table.now d.0))
        ≡ stand_of_lineage (lineage_at table.now d.0) }
{}

/// The items at `at` and the next place, which are apart, may be exchanged: the serial execution of
/// the items is then refused exactly where it was, gives each run the same answers, and leaves the
/// same world.
///
/// Asks for a kind for each device of the world, that each command of the roster is on one of these
/// devices, that each item is a run of the roster or an event of one of these devices, and that the
/// two items are there and apart: they share no device, and neither is a run that follows the
/// other.
pub fn exchange(world: &World, items: &List<Item>, at: u32, roster: &Roster, kinds: &List<Kind>)
    requires kinds { HasKinds world.now.devices.items kinds.now.items }
    requires devices { HasRosterDevices world.now.devices.items roster.now }
    requires items { All (IsItemOf world.now.devices.items roster.now) items.now.items }
    requires apart { IsTrue (are_apart (meet (runs_of roster.now)) at items.now.items) }
    ensures { SameOutcome (order_in world.now items.now roster.now kinds.now)
        (order_in world.now (with_exchange at items.now) roster.now kinds.now) }
{}
