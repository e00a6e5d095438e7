//! The place of a device's event in the line.
ghost use Rattle.std.specs.List.{list_any};
ghost use Rattle.std.specs.Prelude.{◌≡◌, ◌<◌, ◌≤◌, false, length};
ghost use Rattle.failure_serialization.specs.Events.{event_place, first_waiting, waits};
ghost use Rattle.home_types.specs.declared.items.Item.TheVariants.{Ran};
ghost use Rattle.lineage_table.specs.Accesses.{has_access};
ghost use Rattle.lineage_table.specs.Lineages.{accesses_at};
ghost use Rattle.serial_line.specs.Labels.{is_sealed};

use history_book::Book;
use home_types::{DeviceNo, Item, RunNo};
use lineage_table::{Access, Status, Table};
use serial_line::Line;

/// The place, counted from 0, where an event of the device stands: before the first run that waits
/// there, else at the end. The first access of the run `first` has just died.
pub(crate) fn event_place(
    line: &Line,
    table: &Table,
    book: &Book,
    d: DeviceNo,
    first: Option<RunNo>,
) -> u32
    requires device { d.0 < length table.now }
    requires runs { has_access 0 (accesses_at table.now d.0) ≡ false }
    requires unsealed { list_any (λ x. is_sealed (Ran x.run) line.now) (accesses_at table.now d.0)
        ≡ false }
    ensures place { result
        ≡ event_place book.now.items first (accesses_at table.now d.0) line.now.marks }
    ensures within { result ≤ length line.now.marks }
    ensures unsealed { line.now.sealed ≤ result }
{
    match first_waiting(table, book, d, first) {
        Some(r) => line.place_of(Item::Ran(r)).unwrap_or(line.len()),
        None => line.len(),
    }
}

/// The first run, of those with an access to the device, that waits there.
fn first_waiting(table: &Table, book: &Book, d: DeviceNo, first: Option<RunNo>) -> Option<RunNo>
    requires device { d.0 < length table.now }
    requires runs { has_access 0 (accesses_at table.now d.0) ≡ false }
    ensures { result ≡ first_waiting book.now.items first (accesses_at table.now d.0) }
{
    table.first_before(d, RunNo(0), |access| waits(book, first, access))
}

/// Whether the run of an access waits: it is not doomed, and has no answer on the device, or is the
/// one whose first access has just died.
fn waits(book: &Book, first: Option<RunNo>, access: Access) -> bool
    ensures { result ≡ waits book.now.items first access }
{
    (access.status == Status::Scheduled || first == Some(access.run)) && !book.is_doomed(access.run)
}
