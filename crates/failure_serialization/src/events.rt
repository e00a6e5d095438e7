//! Where a failure or a restart comes into the line, and which run a failure loses.
ghost use Rattle.std.specs.List.{list_any};
ghost use Rattle.std.specs.Prelude.{◌≡◌, ◌+◌, ◌<◌, None, false, length, true};
ghost use Rattle.failure_serialization.specs.Events.{event_place, lost_run};
ghost use Rattle.failure_serialization.specs.Ruled.{IsEventOf, IsLossOf};
ghost use Rattle.home_types.specs.declared.items.Item.TheVariants.{Back, Failed, Ran};
ghost use Rattle.lineage_table.specs.Accesses.{has_access};
ghost use Rattle.lineage_table.specs.Lineages.{accesses_at, counted_up, lineage_at, with_lineage};
ghost use Rattle.serial_line.specs.Labels.{is_sealed};
ghost use Rattle.serial_line.specs.Marks.{stands, with_item};

use crate::losses::lost_run;
use crate::places::event_place;
use history_book::Book;
use home_types::{DeviceNo, Item, RunNo};
use lineage_table::Table;
use serial_line::Line;

/// The device, which is counted up, fails: the failure of this number, counted from 1, comes into
/// the line, and the device is counted down. Answers the run that is lost, `None` where none is.
///
/// The failure stands immediately before the first run that is not doomed and has not touched the
/// device, else at the end; `first` is the run whose first access to the device has just died,
/// where there is one: it counts as a run that has not touched it. Lost is the run, not doomed,
/// that sees the device up and is not done with it.
///
/// Line, table and book belong to one window, in which no run has the number 0. Asks for room in
/// the line, in which the failure does not stand yet, and that no run with an access to the device
/// is sealed there. Takes no memory, and reads of the history no more than its dooms.
pub fn device_failed(
    line: &mut Line,
    table: &mut Table,
    book: &Book,
    d: DeviceNo,
    n: u32,
    first: Option<RunNo>,
) -> Option<RunNo>
    requires device { d.0 < length table.old }
    requires runs { has_access 0 (accesses_at table.old d.0) ≡ false }
    requires up { (lineage_at table.old d.0).up ≡ true }
    requires room { 0 < line.old.spare }
    requires absent { stands (Failed d n) line.old.marks ≡ false }
    requires unsealed { list_any (λ x. is_sealed (Ran x.run) line.old) (accesses_at table.old d.0)
        ≡ false }
    ensures marks { line.new.marks
        ≡ with_item (event_place book.now.items first (accesses_at table.old d.0) line.old.marks)
        (Failed d n) line.old.marks }
    ensures spare { line.new.spare + 1 ≡ line.old.spare }
    ensures sealed { line.new.sealed ≡ line.old.sealed }
    ensures kept { line.new.runs ≡ line.old.runs }
    ensures table { table.new ≡ with_lineage table.old d.0 (counted_up false) }
    ensures lost { result ≡ lost_run book.now.items (accesses_at table.old d.0) }
    ensures placed { IsEventOf table.old line.old.marks book.now.items first d
        (Failed d n) line.new.marks }
    ensures loses { IsLossOf table.old line.old.marks book.now.items d.0 result }
{
    let lost = lost_run(table, book, d);
    let at = event_place(line, table, book, d, first);
    line.insert(at, Item::Failed(d, n));
    table.set_up(d, false);
    lost
}

/// The device, which is counted down, comes back: the restart of this number, counted from 1, comes
/// into the line, and the device is counted up.
///
/// The restart stands immediately before the first run that is not doomed and has not touched the
/// device, else at the end. No run is lost.
///
/// Line, table and book belong to one window, in which no run has the number 0. Asks for room in
/// the line, in which the restart does not stand yet, and that no run with an access to the device
/// is sealed there. Takes no memory, and reads of the history no more than its dooms.
pub fn device_recovered(line: &mut Line, table: &mut Table, book: &Book, d: DeviceNo, n: u32)
    requires device { d.0 < length table.old }
    requires runs { has_access 0 (accesses_at table.old d.0) ≡ false }
    requires down { (lineage_at table.old d.0).up ≡ false }
    requires room { 0 < line.old.spare }
    requires absent { stands (Back d n) line.old.marks ≡ false }
    requires unsealed { list_any (λ x. is_sealed (Ran x.run) line.old) (accesses_at table.old d.0)
        ≡ false }
    ensures marks { line.new.marks
        ≡ with_item (event_place book.now.items None (accesses_at table.old d.0) line.old.marks)
        (Back d n) line.old.marks }
    ensures spare { line.new.spare + 1 ≡ line.old.spare }
    ensures sealed { line.new.sealed ≡ line.old.sealed }
    ensures kept { line.new.runs ≡ line.old.runs }
    ensures table { table.new ≡ with_lineage table.old d.0 (counted_up true) }
    ensures placed { IsEventOf table.old line.old.marks book.now.items None d
        (Back d n) line.new.marks }
{
    let at = event_place(line, table, book, d, None);
    line.insert(at, Item::Back(d, n));
    table.set_up(d, true);
}
