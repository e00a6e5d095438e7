//! The run that is lost where a device fails.
ghost use Rattle.std.specs.Prelude.{◌≡◌, ◌<◌, false, length};
ghost use Rattle.failure_serialization.specs.Events.{is_lost, lost_run};
ghost use Rattle.lineage_table.specs.Accesses.{has_access};
ghost use Rattle.lineage_table.specs.Lineages.{accesses_at};

use history_book::Book;
use home_types::{DeviceNo, RunNo};
use lineage_table::{Access, Status, Table, View};

/// The run that is lost where the device fails, `None` where none is.
pub(crate) fn lost_run(table: &Table, book: &Book, d: DeviceNo) -> Option<RunNo>
    requires device { d.0 < length table.now }
    requires runs { has_access 0 (accesses_at table.now d.0) ≡ false }
    ensures { result ≡ lost_run book.now.items (accesses_at table.now d.0) }
{
    table.first_before(d, RunNo(0), |access| is_lost(book, access))
}

/// Whether the run of an access is lost: it sees the device up, is not done with it, and is not
/// doomed.
fn is_lost(book: &Book, access: Access) -> bool
    ensures { result ≡ is_lost book.now.items access }
{
    access.status == Status::Acquired
        && access.view == Some(View::Up)
        && !book.is_doomed(access.run)
}
