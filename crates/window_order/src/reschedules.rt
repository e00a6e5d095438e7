//! What the lineage table becomes behind the place at which a run is put: the accesses there that
//! were passed wait again.
ghost use Rattle.std.specs.Prelude.{◌≡◌, ◌<◌, None, false, length};
ghost use Rattle.lineage_table.specs.Accesses.{some_acquired};
ghost use Rattle.lineage_table.specs.Lineages.{accesses_at, with_lineage};
ghost use Rattle.window_order.specs.TableChanges.{accesses_from, rescheduled};

use home_types::{DeviceNo, RunNo};
use lineage_table::{Access, Status, Table};

/// The access of this run waits, and so do those behind it, where one is named: those that are
/// released were passed, and are scheduled again, the last one first. None of them is acquired.
/// Takes no memory.
pub(crate) fn wait_again(table: &mut Table, d: DeviceNo, first: Option<RunNo>)
    requires device { d.0 < length table.old }
    requires unused { some_acquired (accesses_from first (accesses_at table.old d.0)) ≡ false }
    ensures { table.new ≡ with_lineage table.old d.0 (rescheduled first) }
{
    table.kept_invariant();
    let Some(q) = first else {
        return;
    };
    let Some(access) = table.access(d, q) else {
        return;
    };
    if access.status == Status::Released {
        let next = table.run_behind(d, q);
        wait_again(table, d, next);
        table.remove(d, q);
        table.schedule(d, next, scheduled_again(access));
    }
}

/// The access, as it was before it was passed.
fn scheduled_again(access: Access) -> Access
    ensures { result ≡ record access { status = Status.Scheduled; view = None } }
{
    Access {
        status: Status::Scheduled,
        view: None,
        ..access
    }
}
