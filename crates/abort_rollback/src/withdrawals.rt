//! An aborted run leaves the lineage table.
ghost use Rattle.std.specs.Prelude.{length, ℕ, ◌<◌, ◌≡◌};
ghost use Rattle.abort_rollback.specs.Undos.{next_undo};
ghost use Rattle.lineage_table.specs.Lineages.{lineage_at, removed, stand_of_lineage};

use crate::undos::Undo;
use home_types::{DeviceNo, RunNo};
use lineage_table::Table;

/// Takes the accesses of an aborted run out, on every device.
///
/// The run has nothing left to undo, so the value that stands on each device is kept. Takes no
/// memory.
pub fn withdraw(table: &mut Table, r: RunNo)
    requires { next_undo table.old r.0 ≡ Undo.Finished }
    ensures devices { length table.new ≡ length table.old }
    ensures exact { (d : ℕ) → d < length table.old
        → lineage_at table.new d ≡ removed r.0 (lineage_at table.old d) }
    ensures stands { (d : ℕ) → d < length table.old
        → stand_of_lineage (lineage_at table.new d) ≡ stand_of_lineage (lineage_at table.old d) }
{
    let mut from = DeviceNo(0);
    'devices: while let Some(d) = table.next_device(r, from) {
        table.remove(d, r);
        from = DeviceNo(d.0 + 1);
    }
}
