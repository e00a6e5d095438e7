//! The commit of a run: what is left of the lineage of each device that it has used.
ghost use Rattle.std.specs.Prelude.{length, ℕ, ◌<◌, ◌≡◌};
ghost use Rattle.lineage_table.specs.Lineages.{committed_lineage, lineage_at, stand_of_lineage, with_lineage};

use home_types::{DeviceNo, RunNo};
use lineage_table::Table;

/// Commits the run: what it wrote becomes the committed value of each device on which it still has
/// an access.
///
/// There its access and those before it leave. On a device that it did not write its access alone
/// leaves. The value that stands on each device is kept. Takes no memory.
pub fn commit(table: &mut Table, r: RunNo)
    ensures devices { length table.new ≡ length table.old }
    ensures exact { (d : ℕ) → d < length table.old
        → lineage_at table.new d ≡ committed_lineage r.0 (lineage_at table.old d) }
    ensures stands { (d : ℕ) → d < length table.old
        → stand_of_lineage (lineage_at table.new d) ≡ stand_of_lineage (lineage_at table.old d) }
{
    table.kept_invariant();
    let mut from = DeviceNo(0);
    'devices: while let Some(d) = table.next_device(r, from) {
        commit_on(table, d, r);
        from = DeviceNo(d.0 + 1);
    }
}

/// Commits the run on one device.
fn commit_on(table: &mut Table, d: DeviceNo, r: RunNo)
    requires { d.0 < length table.old }
    ensures { table.new ≡ with_lineage table.old d.0 (committed_lineage r.0) }
{
    match table.access(d, r) {
        None => {}
        Some(access) => match access.wrote {
            Some(_) => table.settle(d, r),
            None => {
                table.remove(d, r);
            }
        },
    }
}
