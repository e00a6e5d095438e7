//! What the lineage table becomes on the devices of a run that is doomed, and of those that were
//! doomed before it came.
ghost use Rattle.std.specs.Prelude.{◌≡◌, ◌<◌, length};
ghost use Rattle.lineage_table.specs.Accesses.{IsDisciplined, first_before, is_scheduled};
ghost use Rattle.lineage_table.specs.Lineages.{accesses_at, lineage_at, with_lineage};
ghost use Rattle.window_order.specs.TableChanges.{ChangesEach, IsFirst, IsWaiting, doomed_unless, passed};

use home_types::{DeviceNo, RunNo, View};
use lineage_table::{Status, Table};

/// The run is done with each device that it has acquired, but for the one that is out for a command
/// of it, where there is one: that access stays acquired until the answer comes.
pub(crate) fn release_all(table: &mut Table, r: RunNo, out: Option<DeviceNo>)
    ensures { ChangesEach (doomed_unless out r.0) table.old table.new }
{
    let mut from = DeviceNo(0);
    'devices: while let Some(d) = table.next_device(r, from) {
        release_on(table, d, r, out);
        from = DeviceNo(d.0 + 1);
    }
}

/// The run is done with the device, where it has acquired it and it is not the one that is out.
fn release_on(table: &mut Table, d: DeviceNo, r: RunNo, out: Option<DeviceNo>)
    requires { d.0 < length table.old }
    ensures { table.new ≡ with_lineage table.old d.0 (doomed_unless out r.0 d.0) }
{
    if out == Some(d) {
        return;
    }
    if let Some(access) = table.access(d, r) {
        if access.status == Status::Acquired {
            table.release(d, r);
        }
    }
}

/// The scheduled accesses before the run's are passed: they are of doomed runs, which never touch
/// the device any more. Then the run's own is the first of those that are left.
pub(crate) fn pass_before(table: &mut Table, d: DeviceNo, r: RunNo)
    requires device { d.0 < length table.old }
    requires waiting { IsWaiting r.0 (lineage_at table.old d.0) }
    ensures passed { table.new ≡ with_lineage table.old d.0 (passed r.0) }
    ensures first { IsFirst r.0 (lineage_at table.new d.0) }
{
    'passing: while let Some(doomed) = scheduled_before(table, d, r) {
        table.acquire(d, doomed, View::Down);
        table.release(d, doomed);
    }
}

/// The run of the first scheduled access before that of the run.
fn scheduled_before(table: &Table, d: DeviceNo, r: RunNo) -> Option<RunNo>
    requires { d.0 < length table.now }
    ensures found { result
        ≡ first_before (λ x. is_scheduled x.status) r.0 (accesses_at table.now d.0) }
    ensures disciplined { IsDisciplined (accesses_at table.now d.0) }
{
    table.kept_invariant();
    table.first_before(d, r, |access| access.status == Status::Scheduled)
}
