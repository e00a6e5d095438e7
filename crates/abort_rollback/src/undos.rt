//! The next undo of a run: on which device, and whether the device is driven back or its write is
//! dropped.
ghost use Rattle.std.specs.Prelude.{◌≡◌, ◌<◌, length};
ghost use Rattle.abort_rollback.specs.Undos.{next_undo, undo_on};

use home_types::{DeviceNo, RunNo, Value};
use lineage_table::Table;

/// What an aborted run does next to take back what it wrote.
#[derive(Clone, Copy, Debug, PartialEq, Eq)]
pub enum Undo {
    /// Its write on this device is dropped, without a device call: the device is counted down.
    Drop(DeviceNo),
    /// This device is driven to this value, at which it would stand without the run.
    Drive(DeviceNo, Value),
    /// Nothing: it has the effective write on no device.
    Finished,
}

/// The next undo of the run: on the smallest device of the home on which it has the effective
/// write.
///
/// A write of the run that another has overwritten is not undone. Takes no memory.
pub fn next_undo(table: &Table, r: RunNo) -> Undo
    ensures { result ≡ next_undo table.now r.0 }
{
    table.kept_invariant();
    let mut from = DeviceNo(0);
    'devices: while let Some(d) = table.next_device(r, from) {
        if table.effective_writer(d) == Some(r) {
            return undo_on(table, d, r);
        }
        from = DeviceNo(d.0 + 1);
    }
    Undo::Finished
}

/// The undo of the run's write on the device.
fn undo_on(table: &Table, d: DeviceNo, r: RunNo) -> Undo
    requires { d.0 < length table.now }
    ensures { result ≡ undo_on table.now r.0 d.0 }
{
    if table.is_up(d) {
        Undo::Drive(d, table.stand_without(d, r))
    } else {
        Undo::Drop(d)
    }
}
