//! A file of slots on a disk: how it is read, how the gate after the open slots is shut, and how a
//! group of slots is written.
ghost use Rattle.std.specs.Prelude.{◌≡◌, ◌+◌, ◌*◌, ◌<◌, ◌≤◌, [], ◌∷◌, IfOk, OnErr, OnOk, length, take, true};
ghost use Rattle.slot_disks.specs.Disks.{Holds, LeavesOnly, LeavesThis, Torn};
ghost use Rattle.slot_disks.specs.SlotFiles.{AddsGroup, IsFound, IsSettled, LeavesGroup, ReadsBytes, SettlesGroup};
ghost use Rattle.slot_disks.specs.Slots.{open_slots, with_group, with_shut_gate};

use crate::disks::Disk;
use crate::layouts::Layout;
use day_clock::Failed;

/// How many slots are open, and whether a gate that is not open stands after them.
#[derive(Clone, Copy)]
pub struct Found {
    /// How many slots are open.
    pub count: u64,
    /// Whether a gate that is not open stands after them.
    pub is_shut: bool,
}

/// Syncs.
pub fn sync_first<Q: Disk>(disk: &mut Q) -> Result<(), Failed>
    ensures reads { Q.told ≡ true
        → ReadsBytes Q.seen Q.images Q.moment Q.images_since disk.old disk.new }
    ensures durable { Q.told ≡ true
        → OnOk result (LeavesThis (Q.seen disk.new) (Q.images disk.new)) }
    ensures later { Q.faults disk.old ≤ Q.faults disk.new }
    ensures failed { OnErr result (Q.faults disk.old < Q.faults disk.new) }
{
    disk.sync()
}

/// How many bytes there are. Asks that a crash leaves them.
pub fn length_of<Q: Disk>(disk: &mut Q) -> Result<u64, Failed>
    requires durable { Q.told ≡ true → LeavesThis (Q.seen disk.old) (Q.images disk.old) }
    ensures reads { Q.told ≡ true
        → ReadsBytes Q.seen Q.images Q.moment Q.images_since disk.old disk.new }
    ensures size { Q.told ≡ true → IfOk result (λ n. n ≡ length (Q.seen disk.old)) }
    ensures durable { Q.told ≡ true → LeavesThis (Q.seen disk.new) (Q.images disk.new) }
    ensures later { Q.faults disk.old ≤ Q.faults disk.new }
    ensures failed { OnErr result (Q.faults disk.old < Q.faults disk.new) }
{
    disk.len()
}

/// Reads from the front on, as much as is there and fits. Asks that a crash leaves what is read.
pub fn front_of<Q: Disk>(disk: &mut Q, block: &mut [u8]) -> Result<usize, Failed>
    requires durable { Q.told ≡ true → LeavesThis (Q.seen disk.old) (Q.images disk.old) }
    ensures fits { IfOk result (λ n. n ≤ length block.new) }
    ensures bytes { Q.told ≡ true
        → IfOk result (λ n. take n block.new ≡ take (length block.old) (Q.seen disk.old)) }
    ensures reads { Q.told ≡ true
        → ReadsBytes Q.seen Q.images Q.moment Q.images_since disk.old disk.new }
    ensures durable { Q.told ≡ true → LeavesThis (Q.seen disk.new) (Q.images disk.new) }
    ensures later { Q.faults disk.old ≤ Q.faults disk.new }
    ensures failed { OnErr result (Q.faults disk.old < Q.faults disk.new) }
{
    disk.read(0, block)
}

/// Shuts the gate after the open slots, where it is not there or is open. Where all are open
/// nothing is written.
pub fn shut_gate<Q: Disk>(disk: &mut Q, layout: Layout, found: Found) -> Result<(), Failed>
    requires size { layout.size < 2147483648 }
    requires most { layout.most ≤ 4294967296 }
    requires few { found.count ≤ layout.most }
    requires found { Q.told ≡ true → IsFound layout.size layout.most (Q.seen disk.old) found }
    requires durable { Q.told ≡ true → LeavesThis (Q.seen disk.old) (Q.images disk.old) }
    ensures settled { Q.told ≡ true → OnOk result
        (IsSettled layout.size layout.most found.count (Q.seen disk.new) (Q.images disk.new)) }
    ensures same { Q.told ≡ true → OnOk result (open_slots layout.size layout.most (Q.seen disk.new)
        ≡ open_slots layout.size layout.most (Q.seen disk.old)) }
    ensures shut { Q.told ≡ true
        → OnOk result (Q.seen disk.new ≡ with_shut_gate layout.size layout.most (Q.seen disk.old)) }
    ensures any_moment { Q.told ≡ true → LeavesOnly Q.moment Q.images_since disk.old disk.new
        (λ c. open_slots layout.size layout.most c
        ≡ open_slots layout.size layout.most (Q.seen disk.old)) }
    ensures later { Q.faults disk.old ≤ Q.faults disk.new }
    ensures failed { OnErr result (Q.faults disk.old < Q.faults disk.new) }
{
    if found.is_shut || found.count >= layout.most {
        return Ok(());
    }
    write_synced(disk, layout.gate_of(found.count), &[0])
}

/// Writes a group of slots after those that are open: first `after`, which is what comes after the
/// gate of the first of them, with a shut gate at the end, and once that is on the disk, the gate.
/// Takes no memory.
pub fn write_group<Q: Disk>(
    disk: &mut Q,
    layout: Layout,
    count: u64,
    after: &[u8],
) -> Result<(), Failed>
    requires size { layout.size < 2147483648 }
    requires most { layout.most ≤ 4294967296 }
    requires settled { Q.told ≡ true
        → IsSettled layout.size layout.most count (Q.seen disk.old) (Q.images disk.old) }
    requires next { count < layout.most }
    requires room { count * (layout.size + 1) + length after.now ≤ layout.most * (layout.size + 1) }
    ensures added { Q.told ≡ true → OnOk result
        (AddsGroup layout.size layout.most after.now (Q.seen disk.old) (Q.seen disk.new)) }
    ensures written { Q.told ≡ true → OnOk result
        (Q.seen disk.new ≡ with_group (count * (layout.size + 1)) after.now (Q.seen disk.old)) }
    ensures settled { Q.told ≡ true → OnOk result (SettlesGroup layout.size layout.most count
        after.now (Q.seen disk.new) (Q.images disk.new)) }
    ensures any_moment { Q.told ≡ true → LeavesGroup Q.moment Q.images_since layout.size layout.most
        after.now (open_slots layout.size layout.most (Q.seen disk.old)) disk.old disk.new }
    ensures later { Q.faults disk.old ≤ Q.faults disk.new }
    ensures failed { OnErr result (Q.faults disk.old < Q.faults disk.new) }
{
    let gate = layout.gate_of(count);
    write_synced(disk, gate + 1, after)?;
    write_synced(disk, gate, &[1])
}

/// Writes, and syncs.
pub fn write_synced<Q: Disk>(disk: &mut Q, at: u64, from: &[u8]) -> Result<(), Failed>
    requires at { Q.told ≡ true → at ≤ length (Q.seen disk.old) }
    requires durable { Q.told ≡ true → LeavesThis (Q.seen disk.old) (Q.images disk.old) }
    ensures written { Q.told ≡ true
        → OnOk result (Holds (Q.seen disk.old) at from.now (Q.seen disk.new)) }
    ensures durable { Q.told ≡ true
        → OnOk result (LeavesThis (Q.seen disk.new) (Q.images disk.new)) }
    ensures any_moment { Q.told ≡ true → LeavesOnly Q.moment Q.images_since disk.old disk.new
        (Torn at (length from.now) (Q.seen disk.old)) }
    ensures later { Q.faults disk.old ≤ Q.faults disk.new }
    ensures failed { OnErr result (Q.faults disk.old < Q.faults disk.new) }
{
    disk.write_at(at, from)?;
    disk.sync()
}
