//! A file of slots on a disk: how it is opened, and how one slot more is kept.
ghost use Rattle.std.specs.Prelude.{◌≡◌, ◌+◌, ◌*◌, ◌<◌, ◌^◌, ◌≤◌, ◌++◌, [], ◌∷◌, All, Err, IfErr, IfOk, OnErr, OnOk, length, take, true, vec_capacity};
ghost use Rattle.home_journal.specs.Journals.{IsStateOf, KnowsKept, last_kept};
ghost use Rattle.home_journal.specs.KeptStates.{kept_states};
ghost use Rattle.home_journal.specs.Slots.{body_size, state_bytes, with_slot};
ghost use Rattle.home_types.specs.Limits.{most_devices, most_windows};
ghost use Rattle.slot_disks.specs.Disks.{LeavesOnly, LeavesThis};
ghost use Rattle.slot_disks.specs.SlotFiles.{IsOldOrAll, IsOldOrSame, IsSettled, ReadsBytes};
ghost use Rattle.slot_disks.specs.Slots.{open_slots, with_shut_gate};

use crate::scans::scan;
use crate::states::fill_slot;
use day_clock::Failed;
use home_types::{Kind, Stand, World};
use slot_disks::{Disk, Layout, front_of, length_of, shut_gate, sync_first, write_group};

/// Syncs, reads the file into `block`, which has room for all slots, and shuts the gate behind
/// those that are open. Answers how many they are, or which is the first that is not good; the
/// state of the last one is in `last` then.
pub(crate) fn prepare<Q: Disk>(
    disk: &mut Q,
    layout: Layout,
    kinds: &[Kind],
    block: &mut [u8],
    last: &mut World,
) -> Result<Result<u32, u32>, Failed>
    requires size { layout.size ≡ body_size (length kinds.now) }
    requires devices { length kinds.now ≤ most_devices }
    requires windows { layout.most ≤ most_windows }
    requires blank { length last.old.devices.items ≡ length kinds.now }
    requires block { length block.old ≡ layout.most * (layout.size + 1) + 1 }
    ensures settled { Q.told ≡ true → IfOk result (λ found. IfOk found
        (λ count. IsSettled layout.size layout.most count (Q.seen disk.new) (Q.images disk.new))) }
    ensures few { IfOk result (λ found. IfOk found (λ count. count ≤ layout.most)) }
    ensures knows { Q.told ≡ true → IfOk result (λ found. IfOk found (λ count. KnowsKept kinds.now
        layout.most (Q.seen disk.old) count (last_kept count last.new.devices.items))) }
    ensures shut { Q.told ≡ true → IfOk result (λ found. IfOk found
        (λ _. Q.seen disk.new ≡ with_shut_gate layout.size layout.most (Q.seen disk.old))) }
    ensures damaged { Q.told ≡ true → IfOk result (λ found. IfErr found
        (λ place. kept_states kinds.now layout.most (Q.seen disk.old) ≡ Err place)) }
    ensures unwritten { Q.told ≡ true
        → IfOk result (λ found. IfErr found (λ _. Q.seen disk.new ≡ Q.seen disk.old)) }
    ensures same { Q.told ≡ true → IfOk result
        (λ found. open_slots layout.size layout.most (Q.seen disk.new) ≡ open_slots layout.size layout.most (Q.seen disk.old)) }
    ensures blank { length last.new.devices.items ≡ length kinds.now }
    ensures of_kinds { IfOk result
        (λ found. IfOk found (λ count. 0 < count → IsStateOf kinds.now last.new.devices.items)) }
    ensures any_moment { Q.told ≡ true
        → LeavesOnly Q.moment Q.images_since disk.old disk.new (IsOldOrSame (Q.images disk.old)
        layout.size layout.most (open_slots layout.size layout.most (Q.seen disk.old))) }
    ensures later { Q.faults disk.old ≤ Q.faults disk.new }
    ensures failed { OnErr result (Q.faults disk.old < Q.faults disk.new) }
{
    let count = load(disk, block)?;
    match scan(&block[..count], layout, kinds, last) {
        Ok(found) => {
            shut_gate(disk, layout, found)?;
            Ok(Ok(found.count as u32))
        }
        Err(place) => Ok(Err(place)),
    }
}

// Syncs, and then reads the front of the file; an empty file is not read.
fn load<Q: Disk>(disk: &mut Q, block: &mut [u8]) -> Result<usize, Failed>
    ensures fits { IfOk result (λ n. n ≤ length block.new) }
    ensures bytes { Q.told ≡ true
        → IfOk result (λ n. take n block.new ≡ take (length block.old) (Q.seen disk.old)) }
    ensures reads { Q.told ≡ true
        → ReadsBytes Q.seen Q.images Q.moment Q.images_since disk.old disk.new }
    ensures durable { Q.told ≡ true
        → OnOk result (LeavesThis (Q.seen disk.new) (Q.images disk.new)) }
    ensures later { Q.faults disk.old ≤ Q.faults disk.new }
    ensures failed { OnErr result (Q.faults disk.old < Q.faults disk.new) }
{
    sync_first(disk)?;
    let size = length_of(disk)?;
    if size == 0 {
        return Ok(0);
    }
    front_of(disk, block)
}

/// Keeps the state in the next slot: writes what stands behind its gate, with a gate that is not
/// open behind that, and opens its gate once that is on the disk. Takes no memory.
pub(crate) fn write_slot<Q: Disk>(
    disk: &mut Q,
    layout: Layout,
    count: u32,
    slot: &mut Vec<u8>,
    home: &[Stand],
) -> Result<(), Failed>
    requires settled { Q.told ≡ true
        → IsSettled layout.size layout.most count (Q.seen disk.old) (Q.images disk.old) }
    requires next { count < layout.most }
    requires size { layout.size ≡ body_size (length home.now) }
    requires devices { length home.now ≤ most_devices }
    requires windows { layout.most ≤ most_windows }
    requires room { layout.size < vec_capacity slot.old }
    ensures kept { Q.told ≡ true → OnOk result (open_slots layout.size layout.most (Q.seen disk.new)
        ≡ open_slots layout.size layout.most (Q.seen disk.old) ++ state_bytes (count + 1) home.now ∷ []) }
    ensures written { Q.told ≡ true → OnOk result (Q.seen disk.new ≡ with_slot
        (count * (layout.size + 1)) (state_bytes (count + 1) home.now) (Q.seen disk.old)) }
    ensures settled { Q.told ≡ true → OnOk result
        (IsSettled layout.size layout.most (count + 1) (Q.seen disk.new) (Q.images disk.new)) }
    ensures any_moment { Q.told ≡ true
        → LeavesOnly Q.moment Q.images_since disk.old disk.new (IsOldOrAll layout.size
        layout.most (open_slots layout.size layout.most (Q.seen disk.old)) (state_bytes (count + 1) home.now ∷ [])) }
    ensures room { layout.size < vec_capacity slot.new }
    ensures small { All (λ s. s.value < 2 ^ 32) home.now }
    ensures later { Q.faults disk.old ≤ Q.faults disk.new }
    ensures failed { OnErr result (Q.faults disk.old < Q.faults disk.new) }
{
    fill_slot(slot, count + 1, home);
    write_group(disk, layout, u64::from(count), slot.as_slice())
}
