//! A journal: the states of a home after its windows, on a disk.
ghost use Rattle.std.specs.Prelude.{◌≡◌, ◌+◌, ◌*◌, ◌<◌, ◌≤◌, [], ◌∷◌, All, IfErr, IfOk, IfSome, IsSome, Some, length, map, option_map, true, vec_capacity, vec_len, ◌↔◌};
ghost use Rattle.home_journal.specs.Journals.{AddsStates, IsDamage, IsStateOf, JournalState, KnowsKept, LeavesFirst, LeavesOldOrSame, disk_of, states_kept};
ghost use Rattle.home_journal.specs.KeptStates.{kept_states};
ghost use Rattle.home_journal.specs.Slots.{body_size, state_bytes, with_slot};
ghost use Rattle.home_types.specs.Limits.{most_devices, most_windows};
ghost use Rattle.slot_disks.specs.Disks.{LeavesThis};
ghost use Rattle.slot_disks.specs.Slots.{with_shut_gate};

use crate::slot_files::{prepare, write_slot};
use crate::states::{blank_state, copy_state, layout_of};
use day_clock::Failed;
use home_types::{Kind, List, NoMemory, World};
use slot_disks::{Disk, Layout};
use std::alloc::Global;
use std::marker::Model;
use std::snapshot::Snapshot;

/// The name of the file in which the program keeps its journal.
pub const FILE_NAME: &str = "home.journal";

/// The states of a home, one for each window that was closed, all of them on the disk.
#[derive(Drop)]
pub struct Journal<Q: Disk> {
    disk: Q,
    layout: Layout,
    // For contracts alone.
    kinds: Snapshot<List<Kind>>,
    count: u32,
    // The state in the last slot; where there is none, a state that is never shown.
    last: World,
    // Room for the bytes of a slot.
    slot: Vec<u8>,
}

impl<Q: Disk> Model for Journal<Q> {
    ghost use Rattle.std.specs.Prelude.{vec_capacity};
    ghost use Rattle.home_journal.specs.Journals.{IsOpen, JournalState, last_kept};

    ghost Value = { JournalState Q };

    ghost view = { λ j. record {
      disk = j.disk;
      kinds = j.kinds.value.items;
      most = j.layout.most;
      kept = j.count;
      last = last_kept j.count j.last.devices.items;
    } };

    ghost invariant = { λ j. IsOpen j.kinds.value.items j.layout.size j.layout.most j.count
        j.last.devices.items (vec_capacity j.slot) Q.told (Q.seen j.disk) (Q.images j.disk) };
}

/// Why a journal was not opened.
#[derive(Clone, Copy, Debug, PartialEq, Eq)]
pub enum OpenFault {
    /// There was no memory for its room.
    NoMemory,
    /// A call of the disk failed.
    Failed,
    /// The first slot, counted from 0, that is open and not good: its numbers are wrong, or a value
    /// is none of its kind.
    Damaged(u32),
}

impl<Q: Disk> Journal<Q> {
    /// Opens the journal on a disk that a crash may have left, for a home with devices of these
    /// kinds and a script with at most `most` windows. It begins with a sync. Where fewer than
    /// `most` states are kept and the gate of the next slot is missing or open, it is shut. What is
    /// kept does not change.
    ///
    /// All memory is taken before the disk is called: `NoMemory` leaves the disk as it is.
    pub fn open(
        alloc: Global,
        disk: Q,
        kinds: &List<Kind>,
        most: u32,
    ) -> Result<Journal<Q>, (Q, OpenFault)>
        requires devices { length kinds.now.items ≤ most_devices }
        requires windows { most ≤ most_windows }
        ensures home { IfOk result
            (λ j. (j.kinds ≡ kinds.now.items) × (j.most ≡ most) × (j.kept ≤ most)) }
        ensures knows { Q.told ≡ true
            → IfOk result (λ j. KnowsKept kinds.now.items most (Q.seen disk) j.kept j.last) }
        ensures same { Q.told ≡ true → IfOk result
            (λ j. states_kept Q.seen j ≡ kept_states kinds.now.items most (Q.seen disk)) }
        ensures shut { Q.told ≡ true → IfOk result (λ j. Q.seen j.disk
            ≡ with_shut_gate (body_size (length kinds.now.items)) most (Q.seen disk)) }
        ensures damaged { Q.told ≡ true → IfErr result (λ e. IsDamage e.1
            (kept_states kinds.now.items most (Q.seen disk)) (Q.seen disk) (Q.seen e.0)) }
        ensures failed { IfErr result (λ e. e.1 ≡ OpenFault.Failed → Q.faults disk < Q.faults e.0) }
        ensures no_memory { IfErr result (λ e. e.1 ≡ OpenFault.NoMemory → e.0 ≡ disk) }
        ensures later { Q.faults disk ≤ Q.faults (disk_of result) }
        // A crash at any moment of the call leaves one of the images that there were, or what keeps
        // the same.
        ensures any_moment { Q.told ≡ true → LeavesOldOrSame Q.seen Q.images Q.moment Q.images_since
            kinds.now.items most disk (disk_of result) }
    {
        let layout = layout_of(kinds.len(), most);
        let Ok(room) = take_room(alloc, layout, kinds.len()) else {
            return Err((disk, OpenFault::NoMemory));
        };
        let Room {
            slot,
            mut block,
            mut last,
        } = room;
        let mut disk = disk;
        match prepare(
            &mut disk,
            layout,
            kinds.as_slice(),
            block.as_mut_slice(),
            &mut last,
        ) {
            Ok(Ok(count)) => Ok(Journal {
                disk,
                layout,
                kinds: Snapshot::of(kinds),
                count,
                last,
                slot,
            }),
            Ok(Err(place)) => Err((disk, OpenFault::Damaged(place))),
            Err(_) => Err((disk, OpenFault::Failed)),
        }
    }

    /// How many states are kept.
    pub fn kept(&self) -> u32
        ensures { result ≡ self.now.kept }
    {
        self.count
    }

    /// The last state that is kept, where one is.
    pub fn last(&self) -> Option<&World>
        ensures last { option_map (λ home. home.now.devices.items) result ≡ self.now.last }
        ensures some { IsSome result ↔ (0 < self.now.kept) }
        ensures state { IfSome result (λ home. IsStateOf self.now.kinds home.now.devices.items) }
    {
        if self.count == 0 {
            None
        } else {
            Some(&self.last)
        }
    }

    /// What stands in every journal: it knows what its disk keeps, and a crash leaves all of it. It
    /// does no work.
    pub fn settled(&self)
        ensures few { self.now.kept ≤ self.now.most }
        ensures knows { Q.told ≡ true → KnowsKept self.now.kinds self.now.most
            (Q.seen self.now.disk) self.now.kept self.now.last }
        ensures durable { Q.told ≡ true
            → LeavesThis (Q.seen self.now.disk) (Q.images self.now.disk) }
    {
        let _ = &self.count;
    }

    /// Gives the disk back.
    pub fn into_disk(self) -> Q
        ensures { result ≡ self.disk }
    {
        let Journal {
            disk,
            layout: _,
            kinds: _,
            count: _,
            last: _,
            slot: _,
        } = self;
        disk
    }

    /// Keeps one more state, with two syncs. From `Ok` on every crash leaves it; a crash at any
    /// moment of the call leaves what was kept, with the new one or without. Takes no memory.
    ///
    /// After `Failed` the disk is opened again, to learn whether the state is kept.
    pub fn keep(self, world: &World) -> Result<Journal<Q>, (Q, Failed)>
        requires next { self.kept < self.most }
        requires home { IsStateOf self.kinds world.now.devices.items }
        ensures home { IfOk result (λ j. (j.kinds ≡ self.kinds) × (j.most ≡ self.most)) }
        ensures last { IfOk result
            (λ j. (j.kept ≡ self.kept + 1) × (j.last ≡ Some world.now.devices.items)) }
        ensures kept { Q.told ≡ true → IfOk result (λ j. AddsStates (states_kept Q.seen self)
            (states_kept Q.seen j) (world.now.devices.items ∷ [])) }
        ensures written { Q.told ≡ true → IfOk result (λ j. Q.seen j.disk ≡ with_slot
            (self.kept * (body_size (length self.kinds) + 1))
            (state_bytes (self.kept + 1) world.now.devices.items) (Q.seen self.disk)) }
        // A crash at any moment of the call leaves what was kept, with the new state or without.
        ensures any_moment { Q.told ≡ true → LeavesFirst Q.seen Q.moment Q.images_since self
            (disk_of result) (world.now.devices.items ∷ []) }
        ensures later { IfOk result (λ j. Q.faults self.disk ≤ Q.faults j.disk) }
        ensures failed { IfErr result (λ e. Q.faults self.disk < Q.faults e.0) }
    {
        let Journal {
            mut disk,
            layout,
            kinds,
            count,
            mut last,
            mut slot,
        } = self;
        let home = world.devices.as_slice();
        match write_slot(&mut disk, layout, count, &mut slot, home) {
            Ok(()) => {
                copy_state(&mut last, home);
                Ok(Journal {
                    disk,
                    layout,
                    kinds,
                    count: count + 1,
                    last,
                    slot,
                })
            }
            Err(failed) => Err((disk, failed)),
        }
    }

    /// Keeps these states, one after another. A crash at any moment of the call leaves what was
    /// kept and a first part of these. Takes no memory.
    ///
    /// After `Failed` the disk is opened again, to learn how many of them are kept.
    pub fn keep_all(self, worlds: &List<World>) -> Result<Journal<Q>, (Q, Failed)>
        requires room { self.kept + length worlds.now.items ≤ self.most }
        requires homes { All (λ w. IsStateOf self.kinds w.devices.items) worlds.now.items }
        ensures home { IfOk result (λ j. (j.kinds ≡ self.kinds) × (j.most ≡ self.most)
            × (j.kept ≡ self.kept + length worlds.now.items)) }
        ensures kept { Q.told ≡ true → IfOk result (λ j. AddsStates (states_kept Q.seen self)
            (states_kept Q.seen j) (map (λ w. w.devices.items) worlds.now.items)) }
        // A crash at any moment of the call leaves what was kept, and the first of the new states.
        ensures any_moment { Q.told ≡ true → LeavesFirst Q.seen Q.moment Q.images_since self
            (disk_of result) (map (λ w. w.devices.items) worlds.now.items) }
        ensures later { IfOk result (λ j. Q.faults self.disk ≤ Q.faults j.disk) }
        ensures failed { IfErr result (λ e. Q.faults self.disk < Q.faults e.0) }
    {
        self.settled();
        let mut journal = self;
        'worlds: for world in worlds.as_slice() {
            match journal.keep(world) {
                Ok(next) => journal = next,
                Err(failed) => return Err(failed),
            }
        }
        Ok(journal)
    }
}

// The room of a journal: for the bytes of a slot, for the file while it is read, and for the last
// state.
#[derive(Drop)]
struct Room {
    slot: Vec<u8>,
    block: Vec<u8>,
    last: World,
}

// Takes the room of a journal.
fn take_room(alloc: Global, layout: Layout, devices: u64) -> Result<Room, NoMemory>
    requires size { layout.size ≤ body_size most_devices }
    requires windows { layout.most ≤ most_windows }
    ensures slot { IfOk result (λ room. layout.size < vec_capacity room.slot) }
    ensures block { IfOk result (λ room. vec_len room.block ≡ layout.most * (layout.size + 1) + 1) }
    ensures last { IfOk result (λ room. length room.last.devices.items ≡ devices) }
{
    let last = blank_state(alloc, devices)?;
    let Ok(slot) = Vec::with_capacity(alloc, layout.size as usize + 1) else {
        return Err(NoMemory);
    };
    let Ok(block) = vec![in alloc; 0u8; layout.bytes() as usize] else {
        return Err(NoMemory);
    };
    Ok(Room { slot, block, last })
}
