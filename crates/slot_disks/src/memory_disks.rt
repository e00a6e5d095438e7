//! A disk in memory, which fails from a call on that it is told, and which may crash.
ghost use Rattle.std.specs.Prelude.{◌≡◌, ◌+◌, ◌-◌, ◌≤◌, ◌++◌, None, drop, if◌then◌else◌, length, max, min, take as prefix, vec_capacity, IfOk};
ghost use Rattle.slot_disks.specs.MemoryDisks.{after_plain_call, after_sync, disk_after_write, call_answer, disk_called, disk_faulted, next_call_fails, fresh_disk, images_of, synced, disk_write_answer, bytes_written};

use crate::disks::Disk;
use crate::written_ranges::WrittenRanges;
use day_clock::{Failed, FaultCount};
use home_types::{Bytes, NoMemory};
use std::alloc::Global;
use std::marker::Model;
use std::snapshot::Snapshot;

/// A file in memory. Its calls take no memory.
#[derive(Drop)]
pub struct MemoryDisk {
    stable: Vec<u8>,
    current: Vec<u8>,
    room: usize,
    // The ranges written since the last sync, and the disk as it was before: both for contracts
    // alone.
    ranges: WrittenRanges,
    before: Option<Snapshot<MemoryDisk>>,
    // How many calls were made. From the number 2^64 - 1 on each call has that number.
    calls: u64,
    fails_from: Option<u64>,
    faults: FaultCount,
}

impl Model for MemoryDisk {
    ghost use Rattle.std.specs.Prelude.{◌≤◌, length, vec_capacity};
    ghost use Rattle.slot_disks.specs.MemoryDisks.{CrashMayLeave, MemoryState, past_of};

    ghost Value = { MemoryState };

    ghost view = { λ m. record {
      stable = m.stable.items;
      current = m.current.items;
      ranges = m.ranges;
      past = past_of m.before;
      room = m.room;
      calls = m.calls;
      fails_from = m.fails_from;
      faults = m.faults;
    } };

    ghost invariant = { λ m. CrashMayLeave m.stable.items m.ranges m.current.items
        × (length m.current.items ≤ m.room) × (length m.stable.items ≤ m.room)
        × (m.room ≤ vec_capacity m.current) × (m.room ≤ vec_capacity m.stable) };

    ghost size = { λ m. length m.past };

    ghost use Rattle.std.proofs.Common.{arith};

    ghost size_decreases = { λ a h. Prim.grind (arith) };
}

impl MemoryDisk {
    /// Makes a disk that holds `bytes`, all of them synced, and has room for `room` bytes, or for
    /// `bytes` where these are more. Every call from number `fails_from`, counted from 1, fails; so
    /// does a write for which there is no room.
    ///
    /// The room is taken here twice, for what a read gives and for what a crash leaves; `NoMemory`
    /// comes where there is none for it. The record of what was written takes no memory, since
    /// contracts alone read it.
    pub fn new(
        alloc: Global,
        bytes: Bytes,
        room: u64,
        fails_from: Option<u64>,
    ) -> Result<MemoryDisk, NoMemory>
        ensures { IfOk result
            (λ disk. disk ≡ fresh_disk bytes (max room (length bytes)) fails_from) }
    {
        let room = (room as usize).max(bytes.as_slice().len());
        let stable = copy_of(alloc, bytes.as_slice(), room)?;
        let current = copy_of(alloc, bytes.as_slice(), room)?;
        Ok(MemoryDisk {
            stable,
            current,
            room,
            ranges: WrittenRanges::none(),
            before: None,
            calls: 0,
            fails_from,
            faults: FaultCount::new(),
        })
    }

    /// The disk as a crash leaves it, with the same room and an empty record, which fails no more:
    /// it holds the bytes at the last sync that succeeded, or, where `kept`, those with every write
    /// made since. A write that has failed counts as made, but for one for which there was no room.
    pub fn crashed(self, kept: bool) -> MemoryDisk
        ensures image { images_of self result.current }
        ensures fresh { result
            ≡ fresh_disk (if kept then self.current else self.stable) self.room None }
    {
        let MemoryDisk {
            mut stable,
            mut current,
            room,
            ranges: _,
            before: _,
            calls: _,
            fails_from: _,
            faults: _,
        } = self;
        settle(&mut stable, &mut current, kept);
        MemoryDisk {
            stable,
            current,
            room,
            ranges: WrittenRanges::none(),
            before: None,
            calls: 0,
            fails_from: None,
            faults: FaultCount::new(),
        }
    }

    // Writes these bytes there, and remembers the disk as it was.
    fn put(&mut self, at: usize, from: &[u8])
        requires at { at ≤ length self.old.current }
        requires room { at + length from.now ≤ self.old.room }
        ensures { self.new ≡ bytes_written at from.now self.old }
    {
        let before = Snapshot::of(&*self);
        self.before = Some(before);
        self.ranges.add(at, from.len());
        overwrite(&mut self.current, at, from);
    }

    // Makes what a read gives what a crash leaves, and remembers the disk as it was.
    fn settle(&mut self)
        ensures { self.new ≡ synced self.old }
    {
        let before = Snapshot::of(&*self);
        self.before = Some(before);
        self.ranges = WrittenRanges::none();
        copy(&mut self.stable, self.current.as_slice());
    }

    // Counts a call, and tells whether it fails.
    fn call_fails(&mut self) -> bool
        ensures fails { result ≡ next_call_fails self.old }
        ensures counted { self.new ≡ disk_called self.old }
    {
        self.calls = self.calls.saturating_add(1);
        match self.fails_from {
            Some(first) => first <= self.calls,
            None => false,
        }
    }
}

// Copies the bytes, with room for so many in all.
fn copy_of(alloc: Global, bytes: &[u8], room: usize) -> Result<Vec<u8>, NoMemory>
    requires { length bytes.now ≤ room }
    ensures { IfOk result (λ copy. (copy.items ≡ bytes.now) × (room ≤ vec_capacity copy)) }
{
    let Ok(mut copied) = Vec::with_capacity(alloc, room) else {
        return Err(NoMemory);
    };
    copy(&mut copied, bytes);
    Ok(copied)
}

// Makes the first the same as the second, or else the second as the first.
fn settle(stable: &mut Vec<u8>, current: &mut Vec<u8>, kept: bool)
    requires stable { length current.old.items ≤ vec_capacity stable.old }
    requires current { length stable.old.items ≤ vec_capacity current.old }
    ensures bytes { current.new.items ≡ (if kept then current.old.items else stable.old.items) }
    ensures same { stable.new.items ≡ current.new.items }
    ensures room { (vec_capacity stable.old ≤ vec_capacity stable.new)
        × (vec_capacity current.old ≤ vec_capacity current.new) }
{
    if kept {
        copy(stable, current.as_slice());
    } else {
        copy(current, stable.as_slice());
    }
}

// Makes the first the same as the second.
fn copy(to: &mut Vec<u8>, from: &[u8])
    requires { length from.now ≤ vec_capacity to.old }
    ensures { (to.new.items ≡ from.now) × (vec_capacity to.old ≤ vec_capacity to.new) }
{
    to.clear();
    let copied = to.extend_from_slice(from);
    copied.unwrap();
}

// Writes these bytes there, with no memory taken.
fn overwrite(to: &mut Vec<u8>, at: usize, from: &[u8])
    requires at { at ≤ length to.old.items }
    requires room { at + length from.now ≤ vec_capacity to.old }
    ensures items { to.new.items
        ≡ prefix at to.old.items ++ from.now ++ drop (at + length from.now) to.old.items }
    ensures room { vec_capacity to.old ≤ vec_capacity to.new }
{
    let end = at + from.len();
    if end <= to.len() {
        to[at..end].copy_from_slice(from);
    } else {
        to.truncate(at);
        let written = to.extend_from_slice(from);
        written.unwrap();
    }
}

// Gives the bytes from there on that fit.
fn give(bytes: &[u8], at: u64, into: &mut [u8]) -> usize
    ensures count { result ≡ min (length into.old) (length bytes.now - at) }
    ensures given { prefix result into.new ≡ prefix result (drop at bytes.now) }
{
    if at >= bytes.len() as u64 {
        return 0;
    }
    let rest = &bytes[at as usize..];
    let count = rest.len().min(into.len());
    into[..count].copy_from_slice(&rest[..count]);
    count
}

impl Disk for MemoryDisk {
    ghost use Rattle.std.specs.Prelude.{◌≡◌, true, length};
    ghost use Rattle.std.proofs.Common.{inl};
    ghost use Rattle.slot_disks.specs.MemoryDisks.{images_of, images_since_of, only_images};

    ghost told = { true };

    ghost seen = { λ m. m.current };

    ghost images = { λ m. images_of m };

    ghost moment = { λ m. length m.past };

    ghost images_since = { λ m. images_since_of m };

    ghost faults = { λ m. m.faults };

    ghost counts_now = { λ m t c le now. inl now };

    ghost only_now = { λ m c left. only_images m c left };

    fn len(&mut self) -> Result<u64, Failed>
        ensures answer { result ≡ call_answer self.old (length self.old.current) }
        ensures after { self.new ≡ after_plain_call self.old }
    {
        if self.call_fails() {
            self.faults.raise();
            return Err(Failed);
        }
        Ok(self.current.len() as u64)
    }

    fn read(&mut self, at: u64, into: &mut [u8]) -> Result<usize, Failed>
        ensures answer { result
            ≡ call_answer self.old (min (length into.old) (length self.old.current - at)) }
        ensures given { IfOk result (λ n. prefix n into.new ≡ prefix n (drop at self.old.current)) }
        ensures after { self.new ≡ after_plain_call self.old }
    {
        if self.call_fails() {
            self.faults.raise();
            return Err(Failed);
        }
        Ok(give(self.current.as_slice(), at, into))
    }

    fn write_at(&mut self, at: u64, from: &[u8]) -> Result<(), Failed>
        requires { at ≤ length self.old.current }
        ensures answer { result ≡ disk_write_answer self.old at (length from.now) }
        ensures after { self.new ≡ disk_after_write self.old at from.now }
    {
        let fails = self.call_fails();
        let at = at as usize;
        if from.len() > self.room - at {
            self.faults.raise();
            return Err(Failed);
        }
        self.put(at, from);
        if fails {
            self.faults.raise();
            return Err(Failed);
        }
        Ok(())
    }

    fn sync(&mut self) -> Result<(), Failed>
        ensures answer { result ≡ call_answer self.old tt }
        ensures after { self.new ≡ after_sync self.old }
        ensures stands { images_of self.old self.old.current }
    {
        if self.call_fails() {
            self.faults.raise();
            return Err(Failed);
        }
        self.settle();
        Ok(())
    }

    fn stands(&self) {
        let _ = &self.room;
    }
}
