//! A block as the list of what lies in its places. No contract from here on names a pointer.
ghost use Rattle.std.specs.Prelude.{◌≡◌, ◌<◌, ◌≤◌, ◌++◌, ◌∷◌, [], OnErr, OnOk, Some, length, slice_get};
ghost use Rattle.std.specs.Borrow.{sem};

use crate::memory::Memory;
use std::alloc::{AllocError, Global};
use std::marker::Model;
use std::mem;
use std_alloc::room::may_hold;

/// A block with a value in each of its first places, and memory for so many more. There is none as
/// long as it has room for no value.
pub struct Block<T> {
    memory: Option<Memory<T, Global>>,
    len: usize,
    room: usize,
    alloc: Global,
}

impl<T> Model for Block<T> {
    ghost use Rattle.chain_arena.specs.Blocks.{IsBlock, Placed, items_of};

    ghost Value = { Placed T };

    ghost view = { λ b. record { items = items_of b.memory; room = b.room } };

    ghost invariant = { λ b. IsBlock b.memory b.len b.room b.alloc };
}

impl<T> Block<T> {
    ghost use Rattle.chain_arena.specs.BlockLends.{lends_place};

    /// Makes a block of no places. Takes no memory.
    pub(crate) fn new(alloc: Global) -> Block<T>
        ensures { (result.items ≡ []) × (result.room ≡ 0) }
    {
        Block {
            memory: None,
            len: 0,
            room: 0,
            alloc,
        }
    }

    /// Makes room for `room` values in all. What lies in the places stays there. `AllocError` where
    /// there is no memory for so many, or where they would have 2^63 bytes or more; nothing has
    /// changed then.
    pub(crate) fn grow(&mut self, room: usize) -> Result<(), AllocError>
        ensures items { self.new.items ≡ self.old.items }
        ensures ok { OnOk result (room ≤ self.new.room) }
        ensures err { OnErr result (self.new ≡ self.old) }
    {
        if room <= self.room {
            return Ok(());
        }
        if !may_hold::<T>(room) {
            return Err(AllocError);
        }
        if let Some(memory) = &mut self.memory {
            if !memory.grow(&self.alloc, self.len, self.room, room) {
                return Err(AllocError);
            }
        } else {
            let Some(memory) = Memory::allocate(&self.alloc, room) else {
                return Err(AllocError);
            };
            match mem::replace(&mut self.memory, Some(memory)) {
                None => {}
                Some(_memory) => unreachable!(),
            }
        }
        self.room = room;
        Ok(())
    }

    /// How many places have a value.
    pub(crate) fn len(&self) -> usize
        ensures { result ≡ length self.now.items }
    {
        self.len
    }

    /// Puts a value into the first place that has none.
    pub(crate) fn push(&mut self, item: T)
        requires { length self.old.items < self.old.room }
        ensures items { self.new.items ≡ self.old.items ++ item ∷ [] }
        ensures room { self.new.room ≡ self.old.room }
    {
        match &mut self.memory {
            Some(memory) => memory.push(self.len, item),
            None => unreachable!(),
        }
        self.len += 1;
    }

    /// The value in the place `i`, counted from 0.
    pub(crate) fn get(&self, i: usize) -> &T
        requires { i < length self.now.items }
        ensures { slice_get self.now.items i ≡ Some result.now }
    {
        match &self.memory {
            Some(memory) => memory.get(i),
            None => unreachable!(),
        }
    }

    /// The value in the place `i`, to write to.
    pub(crate) fn get_mut(&mut self, i: usize) -> &mut T
        requires { i < length self.old.items }
        ensures* writes_back { sem 𝓛 (lends_place T.row self.entry i result) }
        ensures value { slice_get self.old.items i ≡ Some result.now }
    {
        match &mut self.memory {
            Some(memory) => memory.get_mut(i),
            None => unreachable!(),
        }
    }

    /// Gives the block back. What lies in its places is forgotten: the caller sees that nothing is
    /// lost with it.
    pub(crate) unsafe fn free(self) {
        let Block {
            memory,
            len: _,
            room,
            alloc,
        } = self;
        match memory {
            Some(memory) => unsafe { memory.free(&alloc, room) },
            None => {}
        }
    }
}
