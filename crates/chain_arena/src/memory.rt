//! The block itself, reached by a raw pointer. The six functions here are all that touch one.
ghost use Rattle.std.specs.Prelude.{◌≡◌, ◌<◌, ◌≤◌, ◌++◌, ◌∷◌, [], List, Some, length, slice_get, ℕ, IfSome, if◌then◌else◌};
ghost use Rattle.std.specs.Borrow.{sem};
ghost use Rattle.core.specs.Allocator.{FitsBlock};
ghost use Rattle.chain_arena.specs.Memory.{block_at, shared_at};

use std::alloc::Allocator;
use std::marker::{Model, PhantomData};
use std::mem::{align_of, size_of};

/// A block for so many values (`room`), of which the first ones are there (`items`), in order. It
/// keeps its pointer and no number: who calls tells it what it asks.
pub struct Memory<T, A: Allocator> {
    base: *mut T,
    by: PhantomData<A>,
    pub ghost items: { List T },
    pub ghost room: { ℕ },
    pub ghost alloc: { A },
}

impl<T, A: Allocator> Model for Memory<T, A> {
    ghost also_owns = { λ m. block_at (A.dealloc_token m.alloc) T.row m.base m.room m.items };

    ghost also_shares = { λ m _ κ. shared_at T.row m.base m.room m.items κ };
}

// `Send` where the values and the allocator are, `Sync` where they are.
unsafe impl<T: Send, A: Allocator + Send> Send for Memory<T, A> {}

unsafe impl<T: Sync, A: Allocator + Sync> Sync for Memory<T, A> {}

impl<T, A: Allocator> Memory<T, A> {
    ghost use Rattle.chain_arena.specs.MemoryLends.{lends_value};

    /// Takes a block for `room` values, with none there yet. `None` where there is no memory.
    pub(crate) fn allocate(alloc: &A, room: usize) -> Option<Memory<T, A>>
        requires { (0 < room) × FitsBlock T.row room }
        ensures { IfSome result (λ m. (m.items ≡ []) × (m.room ≡ room) × (m.alloc ≡ alloc.now)) }
    {
        match alloc.allocate(room * size_of::<T>(), align_of::<T>()) {
            Ok(block) => Some(Memory {
                base: block as *mut T,
                by: PhantomData,
            }),
            Err(_) => None,
        }
    }

    /// Makes the block one for `more` values, in another place where that must be, and answers
    /// whether there was memory for it. The values that are there stay.
    pub(crate) fn grow(&mut self, alloc: &A, len: usize, room: usize, more: usize) -> bool
        requires counts { (len ≡ length self.old.items) × (room ≡ self.old.room)
            × (alloc.now ≡ self.old.alloc) }
        requires grows { (len ≤ room) × (room ≤ more) × FitsBlock T.row more }
        ensures items { self.new.items ≡ self.old.items }
        ensures room { self.new.room ≡ (if result then more else self.old.room) }
        ensures alloc { self.new.alloc ≡ self.old.alloc }
    {
        match unsafe { alloc.grow(self.base, len, room, more) } {
            Ok(base) => {
                self.base = base;
                true
            }
            Err(_) => false,
        }
    }

    /// Puts one more value behind the `len` that are there.
    pub(crate) fn push(&mut self, len: usize, item: T)
        requires { (len ≡ length self.old.items) × (len < self.old.room) }
        ensures items { self.new.items ≡ self.old.items ++ item ∷ [] }
        ensures block { (self.new.room ≡ self.old.room) × (self.new.alloc ≡ self.old.alloc) }
    {
        unsafe { self.base.add(len).write(item) }
    }

    /// The value number `i`, counted from 0.
    pub(crate) fn get(&self, i: usize) -> &T
        requires { i < length self.now.items }
        ensures { slice_get self.now.items i ≡ Some result.now }
    {
        unsafe { &*self.base.add(i) }
    }

    /// The value number `i`, counted from 0, to write to.
    pub(crate) fn get_mut(&mut self, i: usize) -> &mut T
        requires { i < length self.old.items }
        ensures* writes_back { sem 𝓛 (lends_value T.row A.row A.Allocator self.entry i result) }
        ensures value { slice_get self.old.items i ≡ Some result.now }
    {
        unsafe { &mut *self.base.add(i) }
    }

    /// Gives the block back. Values that are there are forgotten, so the caller sees that nothing
    /// is lost with them.
    pub(crate) unsafe fn free(self, alloc: &A, room: usize)
        requires { (room ≡ self.room) × (alloc.now ≡ self.alloc) }
    {
        let Memory { base, by: _ } = self;
        unsafe { alloc.deallocate(base as *mut u8, room * size_of::<T>(), align_of::<T>()) }
    }
}
