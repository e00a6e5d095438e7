//! The places of a chain and the links between them. The first place of the list, its last one and
//! the first free one are kept beside the block.
ghost use Rattle.std.specs.Prelude.{◌≡◌, ◌+◌, ◌<◌, ◌≤◌, ◌^◌, [], None, Some, IsSome, IsTrue, OnErr, OnOk, false, is_some, length, slice_get, ℕ};
ghost use Rattle.chain_arena.specs.Linked.{Empties, Fills, IsChain, IsFree, IsLink, IsLinked, IsOn, Joins, SetsLeft, SetsRight, knot, left, nil, pairs_of, right, right_in, room_of, value, with_free};
ghost use Rattle.chain_arena.specs.Places.{IsPlace};
ghost use Rattle.std.specs.Borrow.{sem};
ghost use Rattle.chain_arena.specs.Chains.{from_knot, has_knot, put_before, value_at, without};

use crate::block::Block;
use home_types::NoMemory;
use std::alloc::Global;
use std::mem;

/// Stands for no place: to the right of the last one, to the left of the first one, behind the last
/// free one.
pub(crate) const NONE: u32 = u32::MAX;

/// What a place of the block holds: the places of the neighbours of its pair, and the pair's value.
/// A free place has no value, and its right link is the next free place.
#[derive(Drop)]
pub struct Node<T> {
    left: u32,
    right: u32,
    value: Option<T>,
}

/// A block whose places are linked, each either into the list or into the free ones.
pub struct Links<T> {
    pub(crate) block: Block<Node<T>>,
    pub(crate) first: u32,
    last: u32,
    // the first free place, and how many there are
    free: u32,
    pub(crate) spare: u32,
}

impl<T> Links<T> {
    ghost use Rattle.chain_arena.specs.LinksLends.{lends_item};

    /// Makes an empty list over no places. Takes no memory.
    pub(crate) fn new(alloc: Global) -> Links<T>
        ensures { IsChain result [] × (result.spare ≡ 0) × (result.block.items ≡ []) }
    {
        Links {
            block: Block::new(alloc),
            first: NONE,
            last: NONE,
            free: NONE,
            spare: 0,
        }
    }

    /// Makes the places `len` in all. Those that there are keep their numbers and what lies in
    /// them, so the links stay. The new ones are free. `NoMemory` where there is no memory for so
    /// many; nothing has changed then.
    pub(crate) fn grow(&mut self, len: usize) -> Result<(), NoMemory>
        requires linked { IsLinked self.old }
        requires more { length self.old.block.items ≤ len }
        requires few { len ≤ nil }
        ensures linked { IsLinked self.new }
        ensures pairs { pairs_of self.new ≡ pairs_of self.old }
        ensures ok { OnOk result
            (self.new.spare + length self.old.block.items ≡ self.old.spare + len) }
        ensures err { OnErr result (self.new ≡ self.old) }
    {
        let Ok(()) = self.block.grow(len) else {
            return Err(NoMemory);
        };
        'frees: while self.block.len() < len {
            self.add_free();
        }
        Ok(())
    }

    /// Puts a free node into one place more.
    fn add_free(&mut self)
        requires within { length self.old.block.items < self.old.block.room }
        requires few { length self.old.block.items < nil }
        requires room { self.old.spare + 1 < 2 ^ 32 }
        ensures { self.new ≡ with_free self.old }
    {
        let place = self.block.len() as u32;
        self.block.push(Node {
            left: NONE,
            right: self.free,
            value: None,
        });
        self.free = place;
        self.spare += 1;
    }

    /// Drops each value and gives the block back.
    pub(crate) fn end(mut self)
    where
        T: Drop,
        requires { IsLinked self }
    {
        self.drop_all();
        self.free();
    }

    /// Drops all pairs, from the first one on.
    fn drop_all(&mut self)
    where
        T: Drop,
        requires { IsLinked self.old }
        ensures { (k : ℕ) → value self.new k ≡ None }
    {
        'left: while self.first != NONE {
            let _value = self.unlink(self.first);
        }
    }

    /// Gives the block back. Asks that no place has a value, so none is lost with it.
    fn free(self)
        requires { (k : ℕ) → value self k ≡ None }
    {
        let Links {
            block,
            first: _,
            last: _,
            free: _,
            spare: _,
        } = self;
        unsafe { block.free() }
    }

    /// Drops the pairs before that of the place, from the first one on.
    pub(crate) fn drop_left_of(&mut self, place: u32)
    where
        T: Drop,
        requires linked { IsLinked self.old }
        requires there { IsTrue (has_knot place (pairs_of self.old)) }
        ensures linked { IsLinked self.new }
        ensures pairs { pairs_of self.new ≡ from_knot place (pairs_of self.old) }
        ensures room { room_of self.new ≡ room_of self.old }
    {
        'left: while self.first != place {
            let _value = self.unlink(self.first);
        }
    }

    /// Whether the place is there and has a value.
    pub(crate) fn has(&self, place: u32) -> bool
        ensures { result ≡ is_some (value self.now place) }
    {
        let at = place as usize;
        at < self.block.len() && self.block.get(at).value.is_some()
    }

    /// The value of the place.
    pub(crate) fn get(&self, place: u32) -> &T
        requires { IsSome (value self.now place) }
        ensures { value self.now place ≡ Some result.now }
    {
        match &self.block.get(place as usize).value {
            Some(item) => item,
            None => unreachable!(),
        }
    }

    /// The value of the place, to write to.
    pub(crate) fn get_mut(&mut self, place: u32) -> &mut T
        requires { IsSome (value self.old place) }
        ensures* writes_back { sem 𝓛 (lends_item T.row self.entry place result) }
        ensures value { value self.old place ≡ Some result.now }
    {
        match &mut self.block.get_mut(place as usize).value {
            Some(item) => item,
            None => unreachable!(),
        }
    }

    /// The place to the right of this one. To the right of `NONE` it is the first one, and of the
    /// last one it is `NONE`.
    fn right_of(&self, place: u32) -> u32
        requires { IsLink self.now place }
        ensures { result ≡ right self.now place }
    {
        if place == NONE {
            self.first
        } else {
            self.behind(place)
        }
    }

    /// The right link of a place of the block.
    pub(crate) fn behind(&self, place: u32) -> u32
        requires { IsPlace self.now.block.items place }
        ensures { result ≡ right_in (slice_get self.now.block.items place) }
    {
        self.block.get(place as usize).right
    }

    /// The place to the left of this one. To the left of `NONE` it is the last one, and of the
    /// first one it is `NONE`.
    fn left_of(&self, place: u32) -> u32
        requires { IsLink self.now place }
        ensures { result ≡ left self.now place }
    {
        if place == NONE {
            self.last
        } else {
            self.block.get(place as usize).left
        }
    }

    /// Sets the right link of a place. That of `NONE` is the first place.
    fn set_right(&mut self, place: u32, to: u32)
        requires { IsLink self.old place }
        ensures { SetsRight self.old self.new place to }
    {
        if place == NONE {
            self.first = to;
        } else {
            self.block.get_mut(place as usize).right = to;
        }
    }

    /// Sets the left link of a place. That of `NONE` is the last place.
    fn set_left(&mut self, place: u32, to: u32)
        requires { IsLink self.old place }
        ensures { SetsLeft self.old self.new place to }
    {
        if place == NONE {
            self.last = to;
        } else {
            self.block.get_mut(place as usize).left = to;
        }
    }

    /// Puts the value into a free place, whose number is the result, immediately before the pair of
    /// the place `at`, or last where that is `NONE`.
    pub(crate) fn put(&mut self, at: u32, item: T) -> u32
        requires linked { IsLinked self.old }
        requires room { 0 < self.old.spare }
        requires at { IsOn nil (pairs_of self.old) at }
        ensures linked { IsLinked self.new }
        ensures pairs { pairs_of self.new ≡ put_before at (knot result, item) (pairs_of self.old) }
        ensures new { has_knot result (pairs_of self.old) ≡ false }
        ensures spare { self.new.spare + 1 ≡ self.old.spare }
    {
        let place = self.fill(item);
        let before = self.left_of(at);
        self.join(before, place);
        self.join(place, at);
        place
    }

    /// Takes the pair of the place out, and answers its value.
    pub(crate) fn unlink(&mut self, place: u32) -> T
        requires linked { IsLinked self.old }
        requires there { IsTrue (has_knot place (pairs_of self.old)) }
        ensures linked { IsLinked self.new }
        ensures value { value_at place (pairs_of self.old) ≡ Some result }
        ensures pairs { pairs_of self.new ≡ without place (pairs_of self.old) }
        ensures spare { self.new.spare ≡ self.old.spare + 1 }
    {
        let before = self.left_of(place);
        let behind = self.right_of(place);
        self.join(before, behind);
        self.empty(place)
    }

    /// Makes two places neighbours: the first the left one of the second.
    fn join(&mut self, before: u32, behind: u32)
        requires { IsLink self.old before × IsLink self.old behind }
        ensures { Joins self.old self.new before behind }
    {
        self.set_right(before, behind);
        self.set_left(behind, before);
    }

    /// Puts the value into the first free place, whose number is the result. Its links stay.
    fn fill(&mut self, item: T) -> u32
        requires room { 0 < self.old.spare }
        requires free { IsFree self.old self.old.spare self.old.free }
        requires few { length self.old.block.items ≤ nil }
        ensures { Fills self.old self.new result item }
    {
        let place = self.free;
        let node = self.block.get_mut(place as usize);
        self.free = node.right;
        match mem::replace(&mut node.value, Some(item)) {
            None => {}
            Some(_item) => unreachable!(),
        }
        self.spare -= 1;
        place
    }

    /// Takes the value out of its place, which is the first free one then.
    fn empty(&mut self, place: u32) -> T
        requires value { IsSome (value self.old place) }
        requires room { self.old.spare + 1 < 2 ^ 32 }
        requires few { length self.old.block.items ≤ nil }
        ensures { Empties self.old self.new place result }
    {
        let node = self.block.get_mut(place as usize);
        node.right = self.free;
        self.free = place;
        self.spare += 1;
        match mem::replace(&mut node.value, None) {
            Some(item) => item,
            None => unreachable!(),
        }
    }
}
