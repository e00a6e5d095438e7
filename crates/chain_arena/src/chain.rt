//! The list, and its calls.
ghost use Rattle.std.specs.Prelude.{◌≡◌, ◌+◌, ◌<◌, ◌≤◌, ◌^◌, [], ◌∷◌, ◌++◌, IsTrue, OnErr, OnOk, Some, false, length, max};
ghost use Rattle.std.specs.Borrow.{sem};
ghost use Rattle.chain_arena.specs.Chains.{AreApart, IsBehind, IsCursor, from_knot, has_knot, put_before, rest_of, room, shown, value_at, without};
ghost use Rattle.chain_arena.specs.Linked.{knot_at};
ghost use Rattle.std.specs.Map.Iter.{ShowsInOrder};

use crate::iter::Iter;
use crate::knots::Knot;
use crate::links::{Links, NONE};
use home_types::NoMemory;
use std::alloc::Global;
use std::marker::Model;

/// A list of values, each under a knot that names it until it leaves. Contracts see its pairs of a
/// knot and a value, in their order, and beside them how many more it takes with no memory
/// (`spare`).
pub struct Chain<T> {
    links: Links<T>,
}

impl<T> Model for Chain<T> {
    ghost use Rattle.chain_arena.specs.Chains.{Chained};
    ghost use Rattle.chain_arena.specs.Linked.{IsLinked, pairs_of};

    ghost Value = { Chained T };

    ghost view = { λ c. record { pairs = pairs_of c.links; spare = c.links.spare } };

    ghost invariant = { λ c. IsLinked c.links };
}

impl<T> Chain<T> {
    ghost use Rattle.chain_arena.specs.ChainLends.{lends_value};

    /// Makes an empty list. Takes no memory.
    pub fn new(alloc: Global) -> Chain<T>
        ensures pairs { result.pairs ≡ [] }
        ensures no_room { result.spare ≡ 0 }
    {
        Chain {
            links: Links::new(alloc),
        }
    }

    /// Makes room for `n` more pairs and for no more than these, or answers `NoMemory`: where there
    /// is no memory for the greater block, or where it would have more than 4,294,967,295 places.
    /// The pairs keep their order and their knots in both cases, and the room that there was stays.
    pub fn reserve(&mut self, n: u32) -> Result<(), NoMemory>
        ensures pairs { self.new.pairs ≡ self.old.pairs }
        ensures room { OnOk result (self.new.spare ≡ max self.old.spare n) }
        ensures kept { self.old.spare ≤ self.new.spare }
        ensures refused { OnErr result (self.new ≡ self.old) }
    {
        if n <= self.links.spare {
            return Ok(());
        }
        let used = self.links.block.len();
        let more = (n - self.links.spare) as usize;
        if more > NONE as usize - used {
            return Err(NoMemory);
        }
        self.links.grow(used + more)
    }

    /// Whether a pair has the knot.
    pub fn has(&self, k: Knot) -> bool
        ensures { result ≡ has_knot k.0 self.now.pairs }
    {
        self.links.has(k.0)
    }

    /// Puts the value last, and answers its knot, which is that of no other pair. Takes no memory,
    /// and one place of the room, for which it asks.
    pub fn push_back(&mut self, t: T) -> Knot
        requires room { 0 < self.old.spare }
        ensures new { has_knot result.0 self.old.pairs ≡ false }
        ensures pairs { self.new.pairs ≡ self.old.pairs ++ (result, t) ∷ [] }
        ensures spare { self.new.spare + 1 ≡ self.old.spare }
    {
        Knot(self.links.put(NONE, t))
    }

    /// Puts the value immediately before that of the knot, and answers its own knot, which is that
    /// of no other pair. Takes no memory, and one place of the room, for which it asks.
    pub fn insert_before(&mut self, k: Knot, t: T) -> Knot
        requires there { IsTrue (has_knot k.0 self.old.pairs) }
        requires room { 0 < self.old.spare }
        ensures new { has_knot result.0 self.old.pairs ≡ false }
        ensures pairs { self.new.pairs ≡ put_before k.0 (result, t) self.old.pairs }
        ensures spare { self.new.spare + 1 ≡ self.old.spare }
    {
        Knot(self.links.put(k.0, t))
    }

    /// Takes the pair of the knot out, and answers its value. The others keep their order, and the
    /// room is greater by one.
    pub fn unlink(&mut self, k: Knot) -> T
        requires there { IsTrue (has_knot k.0 self.old.pairs) }
        ensures value { value_at k.0 self.old.pairs ≡ Some result }
        ensures pairs { self.new.pairs ≡ without k.0 self.old.pairs }
        ensures spare { self.new.spare ≡ self.old.spare + 1 }
    {
        self.links.unlink(k.0)
    }

    /// Drops the pairs before that of the knot. The room is greater by their number.
    pub fn drop_left_of(&mut self, k: Knot)
    where
        T: Drop,
        requires there { IsTrue (has_knot k.0 self.old.pairs) }
        ensures pairs { self.new.pairs ≡ from_knot k.0 self.old.pairs }
        ensures room { room self.new ≡ room self.old }
    {
        self.links.drop_left_of(k.0);
    }

    /// The value of the knot.
    pub fn get(&self, k: Knot) -> &T
        requires there { IsTrue (has_knot k.0 self.now.pairs) }
        ensures { value_at k.0 self.now.pairs ≡ Some result.now }
    {
        self.links.get(k.0)
    }

    /// The value of the knot, to write to. Whatever is written, order and knots stay.
    pub fn get_mut(&mut self, k: Knot) -> &mut T
        requires there { IsTrue (has_knot k.0 self.old.pairs) }
        ensures* writes_back { sem 𝓛 (lends_value T.row self.entry k.0 result) }
        ensures value { value_at k.0 self.old.pairs ≡ Some result.now }
    {
        self.links.get_mut(k.0)
    }

    /// The knot of the first pair. `None` where the list is empty.
    pub fn first(&self) -> Option<Knot>
        ensures cursor { IsCursor result self.now.pairs }
        ensures all { rest_of result self.now.pairs ≡ self.now.pairs }
    {
        knot_at(self.links.first)
    }

    /// The knot of the pair immediately behind that of the knot. `None` where that is the last one.
    pub fn after(&self, k: Knot) -> Option<Knot>
        requires there { IsTrue (has_knot k.0 self.now.pairs) }
        ensures cursor { IsCursor result self.now.pairs }
        ensures behind { IsBehind k result self.now.pairs }
    {
        knot_at(self.place_after(k))
    }

    /// The place of the pair immediately behind that of the knot. `NONE` where that is the last
    /// one.
    pub(crate) fn place_after(&self, k: Knot) -> u32
        requires there { IsTrue (has_knot k.0 self.now.pairs) }
        ensures cursor { IsCursor (knot_at result) self.now.pairs }
        ensures behind { IsBehind k (knot_at result) self.now.pairs }
    {
        self.links.behind(k.0)
    }

    /// The pairs in order, each as its knot and a `&` to its value.
    pub fn iter(&self) -> Iter<'_, T>
        ensures rest { result ≡ self.now.pairs }
        ensures runs { ShowsInOrder (shown {T = T}) }
    {
        Iter {
            chain: self,
            at: self.links.first,
        }
    }

    /// How many more pairs the list takes with no memory.
    pub fn spare(&self) -> u32
        ensures { result ≡ self.now.spare }
    {
        self.links.spare
    }

    /// Does nothing. Its contract is what every list keeps: no two pairs have one knot.
    pub fn kept_invariant(&self)
        ensures { AreApart self.now.pairs }
    {
        let _ = &self.links;
    }
}

/// The knot of the pair at the place. `None` at `NONE`.
fn knot_at(place: u32) -> Option<Knot>
    ensures { result ≡ knot_at place }
{
    if place == NONE {
        None
    } else {
        Some(Knot(place))
    }
}

impl<T: Drop> Drop for Chain<T> {
    /// Drops each value and gives the block back.
    fn drop(self) {
        let Chain { links } = self;
        links.end();
    }
}
