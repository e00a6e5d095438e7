//! A list that tells how many more items it takes with no memory.
ghost use Rattle.std.specs.Prelude.{◌≡◌, ◌+◌, ◌<◌, ◌≤◌, ◌^◌, ◌↔◌, [], ◌∷◌, ◌++◌, length, IsOk, IsSome, IfOk, OnOk, OnErr, IfSome, IfNone, max, slice_get, slice_set};
ghost use Rattle.std.specs.Option.{option_copied};

use crate::memory::NoMemory;
use std::alloc::Global;
use std::marker::Model;

/// A growable list. Contracts see its items, and beside them how many more it takes with no memory.
#[derive(Drop)]
pub struct List<T> {
    items: Vec<T>,
}

impl<T> Model for List<T> {
    ghost use Rattle.std.specs.Prelude.{◌-◌, vec_len, vec_capacity};
    ghost use Rattle.home_types.specs.Listed.{Listed};

    ghost Value = { Listed T };

    ghost view = { λ s. record {
      items = s.items.items;
      spare = vec_capacity s.items - vec_len s.items;
    } };
}

impl<T> List<T> {
    /// Makes an empty list. Takes no memory.
    pub fn new(alloc: Global) -> List<T>
        ensures empty { result.items ≡ [] }
        ensures no_room { result.spare ≡ 0 }
    {
        List {
            items: Vec::new(alloc),
        }
    }

    /// Makes room for `n` more items and for no more than these, or answers `NoMemory`. The items
    /// stay in both cases, and so does the room that there was.
    pub fn reserve(&mut self, n: u64) -> Result<(), NoMemory>
        ensures items { self.new.items ≡ self.old.items }
        ensures room { OnOk result (self.new.spare ≡ max self.old.spare n) }
        ensures kept { self.old.spare ≤ self.new.spare }
        ensures spare { OnErr result (self.new.spare ≡ self.old.spare) }
    {
        match self.items.reserve_exact(n as usize) {
            Ok(()) => Ok(()),
            Err(_) => Err(NoMemory),
        }
    }

    /// How many items the list has.
    pub fn len(&self) -> u64
        ensures { result ≡ length self.now.items }
    {
        self.items.len() as u64
    }

    /// How many more items the list takes with no memory.
    pub fn spare(&self) -> u64
        ensures { result ≡ self.now.spare }
    {
        (self.items.capacity() - self.items.len()) as u64
    }

    /// The item at the place `i`, counted from 0.
    pub fn get(&self, i: u64) -> Option<&T>
        ensures { option_copied result ≡ slice_get self.now.items i }
    {
        self.items.get(i as usize)
    }

    /// The items in order.
    pub fn as_slice(&self) -> &[T]
        ensures { result.now ≡ self.now.items }
    {
        self.items.as_slice()
    }

    /// Takes the last item out, and keeps its room.
    pub fn pop(&mut self) -> Option<T>
        ensures found { IsSome result ↔ (0 < length self.old.items) }
        ensures last { IfSome result (λ x. self.old.items ≡ self.new.items ++ x ∷ []) }
        ensures freed { IfSome result (λ _. self.new.spare ≡ self.old.spare + 1) }
        ensures empty { IfNone result (self.new ≡ self.old) }
    {
        self.items.pop()
    }
}

impl<T: Copy + Drop> List<T> {
    /// Makes a list of these items.
    pub fn of(alloc: Global, items: &[T]) -> Result<List<T>, NoMemory>
        ensures { IfOk result (λ list. list.items ≡ items.now) }
    {
        match Vec::from_slice(alloc, items) {
            Ok(items) => Ok(List { items }),
            Err(_) => Err(NoMemory),
        }
    }

    /// Puts these items at the end, in order. Takes no memory where there is room for all of them.
    ///
    /// Answers `NoMemory` where there is none to be had, and adds nothing then.
    pub fn extend_from_slice(&mut self, items: &[T]) -> Result<(), NoMemory>
        ensures ok { OnOk result (self.new.items ≡ self.old.items ++ items.now) }
        ensures err { OnErr result (self.new.items ≡ self.old.items) }
        ensures roomy { length items.now ≤ self.old.spare → IsOk result }
    {
        match self.items.extend_from_slice(items) {
            Ok(()) => Ok(()),
            Err(_) => Err(NoMemory),
        }
    }
}

impl<T: Drop> List<T> {
    /// Puts `t` in the place of the item at `i`. Takes no memory.
    pub fn set(&mut self, i: u64, t: T)
        requires { i < length self.old.items }
        ensures items { self.new.items ≡ slice_set self.old.items i t }
        ensures spare { self.new.spare ≡ self.old.spare }
    {
        self.items[i as usize] = t;
    }

    /// Puts `t` at the end. Takes no memory where there is room.
    ///
    /// Answers `NoMemory` where there is none to be had; `t` is dropped then.
    pub fn push(&mut self, t: T) -> Result<(), NoMemory>
        ensures ok { OnOk result (self.new.items ≡ self.old.items ++ t ∷ []) }
        ensures err { OnErr result (self.new ≡ self.old) }
        ensures roomy { 0 < self.old.spare → IsOk result }
        ensures used { 0 < self.old.spare → self.new.spare + 1 ≡ self.old.spare }
    {
        if self.items.len() == self.items.capacity() && self.items.reserve(1).is_err() {
            return Err(NoMemory);
        }
        self.items.push_reserved(t);
        Ok(())
    }
}
