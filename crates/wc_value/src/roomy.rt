//! Lists whose contracts also see their spare room.

ghost use Rattle.std.specs.Prelude.{◌≡◌, [], ◌∷◌, ◌++◌, ◌+◌, ◌<◌, ◌≤◌, ◌^◌, ◌↔◌, length, slice_get, IsOk, IsSome, OnOk, OnErr};
ghost use Rattle.std.specs.Option.{option_copied};

use crate::list::MOST;
use std::alloc::{AllocError, Global};
use std::marker::Model;

/// A list whose contracts also see its spare room: the pair of the plain list and the number of further items
/// that it takes without asking for memory.
#[derive(Drop)]
pub struct Roomy<T> {
    items: Vec<T>,
}

impl<T> Model for Roomy<T> {
    ghost use Rattle.std.specs.Prelude.{◌^◌, ◌<◌, ◌-◌, ℕ, List as L, length, min, vec_capacity};
    ghost use Rattle.std.specs.Coded.{coded_list, coded×, coded_ℕ};

    ghost Value = { L T × ℕ };

    ghost coded = { coded× (coded_list T.code) coded_ℕ };

    ghost view = { λ a. (a.items.items, min (vec_capacity a.items) 0xffff_ffff - length a.items.items) };

    ghost invariant = { λ a. length a.items.items < 2 ^ 32 };
}

impl<T> Roomy<T> {
    /// An empty list, which takes no memory.
    pub fn new(alloc: Global) -> Roomy<T>
        ensures { result.0 ≡ [] }
    {
        Roomy {
            items: Vec::new(alloc),
        }
    }

    /// The items as a slice.
    pub fn as_slice(&self) -> &[T]
        ensures { result.now ≡ self.now.0 }
    {
        self.items.as_slice()
    }

    /// The number of items.
    pub fn len(&self) -> usize
        // The number of items.
        ensures value { result ≡ length self.now.0 }
        // It is below 2^32.
        ensures bound { result < 2 ^ 32 }
    {
        self.items.len()
    }

    /// The item at a place, counted from 0.
    pub fn get(&self, at: usize) -> Option<&T>
        // The item at the place, if there is one.
        ensures value { option_copied result ≡ slice_get self.now.0 at }
        // There is one exactly where the place is below the length.
        ensures within { IsSome result ↔ (at < length self.now.0) }
    {
        self.items.get(at)
    }

    /// Makes room for so many further items.
    pub fn reserve(&mut self, more: usize) -> Result<(), AllocError>
        // The items stay.
        ensures same { self.new.0 ≡ self.old.0 }
        // Where it is Ok, there is room for so many further items.
        ensures room { OnOk result (more ≤ self.new.1) }
        // The room gets no less.
        ensures kept { self.old.1 ≤ self.new.1 }
        // Where it isn't Ok, nothing changes.
        ensures err { OnErr result (self.new ≡ self.old) }
    {
        if more > MOST - self.items.len() {
            return Err(AllocError);
        }
        self.items.reserve(more)
    }
}

impl<T: Drop> Roomy<T> {
    /// Puts an item at the end. With room left it takes no memory.
    pub fn push(&mut self, item: T) -> Result<(), AllocError>
        // Where it is Ok, the item stands behind the others.
        ensures ok { OnOk result (self.new.0 ≡ self.old.0 ++ item ∷ []) }
        // The room is at most one less.
        ensures room { OnOk result (self.old.1 ≤ self.new.1 + 1) }
        // Where it isn't Ok, nothing changes.
        ensures err { OnErr result (self.new ≡ self.old) }
        // With room left it is Ok.
        ensures takes { 0 < self.old.1 → IsOk result }
    {
        if self.items.len() >= MOST {
            return Err(AllocError);
        }
        self.items.reserve(1)?;
        self.items.push(item)?;
        Ok(())
    }
}
