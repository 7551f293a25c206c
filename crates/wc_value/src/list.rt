//! Lists, which contracts see as their items.

ghost use Rattle.std.specs.Prelude.{◌≡◌, [], ◌∷◌, ◌++◌, ◌==◌, ◌<◌, ◌≤◌, ◌^◌, ◌↔◌, length, slice_get, IfOk, OnOk, OnErr, OnSome, IsSome};
ghost use Rattle.std.specs.Option.{option_copied};

use crate::duplicate::Duplicate;
use std::alloc::{AllocError, Global};
use std::marker::Model;

/// The most items that a list can have.
pub const MOST: usize = 0xffff_ffff;

/// Bytes, which contracts see as the list of them.
pub type Bytes = List<u8>;

/// A `Vec` that contracts see as the list of its items.
#[derive(Debug, Drop)]
pub struct List<T> {
    items: Vec<T>,
}

impl<T> Model for List<T> {
    ghost use Rattle.std.specs.Prelude.{◌^◌, ◌<◌, List as L, length};
    ghost use Rattle.std.specs.Coded.{coded_list};

    ghost Value = { L T };

    ghost coded = { coded_list T.code };

    ghost view = { λ a. a.items.items };

    ghost invariant = { λ a. length a.items.items < 2 ^ 32 };
}

impl<T> List<T> {
    /// An empty list, which takes no memory.
    pub fn new(alloc: Global) -> List<T>
        ensures { result ≡ [] }
    {
        List {
            items: Vec::new(alloc),
        }
    }

    /// An empty list on the same allocator.
    pub fn emptied(&self) -> List<T>
        ensures { result ≡ [] }
    {
        List::new(*self.items.allocator())
    }

    /// The items as a slice.
    pub fn as_slice(&self) -> &[T]
        ensures { result.now ≡ self.now }
    {
        self.items.as_slice()
    }

    /// The items as a `Vec`.
    pub fn into_vec(self) -> Vec<T>
        // The same items.
        ensures value { result.items ≡ self }
        // They are fewer than 2^32.
        ensures bound { length self < 2 ^ 32 }
    {
        self.items
    }

    /// The number of items.
    pub fn len(&self) -> usize
        // The number of items.
        ensures value { result ≡ length self.now }
        // It is below 2^32.
        ensures bound { result < 2 ^ 32 }
    {
        self.items.len()
    }

    /// Whether there is no item.
    pub fn is_empty(&self) -> bool
        ensures { result ≡ (length self.now == 0) }
    {
        self.items.is_empty()
    }

    /// The item at a place, counted from 0.
    pub fn get(&self, at: usize) -> Option<&T>
        // The item at the place, if there is one.
        ensures value { option_copied result ≡ slice_get self.now at }
        // There is one exactly where the place is below the length.
        ensures within { IsSome result ↔ (at < length self.now) }
    {
        self.items.get(at)
    }
}

impl<T: Copy> List<T> {
    /// Puts copies of the items at the end.
    pub fn extend(&mut self, items: &[T]) -> Result<(), AllocError>
        // Where it is Ok, copies of the items stand behind the others.
        ensures ok { OnOk result (self.new ≡ self.old ++ items.now) }
        // Where it isn't, the list is as it was.
        ensures err { OnErr result (self.new ≡ self.old) }
    {
        if items.len() > MOST - self.items.len() {
            return Err(AllocError);
        }
        self.items.extend_from_slice(items)
    }
}

impl<T: Drop> List<T> {
    /// Puts an item at the end.
    pub fn push(&mut self, item: T) -> Result<(), AllocError>
        // Where it is Ok, the item stands behind the others.
        ensures ok { OnOk result (self.new ≡ self.old ++ item ∷ []) }
        // Where it isn't, the list is as it was.
        ensures err { OnErr result (self.new ≡ self.old) }
    {
        if self.items.len() >= MOST {
            return Err(AllocError);
        }
        self.items.push(item)?;
        Ok(())
    }
}

impl<T: Duplicate + Drop> Duplicate for List<T> {
    fn copy(&self) -> Result<List<T>, AllocError> {
        let mut items = Vec::with_capacity(*self.items.allocator(), self.items.len())?;
        for item in self.items.iter() {
            items.push(item.copy()?)?;
        }
        Ok(List { items })
    }
}

impl List<u8> {
    /// The bytes as a slice.
    pub fn bytes(&self) -> &[u8]
        // The same bytes.
        ensures value { result.now ≡ self.now }
        // They are fewer than 2^32.
        ensures bound { length self.now < 2 ^ 32 }
    {
        let _ = self.len();
        self.as_slice()
    }
}
