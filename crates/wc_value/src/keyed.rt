//! Entries by name, in the order of the names' bytes.

ghost use Rattle.std.specs.Prelude.{◌≡◌, [], ◌∷◌, ◌++◌, ◌<◌, ◌≤◌, ◌^◌, length, slice_get, true, OnOk, OnErr};
ghost use Rattle.std.specs.Option.{option_copied};
ghost use Rattle.wc_value.specs.Ascending.{Ascends, goes_last, lookup, put, place, is_named, value_named};

use crate::duplicate::Duplicate;
use crate::list::MOST;
use crate::text::Text;
use std::alloc::{AllocError, Global};
use std::marker::Model;

/// Entries whose names strictly ascend by their bytes.
#[derive(Debug, Drop)]
pub struct Keyed<T> {
    items: Vec<(Text, T)>,
}

impl<T> Model for Keyed<T> {
    ghost use Rattle.std.specs.Prelude.{◌^◌, ◌<◌, List, ℕ, length};
    ghost use Rattle.std.specs.Coded.{coded_list, coded×, coded_ℕ};
    ghost use Rattle.wc_value.specs.Ascending.{Ascends, goes_last, lookup};

    ghost Value = { List (List ℕ × T) };

    ghost coded = { coded_list (coded× (coded_list coded_ℕ) T.code) };

    ghost view = { λ a. a.items.items };

    ghost invariant = { λ a. Ascends a.items.items × (length a.items.items < 2 ^ 32) };
}

impl<T> Keyed<T> {
    /// An empty list, which takes no memory.
    pub fn new(alloc: Global) -> Keyed<T>
        ensures { result ≡ [] }
    {
        Keyed {
            items: Vec::new(alloc),
        }
    }

    /// An empty list on the same allocator.
    pub fn emptied(&self) -> Keyed<T>
        ensures { result ≡ [] }
    {
        Keyed::new(*self.items.allocator())
    }

    /// The entries as a slice.
    pub fn as_slice(&self) -> &[(Text, T)]
        // The same entries.
        ensures value { result.now ≡ self.now }
        // Their names ascend.
        ensures ascends { Ascends result.now }
    {
        self.items.as_slice()
    }

    /// The number of entries.
    pub fn len(&self) -> usize
        // The number of entries.
        ensures value { result ≡ length self.now }
        // It is below 2^32.
        ensures bound { result < 2 ^ 32 }
    {
        self.items.len()
    }

    /// The entry at a place, counted from 0.
    pub fn get(&self, at: usize) -> Option<&(Text, T)>
        ensures { option_copied result ≡ slice_get self.now at }
    {
        self.items.get(at)
    }
}

impl<T> Keyed<T> {
    /// Whether the name comes after the last one.
    pub fn goes_last(&self, name: &[u8]) -> bool
        ensures { result ≡ goes_last name.now self.now }
    {
        match self.items.last() {
            None => true,
            Some((last, _)) => last.bytes().cmp(&name).is_lt(),
        }
    }
}

impl<T: Drop> Keyed<T> {
    /// Puts an entry at the end, where its name goes last.
    pub fn push(&mut self, item: (Text, T)) -> Result<(), AllocError>
        // The name goes last.
        requires { goes_last item.0 self.old ≡ true }
        // Where it is Ok, the entry stands behind the others.
        ensures ok { OnOk result (self.new ≡ self.old ++ item ∷ []) }
        // Where it isn't, the list is as it was.
        ensures err { OnErr result (self.new ≡ self.old) }
    {
        if self.items.len() >= MOST {
            return Err(AllocError);
        }
        self.items.push(item)?;
        Ok(())
    }
}

/// How many entries stand before the name, by halving the entries in which it may belong.
fn place_of<T>(entries: &[(Text, T)], name: &[u8]) -> usize
    requires { Ascends entries.now }
    ensures place { result ≡ place name.now entries.now }
    ensures within { result ≤ length entries.now }
{
    let mut low = 0;
    let mut high = entries.len();
    while low < high {
        let middle = low + (high - low) / 2;
        if entries[middle].0.bytes().cmp(&name).is_lt() {
            low = middle + 1;
        } else {
            high = middle;
        }
    }
    low
}

/// Whether the entry at a place, if there is one, has the name.
fn has_name<T>(entries: &[(Text, T)], at: usize, name: &[u8]) -> bool
    ensures { result ≡ is_named name.now (slice_get entries.now at) }
{
    match entries.get(at) {
        None => false,
        Some((key, _)) => key.bytes() == name,
    }
}

/// The value of the entry at a place, if there is one and it has the name.
fn value_named<'a, T>(entries: &'a [(Text, T)], at: usize, name: &[u8]) -> Option<&'a T>
    ensures { option_copied result ≡ value_named name.now (slice_get entries.now at) }
{
    match entries.get(at) {
        None => None,
        Some((key, value)) => {
            if key.bytes() == name {
                Some(value)
            } else {
                None
            }
        }
    }
}

impl<T: Drop> Keyed<T> {
    /// Sets the value of a name: in place of the one that it had, or as a new entry in its order.
    pub fn set(&mut self, name: Text, value: T) -> Result<(), AllocError>
        // Where it is Ok, the entry is put in its order, in place of the one of its name.
        ensures ok { OnOk result (self.new ≡ put name value self.old) }
        // Where it isn't, the list is as it was.
        ensures err { OnErr result (self.new ≡ self.old) }
    {
        let at = place_of(self.items.as_slice(), name.bytes());
        if has_name(self.items.as_slice(), at, name.bytes()) {
            self.items[at] = (name, value);
            return Ok(());
        }
        if self.items.len() >= MOST {
            return Err(AllocError);
        }
        self.items.insert(at, (name, value))?;
        Ok(())
    }
}

impl<T: Duplicate + Drop> Duplicate for Keyed<T> {
    fn copy(&self) -> Result<Keyed<T>, AllocError> {
        let mut items = Vec::with_capacity(*self.items.allocator(), self.items.len())?;
        for (name, item) in self.items.iter() {
            items.push((name.copy()?, item.copy()?))?;
        }
        Ok(Keyed { items })
    }
}

impl<T> Keyed<T> {
    /// The value of the entry with this name, if there is one.
    pub fn find(&self, name: &[u8]) -> Option<&T>
        ensures { option_copied result ≡ lookup name.now self.now }
    {
        let entries = self.items.as_slice();
        value_named(entries, place_of(entries, name), name)
    }
}
