//! Items by name, in the order in which the names were first set.

ghost use Rattle.std.specs.Prelude.{◌≡◌, ◌↔◌, IsTrue, [], length, option_map, slice_get, OnOk, OnErr, IfOk};
ghost use Rattle.std.specs.Option.{option_copied};
ghost use Rattle.wc_state.specs.Context.{found_at, with_set, KeysDiffer};

use crate::name_map::NameMap;
use std::alloc::{AllocError, Global};
use std::marker::Model;
use wc_value::Text;

/// What names hold, in the order in which they were first set. No name stands twice, and one is found in a time that
/// doesn't hang on how many there are. Until the first name is set it takes no memory but a place for an address: most of what
/// is kept of processes names nothing.
#[derive(Drop)]
pub struct Ordered<T> {
    /// Where memory is taken.
    pub(crate) alloc: Global,
    /// The names with what they hold, in that order; none before the first name.
    pub(crate) pairs: Option<Box<NameMap<T>>>,
}

impl<T> Model for Ordered<T> {
    ghost use Rattle.std.specs.Prelude.{ℕ, List};
    ghost use Rattle.std.specs.Coded.{coded_list, coded×, coded_ℕ};
    ghost use Rattle.wc_state.specs.Pairs.{pairs_in};

    ghost Value = { List (List ℕ × T) };

    ghost coded = { coded_list (coded× (coded_list coded_ℕ) T.code) };

    ghost view = { λ c. pairs_in c.pairs };
}

impl<T> Ordered<T> {
    /// No names.
    pub fn new(alloc: Global) -> Ordered<T>
        ensures { result ≡ [] }
    {
        Ordered { alloc, pairs: None }
    }

    /// How many names there are. No name stands twice.
    pub fn len(&self) -> usize
        // How many names there are.
        ensures value { result ≡ length self.now }
        // No name stands twice.
        ensures differ { KeysDiffer self.now }
    {
        match &self.pairs {
            None => 0,
            Some(pairs) => pairs.len(),
        }
    }

    /// Whether no name is set.
    pub fn is_empty(&self) -> bool
        ensures { IsTrue result ↔ (self.now ≡ []) }
    {
        match &self.pairs {
            None => true,
            Some(pairs) => pairs.is_empty(),
        }
    }

    /// What a name holds, if it is set.
    pub fn find(&self, key: &Text) -> Option<&T>
        ensures { option_copied result ≡ found_at self.now key.now }
    {
        match &self.pairs {
            None => None,
            Some(pairs) => pairs.find(key),
        }
    }

    /// The name at a place in the order, with what it holds.
    pub fn get(&self, at: usize) -> Option<(&Text, &T)>
        ensures { option_map (λ p. (p.0.now, p.1.now)) result ≡ slice_get self.now at }
    {
        match &self.pairs {
            None => None,
            Some(pairs) => pairs.get(at),
        }
    }
}

impl<T: Drop> Ordered<T> {
    /// Sets what a name holds, and hands back what it held. A name that is there keeps its place, and a new one goes last.
    pub fn set(&mut self, key: Text, held: T) -> Result<Option<T>, AllocError>
        ensures ok { OnOk result (self.new ≡ with_set self.old key held) }
        ensures before { IfOk result (λ before. before ≡ found_at self.old key) }
        ensures err { OnErr result (self.new ≡ self.old) }
    {
        match &mut self.pairs {
            Some(pairs) => pairs.set(key, held),
            None => {
                let mut pairs = NameMap::new(self.alloc);
                let before = pairs.set(key, held)?;
                self.pairs = Some(Box::new(self.alloc, pairs)?);
                Ok(before)
            }
        }
    }
}
