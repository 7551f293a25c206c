//! Items by name in a map that keeps the order in which the names were first set.

ghost use Rattle.std.specs.Prelude.{◌≡◌, ◌↔◌, IsTrue, [], length, option_map, slice_get, OnOk, OnErr, IfOk};
ghost use Rattle.std.specs.Option.{option_copied};
ghost use Rattle.std.specs.Cmp.Lexicographic.{bytes_decides, nat_list_eq_equiv};
ghost use Rattle.std.specs.Cmp as laws_of;
ghost use Rattle.std.specs.Hash as fed;
ghost use Rattle.std.specs.Str.{bytes_eq};
ghost use Rattle.std.specs.Cmp.Rules.{hashing};
ghost use Rattle.std.proofs.Common.{rules, ap};
ghost use Rattle.wc_state.specs.Context.{found_at, with_set, KeysDiffer};

use indexmap::{Equivalent, IndexMap};
use std::alloc::{AllocError, Global};
use std::hash::{Hash, Hasher};
use std::marker::Model;
use wc_value::{Duplicate, Text};

/// A name, which contracts see as its bytes.
#[derive(Drop)]
pub(crate) struct Key {
    text: Text,
}

impl Model for Key {
    ghost use Rattle.std.specs.Prelude.{ℕ, List};

    ghost Value = { List ℕ };

    ghost view = { λ k. k.text };
}

impl PartialEq for Key {
    ghost eq = { bytes_eq };

    ghost laws = { laws_of.partial_equiv_from_equiv nat_list_eq_equiv };

    fn eq(&self, other: &Key) -> bool {
        self.text.as_str() == other.text.as_str()
    }
}

impl Eq for Key {
    ghost laws = { nat_list_eq_equiv };
}

impl Hash for Key {
    ghost hash_input = { fed.str };

    ghost respects_eq = { Prim.search (hashing, rules) };

    fn hash<H: Hasher>(&self, state: &mut H) {
        self.text.as_str().hash(state);
    }
}

impl Clone for Key {
    ghost is_clone = { λ s t. t ≡ s };

    fn clone(&self) -> Result<Key, AllocError> {
        Ok(Key {
            text: self.text.copy()?,
        })
    }
}

// A name is looked up by its text.
impl Equivalent<Key> for &str {
    ghost equivalent = { λ q k. bytes_eq q.now k };

    ghost respects_hash = { λ q k h. ap fed.str ((bytes_decides q.now k).0 h) };

    ghost respects_eq = { λ q x y. nat_list_eq_equiv.congr q.now x y };

    fn equivalent(&self, key: &Key) -> bool {
        *self == key.text.as_str()
    }
}

/// What names hold, in the order in which they were first set, in a map: four lists and a count.
#[derive(Drop)]
pub struct NameMap<T> {
    /// The names with what they hold, in that order.
    pub(crate) map: IndexMap<Key, T>,
}

impl<T> Model for NameMap<T> {
    ghost use Rattle.std.specs.Prelude.{ℕ, List};
    ghost use Rattle.std.specs.Coded.{coded_list, coded×, coded_ℕ};

    ghost Value = { List (List ℕ × T) };

    ghost coded = { coded_list (coded× (coded_list coded_ℕ) T.code) };

    ghost view = { λ c. c.map.entries };
}

impl<T> NameMap<T> {
    /// No names.
    pub fn new(alloc: Global) -> NameMap<T>
        ensures { result ≡ [] }
    {
        NameMap {
            map: IndexMap::new(alloc),
        }
    }

    /// How many names there are. No name stands twice.
    #[tactic(auto, using(crate::proofs::Differing::keys_differ))]
    pub fn len(&self) -> usize
        ensures value { result ≡ length self.now }
        ensures differ { KeysDiffer self.now }
    {
        self.map.len()
    }

    /// Whether no name is set.
    pub fn is_empty(&self) -> bool
        ensures { IsTrue result ↔ (self.now ≡ []) }
    {
        self.map.is_empty()
    }

    /// What a name holds, if it is set.
    pub fn find(&self, key: &Text) -> Option<&T>
        ensures { option_copied result ≡ found_at self.now key.now }
    {
        self.map.get(key.as_str())
    }

    /// The name at a place in the order, with what it holds.
    pub fn get(&self, at: usize) -> Option<(&Text, &T)>
        ensures { option_map (λ p. (p.0.now, p.1.now)) result ≡ slice_get self.now at }
    {
        let (key, held) = self.map.get_index(at)?;
        Some((&key.text, held))
    }
}

impl<T: Drop> NameMap<T> {
    /// Sets what a name holds, and hands back what it held. A name that is there keeps its place, and a new one goes last.
    pub fn set(&mut self, key: Text, held: T) -> Result<Option<T>, AllocError>
        ensures ok { OnOk result (self.new ≡ with_set self.old key held) }
        ensures before { IfOk result (λ before. before ≡ found_at self.old key) }
        ensures err { OnErr result (self.new ≡ self.old) }
    {
        Ok(self.map.insert(Key { text: key }, held)?)
    }
}
