//! Sets of names.

ghost use Rattle.std.specs.Prelude.{◌≡◌, [], ◌∷◌, ◌++◌, not, IfOk, OnOk};
ghost use Rattle.wc_syntax.specs.Findings.{is_among};
ghost use Rattle.wc_check.specs.Least.{Agree};

use std::alloc::{AllocError, Global};
use std::collections::BTreeSet;
use std::marker::Model;

/// A set of names. Contracts see the list of them.
#[derive(Drop)]
pub struct Names {
    set: BTreeSet<Vec<u8>>,
}

impl Model for Names {
    ghost use Rattle.std.specs.Prelude.{List, ℕ, map};

    ghost Value = { List (List ℕ) };

    ghost view = { λ n. map (λ k. k.items) n.set.keys };
}

impl Names {
    /// No names.
    pub fn new(alloc: Global) -> Names
        ensures { result ≡ [] }
    {
        Names {
            set: BTreeSet::new(alloc),
        }
    }

    /// Whether the name is one of these.
    pub fn has(&self, name: &str) -> bool
        ensures { result ≡ is_among name.now self.now }
    {
        self.set.contains(name.as_bytes())
    }

    /// Adds a name, and tells whether it is new.
    pub fn add(&mut self, alloc: Global, name: &str) -> Result<bool, AllocError>
        ensures added { IfOk result (λ added. added ≡ not (is_among name.now self.old)) }
        ensures names { OnOk result (Agree self.new (self.old ++ name.now ∷ [])) }
    {
        let name = Vec::from_slice(alloc, name.as_bytes())?;
        Ok(self.set.insert(name)?)
    }
}

/// Whether a name is one of the two.
pub fn is_either(name: &str, first: &str, second: &str) -> bool
    ensures { result ≡ is_among name.now (first.now ∷ second.now ∷ []) }
{
    name == first || name == second
}
