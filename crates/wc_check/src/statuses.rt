//! Sets of exit statuses.

ghost use Rattle.std.specs.Prelude.{◌≡◌, [], ◌∷◌, ◌++◌, not, IfOk, OnOk};
ghost use Rattle.wc_syntax.specs.Findings.{is_status};
ghost use Rattle.wc_check.specs.Least.{AgreeAt};

use std::alloc::{AllocError, Global};
use std::collections::BTreeSet;
use std::marker::Model;

/// A set of exit statuses. Contracts see the list of them.
#[derive(Drop)]
pub struct Statuses {
    set: BTreeSet<i64>,
}

impl Model for Statuses {
    ghost use Rattle.std.specs.Prelude.{List, ℤ};

    ghost Value = { List ℤ };

    ghost view = { λ n. n.set.keys };
}

impl Statuses {
    /// No statuses.
    pub fn new(alloc: Global) -> Statuses
        ensures { result ≡ [] }
    {
        Statuses {
            set: BTreeSet::new(alloc),
        }
    }

    /// Whether the status is one of these.
    pub fn has(&self, status: i64) -> bool
        ensures { result ≡ is_status status self.now }
    {
        self.set.contains(&status)
    }

    /// Adds a status, and tells whether it is new.
    pub fn add(&mut self, status: i64) -> Result<bool, AllocError>
        ensures added { IfOk result (λ added. added ≡ not (is_status status self.old)) }
        ensures statuses { OnOk result (AgreeAt is_status self.new (self.old ++ status ∷ [])) }
    {
        Ok(self.set.insert(status)?)
    }
}
