//! Rows of numbers, which stand one behind another in one piece of memory.

ghost use Rattle.std.specs.Prelude.{◌≡◌, ◌++◌, ◌∷◌, ◌<◌, [], length, take, OnOk, OnErr, slice_index_or};

use std::alloc::{AllocError, Global};
use std::marker::Model;

/// Where a row stands among the numbers.
#[derive(Clone, Copy, Drop)]
pub(crate) struct Place {
    /// Where it begins.
    from: usize,
    /// Where it ends.
    to: usize,
}

/// Rows of numbers of nodes, which contracts see as the list of them.
#[derive(Drop)]
pub struct Rows {
    numbers: Vec<u32>,
    places: Vec<Place>,
}

impl Model for Rows {
    ghost use Rattle.std.specs.Prelude.{ℕ, List, length};
    ghost use Rattle.wc_matches.specs.Places.{rows_of, AreInside};

    ghost Value = { List (List ℕ) };

    ghost view = { λ a. rows_of a.numbers.items a.places.items };

    ghost invariant = { λ a. AreInside (length a.numbers.items) a.places.items };
}

impl Rows {
    /// No rows, which take no memory.
    pub(crate) fn new(alloc: Global) -> Rows
        ensures { result ≡ [] }
    {
        Rows {
            numbers: Vec::new(alloc),
            places: Vec::new(alloc),
        }
    }

    /// The number of rows.
    #[tactic(auto, using(crate::proofs::Placed::rows_count))]
    pub fn len(&self) -> usize
        ensures { result ≡ length self.now }
    {
        self.places.len()
    }

    /// The row at a place, counted from 0.
    #[tactic(auto, using(crate::proofs::Placed::row_inside, crate::proofs::Placed::row_is, crate::proofs::Placed::rows_count))]
    pub fn row(&self, at: usize) -> &[u32]
        // There is such a row.
        requires { at < length self.now }
        ensures { result.now ≡ slice_index_or self.now at [] }
    {
        let place = self.places[at];
        &self.numbers[place.from..place.to]
    }

    /// Puts a row with one number more at the end.
    #[tactic(auto, using(crate::proofs::Placed::rows_more, crate::proofs::Placed::inside_more, crate::proofs::Placed::rows_longer, crate::proofs::Placed::inside_longer))]
    pub(crate) fn push(&mut self, row: &[u32], number: u32) -> Result<(), AllocError>
        ensures ok { OnOk result (self.new ≡ self.old ++ (row.now ++ number ∷ []) ∷ []) }
    {
        let from = self.numbers.len();
        self.numbers.extend_from_slice(row)?;
        self.numbers.push(number)?;
        let to = self.numbers.len();
        self.places.push(Place { from, to })?;
        Ok(())
    }

    /// Drops the rows behind the first so many.
    #[tactic(auto, using(crate::proofs::Placed::rows_taken, crate::proofs::Placed::inside_taken))]
    pub(crate) fn truncate(&mut self, count: usize)
        ensures { self.new ≡ take count self.old }
    {
        self.places.truncate(count);
    }
}
