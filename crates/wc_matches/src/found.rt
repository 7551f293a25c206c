//! The rows that match a query.

ghost use Rattle.std.specs.Prelude.{◌≡◌, ◌+◌, ◌<◌, ◌^◌, ◌↔◌, [], true, false, take, length, nat_lt, IfOk, slice_index_or};
ghost use Rattle.wc_matches.specs.First.{AreFirst, HasMore};
ghost use Rattle.wc_matches.specs.Found.{AreBlank};
ghost use Rattle.wc_matches.specs.Levels.{Goes, IsBegun};
ghost use Rattle.wc_matches.specs.Matches.{IsMatch};
ghost use Rattle.wc_matches.specs.Sets.{AreSets};

use crate::level::{next_level, put_rows};
use crate::numbers::numbers;
use crate::rows::Rows;
use crate::sets::{Marks, equal_marks, sets_of};
use std::alloc::{AllocError, Global};
use wc_query::Query;
use wc_world::World;

/// The first rows that match a query, and whether there are further ones.
#[derive(Drop)]
pub struct Matches {
    /// The rows, in order.
    pub rows: Rows,
    /// Whether there are further ones.
    pub more: bool,
}

/// The first so many marked numbers, each as a row.
#[tactic(auto, using(crate::proofs::Growing::first_numbers))]
fn first_rows(alloc: Global, set: &[bool], most: usize) -> Result<Rows, AllocError>
    requires { length set.now < 2 ^ 32 }
    ensures { IfOk result (AreFirst (Goes (λ row m. slice_index_or set.now m false ≡ true) []) most) }
{
    let ids = numbers(alloc, set)?;
    let mut rows = Rows::new(alloc);
    put_rows(&mut rows, &[], &ids, most)?;
    Ok(rows)
}

/// The first so many rows, and whether there are further ones.
fn cut(mut rows: Rows, limit: usize) -> Matches
    ensures rows { result.rows ≡ take limit rows }
    ensures more { result.more ≡ nat_lt limit (length rows) }
{
    let more = rows.len() > limit;
    rows.truncate(limit);
    Matches { rows, more }
}

/// The first so many rows that begin a match by all joins, out of those of one node. A row that is kept on the way is the beginning of one
/// that matches, so of no length more of them are needed.
fn all_levels(
    alloc: Global,
    world: &World,
    query: &Query,
    firsts: Rows,
    mut sets: Vec<Marks>,
    most: usize,
    marks: &mut [bool],
) -> Result<Rows, AllocError>
    requires size { length marks.old ≡ length world.now.world.nodes + 1 }
    requires blank { AreBlank marks.old }
    requires sets { AreSets world.now.world query.now.more sets.items }
    requires firsts { AreFirst (IsBegun world.now.world query.now.first [] query.now.more) most firsts }
    ensures { IfOk result (AreFirst (IsBegun world.now.world query.now.first query.now.more []) most) }
{
    let graph = world.graph();
    let mut rows = firsts;
    for join in query.more.as_slice() {
        let set = sets.pop().unwrap();
        rows = next_level(alloc, graph, &join.0, set.as_slice(), most, &rows, marks)?;
    }
    Ok(rows)
}

/// The first rows that match a query, at most so many, and whether there are further ones.
#[tactic(auto, using(crate::proofs::Answering::equal_blank, crate::proofs::Answering::equal_size))]
pub fn answers(
    alloc: Global,
    world: &World,
    query: &Query,
    limit: u32,
) -> Result<Matches, AllocError>
    ensures rows { IfOk result (λ found. AreFirst (IsMatch world.now.world query.now) limit found.rows) }
    ensures more { IfOk result (λ found. (found.more ≡ true) ↔ HasMore (IsMatch world.now.world query.now) found.rows) }
{
    let most = limit as usize + 1;
    let (first, sets) = sets_of(alloc, world, query)?;
    let firsts = first_rows(alloc, first.as_slice(), most)?;
    let mut marks = equal_marks(alloc, world.graph().nodes().len() + 1, false)?;
    let rows = all_levels(alloc, world, query, firsts, sets, most, &mut marks)?;
    Ok(cut(rows, limit as usize))
}
