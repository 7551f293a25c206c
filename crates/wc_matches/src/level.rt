//! Rows that grow by one node.

ghost use Rattle.std.specs.Prelude.{◌≡◌, ◌++◌, ◌∷◌, [], ◌<◌, ◌≤◌, true, false, take, length, IfOk, OnOk, slice_index_or};
ghost use Rattle.wc_matches.specs.Joins.{IsJoined};
ghost use Rattle.wc_matches.specs.Sets.{AreOpen, LeadsInto};
ghost use Rattle.wc_matches.specs.Ways.{IsWay};
ghost use Rattle.wc_matches.specs.Found.{AreBlank};
ghost use Rattle.wc_matches.specs.Levels.{GoOnTo};
ghost use Rattle.wc_matches.specs.Numbers.{AreNumbers, with_each};

use crate::masks::masked_ends;
use crate::numbers::{marked_of, put_in_order};
use crate::rows::Rows;
use crate::search::{joined, unmark};
use crate::ways::{Way, ends_from, way_of};
use std::alloc::{AllocError, Global};
use wc_graph::Graph;
use wc_query::LinkTest;

/// Puts a row with each of these numbers behind others, as long as there are fewer than the most.
#[tactic(auto, using(crate::proofs::Growing::puts_more, crate::proofs::Growing::puts_full, crate::proofs::Growing::puts_all))]
pub(crate) fn put_rows(
    out: &mut Rows,
    row: &[u32],
    numbers: &[u32],
    most: usize,
) -> Result<(), AllocError>
    requires { length out.old ≤ most }
    ensures { OnOk result (out.new ≡ take most (out.old ++ with_each row.now numbers.now)) }
{
    for number in numbers {
        if out.len() >= most {
            return Ok(());
        }
        out.push(row, *number)?;
    }
    Ok(())
}

/// The marked nodes that a join leads to from a node, in order, by a search from it that comes to no barred node.
#[tactic(auto, using(crate::proofs::Placing::numbers_found))]
fn searched(
    alloc: Global,
    graph: &Graph,
    join: &LinkTest,
    set: &[bool],
    barred: &[bool],
    node: u32,
    marks: &mut [bool],
) -> Result<Vec<u32>, AllocError>
    requires size { length graph.now.nodes < length marks.old }
    requires blank { AreBlank marks.old }
    requires free { AreOpen graph.now.links join.now set.now barred.now }
    ensures blank { OnOk result (AreBlank marks.new) }
    ensures nexts { IfOk result (λ ids. AreNumbers (λ m. IsJoined graph.now.links join.now node m × (slice_index_or set.now m false ≡ true)) ids.items) }
{
    let found = joined(alloc, graph, join, join.forward, barred, &[node], marks)?;
    unmark(marks, &found);
    let mut ids = marked_of(alloc, &found, set)?;
    put_in_order(&mut ids);
    Ok(ids)
}

/// The marked nodes that a join leads to from a node, in order.
#[tactic(auto, using(crate::proofs::Ends::ends_are, crate::proofs::Ends::columns_same))]
fn nexts(
    alloc: Global,
    graph: &Graph,
    join: &LinkTest,
    set: &[bool],
    way: &Way,
    node: u32,
    marks: &mut [bool],
) -> Result<Vec<u32>, AllocError>
    requires size { length graph.now.nodes < length marks.old }
    requires blank { AreBlank marks.old }
    requires way { IsWay graph.now.links join.now set.now way.now }
    ensures blank { OnOk result (AreBlank marks.new) }
    ensures nexts { IfOk result (λ ids. AreNumbers (λ m. IsJoined graph.now.links join.now node m × (slice_index_or set.now m false ≡ true)) ids.items) }
{
    match way {
        Way::Search(barred) => searched(alloc, graph, join, set, barred, node, marks),
        Way::Ends(ends, columns) => ends_from(alloc, ends, columns.as_slice(), node),
        Way::Masks(ends, masks) => masked_ends(alloc, ends, masks, node),
    }
}

/// The marked nodes that a row goes on to, in order.
#[tactic(auto, using(crate::proofs::Growing::none_behind_none, crate::proofs::Growing::behind_last))]
fn behind(
    alloc: Global,
    graph: &Graph,
    join: &LinkTest,
    set: &[bool],
    way: &Way,
    row: &[u32],
    marks: &mut [bool],
) -> Result<Vec<u32>, AllocError>
    requires size { length graph.now.nodes < length marks.old }
    requires blank { AreBlank marks.old }
    requires way { IsWay graph.now.links join.now set.now way.now }
    ensures blank { OnOk result (AreBlank marks.new) }
    ensures nexts { IfOk result (λ ids. AreNumbers (LeadsInto graph.now.links join.now set.now row.now) ids.items) }
{
    if row.len() == 0 {
        return Ok(Vec::new(alloc));
    }
    nexts(alloc, graph, join, set, way, row[row.len() - 1], marks)
}

/// The first so many of the rows that these go on to.
#[tactic(auto, using(crate::proofs::Growing::on_none, crate::proofs::Growing::on_next, crate::proofs::Growing::on_all, crate::proofs::Growing::on_full, crate::proofs::Growing::few_on))]
pub(crate) fn next_level(
    alloc: Global,
    graph: &Graph,
    join: &LinkTest,
    set: &[bool],
    most: usize,
    rows: &Rows,
    marks: &mut [bool],
) -> Result<Rows, AllocError>
    requires size { length graph.now.nodes < length marks.old }
    requires blank { AreBlank marks.old }
    ensures blank { OnOk result (AreBlank marks.new) }
    ensures rows { IfOk result (λ out. GoOnTo (LeadsInto graph.now.links join.now set.now) most rows.now out) }
{
    let way = way_of(alloc, graph, join, set, rows.len())?;
    let mut out = Rows::new(alloc);
    for at in 0..rows.len() {
        if out.len() >= most {
            return Ok(out);
        }
        let row = rows.row(at);
        let numbers = behind(alloc, graph, join, set, &way, row, marks)?;
        put_rows(&mut out, row, &numbers, most)?;
    }
    Ok(out)
}
