//! How the marked nodes are found that a join leads to: by a search from each node, or by one from each of few ends.

ghost use Rattle.std.specs.Prelude.{◌≡◌, ◌&&◌, ◌<◌, ◌^◌, false, length, not, IfOk, slice_index_or};
ghost use Rattle.wc_matches.specs.Joins.{IsJoined};
ghost use Rattle.wc_matches.specs.Sets.{AreOpen};
ghost use Rattle.wc_matches.specs.Ways.{IsColumn, AreColumns, IsWay, ends_from};

use crate::masks::masks_of;
use crate::numbers::{is_at, is_marked, numbers};
use crate::sets::{Marks, leading, leading_to};
use std::alloc::{AllocError, Global};
use wc_graph::Graph;
use wc_query::LinkTest;
use wc_value::List;

/// The most nodes from each of which a walk is followed backwards.
const MOST_ENDS: usize = 64;

/// How the marked nodes are found that a join leads to.
#[derive(Drop)]
pub enum Way {
    /// By a search from the node, which comes to no node that is barred here; where the list is short, the others aren't.
    Search(Vec<bool>),
    /// Out of all marked nodes, in order, and for each of them a mark for each node from which the join leads to it.
    Ends(Vec<u32>, List<Marks>),
    /// Out of all marked nodes, in order, and for each node a number whose bits say to which of them the join leads from it.
    Masks(Vec<u32>, Vec<u64>),
}

/// Which nodes a join leads from to a node.
#[tactic(auto, using(crate::proofs::Ends::column_is))]
fn column(alloc: Global, graph: &Graph, join: &LinkTest, end: u32) -> Result<Marks, AllocError>
    ensures { IfOk result (IsColumn (IsJoined graph.now.links join.now) end) }
{
    let marks = leading_to(alloc, graph, join, &[end])?;
    let mut column = Marks::new(alloc);
    column.extend(&marks)?;
    Ok(column)
}

/// For each of some nodes which nodes a join leads from to it.
#[tactic(auto, using(crate::proofs::Ends::columns_next, crate::proofs::Ends::columns_all))]
fn columns(
    alloc: Global,
    graph: &Graph,
    join: &LinkTest,
    ends: &[u32],
) -> Result<List<Marks>, AllocError>
    ensures { IfOk result (AreColumns (IsJoined graph.now.links join.now) ends.now) }
{
    let mut columns = List::new(alloc);
    for end in ends {
        columns.push(column(alloc, graph, join, *end)?)?;
    }
    Ok(columns)
}

/// Those of some nodes in whose column a node is marked.
#[tactic(auto, using(crate::proofs::Ends::ends_more, crate::proofs::Ends::ends_past, crate::proofs::Ends::ends_all))]
pub(crate) fn ends_from(
    alloc: Global,
    ends: &[u32],
    columns: &[Marks],
    node: u32,
) -> Result<Vec<u32>, AllocError>
    requires { length columns.now ≡ length ends.now }
    ensures { IfOk result (λ ids. ids.items ≡ ends_from ends.now columns.now node) }
{
    let mut ids = Vec::new(alloc);
    for place in 0..ends.len() {
        if is_marked(columns[place].as_slice(), node) {
            ids.push(ends[place])?;
        }
    }
    Ok(ids)
}

/// Whether a place has none of two marks.
fn is_aside(leads: &[bool], set: &[bool], place: usize) -> bool
    ensures { result ≡ (not (slice_index_or leads.now place false) && not (slice_index_or set.now place false)) }
{
    !is_at(leads, place) && !is_at(set, place)
}

/// The nodes that a search for marked ones needn't come to: they aren't marked, and a join leads from them to no marked one.
#[tactic(auto, using(crate::proofs::Ends::barred_open))]
fn barred(
    alloc: Global,
    graph: &Graph,
    join: &LinkTest,
    set: &[bool],
) -> Result<Vec<bool>, AllocError>
    requires { length set.now < 2 ^ 32 }
    ensures { IfOk result (λ barred. AreOpen graph.now.links join.now set.now barred.items) }
{
    let leads = leading(alloc, graph, join, set)?;
    let mut barred = Vec::new(alloc);
    for node in 0..leads.len() {
        barred.push(is_aside(&leads, set, node))?;
    }
    Ok(barred)
}

/// A search from each row's end, which along a walk comes to no node that leads to no marked one.
#[tactic(auto, using(crate::proofs::Ends::none_barred))]
fn search(alloc: Global, graph: &Graph, join: &LinkTest, set: &[bool]) -> Result<Way, AllocError>
    requires { length set.now < 2 ^ 32 }
    ensures { IfOk result (IsWay graph.now.links join.now set.now) }
{
    if !join.walk {
        return Ok(Way::Search(Vec::new(alloc)));
    }
    Ok(Way::Search(barred(alloc, graph, join, set)?))
}

/// How the marked nodes are found that a join leads to from the last nodes of so many rows. One search needs no help. Of more, each follows
/// the links or the walks from a row's end, of which several rows may have the same, so where the marked nodes are few, and fewer than the rows,
/// it goes from these: for all of them together, unless the links bring something new too often, and then one search for each.
#[tactic(auto, using(crate::proofs::Ends::none_barred, crate::proofs::Masked::ends_inside))]
pub(crate) fn way_of(
    alloc: Global,
    graph: &Graph,
    join: &LinkTest,
    set: &[bool],
    rows: usize,
) -> Result<Way, AllocError>
    ensures { IfOk result (IsWay graph.now.links join.now set.now) }
{
    if rows < 2 || set.len() > graph.nodes().len() + 1 {
        return Ok(Way::Search(Vec::new(alloc)));
    }
    let ends = numbers(alloc, set)?;
    if ends.len() > MOST_ENDS || ends.len() >= rows {
        return search(alloc, graph, join, set);
    }
    if let Some(masks) = masks_of(alloc, graph, join, &ends)? {
        return Ok(Way::Masks(ends, masks));
    }
    let columns = columns(alloc, graph, join, &ends)?;
    Ok(Way::Ends(ends, columns))
}
