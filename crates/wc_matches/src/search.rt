//! Searches along links.

ghost use Rattle.std.specs.Prelude.{◌≡◌, ◌<◌, ◌≤◌, ◌-◌, ◌↔◌, ℕ, true, [], length, IsTrue, IfOk, OnOk};
ghost use Rattle.wc_graph.specs.Index.{Skips, source_of, target_of};
ghost use Rattle.wc_matches.specs.Joins.{OpenSteps, IsJoinedPast};
ghost use Rattle.wc_matches.specs.Found.{has, AreMarked, AreBlank, Finds, start_of, end_of, LeadsFrom, FromSome, IsClosed};

use crate::numbers::is_marked;
use std::alloc::{AllocError, Global};
use wc_graph::{Graph, Link, LinkSet};
use wc_query::LinkTest;

/// The node that a link leads from in a direction.
pub(crate) fn start_of(forward: bool, link: &Link) -> u32
    ensures { result ≡ start_of forward link.now }
{
    if forward { link.source } else { link.target }
}

/// The node that a link leads to in a direction.
pub(crate) fn end_of(forward: bool, link: &Link) -> u32
    ensures { result ≡ end_of forward link.now }
{
    if forward { link.target } else { link.source }
}

/// Whether a link is of one of these types and leads from a node, to one that isn't barred.
fn leads_from(forward: bool, types: &LinkSet, barred: &[bool], node: u32, link: &Link) -> bool
    ensures { IsTrue result ↔ LeadsFrom forward types.now barred.now node link.now }
{
    start_of(forward, link) == node
        && types.as_slice().contains(&link.link)
        && !is_marked(barred, end_of(forward, link))
}

/// Where a walk down the links that lead from a node begins: at this place, counted from 1, and behind it is none.
fn last_link(graph: &Graph, forward: bool, node: u32) -> usize
    ensures { Skips (start_of forward) graph.now.links node (length graph.now.links) result }
{
    if forward {
        graph.last_from(node)
    } else {
        graph.last_into(node)
    }
}

/// Where that walk goes on below a place, both counted from 1: between them is none.
fn link_before(graph: &Graph, forward: bool, node: u32, at: usize) -> usize
    requires some { 0 < at }
    requires within { at ≤ length graph.now.links }
    ensures { Skips (start_of forward) graph.now.links node (at - 1) result }
{
    if forward {
        graph.before_from(node, at)
    } else {
        graph.before_into(node, at)
    }
}

/// Puts a number behind those found and marks it, unless it is marked.
fn add(marks: &mut [bool], found: &mut Vec<u32>, node: u32) -> Result<(), AllocError>
    requires within { node < length marks.old }
    requires marked { AreMarked marks.old found.old.items }
    ensures { OnOk result (Finds (λ m. m ≡ node) marks.old marks.new found.old.items found.new.items) }
{
    if !marks[node as usize] {
        marks[node as usize] = true;
        found.push(node)?;
    }
    Ok(())
}

/// Finds the nodes that a link leads to from a node, but for those that are barred.
fn spread(
    graph: &Graph,
    forward: bool,
    types: &LinkSet,
    barred: &[bool],
    node: u32,
    marks: &mut [bool],
    found: &mut Vec<u32>,
) -> Result<(), AllocError>
    requires size { length graph.now.nodes < length marks.old }
    requires marked { AreMarked marks.old found.old.items }
    ensures { OnOk result (Finds (OpenSteps forward types.now barred.now graph.now.links node) marks.old marks.new found.old.items found.new.items) }
{
    let links = graph.links().as_slice();
    let mut at = last_link(graph, forward, node);
    while at > 0 {
        let link = &links[at - 1];
        if leads_from(forward, types, barred, node, link) {
            add(marks, found, end_of(forward, link))?;
        }
        at = link_before(graph, forward, node, at);
    }
    Ok(())
}

/// Finds the nodes that a link leads to from some nodes, but for those that are barred.
fn spread_all(
    graph: &Graph,
    forward: bool,
    types: &LinkSet,
    barred: &[bool],
    from: &[u32],
    marks: &mut [bool],
    found: &mut Vec<u32>,
) -> Result<(), AllocError>
    requires size { length graph.now.nodes < length marks.old }
    requires marked { AreMarked marks.old found.old.items }
    ensures { OnOk result (Finds (FromSome (OpenSteps forward types.now barred.now graph.now.links) from.now) marks.old marks.new found.old.items found.new.items) }
{
    for node in from {
        spread(graph, forward, types, barred, *node, marks, found)?;
    }
    Ok(())
}

/// Finds the nodes that links lead to from those found, and from these, as long as there are further ones.
fn close(
    graph: &Graph,
    forward: bool,
    types: &LinkSet,
    barred: &[bool],
    marks: &mut [bool],
    found: &mut Vec<u32>,
) -> Result<(), AllocError>
    requires size { length graph.now.nodes < length marks.old }
    requires marked { AreMarked marks.old found.old.items }
    ensures marked { OnOk result (AreMarked marks.new found.new.items) }
    ensures closed { OnOk result (IsClosed (OpenSteps forward types.now barred.now graph.now.links) found.old.items found.new.items (length found.new.items)) }
{
    let mut done = 0;
    while done < found.len() {
        let node = found[done];
        spread(graph, forward, types, barred, node, marks, found)?;
        done += 1;
    }
    Ok(())
}

/// The nodes that are joined with some nodes, in any order, by a link or by a walk that comes to no barred one. They are marked, where nothing
/// was before.
pub(crate) fn joined(
    alloc: Global,
    graph: &Graph,
    join: &LinkTest,
    forward: bool,
    barred: &[bool],
    from: &[u32],
    marks: &mut [bool],
) -> Result<Vec<u32>, AllocError>
    requires size { length graph.now.nodes < length marks.old }
    requires blank { AreBlank marks.old }
    ensures marked { IfOk result (λ found. AreMarked marks.new found.items) }
    ensures exactly { IfOk result (λ found. (m : ℕ)
        → (has found.items m ≡ true) ↔ FromSome (IsJoinedPast join.now.walk forward join.now.types barred.now graph.now.links) from.now m) }
{
    let mut found = Vec::new(alloc);
    spread_all(graph, forward, &join.types, barred, from, marks, &mut found)?;
    if join.walk {
        close(graph, forward, &join.types, barred, marks, &mut found)?;
    }
    Ok(found)
}

/// Takes the marks back.
pub(crate) fn unmark(marks: &mut [bool], found: &[u32])
    requires { AreMarked marks.old found.now }
    ensures { AreBlank marks.new }
{
    for node in found {
        let place = *node as usize;
        if place < marks.len() {
            marks[place] = false;
        }
    }
}
