//! Closed walks: the least node on any, and a walk through it.

ghost use Rattle.std.specs.Prelude.{◌≡◌, ℕ, ◌+◌, ◌<◌, ◌≤◌, ◌^◌, List, length, slice_index, MatchOption, IfOk, IfSome, IfNone, IsSome};
ghost use Rattle.wc_graph.specs.Walks.{Reaches};
ghost use Rattle.wc_graph.specs.Near.{Near};
ghost use Rattle.wc_graph.specs.Flood.{node_at, by_at};
ghost use Rattle.wc_graph.specs.Cycle.{AreConverse, CanSettle, Settles, LinksBack, IsClosedFrom, IsLeastCycle};

use crate::flood::{Found, explore, flood, zeros};
use crate::reach::Ids;
use std::alloc::{AllocError, Global};

/// Searches from a node along one table, within a limit: whether a closed walk leads through the node.
fn settle(
    alloc: Global,
    table: &[Ids],
    colours: &mut [u32],
    node: u32,
    limit: Option<usize>,
) -> Result<Option<bool>, AllocError>
    requires { CanSettle table.now node colours.old }
    ensures size { length colours.new ≡ length colours.old }
    ensures some { IfOk result (λ answer. IfSome answer (Settles table.now node colours.new)) }
    ensures none { IfOk result (λ answer. IfNone answer (colours.new ≡ colours.old)) }
    ensures without_limit { limit ≡ None → IfOk result IsSome }
{
    match flood(alloc, table, colours, node, node + 1, limit)? {
        Some(_trail) => Ok(Some(colours[node as usize] == node + 1)),
        None => Ok(None),
    }
}

/// Whether a closed walk leads through the node.
///
/// Two searches, along the steps and against them, take turns with limits that double, until the lesser one ends.
/// What it found gets a colour of its own, and no later search leaves its colour. So each link is followed at most
/// as often as the lesser half of a colour can be halved.
fn lies_on_cycle(
    alloc: Global,
    forward: &[Ids],
    backward: &[Ids],
    colours: &mut [u32],
    node: u32,
) -> Result<bool, AllocError>
    requires converse { AreConverse forward.now backward.now }
    requires can { CanSettle forward.now node colours.old }
    ensures size { length colours.new ≡ length colours.old }
    ensures settles { IfOk result (Settles forward.now node colours.new) }
{
    let mut limit = 1usize;
    for _round in 0..32 {
        if let Some(answer) = settle(alloc, forward, colours, node, Some(limit))? {
            return Ok(answer);
        }
        if let Some(answer) = settle(alloc, backward, colours, node, Some(limit))? {
            return Ok(answer);
        }
        limit = limit.saturating_mul(2);
    }
    Ok(settle(alloc, forward, colours, node, None)?.unwrap())
}

/// The least node that a closed walk leads through.
fn least_on_cycle(
    alloc: Global,
    forward: &[Ids],
    backward: &[Ids],
) -> Result<Option<u32>, AllocError>
    requires few { length forward.now < 2 ^ 32 }
    requires converse { AreConverse forward.now backward.now }
    ensures { IfOk result (λ answer. MatchOption answer
        ((node : ℕ) → ¬ Reaches (Near forward.now) node node)
        (λ least. (least < length forward.now) × Reaches (Near forward.now) least least
        × ((node : ℕ) → node < least → ¬ Reaches (Near forward.now) node node))) }
{
    let mut colours = zeros(alloc, forward.len())?;
    for node in 0..forward.len() {
        if lies_on_cycle(alloc, forward, backward, &mut colours, node as u32)? {
            return Ok(Some(node as u32));
        }
    }
    Ok(None)
}

/// The nodes on the way from an entry of a trail back to the start.
fn way_back(alloc: Global, trail: &[Found], from: usize) -> Result<Ids, AllocError>
    requires from { (0 < from) × (from < length trail.now) }
    requires linked { (k : ℕ) → 0 < k → k < length trail.now → by_at trail.now k < k }
    ensures { IfOk result (λ ids. (backward : List (List ℕ)) → LinksBack backward trail.now
        → IsClosedFrom (λ from to. Near backward to from) (node_at trail.now from) (node_at trail.now 0) ids) }
{
    let mut ids = Ids::new(alloc);
    let mut at = from;
    while at > 0 {
        let found = trail[at];
        ids.push(found.node)?;
        at = found.by;
    }
    Ok(ids)
}

/// The nodes of a closed walk from a node, of which the table lists the nodes one step back.
fn closed_walk(alloc: Global, backward: &[Ids], node: u32) -> Result<Ids, AllocError>
    requires start { node < length backward.now }
    requires inside { (from to : ℕ) → Near backward.now from to → to < length backward.now }
    requires on_cycle { Reaches (Near backward.now) node node }
    ensures { IfOk result (IsClosedFrom (λ from to. Near backward.now to from) node node) }
{
    let (_colours, trail) = explore(alloc, backward, node)?;
    for at in 1..trail.len() {
        if trail[at].node == node {
            return way_back(alloc, &trail, at);
        }
    }
    unreachable!()
}

/// The nodes of a closed walk that begins with the least node on any, if there is one.
pub(crate) fn least_cycle(
    alloc: Global,
    forward: &[Ids],
    backward: &[Ids],
) -> Result<Option<Ids>, AllocError>
    requires few { length forward.now < 2 ^ 32 }
    requires converse { AreConverse forward.now backward.now }
    ensures { IfOk result (λ answer. MatchOption answer
        ((node : ℕ) → ¬ Reaches (Near forward.now) node node)
        (IsLeastCycle (Near forward.now))) }
{
    match least_on_cycle(alloc, forward, backward)? {
        Some(node) => Ok(Some(closed_walk(alloc, backward, node)?)),
        None => Ok(None),
    }
}
