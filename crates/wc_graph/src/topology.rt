//! The order of data provenance.

ghost use Rattle.std.specs.Prelude.{◌≡◌, ◌≢◌, ℕ, ◌+◌, ◌<◌, ◌≤◌, ◌^◌, ◌↔◌, ◌⊎◌, [], length, slice_index, slice_index_or, All, Any, MatchBool, MatchOption, IfOk, IfErr, IfSome, IsSome, OnOk, IsTrue, false};
ghost use Rattle.std.specs.Ordering.{nat_cmp};
ghost use Rattle.std.specs.BTreeSet.{contains, IsLowerBound, Updates};
ghost use Rattle.wc_graph.specs.Walks.{IsAcyclic};
ghost use Rattle.wc_graph.specs.Near.{near_of, EndsAreWithin};
ghost use Rattle.wc_graph.specs.declared.near.Way.TheVariants.{Forward};
ghost use Rattle.wc_graph.specs.Choice.{data_choice};
ghost use Rattle.wc_graph.specs.Order.{IsOrder, IsCause, waits, times};

use crate::choice::Choice;
use crate::near::{self, Way};
use crate::reach::Ids;
use crate::walk_error::WalkError;
use crate::{Graph, Link, cycle};
use std::alloc::{AllocError, Global};
use std::collections::BTreeSet;

/// How many links of data provenance enter each node, by its number.
fn entering(alloc: Global, greatest: usize, links: &[Link]) -> Result<Vec<usize>, AllocError>
    requires within { EndsAreWithin greatest links.now }
    requires few { greatest + 1 < 2 ^ 64 }
    ensures size { IfOk result (λ waiting. length waiting.items ≡ greatest + 1) }
    ensures counts { IfOk result (λ waiting. (node : ℕ) → slice_index waiting.items node ≡ waits [] links.now node) }
{
    let mut waiting = vec![in alloc; 0usize; greatest + 1]?;
    let choice = Choice::data();
    for link in links {
        if choice.has(link.link) {
            waiting[link.target as usize] += 1;
        }
    }
    Ok(waiting)
}

/// The nodes, from 1 on, that wait for no link.
fn first_ready(alloc: Global, waiting: &[usize]) -> Result<BTreeSet<u32>, AllocError>
    requires some { 0 < length waiting.now }
    requires few { length waiting.now < 2 ^ 32 }
    ensures { IfOk result (λ ready. (node : ℕ) → IsTrue (contains nat_cmp ready node)
        ↔ ((1 ≤ node) × (node < length waiting.now) × (slice_index waiting.now node ≡ 0))) }
{
    let mut ready = BTreeSet::new(alloc);
    for node in 1..waiting.len() {
        if waiting[node] == 0 {
            ready.insert(node as u32)?;
        }
    }
    Ok(ready)
}

/// Takes the links of a placed node off what its targets wait for.
fn release(
    targets: &[u32],
    waiting: &mut [usize],
    ready: &mut BTreeSet<u32>,
) -> Result<(), AllocError>
    requires within { All (λ node. node < length waiting.old) targets.now }
    requires enough { (node : ℕ) → times node targets.now ≤ slice_index waiting.old node }
    ensures size { length waiting.new ≡ length waiting.old }
    ensures counts { OnOk result ((node : ℕ)
        → slice_index waiting.new node + times node targets.now ≡ slice_index waiting.old node) }
    ensures ready { OnOk result ((node : ℕ) → IsTrue (contains nat_cmp ready.new node)
        ↔ (IsTrue (contains nat_cmp ready.old node)
        ⊎ ((0 < times node targets.now) × (slice_index waiting.new node ≡ 0)))) }
{
    for target in targets {
        waiting[*target as usize] -= 1;
        if waiting[*target as usize] == 0 {
            ready.insert(*target)?;
        }
    }
    Ok(())
}

/// Takes the lowest node that is ready out of the set, if one is.
fn take_lowest(ready: &mut BTreeSet<u32>) -> Option<u32>
    ensures some { IsSome result ↔ (0 < length ready.old.keys) }
    ensures member { IfSome result (λ node. IsTrue (contains nat_cmp ready.old node)) }
    ensures lowest { IfSome result (IsLowerBound nat_cmp ready.old) }
    ensures taken { IfSome result (λ node. Updates nat_cmp ready.old ready.new node false) }
{
    ready.pop_first()
}

/// Whether some count is not 0.
fn some_waits(waiting: &[usize]) -> bool
    ensures { MatchBool result (Any (λ count. count ≢ 0) waiting.now) ((node : ℕ) → slice_index waiting.now node ≡ 0) }
{
    for count in waiting {
        if *count != 0 {
            return true;
        }
    }
    false
}

/// Places the nodes one after another, always the lowest of those that may come. None where it comes to no end.
fn place(alloc: Global, graph: &Graph, forward: &[Ids]) -> Result<Option<Ids>, AllocError>
    requires size { length forward.now ≡ length graph.now.nodes + 1 }
    requires lists { (node : ℕ) → slice_index_or forward.now node [] ≡ near_of data_choice Forward graph.now.links node }
    ensures { IfOk result (λ answer. MatchOption answer
        (¬ IsAcyclic graph.now.links)
        (λ ids. IsOrder graph.now.nodes graph.now.links ids × IsAcyclic graph.now.links)) }
{
    let nodes = graph.nodes();
    let links = graph.links();
    let mut waiting = entering(alloc, nodes.len(), links.as_slice())?;
    let mut ready = first_ready(alloc, &waiting)?;
    let mut placed = Ids::new(alloc);
    while let Some(node) = take_lowest(&mut ready) {
        placed.push(node)?;
        release(forward[node as usize].as_slice(), &mut waiting, &mut ready)?;
    }
    if some_waits(&waiting) {
        return Ok(None);
    }
    Ok(Some(placed))
}

/// All nodes, each source of data provenance before its target, and always the lowest node that may come next.
///
/// Where there is none, the nodes of a closed walk, which begins with the least node on any.
pub fn order(alloc: Global, graph: &Graph) -> Result<Ids, WalkError>
    // All nodes, each behind those from which data provenance leads to it, and each the lowest that may come next.
    ensures ok { IfOk result (IsOrder graph.now.nodes graph.now.links) }
    // Where it is Ok, data provenance has no cycle.
    ensures acyclic { OnOk result (IsAcyclic graph.now.links) }
    // An error is a closed walk that begins with the least node on any, or want of memory.
    ensures err { IfErr result (IsCause graph.now.links) }
{
    let forward = near::table_of(alloc, graph, Choice::data(), Way::Forward)?;
    if let Some(ids) = place(alloc, graph, &forward)? {
        return Ok(ids);
    }
    let backward = near::table_of(alloc, graph, Choice::data(), Way::Backward)?;
    match cycle::least_cycle(alloc, &forward, &backward)? {
        Some(ids) => Err(WalkError::Cycle(ids)),
        None => unreachable!(),
    }
}
