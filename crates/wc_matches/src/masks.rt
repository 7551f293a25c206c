//! From which nodes a join leads to each of a few ends, as the bits of one number for each node. All ends are found together, by going over the
//! links again and again as long as one brings something new.

ghost use Rattle.std.specs.Prelude.{◌≡◌, ◌≢◌, ◌==◌, ◌||◌, ◌<◌, ◌≤◌, ◌+◌, ◌↔◌, ℕ, List, true, false, length, replicate, Some, slice_get, slice_index_or, IfOk, IfSome, bit_or};
ghost use Rattle.std.specs.Int.{bit_at};
ghost use Rattle.wc_graph.specs.declared.link.Link.{Link as OneLink};
ghost use Rattle.wc_matches.specs.Found.{start_of, end_of};
ghost use Rattle.wc_matches.specs.Masks.{AreMasks, AreOwn, AreSound, Brings, HasBrought, HaveBrought, masked, nth_place};

use crate::search::{end_of, start_of};
use std::alloc::{AllocError, Global};
use wc_graph::{Graph, Link};
use wc_query::LinkTest;

/// Sets these bits too in a node's number. Whether one of them is new.
fn put_bits(masks: &mut [u64], node: usize, bits: u64) -> bool
    requires { node < length masks.old }
    ensures size { length masks.new ≡ length masks.old }
    ensures here { slice_index_or masks.new node 0 ≡ bit_or (slice_index_or masks.old node 0) bits }
    ensures others { (n : ℕ) → n ≢ node → slice_index_or masks.new n 0 ≡ slice_index_or masks.old n 0 }
    ensures same { result ≡ false → masks.new ≡ masks.old }
{
    let before = masks[node];
    let after = before | bits;
    if after == before {
        return false;
    }
    masks[node] = after;
    true
}

/// Sets in each node's number the bits of those ends that it is, where none is set.
#[tactic(auto, using(crate::proofs::Masked::own_none, crate::proofs::Masked::own_more, crate::proofs::Masked::own_all))]
fn put_own(own: &mut [u64], ends: &[u32])
    requires few { length ends.now ≤ 64 }
    requires inside { (b : ℕ) → b < length ends.now → slice_index_or ends.now b 0 < length own.old }
    requires blank { own.old ≡ replicate (length own.old) 0 }
    ensures size { length own.new ≡ length own.old }
    ensures own { AreOwn ends.now own.new }
{
    for place in 0..ends.len() {
        let _new = put_bits(own, ends[place] as usize, 1u64 << place);
    }
}

/// The bits that a link brings from a node.
#[tactic(auto, using(crate::proofs::Masked::walk_brings, crate::proofs::Masked::link_brings))]
fn brought(walk: bool, own: &[u64], masks: &[u64], node: usize) -> u64
    requires own { node < length own.now }
    requires masks { node < length masks.now }
    ensures { (b : ℕ) → (bit_at result b ≡ 1) ↔ Brings walk own.now masks.now node b }
{
    if walk {
        return own[node] | masks[node];
    }
    own[node]
}

/// Brings the bits of a link to the node that it leads from, where it is of the types. Whether one of them is new.
#[tactic(auto, using(crate::proofs::Masked::bring_sound, crate::proofs::Masked::bring_closed))]
fn bring(join: &LinkTest, own: &[u64], link: &Link, masks: &mut [u64]) -> bool
    requires from { start_of join.now.forward link.now < length masks.old }
    requires to { end_of join.now.forward link.now < length masks.old }
    requires own { length own.now ≡ length masks.old }
    ensures size { length masks.new ≡ length masks.old }
    ensures sound { (links : List OneLink) (k : ℕ) → slice_get links k ≡ Some link.now → AreSound links join.now own.now masks.old → AreSound links join.now own.now masks.new }
    ensures same { result ≡ false → masks.new ≡ masks.old }
    ensures brought { result ≡ false → HasBrought join.now own.now masks.new link.now }
{
    if !join.types.as_slice().contains(&link.link) {
        return false;
    }
    let bits = brought(join.walk, own, masks, end_of(join.forward, link) as usize);
    put_bits(masks, start_of(join.forward, link) as usize, bits)
}

/// Whether one of two holds.
fn either(one: bool, other: bool) -> bool
    ensures { result ≡ (one || other) }
{
    one || other
}

/// The place that comes so many behind the first one, or in front of the last one.
fn nth_place(back: bool, count: usize, n: usize) -> usize
    requires { n < count }
    ensures place { result ≡ nth_place back count n }
    ensures within { result < count }
{
    if back { count - 1 - n } else { n }
}

/// Goes over all links once, in the order in which most of them bring what others brought before. Whether something new was brought.
fn sweep(graph: &Graph, join: &LinkTest, own: &[u64], masks: &mut [u64]) -> bool
    requires size { length masks.old ≡ length graph.now.nodes + 1 }
    requires own { length own.now ≡ length masks.old }
    ensures size { length masks.new ≡ length masks.old }
    ensures sound { AreSound graph.now.links join.now own.now masks.old → AreSound graph.now.links join.now own.now masks.new }
    ensures brought { result ≡ false → HaveBrought graph.now.links join.now own.now masks.new }
{
    let links = graph.links().as_slice();
    let mut changed = false;
    for n in 0..links.len() {
        let place = nth_place(join.forward, links.len(), n);
        changed = either(bring(join, own, &links[place], masks), changed);
    }
    changed
}

/// Goes over the links until they bring nothing new, at most so often. Whether they don't in the end.
fn settle(graph: &Graph, join: &LinkTest, own: &[u64], rounds: usize, masks: &mut [u64]) -> bool
    requires size { length masks.old ≡ length graph.now.nodes + 1 }
    requires own { length own.now ≡ length masks.old }
    requires sound { AreSound graph.now.links join.now own.now masks.old }
    ensures size { length masks.new ≡ length masks.old }
    ensures settled { result ≡ true → AreSound graph.now.links join.now own.now masks.new × HaveBrought graph.now.links join.now own.now masks.new }
{
    for _round in 0..rounds {
        if !sweep(graph, join, own, masks) {
            return true;
        }
    }
    false
}

/// For each node the bits of those ends that a join leads to from it, unless the links bring something new more often than there are ends.
pub(crate) fn masks_of(
    alloc: Global,
    graph: &Graph,
    join: &LinkTest,
    ends: &[u32],
) -> Result<Option<Vec<u64>>, AllocError>
    requires few { length ends.now ≤ 64 }
    requires inside { (b : ℕ) → b < length ends.now → slice_index_or ends.now b 0 < length graph.now.nodes + 1 }
    ensures { IfOk result (λ answer. IfSome answer (λ masks. AreMasks graph.now.links join.now ends.now masks.items)) }
{
    let size = graph.nodes().len() + 1;
    let mut own = vec![in alloc; 0u64; size]?;
    put_own(&mut own, ends);
    let mut masks = vec![in alloc; 0u64; size]?;
    if settle(graph, join, &own, ends.len() + 1, &mut masks) {
        return Ok(Some(masks));
    }
    Ok(None)
}

/// Whether the bit at a place is set.
#[tactic(auto, using(crate::proofs::Masked::bit_told))]
fn has_bit(mask: u64, place: usize) -> bool
    requires { place < 64 }
    ensures { result ≡ (bit_at mask place == 1) }
{
    (mask >> place) & 1 == 1
}

/// The number of a node, which is 0 where there is none.
fn mask_of(masks: &[u64], node: u32) -> u64
    ensures { result ≡ slice_index_or masks.now node 0 }
{
    match masks.get(node as usize) {
        Some(mask) => *mask,
        None => 0,
    }
}

/// Those of some ends whose bits are set in a node's number.
#[tactic(auto, using(crate::proofs::Masked::masked_more, crate::proofs::Masked::masked_past, crate::proofs::Masked::masked_all))]
pub(crate) fn masked_ends(
    alloc: Global,
    ends: &[u32],
    masks: &[u64],
    node: u32,
) -> Result<Vec<u32>, AllocError>
    requires { length ends.now ≤ 64 }
    ensures { IfOk result (λ ids. ids.items ≡ masked ends.now 0 (slice_index_or masks.now node 0)) }
{
    let mask = mask_of(masks, node);
    let mut ids = Vec::new(alloc);
    for place in 0..ends.len() {
        if has_bit(mask, place) {
            ids.push(ends[place])?;
        }
    }
    Ok(ids)
}
