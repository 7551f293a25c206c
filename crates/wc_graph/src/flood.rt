//! Searches that colour what can be reached from a node.

ghost use Rattle.std.specs.Prelude.{◌≡◌, ◌≢◌, ℕ, ◌+◌, ◌<◌, ◌≤◌, List, [], length, slice_index, replicate, All, IfOk, OnOk, IfSome, IfNone, IsSome};
ghost use Rattle.wc_graph.specs.Near.{Near};
ghost use Rattle.wc_graph.specs.Flood.{Floods, CanFlood, IsAtWork, IsEither, count_of};

use crate::reach::Ids;
use std::alloc::{AllocError, Global};

/// A node that a search found, and the place in its trail of the node that it was found from.
#[derive(Clone, Copy, Drop)]
pub(crate) struct Found {
    /// Its number.
    pub node: u32,
    /// The place of the node that it was found from.
    pub by: usize,
}

/// Finds those of the next nodes that have the old colour: each gets the fresh colour, and an entry at the end of
/// the trail.
fn spread(
    next: &[u32],
    by: usize,
    old: u32,
    fresh: u32,
    colours: &mut [u32],
    trail: &mut Vec<Found>,
) -> Result<(), AllocError>
    requires inside { All (λ node. node < length colours.old) next.now }
    requires apart { old ≢ fresh }
    ensures size { length colours.new ≡ length colours.old }
    ensures floods { OnOk result ((table : List (List ℕ)) (start : ℕ) (before : List ℕ)
        → IsAtWork table start fresh before colours.old trail.old.items by next.now old
        → Floods table start fresh before colours.new trail.new.items (by + 1)) }
    ensures count { OnOk result (count_of old colours.new + length trail.new.items
        ≡ count_of old colours.old + length trail.old.items) }
    ensures grows { OnOk result (length trail.old.items ≤ length trail.new.items) }
{
    for node in next {
        if colours[*node as usize] == old {
            colours[*node as usize] = fresh;
            trail.push(Found { node: *node, by })?;
        }
    }
    Ok(())
}

/// Gives the nodes of a trail their colour again.
fn restore(colours: &mut [u32], trail: &[Found], old: u32)
    requires { All (λ found. found.node < length colours.old) trail.now }
    ensures { (before : List ℕ) → length before ≡ length colours.old
        → All (λ found. slice_index before found.node ≡ old) trail.now
        → ((node : ℕ) → IsEither colours.old before trail.now 0 node)
        → colours.new ≡ before }
{
    for found in trail {
        colours[found.node as usize] = old;
    }
}

/// Finds what can be reached from a node along nodes of its own colour, and gives it the fresh colour. Answers with
/// the trail of what was found, or with none where more links than the limit would have to be followed, and then
/// leaves the colours as they were.
pub(crate) fn flood(
    alloc: Global,
    table: &[Ids],
    colours: &mut [u32],
    start: u32,
    fresh: u32,
    limit: Option<usize>,
) -> Result<Option<Vec<Found>>, AllocError>
    requires { CanFlood table.now start fresh colours.old }
    ensures size { length colours.new ≡ length colours.old }
    ensures found { IfOk result (λ answer. IfSome answer (λ trail.
        Floods table.now start fresh colours.old colours.new trail.items (length trail.items))) }
    ensures given_up { IfOk result (λ answer. IfNone answer (colours.new ≡ colours.old)) }
    ensures without_limit { limit ≡ None → IfOk result IsSome }
{
    let old = colours[start as usize];
    let mut trail = Vec::new(alloc);
    trail.push(Found { node: start, by: 0 })?;
    let mut left = limit;
    let mut at = 0;
    while at < trail.len() {
        let next = table[trail[at].node as usize].as_slice();
        if let Some(most) = left {
            let Some(rest) = most.checked_sub(next.len()) else {
                restore(colours, &trail, old);
                return Ok(None);
            };
            left = Some(rest);
        }
        spread(next, at, old, fresh, colours, &mut trail)?;
        at += 1;
    }
    Ok(Some(trail))
}

/// So many zeros.
pub(crate) fn zeros(alloc: Global, count: usize) -> Result<Vec<u32>, AllocError>
    ensures { IfOk result (λ colours. colours.items ≡ replicate count 0) }
{
    vec![in alloc; 0u32; count]
}

/// Finds all that can be reached from a node: the colours, of which 1 is that of what was found, and the trail.
pub(crate) fn explore(
    alloc: Global,
    table: &[Ids],
    start: u32,
) -> Result<(Vec<u32>, Vec<Found>), AllocError>
    requires start { start < length table.now }
    requires inside { (from to : ℕ) → Near table.now from to → to < length table.now }
    ensures { IfOk result (λ answer. Floods table.now start 1 (replicate (length table.now) 0)
        answer.0.items answer.1.items (length answer.1.items)) }
{
    let mut colours = zeros(alloc, table.len())?;
    let trail = flood(alloc, table, &mut colours, start, 1, None)?.unwrap();
    Ok((colours, trail))
}
