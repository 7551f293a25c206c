//! Where the links of a process stand.

ghost use Rattle.std.specs.Prelude.{◌≡◌, [], IfOk, slice_get};
ghost use Rattle.std.specs.Option.{option_copied};
ghost use Rattle.wc_graph.specs.Index.{source_of, target_of};
ghost use Rattle.wc_world.specs.Linked.{upwards, of_node, call_in};

use std::alloc::{AllocError, Global};
use wc_fits::is_call_from;
use wc_graph::{Graph, Link};

/// The places of the links that enter a process, the last first.
#[tactic(auto, using(crate::proofs::Linking::into_first, crate::proofs::Linking::into_next))]
pub(crate) fn places_into(alloc: Global, graph: &Graph, pid: u32) -> Result<Vec<usize>, AllocError>
    ensures { IfOk result (λ places. of_node target_of pid (upwards graph.now.links places.items []) ≡ of_node target_of pid graph.now.links) }
{
    let mut places = Vec::new(alloc);
    let mut at = graph.last_into(pid);
    while at > 0 {
        places.push(at - 1)?;
        at = graph.before_into(pid, at);
    }
    Ok(places)
}

/// The places of the links that leave a process, the last first.
#[tactic(auto, using(crate::proofs::Linking::from_first, crate::proofs::Linking::from_next))]
pub fn places_from(alloc: Global, graph: &Graph, pid: u32) -> Result<Vec<usize>, AllocError>
    ensures { IfOk result (λ places. of_node source_of pid (upwards graph.now.links places.items []) ≡ of_node source_of pid graph.now.links) }
{
    let mut places = Vec::new(alloc);
    let mut at = graph.last_from(pid);
    while at > 0 {
        places.push(at - 1)?;
        at = graph.before_from(pid, at);
    }
    Ok(places)
}

/// The call from a process that is at a place, if there is one.
pub(crate) fn call_at(graph: &Graph, pid: u32, place: usize) -> Option<&Link>
    ensures { option_copied result ≡ call_in pid (slice_get graph.now.links place) }
{
    match graph.links().get(place) {
        Some(link) => {
            if is_call_from(pid, link) {
                Some(link)
            } else {
                None
            }
        }
        None => None,
    }
}
