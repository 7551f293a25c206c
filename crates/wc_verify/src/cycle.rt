//! Cycles of data provenance.

ghost use Rattle.std.specs.Prelude.{◌≡◌, ◌<◌, length, slice_index, IfOk};
ghost use Rattle.wc_verify.specs.Faults.{IsLeastOnCycle};

use std::alloc::{AllocError, Global};
use wc_graph::{Ids, WalkError, order};
use wc_world::World;

/// The first node of a closed walk.
fn first_of(nodes: &Ids) -> u32
    requires { 0 < length nodes.now }
    ensures { result ≡ slice_index nodes.now 0 }
{
    nodes.as_slice()[0]
}

/// The least node that lies on a cycle of data provenance, if there is one.
pub fn find_cycle(alloc: Global, world: &World) -> Result<Option<u32>, AllocError>
    ensures { IfOk result (IsLeastOnCycle world.now.world.links) }
{
    match order(alloc, world.graph()) {
        Ok(_) => Ok(None),
        Err(WalkError::Cycle(nodes)) => Ok(Some(first_of(&nodes))),
        Err(WalkError::OutOfMemory) => Err(AllocError),
        Err(WalkError::NoNode(_)) => unreachable!(),
    }
}
