//! What a run does next.

ghost use Rattle.std.specs.Prelude.{◌≡◌, IfOk};
ghost use Rattle.wc_core.specs.Next.{ComesNext, first_moment};
ghost use Rattle.wc_core.specs.Order.{IsChosen};
ghost use Rattle.wc_core.specs.Standing.{StandsAs};
ghost use Rattle.wc_core.specs.declared.standing.Standing.TheVariants.{Going};

use crate::order::Order;
use std::alloc::{AllocError, Global};
use wc_world::World;

/// What a run does next at a moment.
#[derive(Clone, Copy, PartialEq, Eq)]
pub enum Next {
    /// This process has its turn.
    Turn(u32),
    /// No process is ready, and the first will be at this moment.
    Rest(u64),
}

/// The first of due moments, if there is one.
fn first_moment(dues: &[(u64, u32)]) -> Option<u64>
    ensures { result ≡ first_moment dues.now }
{
    if dues.is_empty() {
        return None;
    }
    Some(dues[0].0)
}

/// What comes next at a moment, where some process is ready or will be.
pub fn next_turn(
    alloc: Global,
    world: &World,
    now: u64,
    order: &mut Order,
) -> Result<Next, AllocError>
    requires going { StandsAs world.now.world Going }
    ensures comes { IfOk result (ComesNext world.now.world now) }
    ensures chosen { IfOk result (IsChosen world.now.world now order.old order.new) }
{
    // What accepted changes make is told by the graph.
    let _graph = world.graph();
    if let Some(pid) = order.next(alloc, world, now)? {
        return Ok(Next::Turn(pid));
    }
    match first_moment(world.ready_later()) {
        Some(due) => Ok(Next::Rest(due)),
        None => unreachable!(),
    }
}
