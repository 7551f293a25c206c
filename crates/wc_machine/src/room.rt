//! Whether a world has room for what an event adds.

ghost use Rattle.std.specs.Prelude.{◌+◌, ◌≤◌, ◌<◌, ◌^◌, length, OnOk, IfErr};
ghost use Rattle.wc_machine.specs.Refusals.{AreFew, RefusesBatch, RefusesCounts};

use crate::error::TurnError;
use wc_state::{Limits, What};
use wc_world::World;

/// The most batches that a world takes.
const MOST_BATCHES: u64 = 4_000_000_000;

/// Whether there is room for one more batch.
pub fn check_batch(world: &World) -> Result<(), TurnError>
    // Where it is Ok, there is room for one more batch: at most 4,000,000,000 in all.
    ensures ok { OnOk result (world.now.world.batches + 1 ≤ 4000000000) }
    // A refusal is that there would be too many batches.
    ensures refused { IfErr result (RefusesBatch world.now.world) }
{
    let batches = world.batches() as u64 + 1;
    if batches > MOST_BATCHES {
        return Err(TurnError::Full(What::Batches, batches, MOST_BATCHES));
    }
    Ok(())
}

/// Whether there is room for so many further nodes, and for one more batch.
pub fn check_room(world: &World, limits: &Limits, more: u64) -> Result<(), TurnError>
    requires { more ≤ 2 ^ 32 }
    ensures ok { OnOk result (AreFew (length world.now.world.nodes + more) (world.now.world.batches + 1) limits.now.max_nodes) }
    ensures refused { IfErr result (RefusesCounts (length world.now.world.nodes + more) (world.now.world.batches + 1) limits.now.max_nodes) }
{
    let nodes = world.graph().nodes().len() as u64 + more;
    let most = limits.max_nodes as u64;
    if nodes > most {
        return Err(TurnError::Full(What::Nodes, nodes, most));
    }
    let batches = world.batches() as u64 + 1;
    if batches > MOST_BATCHES {
        return Err(TurnError::Full(What::Batches, batches, MOST_BATCHES));
    }
    Ok(())
}
