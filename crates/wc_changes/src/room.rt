//! Whether a world has room for what calls add.

ghost use Rattle.std.specs.Prelude.{◌+◌, ◌-◌, ◌≤◌, ◌^◌, length, OnOk, IfErr};
ghost use Rattle.wc_state.specs.Ranges.{AreLimits};
ghost use Rattle.wc_machine.specs.Refusals.{AreFew, RefusesCounts};

use wc_machine::{TurnError, check_room};
use wc_state::{Limits, What};
use wc_world::World;

/// The most nodes that fit a number.
const MOST_NUMBERS: u64 = 0x1_0000_0000;

/// Whether there is room for so many further nodes, of which there may be more than numbers, and for one more batch.
pub fn check_calls(world: &World, limits: &Limits, more: u64) -> Result<(), TurnError>
    requires limits { AreLimits limits.now }
    requires few { more ≤ 2 ^ 64 - 2 ^ 32 }
    ensures ok { OnOk result (AreFew (length world.now.world.nodes + more) (world.now.world.batches + 1) limits.now.max_nodes) }
    ensures refused { IfErr result (RefusesCounts (length world.now.world.nodes + more) (world.now.world.batches + 1) limits.now.max_nodes) }
{
    if more > MOST_NUMBERS {
        let nodes = world.graph().nodes().len() as u64 + more;
        return Err(TurnError::Full(What::Nodes, nodes, limits.max_nodes as u64));
    }
    check_room(world, limits, more)
}
