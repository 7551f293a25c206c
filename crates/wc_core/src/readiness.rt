//! Which processes are ready for a turn.

ghost use Rattle.std.specs.Prelude.{◌≡◌, IfOk};
ghost use Rattle.wc_machine.specs.Readiness.{ready_at};
ghost use Rattle.wc_core.specs.Ready.{is_ready_at};

use std::alloc::{AllocError, Global};
use wc_state::Ids;
use wc_world::World;

/// Whether a process is there and is ready at a moment. It takes no memory.
pub fn is_ready(world: &World, pid: u32, now: u64) -> bool
    ensures { result ≡ is_ready_at world.now.world pid now }
{
    world.is_ready(pid, now)
}

/// The numbers of the processes that are ready at a moment, ascending.
pub fn ready(alloc: Global, world: &World, now: u64) -> Result<Ids, AllocError>
    ensures { IfOk result (λ ids. ids ≡ ready_at world.now.world now) }
{
    let found = world.ready(alloc, now)?;
    let mut ids = Ids::new(alloc);
    ids.extend(found.as_slice())?;
    Ok(ids)
}
