//! What the advance of a work chain is evaluated in.

ghost use Rattle.std.specs.Prelude.{◌≡◌, Some, IfOk, IsSome};
ghost use Rattle.wc_changes.specs.Environments.{environment_in};

use std::alloc::{AllocError, Global};
use wc_changes::env_in;
use wc_state::{Context, Env};
use wc_world::World;

/// The inputs of a process with a context, where each process that the context names is there.
pub fn environment(alloc: Global, world: &World, pid: u32, ctx: &Context) -> Result<Env, AllocError>
    requires { IsSome (environment_in world.now.world pid ctx.now) }
    ensures { IfOk result (λ env. environment_in world.now.world pid ctx.now ≡ Some env) }
{
    match env_in(alloc, world, pid, ctx)? {
        Some(env) => Ok(env),
        None => unreachable!(),
    }
}
