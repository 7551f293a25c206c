//! The turn of a work chain that calls.

ghost use Rattle.std.specs.Prelude.{◌≡◌, ◌+◌, ◌≤◌, length, IfOk};
ghost use Rattle.wc_changes.specs.Called.{added};
ghost use Rattle.wc_changes.specs.Advances.{waiting, submission};

use crate::children::{Caller, put_calls};
use crate::progress::is_now;
use std::alloc::{AllocError, Global};
use wc_outline::Calls;
use wc_state::{Awaits, Checkpoint, Part};
use wc_value::ProcessState;
use wc_world::Changes;

/// The checkpoint of a chain that waits for so many calls.
fn waiting(checkpoint: Checkpoint, awaits: Awaits, count: usize) -> Checkpoint
    requires { checkpoint.calls + count ≤ 16000002 }
    ensures { result ≡ record { frames = checkpoint.frames; ctx = checkpoint.ctx; awaiting = awaits; calls = checkpoint.calls + count; outputs = checkpoint.outputs } }
{
    let Checkpoint {
        frames,
        ctx,
        awaiting: _,
        calls,
        outputs,
    } = checkpoint;
    Checkpoint {
        frames,
        ctx,
        awaiting: awaits,
        calls: calls + count as u32,
        outputs,
    }
}

/// The changes of a chain that makes these calls, of which the first node has this number, and waits for them.
pub fn submission(
    alloc: Global,
    caller: Caller<'_>,
    first: u32,
    checkpoint: Checkpoint,
    calls: &Calls,
) -> Result<Changes, AllocError>
    requires depth { caller.process.now.depth ≤ 16 }
    requires few { first + added calls.now ≤ 8000001 }
    requires earlier { checkpoint.calls ≤ 8000001 }
    ensures { IfOk result (λ cs. cs ≡ submission caller.entry first checkpoint calls.now) }
{
    let mut changes = Changes::new(alloc);
    let awaits = put_calls(alloc, caller, first, calls, &mut changes)?;
    changes.push(is_now(
        caller.process,
        ProcessState::Waiting,
        caller.process.fuel,
        Part::Chain(waiting(checkpoint, awaits, calls.len())),
    ))?;
    Ok(changes)
}
