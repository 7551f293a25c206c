//! Binding of the children that a work chain awaited.

ghost use Rattle.std.specs.Prelude.{◌≡◌, true, IfOk, OnOk};
ghost use Rattle.wc_state.specs.Context.{found_at, with_set};
ghost use Rattle.wc_state.specs.declared.context.CtxRef.TheVariants.{Many};
ghost use Rattle.wc_machine.specs.Calls.{joined, bound, bound_in};
ghost use Rattle.wc_outline.specs.Binding.{with_last};

use std::alloc::{AllocError, Global};
use wc_state::{Await, Awaits, Checkpoint, Context, CtxRef, Ids};
use wc_value::{Duplicate, Text, same_text};

/// A key, and the children that it is to hold. They stand apart from the context while children are bound, so that
/// further ones join them without a copy.
#[derive(Drop)]
pub struct Joining {
    /// The key.
    pub key: Text,
    /// The children, in order of submission.
    pub pids: Ids,
}

/// The children that a key holds with a further one.
fn join(alloc: Global, ctx: &Context, awaited: &Await) -> Result<Joining, AllocError>
    ensures key { IfOk result (λ j. j.key ≡ awaited.now.key) }
    ensures children { IfOk result (λ j. Many j.pids ≡ joined true (found_at ctx.now awaited.now.key) awaited.now.pid) }
{
    let mut pids = match ctx.find(&awaited.key) {
        Some(CtxRef::Many(pids)) => pids.copy()?,
        _ => Ids::new(alloc),
    };
    pids.push(awaited.pid)?;
    let key = awaited.key.copy()?;
    Ok(Joining { key, pids })
}

/// Puts children that stand apart into the context.
fn put(ctx: &mut Context, joining: Joining) -> Result<(), AllocError>
    ensures { OnOk result (ctx.new ≡ with_set ctx.old joining.key (Many joining.pids)) }
{
    let _before = ctx.set(joining.key, CtxRef::Many(joining.pids))?;
    Ok(())
}

/// Binds a child while none stand apart. Those of its key stand apart then, if it joins them.
fn bind_alone(
    alloc: Global,
    ctx: &mut Context,
    awaited: &Await,
) -> Result<Option<Joining>, AllocError>
    ensures { IfOk result (λ next. with_last ctx.new next ≡ with_set ctx.old awaited.now.key (joined awaited.now.append (found_at ctx.old awaited.now.key) awaited.now.pid)) }
{
    if awaited.append {
        return Ok(Some(join(alloc, ctx, awaited)?));
    }
    let _before = ctx.set(awaited.key.copy()?, CtxRef::One(awaited.pid))?;
    Ok(None)
}

/// Binds a child while these stand apart, and gives those that stand apart then.
fn bind_one(
    alloc: Global,
    ctx: &mut Context,
    last: Option<Joining>,
    awaited: &Await,
) -> Result<Option<Joining>, AllocError>
    ensures { IfOk result (λ next. with_last ctx.new next ≡ with_set (with_last ctx.old last) awaited.now.key (joined awaited.now.append (found_at (with_last ctx.old last) awaited.now.key) awaited.now.pid)) }
{
    let mut joining = match last {
        Some(joining) => joining,
        None => return bind_alone(alloc, ctx, awaited),
    };
    if awaited.append && same_text(&joining.key, &awaited.key) {
        joining.pids.push(awaited.pid)?;
        return Ok(Some(joining));
    }
    put(ctx, joining)?;
    bind_alone(alloc, ctx, awaited)
}

/// Binds the children, in order, and gives those that stand apart then.
fn bind_all(
    alloc: Global,
    ctx: &mut Context,
    awaiting: &Awaits,
) -> Result<Option<Joining>, AllocError>
    ensures { IfOk result (λ next. with_last ctx.new next ≡ bound_in ctx.old awaiting.now) }
{
    let mut last = None;
    for awaited in awaiting.as_slice() {
        last = bind_one(alloc, ctx, last, awaited)?;
    }
    Ok(last)
}

/// Moves the awaited children into the context, in order of submission. On want of memory the checkpoint is lost.
pub fn bind(alloc: Global, checkpoint: Checkpoint) -> Result<Checkpoint, AllocError>
    ensures { IfOk result (λ c. c ≡ bound checkpoint) }
{
    let Checkpoint {
        frames,
        ctx,
        awaiting,
        calls,
        outputs,
    } = checkpoint;
    let mut ctx = ctx;
    if let Some(joining) = bind_all(alloc, &mut ctx, &awaiting)? {
        put(&mut ctx, joining)?;
    }
    Ok(Checkpoint {
        frames,
        ctx,
        awaiting: Awaits::new(alloc),
        calls,
        outputs,
    })
}
