//! What the next instruction of a work chain reads of its context.

ghost use Rattle.std.specs.Prelude.{◌≡◌, IfOk, IsSome, OnOk, if◌then◌else◌};
ghost use Rattle.wc_state.specs.Context.{with_set};
ghost use Rattle.wc_syntax.specs.Findings.{definition_named};
ghost use Rattle.wc_outline.specs.Keys.{instr_mentions, mentions_key};
ghost use Rattle.wc_outline.specs.Places.{chain_of};
ghost use Rattle.wc_outline.specs.Reads.{context_read, mentioned_of, IsRead};

use crate::advances::the_chain;
use crate::blocks::put_block;
use crate::frames::place_of;
use crate::keys::instr_mentions_key;
use std::alloc::{AllocError, Global};
use wc_state::{Checkpoint, Context, CtxRef};
use wc_syntax::{Chain, Checked, Instr, find_definition};
use wc_value::{Duplicate, List, Text};

/// Adds a key with what it holds, if the instruction mentions it.
fn read_one(read: &mut Context, instr: &Instr, key: &Text, held: &CtxRef) -> Result<(), AllocError>
    ensures { OnOk result (read.new ≡ (if mentions_key key.now (instr_mentions instr.now) then with_set read.old key.now held.now else read.old)) }
{
    if instr_mentions_key(instr, key) {
        let _before = read.set(key.copy()?, held.clone()?)?;
    }
    Ok(())
}

/// The keys that an instruction mentions, with what they hold.
fn mentioned_of(alloc: Global, instr: &Instr, ctx: &Context) -> Result<Context, AllocError>
    ensures { IfOk result (λ read. read ≡ mentioned_of (instr_mentions instr.now) ctx.now) }
{
    let mut read = Context::new(alloc);
    for at in 0..ctx.len() {
        let (key, held) = ctx.get(at).unwrap();
        read_one(&mut read, instr, key, held)?;
    }
    Ok(read)
}

/// The keys of a checkpoint's context that the instruction mentions which comes next in a work chain, with what they hold.
fn read_by(alloc: Global, chain: &Chain, checkpoint: &Checkpoint) -> Result<Context, AllocError>
    ensures { IfOk result (λ read. read ≡ context_read chain.now checkpoint.now) }
{
    let mut blocks = List::new(alloc);
    put_block(&mut blocks, &chain.outline)?;
    match place_of(&blocks, checkpoint.frames.as_slice()) {
        Some(place) => mentioned_of(alloc, place.instr, &checkpoint.ctx),
        None => Ok(Context::new(alloc)),
    }
}

/// The keys of a checkpoint's context that the instruction mentions which comes next, with what they hold: all that an advance
/// from there reads of its context.
pub fn context_read(
    alloc: Global,
    library: &Checked,
    name: &Text,
    checkpoint: &Checkpoint,
) -> Result<Context, AllocError>
    // The name is a work chain.
    requires { IsSome (chain_of (definition_named name.now library.now)) }
    ensures { IfOk result (IsRead library.now name.now checkpoint.now) }
{
    let chain = the_chain(find_definition(library.library(), name));
    read_by(alloc, chain, checkpoint)
}
