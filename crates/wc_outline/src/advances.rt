//! One advance of a work chain.

ghost use Rattle.std.specs.Prelude.{◌≡◌, IfOk, IsSome, Some, option_map};
ghost use Rattle.std.specs.Option.{option_copied};
ghost use Rattle.wc_syntax.specs.Findings.{definition_named};
ghost use Rattle.wc_syntax.specs.declared.definition.Chain.{Chain};
ghost use Rattle.wc_state.specs.declared.record.Checkpoint.{Checkpoint};
ghost use Rattle.wc_machine.specs.Advances.{advance};
ghost use Rattle.wc_outline.specs.Onward.{EndsAlike};
ghost use Rattle.wc_outline.specs.Places.{chain_of};
ghost use Rattle.wc_outline.specs.Shown.{shown};
ghost use Rattle.wc_outline.specs.Statements.{answered, IsUnnoted};

use crate::answer::{Next, answer};
use crate::blocks::put_block;
use crate::calls::{Advanced, Calls};
use crate::frames::place_of;
use crate::instructions::advance_at;
use crate::statements::{Noted, Scene};
use std::alloc::{AllocError, Global};
use wc_state::{Checkpoint, Env, Frame};
use wc_syntax::{Chain, Checked, Definition, Library, find_definition};
use wc_value::{List, ProcessState, Text};

/// The work chain that a definition is.
pub(crate) fn the_chain<'a>(definition: Option<&'a Definition>) -> &'a Chain
    requires { IsSome (chain_of (option_copied definition)) }
    ensures { chain_of (option_copied definition.entry) ≡ Some result.now }
{
    match definition {
        Some(Definition::Chain(chain)) => chain,
        _ => unreachable!(),
    }
}

/// Evaluates the instruction that comes next in a work chain with these frames; at the end of its outline it ends with 0.
fn next_of(
    alloc: Global,
    scene: Scene<'_>,
    frames: &[Frame],
    noted: &mut Noted,
) -> Result<Next, AllocError>
    ensures { IfOk result (λ next. (c : Checkpoint) → IsUnnoted scene.entry c noted.old → frames.now ≡ c.frames → answered c.awaiting c.calls next noted.new ≡ shown (advance scene.entry.library.now scene.entry.chain.now scene.entry.depth noted.old.env c)) }
{
    let mut blocks = List::new(alloc);
    put_block(&mut blocks, &scene.chain.outline)?;
    match place_of(&blocks, frames) {
        Some(place) => advance_at(alloc, scene, place, noted),
        None => Ok(Next::Ends(ProcessState::Finished(0))),
    }
}

/// One advance of a work chain that is there. The context that is handed over goes into the answer.
fn advance_chain(
    alloc: Global,
    library: &Library,
    chain: &Chain,
    depth: u32,
    checkpoint: Checkpoint,
    env: Env,
) -> Result<Advanced, AllocError>
    ensures { IfOk result (λ a. a ≡ shown (advance library.now chain.now depth env checkpoint)) }
{
    let Checkpoint {
        frames,
        ctx,
        awaiting,
        calls,
        outputs,
    } = checkpoint;
    let scene = Scene {
        library,
        chain,
        depth,
        calls,
    };
    let mut noted = Noted {
        env,
        ctx,
        outputs,
        calls: Calls::new(alloc),
    };
    let next = next_of(alloc, scene, frames.as_slice(), &mut noted)?;
    Ok(answer(next, awaiting, calls, noted))
}

/// One advance of a work chain from a checkpoint, in an environment: frames at their block's end are left, and the one
/// instruction that comes next is evaluated. Both are handed over, and no context is copied. On want of memory they are lost.
pub fn advance(
    alloc: Global,
    library: &Checked,
    name: &Text,
    depth: u32,
    checkpoint: Checkpoint,
    env: Env,
) -> Result<Advanced, AllocError>
    // The name is a work chain.
    requires { IsSome (chain_of (definition_named name.now library.now)) }
    ensures exact { IfOk result (λ a. option_map (λ k. shown (advance library.now k depth env checkpoint)) (chain_of (definition_named name.now library.now)) ≡ Some a) }
    ensures onward { IfOk result (λ a. (k : Chain) → chain_of (definition_named name.now library.now) ≡ Some k → EndsAlike library.now k depth env checkpoint a) }
{
    let library = library.library();
    let chain = the_chain(find_definition(library, name));
    advance_chain(alloc, library, chain, depth, checkpoint, env)
}
