//! What the instruction does that comes next.

ghost use Rattle.std.specs.Prelude.{◌≡◌, ◌+◌, ◌^◌, ◌<◌, ◌∷◌, ℕ, List, length, reverse, suc, IfOk};
ghost use Rattle.wc_syntax.specs.declared.outline.Instr.{out-Instr};
ghost use Rattle.wc_state.specs.declared.record.Await.{Await};
ghost use Rattle.wc_state.specs.declared.record.Checkpoint.{Checkpoint};
ghost use Rattle.wc_expression.specs.Val.{holds};
ghost use Rattle.wc_semantics.specs.Run.{returned};
ghost use Rattle.wc_machine.specs.Advances.{past, at_head, done};
ghost use Rattle.wc_machine.specs.Outlines.{Blocks, blocks_in};
ghost use Rattle.wc_outline.specs.Places.{first_number, front_of, picked_from, if_blocks, Fit};
ghost use Rattle.wc_outline.specs.Shown.{shown};
ghost use Rattle.wc_outline.specs.Statements.{chosen_next, turned_next, statements_in, came_to, answered, IsUnnoted};

use crate::answer::Next;
use crate::blocks::{number_behind, put_block, put_blocks};
use crate::frames::Place;
use crate::statements::{Noted, Scene, run_statements};
use std::alloc::{AllocError, Global};
use wc_expression::{Outcome, eval_condition};
use wc_state::{Env, Frame, Frames};
use wc_syntax::{Arms, Block, Expr, Instr, Instrs, Number, Step};
use wc_value::{List, ProcessState};

/// The frame with the next instruction.
fn past(frame: Frame) -> Frame
    requires { frame.next < 0xffffffff }
    ensures { result ≡ past frame }
{
    Frame {
        block: frame.block,
        next: frame.next + 1,
    }
}

/// These frames, the outermost first, with one inside them.
fn frames_on(alloc: Global, outer: &[Frame], frame: Frame) -> Result<Frames, AllocError>
    ensures { IfOk result (λ frames. frames ≡ reverse (frame ∷ reverse outer.now)) }
{
    let mut frames = Frames::new(alloc);
    frames.extend(outer)?;
    frames.push(frame)?;
    Ok(frames)
}

/// The frames at the head of a block that is entered from a frame.
fn frames_in(alloc: Global, outer: &[Frame], frame: Frame, block: u32) -> Result<Frames, AllocError>
    ensures { IfOk result (λ frames. frames ≡ reverse (at_head block ∷ (frame ∷ reverse outer.now))) }
{
    let mut frames = frames_on(alloc, outer, frame)?;
    frames.push(Frame { block, next: 0 })?;
    Ok(frames)
}

/// The number of a block that is entered behind these.
fn entered(frame: Frame, passed: &[&Instrs]) -> Outcome<Option<u32>>
    requires { suc frame.block + length passed.now < 2 ^ 32 }
    ensures { result ≡ Outcome.Gives (Some (suc frame.block + length passed.now)) }
{
    Outcome::Gives(Some(number_behind(frame, passed)))
}

/// The number of the block behind the first true condition, or that of the `else`, if there is one.
fn pick(
    alloc: Global,
    place: Place<'_>,
    arms: &Arms,
    other: &Option<Block>,
    env: &Env,
) -> Result<Outcome<Option<u32>>, AllocError>
    requires { Fit (first_number place.frame place.front.now) (length (if_blocks arms.now other.now)) }
    ensures { IfOk result (λ o. o ≡ picked_from (first_number place.entry.frame place.entry.front.now) arms.now other.now env.now) }
{
    let mut passed = List::new(alloc);
    put_blocks(&mut passed, place.front)?;
    for arm in arms.as_slice() {
        match eval_condition(alloc, &arm.condition, env)? {
            Outcome::Gives(true) => return Ok(entered(place.frame, passed.as_slice())),
            Outcome::Gives(false) => put_block(&mut passed, &arm.block)?,
            Outcome::Faults(reason) => return Ok(Outcome::Faults(reason)),
        }
    }
    match other {
        Some(_) => Ok(entered(place.frame, passed.as_slice())),
        None => Ok(Outcome::Gives(None)),
    }
}

/// An `if` moves past itself, and enters the block of the first true condition, or that of the `else`, or none.
fn advance_if(
    alloc: Global,
    place: Place<'_>,
    arms: &Arms,
    other: &Option<Block>,
    env: &Env,
) -> Result<Next, AllocError>
    requires next { place.frame.next < 0xffffffff }
    requires numbers { Fit (first_number place.frame place.front.now) (length (if_blocks arms.now other.now)) }
    ensures { IfOk result (λ next. next ≡ chosen_next (picked_from (first_number place.entry.frame place.entry.front.now) arms.now other.now env.now) (past place.entry.frame ∷ reverse place.entry.outer.now)) }
{
    match pick(alloc, place, arms, other, env)? {
        Outcome::Gives(Some(block)) => Ok(Next::Goes(frames_in(
            alloc,
            place.outer,
            past(place.frame),
            block,
        )?)),
        Outcome::Gives(None) => Ok(Next::Goes(frames_on(alloc, place.outer, past(place.frame))?)),
        Outcome::Faults(reason) => Ok(Next::Ends(ProcessState::Excepted(reason))),
    }
}

/// The number of the first block inside the instruction that comes next.
fn inner_number(alloc: Global, place: Place<'_>) -> Result<u32, AllocError>
    requires { first_number place.frame place.front.now < 2 ^ 32 }
    ensures { IfOk result (λ n. n ≡ first_number place.entry.frame place.entry.front.now) }
{
    let mut passed = List::new(alloc);
    put_blocks(&mut passed, place.front)?;
    Ok(number_behind(place.frame, passed.as_slice()))
}

/// A `while` whose condition holds enters its body and stays where it is, and else moves past itself.
fn advance_while(
    alloc: Global,
    place: Place<'_>,
    condition: &Expr,
    env: &Env,
) -> Result<Next, AllocError>
    requires next { place.frame.next < 0xffffffff }
    requires number { first_number place.frame place.front.now < 2 ^ 32 }
    ensures { IfOk result (λ next. next ≡ turned_next (holds condition.now env.now) (at_head (first_number place.entry.frame place.entry.front.now) ∷ (place.entry.frame ∷ reverse place.entry.outer.now)) (past place.entry.frame ∷ reverse place.entry.outer.now)) }
{
    match eval_condition(alloc, condition, env)? {
        Outcome::Gives(true) => {
            let block = inner_number(alloc, place)?;
            let frames = frames_in(alloc, place.outer, place.frame, block)?;
            Ok(Next::Loops(frames))
        }
        Outcome::Gives(false) => Ok(Next::Goes(frames_on(alloc, place.outer, past(place.frame))?)),
        Outcome::Faults(reason) => Ok(Next::Ends(ProcessState::Excepted(reason))),
    }
}

/// A step runs its statements in order and moves past itself.
fn advance_step(
    alloc: Global,
    scene: Scene<'_>,
    place: Place<'_>,
    step: &Step,
    noted: &mut Noted,
) -> Result<Next, AllocError>
    requires { place.frame.next < 0xffffffff }
    ensures { IfOk result (λ next. (awaiting : List Await) (calls : ℕ) → answered awaiting calls next noted.new ≡ came_to awaiting calls (reverse (past place.entry.frame ∷ reverse place.entry.outer.now)) (statements_in scene.entry step.now.stmts noted.old)) }
{
    match run_statements(alloc, scene, &step.stmts, noted)? {
        Some(state) => Ok(Next::Ends(state)),
        None => Ok(Next::Goes(frames_on(alloc, place.outer, past(place.frame))?)),
    }
}

/// The status of a `return`.
fn returned(code: &Option<Number>) -> u32
    ensures { result ≡ returned code.now }
{
    match code {
        None => 0,
        Some(number) => {
            if number.value < 0 {
                0
            } else if number.value > 0xffff_ffff {
                u32::MAX
            } else {
                number.value as u32
            }
        }
    }
}

/// Evaluates the instruction that comes next, where nothing is noted yet but what a checkpoint has.
pub fn advance_at(
    alloc: Global,
    scene: Scene<'_>,
    place: Place<'_>,
    noted: &mut Noted,
) -> Result<Next, AllocError>
    requires next { place.frame.next < 0xffffffff }
    requires numbers { Fit (first_number place.frame place.front.now) (length (blocks_in place.instr.now)) }
    ensures { IfOk result (λ next. (c : Checkpoint) (bs : Blocks) → IsUnnoted scene.entry c noted.old → place.entry.front.now ≡ front_of bs place.entry.frame → answered c.awaiting c.calls next noted.new ≡ shown (done scene.entry.library.now scene.entry.chain.now scene.entry.depth noted.old.env c bs (out-Instr place.entry.instr.now) place.entry.frame (reverse place.entry.outer.now))) }
{
    match place.instr {
        Instr::Step(step) => advance_step(alloc, scene, place, step, noted),
        Instr::If(_, arms, other) => advance_if(alloc, place, arms, other, &noted.env),
        Instr::While(_, condition, _) => advance_while(alloc, place, condition, &noted.env),
        Instr::Return(_, code) => Ok(Next::Ends(ProcessState::Finished(returned(code)))),
    }
}
