//! The outlines of work chains.
//!
//! The bound limits how deep blocks and brackets nest and how long a list is.

ghost use Rattle.std.specs.Prelude.{◌≡◌, ◌∷◌, ◌++◌, [], Ok, IfOk};
ghost use Rattle.wc_grammar.specs.Kinds.{W_ELIF};
ghost use Rattle.wc_grammar.specs.Rules.{turns, as_at, many_at};
ghost use Rattle.wc_grammar.specs.Reading.{Gives, expr_at};
ghost use Rattle.wc_reader.specs.Reading.{INSTR, block_at, arm_at, elif_at, otherwise_at, end_if_at, if_at, while_at, status_at, return_at, branch_in as branch_within, branch_at, plain_at, instr_at};

use crate::steps::step;
use std::alloc::Global;
use wc_grammar::kinds::{
    K_NUMBER, S_CLOSE_BRACE, S_OPEN_BRACE, S_SEMI, W_ELIF, W_ELSE, W_IF, W_RETURN, W_STEP, W_WHILE,
};
use wc_grammar::{Fault, expr, number, sign, starts};
use wc_lexer::Spot;
use wc_syntax::{Arm, Arms, Block, Instr, Instrs, Number};

/// A status, where a number stands, and the tokens behind it.
fn status(tokens: &[Spot]) -> Result<(Option<Number>, &[Spot]), Fault>
    ensures { Gives (λ x. (x.0, x.1.now)) result (status_at tokens.now) }
{
    if !starts(tokens, &[K_NUMBER]) {
        return Ok((None, tokens));
    }
    let (status, rest) = number(tokens)?;
    Ok((Some(status), rest))
}

/// A `return`, and the tokens behind it.
fn return_instr(tokens: &[Spot]) -> Result<(Instr, &[Spot]), Fault>
    ensures { Gives (λ x. (x.0, x.1.now)) result (return_at tokens.now) }
{
    let (at, rest) = sign(tokens, W_RETURN)?;
    let (status, rest) = status(rest)?;
    let (_, rest) = sign(rest, S_SEMI)?;
    Ok((Instr::Return(at, status), rest))
}

/// A step or a `return`, and the tokens behind it.
fn plain(alloc: Global, tokens: &[Spot], bound: usize) -> Result<(Instr, &[Spot]), Fault>
    ensures { Gives (λ x. (x.0, x.1.now)) result (plain_at bound (expr_at bound) tokens.now) }
{
    if starts(tokens, &[W_STEP]) {
        let (step, rest) = step(alloc, tokens, bound)?;
        return Ok((Instr::Step(step), rest));
    }
    return_instr(tokens)
}

/// An instruction, and the tokens behind it.
#[cycle(instr)]
#[tactic(auto, using(crate::proofs::Bounds::instr_is))]
fn instr(alloc: Global, tokens: &[Spot], bound: usize) -> Result<(Instr, &[Spot]), Fault>
    ensures { Gives (λ x. (x.0, x.1.now)) result (instr_at bound tokens.now) }
{
    if starts(tokens, &[W_IF, W_WHILE]) {
        return branch(alloc, tokens, bound);
    }
    plain(alloc, tokens, bound)
}

/// An `if` or a `while` within so many nestings, and the tokens behind it; at 0 the bound is reached.
#[cycle(instr)]
#[tactic(auto, using(crate::proofs::Bounds::branch_below))]
fn branch(alloc: Global, tokens: &[Spot], bound: usize) -> Result<(Instr, &[Spot]), Fault>
    ensures { Gives (λ x. (x.0, x.1.now)) result (branch_at bound tokens.now) }
{
    if bound == 0 {
        return Err(Fault::BoundReached);
    }
    branch_in(alloc, tokens, bound - 1)
}

/// An `if` or a `while` whose blocks nest at most so deep, and the tokens behind it.
#[cycle(instr)]
fn branch_in(alloc: Global, tokens: &[Spot], bound: usize) -> Result<(Instr, &[Spot]), Fault>
    ensures { Gives (λ x. (x.0, x.1.now)) result (branch_within bound (expr_at bound) (block_at bound (instr_at bound)) tokens.now) }
{
    if starts(tokens, &[W_IF]) {
        return if_instr(alloc, tokens, bound);
    }
    while_instr(alloc, tokens, bound)
}

/// The arms of an `if` that has one.
fn one_arm(alloc: Global, arm: Arm) -> Result<Arms, Fault>
    ensures value { IfOk result (λ arms. arms ≡ arm ∷ []) }
    ensures fault { Gives (λ x. x) result (Ok (arm ∷ [])) }
{
    let mut arms = Arms::new(alloc);
    arms.push(arm)?;
    Ok(arms)
}

/// An `if` with its other arms, and the tokens behind it.
#[cycle(instr)]
fn if_instr(alloc: Global, tokens: &[Spot], bound: usize) -> Result<(Instr, &[Spot]), Fault>
    ensures { Gives (λ x. (x.0, x.1.now)) result (if_at bound (expr_at bound) (block_at bound (instr_at bound)) tokens.now) }
{
    let ((at, first), rest) = arm(alloc, tokens, W_IF, bound)?;
    let arms = one_arm(alloc, first)?;
    let (arms, rest) = elifs(alloc, arms, rest, bound)?;
    end_if(alloc, at, arms, rest, bound)
}

/// The `if` whose arms were read, with its `else` where it has one, and the tokens behind it.
#[cycle(instr)]
fn end_if(
    alloc: Global,
    at: u32,
    arms: Arms,
    tokens: &[Spot],
    bound: usize,
) -> Result<(Instr, &[Spot]), Fault>
    ensures { Gives (λ x. (x.0, x.1.now)) result (end_if_at (block_at bound (instr_at bound)) at arms tokens.now) }
{
    let (other, rest) = otherwise(alloc, tokens, bound)?;
    Ok((Instr::If(at, arms, other), rest))
}

/// A condition with its block behind a word, where it begins, and the tokens behind it.
#[cycle(instr)]
fn arm(
    alloc: Global,
    tokens: &[Spot],
    word: u8,
    bound: usize,
) -> Result<((u32, Arm), &[Spot]), Fault>
    ensures { Gives (λ x. (x.0, x.1.now)) result (arm_at word (expr_at bound) (block_at bound (instr_at bound)) tokens.now) }
{
    let (at, rest) = sign(tokens, word)?;
    let (condition, rest) = expr(alloc, rest, bound)?;
    let (block, rest) = block(alloc, rest, bound)?;
    Ok(((at, Arm { condition, block }), rest))
}

/// The arms of an `if` with those that `elif` adds, and the tokens behind them.
#[cycle(instr)]
#[tactic(auto, using(crate::proofs::Bounds::turns_at))]
fn elifs(
    alloc: Global,
    first: Arms,
    tokens: &[Spot],
    bound: usize,
) -> Result<(Arms, &[Spot]), Fault>
    ensures { Gives (λ x. (x.0, x.1.now)) result (turns bound (W_ELIF ∷ []) (elif_at (expr_at bound) (block_at bound (instr_at bound))) first tokens.now) }
{
    let mut found = first;
    let mut rest = tokens;
    for _turn in 0..bound {
        if !starts(rest, &[W_ELIF]) {
            return Ok((found, rest));
        }
        let (more, next) = next_elif(alloc, found, rest, bound)?;
        found = more;
        rest = next;
    }
    if starts(rest, &[W_ELIF]) {
        return Err(Fault::BoundReached);
    }
    Ok((found, rest))
}

/// The arms that were found with one more, and the tokens behind it.
#[cycle(instr)]
fn next_elif(
    alloc: Global,
    found: Arms,
    tokens: &[Spot],
    bound: usize,
) -> Result<(Arms, &[Spot]), Fault>
    ensures { Gives (λ x. (x.0, x.1.now)) result (elif_at (expr_at bound) (block_at bound (instr_at bound)) found tokens.now) }
{
    let ((_, arm), rest) = arm(alloc, tokens, W_ELIF, bound)?;
    let mut found = found;
    found.push(arm)?;
    Ok((found, rest))
}

/// The block of an `else`, where there is one, and the tokens behind it.
#[cycle(instr)]
fn otherwise(
    alloc: Global,
    tokens: &[Spot],
    bound: usize,
) -> Result<(Option<Block>, &[Spot]), Fault>
    ensures { Gives (λ x. (x.0, x.1.now)) result (otherwise_at (block_at bound (instr_at bound)) tokens.now) }
{
    if !starts(tokens, &[W_ELSE]) {
        return Ok((None, tokens));
    }
    let (_, rest) = sign(tokens, W_ELSE)?;
    let (block, rest) = block(alloc, rest, bound)?;
    Ok((Some(block), rest))
}

/// A `while`, and the tokens behind it.
#[cycle(instr)]
fn while_instr(alloc: Global, tokens: &[Spot], bound: usize) -> Result<(Instr, &[Spot]), Fault>
    ensures { Gives (λ x. (x.0, x.1.now)) result (while_at (expr_at bound) (block_at bound (instr_at bound)) tokens.now) }
{
    let (at, rest) = sign(tokens, W_WHILE)?;
    let (condition, rest) = expr(alloc, rest, bound)?;
    let (block, rest) = block(alloc, rest, bound)?;
    Ok((Instr::While(at, condition, block), rest))
}

/// A block in braces, and the tokens behind it.
#[cycle(instr)]
fn block(alloc: Global, tokens: &[Spot], bound: usize) -> Result<(Block, &[Spot]), Fault>
    ensures { Gives (λ x. (x.0, x.1.now)) result (block_at bound (instr_at bound) tokens.now) }
{
    let (_, rest) = sign(tokens, S_OPEN_BRACE)?;
    let (instrs, rest) = instrs(alloc, rest, bound)?;
    let (_, rest) = sign(rest, S_CLOSE_BRACE)?;
    Ok((Block { instrs }, rest))
}

/// The instructions that come next, and the tokens after them.
#[cycle(instr)]
#[tactic(auto, using(crate::proofs::Bounds::turns_at))]
pub fn instrs(alloc: Global, tokens: &[Spot], bound: usize) -> Result<(Instrs, &[Spot]), Fault>
    ensures { Gives (λ x. (x.0, x.1.now)) result (many_at bound INSTR (instr_at bound) tokens.now) }
{
    let mut found = Instrs::new(alloc);
    let mut rest = tokens;
    for _turn in 0..bound {
        if !starts(rest, &[W_IF, W_WHILE, W_STEP, W_RETURN]) {
            return Ok((found, rest));
        }
        let (more, next) = next_instr(alloc, found, rest, bound)?;
        found = more;
        rest = next;
    }
    if starts(rest, &[W_IF, W_WHILE, W_STEP, W_RETURN]) {
        return Err(Fault::BoundReached);
    }
    Ok((found, rest))
}

/// The instructions that were found with one more, and the tokens behind it.
#[cycle(instr)]
fn next_instr(
    alloc: Global,
    found: Instrs,
    tokens: &[Spot],
    bound: usize,
) -> Result<(Instrs, &[Spot]), Fault>
    ensures { Gives (λ x. (x.0, x.1.now)) result (as_at (instr_at bound) (λ x. found ++ x ∷ []) tokens.now) }
{
    let (instr, rest) = instr(alloc, tokens, bound)?;
    let mut found = found;
    found.push(instr)?;
    Ok((found, rest))
}
