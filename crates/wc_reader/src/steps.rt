//! The steps of work chains.

ghost use Rattle.std.specs.Prelude.{◌≡◌, ◌∷◌, ◌++◌, []};
ghost use Rattle.wc_grammar.specs.Kinds.{K_NAME, S_COMMA};
ghost use Rattle.wc_grammar.specs.Rules.{turns, as_at, many_at, next_at, between_at};
ghost use Rattle.wc_grammar.specs.Reading.{Gives, expr_at};
ghost use Rattle.wc_reader.specs.Reading.{STMT, arg_at, target_at, call_at, assign_at, stmt_at, step_at};

use crate::rules::{exit, set};
use std::alloc::Global;
use wc_grammar::kinds::{
    K_NAME, S_CLOSE, S_CLOSE_BRACE, S_COLON, S_COMMA, S_IS, S_OPEN, S_OPEN_BRACE, S_SEMI, W_APPEND,
    W_CALL, W_CTX, W_EXIT, W_OUT, W_STEP, W_TO,
};
use wc_grammar::{Fault, closed, expr, member, name, pick, sign, starts};
use wc_lexer::Spot;
use wc_syntax::{CallArg, CallArgs, CallStmt, Name, Step, Stmt, Stmts};

/// An argument of a call, and the tokens behind it.
fn arg(alloc: Global, tokens: &[Spot], bound: usize) -> Result<(CallArg, &[Spot]), Fault>
    ensures { Gives (λ x. (x.0, x.1.now)) result (arg_at (expr_at bound) tokens.now) }
{
    let (port, rest) = name(tokens)?;
    let (_, rest) = sign(rest, S_COLON)?;
    let (value, rest) = expr(alloc, rest, bound)?;
    Ok((CallArg { port, value }, rest))
}

/// Arguments between commas, perhaps none, and the tokens behind them.
fn some_args(alloc: Global, tokens: &[Spot], bound: usize) -> Result<(CallArgs, &[Spot]), Fault>
    ensures { Gives (λ x. (x.0, x.1.now)) result (between_at bound S_COMMA (K_NAME ∷ []) (arg_at (expr_at bound)) tokens.now) }
{
    let mut found = CallArgs::new(alloc);
    if !starts(tokens, &[K_NAME]) {
        return Ok((found, tokens));
    }
    let (arg, rest) = arg(alloc, tokens, bound)?;
    found.push(arg)?;
    more_args(alloc, found, rest, bound)
}

/// The arguments that were found with those behind further commas, and the tokens behind them.
#[tactic(auto, using(crate::proofs::Bounds::turns_at))]
fn more_args(
    alloc: Global,
    first: CallArgs,
    tokens: &[Spot],
    bound: usize,
) -> Result<(CallArgs, &[Spot]), Fault>
    ensures { Gives (λ x. (x.0, x.1.now)) result (turns bound (S_COMMA ∷ []) (next_at S_COMMA (arg_at (expr_at bound))) first tokens.now) }
{
    let mut found = first;
    let mut rest = tokens;
    for _turn in 0..bound {
        if !starts(rest, &[S_COMMA]) {
            return Ok((found, rest));
        }
        let (more, next) = next_arg(alloc, found, rest, bound)?;
        found = more;
        rest = next;
    }
    if starts(rest, &[S_COMMA]) {
        return Err(Fault::BoundReached);
    }
    Ok((found, rest))
}

/// The arguments that were found with the one behind a comma, and the tokens behind it.
fn next_arg(
    alloc: Global,
    found: CallArgs,
    tokens: &[Spot],
    bound: usize,
) -> Result<(CallArgs, &[Spot]), Fault>
    ensures { Gives (λ x. (x.0, x.1.now)) result (next_at S_COMMA (arg_at (expr_at bound)) found tokens.now) }
{
    let (_, rest) = sign(tokens, S_COMMA)?;
    let (arg, rest) = arg(alloc, rest, bound)?;
    let mut found = found;
    found.push(arg)?;
    Ok((found, rest))
}

/// Where a call's process is kept: whether it is appended and under which key, and the tokens behind it.
fn target(tokens: &[Spot]) -> Result<((bool, Name), &[Spot]), Fault>
    ensures { Gives (λ x. (x.0, x.1.now)) result (target_at tokens.now) }
{
    let ((append, _), rest) = pick(tokens, &[(W_TO, false), (W_APPEND, true)])?;
    let ((_, key), rest) = member(rest, W_CTX)?;
    let (_, rest) = sign(rest, S_SEMI)?;
    Ok(((append, key), rest))
}

/// A call with its arguments and its target, and the tokens behind it.
fn call(alloc: Global, tokens: &[Spot], bound: usize) -> Result<(CallStmt, &[Spot]), Fault>
    ensures { Gives (λ x. (x.0, x.1.now)) result (call_at bound (expr_at bound) tokens.now) }
{
    let (at, rest) = sign(tokens, W_CALL)?;
    let (callee, rest) = name(rest)?;
    let (_, rest) = sign(rest, S_OPEN)?;
    let (args, rest) = some_args(alloc, rest, bound)?;
    let (_, rest) = sign(rest, S_CLOSE)?;
    let ((append, key), rest) = target(rest)?;
    let call = CallStmt {
        at,
        callee,
        args,
        append,
        key,
    };
    Ok((call, rest))
}

/// A statement that sets a key of the context, and the tokens behind it.
fn assign(alloc: Global, tokens: &[Spot], bound: usize) -> Result<(Stmt, &[Spot]), Fault>
    ensures { Gives (λ x. (x.0, x.1.now)) result (assign_at (expr_at bound) tokens.now) }
{
    let ((at, key), rest) = member(tokens, W_CTX)?;
    let (_, rest) = sign(rest, S_IS)?;
    let (value, rest) = expr(alloc, rest, bound)?;
    let ((value, _), rest) = closed(value, rest, S_SEMI)?;
    Ok((Stmt::Ctx(at, key, value), rest))
}

/// A statement, and the tokens behind it.
fn stmt(alloc: Global, tokens: &[Spot], bound: usize) -> Result<(Stmt, &[Spot]), Fault>
    ensures { Gives (λ x. (x.0, x.1.now)) result (stmt_at bound (expr_at bound) tokens.now) }
{
    if starts(tokens, &[W_CTX]) {
        return assign(alloc, tokens, bound);
    }
    if starts(tokens, &[W_OUT]) {
        let ((at, name, value), rest) = set(alloc, tokens, W_OUT, bound)?;
        return Ok((Stmt::Out(at, name, value), rest));
    }
    if starts(tokens, &[W_EXIT]) {
        let (exit, rest) = exit(alloc, tokens, bound)?;
        return Ok((Stmt::Exit(exit), rest));
    }
    let (call, rest) = call(alloc, tokens, bound)?;
    Ok((Stmt::Call(call), rest))
}

/// The statements of a step, as many as there are, and the tokens behind them.
#[tactic(auto, using(crate::proofs::Bounds::turns_at))]
fn stmts(alloc: Global, tokens: &[Spot], bound: usize) -> Result<(Stmts, &[Spot]), Fault>
    ensures { Gives (λ x. (x.0, x.1.now)) result (many_at bound STMT (stmt_at bound (expr_at bound)) tokens.now) }
{
    let mut found = Stmts::new(alloc);
    let mut rest = tokens;
    for _turn in 0..bound {
        if !starts(rest, &[W_CTX, W_OUT, W_EXIT, W_CALL]) {
            return Ok((found, rest));
        }
        let (more, next) = next_stmt(alloc, found, rest, bound)?;
        found = more;
        rest = next;
    }
    if starts(rest, &[W_CTX, W_OUT, W_EXIT, W_CALL]) {
        return Err(Fault::BoundReached);
    }
    Ok((found, rest))
}

/// The statements that were found with one more, and the tokens behind it.
fn next_stmt(
    alloc: Global,
    found: Stmts,
    tokens: &[Spot],
    bound: usize,
) -> Result<(Stmts, &[Spot]), Fault>
    ensures { Gives (λ x. (x.0, x.1.now)) result (as_at (stmt_at bound (expr_at bound)) (λ x. found ++ x ∷ []) tokens.now) }
{
    let (stmt, rest) = stmt(alloc, tokens, bound)?;
    let mut found = found;
    found.push(stmt)?;
    Ok((found, rest))
}

/// The step that comes next, and the tokens after it.
pub fn step(alloc: Global, tokens: &[Spot], bound: usize) -> Result<(Step, &[Spot]), Fault>
    ensures { Gives (λ x. (x.0, x.1.now)) result (step_at bound (expr_at bound) tokens.now) }
{
    let (at, rest) = sign(tokens, W_STEP)?;
    let (name, rest) = name(rest)?;
    let (_, rest) = sign(rest, S_OPEN_BRACE)?;
    let (stmts, rest) = stmts(alloc, rest, bound)?;
    let (_, rest) = sign(rest, S_CLOSE_BRACE)?;
    Ok((Step { at, name, stmts }, rest))
}
