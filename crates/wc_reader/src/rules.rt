//! The rules of functions and jobs.

ghost use Rattle.std.specs.Prelude.{◌≡◌, ◌∷◌, ◌++◌, []};
ghost use Rattle.wc_grammar.specs.Rules.{as_at, many_at};
ghost use Rattle.wc_grammar.specs.Reading.{Gives, expr_at};
ghost use Rattle.wc_reader.specs.Reading.{RULE, condition_at, exit_at, set_at, rule_at};

use std::alloc::Global;
use wc_grammar::kinds::{S_IS, S_SEMI, W_EXIT, W_IF, W_LET, W_OUT};
use wc_grammar::{Fault, closed, expr, name, number, sign, starts};
use wc_lexer::Spot;
use wc_syntax::{Exit, Expr, Name, Rule, RuleList};

/// The condition behind an `if`, where there is one, and the tokens behind it.
fn condition(alloc: Global, tokens: &[Spot], bound: usize) -> Result<(Option<Expr>, &[Spot]), Fault>
    ensures { Gives (λ x. (x.0, x.1.now)) result (condition_at (expr_at bound) tokens.now) }
{
    if !starts(tokens, &[W_IF]) {
        return Ok((None, tokens));
    }
    let (_, rest) = sign(tokens, W_IF)?;
    let (condition, rest) = expr(alloc, rest, bound)?;
    Ok((Some(condition), rest))
}

/// The `exit` line that comes next, and the tokens after it.
pub fn exit(alloc: Global, tokens: &[Spot], bound: usize) -> Result<(Exit, &[Spot]), Fault>
    ensures { Gives (λ x. (x.0, x.1.now)) result (exit_at (expr_at bound) tokens.now) }
{
    let (at, rest) = sign(tokens, W_EXIT)?;
    let (status, rest) = number(rest)?;
    let (condition, rest) = condition(alloc, rest, bound)?;
    let ((condition, _), rest) = closed(condition, rest, S_SEMI)?;
    let exit = Exit {
        at,
        status,
        condition,
    };
    Ok((exit, rest))
}

/// What a line of this word sets: the offset of the word, the name and the expression. With the tokens after it.
pub fn set(
    alloc: Global,
    tokens: &[Spot],
    word: u8,
    bound: usize,
) -> Result<((u32, Name, Expr), &[Spot]), Fault>
    ensures { Gives (λ x. (x.0, x.1.now)) result (set_at word (expr_at bound) tokens.now) }
{
    let (at, rest) = sign(tokens, word)?;
    let (name, rest) = name(rest)?;
    let (_, rest) = sign(rest, S_IS)?;
    let (value, rest) = expr(alloc, rest, bound)?;
    let ((value, _), rest) = closed(value, rest, S_SEMI)?;
    Ok(((at, name, value), rest))
}

/// A rule, and the tokens behind it.
fn rule(alloc: Global, tokens: &[Spot], bound: usize) -> Result<(Rule, &[Spot]), Fault>
    ensures { Gives (λ x. (x.0, x.1.now)) result (rule_at (expr_at bound) tokens.now) }
{
    if starts(tokens, &[W_LET]) {
        let ((at, name, value), rest) = set(alloc, tokens, W_LET, bound)?;
        return Ok((Rule::Let(at, name, value), rest));
    }
    if starts(tokens, &[W_OUT]) {
        let ((at, name, value), rest) = set(alloc, tokens, W_OUT, bound)?;
        return Ok((Rule::Out(at, name, value), rest));
    }
    let (exit, rest) = exit(alloc, tokens, bound)?;
    Ok((Rule::Exit(exit), rest))
}

/// The rules that come next, and the tokens after them.
#[tactic(auto, using(crate::proofs::Bounds::turns_at))]
pub fn rules(alloc: Global, tokens: &[Spot], bound: usize) -> Result<(RuleList, &[Spot]), Fault>
    ensures { Gives (λ x. (x.0, x.1.now)) result (many_at bound RULE (rule_at (expr_at bound)) tokens.now) }
{
    let mut found = RuleList::new(alloc);
    let mut rest = tokens;
    for _turn in 0..bound {
        if !starts(rest, &[W_LET, W_OUT, W_EXIT]) {
            return Ok((found, rest));
        }
        let (more, next) = next_rule(alloc, found, rest, bound)?;
        found = more;
        rest = next;
    }
    if starts(rest, &[W_LET, W_OUT, W_EXIT]) {
        return Err(Fault::BoundReached);
    }
    Ok((found, rest))
}

/// The rules that were found with one more, and the tokens behind it.
fn next_rule(
    alloc: Global,
    found: RuleList,
    tokens: &[Spot],
    bound: usize,
) -> Result<(RuleList, &[Spot]), Fault>
    ensures { Gives (λ x. (x.0, x.1.now)) result (as_at (rule_at (expr_at bound)) (λ x. found ++ x ∷ []) tokens.now) }
{
    let (rule, rest) = rule(alloc, tokens, bound)?;
    let mut found = found;
    found.push(rule)?;
    Ok((found, rest))
}
