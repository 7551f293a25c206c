//! The rules of expressions, each read by a function that answers what it read and the tokens after it.
//!
//! The bound limits how deep brackets nest and how long a chain or list is.

ghost use Rattle.std.specs.Prelude.{◌≡◌, ◌∷◌, [], Ok};
ghost use Rattle.wc_grammar.specs.Kinds.{W_CTX, W_INPUTS, S_COMMA};
ghost use Rattle.wc_grammar.specs.Rules.{turns, keys, next_at as next_of, between_at, further_at};
ghost use Rattle.wc_grammar.specs.Grammar.{binary as binary_of};
ghost use Rattle.wc_grammar.specs.Reading.{Gives, EXPR, index_at, some_index_at, child_at, path_at, one_arg_at, two_args_at, brackets_at, listed_at, nested_in, simple_at, compared_at, expr_at, nested_at, indexed_at, primaries_at, unaries_at, sums_at, compares_at};
ghost use Rattle.wc_grammar.specs.Levels.{operators, operand_at, joined_at};
ghost use Rattle.wc_grammar.specs.Pieces.{second_at};

use crate::fault::Fault;
use crate::kinds::{
    K_NAME, K_NUMBER, K_QUOTED, S_CLOSE, S_CLOSE_SQUARE, S_COMMA, S_DOT, S_MINUS, S_OPEN,
    S_OPEN_SQUARE, W_CONTAINS, W_COUNT, W_CTX, W_FALSE, W_FILE, W_GET, W_GIVEN, W_HAS, W_INPUTS,
    W_INT, W_LEN, W_LINE, W_MAX, W_MIN, W_NOT, W_TEXT, W_TRIM, W_TRUE,
};
use crate::operators::{Level, binary, boxed, ended, is_next, one_of, operator, two_of};
use crate::parts::{
    child_part, count, given, input, member, name_alone, number_alone, text_alone, truth,
};
use crate::tokens::{closed, pick, sign, starts};
use std::alloc::Global;
use wc_lexer::Spot;
use wc_syntax::{Expr, Exprs, Form, Name, TwoOf, UnaryOp};
use wc_value::{Boxed, List};

/// What an alternative with expressions in brackets begins with.
const NESTED: [u8; 13] = [
    W_TEXT,
    W_INT,
    W_TRIM,
    W_LEN,
    W_GET,
    W_HAS,
    W_FILE,
    W_LINE,
    W_CONTAINS,
    W_MIN,
    W_MAX,
    S_OPEN,
    S_OPEN_SQUARE,
];

/// What an expression begins with.
const EXPR: [u8; 24] = [
    S_MINUS,
    W_NOT,
    K_NAME,
    K_NUMBER,
    K_QUOTED,
    W_TRUE,
    W_FALSE,
    W_INPUTS,
    W_CTX,
    W_GIVEN,
    W_COUNT,
    W_TEXT,
    W_INT,
    W_TRIM,
    W_LEN,
    W_GET,
    W_HAS,
    W_FILE,
    W_LINE,
    W_CONTAINS,
    W_MIN,
    W_MAX,
    S_OPEN,
    S_OPEN_SQUARE,
];

#[cycle(expr)]
#[tactic(auto, using(crate::proofs::Bounds::indexed_below))]
fn indexed(alloc: Global, tokens: &[Spot], bound: usize) -> Result<(Expr, &[Spot]), Fault>
    ensures { Gives (λ x. (x.0, x.1.now)) result (indexed_at bound tokens.now) }
{
    if bound == 0 {
        return Err(Fault::BoundReached);
    }
    index(alloc, tokens, bound - 1)
}

#[cycle(expr)]
fn index(alloc: Global, tokens: &[Spot], bound: usize) -> Result<(Expr, &[Spot]), Fault>
    ensures { Gives (λ x. (x.0, x.1.now)) result (index_at (expr_at bound) tokens.now) }
{
    let (_, rest) = sign(tokens, S_OPEN_SQUARE)?;
    let (value, rest) = expr(alloc, rest, bound)?;
    let ((value, _), rest) = closed(value, rest, S_CLOSE_SQUARE)?;
    Ok((value, rest))
}

#[cycle(expr)]
fn some_index(
    alloc: Global,
    tokens: &[Spot],
    bound: usize,
) -> Result<(Option<Boxed<Expr>>, &[Spot]), Fault>
    ensures { Gives (λ x. (x.0, x.1.now)) result (some_index_at (indexed_at bound) tokens.now) }
{
    if !starts(tokens, &[S_OPEN_SQUARE]) {
        return Ok((None, tokens));
    }
    let (value, rest) = indexed(alloc, tokens, bound)?;
    Ok((Some(boxed(alloc, value)?), rest))
}

#[cycle(expr)]
fn child(
    alloc: Global,
    at: u32,
    name: Name,
    tokens: &[Spot],
    bound: usize,
) -> Result<(Expr, &[Spot]), Fault>
    ensures { Gives (λ x. (x.0, x.1.now)) result (child_at (indexed_at bound) (at, name) tokens.now) }
{
    let (index, rest) = some_index(alloc, tokens, bound)?;
    child_part(at, name, index, rest)
}

#[cycle(expr)]
fn path(alloc: Global, tokens: &[Spot], bound: usize) -> Result<(Expr, &[Spot]), Fault>
    ensures { Gives (λ x. (x.0, x.1.now)) result (path_at (indexed_at bound) tokens.now) }
{
    let ((at, name), rest) = member(tokens, W_CTX)?;
    if starts(rest, &[S_OPEN_SQUARE, S_DOT]) {
        return child(alloc, at, name, rest, bound);
    }
    let form = Form::Plain(at, name);
    Ok((Expr { at, form }, rest))
}

#[cycle(expr)]
fn one_arg(alloc: Global, tokens: &[Spot], bound: usize) -> Result<(Expr, &[Spot]), Fault>
    ensures { Gives (λ x. (x.0, x.1.now)) result (one_arg_at (expr_at bound) tokens.now) }
{
    let ((op, at), rest) = one_of(tokens)?;
    let (_, rest) = sign(rest, S_OPEN)?;
    let (value, rest) = expr(alloc, rest, bound)?;
    let ((value, _), rest) = closed(value, rest, S_CLOSE)?;
    let form = Form::One(op, boxed(alloc, value)?);
    Ok((Expr { at, form }, rest))
}

#[cycle(expr)]
fn two_args(alloc: Global, tokens: &[Spot], bound: usize) -> Result<(Expr, &[Spot]), Fault>
    ensures { Gives (λ x. (x.0, x.1.now)) result (two_args_at (expr_at bound) tokens.now) }
{
    let ((op, at), rest) = two_of(tokens)?;
    let (_, rest) = sign(rest, S_OPEN)?;
    let (first, rest) = expr(alloc, rest, bound)?;
    let ((first, _), rest) = closed(first, rest, S_COMMA)?;
    let first = boxed(alloc, first)?;
    second(alloc, at, op, first, rest, bound)
}

#[cycle(expr)]
fn second(
    alloc: Global,
    at: u32,
    op: TwoOf,
    first: Boxed<Expr>,
    tokens: &[Spot],
    bound: usize,
) -> Result<(Expr, &[Spot]), Fault>
    ensures { Gives (λ x. (x.0, x.1.now)) result (second_at (expr_at bound) at op first tokens.now) }
{
    let (second, rest) = expr(alloc, tokens, bound)?;
    let ((second, _), rest) = closed(second, rest, S_CLOSE)?;
    let form = Form::Two(op, first, boxed(alloc, second)?);
    Ok((Expr { at, form }, rest))
}

#[cycle(expr)]
fn brackets(alloc: Global, tokens: &[Spot], bound: usize) -> Result<(Expr, &[Spot]), Fault>
    ensures { Gives (λ x. (x.0, x.1.now)) result (brackets_at (expr_at bound) tokens.now) }
{
    let (at, rest) = sign(tokens, S_OPEN)?;
    let (inner, rest) = expr(alloc, rest, bound)?;
    let ((inner, _), rest) = closed(inner, rest, S_CLOSE)?;
    let form = inner.form;
    Ok((Expr { at, form }, rest))
}

#[cycle(expr)]
fn listed(alloc: Global, tokens: &[Spot], bound: usize) -> Result<(Expr, &[Spot]), Fault>
    ensures { Gives (λ x. (x.0, x.1.now)) result (listed_at bound (expr_at bound) tokens.now) }
{
    let (at, rest) = sign(tokens, S_OPEN_SQUARE)?;
    let (items, rest) = items(alloc, rest, bound)?;
    let (_, rest) = sign(rest, S_CLOSE_SQUARE)?;
    let form = Form::List(items);
    Ok((Expr { at, form }, rest))
}

#[cycle(expr)]
fn items(alloc: Global, tokens: &[Spot], bound: usize) -> Result<(Exprs, &[Spot]), Fault>
    ensures { Gives (λ x. (x.0, x.1.now)) result (between_at bound S_COMMA EXPR (expr_at bound) tokens.now) }
{
    let mut found = List::new(alloc);
    if !starts(tokens, &EXPR) {
        return Ok((found, tokens));
    }
    let (first, rest) = expr(alloc, tokens, bound)?;
    found.push(first)?;
    others(alloc, found, rest, bound)
}

#[cycle(expr)]
#[tactic(auto, using(crate::proofs::Bounds::turns_at))]
fn others(
    alloc: Global,
    items: Exprs,
    tokens: &[Spot],
    bound: usize,
) -> Result<(Exprs, &[Spot]), Fault>
    ensures { Gives (λ x. (x.0, x.1.now)) result (turns bound (S_COMMA ∷ []) (next_of S_COMMA (expr_at bound)) items tokens.now) }
{
    let mut found = items;
    let mut rest = tokens;
    for _turn in 0..bound {
        if !starts(rest, &[S_COMMA]) {
            return Ok((found, rest));
        }
        let (more, next) = another(alloc, found, rest, bound)?;
        found = more;
        rest = next;
    }
    if starts(rest, &[S_COMMA]) {
        return Err(Fault::BoundReached);
    }
    Ok((found, rest))
}

#[cycle(expr)]
fn another(
    alloc: Global,
    items: Exprs,
    tokens: &[Spot],
    bound: usize,
) -> Result<(Exprs, &[Spot]), Fault>
    ensures { Gives (λ x. (x.0, x.1.now)) result (next_of S_COMMA (expr_at bound) items tokens.now) }
{
    let (_, rest) = sign(tokens, S_COMMA)?;
    let (item, rest) = expr(alloc, rest, bound)?;
    let mut items = items;
    items.push(item)?;
    Ok((items, rest))
}

#[cycle(expr)]
#[tactic(auto, using(crate::proofs::Bounds::nested_below))]
fn nested(alloc: Global, tokens: &[Spot], bound: usize) -> Result<(Expr, &[Spot]), Fault>
    ensures { Gives (λ x. (x.0, x.1.now)) result (nested_at bound tokens.now) }
{
    if bound == 0 {
        return Err(Fault::BoundReached);
    }
    inside(alloc, tokens, bound - 1)
}

#[cycle(expr)]
fn inside(alloc: Global, tokens: &[Spot], bound: usize) -> Result<(Expr, &[Spot]), Fault>
    ensures { Gives (λ x. (x.0, x.1.now)) result (nested_in bound (expr_at bound) tokens.now) }
{
    if starts(tokens, &[W_TEXT, W_INT, W_TRIM, W_LEN]) {
        return one_arg(alloc, tokens, bound);
    }
    if starts(
        tokens,
        &[W_GET, W_HAS, W_FILE, W_LINE, W_CONTAINS, W_MIN, W_MAX],
    ) {
        return two_args(alloc, tokens, bound);
    }
    if starts(tokens, &[S_OPEN]) {
        return brackets(alloc, tokens, bound);
    }
    listed(alloc, tokens, bound)
}

#[cycle(expr)]
fn simple(alloc: Global, tokens: &[Spot], bound: usize) -> Result<(Expr, &[Spot]), Fault>
    ensures { Gives (λ x. (x.0, x.1.now)) result (simple_at (indexed_at bound) tokens.now) }
{
    if starts(tokens, &[K_NUMBER]) {
        return number_alone(tokens);
    }
    if starts(tokens, &[K_QUOTED]) {
        return text_alone(tokens);
    }
    if starts(tokens, &[W_TRUE, W_FALSE]) {
        return truth(tokens);
    }
    if starts(tokens, &[W_INPUTS]) {
        return input(tokens);
    }
    if starts(tokens, &[W_CTX]) {
        return path(alloc, tokens, bound);
    }
    if starts(tokens, &[W_GIVEN]) {
        return given(tokens);
    }
    if starts(tokens, &[W_COUNT]) {
        return count(tokens);
    }
    name_alone(tokens)
}

#[cycle(expr)]
#[tactic(auto, unfolding(crate::specs::Reading::primaries_at))]
fn primary(alloc: Global, tokens: &[Spot], bound: usize) -> Result<(Expr, &[Spot]), Fault>
    ensures { Gives (λ x. (x.0, x.1.now)) result (primaries_at bound tokens.now) }
{
    if starts(tokens, &NESTED) {
        return nested(alloc, tokens, bound);
    }
    simple(alloc, tokens, bound)
}

#[cycle(expr)]
#[tactic(auto, unfolding(crate::specs::Reading::unaries_at))]
fn unary(alloc: Global, tokens: &[Spot], bound: usize) -> Result<(Expr, &[Spot]), Fault>
    ensures { Gives (λ x. (x.0, x.1.now)) result (unaries_at bound tokens.now) }
{
    if !starts(tokens, &[S_MINUS, W_NOT]) {
        return primary(alloc, tokens, bound);
    }
    let ((op, at), rest) = pick(tokens, &[(S_MINUS, UnaryOp::Negate), (W_NOT, UnaryOp::Not)])?;
    let (value, rest) = primary(alloc, rest, bound)?;
    let form = Form::Unary(op, boxed(alloc, value)?);
    Ok((Expr { at, form }, rest))
}

#[cycle(expr)]
fn joined(
    alloc: Global,
    tokens: &[Spot],
    bound: usize,
    level: Level,
) -> Result<(Expr, &[Spot]), Fault>
    ensures { Gives (λ x. (x.0, x.1.now)) result (joined_at level bound tokens.now) }
{
    let (first, rest) = operand(alloc, tokens, bound, level)?;
    more(alloc, first, rest, bound, level)
}

#[cycle(expr)]
#[tactic(auto, using(crate::proofs::Bounds::turns_at))]
fn more(
    alloc: Global,
    first: Expr,
    tokens: &[Spot],
    bound: usize,
    level: Level,
) -> Result<(Expr, &[Spot]), Fault>
    ensures { Gives (λ x. (x.0, x.1.now)) result (turns bound (keys (operators level)) (further_at (operators level) binary_of (operand_at level bound)) first tokens.now) }
{
    let mut left = first;
    let mut rest = tokens;
    for _turn in 0..bound {
        if !is_next(rest, level) {
            return Ok((left, rest));
        }
        let (more, next) = further(alloc, left, rest, bound, level)?;
        left = more;
        rest = next;
    }
    ended(left, rest, level)
}

#[cycle(expr)]
fn further(
    alloc: Global,
    left: Expr,
    tokens: &[Spot],
    bound: usize,
    level: Level,
) -> Result<(Expr, &[Spot]), Fault>
    ensures { Gives (λ x. (x.0, x.1.now)) result (further_at (operators level) binary_of (operand_at level bound) left tokens.now) }
{
    let left = boxed(alloc, left)?;
    let ((op, _), rest) = operator(tokens, level)?;
    let (right, rest) = operand(alloc, rest, bound, level)?;
    Ok((binary(alloc, op, left, right)?, rest))
}

#[cycle(expr)]
#[tactic(auto, unfolding(crate::specs::Reading::products_at, crate::specs::Reading::sums_at, crate::specs::Reading::ands_at))]
fn operand(
    alloc: Global,
    tokens: &[Spot],
    bound: usize,
    level: Level,
) -> Result<(Expr, &[Spot]), Fault>
    ensures { Gives (λ x. (x.0, x.1.now)) result (operand_at level bound tokens.now) }
{
    match level {
        Level::Products => unary(alloc, tokens, bound),
        Level::Sums => joined(alloc, tokens, bound, Level::Products),
        Level::Compares => joined(alloc, tokens, bound, Level::Sums),
        Level::Ands => compare(alloc, tokens, bound),
        Level::Ors => joined(alloc, tokens, bound, Level::Ands),
    }
}

#[cycle(expr)]
#[tactic(auto, unfolding(crate::specs::Reading::compares_at))]
fn compare(alloc: Global, tokens: &[Spot], bound: usize) -> Result<(Expr, &[Spot]), Fault>
    ensures { Gives (λ x. (x.0, x.1.now)) result (compares_at bound tokens.now) }
{
    let (left, rest) = operand(alloc, tokens, bound, Level::Compares)?;
    compared(alloc, left, rest, bound)
}

#[cycle(expr)]
fn compared(
    alloc: Global,
    left: Expr,
    tokens: &[Spot],
    bound: usize,
) -> Result<(Expr, &[Spot]), Fault>
    ensures { Gives (λ x. (x.0, x.1.now)) result (compared_at (sums_at bound) left tokens.now) }
{
    if !is_next(tokens, Level::Compares) {
        return Ok((left, tokens));
    }
    further(alloc, left, tokens, bound, Level::Compares)
}

/// An expression.
#[cycle(expr)]
#[tactic(auto, using(crate::proofs::Bounds::expr_is))]
pub fn expr(alloc: Global, tokens: &[Spot], bound: usize) -> Result<(Expr, &[Spot]), Fault>
    ensures { Gives (λ x. (x.0, x.1.now)) result (expr_at bound tokens.now) }
{
    joined(alloc, tokens, bound, Level::Ors)
}
