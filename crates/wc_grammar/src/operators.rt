//! Operators, and the trees that they make.

ghost use Rattle.std.specs.Prelude.{◌≡◌, Ok};
ghost use Rattle.wc_grammar.specs.Rules.{keys, starts as starts_with, done, deep, either, pick_at};
ghost use Rattle.wc_grammar.specs.Grammar.{binary as binary_of, compares, ones, twos};
ghost use Rattle.wc_grammar.specs.Reading.{Gives};
ghost use Rattle.wc_grammar.specs.Levels.{operators};

use crate::fault::Fault;
use crate::kinds::{
    S_AT_LEAST, S_AT_MOST, S_DIFFERS, S_EQUAL, S_GREATER, S_LESS, S_MINUS, S_PERCENT, S_PLUS,
    S_SLASH, S_STAR, W_AND, W_CONTAINS, W_FILE, W_GET, W_HAS, W_INT, W_LEN, W_LINE, W_MAX, W_MIN,
    W_OR, W_TEXT, W_TRIM,
};
use crate::tokens::{pick, starts};
use std::alloc::Global;
use wc_lexer::Spot;
use wc_syntax::{BinaryOp, Expr, Form, OneOf, TwoOf};
use wc_value::Boxed;

/// How tightly an operator with two operands binds, the tightest first.
#[derive(Clone, Copy)]
pub enum Level {
    /// `*`, `/` and `%`
    Products,
    /// `+` and `-`
    Sums,
    /// `==`, `!=`, `<`, `<=`, `>` and `>=`
    Compares,
    /// `and`
    Ands,
    /// `or`
    Ors,
}

/// Whether an operator of this level comes next.
pub fn is_next(tokens: &[Spot], level: Level) -> bool
    ensures { result ≡ starts_with (keys (operators level)) tokens.now }
{
    match level {
        Level::Products => starts(tokens, &[S_STAR, S_SLASH, S_PERCENT]),
        Level::Sums => starts(tokens, &[S_PLUS, S_MINUS]),
        Level::Compares => starts(
            tokens,
            &[S_EQUAL, S_DIFFERS, S_LESS, S_AT_MOST, S_GREATER, S_AT_LEAST],
        ),
        Level::Ands => starts(tokens, &[W_AND]),
        Level::Ors => starts(tokens, &[W_OR]),
    }
}

fn compare_op(tokens: &[Spot]) -> Result<((BinaryOp, u32), &[Spot]), Fault>
    ensures { Gives (λ x. (x.0, x.1.now)) result (pick_at compares tokens.now) }
{
    pick(
        tokens,
        &[
            (S_EQUAL, BinaryOp::Equal),
            (S_DIFFERS, BinaryOp::Differs),
            (S_LESS, BinaryOp::Less),
            (S_AT_MOST, BinaryOp::AtMost),
            (S_GREATER, BinaryOp::Greater),
            (S_AT_LEAST, BinaryOp::AtLeast),
        ],
    )
}

/// The operator of this level that comes next, with its offset and the tokens after it.
pub fn operator(tokens: &[Spot], level: Level) -> Result<((BinaryOp, u32), &[Spot]), Fault>
    ensures { Gives (λ x. (x.0, x.1.now)) result (pick_at (operators level) tokens.now) }
{
    match level {
        Level::Products => pick(
            tokens,
            &[
                (S_STAR, BinaryOp::Multiply),
                (S_SLASH, BinaryOp::Divide),
                (S_PERCENT, BinaryOp::Remainder),
            ],
        ),
        Level::Sums => pick(
            tokens,
            &[(S_PLUS, BinaryOp::Add), (S_MINUS, BinaryOp::Subtract)],
        ),
        Level::Compares => compare_op(tokens),
        Level::Ands => pick(tokens, &[(W_AND, BinaryOp::And)]),
        Level::Ors => pick(tokens, &[(W_OR, BinaryOp::Or)]),
    }
}

/// Two operands joined. The whole begins where the left one does.
pub fn binary(alloc: Global, op: BinaryOp, left: Boxed<Expr>, right: Expr) -> Result<Expr, Fault>
    ensures { Gives (λ x. x) result (Ok (binary_of op left right)) }
{
    let at = left.get().at;
    let right = boxed(alloc, right)?;
    Ok(Expr {
        at,
        form: Form::Binary(op, left, right),
    })
}

/// The word with two arguments that comes next, with its offset and the tokens after it.
pub fn two_of(tokens: &[Spot]) -> Result<((TwoOf, u32), &[Spot]), Fault>
    ensures { Gives (λ x. (x.0, x.1.now)) result (pick_at twos tokens.now) }
{
    pick(
        tokens,
        &[
            (W_GET, TwoOf::Get),
            (W_HAS, TwoOf::Has),
            (W_FILE, TwoOf::File),
            (W_LINE, TwoOf::Line),
            (W_CONTAINS, TwoOf::Contains),
            (W_MIN, TwoOf::Min),
            (W_MAX, TwoOf::Max),
        ],
    )
}

/// The word with one argument that comes next, with its offset and the tokens after it.
pub fn one_of(tokens: &[Spot]) -> Result<((OneOf, u32), &[Spot]), Fault>
    ensures { Gives (λ x. (x.0, x.1.now)) result (pick_at ones tokens.now) }
{
    pick(
        tokens,
        &[
            (W_TEXT, OneOf::Text),
            (W_INT, OneOf::Int),
            (W_TRIM, OneOf::Trim),
            (W_LEN, OneOf::Len),
        ],
    )
}

/// The same on the heap.
pub fn boxed(alloc: Global, value: Expr) -> Result<Boxed<Expr>, Fault>
    ensures { Gives (λ x. x) result (Ok value) }
{
    Ok(Boxed::new(alloc, value)?)
}

/// The value again, with no operator of this level after it.
pub fn ended<T: Drop>(value: T, tokens: &[Spot], level: Level) -> Result<(T, &[Spot]), Fault>
    ensures { Gives (λ x. (x.0, x.1.now)) result (either (keys (operators level)) deep (done value) tokens.now) }
{
    if is_next(tokens, level) {
        return Err(Fault::BoundReached);
    }
    Ok((value, tokens))
}
