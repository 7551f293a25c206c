//! The parts of expressions that have no expressions in them.

ghost use Rattle.std.specs.Prelude.{◌≡◌};
ghost use Rattle.wc_grammar.specs.Reading.{Gives, member_at, part_at, asked_at, given_at, count_at};
ghost use Rattle.wc_grammar.specs.Pieces.{of_child_at, number_alone_at, text_alone_at, name_alone_at, truth_at, input_at};

use crate::fault::Fault;
use crate::kinds::{
    K_NAME, S_CLOSE, S_DOT, S_OPEN, W_COUNT, W_CTX, W_FALSE, W_GIVEN, W_INPUTS, W_OK, W_OUTPUTS,
    W_STATUS, W_TRUE,
};
use crate::tokens::{name, number, pick, sign, starts, text};
use wc_lexer::Spot;
use wc_syntax::{ChildPart, Expr, Form, Name};
use wc_value::Boxed;

/// A name behind the word `inputs` or `ctx` and a dot. With the offset of the word, and the tokens after it.
pub fn member(tokens: &[Spot], word: u8) -> Result<((u32, Name), &[Spot]), Fault>
    ensures { Gives (λ x. (x.0, x.1.now)) result (member_at word tokens.now) }
{
    let (at, rest) = sign(tokens, word)?;
    let (_, rest) = sign(rest, S_DOT)?;
    let (name, rest) = name(rest)?;
    Ok(((at, name), rest))
}

fn part(tokens: &[Spot]) -> Result<(ChildPart, &[Spot]), Fault>
    ensures { Gives (λ x. (x.0, x.1.now)) result (part_at tokens.now) }
{
    if starts(tokens, &[W_OUTPUTS]) {
        let (_, rest) = sign(tokens, W_OUTPUTS)?;
        let (_, rest) = sign(rest, S_DOT)?;
        let (name, rest) = name(rest)?;
        return Ok((ChildPart::Outputs(name), rest));
    }
    if starts(tokens, &[W_STATUS]) {
        let (_, rest) = sign(tokens, W_STATUS)?;
        return Ok((ChildPart::Status, rest));
    }
    let (_, rest) = sign(tokens, W_OK)?;
    Ok((ChildPart::Ok, rest))
}

/// What is asked of a child of this name and index, and the tokens after it.
pub fn child_part(
    at: u32,
    name: Name,
    index: Option<Boxed<Expr>>,
    tokens: &[Spot],
) -> Result<(Expr, &[Spot]), Fault>
    ensures { Gives (λ x. (x.0, x.1.now)) result (of_child_at at name index tokens.now) }
{
    let (_, rest) = sign(tokens, S_DOT)?;
    let (part, rest) = part(rest)?;
    let form = Form::Child(at, name, index, part);
    Ok((Expr { at, form }, rest))
}

/// The number that comes next, as an expression, and the tokens after it.
pub fn number_alone(tokens: &[Spot]) -> Result<(Expr, &[Spot]), Fault>
    ensures { Gives (λ x. (x.0, x.1.now)) result (number_alone_at tokens.now) }
{
    let (number, rest) = number(tokens)?;
    let at = number.at;
    let form = Form::Number(number);
    Ok((Expr { at, form }, rest))
}

/// The text in quotes that comes next, as an expression, and the tokens after it.
pub fn text_alone(tokens: &[Spot]) -> Result<(Expr, &[Spot]), Fault>
    ensures { Gives (λ x. (x.0, x.1.now)) result (text_alone_at tokens.now) }
{
    let (quoted, rest) = text(tokens)?;
    let at = quoted.at;
    let form = Form::Quoted(quoted);
    Ok((Expr { at, form }, rest))
}

/// The name that comes next, as an expression, and the tokens after it.
pub fn name_alone(tokens: &[Spot]) -> Result<(Expr, &[Spot]), Fault>
    ensures { Gives (λ x. (x.0, x.1.now)) result (name_alone_at tokens.now) }
{
    let (name, rest) = name(tokens)?;
    let at = name.at;
    let form = Form::Bare(name);
    Ok((Expr { at, form }, rest))
}

/// The word `true` or `false` that comes next, as an expression, and the tokens after it.
pub fn truth(tokens: &[Spot]) -> Result<(Expr, &[Spot]), Fault>
    ensures { Gives (λ x. (x.0, x.1.now)) result (truth_at tokens.now) }
{
    let ((truth, at), rest) = pick(tokens, &[(W_TRUE, true), (W_FALSE, false)])?;
    let form = Form::Truth(truth);
    Ok((Expr { at, form }, rest))
}

/// The input that comes next, as an expression, and the tokens after it.
pub fn input(tokens: &[Spot]) -> Result<(Expr, &[Spot]), Fault>
    ensures { Gives (λ x. (x.0, x.1.now)) result (input_at tokens.now) }
{
    let ((at, name), rest) = member(tokens, W_INPUTS)?;
    let form = Form::Input(at, name);
    Ok((Expr { at, form }, rest))
}

fn asked(tokens: &[Spot], at: u32) -> Result<(Expr, &[Spot]), Fault>
    ensures { Gives (λ x. (x.0, x.1.now)) result (asked_at at tokens.now) }
{
    if starts(tokens, &[K_NAME]) {
        let (name, rest) = name(tokens)?;
        let form = Form::GivenBare(name);
        return Ok((Expr { at, form }, rest));
    }
    let ((word, name), rest) = member(tokens, W_INPUTS)?;
    let form = Form::GivenInput(word, name);
    Ok((Expr { at, form }, rest))
}

/// The question whether an input is given, and the tokens after it.
pub fn given(tokens: &[Spot]) -> Result<(Expr, &[Spot]), Fault>
    ensures { Gives (λ x. (x.0, x.1.now)) result (given_at tokens.now) }
{
    let (at, rest) = sign(tokens, W_GIVEN)?;
    let (_, rest) = sign(rest, S_OPEN)?;
    let (found, rest) = asked(rest, at)?;
    let (_, rest) = sign(rest, S_CLOSE)?;
    Ok((found, rest))
}

/// The question how many children a key holds, and the tokens after it.
pub fn count(tokens: &[Spot]) -> Result<(Expr, &[Spot]), Fault>
    ensures { Gives (λ x. (x.0, x.1.now)) result (count_at tokens.now) }
{
    let (at, rest) = sign(tokens, W_COUNT)?;
    let (_, rest) = sign(rest, S_OPEN)?;
    let ((word, name), rest) = member(rest, W_CTX)?;
    let (_, rest) = sign(rest, S_CLOSE)?;
    let form = Form::Count(word, name);
    Ok((Expr { at, form }, rest))
}
