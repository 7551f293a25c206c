//! Single tokens, read from the front.

ghost use Rattle.std.specs.Prelude.{◌≡◌, ◌∷◌, [], IfOk};
ghost use Rattle.wc_grammar.specs.Rules.{mem, starts as starts_with, pick as pick_of, pick_at, sign_at, flag_at};
ghost use Rattle.wc_grammar.specs.Reading.{Gives, name_at, number_at, text_at};

use crate::fault::Fault;
use crate::kinds::kind;
use wc_lexer::{Spot, Token};
use wc_syntax::{Name, Number, Quoted};
use wc_value::Duplicate;

fn has(wanted: u8, kinds: &[u8]) -> bool
    ensures { result ≡ mem wanted kinds.now }
{
    for x in kinds {
        if *x == wanted {
            return true;
        }
    }
    false
}

fn find<B: Copy>(wanted: u8, table: &[(u8, B)]) -> Option<B>
    ensures { result ≡ pick_of table.now wanted }
{
    for (key, value) in table {
        if *key == wanted {
            return Some(*value);
        }
    }
    None
}

/// Whether the next token is of one of these kinds.
pub fn starts(tokens: &[Spot], kinds: &[u8]) -> bool
    ensures { result ≡ starts_with kinds.now tokens.now }
{
    match tokens {
        [] => false,
        [(token, _), ..] => has(kind(token), kinds),
    }
}

/// The value of the next token in the table, with its offset, and the tokens after it.
pub fn pick<'a, B: Copy>(
    tokens: &'a [Spot],
    table: &[(u8, B)],
) -> Result<((B, u32), &'a [Spot]), Fault>
    ensures { Gives (λ x. (x.0, x.1.now)) result (pick_at table.now tokens.now) }
{
    match tokens {
        [] => Err(Fault::EndOfText),
        [(token, at), rest @ ..] => match find(kind(token), table) {
            Some(value) => Ok(((value, *at), rest)),
            None => Err(Fault::Unexpected(*at)),
        },
    }
}

/// The offset of the next token, which is of this kind, and the tokens after it.
pub fn sign(tokens: &[Spot], wanted: u8) -> Result<(u32, &[Spot]), Fault>
    ensures { Gives (λ x. (x.0, x.1.now)) result (sign_at wanted tokens.now) }
{
    match tokens {
        [] => Err(Fault::EndOfText),
        [(token, at), rest @ ..] => {
            if kind(token) == wanted {
                Ok((*at, rest))
            } else {
                Err(Fault::Unexpected(*at))
            }
        }
    }
}

/// The value again, with the offset of the next token, which is of this kind, and the tokens after it.
pub fn closed<T: Drop>(value: T, tokens: &[Spot], wanted: u8) -> Result<((T, u32), &[Spot]), Fault>
    ensures value { IfOk result (λ x. x.0.0 ≡ value) }
    ensures sign { Gives (λ x. (x.0.1, x.1.now)) result (sign_at wanted tokens.now) }
{
    let (at, rest) = sign(tokens, wanted)?;
    Ok(((value, at), rest))
}

/// Whether the next token is of this kind, which is then taken.
pub fn flag(tokens: &[Spot], wanted: u8) -> Result<(bool, &[Spot]), Fault>
    ensures { Gives (λ x. (x.0, x.1.now)) result (flag_at wanted tokens.now) }
{
    if !starts(tokens, &[wanted]) {
        return Ok((false, tokens));
    }
    let (_, rest) = sign(tokens, wanted)?;
    Ok((true, rest))
}

/// The name that comes next, and the tokens after it.
pub fn name(tokens: &[Spot]) -> Result<(Name, &[Spot]), Fault>
    ensures { Gives (λ x. (x.0, x.1.now)) result (name_at tokens.now) }
{
    match tokens {
        [] => Err(Fault::EndOfText),
        [(Token::Name(text), at), rest @ ..] => {
            let text = text.copy()?;
            Ok((Name { text, at: *at }, rest))
        }
        [(_, at), ..] => Err(Fault::Unexpected(*at)),
    }
}

/// The number that comes next, and the tokens after it.
pub fn number(tokens: &[Spot]) -> Result<(Number, &[Spot]), Fault>
    ensures { Gives (λ x. (x.0, x.1.now)) result (number_at tokens.now) }
{
    match tokens {
        [] => Err(Fault::EndOfText),
        [(Token::Number(value), at), rest @ ..] => Ok((
            Number {
                value: *value,
                at: *at,
            },
            rest,
        )),
        [(_, at), ..] => Err(Fault::Unexpected(*at)),
    }
}

/// The text in quotes that comes next, and the tokens after it.
pub fn text(tokens: &[Spot]) -> Result<(Quoted, &[Spot]), Fault>
    ensures { Gives (λ x. (x.0, x.1.now)) result (text_at tokens.now) }
{
    match tokens {
        [] => Err(Fault::EndOfText),
        [(Token::Quoted(text), at), rest @ ..] => {
            let text = text.copy()?;
            Ok((Quoted { text, at: *at }, rest))
        }
        [(_, at), ..] => Err(Fault::Unexpected(*at)),
    }
}
