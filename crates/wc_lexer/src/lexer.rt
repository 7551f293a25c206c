//! From bytes to tokens, from left to right.

ghost use Rattle.std.specs.Prelude.{◌≡◌, ℕ, List, ◌∷◌, ◌++◌, [], ◌+◌, ◌-◌, ◌<◌, ◌≤◌, ◌^◌, false, true, length, drop, take, slice_index, Some, None, Ok, IfOk, IfSome, EachIndex, codes};
ghost use Rattle.std.specs.List.{take_while};
ghost use Rattle.std.specs.Char.{is_ascii_digit};
ghost use Rattle.std.specs.Str.{IsUtf8};
ghost use Rattle.wc_lexer.specs.declared.token.Token.{Token};
ghost use Rattle.wc_lexer.specs.Cuts.{AreTokens};
ghost use Rattle.wc_lexer.specs.Tokens.{Gives, number_of, is_in_name, begins_name, named, closing, unescaped, name_at, number_at, quoted_at, sign_at, token_at, piece_at, kept_at, tokens_of};

use crate::characters::{Run, begins_name, escaped, is_separator, run_end};
use crate::error::LexError;
use crate::spellings::{symbol_of, symbol_text, word_of};
use crate::token::{Token, TokenList};
use std::alloc::{AllocError, Global};
use wc_value::{Bytes, Text};

/// The number that digits write, none where it is greater than an `i64` can be.
#[tactic(auto, using(crate::proofs::Numbers::digit_is, crate::proofs::Numbers::too_wide, crate::proofs::Numbers::fitting))]
fn number(digits: &[u8]) -> Option<u64>
    requires { EachIndex digits.now (λ k. is_ascii_digit (slice_index digits.now k) ≡ true) }
    ensures value { result ≡ number_of digits.now }
    ensures fits { IfSome result (λ n. n < 2 ^ 63) }
{
    let mut value: u64 = 0;
    for byte in digits {
        let digit = u64::from(*byte - b'0');
        if value > (0x7fff_ffff_ffff_ffff - digit) / 10 {
            return None;
        }
        value = value * 10 + digit;
    }
    Some(value)
}

/// The text of these bytes.
fn text(bytes: Bytes) -> Text
    requires { IsUtf8 bytes }
    ensures { result ≡ bytes }
{
    match Text::of(bytes) {
        Some(text) => text,
        None => unreachable!(),
    }
}

/// The name or the reserved word of these letters.
fn named(alloc: Global, letters: &[u8]) -> Result<Token, AllocError>
    requires { EachIndex letters.now (λ k. is_in_name (slice_index letters.now k) ≡ true) }
    ensures { IfOk result (λ token. token ≡ named letters.now) }
{
    match word_of(letters) {
        Some(word) => Ok(Token::Word(word)),
        None => {
            let mut copy = Bytes::new(alloc);
            copy.extend(letters)?;
            Ok(Token::Name(text(copy)))
        }
    }
}

/// The name or the reserved word at a place, where one begins, and the place behind it.
fn name_at(alloc: Global, bytes: &[u8], at: usize) -> Result<(Token, usize), LexError>
    requires within { at < length bytes.now }
    requires begins { begins_name (slice_index bytes.now at) ≡ true }
    ensures value { Gives result (name_at at (drop at bytes.now)) }
    ensures within { IfOk result (λ t. (at < t.1) × (t.1 ≤ length bytes.now)) }
{
    let end = run_end(bytes, at, Run::Name);
    let token = named(alloc, &bytes[at..end])?;
    Ok((token, end))
}

/// The number at a place, where a digit stands, and the place behind it.
fn number_at(bytes: &[u8], at: usize) -> Result<(Token, usize), LexError>
    requires within { at < length bytes.now }
    requires small { length bytes.now < 2 ^ 32 }
    requires begins { is_ascii_digit (slice_index bytes.now at) ≡ true }
    ensures value { Gives result (number_at at (drop at bytes.now)) }
    ensures within { IfOk result (λ t. (at < t.1) × (t.1 ≤ length bytes.now)) }
{
    let end = run_end(bytes, at, Run::Digits);
    match number(&bytes[at..end]) {
        Some(value) => Ok((Token::Number(value as i64), end)),
        None => Err(LexError::WideNumber(at as u32)),
    }
}

/// The sign at a place, and the place behind it.
fn sign_at(bytes: &[u8], at: usize) -> Result<(Token, usize), LexError>
    requires within { at < length bytes.now }
    requires small { length bytes.now < 2 ^ 32 }
    ensures value { Gives result (sign_at at (drop at bytes.now)) }
    ensures within { IfOk result (λ t. (at < t.1) × (t.1 ≤ length bytes.now)) }
{
    match symbol_of(&bytes[at..]) {
        Some(symbol) => Ok((Token::Symbol(symbol), at + symbol_text(symbol).len())),
        None => Err(LexError::BadChar(at as u32)),
    }
}

/// The place of the closing quote of a text whose content begins at a place.
fn closing(bytes: &[u8], from: usize) -> Option<usize>
    requires { from ≤ length bytes.now }
    ensures value { result ≡ closing from false (drop from bytes.now) }
    ensures within { IfSome result (λ end. (from ≤ end) × (end < length bytes.now)) }
    ensures quote { IfSome result (λ end. slice_index bytes.now end ≡ 34) }
{
    let mut escape = false;
    for at in from..bytes.len() {
        let byte = bytes[at];
        if byte == b'\n' {
            return None;
        }
        if !escape && byte == b'"' {
            return Some(at);
        }
        escape = !escape && byte == b'\\';
    }
    None
}

/// The bytes with their escapes replaced. They begin at a place, which a refusal is told by.
#[tactic(auto, using(crate::proofs::Joins::joined_more))]
fn unescape(alloc: Global, part: &[u8], from: usize) -> Result<Bytes, LexError>
    requires begins { 0 < from }
    requires small { from + length part.now < 2 ^ 32 }
    ensures { Gives result (unescaped from false part.now) }
{
    let mut content = Bytes::new(alloc);
    let mut escape = false;
    for (index, byte) in part.iter().enumerate() {
        if escape {
            match escaped(*byte) {
                Some(meant) => content.push(meant)?,
                None => return Err(LexError::BadChar((from + index - 1) as u32)),
            }
            escape = false;
        } else if *byte == b'\\' {
            escape = true;
        } else {
            content.push(*byte)?;
        }
    }
    Ok(content)
}

/// The text at a place, where its opening quote stands, and the place behind it.
fn quoted_at(alloc: Global, bytes: &[u8], at: usize) -> Result<(Token, usize), LexError>
    requires utf8 { IsUtf8 bytes.now }
    requires within { at < length bytes.now }
    requires small { length bytes.now < 2 ^ 32 }
    requires quote { slice_index bytes.now at ≡ 34 }
    ensures value { Gives result (quoted_at at (drop at bytes.now)) }
    ensures within { IfOk result (λ t. (at < t.1) × (t.1 ≤ length bytes.now)) }
{
    let Some(end) = closing(bytes, at + 1) else {
        return Err(LexError::OpenText(at as u32));
    };
    let content = unescape(alloc, &bytes[at + 1..end], at + 1)?;
    Ok((Token::Quoted(text(content)), end + 1))
}

/// The longest token at a place, and the place behind it.
#[tactic(auto, using(crate::proofs::Places::token_is))]
fn token_at(alloc: Global, bytes: &[u8], at: usize) -> Result<(Token, usize), LexError>
    requires utf8 { IsUtf8 bytes.now }
    requires within { at < length bytes.now }
    requires small { length bytes.now < 2 ^ 32 }
    ensures value { Gives result (token_at at (drop at bytes.now)) }
    ensures within { IfOk result (λ t. (at < t.1) × (t.1 ≤ length bytes.now)) }
{
    let first = bytes[at];
    if begins_name(first) {
        name_at(alloc, bytes, at)
    } else if first.is_ascii_digit() {
        number_at(bytes, at)
    } else if first == b'"' {
        quoted_at(alloc, bytes, at)
    } else {
        sign_at(bytes, at)
    }
}

/// What stands at a place: a separator or a comment, which are no token, or a token. With the place behind it.
#[tactic(auto, using(crate::proofs::Places::piece_is))]
fn piece_at(alloc: Global, bytes: &[u8], at: usize) -> Result<(Option<Token>, usize), LexError>
    requires utf8 { IsUtf8 bytes.now }
    requires within { at < length bytes.now }
    requires small { length bytes.now < 2 ^ 32 }
    ensures value { Gives result (piece_at at (drop at bytes.now)) }
    ensures within { IfOk result (λ p. (at < p.1) × (p.1 ≤ length bytes.now)) }
{
    let first = bytes[at];
    if is_separator(first) {
        return Ok((None, at + 1));
    }
    if first == b'#' {
        return Ok((None, run_end(bytes, at, Run::Line)));
    }
    let (token, end) = token_at(alloc, bytes, at)?;
    Ok((Some(token), end))
}

/// The tokens so far, with the next one if there is one.
fn kept(found: TokenList, token: Option<Token>, at: u32) -> Result<TokenList, AllocError>
    ensures { IfOk result (λ kept. kept ≡ found ++ kept_at at token) }
{
    let mut found = found;
    if let Some(token) = token {
        found.push((token, at))?;
    }
    Ok(found)
}

/// The tokens from left to right.
fn cut(alloc: Global, text: &Text) -> Result<TokenList, LexError>
    ensures { Gives result (tokens_of text.now) }
{
    let bytes = text.bytes();
    let mut found = TokenList::new(alloc);
    let mut at = 0;
    while at < bytes.len() {
        let (token, end) = piece_at(alloc, bytes, at)?;
        found = kept(found, token, at as u32)?;
        at = end;
    }
    Ok(found)
}

/// The tokens of a text, each the longest at its place, or the first refusal from the left.
pub fn tokens(alloc: Global, text: &Text) -> Result<TokenList, LexError>
    // The list or the refusal, as a function of the bytes.
    ensures value { Gives result (tokens_of text.now) }
    // Each token is spelled at its offset, separators and comments alone stand between tokens, and no longer token
    // begins at an offset.
    ensures cuts { IfOk result (λ list. AreTokens 0 text.now list) }
    // A list of which that holds is the answer, unless memory runs out.
    ensures only { (list : List (Token × ℕ)) → AreTokens 0 text.now list → Gives result (Ok list) }
{
    cut(alloc, text)
}
