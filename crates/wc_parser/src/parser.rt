//! The library of a workflow file.

ghost use Rattle.std.specs.Prelude.{◌≡◌, ◌≤◌, length, IfOk};
ghost use Rattle.wc_lexer.specs.Tokens.{tokens_of};
ghost use Rattle.wc_syntax.specs.Writable.{IsWritable};
ghost use Rattle.wc_parser.specs.Parsing.{Parsed, TextSays, TextTold, TextMeets, Lexes, TokensTold, Limited, LimitedTold};

use crate::error::ParseError;
use std::alloc::Global;
use wc_lexer::{LexError, Spot, TokenList, tokens};
use wc_reader::{ReadError, read, too_deep};
use wc_syntax::{Library, Printed};
use wc_value::Text;

/// The most bytes of a file, and of a printed text.
const MOST_BYTES: usize = 1_048_576;

fn cut(alloc: Global, text: &Text) -> Result<TokenList, ParseError>
    ensures { Lexes result (tokens_of text.now) }
{
    match tokens(alloc, text) {
        Ok(tokens) => Ok(tokens),
        Err(LexError::OutOfMemory) => Err(ParseError::OutOfMemory),
        Err(error) => Err(ParseError::Lex(error)),
    }
}

fn parse_tokens(alloc: Global, tokens: &[Spot]) -> Result<Library, ParseError>
    ensures { TokensTold tokens.now result }
{
    if let Some(at) = too_deep(tokens) {
        return Err(ParseError::TooDeep(at));
    }
    match read(alloc, tokens) {
        Ok(library) => Ok(library),
        Err(ReadError::OutOfMemory) => Err(ParseError::OutOfMemory),
        Err(ReadError::Unexpected(at)) => Err(ParseError::Unexpected(at)),
        Err(ReadError::EndOfText) => Err(ParseError::EndOfText),
    }
}

/// Prints a library, and refuses one whose printed text is too long.
fn limited(alloc: Global, library: Library) -> Result<Printed, ParseError>
    ensures { Limited library result }
{
    let Ok(printed) = Printed::of(alloc, library) else {
        return Err(ParseError::OutOfMemory);
    };
    let Ok(text) = printed.text(alloc) else {
        return Err(ParseError::OutOfMemory);
    };
    if text.bytes().len() > MOST_BYTES {
        return Err(ParseError::TooLong);
    }
    Ok(printed)
}

fn parse_limited(alloc: Global, tokens: &[Spot]) -> Result<Printed, ParseError>
    ensures { LimitedTold tokens.now result }
{
    match parse_tokens(alloc, tokens) {
        Ok(library) => limited(alloc, library),
        Err(error) => Err(error),
    }
}

fn parse_text(alloc: Global, text: &Text) -> Result<Printed, ParseError>
    requires { length text.now ≤ 1048576 }
    ensures { TextTold text.now result }
{
    match cut(alloc, text) {
        Ok(tokens) => parse_limited(alloc, tokens.as_slice()),
        Err(error) => Err(error),
    }
}

/// The library of a workflow file, with its printed text. Refusals come in this order: too long, no tokens, too deep, unexpected, end, and
/// too long again where the library's printed text has more bytes than a file may have.
pub fn parse(alloc: Global, text: &Text) -> Result<Printed, ParseError>
    // What is answered holds.
    ensures says { TextTold text.now result }
    // What is answered can be printed and read back.
    ensures writable { IfOk result (λ library. IsWritable library) }
    // What holds is answered.
    ensures only { (r : Parsed) → TextSays text.now r → TextMeets result r }
{
    if text.bytes().len() > MOST_BYTES {
        return Err(ParseError::TooLong);
    }
    parse_text(alloc, text)
}
