//! The library that tokens stand for.

ghost use Rattle.std.specs.Prelude.{◌≡◌, ◌+◌, length};
ghost use Rattle.wc_grammar.specs.Reading.{Gives};
ghost use Rattle.wc_reader.specs.Reading.{whole};
ghost use Rattle.wc_reader.specs.Answer.{Answer, Says, Told, Meets, Sees, OneLibrary, OneAnswer, SomeAnswer};

use crate::definitions::library;
use crate::error::ReadError;
use std::alloc::Global;
use wc_grammar::Fault;
use wc_lexer::Spot;
use wc_syntax::Library;

/// The library that all tokens stand for, read within a bound of nestings and items.
fn read_within(alloc: Global, tokens: &[Spot], bound: usize) -> Result<Library, Fault>
    ensures { Gives (λ x. x) result (whole bound tokens.now) }
{
    let (library, rest) = library(alloc, tokens, bound)?;
    match rest {
        [] => Ok(library),
        [(_, at), ..] => Err(Fault::Unexpected(*at)),
    }
}

/// The library that all tokens stand for: the bound is one above their number, which no reading reaches.
fn read_whole(alloc: Global, tokens: &[Spot]) -> Result<Library, ReadError>
    ensures { Sees result (whole (length tokens.now + 1) tokens.now) }
{
    match read_within(alloc, tokens, tokens.len() + 1) {
        Ok(library) => Ok(library),
        Err(Fault::OutOfMemory) => Err(ReadError::OutOfMemory),
        Err(Fault::Unexpected(at)) => Err(ReadError::Unexpected(at)),
        Err(Fault::EndOfText) => Err(ReadError::EndOfText),
        Err(Fault::BoundReached) => unreachable!(),
    }
}

/// The library that all of the tokens stand for.
pub fn read(alloc: Global, tokens: &[Spot]) -> Result<Library, ReadError>
    // What is answered holds.
    ensures says { Told tokens.now result }
    // What holds is answered.
    ensures only { (r : Answer) → Says tokens.now r → Meets result r }
{
    read_whole(alloc, tokens)
}

/// Tokens have exactly one answer, and stand for one library at most.
pub fn tokens_have_one_answer()
    // Tokens derive one library at most.
    ensures library { OneLibrary }
    // Tokens have one answer at most.
    ensures one { OneAnswer }
    // Tokens have an answer.
    ensures some { SomeAnswer }
{}
