//! What can be wrong with a text of transcripts.

use std::fmt::{self, Display, Formatter, Write};

/// What is wrong with a line.
#[derive(Clone, Copy)]
pub enum Mistake {
    /// Memory ran out.
    OutOfMemory,
    /// No line begins with such a word, or none does where this one stands.
    Beginning,
    /// A word is missing, or isn't one that may stand in its place.
    Word,
    /// There are more words than the line may have.
    TooManyWords,
    /// A quote isn't closed, or nothing stands behind a backslash that has a meaning.
    Quote,
    /// No bytes have this name.
    Unknown,
    /// Some bytes have this name already.
    Twice,
    /// No transcript has begun.
    NoTranscript,
    /// A command has no answer.
    NoAnswer,
    /// A block begins in a block, or isn't ended, or there is none to end.
    Block,
}

impl Mistake {
    /// The words that say what the mistake is.
    fn told(self) -> &'static str {
        match self {
            Mistake::OutOfMemory => "out of memory",
            Mistake::Beginning => "a line can't begin so",
            Mistake::Word => "a word is missing or wrong",
            Mistake::TooManyWords => "the line has too many words",
            Mistake::Quote => "a quote isn't closed, or a backslash has no meaning",
            Mistake::Unknown => "no bytes have this name",
            Mistake::Twice => "some bytes have this name already",
            Mistake::NoTranscript => "no transcript has begun",
            Mistake::NoAnswer => "a command has no answer",
            Mistake::Block => "blocks don't stand one after another",
        }
    }
}

/// What is wrong with a text, and in which line, counted from 1.
#[derive(Clone, Copy)]
pub struct ReadError {
    /// The number of the line.
    pub line: usize,
    /// What is wrong with it.
    pub mistake: Mistake,
}

impl Display for ReadError {
    fn fmt<W: Write>(&self, f: &mut Formatter<W>) -> fmt::Result {
        write!(f, "line {}: {}", self.line, self.mistake.told())
    }
}
