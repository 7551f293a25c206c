//! How the words and signs are spelled. Each table stands here once.

ghost use Rattle.std.specs.Prelude.{◌≡◌, ◌<◌, ◌≤◌, length, IfSome};
ghost use Rattle.wc_lexer.specs.Spellings.{word_text, symbol_text, word_among, symbol_among, word_of, symbol_of};

use crate::token::{Symbol, Word};

/// The reserved words.
const WORDS: [Word; 48] = [
    Word::Calcfunction,
    Word::Calcjob,
    Word::Workchain,
    Word::Program,
    Word::Arg,
    Word::File,
    Word::Fetch,
    Word::Parse,
    Word::Int,
    Word::Bool,
    Word::Text,
    Word::List,
    Word::Dict,
    Word::Folder,
    Word::ExitCode,
    Word::Invalidates,
    Word::Let,
    Word::Out,
    Word::Exit,
    Word::If,
    Word::Step,
    Word::Elif,
    Word::Else,
    Word::While,
    Word::Return,
    Word::Ctx,
    Word::Call,
    Word::To,
    Word::Append,
    Word::Or,
    Word::And,
    Word::Not,
    Word::True,
    Word::False,
    Word::Inputs,
    Word::Trim,
    Word::Len,
    Word::Get,
    Word::Has,
    Word::Line,
    Word::Contains,
    Word::Min,
    Word::Max,
    Word::Given,
    Word::Count,
    Word::Outputs,
    Word::Status,
    Word::Ok,
];

/// The signs, longer ones first.
const SYMBOLS: [Symbol; 24] = [
    Symbol::Equal,
    Symbol::Differs,
    Symbol::AtMost,
    Symbol::AtLeast,
    Symbol::Arrow,
    Symbol::OpenBrace,
    Symbol::CloseBrace,
    Symbol::Open,
    Symbol::Close,
    Symbol::OpenSquare,
    Symbol::CloseSquare,
    Symbol::Comma,
    Symbol::Semi,
    Symbol::Colon,
    Symbol::Dot,
    Symbol::Question,
    Symbol::Is,
    Symbol::Less,
    Symbol::Greater,
    Symbol::Plus,
    Symbol::Minus,
    Symbol::Star,
    Symbol::Slash,
    Symbol::Percent,
];

/// The letters of a reserved word.
pub fn word_text(word: Word) -> &'static [u8]
    ensures { result.now ≡ word_text word }
{
    match word {
        Word::Calcfunction => b"calcfunction",
        Word::Calcjob => b"calcjob",
        Word::Workchain => b"workchain",
        Word::Program => b"program",
        Word::Arg => b"arg",
        Word::File => b"file",
        Word::Fetch => b"fetch",
        Word::Parse => b"parse",
        Word::Int => b"int",
        Word::Bool => b"bool",
        Word::Text => b"text",
        Word::List => b"list",
        Word::Dict => b"dict",
        Word::Folder => b"folder",
        Word::ExitCode => b"exit_code",
        Word::Invalidates => b"invalidates",
        Word::Let => b"let",
        Word::Out => b"out",
        Word::Exit => b"exit",
        Word::If => b"if",
        Word::Step => b"step",
        Word::Elif => b"elif",
        Word::Else => b"else",
        Word::While => b"while",
        Word::Return => b"return",
        Word::Ctx => b"ctx",
        Word::Call => b"call",
        Word::To => b"to",
        Word::Append => b"append",
        Word::Or => b"or",
        Word::And => b"and",
        Word::Not => b"not",
        Word::True => b"true",
        Word::False => b"false",
        Word::Inputs => b"inputs",
        Word::Trim => b"trim",
        Word::Len => b"len",
        Word::Get => b"get",
        Word::Has => b"has",
        Word::Line => b"line",
        Word::Contains => b"contains",
        Word::Min => b"min",
        Word::Max => b"max",
        Word::Given => b"given",
        Word::Count => b"count",
        Word::Outputs => b"outputs",
        Word::Status => b"status",
        Word::Ok => b"ok",
    }
}

/// The characters of a sign.
pub fn symbol_text(symbol: Symbol) -> &'static [u8]
    // The sign's text.
    ensures value { result.now ≡ symbol_text symbol }
    // It isn't empty.
    ensures some { 0 < length result.now }
{
    match symbol {
        Symbol::OpenBrace => b"{",
        Symbol::CloseBrace => b"}",
        Symbol::Open => b"(",
        Symbol::Close => b")",
        Symbol::OpenSquare => b"[",
        Symbol::CloseSquare => b"]",
        Symbol::Comma => b",",
        Symbol::Semi => b";",
        Symbol::Colon => b":",
        Symbol::Dot => b".",
        Symbol::Question => b"?",
        Symbol::Is => b"=",
        Symbol::Equal => b"==",
        Symbol::Differs => b"!=",
        Symbol::Less => b"<",
        Symbol::AtMost => b"<=",
        Symbol::Greater => b">",
        Symbol::AtLeast => b">=",
        Symbol::Plus => b"+",
        Symbol::Minus => b"-",
        Symbol::Star => b"*",
        Symbol::Slash => b"/",
        Symbol::Percent => b"%",
        Symbol::Arrow => b"->",
    }
}

/// The first of the words that is spelled by these letters, if there is one.
fn word_among(words: &[Word], letters: &[u8]) -> Option<Word>
    ensures { result ≡ word_among words.now letters.now }
{
    for word in words {
        if word_text(*word) == letters {
            return Some(*word);
        }
    }
    None
}

/// The first of the signs that the bytes begin with, if there is one.
fn symbol_among(symbols: &[Symbol], bytes: &[u8]) -> Option<Symbol>
    ensures value { result ≡ symbol_among symbols.now bytes.now }
    ensures within { IfSome result (λ s. (0 < length (symbol_text s)) × (length (symbol_text s) ≤ length bytes.now)) }
{
    for symbol in symbols {
        if bytes.starts_with(symbol_text(*symbol)) {
            return Some(*symbol);
        }
    }
    None
}

/// The reserved word of these letters, if there is one.
#[tactic(auto, unfolding(crate::specs::Spellings::word_of))]
pub fn word_of(letters: &[u8]) -> Option<Word>
    ensures { result ≡ word_of letters.now }
{
    word_among(&WORDS, letters)
}

/// The longest sign that the bytes begin with, if there is one.
#[tactic(auto, unfolding(crate::specs::Spellings::symbol_of))]
pub fn symbol_of(bytes: &[u8]) -> Option<Symbol>
    // The longest sign with which the bytes begin, if there is one.
    ensures value { result ≡ symbol_of bytes.now }
    // Its text isn't empty and no longer than the bytes.
    ensures within { IfSome result (λ s. (0 < length (symbol_text s)) × (length (symbol_text s) ≤ length bytes.now)) }
{
    symbol_among(&SYMBOLS, bytes)
}
