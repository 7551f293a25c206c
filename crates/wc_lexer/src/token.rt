//! Tokens: names, numbers, texts, reserved words and signs.

use wc_value::{List, Text};

/// A token, and the offset of its first byte.
pub type Spot = (Token, u32);

/// The tokens of a text in order, each with the offset of its first byte.
pub type TokenList = List<Spot>;

/// What a workflow file is cut into.
#[derive(Debug, Drop)]
pub enum Token {
    /// A name that is no reserved word.
    Name(Text),
    /// A whole number of 0 to 9223372036854775807.
    Number(i64),
    /// What stands between double quotes, with its escapes replaced.
    Quoted(Text),
    /// A reserved word.
    Word(Word),
    /// One of the signs.
    Symbol(Symbol),
}

/// The reserved words.
#[derive(Clone, Copy, Debug, PartialEq, Eq)]
pub enum Word {
    /// `calcfunction`
    Calcfunction,
    /// `calcjob`
    Calcjob,
    /// `workchain`
    Workchain,
    /// `program`
    Program,
    /// `arg`
    Arg,
    /// `file`
    File,
    /// `fetch`
    Fetch,
    /// `parse`
    Parse,
    /// `int`
    Int,
    /// `bool`
    Bool,
    /// `text`
    Text,
    /// `list`
    List,
    /// `dict`
    Dict,
    /// `folder`
    Folder,
    /// `exit_code`
    ExitCode,
    /// `invalidates`
    Invalidates,
    /// `let`
    Let,
    /// `out`
    Out,
    /// `exit`
    Exit,
    /// `if`
    If,
    /// `step`
    Step,
    /// `elif`
    Elif,
    /// `else`
    Else,
    /// `while`
    While,
    /// `return`
    Return,
    /// `ctx`
    Ctx,
    /// `call`
    Call,
    /// `to`
    To,
    /// `append`
    Append,
    /// `or`
    Or,
    /// `and`
    And,
    /// `not`
    Not,
    /// `true`
    True,
    /// `false`
    False,
    /// `inputs`
    Inputs,
    /// `trim`
    Trim,
    /// `len`
    Len,
    /// `get`
    Get,
    /// `has`
    Has,
    /// `line`
    Line,
    /// `contains`
    Contains,
    /// `min`
    Min,
    /// `max`
    Max,
    /// `given`
    Given,
    /// `count`
    Count,
    /// `outputs`
    Outputs,
    /// `status`
    Status,
    /// `ok`
    Ok,
}

/// The signs.
#[derive(Clone, Copy, Debug, PartialEq, Eq)]
pub enum Symbol {
    /// `{`
    OpenBrace,
    /// `}`
    CloseBrace,
    /// `(`
    Open,
    /// `)`
    Close,
    /// `[`
    OpenSquare,
    /// `]`
    CloseSquare,
    /// `,`
    Comma,
    /// `;`
    Semi,
    /// `:`
    Colon,
    /// `.`
    Dot,
    /// `?`
    Question,
    /// `=`
    Is,
    /// `==`
    Equal,
    /// `!=`
    Differs,
    /// `<`
    Less,
    /// `<=`
    AtMost,
    /// `>`
    Greater,
    /// `>=`
    AtLeast,
    /// `+`
    Plus,
    /// `-`
    Minus,
    /// `*`
    Star,
    /// `/`
    Slash,
    /// `%`
    Percent,
    /// `->`
    Arrow,
}
