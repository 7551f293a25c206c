//! A number for each kind of token.

ghost use Rattle.std.specs.Prelude.{◌≡◌};
ghost use Rattle.wc_grammar.specs.Kinds.{kind as kind_of, word_kind as word_of, symbol_kind as symbol_of};

use wc_lexer::{Symbol, Token, Word};

/// A name.
pub const K_NAME: u8 = 0;

/// A number.
pub const K_NUMBER: u8 = 1;

/// A text in quotes.
pub const K_QUOTED: u8 = 2;

/// `{`
pub const S_OPEN_BRACE: u8 = 3;

/// `}`
pub const S_CLOSE_BRACE: u8 = 4;

/// `(`
pub const S_OPEN: u8 = 5;

/// `)`
pub const S_CLOSE: u8 = 6;

/// `[`
pub const S_OPEN_SQUARE: u8 = 7;

/// `]`
pub const S_CLOSE_SQUARE: u8 = 8;

/// `,`
pub const S_COMMA: u8 = 9;

/// `;`
pub const S_SEMI: u8 = 10;

/// `:`
pub const S_COLON: u8 = 11;

/// `.`
pub const S_DOT: u8 = 12;

/// `?`
pub const S_QUESTION: u8 = 13;

/// `=`
pub const S_IS: u8 = 14;

/// `==`
pub const S_EQUAL: u8 = 15;

/// `!=`
pub const S_DIFFERS: u8 = 16;

/// `<`
pub const S_LESS: u8 = 17;

/// `<=`
pub const S_AT_MOST: u8 = 18;

/// `>`
pub const S_GREATER: u8 = 19;

/// `>=`
pub const S_AT_LEAST: u8 = 20;

/// `+`
pub const S_PLUS: u8 = 21;

/// `-`
pub const S_MINUS: u8 = 22;

/// `*`
pub const S_STAR: u8 = 23;

/// `/`
pub const S_SLASH: u8 = 24;

/// `%`
pub const S_PERCENT: u8 = 25;

/// `->`
pub const S_ARROW: u8 = 26;

/// `calcfunction`
pub const W_CALCFUNCTION: u8 = 27;

/// `calcjob`
pub const W_CALCJOB: u8 = 28;

/// `workchain`
pub const W_WORKCHAIN: u8 = 29;

/// `program`
pub const W_PROGRAM: u8 = 30;

/// `arg`
pub const W_ARG: u8 = 31;

/// `file`
pub const W_FILE: u8 = 32;

/// `fetch`
pub const W_FETCH: u8 = 33;

/// `parse`
pub const W_PARSE: u8 = 34;

/// `int`
pub const W_INT: u8 = 35;

/// `bool`
pub const W_BOOL: u8 = 36;

/// `text`
pub const W_TEXT: u8 = 37;

/// `list`
pub const W_LIST: u8 = 38;

/// `dict`
pub const W_DICT: u8 = 39;

/// `folder`
pub const W_FOLDER: u8 = 40;

/// `exit_code`
pub const W_EXIT_CODE: u8 = 41;

/// `invalidates`
pub const W_INVALIDATES: u8 = 42;

/// `let`
pub const W_LET: u8 = 43;

/// `out`
pub const W_OUT: u8 = 44;

/// `exit`
pub const W_EXIT: u8 = 45;

/// `if`
pub const W_IF: u8 = 46;

/// `step`
pub const W_STEP: u8 = 47;

/// `elif`
pub const W_ELIF: u8 = 48;

/// `else`
pub const W_ELSE: u8 = 49;

/// `while`
pub const W_WHILE: u8 = 50;

/// `return`
pub const W_RETURN: u8 = 51;

/// `ctx`
pub const W_CTX: u8 = 52;

/// `call`
pub const W_CALL: u8 = 53;

/// `to`
pub const W_TO: u8 = 54;

/// `append`
pub const W_APPEND: u8 = 55;

/// `or`
pub const W_OR: u8 = 56;

/// `and`
pub const W_AND: u8 = 57;

/// `not`
pub const W_NOT: u8 = 58;

/// `true`
pub const W_TRUE: u8 = 59;

/// `false`
pub const W_FALSE: u8 = 60;

/// `inputs`
pub const W_INPUTS: u8 = 61;

/// `trim`
pub const W_TRIM: u8 = 62;

/// `len`
pub const W_LEN: u8 = 63;

/// `get`
pub const W_GET: u8 = 64;

/// `has`
pub const W_HAS: u8 = 65;

/// `line`
pub const W_LINE: u8 = 66;

/// `contains`
pub const W_CONTAINS: u8 = 67;

/// `min`
pub const W_MIN: u8 = 68;

/// `max`
pub const W_MAX: u8 = 69;

/// `given`
pub const W_GIVEN: u8 = 70;

/// `count`
pub const W_COUNT: u8 = 71;

/// `outputs`
pub const W_OUTPUTS: u8 = 72;

/// `status`
pub const W_STATUS: u8 = 73;

/// `ok`
pub const W_OK: u8 = 74;

fn word_kind(word: Word) -> u8
    ensures { result ≡ word_of word }
{
    match word {
        Word::Calcfunction => W_CALCFUNCTION,
        Word::Calcjob => W_CALCJOB,
        Word::Workchain => W_WORKCHAIN,
        Word::Program => W_PROGRAM,
        Word::Arg => W_ARG,
        Word::File => W_FILE,
        Word::Fetch => W_FETCH,
        Word::Parse => W_PARSE,
        Word::Int => W_INT,
        Word::Bool => W_BOOL,
        Word::Text => W_TEXT,
        Word::List => W_LIST,
        Word::Dict => W_DICT,
        Word::Folder => W_FOLDER,
        Word::ExitCode => W_EXIT_CODE,
        Word::Invalidates => W_INVALIDATES,
        Word::Let => W_LET,
        Word::Out => W_OUT,
        Word::Exit => W_EXIT,
        Word::If => W_IF,
        Word::Step => W_STEP,
        Word::Elif => W_ELIF,
        Word::Else => W_ELSE,
        Word::While => W_WHILE,
        Word::Return => W_RETURN,
        Word::Ctx => W_CTX,
        Word::Call => W_CALL,
        Word::To => W_TO,
        Word::Append => W_APPEND,
        Word::Or => W_OR,
        Word::And => W_AND,
        Word::Not => W_NOT,
        Word::True => W_TRUE,
        Word::False => W_FALSE,
        Word::Inputs => W_INPUTS,
        Word::Trim => W_TRIM,
        Word::Len => W_LEN,
        Word::Get => W_GET,
        Word::Has => W_HAS,
        Word::Line => W_LINE,
        Word::Contains => W_CONTAINS,
        Word::Min => W_MIN,
        Word::Max => W_MAX,
        Word::Given => W_GIVEN,
        Word::Count => W_COUNT,
        Word::Outputs => W_OUTPUTS,
        Word::Status => W_STATUS,
        Word::Ok => W_OK,
    }
}

fn symbol_kind(symbol: Symbol) -> u8
    ensures { result ≡ symbol_of symbol }
{
    match symbol {
        Symbol::OpenBrace => S_OPEN_BRACE,
        Symbol::CloseBrace => S_CLOSE_BRACE,
        Symbol::Open => S_OPEN,
        Symbol::Close => S_CLOSE,
        Symbol::OpenSquare => S_OPEN_SQUARE,
        Symbol::CloseSquare => S_CLOSE_SQUARE,
        Symbol::Comma => S_COMMA,
        Symbol::Semi => S_SEMI,
        Symbol::Colon => S_COLON,
        Symbol::Dot => S_DOT,
        Symbol::Question => S_QUESTION,
        Symbol::Is => S_IS,
        Symbol::Equal => S_EQUAL,
        Symbol::Differs => S_DIFFERS,
        Symbol::Less => S_LESS,
        Symbol::AtMost => S_AT_MOST,
        Symbol::Greater => S_GREATER,
        Symbol::AtLeast => S_AT_LEAST,
        Symbol::Plus => S_PLUS,
        Symbol::Minus => S_MINUS,
        Symbol::Star => S_STAR,
        Symbol::Slash => S_SLASH,
        Symbol::Percent => S_PERCENT,
        Symbol::Arrow => S_ARROW,
    }
}

/// The kind of a token.
pub fn kind(token: &Token) -> u8
    ensures { result ≡ kind_of token.now }
{
    match token {
        Token::Name(_) => K_NAME,
        Token::Number(_) => K_NUMBER,
        Token::Quoted(_) => K_QUOTED,
        Token::Word(word) => word_kind(*word),
        Token::Symbol(symbol) => symbol_kind(*symbol),
    }
}
