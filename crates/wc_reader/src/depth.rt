//! How deep tokens nest, and how much a statement weighs: the bounds that keep later recursions shallow.

ghost use Rattle.std.specs.Prelude.{◌≡◌, ◌≤◌, ◌+◌, if◌then◌else◌};
ghost use Rattle.wc_lexer.specs.Bounds.{is_called, weight_of, ends_statement};
ghost use Rattle.wc_reader.specs.Depth.{braces_after, brackets_after, weight_after, is_past, too_deep};
ghost use Rattle.wc_reader.specs.Nesting.{NamesFirst};

use wc_lexer::{Spot, Symbol, Token, Word};

const MOST_BRACES: u32 = 24;

const MOST_BRACKETS: u32 = 128;

const MOST_WEIGHT: u32 = 100;

/// What is open, and the weight of the statement so far, at a place between tokens.
#[derive(Clone, Copy)]
pub struct Walk {
    /// How many braces are open.
    pub braces: u32,
    /// How many round and square brackets are open.
    pub brackets: u32,
    /// How many tokens of weight one the statement has.
    pub weight: u32,
    /// Whether an opening bracket here would be that of a call.
    pub called: bool,
}

/// Whether a `(` behind this token opens the arguments of a call.
fn is_called(token: &Token) -> bool
    ensures { result ≡ is_called token.now }
{
    match token {
        Token::Name(_) => true,
        Token::Word(word) => matches!(
            *word,
            Word::Text
                | Word::Int
                | Word::Trim
                | Word::Len
                | Word::Get
                | Word::Has
                | Word::File
                | Word::Line
                | Word::Contains
                | Word::Min
                | Word::Max
                | Word::Given
                | Word::Count
        ),
        _ => false,
    }
}

/// What a symbol adds to the weight of its statement: 1 for what makes an expression deeper, behind a called word also `(`.
fn symbol_weight(called: bool, symbol: Symbol) -> u32
    ensures { result ≡ weight_of called (Token.Symbol symbol) }
{
    match symbol {
        Symbol::Plus
        | Symbol::Minus
        | Symbol::Star
        | Symbol::Slash
        | Symbol::Percent
        | Symbol::Equal
        | Symbol::Differs
        | Symbol::Less
        | Symbol::AtMost
        | Symbol::Greater
        | Symbol::AtLeast
        | Symbol::OpenSquare => 1,
        Symbol::Open => { if called { 1 } else { 0 } }
        _ => 0,
    }
}

/// What a token adds to the weight of its statement: 0 or 1.
fn weight_of(called: bool, token: &Token) -> u32
    ensures value { result ≡ weight_of called token.now }
    ensures small { result ≤ 1 }
{
    match token {
        Token::Word(Word::And | Word::Or | Word::Not) => 1,
        Token::Symbol(symbol) => symbol_weight(called, *symbol),
        _ => 0,
    }
}

/// The weight of the statement behind a token; a statement's end begins again at 0.
fn weight_after(weight: u32, called: bool, token: &Token) -> u32
    requires { weight ≤ MOST_WEIGHT }
    ensures { result ≡ weight_after weight called token.now }
{
    match token {
        Token::Symbol(Symbol::Semi | Symbol::OpenBrace | Symbol::CloseBrace) => 0,
        _ => weight + weight_of(called, token),
    }
}

/// How many braces are open behind a token.
fn braces_after(braces: u32, token: &Token) -> u32
    requires { braces ≤ MOST_BRACES }
    ensures { result ≡ braces_after braces token.now }
{
    match token {
        Token::Symbol(Symbol::OpenBrace) => braces + 1,
        Token::Symbol(Symbol::CloseBrace) => braces.saturating_sub(1),
        _ => braces,
    }
}

/// How many round and square brackets are open behind a token.
fn brackets_after(brackets: u32, token: &Token) -> u32
    requires { brackets ≤ MOST_BRACKETS }
    ensures { result ≡ brackets_after brackets token.now }
{
    match token {
        Token::Symbol(Symbol::Open | Symbol::OpenSquare) => brackets + 1,
        Token::Symbol(Symbol::Close | Symbol::CloseSquare) => brackets.saturating_sub(1),
        _ => brackets,
    }
}

/// Whether one of the three bounds was passed.
fn is_past(walk: Walk) -> bool
    ensures { result ≡ is_past walk }
{
    walk.braces > MOST_BRACES || walk.brackets > MOST_BRACKETS || walk.weight > MOST_WEIGHT
}

/// The offset of the first token that is a `{` nested more than 24 deep, a `(` or `[` nested more than 128 deep,
/// or the 101st token of weight one in a statement.
pub fn too_deep(tokens: &[Spot]) -> Option<u32>
    ensures { result ≡ too_deep tokens.now }
{
    let mut walk = Walk {
        braces: 0,
        brackets: 0,
        weight: 0,
        called: false,
    };
    for (token, at) in tokens {
        walk = Walk {
            braces: braces_after(walk.braces, token),
            brackets: brackets_after(walk.brackets, token),
            weight: weight_after(walk.weight, walk.called, token),
            called: is_called(token),
        };
        if is_past(walk) {
            return Some(*at);
        }
    }
    None
}

/// The walk names a token exactly where it is the first that leads past a bound, and none where no token does.
pub fn walk_names_the_first()
    ensures { NamesFirst }
{}
