//! Names, literals and expressions.

use wc_lexer::{Boxed, List, Text};

/// A name: a letter or `_`, then letters, digits and `_`.
#[derive(Drop)]
pub struct Name {
    /// What the name is.
    pub text: Text,
    /// Where it begins in the file.
    pub at: u32,
}

/// A text in quotes.
#[derive(Drop)]
pub struct Quoted {
    /// What stands between the quotes, with its escapes resolved.
    pub text: Text,
    /// Where the opening quote is in the file.
    pub at: u32,
}

/// A whole number.
#[derive(Clone, Copy, Debug, PartialEq, Eq)]
pub struct Number {
    /// What the digits spell.
    pub value: i64,
    /// Where its first digit is in the file.
    pub at: u32,
}

/// An operator before one operand.
#[derive(Clone, Copy, PartialEq, Eq)]
pub enum UnaryOp {
    /// `-`
    Negate,
    /// `not`
    Not,
}

/// An operator between two operands.
#[derive(Clone, Copy, PartialEq, Eq)]
pub enum BinaryOp {
    /// `or`
    Or,
    /// `and`
    And,
    /// `==`
    Equal,
    /// `!=`
    Differs,
    /// `<`
    Less,
    /// `<=`
    AtMost,
    /// `>`
    Greater,
    /// `>=`
    AtLeast,
    /// `+`
    Add,
    /// `-`
    Subtract,
    /// `*`
    Multiply,
    /// `/`
    Divide,
    /// `%`
    Remainder,
}

/// A word that takes one argument.
#[derive(Clone, Copy, PartialEq, Eq)]
pub enum OneOf {
    /// `text(e)`
    Text,
    /// `int(e)`
    Int,
    /// `trim(e)`
    Trim,
    /// `len(e)`
    Len,
}

/// A word that takes two arguments.
#[derive(Clone, Copy, PartialEq, Eq)]
pub enum TwoOf {
    /// `get(e, e)`
    Get,
    /// `has(e, e)`
    Has,
    /// `file(e, e)`
    File,
    /// `line(e, e)`
    Line,
    /// `contains(e, e)`
    Contains,
    /// `min(e, e)`
    Min,
    /// `max(e, e)`
    Max,
}

/// What is asked of a child in the context of a work chain.
#[derive(Drop)]
pub enum ChildPart {
    /// `.outputs.NAME`: one of its outputs.
    Outputs(Name),
    /// `.status`: its exit status.
    Status,
    /// `.ok`: whether it finished with 0.
    Ok,
}

/// Expressions in the order of the file.
pub type Exprs = List<Expr>;

/// An expression.
#[cycle(expr)]
#[derive(Drop)]
pub struct Expr {
    /// Where its first token is in the file.
    pub at: u32,
    /// What it is made of.
    pub form: Form,
}

/// What an expression is made of. The offset of a form is that of the word `inputs` or `ctx`.
#[cycle(expr)]
#[derive(Drop)]
pub enum Form {
    /// A whole number.
    Number(Number),
    /// A text in quotes.
    Quoted(Quoted),
    /// `true` or `false`.
    Truth(bool),
    /// The name of an input port or of a `let`, in a function or a job.
    Bare(Name),
    /// `inputs.NAME`: an input of a work chain.
    Input(u32, Name),
    /// `ctx.NAME`: a value in the context of a work chain.
    Plain(u32, Name),
    /// `ctx.NAME` or `ctx.NAME[e]`, and what is asked of that child.
    Child(u32, Name, Option<Boxed<Expr>>, ChildPart),
    /// An operator before one operand.
    Unary(UnaryOp, Boxed<Expr>),
    /// An operator between two operands.
    Binary(BinaryOp, Boxed<Expr>, Boxed<Expr>),
    /// A word with one argument.
    One(OneOf, Boxed<Expr>),
    /// A word with two arguments.
    Two(TwoOf, Boxed<Expr>, Boxed<Expr>),
    /// `given(NAME)` in a function or a job.
    GivenBare(Name),
    /// `given(inputs.NAME)` in a work chain.
    GivenInput(u32, Name),
    /// `count(ctx.NAME)`: how many children a key of the context holds.
    Count(u32, Name),
    /// A list of expressions in square brackets.
    List(Exprs),
}
