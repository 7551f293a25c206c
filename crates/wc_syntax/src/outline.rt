//! The outline of a work chain.

use crate::definition::Exit;
use crate::expression::{Expr, Name, Number};
use wc_lexer::List;

/// Statements in the order of the file.
pub type Stmts = List<Stmt>;

/// The arguments of a call in the order of the file.
pub type CallArgs = List<CallArg>;

/// Instructions in the order of the file.
pub type Instrs = List<Instr>;

/// The arms of an `if` in the order of the file.
pub type Arms = List<Arm>;

/// An argument of a call.
#[derive(Drop)]
pub struct CallArg {
    /// The input port of what is called.
    pub port: Name,
    /// What is given for it.
    pub value: Expr,
}

/// `call NAME(..) to ctx.KEY;` or `call NAME(..) append ctx.KEY;`
#[derive(Drop)]
pub struct CallStmt {
    /// Where it begins in the file.
    pub at: u32,
    /// The definition that is called.
    pub callee: Name,
    /// What is given for its input ports.
    pub args: CallArgs,
    /// Whether the child joins a list of children.
    pub append: bool,
    /// The key of the context that holds the child.
    pub key: Name,
}

/// A statement of a step. An offset is that of the statement's first token.
#[derive(Drop)]
pub enum Stmt {
    /// `ctx.NAME = expr;` sets a plain value of the context.
    Ctx(u32, Name, Expr),
    /// `out NAME = expr;` sets an output.
    Out(u32, Name, Expr),
    /// `exit N;` or `exit N if expr;`
    Exit(Exit),
    /// A call of another definition.
    Call(CallStmt),
}

/// A step: statements that run together.
#[derive(Drop)]
pub struct Step {
    /// Where it begins in the file.
    pub at: u32,
    /// Its name.
    pub name: Name,
    /// What it does, in order.
    pub stmts: Stmts,
}

/// A block of instructions in braces.
#[cycle(instr)]
#[derive(Drop)]
pub struct Block {
    /// The instructions, in order.
    pub instrs: Instrs,
}

/// A condition and the block that runs where it is true.
#[cycle(instr)]
#[derive(Drop)]
pub struct Arm {
    /// The condition.
    pub condition: Expr,
    /// What runs where it is true.
    pub block: Block,
}

/// An instruction of an outline. An offset is that of the instruction's first token.
#[cycle(instr)]
#[derive(Drop)]
pub enum Instr {
    /// A step.
    Step(Step),
    /// The `if`, the `elif`s behind it, and the block of its `else`.
    If(u32, Arms, Option<Block>),
    /// `while expr { .. }`
    While(u32, Expr, Block),
    /// `return;` or `return N;`
    Return(u32, Option<Number>),
}
