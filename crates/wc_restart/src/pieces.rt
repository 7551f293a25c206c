//! Syntax without offsets, of which the chain is made.

ghost use Rattle.std.specs.Prelude.{◌≡◌, [], ◌∷◌, map, IfOk};
ghost use Rattle.wc_restart.specs.Pieces.{word, number, expr, numeral, truth, input, plain, child, output_of, negated, joined, set, exit, given, call_with, step, block, arm, either, while};
ghost use Rattle.wc_restart.specs.Sources.{source_of};

use std::alloc::{AllocError, Global};
use wc_syntax::{
    Arm, Arms, BinaryOp, Block, CallArg, CallArgs, CallStmt, ChildPart, Exit, Expr, Form, Instr,
    Instrs, Name, Number, PortList, Step, Stmt, Stmts, UnaryOp,
};
use wc_value::{Boxed, Duplicate, List, Text};

/// Where the values of a call come from.
#[derive(Clone, Copy)]
pub enum Source {
    /// The inputs of the chain.
    Inputs,
    /// The outputs of the function that was called last.
    Fix,
}

/// A list of one item.
pub fn one<T: Drop>(alloc: Global, item: T) -> Result<List<T>, AllocError>
    ensures { IfOk result (λ l. l ≡ item ∷ []) }
{
    let mut items = List::new(alloc);
    items.push(item)?;
    Ok(items)
}

/// A name that the text of the chain has.
pub fn word(alloc: Global, text: &str) -> Result<Name, AllocError>
    ensures { IfOk result (λ n. n ≡ word text.now) }
{
    Ok(Name {
        text: Text::of_str(alloc, text)?,
        at: 0,
    })
}

/// A name that the library or the spec has.
pub fn name_of(text: &Text) -> Result<Name, AllocError>
    ensures { IfOk result (λ n. n ≡ word text.now) }
{
    Ok(Name {
        text: text.copy()?,
        at: 0,
    })
}

/// A number.
pub fn number(n: u32) -> Number
    ensures { result ≡ number n }
{
    Number {
        value: i64::from(n),
        at: 0,
    }
}

/// An expression of this form.
fn expr(form: Form) -> Expr
    ensures { result ≡ expr form }
{
    Expr { at: 0, form }
}

/// A number as an expression.
pub fn numeral(n: u32) -> Expr
    ensures { result ≡ numeral n }
{
    expr(Form::Number(number(n)))
}

/// `true` or `false`.
pub fn truth(b: bool) -> Expr
    ensures { result ≡ truth b }
{
    expr(Form::Truth(b))
}

/// `inputs.name`
fn input(name: &Text) -> Result<Expr, AllocError>
    ensures { IfOk result (λ e. e ≡ input name.now) }
{
    Ok(expr(Form::Input(0, name_of(name)?)))
}

/// `ctx.key`
pub fn plain(alloc: Global, key: &str) -> Result<Expr, AllocError>
    ensures { IfOk result (λ e. e ≡ plain key.now) }
{
    Ok(expr(Form::Plain(0, word(alloc, key)?)))
}

/// `ctx.key` with what is asked of that child.
pub fn child(alloc: Global, key: &str, part: ChildPart) -> Result<Expr, AllocError>
    ensures { IfOk result (λ e. e ≡ child key.now part) }
{
    Ok(expr(Form::Child(0, word(alloc, key)?, None, part)))
}

/// `ctx.key.outputs.label`
pub fn output_of(alloc: Global, key: &str, label: &Text) -> Result<Expr, AllocError>
    ensures { IfOk result (λ e. e ≡ output_of key.now label.now) }
{
    child(alloc, key, ChildPart::Outputs(name_of(label)?))
}

/// `(not e)`
pub fn negated(alloc: Global, e: Expr) -> Result<Expr, AllocError>
    ensures { IfOk result (λ r. r ≡ negated e) }
{
    Ok(expr(Form::Unary(UnaryOp::Not, Boxed::new(alloc, e)?)))
}

/// An operator between two expressions.
pub fn joined(alloc: Global, op: BinaryOp, a: Expr, b: Expr) -> Result<Expr, AllocError>
    ensures { IfOk result (λ r. r ≡ joined op a b) }
{
    let a = Boxed::new(alloc, a)?;
    Ok(expr(Form::Binary(op, a, Boxed::new(alloc, b)?)))
}

/// `ctx.key = e;`
pub fn set(alloc: Global, key: &str, e: Expr) -> Result<Stmt, AllocError>
    ensures { IfOk result (λ r. r ≡ set key.now e) }
{
    Ok(Stmt::Ctx(0, word(alloc, key)?, e))
}

/// `exit status;` or `exit status if condition;`
pub fn exit(status: u32, condition: Option<Expr>) -> Stmt
    ensures { result ≡ exit status condition }
{
    Stmt::Exit(Exit {
        at: 0,
        status: number(status),
        condition,
    })
}

/// What a call is given by this name.
fn value_from(alloc: Global, from: Source, name: &Text) -> Result<Expr, AllocError>
    ensures { IfOk result (λ e. e ≡ source_of from name.now) }
{
    match from {
        Source::Inputs => input(name),
        Source::Fix => output_of(alloc, "fix", name),
    }
}

/// What a call is given for a port of this name.
fn argument(alloc: Global, from: Source, name: &Text) -> Result<CallArg, AllocError>
    ensures { IfOk result (λ a. a ≡ record { port = word name.now; value = source_of from name.now }) }
{
    let value = value_from(alloc, from, name)?;
    Ok(CallArg {
        port: name_of(name)?,
        value,
    })
}

/// What a call is given for these ports.
fn arguments(alloc: Global, from: Source, ports: &PortList) -> Result<CallArgs, AllocError>
    ensures { IfOk result (λ args. args ≡ map (given (source_of from)) ports.now) }
{
    let mut args = CallArgs::new(alloc);
    for port in ports.as_slice() {
        args.push(argument(alloc, from, &port.name.text)?)?;
    }
    Ok(args)
}

/// `call callee(x: e, ..) to ctx.key;`
pub fn call_with(
    alloc: Global,
    callee: &Text,
    from: Source,
    ports: &PortList,
    key: &str,
) -> Result<Stmt, AllocError>
    ensures { IfOk result (λ s. s ≡ call_with callee.now (source_of from) ports.now key.now) }
{
    let args = arguments(alloc, from, ports)?;
    let callee = name_of(callee)?;
    Ok(Stmt::Call(CallStmt {
        at: 0,
        callee,
        args,
        append: false,
        key: word(alloc, key)?,
    }))
}

/// A step.
pub fn step(alloc: Global, name: &str, stmts: Stmts) -> Result<Instr, AllocError>
    ensures { IfOk result (λ i. i ≡ step name.now stmts) }
{
    Ok(Instr::Step(Step {
        at: 0,
        name: word(alloc, name)?,
        stmts,
    }))
}

/// A block.
pub fn block(instrs: Instrs) -> Block
    ensures { result ≡ block instrs }
{
    Block { instrs }
}

/// A condition with its block.
pub fn arm(condition: Expr, instrs: Instrs) -> Arm
    ensures { result ≡ arm condition instrs }
{
    Arm {
        condition,
        block: block(instrs),
    }
}

/// An `if` with these arms, and its `else`.
pub fn either(arms: Arms, instrs: Instrs) -> Instr
    ensures { result ≡ either arms instrs }
{
    Instr::If(0, arms, Some(block(instrs)))
}

/// A loop.
pub fn repeat(condition: Expr, instrs: Instrs) -> Instr
    ensures { result ≡ while condition instrs }
{
    Instr::While(0, condition, block(instrs))
}
