//! The printed text of outlines.

ghost use Rattle.std.specs.Prelude.{◌≡◌, ◌++◌, OnOk, string_bytes, codes, map, flat_map};
ghost use Rattle.std.specs.Option.{option_map};
ghost use Rattle.wc_syntax.specs.Printing.{items, in_brackets, expr_text, line, deeper, arg_text, call_text, stmt_text, stmt_lines, step_lines, branch_lines, arm_word, branches_lines, else_lines, returned_text, if_lines, block_lines, instr_lines, arm_branch};

use crate::expression::{Expr, Number};
use crate::outline::{Arm, Arms, Block, CallArg, CallStmt, Instr, Instrs, Step, Stmt};
use crate::printing::expressions::{put_context, put_expr, put_number, put_separator};
use crate::printing::lines::{deeper, put_exit, put_set, put_setting};
use std::alloc::{AllocError, Global};

/// Writes an argument of a call.
fn put_arg(alloc: Global, out: &mut String, arg: &CallArg) -> Result<(), AllocError>
    ensures { OnOk result (string_bytes out.new ≡ string_bytes out.old ++ arg_text arg.now) }
{
    out.push_str(arg.port.text.as_str())?;
    out.push_str(": ")?;
    put_expr(alloc, out, &arg.value)
}

/// Writes arguments with a comma and a space between them.
fn put_args(alloc: Global, out: &mut String, args: &[CallArg]) -> Result<(), AllocError>
    ensures { OnOk result (string_bytes out.new ≡ string_bytes out.old ++ items arg_text args.now) }
{
    let mut first = true;
    for arg in args {
        put_separator(out, first)?;
        put_arg(alloc, out, arg)?;
        first = false;
    }
    Ok(())
}

/// Writes a call.
fn put_call(alloc: Global, out: &mut String, call: &CallStmt) -> Result<(), AllocError>
    ensures { OnOk result (string_bytes out.new ≡ string_bytes out.old ++ call_text call.now) }
{
    out.push_str("call ")?;
    out.push_str(call.callee.text.as_str())?;
    out.push_str("(")?;
    put_args(alloc, out, call.args.as_slice())?;
    out.push_str(")")?;
    out.push_str(if call.append { " append " } else { " to " })?;
    put_context(out, &call.key)?;
    out.push_str(";")
}

/// Writes a statement of a step.
fn put_stmt(alloc: Global, out: &mut String, stmt: &Stmt) -> Result<(), AllocError>
    ensures { OnOk result (string_bytes out.new ≡ string_bytes out.old ++ stmt_text stmt.now) }
{
    match stmt {
        Stmt::Ctx(_, name, expr) => put_setting(alloc, out, "ctx.", name, expr),
        Stmt::Out(_, name, expr) => put_setting(alloc, out, "out ", name, expr),
        Stmt::Exit(exit) => put_exit(alloc, out, exit),
        Stmt::Call(call) => put_call(alloc, out, call),
    }
}

/// Writes the line that closes a brace.
pub fn put_closing(out: &mut String, margin: &str) -> Result<(), AllocError>
    ensures { OnOk result (string_bytes out.new ≡ string_bytes out.old ++ line margin.now (codes "}")) }
{
    out.push_str(margin)?;
    out.push_str("}\n")
}

/// Writes the line of a statement.
fn put_stmt_line(
    alloc: Global,
    out: &mut String,
    margin: &str,
    stmt: &Stmt,
) -> Result<(), AllocError>
    ensures { OnOk result (string_bytes out.new ≡ string_bytes out.old ++ line margin.now (stmt_text stmt.now)) }
{
    out.push_str(margin)?;
    put_stmt(alloc, out, stmt)?;
    out.push_str("\n")
}

/// Writes the lines of statements.
fn put_stmts(
    alloc: Global,
    out: &mut String,
    margin: &str,
    stmts: &[Stmt],
) -> Result<(), AllocError>
    ensures { OnOk result (string_bytes out.new ≡ string_bytes out.old ++ stmt_lines margin.now stmts.now) }
{
    for stmt in stmts {
        put_stmt_line(alloc, out, margin, stmt)?;
    }
    Ok(())
}

/// Writes the lines of a step.
fn put_step(alloc: Global, out: &mut String, margin: &str, step: &Step) -> Result<(), AllocError>
    ensures { OnOk result (string_bytes out.new ≡ string_bytes out.old ++ step_lines margin.now step.now) }
{
    out.push_str(margin)?;
    out.push_str("step ")?;
    out.push_str(step.name.text.as_str())?;
    out.push_str(" {\n")?;
    let inner = deeper(alloc, margin)?;
    put_stmts(alloc, out, inner.as_str(), step.stmts.as_slice())?;
    put_closing(out, margin)
}

/// Writes the line of a `return`.
fn put_return(
    alloc: Global,
    out: &mut String,
    margin: &str,
    status: &Option<Number>,
) -> Result<(), AllocError>
    ensures { OnOk result (string_bytes out.new ≡ string_bytes out.old ++ line margin.now (codes "return" ++ returned_text status.now ++ codes ";")) }
{
    out.push_str(margin)?;
    out.push_str("return")?;
    if let Some(number) = status {
        out.push_str(" ")?;
        put_number(alloc, out, number)?;
    }
    out.push_str(";\n")
}

/// Writes the line that opens a branch. The word has the space behind it.
fn put_opening(
    alloc: Global,
    out: &mut String,
    margin: &str,
    word: &str,
    condition: &Expr,
) -> Result<(), AllocError>
    ensures { OnOk result (string_bytes out.new ≡ string_bytes out.old ++ line margin.now (word.now ++ expr_text condition.now ++ codes " {")) }
{
    out.push_str(margin)?;
    out.push_str(word)?;
    put_expr(alloc, out, condition)?;
    out.push_str(" {\n")
}

/// Writes the lines of an instruction.
#[cycle(print)]
fn put_instr(alloc: Global, out: &mut String, margin: &str, instr: &Instr) -> Result<(), AllocError>
    ensures { OnOk result (string_bytes out.new ≡ string_bytes out.old ++ instr_lines instr.now margin.now) }
{
    match instr {
        Instr::Step(step) => put_step(alloc, out, margin, step),
        Instr::If(_, arms, other) => {
            put_arms(alloc, out, margin, arms)?;
            put_else(alloc, out, margin, other)?;
            put_closing(out, margin)
        }
        Instr::While(_, condition, body) => {
            put_opening(alloc, out, margin, "while ", condition)?;
            put_inner(alloc, out, margin, body)?;
            put_closing(out, margin)
        }
        Instr::Return(_, status) => put_return(alloc, out, margin, status),
    }
}

/// Writes the branches of an `if`.
#[cycle(print)]
fn put_arms(alloc: Global, out: &mut String, margin: &str, arms: &Arms) -> Result<(), AllocError>
    ensures { OnOk result (string_bytes out.new ≡ string_bytes out.old ++ if_lines margin.now (map arm_branch arms.now)) }
{
    let mut first = true;
    for arm in arms.as_slice() {
        put_arm(alloc, out, margin, first, arm)?;
        first = false;
    }
    Ok(())
}

/// Writes a branch of an `if`, the first or a further one.
#[cycle(print)]
fn put_arm(
    alloc: Global,
    out: &mut String,
    margin: &str,
    first: bool,
    arm: &Arm,
) -> Result<(), AllocError>
    ensures { OnOk result (string_bytes out.new ≡ string_bytes out.old ++ branch_lines (arm_word first) margin.now (arm_branch arm.now)) }
{
    let word = if first { "if " } else { "} elif " };
    put_opening(alloc, out, margin, word, &arm.condition)?;
    put_inner(alloc, out, margin, &arm.block)
}

/// Writes the `else` of an `if`, where there is one.
#[cycle(print)]
fn put_else(
    alloc: Global,
    out: &mut String,
    margin: &str,
    other: &Option<Block>,
) -> Result<(), AllocError>
    ensures { OnOk result (string_bytes out.new ≡ string_bytes out.old ++ else_lines margin.now (option_map block_lines other.now)) }
{
    match other {
        None => Ok(()),
        Some(block) => {
            out.push_str(margin)?;
            out.push_str("} else {\n")?;
            put_inner(alloc, out, margin, block)
        }
    }
}

/// Writes the lines in a block whose braces stand behind this margin.
#[cycle(print)]
fn put_inner(alloc: Global, out: &mut String, margin: &str, block: &Block) -> Result<(), AllocError>
    ensures { OnOk result (string_bytes out.new ≡ string_bytes out.old ++ block_lines block.now (deeper margin.now)) }
{
    let inner = deeper(alloc, margin)?;
    put_block(alloc, out, inner.as_str(), block)
}

/// Writes the lines in a block, without its braces.
#[cycle(print)]
pub fn put_block(
    alloc: Global,
    out: &mut String,
    margin: &str,
    block: &Block,
) -> Result<(), AllocError>
    ensures { OnOk result (string_bytes out.new ≡ string_bytes out.old ++ block_lines block.now margin.now) }
{
    put_instrs(alloc, out, margin, &block.instrs)
}

/// Writes the lines of instructions.
#[cycle(print)]
fn put_instrs(
    alloc: Global,
    out: &mut String,
    margin: &str,
    instrs: &Instrs,
) -> Result<(), AllocError>
    ensures { OnOk result (string_bytes out.new ≡ string_bytes out.old ++ flat_map (λ i. instr_lines i margin.now) instrs.now) }
{
    for instr in instrs.as_slice() {
        put_instr(alloc, out, margin, instr)?;
    }
    Ok(())
}
