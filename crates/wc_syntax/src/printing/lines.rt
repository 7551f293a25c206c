//! Lines that functions, jobs and work chains have in common.

ghost use Rattle.std.specs.Prelude.{◌≡◌, ◌++◌, IfOk, OnOk, string_bytes, codes, map};
ghost use Rattle.wc_syntax.specs.Printing.{set_text, condition_text, exit_text, deeper, expr_text};

use crate::definition::Exit;
use crate::expression::{Expr, Name};
use crate::printing::expressions::{put_expr, put_number};
use std::alloc::{AllocError, Global};

/// The spaces before a line in a further brace.
pub fn deeper(alloc: Global, margin: &str) -> Result<String, AllocError>
    ensures { IfOk result (λ inner. string_bytes inner ≡ deeper margin.now) }
{
    let mut inner = String::from_str(alloc, "  ")?;
    inner.push_str(margin)?;
    Ok(inner)
}

/// Writes ` = expr;`.
pub fn put_set(alloc: Global, out: &mut String, expr: &Expr) -> Result<(), AllocError>
    ensures { OnOk result (string_bytes out.new ≡ string_bytes out.old ++ codes " = " ++ expr_text expr.now ++ codes ";") }
{
    out.push_str(" = ")?;
    put_expr(alloc, out, expr)?;
    out.push_str(";")
}

/// Writes ` if expr`, where there is a condition.
fn put_condition(
    alloc: Global,
    out: &mut String,
    condition: &Option<Expr>,
) -> Result<(), AllocError>
    ensures { OnOk result (string_bytes out.new ≡ string_bytes out.old ++ condition_text condition.now) }
{
    match condition {
        None => Ok(()),
        Some(expr) => {
            out.push_str(" if ")?;
            put_expr(alloc, out, expr)
        }
    }
}

/// Writes an `exit` statement.
pub fn put_exit(alloc: Global, out: &mut String, exit: &Exit) -> Result<(), AllocError>
    ensures { OnOk result (string_bytes out.new ≡ string_bytes out.old ++ exit_text exit.now) }
{
    out.push_str("exit ")?;
    put_number(alloc, out, &exit.status)?;
    put_condition(alloc, out, &exit.condition)?;
    out.push_str(";")
}

/// Writes `WORD NAME = expr;`, where the word has the space behind it.
pub fn put_setting(
    alloc: Global,
    out: &mut String,
    word: &str,
    name: &Name,
    expr: &Expr,
) -> Result<(), AllocError>
    ensures { OnOk result (string_bytes out.new ≡ string_bytes out.old ++ set_text (word.now ++ name.now.text) expr.now) }
{
    out.push_str(word)?;
    out.push_str(name.text.as_str())?;
    put_set(alloc, out, expr)
}
