//! The printed text of expressions, on one line.

ghost use Rattle.std.specs.Prelude.{◌≡◌, ◌++◌, OnOk, string_bytes, codes, if◌then◌else◌, [], flat_map, encode_utf8};
ghost use Rattle.std.specs.Option.{option_map};
ghost use Rattle.wc_syntax.specs.Printing.{escape, quoted, quoted_text, number_text, items, unary_text, binary_text, one_text, two_text, in_brackets, input_text, context_text, index_text, part_text, expr_text, text_of};

use crate::expression::{
    BinaryOp, ChildPart, Expr, Exprs, Form, Name, Number, OneOf, Quoted, TwoOf, UnaryOp,
};
use std::alloc::{AllocError, Global};
use wc_lexer::Boxed;

/// Writes a character of a text as it stands between quotes.
#[tactic(auto, using(crate::proofs::Escapes::escaped_char, crate::proofs::Escapes::plain_char))]
fn put_char(out: &mut String, c: char) -> Result<(), AllocError>
    ensures { OnOk result (string_bytes out.new ≡ string_bytes out.old ++ flat_map escape (encode_utf8 c)) }
{
    match c {
        '\\' => out.push_str("\\\\"),
        '"' => out.push_str("\\\""),
        '\n' => out.push_str("\\n"),
        '\t' => out.push_str("\\t"),
        _ => out.push(c),
    }
}

/// Writes a text between quotes, with its escapes.
pub fn put_quoted(out: &mut String, quoted: &Quoted) -> Result<(), AllocError>
    ensures { OnOk result (string_bytes out.new ≡ string_bytes out.old ++ quoted_text quoted.now) }
{
    out.push_str("\"")?;
    for c in quoted.text.as_str().chars() {
        put_char(out, c)?;
    }
    out.push_str("\"")
}

/// Writes what stands before an item of a list.
pub fn put_separator(out: &mut String, first: bool) -> Result<(), AllocError>
    ensures { OnOk result (string_bytes out.new ≡ string_bytes out.old ++ (if first then [] else codes ", ")) }
{
    out.push_str(if first { "" } else { ", " })
}

/// Writes a number in decimal digits.
pub fn put_number(alloc: Global, out: &mut String, number: &Number) -> Result<(), AllocError>
    ensures { OnOk result (string_bytes out.new ≡ string_bytes out.old ++ number_text number.now) }
{
    let digits = format!(in alloc; "{}", number.value)?;
    out.push_str(digits.as_str())
}

/// Writes `inputs.NAME`.
fn put_input(out: &mut String, name: &Name) -> Result<(), AllocError>
    ensures { OnOk result (string_bytes out.new ≡ string_bytes out.old ++ input_text name.now) }
{
    out.push_str("inputs.")?;
    out.push_str(name.text.as_str())
}

/// Writes `ctx.NAME`.
pub fn put_context(out: &mut String, name: &Name) -> Result<(), AllocError>
    ensures { OnOk result (string_bytes out.new ≡ string_bytes out.old ++ context_text name.now) }
{
    out.push_str("ctx.")?;
    out.push_str(name.text.as_str())
}

fn unary_sign(op: UnaryOp) -> &'static str
    ensures { result.now ≡ unary_text op }
{
    match op {
        UnaryOp::Negate => "-",
        UnaryOp::Not => "not ",
    }
}

fn binary_sign(op: BinaryOp) -> &'static str
    ensures { result.now ≡ binary_text op }
{
    match op {
        BinaryOp::Or => " or ",
        BinaryOp::And => " and ",
        BinaryOp::Equal => " == ",
        BinaryOp::Differs => " != ",
        BinaryOp::Less => " < ",
        BinaryOp::AtMost => " <= ",
        BinaryOp::Greater => " > ",
        BinaryOp::AtLeast => " >= ",
        BinaryOp::Add => " + ",
        BinaryOp::Subtract => " - ",
        BinaryOp::Multiply => " * ",
        BinaryOp::Divide => " / ",
        BinaryOp::Remainder => " % ",
    }
}

fn one_word(op: OneOf) -> &'static str
    ensures { result.now ≡ one_text op }
{
    match op {
        OneOf::Text => "text",
        OneOf::Int => "int",
        OneOf::Trim => "trim",
        OneOf::Len => "len",
    }
}

fn two_word(op: TwoOf) -> &'static str
    ensures { result.now ≡ two_text op }
{
    match op {
        TwoOf::Get => "get",
        TwoOf::Has => "has",
        TwoOf::File => "file",
        TwoOf::Line => "line",
        TwoOf::Contains => "contains",
        TwoOf::Min => "min",
        TwoOf::Max => "max",
    }
}

/// Writes what is asked of a child.
fn put_part(out: &mut String, part: &ChildPart) -> Result<(), AllocError>
    ensures { OnOk result (string_bytes out.new ≡ string_bytes out.old ++ part_text part.now) }
{
    match part {
        ChildPart::Outputs(name) => {
            out.push_str(".outputs.")?;
            out.push_str(name.text.as_str())
        }
        ChildPart::Status => out.push_str(".status"),
        ChildPart::Ok => out.push_str(".ok"),
    }
}

/// Writes `given(NAME)`.
fn put_given(out: &mut String, name: &Name) -> Result<(), AllocError>
    ensures { OnOk result (string_bytes out.new ≡ string_bytes out.old ++ codes "given" ++ in_brackets name.now.text) }
{
    out.push_str("given(")?;
    out.push_str(name.text.as_str())?;
    out.push_str(")")
}

/// Writes `given(inputs.NAME)`.
fn put_given_input(out: &mut String, name: &Name) -> Result<(), AllocError>
    ensures { OnOk result (string_bytes out.new ≡ string_bytes out.old ++ codes "given" ++ in_brackets (input_text name.now)) }
{
    out.push_str("given(")?;
    put_input(out, name)?;
    out.push_str(")")
}

/// Writes `count(ctx.NAME)`.
fn put_count(out: &mut String, name: &Name) -> Result<(), AllocError>
    ensures { OnOk result (string_bytes out.new ≡ string_bytes out.old ++ codes "count" ++ in_brackets (context_text name.now)) }
{
    out.push_str("count(")?;
    put_context(out, name)?;
    out.push_str(")")
}

/// Writes an expression.
#[cycle(print)]
pub fn put_expr(alloc: Global, out: &mut String, expr: &Expr) -> Result<(), AllocError>
    ensures { OnOk result (string_bytes out.new ≡ string_bytes out.old ++ expr_text expr.now) }
{
    match &expr.form {
        Form::Number(number) => put_number(alloc, out, number),
        Form::Quoted(quoted) => put_quoted(out, quoted),
        Form::Truth(truth) => out.push_str(if *truth { "true" } else { "false" }),
        Form::Bare(name) => out.push_str(name.text.as_str()),
        Form::Input(_, name) => put_input(out, name),
        Form::Plain(_, name) => put_context(out, name),
        Form::Child(_, name, index, part) => put_child(alloc, out, name, index, part),
        Form::Unary(op, operand) => {
            out.push_str("(")?;
            out.push_str(unary_sign(*op))?;
            put_closed(alloc, out, operand.get())
        }
        Form::Binary(op, left, right) => {
            put_opened(alloc, out, left.get())?;
            out.push_str(binary_sign(*op))?;
            put_closed(alloc, out, right.get())
        }
        Form::One(op, argument) => {
            out.push_str(one_word(*op))?;
            out.push_str("(")?;
            put_closed(alloc, out, argument.get())
        }
        Form::Two(op, first, second) => {
            out.push_str(two_word(*op))?;
            put_opened(alloc, out, first.get())?;
            out.push_str(", ")?;
            put_closed(alloc, out, second.get())
        }
        Form::GivenBare(name) => put_given(out, name),
        Form::GivenInput(_, name) => put_given_input(out, name),
        Form::Count(_, name) => put_count(out, name),
        Form::List(items) => put_list(alloc, out, items),
    }
}

/// Writes a path to a child and what is asked of it.
#[cycle(print)]
fn put_child(
    alloc: Global,
    out: &mut String,
    name: &Name,
    index: &Option<Boxed<Expr>>,
    part: &ChildPart,
) -> Result<(), AllocError>
    ensures { OnOk result (string_bytes out.new ≡ string_bytes out.old ++ context_text name.now ++ index_text (option_map expr_text index.now) ++ part_text part.now) }
{
    put_context(out, name)?;
    put_index(alloc, out, index)?;
    put_part(out, part)
}

/// Writes the index of a child, where there is one.
#[cycle(print)]
fn put_index(alloc: Global, out: &mut String, index: &Option<Boxed<Expr>>) -> Result<(), AllocError>
    ensures { OnOk result (string_bytes out.new ≡ string_bytes out.old ++ index_text (option_map expr_text index.now)) }
{
    match index {
        None => Ok(()),
        Some(index) => {
            out.push_str("[")?;
            put_expr(alloc, out, index.get())?;
            out.push_str("]")
        }
    }
}

/// Writes an opening bracket and an expression.
#[cycle(print)]
fn put_opened(alloc: Global, out: &mut String, expr: &Expr) -> Result<(), AllocError>
    ensures { OnOk result (string_bytes out.new ≡ string_bytes out.old ++ codes "(" ++ expr_text expr.now) }
{
    out.push_str("(")?;
    put_expr(alloc, out, expr)
}

/// Writes an expression and a closing bracket.
#[cycle(print)]
fn put_closed(alloc: Global, out: &mut String, expr: &Expr) -> Result<(), AllocError>
    ensures { OnOk result (string_bytes out.new ≡ string_bytes out.old ++ expr_text expr.now ++ codes ")") }
{
    put_expr(alloc, out, expr)?;
    out.push_str(")")
}

/// Writes a list in square brackets.
#[cycle(print)]
fn put_list(alloc: Global, out: &mut String, exprs: &Exprs) -> Result<(), AllocError>
    ensures { OnOk result (string_bytes out.new ≡ string_bytes out.old ++ text_of (Form.List exprs.now)) }
{
    put_squares(alloc, out, exprs)
}

/// Writes expressions in square brackets.
#[cycle(print)]
fn put_squares(alloc: Global, out: &mut String, exprs: &Exprs) -> Result<(), AllocError>
    ensures { OnOk result (string_bytes out.new ≡ string_bytes out.old ++ (codes "[" ++ items expr_text exprs.now ++ codes "]")) }
{
    out.push_str("[")?;
    let mut first = true;
    for expr in exprs.as_slice() {
        put_separator(out, first)?;
        put_expr(alloc, out, expr)?;
        first = false;
    }
    out.push_str("]")
}
