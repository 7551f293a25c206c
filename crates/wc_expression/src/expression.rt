//! The value of every expression.

ghost use Rattle.std.specs.Prelude.{◌≡◌, IfOk, List, map, option_map};
ghost use Rattle.wc_value.specs.declared.value.Value.{out-Value};
ghost use Rattle.wc_syntax.specs.declared.expression.Form.TheOpen.{Form-F};
ghost use Rattle.wc_expression.specs.Outcomes.{mapped};
ghost use Rattle.wc_expression.specs.Val.{sized, all_of, form, val, val_form, holds};

use crate::contents::{as_bool, find_item};
use crate::lookups::{
    ask, count_children, find_child, find_children, is_given, read_input, read_plain,
};
use crate::operators::{apply_one, apply_two, int_value, operate, prefix, settles};
use crate::outcome::Outcome;
use std::alloc::{AllocError, Global};
use wc_state::Env;
use wc_syntax::{BinaryOp, ChildPart, Expr, Exprs, Form, Name, OneOf, TwoOf, UnaryOp};
use wc_value::{Boxed, Duplicate, Reason, Value, Values, is_within};

/// The most canonical bytes of a value that an expression has.
const MOST_BYTES: usize = 4_194_304;

/// The most levels of a value that an expression has.
const MOST_LEVELS: u32 = 32;

/// The outcome, or the reason that its value is too long or too deep.
fn limited(outcome: Outcome<Value>) -> Outcome<Value>
    ensures { result ≡ sized outcome }
{
    match outcome {
        Outcome::Gives(value) => {
            if is_within(&value, MOST_BYTES, MOST_LEVELS) {
                Outcome::Gives(value)
            } else {
                Outcome::Faults(Reason::TooLong)
            }
        }
        Outcome::Faults(reason) => Outcome::Faults(reason),
    }
}

/// The value of an expression in an environment, or the first reason that is met from left to right.
#[cycle(eval)]
pub fn eval(alloc: Global, expr: &Expr, env: &Env) -> Result<Outcome<Value>, AllocError>
    ensures { IfOk result (λ o. o ≡ val expr.now env.now) }
{
    Ok(limited(eval_form(alloc, &expr.form, env)?))
}

/// The value of a form, before it is held against the limits.
#[cycle(eval)]
pub fn eval_form(alloc: Global, form: &Form, env: &Env) -> Result<Outcome<Value>, AllocError>
    ensures { IfOk result (λ o. o ≡ val_form form.now env.now) }
{
    match form {
        Form::Number(n) => Ok(Outcome::Gives(Value::Int(n.value))),
        Form::Quoted(quoted) => Ok(Outcome::Gives(Value::Text(quoted.text.copy()?))),
        Form::Truth(b) => Ok(Outcome::Gives(Value::Bool(*b))),
        Form::Bare(name) => read_input(env, &name.text),
        Form::Input(_, name) => read_input(env, &name.text),
        Form::Plain(_, name) => read_plain(env, &name.text),
        Form::Child(_, name, index, part) => eval_child(alloc, name, index, part, env),
        Form::Unary(op, operand) => eval_unary(alloc, *op, operand.get(), env),
        Form::Binary(op, left, right) => eval_binary(alloc, *op, left.get(), right.get(), env),
        Form::One(word, operand) => eval_one(alloc, *word, operand.get(), env),
        Form::Two(word, first, second) => eval_two(alloc, *word, first.get(), second.get(), env),
        Form::GivenBare(name) => Ok(Outcome::Gives(Value::Bool(is_given(env, &name.text)))),
        Form::GivenInput(_, name) => Ok(Outcome::Gives(Value::Bool(is_given(env, &name.text)))),
        Form::Count(_, name) => Ok(int_value(count_children(env, &name.text))),
        Form::List(exprs) => eval_list(alloc, exprs, env),
    }
}

/// What is asked of the one child of a key, or of one of its list.
#[cycle(eval)]
fn eval_child(
    alloc: Global,
    key: &Name,
    index: &Option<Boxed<Expr>>,
    part: &ChildPart,
    env: &Env,
) -> Result<Outcome<Value>, AllocError>
    ensures { IfOk result (λ o. o ≡ form (Form-F.Child 0 key.now (option_map val index.now) part.now) env.now) }
{
    match index {
        None => match find_child(env, &key.text) {
            Outcome::Gives(child) => ask(part, child),
            Outcome::Faults(reason) => Ok(Outcome::Faults(reason)),
        },
        Some(index) => eval_indexed(alloc, key, index.get(), part, env),
    }
}

/// What is asked of one of the children of a key. The key is looked up before the index is evaluated.
#[cycle(eval)]
fn eval_indexed(
    alloc: Global,
    key: &Name,
    index: &Expr,
    part: &ChildPart,
    env: &Env,
) -> Result<Outcome<Value>, AllocError>
    ensures { IfOk result (λ o. o ≡ form (Form-F.Child 0 key.now (Some (val index.now)) part.now) env.now) }
{
    let children = match find_children(env, &key.text) {
        Outcome::Gives(children) => children,
        Outcome::Faults(reason) => return Ok(Outcome::Faults(reason)),
    };
    let at = match eval(alloc, index, env)? {
        Outcome::Gives(value) => value,
        Outcome::Faults(reason) => return Ok(Outcome::Faults(reason)),
    };
    match find_item(children.as_slice(), &at) {
        Outcome::Gives(child) => ask(part, child),
        Outcome::Faults(reason) => Ok(Outcome::Faults(reason)),
    }
}

/// The value of an operator before an operand.
#[cycle(eval)]
fn eval_unary(
    alloc: Global,
    op: UnaryOp,
    operand: &Expr,
    env: &Env,
) -> Result<Outcome<Value>, AllocError>
    ensures { IfOk result (λ o. o ≡ form (Form-F.Unary op (val operand.now)) env.now) }
{
    match eval(alloc, operand, env)? {
        Outcome::Gives(value) => Ok(prefix(op, &value)),
        Outcome::Faults(reason) => Ok(Outcome::Faults(reason)),
    }
}

/// The value of an operator between two operands. The right one isn't evaluated where the left one settles it.
#[cycle(eval)]
fn eval_binary(
    alloc: Global,
    op: BinaryOp,
    left: &Expr,
    right: &Expr,
    env: &Env,
) -> Result<Outcome<Value>, AllocError>
    ensures { IfOk result (λ o. o ≡ form (Form-F.Binary op (val left.now) (val right.now)) env.now) }
{
    let left = match eval(alloc, left, env)? {
        Outcome::Gives(value) => value,
        Outcome::Faults(reason) => return Ok(Outcome::Faults(reason)),
    };
    if settles(op, &left) {
        return Ok(Outcome::Gives(left));
    }
    match eval(alloc, right, env)? {
        Outcome::Gives(right) => operate(alloc, op, left, &right),
        Outcome::Faults(reason) => Ok(Outcome::Faults(reason)),
    }
}

/// The value of a word with one argument.
#[cycle(eval)]
fn eval_one(
    alloc: Global,
    word: OneOf,
    operand: &Expr,
    env: &Env,
) -> Result<Outcome<Value>, AllocError>
    ensures { IfOk result (λ o. o ≡ form (Form-F.One word (val operand.now)) env.now) }
{
    match eval(alloc, operand, env)? {
        Outcome::Gives(value) => apply_one(alloc, word, &value),
        Outcome::Faults(reason) => Ok(Outcome::Faults(reason)),
    }
}

/// The value of a word with two arguments.
#[cycle(eval)]
fn eval_two(
    alloc: Global,
    word: TwoOf,
    first: &Expr,
    second: &Expr,
    env: &Env,
) -> Result<Outcome<Value>, AllocError>
    ensures { IfOk result (λ o. o ≡ form (Form-F.Two word (val first.now) (val second.now)) env.now) }
{
    let first = match eval(alloc, first, env)? {
        Outcome::Gives(value) => value,
        Outcome::Faults(reason) => return Ok(Outcome::Faults(reason)),
    };
    match eval(alloc, second, env)? {
        Outcome::Gives(second) => apply_two(alloc, word, &first, &second),
        Outcome::Faults(reason) => Ok(Outcome::Faults(reason)),
    }
}

/// The list of the values of several expressions.
#[cycle(eval)]
fn eval_list(alloc: Global, exprs: &Exprs, env: &Env) -> Result<Outcome<Value>, AllocError>
    ensures { IfOk result (λ o. o ≡ form (Form-F.List (map val exprs.now)) env.now) }
{
    let mut values = Values::new(alloc);
    for expr in exprs.as_slice() {
        match eval(alloc, expr, env)? {
            Outcome::Gives(value) => values.push(value)?,
            Outcome::Faults(reason) => return Ok(Outcome::Faults(reason)),
        }
    }
    Ok(Outcome::Gives(Value::List(values)))
}

/// Whether a condition holds.
pub fn eval_condition(
    alloc: Global,
    condition: &Expr,
    env: &Env,
) -> Result<Outcome<bool>, AllocError>
    ensures { IfOk result (λ o. o ≡ holds condition.now env.now) }
{
    match eval(alloc, condition, env)? {
        Outcome::Gives(value) => Ok(as_bool(&value)),
        Outcome::Faults(reason) => Ok(Outcome::Faults(reason)),
    }
}
