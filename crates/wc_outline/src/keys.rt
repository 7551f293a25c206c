//! Which keys of the context an instruction mentions, outside the blocks in it.

ghost use Rattle.std.specs.Prelude.{◌≡◌, flat_map, option_map};
ghost use Rattle.wc_syntax.specs.Mentions.{condition_mentions, mentions, or_none, stmt_mentions};
ghost use Rattle.wc_outline.specs.Keys.{arm_mentions, instr_mentions, mentions_key, mentions_of_form};

use wc_syntax::{Arm, CallArg, Expr, Form, Instr, Stmt};
use wc_value::{Boxed, Text, same_text};

/// Whether an expression mentions this key.
#[cycle(mentions_key)]
fn mentions_key(expr: &Expr, key: &Text) -> bool
    ensures { result ≡ mentions_key key.now (mentions expr.now) }
{
    form_mentions_key(&expr.form, key)
}

/// Whether a form mentions this key.
#[cycle(mentions_key)]
fn form_mentions_key(form: &Form, key: &Text) -> bool
    ensures { result ≡ mentions_key key.now (mentions_of_form form.now) }
{
    match form {
        Form::Number(_) | Form::Quoted(_) | Form::Truth(_) => false,
        Form::Bare(_) | Form::Input(_, _) | Form::GivenBare(_) | Form::GivenInput(_, _) => false,
        Form::Plain(_, name) | Form::Count(_, name) => same_text(&name.text, key),
        Form::Child(_, name, index, _) => same_text(&name.text, key)
            || index_mentions_key(index, key),
        Form::Unary(_, operand) | Form::One(_, operand) => mentions_key(operand.get(), key),
        Form::Binary(_, left, right) => mentions_key(left.get(), key)
            || mentions_key(right.get(), key),
        Form::Two(_, first, second) => mentions_key(first.get(), key)
            || mentions_key(second.get(), key),
        Form::List(exprs) => one_mentions_key(exprs.as_slice(), key),
    }
}

/// Whether an index, if there is one, mentions this key.
#[cycle(mentions_key)]
fn index_mentions_key(index: &Option<Boxed<Expr>>, key: &Text) -> bool
    ensures { result ≡ mentions_key key.now (or_none (option_map mentions index.now)) }
{
    match index {
        Some(index) => mentions_key(index.get(), key),
        None => false,
    }
}

/// Whether one of these expressions mentions this key.
#[cycle(mentions_key)]
fn one_mentions_key(exprs: &[Expr], key: &Text) -> bool
    ensures { result ≡ mentions_key key.now (flat_map mentions exprs.now) }
{
    for expr in exprs {
        if mentions_key(expr, key) {
            return true;
        }
    }
    false
}

/// Whether a condition, if there is one, mentions this key.
fn condition_mentions_key(condition: &Option<Expr>, key: &Text) -> bool
    ensures { result ≡ mentions_key key.now (condition_mentions condition.now) }
{
    match condition {
        Some(condition) => mentions_key(condition, key),
        None => false,
    }
}

/// Whether one of these arguments of a call mentions this key.
fn one_arg_mentions_key(args: &[CallArg], key: &Text) -> bool
    ensures { result ≡ mentions_key key.now (flat_map (λ a. mentions a.value) args.now) }
{
    for arg in args {
        if mentions_key(&arg.value, key) {
            return true;
        }
    }
    false
}

/// Whether a statement mentions this key.
fn stmt_mentions_key(stmt: &Stmt, key: &Text) -> bool
    ensures { result ≡ mentions_key key.now (stmt_mentions stmt.now) }
{
    match stmt {
        Stmt::Ctx(_, _, expr) => mentions_key(expr, key),
        Stmt::Out(_, _, expr) => mentions_key(expr, key),
        Stmt::Exit(exit) => condition_mentions_key(&exit.condition, key),
        Stmt::Call(call) => one_arg_mentions_key(call.args.as_slice(), key),
    }
}

/// Whether one of these statements mentions this key.
fn one_stmt_mentions_key(stmts: &[Stmt], key: &Text) -> bool
    ensures { result ≡ mentions_key key.now (flat_map stmt_mentions stmts.now) }
{
    for stmt in stmts {
        if stmt_mentions_key(stmt, key) {
            return true;
        }
    }
    false
}

/// Whether the condition of one of these arms mentions this key.
fn one_arm_mentions_key(arms: &[Arm], key: &Text) -> bool
    ensures { result ≡ mentions_key key.now (flat_map arm_mentions arms.now) }
{
    for arm in arms {
        if mentions_key(&arm.condition, key) {
            return true;
        }
    }
    false
}

/// Whether an instruction mentions this key, outside the blocks in it.
pub fn instr_mentions_key(instr: &Instr, key: &Text) -> bool
    ensures { result ≡ mentions_key key.now (instr_mentions instr.now) }
{
    match instr {
        Instr::Step(step) => one_stmt_mentions_key(step.stmts.as_slice(), key),
        Instr::If(_, arms, _) => one_arm_mentions_key(arms.as_slice(), key),
        Instr::While(_, condition, _) => mentions_key(condition, key),
        Instr::Return(_, _) => false,
    }
}
