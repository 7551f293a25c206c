//! The statements of a step.

ghost use Rattle.std.specs.Prelude.{◌≡◌, ◌==◌, [], IfOk};
ghost use Rattle.wc_semantics.specs.Meaning.{takes_of};
ghost use Rattle.wc_semantics.specs.Statements.{names_data, output, argument, arguments, collected, statements, exits, with_key};
ghost use Rattle.wc_semantics.specs.Rules.{kind_of_port};

use crate::inputs::are_good;
use crate::kills::KillsBelow;
use std::alloc::{AllocError, Global};
use wc_expression::{Outcome, eval, eval_form};
use wc_semantics::{Plan, Planned, Stepped, exit_status, fits, set_key, takes};
use wc_state::{Env, Item};
use wc_syntax::{
    CallArgs, CallStmt, ChildPart, Expr, Form, Library, Name, PortList, Stmt, Stmts,
    find_definition, head,
};
use wc_value::{Duplicate, Fields, ProcessState, Reason, Table, Text, Value};

/// What surrounds the run of a work chain.
#[derive(Drop)]
pub struct Setting<'a> {
    /// The definitions that it may call.
    pub library: &'a Library,
    /// The results of jobs.
    pub table: &'a Table,
    /// The kills below it.
    pub kills: &'a KillsBelow<'a>,
    /// How many calls may stand in one another below it.
    pub levels: u32,
    /// Its output ports.
    pub ports: &'a PortList,
    /// How many calls it makes until it is killed, if it is.
    pub stop: Option<u32>,
}

/// Whether what is called takes these inputs.
fn takes_inputs(library: &Library, callee: &Text, inputs: &Fields) -> bool
    ensures { result ≡ takes_of library.now callee.now inputs.now }
{
    match find_definition(library, callee) {
        Some(definition) => are_good(head(definition).inputs.as_slice(), inputs),
        None => false,
    }
}

/// Whether an expression names data.
fn names_data(expr: &Expr) -> bool
    ensures { result ≡ names_data expr.now }
{
    match &expr.form {
        Form::Input(_, _) => true,
        Form::Child(_, _, _, ChildPart::Outputs(_)) => true,
        _ => false,
    }
}

/// The value of an output, if it is of its port's kind.
fn eval_output(
    alloc: Global,
    ports: &PortList,
    name: &Name,
    expr: &Expr,
    env: &Env,
) -> Result<Outcome<Value>, AllocError>
    ensures { IfOk result (λ o. o ≡ output (kind_of_port name.now.text ports.now) expr.now env.now) }
{
    if !names_data(expr) {
        return Ok(Outcome::Faults(Reason::WrongKind));
    }
    match eval_form(alloc, &expr.form, env)? {
        Outcome::Gives(value) => {
            if fits(ports, &name.text, &value) {
                Ok(Outcome::Gives(value))
            } else {
                Ok(Outcome::Faults(Reason::WrongKind))
            }
        }
        Outcome::Faults(reason) => Ok(Outcome::Faults(reason)),
    }
}

/// The value of an argument.
fn eval_argument(alloc: Global, expr: &Expr, env: &Env) -> Result<Outcome<Value>, AllocError>
    ensures { IfOk result (λ o. o ≡ argument expr.now env.now) }
{
    if names_data(expr) {
        eval_form(alloc, &expr.form, env)
    } else {
        eval(alloc, expr, env)
    }
}

/// The values of arguments by port, which are evaluated as they are written.
fn eval_arguments(alloc: Global, args: &CallArgs, env: &Env) -> Result<Outcome<Fields>, AllocError>
    ensures { IfOk result (λ o. o ≡ arguments args.now env.now []) }
{
    let mut values = Fields::new(alloc);
    for arg in args.as_slice() {
        match eval_argument(alloc, &arg.value, env)? {
            Outcome::Gives(value) => values.set(arg.port.text.copy()?, value)?,
            Outcome::Faults(reason) => return Ok(Outcome::Faults(reason)),
        }
    }
    Ok(Outcome::Gives(values))
}

/// An environment in which a key of the context holds a plain value.
fn with_plain(env: Env, key: &Name, value: Value) -> Result<Env, AllocError>
    ensures { IfOk result (λ e. e ≡ with_key key.now.text (Item.Plain value) env) }
{
    let Env { inputs, ctx } = env;
    Ok(Env {
        inputs,
        ctx: set_key(ctx, key.text.copy()?, Item::Plain(value))?,
    })
}

/// The call that a statement collects.
fn collect(
    alloc: Global,
    setting: &Setting<'_>,
    call: &CallStmt,
    env: &Env,
) -> Result<Outcome<Planned>, AllocError>
    ensures { IfOk result (λ o. o ≡ collected (setting.now.levels == 0) (takes_of setting.now.library.now) call.now env.now) }
{
    if setting.levels == 0 {
        return Ok(Outcome::Faults(Reason::Depth));
    }
    let inputs = match eval_arguments(alloc, &call.args, env)? {
        Outcome::Gives(inputs) => inputs,
        Outcome::Faults(reason) => return Ok(Outcome::Faults(reason)),
    };
    if !takes_inputs(setting.library, &call.callee.text, &inputs) {
        return Ok(Outcome::Faults(Reason::BadInput));
    }
    Ok(Outcome::Gives(Planned {
        callee: call.callee.text.copy()?,
        key: call.key.text.copy()?,
        append: call.append,
        inputs,
    }))
}

/// What a step comes to that exits with a status.
fn leave(status: u32, plan: Plan, env: Env, outputs: Fields) -> Stepped
    ensures { result ≡ exits status plan env outputs }
{
    if status == 0 {
        Stepped::Makes(plan, env, outputs)
    } else {
        Stepped::Stops(ProcessState::Finished(status), env, outputs)
    }
}

/// Runs the statements of a step in order.
pub fn run_statements(
    alloc: Global,
    setting: &Setting<'_>,
    stmts: &Stmts,
    env: Env,
    outputs: Fields,
) -> Result<Stepped, AllocError>
    ensures { IfOk result (λ s. s ≡ statements (setting.now.levels == 0) (takes_of setting.now.library.now) (λ name. kind_of_port name setting.now.ports.now) stmts.now [] env outputs) }
{
    let mut env = env;
    let mut outputs = outputs;
    let mut plan = Plan::new(alloc);
    for stmt in stmts.as_slice() {
        match stmt {
            Stmt::Ctx(_, key, expr) => match eval(alloc, expr, &env)? {
                Outcome::Gives(value) => env = with_plain(env, key, value)?,
                Outcome::Faults(reason) => return Ok(Stepped::Stops(
                    ProcessState::Excepted(reason),
                    env,
                    outputs,
                )),
            },
            Stmt::Out(_, name, expr) => match eval_output(alloc, setting.ports, name, expr, &env)? {
                Outcome::Gives(value) => outputs.set(name.text.copy()?, value)?,
                Outcome::Faults(reason) => return Ok(Stepped::Stops(
                    ProcessState::Excepted(reason),
                    env,
                    outputs,
                )),
            },
            Stmt::Exit(exit) => match takes(alloc, exit, &env)? {
                Outcome::Gives(true) => return Ok(leave(exit_status(exit), plan, env, outputs)),
                Outcome::Gives(false) => {}
                Outcome::Faults(reason) => return Ok(Stepped::Stops(
                    ProcessState::Excepted(reason),
                    env,
                    outputs,
                )),
            },
            Stmt::Call(call) => match collect(alloc, setting, call, &env)? {
                Outcome::Gives(planned) => plan.push(planned)?,
                Outcome::Faults(reason) => return Ok(Stepped::Stops(
                    ProcessState::Excepted(reason),
                    env,
                    outputs,
                )),
            },
        }
    }
    Ok(Stepped::Makes(plan, env, outputs))
}
