//! The statements of a step.

ghost use Rattle.std.specs.Prelude.{◌≡◌, ◌∷◌, List, IfOk, OnOk};
ghost use Rattle.wc_syntax.specs.declared.outline.Stmt.{Stmt};
ghost use Rattle.wc_outline.specs.Statements.{with_plain, collected_in, statements_in, comes, stepped, left_by};

use crate::arguments::eval_arguments;
use crate::calls::{Call, Calls};
use crate::nodes::eval_output;
use std::alloc::{AllocError, Global};
use std::mem;
use wc_expression::{Outcome, eval};
use wc_semantics::{exit_status, label_of, set_key, takes};
use wc_state::{Context, CtxRef, Env, Item, Items, Outs};
use wc_syntax::{CallStmt, Chain, Library, Name, Stmt, Stmts};
use wc_value::{Duplicate, ProcessState, Reason, Value};

/// The depth at which no call may be made.
const DEEPEST: u32 = 16;

/// What surrounds an advance of a work chain.
#[derive(Clone, Copy)]
pub struct Scene<'a> {
    /// The definitions that it may call.
    pub library: &'a Library,
    /// The work chain.
    pub chain: &'a Chain,
    /// Its depth.
    pub depth: u32,
    /// How many processes it has called.
    pub calls: u32,
}

/// What a step has come to so far. Its context is the one of the checkpoint that was handed over, in which keys are set in place.
#[derive(Drop)]
pub struct Noted {
    /// The environment with the values that were set.
    pub env: Env,
    /// The context with them.
    pub ctx: Context,
    /// The outputs that were set.
    pub outputs: Outs,
    /// The calls that were collected.
    pub calls: Calls,
}

/// What a statement comes to.
pub enum Came {
    /// The statements behind it follow.
    On,
    /// The step ends, and its calls are made.
    Makes,
    /// The chain ends in this state, and none of the calls is made.
    Stops(ProcessState),
}

/// Sets a plain value of the context.
fn set_plain(alloc: Global, key: &Name, value: Value, noted: &mut Noted) -> Result<(), AllocError>
    ensures { OnOk result (noted.new ≡ with_plain key.now.text value noted.old) }
{
    noted
        .ctx
        .set(key.text.copy()?, CtxRef::Plain(value.copy()?))?;
    let items = mem::replace(&mut noted.env.ctx, Items::new(alloc));
    noted.env.ctx = set_key(items, key.text.copy()?, Item::Plain(value))?;
    Ok(())
}

/// The call that a statement collects, labelled by its number among all calls of the process.
fn collect(
    alloc: Global,
    scene: Scene<'_>,
    call: &CallStmt,
    noted: &Noted,
) -> Result<Outcome<Call>, AllocError>
    ensures { IfOk result (λ o. o ≡ collected_in scene.entry call.now noted.now) }
{
    if scene.depth >= DEEPEST {
        return Ok(Outcome::Faults(Reason::Depth));
    }
    let args = match eval_arguments(alloc, scene.library, call, &noted.env)? {
        Outcome::Gives(args) => args,
        Outcome::Faults(reason) => return Ok(Outcome::Faults(reason)),
    };
    let number = scene.calls as usize + noted.calls.len() + 1;
    Ok(Outcome::Gives(Call {
        definition: call.callee.text.copy()?,
        label: label_of(alloc, &call.key.text, number)?,
        key: call.key.text.copy()?,
        append: call.append,
        args,
    }))
}

/// What a step comes to that exits with a status.
fn leave(status: u32) -> Came
    ensures { result ≡ left_by status }
{
    if status == 0 {
        Came::Makes
    } else {
        Came::Stops(ProcessState::Finished(status))
    }
}

/// Runs a statement.
fn run_statement(
    alloc: Global,
    scene: Scene<'_>,
    stmt: &Stmt,
    noted: &mut Noted,
) -> Result<Came, AllocError>
    ensures { IfOk result (λ came. (rest : List Stmt) → statements_in scene.entry (stmt.now ∷ rest) noted.old ≡ comes came noted.new (statements_in scene.entry rest)) }
{
    match stmt {
        Stmt::Ctx(_, key, expr) => match eval(alloc, expr, &noted.env)? {
            Outcome::Gives(value) => {
                set_plain(alloc, key, value, noted)?;
                Ok(Came::On)
            }
            Outcome::Faults(reason) => Ok(Came::Stops(ProcessState::Excepted(reason))),
        },
        Stmt::Out(_, name, expr) => {
            match eval_output(alloc, &scene.chain.head.outputs, name, expr, &noted.env)? {
                Outcome::Gives(node) => {
                    noted.outputs.set(name.text.copy()?, node)?;
                    Ok(Came::On)
                }
                Outcome::Faults(reason) => Ok(Came::Stops(ProcessState::Excepted(reason))),
            }
        }
        Stmt::Exit(exit) => match takes(alloc, exit, &noted.env)? {
            Outcome::Gives(true) => Ok(leave(exit_status(exit))),
            Outcome::Gives(false) => Ok(Came::On),
            Outcome::Faults(reason) => Ok(Came::Stops(ProcessState::Excepted(reason))),
        },
        Stmt::Call(call) => match collect(alloc, scene, call, noted)? {
            Outcome::Gives(call) => {
                noted.calls.push(call)?;
                Ok(Came::On)
            }
            Outcome::Faults(reason) => Ok(Came::Stops(ProcessState::Excepted(reason))),
        },
    }
}

/// Runs the statements of a step in order: the state in which they end the chain, or none where their calls are made.
pub fn run_statements(
    alloc: Global,
    scene: Scene<'_>,
    stmts: &Stmts,
    noted: &mut Noted,
) -> Result<Option<ProcessState>, AllocError>
    ensures { IfOk result (λ end. stepped end noted.new ≡ statements_in scene.entry stmts.now noted.old) }
{
    for stmt in stmts.as_slice() {
        match run_statement(alloc, scene, stmt, noted)? {
            Came::On => {}
            Came::Makes => return Ok(None),
            Came::Stops(state) => return Ok(Some(state)),
        }
    }
    Ok(None)
}
