//! What an expression reads of its environment.

ghost use Rattle.std.specs.Prelude.{◌≡◌, IfOk};
ghost use Rattle.std.specs.Option.{option_copied};
ghost use Rattle.wc_value.specs.Ascending.{lookup};
ghost use Rattle.wc_expression.specs.Outcomes.{mapped};
ghost use Rattle.wc_expression.specs.Environment.{input, is_given, plain, child, children, count, status_of, is_success, output, asked};

use crate::outcome::Outcome;
use std::alloc::AllocError;
use wc_state::{Child, Children, Env, Item, Items};
use wc_syntax::ChildPart;
use wc_value::{Duplicate, ProcessState, Reason, Text, Value};

/// A copy of the value of an input.
pub fn read_input(env: &Env, name: &Text) -> Result<Outcome<Value>, AllocError>
    ensures { IfOk result (λ o. o ≡ input name.now env.now) }
{
    match env.inputs.find(name.bytes()) {
        Some(found) => Ok(Outcome::Gives(found.value.copy()?)),
        None => Ok(Outcome::Faults(Reason::MissingKey)),
    }
}

/// Whether an input is given.
pub fn is_given(env: &Env, name: &Text) -> bool
    ensures { result ≡ is_given name.now env.now }
{
    env.inputs.find(name.bytes()).is_some()
}

/// What a key of the context holds.
#[tactic(auto, using(wc_state::proofs::Pairs::found_at_named))]
fn find_key<'a>(ctx: &'a Items, key: &Text) -> Option<&'a Item>
    ensures { option_copied result ≡ lookup key.now ctx.entry.now }
{
    ctx.find(key)
}

/// A copy of the value that a key holds.
pub fn read_plain(env: &Env, key: &Text) -> Result<Outcome<Value>, AllocError>
    ensures { IfOk result (λ o. o ≡ plain key.now env.now) }
{
    match find_key(&env.ctx, key) {
        Some(Item::Plain(value)) => Ok(Outcome::Gives(value.copy()?)),
        Some(_) => Ok(Outcome::Faults(Reason::WrongKind)),
        None => Ok(Outcome::Faults(Reason::MissingKey)),
    }
}

/// The one child that a key holds.
pub fn find_child<'a>(env: &'a Env, key: &Text) -> Outcome<&'a Child>
    ensures { mapped (λ x. x.now) result ≡ child key.now env.entry.now }
{
    match find_key(&env.ctx, key) {
        Some(Item::One(child)) => Outcome::Gives(child),
        Some(_) => Outcome::Faults(Reason::WrongKind),
        None => Outcome::Faults(Reason::MissingKey),
    }
}

/// The list of children that a key holds.
pub fn find_children<'a>(env: &'a Env, key: &Text) -> Outcome<&'a Children>
    ensures { mapped (λ x. x.now) result ≡ children key.now env.entry.now }
{
    match find_key(&env.ctx, key) {
        Some(Item::Many(children)) => Outcome::Gives(children),
        Some(_) => Outcome::Faults(Reason::WrongKind),
        None => Outcome::Faults(Reason::MissingKey),
    }
}

/// How many children a key holds.
pub fn count_children(env: &Env, key: &Text) -> Outcome<i64>
    ensures { result ≡ count key.now env.now }
{
    match find_key(&env.ctx, key) {
        None => Outcome::Gives(0),
        Some(Item::One(_)) => Outcome::Gives(1),
        Some(Item::Many(children)) => Outcome::Gives(children.len() as i64),
        Some(Item::Plain(_)) => Outcome::Faults(Reason::WrongKind),
    }
}

/// The exit status of a finished child, else -1.
fn exit_status(state: ProcessState) -> i64
    ensures { result ≡ status_of state }
{
    match state {
        ProcessState::Finished(status) => status as i64,
        _ => -1,
    }
}

/// Whether a child finished with 0.
fn succeeded(state: ProcessState) -> bool
    ensures { result ≡ is_success state }
{
    match state {
        ProcessState::Finished(status) => status == 0,
        _ => false,
    }
}

/// A copy of an output of a child.
fn read_output(child: &Child, name: &Text) -> Result<Outcome<Value>, AllocError>
    ensures { IfOk result (λ o. o ≡ output name.now child.now) }
{
    match child.outputs.find(name.bytes()) {
        Some(found) => Ok(Outcome::Gives(found.value.copy()?)),
        None => Ok(Outcome::Faults(Reason::NoOutput)),
    }
}

/// What is asked of a child.
pub fn ask(part: &ChildPart, child: &Child) -> Result<Outcome<Value>, AllocError>
    ensures { IfOk result (λ o. o ≡ asked part.now child.now) }
{
    match part {
        ChildPart::Outputs(name) => read_output(child, &name.text),
        ChildPart::Status => Ok(Outcome::Gives(Value::Int(exit_status(child.state)))),
        ChildPart::Ok => Ok(Outcome::Gives(Value::Bool(succeeded(child.state)))),
    }
}
