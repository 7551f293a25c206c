//! The rules of a function, or of the `parse` part of a job, run in order.

ghost use Rattle.std.specs.Prelude.{◌≡◌, IfOk, OnOk};
ghost use Rattle.wc_semantics.specs.Rules.{env_of, bound, kind_of_port, fits_port, output_of, is_taken, status_of, run_rules};

use std::alloc::{AllocError, Global};
use wc_expression::{Outcome, eval, eval_condition, is_of_kind};
use wc_state::{Env, Items, Named, NodeValue};
use wc_syntax::{Exit, Expr, Name, Port, PortList, Rule, RuleList};
use wc_value::{Duplicate, Fields, Kind, Reason, Text, Value};

/// The environment of a calculation: its input values, each of no node, and no context.
pub fn environment(alloc: Global, inputs: &Fields) -> Result<Env, AllocError>
    ensures { IfOk result (λ e. e ≡ env_of inputs.now) }
{
    let mut named = Named::new(alloc);
    for (port, value) in inputs.as_slice() {
        named.push((
            port.copy()?,
            NodeValue {
                node: 0,
                value: value.copy()?,
            },
        ))?;
    }
    Ok(Env {
        inputs: named,
        ctx: Items::new(alloc),
    })
}

/// Gives a value a name.
pub fn bind(env: &mut Env, name: Text, value: Value) -> Result<(), AllocError>
    ensures { OnOk result (env.new ≡ bound name value env.old) }
{
    env.inputs.set(name, NodeValue { node: 0, value })
}

/// The kind of the port with this name, if there is one.
pub fn port_kind(ports: &[Port], name: &[u8]) -> Option<Kind>
    ensures { result ≡ kind_of_port name.now ports.now }
{
    for port in ports {
        if port.name.text.bytes() == name {
            return Some(port.kind);
        }
    }
    None
}

/// Whether a value is of the kind of the port with this name.
pub fn fits(ports: &PortList, name: &Text, value: &Value) -> bool
    ensures { result ≡ fits_port (kind_of_port name.now ports.now) value.now }
{
    match port_kind(ports.as_slice(), name.bytes()) {
        Some(kind) => is_of_kind(value, kind),
        None => false,
    }
}

/// The value of an output, if it is of its port's kind.
fn eval_output(
    alloc: Global,
    ports: &PortList,
    name: &Name,
    expr: &Expr,
    env: &Env,
) -> Result<Outcome<Value>, AllocError>
    ensures { IfOk result (λ o. o ≡ output_of (kind_of_port name.now.text ports.now) expr.now env.now) }
{
    match eval(alloc, expr, env)? {
        Outcome::Gives(value) => {
            if fits(ports, &name.text, &value) {
                Ok(Outcome::Gives(value))
            } else {
                Ok(Outcome::Faults(Reason::WrongKind))
            }
        }
        Outcome::Faults(reason) => Ok(Outcome::Faults(reason)),
    }
}

/// Whether an exit is taken.
pub fn takes(alloc: Global, exit: &Exit, env: &Env) -> Result<Outcome<bool>, AllocError>
    ensures { IfOk result (λ o. o ≡ is_taken exit.now.condition env.now) }
{
    match &exit.condition {
        None => Ok(Outcome::Gives(true)),
        Some(condition) => eval_condition(alloc, condition, env),
    }
}

/// The status that an exit's number is.
pub fn exit_status(exit: &Exit) -> u32
    ensures { result ≡ status_of exit.now }
{
    let status = exit.status.value;
    if status < 0 {
        0
    } else if status > 0xffff_ffff {
        u32::MAX
    } else {
        status as u32
    }
}

/// Runs rules in order, after these outputs were set: the status with which they end, and the outputs then.
pub fn run(
    alloc: Global,
    ports: &PortList,
    rules: &RuleList,
    env: Env,
    outputs: Fields,
) -> Result<Outcome<(u32, Fields)>, AllocError>
    ensures { IfOk result (λ o. o ≡ run_rules ports.now rules.now env outputs) }
{
    let mut env = env;
    let mut outputs = outputs;
    for rule in rules.as_slice() {
        match rule {
            Rule::Let(_, name, expr) => match eval(alloc, expr, &env)? {
                Outcome::Gives(value) => bind(&mut env, name.text.copy()?, value)?,
                Outcome::Faults(reason) => return Ok(Outcome::Faults(reason)),
            },
            Rule::Out(_, name, expr) => match eval_output(alloc, ports, name, expr, &env)? {
                Outcome::Gives(value) => outputs.set(name.text.copy()?, value)?,
                Outcome::Faults(reason) => return Ok(Outcome::Faults(reason)),
            },
            Rule::Exit(exit) => match takes(alloc, exit, &env)? {
                Outcome::Gives(true) => return Ok(Outcome::Gives((exit_status(exit), outputs))),
                Outcome::Gives(false) => {}
                Outcome::Faults(reason) => return Ok(Outcome::Faults(reason)),
            },
        }
    }
    Ok(Outcome::Gives((0, outputs)))
}
