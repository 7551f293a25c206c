//! The nodes that expressions name.

ghost use Rattle.std.specs.Prelude.{◌≡◌, Some, IfOk, option_map};
ghost use Rattle.wc_value.specs.Ascending.{lookup};
ghost use Rattle.wc_syntax.specs.declared.expression.Form.TheOpen.{Form-F};
ghost use Rattle.wc_syntax.specs.declared.expression.ChildPart.TheVariants.{Outputs};
ghost use Rattle.wc_expression.specs.Outcomes.{mapped, found};
ghost use Rattle.wc_semantics.specs.Rules.{kind_of_port};
ghost use Rattle.wc_machine.specs.Steps.{node_in, named_node, output};

use std::alloc::{AllocError, Global};
use wc_expression::{Outcome, eval, find_child, find_children, find_item};
use wc_semantics::fits;
use wc_state::{Env, Named, NodeValue};
use wc_syntax::{ChildPart, Expr, Form, Name, PortList};
use wc_value::{Reason, Text};

/// The node with this name, or the reason why there is none.
fn find_named<'a>(nodes: &'a Named, name: &Text, missing: Reason) -> Outcome<&'a NodeValue>
    ensures { mapped (λ n. n.now) result ≡ found missing (lookup name.now nodes.entry.now) }
{
    match nodes.find(name.bytes()) {
        Some(node) => Outcome::Gives(node),
        None => Outcome::Faults(missing),
    }
}

/// The node of an output of the one child of a key.
fn find_output<'a>(key: &Name, label: &Name, env: &'a Env) -> Outcome<&'a NodeValue>
    ensures { Some (mapped (λ n. n.now) result) ≡ node_in (Form-F.Child 0 key.now None (Outputs label.now)) env.entry.now }
{
    match find_child(env, &key.text) {
        Outcome::Gives(child) => find_named(&child.outputs, &label.text, Reason::NoOutput),
        Outcome::Faults(reason) => Outcome::Faults(reason),
    }
}

/// The node of an output of one of the children of a key. The key is looked up before the index is evaluated.
fn find_indexed<'a>(
    alloc: Global,
    key: &Name,
    index: &Expr,
    label: &Name,
    env: &'a Env,
) -> Result<Outcome<&'a NodeValue>, AllocError>
    ensures { IfOk result (λ o. Some (mapped (λ n. n.now) o) ≡ node_in (Form-F.Child 0 key.now (Some index.now) (Outputs label.now)) env.entry.now) }
{
    let children = match find_children(env, &key.text) {
        Outcome::Gives(children) => children,
        Outcome::Faults(reason) => return Ok(Outcome::Faults(reason)),
    };
    let at = match eval(alloc, index, env)? {
        Outcome::Gives(value) => value,
        Outcome::Faults(reason) => return Ok(Outcome::Faults(reason)),
    };
    match find_item(children.as_slice(), &at) {
        Outcome::Gives(child) => Ok(find_named(&child.outputs, &label.text, Reason::NoOutput)),
        Outcome::Faults(reason) => Ok(Outcome::Faults(reason)),
    }
}

/// The node that an expression names, if it is of a form that names one.
pub fn find_node<'a>(
    alloc: Global,
    expr: &Expr,
    env: &'a Env,
) -> Result<Option<Outcome<&'a NodeValue>>, AllocError>
    ensures { IfOk result (λ n. option_map (mapped (λ m. m.now)) n ≡ named_node expr.now env.entry.now) }
{
    match &expr.form {
        Form::Input(_, name) => Ok(Some(find_named(&env.inputs, &name.text, Reason::MissingKey))),
        Form::Child(_, key, None, ChildPart::Outputs(label)) => {
            Ok(Some(find_output(key, label, env)))
        }
        Form::Child(_, key, Some(index), ChildPart::Outputs(label)) => Ok(Some(find_indexed(
            alloc,
            key,
            index.get(),
            label,
            env,
        )?)),
        _ => Ok(None),
    }
}

/// The node of an output, if its value is of its port's kind.
pub fn eval_output(
    alloc: Global,
    ports: &PortList,
    name: &Name,
    expr: &Expr,
    env: &Env,
) -> Result<Outcome<u32>, AllocError>
    ensures { IfOk result (λ o. o ≡ mapped (λ n. n.node) (output (kind_of_port name.now.text ports.now) expr.now env.now)) }
{
    match find_node(alloc, expr, env)? {
        Some(Outcome::Gives(found)) => {
            if fits(ports, &name.text, &found.value) {
                Ok(Outcome::Gives(found.node))
            } else {
                Ok(Outcome::Faults(Reason::WrongKind))
            }
        }
        Some(Outcome::Faults(reason)) => Ok(Outcome::Faults(reason)),
        None => Ok(Outcome::Faults(Reason::WrongKind)),
    }
}
