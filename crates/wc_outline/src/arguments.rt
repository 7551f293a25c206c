//! The arguments of calls.

ghost use Rattle.std.specs.Prelude.{◌≡◌, ◌∷◌, ◌&&◌, List, IfOk, OnOk, is_some};
ghost use Rattle.std.specs.Option.{option_copied};
ghost use Rattle.std.specs.List.{list_all};
ghost use Rattle.wc_value.specs.Ascending.{put};
ghost use Rattle.wc_syntax.specs.declared.outline.CallArg.{CallArg};
ghost use Rattle.wc_semantics.specs.Meaning.{takes_of};
ghost use Rattle.wc_outline.specs.Arguments.{takes_at, added, unless, arguments_from, judged, taken_arguments};

use crate::calls::{Args, Argument};
use crate::nodes::find_node;
use std::alloc::{AllocError, Global};
use wc_expression::{Outcome, eval};
use wc_semantics::fits;
use wc_state::Env;
use wc_syntax::{CallArg, CallStmt, Definition, Library, find_definition, head};
use wc_value::{Duplicate, Keyed, Reason, Text, Value};

/// Arguments so far.
#[derive(Drop)]
pub struct Gathered {
    /// The arguments by port.
    pub args: Args,
    /// Whether each is of its port's kind, by port.
    pub fit: Keyed<bool>,
}

/// Whether what is called has a port with this name that takes a value.
fn takes_at(callee: Option<&Definition>, port: &Text, value: &Value) -> bool
    ensures { result ≡ takes_at (option_copied callee.entry) port.now value.now }
{
    match callee {
        Some(definition) => fits(&head(definition).inputs, port, value),
        None => false,
    }
}

/// Adds an argument.
fn add(
    port: &Text,
    argument: Argument,
    fit: bool,
    gathered: &mut Gathered,
) -> Result<(), AllocError>
    ensures { OnOk result (gathered.new ≡ added port.now argument fit gathered.old) }
{
    gathered.args.set(port.copy()?, argument)?;
    gathered.fit.set(port.copy()?, fit)
}

/// Evaluates an argument and adds it, or gives the reason why it has no value.
fn add_argument(
    alloc: Global,
    callee: Option<&Definition>,
    arg: &CallArg,
    env: &Env,
    gathered: &mut Gathered,
) -> Result<Option<Reason>, AllocError>
    ensures { IfOk result (λ reason. (rest : List CallArg) → arguments_from (takes_at (option_copied callee.entry)) (arg.now ∷ rest) env.now gathered.old ≡ unless reason (arguments_from (takes_at (option_copied callee.entry)) rest env.now gathered.new)) }
{
    let port = &arg.port.text;
    match find_node(alloc, &arg.value, env)? {
        Some(Outcome::Gives(found)) => {
            let fit = takes_at(callee, port, &found.value);
            add(port, Argument::Node(found.node), fit, gathered)?;
            Ok(None)
        }
        Some(Outcome::Faults(reason)) => Ok(Some(reason)),
        None => match eval(alloc, &arg.value, env)? {
            Outcome::Gives(value) => {
                let fit = takes_at(callee, port, &value);
                add(port, Argument::Plain(value), fit, gathered)?;
                Ok(None)
            }
            Outcome::Faults(reason) => Ok(Some(reason)),
        },
    }
}

/// Whether all are of their ports' kinds.
fn all_fit(fit: &Keyed<bool>) -> bool
    ensures { result ≡ list_all (λ f. f.1) fit.now }
{
    for (_, fits) in fit.as_slice() {
        if !*fits {
            return false;
        }
    }
    true
}

/// The arguments that were gathered, if what is called takes them.
fn judge(callee: Option<&Definition>, gathered: Gathered) -> Outcome<Args>
    ensures { result ≡ judged (is_some (option_copied callee.entry) && list_all (λ f. f.1) gathered.fit) gathered.args }
{
    if callee.is_some() && all_fit(&gathered.fit) {
        Outcome::Gives(gathered.args)
    } else {
        Outcome::Faults(Reason::BadInput)
    }
}

/// The arguments of a call by port, if what is called takes them. All are evaluated before their kinds count.
pub fn eval_arguments(
    alloc: Global,
    library: &Library,
    call: &CallStmt,
    env: &Env,
) -> Result<Outcome<Args>, AllocError>
    ensures { IfOk result (λ o. o ≡ taken_arguments (takes_of library.now) call.now env.now) }
{
    let callee = find_definition(library, &call.callee.text);
    let mut gathered = Gathered {
        args: Args::new(alloc),
        fit: Keyed::new(alloc),
    };
    for arg in call.args.as_slice() {
        match add_argument(alloc, callee, arg, env, &mut gathered)? {
            None => {}
            Some(reason) => return Ok(Outcome::Faults(reason)),
        }
    }
    Ok(judge(callee, gathered))
}
