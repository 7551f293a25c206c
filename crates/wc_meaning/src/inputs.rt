//! Which input of a process is bad.

ghost use Rattle.std.specs.Prelude.{◌≡◌, ℕ, List, [], Some, None};
ghost use Rattle.std.specs.List.{list_all};
ghost use Rattle.std.specs.Option.{option_copied};
ghost use Rattle.wc_semantics.specs.Meaning.{is_good};
ghost use Rattle.wc_meaning.specs.Inputs.{lesser, least, IsLeast, least_after, wrong_inputs, missing_inputs, bad_input};

use wc_expression::is_of_kind;
use wc_semantics::port_kind;
use wc_syntax::Port;
use wc_value::{Fields, Text, Value};

/// The lesser of the least name so far and a name, by their bytes.
pub fn lesser_name<'a>(best: Option<&'a Text>, name: &'a Text) -> Option<&'a Text>
    ensures { option_copied result ≡ lesser (option_copied best.entry) name.entry.now }
{
    match best {
        None => Some(name),
        Some(least) => {
            if name.bytes().cmp(&least.bytes()).is_lt() {
                Some(name)
            } else {
                Some(least)
            }
        }
    }
}

/// Whether an input is of a port's kind.
fn is_good(ports: &[Port], name: &Text, value: &Value) -> bool
    ensures { result ≡ is_good ports.now (name.now, value.now) }
{
    match port_kind(ports, name.bytes()) {
        Some(kind) => is_of_kind(value, kind),
        None => false,
    }
}

/// Whether each input is of a port's kind.
pub fn are_good(ports: &[Port], inputs: &Fields) -> bool
    ensures { result ≡ list_all (is_good ports.now) inputs.now }
{
    for (name, value) in inputs.as_slice() {
        if !is_good(ports, name, value) {
            return false;
        }
    }
    true
}

/// The least name among the inputs that no port takes.
fn least_wrong<'a>(ports: &[Port], inputs: &'a [(Text, Value)]) -> Option<&'a Text>
    ensures { option_copied result ≡ least_after None (wrong_inputs ports.now inputs.entry.now) }
{
    let mut best = None;
    for (name, value) in inputs {
        if !is_good(ports, name, value) {
            best = lesser_name(best, name);
        }
    }
    best
}

/// The least of the least so far and the required ports without an input.
fn least_missing<'a>(best: Option<&'a Text>, ports: &'a [Port], inputs: &Fields) -> Option<&'a Text>
    ensures { option_copied result ≡ least_after (option_copied best.entry) (missing_inputs ports.entry.now inputs.now) }
{
    let mut best = best;
    for port in ports {
        if !port.optional && inputs.find(port.name.text.bytes()).is_none() {
            best = lesser_name(best, &port.name.text);
        }
    }
    best
}

/// The least port, by the bytes of its name, that has a bad input: a name that isn't a port, a value that isn't of its port's
/// kind, or a required port without an input. None where all inputs are good.
pub fn find_bad_input<'a>(ports: &'a [Port], inputs: &'a Fields) -> Option<&'a Text>
    ensures { option_copied result ≡ bad_input ports.entry.now inputs.entry.now }
{
    let wrong = least_wrong(ports, inputs.as_slice());
    least_missing(wrong, ports, inputs)
}

/// The least of some names is one of them before which none of them stands, and there is one wherever there are names.
pub fn least_name()
    // The name that is given is the least.
    ensures least { (names : List (List ℕ)) → (name : List ℕ) → least names ≡ Some name → IsLeast names name }
    // There is none only among no names.
    ensures none { (names : List (List ℕ)) → least names ≡ None → names ≡ [] }
{}
