//! The rules of functions and jobs.

ghost use Rattle.std.specs.Prelude.{◌≡◌, Some, IfOk, IsSome};
ghost use Rattle.std.specs.Option.{option_copied};
ghost use Rattle.wc_syntax.specs.Findings.{definition_named};
ghost use Rattle.wc_meaning.specs.Ran.{ran};

use std::alloc::{AllocError, Global};
use wc_semantics::{Parsed, calculate, parse_result};
use wc_syntax::{Checked, Definition, find_definition};
use wc_value::{Fields, JobResult, Text};

/// What the rules of a function give, or those of a job's `parse` part with its result.
fn run_rules(
    alloc: Global,
    definition: Option<&Definition>,
    inputs: &Fields,
    job: Option<&JobResult>,
) -> Result<Parsed, AllocError>
    requires { IsSome (ran (option_copied definition) inputs.now (option_copied job)) }
    ensures { IfOk result (λ p. ran (option_copied definition.entry) inputs.now (option_copied job.entry) ≡ Some p) }
{
    match (definition, job) {
        (Some(Definition::Function(function)), None) => calculate(alloc, function, inputs),
        (Some(Definition::Job(calculation)), Some(given)) => {
            parse_result(alloc, calculation, inputs, given)
        }
        _ => unreachable!(),
    }
}

/// What a function's rules give for its inputs, or those of a job's `parse` part with its result.
pub fn rules(
    alloc: Global,
    library: &Checked,
    name: &Text,
    inputs: &Fields,
    job: Option<&JobResult>,
) -> Result<Parsed, AllocError>
    // The name is a function and there is no result, or a job and there is one.
    requires { IsSome (ran (definition_named name.now library.now) inputs.now (option_copied job)) }
    ensures { IfOk result (λ p. ran (definition_named name.now library.now) inputs.now (option_copied job.entry) ≡ Some p) }
{
    run_rules(alloc, find_definition(library.library(), name), inputs, job)
}
