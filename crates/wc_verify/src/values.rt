//! Whether calculations are as their inputs give them.

ghost use Rattle.std.specs.Prelude.{◌≡◌, ◌↔◌, Some, None, if◌then◌else◌, IfOk, IsSome, IsTrue, MatchBool};
ghost use Rattle.std.specs.Option.{option_copied};
ghost use Rattle.wc_semantics.specs.Outcomes.{parsed};
ghost use Rattle.wc_semantics.specs.Requests.{request};
ghost use Rattle.wc_world.specs.Records.{find_record};
ghost use Rattle.wc_machine.specs.Created.{IsGiven, killed_outcome};
ghost use Rattle.wc_verify.specs.Faults.{IsLowestWrong, IsRight, IsWrong};
ghost use Rattle.wc_verify.specs.Givers.{AreLastGivers, HasOutcome, given_alone, given_by, giver, job_given, when_asked, when_unasked};

use crate::givers::{is_killed, keeps_code, last_givers};
use crate::recorded::{recorded_outputs, retrieved_folder};
use std::alloc::{AllocError, Global};
use wc_expression::Outcome;
use wc_fits::is_calculation;
use wc_semantics::{Parsed, calculate, parse_result, request_of};
use wc_state::ProcessRecord;
use wc_syntax::{Definition, Job};
use wc_trees::{definition_of, recorded_inputs};
use wc_value::{Fields, Files, JobResult, ProcessState, same_fields, same_state};
use wc_world::{World, has_ended, reached_worlds_are_consistent};

/// What is given for a killed process: that it was killed, with no outputs, unless it keeps an exit code.
fn killed_given(alloc: Global, keeps_code: bool) -> Option<Parsed>
    ensures { result ≡ (if keeps_code then None else Some killed_outcome) }
{
    if keeps_code {
        None
    } else {
        Some(Parsed {
            state: ProcessState::Killed,
            outputs: Fields::new(alloc),
        })
    }
}

/// What is given for a job that has no result: it excepts with the reason that its request is.
fn given_unasked(alloc: Global, job: &Job, inputs: &Fields) -> Result<Option<Parsed>, AllocError>
    ensures { IfOk result (λ given. given ≡ when_unasked (request job.now inputs.now)) }
{
    match request_of(alloc, job, inputs)? {
        Outcome::Gives(_) => Ok(None),
        Outcome::Faults(reason) => Ok(Some(Parsed {
            state: ProcessState::Excepted(reason),
            outputs: Fields::new(alloc),
        })),
    }
}

/// What is given for a job that has a result: what its rules make of it, where its request is no reason.
fn given_asked(
    alloc: Global,
    job: &Job,
    inputs: &Fields,
    found: &JobResult,
) -> Result<Option<Parsed>, AllocError>
    ensures { IfOk result (λ given. given ≡ when_asked (request job.now inputs.now) (parsed job.now inputs.now found.now)) }
{
    match request_of(alloc, job, inputs)? {
        Outcome::Gives(_) => Ok(Some(parse_result(alloc, job, inputs, found)?)),
        Outcome::Faults(_) => Ok(None),
    }
}

/// What is given for a job with this exit code and this folder, if it has them.
fn job_given(
    alloc: Global,
    job: &Job,
    inputs: &Fields,
    code: Option<i64>,
    files: Option<Files>,
) -> Result<Option<Parsed>, AllocError>
    ensures { IfOk result (λ given. given ≡ job_given job.now inputs.now code files) }
{
    match code {
        Some(code) => match files {
            Some(files) => given_asked(alloc, job, inputs, &JobResult { code, files }),
            None => Ok(None),
        },
        None => given_unasked(alloc, job, inputs),
    }
}

/// What is given for a process that runs this definition, if it is one that calculates.
fn given_by(
    alloc: Global,
    definition: Option<&Definition>,
    inputs: &Fields,
    code: Option<i64>,
    files: Option<Files>,
) -> Result<Option<Parsed>, AllocError>
    ensures { IfOk result (λ given. given ≡ given_by (option_copied definition.entry) inputs.now code files) }
{
    match definition {
        Some(Definition::Function(function)) => Ok(Some(calculate(alloc, function, inputs)?)),
        Some(Definition::Job(job)) => job_given(alloc, job, inputs, code, files),
        Some(Definition::Chain(_)) | None => Ok(None),
    }
}

/// What is given for a process that took no other's outcome, if anything is.
fn given_alone(
    alloc: Global,
    world: &World,
    process: &ProcessRecord,
) -> Result<Option<Parsed>, AllocError>
    requires { IsSome (find_record process.now.node world.now.world.records) }
    ensures { IfOk result (λ given. given ≡ given_alone world.now.world process.now) }
{
    if is_killed(process.state) {
        return Ok(killed_given(alloc, keeps_code(process)));
    }
    if process.cached_from.is_some() {
        return Ok(None);
    }
    let inputs = recorded_inputs(alloc, world, process.node)?;
    let files = retrieved_folder(alloc, world, process.node)?;
    given_by(
        alloc,
        definition_of(world, process),
        &inputs,
        process.code,
        files,
    )
}

/// Whether a process ended as is given, with these outputs.
fn has_outcome(
    alloc: Global,
    world: &World,
    process: &ProcessRecord,
    given: Option<Parsed>,
) -> Result<bool, AllocError>
    requires { IsSome (find_record process.now.node world.now.world.records) }
    ensures { IfOk result (λ has. IsTrue has ↔ HasOutcome world.now.world process.now given) }
{
    let Some(parsed) = given else {
        return Ok(false);
    };
    let outputs = recorded_outputs(alloc, world, process.node)?;
    Ok(same_state(&process.state, &parsed.state) && same_fields(&outputs, &parsed.outputs))
}

/// Whether a process is as is given for it: for the last of its givers, who took no other's outcome.
fn is_given(
    alloc: Global,
    world: &World,
    lasts: &[u32],
    process: &ProcessRecord,
) -> Result<bool, AllocError>
    requires lasts { AreLastGivers giver world.now.world lasts.now }
    requires found { find_record process.now.node world.now.world.records ≡ Some process.now }
    ensures { IfOk result (λ is. IsTrue is ↔ IsGiven world.now.world process.now) }
{
    // A reached world is consistent, so that the numbers of processes are those of nodes.
    let _ = world.graph();
    reached_worlds_are_consistent();
    match world.record_of(lasts[process.node as usize]) {
        Some(last) => {
            let given = given_alone(alloc, world, last)?;
            has_outcome(alloc, world, process, given)
        }
        None => Ok(false),
    }
}

/// Whether a process is a calculation that ended otherwise than is given for it.
fn is_wrong(
    alloc: Global,
    world: &World,
    lasts: &[u32],
    process: &ProcessRecord,
) -> Result<bool, AllocError>
    requires lasts { AreLastGivers giver world.now.world lasts.now }
    requires found { find_record process.now.node world.now.world.records ≡ Some process.now }
    ensures { IfOk result (λ wrong. MatchBool wrong (IsWrong world.now.world process.now) (IsRight world.now.world process.now)) }
{
    if !is_calculation(process.kind) || !has_ended(process.state) {
        return Ok(false);
    }
    let given = is_given(alloc, world, lasts, process)?;
    Ok(!given)
}

/// The lowest calculation that isn't as its inputs give it, if there is one.
pub fn find_wrong_value(alloc: Global, world: &World) -> Result<Option<u32>, AllocError>
    ensures { IfOk result (IsLowestWrong world.now.world) }
{
    // A reached world is consistent, so that its records ascend by their numbers.
    let _ = world.graph();
    reached_worlds_are_consistent();
    let lasts = last_givers(alloc, world)?;
    for process in world.records().as_slice() {
        let wrong = is_wrong(alloc, world, &lasts, process)?;
        if wrong {
            return Ok(Some(process.node));
        }
    }
    Ok(None)
}
