//! The outcome of a calculation.

ghost use Rattle.std.specs.Prelude.{◌≡◌, [], IfOk};
ghost use Rattle.wc_semantics.specs.Outcomes.{lacks, final_status, concluded, calculated, retrieved, parse_env, parsed, job_outcome};

use crate::requests::request_of;
use crate::rules::{bind, environment, run};
use std::alloc::{AllocError, Global};
use wc_expression::Outcome;
use wc_state::Env;
use wc_syntax::{Function, Job, Port, PortList};
use wc_value::{Duplicate, Fields, JobResult, ProcessState, Text, Value};

/// The exit status of a process that lacks a required output.
const LACKS_OUTPUT: u32 = 11;

/// The end of a calculation.
#[derive(Drop)]
pub struct Parsed {
    /// The state that it ended in.
    pub state: ProcessState,
    /// Its outputs by label.
    pub outputs: Fields,
}

/// Whether a required port has no output.
fn has_gap(ports: &[Port], outputs: &Fields) -> bool
    ensures { result ≡ lacks ports.now outputs.now }
{
    for port in ports {
        if !port.optional && outputs.find(port.name.text.bytes()).is_none() {
            return true;
        }
    }
    false
}

/// The status of a calculation whose rules ended with a status and these outputs.
pub fn final_status(ports: &PortList, status: u32, outputs: &Fields) -> u32
    ensures { result ≡ final_status ports.now (status, outputs.now) }
{
    if status == 0 && has_gap(ports.as_slice(), outputs) {
        LACKS_OUTPUT
    } else {
        status
    }
}

/// What the end of the rules makes of a calculation, which has only the outputs `kept` where it excepts.
fn conclude(ports: &PortList, kept: Fields, end: Outcome<(u32, Fields)>) -> Parsed
    ensures { result ≡ concluded ports.now kept end }
{
    match end {
        Outcome::Gives((status, outputs)) => Parsed {
            state: ProcessState::Finished(final_status(ports, status, &outputs)),
            outputs,
        },
        Outcome::Faults(reason) => Parsed {
            state: ProcessState::Excepted(reason),
            outputs: kept,
        },
    }
}

/// The outcome of a function for its inputs: its rules run in order. A function that excepts has no outputs.
pub fn calculate(alloc: Global, function: &Function, inputs: &Fields) -> Result<Parsed, AllocError>
    ensures { IfOk result (λ p. p ≡ calculated function.now inputs.now) }
{
    let ports = &function.head.outputs;
    let env = environment(alloc, inputs)?;
    let end = run(alloc, ports, &function.rules, env, Fields::new(alloc))?;
    Ok(conclude(ports, Fields::new(alloc), end))
}

/// The folder that a job brought back, among no other outputs.
fn folder_alone(alloc: Global, given: &JobResult) -> Result<Fields, AllocError>
    ensures { IfOk result (λ fields. fields ≡ retrieved given.now) }
{
    let mut fields = Fields::new(alloc);
    fields.set(
        Text::of_str(alloc, "retrieved")?,
        Value::Folder(given.files.copy()?),
    )?;
    Ok(fields)
}

/// The environment of the rules that read a job's result.
fn parse_environment(alloc: Global, inputs: &Fields, given: &JobResult) -> Result<Env, AllocError>
    ensures { IfOk result (λ e. e ≡ parse_env inputs.now given.now) }
{
    let mut env = environment(alloc, inputs)?;
    let folder = Value::Folder(given.files.copy()?);
    bind(&mut env, Text::of_str(alloc, "retrieved")?, folder)?;
    bind(
        &mut env,
        Text::of_str(alloc, "code")?,
        Value::Int(given.code),
    )?;
    Ok(env)
}

/// What the rules of a job's `parse` part make of its result. The folder is always among the outputs, and alone where
/// a rule excepts. The job's request isn't looked at.
pub fn parse_result(
    alloc: Global,
    job: &Job,
    inputs: &Fields,
    given: &JobResult,
) -> Result<Parsed, AllocError>
    ensures { IfOk result (λ p. p ≡ parsed job.now inputs.now given.now) }
{
    let ports = &job.head.outputs;
    let env = parse_environment(alloc, inputs, given)?;
    let end = run(alloc, ports, &job.parse, env, folder_alone(alloc, given)?)?;
    Ok(conclude(ports, folder_alone(alloc, given)?, end))
}

/// The outcome of a job with a result. A job whose request is a reason excepts with it, whatever the result.
pub fn calculate_job(
    alloc: Global,
    job: &Job,
    inputs: &Fields,
    given: &JobResult,
) -> Result<Parsed, AllocError>
    ensures { IfOk result (λ p. p ≡ job_outcome job.now inputs.now given.now) }
{
    match request_of(alloc, job, inputs)? {
        Outcome::Gives(_) => parse_result(alloc, job, inputs, given),
        Outcome::Faults(reason) => Ok(Parsed {
            state: ProcessState::Excepted(reason),
            outputs: Fields::new(alloc),
        }),
    }
}
