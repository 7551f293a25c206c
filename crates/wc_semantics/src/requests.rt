//! What a job asks of the transport.

ghost use Rattle.std.specs.Prelude.{◌≡◌, IfOk, [], map};
ghost use Rattle.wc_semantics.specs.Requests.{text_at, texts_of, files_of, fetched, request_in, request};

use crate::rules::environment;
use std::alloc::{AllocError, Global};
use wc_expression::{Outcome, eval};
use wc_state::Env;
use wc_syntax::{Expr, Fetches, Job, JobFile, JobLine};
use wc_value::{Bytes, Duplicate, Fields, Files, Reason, Request, Text, Value, Words};

/// The text that an expression is.
fn eval_text(alloc: Global, expr: &Expr, env: &Env) -> Result<Outcome<Text>, AllocError>
    ensures { IfOk result (λ o. o ≡ text_at expr.now env.now) }
{
    match eval(alloc, expr, env)? {
        Outcome::Gives(Value::Text(text)) => Ok(Outcome::Gives(text)),
        Outcome::Gives(_) => Ok(Outcome::Faults(Reason::WrongKind)),
        Outcome::Faults(reason) => Ok(Outcome::Faults(reason)),
    }
}

/// The texts of lines, in order.
fn eval_lines(alloc: Global, lines: &[JobLine], env: &Env) -> Result<Outcome<Words>, AllocError>
    ensures { IfOk result (λ o. o ≡ texts_of lines.now env.now) }
{
    let mut texts = Words::new(alloc);
    for line in lines {
        match eval_text(alloc, &line.value, env)? {
            Outcome::Gives(text) => texts.push(text)?,
            Outcome::Faults(reason) => return Ok(Outcome::Faults(reason)),
        }
    }
    Ok(Outcome::Gives(texts))
}

/// The bytes of a text.
fn bytes_of(alloc: Global, text: &Text) -> Result<Bytes, AllocError>
    ensures { IfOk result (λ bytes. bytes ≡ text.now) }
{
    let mut bytes = Bytes::new(alloc);
    bytes.extend(text.bytes())?;
    Ok(bytes)
}

/// The files of lines, in order.
fn eval_files(alloc: Global, lines: &[JobFile], env: &Env) -> Result<Outcome<Files>, AllocError>
    ensures { IfOk result (λ o. o ≡ files_of lines.now env.now []) }
{
    let mut files = Files::new(alloc);
    for line in lines {
        match eval_text(alloc, &line.value, env)? {
            Outcome::Gives(text) => files.set(line.name.text.copy()?, bytes_of(alloc, &text)?)?,
            Outcome::Faults(reason) => return Ok(Outcome::Faults(reason)),
        }
    }
    Ok(Outcome::Gives(files))
}

/// The names of the files to bring back.
fn fetched_names(alloc: Global, lines: &Fetches) -> Result<Words, AllocError>
    ensures { IfOk result (λ names. names ≡ map fetched lines.now) }
{
    let mut names = Words::new(alloc);
    for line in lines.as_slice() {
        names.push(line.name.text.copy()?)?;
    }
    Ok(names)
}

/// The request of a job in an environment.
fn eval_request(alloc: Global, job: &Job, env: &Env) -> Result<Outcome<Request>, AllocError>
    ensures { IfOk result (λ o. o ≡ request_in job.now env.now) }
{
    let program = match eval_text(alloc, &job.program.value, env)? {
        Outcome::Gives(program) => program,
        Outcome::Faults(reason) => return Ok(Outcome::Faults(reason)),
    };
    let args = match eval_lines(alloc, job.args.as_slice(), env)? {
        Outcome::Gives(args) => args,
        Outcome::Faults(reason) => return Ok(Outcome::Faults(reason)),
    };
    let files = match eval_files(alloc, job.files.as_slice(), env)? {
        Outcome::Gives(files) => files,
        Outcome::Faults(reason) => return Ok(Outcome::Faults(reason)),
    };
    Ok(Outcome::Gives(Request {
        program,
        args,
        files,
        fetch: fetched_names(alloc, &job.fetch)?,
    }))
}

/// The request of a job for its inputs, or the first reason that its program, arguments and files meet.
pub fn request_of(alloc: Global, job: &Job, inputs: &Fields) -> Result<Outcome<Request>, AllocError>
    ensures { IfOk result (λ o. o ≡ request job.now inputs.now) }
{
    let env = environment(alloc, inputs)?;
    eval_request(alloc, job, &env)
}
