//! Calculations of files that no command takes, or on inputs that none gives.

use crate::lists::fields_of;
use crate::shown::Shown;
use crate::syntax::library_of;
use crate::values::put_json;
use std::alloc::{AllocError, Global};
use wc_expression::Outcome;
use wc_semantics::{Parsed, calculate, calculate_job, parse_result, request_of};
use wc_syntax::{Definition, Job};
use wc_value::{
    Bytes, Fields, Files, JobResult, ProcessState, Text, Value, Values, filled, let_go,
};

/// The items of a list in which a list of these items stands.
fn list_of(alloc: Global, items: Values) -> Result<Values, AllocError> {
    let mut list = Values::new(alloc);
    let put = list.push(Value::List(items));
    filled(list, put)
}

/// The items of a list of 33 levels.
fn deeper(alloc: Global) -> Result<Values, AllocError> {
    let mut items = Values::new(alloc);
    for _level in 0..32u8 {
        items = list_of(alloc, items)?;
    }
    Ok(items)
}

/// Sets an input `deeper`.
fn set_deeper(alloc: Global, inputs: &mut Fields) -> Result<(), AllocError> {
    let name = Text::of_str(alloc, "deeper")?;
    let items = deeper(alloc)?;
    inputs.set(name, Value::List(items))
}

/// Whole numbers by their ports, from words like `x=1`, or a list of 33 levels.
fn inputs_of(alloc: Global, shown: &mut Shown, text: &str) -> Fields {
    if text != "deeper" {
        return fields_of(alloc, shown, text);
    }
    let mut inputs = Fields::new(alloc);
    if set_deeper(alloc, &mut inputs).is_err() {
        shown.lose();
    }
    inputs
}

/// Puts the file `y`.
fn put_file(alloc: Global, files: &mut Files) -> Result<(), AllocError> {
    let mut content = Bytes::new(alloc);
    content.push(b'9')?;
    files.set(Text::of_str(alloc, "y")?, content)
}

/// A result with the code 0 and the file `y`.
fn result(alloc: Global) -> Result<JobResult, AllocError> {
    let mut files = Files::new(alloc);
    let put = put_file(alloc, &mut files);
    Ok(JobResult {
        code: 0,
        files: filled(files, put)?,
    })
}

/// Puts the state of a calculation.
fn put_state(shown: &mut Shown, state: &ProcessState) {
    match state {
        ProcessState::Finished(status) => shown.put_item(status),
        ProcessState::Excepted(reason) => shown.put_word(reason),
        _ => shown.put("goes on"),
    }
    shown.put(" ");
}

/// Puts the state of a calculation and its outputs.
fn put_parsed(alloc: Global, shown: &mut Shown, parsed: Parsed) {
    put_state(shown, &parsed.state);
    put_json(alloc, shown, Value::Dict(parsed.outputs));
}

/// Puts the end of a calculation.
fn put_end(alloc: Global, shown: &mut Shown, end: Result<Parsed, AllocError>) {
    match end {
        Ok(parsed) => put_parsed(alloc, shown, parsed),
        Err(_) => shown.lose(),
    }
}

/// Puts which program a job asks for, or why it asks for none.
fn put_asked(alloc: Global, shown: &mut Shown, job: &Job, inputs: &Fields) {
    match request_of(alloc, job, inputs) {
        Ok(Outcome::Gives(request)) => {
            shown.put("asks ");
            shown.put(request.program.as_str());
        }
        Ok(Outcome::Faults(reason)) => shown.put_word(&reason),
        Err(_) => shown.lose(),
    }
    shown.put(", ");
}

/// Puts what a job asks for, and what it makes of a result by its rules alone and as a whole.
fn put_job(alloc: Global, shown: &mut Shown, job: &Job, inputs: &Fields) {
    put_asked(alloc, shown, job, inputs);
    let Ok(given) = result(alloc) else {
        shown.lose();
        return;
    };
    put_end(alloc, shown, parse_result(alloc, job, inputs, &given));
    shown.put(", ");
    put_end(alloc, shown, calculate_job(alloc, job, inputs, &given));
}

/// Puts what the only definition of a file makes of inputs.
fn put_made(alloc: Global, shown: &mut Shown, library: &[Definition], inputs: &Fields) {
    match library {
        [Definition::Function(function)] => {
            put_end(alloc, shown, calculate(alloc, function, inputs));
        }
        [Definition::Job(job)] => put_job(alloc, shown, job, inputs),
        _ => shown.put("no calculation"),
    }
}

/// Puts what a file makes of inputs.
fn put_outcome(alloc: Global, shown: &mut Shown, file: &Text, inputs: &Fields) {
    match library_of(alloc, file) {
        Ok(library) => put_made(alloc, shown, library.library().as_slice(), inputs),
        Err(error) => shown.put_item(&error),
    }
}

/// Puts what the file below the first line makes of the inputs that this says.
pub fn put_calculation(alloc: Global, shown: &mut Shown, text: &str) {
    let (inputs, file) = text.split_once('\n').unwrap_or((text, ""));
    let inputs = inputs_of(alloc, shown, inputs);
    match Text::of_str(alloc, file) {
        Ok(file) => put_outcome(alloc, shown, &file, &inputs),
        Err(_) => shown.lose(),
    }
    let_go(inputs);
}
