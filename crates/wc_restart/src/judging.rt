//! Why no chain is added to a library.

ghost use Rattle.std.specs.Prelude.{◌≡◌, [], IfOk, is_some};
ghost use Rattle.wc_restart.specs.Judging.{or_then, unknown_in, fits, misfit_in, unknown_functions, bad_ports, is_number_among, same_priorities, misnamed};
ghost use Rattle.wc_restart.specs.Ports.{job_named, function_named, asked_of};

use crate::ports::{asked_of, ports_fit};
use std::alloc::{AllocError, Global};
use wc_handlers::{Handlers, Remedy, RestartError, Spec, Statuses};
use wc_syntax::{Definition, Library, PortList, find_definition};
use wc_value::{Duplicate, Text};

/// Whether a definition of this name is a job.
fn is_job(library: &Library, name: &Text) -> bool
    ensures { result ≡ is_some (job_named name.now library.now) }
{
    match find_definition(library, name) {
        Some(Definition::Job(_)) => true,
        _ => false,
    }
}

/// Whether a definition of this name is a function.
fn is_function(library: &Library, name: &Text) -> bool
    ensures { result ≡ is_some (function_named name.now library.now) }
{
    match find_definition(library, name) {
        Some(Definition::Function(_)) => true,
        _ => false,
    }
}

/// Whether a function of this name, if there is one, takes and gives what the job asks for.
fn fits(alloc: Global, library: &Library, ports: &PortList, name: &Text) -> Result<bool, AllocError>
    ensures { IfOk result (λ good. good ≡ fits ports.now (function_named name.now library.now)) }
{
    match find_definition(library, name) {
        Some(Definition::Function(function)) => ports_fit(alloc, ports, function),
        _ => Ok(true),
    }
}

/// The refusal of a remedy that calls no function of the library.
fn unknown_in(library: &Library, remedy: &Remedy) -> Result<Option<RestartError>, AllocError>
    ensures { IfOk result (λ r. r ≡ unknown_in library.now remedy.now) }
{
    match remedy {
        Remedy::Call(name) if !is_function(library, name) => Ok(Some(RestartError::UnknownName(
            name.copy()?,
        ))),
        _ => Ok(None),
    }
}

/// The refusal of a remedy whose function doesn't fit.
fn misfit_in(
    alloc: Global,
    library: &Library,
    ports: &PortList,
    remedy: &Remedy,
) -> Result<Option<RestartError>, AllocError>
    ensures { IfOk result (λ r. r ≡ misfit_in library.now ports.now remedy.now) }
{
    match remedy {
        Remedy::Abort(_) => Ok(None),
        Remedy::Call(name) => {
            if fits(alloc, library, ports, name)? {
                Ok(None)
            } else {
                Ok(Some(RestartError::BadPorts(name.copy()?)))
            }
        }
    }
}

/// The first handler that calls no function of the library.
fn unknown_function(
    library: &Library,
    handlers: &Handlers,
) -> Result<Option<RestartError>, AllocError>
    ensures { IfOk result (λ r. r ≡ unknown_functions library.now handlers.now) }
{
    for handler in handlers.as_slice() {
        if let Some(refused) = unknown_in(library, &handler.remedy)? {
            return Ok(Some(refused));
        }
    }
    Ok(None)
}

/// The first handler whose function doesn't fit.
fn bad_ports(
    alloc: Global,
    library: &Library,
    ports: &PortList,
    handlers: &Handlers,
) -> Result<Option<RestartError>, AllocError>
    ensures { IfOk result (λ r. r ≡ bad_ports library.now ports.now handlers.now) }
{
    for handler in handlers.as_slice() {
        if let Some(refused) = misfit_in(alloc, library, ports, &handler.remedy)? {
            return Ok(Some(refused));
        }
    }
    Ok(None)
}

/// Whether a number is among these.
fn is_number_among(number: u32, numbers: &Statuses) -> bool
    ensures { result ≡ is_number_among number numbers.now }
{
    for other in numbers.as_slice() {
        if *other == number {
            return true;
        }
    }
    false
}

/// The first handler whose priority one before it has.
fn same_priority(alloc: Global, handlers: &Handlers) -> Result<Option<RestartError>, AllocError>
    ensures { IfOk result (λ r. r ≡ same_priorities [] handlers.now) }
{
    let mut before = Statuses::new(alloc);
    for handler in handlers.as_slice() {
        if is_number_among(handler.priority, &before) {
            return Ok(Some(RestartError::SamePriority(handler.priority)));
        }
        before.push(handler.priority)?;
    }
    Ok(None)
}

/// What is refused of the handlers' ports and priorities.
fn misfit(alloc: Global, library: &Library, spec: &Spec) -> Result<Option<RestartError>, AllocError>
    ensures { IfOk result (λ r. r ≡ or_then (bad_ports library.now (asked_of spec.now.job library.now) spec.now.handlers) (same_priorities [] spec.now.handlers)) }
{
    let ports = asked_of(alloc, &spec.job, library)?;
    match bad_ports(alloc, library, &ports, &spec.handlers)? {
        Some(refused) => Ok(Some(refused)),
        None => same_priority(alloc, &spec.handlers),
    }
}

/// What is refused of names, of ports and of the handlers.
pub fn misnamed(
    alloc: Global,
    library: &Library,
    spec: &Spec,
) -> Result<Option<RestartError>, AllocError>
    ensures { IfOk result (λ r. r ≡ misnamed library.now spec.now) }
{
    if !is_job(library, &spec.job) {
        return Ok(Some(RestartError::UnknownName(spec.job.copy()?)));
    }
    if let Some(refused) = unknown_function(library, &spec.handlers)? {
        return Ok(Some(refused));
    }
    if find_definition(library, &spec.name).is_some() {
        return Ok(Some(RestartError::NameTaken(spec.name.copy()?)));
    }
    misfit(alloc, library, spec)
}
