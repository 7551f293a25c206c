//! The exit codes of the chain.

ghost use Rattle.std.specs.Prelude.{◌≡◌, map, IfOk};
ghost use Rattle.wc_restart.specs.Chains.{code, placed, with_abort, aborts, aborted, codes_of};

use crate::pieces::{number, one};
use std::alloc::{AllocError, Global};
use wc_handlers::{Handlers, Remedy, Spec, Statuses};
use wc_syntax::{ExitCode, ExitCodes, Quoted};
use wc_value::Text;

/// An exit code with this message.
fn code(alloc: Global, status: u32, message: &str) -> Result<ExitCode, AllocError>
    ensures { IfOk result (λ c. c ≡ code status message.now) }
{
    let text = Text::of_str(alloc, message)?;
    Ok(ExitCode {
        at: 0,
        status: number(status),
        message: Quoted { text, at: 0 },
        invalidates: false,
    })
}

/// Ascending statuses with one more, which is there once.
fn placed(alloc: Global, status: u32, statuses: &Statuses) -> Result<Statuses, AllocError>
    ensures { IfOk result (λ found. found ≡ placed status statuses.now) }
{
    let mut found = Statuses::new(alloc);
    let mut waits = true;
    for next in statuses.as_slice() {
        if waits && status < *next {
            found.push(status)?;
            waits = false;
        }
        if status == *next {
            waits = false;
        }
        found.push(*next)?;
    }
    if waits {
        found.push(status)?;
    }
    Ok(found)
}

/// These statuses with that of a remedy, if it ends the chain.
fn with_abort(alloc: Global, remedy: &Remedy, statuses: Statuses) -> Result<Statuses, AllocError>
    ensures { IfOk result (λ found. found ≡ with_abort remedy.now statuses) }
{
    match remedy {
        Remedy::Call(_) => Ok(statuses),
        Remedy::Abort(status) => placed(alloc, *status, &statuses),
    }
}

/// The statuses with which handlers end the chain, ascending, each once.
fn aborts(alloc: Global, handlers: &Handlers) -> Result<Statuses, AllocError>
    ensures { IfOk result (λ found. found ≡ aborts handlers.now) }
{
    let mut found = Statuses::new(alloc);
    for handler in handlers.as_slice() {
        found = with_abort(alloc, &handler.remedy, found)?;
    }
    Ok(found)
}

/// The exit codes of the chain.
pub fn codes_of(alloc: Global, spec: &Spec) -> Result<ExitCodes, AllocError>
    ensures { IfOk result (λ codes. codes ≡ codes_of spec.now) }
{
    let statuses = aborts(alloc, &spec.handlers)?;
    let mut codes = one(alloc, code(alloc, 401, "maximum iterations")?)?;
    codes.push(code(alloc, 402, "second unhandled failure")?)?;
    for status in statuses.as_slice() {
        codes.push(code(alloc, *status, "aborted")?)?;
    }
    Ok(codes)
}
