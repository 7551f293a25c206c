//! The names of kinds, reasons and states.

ghost use Rattle.std.specs.Prelude.{◌≡◌, IfOk, string_bytes};
ghost use Rattle.wc_report.specs.Names.{kind_text, reason_text, state_text};

use std::alloc::{AllocError, Global};
use wc_value::{Kind, ProcessState, Reason, Text};

/// What a kind is called.
pub fn kind_name(kind: Kind) -> &'static str
    ensures { result.now ≡ kind_text kind }
{
    match kind {
        Kind::Int => "int",
        Kind::Bool => "bool",
        Kind::Text => "text",
        Kind::List => "list",
        Kind::Dict => "dict",
        Kind::Folder => "folder",
    }
}

/// What a reason is called.
pub fn reason_name(reason: Reason) -> &'static str
    ensures { result.now ≡ reason_text reason }
{
    match reason {
        Reason::Overflow => "overflow",
        Reason::DivideByZero => "division by zero",
        Reason::MissingKey => "missing key",
        Reason::WrongKind => "wrong kind",
        Reason::NoOutput => "no such output",
        Reason::BadText => "bad text",
        Reason::TooLong => "too long",
        Reason::Depth => "depth",
        Reason::BadInput => "bad input",
    }
}

/// What a state is called, with its exit status or its reason.
pub fn state_text(alloc: Global, state: ProcessState) -> Result<Text, AllocError>
    ensures { IfOk result (λ text. text ≡ state_text state) }
{
    Text::of_string(state_name(alloc, state)?)
}

/// The same as a string.
pub fn state_name(alloc: Global, state: ProcessState) -> Result<String, AllocError>
    ensures { IfOk result (λ name. string_bytes name ≡ state_text state) }
{
    match state {
        ProcessState::Created => String::from_str(alloc, "created"),
        ProcessState::Running => String::from_str(alloc, "running"),
        ProcessState::Waiting => String::from_str(alloc, "waiting"),
        ProcessState::Finished(status) => format!(in alloc; "finished {status}"),
        ProcessState::Excepted(reason) => format!(in alloc; "excepted {}", reason_name(reason)),
        ProcessState::Killed => String::from_str(alloc, "killed"),
    }
}
