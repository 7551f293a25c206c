//! What the names in an archive stand for.

ghost use Rattle.std.specs.Prelude.{◌≡◌, ◌≢◌, ◌↔◌, ℕ, ◌<◌, ◌^◌, ◌++◌, List, IfOk, IsTrue, MatchOption, None, codes, decimal, option_map};
ghost use Rattle.wc_value.specs.declared.process.ProcessState.TheVariants.{Excepted};
ghost use Rattle.wc_report.specs.Lists.{process_kind_text};
ghost use Rattle.wc_report.specs.Names.{reason_text, state_text};
ghost use Rattle.wc_report.specs.Shows.{link_type_text};
ghost use Rattle.wc_archive_file.specs.Archives.{IsState};
ghost use Rattle.wc_archive_file.specs.Reads.{FindsFinished, Names, chosen, link_types, plain_states, process_kinds, reasons};

use std::alloc::{AllocError, Global};
use wc_graph::LinkType;
use wc_report::{link_type_name, process_kind_name, reason_name};
use wc_state::ProcessKind;
use wc_value::{ProcessState, Reason};

/// The kind of process with this name.
pub(crate) fn process_kind_named(name: &str) -> Option<ProcessKind>
    ensures { result ≡ chosen process_kind_text process_kinds name.now }
{
    if name == process_kind_name(ProcessKind::Function) {
        Some(ProcessKind::Function)
    } else if name == process_kind_name(ProcessKind::Job) {
        Some(ProcessKind::Job)
    } else if name == process_kind_name(ProcessKind::Chain) {
        Some(ProcessKind::Chain)
    } else {
        None
    }
}

/// The type of link with this name.
pub(crate) fn link_type_named(name: &str) -> Option<LinkType>
    ensures { result ≡ chosen link_type_text link_types name.now }
{
    if name == link_type_name(LinkType::InputCalc) {
        Some(LinkType::InputCalc)
    } else if name == link_type_name(LinkType::InputWork) {
        Some(LinkType::InputWork)
    } else if name == link_type_name(LinkType::Create) {
        Some(LinkType::Create)
    } else if name == link_type_name(LinkType::Return) {
        Some(LinkType::Return)
    } else if name == link_type_name(LinkType::CallCalc) {
        Some(LinkType::CallCalc)
    } else if name == link_type_name(LinkType::CallWork) {
        Some(LinkType::CallWork)
    } else {
        None
    }
}

/// The reason with this name.
fn reason_named(name: &str) -> Option<Reason>
    ensures { result ≡ chosen reason_text reasons name.now }
{
    if name == reason_name(Reason::Overflow) {
        Some(Reason::Overflow)
    } else if name == reason_name(Reason::DivideByZero) {
        Some(Reason::DivideByZero)
    } else if name == reason_name(Reason::MissingKey) {
        Some(Reason::MissingKey)
    } else if name == reason_name(Reason::WrongKind) {
        Some(Reason::WrongKind)
    } else if name == reason_name(Reason::NoOutput) {
        Some(Reason::NoOutput)
    } else if name == reason_name(Reason::BadText) {
        Some(Reason::BadText)
    } else if name == reason_name(Reason::TooLong) {
        Some(Reason::TooLong)
    } else if name == reason_name(Reason::Depth) {
        Some(Reason::Depth)
    } else if name == reason_name(Reason::BadInput) {
        Some(Reason::BadInput)
    } else {
        None
    }
}

/// The state with this name that has neither status nor reason.
fn plain_state_named(name: &str) -> Option<ProcessState>
    ensures { result ≡ chosen state_text plain_states name.now }
{
    if name == "created" {
        Some(ProcessState::Created)
    } else if name == "running" {
        Some(ProcessState::Running)
    } else if name == "waiting" {
        Some(ProcessState::Waiting)
    } else if name == "killed" {
        Some(ProcessState::Killed)
    } else {
        None
    }
}

/// Whether two texts are equal.
pub(crate) fn is_same(text: &str, other: &str) -> bool
    ensures { IsTrue result ↔ (text.now ≡ other.now) }
{
    text == other
}

/// What stands behind a word, where a text begins with it.
fn behind<'a>(text: &'a str, word: &str) -> Option<&'a str>
    ensures { MatchOption result ((rest : List ℕ) → text.now ≢ word.now ++ rest) (λ rest. text.now ≡ word.now ++ rest.now) }
{
    text.strip_prefix(word)
}

/// The exit status whose decimal digits these are, with no zero in front.
fn status_named(alloc: Global, digits: &str) -> Result<Option<u32>, AllocError>
    ensures { IfOk result (λ found. Names decimal (λ n. n < 2 ^ 32) digits.now found) }
{
    match digits.parse::<u32>() {
        Ok(status) => {
            let again = format!(in alloc; "{status}")?;
            if is_same(again.as_str(), digits) {
                Ok(Some(status))
            } else {
                Ok(None)
            }
        }
        Err(_) => Ok(None),
    }
}

/// The state that ended by the reason with this name.
fn excepted(word: &str) -> Option<ProcessState>
    ensures { result ≡ option_map Excepted (chosen reason_text reasons word.now) }
{
    match reason_named(word) {
        Some(reason) => Some(ProcessState::Excepted(reason)),
        None => None,
    }
}

/// The state that ended with the status of these digits.
fn finished(alloc: Global, digits: &str) -> Result<Option<ProcessState>, AllocError>
    ensures { IfOk result (λ found. FindsFinished digits.now found) }
{
    match status_named(alloc, digits)? {
        Some(status) => Ok(Some(ProcessState::Finished(status))),
        None => Ok(None),
    }
}

/// The state with this name, where it has no reason.
fn finished_state(alloc: Global, name: &str) -> Result<Option<ProcessState>, AllocError>
    requires plain { None ≡ chosen state_text plain_states name.now }
    requires excepted { (rest : List ℕ) → name.now ≢ codes "excepted " ++ rest }
    ensures { IfOk result (λ found. Names state_text IsState name.now found) }
{
    match behind(name, "finished ") {
        Some(digits) => finished(alloc, digits),
        None => Ok(None),
    }
}

/// The state with this name, which has a status or a reason.
fn worded_state(alloc: Global, name: &str) -> Result<Option<ProcessState>, AllocError>
    requires { None ≡ chosen state_text plain_states name.now }
    ensures { IfOk result (λ found. Names state_text IsState name.now found) }
{
    match behind(name, "excepted ") {
        Some(word) => Ok(excepted(word)),
        None => finished_state(alloc, name),
    }
}

/// The state with this name.
pub(crate) fn state_named(alloc: Global, name: &str) -> Result<Option<ProcessState>, AllocError>
    ensures { IfOk result (λ found. Names state_text IsState name.now found) }
{
    match plain_state_named(name) {
        Some(state) => Ok(Some(state)),
        None => worded_state(alloc, name),
    }
}
