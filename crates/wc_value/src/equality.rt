//! Whether texts, values, requests, results, states and trees are equal.

ghost use Rattle.std.specs.Prelude.{◌≡◌, ◌↔◌, IsTrue};

use crate::list::Bytes;
use crate::process::{Branches, JobResult, ProcessState, Request, Tree};
use crate::text::Text;
use crate::value::{Fields, Files, Value, Values, Words};

/// Whether two texts are equal.
pub fn same_text(a: &Text, b: &Text) -> bool
    ensures { IsTrue result ↔ (a.now ≡ b.now) }
{
    a.bytes() == b.bytes()
}

/// Whether two lists of bytes are equal.
pub fn same_bytes(a: &Bytes, b: &Bytes) -> bool
    ensures { IsTrue result ↔ (a.now ≡ b.now) }
{
    a.bytes() == b.bytes()
}

/// Whether two values are equal.
#[cycle(same)]
pub fn same_value(a: &Value, b: &Value) -> bool
    ensures { IsTrue result ↔ (a.now ≡ b.now) }
{
    match a {
        Value::Int(x) => match b {
            Value::Int(y) => *x == *y,
            _ => false,
        },
        Value::Bool(x) => match b {
            Value::Bool(y) => *x == *y,
            _ => false,
        },
        Value::Text(x) => match b {
            Value::Text(y) => same_text(x, y),
            _ => false,
        },
        Value::List(x) => match b {
            Value::List(y) => same_values(x, y),
            _ => false,
        },
        Value::Dict(x) => match b {
            Value::Dict(y) => same_fields(x, y),
            _ => false,
        },
        Value::Folder(x) => match b {
            Value::Folder(y) => same_files(x, y),
            _ => false,
        },
    }
}

/// Whether two lists of values are equal.
#[cycle(same)]
pub fn same_values(a: &Values, b: &Values) -> bool
    ensures { IsTrue result ↔ (a.now ≡ b.now) }
{
    let left = a.as_slice();
    let right = b.as_slice();
    if left.len() != right.len() {
        return false;
    }
    for at in 0..left.len() {
        if !same_value(&left[at], &right[at]) {
            return false;
        }
    }
    true
}

/// Whether two lists of values by name are equal.
#[cycle(same)]
pub fn same_fields(a: &Fields, b: &Fields) -> bool
    ensures { IsTrue result ↔ (a.now ≡ b.now) }
{
    let left = a.as_slice();
    let right = b.as_slice();
    if left.len() != right.len() {
        return false;
    }
    for at in 0..left.len() {
        let x = &left[at];
        let y = &right[at];
        if !same_text(&x.0, &y.0) || !same_value(&x.1, &y.1) {
            return false;
        }
    }
    true
}

/// Whether two folders are equal.
pub fn same_files(a: &Files, b: &Files) -> bool
    ensures { IsTrue result ↔ (a.now ≡ b.now) }
{
    let left = a.as_slice();
    let right = b.as_slice();
    if left.len() != right.len() {
        return false;
    }
    for at in 0..left.len() {
        let x = &left[at];
        let y = &right[at];
        if !same_text(&x.0, &y.0) || !same_bytes(&x.1, &y.1) {
            return false;
        }
    }
    true
}

/// Whether two lists of texts are equal.
pub fn same_words(a: &Words, b: &Words) -> bool
    ensures { IsTrue result ↔ (a.now ≡ b.now) }
{
    let left = a.as_slice();
    let right = b.as_slice();
    if left.len() != right.len() {
        return false;
    }
    for at in 0..left.len() {
        if !same_text(&left[at], &right[at]) {
            return false;
        }
    }
    true
}

/// Whether two requests are equal.
pub fn same_request(a: &Request, b: &Request) -> bool
    ensures { IsTrue result ↔ (a.now ≡ b.now) }
{
    same_text(&a.program, &b.program)
        && same_words(&a.args, &b.args)
        && same_files(&a.files, &b.files)
        && same_words(&a.fetch, &b.fetch)
}

/// Whether two results of jobs are equal.
pub fn same_result(a: &JobResult, b: &JobResult) -> bool
    ensures { IsTrue result ↔ (a.now ≡ b.now) }
{
    a.code == b.code && same_files(&a.files, &b.files)
}

/// Whether two states are equal.
pub fn same_state(a: &ProcessState, b: &ProcessState) -> bool
    ensures { IsTrue result ↔ (a.now ≡ b.now) }
{
    match a {
        ProcessState::Created => matches!(b, ProcessState::Created),
        ProcessState::Running => matches!(b, ProcessState::Running),
        ProcessState::Waiting => matches!(b, ProcessState::Waiting),
        ProcessState::Finished(x) => match b {
            ProcessState::Finished(y) => *x == *y,
            _ => false,
        },
        ProcessState::Excepted(x) => match b {
            ProcessState::Excepted(y) => *x == *y,
            _ => false,
        },
        ProcessState::Killed => matches!(b, ProcessState::Killed),
    }
}

/// Whether two trees are equal.
#[cycle(same_tree)]
pub fn same_tree(a: &Tree, b: &Tree) -> bool
    ensures { IsTrue result ↔ (a.now ≡ b.now) }
{
    if !same_text(&a.definition, &b.definition) {
        return false;
    }
    if !same_state(&a.state, &b.state) || !same_fields(&a.outputs, &b.outputs) {
        return false;
    }
    same_branches(&a.calls, &b.calls)
}

/// Whether two lists of labelled trees are equal.
#[cycle(same_tree)]
fn same_branches(a: &Branches, b: &Branches) -> bool
    ensures { IsTrue result ↔ (a.now ≡ b.now) }
{
    let left = a.as_slice();
    let right = b.as_slice();
    if left.len() != right.len() {
        return false;
    }
    for at in 0..left.len() {
        let x = &left[at];
        let y = &right[at];
        if !same_text(&x.0, &y.0) || !same_tree(&x.1, &y.1) {
            return false;
        }
    }
    true
}
