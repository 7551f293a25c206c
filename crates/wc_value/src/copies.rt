//! Copies of values, and of what a process asks for, ends as and leaves.

ghost use Rattle.std.specs.Prelude.{◌≡◌, IfOk};

use crate::duplicate::Duplicate;
use crate::process::{Branches, JobResult, ProcessState, Request, Tree};
use crate::value::{Fields, Kind, Value, Values};
use std::alloc::AllocError;

impl Duplicate for Value {
    fn copy(&self) -> Result<Value, AllocError> {
        copy_value(self)
    }
}

#[cycle(copy)]
fn copy_value(value: &Value) -> Result<Value, AllocError>
    ensures { IfOk result (λ v. v ≡ value.now) }
{
    match value {
        Value::Int(n) => Ok(Value::Int(*n)),
        Value::Bool(b) => Ok(Value::Bool(*b)),
        Value::Text(text) => Ok(Value::Text(text.copy()?)),
        Value::List(items) => Ok(Value::List(copy_values(items)?)),
        Value::Dict(fields) => Ok(Value::Dict(copy_fields(fields)?)),
        Value::Folder(files) => Ok(Value::Folder(files.copy()?)),
    }
}

#[cycle(copy)]
fn copy_values(items: &Values) -> Result<Values, AllocError>
    ensures { IfOk result (λ v. v ≡ items.now) }
{
    let mut copies = items.emptied();
    for item in items.as_slice() {
        copies.push(copy_value(item)?)?;
    }
    Ok(copies)
}

#[cycle(copy)]
fn copy_fields(fields: &Fields) -> Result<Fields, AllocError>
    ensures { IfOk result (λ v. v ≡ fields.now) }
{
    let mut copies = fields.emptied();
    for (name, value) in fields.as_slice() {
        copies.push((name.copy()?, copy_value(value)?))?;
    }
    Ok(copies)
}

impl Duplicate for Kind {
    fn copy(&self) -> Result<Kind, AllocError> {
        Ok(*self)
    }
}

impl Duplicate for ProcessState {
    fn copy(&self) -> Result<ProcessState, AllocError> {
        Ok(*self)
    }
}

impl Duplicate for Request {
    fn copy(&self) -> Result<Request, AllocError> {
        Ok(Request {
            program: self.program.copy()?,
            args: self.args.copy()?,
            files: self.files.copy()?,
            fetch: self.fetch.copy()?,
        })
    }
}

impl Duplicate for JobResult {
    fn copy(&self) -> Result<JobResult, AllocError> {
        Ok(JobResult {
            code: self.code,
            files: self.files.copy()?,
        })
    }
}

impl Duplicate for Tree {
    fn copy(&self) -> Result<Tree, AllocError> {
        copy_tree(self)
    }
}

#[cycle(copy_tree)]
fn copy_tree(tree: &Tree) -> Result<Tree, AllocError>
    ensures { IfOk result (λ t. t ≡ tree.now) }
{
    Ok(Tree {
        definition: tree.definition.copy()?,
        state: tree.state,
        outputs: tree.outputs.copy()?,
        calls: copy_branches(&tree.calls)?,
    })
}

#[cycle(copy_tree)]
fn copy_branches(branches: &Branches) -> Result<Branches, AllocError>
    ensures { IfOk result (λ b. b ≡ branches.now) }
{
    let mut copies = branches.emptied();
    for (label, tree) in branches.as_slice() {
        copies.push((label.copy()?, copy_tree(tree)?))?;
    }
    Ok(copies)
}
