//! Files that a command names beside its library: inputs, and results of jobs.

ghost use Rattle.std.specs.Prelude.{◌≡◌, [], ◌∷◌, ◌++◌, IfOk};
ghost use Rattle.wc_json.specs.Documents.{answer_of};
ghost use Rattle.wc_json.specs.Limits.{read_fields};
ghost use Rattle.wc_json.specs.Tables.{read_table};
ghost use Rattle.wc_plan.specs.Counts.{CountsShelf};
ghost use Rattle.wc_plan.specs.Further.{Has, InputsFrom, TableFrom, kinds_of, or_cause, read_file};
ghost use Rattle.wc_plan.specs.Naming.{given_file};
ghost use Rattle.wc_plan.specs.declared.status.Cause.TheVariants.{Inputs, Table as TableCause};

use crate::error::PlanError;
use crate::status::Cause;
use std::alloc::{AllocError, Global};
use wc_io::{Shelf, ShelfError};
use wc_json::{JsonError, Ports, fields_from_json, table_from_json};
use wc_syntax::Port;
use wc_value::{Bytes, Duplicate, Fields, Rows, Table, TableError, Text};

/// What a shelf has under a name, none where there is no such file.
pub(crate) fn content_from<R: Shelf>(
    alloc: Global,
    shelf: &mut R,
    file: &Text,
) -> Result<Option<Bytes>, PlanError>
    ensures content { IfOk result (λ content. Has (R.contents shelf.old) file.now content) }
    ensures counts { CountsShelf result (R.faults shelf.old) (R.faults shelf.new) (R.failed shelf.new) }
    ensures kept { R.contents shelf.new ≡ R.contents shelf.old }
    ensures named { R.asked shelf.new ≡ R.asked shelf.old ++ (file.now ∷ []) }
{
    match shelf.read(alloc, file) {
        Ok(content) => Ok(content),
        Err(ShelfError::OutOfMemory) => Err(PlanError::OutOfMemory),
        Err(ShelfError::Failed) => Err(PlanError::ReadFault),
    }
}

/// The kinds of ports by name.
fn kinds_of(alloc: Global, ports: &[Port]) -> Result<Ports, AllocError>
    ensures { IfOk result (λ kinds. kinds ≡ kinds_of ports.now) }
{
    let mut kinds = Ports::new(alloc);
    for port in ports {
        if kinds.find(port.name.text.bytes()).is_none() {
            kinds.set(port.name.text.copy()?, port.kind)?;
        }
    }
    Ok(kinds)
}

/// The inputs for ports that bytes give, or why they give none.
#[tactic(auto, using(crate::proofs::Furthers::ok_is, crate::proofs::Furthers::error_is))]
fn inputs_of_bytes(
    alloc: Global,
    bytes: &Bytes,
    ports: &[Port],
) -> Result<Result<Fields, Cause>, AllocError>
    ensures { IfOk result (λ read. read ≡ or_cause Inputs (answer_of (read_fields (kinds_of ports.now)) bytes.now)) }
{
    let kinds = kinds_of(alloc, ports)?;
    match fields_from_json(alloc, bytes.bytes(), &kinds) {
        Ok(fields) => Ok(Ok(fields)),
        Err(JsonError::OutOfMemory) => Err(AllocError),
        Err(error) => Ok(Err(Cause::Inputs(error))),
    }
}

/// The inputs for ports that a file of this name with this content gives, or why it gives none.
fn inputs_in(
    alloc: Global,
    file: &Text,
    content: Option<Bytes>,
    ports: &[Port],
) -> Result<Result<Fields, Cause>, AllocError>
    ensures { IfOk result (λ read. read ≡ read_file Inputs (read_fields (kinds_of ports.now)) file.now content) }
{
    match content {
        None => Ok(Err(Cause::NoFile(file.copy()?))),
        Some(bytes) => inputs_of_bytes(alloc, &bytes, ports),
    }
}

/// The inputs for ports in a file, if one is named.
#[tactic(auto, using(crate::proofs::Naming::asks_nothing))]
pub(crate) fn inputs_from<R: Shelf>(
    alloc: Global,
    shelf: &mut R,
    inputs: &Option<Text>,
    ports: &[Port],
) -> Result<Result<Fields, Cause>, PlanError>
    ensures inputs { IfOk result (λ read. InputsFrom (R.contents shelf.old) inputs.now ports.now read) }
    ensures counts { CountsShelf result (R.faults shelf.old) (R.faults shelf.new) (R.failed shelf.new) }
    ensures kept { R.contents shelf.new ≡ R.contents shelf.old }
    ensures named { R.asked shelf.new ≡ R.asked shelf.old ++ given_file inputs.now }
{
    match inputs {
        None => Ok(Ok(Fields::new(alloc))),
        Some(file) => {
            let content = content_from(alloc, shelf, file)?;
            Ok(inputs_in(alloc, file, content, ports)?)
        }
    }
}

/// The results of jobs that bytes have, or why they have none.
#[tactic(auto, using(crate::proofs::Furthers::ok_is, crate::proofs::Furthers::error_is))]
fn table_of_bytes(alloc: Global, bytes: &Bytes) -> Result<Result<Table, Cause>, AllocError>
    ensures { IfOk result (λ read. read ≡ or_cause TableCause (answer_of read_table bytes.now)) }
{
    match table_from_json(alloc, bytes.bytes()) {
        Ok(table) => Ok(Ok(table)),
        Err(JsonError::OutOfMemory) => Err(AllocError),
        Err(error) => Ok(Err(Cause::Table(error))),
    }
}

/// The results of jobs that a file of this name with this content has, or why it has none.
fn table_in(
    alloc: Global,
    file: &Text,
    content: Option<Bytes>,
) -> Result<Result<Table, Cause>, AllocError>
    ensures { IfOk result (λ read. read ≡ read_file TableCause read_table file.now content) }
{
    match content {
        None => Ok(Err(Cause::NoFile(file.copy()?))),
        Some(bytes) => table_of_bytes(alloc, &bytes),
    }
}

/// A table with no rows.
fn empty_table(alloc: Global) -> Result<Table, AllocError>
    ensures { IfOk result (λ table. table ≡ []) }
{
    match Table::new(alloc, Rows::new(alloc)) {
        Ok(table) => Ok(table),
        Err(TableError::OutOfMemory) => Err(AllocError),
        Err(TableError::Twice(_)) => unreachable!(),
    }
}

/// The results of jobs in a file, if one is named.
#[tactic(auto, using(crate::proofs::Naming::asks_nothing))]
pub(crate) fn table_from<R: Shelf>(
    alloc: Global,
    shelf: &mut R,
    table: &Option<Text>,
) -> Result<Result<Table, Cause>, PlanError>
    ensures table { IfOk result (λ read. TableFrom (R.contents shelf.old) table.now read) }
    ensures counts { CountsShelf result (R.faults shelf.old) (R.faults shelf.new) (R.failed shelf.new) }
    ensures kept { R.contents shelf.new ≡ R.contents shelf.old }
    ensures named { R.asked shelf.new ≡ R.asked shelf.old ++ given_file table.now }
{
    match table {
        None => Ok(Ok(empty_table(alloc)?)),
        Some(file) => {
            let content = content_from(alloc, shelf, file)?;
            Ok(table_in(alloc, file, content)?)
        }
    }
}
