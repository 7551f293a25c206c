//! The tree that a definition has, with no store.

ghost use Rattle.std.specs.Prelude.{◌≡◌, ◌++◌, IfOk, IsSome};
ghost use Rattle.wc_syntax.specs.Findings.{definition_named};
ghost use Rattle.wc_plan.specs.Counts.{CountsShelf};
ghost use Rattle.wc_plan.specs.Given.{bad_given};
ghost use Rattle.wc_plan.specs.Naming.{given_file, AsksFirst};
ghost use Rattle.wc_plan.specs.Dry.{owed_answer, owed_inputs, owed_rows, OwesDefinition, OwesDry, OwesRows};
ghost use Rattle.wc_semantics.specs.Tables.{plain, no_kills};
ghost use Rattle.wc_semantics.specs.Laws.{IsUncut};
ghost use Rattle.wc_semantics.specs.Meaning.{meaning};

use crate::error::PlanError;
use crate::further::{inputs_from, table_from};
use crate::given::read_given;
use crate::libraries::Read;
use crate::reply::{Reply, print, refuse};
use crate::status::Cause;
use std::alloc::{AllocError, Global};
use wc_cli::Givens;
use wc_io::Shelf;
use wc_meaning::mean;
use wc_report::tree_lines;
use wc_semantics::{Answer, Kills, without_kills};
use wc_syntax::{Checked, Library, Port, find_definition, head};
use wc_value::{Duplicate, Fields, Table, Text};

/// What `dry` is asked for, beside the file of the library.
#[derive(Drop)]
pub struct Trial {
    /// The name of the definition.
    pub name: Text,
    /// The inputs in words.
    pub given: Givens,
    /// The file with further inputs, if one is named.
    pub inputs: Option<Text>,
    /// The file with the results of jobs, if one is named.
    pub table: Option<Text>,
    /// How many turns of loops and calls there may be.
    pub fuel: u64,
}

/// The reply for what a definition means. Where nobody is killed, no kill is missed.
fn reply_for_answer(alloc: Global, answer: Answer) -> Result<Reply, AllocError>
    requires { IsUncut answer }
    ensures { IfOk result (λ r. r ≡ owed_answer answer) }
{
    match answer {
        Answer::Gave(replayed, _) => Ok(print(tree_lines(alloc, &replayed.tree)?)),
        Answer::Without(request) => refuse(alloc, Cause::NoAnswer(request)),
        Answer::TooLittle => refuse(alloc, Cause::Fuel),
        Answer::Astray => unreachable!(),
    }
}

/// The meaning of a definition at depth 1, with this table and without kills.
fn meaning_alone(
    alloc: Global,
    library: &Library,
    trial: &Trial,
    inputs: &Fields,
    table: &Table,
) -> Result<Answer, AllocError>
    ensures { IfOk result (λ a. a ≡ meaning 15 library.now (plain table.now) no_kills trial.now.fuel trial.now.name inputs.now) }
{
    let kills = Kills::new(alloc);
    mean(
        alloc,
        library,
        15,
        table,
        &kills,
        trial.fuel,
        &trial.name,
        inputs,
    )
}

/// The reply of `dry` for these inputs and this table.
fn reply_for_inputs(
    alloc: Global,
    library: &Library,
    trial: &Trial,
    inputs: &Fields,
    table: &Table,
) -> Result<Reply, AllocError>
    requires named { IsSome (definition_named trial.now.name library.now) }
    ensures { IfOk result (λ r. r ≡ owed_answer (meaning 15 library.now (plain table.now) no_kills trial.now.fuel trial.now.name inputs.now)) }
{
    let answer = meaning_alone(alloc, library, trial, inputs, table)?;
    without_kills();
    reply_for_answer(alloc, answer)
}

/// The reply of `dry` for a definition with these ports, where a file gives these inputs, with this table.
fn reply_for_table(
    alloc: Global,
    library: &Library,
    ports: &[Port],
    trial: &Trial,
    file: Fields,
    table: &Table,
) -> Result<Reply, AllocError>
    requires named { IsSome (definition_named trial.now.name library.now) }
    ensures { IfOk result (λ r. r ≡ owed_inputs (bad_given ports.now trial.now.given file) ports.now library.now trial.now.name trial.now.given file table.now trial.now.fuel) }
{
    match read_given(ports, trial.given.as_slice(), file)? {
        Ok(inputs) => reply_for_inputs(alloc, library, trial, &inputs, table),
        Err(port) => refuse(alloc, Cause::BadInput(port)),
    }
}

/// The reply of `dry` for what a table file is read as.
fn reply_for_rows(
    alloc: Global,
    library: &Library,
    ports: &[Port],
    trial: &Trial,
    file: Fields,
    table: Result<Table, Cause>,
) -> Result<Reply, AllocError>
    requires named { IsSome (definition_named trial.now.name library.now) }
    ensures { IfOk result (λ r. r ≡ owed_rows table ports.now library.now trial.now.name trial.now.given file trial.now.fuel) }
{
    match table {
        Ok(table) => reply_for_table(alloc, library, ports, trial, file, &table),
        Err(cause) => refuse(alloc, cause),
    }
}

/// The reply of `dry` for what a file of inputs is read as. The table file is read then, if one is named.
#[tactic(auto, using(crate::proofs::Naming::asks_none, crate::proofs::Naming::asks_all))]
fn reply_for_file<R: Shelf>(
    alloc: Global,
    shelf: &mut R,
    library: &Library,
    ports: &[Port],
    trial: &Trial,
    file: Result<Fields, Cause>,
) -> Result<Reply, PlanError>
    requires named { IsSome (definition_named trial.now.name library.now) }
    ensures owes { IfOk result (λ r. OwesRows (R.contents shelf.old) trial.now file ports.now library.now r) }
    ensures counts { CountsShelf result (R.faults shelf.old) (R.faults shelf.new) (R.failed shelf.new) }
    ensures kept { R.contents shelf.new ≡ R.contents shelf.old }
    ensures named { AsksFirst (given_file trial.now.table) (R.asked shelf.old) (R.asked shelf.new) }
{
    match file {
        Ok(file) => {
            let table = table_from(alloc, shelf, &trial.table)?;
            Ok(reply_for_rows(alloc, library, ports, trial, file, table)?)
        }
        Err(cause) => Ok(refuse(alloc, cause)?),
    }
}

/// The reply of `dry` for a name in a library. The file of inputs is read then, if one is named.
#[tactic(auto, using(crate::proofs::Naming::asks_none, crate::proofs::Naming::asks_part, crate::proofs::Naming::asks_then))]
fn reply_for_name<R: Shelf>(
    alloc: Global,
    shelf: &mut R,
    library: &Library,
    trial: &Trial,
) -> Result<Reply, PlanError>
    ensures owes { IfOk result (λ r. OwesDefinition (R.contents shelf.old) trial.now (definition_named trial.now.name library.now) library.now r) }
    ensures counts { CountsShelf result (R.faults shelf.old) (R.faults shelf.new) (R.failed shelf.new) }
    ensures kept { R.contents shelf.new ≡ R.contents shelf.old }
    ensures named { AsksFirst (given_file trial.now.inputs ++ given_file trial.now.table) (R.asked shelf.old) (R.asked shelf.new) }
{
    match find_definition(library, &trial.name) {
        None => Ok(refuse(alloc, Cause::Name(trial.name.copy()?))?),
        Some(definition) => {
            let ports = head(definition).inputs.as_slice();
            let file = inputs_from(alloc, shelf, &trial.inputs, ports)?;
            reply_for_file(alloc, shelf, library, ports, trial, file)
        }
    }
}

/// The reply of `dry` for a checked library.
fn reply_for_library<R: Shelf>(
    alloc: Global,
    shelf: &mut R,
    library: &Checked,
    trial: &Trial,
) -> Result<Reply, PlanError>
    ensures owes { IfOk result (λ r. OwesDefinition (R.contents shelf.old) trial.now (definition_named trial.now.name library.now) library.now r) }
    ensures counts { CountsShelf result (R.faults shelf.old) (R.faults shelf.new) (R.failed shelf.new) }
    ensures kept { R.contents shelf.new ≡ R.contents shelf.old }
    ensures named { AsksFirst (given_file trial.now.inputs ++ given_file trial.now.table) (R.asked shelf.old) (R.asked shelf.new) }
{
    reply_for_name(alloc, shelf, library.library(), trial)
}

/// The reply of `dry` for a file that is read as this.
#[tactic(auto, using(crate::proofs::Naming::asks_none))]
pub(crate) fn reply_to_dry<R: Shelf>(
    alloc: Global,
    shelf: &mut R,
    read: Read,
    trial: &Trial,
) -> Result<Reply, PlanError>
    ensures owes { IfOk result (λ r. OwesDry (R.contents shelf.old) trial.now read r) }
    ensures counts { CountsShelf result (R.faults shelf.old) (R.faults shelf.new) (R.failed shelf.new) }
    ensures kept { R.contents shelf.new ≡ R.contents shelf.old }
    ensures named { AsksFirst (given_file trial.now.inputs ++ given_file trial.now.table) (R.asked shelf.old) (R.asked shelf.new) }
{
    match read {
        Read::Refused(cause) => Ok(refuse(alloc, cause)?),
        Read::Library(library) => reply_for_library(alloc, shelf, &library, trial),
    }
}
