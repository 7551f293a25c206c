//! What is made of the words of `submit` before the store is asked.

ghost use Rattle.std.specs.Prelude.{◌≡◌, ◌∷◌, IfOk};
ghost use Rattle.wc_syntax.specs.Findings.{definition_named};
ghost use Rattle.wc_plan.specs.Given.{bad_given};
ghost use Rattle.wc_plan.specs.Counts.{CountsShelf};
ghost use Rattle.wc_plan.specs.Naming.{given_file, AsksFirst};
ghost use Rattle.wc_plan.specs.Submits.{inputs_of, inputs_beside, prepared_with, InputsFor, PreparesRead, PreparesFrom, SubmitsReady};

use crate::error::PlanError;
use crate::further::inputs_from;
use crate::given::read_given;
use crate::libraries::{Read, read_from};
use crate::status::Cause;
use std::alloc::{AllocError, Global};
use wc_cli::Given;
use wc_io::Shelf;
use wc_state::Limits;
use wc_syntax::{Checked, Library, Port, find_definition, head};
use wc_value::{Duplicate, Fields, Text, Words};

/// A definition that is called with inputs.
#[derive(Drop)]
pub struct Invocation {
    /// The library.
    pub library: Checked,
    /// The definition's name.
    pub name: Text,
    /// The inputs.
    pub inputs: Fields,
}

/// A process that is to be made of a definition.
#[derive(Drop)]
pub struct Submission {
    /// The library.
    pub library: Checked,
    /// The definition's name.
    pub name: Text,
    /// The inputs.
    pub inputs: Fields,
    /// The names of the library's definitions that have caching on.
    pub caching: Words,
    /// How large the store may grow.
    pub limits: Limits,
}

/// What the words of `submit` are prepared as.
#[derive(Drop)]
pub enum Prepared {
    /// Nothing is to be submitted, for this cause.
    Refused(Cause),
    /// This is to be submitted.
    Submits(Invocation),
}

/// The inputs of the words and of a file for these ports, or why there are none.
fn inputs_of(
    ports: &[Port],
    given: &[Given],
    file: Fields,
) -> Result<Result<Fields, Cause>, AllocError>
    ensures { IfOk result (λ inputs. inputs ≡ inputs_of (bad_given ports.now given.now file) ports.now given.now file) }
{
    match read_given(ports, given, file)? {
        Ok(fields) => Ok(Ok(fields)),
        Err(port) => Ok(Err(Cause::BadInput(port))),
    }
}

/// The inputs of the words, beside what a file of inputs is read as, or why there are none.
fn inputs_beside(
    ports: &[Port],
    given: &[Given],
    file: Result<Fields, Cause>,
) -> Result<Result<Fields, Cause>, AllocError>
    ensures { IfOk result (λ inputs. inputs ≡ inputs_beside file ports.now given.now) }
{
    match file {
        Ok(file) => inputs_of(ports, given, file),
        Err(cause) => Ok(Err(cause)),
    }
}

/// The inputs for the definition of this name in a library, by words and by a file, if one is named, or why there are none.
#[tactic(auto, using(crate::proofs::Naming::asks_none, crate::proofs::Naming::asks_all))]
fn inputs_among<R: Shelf>(
    alloc: Global,
    shelf: &mut R,
    library: &Library,
    name: &Text,
    given: &[Given],
    inputs: &Option<Text>,
) -> Result<Result<Fields, Cause>, PlanError>
    ensures inputs { IfOk result (λ r. InputsFor (R.contents shelf.old) inputs.now (definition_named name.now library.now) name.now given.now r) }
    ensures counts { CountsShelf result (R.faults shelf.old) (R.faults shelf.new) (R.failed shelf.new) }
    ensures kept { R.contents shelf.new ≡ R.contents shelf.old }
    ensures named { AsksFirst (given_file inputs.now) (R.asked shelf.old) (R.asked shelf.new) }
{
    match find_definition(library, name) {
        None => Ok(Err(Cause::Name(name.copy()?))),
        Some(definition) => {
            let ports = head(definition).inputs.as_slice();
            let file = inputs_from(alloc, shelf, inputs, ports)?;
            Ok(inputs_beside(ports, given, file)?)
        }
    }
}

/// The same in a checked library.
fn inputs_for<R: Shelf>(
    alloc: Global,
    shelf: &mut R,
    library: &Checked,
    name: &Text,
    given: &[Given],
    inputs: &Option<Text>,
) -> Result<Result<Fields, Cause>, PlanError>
    ensures inputs { IfOk result (λ r. InputsFor (R.contents shelf.old) inputs.now (definition_named name.now library.now) name.now given.now r) }
    ensures counts { CountsShelf result (R.faults shelf.old) (R.faults shelf.new) (R.failed shelf.new) }
    ensures kept { R.contents shelf.new ≡ R.contents shelf.old }
    ensures named { AsksFirst (given_file inputs.now) (R.asked shelf.old) (R.asked shelf.new) }
{
    inputs_among(alloc, shelf, library.library(), name, given, inputs)
}

/// The submission with these inputs, or why there is none.
fn prepared_with(
    library: Checked,
    name: &Text,
    inputs: Result<Fields, Cause>,
) -> Result<Prepared, AllocError>
    ensures { IfOk result (λ p. p ≡ prepared_with library name.now inputs) }
{
    match inputs {
        Err(cause) => Ok(Prepared::Refused(cause)),
        Ok(inputs) => Ok(Prepared::Submits(Invocation {
            library,
            name: name.copy()?,
            inputs,
        })),
    }
}

/// What is to be submitted where a file is read as this. A file of inputs is read then, if one is named.
#[tactic(auto, using(crate::proofs::Naming::asks_none))]
fn prepare_read<R: Shelf>(
    alloc: Global,
    shelf: &mut R,
    read: Read,
    name: &Text,
    given: &[Given],
    inputs: &Option<Text>,
) -> Result<Prepared, PlanError>
    ensures prepares { IfOk result (λ p. PreparesRead (R.contents shelf.old) inputs.now name.now given.now read p) }
    ensures counts { CountsShelf result (R.faults shelf.old) (R.faults shelf.new) (R.failed shelf.new) }
    ensures kept { R.contents shelf.new ≡ R.contents shelf.old }
    ensures named { AsksFirst (given_file inputs.now) (R.asked shelf.old) (R.asked shelf.new) }
{
    match read {
        Read::Refused(cause) => Ok(Prepared::Refused(cause)),
        Read::Library(library) => {
            let inputs = inputs_for(alloc, shelf, &library, name, given, inputs)?;
            Ok(prepared_with(library, name, inputs)?)
        }
    }
}

/// What the words `submit FILE NAME [PORT=VALUE]... [--inputs F]` submit, with the files of a shelf. What comes first of these is the cause of a
/// refusal: what the file is refused for; the library doesn't define the name; what the file of inputs is refused for; a port is given badly, of
/// which the least is named.
#[tactic(auto, using(crate::proofs::Naming::asks_one, crate::proofs::Naming::asks_one_then))]
pub fn prepare<R: Shelf>(
    alloc: Global,
    shelf: &mut R,
    file: &Text,
    name: &Text,
    given: &[Given],
    inputs: &Option<Text>,
) -> Result<Prepared, PlanError>
    ensures exact { IfOk result (λ p. PreparesFrom (R.contents shelf.old) file.now name.now given.now inputs.now p) }
    // The definition's ports take what is submitted, and it is within the limits.
    ensures ready { IfOk result (λ p. SubmitsReady p) }
    ensures counts { CountsShelf result (R.faults shelf.old) (R.faults shelf.new) (R.failed shelf.new) }
    ensures kept { R.contents shelf.new ≡ R.contents shelf.old }
    ensures named { AsksFirst (file.now ∷ given_file inputs.now) (R.asked shelf.old) (R.asked shelf.new) }
{
    let read = read_from(alloc, shelf, file)?;
    prepare_read(alloc, shelf, read, name, given, inputs)
}
