//! What a submission adds.

ghost use Rattle.std.specs.Prelude.{◌≡◌, ◌++◌, ◌+◌, ◌<◌, ◌≤◌, ◌^◌, true, suc, map, length, All, None, IfOk, IfErr, OnOk};
ghost use Rattle.wc_value.specs.Spelling.{depth};
ghost use Rattle.wc_syntax.specs.declared.definition.Definition.{Definition};
ghost use Rattle.wc_world.specs.Fits.{names_ascend};
ghost use Rattle.wc_world.specs.Applied.{applied};
ghost use Rattle.wc_world.specs.Records.{kind_of_definition};
ghost use Rattle.wc_world.specs.Accepted.{IsAccepted};
ghost use Rattle.wc_machine.specs.Continues.{Continues};
ghost use Rattle.wc_machine.specs.Sound.{IsSound};
ghost use Rattle.wc_machine.specs.Submissions.{data_change, links_from, submitted_number, submission, Submits};
ghost use Rattle.wc_state.specs.Ranges.{AreLimits};
ghost use Rattle.wc_machine.specs.Refusals.{HasRoom, NoneHolds, RefusesSubmission, RefusesName};
ghost use Rattle.wc_core.specs.Submitted.{root, Takes};

use std::alloc::{AllocError, Global};
use wc_fits::kind_of_definition;
use wc_graph::{Link, LinkType};
use wc_machine::{TurnError, check_room, input_link};
use wc_meaning::find_bad_input;
use wc_state::{Limits, ProcessKind};
use wc_syntax::{Checked, find_definition, head, is_among};
use wc_value::{Duplicate, Fields, Text, Words};
use wc_world::{Change, Changes, NewProcess, World};

/// The kind of the definition with a name, where the library has one that takes the inputs.
fn kind_named(library: &Checked, name: &Text, inputs: &Fields) -> Result<ProcessKind, TurnError>
    ensures ok { IfOk result (Takes library.now name.now inputs.now) }
    ensures refused { IfErr result (RefusesName library.now name.now inputs.now) }
{
    let Some(definition) = find_definition(library.library(), name) else {
        return Err(TurnError::UnknownName);
    };
    match find_bad_input(head(definition).inputs.as_slice(), inputs) {
        Some(port) => Err(TurnError::BadInputs(port.copy()?)),
        None => Ok(kind_of_definition(definition)),
    }
}

/// The number that a new library gets. A library past the last number would find no memory.
fn next_library(world: &World) -> Result<u32, AllocError>
    ensures { IfOk result (λ number. number ≡ suc (length world.now.world.libraries)) }
{
    let count = world.libraries().len();
    if count >= 0xffff_ffff {
        return Err(AllocError);
    }
    Ok(count as u32 + 1)
}

/// The process of a submission, whose library is the next one.
fn new_root(
    alloc: Global,
    world: &World,
    kind: ProcessKind,
    name: &Text,
    caching: bool,
) -> Result<Change, AllocError>
    ensures { IfOk result (λ change. change ≡ root world.now.world kind name.now caching) }
{
    Ok(Change::Process(NewProcess {
        kind,
        definition: name.copy()?,
        library: next_library(world)?,
        depth: 1,
        label: Text::of_str(alloc, "")?,
        caching,
    }))
}

/// Puts a data node for each input at the end.
fn put_values(changes: &mut Changes, inputs: &Fields) -> Result<(), AllocError>
    ensures { OnOk result (changes.new ≡ changes.old ++ map data_change inputs.now) }
{
    for (_, value) in inputs.as_slice() {
        changes.push(Change::Data(value.copy()?))?;
    }
    Ok(())
}

/// Puts a link to a process for each input at the end, where the nodes of the inputs follow each other from the first one on.
fn put_links(
    changes: &mut Changes,
    link: LinkType,
    first: u32,
    pid: u32,
    inputs: &Fields,
) -> Result<(), AllocError>
    requires { first + length inputs.now < 2 ^ 32 }
    ensures { OnOk result (changes.new ≡ changes.old ++ links_from link first pid inputs.now) }
{
    let mut source = first;
    for (port, _) in inputs.as_slice() {
        changes.push(Change::Link(Link {
            source,
            target: pid,
            link,
            label: port.copy()?,
        }))?;
        source += 1;
    }
    Ok(())
}

/// The changes of a submission of a definition of this kind.
fn submission(
    alloc: Global,
    world: &World,
    library: Checked,
    caching: Words,
    name: &Text,
    inputs: &Fields,
    kind: ProcessKind,
) -> Result<Changes, AllocError>
    requires { submitted_number world.now.world inputs.now ≤ 8000000 }
    ensures { IfOk result (λ cs. (d : Definition) → kind ≡ kind_of_definition d → cs ≡ submission world.now.world library caching name.now inputs.now d) }
{
    let nodes = world.graph().nodes().len() as u32;
    let pid = nodes + inputs.len() as u32 + 1;
    let process = new_root(alloc, world, kind, name, is_among(name, &caching))?;
    let mut changes = Changes::new(alloc);
    changes.push(Change::Library(library, caching))?;
    put_values(&mut changes, inputs)?;
    changes.push(process)?;
    put_links(&mut changes, input_link(kind), nodes + 1, pid, inputs)?;
    Ok(changes)
}

/// The changes of a submission of a definition with inputs. The names are those of the library's definitions with caching on.
pub fn submit_changes(
    alloc: Global,
    world: &World,
    limits: &Limits,
    library: Checked,
    caching: Words,
    name: &Text,
    inputs: Fields,
) -> Result<Changes, TurnError>
    requires limits { AreLimits limits.now }
    requires ascending { names_ascend caching ≡ true }
    requires shallow { All (λ i. depth i.1 ≤ 32) inputs }
    ensures ok { IfOk result (Submits world.now.world library caching name.now inputs) }
    ensures room { IfOk result (λ cs. HasRoom limits.now.max_nodes (applied world.now.world cs)) }
    ensures accepted { IfOk result (IsAccepted world.now.world) }
    ensures continues { IfOk result (λ cs. Continues world.now.world (applied world.now.world cs)) }
    ensures sound { IfOk result (λ cs. IsSound world.now.world → IsSound (applied world.now.world cs)) }
    ensures none { OnOk result (NoneHolds (RefusesSubmission world.now.world library caching name.now inputs limits.now.max_nodes)) }
    ensures refused { IfErr result (RefusesSubmission world.now.world library caching name.now inputs limits.now.max_nodes) }
{
    let _graph = world.graph();
    // A library that is kept is a checked one.
    let _checked = library.library();
    let kind = kind_named(&library, name, &inputs)?;
    match check_room(world, limits, inputs.len() as u64 + 1) {
        Ok(()) => Ok(submission(alloc, world, library, caching, name, &inputs, kind)?),
        Err(error) => Err(error),
    }
}
