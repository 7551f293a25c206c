//! The turn of a work chain that ends.

ghost use Rattle.std.specs.Prelude.{◌≡◌, ◌++◌, map, IfOk, OnOk};
ghost use Rattle.std.specs.List.{list_any};
ghost use Rattle.std.specs.Option.{option_copied};
ghost use Rattle.wc_syntax.specs.Findings.{definition_named};
ghost use Rattle.wc_changes.specs.Advances.{is_missing, lacks, status, final, return_link, returned, ending};

use crate::children::Caller;
use crate::progress::is_now;
use std::alloc::{AllocError, Global};
use wc_graph::{Link, LinkType};
use wc_state::{Outs, Part};
use wc_syntax::{Checked, Definition, PortList, find_definition, head};
use wc_value::{Duplicate, ProcessState, Text};
use wc_world::{Change, Changes};

/// The exit status of a chain that lacks a required output.
const MISSING_OUTPUT: u32 = 11;

/// Whether a required output is missing.
fn is_missing(ports: &PortList, outputs: &Outs) -> bool
    ensures { result ≡ list_any (is_missing outputs.now) ports.now }
{
    for port in ports.as_slice() {
        if !port.optional && outputs.find(port.name.text.bytes()).is_none() {
            return true;
        }
    }
    false
}

/// Whether a required output of a definition is missing.
fn is_lacking(definition: Option<&Definition>, outputs: &Outs) -> bool
    ensures { result ≡ lacks outputs.now (option_copied definition.entry) }
{
    match definition {
        Some(definition) => is_missing(&head(definition).outputs, outputs),
        None => false,
    }
}

/// Whether a required output of the definition of a library with this name is missing.
fn lacks(library: &Checked, name: &Text, outputs: &Outs) -> bool
    ensures { result ≡ lacks outputs.now (definition_named name.now library.now) }
{
    is_lacking(find_definition(library.library(), name), outputs)
}

/// The exit status of a chain that finished with one, whether or not a required output is missing.
fn final_status(missing: bool, number: u32) -> u32
    ensures { result ≡ status missing number }
{
    if number == 0 && missing {
        MISSING_OUTPUT
    } else {
        number
    }
}

/// The state of a chain that ended in one, whether or not a required output is missing.
fn final_state(missing: bool, state: ProcessState) -> ProcessState
    ensures { result ≡ final missing state }
{
    match state {
        ProcessState::Finished(number) => ProcessState::Finished(final_status(missing, number)),
        _ => state,
    }
}

/// Puts a link to each output at the end, in the order of their labels.
fn put_links(changes: &mut Changes, pid: u32, outputs: &Outs) -> Result<(), AllocError>
    ensures { OnOk result (changes.new ≡ changes.old ++ map (return_link pid) outputs.now) }
{
    for (label, node) in outputs.as_slice() {
        changes.push(Change::Link(Link {
            source: pid,
            target: *node,
            link: LinkType::Return,
            label: label.copy()?,
        }))?;
    }
    Ok(())
}

/// Puts a link to each output at the end, if the chain finished.
fn put_returned(
    changes: &mut Changes,
    pid: u32,
    state: ProcessState,
    outputs: &Outs,
) -> Result<(), AllocError>
    ensures { OnOk result (changes.new ≡ changes.old ++ returned pid state outputs.now) }
{
    match state {
        ProcessState::Finished(_) => put_links(changes, pid, outputs),
        _ => Ok(()),
    }
}

/// The changes of a chain that ends in this state, with the outputs that were set.
pub fn ending(
    alloc: Global,
    caller: Caller<'_>,
    state: ProcessState,
    outputs: &Outs,
) -> Result<Changes, AllocError>
    ensures { IfOk result (λ cs. cs ≡ ending caller.entry.process.now (lacks outputs.now (definition_named caller.entry.process.now.definition caller.entry.library.now)) state outputs.now) }
{
    let process = caller.process;
    let missing = lacks(caller.library, &process.definition, outputs);
    let mut changes = Changes::new(alloc);
    put_returned(&mut changes, process.node, state, outputs)?;
    changes.push(is_now(
        process,
        final_state(missing, state),
        process.fuel,
        Part::Over,
    ))?;
    Ok(changes)
}
