//! The text of a process tree.

ghost use Rattle.std.specs.Prelude.{◌≡◌, ◌++◌, IfOk, OnOk, string_bytes};
ghost use Rattle.wc_report.specs.Trees.{deeper, output_line, output_lines, head_text, head_line, call_lines, calls_lines, lines_below, tree_text};

use crate::names::state_name;
use crate::value::put_value;
use std::alloc::{AllocError, Global};
use wc_value::{Branches, Fields, ProcessState, Text, Tree, Value};

/// The lines of a tree: its state, its outputs by the bytes of their labels, and its calls in order, each with its
/// own outputs and calls below it, indented by two further spaces.
pub fn tree_lines(alloc: Global, tree: &Tree) -> Result<Text, AllocError>
    ensures { IfOk result (λ text. text ≡ tree_text tree.now) }
{
    let mut out = state_name(alloc, tree.state)?;
    out.push_str("\n")?;
    put_below(alloc, &mut out, "", tree)?;
    Text::of_string(out)
}

/// The spaces before a line one level further in.
fn deeper(alloc: Global, margin: &str) -> Result<String, AllocError>
    ensures { IfOk result (λ inner. string_bytes inner ≡ deeper margin.now) }
{
    let mut inner = String::from_str(alloc, "  ")?;
    inner.push_str(margin)?;
    Ok(inner)
}

/// Writes the line of an output.
fn put_output(
    alloc: Global,
    out: &mut String,
    margin: &str,
    label: &Text,
    value: &Value,
) -> Result<(), AllocError>
    ensures { OnOk result (string_bytes out.new ≡ string_bytes out.old ++ output_line margin.now (label.now, value.now)) }
{
    out.push_str(margin)?;
    out.push_str(label.as_str())?;
    out.push_str(" ")?;
    put_value(alloc, out, value)?;
    out.push_str("\n")
}

/// Writes the lines of the outputs.
fn put_outputs(
    alloc: Global,
    out: &mut String,
    margin: &str,
    outputs: &Fields,
) -> Result<(), AllocError>
    ensures { OnOk result (string_bytes out.new ≡ string_bytes out.old ++ output_lines margin.now outputs.now) }
{
    for (label, value) in outputs.as_slice() {
        put_output(alloc, out, margin, label, value)?;
    }
    Ok(())
}

/// Writes what a process ran and its state.
pub fn put_process(
    alloc: Global,
    out: &mut String,
    definition: &Text,
    state: ProcessState,
) -> Result<(), AllocError>
    ensures { OnOk result (string_bytes out.new ≡ string_bytes out.old ++ head_text definition.now state) }
{
    let name = state_name(alloc, state)?;
    out.push_str(definition.as_str())?;
    out.push_str(" ")?;
    out.push_str(name.as_str())
}

/// Writes the line of a call.
fn put_head(
    alloc: Global,
    out: &mut String,
    margin: &str,
    label: &Text,
    definition: &Text,
    state: ProcessState,
) -> Result<(), AllocError>
    ensures { OnOk result (string_bytes out.new ≡ string_bytes out.old ++ head_line margin.now label.now (head_text definition.now state)) }
{
    out.push_str(margin)?;
    out.push_str("call ")?;
    out.push_str(label.as_str())?;
    out.push_str(" ")?;
    put_process(alloc, out, definition, state)?;
    out.push_str("\n")
}

/// Writes the lines behind a tree's state: its outputs and its calls.
#[cycle(put)]
fn put_below(alloc: Global, out: &mut String, margin: &str, tree: &Tree) -> Result<(), AllocError>
    ensures { OnOk result (string_bytes out.new ≡ string_bytes out.old ++ lines_below tree.now margin.now) }
{
    put_outputs(alloc, out, margin, &tree.outputs)?;
    put_calls(alloc, out, margin, &tree.calls)
}

/// Writes the lines of the calls.
#[cycle(put)]
fn put_calls(
    alloc: Global,
    out: &mut String,
    margin: &str,
    calls: &Branches,
) -> Result<(), AllocError>
    ensures { OnOk result (string_bytes out.new ≡ string_bytes out.old ++ calls_lines margin.now calls.now) }
{
    for (label, tree) in calls.as_slice() {
        put_call(alloc, out, margin, label, tree)?;
    }
    Ok(())
}

/// Writes the line of a call, and the lines below it.
#[cycle(put)]
fn put_call(
    alloc: Global,
    out: &mut String,
    margin: &str,
    label: &Text,
    tree: &Tree,
) -> Result<(), AllocError>
    ensures { OnOk result (string_bytes out.new ≡ string_bytes out.old ++ call_lines margin.now (label.now, tree.now)) }
{
    put_head(alloc, out, margin, label, &tree.definition, tree.state)?;
    let inner = deeper(alloc, margin)?;
    put_below(alloc, out, inner.as_str(), tree)
}
