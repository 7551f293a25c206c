//! The text of `show`.

ghost use Rattle.std.specs.Prelude.{◌≡◌, ◌++◌, codes, IfOk, OnOk, string_bytes, option_map};
ghost use Rattle.std.specs.Option.{option_copied};
ghost use Rattle.wc_world.specs.Records.{calls, find_record, gives_output, takes_input};
ghost use Rattle.wc_graph.specs.Rules.{node_of};
ghost use Rattle.wc_report.specs.Shows.{bare_line, called_line, called_lines, creates, data_text, head_text, inputs_of, is_call_to, is_create_to, named_lines, outputs_of, pause_line, process_text, show_text, source_of};

use crate::numbered::{label_line, number_line};
use crate::{process_kind_name, state_text, value_text};
use std::alloc::{AllocError, Global};
use wc_graph::{Link, LinkType, NodeKind};
use wc_state::ProcessRecord;
use wc_value::{Duplicate, Keyed, Text, Value};
use wc_world::World;

/// Whether a link of this type leads to what a calculation made.
fn creates(link: LinkType) -> bool
    ensures { result ≡ creates link }
{
    matches!(link, LinkType::Create)
}

/// Whether a link of this type is a call.
fn calls(link: LinkType) -> bool
    ensures { result ≡ calls link }
{
    matches!(link, LinkType::CallCalc | LinkType::CallWork)
}

/// The calculation that created a data node.
fn creator_of(links: &[Link], node: u32) -> Option<u32>
    ensures { result ≡ source_of (is_create_to node) links.now }
{
    for link in links {
        if creates(link.link) && link.target == node {
            return Some(link.source);
        }
    }
    None
}

/// The process that called another.
fn caller_of(links: &[Link], pid: u32) -> Option<u32>
    ensures { result ≡ source_of (is_call_to pid) links.now }
{
    for link in links {
        if calls(link.link) && link.target == pid {
            return Some(link.source);
        }
    }
    None
}

/// The lines of a data node.
fn data_text(alloc: Global, node: u32, value: &Value, links: &[Link]) -> Result<Text, AllocError>
    ensures { IfOk result (λ text. text ≡ data_text node value.now links.now) }
{
    let value = value_text(alloc, value)?;
    let mut out = format!(in alloc; "{node} data {}\n", value.as_str())?;
    let creator = number_line(alloc, "creator", creator_of(links, node))?;
    out.push_str(creator.as_str())?;
    Text::of_string(out)
}

/// The line of a process without the pause mark.
fn bare_line(alloc: Global, process: &ProcessRecord) -> Result<String, AllocError>
    ensures { IfOk result (λ line. string_bytes line ≡ bare_line process.now) }
{
    let state = state_text(alloc, process.state)?;
    let kind = process_kind_name(process.kind);
    format!(in alloc;
        "{} {kind} {} {}\n",
        process.node,
        process.definition.as_str(),
        state.as_str()
    )
}

/// Whether a process has the pause mark.
fn pause_line(paused: bool) -> &'static str
    ensures { result.now ≡ pause_line paused }
{
    if paused {
        "paused yes\n"
    } else {
        "paused no\n"
    }
}

/// Whether links of this type lead from an input to a process.
fn takes_input(link: LinkType) -> bool
    ensures { result ≡ takes_input link }
{
    matches!(link, LinkType::InputCalc | LinkType::InputWork)
}

/// Whether links of this type lead from a process to an output.
fn gives_output(link: LinkType) -> bool
    ensures { result ≡ gives_output link }
{
    matches!(link, LinkType::Create | LinkType::Return)
}

/// The inputs of a process.
fn inputs_of(alloc: Global, links: &[Link], pid: u32) -> Result<Keyed<u32>, AllocError>
    ensures { IfOk result (λ named. named ≡ inputs_of pid links.now) }
{
    let mut named = Keyed::new(alloc);
    for link in links {
        if takes_input(link.link) && link.target == pid {
            named.set(link.label.copy()?, link.source)?;
        }
    }
    Ok(named)
}

/// The outputs of a process.
fn outputs_of(alloc: Global, links: &[Link], pid: u32) -> Result<Keyed<u32>, AllocError>
    ensures { IfOk result (λ named. named ≡ outputs_of pid links.now) }
{
    let mut named = Keyed::new(alloc);
    for link in links {
        if gives_output(link.link) && link.source == pid {
            named.set(link.label.copy()?, link.target)?;
        }
    }
    Ok(named)
}

/// Writes a line for each of these.
fn put_named(
    alloc: Global,
    out: &mut String,
    word: &str,
    named: &Keyed<u32>,
) -> Result<(), AllocError>
    ensures { OnOk result (string_bytes out.new ≡ string_bytes out.old ++ named_lines word.now named.now) }
{
    for (label, number) in named.as_slice() {
        let line = label_line(alloc, word, label, *number)?;
        out.push_str(line.as_str())?;
    }
    Ok(())
}

/// Writes the line of a link, where it is a call of the process.
fn put_call(alloc: Global, out: &mut String, pid: u32, link: &Link) -> Result<(), AllocError>
    ensures { OnOk result (string_bytes out.new ≡ string_bytes out.old ++ called_line pid link.now) }
{
    if calls(link.link) && link.source == pid {
        let line = label_line(alloc, "called", &link.label, link.target)?;
        out.push_str(line.as_str())?;
    }
    Ok(())
}

/// Writes a line for each call of a process.
fn put_calls(alloc: Global, out: &mut String, pid: u32, links: &[Link]) -> Result<(), AllocError>
    ensures { OnOk result (string_bytes out.new ≡ string_bytes out.old ++ called_lines pid links.now) }
{
    for link in links {
        put_call(alloc, out, pid, link)?;
    }
    Ok(())
}

/// The first lines of a process: what `list` says of it, its pause mark, its caller and the process whose outcome it took.
fn head_text(alloc: Global, process: &ProcessRecord, links: &[Link]) -> Result<String, AllocError>
    ensures { IfOk result (λ text. string_bytes text ≡ head_text process.now links.now) }
{
    let mut out = bare_line(alloc, process)?;
    out.push_str(pause_line(process.paused))?;
    let caller = number_line(alloc, "caller", caller_of(links, process.node))?;
    out.push_str(caller.as_str())?;
    let source = number_line(alloc, "cached_from", process.cached_from)?;
    out.push_str(source.as_str())?;
    Ok(out)
}

/// The lines of a process.
fn process_text(alloc: Global, process: &ProcessRecord, links: &[Link]) -> Result<Text, AllocError>
    ensures { IfOk result (λ text. text ≡ process_text links.now process.now) }
{
    let mut out = head_text(alloc, process, links)?;
    let inputs = inputs_of(alloc, links, process.node)?;
    put_named(alloc, &mut out, "input", &inputs)?;
    let outputs = outputs_of(alloc, links, process.node)?;
    put_named(alloc, &mut out, "output", &outputs)?;
    put_calls(alloc, &mut out, process.node, links)?;
    Text::of_string(out)
}

/// The node with a number, counted from 1.
fn node_at(nodes: &[NodeKind], node: u32) -> Option<&NodeKind>
    ensures { option_copied result ≡ node_of nodes.now node }
{
    if node == 0 {
        return None;
    }
    nodes.get(node as usize - 1)
}

/// The lines of the process with a number, if there is one.
fn process_at(alloc: Global, world: &World, pid: u32) -> Result<Option<Text>, AllocError>
    ensures { IfOk result (λ text. text ≡ option_map (process_text world.now.world.links) (find_record pid world.now.world.records)) }
{
    match world.record_of(pid) {
        Some(process) => {
            let links = world.graph().links().as_slice();
            Ok(Some(process_text(alloc, process, links)?))
        }
        None => Ok(None),
    }
}

/// The text of `show`: of a data node its value and its creator; of a process what `list` says of it, its pause mark, its caller and the
/// process whose outcome it took, its inputs, outputs and calls. None where there is no node of this number.
pub fn show_text(alloc: Global, world: &World, node: u32) -> Result<Option<Text>, AllocError>
    ensures { IfOk result (λ text. text ≡ show_text world.now.world node) }
{
    let graph = world.graph();
    match node_at(graph.nodes().as_slice(), node) {
        None => Ok(None),
        Some(NodeKind::Data(value)) => {
            Ok(Some(data_text(alloc, node, value, graph.links().as_slice())?))
        }
        Some(NodeKind::Calculation) | Some(NodeKind::Workflow) => process_at(alloc, world, node),
    }
}
