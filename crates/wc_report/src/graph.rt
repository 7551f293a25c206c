//! The text of `graph`.

ghost use Rattle.std.specs.Prelude.{◌≡◌, ◌++◌, ◌-◌, ◌<◌, ◌^◌, length, flat_map, IfOk, OnOk, string_bytes};
ghost use Rattle.wc_report.specs.Shows.{graph_text, link_line, link_type_text, node_line, node_lines, process_line};
ghost use Rattle.wc_world.specs.Records.{find_record};

use crate::{process_kind_name, value_text};
use std::alloc::{AllocError, Global};
use wc_graph::{Link, LinkType, NodeKind};
use wc_value::Text;
use wc_world::World;

/// What a type of link is called.
pub fn link_type_name(link: LinkType) -> &'static str
    ensures { result.now ≡ link_type_text link }
{
    match link {
        LinkType::InputCalc => "INPUT_CALC",
        LinkType::InputWork => "INPUT_WORK",
        LinkType::Create => "CREATE",
        LinkType::Return => "RETURN",
        LinkType::CallCalc => "CALL_CALC",
        LinkType::CallWork => "CALL_WORK",
    }
}

/// Writes the line of a process.
fn put_process(alloc: Global, out: &mut String, world: &World, pid: u32) -> Result<(), AllocError>
    ensures { OnOk result (string_bytes out.new ≡ string_bytes out.old ++ process_line pid (find_record pid world.now.world.records)) }
{
    match world.record_of(pid) {
        Some(process) => {
            let kind = process_kind_name(process.kind);
            let line = format!(in alloc; "node {pid} {kind} {}\n", process.definition.as_str())?;
            out.push_str(line.as_str())
        }
        None => Ok(()),
    }
}

/// Writes the line of a node.
fn put_node(
    alloc: Global,
    out: &mut String,
    world: &World,
    number: u32,
    node: &NodeKind,
) -> Result<(), AllocError>
    ensures { OnOk result (string_bytes out.new ≡ string_bytes out.old ++ node_line world.now.world.records number node.now) }
{
    match node {
        NodeKind::Data(value) => {
            let value = value_text(alloc, value)?;
            let line = format!(in alloc; "node {number} data {}\n", value.as_str())?;
            out.push_str(line.as_str())
        }
        NodeKind::Calculation | NodeKind::Workflow => put_process(alloc, out, world, number),
    }
}

/// Writes a line for each node, of which the first has the number 1.
fn put_nodes(
    alloc: Global,
    out: &mut String,
    world: &World,
    nodes: &[NodeKind],
) -> Result<(), AllocError>
    requires { length nodes.now < 2 ^ 32 - 1 }
    ensures { OnOk result (string_bytes out.new ≡ string_bytes out.old ++ node_lines world.now.world.records 1 nodes.now) }
{
    let mut number = 1;
    for node in nodes {
        put_node(alloc, out, world, number, node)?;
        number += 1;
    }
    Ok(())
}

/// The line of a link.
fn link_line(alloc: Global, link: &Link) -> Result<String, AllocError>
    ensures { IfOk result (λ line. string_bytes line ≡ link_line link.now) }
{
    let name = link_type_name(link.link);
    format!(in alloc;
        "link {} {} {name} {}\n",
        link.source,
        link.target,
        link.label.as_str()
    )
}

/// Writes a line for each link.
fn put_links(alloc: Global, out: &mut String, links: &[Link]) -> Result<(), AllocError>
    ensures { OnOk result (string_bytes out.new ≡ string_bytes out.old ++ flat_map link_line links.now) }
{
    for link in links {
        let line = link_line(alloc, link)?;
        out.push_str(line.as_str())?;
    }
    Ok(())
}

/// The text of `graph`: a line for each node, in order of their numbers, and one for each link, in order.
pub fn graph_text(alloc: Global, world: &World) -> Result<Text, AllocError>
    ensures { IfOk result (λ text. text ≡ graph_text world.now.world) }
{
    let graph = world.graph();
    let mut out = String::new(alloc);
    put_nodes(alloc, &mut out, world, graph.nodes().as_slice())?;
    put_links(alloc, &mut out, graph.links().as_slice())?;
    Text::of_string(out)
}
