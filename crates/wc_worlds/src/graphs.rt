//! Graphs: their nodes, and the links that they take and refuse.

use crate::changes::changes_of;
use crate::told::Told;
use std::alloc::{AllocError, Global};
use wc_graph::{Graph, Link, LinkType, NodeKind};
use wc_value::{Duplicate, Text, Value, let_go};
use wc_world::Change;

/// The node that a letter stands for, by what its kind begins with: data, calculation or workflow.
fn node_of(letter: u8) -> NodeKind {
    match letter {
        b'd' => NodeKind::Data(Value::Int(0)),
        b'c' => NodeKind::Calculation,
        _ => NodeKind::Workflow,
    }
}

/// Adds a node, and gives its number, or tells why the graph doesn't take it, and gives 0.
fn add(graph: &mut Graph, kind: NodeKind, told: &mut Told) -> u32 {
    match graph.add_node(kind) {
        Ok(number) => number,
        Err(error) => {
            told.put_line(&error);
            0
        }
    }
}

/// Adds a node for each letter.
pub fn add_nodes(graph: &mut Graph, letters: &str, told: &mut Told) {
    for letter in letters.as_bytes() {
        let _ = add(graph, node_of(*letter), told);
    }
}

/// Adds a node, and tells its number.
pub fn add_node(graph: &mut Graph, letter: &str, told: &mut Told) {
    let [letter] = letter.as_bytes() else {
        told.refuse();
        return;
    };
    let number = add(graph, node_of(*letter), told);
    if number > 0 {
        told.put_line(&number);
    }
}

/// Makes room for so many nodes and links.
pub fn make_room(graph: &mut Graph, count: u32, told: &mut Told) {
    if graph.reserve(count, count).is_err() {
        told.lose();
    }
}

/// Adds so many workflows, for which there is room.
pub fn fill(graph: &mut Graph, count: u32, told: &mut Told) {
    if graph.reserve(count, 0).is_err() {
        told.lose();
    }
    for _node in 0..count {
        if let Err(error) = graph.add_node(NodeKind::Workflow) {
            told.put_line(&error);
            return;
        }
    }
}

/// Adds a link, if there was memory for it, or tells why the graph doesn't take it.
fn join(graph: &mut Graph, link: Result<Link, AllocError>, told: &mut Told) {
    match link {
        Ok(link) => told.put_done(graph.add_link(link)),
        Err(_) => told.lose(),
    }
}

/// Adds the links that changes are. Any other change is refused as a row.
fn add_all(graph: &mut Graph, changes: &[Change], told: &mut Told) {
    for change in changes {
        match change {
            Change::Link(link) => join(graph, link.copy(), told),
            _ => told.refuse(),
        }
    }
}

/// Adds the links that bytes spell, and tells why one is refused.
pub fn add_links(alloc: Global, graph: &mut Graph, bytes: &[u8], told: &mut Told) {
    match changes_of(alloc, bytes) {
        Ok(changes) => {
            add_all(graph, changes.as_slice(), told);
            let_go(changes);
        }
        Err(error) => told.put_line(&error),
    }
}

/// A link with the label `x`.
fn link_of(alloc: Global, source: u32, target: u32, link: LinkType) -> Result<Link, AllocError> {
    let label = Text::of_str(alloc, "x")?;
    Ok(Link {
        source,
        target,
        link,
        label,
    })
}

/// Adds a calculation that takes a data node, and the data that it makes, whose number it gives.
fn add_step(alloc: Global, graph: &mut Graph, last: u32, told: &mut Told) -> u32 {
    let calculation = add(graph, NodeKind::Calculation, told);
    let made = add(graph, NodeKind::Data(Value::Int(0)), told);
    join(
        graph,
        link_of(alloc, last, calculation, LinkType::InputCalc),
        told,
    );
    join(
        graph,
        link_of(alloc, calculation, made, LinkType::Create),
        told,
    );
    made
}

/// Adds a chain of so many calculations behind the last node, which is data. Each takes what the one before made.
pub fn add_chain(alloc: Global, graph: &mut Graph, count: u32, told: &mut Told) {
    let mut last = graph.nodes().len() as u32;
    for _step in 0..count {
        last = add_step(alloc, graph, last, told);
    }
}

/// Tells how many nodes and links there are.
pub fn put_sizes(graph: &Graph, told: &mut Told) {
    let nodes = graph.nodes().len() as u64;
    let links = graph.links().len() as u64;
    told.put_numbers(&[("nodes ", nodes), (" links ", links)]);
}
