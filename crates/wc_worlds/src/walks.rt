//! Walks over graphs.

use crate::told::Told;
use std::alloc::Global;
use wc_graph::{Graph, Ids, LinkSet, LinkType, WalkError, ancestors, descendants, order};

/// The most numbers that are told one by one.
const FEW: usize = 16;

/// Which way a walk goes.
#[derive(Clone, Copy)]
pub enum Way {
    /// To the sources of links.
    Up,
    /// To the targets of links.
    Down,
}

/// The type of links that a byte of changes stands for.
fn type_of(byte: u8) -> Option<LinkType> {
    match byte {
        1 => Some(LinkType::InputCalc),
        2 => Some(LinkType::InputWork),
        3 => Some(LinkType::Create),
        4 => Some(LinkType::Return),
        5 => Some(LinkType::CallCalc),
        6 => Some(LinkType::CallWork),
        _ => None,
    }
}

/// The types of links that bytes of changes stand for, if each stands for one.
fn types_of(alloc: Global, bytes: &[u8]) -> Option<LinkSet> {
    let mut types = LinkSet::new(alloc);
    for byte in bytes {
        types.push(type_of(*byte)?).ok()?;
    }
    Some(types)
}

/// Tells numbers of nodes, or how many there are.
fn put_ids(told: &mut Told, word: &str, ids: &[u32]) {
    if ids.len() > FEW {
        told.put_item(&ids.len());
        told.put(" ");
        told.put_line(&word);
        return;
    }
    told.put(word);
    for id in ids {
        told.put(" ");
        told.put_item(id);
    }
    told.put("\n");
}

/// Tells the nodes that a walk gives, or why it gives none.
fn put_answer(told: &mut Told, answer: &Result<Ids, WalkError>) {
    match answer {
        Ok(ids) => put_ids(told, "nodes", ids.as_slice()),
        Err(WalkError::Cycle(ids)) => put_ids(told, "cycle", ids.as_slice()),
        Err(error) => told.put_line(error),
    }
}

/// Tells to which nodes walks lead from a node over links of these types.
fn put_reached(
    alloc: Global,
    graph: &Graph,
    way: Way,
    node: u32,
    types: &LinkSet,
    told: &mut Told,
) {
    let answer = match way {
        Way::Up => ancestors(alloc, graph, node, types),
        Way::Down => descendants(alloc, graph, node, types),
    };
    put_answer(told, &answer);
}

/// Tells the same of a node that a word says, and of types that bytes of changes stand for.
pub fn put_walk(alloc: Global, graph: &Graph, way: Way, node: &str, types: &[u8], told: &mut Told) {
    match (node.parse(), types_of(alloc, types)) {
        (Ok(node), Some(types)) => put_reached(alloc, graph, way, node, &types, told),
        _ => told.refuse(),
    }
}

/// Tells the order of data provenance, or a cycle.
pub fn put_order(alloc: Global, graph: &Graph, told: &mut Told) {
    put_answer(told, &order(alloc, graph));
}
