//! Nodes that become busy: that have very many links at one end.

ghost use Rattle.std.specs.Prelude.{◌≡◌, ℕ, List, Some, IfOk, OnOk};
ghost use Rattle.wc_graph.specs.Labels.{Has, HasFrom, HasGathered, label_node};

use crate::graph::Graph;
use crate::labels::{End, Names, label_node, put_name};
use crate::link::Link;
use std::alloc::{AllocError, Global};
use std::collections::BTreeSet;

/// The most links that a node has at an end where it isn't busy.
const MOST_LINKS: usize = 64;

/// Whether a node has very many links at this end, by a walk of few steps.
pub(crate) fn has_many(graph: &Graph, end: End, node: u32) -> bool {
    let mut at = graph.last_at(end, node);
    for _ in 0..MOST_LINKS {
        if at == 0 {
            return false;
        }
        at = graph.before_at(end, node, at);
    }
    at > 0
}

/// Puts the label of a link into a set, if it stands once at the node.
fn put_link(
    alloc: Global,
    names: &mut Names,
    end: End,
    node: u32,
    link: &Link,
) -> Result<(), AllocError>
    ensures put { OnOk result (label_node end link.now ≡ Some node → Has names.new link.now.label) }
    ensures kept { OnOk result ((l : List ℕ) → Has names.old l → Has names.new l) }
{
    if label_node(end, link) != Some(node) {
        return Ok(());
    }
    put_name(alloc, names, &link.label)
}

/// The labels that stand once at a node, at this end.
fn names_of(alloc: Global, graph: &Graph, end: End, node: u32) -> Result<Names, AllocError>
    ensures { IfOk result (λ names. HasFrom end graph.now.links node names 0) }
{
    let links = graph.links().as_slice();
    let mut names = BTreeSet::new(alloc);
    let mut at = graph.last_at(end, node);
    while at > 0 {
        put_link(alloc, &mut names, end, node, &links[at - 1])?;
        at = graph.before_at(end, node, at);
    }
    Ok(names)
}

/// The labels that stand once at a node that becomes busy, or none where it doesn't.
pub(crate) fn gather(
    alloc: Global,
    graph: &Graph,
    end: End,
    node: Option<u32>,
) -> Result<Option<Names>, AllocError>
    ensures { HasGathered end graph.now.links node result }
{
    let Some(node) = node else {
        return Ok(None);
    };
    if !graph.may_be_busy(end, node) || !has_many(graph, end, node) {
        return Ok(None);
    }
    Ok(Some(names_of(alloc, graph, end, node)?))
}
