//! The links of the inputs of a process that has very many, put in order once. That takes memory.

ghost use Rattle.std.specs.Prelude.{◌≡◌, flat_map, IfOk, OnOk};
ghost use Rattle.wc_keys.specs.Hashing.{Adds};
ghost use Rattle.wc_keys.specs.Ports.{with_input, input_links, by_port, links_in, link_bytes};

use crate::inputs::put_input;
use sha2::Sha256;
use std::alloc::{AllocError, Global};
use std::collections::BTreeMap;
use wc_fits::input_by;
use wc_graph::{Graph, Link, NodeKind};

/// Links by their ports, each as its bytes.
pub(crate) type LinkMap<'a> = BTreeMap<Vec<u8>, &'a Link>;

/// Puts a link into a map by its port, if it is an input of the process.
fn put_link<'a>(
    alloc: Global,
    inputs: &mut LinkMap<'a>,
    nodes: &[NodeKind],
    pid: u32,
    link: &'a Link,
) -> Result<(), AllocError>
    ensures { OnOk result (by_port inputs.new ≡ with_input nodes.now pid link.now (by_port inputs.old)) }
{
    if input_by(nodes, pid, link).is_some() {
        let port = Vec::from_slice(alloc, link.label.bytes())?;
        inputs.insert(port, link)?;
    }
    Ok(())
}

/// The links of the inputs of a process by their ports.
pub(crate) fn links_of<'a>(
    alloc: Global,
    graph: &'a Graph,
    pid: u32,
) -> Result<LinkMap<'a>, AllocError>
    ensures { IfOk result (λ inputs. by_port inputs ≡ input_links graph.now.nodes pid graph.now.links) }
{
    let nodes = graph.nodes().as_slice();
    let links = graph.links().as_slice();
    let mut inputs = BTreeMap::new(alloc);
    let mut at = graph.last_into(pid);
    while at > 0 {
        put_link(alloc, &mut inputs, nodes, pid, &links[at - 1])?;
        at = graph.before_into(pid, at);
    }
    Ok(inputs)
}

/// Adds the inputs that links lead from, each with its port.
pub(crate) fn put_links(hasher: &mut Sha256, nodes: &[NodeKind], inputs: &LinkMap)
    ensures { Adds hasher.old (flat_map (link_bytes nodes.now) (links_in inputs.now)) hasher.new }
{
    for link in inputs.values() {
        put_input(hasher, nodes, *link);
    }
}
