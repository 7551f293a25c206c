//! Copies of nodes and links.

ghost use Rattle.std.specs.Prelude.{◌≡◌, IfOk};

use crate::graph::{Links, Nodes};
use crate::link::Link;
use crate::node::NodeKind;
use std::alloc::{AllocError, Global};
use wc_value::Duplicate;

impl Duplicate for NodeKind {
    fn copy(&self) -> Result<NodeKind, AllocError> {
        match self {
            NodeKind::Data(value) => Ok(NodeKind::Data(value.copy()?)),
            NodeKind::Calculation => Ok(NodeKind::Calculation),
            NodeKind::Workflow => Ok(NodeKind::Workflow),
        }
    }
}

impl Duplicate for Link {
    fn copy(&self) -> Result<Link, AllocError> {
        Ok(Link {
            source: self.source,
            target: self.target,
            link: self.link,
            label: self.label.copy()?,
        })
    }
}

/// A copy of nodes.
pub(crate) fn copy_nodes(alloc: Global, nodes: &Nodes) -> Result<Nodes, AllocError>
    ensures { IfOk result (λ copy. copy.0 ≡ nodes.now.0) }
{
    let mut copies = Nodes::new(alloc);
    copies.reserve(nodes.len())?;
    for node in nodes.as_slice() {
        copies.push(node.copy()?)?;
    }
    Ok(copies)
}

/// A copy of links.
pub(crate) fn copy_links(alloc: Global, links: &Links) -> Result<Links, AllocError>
    ensures { IfOk result (λ copy. copy.0 ≡ links.now.0) }
{
    let mut copies = Links::new(alloc);
    copies.reserve(links.len())?;
    for link in links.as_slice() {
        copies.push(link.copy()?)?;
    }
    Ok(copies)
}
