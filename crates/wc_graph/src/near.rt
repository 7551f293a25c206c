//! The nodes one step from each node.

ghost use Rattle.std.specs.Prelude.{◌≡◌, ℕ, ◌+◌, ◌<◌, ◌^◌, List, [], length, IfOk, slice_index_or};
ghost use Rattle.wc_graph.specs.declared.link.LinkType.{LinkType};
ghost use Rattle.wc_graph.specs.Walks.{Leads};
ghost use Rattle.wc_graph.specs.Choice.{Chooses};
ghost use Rattle.wc_graph.specs.Near.{near_of, tail, head, Along, EndsAreWithin, IsTable};

use crate::choice::Choice;
use crate::reach::Ids;
use crate::{Graph, Link};
use std::alloc::{AllocError, Global};

/// Which way links are followed.
#[derive(Clone, Copy)]
pub(crate) enum Way {
    /// From source to target.
    Forward,
    /// From target to source.
    Backward,
}

impl Way {
    /// The node that the link is followed from.
    fn tail(self, link: &Link) -> u32
        ensures { result ≡ tail self link.now }
    {
        match self {
            Way::Forward => link.source,
            Way::Backward => link.target,
        }
    }

    /// The node that the link is followed to.
    fn head(self, link: &Link) -> u32
        ensures { result ≡ head self link.now }
    {
        match self {
            Way::Forward => link.target,
            Way::Backward => link.source,
        }
    }
}

/// So many empty lists.
fn empty_lists(alloc: Global, count: usize) -> Result<Vec<Ids>, AllocError>
    ensures size { IfOk result (λ table. length table.items ≡ count) }
    ensures lists { IfOk result (λ table. (node : ℕ) → slice_index_or table.items node [] ≡ []) }
{
    let mut table = Vec::with_capacity(alloc, count)?;
    for _node in 0..count {
        table.push(Ids::new(alloc))?;
    }
    Ok(table)
}

/// The nodes one step from each node, by its number, for nodes up to the greatest number.
fn near(
    alloc: Global,
    greatest: u32,
    links: &[Link],
    choice: Choice,
    way: Way,
) -> Result<Vec<Ids>, AllocError>
    requires { EndsAreWithin greatest links.now }
    ensures size { IfOk result (λ table. length table.items ≡ greatest + 1) }
    ensures lists { IfOk result
        (λ table. (node : ℕ) → slice_index_or table.items node [] ≡ near_of choice way links.now node) }
{
    let mut table = empty_lists(alloc, greatest as usize + 1)?;
    for link in links {
        if choice.has(link.link) {
            let list = &mut table[way.tail(link) as usize];
            list.push(way.head(link))?;
        }
    }
    Ok(table)
}

/// The nodes one step from each node of a graph, by its number.
pub(crate) fn table_of(
    alloc: Global,
    graph: &Graph,
    choice: Choice,
    way: Way,
) -> Result<Vec<Ids>, AllocError>
    ensures table { IfOk result (λ table. (types : List LinkType) → Chooses choice types
        → IsTable (Along way (Leads types graph.now.links)) (length graph.now.nodes) table.items) }
    ensures small { IfOk result (λ table. length table.items < 2 ^ 32) }
    ensures lists { IfOk result (λ table. (node : ℕ)
        → slice_index_or table.items node [] ≡ near_of choice way graph.now.links node) }
{
    let greatest = graph.nodes().len() as u32;
    Ok(near(alloc, greatest, graph.links().as_slice(), choice, way)?)
}
