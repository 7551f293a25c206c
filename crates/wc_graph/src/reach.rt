//! The ancestors and the descendants of a node.

ghost use Rattle.std.specs.Prelude.{◌≡◌, ◌≢◌, ℕ, ◌≤◌, ◌^◌, ◌↔◌, ◌⊎◌, length, slice_index, IfOk, IfErr, IsErrOf};
ghost use Rattle.wc_graph.specs.Walks.{Leads, Reaches};
ghost use Rattle.wc_graph.specs.Near.{Along};
ghost use Rattle.wc_graph.specs.Reached.{IsNode, AreExactly};

use crate::choice::{Choice, LinkSet};
use crate::near::{self, Way};
use crate::walk_error::WalkError;
use crate::{Graph, flood};
use std::alloc::{AllocError, Global};
use wc_value::List;

/// Numbers of nodes.
pub type Ids = List<u32>;

/// The numbers that have this colour, ascending.
fn numbers_with(alloc: Global, colours: &[u32], colour: u32) -> Result<Ids, AllocError>
    requires few { length colours.now ≤ 2 ^ 32 }
    requires some { colour ≢ 0 }
    ensures { IfOk result (AreExactly (λ id. slice_index colours.now id ≡ colour)) }
{
    let mut ids = Ids::new(alloc);
    for id in 0..colours.len() {
        if colours[id] == colour {
            ids.push(id as u32)?;
        }
    }
    Ok(ids)
}

/// The nodes that walks of one or more links lead to from a node, ascending.
fn reached(
    alloc: Global,
    graph: &Graph,
    from: u32,
    types: &LinkSet,
    way: Way,
) -> Result<Ids, WalkError>
    ensures ok { IfOk result (AreExactly (Reaches (Along way (Leads types.now graph.now.links)) from)) }
    ensures no_node { IsErrOf result (WalkError.NoNode from) ↔ (IsNode graph.now.nodes from → ⊥) }
    ensures others { IfErr result (λ e. (e ≡ WalkError.NoNode from) ⊎ (e ≡ WalkError.OutOfMemory)) }
{
    if from == 0 || from as usize > graph.nodes().len() {
        return Err(WalkError::NoNode(from));
    }
    let table = near::table_of(alloc, graph, Choice::of(types), way)?;
    let (colours, _trail) = flood::explore(alloc, &table, from)?;
    Ok(numbers_with(alloc, &colours, 1)?)
}

/// The nodes from which a walk of one or more links of these types leads to the node, ascending.
pub fn ancestors(alloc: Global, graph: &Graph, from: u32, types: &LinkSet) -> Result<Ids, WalkError>
    // Exactly the nodes from which such links lead to this one.
    ensures ok { IfOk result (AreExactly (λ node. Reaches (Leads types.now graph.now.links) node from)) }
    // NoNode exactly where there is no such node.
    ensures no_node { IsErrOf result (WalkError.NoNode from) ↔ (IsNode graph.now.nodes from → ⊥) }
    // Any other error is want of memory.
    ensures others { IfErr result (λ e. (e ≡ WalkError.NoNode from) ⊎ (e ≡ WalkError.OutOfMemory)) }
{
    reached(alloc, graph, from, types, Way::Backward)
}

/// The nodes to which a walk of one or more links of these types leads from the node, ascending.
pub fn descendants(
    alloc: Global,
    graph: &Graph,
    from: u32,
    types: &LinkSet,
) -> Result<Ids, WalkError>
    ensures ok { IfOk result (AreExactly (λ node. Reaches (Leads types.now graph.now.links) from node)) }
    ensures no_node { IsErrOf result (WalkError.NoNode from) ↔ (IsNode graph.now.nodes from → ⊥) }
    ensures others { IfErr result (λ e. (e ≡ WalkError.NoNode from) ⊎ (e ≡ WalkError.OutOfMemory)) }
{
    reached(alloc, graph, from, types, Way::Forward)
}
