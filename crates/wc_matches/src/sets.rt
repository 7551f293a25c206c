//! Sets of nodes that may stand at a place of a row.

ghost use Rattle.std.specs.Prelude.{◌≡◌, ◌&&◌, ◌<◌, ◌≤◌, ◌+◌, ◌^◌, ◌↔◌, ℕ, true, false, length, replicate, IfOk, slice_index_or};
ghost use Rattle.wc_matches.specs.Meets.{meets};
ghost use Rattle.wc_matches.specs.Sets.{LeadsToMarked, LeadsToSome, IsSet, AreSets};

use crate::nodes::meets;
use crate::numbers::{is_marked, numbers};
use crate::search::joined;
use std::alloc::{AllocError, Global};
use wc_graph::Graph;
use wc_query::{LinkTest, NodeTest, Query};
use wc_value::List;
use wc_world::World;

/// A mark for each number from 0.
pub(crate) type Marks = List<bool>;

/// So many equal marks.
pub(crate) fn equal_marks(alloc: Global, count: usize, mark: bool) -> Result<Vec<bool>, AllocError>
    ensures { IfOk result (λ marks. marks.items ≡ replicate count mark) }
{
    vec![in alloc; mark; count]
}

/// Whether a node is marked and meets a test.
fn meets_within(world: &World, test: &NodeTest, within: &[bool], node: u32) -> bool
    ensures { result ≡ (slice_index_or within.now node false && meets world.now.world test.now node) }
{
    is_marked(within, node) && meets(world, test, node)
}

/// Which of the nodes that are marked meet a test.
fn met(alloc: Global, world: &World, test: &NodeTest, within: &[bool]) -> Result<Marks, AllocError>
    requires { length within.now < 2 ^ 32 }
    ensures size { IfOk result (λ set. length set ≡ length within.now) }
    ensures met { IfOk result (λ set. (m : ℕ)
        → slice_index_or set m false ≡ (slice_index_or within.now m false && meets world.now.world test.now m)) }
{
    let mut set = Marks::new(alloc);
    for node in 0..within.len() {
        set.push(meets_within(world, test, within, node as u32))?;
    }
    Ok(set)
}

/// The nodes from which a join leads to one of these.
#[tactic(auto, using(crate::proofs::Placing::leads_where))]
pub(crate) fn leading_to(
    alloc: Global,
    graph: &Graph,
    join: &LinkTest,
    ends: &[u32],
) -> Result<Vec<bool>, AllocError>
    ensures size { IfOk result (λ marks. length marks.items ≡ length graph.now.nodes + 1) }
    ensures leads { IfOk result (λ marks. (n : ℕ)
        → (slice_index_or marks.items n false ≡ true) ↔ LeadsToSome graph.now.links join.now ends.now n) }
{
    let mut marks = equal_marks(alloc, graph.nodes().len() + 1, false)?;
    let _found = joined(alloc, graph, join, !join.forward, &[], ends, &mut marks)?;
    Ok(marks)
}

/// The nodes from which a join leads to a marked one.
#[tactic(auto, using(crate::proofs::Placing::leads_marked))]
pub(crate) fn leading(
    alloc: Global,
    graph: &Graph,
    join: &LinkTest,
    set: &[bool],
) -> Result<Vec<bool>, AllocError>
    requires { length set.now < 2 ^ 32 }
    ensures size { IfOk result (λ marks. length marks.items ≡ length graph.now.nodes + 1) }
    ensures leads { IfOk result (λ marks. (n : ℕ)
        → (slice_index_or marks.items n false ≡ true) ↔ LeadsToMarked graph.now.links join.now set.now n) }
{
    let ends = numbers(alloc, set)?;
    leading_to(alloc, graph, join, &ends)
}

/// The sets of the nodes that may stand at each place: those of the first place, and those behind each join, of which that of the first
/// join stands at the end.
pub(crate) fn sets_of(
    alloc: Global,
    world: &World,
    query: &Query,
) -> Result<(Marks, Vec<Marks>), AllocError>
    ensures first { IfOk result (λ sets. IsSet world.now.world query.now.first query.now.more sets.0) }
    ensures small { IfOk result (λ sets. length sets.0 < 2 ^ 32) }
    ensures others { IfOk result (λ sets. AreSets world.now.world query.now.more sets.1.items) }
{
    let graph = world.graph();
    let joins = query.more.as_slice();
    let mut within = equal_marks(alloc, graph.nodes().len() + 1, true)?;
    let mut sets = Vec::new(alloc);
    let mut at = joins.len();
    while at > 0 {
        at -= 1;
        let (join, test) = &joins[at];
        let set = met(alloc, world, test, &within)?;
        within = leading(alloc, graph, join, set.as_slice())?;
        sets.push(set)?;
    }
    let first = met(alloc, world, &query.first, &within)?;
    Ok((first, sets))
}
