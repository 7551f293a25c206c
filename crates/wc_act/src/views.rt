//! Views of a world.

ghost use Rattle.std.specs.Prelude.{◌≡◌, IfOk};
ghost use Rattle.wc_graph.specs.Walks.{IsAcyclic};
ghost use Rattle.wc_machine.specs.Created.{IsCreatedByInputs};
ghost use Rattle.wc_act.specs.Views.{Shows, ShowsRows, ShowsTree, ShowsView, Verifies, finds, node_reply};
ghost use Rattle.wc_report.specs.Shows.{show_text};

use std::alloc::{AllocError, Global};
use wc_cli::View;
use wc_matches::{Query, answers, rows_text};
use wc_plan::{Cause, Fault, Reply, Shown, Status, print, refuse};
use wc_report::{
    cycle_text, graph_text, list_text, show_text, tree_lines, verified_text, wrong_value_text,
};
use wc_trees::tree_of;
use wc_verify::{find_cycle, find_disagreement, find_wrong_value};
use wc_world::{World, WorldError};

/// The tree of a process, or that there is no such process.
fn tree_shown(alloc: Global, world: &World, pid: u32) -> Result<Reply, AllocError>
    ensures { IfOk result (λ r. ShowsTree pid world.now.world r) }
{
    match tree_of(alloc, world, pid) {
        Ok(tree) => Ok(print(tree_lines(alloc, &tree)?)),
        Err(WorldError::NoProcess(_)) => refuse(alloc, Cause::UnknownProcess(pid)),
        Err(WorldError::OutOfMemory) => Err(AllocError),
        Err(_) => unreachable!(),
    }
}

/// A node with its links, or that there is no such node.
fn node_shown(alloc: Global, world: &World, node: u32) -> Result<Reply, AllocError>
    ensures { IfOk result (λ r. r ≡ node_reply node (show_text world.now.world node)) }
{
    match show_text(alloc, world, node)? {
        Some(text) => Ok(print(text)),
        None => refuse(alloc, Cause::UnknownNode(node)),
    }
}

/// That a world isn't sound.
fn unsound(alloc: Global, fault: Fault) -> Result<Reply, AllocError>
    ensures { IfOk result (λ r. r ≡ finds fault) }
{
    let text = match fault {
        Fault::Cycle(node) => cycle_text(alloc, node)?,
        Fault::Value(pid) => wrong_value_text(alloc, pid)?,
    };
    Ok(Reply {
        status: Status::Unsound(fault),
        text,
    })
}

/// How much there is in a world, and whether its results agree.
fn counted(alloc: Global, world: &World) -> Result<Reply, AllocError>
    requires acyclic { IsAcyclic world.now.world.links }
    requires created { IsCreatedByInputs world.now.world }
    ensures { IfOk result (Verifies world.now.world) }
{
    let disagreement = find_disagreement(alloc, world)?;
    let graph = world.graph();
    let text = verified_text(
        alloc,
        graph.nodes().len(),
        graph.links().len(),
        disagreement,
    )?;
    Ok(print(text))
}

/// Whether each calculation of a world without cycles is as its inputs give it.
fn values_checked(alloc: Global, world: &World) -> Result<Reply, AllocError>
    requires { IsAcyclic world.now.world.links }
    ensures { IfOk result (Verifies world.now.world) }
{
    match find_wrong_value(alloc, world)? {
        Some(pid) => unsound(alloc, Fault::Value(pid)),
        None => counted(alloc, world),
    }
}

/// Whether a world has a cycle, or a calculation that isn't as its inputs give it; else how much there is in it.
fn verified(alloc: Global, world: &World) -> Result<Reply, AllocError>
    ensures { IfOk result (Verifies world.now.world) }
{
    match find_cycle(alloc, world)? {
        Some(node) => unsound(alloc, Fault::Cycle(node)),
        None => values_checked(alloc, world),
    }
}

/// The rows that match a query, at most so many.
fn rows_shown(alloc: Global, world: &World, query: &Query, limit: u32) -> Result<Reply, AllocError>
    ensures { IfOk result (λ r. ShowsRows query.now limit world.now.world r) }
{
    let found = answers(alloc, world, query, limit)?;
    Ok(print(rows_text(alloc, &found)?))
}

/// What a view replies.
fn view_shown(alloc: Global, world: &World, view: View) -> Result<Reply, AllocError>
    ensures { IfOk result (λ r. ShowsView view world.now.world r) }
{
    match view {
        View::List => Ok(print(list_text(alloc, world)?)),
        View::Tree { pid } => tree_shown(alloc, world, pid),
        View::Show { node } => node_shown(alloc, world, node),
        View::Graph => Ok(print(graph_text(alloc, world)?)),
        View::Verify => verified(alloc, world),
    }
}

/// What of a world is shown.
pub(crate) fn view_reply(alloc: Global, world: &World, shown: Shown) -> Result<Reply, AllocError>
    ensures { IfOk result (λ r. Shows shown world.now.world r) }
{
    match shown {
        Shown::View(view) => view_shown(alloc, world, view),
        Shown::Query(query, limit) => rows_shown(alloc, world, &query, limit),
    }
}
