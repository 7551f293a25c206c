//! What the archive of a root has of a world.

ghost use Rattle.std.specs.Prelude.{◌≡◌, ◌++◌, ◌<◌, ◌^◌, ℕ, List, [], ◌∷◌, Some, length, filter, slice_index, IfOk, OnOk, option_map};
ghost use Rattle.std.specs.List.{filter_map};
ghost use Rattle.std.specs.Option.{option_copied};
ghost use Rattle.wc_graph.specs.Rules.{node_of};
ghost use Rattle.wc_syntax.specs.declared.definition.Definition.{Definition};
ghost use Rattle.wc_world.specs.Records.{find_record, library_at};
ghost use Rattle.wc_verify.specs.Givers.{AreLastGivers, recorded_giver};
ghost use Rattle.wc_archive.specs.Closure.{archive_number, archive_of, archived_kind, archived_node, archived_process, closure, is_at_or_below, is_in_closure};
ghost use Rattle.wc_archive.specs.Marks.{AreMarks, is_marked, marked};

use crate::marks::{archived_links, is_marked};
use std::alloc::{AllocError, Global};
use wc_archive_file::{Archive, ArchiveNode, ArchiveNodes, ArchiveProcess};
use wc_graph::NodeKind;
use wc_state::ProcessRecord;
use wc_syntax::Checked;
use wc_value::{Duplicate, JobResult};
use wc_verify::{library_at, recorded_result};
use wc_world::{World, reached_worlds_are_consistent};

/// The exit code of a result.
fn code_of(given: Option<JobResult>) -> Option<i64>
    ensures { result ≡ option_map (λ x. x.code) given }
{
    match given {
        Some(given) => Some(given.code),
        None => None,
    }
}

/// What is kept of a process.
fn archived_process(
    alloc: Global,
    world: &World,
    lasts: &[u32],
    process: &ProcessRecord,
) -> Result<ArchiveProcess, AllocError>
    requires lasts { AreLastGivers recorded_giver world.now.world lasts.now }
    requires found { find_record process.now.node world.now.world.records ≡ Some process.now }
    ensures { IfOk result (λ kept. kept ≡ archived_process world.now.world process.now) }
{
    let given = recorded_result(alloc, world, lasts, process)?;
    let definition = process.definition.copy()?;
    let label = process.label.copy()?;
    Ok(ArchiveProcess {
        kind: process.kind,
        definition,
        depth: process.depth,
        label,
        state: process.state,
        fuel: process.fuel,
        code: code_of(given),
    })
}

/// What is kept of the process with this number, if there is one.
fn archived_process_of(
    alloc: Global,
    world: &World,
    lasts: &[u32],
    id: u32,
) -> Result<Option<ArchiveNode>, AllocError>
    requires { AreLastGivers recorded_giver world.now.world lasts.now }
    ensures { IfOk result (λ node. node ≡ option_map (λ r. ArchiveNode.Process (archived_process world.now.world r)) (find_record id world.now.world.records)) }
{
    // A reached world is consistent, so that a record that is found by its number has that number.
    let _ = world.graph();
    reached_worlds_are_consistent();
    match world.record_of(id) {
        Some(process) => {
            let kept = archived_process(alloc, world, lasts, process)?;
            Ok(Some(ArchiveNode::Process(kept)))
        }
        None => Ok(None),
    }
}

/// What is kept of a node of this kind, if it is there.
fn archived_kind(
    alloc: Global,
    world: &World,
    lasts: &[u32],
    id: u32,
    kind: &NodeKind,
) -> Result<Option<ArchiveNode>, AllocError>
    requires { AreLastGivers recorded_giver world.now.world lasts.now }
    ensures { IfOk result (λ node. node ≡ archived_kind world.now.world id kind.now) }
{
    match kind {
        NodeKind::Data(value) => {
            let kept = value.copy()?;
            Ok(Some(ArchiveNode::Data(kept)))
        }
        NodeKind::Calculation => archived_process_of(alloc, world, lasts, id),
        NodeKind::Workflow => archived_process_of(alloc, world, lasts, id),
    }
}

/// The node with this number, if there is one.
fn node_of(nodes: &[NodeKind], id: u32) -> Option<&NodeKind>
    ensures { option_copied result ≡ node_of nodes.now id }
{
    if id == 0 {
        return None;
    }
    nodes.get(id as usize - 1)
}

/// What is kept of the node with this number, if there is one.
fn archived_node(
    alloc: Global,
    world: &World,
    lasts: &[u32],
    id: u32,
) -> Result<Option<ArchiveNode>, AllocError>
    requires { AreLastGivers recorded_giver world.now.world lasts.now }
    ensures { IfOk result (λ node. node ≡ archived_node world.now.world id) }
{
    match node_of(world.graph().nodes().as_slice(), id) {
        Some(kind) => archived_kind(alloc, world, lasts, id, kind),
        None => Ok(None),
    }
}

/// Puts what is kept of a node behind others, where the node is marked.
fn put_node(
    alloc: Global,
    world: &World,
    lasts: &[u32],
    marks: &[bool],
    id: u32,
    nodes: &mut ArchiveNodes,
) -> Result<(), AllocError>
    requires { AreLastGivers recorded_giver world.now.world lasts.now }
    ensures { OnOk result (nodes.new ≡ nodes.old ++ filter_map (archived_node world.now.world) (filter (is_marked marks.now) (id ∷ []))) }
{
    if !is_marked(marks, id) {
        return Ok(());
    }
    let found = archived_node(alloc, world, lasts, id)?;
    match found {
        Some(node) => {
            nodes.push(node)?;
            Ok(())
        }
        None => Ok(()),
    }
}

/// What is kept of the marked nodes, in order.
fn archived_nodes(
    alloc: Global,
    world: &World,
    lasts: &[u32],
    marks: &[bool],
) -> Result<ArchiveNodes, AllocError>
    requires lasts { AreLastGivers recorded_giver world.now.world lasts.now }
    requires few { length marks.now < 2 ^ 32 }
    ensures { IfOk result (λ nodes. nodes ≡ filter_map (archived_node world.now.world) (marked marks.now)) }
{
    let mut nodes = ArchiveNodes::new(alloc);
    for id in 0..marks.len() {
        put_node(alloc, world, lasts, marks, id as u32, &mut nodes)?;
    }
    Ok(nodes)
}

/// The library of a process.
fn library_of(world: &World, process: &ProcessRecord) -> Result<Checked, AllocError>
    requires { find_record process.now.node world.now.world.records ≡ Some process.now }
    ensures { IfOk result (λ library. library_at world.now.world.libraries process.now.library ≡ Some library) }
{
    // A reached world is consistent, so that each process has a library.
    let _ = world.graph();
    reached_worlds_are_consistent();
    match library_at(world.libraries().as_slice(), process.library) {
        Some(library) => library.clone(),
        None => unreachable!(),
    }
}

/// The archive of a root: what is kept of the marked nodes, which are those of its closure, with the links of the root and of what is
/// below it, between the numbers of the archive, and the library of the root.
pub(crate) fn archive_of(
    alloc: Global,
    world: &World,
    lasts: &[u32],
    root: &ProcessRecord,
    below: &[bool],
    marks: &[bool],
    numbers: &[u32],
) -> Result<Archive, AllocError>
    requires lasts { AreLastGivers recorded_giver world.now.world lasts.now }
    requires found { find_record root.now.node world.now.world.records ≡ Some root.now }
    requires below { AreMarks (is_at_or_below world.now.world.links root.now.node) (length world.now.world.nodes) below.now }
    requires marks { AreMarks (is_in_closure world.now.world.links root.now.node) (length world.now.world.nodes) marks.now }
    requires numbers { (n : ℕ) → slice_index numbers.now n ≡ archive_number (closure world.now.world root.now.node) n }
    ensures { IfOk result (λ a. (library : List Definition) × (library_at world.now.world.libraries root.now.library ≡ Some library)
        × (a ≡ archive_of world.now.world root.now.node library)) }
{
    // A reached world is consistent, so that it has at most 8,000,000 nodes, each above 0.
    let graph = world.graph();
    reached_worlds_are_consistent();
    let library = library_of(world, root)?;
    let links = archived_links(alloc, graph.links().as_slice(), below, numbers)?;
    let nodes = archived_nodes(alloc, world, lasts, marks)?;
    Ok(Archive {
        library,
        links,
        nodes,
    })
}
