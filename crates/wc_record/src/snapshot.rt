//! The bytes of a world's snapshot.

ghost use Rattle.std.specs.Prelude.{◌≡◌, [], ◌∷◌, ◌++◌, ◌<◌, ◌≤◌, ◌^◌, true, map, length, flat_map, All, IfOk, OnOk};
ghost use Rattle.wc_world.specs.declared.change.Change.TheVariants as change;
ghost use Rattle.wc_world.specs.Fits.{names_ascend};
ghost use Rattle.wc_world.specs.Snapshot.{number_of, library_change, process_change, node_changes, set_change, kept_change, snapshot};
ghost use Rattle.wc_world.specs.Consistent.{IsConsistent, IsShallow};
ghost use Rattle.wc_record.specs.Spelled.{change_bytes, spelled};
ghost use Rattle.wc_record.specs.Written.{IsChange, IsWritten, IsReadablePart, FailsFit};
ghost use Rattle.wc_record.specs.Snapshots.{left_behind};

use crate::put::put_count;
use crate::writing::{
    put_batches, put_data, put_kept, put_library, put_link, put_process, put_progress, put_standing,
};
use std::alloc::{AllocError, Global};
use wc_graph::{Link, NodeKind};
use wc_state::ProcessRecord;
use wc_value::Bytes;
use wc_world::{Kept, Known, World, reached_worlds_are_consistent};

/// The most changes that four bytes can count.
const MOST: usize = 0xffff_ffff;

/// The number in an option, or 0.
fn number_of(pid: Option<u32>) -> u32
    ensures { result ≡ number_of pid }
{
    match pid {
        None => 0,
        Some(pid) => pid,
    }
}

/// Puts a change for each library that a world keeps.
fn put_libraries(alloc: Global, out: &mut Bytes, libraries: &[Known]) -> Result<(), AllocError>
    requires { All (λ known. names_ascend known.1 ≡ true) libraries.now }
    ensures bytes { OnOk result (out.new ≡ out.old ++ flat_map change_bytes (map library_change libraries.now)) }
    ensures fits { OnOk result (All IsChange (map library_change libraries.now)) }
{
    for (library, names) in libraries {
        put_library(alloc, out, library, names)?;
    }
    Ok(())
}

/// Puts a process as it was made.
fn put_made(out: &mut Bytes, process: &ProcessRecord) -> Result<(), AllocError>
    ensures bytes { OnOk result (out.new ≡ out.old ++ change_bytes (process_change process.now)) }
    ensures fits { OnOk result (IsChange (process_change process.now)) }
{
    put_process(
        out,
        process.kind,
        &process.definition,
        process.library,
        process.depth,
        &process.label,
        process.caching,
    )
}

/// Puts a node, of which a process node takes the first record, and gives the records that are left.
fn put_node<'a>(
    out: &mut Bytes,
    node: &NodeKind,
    records: &'a [ProcessRecord],
) -> Result<&'a [ProcessRecord], AllocError>
    requires { IsShallow node.now }
    ensures bytes { OnOk result (out.new ≡ out.old ++ flat_map change_bytes (node_changes (node.now ∷ []) records.now)) }
    ensures fits { OnOk result (All IsChange (node_changes (node.now ∷ []) records.now)) }
    ensures left { IfOk result (λ left. left.now ≡ left_behind node.now records.now) }
{
    match node {
        NodeKind::Data(value) => {
            put_data(out, value)?;
            Ok(records)
        }
        NodeKind::Calculation | NodeKind::Workflow => match records {
            [] => Ok(records),
            [process, left @ ..] => {
                put_made(out, process)?;
                Ok(left)
            }
        },
    }
}

/// Puts the nodes in order. Each process node takes the next record.
fn put_nodes(
    out: &mut Bytes,
    nodes: &[NodeKind],
    records: &[ProcessRecord],
) -> Result<(), AllocError>
    requires { All IsShallow nodes.now }
    ensures bytes { OnOk result (out.new ≡ out.old ++ flat_map change_bytes (node_changes nodes.now records.now)) }
    ensures fits { OnOk result (All IsChange (node_changes nodes.now records.now)) }
{
    let mut left = records;
    for node in nodes {
        left = put_node(out, node, left)?;
    }
    Ok(())
}

/// Puts a change for each link.
fn put_links(out: &mut Bytes, links: &[Link]) -> Result<(), AllocError>
    ensures bytes { OnOk result (out.new ≡ out.old ++ flat_map change_bytes (map change.Link links.now)) }
    ensures fits { OnOk result (All IsChange (map change.Link links.now)) }
{
    for link in links {
        put_link(out, link)?;
    }
    Ok(())
}

/// Puts what a process is from now on.
fn put_set(out: &mut Bytes, process: &ProcessRecord) -> Result<(), AllocError>
    requires { FailsFit process.now.part }
    ensures bytes { OnOk result (out.new ≡ out.old ++ change_bytes (set_change process.now)) }
    ensures fits { OnOk result (IsReadablePart process.now.part → IsChange (set_change process.now)) }
{
    put_standing(out, process.node, process.state, process.paused)?;
    let cached_from = number_of(process.cached_from);
    put_progress(out, cached_from, process.fuel, process.code, &process.part)
}

/// Puts a change for what each process has come to.
fn put_sets(out: &mut Bytes, records: &[ProcessRecord]) -> Result<(), AllocError>
    requires fails { All (λ r. FailsFit r.part) records.now }
    requires readable { All (λ r. IsReadablePart r.part) records.now }
    ensures bytes { OnOk result (out.new ≡ out.old ++ flat_map change_bytes (map set_change records.now)) }
    ensures fits { OnOk result (All IsChange (map set_change records.now)) }
{
    for process in records {
        put_set(out, process)?;
    }
    Ok(())
}

/// Puts when a process started and ended.
fn put_times(out: &mut Bytes, process: &ProcessRecord) -> Result<(), AllocError>
    ensures bytes { OnOk result (out.new ≡ out.old ++ change_bytes (kept_change process.now)) }
    ensures fits { OnOk result (IsChange (kept_change process.now)) }
{
    let kept = Kept {
        pid: process.node,
        started: process.started,
        ended: process.ended,
    };
    put_kept(out, &kept)
}

/// Puts a change for the batches in which each process started and ended.
fn put_kepts(out: &mut Bytes, records: &[ProcessRecord]) -> Result<(), AllocError>
    ensures bytes { OnOk result (out.new ≡ out.old ++ flat_map change_bytes (map kept_change records.now)) }
    ensures fits { OnOk result (All IsChange (map kept_change records.now)) }
{
    for process in records {
        put_times(out, process)?;
    }
    Ok(())
}

/// How many changes a world's snapshot has.
fn changes_of(world: &World) -> Result<usize, AllocError>
    requires { IsConsistent world.now.world }
    ensures value { IfOk result (λ count. count ≡ length (snapshot world.now.world)) }
    ensures bound { IfOk result (λ count. count < 2 ^ 32) }
{
    let graph = world.graph();
    let count = world.libraries().len()
        + graph.nodes().len()
        + graph.links().len()
        + 2 * world.records().len()
        + 1;
    if count > MOST {
        return Err(AllocError);
    }
    Ok(count)
}

/// Puts the bytes of a world's snapshot.
fn put_snapshot(alloc: Global, out: &mut Bytes, world: &World) -> Result<(), AllocError>
    ensures spelled { OnOk result (out.new ≡ out.old ++ spelled (snapshot world.now.world)) }
    ensures written { OnOk result (IsWritten (snapshot world.now.world)) }
{
    reached_worlds_are_consistent();
    let graph = world.graph();
    let records = world.records().as_slice();
    put_count(out, changes_of(world)?)?;
    put_libraries(alloc, out, world.libraries().as_slice())?;
    put_nodes(out, graph.nodes().as_slice(), records)?;
    put_links(out, graph.links().as_slice())?;
    put_sets(out, records)?;
    put_kepts(out, records)?;
    put_batches(out, world.batches())
}

/// The bytes of a world's snapshot. The world isn't copied.
pub fn write_snapshot(alloc: Global, world: &World) -> Result<Bytes, AllocError>
    ensures spelled { IfOk result (λ bytes. bytes ≡ spelled (snapshot world.now.world)) }
    ensures written { OnOk result (IsWritten (snapshot world.now.world)) }
{
    let mut out = Bytes::new(alloc);
    put_snapshot(alloc, &mut out, world)?;
    Ok(out)
}
