//! Whether a checkpoint fits a world.

ghost use Rattle.std.specs.Prelude.{◌≡◌, ◌&&◌, not, IfOk, slice_get, option_map, List};
ghost use Rattle.std.specs.Option.{option_copied};
ghost use Rattle.std.specs.List.{list_all};
ghost use Rattle.wc_syntax.specs.Bare.{bare_definition};
ghost use Rattle.wc_graph.specs.Rules.{node_of};
ghost use Rattle.wc_fits.specs.World.{made_of};
ghost use Rattle.wc_fits.specs.Records.{has_called};
ghost use Rattle.wc_fits.specs.Fits.{on_place, frame_fits, is_within, outline_lengths, is_process, held_fits, is_data_node, checkpoint_fits, standing_fits, set_fits};

use crate::blocks::lengths_of;
use crate::conditions::{fails_fit, part_fits};
use crate::libraries::{Libraries, definition_in};
use crate::processes::has_called;
use std::alloc::{AllocError, Global};
use wc_graph::{Graph, NodeKind};
use wc_records::{Records, SetProcess, has_ended};
use wc_state::{
    Awaits, Checkpoint, Context, CtxRef, Frame, Frames, Ids, Outs, Part, ProcessRecord,
};
use wc_syntax::Definition;
use wc_value::is_within_depth;

/// Whether a frame is in a block, at one of its instructions or at its end.
fn frame_fits(lengths: &[u32], frame: &Frame) -> bool
    ensures { result ≡ frame_fits lengths.now frame.now }
{
    match lengths.get(frame.block as usize) {
        None => false,
        Some(length) => frame.next <= *length,
    }
}

fn frames_fit(lengths: &[u32], frames: &Frames) -> bool
    ensures { result ≡ list_all (frame_fits lengths.now) frames.now }
{
    for frame in frames.as_slice() {
        if !frame_fits(lengths, frame) {
            return false;
        }
    }
    true
}

/// How many instructions each block of a definition has, where there is a definition.
fn outline_lengths(alloc: Global, definition: Option<&Definition>) -> Result<Vec<u32>, AllocError>
    ensures { IfOk result (λ lengths. lengths.items ≡ outline_lengths (option_map bare_definition (option_copied definition.entry))) }
{
    match definition {
        None => Ok(Vec::new(alloc)),
        Some(definition) => lengths_of(alloc, definition),
    }
}

/// Whether each awaited process was called.
fn awaits_fit(graph: &Graph, node: u32, awaiting: &Awaits) -> bool
    ensures { result ≡ list_all (λ a. has_called graph.now.links node a.pid) awaiting.now }
{
    for awaited in awaiting.as_slice() {
        if !has_called(graph, node, awaited.pid) {
            return false;
        }
    }
    true
}

/// Whether there is a process with this number.
fn is_process(records: &Records, pid: u32) -> bool
    ensures { result ≡ is_process records.now.0 pid }
{
    records.find(pid).is_some()
}

fn are_processes(records: &Records, pids: &Ids) -> bool
    ensures { result ≡ list_all (is_process records.now.0) pids.now }
{
    for pid in pids.as_slice() {
        if !is_process(records, *pid) {
            return false;
        }
    }
    true
}

/// Whether a value is at most 32 deep, and the processes are there.
fn held_fits(records: &Records, held: &CtxRef) -> bool
    ensures { result ≡ held_fits records.now.0 held.now }
{
    match held {
        CtxRef::Plain(value) => is_within_depth(value, 32),
        CtxRef::One(pid) => is_process(records, *pid),
        CtxRef::Many(pids) => are_processes(records, pids),
    }
}

/// Whether what a key at a place holds fits; there is nothing wrong where there is no key.
fn place_fits(records: &Records, ctx: &Context, at: usize) -> bool
    ensures { result ≡ on_place (λ e. held_fits records.now.0 e.1) (slice_get ctx.now at) }
{
    match ctx.get(at) {
        None => true,
        Some((_, held)) => held_fits(records, held),
    }
}

fn context_fits(records: &Records, ctx: &Context) -> bool
    ensures { result ≡ list_all (λ e. held_fits records.now.0 e.1) ctx.now }
{
    for at in 0..ctx.len() {
        if !place_fits(records, ctx, at) {
            return false;
        }
    }
    true
}

/// Whether there is a data node with this number.
fn is_data(nodes: &[NodeKind], id: u32) -> bool
    ensures { result ≡ is_data_node (node_of nodes.now id) }
{
    if id == 0 {
        return false;
    }
    matches!(nodes.get(id as usize - 1), Some(NodeKind::Data(_)))
}

fn outputs_fit(nodes: &[NodeKind], outputs: &Outs) -> bool
    ensures { result ≡ list_all (λ o. is_data_node (node_of nodes.now o.1)) outputs.now }
{
    for (_, id) in outputs.as_slice() {
        if !is_data(nodes, *id) {
            return false;
        }
    }
    true
}

/// Whether a checkpoint fits its process.
fn checkpoint_fits(
    alloc: Global,
    graph: &Graph,
    records: &Records,
    libraries: &Libraries,
    record: &ProcessRecord,
    checkpoint: &Checkpoint,
) -> Result<bool, AllocError>
    ensures { IfOk result (λ fits. fits ≡ checkpoint_fits (made_of graph.now records.now.0 libraries.now.0) «record».now checkpoint.now) }
{
    let libraries = libraries.as_slice();
    let definition = definition_in(libraries, record.library, &record.definition);
    let lengths = outline_lengths(alloc, definition)?;
    Ok(
        !checkpoint.frames.is_empty()
            && frames_fit(lengths.as_slice(), &checkpoint.frames)
            && awaits_fit(graph, record.node, &checkpoint.awaiting)
            && context_fits(records, &checkpoint.ctx)
            && outputs_fit(graph.nodes().as_slice(), &checkpoint.outputs),
    )
}

/// Whether a part fits its process, where it is a checkpoint.
fn standing_fits(
    alloc: Global,
    graph: &Graph,
    records: &Records,
    libraries: &Libraries,
    record: &ProcessRecord,
    part: &Part,
) -> Result<bool, AllocError>
    ensures { IfOk result (λ fits. fits ≡ standing_fits (made_of graph.now records.now.0 libraries.now.0) «record».now part.now) }
{
    match part {
        Part::Chain(checkpoint) => {
            checkpoint_fits(alloc, graph, records, libraries, record, checkpoint)
        }
        _ => Ok(true),
    }
}

/// Whether a process hasn't ended and is set to what fits its kind, in a world of this graph, these records and these
/// libraries.
pub fn set_fits(
    alloc: Global,
    graph: &Graph,
    records: &Records,
    libraries: &Libraries,
    set: &SetProcess,
    record: &ProcessRecord,
) -> Result<bool, AllocError>
    ensures { IfOk result (λ fits. fits ≡ set_fits (made_of graph.now records.now.0 libraries.now.0) set.now «record».now) }
{
    if has_ended(record.state)
        || !part_fits(record.kind, set.state, &set.part)
        || !fails_fit(&set.part, set.paused)
    {
        return Ok(false);
    }
    standing_fits(alloc, graph, records, libraries, record, &set.part)
}
