//! The nodes and links of an archive.

ghost use Rattle.std.specs.Prelude.{[], ◌∷◌};
ghost use Rattle.serde_json.specs.View.{view, items_of, items_view, members_view};
ghost use Rattle.wc_archive_file.specs.Archives.{data_object, link_data, link_items, node_data, node_object, process_object, IsLink, IsNode, IsProcess, IsValue};
ghost use Rattle.wc_archive_file.specs.Reads.{IsCoded, IsUncoded, Reads, ReadsAll};

use crate::archive::{ArchiveLinks, ArchiveNode, ArchiveNodes, ArchiveProcess};
use crate::members::{
    Members, is_done, next_code, next_kind, next_state, next_text, next_u32, next_u64, next_value,
    next_word,
};
use crate::misread::Misread;
use crate::numbers::u32_of;
use crate::parts::{link_type_of, text_of};
use serde_json::{Map, Value as Json};
use std::alloc::Global;
use wc_graph::Link;
use wc_state::ProcessKind;
use wc_value::Value;

/// A link of its four parts.
fn link_by(
    alloc: Global,
    source: &Json,
    target: &Json,
    link: &Json,
    label: &Json,
) -> Result<Link, Misread>
    ensures { Reads link_items IsLink (items_of (view source.now ∷ view target.now ∷ view link.now ∷ view label.now ∷ [])) result }
{
    let source = u32_of(source)?;
    let target = u32_of(target)?;
    let link = link_type_of(link)?;
    let label = text_of(alloc, label)?;
    Ok(Link {
        source,
        target,
        link,
        label,
    })
}

/// The parts of a link.
fn link_in(alloc: Global, parts: &[Json]) -> Result<Link, Misread>
    ensures { Reads link_items IsLink (items_view parts.now) result }
{
    if parts.len() == 4 {
        link_by(alloc, &parts[0], &parts[1], &parts[2], &parts[3])
    } else {
        Err(Misread::Shape)
    }
}

/// A link.
fn link_of(alloc: Global, json: &Json) -> Result<Link, Misread>
    ensures { Reads link_data IsLink (view json.now) result }
{
    match json {
        Json::Array(parts) => link_in(alloc, parts.as_slice()),
        Json::Null | Json::Bool(_) | Json::Number(_) | Json::String(_) | Json::Object(_) => {
            Err(Misread::Shape)
        }
    }
}

/// Links, in their order.
pub(crate) fn links_of(alloc: Global, items: &Vec<Json>) -> Result<ArchiveLinks, Misread>
    ensures { ReadsAll link_data IsLink (items_view items.now.items) result }
{
    let mut links = ArchiveLinks::new(alloc);
    for item in items.iter() {
        links.push(link_of(alloc, item)?)?;
    }
    Ok(links)
}

/// The value of a node of data.
fn data_in(alloc: Global, mut members: Members<'_>) -> Result<Value, Misread>
    ensures { Reads data_object IsValue (members_view members.entry) result }
{
    next_word(&mut members, "kind", "data")?;
    let value = next_value(alloc, &mut members, "value")?;
    if is_done(&mut members) {
        Ok(value)
    } else {
        Err(Misread::Shape)
    }
}

/// A process that has no code.
fn uncoded_in(alloc: Global, members: &mut Members<'_>) -> Result<ArchiveProcess, Misread>
    ensures { Reads process_object IsUncoded (members_view members.old) result }
{
    let definition = next_text(alloc, members, "definition")?;
    let depth = next_u32(members, "depth")?;
    let fuel = next_u64(members, "fuel")?;
    let kind = next_kind(members, "kind")?;
    let label = next_text(alloc, members, "label")?;
    let state = next_state(alloc, members, "state")?;
    if is_done(members) {
        Ok(ArchiveProcess {
            kind,
            definition,
            depth,
            label,
            state,
            fuel,
            code: None,
        })
    } else {
        Err(Misread::Shape)
    }
}

/// A process that has a code, which is a job.
fn coded_in(alloc: Global, mut members: Members<'_>) -> Result<ArchiveProcess, Misread>
    ensures { Reads process_object IsCoded (members_view members.entry) result }
{
    let code = next_code(&mut members, "code")?;
    let process = uncoded_in(alloc, &mut members)?;
    if process.kind == ProcessKind::Job {
        Ok(ArchiveProcess {
            code: Some(code),
            ..process
        })
    } else {
        Err(Misread::Shape)
    }
}

/// A process.
fn process_in(alloc: Global, members: &Map<String, Json>) -> Result<ArchiveProcess, Misread>
    ensures { Reads process_object IsProcess (members_view members.now.entries) result }
{
    match coded_in(alloc, members.iter()) {
        Ok(process) => Ok(process),
        Err(Misread::OutOfMemory) => Err(Misread::OutOfMemory),
        Err(Misread::Shape) => {
            let mut all = members.iter();
            uncoded_in(alloc, &mut all)
        }
    }
}

/// A node that is an object.
fn node_in(alloc: Global, members: &Map<String, Json>) -> Result<ArchiveNode, Misread>
    ensures { Reads node_object IsNode (members_view members.now.entries) result }
{
    match data_in(alloc, members.iter()) {
        Ok(value) => Ok(ArchiveNode::Data(value)),
        Err(Misread::OutOfMemory) => Err(Misread::OutOfMemory),
        Err(Misread::Shape) => Ok(ArchiveNode::Process(process_in(alloc, members)?)),
    }
}

/// A node.
fn node_of(alloc: Global, json: &Json) -> Result<ArchiveNode, Misread>
    ensures { Reads node_data IsNode (view json.now) result }
{
    match json {
        Json::Object(members) => node_in(alloc, members),
        Json::Null | Json::Bool(_) | Json::Number(_) | Json::String(_) | Json::Array(_) => {
            Err(Misread::Shape)
        }
    }
}

/// Nodes, in their order.
pub(crate) fn nodes_of(alloc: Global, items: &Vec<Json>) -> Result<ArchiveNodes, Misread>
    ensures { ReadsAll node_data IsNode (items_view items.now.items) result }
{
    let mut nodes = ArchiveNodes::new(alloc);
    for item in items.iter() {
        nodes.push(node_of(alloc, item)?)?;
    }
    Ok(nodes)
}
