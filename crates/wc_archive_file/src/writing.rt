//! Archives as JSON.

ghost use Rattle.std.specs.Prelude.{◌≡◌, IfOk, OnOk};
ghost use Rattle.serde_json.specs.Data.{no_members, put, string};
ghost use Rattle.serde_json.specs.View.{view, items_view, members_view};
ghost use Rattle.wc_json.specs.Writing.{elements_by};
ghost use Rattle.wc_archive_file.specs.Archives.{archive_data, data_object, link_data, node_data, process_object, state_data, value_data, with_code};

use crate::archive::{Archive, ArchiveLinks, ArchiveNode, ArchiveNodes, ArchiveProcess};
use serde_json::{Map, Value as Json};
use std::alloc::{AllocError, Global};
use wc_graph::Link;
use wc_report::{link_type_name, process_kind_name, state_text};
use wc_value::{ProcessState, Value, encode};

/// A string.
fn string_json(alloc: Global, text: &str) -> Result<Json, AllocError>
    ensures { IfOk result (λ json. view json ≡ string text.now) }
{
    Ok(Json::String(String::from_str(alloc, text)?))
}

/// A link.
fn link_json(alloc: Global, link: &Link) -> Result<Json, AllocError>
    ensures { IfOk result (λ json. view json ≡ link_data link.now) }
{
    let mut parts = Vec::new(alloc);
    parts.push(Json::from(link.source))?;
    parts.push(Json::from(link.target))?;
    parts.push(string_json(alloc, link_type_name(link.link))?)?;
    parts.push(string_json(alloc, link.label.as_str())?)?;
    Ok(Json::Array(parts))
}

/// The hexadecimal digits of the canonical bytes of a value.
fn value_json(alloc: Global, value: &Value) -> Result<Json, AllocError>
    ensures { IfOk result (λ json. view json ≡ value_data value.now) }
{
    let bytes = encode(alloc, value)?;
    Ok(Json::String(hex::encode(alloc, bytes.bytes())?))
}

/// The text of a state.
fn state_json(alloc: Global, state: ProcessState) -> Result<Json, AllocError>
    ensures { IfOk result (λ json. view json ≡ state_data state) }
{
    let text = state_text(alloc, state)?;
    string_json(alloc, text.as_str())
}

/// Puts a member.
fn put_member(
    alloc: Global,
    members: &mut Map<String, Json>,
    key: &str,
    json: Json,
) -> Result<(), AllocError>
    ensures { OnOk result (members_view members.new.entries ≡ put key.now (view json) (members_view members.old.entries)) }
{
    let name = String::from_str(alloc, key)?;
    drop(members.insert(name, json)?);
    Ok(())
}

/// A node of data.
fn data_json(alloc: Global, value: &Value) -> Result<Map<String, Json>, AllocError>
    ensures { IfOk result (λ members. members_view members.entries ≡ data_object value.now) }
{
    let mut members = Map::new(alloc);
    put_member(alloc, &mut members, "kind", string_json(alloc, "data")?)?;
    put_member(alloc, &mut members, "value", value_json(alloc, value)?)?;
    Ok(members)
}

/// The code of a process, where it has one.
fn code_json(alloc: Global, code: Option<i64>) -> Result<Map<String, Json>, AllocError>
    ensures { IfOk result (λ members. members_view members.entries ≡ with_code code no_members) }
{
    let mut members = Map::new(alloc);
    if let Some(code) = code {
        put_member(alloc, &mut members, "code", Json::from(code))?;
    }
    Ok(members)
}

/// A process.
fn process_json(alloc: Global, process: &ArchiveProcess) -> Result<Map<String, Json>, AllocError>
    ensures { IfOk result (λ members. members_view members.entries ≡ process_object process.now) }
{
    let mut members = code_json(alloc, process.code)?;
    let definition = string_json(alloc, process.definition.as_str())?;
    put_member(alloc, &mut members, "definition", definition)?;
    put_member(alloc, &mut members, "depth", Json::from(process.depth))?;
    put_member(alloc, &mut members, "fuel", Json::from(process.fuel))?;
    let kind = string_json(alloc, process_kind_name(process.kind))?;
    put_member(alloc, &mut members, "kind", kind)?;
    let label = string_json(alloc, process.label.as_str())?;
    put_member(alloc, &mut members, "label", label)?;
    put_member(
        alloc,
        &mut members,
        "state",
        state_json(alloc, process.state)?,
    )?;
    Ok(members)
}

/// A node.
fn node_json(alloc: Global, node: &ArchiveNode) -> Result<Json, AllocError>
    ensures { IfOk result (λ json. view json ≡ node_data node.now) }
{
    match node {
        ArchiveNode::Data(value) => Ok(Json::Object(data_json(alloc, value)?)),
        ArchiveNode::Process(process) => Ok(Json::Object(process_json(alloc, process)?)),
    }
}

/// Links, in their order.
fn links_json(alloc: Global, links: &ArchiveLinks) -> Result<Vec<Json>, AllocError>
    ensures { IfOk result (λ items. items_view items.items ≡ elements_by link_data links.now) }
{
    let mut items = Vec::new(alloc);
    for link in links.as_slice() {
        items.push(link_json(alloc, link)?)?;
    }
    Ok(items)
}

/// Nodes, in their order.
fn nodes_json(alloc: Global, nodes: &ArchiveNodes) -> Result<Vec<Json>, AllocError>
    ensures { IfOk result (λ items. items_view items.items ≡ elements_by node_data nodes.now) }
{
    let mut items = Vec::new(alloc);
    for node in nodes.as_slice() {
        items.push(node_json(alloc, node)?)?;
    }
    Ok(items)
}

/// An archive.
pub(crate) fn archive_json(alloc: Global, archive: &Archive) -> Result<Json, AllocError>
    ensures { IfOk result (λ json. view json ≡ archive_data archive.now) }
{
    let mut members = Map::new(alloc);
    put_member(alloc, &mut members, "archive", Json::from(1u32))?;
    let text = archive.library.text(alloc)?;
    put_member(
        alloc,
        &mut members,
        "library",
        string_json(alloc, text.as_str())?,
    )?;
    let links = Json::Array(links_json(alloc, &archive.links)?);
    put_member(alloc, &mut members, "links", links)?;
    let nodes = Json::Array(nodes_json(alloc, &archive.nodes)?);
    put_member(alloc, &mut members, "nodes", nodes)?;
    Ok(Json::Object(members))
}
