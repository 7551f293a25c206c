//! An archive as the text of a file, and the archive of a file's bytes.

ghost use Rattle.std.specs.Prelude.{◌≡◌, [], ◌∷◌, ◌++◌, All, IfOk, codes, option_map, string_bytes, true};
ghost use Rattle.std.specs.Str.{is_utf8};
ghost use Rattle.wc_json.specs.Documents.{document_of};
ghost use Rattle.wc_json.specs.Writing.{elements_by};
ghost use Rattle.serde_json.specs.View.{view, items_view, members_view};
ghost use Rattle.wc_archive_file.specs.Archives.{archive_text, links_data, node_data, nodes_data, number_data, AreNodes, IsArchive, IsLink, IsWritable};
ghost use Rattle.wc_archive_file.specs.Reads.{Completes, Finds, FindsForm, form_data, form_object, IsAny, IsForm, Reads, ReadsNext};

use crate::archive::{Archive, ArchiveLinks, ArchiveNodes};
use crate::library::library_of;
use crate::members::{Members, is_done, next_data, next_text, next_u32};
use crate::misread::Misread;
use crate::nodes::{links_of, nodes_of};
use crate::writing::archive_json;
use serde_json::{Category, Value as Json};
use std::alloc::{AllocError, Global};
use wc_value::Text;

/// The most nodes of an archive.
const MOST_NODES: usize = 8_000_000;

/// An archive whose library is a text.
#[derive(Drop)]
struct Form {
    /// The text of the library.
    library: Text,
    /// The links.
    links: ArchiveLinks,
    /// The nodes.
    nodes: ArchiveNodes,
}

/// An array of links.
fn links_in(alloc: Global, json: &Json) -> Result<ArchiveLinks, Misread>
    ensures { Reads links_data (All IsLink) (view json.now) result }
{
    match json {
        Json::Array(items) => links_of(alloc, items),
        Json::Null | Json::Bool(_) | Json::Number(_) | Json::String(_) | Json::Object(_) => {
            Err(Misread::Shape)
        }
    }
}

/// The links of the next member.
fn next_links(alloc: Global, members: &mut Members<'_>) -> Result<ArchiveLinks, Misread>
    ensures { ReadsNext links_data (All IsLink) (codes "links") (members_view members.old) result (members_view members.new) }
{
    match next_data(members, "links") {
        Some(json) => links_in(alloc, json),
        None => Err(Misread::Shape),
    }
}

/// Nodes, of which there are at most 8,000,000.
fn few_nodes(alloc: Global, items: &Vec<Json>) -> Result<ArchiveNodes, Misread>
    ensures { Reads (elements_by node_data) AreNodes (items_view items.now.items) result }
{
    if items.len() <= MOST_NODES {
        nodes_of(alloc, items)
    } else {
        Err(Misread::Shape)
    }
}

/// An array of nodes.
fn nodes_in(alloc: Global, json: &Json) -> Result<ArchiveNodes, Misread>
    ensures { Reads nodes_data AreNodes (view json.now) result }
{
    match json {
        Json::Array(items) => few_nodes(alloc, items),
        Json::Null | Json::Bool(_) | Json::Number(_) | Json::String(_) | Json::Object(_) => {
            Err(Misread::Shape)
        }
    }
}

/// The nodes of the next member.
fn next_nodes(alloc: Global, members: &mut Members<'_>) -> Result<ArchiveNodes, Misread>
    ensures { ReadsNext nodes_data AreNodes (codes "nodes") (members_view members.old) result (members_view members.new) }
{
    match next_data(members, "nodes") {
        Some(json) => nodes_in(alloc, json),
        None => Err(Misread::Shape),
    }
}

/// Passes the next member, where it says that this is an archive of the first form.
fn next_version(members: &mut Members<'_>) -> Result<(), Misread>
    ensures { ReadsNext (λ u. number_data 1) IsAny (codes "archive") (members_view members.old) result (members_view members.new) }
{
    let version = next_u32(members, "archive")?;
    if version == 1 {
        Ok(())
    } else {
        Err(Misread::Shape)
    }
}

/// An archive that is an object.
fn form_in(alloc: Global, mut members: Members<'_>) -> Result<Form, Misread>
    ensures { Reads form_object IsForm (members_view members.entry) result }
{
    next_version(&mut members)?;
    let library = next_text(alloc, &mut members, "library")?;
    let links = next_links(alloc, &mut members)?;
    let nodes = next_nodes(alloc, &mut members)?;
    if is_done(&mut members) {
        Ok(Form {
            library,
            links,
            nodes,
        })
    } else {
        Err(Misread::Shape)
    }
}

/// An archive whose library is a text.
fn form_of(alloc: Global, json: &Json) -> Result<Form, Misread>
    ensures { Reads form_data IsForm (view json.now) result }
{
    match json {
        Json::Object(members) => form_in(alloc, members.iter()),
        Json::Null | Json::Bool(_) | Json::Number(_) | Json::String(_) | Json::Array(_) => {
            Err(Misread::Shape)
        }
    }
}

/// The JSON that the bytes spell.
fn json_of(alloc: Global, bytes: &[u8]) -> Result<Option<Json>, AllocError>
    ensures { IfOk result (λ found. option_map view found ≡ document_of bytes.now) }
{
    match Json::from_slice(alloc, bytes) {
        Ok(json) => Ok(Some(json)),
        Err(error) => match error.classify() {
            Category::Memory => Err(AllocError),
            _ => Ok(None),
        },
    }
}

/// What the bytes say, with the library as a text.
fn form_in_bytes(alloc: Global, bytes: &[u8]) -> Result<Option<Form>, AllocError>
    ensures { IfOk result (λ found. FindsForm bytes.now found) }
{
    let Some(json) = json_of(alloc, bytes)? else {
        return Ok(None);
    };
    match form_of(alloc, &json) {
        Ok(form) => Ok(Some(form)),
        Err(Misread::OutOfMemory) => Err(AllocError),
        Err(Misread::Shape) => Ok(None),
    }
}

/// The archive of what the bytes say, where the text prints a library.
fn archive_of(alloc: Global, form: Form) -> Result<Option<Archive>, AllocError>
    ensures { IfOk result (λ found. Completes form found) }
{
    match library_of(alloc, &form.library)? {
        Some(library) => Ok(Some(Archive {
            library,
            links: form.links,
            nodes: form.nodes,
        })),
        None => Ok(None),
    }
}

/// The archive whose JSON the bytes are, in any layout, if they are one's.
pub fn read_archive(alloc: Global, bytes: &[u8]) -> Result<Option<Archive>, AllocError>
    ensures { IfOk result (λ found. Finds bytes.now found) }
{
    match form_in_bytes(alloc, bytes)? {
        Some(form) => archive_of(alloc, form),
        None => Ok(None),
    }
}

/// A text with a line feed behind it.
fn with_line_feed(mut text: String) -> Result<Text, AllocError>
    ensures text { IfOk result (λ fed. fed ≡ string_bytes text ++ 10 ∷ []) }
    ensures utf8 { IfOk result (λ fed. is_utf8 fed ≡ true) }
{
    text.push_str("\n")?;
    let fed = Text::of_string(text)?;
    let _ = fed.bytes();
    Ok(fed)
}

/// The text of an archive: JSON with no space, and a line feed. It is read as that archive.
pub fn archive_text(alloc: Global, archive: &Archive) -> Result<Text, AllocError>
    ensures text { IfOk result (λ text. text ≡ archive_text archive.now) }
    // What is written is read.
    ensures read { IfOk result (λ text. IsWritable archive.now → IsArchive text archive.now) }
{
    let json = archive_json(alloc, archive)?;
    let text = json.to_string(alloc)?;
    with_line_feed(text)
}
