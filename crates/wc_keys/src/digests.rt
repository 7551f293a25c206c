//! The digests of the keys of calculations that have finished. Only where all are made at once they take memory.

ghost use Rattle.std.specs.Prelude.{◌≡◌, ◌++◌, None, if◌then◌else◌, option_map, option_to_list, IfOk, OnOk};
ghost use Rattle.std.specs.Option.{option_copied};
ghost use Rattle.sha2.specs.Sha256.{sha256};
ghost use Rattle.wc_value.specs.Spelling.{spelling};
ghost use Rattle.wc_keys.specs.SealKeys.{key_value};
ghost use Rattle.wc_keys.specs.Beginnings.{text_at, AreBegun, IsDigestOf};
ghost use Rattle.wc_keys.specs.Keys.{has_finished, is_finished_calculation, digest_by, digest_from, entry_of, entries_in};
ghost use Rattle.wc_keys.specs.Ports.{plain_inputs};

use crate::beginnings::{Beginnings, begin};
use crate::inputs::{count_inputs, put_inputs};
use crate::links::{links_of, put_links};
use crate::{Sealed, finish, key_hasher, put_count};
use sha2::Sha256;
use std::alloc::{AllocError, Global};
use std::collections::BTreeMap;
use wc_fits::{Known, is_calculation, library_at};
use wc_graph::Graph;
use wc_records::Records;
use wc_state::ProcessRecord;
use wc_value::{ProcessState, Text};

/// Whether a state is that of a process that has finished.
fn has_finished(state: ProcessState) -> bool
    ensures { result ≡ has_finished state }
{
    matches!(state, ProcessState::Finished(_))
}

/// Whether a process has finished as a calculation.
fn is_finished_calculation(record: &ProcessRecord) -> bool
    ensures { result ≡ is_finished_calculation «record».now }
{
    is_calculation(record.kind) && has_finished(record.state)
}

/// The printed text of the definition with this name in the library with this number.
fn text_in<'a>(libraries: &'a [Known], number: u32, name: &Text) -> Option<&'a Text>
    ensures { option_copied result ≡ text_at libraries.now number name.now }
{
    let checked = library_at(libraries, number)?;
    checked.text_of(name)
}

/// The digest of a key, by a hasher of its beginning and the inputs of the process.
fn key_digest(graph: &Graph, mut hasher: Sha256, pid: u32) -> [u8; 32]
    ensures { IsDigestOf (plain_inputs graph.now.nodes pid graph.now.links) hasher result }
{
    // A process has fewer inputs than there may be links.
    let _few = graph.links().len();
    put_count(&mut hasher, count_inputs(graph, pid));
    put_inputs(&mut hasher, graph, pid);
    finish(hasher)
}

/// The digest of a key, where there is a text of the definition.
fn digest_with(graph: &Graph, text: Option<&Text>, pid: u32) -> Option<[u8; 32]>
    ensures { result ≡ option_map (λ t. sha256 (spelling (key_value t (plain_inputs graph.now.nodes pid graph.now.links)))) (option_copied text.entry) }
{
    match text {
        Some(text) => Some(key_digest(graph, key_hasher(text), pid)),
        None => None,
    }
}

/// The text of the definition of a process, where it has finished as a calculation.
fn text_of<'a>(libraries: &'a [Known], record: &ProcessRecord) -> Option<&'a Text>
    ensures { option_copied result ≡ (if is_finished_calculation «record».now then text_at libraries.now «record».now.library «record».now.definition else None) }
{
    if is_finished_calculation(record) {
        text_in(libraries, record.library, &record.definition)
    } else {
        None
    }
}

/// The digest of the key of a process, where it has finished as a calculation.
fn digest_of(graph: &Graph, libraries: &[Known], record: &ProcessRecord) -> Option<[u8; 32]>
    ensures { result ≡ digest_by graph.now.nodes graph.now.links libraries.now «record».now }
{
    digest_with(graph, text_of(libraries, record), record.node)
}

/// The digest of a key, by a hasher of its beginning and the inputs of the process, which are put in order once.
fn ordered_digest(
    alloc: Global,
    graph: &Graph,
    mut hasher: Sha256,
    pid: u32,
) -> Result<[u8; 32], AllocError>
    ensures { IfOk result (λ digest. IsDigestOf (plain_inputs graph.now.nodes pid graph.now.links) hasher digest) }
{
    // A process has fewer inputs than there may be links.
    let _few = graph.links().len();
    let inputs = links_of(alloc, graph, pid)?;
    put_count(&mut hasher, inputs.len());
    put_links(&mut hasher, graph.nodes().as_slice(), &inputs);
    Ok(finish(hasher))
}

/// The same, where the inputs are put in order if there may be very many.
fn quick_digest(
    alloc: Global,
    graph: &Graph,
    hasher: Sha256,
    pid: u32,
) -> Result<[u8; 32], AllocError>
    ensures { IfOk result (λ digest. IsDigestOf (plain_inputs graph.now.nodes pid graph.now.links) hasher digest) }
{
    if graph.has_many_into(pid) {
        ordered_digest(alloc, graph, hasher, pid)
    } else {
        Ok(key_digest(graph, hasher, pid))
    }
}

/// The digest of the key of a process, where it has finished as a calculation and hashers of the beginnings of keys are kept.
fn kept_digest(
    alloc: Global,
    graph: &Graph,
    libraries: &[Known],
    begun: &mut Beginnings,
    record: &ProcessRecord,
) -> Result<Option<[u8; 32]>, AllocError>
    requires { AreBegun libraries.now begun.old }
    ensures digest { IfOk result (λ digest. digest ≡ digest_by graph.now.nodes graph.now.links libraries.now «record».now) }
    ensures kept { OnOk result (AreBegun libraries.now begun.new) }
{
    let Some(text) = text_of(libraries, record) else {
        return Ok(None);
    };
    let hasher = begin(alloc, begun, record, text)?;
    Ok(Some(quick_digest(alloc, graph, hasher, record.node)?))
}

/// The entry of a process with a digest, where it has one.
fn entry_with(pid: u32, digest: Option<[u8; 32]>) -> Option<Sealed>
    ensures { result ≡ entry_of pid digest }
{
    match digest {
        Some(digest) => Some(Sealed { digest, pid }),
        None => None,
    }
}

/// The entry of a process, where it has finished as a calculation.
pub(crate) fn entry_of(
    graph: &Graph,
    libraries: &[Known],
    records: &Records,
    pid: u32,
) -> Option<Sealed>
    ensures { result ≡ entry_of pid (digest_from graph.now.nodes graph.now.links libraries.now records.now.0 pid) }
{
    match records.find(pid) {
        Some(record) => entry_with(pid, digest_of(graph, libraries, record)),
        None => None,
    }
}

/// Puts an entry at the end, where there is one.
fn put_entry(entries: &mut Vec<Sealed>, entry: Option<Sealed>) -> Result<(), AllocError>
    ensures { OnOk result (entries.new.items ≡ entries.old.items ++ option_to_list entry) }
{
    if let Some(entry) = entry {
        entries.push(entry)?;
    }
    Ok(())
}

/// The entries of all calculations that have finished, in order of their numbers.
#[tactic(auto, using(crate::proofs::HashersKept::none_begun))]
pub(crate) fn entries_in(
    alloc: Global,
    graph: &Graph,
    libraries: &[Known],
    records: &Records,
) -> Result<Vec<Sealed>, AllocError>
    ensures { IfOk result (λ entries. entries.items ≡ entries_in graph.now.nodes graph.now.links libraries.now records.now.0) }
{
    let mut entries = Vec::new(alloc);
    let mut begun = BTreeMap::new(alloc);
    for record in records.as_slice() {
        let digest = kept_digest(alloc, graph, libraries, &mut begun, record)?;
        put_entry(&mut entries, entry_with(record.node, digest))?;
    }
    Ok(entries)
}
