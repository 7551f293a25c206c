//! Whether a change applies to the world of a draft, or else why not.

ghost use Rattle.std.specs.Prelude.{◌≡◌, ◌⊎◌, ◌&&◌, true, false, IsTrue, ◌↔◌, OnOk, IfOk, IfErr};
ghost use Rattle.std.specs.Option.{option_copied};
ghost use Rattle.wc_world.specs.declared.change.Change.TheVariants as change;
ghost use Rattle.wc_world.specs.declared.error.WorldError.TheVariants as error;
ghost use Rattle.wc_world.specs.Records.{find_record};
ghost use Rattle.wc_world.specs.Fits.{names_ascend, set_fits};
ghost use Rattle.wc_world.specs.Accepted.{Setting, HasNumber, Fits, Refuses, ended_fits};
ghost use Rattle.wc_world.specs.Called.{SetFits};
ghost use Rattle.wc_world.specs.Drafts.{drafted, FitsBy, RefusesBy, is_source_by, source_fits_by, kept_fits_by};

use crate::batches::{ended_before, ended_fits, started_after};
use crate::draft::Draft;
use crate::error::WorldError;
use crate::terms::Terms;
use std::alloc::{AllocError, Global};
use wc_graph::GraphError;
use wc_keys::{is_calculation, names_ascend, new_fits, set_fits};
use wc_records::{Kept, NewProcess, SetProcess};
use wc_state::ProcessRecord;
use wc_value::{Value, Words, is_within_depth};

/// The most nodes that a graph takes.
const MOST_NODES: usize = 8_000_000;

/// Whether there is a number for one more node.
fn has_number(draft: &Draft) -> bool
    ensures { IsTrue result ↔ HasNumber (drafted draft.now) }
{
    draft.graph.nodes().len() < MOST_NODES
}

/// Whether a data node may be made.
pub(crate) fn check_data(draft: &Draft, value: &Value) -> Result<(), WorldError>
    ensures ok { OnOk result ((s : Setting) → Fits s (drafted draft.now) (change.Data value.now)) }
    ensures number { OnOk result (HasNumber (drafted draft.now)) }
    ensures refused { IfErr result (λ e. (s : Setting) → Refuses s (drafted draft.now) (change.Data value.now) e) }
{
    if !has_number(draft) {
        return Err(WorldError::Graph(GraphError::Full));
    }
    if is_within_depth(value, 32) {
        Ok(())
    } else {
        Err(WorldError::BadRecord(draft.graph.nodes().len() as u32 + 1))
    }
}

/// Whether a process may be made.
pub(crate) fn check_process(draft: &Draft, process: &NewProcess) -> Result<(), WorldError>
    ensures ok { OnOk result ((s : Setting) → Fits s (drafted draft.now) (change.Process process.now)) }
    ensures number { OnOk result (HasNumber (drafted draft.now)) }
    ensures refused { IfErr result (λ e. (s : Setting) → Refuses s (drafted draft.now) (change.Process process.now) e) }
{
    if !has_number(draft) {
        return Err(WorldError::Graph(GraphError::Full));
    }
    if new_fits(draft.libraries.as_slice(), process) {
        Ok(())
    } else {
        Err(WorldError::BadRecord(draft.graph.nodes().len() as u32 + 1))
    }
}

/// Whether a source is a calculation that ended in a batch before the one in which the process started.
fn is_source(
    terms: &Terms,
    set: &SetProcess,
    record: &ProcessRecord,
    source: Option<&ProcessRecord>,
) -> bool
    ensures { result ≡ is_source_by terms.now set.now «record».now (option_copied source.entry) }
{
    match source {
        None => false,
        Some(source) => {
            is_calculation(source.kind)
                && ended_before(terms, source) > 0
                && ended_before(terms, source) < started_after(terms, set, record)
        }
    }
}

fn source_fits(draft: &Draft, terms: &Terms, set: &SetProcess, record: &ProcessRecord) -> bool
    ensures { result ≡ source_fits_by terms.now (drafted draft.now) set.now «record».now }
{
    if set.cached_from == 0 {
        return true;
    }
    let source = draft.records.find(set.cached_from);
    is_source(terms, set, record, source)
}

/// Whether a process is set to what fits it, with a source that fits.
fn process_fits(
    alloc: Global,
    draft: &Draft,
    terms: &Terms,
    set: &SetProcess,
    record: &ProcessRecord,
) -> Result<bool, AllocError>
    ensures { IfOk result (λ fits. fits ≡ (set_fits (drafted draft.now) set.now «record».now && source_fits_by terms.now (drafted draft.now) set.now «record».now)) }
{
    let fits = set_fits(
        alloc,
        &draft.graph,
        &draft.records,
        &draft.libraries,
        set,
        record,
    )?;
    Ok(fits && source_fits(draft, terms, set, record))
}

/// Whether a process may be set so.
pub(crate) fn check_set(
    alloc: Global,
    draft: &Draft,
    terms: &Terms,
    set: &SetProcess,
) -> Result<(), WorldError>
    ensures sets { OnOk result (SetFits (drafted draft.now) set.now) }
    ensures ok { OnOk result (FitsBy terms.now (drafted draft.now) (change.Set set.now)) }
    ensures refused { IfErr result (λ e. (e ≡ error.OutOfMemory) ⊎ RefusesBy terms.now (drafted draft.now) (change.Set set.now) e) }
{
    match draft.records.find(set.pid) {
        None => Err(WorldError::NoProcess(set.pid)),
        Some(record) => {
            if process_fits(alloc, draft, terms, set, record)? {
                Ok(())
            } else {
                Err(WorldError::BadRecord(set.pid))
            }
        }
    }
}

/// Whether a number of batches may be told.
pub(crate) fn check_count(draft: &Draft, terms: &Terms, count: u32) -> Result<(), WorldError>
    ensures ok { OnOk result (FitsBy terms.now (drafted draft.now) (change.Count count)) }
    ensures refused { IfErr result (RefusesBy terms.now (drafted draft.now) (change.Count count)) }
{
    if terms.snapshot && count <= 4_000_000_000 {
        Ok(())
    } else {
        Err(WorldError::BadRecord(0))
    }
}

fn kept_fits(terms: &Terms, kept: &Kept, record: Option<&ProcessRecord>) -> bool
    ensures { result ≡ kept_fits_by terms.now kept.now (option_copied «record».entry) }
{
    match record {
        None => false,
        Some(record) => {
            terms.snapshot
                && kept.started <= terms.count
                && kept.ended <= terms.count
                && ended_fits(kept, record)
        }
    }
}

/// Whether a process may have started and ended so.
pub(crate) fn check_kept(draft: &Draft, terms: &Terms, kept: &Kept) -> Result<(), WorldError>
    ensures ok { OnOk result (FitsBy terms.now (drafted draft.now) (change.Kept kept.now)) }
    ensures refused { IfErr result (RefusesBy terms.now (drafted draft.now) (change.Kept kept.now)) }
{
    if kept_fits(terms, kept, draft.records.find(kept.pid)) {
        Ok(())
    } else {
        Err(WorldError::BadRecord(kept.pid))
    }
}

/// Whether a library may come with these names.
pub(crate) fn check_library(names: &Words) -> Result<(), WorldError>
    ensures ok { OnOk result (names_ascend names.now ≡ true) }
    ensures refused { IfErr result (λ e. (e ≡ error.BadRecord 0) × (names_ascend names.now ≡ false)) }
{
    if names_ascend(names) {
        Ok(())
    } else {
        Err(WorldError::BadRecord(0))
    }
}
