//! The export of a root as the text of an archive.

ghost use Rattle.std.specs.Prelude.{◌≡◌, ◌≢◌, ◌⊎◌, ℕ, ◌+◌, ◌&&◌, not, List, Some, None, length, slice_index, IfOk, IfErr, IsSome, MatchOption};
ghost use Rattle.wc_syntax.specs.declared.definition.Definition.{Definition};
ghost use Rattle.wc_state.specs.declared.record.ProcessRecord.{ProcessRecord};
ghost use Rattle.wc_world.specs.Records.{find_record, has_ended, library_at};
ghost use Rattle.wc_verify.specs.Faults.{IsLeastAmong};
ghost use Rattle.wc_archive_file.specs.Archives.{archive_text};
ghost use Rattle.wc_archive_file.specs.declared.archive.Archive.{Archive};
ghost use Rattle.wc_archive_file.specs.declared.error.ArchiveError.{ArchiveError};
ghost use Rattle.wc_archive_file.specs.declared.error.ArchiveError.TheVariants as error;
ghost use Rattle.wc_archive.specs.Closure.{archive_number, archive_of, closure, is_at_or_below, is_in_closure};
ghost use Rattle.wc_archive.specs.Exports.{AllHaveEnded, Exports, IsLowestLive, RefusesExport};
ghost use Rattle.wc_archive.specs.Marks.{AreMarks, is_marked};

use crate::archived::archive_of;
use crate::marks::{
    called_below, copied, is_marked, mark, mark_each, mark_links, number_at, numbers_of, unmarked,
};
use std::alloc::{AllocError, Global};
use wc_archive_file::{Archive, ArchiveError, archive_text};
use wc_state::ProcessRecord;
use wc_value::Text;
use wc_verify::{find_disagreement_among, last_recorded_givers};
use wc_world::{World, has_ended, reached_worlds_are_consistent};

/// The process with this number, where it is a root.
fn root_of(world: &World, pid: u32) -> Result<&ProcessRecord, ArchiveError>
    ensures found { IfOk result (λ root. find_record pid world.now.world.records ≡ Some root.now) }
    ensures is_root { IfOk result (λ root. root.now.depth ≡ 1) }
    ensures refused { IfErr result (λ e. ((e ≡ error.UnknownProcess pid) × (find_record pid world.now.world.records ≡ None))
        ⊎ ((r : ProcessRecord) × (find_record pid world.now.world.records ≡ Some r) × (e ≡ error.NotRoot pid) × (r.depth ≢ 1))) }
{
    let Some(root) = world.record_of(pid) else {
        return Err(ArchiveError::UnknownProcess(pid));
    };
    if root.depth != 1 {
        return Err(ArchiveError::NotRoot(pid));
    }
    Ok(root)
}

/// Marks for the root and the processes below it.
fn below(alloc: Global, world: &World, root: u32) -> Result<Vec<bool>, AllocError>
    requires { IsSome (find_record root world.now.world.records) }
    ensures { IfOk result (λ marks. AreMarks (is_at_or_below world.now.world.links root) (length world.now.world.nodes) marks.items) }
{
    // A reached world is consistent, so that a process is a node, and calls go one level down, of 16 at most.
    let graph = world.graph();
    reached_worlds_are_consistent();
    let ids = called_below(alloc, graph, root)?;
    let mut marks = unmarked(alloc, graph.nodes().len() + 1)?;
    mark(&mut marks, root);
    mark_each(&mut marks, ids.as_slice());
    Ok(marks)
}

/// Whether a process is marked and hasn't ended.
fn is_live(below: &[bool], process: &ProcessRecord) -> bool
    ensures { result ≡ (is_marked below.now process.now.node && not (has_ended process.now.state)) }
{
    is_marked(below, process.node) && !has_ended(process.state)
}

/// The lowest marked process that hasn't ended, if there is one.
fn find_live(world: &World, below: &[bool]) -> Option<u32>
    ensures { (root : ℕ) → AreMarks (is_at_or_below world.now.world.links root) (length world.now.world.nodes) below.now
        → MatchOption result (AllHaveEnded world.now.world root) (IsLowestLive world.now.world root) }
{
    // A reached world is consistent, so that its records ascend by their numbers.
    let _ = world.graph();
    reached_worlds_are_consistent();
    for process in world.records().as_slice() {
        if is_live(below, process) {
            return Some(process.node);
        }
    }
    None
}

/// Marks for the nodes of the closure of a root, where the root and what lies below it are marked.
fn in_closure(alloc: Global, world: &World, below: &[bool]) -> Result<Vec<bool>, AllocError>
    requires { length below.now ≡ length world.now.world.nodes + 1 }
    ensures { IfOk result (λ marks. (root : ℕ) → AreMarks (is_at_or_below world.now.world.links root) (length world.now.world.nodes) below.now
        → AreMarks (is_in_closure world.now.world.links root) (length world.now.world.nodes) marks.items) }
{
    let graph = world.graph();
    let mut marks = copied(alloc, below)?;
    mark_links(&mut marks, below, graph.links().as_slice());
    Ok(marks)
}

/// The numbers that the nodes of the closure of a root get in its archive, and 0 for each other node, where the closure is marked.
fn archive_numbers(alloc: Global, world: &World, marks: &[bool]) -> Result<Vec<u32>, AllocError>
    requires { length marks.now ≡ length world.now.world.nodes + 1 }
    ensures { IfOk result (λ numbers. (root : ℕ) → IsSome (find_record root world.now.world.records)
        → AreMarks (is_in_closure world.now.world.links root) (length world.now.world.nodes) marks.now
        → (n : ℕ) → slice_index numbers.items n ≡ archive_number (closure world.now.world root) n) }
{
    // A reached world is consistent, so that it has at most 8,000,000 nodes, each above 0.
    let _ = world.graph();
    reached_worlds_are_consistent();
    numbers_of(alloc, marks)
}

/// The archive of a root, of which all has ended, where no two jobs of it disagree.
fn agreed(
    alloc: Global,
    world: &World,
    root: &ProcessRecord,
    below: &[bool],
) -> Result<Archive, ArchiveError>
    requires found { find_record root.now.node world.now.world.records ≡ Some root.now }
    requires below { AreMarks (is_at_or_below world.now.world.links root.now.node) (length world.now.world.nodes) below.now }
    ensures archive { IfOk result (λ a. (library : List Definition) × (library_at world.now.world.libraries root.now.library ≡ Some library)
        × (a ≡ archive_of world.now.world root.now.node library)) }
    ensures agrees { IfOk result (λ a. IsLeastAmong world.now.world (is_at_or_below world.now.world.links root.now.node) None) }
    ensures refused { IfErr result (λ e. (e ≡ error.OutOfMemory) ⊎ ((p : ℕ × ℕ)
        × (e ≡ error.Disagrees (archive_number (closure world.now.world root.now.node) p.0) (archive_number (closure world.now.world root.now.node) p.1))
        × IsLeastAmong world.now.world (is_at_or_below world.now.world.links root.now.node) (Some p))) }
{
    let lasts = last_recorded_givers(alloc, world)?;
    let marks = in_closure(alloc, world, below)?;
    let numbers = archive_numbers(alloc, world, &marks)?;
    let found = find_disagreement_among(alloc, world, &lasts, below)?;
    match found {
        Some(pair) => Err(ArchiveError::Disagrees(
            number_at(&numbers, pair.0),
            number_at(&numbers, pair.1),
        )),
        None => {
            let archive = archive_of(alloc, world, &lasts, root, below, &marks, &numbers)?;
            Ok(archive)
        }
    }
}

/// The archive of a root that is there.
fn exported_root(
    alloc: Global,
    world: &World,
    root: &ProcessRecord,
) -> Result<Archive, ArchiveError>
    requires found { find_record root.now.node world.now.world.records ≡ Some root.now }
    requires is_root { root.now.depth ≡ 1 }
    ensures exports { IfOk result (Exports world.now.world root.now.node) }
    ensures refused { IfErr result (λ e. (e ≡ error.OutOfMemory) ⊎ RefusesExport world.now.world root.now.node e) }
{
    let marks = below(alloc, world, root.node)?;
    match find_live(world, &marks) {
        Some(live) => Err(ArchiveError::Live(live)),
        None => agreed(alloc, world, root, &marks),
    }
}

/// The archive as which a process is exported.
fn exported(alloc: Global, world: &World, pid: u32) -> Result<Archive, ArchiveError>
    ensures exports { IfOk result (Exports world.now.world pid) }
    ensures refused { IfErr result (λ e. (e ≡ error.OutOfMemory) ⊎ RefusesExport world.now.world pid e) }
{
    match root_of(world, pid) {
        Ok(root) => exported_root(alloc, world, root),
        Err(error) => Err(error),
    }
}

/// The text of the archive of a root, all of which has ended, with all that it called and their data.
pub fn export_text(alloc: Global, world: &World, pid: u32) -> Result<Text, ArchiveError>
    // The text is that of the archive which the process is exported as.
    ensures text { IfOk result (λ text. (a : Archive) × Exports world.now.world pid a × (text ≡ archive_text a)) }
    // An error is want of memory, or the refusal that is owed.
    ensures refused { IfErr result (λ e. (e ≡ error.OutOfMemory) ⊎ RefusesExport world.now.world pid e) }
    // Where a refusal is owed there is no text, and the error is that refusal or want of memory.
    ensures refuses { (e : ArchiveError) → RefusesExport world.now.world pid e
        → IfErr result (λ d. (d ≡ error.OutOfMemory) ⊎ (d ≡ e)) × IfOk result (λ text. ⊥) }
{
    match exported(alloc, world, pid) {
        Ok(archive) => {
            let text = archive_text(alloc, &archive)?;
            Ok(text)
        }
        Err(error) => Err(error),
    }
}
