//! Recorded results, and jobs among some that have equal requests and different ones.

ghost use Rattle.std.specs.Prelude.{◌≡◌, ◌++◌, ◌<◌, List, [], ◌∷◌, false, Some, All, IfOk, OnOk, slice_index_or};
ghost use Rattle.wc_state.specs.declared.record.ProcessRecord.{ProcessRecord};
ghost use Rattle.wc_world.specs.Records.{find_record};
ghost use Rattle.wc_machine.specs.Results.{result_of};
ghost use Rattle.wc_verify.specs.Faults.{HasResultAmong, IsLeastAmong};
ghost use Rattle.wc_verify.specs.Givers.{AreLastGivers, recorded_giver};
ghost use Rattle.wc_verify.specs.Noted.{HaveNoted};

use crate::disagreement::{asked, own_result};
use crate::firsts::Firsts;
use std::alloc::{AllocError, Global};
use wc_state::ProcessRecord;
use wc_value::JobResult;
use wc_world::{World, reached_worlds_are_consistent};

/// The recorded result of a process, if it has one. It is looked up in the table of the processes that have it from their own runs.
pub fn recorded_result(
    alloc: Global,
    world: &World,
    lasts: &[u32],
    process: &ProcessRecord,
) -> Result<Option<JobResult>, AllocError>
    // The table is that of `last_recorded_givers`.
    requires lasts { AreLastGivers recorded_giver world.now.world lasts.now }
    // The process is one of the world.
    requires found { find_record process.now.node world.now.world.records ≡ Some process.now }
    ensures { IfOk result (λ found. found ≡ result_of world.now.world process.now.node) }
{
    // A reached world is consistent, so that the numbers of processes are those of nodes.
    let _ = world.graph();
    reached_worlds_are_consistent();
    match world.record_of(lasts[process.node as usize]) {
        Some(last) => own_result(alloc, world, last),
        None => Ok(None),
    }
}

/// Whether a process is marked.
fn is_chosen(chosen: &[bool], pid: u32) -> bool
    ensures { result ≡ slice_index_or chosen.now pid false }
{
    (pid as usize) < chosen.len() && chosen[pid as usize]
}

/// Notes what a process asked and its recorded result, if it is marked and has both.
fn note_chosen(
    alloc: Global,
    world: &World,
    lasts: &[u32],
    chosen: &[bool],
    process: &ProcessRecord,
    firsts: &mut Firsts,
) -> Result<(), AllocError>
    requires lasts { AreLastGivers recorded_giver world.now.world lasts.now }
    requires found { find_record process.now.node world.now.world.records ≡ Some process.now }
    ensures { OnOk result ((rs : List ProcessRecord) → All (λ r. r.node < process.now.node) rs
        → HaveNoted (HasResultAmong world.now.world (λ pid. slice_index_or chosen.now pid false)) world.now.world rs firsts.old
        → HaveNoted (HasResultAmong world.now.world (λ pid. slice_index_or chosen.now pid false)) world.now.world (rs ++ process.now ∷ []) firsts.new) }
{
    if !is_chosen(chosen, process.node) {
        return Ok(());
    }
    let Some(given) = recorded_result(alloc, world, lasts, process)? else {
        return Ok(());
    };
    let Some(request) = asked(alloc, world, process)? else {
        return Ok(());
    };
    firsts.note(request.into_vec(), process.node, given)
}

/// The least two marked jobs with equal requests and different recorded results, if there are such.
pub fn find_disagreement_among(
    alloc: Global,
    world: &World,
    lasts: &[u32],
    chosen: &[bool],
) -> Result<Option<(u32, u32)>, AllocError>
    // The table is that of `last_recorded_givers`.
    requires { AreLastGivers recorded_giver world.now.world lasts.now }
    ensures { IfOk result (IsLeastAmong world.now.world (λ pid. slice_index_or chosen.now pid false)) }
{
    // A reached world is consistent, so that its records ascend by their numbers.
    let _ = world.graph();
    reached_worlds_are_consistent();
    let mut firsts = Firsts::new(alloc);
    for process in world.records().as_slice() {
        note_chosen(alloc, world, lasts, chosen, process, &mut firsts)?;
    }
    Ok(firsts.least())
}
