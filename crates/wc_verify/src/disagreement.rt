//! Jobs with equal requests and different results.

ghost use Rattle.std.specs.Prelude.{◌≡◌, ◌↔◌, ◌++◌, ◌<◌, List, [], ◌∷◌, Some, All, IfOk, OnOk, IsSome};
ghost use Rattle.std.specs.Option.{option_copied};
ghost use Rattle.wc_value.specs.declared.process.JobResult.{JobResult};
ghost use Rattle.wc_state.specs.declared.record.ProcessRecord.{ProcessRecord};
ghost use Rattle.wc_world.specs.Records.{find_record};
ghost use Rattle.wc_machine.specs.Recorded.{HasResult, recorded_request, request_by};
ghost use Rattle.wc_verify.specs.Faults.{HaveOneOrigin, IsLeastDisagreement};
ghost use Rattle.wc_verify.specs.Givers.{AreLastGivers, own_result, result_giver};
ghost use Rattle.wc_verify.specs.Noted.{AreBytesOf, HaveNoted};

use crate::firsts::Firsts;
use crate::givers::last_result_givers;
use crate::recorded::retrieved_folder;
use std::alloc::{AllocError, Global};
use wc_expression::Outcome;
use wc_semantics::request_of;
use wc_state::{ProcessKind, ProcessRecord};
use wc_syntax::Definition;
use wc_trees::{definition_of, recorded_inputs};
use wc_value::{Bytes, Fields, JobResult, encode_request};
use wc_world::{World, reached_worlds_are_consistent};

/// The result of a job's own run, if it has one.
pub(crate) fn own_result(
    alloc: Global,
    world: &World,
    process: &ProcessRecord,
) -> Result<Option<JobResult>, AllocError>
    requires { IsSome (find_record process.now.node world.now.world.records) }
    ensures { IfOk result (λ own. own ≡ own_result world.now.world process.now) }
{
    match process.kind {
        ProcessKind::Function | ProcessKind::Chain => Ok(None),
        ProcessKind::Job => match process.code {
            None => Ok(None),
            Some(code) => match retrieved_folder(alloc, world, process.node)? {
                Some(files) => Ok(Some(JobResult { code, files })),
                None => Ok(None),
            },
        },
    }
}

/// The recorded result of a process, if it has one: that of the last of its givers, who took no other's result.
fn result_of(
    alloc: Global,
    world: &World,
    lasts: &[u32],
    process: &ProcessRecord,
) -> Result<Option<JobResult>, AllocError>
    requires lasts { AreLastGivers result_giver world.now.world lasts.now }
    requires found { find_record process.now.node world.now.world.records ≡ Some process.now }
    requires origins { HaveOneOrigin world.now.world }
    ensures { IfOk result (λ found. (x : JobResult) → HasResult world.now.world process.now.node x ↔ (found ≡ Some x)) }
{
    // A reached world is consistent, so that the numbers of processes are those of nodes.
    let _ = world.graph();
    reached_worlds_are_consistent();
    match world.record_of(lasts[process.node as usize]) {
        Some(last) => own_result(alloc, world, last),
        None => Ok(None),
    }
}

/// The canonical bytes of what a definition asks for inputs, if it is a job's and asks.
fn bytes_asked(
    alloc: Global,
    definition: Option<&Definition>,
    inputs: &Fields,
) -> Result<Option<Bytes>, AllocError>
    ensures { IfOk result (AreBytesOf (request_by (option_copied definition.entry) inputs.now)) }
{
    match definition {
        Some(Definition::Job(job)) => match request_of(alloc, job, inputs)? {
            Outcome::Gives(request) => Ok(Some(encode_request(alloc, &request)?)),
            Outcome::Faults(_) => Ok(None),
        },
        Some(Definition::Function(_)) | Some(Definition::Chain(_)) | None => Ok(None),
    }
}

/// The canonical bytes of the request of a process, if it has one.
pub(crate) fn asked(
    alloc: Global,
    world: &World,
    process: &ProcessRecord,
) -> Result<Option<Bytes>, AllocError>
    requires { IsSome (find_record process.now.node world.now.world.records) }
    ensures { IfOk result (AreBytesOf (recorded_request world.now.world process.now)) }
{
    let inputs = recorded_inputs(alloc, world, process.node)?;
    bytes_asked(alloc, definition_of(world, process), &inputs)
}

/// Notes what a process asked and its recorded result, if it has both.
fn note_process(
    alloc: Global,
    world: &World,
    lasts: &[u32],
    process: &ProcessRecord,
    firsts: &mut Firsts,
) -> Result<(), AllocError>
    requires lasts { AreLastGivers result_giver world.now.world lasts.now }
    requires found { find_record process.now.node world.now.world.records ≡ Some process.now }
    requires origins { HaveOneOrigin world.now.world }
    ensures { OnOk result ((rs : List ProcessRecord) → All (λ r. r.node < process.now.node) rs → HaveNoted (HasResult world.now.world) world.now.world rs firsts.old
        → HaveNoted (HasResult world.now.world) world.now.world (rs ++ process.now ∷ []) firsts.new) }
{
    let Some(given) = result_of(alloc, world, lasts, process)? else {
        return Ok(());
    };
    let Some(request) = asked(alloc, world, process)? else {
        return Ok(());
    };
    firsts.note(request.into_vec(), process.node, given)
}

/// The least two jobs with equal requests and different recorded results, if there are such.
pub fn find_disagreement(alloc: Global, world: &World) -> Result<Option<(u32, u32)>, AllocError>
    // So each job has at most one recorded result. It holds where nothing took another's outcome, and where all that is created
    // is created by its inputs, as `find_wrong_value` tells.
    requires { HaveOneOrigin world.now.world }
    ensures { IfOk result (IsLeastDisagreement world.now.world) }
{
    // A reached world is consistent, so that its records ascend by their numbers.
    let _ = world.graph();
    reached_worlds_are_consistent();
    let lasts = last_result_givers(alloc, world)?;
    let mut firsts = Firsts::new(alloc);
    for process in world.records().as_slice() {
        note_process(alloc, world, &lasts, process, &mut firsts)?;
    }
    Ok(firsts.least())
}
