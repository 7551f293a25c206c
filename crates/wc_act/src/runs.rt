//! How processes take their turns.

ghost use Rattle.std.specs.Prelude.{◌≡◌, ◌-◌, true, IsTrue, IfErr, IfOk};
ghost use Rattle.wc_state.specs.Ranges.{AreLimits};
ghost use Rattle.wc_store.specs.Stores.{HasImages, StandsFor};
ghost use Rattle.wc_drill.specs.Runner.Asked.{IsAskedFor};
ghost use Rattle.wc_act.specs.Counts.{CountsDisks};
ghost use Rattle.wc_act.specs.Crashes.{AreDurable, LeavesPairs, HoldsKeeping};
ghost use Rattle.wc_act.specs.Aborted.{BreaksOutside};
ghost use Rattle.wc_act.specs.Exchanges.{exchange};
ghost use Rattle.wc_act.specs.Outside.{RunsOutside};
ghost use Rattle.wc_act.specs.Owed.{visit, DoneOn, OfVisit};
ghost use Rattle.wc_act.specs.Rows.{run_row};
ghost use Rattle.wc_act.specs.Runs.{status_of, has_run};
ghost use Rattle.wc_act.specs.Undone.{EndsWith, IsBeforeTurns, IsUnbroken, ended_by};
ghost use Rattle.wc_world.specs.World.{World as AWorld};

use crate::error::ActError;
use crate::laws::worlds_are_kept;
use crate::opened::full;
use std::alloc::{AllocError, Global};
use wc_disk::Disk;
use wc_drill::{RunEnd, RunError, run, turns_keep_sound};
use wc_io::Pacer;
use wc_plan::{Reply, RunOptions, Status};
use wc_report::{committed_text, live_count, paused_count};
use wc_store::Store;
use wc_transport::Transport;
use wc_world::World;

/// The status of a run that ended so.
fn status_of(end: RunEnd) -> Status
    ensures { result ≡ status_of end }
{
    match end {
        RunEnd::AllEnded => Status::Ok,
        RunEnd::Spent => Status::Spent,
        RunEnd::Resting => Status::Resting,
    }
}

/// What is told of a run that ended so, at a world, and began after so many batches.
fn has_run(alloc: Global, end: RunEnd, begun: u32, world: &World) -> Result<Reply, AllocError>
    ensures { IfOk result (λ r. (w : AWorld) → w.batches ≡ begun → r ≡ has_run end w world.now.world) }
{
    let committed = world.batches().saturating_sub(begun) as u64;
    let text = committed_text(alloc, committed, live_count(world), paused_count(world))?;
    Ok(Reply {
        status: status_of(end),
        text,
    })
}

/// The reply of `run` on a store.
pub(crate) fn run_reply<D: Disk, T: Transport, P: Pacer>(
    alloc: Global,
    store: &mut Store,
    options: RunOptions,
    one: &mut D,
    two: &mut D,
    transport: &mut T,
    pacer: &mut P,
) -> Result<Reply, ActError>
    requires limits { AreLimits options.limits }
    requires live { store.old.live ≡ true }
    requires stands { IsTrue (D.tells one.old) → IsTrue (D.tells two.old) → StandsFor D.Disk store.old one.old two.old }
    requires images { HasImages store.old }
    ensures does { IfOk result (λ r. OfVisit (visit D.Disk one.old two.old one.new two.new) (DoneOn (run_row options) store.old.world.world r)) }
    ensures kept { IsTrue (D.tells one.old) → IsTrue (D.tells two.old) → LeavesPairs D.Disk one.old two.old one.new two.new
        (HoldsKeeping ((run_row options).makes (exchange T.Transport P.Pacer transport.old transport.new pacer.old pacer.new)) (D.seen one.old, D.seen two.old) store.old.world.world) }
    ensures durable { IsUnbroken result → IsTrue (D.tells one.old) → IsTrue (D.tells two.old) → AreDurable D.Disk one.new two.new }
    ensures tells { (D.tells one.new ≡ D.tells one.old) × (D.tells two.new ≡ D.tells two.old) }
    ensures begun { EndsWith IsBeforeTurns result → ⊥ }
    ensures asked { IsAskedFor T.Transport options.turns transport.old transport.new }
    ensures outside { IfOk result (λ r. IsTrue (D.tells one.old) → IsTrue (D.tells two.old)
        → RunsOutside (exchange T.Transport P.Pacer transport.old transport.new pacer.old pacer.new) options store.old.world.world (D.seen one.new, D.seen two.new) r.status) }
    ensures broken { IfErr result (λ e. IsTrue (D.tells one.old) → IsTrue (D.tells two.old)
        → BreaksOutside D.Disk (exchange T.Transport P.Pacer transport.old transport.new pacer.old pacer.new) options store.old.world.world one.new two.new (ended_by e)) }
    ensures cause { CountsDisks result (D.faults one.old) (D.faults one.new) (D.faults two.old) (D.faults two.new) (D.failed one.new) (D.failed two.new) }
{
    worlds_are_kept();
    turns_keep_sound::<T, P>();
    let begun = store.world().batches();
    match run(
        alloc,
        store,
        one,
        two,
        transport,
        pacer,
        &options.limits,
        options.turns,
        options.seed,
    ) {
        Ok(end) => Ok(has_run(alloc, end, begun, store.world())?),
        Err(RunError::DiskFault) => Err(ActError::DiskFault),
        Err(RunError::Full(what, count, limit)) => Ok(full(alloc, what, count, limit)?),
        Err(RunError::OutOfMemory) => Err(ActError::OutOfMemory),
    }
}
