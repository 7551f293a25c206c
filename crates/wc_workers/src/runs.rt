//! Steps of workers, one after another.

ghost use Rattle.std.specs.Prelude.{◌≡◌, ◌⊎◌, ◌≤◌, true, false, IsTrue, IfOk, IfErr};
ghost use Rattle.wc_io.specs.Counts.{Rises};
ghost use Rattle.wc_state.specs.Ranges.{AreLimits};
ghost use Rattle.wc_store.specs.Stepped.{LeavesNow, Stepped, of_world};
ghost use Rattle.wc_store.specs.Stores.{StandsFor};
ghost use Rattle.wc_world.specs.Accepted.{IsReached};
ghost use Rattle.wc_machine.specs.Sound.{IsSound};
ghost use Rattle.wc_pool.specs.Fits.{FitsWorld};
ghost use Rattle.wc_pool.specs.Pools.{workers_of};
ghost use Rattle.wc_runner.specs.Asked.{AreOfProcesses, IsAskedFor};
ghost use Rattle.wc_runner.specs.Codes.{AreBrought};
ghost use Rattle.wc_runner.specs.Core.Standing.{StandsAs};
ghost use Rattle.wc_runner.specs.Core.declared.standing.Standing.TheVariants.{Going};
ghost use Rattle.wc_runner.specs.Marks.{AreNoWorse};
ghost use Rattle.wc_runner.specs.Outside.{in_run};
ghost use Rattle.wc_runner.specs.Refusals.{RefusesRun, is_live_after};
ghost use Rattle.wc_runner.specs.Runs.{RisesBy, TakesFewer, TakesUpTo};
ghost use Rattle.wc_runner.specs.declared.error.RunError.TheVariants.{OutOfMemory};
ghost use Rattle.wc_runner.specs.declared.runs.RunEnd.TheVariants.{Spent};
ghost use Rattle.wc_workers.specs.Logs.{HoldsNone};
ghost use Rattle.wc_workers.specs.Works.{EndsAs, HasLease, HasNoLease, IsLedByNew, IsLedWithin, IsRestOf, Went, WentByNew};

use crate::order::WorkerOrder;
use crate::steps::step;
use std::alloc::{AllocError, Global};
use wc_disk::Disk;
use wc_io::Pacer;
use wc_pool::{Pool, Seat, turns_leave_others};
use wc_runner::{Next, Order, RunEnd, RunError, Standing, next_turn, standing_of};
use wc_state::Limits;
use wc_store::Store;
use wc_transport::Transport;
use wc_world::World;

/// Whether some worker has a lease.
#[tactic(auto, using(crate::proofs::Ordered::none_leased))]
fn has_lease(pool: &Pool) -> bool
    requires few { workers_of pool.now ≤ 16 }
    ensures some { result ≡ true → HasLease pool.now }
    ensures none { result ≡ false → HasNoLease pool.now }
{
    let workers = pool.workers() as u32;
    for worker in 0..workers {
        match pool.seat(worker) {
            Seat::Free => {}
            Seat::Leased(_) | Seat::Answered(_, _) => return true,
        }
    }
    false
}

/// Until when all workers rest at a moment, if they do: none has a lease, and no process is ready.
fn rest_of(alloc: Global, pool: &Pool, world: &World, now: u64) -> Result<Option<u64>, AllocError>
    requires few { workers_of pool.now ≤ 16 }
    requires going { StandsAs world.now.world Going }
    ensures { IfOk result (IsRestOf pool.now world.now.world now) }
{
    if has_lease(pool) {
        return Ok(None);
    }
    match next_turn(alloc, world, now, &mut Order::of(0))? {
        Next::Turn(_) => Ok(None),
        Next::Rest(until) => Ok(Some(until)),
    }
}

/// Workers make steps, one after another, until no process is live, or each live one is held up, or as many steps and rests were taken as are given.
/// Where no worker has a lease and no process is ready they rest until the first one will be.
pub fn run_workers<D: Disk, T: Transport, P: Pacer>(
    alloc: Global,
    pool: &mut Pool,
    store: &mut Store,
    one: &mut D,
    two: &mut D,
    transport: &mut T,
    pacer: &mut P,
    limits: &Limits,
    turns: u64,
    seed: u32,
) -> Result<RunEnd, RunError>
    // The pool has a worker.
    requires some { 1 ≤ workers_of pool.old }
    // It has at most sixteen.
    requires few { workers_of pool.old ≤ 16 }
    // The store is live.
    requires live { store.old.live ≡ true }
    // Where the disks tell their bytes, they stand for the store.
    requires stands { IsTrue (D.tells one.old) → IsTrue (D.tells two.old) → StandsFor D.Disk store.old one.old two.old }
    // The limits are within their bounds.
    requires limits { AreLimits limits.now }
    // The pool fits the world, before and after.
    requires fits { FitsWorld pool.old store.old.world.world }
    // At each moment, and then, the disks hold what steps and rests, at most as many as are given, led to, or what the turn that comes next makes of it, within
    // the limits of nodes and of bytes.
    ensures stepped { Stepped D.Disk (IsLedWithin T.Transport P.Pacer limits.now (workers_of pool.old) seed turns transport.old pacer.old pool.old store.old.world.world store.old.journal transport.new pacer.new)
        (is_live_after result) store.old one.old two.old store.new one.new two.new }
    // Each step is that of the worker that comes by the seed, at a moment that the clock was asked for once, and a rest is only where no worker has a lease and no
    // process is ready; one after another from transport, clock, pool and world as they were to those that are left. So it is up to where a run breaks
    // off: there the step that comes is refused, or memory ran out before one. The moments that were told and each worker's steps are counted.
    ensures went { Went T.Transport P.Pacer limits.now (workers_of pool.old) seed turns transport.old pacer.old pool.old store.old.world.world result store.new.journal transport.new pacer.new pool.new store.new.world.world }
    // The pool still fits the world.
    ensures fits { FitsWorld pool.new store.new.world.world }
    // No process is live; or each live one is held up; or some is live and not each is held up.
    ensures ends { IfOk result (EndsAs store.new.world.world) }
    // Where no answer was held before: commits and rests, at most as many as are given, are turns and rests by what the run saw of the transport and the clock.
    ensures takes { HoldsNone pool.old → TakesUpTo (in_run T.Transport P.Pacer limits.now transport.old transport.new pacer.new) turns store.old.world.world store.new.world.world (P.rests pacer.old) (P.rests pacer.new) }
    // Then there are fewer than as many as are given where it breaks off.
    ensures fewer { HoldsNone pool.old
        → IfErr result (λ e. TakesFewer (in_run T.Transport P.Pacer limits.now transport.old transport.new pacer.new) turns store.old.world.world store.new.world.world (P.rests pacer.old) (P.rests pacer.new)) }
    // Then Full is told of the store that is left, by its own journal, for the turn of a process with an answer that the transport gave.
    ensures refused { HoldsNone pool.old → IfErr result (RefusesRun (in_run T.Transport P.Pacer limits.now transport.old transport.new pacer.new) store.new) }
    // Then no process was paused, and none has failed more often, where no call of the transport failed.
    ensures marks { HoldsNone pool.old → ¬ Rises (T.faults transport.old) (T.faults transport.new) → AreNoWorse store.old.world.world store.new.world.world }
    // Then each exit code that was not kept before is, in a sound world, that of a result that the transport gave for the job's request.
    ensures codes { HoldsNone pool.old → IsReached store.old.world.world → IsSound store.old.world.world
        → AreBrought (in_run T.Transport P.Pacer limits.now transport.old transport.new pacer.new) store.old.world.world store.new.world.world }
    // What a crash leaves in the end holds each process whose directory is placed then, where it was so in the beginning.
    ensures directories { AreOfProcesses (T.placed transport.old) store.old.world.world → IsTrue (D.tells one.old) → IsTrue (D.tells two.old)
        → LeavesNow D.Disk store.old.place (of_world (AreOfProcesses (T.placed transport.new))) one.new two.new }
    // Where each directory that is placed was the number of a process, so is each one in the end.
    ensures processes { AreOfProcesses (T.placed transport.old) store.old.world.world → AreOfProcesses (T.placed transport.new) store.new.world.world }
    // The transport is asked at most as often as steps are given.
    ensures asked { IsAskedFor T.Transport turns transport.old transport.new }
{
    turns_leave_others();
    // The world of a store is one that accepted changes make.
    let _graph = store.world().graph();
    let workers = pool.workers() as u32;
    let mut taken: u64 = 0;
    let mut order = WorkerOrder::of(seed);
    'work: loop {
        match standing_of(store.world()) {
            Standing::AllEnded => return Ok(RunEnd::AllEnded),
            Standing::Resting => return Ok(RunEnd::Resting),
            Standing::Going => {}
        }
        if taken == turns {
            return Ok(RunEnd::Spent);
        }
        let now = pacer.now();
        let rest = rest_of(alloc, pool, store.world(), now)?;
        match rest {
            Some(until) => {
                pacer.rest(until - now);
                taken += 1;
                continue 'work;
            }
            None => {}
        }
        let worker = order.next(workers);
        match step(alloc, pool, store, one, two, transport, limits, worker, now) {
            Ok(_) => taken += 1,
            Err(error) => return Err(error),
        }
    }
}

/// So many workers, of a new pool, make steps, one after another, as `run_workers` says.
pub fn run_by_workers<D: Disk, T: Transport, P: Pacer>(
    alloc: Global,
    workers: u32,
    store: &mut Store,
    one: &mut D,
    two: &mut D,
    transport: &mut T,
    pacer: &mut P,
    limits: &Limits,
    turns: u64,
    seed: u32,
) -> Result<RunEnd, RunError>
    // There is a worker.
    requires some { 1 ≤ workers }
    // There are at most sixteen.
    requires few { workers ≤ 16 }
    // The store is live.
    requires live { store.old.live ≡ true }
    // Where the disks tell their bytes, they stand for the store.
    requires stands { IsTrue (D.tells one.old) → IsTrue (D.tells two.old) → StandsFor D.Disk store.old one.old two.old }
    // The limits are within their bounds.
    requires limits { AreLimits limits.now }
    // At each moment, and then, the disks hold what steps and rests, at most as many as are given, led to, or what the turn that comes next makes of it, within
    // the limits of nodes and of bytes.
    ensures stepped { Stepped D.Disk (IsLedByNew T.Transport P.Pacer limits.now workers seed turns transport.old pacer.old store.old.world.world store.old.journal transport.new pacer.new)
        (is_live_after result) store.old one.old two.old store.new one.new two.new }
    // The steps and rests that came one after another, from transport, clock and world as they were to those that are left, in the order of the seed; or memory
    // ran out before the first.
    ensures went { WentByNew T.Transport P.Pacer limits.now workers seed turns transport.old pacer.old store.old.world.world result store.new.journal transport.new pacer.new store.new.world.world }
    // No process is live; or each live one is held up; or some is live and not each is held up.
    ensures ends { IfOk result (EndsAs store.new.world.world) }
    // Where it is spent, as many moments were told as steps and rests were given.
    ensures spent { IfOk result (λ end. end ≡ Spent → RisesBy turns (P.told pacer.old) (P.told pacer.new)) }
    // Commits and rests, at most as many as are given, are turns and rests by what the run saw of the transport and the clock.
    ensures takes { TakesUpTo (in_run T.Transport P.Pacer limits.now transport.old transport.new pacer.new) turns store.old.world.world store.new.world.world (P.rests pacer.old) (P.rests pacer.new) }
    // There are fewer than as many as are given where it breaks off, otherwise than for want of memory.
    ensures fewer { IfErr result (λ e. (e ≡ OutOfMemory)
        ⊎ TakesFewer (in_run T.Transport P.Pacer limits.now transport.old transport.new pacer.new) turns store.old.world.world store.new.world.world (P.rests pacer.old) (P.rests pacer.new)) }
    // Full is told of the store that is left, by its own journal, for the turn of a process with an answer that the transport gave.
    ensures refused { IfErr result (RefusesRun (in_run T.Transport P.Pacer limits.now transport.old transport.new pacer.new) store.new) }
    // Where no call of the transport failed, no process was paused, and none has failed more often.
    ensures marks { ¬ Rises (T.faults transport.old) (T.faults transport.new) → AreNoWorse store.old.world.world store.new.world.world }
    // In a sound world each exit code that was not kept before is that of a result that the transport gave for the job's request.
    ensures codes { IsReached store.old.world.world → IsSound store.old.world.world
        → AreBrought (in_run T.Transport P.Pacer limits.now transport.old transport.new pacer.new) store.old.world.world store.new.world.world }
    // What a crash leaves in the end holds each process whose directory is placed then, where it was so in the beginning.
    ensures directories { AreOfProcesses (T.placed transport.old) store.old.world.world → IsTrue (D.tells one.old) → IsTrue (D.tells two.old)
        → LeavesNow D.Disk store.old.place (of_world (AreOfProcesses (T.placed transport.new))) one.new two.new }
    // Where each directory that is placed was the number of a process, so is each one in the end.
    ensures processes { AreOfProcesses (T.placed transport.old) store.old.world.world → AreOfProcesses (T.placed transport.new) store.new.world.world }
    // The transport is asked at most as often as steps are given.
    ensures asked { IsAskedFor T.Transport turns transport.old transport.new }
{
    match Pool::new(alloc, workers) {
        Ok(mut pool) => run_workers(
            alloc, &mut pool, store, one, two, transport, pacer, limits, turns, seed,
        ),
        Err(_) => Err(RunError::OutOfMemory),
    }
}
