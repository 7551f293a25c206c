//! One step of a worker.

ghost use Rattle.std.specs.Prelude.{◌≡◌, ◌<◌, ℕ, true, Some, None, IsTrue, IfOk, IfErr, OnOk, OnErr};
ghost use Rattle.wc_state.specs.Ranges.{AreLimits};
ghost use Rattle.wc_store.specs.Stepped.{IsAsBefore, LeavesHeld, Stepped, of_world};
ghost use Rattle.wc_store.specs.Stores.{StandsFor};
ghost use Rattle.wc_pool.specs.Fits.{FitsWorld};
ghost use Rattle.wc_pool.specs.Pools.{IsSamePool, seat_at, workers_of, why_given};
ghost use Rattle.wc_pool.specs.declared.pool.Seat.TheVariants.{Free, Leased, Answered};
ghost use Rattle.wc_runner.specs.Asked.{AreOfProcesses, AsksOnce, IsAsked, WhatItNeeds};
ghost use Rattle.wc_state.specs.declared.record.Limits.{Limits as AnyLimits};
ghost use Rattle.wc_workers.specs.declared.steps.Done.TheVariants.{Asked, Committed};
ghost use Rattle.wc_runner.specs.declared.error.RunError.TheVariants.{OutOfMemory};
ghost use Rattle.wc_runner.specs.Refusals.{IsUnchanged, is_live_after};
ghost use Rattle.wc_workers.specs.Steps.{AsksFor, AsksInStep, CommitsTurn, Holds, IsOrHeldTurn, RefusesHeld, StepOf, StepOrHolds, Takes};

use crate::answers::copy_answer;
use std::alloc::Global;
use wc_disk::Disk;
use wc_machine::TaskAnswer;
use wc_pool::{Lease, Pool, Seat, Why};
use wc_runner::{RunError, answer_for, changes_of, commit_changes};
use wc_state::Limits;
use wc_store::Store;
use wc_transport::Transport;
use wc_world::World;

/// What a step did.
#[derive(Clone, Copy)]
pub enum Done {
    /// The worker took a lease on this process.
    Took(u32),
    /// It has no lease, and no process may be leased.
    Idle,
    /// It asked the transport for this process, where it needs anything, and keeps the answer.
    Asked(u32),
    /// It gave up its lease on this process.
    Gave(u32, Why),
    /// It committed the turn of this process with the answer that it kept.
    Committed(u32),
}

/// A worker without a lease takes one.
fn taking(
    alloc: Global,
    pool: &mut Pool,
    world: &World,
    worker: u32,
    now: u64,
) -> Result<Done, RunError>
    requires worker { worker < workers_of pool.old }
    requires free { seat_at pool.old worker ≡ Free }
    ensures done { IfOk result (Takes worker now pool.old pool.new world.now.world) }
    ensures fits { FitsWorld pool.old world.now.world → FitsWorld pool.new world.now.world }
    ensures kept { OnErr result (IsSamePool pool.old pool.new) }
    ensures memory { IfErr result (λ e. e ≡ OutOfMemory) }
{
    match pool.take(alloc, world, worker, now)? {
        Some(pid) => Ok(Done::Took(pid)),
        None => Ok(Done::Idle),
    }
}

/// A worker with a lease that isn't given up asks for its process, and keeps the answer.
fn asking<T: Transport>(
    alloc: Global,
    pool: &mut Pool,
    world: &World,
    transport: &mut T,
    worker: u32,
    lease: Lease,
    now: u64,
) -> Result<Done, RunError>
    requires worker { worker < workers_of pool.old }
    requires leased { seat_at pool.old worker ≡ Leased lease }
    requires valid { why_given pool.old world.now.world lease now ≡ None }
    ensures done { IfOk result (λ done. (done ≡ Asked lease.pid) × ((limits : AnyLimits) → AsksFor T.Transport limits worker now transport.old transport.new pool.old pool.new world.now.world lease.pid)) }
    ensures fits { FitsWorld pool.old world.now.world → FitsWorld pool.new world.now.world }
    ensures kept { OnErr result (IsSamePool pool.old pool.new) }
    ensures memory { IfErr result (λ e. e ≡ OutOfMemory) }
    ensures asks { WhatItNeeds world.now.world lease.pid (AsksOnce result T.asked transport.old transport.new) }
    ensures stays { WhatItNeeds world.now.world lease.pid (λ n. IsAsked T.Transport lease.pid n transport.old transport.new) }
{
    let answer = match answer_for(alloc, world, transport, lease.pid, now) {
        Ok(answer) => answer,
        Err(error) => return Err(error),
    };
    pool.keep(worker, lease, answer);
    Ok(Done::Asked(lease.pid))
}

/// A worker commits the turn of its process with the answer that it has.
fn committing<D: Disk>(
    alloc: Global,
    pool: &mut Pool,
    store: &mut Store,
    one: &mut D,
    two: &mut D,
    limits: &Limits,
    worker: u32,
    lease: Lease,
    answer: TaskAnswer,
    now: u64,
) -> Result<Done, RunError>
    requires worker { worker < workers_of pool.old }
    requires answered { seat_at pool.old worker ≡ Answered lease answer }
    requires valid { why_given pool.old store.old.world.world lease now ≡ None }
    requires live { store.old.live ≡ true }
    requires stands { IsTrue (D.tells one.old) → IsTrue (D.tells two.old) → StandsFor D.Disk store.old one.old two.old }
    requires limits { AreLimits limits.now }
    requires fits { FitsWorld pool.old store.old.world.world }
    ensures done { IfOk result (λ done. (done ≡ Committed lease.pid) × CommitsTurn limits.now worker now pool.old pool.new store.old.world.world store.new.world.world lease.pid) }
    ensures fits { OnOk result (FitsWorld pool.new store.new.world.world) }
    ensures kept { OnErr result (pool.new ≡ pool.old) }
    ensures stepped { Stepped D.Disk (IsOrHeldTurn limits.now worker now pool.old store.old.world.world store.old.journal)
        (is_live_after result) store.old one.old two.old store.new one.new two.new }
    ensures same { OnErr result (IsAsBefore store.old store.new.world.world store.new.journal) }
    ensures refused { IfErr result (RefusesHeld limits.now worker now pool.old store.old.journal store.old.world.world) }
    ensures untouched { IsUnchanged result one.old one.new × IsUnchanged result two.old two.new }
{
    // The world of a store is one that accepted changes make.
    let _graph = store.world().graph();
    let changes = match changes_of(alloc, store.world(), limits, lease.pid, answer, now) {
        Ok(changes) => changes,
        Err(error) => return Err(error),
    };
    match commit_changes(alloc, store, one, two, limits, changes) {
        Ok(()) => {
            pool.close(worker, lease);
            Ok(Done::Committed(lease.pid))
        }
        Err(error) => Err(error),
    }
}

/// What a worker does that doesn't commit: nothing, where it has an answer under a lease that isn't given up.
fn without_turn<T: Transport>(
    alloc: Global,
    pool: &mut Pool,
    world: &World,
    transport: &mut T,
    worker: u32,
    now: u64,
) -> Result<Option<Done>, RunError>
    requires worker { worker < workers_of pool.old }
    ensures done { IfOk result (λ done. (limits : AnyLimits) → StepOrHolds T.Transport limits worker now transport.old transport.new pool.old pool.new world.now.world done) }
    ensures fits { FitsWorld pool.old world.now.world → FitsWorld pool.new world.now.world }
    ensures kept { OnErr result (IsSamePool pool.old pool.new) }
    ensures memory { IfErr result (λ e. e ≡ OutOfMemory) }
    ensures asks { AsksInStep T.Transport worker now pool.old world.now.world result transport.old transport.new }
{
    let lease = match pool.seat(worker) {
        Seat::Free => {
            return match taking(alloc, pool, world, worker, now) {
                Ok(done) => Ok(Some(done)),
                Err(error) => Err(error),
            };
        }
        Seat::Leased(lease) => *lease,
        Seat::Answered(lease, _) => *lease,
    };
    if let Some(why) = pool.why_given(world, lease, now) {
        pool.leave(worker);
        return Ok(Some(Done::Gave(lease.pid, why)));
    }
    match pool.seat(worker) {
        Seat::Leased(_) => match asking(alloc, pool, world, transport, worker, lease, now) {
            Ok(done) => Ok(Some(done)),
            Err(error) => Err(error),
        },
        Seat::Free | Seat::Answered(_, _) => Ok(None),
    }
}

/// A worker that has an answer under a lease that isn't given up commits the turn of its process.
fn with_turn<D: Disk>(
    alloc: Global,
    pool: &mut Pool,
    store: &mut Store,
    one: &mut D,
    two: &mut D,
    limits: &Limits,
    worker: u32,
    now: u64,
) -> Result<Done, RunError>
    requires worker { worker < workers_of pool.old }
    requires holds { Holds worker now pool.old store.old.world.world }
    requires live { store.old.live ≡ true }
    requires stands { IsTrue (D.tells one.old) → IsTrue (D.tells two.old) → StandsFor D.Disk store.old one.old two.old }
    requires limits { AreLimits limits.now }
    requires fits { FitsWorld pool.old store.old.world.world }
    ensures done { IfOk result (λ done. (pid : ℕ) × (done ≡ Committed pid) × CommitsTurn limits.now worker now pool.old pool.new store.old.world.world store.new.world.world pid) }
    ensures fits { OnOk result (FitsWorld pool.new store.new.world.world) }
    ensures kept { OnErr result (pool.new ≡ pool.old) }
    ensures stepped { Stepped D.Disk (IsOrHeldTurn limits.now worker now pool.old store.old.world.world store.old.journal)
        (is_live_after result) store.old one.old two.old store.new one.new two.new }
    ensures same { OnErr result (IsAsBefore store.old store.new.world.world store.new.journal) }
    ensures refused { IfErr result (RefusesHeld limits.now worker now pool.old store.old.journal store.old.world.world) }
    ensures untouched { IsUnchanged result one.old one.new × IsUnchanged result two.old two.new }
{
    match pool.seat(worker) {
        Seat::Answered(lease, answer) => {
            let lease = *lease;
            match copy_answer(answer) {
                Ok(copied) => committing(
                    alloc, pool, store, one, two, limits, worker, lease, copied, now,
                ),
                Err(_) => Err(RunError::OutOfMemory),
            }
        }
        Seat::Free | Seat::Leased(_) => unreachable!(),
    }
}

/// One step of a worker of a pool, at a moment: it takes a lease, or asks the transport, or commits a turn, or gives its lease up, or has nothing to do.
pub fn step<D: Disk, T: Transport>(
    alloc: Global,
    pool: &mut Pool,
    store: &mut Store,
    one: &mut D,
    two: &mut D,
    transport: &mut T,
    limits: &Limits,
    worker: u32,
    now: u64,
) -> Result<Done, RunError>
    // There is such a worker.
    requires worker { worker < workers_of pool.old }
    // The store is live.
    requires live { store.old.live ≡ true }
    // Where the disks tell their bytes, they stand for the store.
    requires stands { IsTrue (D.tells one.old) → IsTrue (D.tells two.old) → StandsFor D.Disk store.old one.old two.old }
    // The limits are within their bounds.
    requires limits { AreLimits limits.now }
    // The pool fits the world, before and after.
    requires fits { FitsWorld pool.old store.old.world.world }
    // What the step did to the pool, the transport and the world.
    ensures done { IfOk result (StepOf T.Transport limits.now worker now transport.old transport.new pool.old pool.new store.old.world.world store.new.world.world) }
    // The pool still fits the world.
    ensures fits { FitsWorld pool.new store.new.world.world }
    // Where it breaks off, the pool and the world are as they were.
    ensures kept { OnErr result (IsSamePool pool.old pool.new) }
    // Where it breaks off, the world and the journal are as they were.
    ensures same { OnErr result (IsAsBefore store.old store.new.world.world store.new.journal) }
    // At each moment the disks hold the world before or the one after the turn with the worker's answer, each by its journal.
    ensures stepped { Stepped D.Disk (IsOrHeldTurn limits.now worker now pool.old store.old.world.world store.old.journal)
        (is_live_after result) store.old one.old two.old store.new one.new two.new }
    // DiskFault comes only where a turn with the worker's answer was to be written, and Full only where that turn would be too much.
    ensures refused { IfErr result (RefusesHeld limits.now worker now pool.old store.old.journal store.old.world.world) }
    // Where it breaks off for want of memory or for fullness, both disks are as they were.
    ensures untouched { IsUnchanged result one.old one.new × IsUnchanged result two.old two.new }
    // The transport is asked at most once, and only for a worker whose lease isn't given up and has no answer yet.
    ensures asks { AsksInStep T.Transport worker now pool.old store.old.world.world result transport.old transport.new }
    // Where each directory that is placed is the number of a process, so is each one after the step.
    ensures processes { AreOfProcesses (T.placed transport.old) store.old.world.world → AreOfProcesses (T.placed transport.new) store.new.world.world }
    // Then each moment's images hold each process whose directory is placed in the end.
    ensures directories { AreOfProcesses (T.placed transport.old) store.old.world.world → IsTrue (D.tells one.old) → IsTrue (D.tells two.old)
        → LeavesHeld D.Disk store.old.place (of_world (AreOfProcesses (T.placed transport.new))) one.old two.old one.new two.new }
{
    match without_turn(alloc, pool, store.world(), transport, worker, now) {
        Ok(Some(done)) => Ok(done),
        Ok(None) => with_turn(alloc, pool, store, one, two, limits, worker, now),
        Err(error) => Err(error),
    }
}
