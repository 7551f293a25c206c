//! One turn on a store.

ghost use Rattle.std.specs.Prelude.{◌≡◌, true, IsTrue, IfOk, IfErr, OnOk, OnErr};
ghost use Rattle.wc_state.specs.Ranges.{AreLimits};
ghost use Rattle.wc_state.specs.declared.record.Limits.{Limits as AnyLimits};
ghost use Rattle.wc_core.specs.Ready.{is_ready_at};
ghost use Rattle.wc_core.specs.Asks.{FitsAt};
ghost use Rattle.wc_store.specs.Held.{is_plain};
ghost use Rattle.wc_store.specs.Stepped.{IsAsBefore, IsCommitted, IsOrCommitted, LeavesHeld, Stepped, of_world};
ghost use Rattle.wc_store.specs.Stores.{StandsFor};
ghost use Rattle.wc_world.specs.Accepted.{IsAccepted};
ghost use Rattle.wc_runner.specs.Asked.{AreOfProcesses, AsksOnce, IsAsked, WhatItNeeds};
ghost use Rattle.wc_runner.specs.Leaves.{IsOrTurnOf, IsTurnWithin};
ghost use Rattle.wc_runner.specs.declared.error.RunError.TheVariants.{OutOfMemory};
ghost use Rattle.wc_runner.specs.Outside.{Answers, in_turn};
ghost use Rattle.wc_runner.specs.Refusals.{IsUnchanged, RefusesPrepared, RefusesStep, RefusesStored, is_live_after};
ghost use Rattle.wc_runner.specs.Turns.{IsOfCommit, IsPrepared, IsReady, IsRoomOrMemory, RefusesChanges, of_store, of_turn};

use crate::error::RunError;
use crate::questions::ask;
use std::alloc::Global;
use wc_core::{Asks, need, turn};
use wc_disk::Disk;
use wc_machine::{TaskAnswer, TurnError};
use wc_state::{Limits, Task};
use wc_store::{Store, StoreError};
use wc_transport::Transport;
use wc_world::{Changes, World};

/// What a run tells of a turn's refusal. A process whose turn is taken is there and is ready.
fn of_turn(error: TurnError) -> RunError
    requires { IsRoomOrMemory error }
    ensures { result ≡ of_turn error }
{
    match error {
        TurnError::Full(what, count, limit) => RunError::Full(what, count, limit),
        TurnError::OutOfMemory => RunError::OutOfMemory,
        _ => unreachable!(),
    }
}

/// What a run tells of a commit's refusal. A store that is there is neither damaged nor made again.
fn of_store(error: StoreError) -> RunError
    requires { IsOfCommit error }
    ensures { result ≡ of_store error }
{
    match error {
        StoreError::DiskFault => RunError::DiskFault,
        StoreError::Full(what, count, limit) => RunError::Full(what, count, limit),
        StoreError::OutOfMemory => RunError::OutOfMemory,
        _ => unreachable!(),
    }
}

/// What the outside answers to what a ready process needs. The transport is asked at most once.
pub fn answer_for<T: Transport>(
    alloc: Global,
    world: &World,
    transport: &mut T,
    pid: u32,
    now: u64,
) -> Result<TaskAnswer, RunError>
    // The process is ready at the moment.
    requires ready { is_ready_at world.now.world pid now ≡ true }
    // The answer is one that this transport gave, or none where nothing is needed.
    ensures answers { IfOk result (λ a. (limits : AnyLimits) → Answers (in_turn T.Transport limits now transport.old transport.new) world.now.world pid a) }
    // It fits what the process asks.
    ensures fits { IfOk result (FitsAt world.now.world pid) }
    // An error is want of memory alone.
    ensures memory { IfErr result (λ e. e ≡ OutOfMemory) }
    // The transport is asked once where something is needed, but for want of memory, before which it may not be asked; where nothing is needed it stays as
    // it was.
    ensures asks { WhatItNeeds world.now.world pid (AsksOnce result T.asked transport.old transport.new) }
    // Beside the request that it may place for this process, what the transport has placed, its table and what has ended stay, and it counts one fault at
    // most.
    ensures stays { WhatItNeeds world.now.world pid (λ n. IsAsked T.Transport pid n transport.old transport.new) }
{
    let asks = match need(alloc, world, pid) {
        Ok(asks) => asks,
        Err(TurnError::OutOfMemory) => return Err(RunError::OutOfMemory),
        Err(_) => unreachable!(),
    };
    match &asks {
        Asks::Nothing => Ok(TaskAnswer::Nothing),
        Asks::Upload(request) => ask(alloc, transport, pid, Task::Upload, request),
        Asks::Submit(request) => ask(alloc, transport, pid, Task::Submit, request),
        Asks::Update(request) => ask(alloc, transport, pid, Task::Update, request),
        Asks::Retrieve(request) => ask(alloc, transport, pid, Task::Retrieve, request),
    }
}

/// The changes of the turn of a ready process with an answer that fits what it needs.
pub fn changes_of(
    alloc: Global,
    world: &World,
    limits: &Limits,
    pid: u32,
    answer: TaskAnswer,
    now: u64,
) -> Result<Changes, RunError>
    // The limits lie within their ranges.
    requires limits { AreLimits limits.now }
    // The process is ready at the moment.
    requires ready { is_ready_at world.now.world pid now ≡ true }
    // The answer fits what the process asks.
    requires fits { FitsAt world.now.world pid answer }
    // The changes are those of the turn, and the world has room for them.
    ensures ok { IfOk result (IsReady limits.now world.now.world pid answer now) }
    // A refusal is that there is no room, or want of memory.
    ensures refused { IfErr result (RefusesChanges limits.now world.now.world pid answer now) }
{
    match turn(alloc, world, limits, pid, answer, now) {
        Ok(changes) => Ok(changes),
        Err(error) => Err(of_turn(error)),
    }
}

/// What the turn of a ready process does, with what the outside answers to what the process needs.
fn prepared<T: Transport>(
    alloc: Global,
    world: &World,
    transport: &mut T,
    limits: &Limits,
    pid: u32,
    now: u64,
) -> Result<Changes, RunError>
    requires limits { AreLimits limits.now }
    requires ready { is_ready_at world.now.world pid now ≡ true }
    ensures ok { IfOk result (IsPrepared (in_turn T.Transport limits.now now transport.old transport.new) pid world.now.world) }
    ensures refused { IfErr result (RefusesPrepared (in_turn T.Transport limits.now now transport.old transport.new) pid world.now.world) }
    ensures asks { WhatItNeeds world.now.world pid (AsksOnce result T.asked transport.old transport.new) }
    ensures stays { WhatItNeeds world.now.world pid (λ n. IsAsked T.Transport pid n transport.old transport.new) }
{
    match answer_for(alloc, world, transport, pid, now) {
        Ok(answer) => changes_of(alloc, world, limits, pid, answer, now),
        Err(error) => Err(error),
    }
}

/// Commits changes to a store that is there: those of a turn, or of another event.
pub fn commit_changes<D: Disk>(
    alloc: Global,
    store: &mut Store,
    one: &mut D,
    two: &mut D,
    limits: &Limits,
    changes: Changes,
) -> Result<(), RunError>
    requires live { store.old.live ≡ true }
    requires stands { IsTrue (D.tells one.old) → IsTrue (D.tells two.old) → StandsFor D.Disk store.old one.old two.old }
    requires accepted { IsAccepted store.old.world.world changes }
    requires plain { is_plain changes ≡ true }
    requires limits { AreLimits limits.now }
    ensures stepped { Stepped D.Disk (IsOrCommitted limits.now changes store.old) (is_live_after result) store.old one.old two.old store.new one.new two.new }
    ensures done { OnOk result (IsCommitted limits.now changes store.old store.new.world.world store.new.journal) }
    ensures same { OnErr result (IsAsBefore store.old store.new.world.world store.new.journal) }
    ensures refused { IfErr result (RefusesStored store.old.journal limits.now store.old.world.world changes) }
    ensures untouched { IsUnchanged result one.old one.new × IsUnchanged result two.old two.new }
{
    match store.commit(alloc, one, two, changes, limits) {
        Ok(()) => Ok(()),
        Err(error) => Err(of_store(error)),
    }
}

/// Takes the turn of a ready process at a moment, and commits it: the transport is asked at most once, for what the process needs.
pub fn turn_one<D: Disk, T: Transport>(
    alloc: Global,
    store: &mut Store,
    one: &mut D,
    two: &mut D,
    transport: &mut T,
    limits: &Limits,
    pid: u32,
    now: u64,
) -> Result<(), RunError>
    requires live { store.old.live ≡ true }
    requires stands { IsTrue (D.tells one.old) → IsTrue (D.tells two.old) → StandsFor D.Disk store.old one.old two.old }
    requires limits { AreLimits limits.now }
    requires ready { is_ready_at store.old.world.world pid now ≡ true }
    // At each moment the disks hold the world before or the one after, each by its journal.
    ensures stepped { Stepped D.Disk (IsOrTurnOf (in_turn T.Transport limits.now now transport.old transport.new) pid store.old.world.world store.old.journal)
        (is_live_after result) store.old one.old two.old store.new one.new two.new }
    ensures ok { OnOk result (IsTurnWithin (in_turn T.Transport limits.now now transport.old transport.new) pid store.old.world.world store.new.world.world store.new.journal) }
    ensures same { OnErr result (IsAsBefore store.old store.new.world.world store.new.journal) }
    ensures refused { IfErr result (RefusesStep (in_turn T.Transport limits.now now transport.old transport.new) store.old.journal store.old.world.world pid) }
    ensures untouched { IsUnchanged result one.old one.new × IsUnchanged result two.old two.new }
    // At each moment they hold each process whose directory is placed in the end, where they did so in the beginning.
    ensures directories { AreOfProcesses (T.placed transport.old) store.old.world.world → IsTrue (D.tells one.old) → IsTrue (D.tells two.old)
        → LeavesHeld D.Disk store.old.place (of_world (AreOfProcesses (T.placed transport.new))) one.old two.old one.new two.new }
    ensures processes { AreOfProcesses (T.placed transport.old) store.old.world.world → AreOfProcesses (T.placed transport.new) store.new.world.world }
    ensures asks { WhatItNeeds store.old.world.world pid (AsksOnce result T.asked transport.old transport.new) }
    ensures stays { WhatItNeeds store.old.world.world pid (λ n. IsAsked T.Transport pid n transport.old transport.new) }
{
    match prepared(alloc, store.world(), transport, limits, pid, now) {
        Ok(changes) => commit_changes(alloc, store, one, two, limits, changes),
        Err(error) => Err(error),
    }
}
