//! What is made ready before a store calls its disks.
ghost use Rattle.std.specs.Prelude.{◌≡◌, ◌≤◌, [], ◌∷◌, true, false, length, IfOk, IfErr, OnOk};
ghost use Rattle.wc_world.specs.Applied.{applied};
ghost use Rattle.wc_world.specs.Accepted.{IsAccepted, IsReached};
ghost use Rattle.wc_world.specs.Room.{HasRoom, needed};
ghost use Rattle.wc_world.specs.Snapshot.{snapshot};
ghost use Rattle.wc_state.specs.Ranges.{AreLimits};
ghost use Rattle.wc_store.specs.Refusals.{byte_limit};
ghost use Rattle.wc_store.specs.Prepared.{IsBatchOf, RefusesChanges, RefusesSnapshot, HasGeneration};

use crate::error::StoreError;
use std::alloc::Global;
use wc_journal::{Batch, Journal, JournalError};
use wc_record::{write_changes, write_snapshot};
use wc_state::{Limits, What};
use wc_world::{Change, Changes, World};

/// The most bytes of a journal of version 1.
const MOST_OF_FIRST: u64 = 1_073_741_824;

/// The most generations.
const MOST_GENERATIONS: u64 = 4_000_000_000;

/// How many nodes a change adds.
fn nodes_in(change: &Change) -> u64
    ensures { result ≡ (needed (change.now ∷ [])).nodes }
{
    match change {
        Change::Data(_) => 1,
        Change::Process(_) => 1,
        _ => 0,
    }
}

/// How many nodes a world has after changes.
fn nodes_after(world: &World, changes: &Changes) -> u64
    ensures { result ≡ length (applied world.now.world changes.now).nodes }
{
    let _ = changes.len();
    let mut count = world.graph().nodes().len() as u64;
    for change in changes.as_slice() {
        count += nodes_in(change);
    }
    count
}

/// The most bytes that a journal of this version may have.
pub fn byte_limit(version: u8, most: u64) -> u64
    ensures { result ≡ byte_limit version most }
{
    if version == 1 {
        most.min(MOST_OF_FIRST)
    } else {
        most
    }
}

/// The batch of changes, where they are within the limits.
fn batch_of(
    alloc: Global,
    world: &World,
    journal: &Journal,
    changes: &Changes,
    limits: &Limits,
) -> Result<Batch, StoreError>
    requires accepted { IsAccepted world.now.world changes.now }
    requires limits { AreLimits limits.now }
    ensures batch { IfOk result (IsBatchOf journal.now.version false changes.now) }
    ensures nodes { OnOk result (length (applied world.now.world changes.now).nodes ≤ limits.now.max_nodes) }
    ensures refused { IfErr result (RefusesChanges journal.now limits.now world.now.world changes.now) }
{
    let payload = write_changes(alloc, changes)?;
    let nodes = nodes_after(world, changes);
    if nodes > limits.max_nodes as u64 {
        return Err(StoreError::Full(What::Nodes, nodes, limits.max_nodes as u64));
    }
    let version = journal.version();
    match Batch::of(alloc, version, false, payload.bytes()) {
        Ok(batch) => Ok(batch),
        Err(JournalError::Full(_, _)) => {
            let count = journal.size_with(payload.bytes());
            Err(StoreError::Full(What::Bytes, count, byte_limit(version, limits.max_bytes)))
        }
        Err(JournalError::OutOfMemory) => Err(StoreError::OutOfMemory),
        Err(JournalError::DiskFault | JournalError::Damaged(..)) => unreachable!(),
    }
}

/// The batch of changes, where they are within the limits and the world has room for them.
pub fn prepare(
    alloc: Global,
    world: &mut World,
    journal: &Journal,
    changes: &Changes,
    limits: &Limits,
) -> Result<Batch, StoreError>
    requires accepted { IsAccepted world.old.world changes.now }
    requires limits { AreLimits limits.now }
    ensures batch { IfOk result (IsBatchOf journal.now.version false changes.now) }
    ensures nodes { OnOk result (length (applied world.old.world changes.now).nodes ≤ limits.now.max_nodes) }
    ensures refused { IfErr result (RefusesChanges journal.now limits.now world.old.world changes.now) }
    ensures same { world.new.world ≡ world.old.world }
    ensures room { OnOk result (HasRoom world.new.room changes.now) }
{
    let batch = batch_of(alloc, world, journal, changes, limits)?;
    world.reserve(alloc, changes)?;
    Ok(batch)
}

/// The batch of a world's snapshot, where there is a generation for it.
pub fn snapshot_batch(alloc: Global, world: &World, generation: u64) -> Result<Batch, StoreError>
    ensures batch { IfOk result (IsBatchOf 2 true (snapshot world.now.world)) }
    ensures fits { OnOk result (HasGeneration generation world.now.world) }
    ensures refused { IfErr result (RefusesSnapshot generation world.now.world) }
    ensures reached { OnOk result (IsReached world.now.world) }
{
    if generation > MOST_GENERATIONS {
        return Err(StoreError::Full(What::Generations, generation, MOST_GENERATIONS));
    }
    let _graph = world.graph();
    let payload = write_snapshot(alloc, world)?;
    match Batch::of(alloc, 2, true, payload.bytes()) {
        Ok(batch) => Ok(batch),
        Err(JournalError::Full(count, limit)) => Err(StoreError::Full(What::Bytes, count, limit)),
        Err(JournalError::OutOfMemory) => Err(StoreError::OutOfMemory),
        Err(JournalError::DiskFault | JournalError::Damaged(..)) => unreachable!(),
    }
}
