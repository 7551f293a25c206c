//! The lowest valid source with a key.

ghost use Rattle.std.specs.Prelude.{◌≡◌, ◌+◌, ◌↔◌, IsTrue, IsSome, IfOk, IfSome};
ghost use Rattle.wc_state.specs.declared.record.ProcessRecord.{ProcessRecord};
ghost use Rattle.sha2.specs.Sha256.{sha256};
ghost use Rattle.wc_keys.specs.Order.{IsPartOf};
ghost use Rattle.wc_world.specs.Keys.{digest_at};
ghost use Rattle.wc_world.specs.Records.{find_record};
ghost use Rattle.wc_machine.specs.Ends.{TakesSource};
ghost use Rattle.wc_machine.specs.Recorded.{its_definition};
ghost use Rattle.wc_machine.specs.Sources.{IsLowestSource};
ghost use Rattle.wc_cache.specs.Sources.{IsLowestWith, IsSourceWith};
ghost use Rattle.wc_cache.specs.Keys.{IsKeyOf};

use crate::keys::key_of_process;
use crate::sources::is_valid;
use std::alloc::{AllocError, Global};
use wc_keys::{Sealed, digest_of};
use wc_state::ProcessRecord;
use wc_world::{World, reached_worlds_are_consistent};

/// Whether a process of the world whose definition is there has this key.
fn has_key(
    alloc: Global,
    world: &World,
    process: &ProcessRecord,
    key: &[u8],
) -> Result<bool, AllocError>
    requires there { IsSome (find_record process.now.node world.now.world.records) }
    requires defined { IsSome (its_definition world.now.world process.now) }
    ensures { IfOk result (λ has. IsTrue has ↔ IsKeyOf world.now.world process.now key.now) }
{
    let own = key_of_process(alloc, world, process)?;
    Ok(own.bytes() == key)
}

/// Whether a process of the world is a valid source with this key for a start in the next batch.
fn is_source(
    alloc: Global,
    world: &World,
    process: &ProcessRecord,
    key: &[u8],
) -> Result<bool, AllocError>
    requires { IsSome (find_record process.now.node world.now.world.records) }
    ensures { IfOk result (λ is. IsTrue is ↔ IsSourceWith world.now.world (world.now.world.batches + 1) key.now process.now) }
{
    if !is_valid(world, process) {
        return Ok(false);
    }
    has_key(alloc, world, process, key)
}

/// The lowest valid source with this key among those calculations that have finished with the digest of the key.
fn find_among(
    alloc: Global,
    world: &World,
    key: &[u8],
    seals: &[Sealed],
) -> Result<Option<u32>, AllocError>
    requires { IsPartOf (digest_at world.now.world) (sha256 key.now) seals.now }
    ensures { IfOk result (IsLowestWith world.now.world (world.now.world.batches + 1) key.now) }
{
    // A reached world is consistent, so that each of its processes is found by its number.
    let _ = world.graph();
    reached_worlds_are_consistent();
    for seal in seals {
        let process = world.record_of(seal.pid).unwrap();
        let is = is_source(alloc, world, process, key)?;
        if is {
            return Ok(Some(seal.pid));
        }
    }
    Ok(None)
}

/// The same, where the digests aren't made: each process is looked at.
fn find_in_all(alloc: Global, world: &World, key: &[u8]) -> Result<Option<u32>, AllocError>
    ensures { IfOk result (IsLowestWith world.now.world (world.now.world.batches + 1) key.now) }
{
    let _ = world.graph();
    reached_worlds_are_consistent();
    for process in world.records().as_slice() {
        let is = is_source(alloc, world, process, key)?;
        if is {
            return Ok(Some(process.node));
        }
    }
    Ok(None)
}

/// The lowest valid source with this key for a start in the next batch, if there is one.
fn find_lowest(alloc: Global, world: &World, key: &[u8]) -> Result<Option<u32>, AllocError>
    ensures { IfOk result (IsLowestWith world.now.world (world.now.world.batches + 1) key.now) }
{
    let digest = digest_of(key);
    match world.with_digest(digest.as_slice()) {
        Some(seals) => find_among(alloc, world, key, seals),
        None => find_in_all(alloc, world, key),
    }
}

/// The lowest valid source with this key for a start in the next batch, if there is one. So it is the source of each
/// process that has the key. Of the calculations that have finished, those with the digest of the key alone are looked at,
/// where the world's digests are made, and else all.
pub fn find(alloc: Global, world: &World, key: &[u8]) -> Result<Option<u32>, AllocError>
    // The process that is named is the lowest valid source with this key for a start in the next batch, and none is named only where there is none.
    ensures lowest { IfOk result (IsLowestWith world.now.world (world.now.world.batches + 1) key.now) }
    // Each process with this key has this source.
    ensures source { IfOk result (λ source. (r : ProcessRecord) → IsKeyOf world.now.world r key.now
        → IsLowestSource world.now.world (world.now.world.batches + 1) r source) }
{
    find_lowest(alloc, world, key)
}

/// The source that a process takes where it starts in the next batch: with caching on the lowest that there is, else
/// none.
pub fn source_of(alloc: Global, world: &World, pid: u32) -> Result<Option<u32>, AllocError>
    // There is a process with this number.
    requires { IsSome (find_record pid world.now.world.records) }
    ensures { IfOk result (λ source. IfSome (find_record pid world.now.world.records) (λ r. TakesSource world.now.world r source)) }
{
    // A reached world is consistent, so that each of its processes has a definition.
    let _ = world.graph();
    reached_worlds_are_consistent();
    let process = world.record_of(pid).unwrap();
    if !process.caching {
        return Ok(None);
    }
    let key = key_of_process(alloc, world, process)?;
    find(alloc, world, key.bytes())
}
