//! The world that the batches of a journal make.
ghost use Rattle.std.specs.Prelude.{◌≡◌, true, false, IfOk, IfErr, OnOk};
ghost use Rattle.wc_journal.specs.Reading.{is_snapshot_place};
ghost use Rattle.wc_record.specs.Reading.{whole};
ghost use Rattle.wc_world.specs.Applied.{applied};
ghost use Rattle.wc_world.specs.Accepted.{IsAccepted};
ghost use Rattle.wc_store.specs.Held.{is_plain, suits};
ghost use Rattle.wc_store.specs.Played.{has_last_count, may_suit, RefusesReading, RefusesChanges, RefusesPayload, IsPlayed, stop_of, Makes, RefusesBatches, RefusesPlaying};

use crate::error::StoreError;
use std::alloc::{AllocError, Global};
use wc_journal::Batches;
use wc_record::{RecordError, SharedLibraries, read_changes};
use wc_world::{Change, Changes, Played, World, WorldError};

/// Why a payload isn't played.
enum Unplayed {
    /// Its reading stops at this byte of it.
    Unread(usize),
    /// Its changes don't fit.
    Unfit,
    /// Memory ran out.
    OutOfMemory,
}

/// Why batches aren't played.
enum Stop {
    /// A disk that has them is damaged at this offset.
    At(u64),
    /// Memory ran out.
    OutOfMemory,
}

/// Whether no change is a count or a kept.
fn is_plain(changes: &[Change]) -> bool
    ensures { result ≡ is_plain changes.now }
{
    for change in changes {
        if matches!(change, Change::Count(_) | Change::Kept(_)) {
            return false;
        }
    }
    true
}

/// Whether the last change is a count.
fn has_last_count(changes: &[Change]) -> bool
    ensures { result ≡ has_last_count changes.now }
{
    match changes.last() {
        Some(Change::Count(_)) => true,
        _ => false,
    }
}

/// Whether changes may be a snapshot, or another batch, if a world accepts them: it takes a count only at the end of a snapshot, whose
/// order it looks at. So that is looked at once.
#[tactic(auto, using(crate::proofs::Suiting::unsuited))]
fn may_suit(snapshot: bool, changes: &[Change]) -> bool
    ensures value { result ≡ may_suit snapshot changes.now }
    ensures unsuited { result ≡ false → suits snapshot changes.now ≡ false }
{
    if snapshot {
        has_last_count(changes)
    } else {
        is_plain(changes)
    }
}

/// Reads a payload.
fn changes_of(
    alloc: Global,
    payload: &[u8],
    read: &mut SharedLibraries,
) -> Result<Changes, Unplayed>
    ensures ok { IfOk result (λ changes. whole payload.now (Ok changes)) }
    ensures refused { IfErr result (RefusesReading payload.now) }
{
    match read_changes(alloc, payload, read) {
        Ok(changes) => Ok(changes),
        Err(RecordError::OutOfMemory) => Err(Unplayed::OutOfMemory),
        Err(
            RecordError::Truncated(at)
            | RecordError::BadTag(at)
            | RecordError::NotUtf8(at)
            | RecordError::Unsorted(at)
            | RecordError::TooDeep(at)
            | RecordError::Trailing(at)
            | RecordError::BadLibrary(at),
        ) => Err(Unplayed::Unread(at)),
    }
}

/// What changes make of what was played, where it accepts them. Those that may suit suit then.
#[tactic(auto, using(crate::proofs::Suiting::suited, crate::proofs::Suiting::unfit))]
fn take(alloc: Global, played: Played, snapshot: bool, changes: Changes) -> Result<Played, Unplayed>
    requires { may_suit snapshot changes ≡ true }
    ensures suit { OnOk result (suits snapshot changes ≡ true) }
    ensures accepted { OnOk result (IsAccepted played changes) }
    ensures after { IfOk result (λ after. after ≡ applied played changes) }
    ensures refused { IfErr result (RefusesChanges snapshot played changes) }
{
    match Played::play(alloc, played, changes) {
        Ok(after) => Ok(after),
        Err(WorldError::OutOfMemory) => Err(Unplayed::OutOfMemory),
        Err(_) => Err(Unplayed::Unfit),
    }
}

/// What one payload makes of what was played.
fn play_one(
    alloc: Global,
    played: Played,
    snapshot: bool,
    payload: &[u8],
    read: &mut SharedLibraries,
) -> Result<Played, Unplayed>
    ensures ok { IfOk result (λ after. IsPlayed snapshot payload.now played after) }
    ensures refused { IfErr result (RefusesPayload snapshot payload.now played) }
{
    let changes = changes_of(alloc, payload, read)?;
    if !may_suit(snapshot, changes.as_slice()) {
        return Err(Unplayed::Unfit);
    }
    take(alloc, played, snapshot, changes)
}

/// Whether the batch of this number is a snapshot.
fn is_snapshot(generation: u64, number: usize) -> bool
    ensures { result ≡ is_snapshot_place generation number }
{
    number == 0 && generation >= 2
}

/// Where a disk is damaged that has a payload at this offset which isn't played.
fn stop_of(at: u64, unplayed: Unplayed) -> Stop
    ensures { result ≡ stop_of at unplayed }
{
    match unplayed {
        Unplayed::Unread(within) => Stop::At(at.saturating_add(within as u64)),
        Unplayed::Unfit => Stop::At(at),
        Unplayed::OutOfMemory => Stop::OutOfMemory,
    }
}

/// What all batches make of the empty world.
fn play_all(alloc: Global, generation: u64, batches: &Batches) -> Result<Played, Stop>
    ensures ok { IfOk result (λ played. Makes generation batches.now.placed played) }
    ensures refused { IfErr result (RefusesBatches generation batches.now.placed) }
{
    let mut played = Played::new(alloc);
    let mut read = SharedLibraries::new(alloc);
    for number in 0..batches.len() {
        let (at, payload) = batches.payload(number);
        let snapshot = is_snapshot(generation, number);
        match play_one(alloc, played, snapshot, payload, &mut read) {
            Ok(after) => played = after,
            Err(unplayed) => return Err(stop_of(at, unplayed)),
        }
    }
    Ok(played)
}

/// The world that was played, with the digests of what it has finished where they are asked for.
fn world_of(alloc: Global, played: Played, digests: bool) -> Result<World, AllocError>
    ensures { IfOk result (λ world. world.world ≡ played) }
{
    let mut world = World::of(alloc, played)?;
    if digests {
        world.make_digests(alloc)?;
    }
    Ok(world)
}

/// The world that the batches of the disk of this number make of the empty one, with its digests where they are asked for.
pub fn play(
    alloc: Global,
    number: u8,
    generation: u64,
    batches: &Batches,
    digests: bool,
) -> Result<World, StoreError>
    ensures ok { IfOk result (λ world. Makes generation batches.now.placed world.world) }
    ensures refused { IfErr result (RefusesPlaying number batches.now.image generation batches.now.placed) }
{
    match play_all(alloc, generation, batches) {
        Ok(played) => Ok(world_of(alloc, played, digests)?),
        Err(Stop::At(at)) => Err(StoreError::Damaged(number, at, batches.found_at(at))),
        Err(Stop::OutOfMemory) => Err(StoreError::OutOfMemory),
    }
}
