//! What two disks hold, and what is told of a store's refusals.

ghost use Rattle.std.specs.Prelude.{◌≡◌, ◌↔◌, Some, IsTrue, IsErrOf, IfOk};
ghost use Rattle.wc_disk.specs.Images.{LeavesOnly};
ghost use Rattle.wc_act.specs.Counts.{CountsDisks};
ghost use Rattle.wc_act.specs.Opened.{store_reply, Opens, IsHeldLive, IsToldReplied, TellsFault, IsToldUndone};
ghost use Rattle.wc_act.specs.Statuses.{IsRefused};
ghost use Rattle.wc_act.specs.StoreDeeds.{byte_of, is_damaged, is_full};
ghost use Rattle.wc_act.specs.Undone.{LeavesUnwritten};

use crate::error::ActError;
use std::alloc::{AllocError, Global};
use wc_disk::Disk;
use wc_journal::Found;
use wc_plan::{Cause, Reply, Status, refuse};
use wc_report::{damaged_text, full_text};
use wc_state::What;
use wc_store::{Store, StoreError};

/// What two disks hold for a deed.
#[derive(Drop)]
pub enum Opened {
    /// There is no world, which this tells.
    Reply(Reply),
    /// The store.
    Store(Store),
}

/// The byte that was found, if it wasn't the end.
fn byte_of(found: Found) -> Option<u8>
    ensures { result ≡ byte_of found }
{
    match found {
        Found::Byte(byte) => Some(byte),
        Found::End => None,
    }
}

/// A damaged store.
pub(crate) fn damaged(alloc: Global, disk: u8, at: u64, found: Found) -> Result<Reply, AllocError>
    ensures { IfOk result (λ r. r ≡ is_damaged disk at found) }
{
    let found = byte_of(found);
    Ok(Reply {
        status: Status::Damaged(disk, at, found),
        text: damaged_text(alloc, disk, at, found)?,
    })
}

/// A full store.
pub(crate) fn full(alloc: Global, what: What, count: u64, limit: u64) -> Result<Reply, AllocError>
    ensures { IfOk result (λ r. r ≡ is_full what count limit) }
{
    Ok(Reply {
        status: Status::Full(what, count, limit),
        text: full_text(alloc, what, count, limit)?,
    })
}

/// What is told of a store's refusal.
pub(crate) fn refused(alloc: Global, error: StoreError) -> Result<Reply, ActError>
    ensures reply { IfOk result (λ r. store_reply error ≡ Some r) }
    ensures replied { IfOk result (λ r. IsRefused r.status) }
    ensures fault { TellsFault error result }
    ensures cause { IsErrOf result ActError.DiskFault ↔ (error ≡ StoreError.DiskFault) }
{
    match error {
        StoreError::DiskFault => Err(ActError::DiskFault),
        StoreError::OutOfMemory => Err(ActError::OutOfMemory),
        StoreError::Damaged(disk, at, found) => Ok(damaged(alloc, disk, at, found)?),
        StoreError::Full(what, count, limit) => Ok(full(alloc, what, count, limit)?),
        StoreError::AlreadyThere => Ok(refuse(alloc, Cause::StoreExists)?),
    }
}

/// Reads what two disks hold, with the digests of what has finished where they are asked for.
pub(crate) fn open_store<D: Disk>(
    alloc: Global,
    one: &mut D,
    two: &mut D,
    digests: bool,
) -> Result<Opened, ActError>
    ensures opens { IfOk result (λ o. Opens D.Disk one.old two.old one.new two.new o) }
    ensures live { IfOk result (λ o. IsHeldLive o) }
    ensures replied { IfOk result (λ o. IsToldReplied o) }
    ensures any_moment_one { LeavesOnly D.Disk one.old one.new (D.may_leave one.old) }
    ensures any_moment_two { LeavesOnly D.Disk two.old two.new (D.may_leave two.old) }
    ensures undone { IfOk result (λ o. IsToldUndone o) }
    ensures tells { (D.tells one.new ≡ D.tells one.old) × (D.tells two.new ≡ D.tells two.old) }
    ensures unwritten { LeavesUnwritten D.Disk one.old two.old one.new two.new }
    ensures cause { CountsDisks result (D.faults one.old) (D.faults one.new) (D.faults two.old) (D.faults two.new) (D.failed one.new) (D.failed two.new) }
{
    match Store::load(alloc, one, two, digests) {
        Ok(Some(store)) => Ok(Opened::Store(store)),
        Ok(None) => Ok(Opened::Reply(refuse(alloc, Cause::NoStore)?)),
        Err(error) => Ok(Opened::Reply(refused(alloc, error)?)),
    }
}
