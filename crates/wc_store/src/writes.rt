//! What is written at the disk of a place.
ghost use Rattle.std.specs.Prelude.{◌≡◌, ◌≤◌, true, length, IsTrue};
ghost use Rattle.wc_disk.specs.Steps.{Only};
ghost use Rattle.wc_journal.specs.Reading.{journal_of, batches_of, is_snapshot_place};
ghost use Rattle.wc_journal.specs.Batches.{payload_of};
ghost use Rattle.wc_journal.specs.Journals.{IsSettled};
ghost use Rattle.wc_store.specs.Places.{its};
ghost use Rattle.wc_store.specs.Writes.{IsOfWriting, IsToldAs, Appends, Replaces};
ghost use Rattle.wc_store.specs.Stores.{other};

use crate::error::StoreError;
use crate::place::Place;
use std::alloc::Global;
use wc_disk::Disk;
use wc_journal::{Batch, Journal, JournalError};
use wc_state::What;

/// A journal's refusal of what is written, which is never damage.
fn refusal_of(error: JournalError) -> StoreError
    requires { IsOfWriting error }
    ensures { IsToldAs error result }
{
    match error {
        JournalError::DiskFault => StoreError::DiskFault,
        JournalError::Full(count, limit) => StoreError::Full(What::Bytes, count, limit),
        JournalError::OutOfMemory => StoreError::OutOfMemory,
        JournalError::Damaged(..) => unreachable!(),
    }
}

/// Adds a batch to the journal of this disk.
fn append_to<D: Disk>(
    journal: &mut Journal,
    disk: &mut D,
    batch: &Batch,
    limit: u64,
) -> Result<(), StoreError>
    requires settled { IsTrue (D.tells disk.old) → IsSettled D.Disk journal.old disk.old }
    requires version { batch.now.version ≡ journal.old.version }
    requires kind { IsTrue (D.tells disk.old) → batch.now.snapshot ≡ is_snapshot_place journal.old.generation (length (batches_of (journal_of (D.seen disk.old)))) }
    ensures { Appends D.Disk (payload_of batch.now) limit journal.old journal.new disk.old disk.new result }
{
    match journal.append(disk, batch, limit) {
        Ok(()) => Ok(()),
        Err(error) => Err(refusal_of(error)),
    }
}

/// Adds a batch to the journal of the disk at the place.
pub fn append_at<D: Disk>(
    journal: &mut Journal,
    place: Place,
    one: &mut D,
    two: &mut D,
    batch: &Batch,
    limit: u64,
) -> Result<(), StoreError>
    requires settled { IsTrue (D.tells (its place one.old two.old)) → IsSettled D.Disk journal.old (its place one.old two.old) }
    requires version { batch.now.version ≡ journal.old.version }
    requires kind { IsTrue (D.tells (its place one.old two.old))
        → batch.now.snapshot ≡ is_snapshot_place journal.old.generation (length (batches_of (journal_of (D.seen (its place one.old two.old))))) }
    ensures appends { Appends D.Disk (payload_of batch.now) limit journal.old journal.new (its place one.old two.old) (its place one.new two.new) result }
    ensures untouched { other place one.new two.new ≡ other place one.old two.old }
{
    match place {
        Place::One => append_to(journal, one, batch, limit),
        Place::Two => append_to(journal, two, batch, limit),
    }
}

/// Makes a journal with one snapshot on this disk.
fn replace_by<D: Disk>(
    alloc: Global,
    disk: &mut D,
    generation: u64,
    batch: &Batch,
) -> Result<Journal, StoreError>
    requires generation { 2 ≤ generation }
    requires durable { IsTrue (D.tells disk.old) → Only (D.seen disk.old) (D.may_leave disk.old) }
    requires version { batch.now.version ≡ 2 }
    requires snapshot { batch.now.snapshot ≡ true }
    ensures { Replaces D.Disk generation (payload_of batch.now) disk.old disk.new result }
{
    match Journal::replace(alloc, disk, generation, batch) {
        Ok(journal) => Ok(journal),
        Err(error) => Err(refusal_of(error)),
    }
}

/// Makes a journal with one snapshot on the disk that isn't at the place.
pub fn replace_beside<D: Disk>(
    alloc: Global,
    place: Place,
    one: &mut D,
    two: &mut D,
    generation: u64,
    batch: &Batch,
) -> Result<Journal, StoreError>
    requires generation { 2 ≤ generation }
    requires durable { IsTrue (D.tells (other place one.old two.old)) → Only (D.seen (other place one.old two.old)) (D.may_leave (other place one.old two.old)) }
    requires version { batch.now.version ≡ 2 }
    requires snapshot { batch.now.snapshot ≡ true }
    ensures replaces { Replaces D.Disk generation (payload_of batch.now) (other place one.old two.old) (other place one.new two.new) result }
    ensures untouched { its place one.new two.new ≡ its place one.old two.old }
{
    match place {
        Place::One => replace_by(alloc, two, generation, batch),
        Place::Two => replace_by(alloc, one, generation, batch),
    }
}
