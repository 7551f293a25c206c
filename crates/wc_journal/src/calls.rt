//! The calls of a journal.
ghost use Rattle.std.specs.Prelude.{◌≡◌, ◌+◌, ◌-◌, ◌^◌, ◌<◌, ◌≤◌, ◌++◌, [], ◌∷◌, ℕ, true, length, min, max, IfNone, IfSome, IsTrue, IsErrOf, IfOk, IfErr, OnOk, OnErr};
ghost use Rattle.wc_disk.specs.Steps.{Only};
ghost use Rattle.wc_disk.specs.Images.{LeavesOnly};
ghost use Rattle.wc_journal.specs.Reading.{no_journal, holds, journal_of, batches_of, is_snapshot_place};
ghost use Rattle.wc_journal.specs.Frame.{heading, framed, most_of};
ghost use Rattle.wc_journal.specs.Spelled.{spelled};
ghost use Rattle.wc_journal.specs.Refusals.{size_after, RefusesAppend, RefusesImage, RefusesLoad, OnlyDiskFault, RefusesReading, CountsDiskFault, IfRead};
ghost use Rattle.wc_journal.specs.Batches.{payload_of};
ghost use Rattle.wc_journal.specs.Journals.{IsSettled, StaysWithin, with_batch, HoldsEither, IsReplaced, Gives, StandsFor};
ghost use Rattle.wc_journal.specs.Loading.{OfImage};

use crate::batch::Batch;
use crate::error::{Found, JournalError};
use crate::image;
use crate::journal::{Journal, Loaded};
use crate::steps::{FIRST, close_first, put, put_behind_first, read_synced};
use std::alloc::{AllocError, Global};
use wc_disk::Disk;

/// The byte of a gate that is open.
const OPEN: u8 = 1;

/// The version that new journals have.
const VERSION: u8 = 2;

/// The bytes of a header after the first, and a gate that is not open.
fn heading_and_gate(generation: u64) -> [u8; 16]
    ensures { result ≡ heading 2 generation ++ 0 ∷ [] }
{
    let [a, b, c, d, e, f, g, h] = generation.to_be_bytes();
    [
        0x43, 0x4A, 0x4E, 0x4C, 0, 0, VERSION, a, b, c, d, e, f, g, h, 0,
    ]
}

/// The bytes after the first of a journal with one batch.
fn one_batch(alloc: Global, generation: u64, batch: &Batch) -> Result<Vec<u8>, AllocError>
    requires { batch.now.version ≡ 2 }
    ensures { IfOk result (λ bytes. bytes.items ≡ heading 2 generation ++ 1 ∷ framed 2 batch.now.snapshot (payload_of batch.now)) }
{
    let header = heading_and_gate(generation);
    let mut bytes = Vec::with_capacity(alloc, header.len() + batch.bytes().len())?;
    let (heading, _gate) = header.split_at(15);
    bytes.extend_from_slice(heading)?;
    bytes.push(OPEN)?;
    bytes.extend_from_slice(batch.bytes())?;
    Ok(bytes)
}

/// How long the journal would be with a batch of so many bytes, where that is more than the limit.
fn overrun(end: u64, more: u64, limit: u64) -> Option<u64>
    ensures fits { IfNone result (end + 1 + more ≤ limit) }
    ensures over { IfSome result (λ count. (count ≡ min (end + 1 + more) (2 ^ 64 - 1)) × (limit < end + 1 + more)) }
{
    let gate = match end.checked_add(1) {
        None => return Some(u64::MAX),
        Some(gate) => gate,
    };
    match gate.checked_add(more) {
        None => Some(u64::MAX),
        Some(size) => { if size > limit { Some(size) } else { None } }
    }
}

/// What an image holds. The image is kept with its batches.
fn read_image(alloc: Global, image: Vec<u8>) -> Result<Option<Loaded>, JournalError>
    ensures ok { IfOk result (Gives image.items) }
    ensures refused { IfErr result (RefusesImage (journal_of image.items)) }
{
    let bytes = image.as_slice();
    if image::is_none(bytes) {
        return Ok(None);
    }
    if let Some((at, found)) = image::misfit(bytes) {
        return Err(JournalError::Damaged(at, found));
    }
    let generation = image::generation(bytes);
    if generation == 0 {
        return Err(JournalError::Damaged(15, Found::Byte(0)));
    }
    let version = bytes[7];
    match image::batches(alloc, image, version, generation) {
        Err(error) => Err(error),
        Ok((batches, end)) => Ok(Some(Loaded {
            journal: Journal {
                version,
                generation,
                end: end as u64,
            },
            batches,
        })),
    }
}

impl Journal {
    /// Makes an empty journal of version 2 on a disk that holds none. It takes no memory.
    pub fn create<D: Disk>(disk: &mut D, generation: u64) -> Result<Journal, JournalError>
        requires generation { 1 ≤ generation }
        requires durable { IsTrue (D.tells disk.old) → Only (D.seen disk.old) (D.may_leave disk.old) }
        requires none { IsTrue (D.tells disk.old) → journal_of (D.seen disk.old) ≡ no_journal }
        ensures version { IfOk result (λ journal. journal.version ≡ 2) }
        ensures generation { IfOk result (λ journal. journal.generation ≡ generation) }
        ensures end { IfOk result (λ journal. journal.end ≡ 16) }
        ensures settled { IfOk result (λ journal. IsTrue (D.tells disk.old) → IsSettled D.Disk journal disk.new) }
        ensures held { OnOk result (IsTrue (D.tells disk.old) → journal_of (D.seen disk.new) ≡ holds 2 generation []) }
        ensures written { OnOk result (IsTrue (D.tells disk.old) → D.seen disk.new ≡ spelled 2 generation [] ++ 0 ∷ []) }
        ensures any_moment { IsTrue (D.tells disk.old) → LeavesOnly D.Disk disk.old disk.new (HoldsEither no_journal (holds 2 generation [])) }
        ensures refused { IfErr result OnlyDiskFault }
        ensures tells { D.tells disk.new ≡ D.tells disk.old }
        ensures cause { CountsDiskFault result (D.faults disk.old) (D.faults disk.new) (D.failed disk.new) }
    {
        close_first(disk)?;
        put(disk, 1, &heading_and_gate(generation))?;
        put(disk, 0, &[FIRST])?;
        Ok(Journal {
            version: VERSION,
            generation,
            end: image::HEADER as u64,
        })
    }

    /// Syncs the disk, and reads the journal and its batches, or none where it holds none.
    pub fn load<D: Disk>(alloc: Global, disk: &mut D) -> Result<Option<Loaded>, JournalError>
        ensures ok { IfOk result (λ found. OfImage D.Disk disk.old (λ image. Gives image found)) }
        ensures stands { IfOk result (λ found. IsTrue (D.tells disk.old) → StandsFor D.Disk found disk.new) }
        ensures durable { IfRead result (Only (D.seen disk.new) (D.may_leave disk.new)) }
        ensures seen { D.seen disk.new ≡ D.seen disk.old }
        ensures any_moment { LeavesOnly D.Disk disk.old disk.new (D.may_leave disk.old) }
        ensures refused { IfErr result (RefusesLoad D.Disk disk.old) }
        ensures tells { D.tells disk.new ≡ D.tells disk.old }
        ensures cause { CountsDiskFault result (D.faults disk.old) (D.faults disk.new) (D.failed disk.new) }
    {
        match read_synced(alloc, disk) {
            Err(error) => Err(error),
            Ok(image) => read_image(alloc, image),
        }
    }

    /// Adds a batch. After Ok each crash leaves it; a crash in the call leaves the batches before, with or without
    /// it. It takes no memory.
    pub fn append<D: Disk>(
        &mut self,
        disk: &mut D,
        batch: &Batch,
        limit: u64,
    ) -> Result<(), JournalError>
        requires settled { IsTrue (D.tells disk.old) → IsSettled D.Disk self.old disk.old }
        requires version { batch.now.version ≡ self.old.version }
        requires kind { IsTrue (D.tells disk.old) → batch.now.snapshot ≡ is_snapshot_place self.old.generation (length (batches_of (journal_of (D.seen disk.old)))) }
        ensures settled { OnOk result (IsTrue (D.tells disk.old) → IsSettled D.Disk self.new disk.new) }
        ensures held { OnOk result (IsTrue (D.tells disk.old)
            → journal_of (D.seen disk.new) ≡ with_batch self.old (journal_of (D.seen disk.old)) (payload_of batch.now)) }
        ensures any_moment { IsTrue (D.tells disk.old) → LeavesOnly D.Disk disk.old disk.new
            (HoldsEither (journal_of (D.seen disk.old)) (with_batch self.old (journal_of (D.seen disk.old)) (payload_of batch.now))) }
        // At any moment of the call the disk is no longer than it was, or than the batch with its gate makes it. What its bytes are isn't said here.
        ensures no_longer { IsTrue (D.tells disk.old) → StaysWithin D.Disk
            (max (length (D.seen disk.old)) (size_after self.old.end self.old.version (payload_of batch.now))) disk.old disk.new }
        ensures fits { OnOk result (size_after self.old.end self.old.version (payload_of batch.now) ≤ limit) }
        ensures refused { IfErr result (RefusesAppend (size_after self.old.end self.old.version (payload_of batch.now)) limit) }
        ensures unwritten { (count most : ℕ) → IsErrOf result (JournalError.Full count most) → disk.new ≡ disk.old }
        ensures still { (count most : ℕ) → IsErrOf result (JournalError.Full count most) → IsTrue (D.tells disk.old) → IsSettled D.Disk self.new disk.new }
        ensures version { self.new.version ≡ self.old.version }
        ensures generation { self.new.generation ≡ self.old.generation }
        ensures longer { OnOk result (self.new.end + 1 ≡ size_after self.old.end self.old.version (payload_of batch.now)) }
        ensures kept { OnErr result (self.new.end ≡ self.old.end) }
        ensures tells { D.tells disk.new ≡ D.tells disk.old }
        ensures cause { CountsDiskFault result (D.faults disk.old) (D.faults disk.new) (D.failed disk.new) }
    {
        let bytes = batch.bytes();
        if let Some(count) = overrun(self.end, bytes.len() as u64, limit) {
            return Err(JournalError::Full(count, limit));
        }
        put(disk, self.end + 1, bytes)?;
        put(disk, self.end, &[OPEN])?;
        self.end += bytes.len() as u64;
        Ok(())
    }

    /// Makes a journal of version 2 that holds one snapshot, whatever the disk held. Until its last write each crash
    /// leaves a disk that counts as one without a journal.
    pub fn replace<D: Disk>(
        alloc: Global,
        disk: &mut D,
        generation: u64,
        batch: &Batch,
    ) -> Result<Journal, JournalError>
        requires generation { 2 ≤ generation }
        requires durable { IsTrue (D.tells disk.old) → Only (D.seen disk.old) (D.may_leave disk.old) }
        requires version { batch.now.version ≡ 2 }
        requires snapshot { batch.now.snapshot ≡ true }
        ensures version { IfOk result (λ journal. journal.version ≡ 2) }
        ensures generation { IfOk result (λ journal. journal.generation ≡ generation) }
        ensures end { IfOk result (λ journal. journal.end ≡ 26 + length (payload_of batch.now)) }
        ensures settled { IfOk result (λ journal. IsTrue (D.tells disk.old) → IsSettled D.Disk journal disk.new) }
        ensures held { OnOk result (IsTrue (D.tells disk.old) → journal_of (D.seen disk.new) ≡ holds 2 generation ((26, payload_of batch.now) ∷ [])) }
        ensures written { OnOk result (IsTrue (D.tells disk.old) → D.seen disk.new ≡ spelled 2 generation (payload_of batch.now ∷ []) ++ 0 ∷ []) }
        ensures any_moment { IsTrue (D.tells disk.old) → LeavesOnly D.Disk disk.old disk.new
            (IsReplaced (D.seen disk.old) (holds 2 generation ((26, payload_of batch.now) ∷ []))) }
        ensures refused { IfErr result RefusesReading }
        ensures untouched { IsErrOf result JournalError.OutOfMemory → disk.new ≡ disk.old }
        ensures tells { D.tells disk.new ≡ D.tells disk.old }
        ensures cause { CountsDiskFault result (D.faults disk.old) (D.faults disk.new) (D.failed disk.new) }
    {
        let bytes = one_batch(alloc, generation, batch)?;
        close_first(disk)?;
        put_behind_first(disk, &bytes)?;
        put(disk, 0, &[FIRST])?;
        Ok(Journal {
            version: VERSION,
            generation,
            end: bytes.len() as u64,
        })
    }
}
