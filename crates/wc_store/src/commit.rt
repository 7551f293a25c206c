//! Changes that are stored, and a world that is packed.
ghost use Rattle.std.specs.Prelude.{◌≡◌, ◌+◌, [], ◌∷◌, true, length, max, Err, IsTrue, IfOk, IfErr, OnOk, OnErr};
ghost use Rattle.wc_journal.specs.Reading.{holds, journal_of};
ghost use Rattle.wc_journal.specs.Journals.{StaysWithin};
ghost use Rattle.wc_record.specs.Spelled.{spelled};
ghost use Rattle.wc_world.specs.Accepted.{IsAccepted};
ghost use Rattle.wc_world.specs.Snapshot.{snapshot};
ghost use Rattle.wc_store.specs.Places.{its};
ghost use Rattle.wc_store.specs.Held.{is_plain};
ghost use Rattle.wc_store.specs.Stepped.{Called, IsAsBefore, IsCommitted, IsOrCommitted, IsPacked, Stepped};
ghost use Rattle.wc_store.specs.Stores.{StandsFor, PackLeaves, packed_image, other};
ghost use Rattle.wc_state.specs.Ranges.{AreLimits};
ghost use Rattle.wc_store.specs.Refusals.{RefusesCommit, RefusesPack, IsUnchanged, is_live_after, committed_bytes};

use crate::batches::{byte_limit, prepare, snapshot_batch};
use crate::error::StoreError;
use crate::store::Store;
use crate::writes::{append_at, replace_beside};
use std::alloc::Global;
use wc_disk::Disk;
use wc_state::Limits;
use wc_world::Changes;

/// Whether a store is live after this refusal.
fn is_live_after(error: &StoreError) -> bool
    ensures { result ≡ is_live_after {T = Unit {0}} (Err error.now) true }
{
    !matches!(error, StoreError::DiskFault)
}

impl Store {
    /// Stores changes and applies them to the world, as one batch. All memory is taken before the first call of a disk.
    pub fn commit<D: Disk>(
        &mut self,
        alloc: Global,
        one: &mut D,
        two: &mut D,
        changes: Changes,
        limits: &Limits,
    ) -> Result<(), StoreError>
        requires live { self.old.live ≡ true }
        requires stands { IsTrue (D.tells one.old) → IsTrue (D.tells two.old) → StandsFor D.Disk self.old one.old two.old }
        requires accepted { IsAccepted self.old.world.world changes }
        requires plain { is_plain changes ≡ true }
        requires limits { AreLimits limits.now }
        // At each moment, and then, the disks hold the world before or the one after the changes, each by its journal.
        ensures stepped { Stepped D.Disk (IsOrCommitted limits.now changes self.old) (is_live_after result true) self.old one.old two.old self.new one.new two.new }
        ensures done { OnOk result (IsCommitted limits.now changes self.old self.new.world.world self.new.journal) }
        ensures same { OnErr result (IsAsBefore self.old self.new.world.world self.new.journal) }
        ensures refused { IfErr result (RefusesCommit self.old.journal limits.now self.old.world.world changes) }
        ensures untouched { IsUnchanged result one.old one.new × IsUnchanged result two.old two.new }
        // The store's file gets no longer than the batch makes its journal, and stays as long as it was where that is more.
        ensures no_longer { IsTrue (D.tells one.old) → IsTrue (D.tells two.old) → StaysWithin D.Disk
            (max (length (D.seen (its self.old.place one.old two.old))) (committed_bytes self.old.journal changes))
            (its self.old.place one.old two.old) (its self.old.place one.new two.new) }
    {
        let batch = prepare(alloc, &mut self.world, &self.journal, &changes, limits)?;
        let version = self.journal.version();
        let limit = byte_limit(version, limits.max_bytes);
        match append_at(&mut self.journal, self.place, one, two, &batch, limit) {
            Ok(()) => {
                self.world.apply(changes);
                Ok(())
            }
            Err(error) => {
                self.live = is_live_after(&error);
                Err(error)
            }
        }
    }

    /// Writes the world to the other disk as a journal of the next generation with one snapshot, and answers that generation.
    /// All memory is taken before the first call of a disk.
    pub fn pack<D: Disk>(
        &mut self,
        alloc: Global,
        one: &mut D,
        two: &mut D,
    ) -> Result<u64, StoreError>
        requires live { self.old.live ≡ true }
        requires stands { IsTrue (D.tells one.old) → IsTrue (D.tells two.old) → StandsFor D.Disk self.old one.old two.old }
        ensures call { Called D.Disk (is_live_after result true) one.old two.old self.new one.new two.new }
        ensures packed { IfOk result (IsPacked self.old self.new) }
        ensures world { self.new.world.world ≡ self.old.world.world }
        ensures written { OnOk result (IsTrue (D.tells one.old) → IsTrue (D.tells two.old)
            → (journal_of (D.seen (other self.old.place one.new two.new))
            ≡ holds 2 (self.old.journal.generation + 1) ((26, spelled (snapshot self.old.world.world)) ∷ []))
            × (D.seen (other self.old.place one.new two.new) ≡ packed_image (self.old.journal.generation + 1) self.old.world.world)) }
        ensures refused { IfErr result (RefusesPack self.old.journal.generation self.old.world.world) }
        ensures kept { OnErr result ((self.new.place ≡ self.old.place) × (self.new.journal ≡ self.old.journal)) }
        ensures untouched { IsUnchanged result one.old one.new × IsUnchanged result two.old two.new }
        // At each moment, and then, the disks hold the world, by the store's journal where it is, or by the next one on the other disk.
        ensures moments { IsTrue (D.tells one.old) → IsTrue (D.tells two.old)
            → PackLeaves D.Disk self.old one.old two.old one.new two.new }
    {
        let generation = self.journal.generation();
        let batch = snapshot_batch(alloc, &self.world, generation)?;
        match replace_beside(alloc, self.place, one, two, generation + 1, &batch) {
            Ok(journal) => {
                self.journal = journal;
                self.place = self.place.other();
                Ok(generation + 1)
            }
            Err(error) => {
                self.live = is_live_after(&error);
                Err(error)
            }
        }
    }
}
