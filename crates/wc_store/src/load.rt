//! Stores that are made, and stores that are read.
ghost use Rattle.std.specs.Prelude.{◌≡◌, true, IsTrue, IfNone, IfOk, IfErr, IfSome, OnOk};
ghost use Rattle.wc_disk.specs.Steps.{Only};
ghost use Rattle.wc_disk.specs.Images.{LeavesOnly};
ghost use Rattle.wc_journal.specs.Reading.{journal_of, no_journal};
ghost use Rattle.wc_store.specs.Opened.{Opens, IsOpenedOf};
ghost use Rattle.wc_store.specs.Sights.{OfImages};
ghost use Rattle.wc_store.specs.Stores.{StandsFor, IsMadeOf, Loads, IsLoadedOf, IsNew, InTwoParts, AreImages, InitLeaves};
ghost use Rattle.wc_store.specs.Refusals.{Counts, RefusesLoad, RefusesInit, IsUnchanged};

use crate::choice::find_store;
use crate::error::StoreError;
use crate::place::Place;
use crate::replay::play;
use crate::store::Store;
use std::alloc::Global;
use wc_disk::Disk;
use wc_journal::{Journal, JournalError};
use wc_world::World;

/// What two disks hold: a store, or none. The digests of what its world has finished are made where they are asked for.
fn open<D: Disk>(
    alloc: Global,
    one: &mut D,
    two: &mut D,
    digests: bool,
) -> Result<Option<Store>, StoreError>
    ensures ok { IfOk result (λ found. IsTrue (D.tells one.old) → IsTrue (D.tells two.old) → Opens D.Disk found one.new two.new) }
    ensures images { IfOk result (λ found. OfImages D.Disk one.old two.old (IsOpenedOf found)) }
    ensures live { IfOk result (λ found. IfSome found (λ store. store.live ≡ true)) }
    ensures bare { IfOk result (λ found. IfNone found (IsTrue (D.tells one.old) → journal_of (D.seen one.old) ≡ no_journal)) }
    ensures refused { IfErr result (RefusesLoad D.Disk one.old two.old) }
    ensures durable_one { OnOk result (Only (D.seen one.new) (D.may_leave one.new)) }
    ensures durable_two { OnOk result (Only (D.seen two.new) (D.may_leave two.new)) }
    ensures seen_one { D.seen one.new ≡ D.seen one.old }
    ensures seen_two { D.seen two.new ≡ D.seen two.old }
    ensures any_moment_one { LeavesOnly D.Disk one.old one.new (D.may_leave one.old) }
    ensures any_moment_two { LeavesOnly D.Disk two.old two.new (D.may_leave two.old) }
    ensures tells_one { D.tells one.new ≡ D.tells one.old }
    ensures tells_two { D.tells two.new ≡ D.tells two.old }
    ensures cause { Counts result (D.faults one.old) (D.faults one.new) (D.faults two.old) (D.faults two.new) (D.failed one.new) (D.failed two.new) }
{
    let Some((place, loaded)) = find_store(alloc, one, two)? else {
        return Ok(None);
    };
    let generation = loaded.journal.generation();
    let world = play(alloc, place.number(), generation, &loaded.batches, digests)?;
    Ok(Some(Store {
        world,
        journal: loaded.journal,
        place,
        live: true,
    }))
}

impl Store {
    /// Makes an empty store of generation 1 on disk one.
    pub fn init<D: Disk>(alloc: Global, one: &mut D, two: &mut D) -> Result<Store, StoreError>
        ensures ok { IfOk result (λ store. IsTrue (D.tells one.old) → IsTrue (D.tells two.old) → StandsFor D.Disk store one.new two.new) }
        ensures made { IfOk result IsNew }
        // The disks held nothing, where they tell their bytes; and whatever two such images are, with some image of disk one they hold the store.
        ensures images { IfOk result (λ store. OfImages D.Disk one.old two.old (IsMadeOf store)) }
        // That a store is there is told of two images that hold a world, and damage of two that hold it: those that the disks read as, where they tell their bytes.
        ensures refused { IfErr result (RefusesInit D.Disk one.old two.old) }
        ensures kept { IsUnchanged result (D.seen one.old) (D.seen one.new) }
        ensures seen_two { D.seen two.new ≡ D.seen two.old }
        ensures any_moment_two { LeavesOnly D.Disk two.old two.new (D.may_leave two.old) }
        // Each image is one that a crash at entry might have left, or, where the disks held nothing, holds nothing or the empty world by the first journal.
        ensures parts { IsTrue (D.tells one.old) → IsTrue (D.tells two.old) → InitLeaves D.Disk result one.old two.old one.new two.new }
        ensures tells { (D.tells one.new ≡ D.tells one.old) × (D.tells two.new ≡ D.tells two.old) }
        ensures cause { Counts result (D.faults one.old) (D.faults one.new) (D.faults two.old) (D.faults two.new) (D.failed one.new) (D.failed two.new) }
    {
        if open(alloc, one, two, false)?.is_some() {
            return Err(StoreError::AlreadyThere);
        }
        match Journal::create(one, 1) {
            Err(JournalError::DiskFault) => Err(StoreError::DiskFault),
            Err(_) => unreachable!(),
            Ok(journal) => Ok(Store {
                world: World::new(alloc),
                journal,
                place: Place::One,
                live: true,
            }),
        }
    }

    /// The store that two disks hold, or none where they hold none. Where turns are to be taken, ask for the digests of what its
    /// world has finished: without them the search for a calculation with the same key looks at each process.
    pub fn load<D: Disk>(
        alloc: Global,
        one: &mut D,
        two: &mut D,
        digests: bool,
    ) -> Result<Option<Store>, StoreError>
        ensures ok { IfOk result (λ store. IsTrue (D.tells one.old) → IsTrue (D.tells two.old) → Loads D.Disk store one.new two.new) }
        ensures images { IfOk result (λ store. OfImages D.Disk one.old two.old (IsLoadedOf store)) }
        ensures live { IfOk result (λ store. IfSome store (λ s. s.live ≡ true)) }
        ensures refused { IfErr result (RefusesLoad D.Disk one.old two.old) }
        ensures seen { (D.seen one.new ≡ D.seen one.old) × (D.seen two.new ≡ D.seen two.old) }
        ensures any_moment_one { LeavesOnly D.Disk one.old one.new (D.may_leave one.old) }
        ensures any_moment_two { LeavesOnly D.Disk two.old two.new (D.may_leave two.old) }
        ensures parts { OnOk result (InTwoParts D.Disk one.old two.old one.new two.new (AreImages (D.seen one.old) (D.seen two.old))) }
        ensures tells { (D.tells one.new ≡ D.tells one.old) × (D.tells two.new ≡ D.tells two.old) }
        ensures cause { Counts result (D.faults one.old) (D.faults one.new) (D.faults two.old) (D.faults two.new) (D.failed one.new) (D.failed two.new) }
    {
        open(alloc, one, two, digests)
    }
}
