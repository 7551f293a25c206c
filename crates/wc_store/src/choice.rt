//! Which of two disks a store is on.
ghost use Rattle.std.specs.Prelude.{◌≡◌, ℕ, List, None, IsTrue, IfNone, IfOk, IfErr, OnOk};
ghost use Rattle.wc_disk.specs.Steps.{Only, IsWithin};
ghost use Rattle.wc_disk.specs.Images.{LeavesOnly};
ghost use Rattle.wc_journal.specs.Reading.{journal_of, no_journal, damaged};
ghost use Rattle.wc_journal.specs.Loading.{OfImage};
ghost use Rattle.wc_store.specs.Places.{number_of, its};
ghost use Rattle.wc_store.specs.Choices.{settled_on, later_of, without_journal, chosen};
ghost use Rattle.wc_store.specs.Refusals.{RefusesLook, RefusesFinding, CountsOne, Counts};
ghost use Rattle.wc_store.specs.Sights.{Keeps, IsForeign, Shows, Tells, Finds, StandsAt, OfImages, IsOfStore, UnlessOfStore};

use crate::error::StoreError;
use crate::place::Place;
use std::alloc::Global;
use wc_disk::Disk;
use wc_io::Failed;
use wc_journal::{Found, Journal, JournalError, Loaded};

/// What one disk is seen to be.
#[derive(Drop)]
pub enum Seen {
    /// It holds no journal. Where it is longer than an unfinished header, this is its first byte.
    Bare(Option<Found>),
    /// It begins as a finished journal, and is damaged at this offset.
    Broken(u64, Found),
    /// It holds a journal.
    Holding(Loaded),
}

/// What two disks tell of a store.
#[derive(Drop)]
pub enum Verdict {
    /// There is none.
    NoStore,
    /// It is on this disk.
    On(Place, Loaded),
    /// This disk is damaged at this offset, where this was found.
    Damaged(Place, u64, Found),
}

/// What a disk is seen to be whose image is damaged as a journal.
fn damage_seen(at: u64, found: Found) -> Seen
    ensures { (image : List ℕ) → journal_of image ≡ damaged at found → Shows image result }
{
    if at == 0 {
        Seen::Bare(Some(found))
    } else {
        Seen::Broken(at, found)
    }
}

/// Syncs a disk and looks at it.
fn look<D: Disk>(alloc: Global, disk: &mut D) -> Result<Seen, StoreError>
    ensures shows { IfOk result (λ seen. OfImage D.Disk disk.old (λ image. Shows image seen)) }
    ensures durable { OnOk result (Only (D.seen disk.new) (D.may_leave disk.new)) }
    ensures seen { D.seen disk.new ≡ D.seen disk.old }
    ensures any_moment { LeavesOnly D.Disk disk.old disk.new (D.may_leave disk.old) }
    ensures refused { IfErr result RefusesLook }
    ensures tells { D.tells disk.new ≡ D.tells disk.old }
    ensures cause { CountsOne result (D.faults disk.old) (D.faults disk.new) (D.failed disk.new) }
{
    match Journal::load(alloc, disk) {
        Ok(None) => Ok(Seen::Bare(None)),
        Ok(Some(loaded)) => Ok(Seen::Holding(loaded)),
        Err(JournalError::Damaged(at, found)) => Ok(damage_seen(at, found)),
        Err(JournalError::DiskFault) => Err(StoreError::DiskFault),
        Err(JournalError::OutOfMemory) => Err(StoreError::OutOfMemory),
        Err(JournalError::Full(..)) => unreachable!(),
    }
}

/// A journal that may hold a store: of the first generation, or with a snapshot.
fn kept_on(place: Place, loaded: Loaded) -> Verdict
    ensures tells { (one two : List ℕ) → Keeps loaded (its place one two)
        → Tells (settled_on (number_of place) (its place one two) loaded.journal.version loaded.journal.generation loaded.batches.placed) one two result }
    ensures of_store { IsOfStore result }
{
    if loaded.batches.is_empty() && loaded.journal.generation() >= 2 {
        return Verdict::Damaged(place, 16, loaded.batches.found_at(16));
    }
    Verdict::On(place, loaded)
}

/// Of two journals the one of the later generation.
fn later(first: Loaded, second: Loaded) -> Verdict
    ensures tells { (one two : List ℕ) → Keeps first one → Keeps second two
        → Tells (later_of one two first.journal.version first.journal.generation first.batches.placed second.journal.version second.journal.generation second.batches.placed) one two result }
    ensures of_store { IsOfStore result }
{
    let here = first.journal.generation();
    let there = second.journal.generation();
    if here == there {
        return Verdict::Damaged(Place::Two, 15, second.batches.found_at(15));
    }
    if there < here {
        kept_on(Place::One, first)
    } else {
        kept_on(Place::Two, second)
    }
}

/// What two disks tell that hold no journal.
fn without(first: Option<Found>, second: Option<Found>) -> Verdict
    ensures tells { (one two : List ℕ) → IsForeign one first → IsForeign two second → Tells (without_journal one two) one two result }
    ensures bare { UnlessOfStore result (first ≡ None) }
{
    match first {
        Some(found) => Verdict::Damaged(Place::One, 0, found),
        None => match second {
            Some(found) => Verdict::Damaged(Place::Two, 0, found),
            None => Verdict::NoStore,
        },
    }
}

/// What two disks tell of a store.
fn choose(first: Seen, second: Seen) -> Verdict
    ensures tells { (one two : List ℕ) → Shows one first → Shows two second → Tells (chosen one two) one two result }
    ensures bare { UnlessOfStore result (first ≡ Seen.Bare None) }
{
    match first {
        Seen::Broken(at, found) => Verdict::Damaged(Place::One, at, found),
        Seen::Bare(a) => match second {
            Seen::Broken(at, found) => Verdict::Damaged(Place::Two, at, found),
            Seen::Bare(b) => without(a, b),
            Seen::Holding(b) => kept_on(Place::Two, b),
        },
        Seen::Holding(a) => match second {
            Seen::Broken(at, found) => Verdict::Damaged(Place::Two, at, found),
            Seen::Bare(_) => kept_on(Place::One, a),
            Seen::Holding(b) => later(a, b),
        },
    }
}

/// Looks once more at disk one where it was seen to be empty and disk two wasn't. Between the two looks another program may
/// have made a store, and packed it onto disk two and back: a file that has come to be since it was looked for is a fault.
fn look_again<D: Disk>(disk: &mut D, first: &Seen, second: &Seen) -> Result<(), StoreError>
    ensures seen { D.seen disk.new ≡ D.seen disk.old }
    ensures crash { IsWithin (D.may_leave disk.old) (D.may_leave disk.new) }
    ensures any_moment { LeavesOnly D.Disk disk.old disk.new (D.may_leave disk.old) }
    ensures refused { IfErr result RefusesLook }
    ensures tells { D.tells disk.new ≡ D.tells disk.old }
    ensures cause { CountsOne result (D.faults disk.old) (D.faults disk.new) (D.failed disk.new) }
{
    match (first, second) {
        (Seen::Bare(None), Seen::Broken(..) | Seen::Holding(_) | Seen::Bare(Some(_))) => {
            match disk.len() {
                Ok(_) => Ok(()),
                Err(Failed) => Err(StoreError::DiskFault),
            }
        }
        _ => Ok(()),
    }
}

/// What both disks are seen to be. Both are synced first.
fn look_at_both<D: Disk>(
    alloc: Global,
    one: &mut D,
    two: &mut D,
) -> Result<(Seen, Seen), StoreError>
    ensures shows_one { IfOk result (λ both. OfImage D.Disk one.old (λ image. Shows image both.0)) }
    ensures shows_two { IfOk result (λ both. OfImage D.Disk two.old (λ image. Shows image both.1)) }
    ensures durable_one { OnOk result (Only (D.seen one.new) (D.may_leave one.new)) }
    ensures durable_two { OnOk result (Only (D.seen two.new) (D.may_leave two.new)) }
    ensures seen_one { D.seen one.new ≡ D.seen one.old }
    ensures seen_two { D.seen two.new ≡ D.seen two.old }
    ensures any_moment_one { LeavesOnly D.Disk one.old one.new (D.may_leave one.old) }
    ensures any_moment_two { LeavesOnly D.Disk two.old two.new (D.may_leave two.old) }
    ensures refused { IfErr result RefusesLook }
    ensures tells_one { D.tells one.new ≡ D.tells one.old }
    ensures tells_two { D.tells two.new ≡ D.tells two.old }
    ensures cause { Counts result (D.faults one.old) (D.faults one.new) (D.faults two.old) (D.faults two.new) (D.failed one.new) (D.failed two.new) }
{
    let first = look(alloc, one)?;
    let second = look(alloc, two)?;
    look_again(one, &first, &second)?;
    Ok((first, second))
}

/// The disk that the store is on, with its journal and batches, or none where there is no store. Both disks are
/// synced first.
pub fn find_store<D: Disk>(
    alloc: Global,
    one: &mut D,
    two: &mut D,
) -> Result<Option<(Place, Loaded)>, StoreError>
    ensures ok { IfOk result (λ found. OfImages D.Disk one.old two.old (λ a b. Finds (chosen a b) a b found)) }
    ensures stands { IfOk result (λ found. IsTrue (D.tells one.old) × IsTrue (D.tells two.old) → StandsAt D.Disk found one.new two.new) }
    // This hangs on disk one alone, so that it is known of it where disk two doesn't tell its bytes.
    ensures bare { IfOk result (λ found. IfNone found (IsTrue (D.tells one.old) → journal_of (D.seen one.old) ≡ no_journal)) }
    ensures refused { IfErr result (RefusesFinding D.Disk one.old two.old) }
    ensures durable_one { OnOk result (Only (D.seen one.new) (D.may_leave one.new)) }
    ensures durable_two { OnOk result (Only (D.seen two.new) (D.may_leave two.new)) }
    ensures seen_one { D.seen one.new ≡ D.seen one.old }
    ensures seen_two { D.seen two.new ≡ D.seen two.old }
    ensures any_moment_one { LeavesOnly D.Disk one.old one.new (D.may_leave one.old) }
    ensures any_moment_two { LeavesOnly D.Disk two.old two.new (D.may_leave two.old) }
    ensures tells_one { D.tells one.new ≡ D.tells one.old }
    ensures tells_two { D.tells two.new ≡ D.tells two.old }
    ensures cause { Counts result (D.faults one.old) (D.faults one.new) (D.faults two.old) (D.faults two.new) (D.failed one.new) (D.failed two.new) }
{
    let (first, second) = look_at_both(alloc, one, two)?;
    match choose(first, second) {
        Verdict::NoStore => Ok(None),
        Verdict::On(place, loaded) => Ok(Some((place, loaded))),
        Verdict::Damaged(place, at, found) => Err(StoreError::Damaged(place.number(), at, found)),
    }
}
