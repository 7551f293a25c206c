//! Drills.

ghost use Rattle.std.specs.Prelude.{◌≡◌, ◌≤◌, ℕ, true, IsTrue, IfOk, IfErr, OnErr};
ghost use Rattle.wc_world.specs.World.{World as AWorld, empty};
ghost use Rattle.wc_disk.specs.Images.{LeavesOnly};
ghost use Rattle.wc_store.specs.Held.{IsHeld, nothing};
ghost use Rattle.wc_journal.specs.declared.journal.Journal.{Journal as AJournal};
ghost use Rattle.wc_store.specs.Stepped.{LeavesHeld, Stepped};
ghost use Rattle.wc_store.specs.Stores.{IsNew, StandsFor};
ghost use Rattle.wc_store.specs.declared.place.Place.TheVariants.{One};
ghost use Rattle.wc_ends.specs.Runner.Refusals.{RefusesRun, is_live_after};
ghost use Rattle.wc_drill.specs.Library.{library};
ghost use Rattle.wc_drill.specs.Squares.{square_rows};
ghost use Rattle.wc_drill.specs.Drilled.{DrillsBy, HasDrilled, Submitted, outside, turns_of};
ghost use Rattle.wc_drill.specs.Leaves.{AreDurable, DrilledBeside, IsBegun, IsFilled, IsHeldAfter, IsUnfailed, RefusedLeaves, StaysDrilled};
ghost use Rattle.wc_drill.specs.Refusals.{Counts, IsOfInit, RefusesDrill, RefusesDrilled, of_init};
ghost use Rattle.wc_drill.specs.Runs.{EndsAll, TakesFewer, TakesSome};

use crate::error::DrillError;
use crate::runs::run_chains;
use crate::submissions::submit_chains;
use crate::{chain_library, square_table};
use std::alloc::Global;
use wc_disk::Disk;
use wc_ends::{RunEnd, RunError};
use wc_io::{Failing, MemoryPacer};
use wc_store::{Store, StoreError};
use wc_syntax::Checked;
use wc_transport::{Busy, TableTransport};
use wc_value::Table;

/// What is told of a store that isn't made.
fn of_init(error: StoreError) -> DrillError
    requires { IsOfInit error }
    ensures { result ≡ of_init error }
{
    match error {
        StoreError::DiskFault => DrillError::DiskFault,
        StoreError::Damaged(disk, at, found) => DrillError::Damaged(disk, at, found),
        StoreError::AlreadyThere => DrillError::AlreadyThere,
        StoreError::OutOfMemory => DrillError::OutOfMemory,
        StoreError::Full(..) => unreachable!(),
    }
}

/// Lets the chains that were submitted take their turns, by the table, from the moment 0 on: 17 for each, with which all end.
fn run_all<D: Disk>(
    alloc: Global,
    store: &mut Store,
    one: &mut D,
    two: &mut D,
    table: Table,
    count: u32,
) -> Result<RunEnd, RunError>
    requires few { count ≤ 10000 }
    requires table { table ≡ square_rows 100 }
    requires live { store.old.live ≡ true }
    requires submitted { (seed : ℕ) × Submitted seed count empty store.old.world.world }
    requires stands { IsTrue (D.tells one.old) → IsTrue (D.tells two.old) → StandsFor D.Disk store.old one.old two.old }
    ensures stepped { Stepped D.Disk (TakesSome (turns_of count) store.old) (is_live_after result) store.old one.old two.old store.new one.new two.new }
    ensures ends { IfOk result (EndsAll store.new.world.world) }
    ensures early { OnErr result (TakesFewer (turns_of count) store.old.world.world store.new.world.world) }
    ensures refused { IfErr result (RefusesRun outside store.new) }
{
    let mut transport = TableTransport::new(alloc, table, Failing::new(alloc), Busy::new(alloc));
    let mut pacer = MemoryPacer::new(0);
    let turns = 17 * u64::from(count);
    run_chains(alloc, store, one, two, &mut transport, &mut pacer, turns)
}

/// Submits the chains on a new store, and lets them take their turns.
fn drilled<D: Disk>(
    alloc: Global,
    mut store: Store,
    one: &mut D,
    two: &mut D,
    chains: &Checked,
    table: Table,
    seed: u32,
    count: u32,
) -> Result<u32, DrillError>
    requires few { count ≤ 10000 }
    requires library { chains.now ≡ library }
    requires table { table ≡ square_rows 100 }
    requires fresh { IsNew store }
    requires stands { IsTrue (D.tells one.old) → IsTrue (D.tells two.old) → StandsFor D.Disk store one.old two.old }
    ensures done { IfOk result (λ batches. (w : AWorld) × HasDrilled seed count w × (batches ≡ w.batches)
        × ((journal : AJournal) × IsHeldAfter D.Disk (IsTrue (D.tells one.old) × IsTrue (D.tells two.old)) store one.new two.new w journal)) }
    ensures refused { IfErr result (RefusesDrilled (IsHeldAfter D.Disk (IsTrue (D.tells one.old) × IsTrue (D.tells two.old)) store one.new two.new) seed count) }
    ensures durable { IsUnfailed result → IsTrue (D.tells one.old) → IsTrue (D.tells two.old) → AreDurable D.Disk one.new two.new }
    ensures any_moment { IsTrue (D.tells one.old) → IsTrue (D.tells two.old) → LeavesHeld D.Disk One (DrillsBy seed count) one.old two.old one.new two.new }
    ensures tells { (D.tells one.new ≡ D.tells one.old) × (D.tells two.new ≡ D.tells two.old) }
    ensures cause { Counts result (D.faults one.old) (D.faults one.new) (D.faults two.old) (D.faults two.new) (D.failed one.new) (D.failed two.new) }
{
    match submit_chains(alloc, &mut store, one, two, chains, seed, count) {
        Ok(()) => {}
        Err(error) => return Err(DrillError::from(error)),
    }
    match run_all(alloc, &mut store, one, two, table, count) {
        Ok(_) => Ok(store.world().batches()),
        Err(error) => Err(DrillError::from(error)),
    }
}

/// Makes a store of generation 1 on disk one, submits so many chains with numbers drawn from the seed, and lets them take their turns. The answer is
/// how many batches were committed.
pub fn drill<D: Disk>(
    alloc: Global,
    one: &mut D,
    two: &mut D,
    seed: u32,
    count: u32,
) -> Result<u32, DrillError>
    // The chains are at most 10,000.
    requires few { count ≤ 10000 }
    // The answer is how many batches the world has to which the drill has come, which the disks hold then.
    ensures done { IfOk result (λ batches. (w : AWorld) × HasDrilled seed count w × (batches ≡ w.batches)
        × ((journal : AJournal) × IsFilled D.Disk one.old two.old one.new two.new w journal)) }
    // A store is made only where the disks held nothing.
    ensures nothing { IsBegun result → IsTrue (D.tells one.old) → IsTrue (D.tells two.old) → IsHeld (D.seen one.old) (D.seen two.old) nothing }
    // That a store is there is told only where the disks hold a world, and damage only where they hold that damage. `Full` only where they hold a world on
    // the way to the end, and the submission of its next chain, or, once all are submitted and while fewer turns and rests were taken than there are, the
    // turn of a ready process, is refused so, by the journal that keeps it: of nodes, else of batches, else of bytes. No other answer is there: the
    // seventeen turns of each chain are enough, so its run ends every process, or breaks off.
    ensures refused { IfErr result (RefusesDrill D.Disk seed count one.old two.old one.new two.new) }
    // Where a store was made and no disk failed, nothing is pending on either disk, and they read as what the drill has made.
    ensures durable { IsBegun result → IsTrue (D.tells one.old) → IsTrue (D.tells two.old) → StaysDrilled D.Disk seed count one.new two.new }
    // A drill that wasn't begun wrote nothing; and where memory ran out, nothing was written, or what was committed stays.
    ensures unbegun { IsTrue (D.tells one.old) → IsTrue (D.tells two.old) → RefusedLeaves D.Disk seed count result one.old two.old one.new two.new }
    // Disk two reads as before.
    ensures seen_two { IsTrue (D.tells one.old) → IsTrue (D.tells two.old) → D.seen two.new ≡ D.seen two.old }
    // Disk two is not written, and each image of disk one is one that a crash at entry might have left, or holds what the drill makes, by its journal.
    ensures beside { IsTrue (D.tells one.old) → IsTrue (D.tells two.old)
        → LeavesOnly D.Disk one.old one.new (DrilledBeside D.Disk seed count one.old two.old two.new) }
    // Each image of disk two, at any moment, is one that a crash at entry might have left.
    ensures any_moment_two { IsTrue (D.tells one.old) → IsTrue (D.tells two.old) → LeavesOnly D.Disk two.old two.new (D.may_leave two.old) }
    // Whether a disk tells its bytes stays.
    ensures tells { (D.tells one.new ≡ D.tells one.old) × (D.tells two.new ≡ D.tells two.old) }
    // `DiskFault` only where the count of faults of one disk rose by one, its last call failed and the count of the other stayed, and no other answer with a
    // raised count.
    ensures cause { Counts result (D.faults one.old) (D.faults one.new) (D.faults two.old) (D.faults two.new) (D.failed one.new) (D.failed two.new) }
{
    let chains = chain_library(alloc)?;
    let table = square_table(alloc)?;
    match Store::init(alloc, one, two) {
        Ok(store) => drilled(alloc, store, one, two, &chains, table, seed, count),
        Err(error) => Err(of_init(error)),
    }
}
