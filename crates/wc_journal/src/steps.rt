//! What a journal asks of its disk, a few calls at a time.
ghost use Rattle.std.specs.Prelude.{◌≡◌, ◌≤◌, ◌++◌, List, ℕ, length, take, IsTrue, IfOk, IfErr, OnOk};
ghost use Rattle.wc_io.specs.Counts.{CountsFault};
ghost use Rattle.wc_disk.specs.Steps.{overwritten, Torn, IsWithin, Only};
ghost use Rattle.wc_disk.specs.Images.{LeavesOnly};
ghost use Rattle.wc_journal.specs.Journals.{is_open, closed_first, HasClosedFirst, ClosesFirst};
ghost use Rattle.wc_journal.specs.Refusals.{RefusesReading, CountsDiskFault};

use crate::error::JournalError;
use std::alloc::Global;
use wc_disk::Disk;
use wc_io::Failed;

/// Writes bytes and brings them to the disk. A crash may tear the write.
pub fn put<D: Disk>(disk: &mut D, at: u64, bytes: &[u8]) -> Result<(), Failed>
    requires within { IsTrue (D.tells disk.old) → at ≤ length (D.seen disk.old) }
    requires durable { IsTrue (D.tells disk.old) → Only (D.seen disk.old) (D.may_leave disk.old) }
    ensures written { OnOk result (IsTrue (D.tells disk.old) → D.seen disk.new ≡ overwritten at bytes.now (D.seen disk.old)) }
    ensures durable { OnOk result (IsTrue (D.tells disk.old) → Only (D.seen disk.new) (D.may_leave disk.new)) }
    ensures any_moment { IsTrue (D.tells disk.old) → LeavesOnly D.Disk disk.old disk.new
        (Torn at (length bytes.now) (length (D.seen disk.old)) (D.seen disk.old)) }
    ensures tells { D.tells disk.new ≡ D.tells disk.old }
    ensures cause { CountsFault result (D.faults disk.old) (D.faults disk.new) (D.failed disk.new) }
{
    disk.write_at(at, bytes)?;
    disk.sync()?;
    Ok(())
}

/// Puts bytes in the place of all but the first one, and brings them to the disk. No crash changes the first.
pub fn put_behind_first<D: Disk>(disk: &mut D, bytes: &[u8]) -> Result<(), Failed>
    requires some { IsTrue (D.tells disk.old) → 1 ≤ length (D.seen disk.old) }
    requires durable { IsTrue (D.tells disk.old) → Only (D.seen disk.old) (D.may_leave disk.old) }
    ensures written { OnOk result (IsTrue (D.tells disk.old) → D.seen disk.new ≡ take 1 (D.seen disk.old) ++ bytes.now) }
    ensures durable { OnOk result (IsTrue (D.tells disk.old) → Only (D.seen disk.new) (D.may_leave disk.new)) }
    ensures any_moment { IsTrue (D.tells disk.old) → LeavesOnly D.Disk disk.old disk.new
        (λ image. take 1 image ≡ take 1 (D.seen disk.old)) }
    ensures tells { D.tells disk.new ≡ D.tells disk.old }
    ensures cause { CountsFault result (D.faults disk.old) (D.faults disk.new) (D.failed disk.new) }
{
    disk.cut(1)?;
    disk.write_at(1, bytes)?;
    disk.sync()?;
    Ok(())
}

/// The byte with which a finished journal begins.
pub const FIRST: u8 = 0x57;

/// Whether the file is empty, or begins as a finished journal does.
pub fn begins<D: Disk>(disk: &mut D) -> Result<bool, Failed>
    requires durable { IsTrue (D.tells disk.old) → Only (D.seen disk.old) (D.may_leave disk.old) }
    ensures begins { IfOk result (λ begins. IsTrue (D.tells disk.old) → begins ≡ is_open (D.seen disk.old)) }
    ensures seen { D.seen disk.new ≡ D.seen disk.old }
    ensures durable { IsTrue (D.tells disk.old) → Only (D.seen disk.new) (D.may_leave disk.new) }
    ensures any_moment { IsTrue (D.tells disk.old) → LeavesOnly D.Disk disk.old disk.new (λ image. image ≡ D.seen disk.old) }
    ensures tells { D.tells disk.new ≡ D.tells disk.old }
    ensures cause { CountsFault result (D.faults disk.old) (D.faults disk.new) (D.failed disk.new) }
{
    if disk.len()? == 0 {
        return Ok(true);
    }
    let mut first = [0];
    disk.read(0, &mut first)?;
    Ok(first[0] == FIRST)
}

/// Sees to it that the file is not empty, and does not begin as a finished journal does.
pub fn close_first<D: Disk>(disk: &mut D) -> Result<(), Failed>
    requires durable { IsTrue (D.tells disk.old) → Only (D.seen disk.old) (D.may_leave disk.old) }
    ensures closed { OnOk result (IsTrue (D.tells disk.old) → HasClosedFirst (D.seen disk.old) (D.seen disk.new)) }
    ensures written { OnOk result (IsTrue (D.tells disk.old) → D.seen disk.new ≡ closed_first (D.seen disk.old)) }
    ensures durable { OnOk result (IsTrue (D.tells disk.old) → Only (D.seen disk.new) (D.may_leave disk.new)) }
    ensures any_moment { IsTrue (D.tells disk.old) → LeavesOnly D.Disk disk.old disk.new (ClosesFirst (D.seen disk.old)) }
    ensures tells { D.tells disk.new ≡ D.tells disk.old }
    ensures cause { CountsFault result (D.faults disk.old) (D.faults disk.new) (D.failed disk.new) }
{
    if !begins(disk)? {
        return Ok(());
    }
    put(disk, 0, &[0])?;
    Ok(())
}

/// The bytes of a disk, once all of them are synced.
pub fn read_synced<D: Disk>(alloc: Global, disk: &mut D) -> Result<Vec<u8>, JournalError>
    ensures bytes { IfOk result (λ image. IsTrue (D.tells disk.old) → image.items ≡ D.seen disk.old) }
    ensures durable { OnOk result (Only (D.seen disk.new) (D.may_leave disk.new)) }
    ensures seen { D.seen disk.new ≡ D.seen disk.old }
    ensures any_moment { LeavesOnly D.Disk disk.old disk.new (D.may_leave disk.old) }
    ensures tells { D.tells disk.new ≡ D.tells disk.old }
    ensures refused { IfErr result RefusesReading }
    ensures cause { CountsDiskFault result (D.faults disk.old) (D.faults disk.new) (D.failed disk.new) }
{
    disk.sync()?;
    let len = disk.len()?;
    let mut image = vec![in alloc; 0; len as usize]?;
    disk.read(0, &mut image)?;
    Ok(image)
}
