//! How a drill is made, and what is told of it.

ghost use Rattle.std.specs.Prelude.{◌≡◌, ◌≤◌, ◌⊎◌, ◌↔◌, Some, IsTrue, IsErrOf, IfErr, IfOk};
ghost use Rattle.wc_drill.specs.Drilled.{DrillsBy};
ghost use Rattle.wc_act.specs.Aborted.{StaysBegun};
ghost use Rattle.wc_act.specs.Counts.{CountsDisks};
ghost use Rattle.wc_act.specs.Crashes.{AreDurable, LeavesKept};
ghost use Rattle.wc_act.specs.Drills.{broken_reply};
ghost use Rattle.wc_act.specs.Owed.{visit, OwedDeed};
ghost use Rattle.wc_act.specs.Statuses.{IsDoneOrFull};
ghost use Rattle.wc_act.specs.Rows.{MakesNothing};
ghost use Rattle.wc_act.specs.Undone.{EndsWith, IsBeforeTurns, LeavesUnwritten, ended_by};
ghost use Rattle.wc_plan.specs.declared.deed.Begin.TheVariants.{Drill};
ghost use Rattle.wc_plan.specs.declared.deed.Deed.TheVariants.{Begin};

use crate::error::ActError;
use crate::opened::{damaged, full};
use std::alloc::Global;
use wc_disk::Disk;
use wc_drill::{DrillError, drill, drilled_text, drills_are_sound, sum_of_squares};
use wc_plan::{Cause, Reply, print, refuse};

/// What is told of a drill that has no end.
fn broken_off(alloc: Global, error: DrillError) -> Result<Reply, ActError>
    ensures reply { IfOk result (λ r. broken_reply error ≡ Some r) }
    ensures cause { IsErrOf result ActError.DiskFault ↔ (error ≡ DrillError.DiskFault) }
{
    match error {
        DrillError::DiskFault => Err(ActError::DiskFault),
        DrillError::OutOfMemory => Err(ActError::OutOfMemory),
        DrillError::Damaged(disk, at, found) => Ok(damaged(alloc, disk, at, found)?),
        DrillError::Full(what, count, limit) => Ok(full(alloc, what, count, limit)?),
        DrillError::AlreadyThere => Ok(refuse(alloc, Cause::StoreExists)?),
    }
}

/// The reply of `drill`.
pub(crate) fn drill_reply<D: Disk>(
    alloc: Global,
    one: &mut D,
    two: &mut D,
    seed: u32,
    count: u32,
) -> Result<Reply, ActError>
    requires few { count ≤ 10000 }
    ensures does { IfOk result (λ r. OwedDeed (visit D.Disk one.old two.old one.new two.new) (Begin (Drill seed count)) r) }
    ensures kept { IsTrue (D.tells one.old) → IsTrue (D.tells two.old) → LeavesKept D.Disk (DrillsBy seed count) MakesNothing one.old two.old one.new two.new }
    ensures durable { IfOk result (λ r. IsDoneOrFull r.status → IsTrue (D.tells one.old) → IsTrue (D.tells two.old) → AreDurable D.Disk one.new two.new) }
    ensures tells { (D.tells one.new ≡ D.tells one.old) × (D.tells two.new ≡ D.tells two.old) }
    ensures unwritten { EndsWith IsBeforeTurns result → IsTrue (D.tells one.old) → IsTrue (D.tells two.old) → LeavesUnwritten D.Disk one.old two.old one.new two.new }
    ensures broken { IfErr result (λ e. IsTrue (D.tells one.old) → IsTrue (D.tells two.old)
        → LeavesUnwritten D.Disk one.old two.old one.new two.new ⊎ StaysBegun D.Disk (DrillsBy seed count) one.new two.new (ended_by e)) }
    ensures cause { CountsDisks result (D.faults one.old) (D.faults one.new) (D.faults two.old) (D.faults two.new) (D.failed one.new) (D.failed two.new) }
{
    drills_are_sound();
    match drill(alloc, one, two, seed, count) {
        Ok(committed) => {
            let sum = sum_of_squares(seed, count);
            Ok(print(drilled_text(alloc, count, sum, committed)?))
        }
        Err(error) => broken_off(alloc, error),
    }
}
