//! How a store is begun.

ghost use Rattle.std.specs.Prelude.{◌≡◌, IsTrue, IfOk};
ghost use Rattle.wc_act.specs.Counts.{CountsDisks};
ghost use Rattle.wc_act.specs.Crashes.{AreDurable, LeavesKept};
ghost use Rattle.wc_act.specs.Owed.{visit, OwedDeed};
ghost use Rattle.wc_act.specs.Statuses.{IsDoneOrFull};
ghost use Rattle.wc_act.specs.Rows.{IsEmpty, MakesNothing};
ghost use Rattle.wc_act.specs.Undone.{EndsWith, IsBeforeStoring, LeavesUnwritten};
ghost use Rattle.wc_plan.specs.declared.deed.Begin.TheVariants.{Init};
ghost use Rattle.wc_plan.specs.declared.deed.Deed.TheVariants.{Begin};

use crate::error::ActError;
use crate::opened::refused;
use std::alloc::Global;
use wc_disk::Disk;
use wc_plan::{Reply, print};
use wc_report::initialised_text;
use wc_store::Store;

/// The reply of `init`.
pub(crate) fn init_reply<D: Disk>(
    alloc: Global,
    one: &mut D,
    two: &mut D,
) -> Result<Reply, ActError>
    ensures does { IfOk result (λ r. OwedDeed (visit D.Disk one.old two.old one.new two.new) (Begin Init) r) }
    ensures kept { IsTrue (D.tells one.old) → IsTrue (D.tells two.old) → LeavesKept D.Disk IsEmpty MakesNothing one.old two.old one.new two.new }
    ensures durable { IfOk result (λ r. IsDoneOrFull r.status → IsTrue (D.tells one.old) → IsTrue (D.tells two.old) → AreDurable D.Disk one.new two.new) }
    ensures tells { (D.tells one.new ≡ D.tells one.old) × (D.tells two.new ≡ D.tells two.old) }
    ensures unwritten { EndsWith IsBeforeStoring result → IsTrue (D.tells one.old) → IsTrue (D.tells two.old) → LeavesUnwritten D.Disk one.old two.old one.new two.new }
    ensures cause { CountsDisks result (D.faults one.old) (D.faults one.new) (D.faults two.old) (D.faults two.new) (D.failed one.new) (D.failed two.new) }
{
    let text = initialised_text(alloc)?;
    match Store::init(alloc, one, two) {
        Ok(_store) => Ok(print(text)),
        Err(error) => refused(alloc, error),
    }
}
