//! How a store is written anew.

ghost use Rattle.std.specs.Prelude.{◌≡◌, true, IsTrue, IfOk};
ghost use Rattle.wc_store.specs.Stores.{HasImages, StandsFor};
ghost use Rattle.wc_act.specs.Counts.{CountsDisks};
ghost use Rattle.wc_act.specs.Crashes.{AreDurable, LeavesPairs, HoldsKeeping};
ghost use Rattle.wc_act.specs.Owed.{visit, DoneOn, OfVisit};
ghost use Rattle.wc_act.specs.Rows.{StaysMoving, pack_row};
ghost use Rattle.wc_act.specs.Undone.{EndsWith, IsUnbroken};

use crate::error::ActError;
use crate::laws::worlds_are_kept;
use crate::opened::refused;
use std::alloc::Global;
use wc_disk::Disk;
use wc_plan::{Reply, print};
use wc_report::packed_text;
use wc_store::Store;

/// The reply of `pack` on a store.
pub(crate) fn pack_reply<D: Disk>(
    alloc: Global,
    store: &mut Store,
    one: &mut D,
    two: &mut D,
) -> Result<Reply, ActError>
    requires live { store.old.live ≡ true }
    requires stands { IsTrue (D.tells one.old) → IsTrue (D.tells two.old) → StandsFor D.Disk store.old one.old two.old }
    requires images { HasImages store.old }
    ensures does { IfOk result (λ r. OfVisit (visit D.Disk one.old two.old one.new two.new) (DoneOn pack_row store.old.world.world r)) }
    ensures kept { IsTrue (D.tells one.old) → IsTrue (D.tells two.old) → LeavesPairs D.Disk one.old two.old one.new two.new (HoldsKeeping StaysMoving (D.seen one.old, D.seen two.old) store.old.world.world) }
    ensures durable { IsUnbroken result → IsTrue (D.tells one.old) → IsTrue (D.tells two.old) → AreDurable D.Disk one.new two.new }
    ensures tells { (D.tells one.new ≡ D.tells one.old) × (D.tells two.new ≡ D.tells two.old) }
    ensures untouched { EndsWith pack_row.undone result → (one.new ≡ one.old) × (two.new ≡ two.old) }
    ensures cause { CountsDisks result (D.faults one.old) (D.faults one.new) (D.faults two.old) (D.faults two.new) (D.failed one.new) (D.failed two.new) }
{
    worlds_are_kept();
    match store.pack(alloc, one, two) {
        Ok(generation) => Ok(print(packed_text(alloc, generation)?)),
        Err(error) => refused(alloc, error),
    }
}
