//! Laws of turns beside each other. Each is the contract of a function that does nothing.

ghost use Rattle.wc_pool.specs.Laws.{TurnsLeaveOthers};

use wc_world::reached_worlds_are_consistent;

/// The turn of a process leaves each other one as it was, and what it needs.
pub fn turns_leave_others()
    ensures { TurnsLeaveOthers }
{
    reached_worlds_are_consistent();
}
