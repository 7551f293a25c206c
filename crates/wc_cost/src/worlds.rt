//! Laws of what is left of a world.
ghost use Rattle.wc_cost.specs.Laws.{LeftIsThere, LeftIsOne, LiveOwe};

/// It is told what is left of a sound world, where its live roots mean trees by results that agree with what it records.
pub fn left_is_there()
    ensures { LeftIsThere }
{}

/// What is left of a world is one number.
pub fn left_is_one()
    ensures { LeftIsOne }
{}

/// Where nothing is left no process is live.
pub fn live_owe()
    ensures { LiveOwe }
{}
