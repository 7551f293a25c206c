//! Laws of drills. Each is the contract of a function that does nothing.

ghost use Rattle.wc_drill.specs.PairCost.{PairCosts};
ghost use Rattle.wc_drill.specs.Sound.{DrillsAreSound};

/// What a drill makes is sound at each moment.
pub fn drills_are_sound()
    ensures { DrillsAreSound }
{}

/// The chain with the numbers 2 and 3 takes exactly 17 turns.
pub fn pair_costs_seventeen()
    ensures { PairCosts }
{}
