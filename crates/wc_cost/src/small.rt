//! Laws of small runs and of a small world.
ghost use Rattle.wc_cost.specs.SmallLaws.{SmallRunsCost, FanCosts};

/// An end costs 1, a step without calls and the end 2, and a step with two jobs and the end 13.
pub fn small_runs_cost()
    ensures { SmallRunsCost }
{}

/// A work chain with two jobs has 14 turns left once it is submitted.
pub fn fan_costs()
    ensures { FanCosts }
{}
