//! How many turns a run takes, and how many are left of a world: definitions by the meaning alone, and their laws.
//!
//! A run that ends has exactly one cost, whatever the bound that ends its definition. What is left of a sound world is told where its live
//! roots mean trees, is one number, and is 0 only where no process is live. Each turn whose task doesn't fail and whose program has ended
//! lowers it, by exactly one where no other's outcome is taken.
#![tactic(auto)]

mod costs;
mod small;
mod touches;
mod turns;
mod worlds;

pub use costs::{advances_cost_one, meanings_have_one_price, runs_have_one_cost};
pub use small::{fan_costs, small_runs_cost};
pub use touches::{kills_stay, others_owe_the_same};
pub use turns::{
    advances_lower, bindings_lower, calculation_turns_lower, calls_lower, turns_lower,
};
pub use worlds::{left_is_one, left_is_there, live_owe};
