//! The pure heart of the engine: which processes are ready, which of them has the next turn and how long there is none, what they ask, and the
//! changes of each event, as values of a world.
#![tactic(auto)]

mod fuel;
mod kills;
mod marks;
mod needs;
mod next;
mod order;
mod readiness;
mod standing;
mod submissions;
mod turns;

pub use marks::{kill_changes, pause_changes, play_changes};
pub use needs::{Asks, need};
pub use next::{Next, next_turn};
pub use order::Order;
pub use readiness::{is_ready, ready};
pub use standing::{Standing, standing_of};
pub use submissions::submit_changes;
pub use turns::turn;
pub use wc_machine::TurnError;
