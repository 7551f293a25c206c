//! What a work chain comes to, as changes of a world: it goes on, submits calls and waits for them, or ends.
#![tactic(auto)]

mod advances;
mod arguments;
mod calls;
mod children;
mod count;
mod end;
mod known;
mod progress;
mod room;

pub use advances::{come_to, going};
pub use children::caller_of;
pub use known::known_at;
pub use wc_outline::{advance, bind, context_read, one_list_of_changes};
pub use wc_trees::env_in;
