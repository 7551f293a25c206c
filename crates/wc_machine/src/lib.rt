//! What one event makes of a world, why it is refused, and when a world is sound.
#![tactic(auto)]

mod answer;
mod answer_laws;
mod error;
mod function_laws;
mod links;
mod live;
mod room;
mod submission_laws;

pub use answer::TaskAnswer;
pub use answer_laws::{fitting_answers_lead, turns_fit_needs};
pub use error::TurnError;
pub use function_laws::{functions_are_accepted, functions_continue};
pub use links::input_link;
pub use live::live_process;
pub use room::{check_batch, check_room};
pub use submission_laws::{
    submissions_are_accepted, submissions_continue, the_empty_world_is_sound,
};
