//! Settings: which definitions have caching on, how large a store may grow, and how often a running job is asked.
#![tactic(auto)]

mod error;
mod keys;
mod reading;
mod refusals;
mod settings;

pub use error::ConfigError;
pub use reading::read_settings;
pub use settings::{Settings, caching_on};
