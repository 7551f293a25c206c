//! The commands that ask no disk.

mod check;
mod dry;
mod expand;

pub(crate) use check::reply_to_check;
pub use dry::Trial;
pub(crate) use dry::reply_to_dry;
pub(crate) use expand::reply_to_expand;
