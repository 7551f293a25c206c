//! The keys that there are: where each stands and what it holds.

ghost use Rattle.std.specs.Prelude.{◌≡◌, IfOk};
ghost use Rattle.wc_handlers.specs.Keys.{top_key, handler_key, holds_of, path};

use std::alloc::{AllocError, Global};
use wc_value::Text;

/// A table of the file.
#[derive(Clone, Copy, PartialEq, Eq)]
pub enum Place {
    /// The whole file.
    Top,
    /// One of its handlers.
    Handler,
}

/// What a key holds.
#[derive(Clone, Copy, PartialEq, Eq)]
pub enum Holds {
    /// The name of a definition.
    Name,
    /// A whole number from the first to the second.
    Number(u32, u32),
    /// Exit statuses of the job.
    Statuses,
    /// The exit status of the chain.
    Abort,
    /// Tables, one for each handler.
    Handlers,
}

/// What a key of the whole file holds, if there is such a key.
fn top_key(key: &str) -> Option<Holds>
    ensures { result ≡ top_key key.now }
{
    if key == "name" || key == "of" {
        Some(Holds::Name)
    } else if key == "max" {
        Some(Holds::Number(1, 5))
    } else if key == "handler" {
        Some(Holds::Handlers)
    } else {
        None
    }
}

/// What a key of a handler holds, if there is such a key.
fn handler_key(key: &str) -> Option<Holds>
    ensures { result ≡ handler_key key.now }
{
    if key == "statuses" {
        Some(Holds::Statuses)
    } else if key == "priority" {
        Some(Holds::Number(0, 1_000))
    } else if key == "call" {
        Some(Holds::Name)
    } else if key == "abort" {
        Some(Holds::Abort)
    } else {
        None
    }
}

/// What a key holds, if there is such a key in this table.
pub fn holds_of(place: Place, key: &str) -> Option<Holds>
    ensures { result ≡ holds_of place key.now }
{
    match place {
        Place::Top => top_key(key),
        Place::Handler => handler_key(key),
    }
}

/// The path of a key, which doesn't say which handler it is of.
pub fn path(alloc: Global, place: Place, key: &str) -> Result<Text, AllocError>
    ensures { IfOk result (λ t. t ≡ path place key.now) }
{
    match place {
        Place::Top => Text::of_str(alloc, key),
        Place::Handler => Text::of_string(format!(in alloc; "handler.{key}")?),
    }
}
