//! The least refusal of a table.

ghost use Rattle.std.specs.Prelude.{◌≡◌, IfOk, option_map};
ghost use Rattle.toml.specs.Data.{as_table, as_array};
ghost use Rattle.toml.specs.View.{view, table_view, array_view};
ghost use Rattle.wc_handlers.specs.Keys.{holds_of};
ghost use Rattle.wc_handlers.specs.Refusals.{value_refusals, member_refusals, missing, remedy_refusals, handler_refusals, table_refusals, item_refusals, list_refusals, handlers_in, refusals, of_two, lesser, least_after, least};
ghost use Rattle.wc_handlers.specs.Seen.{seen};

use crate::keys::{Place, holds_of, path};
use crate::values::{is_held, member};
use std::alloc::{AllocError, Global};
use std::cmp::Ordering;
use toml::value::Array;
use toml::{Table, Value};
use wc_value::Text;

/// What is wrong at a key.
#[derive(Clone, Copy, PartialEq, Eq)]
pub enum Kind {
    /// There is no such key.
    UnknownKey,
    /// The key can't have the value, or isn't there.
    BadValue,
}

/// A refusal.
#[derive(Drop)]
pub struct Refused {
    /// What is wrong.
    pub kind: Kind,
    /// The path of the key.
    pub path: Text,
}

/// The lesser of the refusal so far and one more: the one with the lesser path, of equal paths an unknown key.
fn with(best: Option<Refused>, kind: Kind, path: Text) -> Option<Refused>
    ensures { seen result ≡ lesser (seen best) (kind, path) }
{
    let Some(least) = best else {
        return Some(Refused { kind, path });
    };
    match path.bytes().cmp(least.path.bytes()) {
        Ordering::Less => Some(Refused { kind, path }),
        Ordering::Equal => Some(of_two(least, kind, path)),
        Ordering::Greater => Some(least),
    }
}

/// Of two refusals at one path an unknown key.
fn of_two(least: Refused, kind: Kind, path: Text) -> Refused
    ensures { (result.kind, result.path) ≡ of_two (least.kind, least.path) (kind, path) }
{
    match least.kind {
        Kind::UnknownKey => least,
        Kind::BadValue => Refused { kind, path },
    }
}

/// The least refusal, with those of a value at a key.
fn with_value(
    alloc: Global,
    best: Option<Refused>,
    place: Place,
    key: &str,
    value: &Value,
) -> Result<Option<Refused>, AllocError>
    ensures { IfOk result (λ r. seen r ≡ least_after (seen best) (value_refusals place key.now (holds_of place key.now) (view value.now))) }
{
    match holds_of(place, key) {
        Some(holds) => {
            if is_held(holds, value) {
                Ok(best)
            } else {
                Ok(with(best, Kind::BadValue, path(alloc, place, key)?))
            }
        }
        None => Ok(with(best, Kind::UnknownKey, path(alloc, place, key)?)),
    }
}

/// The least refusal, with those of all keys that are there.
fn with_members(
    alloc: Global,
    best: Option<Refused>,
    place: Place,
    table: &Table,
) -> Result<Option<Refused>, AllocError>
    ensures { IfOk result (λ r. seen r ≡ least_after (seen best) (member_refusals place (table_view table.now))) }
{
    let mut least = best;
    for (key, value) in table.iter() {
        least = with_value(alloc, least, place, key.as_str(), value)?;
    }
    Ok(least)
}

/// The least refusal, with that of a key that has to be there.
fn with_missing(
    alloc: Global,
    best: Option<Refused>,
    place: Place,
    key: &str,
    table: &Table,
) -> Result<Option<Refused>, AllocError>
    ensures { IfOk result (λ r. seen r ≡ least_after (seen best) (missing place key.now (table_view table.now))) }
{
    if member(table, key).is_some() {
        Ok(best)
    } else {
        Ok(with(best, Kind::BadValue, path(alloc, place, key)?))
    }
}

/// The least refusal, with that of a handler that does nothing, or two things.
fn with_remedy(
    alloc: Global,
    best: Option<Refused>,
    table: &Table,
) -> Result<Option<Refused>, AllocError>
    ensures { IfOk result (λ r. seen r ≡ least_after (seen best) (remedy_refusals (table_view table.now))) }
{
    let calls = member(table, "call").is_some();
    let aborts = member(table, "abort").is_some();
    if calls != aborts {
        Ok(best)
    } else {
        Ok(with(best, Kind::BadValue, path(alloc, Place::Handler, "abort")?))
    }
}

/// The least refusal, with those of a handler.
fn with_handler(
    alloc: Global,
    best: Option<Refused>,
    table: &Table,
) -> Result<Option<Refused>, AllocError>
    ensures { IfOk result (λ r. seen r ≡ least_after (seen best) (handler_refusals (table_view table.now))) }
{
    let known = with_members(alloc, best, Place::Handler, table)?;
    let handled = with_missing(alloc, known, Place::Handler, "statuses", table)?;
    let ranked = with_missing(alloc, handled, Place::Handler, "priority", table)?;
    with_remedy(alloc, ranked, table)
}

/// The least refusal, with those of a value in the list of handlers.
fn with_item(
    alloc: Global,
    best: Option<Refused>,
    value: &Value,
) -> Result<Option<Refused>, AllocError>
    ensures { IfOk result (λ r. seen r ≡ least_after (seen best) (table_refusals (as_table (view value.now)))) }
{
    match value.as_table() {
        Some(table) => with_handler(alloc, best, table),
        None => Ok(best),
    }
}

/// The least refusal, with those of the values in the list of handlers.
fn with_items(
    alloc: Global,
    best: Option<Refused>,
    values: &Array,
) -> Result<Option<Refused>, AllocError>
    ensures { IfOk result (λ r. seen r ≡ least_after (seen best) (item_refusals (array_view values.now))) }
{
    let mut least = best;
    for value in values.as_slice() {
        least = with_item(alloc, least, value)?;
    }
    Ok(least)
}

/// The handlers of a file.
pub fn handlers_in(table: &Table) -> Option<&Array>
    ensures { option_map (λ v. array_view v.now) result ≡ handlers_in (table_view table.now) }
{
    match member(table, "handler") {
        Some(value) => value.as_array(),
        None => None,
    }
}

/// The least refusal, with those of all handlers of a file.
fn with_handlers(
    alloc: Global,
    best: Option<Refused>,
    table: &Table,
) -> Result<Option<Refused>, AllocError>
    ensures { IfOk result (λ r. seen r ≡ least_after (seen best) (list_refusals (handlers_in (table_view table.now)))) }
{
    match handlers_in(table) {
        Some(values) => with_items(alloc, best, values),
        None => Ok(best),
    }
}

/// The least refusal of a table.
pub fn least_refusal(alloc: Global, table: &Table) -> Result<Option<Refused>, AllocError>
    ensures { IfOk result (λ r. seen r ≡ least (refusals (table_view table.now))) }
{
    let known = with_members(alloc, None, Place::Top, table)?;
    let named = with_missing(alloc, known, Place::Top, "name", table)?;
    let tried = with_missing(alloc, named, Place::Top, "of", table)?;
    with_handlers(alloc, tried, table)
}
