//! The least refusal of a table.

ghost use Rattle.std.specs.Prelude.{◌≡◌, IfOk, option_map, codes};
ghost use Rattle.toml.specs.Data.{as_table};
ghost use Rattle.toml.specs.View.{view, table_view, array_view};
ghost use Rattle.wc_config.specs.Keys.{holds_of, part_named};
ghost use Rattle.wc_config.specs.Refusals.{is_within, all_strings, are_names, is_held, has_both, path, value_refusals, member_refusals, part_refusals, top_refusals, all_refusals, refusals, lesser, least_after, least, of_two};
ghost use Rattle.wc_config.specs.Seen.{seen};
ghost use Rattle.wc_config.specs.Settings.{names_at};

use crate::keys::{Holds, Part, holds_of, name_of, part_named};
use crate::settings::is_listed;
use std::alloc::{AllocError, Global};
use std::cmp::Ordering;
use toml::value::Array;
use toml::{Table, Value};
use wc_value::{Text, Words};

/// What is wrong at a key.
#[derive(Clone, Copy, PartialEq, Eq)]
pub enum Kind {
    /// No setting has the key.
    UnknownKey,
    /// The setting can't have the value.
    BadValue,
}

/// A refusal, with the path of its key.
#[derive(Drop)]
pub struct Refused {
    /// What is wrong.
    pub kind: Kind,
    /// The path of the key.
    pub key: Text,
}

/// The lesser of the refusal so far and one more: the one with the lesser path, of equal paths an unknown key.
fn with(best: Option<Refused>, kind: Kind, key: Text) -> Option<Refused>
    ensures { seen result ≡ lesser (seen best) (kind, key) }
{
    let Some(least) = best else {
        return Some(Refused { kind, key });
    };
    match key.bytes().cmp(least.key.bytes()) {
        Ordering::Less => Some(Refused { kind, key }),
        Ordering::Equal => Some(of_two(least, kind, key)),
        Ordering::Greater => Some(least),
    }
}

/// Of two refusals at one path an unknown key.
fn of_two(least: Refused, kind: Kind, key: Text) -> Refused
    ensures { (result.kind, result.key) ≡ of_two (least.kind, least.key) (kind, key) }
{
    match least.kind {
        Kind::UnknownKey => least,
        Kind::BadValue => Refused { kind, key },
    }
}

/// The path of a key in a part.
fn path(alloc: Global, part: Part, key: &str) -> Result<Text, AllocError>
    ensures { IfOk result (λ t. t ≡ path part key.now) }
{
    let name = name_of(part);
    Text::of_string(format!(in alloc; "{name}.{key}")?)
}

/// Whether a number, if there is one, is from the least to the most.
fn is_within(least: i64, most: i64, number: Option<i64>) -> bool
    ensures { result ≡ is_within least most number }
{
    match number {
        Some(number) => least <= number && number <= most,
        None => false,
    }
}

/// Whether these are all strings.
fn all_strings(values: &Array) -> bool
    ensures { result ≡ all_strings (array_view values.now) }
{
    for value in values.as_slice() {
        if !value.is_str() {
            return false;
        }
    }
    true
}

/// Whether a value is an array of strings.
fn are_names(values: Option<&Array>) -> bool
    ensures { result ≡ are_names (option_map (λ v. array_view v.now) values.entry) }
{
    match values {
        Some(values) => all_strings(values),
        None => false,
    }
}

/// Whether a value is one that the setting may hold.
fn is_held(holds: Holds, value: &Value) -> bool
    ensures { result ≡ is_held holds (view value.now) }
{
    match holds {
        Holds::Truth => value.is_bool(),
        Holds::Names => are_names(value.as_array()),
        Holds::Number(least, most) => is_within(least, most, value.as_integer()),
    }
}

/// The least refusal, with those of a value at a key of a part.
fn with_value(
    alloc: Global,
    best: Option<Refused>,
    part: Part,
    key: &str,
    value: &Value,
) -> Result<Option<Refused>, AllocError>
    ensures { IfOk result (λ r. seen r ≡ least_after (seen best) (value_refusals part key.now (holds_of part key.now) (view value.now))) }
{
    match holds_of(part, key) {
        Some(holds) => {
            if is_held(holds, value) {
                Ok(best)
            } else {
                Ok(with(best, Kind::BadValue, path(alloc, part, key)?))
            }
        }
        None => Ok(with(best, Kind::UnknownKey, path(alloc, part, key)?)),
    }
}

/// The least refusal, with those of all keys of a part.
fn with_members(
    alloc: Global,
    best: Option<Refused>,
    part: Part,
    table: &Table,
) -> Result<Option<Refused>, AllocError>
    ensures { IfOk result (λ r. seen r ≡ least_after (seen best) (member_refusals part (table_view table.now))) }
{
    let mut least = best;
    for (key, value) in table.iter() {
        least = with_value(alloc, least, part, key.as_str(), value)?;
    }
    Ok(least)
}

/// The least refusal, with those of a value at the top.
fn with_top(
    alloc: Global,
    best: Option<Refused>,
    key: &str,
    value: &Value,
) -> Result<Option<Refused>, AllocError>
    ensures { IfOk result (λ r. seen r ≡ least_after (seen best) (top_refusals key.now (part_named key.now) (view value.now))) }
{
    let Some(part) = part_named(key) else {
        return Ok(with(best, Kind::UnknownKey, Text::of_str(alloc, key)?));
    };
    match value.as_table() {
        Some(table) => with_members(alloc, best, part, table),
        None => Ok(with(best, Kind::BadValue, Text::of_str(alloc, name_of(part))?)),
    }
}

/// The least refusal of the keys and values of a table.
fn least_of_all(alloc: Global, table: &Table) -> Result<Option<Refused>, AllocError>
    ensures { IfOk result (λ r. seen r ≡ least (all_refusals (table_view table.now))) }
{
    let mut least = None;
    for (key, value) in table.iter() {
        least = with_top(alloc, least, key.as_str(), value)?;
    }
    Ok(least)
}

/// Whether some of these names is one of the others.
fn has_both(names: &Words, others: &Words) -> bool
    ensures { result ≡ has_both names.now others.now }
{
    for name in names.as_slice() {
        if is_listed(name, others) {
            return true;
        }
    }
    false
}

/// The least refusal of a table, whose lists of names with caching on and off are these.
pub fn least_refusal(
    alloc: Global,
    table: &Table,
    enabled: &Words,
    disabled: &Words,
) -> Result<Option<Refused>, AllocError>
    requires { (enabled.now ≡ names_at (codes "enabled") (table_view table.now)) × (disabled.now ≡ names_at (codes "disabled") (table_view table.now)) }
    ensures { IfOk result (λ r. seen r ≡ least (refusals (table_view table.now))) }
{
    let least = least_of_all(alloc, table)?;
    if has_both(enabled, disabled) {
        Ok(with(
            least,
            Kind::BadValue,
            path(alloc, Part::Caching, "enabled")?,
        ))
    } else {
        Ok(least)
    }
}
