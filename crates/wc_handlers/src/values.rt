//! What values a key may have.

ghost use Rattle.std.specs.Prelude.{◌≡◌, ◌<◌, option_map};
ghost use Rattle.toml.specs.Data.{get_member, as_integer};
ghost use Rattle.toml.specs.View.{view, table_view, array_view};
ghost use Rattle.wc_handlers.specs.Values.{within, abort_of, count, are_few, all_statuses, are_statuses, all_tables, are_handlers, is_name_in, is_held};

use crate::keys::Holds;
use crate::names::is_name;
use toml::value::Array;
use toml::{Table, Value};

/// The value at a key of a table.
pub fn member<'a>(table: &'a Table, key: &str) -> Option<&'a Value>
    ensures { option_map (λ v. view v.now) result ≡ get_member key.now (table_view table.now) }
{
    table.get(key)
}

/// A number, if there is one and it is from the least to the most.
pub fn within(least: u32, most: u32, number: Option<i64>) -> Option<u32>
    ensures { result ≡ within least most number }
{
    match number {
        Some(number) if i64::from(least) <= number && number <= i64::from(most) => Some(
            number as u32,
        ),
        _ => None,
    }
}

/// A number, if it is an exit status with which a handler may end the chain.
pub fn abort_of(number: Option<i64>) -> Option<u32>
    ensures { result ≡ abort_of number }
{
    match within(100, 9_999, number) {
        Some(status) if status != 401 && status != 402 => Some(status),
        _ => None,
    }
}

/// Whether each of these is an exit status.
fn all_statuses(values: &Array) -> bool
    ensures { result ≡ all_statuses (array_view values.now) }
{
    for value in values.as_slice() {
        if within(1, 9_999, value.as_integer()).is_none() {
            return false;
        }
    }
    true
}

/// How many items there are.
#[tactic(auto, using(crate::proofs::Counts::count_view))]
fn count(values: &Array) -> usize
    ensures { result ≡ count (array_view values.now) }
{
    values.as_slice().len()
}

/// Whether there are so many items at least, and at most 16.
fn are_few(least: usize, values: &Array) -> bool
    ensures { result ≡ are_few least (array_view values.now) }
{
    let number = count(values);
    least <= number && number <= 16
}

/// Whether these are 1 to 16 exit statuses.
fn are_statuses(values: Option<&Array>) -> bool
    ensures { result ≡ are_statuses (option_map (λ v. array_view v.now) values.entry) }
{
    match values {
        Some(values) => are_few(1, values) && all_statuses(values),
        None => false,
    }
}

/// Whether each of these is a table.
fn all_tables(values: &Array) -> bool
    ensures { result ≡ all_tables (array_view values.now) }
{
    for value in values.as_slice() {
        if !value.is_table() {
            return false;
        }
    }
    true
}

/// Whether these are at most 16 tables.
fn are_handlers(values: Option<&Array>) -> bool
    ensures { result ≡ are_handlers (option_map (λ v. array_view v.now) values.entry) }
{
    match values {
        Some(values) => are_few(0, values) && all_tables(values),
        None => false,
    }
}

/// Whether this is the text of a name.
fn is_name_in(value: &Value) -> bool
    ensures { result ≡ is_name_in (view value.now) }
{
    match value.as_str() {
        Some(text) => is_name(text.as_bytes()),
        None => false,
    }
}

/// Whether a value is one that the key may hold.
pub fn is_held(holds: Holds, value: &Value) -> bool
    ensures { result ≡ is_held holds (view value.now) }
{
    match holds {
        Holds::Name => is_name_in(value),
        Holds::Number(least, most) => within(least, most, value.as_integer()).is_some(),
        Holds::Statuses => are_statuses(value.as_array()),
        Holds::Abort => abort_of(value.as_integer()).is_some(),
        Holds::Handlers => are_handlers(value.as_array()),
    }
}
