//! Reading of a spec file.

ghost use Rattle.std.specs.Prelude.{◌≡◌, ◌⊎◌, Ok, Err, IfOk, IfErr, option_map, option_and_then, codes};
ghost use Rattle.toml.specs.Data.{as_str, get_member};
ghost use Rattle.toml.specs.View.{table_view, array_view};
ghost use Rattle.wc_handlers.specs.declared.error.RestartError.TheVariants.{OutOfMemory};
ghost use Rattle.wc_handlers.specs.Reading.{told, spec_in};
ghost use Rattle.wc_handlers.specs.Refusals.{least, handlers_in};
ghost use Rattle.wc_handlers.specs.Specs.{text_at, number_at, statuses, abort_in, remedy_of, handler_of, handlers, handlers_of, spec_of, IsSpec};

use crate::error::RestartError;
use crate::refusals::{Kind, Refused, handlers_in, least_refusal};
use crate::spec::{Handler, Handlers, Remedy, Spec, Statuses};
use crate::values::{abort_of, member, within};
use std::alloc::{AllocError, Global};
use toml::value::Array;
use toml::{Table, Value};
use wc_value::Text;

/// The text at a key.
fn text_at(alloc: Global, table: &Table, key: &str) -> Result<Text, AllocError>
    ensures { IfOk result (λ text. text ≡ text_at key.now (table_view table.now)) }
{
    let text = match member(table, key) {
        Some(value) => value.as_str(),
        None => None,
    };
    match text {
        Some(text) => Text::of_str(alloc, text),
        None => Text::of_str(alloc, ""),
    }
}

/// The number at a key, or the usual one.
fn number_at(table: &Table, key: &str, least: u32, most: u32, usual: u32) -> u32
    ensures { result ≡ number_at key.now least most usual (table_view table.now) }
{
    let number = match member(table, key) {
        Some(value) => within(least, most, value.as_integer()),
        None => None,
    };
    number.unwrap_or(usual)
}

/// The exit statuses in an array.
fn statuses(alloc: Global, values: &Array) -> Result<Statuses, AllocError>
    ensures { IfOk result (λ s. s ≡ statuses (array_view values.now)) }
{
    let mut found = Statuses::new(alloc);
    for value in values.as_slice() {
        if let Some(status) = within(1, 9_999, value.as_integer()) {
            found.push(status)?;
        }
    }
    Ok(found)
}

/// The exit statuses of a handler.
fn statuses_at(alloc: Global, table: &Table) -> Result<Statuses, AllocError>
    ensures { IfOk result (λ s. s ≡ (handler_of (table_view table.now)).statuses) }
{
    match member(table, "statuses") {
        Some(value) => match value.as_array() {
            Some(values) => statuses(alloc, values),
            None => Ok(Statuses::new(alloc)),
        },
        None => Ok(Statuses::new(alloc)),
    }
}

/// The name of the function that a handler calls, if it calls one.
fn called(table: &Table) -> Option<&str>
    ensures { option_map (λ s. s.now) result ≡ option_and_then as_str (get_member (codes "call") (table_view table.now)) }
{
    match member(table, "call") {
        Some(value) => value.as_str(),
        None => None,
    }
}

/// The exit status of a handler, if it ends the chain.
fn abort_at(table: &Table) -> Option<u32>
    ensures { result ≡ option_and_then abort_in (get_member (codes "abort") (table_view table.now)) }
{
    match member(table, "abort") {
        Some(value) => abort_of(value.as_integer()),
        None => None,
    }
}

/// What a handler does.
fn remedy_of(alloc: Global, table: &Table) -> Result<Remedy, AllocError>
    ensures { IfOk result (λ r. r ≡ remedy_of (table_view table.now)) }
{
    match called(table) {
        Some(name) => Ok(Remedy::Call(Text::of_str(alloc, name)?)),
        None => Ok(Remedy::Abort(abort_at(table).unwrap_or(100))),
    }
}

/// The handler that a table gives.
fn handler_of(alloc: Global, table: &Table) -> Result<Handler, AllocError>
    ensures { IfOk result (λ h. h ≡ handler_of (table_view table.now)) }
{
    let priority = number_at(table, "priority", 0, 1_000, 0);
    let statuses = statuses_at(alloc, table)?;
    Ok(Handler {
        statuses,
        priority,
        remedy: remedy_of(alloc, table)?,
    })
}

/// The handlers that an array gives.
fn handlers(alloc: Global, values: &Array) -> Result<Handlers, AllocError>
    ensures { IfOk result (λ h. h ≡ handlers (array_view values.now)) }
{
    let mut found = Handlers::new(alloc);
    for value in values.as_slice() {
        if let Some(table) = value.as_table() {
            found.push(handler_of(alloc, table)?)?;
        }
    }
    Ok(found)
}

/// The handlers of a file.
fn handlers_of(alloc: Global, table: &Table) -> Result<Handlers, AllocError>
    ensures { IfOk result (λ h. h ≡ handlers_of (handlers_in (table_view table.now))) }
{
    match handlers_in(table) {
        Some(values) => handlers(alloc, values),
        None => Ok(Handlers::new(alloc)),
    }
}

/// The spec that a table gives.
fn spec_of(alloc: Global, table: &Table) -> Result<Spec, AllocError>
    ensures { IfOk result (λ s. s ≡ spec_of (table_view table.now)) }
{
    let most = number_at(table, "max", 1, 5, 5);
    let name = text_at(alloc, table, "name")?;
    let job = text_at(alloc, table, "of")?;
    Ok(Spec {
        name,
        job,
        most,
        handlers: handlers_of(alloc, table)?,
    })
}

/// The error that says why a spec file is refused, with the path of the key that it names.
fn told(refused: Refused) -> RestartError
    ensures { result ≡ told (refused.kind, refused.path) }
{
    match refused.kind {
        Kind::UnknownKey => RestartError::UnknownKey(refused.path),
        Kind::BadValue => RestartError::BadValue(refused.path),
    }
}

/// What a spec file says, or why it is refused: it is no TOML, or the refusal of the least key path in byte order.
pub fn read_spec(alloc: Global, bytes: &[u8]) -> Result<Spec, RestartError>
    // The spec is the one that the bytes say.
    ensures ok { IfOk result (λ s. spec_in bytes.now ≡ Ok s) }
    // A refusal is the one that the definition gives, or want of memory.
    ensures refused { IfErr result (λ e. (e ≡ OutOfMemory) ⊎ (spec_in bytes.now ≡ Err e)) }
    // The spec keeps its ranges.
    ensures within { IfOk result IsSpec }
{
    let table = match toml::table_from_slice(alloc, bytes) {
        Ok(table) => table,
        Err(error) if error.is_memory() => return Err(RestartError::OutOfMemory),
        Err(_) => return Err(RestartError::NotToml),
    };
    match least_refusal(alloc, &table)? {
        Some(refused) => Err(told(refused)),
        None => Ok(spec_of(alloc, &table)?),
    }
}
