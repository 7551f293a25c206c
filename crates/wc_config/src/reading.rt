//! Reading of a settings file.

ghost use Rattle.std.specs.Prelude.{◌≡◌, true, int_le, IfOk, IfErr, option_map, codes};
ghost use Rattle.toml.specs.Data.{get_member};
ghost use Rattle.toml.specs.View.{view, table_view, array_view};
ghost use Rattle.wc_config.specs.Reading.{Reads, Refuses, told};
ghost use Rattle.wc_config.specs.Settings.{entry_at, names_in, names_at, strings, within, number_at, default_on, AreOf};

use crate::error::ConfigError;
use crate::keys::{Part, USUAL_BYTES, USUAL_NODES, USUAL_POLL, name_of};
use crate::refusals::{Kind, Refused, least_refusal};
use crate::settings::Settings;
use std::alloc::{AllocError, Global};
use toml::value::Array;
use toml::{Table, Value};
use wc_state::Limits;
use wc_value::{Text, Words};

/// The value at a key of a table.
fn member<'a>(table: &'a Table, key: &str) -> Option<&'a Value>
    ensures { option_map (λ v. view v.now) result ≡ get_member key.now (table_view table.now) }
{
    table.get(key)
}

/// The value at a key of a part.
fn entry<'a>(table: &'a Table, part: Part, key: &str) -> Option<&'a Value>
    ensures { option_map (λ v. view v.now) result ≡ entry_at part key.now (table_view table.now) }
{
    match member(table, name_of(part)) {
        Some(value) => match value.as_table() {
            Some(inner) => member(inner, key),
            None => None,
        },
        None => None,
    }
}

/// The strings of an array.
fn strings(alloc: Global, values: &Array) -> Result<Words, AllocError>
    ensures { IfOk result (λ names. names ≡ strings (array_view values.now)) }
{
    let mut names = Words::new(alloc);
    for value in values.as_slice() {
        if let Some(name) = value.as_str() {
            names.push(Text::of_str(alloc, name)?)?;
        }
    }
    Ok(names)
}

/// The names that a key of the part on caching lists.
fn names_at(alloc: Global, table: &Table, key: &str) -> Result<Words, AllocError>
    ensures { IfOk result (λ names. names ≡ names_at key.now (table_view table.now)) }
{
    match entry(table, Part::Caching, key) {
        Some(value) => match value.as_array() {
            Some(values) => strings(alloc, values),
            None => Ok(Words::new(alloc)),
        },
        None => Ok(Words::new(alloc)),
    }
}

/// A number from the least to the most, or the usual one.
fn within(least: i64, most: i64, usual: i64, number: Option<i64>) -> i64
    requires { (int_le least usual ≡ true) × (int_le usual most ≡ true) }
    ensures value { result ≡ within least most usual number }
    ensures range { (int_le least result ≡ true) × (int_le result most ≡ true) }
{
    match number {
        Some(number) if least <= number && number <= most => number,
        _ => usual,
    }
}

/// The number at a key of a part, or the usual one.
fn number_at(table: &Table, part: Part, key: &str, least: i64, most: i64, usual: i64) -> i64
    requires { (int_le least usual ≡ true) × (int_le usual most ≡ true) }
    ensures value { result ≡ number_at part key.now least most usual (table_view table.now) }
    ensures range { (int_le least result ≡ true) × (int_le result most ≡ true) }
{
    let number = match entry(table, part, key) {
        Some(value) => value.as_integer(),
        None => None,
    };
    within(least, most, usual, number)
}

/// Whether caching is on for a name that is in no list.
fn default_on(table: &Table) -> bool
    ensures { result ≡ default_on (table_view table.now) }
{
    match entry(table, Part::Caching, "default") {
        Some(value) => value.as_bool().unwrap_or(false),
        None => false,
    }
}

/// The settings that a table gives, whose lists of names are these.
fn settings_in(table: &Table, enabled: Words, disabled: Words) -> Settings
    requires { (enabled ≡ names_at (codes "enabled") (table_view table.now)) × (disabled ≡ names_at (codes "disabled") (table_view table.now)) }
    ensures { AreOf (table_view table.now) result }
{
    let nodes = number_at(table, Part::Limits, "max_nodes", 1, 8_000_000, USUAL_NODES);
    let bytes = number_at(
        table,
        Part::Limits,
        "max_bytes",
        1_024,
        2_147_483_648,
        USUAL_BYTES,
    );
    let poll = number_at(table, Part::Run, "poll_ms", 1, 600_000, USUAL_POLL);
    Settings {
        default_on: default_on(table),
        enabled,
        disabled,
        limits: Limits {
            max_nodes: nodes as u32,
            max_bytes: bytes as u64,
            poll_ms: poll as u64,
        },
    }
}

/// The error that says why a settings file is refused, with the key that it names.
fn told(refused: Refused) -> ConfigError
    ensures { result ≡ told (refused.kind, refused.key) }
{
    match refused.kind {
        Kind::UnknownKey => ConfigError::UnknownKey(refused.key),
        Kind::BadValue => ConfigError::BadValue(refused.key),
    }
}

/// The settings that a file's bytes give, or the refusal of the least key path in byte order.
pub fn read_settings(alloc: Global, bytes: &[u8]) -> Result<Settings, ConfigError>
    // The settings are those that the bytes say.
    ensures ok { IfOk result (Reads bytes.now) }
    // A refusal is the first one that the bytes call for, or want of memory.
    ensures refused { IfErr result (Refuses bytes.now) }
{
    let table = match toml::table_from_slice(alloc, bytes) {
        Ok(table) => table,
        Err(error) if error.is_memory() => return Err(ConfigError::OutOfMemory),
        Err(_) => return Err(ConfigError::NotToml),
    };
    let enabled = names_at(alloc, &table, "enabled")?;
    let disabled = names_at(alloc, &table, "disabled")?;
    match least_refusal(alloc, &table, &enabled, &disabled)? {
        Some(refused) => Err(told(refused)),
        None => Ok(settings_in(&table, enabled, disabled)),
    }
}
