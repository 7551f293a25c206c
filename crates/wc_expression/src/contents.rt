//! What values hold.

ghost use Rattle.std.specs.Prelude.{◌≡◌, IfOk};
ghost use Rattle.std.specs.Fmt.{signed_decimal};
ghost use Rattle.std.specs.Option.{option_copied};
ghost use Rattle.wc_value.specs.declared.process.Reason.TheVariants.{MissingKey};
ghost use Rattle.wc_value.specs.declared.value.Value.{out-Value};
ghost use Rattle.wc_expression.specs.Outcomes.{mapped, found};
ghost use Rattle.wc_expression.specs.Texts.{pieces};
ghost use Rattle.wc_value.specs.Ascending.{lookup};
ghost use Rattle.wc_expression.specs.Contents.{has_kind, bool_of, ints_of, bools_of, item_at, item, printed, whole, size, trimmed_text, got, has_name, as_text, content_of, content, line, contains};

use crate::outcome::Outcome;
use crate::texts::{find_line, has_part, trim_white};
use crate::whole::read_number;
use std::alloc::{AllocError, Global};
use wc_value::{Bytes, Duplicate, Fields, Files, Kind, Reason, Text, Value, Values};

/// Whether a value is of a kind.
pub fn is_of_kind(value: &Value, kind: Kind) -> bool
    ensures { result ≡ has_kind kind (out-Value value.now) }
{
    match kind {
        Kind::Int => matches!(value, Value::Int(_)),
        Kind::Bool => matches!(value, Value::Bool(_)),
        Kind::Text => matches!(value, Value::Text(_)),
        Kind::List => matches!(value, Value::List(_)),
        Kind::Dict => matches!(value, Value::Dict(_)),
        Kind::Folder => matches!(value, Value::Folder(_)),
    }
}

/// The truth value that a value is.
pub fn as_bool(value: &Value) -> Outcome<bool>
    ensures { result ≡ bool_of (out-Value value.now) }
{
    match value {
        Value::Bool(b) => Outcome::Gives(*b),
        _ => Outcome::Faults(Reason::WrongKind),
    }
}

/// The two whole numbers that two values are.
pub fn as_ints(left: &Value, right: &Value) -> Outcome<(i64, i64)>
    ensures { result ≡ ints_of (out-Value left.now) (out-Value right.now) }
{
    match left {
        Value::Int(a) => match right {
            Value::Int(b) => Outcome::Gives((*a, *b)),
            _ => Outcome::Faults(Reason::WrongKind),
        },
        _ => Outcome::Faults(Reason::WrongKind),
    }
}

/// The two truth values that two values are.
pub fn as_bools(left: &Value, right: &Value) -> Outcome<(bool, bool)>
    ensures { result ≡ bools_of (out-Value left.now) (out-Value right.now) }
{
    match left {
        Value::Bool(a) => match right {
            Value::Bool(b) => Outcome::Gives((*a, *b)),
            _ => Outcome::Faults(Reason::WrongKind),
        },
        _ => Outcome::Faults(Reason::WrongKind),
    }
}

/// The item at a whole number, counted from 0, or none where there is none.
fn find_at<T>(items: &[T], at: i64) -> Option<&T>
    ensures { found MissingKey (option_copied result) ≡ item_at items.entry.now at }
{
    if at < 0 {
        return None;
    }
    items.get(at as usize)
}

/// The item at the whole number that a value is.
pub fn find_item<'a, T>(items: &'a [T], at: &Value) -> Outcome<&'a T>
    ensures { mapped (λ x. x.now) result ≡ item items.entry.now (out-Value at.now) }
{
    match at {
        Value::Int(n) => match find_at(items, *n) {
            Some(item) => Outcome::Gives(item),
            None => Outcome::Faults(Reason::MissingKey),
        },
        _ => Outcome::Faults(Reason::WrongKind),
    }
}

/// The decimal form of a number.
fn decimal(alloc: Global, n: i64) -> Result<Text, AllocError>
    ensures { IfOk result (λ text. text ≡ signed_decimal n) }
{
    Text::of_string(format!(in alloc; "{n}")?)
}

/// What a value prints as: a number in decimal, a truth value's name, or the text itself.
pub fn print(alloc: Global, value: &Value) -> Result<Outcome<Text>, AllocError>
    ensures { IfOk result (λ o. o ≡ printed (out-Value value.now)) }
{
    match value {
        Value::Int(n) => Ok(Outcome::Gives(decimal(alloc, *n)?)),
        Value::Bool(true) => Ok(Outcome::Gives(Text::of_str(alloc, "true")?)),
        Value::Bool(false) => Ok(Outcome::Gives(Text::of_str(alloc, "false")?)),
        Value::Text(text) => Ok(Outcome::Gives(text.copy()?)),
        _ => Ok(Outcome::Faults(Reason::WrongKind)),
    }
}

/// The number that a value is, or that its text spells.
pub fn as_whole(value: &Value) -> Outcome<i64>
    ensures { result ≡ whole (out-Value value.now) }
{
    match value {
        Value::Int(n) => Outcome::Gives(*n),
        Value::Text(text) => match read_number(text.as_str()) {
            Some(n) => Outcome::Gives(n),
            None => Outcome::Faults(Reason::BadText),
        },
        _ => Outcome::Faults(Reason::WrongKind),
    }
}

/// The bytes of a text, or the elements of anything else that has some.
pub fn size_of(value: &Value) -> Outcome<i64>
    ensures { result ≡ size (out-Value value.now) }
{
    match value {
        Value::Text(text) => Outcome::Gives(text.bytes().len() as i64),
        Value::List(items) => Outcome::Gives(items.len() as i64),
        Value::Dict(fields) => Outcome::Gives(fields.len() as i64),
        Value::Folder(files) => Outcome::Gives(files.len() as i64),
        _ => Outcome::Faults(Reason::WrongKind),
    }
}

/// The text that a value is, without the white space at its ends.
pub fn trim_text(alloc: Global, value: &Value) -> Result<Outcome<Text>, AllocError>
    ensures { IfOk result (λ o. o ≡ trimmed_text (out-Value value.now)) }
{
    match value {
        Value::Text(text) => Ok(Outcome::Gives(Text::of_str(alloc, trim_white(text.as_str()))?)),
        _ => Ok(Outcome::Faults(Reason::WrongKind)),
    }
}

/// A copy of the item of a list at the whole number that a value is.
fn get_item(items: &Values, at: &Value) -> Result<Outcome<Value>, AllocError>
    ensures { IfOk result (λ o. o ≡ item items.now (out-Value at.now)) }
{
    match find_item(items.as_slice(), at) {
        Outcome::Gives(item) => Ok(Outcome::Gives(item.copy()?)),
        Outcome::Faults(reason) => Ok(Outcome::Faults(reason)),
    }
}

/// A copy of the value of a dictionary at a key.
fn get_field(fields: &Fields, key: &Text) -> Result<Outcome<Value>, AllocError>
    ensures { IfOk result (λ o. o ≡ found MissingKey (lookup key.now fields.now)) }
{
    match fields.find(key.bytes()) {
        Some(value) => Ok(Outcome::Gives(value.copy()?)),
        None => Ok(Outcome::Faults(Reason::MissingKey)),
    }
}

/// A copy of the item of a list at a number, or of the value of a dictionary at a key.
pub fn get(from: &Value, at: &Value) -> Result<Outcome<Value>, AllocError>
    ensures { IfOk result (λ o. o ≡ got (out-Value from.now) (out-Value at.now)) }
{
    match from {
        Value::List(items) => get_item(items, at),
        Value::Dict(fields) => match at {
            Value::Text(key) => get_field(fields, key),
            _ => Ok(Outcome::Faults(Reason::WrongKind)),
        },
        _ => Ok(Outcome::Faults(Reason::WrongKind)),
    }
}

/// Whether a dictionary has a key, or a folder a name.
pub fn has(within: &Value, name: &Value) -> Outcome<bool>
    ensures { result ≡ has_name (out-Value within.now) (out-Value name.now) }
{
    match within {
        Value::Dict(fields) => match name {
            Value::Text(name) => Outcome::Gives(fields.find(name.bytes()).is_some()),
            _ => Outcome::Faults(Reason::WrongKind),
        },
        Value::Folder(files) => match name {
            Value::Text(name) => Outcome::Gives(files.find(name.bytes()).is_some()),
            _ => Outcome::Faults(Reason::WrongKind),
        },
        _ => Outcome::Faults(Reason::WrongKind),
    }
}

/// The text of some bytes.
fn read_text(bytes: &Bytes) -> Result<Outcome<Text>, AllocError>
    ensures { IfOk result (λ o. o ≡ as_text bytes.now) }
{
    match Text::of(bytes.copy()?) {
        Some(text) => Ok(Outcome::Gives(text)),
        None => Ok(Outcome::Faults(Reason::BadText)),
    }
}

/// The content of a file of a folder, as text.
fn file_text(files: &Files, name: &Text) -> Result<Outcome<Text>, AllocError>
    ensures { IfOk result (λ o. o ≡ content_of files.now name.now) }
{
    match files.find(name.bytes()) {
        Some(bytes) => read_text(bytes),
        None => Ok(Outcome::Faults(Reason::MissingKey)),
    }
}

/// The content of a file, as text.
pub fn file(folder: &Value, name: &Value) -> Result<Outcome<Text>, AllocError>
    ensures { IfOk result (λ o. o ≡ content (out-Value folder.now) (out-Value name.now)) }
{
    match folder {
        Value::Folder(files) => match name {
            Value::Text(name) => file_text(files, name),
            _ => Ok(Outcome::Faults(Reason::WrongKind)),
        },
        _ => Ok(Outcome::Faults(Reason::WrongKind)),
    }
}

/// The piece of a text at a whole number, as a text of its own.
fn line_of(alloc: Global, text: &Text, at: i64) -> Result<Outcome<Text>, AllocError>
    ensures { IfOk result (λ o. o ≡ item_at (pieces text.now) at) }
{
    if at < 0 {
        return Ok(Outcome::Faults(Reason::MissingKey));
    }
    match find_line(text.as_str(), at as u64) {
        Some(piece) => Ok(Outcome::Gives(Text::of_str(alloc, piece)?)),
        None => Ok(Outcome::Faults(Reason::MissingKey)),
    }
}

/// The piece at a number, counted from 0, of a text cut at each line feed.
pub fn line(alloc: Global, text: &Value, at: &Value) -> Result<Outcome<Text>, AllocError>
    ensures { IfOk result (λ o. o ≡ line (out-Value text.now) (out-Value at.now)) }
{
    match text {
        Value::Text(text) => match at {
            Value::Int(n) => line_of(alloc, text, *n),
            _ => Ok(Outcome::Faults(Reason::WrongKind)),
        },
        _ => Ok(Outcome::Faults(Reason::WrongKind)),
    }
}

/// Whether a text stands in another.
pub fn contains(text: &Value, part: &Value) -> Outcome<bool>
    ensures { result ≡ contains (out-Value text.now) (out-Value part.now) }
{
    match text {
        Value::Text(text) => match part {
            Value::Text(part) => Outcome::Gives(has_part(text.as_str(), part.as_str())),
            _ => Outcome::Faults(Reason::WrongKind),
        },
        _ => Outcome::Faults(Reason::WrongKind),
    }
}
