//! Bytes as values and texts, and JSON as values.

use crate::shown::Shown;
use std::alloc::{AllocError, Global};
use wc_decoding::decode;
use wc_json::{JsonError, from_json, to_json};
use wc_value::{
    Bytes, Duplicate, Kind, Text, Value, encode, is_within, is_within_depth, let_go, same_value,
};

/// The bytes of hexadecimal digits, or none where something else stands there.
fn bytes_of(alloc: Global, digits: &str) -> Result<Bytes, AllocError> {
    let mut bytes = Bytes::new(alloc);
    if let Ok(read) = hex::decode(alloc, digits.as_bytes()) {
        bytes.extend(read.as_slice())?;
    }
    Ok(bytes)
}

/// Puts a value as JSON, and lets it go.
pub fn put_json(alloc: Global, shown: &mut Shown, value: Value) {
    match to_json(alloc, &value) {
        Ok(json) => shown.put(json.as_str()),
        Err(_) => shown.lose(),
    }
    let_go(value);
}

/// Whether these bytes spell a value.
fn spells(alloc: Global, bytes: &[u8], value: &Value) -> bool {
    match encode(alloc, value) {
        Ok(spelled) => spelled.bytes() == bytes,
        Err(_) => false,
    }
}

/// Whether a copy of a value is the same, and is spelled by these bytes.
fn is_spelled(alloc: Global, value: &Value, bytes: &[u8]) -> bool {
    match value.copy() {
        Ok(copy) => {
            let is_spelled = same_value(&copy, value) && spells(alloc, bytes, &copy);
            let_go(copy);
            is_spelled
        }
        Err(_) => false,
    }
}

/// Puts the kind and the JSON of a value that these bytes spell.
fn put_value(alloc: Global, shown: &mut Shown, value: Value, bytes: &[u8]) {
    if !is_spelled(alloc, &value, bytes) {
        shown.put("otherwise spelled ");
    }
    shown.put_word(&value.kind());
    shown.put(" ");
    put_json(alloc, shown, value);
}

/// Puts the value that bytes spell, or why they spell none.
pub fn put_bytes(alloc: Global, shown: &mut Shown, digits: &str) {
    let Ok(bytes) = bytes_of(alloc, digits) else {
        shown.lose();
        return;
    };
    match decode(alloc, bytes.bytes()) {
        Ok(value) => put_value(alloc, shown, value, bytes.bytes()),
        Err(error) => shown.put_item(&error),
    }
}

/// Puts whether a value of two levels is within its number of bytes, within one byte less, and within one level.
fn put_within(shown: &mut Shown, value: &Value, length: usize) {
    shown.put_item(&is_within(value, length, 2));
    shown.put(", ");
    shown.put_item(&is_within(value, length.saturating_sub(1), 2));
    shown.put(", ");
    shown.put_item(&is_within_depth(value, 1));
}

/// Puts in which limits the value is that bytes spell.
pub fn put_limits(alloc: Global, shown: &mut Shown, digits: &str) {
    let Ok(bytes) = bytes_of(alloc, digits) else {
        shown.lose();
        return;
    };
    match decode(alloc, bytes.bytes()) {
        Ok(value) => {
            put_within(shown, &value, bytes.len());
            let_go(value);
        }
        Err(error) => shown.put_item(&error),
    }
}

/// Puts the text that bytes are, if they are one.
pub fn put_text(alloc: Global, shown: &mut Shown, digits: &str) {
    match bytes_of(alloc, digits) {
        Ok(bytes) => match Text::of(bytes) {
            Some(text) => shown.put(text.as_str()),
            None => shown.put("no text"),
        },
        Err(_) => shown.lose(),
    }
}

/// Puts why JSON is refused, and at which path.
fn put_path(shown: &mut Shown, why: &str, path: &Text) {
    shown.put(why);
    shown.put(path.as_str());
}

/// Puts why JSON is refused.
fn put_refusal(shown: &mut Shown, error: &JsonError) {
    match error {
        JsonError::NotJson => shown.put("not json"),
        JsonError::Float(path) => put_path(shown, "float at ", path),
        JsonError::OutOfRange(path) => put_path(shown, "out of range at ", path),
        JsonError::Shape(path) => put_path(shown, "shape at ", path),
        JsonError::OutOfMemory => shown.lose(),
    }
}

/// Puts a text that is read as a value of a kind, written again, or why it is refused.
pub fn put_read(alloc: Global, shown: &mut Shown, kind: Kind, text: &str) {
    match from_json(alloc, text.as_bytes(), kind) {
        Ok(value) => put_json(alloc, shown, value),
        Err(error) => put_refusal(shown, &error),
    }
}
