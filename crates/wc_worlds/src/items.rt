//! Items, which stand for bytes: numbers, text in quotes, hexadecimal digits, names, and each of these so many times.

use crate::parts::Parts;
use std::alloc::Global;
use wc_value::Files;

/// Puts the bytes of hexadecimal digits.
fn put_digits(alloc: Global, parts: &mut Parts, digits: &str) {
    match hex::decode(alloc, digits.as_bytes()) {
        Ok(bytes) => parts.put(bytes.as_slice()),
        Err(_) => parts.refuse(),
    }
}

/// Puts a number of eight bytes.
fn put_wide(parts: &mut Parts, digits: &str) {
    match digits.parse::<i64>() {
        Ok(number) => parts.put(&number.to_be_bytes()),
        Err(_) => parts.refuse(),
    }
}

/// Puts a text behind its length, where there is a text. No text is as long as the greatest length.
fn put_text(parts: &mut Parts, text: Option<&[u8]>) {
    match text {
        Some(text) => {
            let length = u32::try_from(text.len()).unwrap_or(u32::MAX);
            parts.put(&length.to_be_bytes());
            parts.put(text);
        }
        None => parts.refuse(),
    }
}

/// What stands before a quote.
fn unquoted(behind: &str) -> Option<&[u8]> {
    Some(behind.strip_suffix('"')?.as_bytes())
}

/// The bytes of a name.
fn named<'a>(names: &'a Files, name: &str) -> Option<&'a [u8]> {
    Some(names.find(name.as_bytes())?.bytes())
}

/// Puts the bytes of a name, or a number of four bytes.
fn put_word(names: &Files, parts: &mut Parts, word: &str) {
    if let Some(named) = names.find(word.as_bytes()) {
        parts.put(named.bytes());
        return;
    }
    match word.parse::<u32>() {
        Ok(number) => parts.put(&number.to_be_bytes()),
        Err(_) => parts.refuse(),
    }
}

/// Puts the bytes of an item that isn't repeated.
fn put_single(alloc: Global, names: &Files, parts: &mut Parts, item: &str) {
    let mut behind = item.chars();
    match behind.next() {
        Some('"') => put_text(parts, unquoted(behind.as_str())),
        Some('x') => put_digits(alloc, parts, behind.as_str()),
        Some(':') => put_wide(parts, behind.as_str()),
        Some('@') => put_text(parts, named(names, behind.as_str())),
        _ => put_word(names, parts, item),
    }
}

/// Puts the bytes of an item.
fn put_item(alloc: Global, names: &Files, parts: &mut Parts, item: &str) {
    let (times, part) = item.split_once('*').unwrap_or(("1", item));
    match times.parse::<u32>() {
        Ok(times) => {
            for _time in 0..times {
                put_single(alloc, names, parts, part);
            }
        }
        Err(_) => put_single(alloc, names, parts, item),
    }
}

/// Puts the bytes of items, which are parted by spaces.
pub fn put_items(alloc: Global, names: &Files, parts: &mut Parts, items: &str) {
    for item in items.split(' ') {
        if !item.is_empty() {
            put_item(alloc, names, parts, item);
        }
    }
}
