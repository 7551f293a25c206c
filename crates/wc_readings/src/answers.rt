//! What the words of rows ask.

use crate::calculations::put_calculation;
use crate::copies::put_copies;
use crate::lists::{put_fields, put_rooms, put_words};
use crate::meanings::put_meaning;
use crate::requests::put_table;
use crate::shown::Shown;
use crate::syntax::{put_offsets, put_printed};
use crate::tokens::put_tokens;
use crate::values::{put_bytes, put_limits, put_read, put_text};
use std::alloc::Global;
use wc_value::{Kind, Text};

/// The kind that a word names.
fn kind_of(word: &str) -> Option<Kind> {
    match word {
        "int" => Some(Kind::Int),
        "bool" => Some(Kind::Bool),
        "text" => Some(Kind::Text),
        "list" => Some(Kind::List),
        "dict" => Some(Kind::Dict),
        "folder" => Some(Kind::Folder),
        _ => None,
    }
}

/// Puts what is found for a file, where a word says as what it is read. Whether there is such a word.
fn put_of_file(alloc: Global, shown: &mut Shown, word: &str, file: &Text) -> bool {
    match word {
        "tokens" => put_tokens(alloc, shown, file),
        "offsets" => put_offsets(alloc, shown, file),
        "print" => put_printed(alloc, shown, file),
        _ => return false,
    }
    true
}

/// Puts what is found for values and lists, where a word says what a text is. Whether there is such a word.
fn put_of_values(alloc: Global, shown: &mut Shown, word: &str, text: &str) -> bool {
    match word {
        "bytes" => put_bytes(alloc, shown, text),
        "limits" => put_limits(alloc, shown, text),
        "utf8" => put_text(alloc, shown, text),
        "table" => put_table(alloc, shown, text),
        "words" => put_words(alloc, shown, text),
        "fields" => put_fields(alloc, shown, text),
        "rooms" => put_rooms(alloc, shown),
        "copies" => put_copies(alloc, shown),
        "calculation" => put_calculation(alloc, shown, text),
        "meaning" => put_meaning(alloc, shown, text),
        _ => return false,
    }
    true
}

/// Puts a text that is JSON of the kind that a word names.
fn put_of_json(alloc: Global, shown: &mut Shown, word: &str, text: &str) {
    match kind_of(word) {
        Some(kind) => put_read(alloc, shown, kind, text),
        None => shown.put("no such word"),
    }
}

/// Puts what is found for a file, where a word says as what it is read.
fn put_answer(alloc: Global, shown: &mut Shown, word: &str, file: &Text) {
    let text = file.as_str();
    if !put_of_file(alloc, shown, word, file) && !put_of_values(alloc, shown, word, text) {
        put_of_json(alloc, shown, word, text);
    }
}

/// What is found for a text, where a word says as what it is read.
pub fn answer(alloc: Global, word: &str, text: &str) -> Shown {
    let mut shown = Shown::new(alloc);
    match Text::of_str(alloc, text) {
        Ok(file) => put_answer(alloc, &mut shown, word, &file),
        Err(_) => shown.lose(),
    }
    shown
}
