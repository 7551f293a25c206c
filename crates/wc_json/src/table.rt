//! Tables of job results from JSON.

ghost use Rattle.std.specs.Prelude.{◌≡◌, [], IfOk, decimal, option_map};
ghost use Rattle.serde_json.specs.Events.{members_len};
ghost use Rattle.serde_json.specs.Find.{get_member};
ghost use Rattle.serde_json.specs.View.{view, items_view, members_view};
ghost use Rattle.wc_value.specs.Requests.{requests, IsDistinct, list_of_texts};
ghost use Rattle.wc_json.specs.Answers.{Answers, AnswersFor, Lifts};
ghost use Rattle.wc_json.specs.Tables.{at_key, has_key, has_request_keys, has_row_keys, part_within, read_array, read_code, read_folder, read_parts, read_row, read_rows, read_table, read_word, read_words, read_words_from, row_within, rows_within};

use crate::error::JsonError;
use crate::reading::{fits, not_a_number, parse, read_files, read_number, shape, under};
use serde_json::{Map, Value as Json};
use std::alloc::{AllocError, Global};
use std::collections::BTreeSet;
use wc_value::{
    Duplicate, Files, JobResult, Request, Rows, Table, TableError, Text, Value, Values, Words,
    encode_request,
};

// ---- the parts of a row

/// What is refused at a place of an array.
fn at_place(alloc: Global, place: usize, error: JsonError) -> Result<JsonError, AllocError>
    ensures { IfOk result (λ e. Lifts (decimal place) error e) }
{
    let step = format!(in alloc; "{place}")?;
    Ok(under(alloc, step.as_str(), error))
}

/// A string.
fn read_word(alloc: Global, json: &Json) -> Result<Text, JsonError>
    ensures { Answers (read_word (view json.now)) result }
{
    match json {
        Json::String(text) => match Text::of_str(alloc, text.as_str()) {
            Ok(word) => Ok(word),
            Err(_) => Err(JsonError::OutOfMemory),
        },
        Json::Number(number) => Err(not_a_number(alloc, number)),
        Json::Null | Json::Bool(_) | Json::Array(_) | Json::Object(_) => Err(shape(alloc)),
    }
}

/// The strings of an array.
fn read_words_from(alloc: Global, items: &Vec<Json>) -> Result<Words, JsonError>
    ensures { Answers (read_words_from 0 [] (items_view items.now.items)) result }
{
    let mut words = Words::new(alloc);
    for (i, item) in items.iter().enumerate() {
        match read_word(alloc, item) {
            Ok(word) => words.push(word)?,
            Err(error) => return Err(at_place(alloc, i, error)?),
        }
    }
    Ok(words)
}

/// An array of strings.
fn read_words(alloc: Global, json: &Json) -> Result<Words, JsonError>
    ensures { Answers (read_words (view json.now)) result }
{
    match json {
        Json::Array(items) => read_words_from(alloc, items),
        Json::Number(number) => Err(not_a_number(alloc, number)),
        Json::Null | Json::Bool(_) | Json::String(_) | Json::Object(_) => Err(shape(alloc)),
    }
}

/// A whole number within 64 bits with sign.
fn read_code(alloc: Global, json: &Json) -> Result<i64, JsonError>
    ensures { Answers (read_code (view json.now)) result }
{
    match json {
        Json::Number(number) => read_number(alloc, number),
        Json::Null | Json::Bool(_) | Json::String(_) | Json::Array(_) | Json::Object(_) => {
            Err(shape(alloc))
        }
    }
}

/// An object from names to contents.
fn read_folder(alloc: Global, json: &Json) -> Result<Files, JsonError>
    ensures { Answers (read_folder (view json.now)) result }
{
    match json {
        Json::Object(members) => read_files(alloc, members),
        Json::Number(number) => Err(not_a_number(alloc, number)),
        Json::Null | Json::Bool(_) | Json::String(_) | Json::Array(_) => Err(shape(alloc)),
    }
}

// ---- a row

/// What stands at a key of an object, if anything does.
fn member<'a>(members: &'a Map<String, Json>, key: &str) -> Option<&'a Json>
    ensures { option_map (λ d. view d.now) result ≡ get_member key.now (members_view members.now.entries) }
{
    members.get(key)
}

/// Whether something stands at a key of an object.
fn has_key(members: &Map<String, Json>, key: &str) -> bool
    ensures { result ≡ has_key key.now (members_view members.now.entries) }
{
    member(members, key).is_some()
}

/// The number of an object's keys.
fn count(members: &Map<String, Json>) -> usize
    ensures { result ≡ members_len (members_view members.now.entries) }
{
    members.len()
}

/// Whether an object has the keys of a request.
fn has_request_keys(members: &Map<String, Json>) -> bool
    ensures { result ≡ has_request_keys (members_view members.now.entries) }
{
    has_key(members, "args")
        && has_key(members, "fetch")
        && has_key(members, "files")
        && has_key(members, "program")
}

/// Whether an object has the six keys of a row and no further one.
fn has_row_keys(members: &Map<String, Json>) -> bool
    ensures { result ≡ has_row_keys (members_view members.now.entries) }
{
    count(members) == 6
        && has_request_keys(members)
        && has_key(members, "code")
        && has_key(members, "result")
}

/// The string at a key.
fn word_at(alloc: Global, members: &Map<String, Json>, key: &str) -> Result<Text, JsonError>
    ensures { Answers (at_key key.now read_word (members_view members.now.entries)) result }
{
    match member(members, key) {
        Some(json) => match read_word(alloc, json) {
            Ok(word) => Ok(word),
            Err(error) => Err(under(alloc, key, error)),
        },
        None => Err(shape(alloc)),
    }
}

/// The strings at a key.
fn words_at(alloc: Global, members: &Map<String, Json>, key: &str) -> Result<Words, JsonError>
    ensures { Answers (at_key key.now read_words (members_view members.now.entries)) result }
{
    match member(members, key) {
        Some(json) => match read_words(alloc, json) {
            Ok(words) => Ok(words),
            Err(error) => Err(under(alloc, key, error)),
        },
        None => Err(shape(alloc)),
    }
}

/// The whole number at a key.
fn code_at(alloc: Global, members: &Map<String, Json>, key: &str) -> Result<i64, JsonError>
    ensures { Answers (at_key key.now read_code (members_view members.now.entries)) result }
{
    match member(members, key) {
        Some(json) => match read_code(alloc, json) {
            Ok(code) => Ok(code),
            Err(error) => Err(under(alloc, key, error)),
        },
        None => Err(shape(alloc)),
    }
}

/// The files at a key.
fn folder_at(alloc: Global, members: &Map<String, Json>, key: &str) -> Result<Files, JsonError>
    ensures { Answers (at_key key.now read_folder (members_view members.now.entries)) result }
{
    match member(members, key) {
        Some(json) => match read_folder(alloc, json) {
            Ok(files) => Ok(files),
            Err(error) => Err(under(alloc, key, error)),
        },
        None => Err(shape(alloc)),
    }
}

/// What stands at the keys of a row, in their order.
fn read_parts(alloc: Global, members: &Map<String, Json>) -> Result<(Request, JobResult), JsonError>
    ensures { Answers (read_parts (members_view members.now.entries)) result }
{
    let args = words_at(alloc, members, "args")?;
    let code = code_at(alloc, members, "code")?;
    let fetch = words_at(alloc, members, "fetch")?;
    let files = folder_at(alloc, members, "files")?;
    let program = word_at(alloc, members, "program")?;
    let brought = folder_at(alloc, members, "result")?;
    let request = Request {
        program,
        args,
        files,
        fetch,
    };
    Ok((
        request,
        JobResult {
            code,
            files: brought,
        },
    ))
}

/// A row of a table, an object with exactly its keys.
fn read_row(alloc: Global, json: &Json) -> Result<(Request, JobResult), JsonError>
    ensures { Answers (read_row (view json.now)) result }
{
    match json {
        Json::Object(members) => {
            if has_row_keys(members) {
                read_parts(alloc, members)
            } else {
                Err(shape(alloc))
            }
        }
        Json::Number(number) => Err(not_a_number(alloc, number)),
        Json::Null | Json::Bool(_) | Json::String(_) | Json::Array(_) => Err(shape(alloc)),
    }
}

// ---- rows

/// The rows of an array. A row whose request stands in an earlier one is refused.
fn read_rows(alloc: Global, items: &Vec<Json>) -> Result<Rows, JsonError>
    ensures rows { Answers (read_rows 0 [] (items_view items.now.items)) result }
    ensures distinct { IfOk result (λ rows. IsDistinct (requests rows)) }
{
    let mut rows = Rows::new(alloc);
    let mut earlier = BTreeSet::new(alloc);
    for (i, item) in items.iter().enumerate() {
        match read_row(alloc, item) {
            Ok(row) => {
                if !earlier.insert(encode_request(alloc, &row.0)?.into_vec())? {
                    return Err(at_place(alloc, i, shape(alloc))?);
                }
                rows.push(row)?;
            }
            Err(error) => return Err(at_place(alloc, i, error)?),
        }
    }
    Ok(rows)
}

/// An array of rows.
fn read_array(alloc: Global, json: &Json) -> Result<Rows, JsonError>
    ensures rows { Answers (read_array (view json.now)) result }
    ensures distinct { IfOk result (λ rows. IsDistinct (requests rows)) }
{
    match json {
        Json::Array(items) => read_rows(alloc, items),
        Json::Number(number) => Err(not_a_number(alloc, number)),
        Json::Null | Json::Bool(_) | Json::String(_) | Json::Object(_) => Err(shape(alloc)),
    }
}

// ---- the limits

/// A value at a key, where it is within the limits.
fn part_within(alloc: Global, key: &str, value: Value) -> Result<Value, JsonError>
    ensures { Answers (part_within key.now value) result }
{
    if fits(&value) {
        Ok(value)
    } else {
        Err(under(alloc, key, shape(alloc)))
    }
}

/// Texts as a value.
fn value_of_words(alloc: Global, words: &Words) -> Result<Value, AllocError>
    ensures { IfOk result (λ v. v ≡ list_of_texts words.now) }
{
    let mut values = Values::new(alloc);
    for word in words.as_slice() {
        values.push(Value::Text(word.copy()?))?;
    }
    Ok(Value::List(values))
}

/// Each part of a row is within the limits; the last part is answered.
fn row_within(alloc: Global, request: &Request, found: &JobResult) -> Result<Value, JsonError>
    ensures { Answers (row_within (request.now, found.now)) result }
{
    part_within(alloc, "args", value_of_words(alloc, &request.args)?)?;
    part_within(alloc, "fetch", value_of_words(alloc, &request.fetch)?)?;
    part_within(alloc, "files", Value::Folder(request.files.copy()?))?;
    part_within(alloc, "program", Value::Text(request.program.copy()?))?;
    part_within(alloc, "result", Value::Folder(found.files.copy()?))
}

/// The rows are within the limits.
fn rows_within(alloc: Global, rows: &Rows) -> Result<(), JsonError>
    ensures { Answers (rows_within 0 rows.now) result }
{
    for (i, row) in rows.as_slice().iter().enumerate() {
        if let Err(error) = row_within(alloc, &row.0, &row.1) {
            return Err(at_place(alloc, i, error)?);
        }
    }
    Ok(())
}

/// The rows of a table file, each within the limits.
fn read_table(alloc: Global, json: &Json) -> Result<Rows, JsonError>
    ensures rows { Answers (read_table (view json.now)) result }
    ensures distinct { IfOk result (λ rows. IsDistinct (requests rows)) }
{
    let rows = read_array(alloc, json)?;
    rows_within(alloc, &rows)?;
    Ok(rows)
}

/// The table of job results that the bytes of a table file spell: an array of objects with exactly the keys `program`, `args`, `files`,
/// `fetch`, `code` and `result`. The first refusal in walking order is answered, as `from_json` does; a row whose request stands in
/// an earlier one is refused behind what stands in it.
pub fn table_from_json(alloc: Global, bytes: &[u8]) -> Result<Table, JsonError>
    ensures { AnswersFor bytes.now read_table result }
{
    let json = parse(alloc, bytes)?;
    let rows = read_table(alloc, &json)?;
    match Table::new(alloc, rows) {
        Ok(table) => Ok(table),
        Err(TableError::OutOfMemory) => Err(JsonError::OutOfMemory),
        Err(TableError::Twice(_)) => unreachable!(),
    }
}
