//! The JSON text of values.

ghost use Rattle.std.specs.Prelude.{◌≡◌, ◌≤◌, Some, IfOk};
ghost use Rattle.serde_json.specs.Data.{depth, array, object};
ghost use Rattle.serde_json.specs.Read.{read};
ghost use Rattle.serde_json.specs.View.{view, items_view, members_view};
ghost use Rattle.wc_json.specs.Writing.{data_of, elements_by, members_by, content_data, hex_data, json_text};

use serde_json::{Map, Value as Json};
use std::alloc::{AllocError, Global};
use wc_value::{Bytes, Fields, Files, Text, Value, Values};

/// The compact JSON text of a value.
pub fn to_json(alloc: Global, value: &Value) -> Result<Text, AllocError>
    // The text is the value's JSON.
    ensures text { IfOk result (λ text. text ≡ json_text value.now) }
    // It reads back as the same data, where that is at most 127 deep.
    ensures reads_back { IfOk result (λ text. depth (data_of value.now) ≤ 127 → read text ≡ Some (data_of value.now)) }
{
    let json = value_data(alloc, value)?;
    let text = json.to_string(alloc)?;
    Text::of_string(text)
}

/// The text of the bytes where they are UTF-8, else an object with their hexadecimal digits.
fn content_data(alloc: Global, content: &Bytes) -> Result<Json, AllocError>
    ensures { IfOk result (λ json. view json ≡ content_data content.now) }
{
    match str::from_utf8(content.bytes()) {
        Ok(text) => Ok(Json::String(String::from_str(alloc, text)?)),
        Err(_) => hex_data(alloc, content.bytes()),
    }
}

/// The object that holds the hexadecimal digits of the bytes.
fn hex_data(alloc: Global, bytes: &[u8]) -> Result<Json, AllocError>
    ensures { IfOk result (λ json. view json ≡ hex_data bytes.now) }
{
    let digits = hex::encode(alloc, bytes)?;
    let mut members = Map::new(alloc);
    drop(members.insert(String::from_str(alloc, "hex")?, Json::String(digits))?);
    Ok(Json::Object(members))
}

fn files_data(alloc: Global, files: &Files) -> Result<Map<String, Json>, AllocError>
    ensures { IfOk result (λ members. members_view members.entries ≡ members_by content_data files.now) }
{
    let mut members = Map::new(alloc);
    for (name, content) in files.as_slice() {
        let json = content_data(alloc, content)?;
        let key = String::from_str(alloc, name.as_str())?;
        drop(members.insert(key, json)?);
    }
    Ok(members)
}

#[cycle(write)]
fn value_data(alloc: Global, value: &Value) -> Result<Json, AllocError>
    ensures { IfOk result (λ json. view json ≡ data_of value.now) }
{
    match value {
        Value::Int(n) => Ok(Json::from(*n)),
        Value::Bool(b) => Ok(Json::Bool(*b)),
        Value::Text(text) => Ok(Json::String(String::from_str(alloc, text.as_str())?)),
        Value::List(items) => Ok(Json::Array(values_data(alloc, items)?)),
        Value::Dict(fields) => Ok(Json::Object(fields_data(alloc, fields)?)),
        Value::Folder(files) => Ok(Json::Object(files_data(alloc, files)?)),
    }
}

#[cycle(write)]
fn values_data(alloc: Global, items: &Values) -> Result<Vec<Json>, AllocError>
    ensures { IfOk result (λ json. items_view json.items ≡ elements_by data_of items.now) }
{
    let mut list = Vec::new(alloc);
    for item in items.as_slice() {
        list.push(value_data(alloc, item)?)?;
    }
    Ok(list)
}

#[cycle(write)]
fn fields_data(alloc: Global, fields: &Fields) -> Result<Map<String, Json>, AllocError>
    ensures { IfOk result (λ members. members_view members.entries ≡ members_by data_of fields.now) }
{
    let mut members = Map::new(alloc);
    for (name, value) in fields.as_slice() {
        let json = value_data(alloc, value)?;
        let key = String::from_str(alloc, name.as_str())?;
        drop(members.insert(key, json)?);
    }
    Ok(members)
}
