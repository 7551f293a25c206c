//! Values from JSON.

ghost use Rattle.std.specs.Prelude.{◌≡◌, Ok, [], IfOk, option_map};
ghost use Rattle.std.specs.Option.{option_copied};
ghost use Rattle.hex.specs.Hex.{decode_of};
ghost use Rattle.serde_json.specs.View.{view, items_view, members_view, number_view};
ghost use Rattle.wc_value.specs.declared.value.Value.TheVariants.{Text as TheText};
ghost use Rattle.wc_json.specs.Answers.{Answers, AnswersFor, IsTold, Lifts, Parses};
ghost use Rattle.wc_json.specs.Limits.{fits, within, all_within, read_value, read_fields};
ghost use Rattle.wc_json.specs.Reading.{other_shape, path_under, read_number, read_int, read_any, read_items, read_members, or_shape, read_digits, digits_in, read_hex, read_content, read_files, or_other_shape, read_object, read_number_as, read_as, read_port, read_ports, read_inputs};

use crate::error::JsonError;
use hex::FromHexError;
use serde_json::{Category, Map, Number, Value as Json};
use std::alloc::{AllocError, Global};
use wc_value::{Bytes, Fields, Files, Keyed, Kind, Text, Value, Values, is_within};

/// The ports of a definition with the kinds of their values.
pub type Ports = Keyed<Kind>;

/// The most canonical bytes of a value.
const MOST_BYTES: usize = 4_194_304;
/// The greatest depth of a value.
const MOST_DEPTH: u32 = 32;

/// What stands there isn't what is asked for.
pub(crate) fn shape(alloc: Global) -> JsonError
    ensures { IsTold (other_shape, []) result }
{
    match Text::of_str(alloc, "") {
        Ok(path) => JsonError::Shape(path),
        Err(_) => JsonError::OutOfMemory,
    }
}

/// A path with one more step in front.
fn path_under(alloc: Global, step: &str, path: &Text) -> Result<Text, AllocError>
    ensures { IfOk result (λ longer. longer ≡ path_under step.now path.now) }
{
    Text::of_string(format!(in alloc; "/{step}{}", path.as_str())?)
}

/// What is refused inside a step.
pub(crate) fn under(alloc: Global, step: &str, error: JsonError) -> JsonError
    ensures { Lifts step.now error result }
{
    match error {
        JsonError::Float(path) => match path_under(alloc, step, &path) {
            Ok(longer) => JsonError::Float(longer),
            Err(_) => JsonError::OutOfMemory,
        },
        JsonError::OutOfRange(path) => match path_under(alloc, step, &path) {
            Ok(longer) => JsonError::OutOfRange(longer),
            Err(_) => JsonError::OutOfMemory,
        },
        JsonError::Shape(path) => match path_under(alloc, step, &path) {
            Ok(longer) => JsonError::Shape(longer),
            Err(_) => JsonError::OutOfMemory,
        },
        JsonError::NotJson => JsonError::NotJson,
        JsonError::OutOfMemory => JsonError::OutOfMemory,
    }
}

/// A whole number within 64 bits with sign.
pub(crate) fn read_number(alloc: Global, number: &Number) -> Result<i64, JsonError>
    ensures { Answers (read_number (number_view number.now)) result }
{
    match number.as_i64() {
        Some(n) => Ok(n),
        None => {
            let path = Text::of_str(alloc, "")?;
            match number.as_u64() {
                Some(_) => Err(JsonError::OutOfRange(path)),
                None => Err(JsonError::Float(path)),
            }
        }
    }
}

/// Why a number isn't what is asked for: it is no whole number within 64 bits with sign, or else it is a number.
pub(crate) fn not_a_number(alloc: Global, number: &Number) -> JsonError
    ensures { IsTold (or_other_shape (read_number (number_view number.now))) result }
{
    match read_number(alloc, number) {
        Ok(_) => shape(alloc),
        Err(error) => error,
    }
}

/// A number as a value.
fn read_int(alloc: Global, number: &Number) -> Result<Value, JsonError>
    ensures { Answers (read_int (number_view number.now)) result }
{
    match read_number(alloc, number) {
        Ok(n) => Ok(Value::Int(n)),
        Err(error) => Err(error),
    }
}

/// A text as it stands.
fn read_text(alloc: Global, text: &str) -> Result<Value, JsonError>
    ensures { Answers (Ok (TheText text.now)) result }
{
    match Text::of_str(alloc, text) {
        Ok(text) => Ok(Value::Text(text)),
        Err(_) => Err(JsonError::OutOfMemory),
    }
}

/// A value of whatever kind it is, where an object is a dictionary.
#[cycle(read)]
fn read_any(alloc: Global, json: &Json) -> Result<Value, JsonError>
    ensures { Answers (read_any (view json.now)) result }
{
    match json {
        Json::Null => Err(shape(alloc)),
        Json::Bool(truth) => Ok(Value::Bool(*truth)),
        Json::Number(number) => read_int(alloc, number),
        Json::String(text) => read_text(alloc, text.as_str()),
        Json::Array(items) => match read_items(alloc, items) {
            Ok(values) => Ok(Value::List(values)),
            Err(error) => Err(error),
        },
        Json::Object(members) => match read_members(alloc, members) {
            Ok(fields) => Ok(Value::Dict(fields)),
            Err(error) => Err(error),
        },
    }
}

/// The elements of an array.
#[cycle(read)]
fn read_items(alloc: Global, items: &Vec<Json>) -> Result<Values, JsonError>
    ensures { Answers (read_items 0 [] (items_view items.now.items)) result }
{
    let mut values = Values::new(alloc);
    for (i, item) in items.iter().enumerate() {
        match read_any(alloc, item) {
            Ok(value) => values.push(value)?,
            Err(error) => {
                let step = format!(in alloc; "{i}")?;
                return Err(under(alloc, step.as_str(), error));
            }
        }
    }
    Ok(values)
}

/// The members of an object.
#[cycle(read)]
fn read_members(alloc: Global, members: &Map<String, Json>) -> Result<Fields, JsonError>
    ensures { Answers (read_members [] (members_view members.now.entries)) result }
{
    let mut fields = Fields::new(alloc);
    for (key, member) in members.iter() {
        match read_any(alloc, member) {
            Ok(value) => {
                let name = Text::of_str(alloc, key.as_str())?;
                fields.set(name, value)?;
            }
            Err(error) => return Err(under(alloc, key.as_str(), error)),
        }
    }
    Ok(fields)
}

/// The bytes of hexadecimal digits in lower case.
fn bytes_of_digits(alloc: Global, digits: &str) -> Result<Bytes, JsonError>
    ensures { Answers (or_shape (decode_of digits.now) digits.now) result }
{
    let decoded = match hex::decode(alloc, digits.as_bytes()) {
        Ok(decoded) => decoded,
        Err(FromHexError::OutOfMemory) => return Err(JsonError::OutOfMemory),
        Err(_) => return Err(shape(alloc)),
    };
    let again = hex::encode(alloc, decoded.as_slice())?;
    if again.as_str() != digits {
        return Err(shape(alloc));
    }
    let mut bytes = Bytes::new(alloc);
    bytes.extend(decoded.as_slice())?;
    Ok(bytes)
}

/// Hexadecimal digits in lower case, as bytes.
fn read_digits(alloc: Global, json: &Json) -> Result<Bytes, JsonError>
    ensures { Answers (read_digits (view json.now)) result }
{
    match json {
        Json::String(digits) => bytes_of_digits(alloc, digits.as_str()),
        Json::Number(number) => Err(not_a_number(alloc, number)),
        Json::Null | Json::Bool(_) | Json::Array(_) | Json::Object(_) => Err(shape(alloc)),
    }
}

/// The digits of an object whose one key is `hex`, if it is one.
fn digits_in(members: &Map<String, Json>) -> Option<&Json>
    ensures { option_map (λ d. view d.now) result ≡ digits_in (members_view members.now.entries) }
{
    if members.len() == 1 {
        members.get("hex")
    } else {
        None
    }
}

/// The bytes of an object whose one key is `hex`.
fn read_hex(alloc: Global, members: &Map<String, Json>) -> Result<Bytes, JsonError>
    ensures { Answers (read_hex (digits_in (members_view members.now.entries))) result }
{
    match digits_in(members) {
        Some(json) => match read_digits(alloc, json) {
            Ok(bytes) => Ok(bytes),
            Err(error) => Err(under(alloc, "hex", error)),
        },
        None => Err(shape(alloc)),
    }
}

/// The content of a file.
fn read_content(alloc: Global, json: &Json) -> Result<Bytes, JsonError>
    ensures { Answers (read_content (view json.now)) result }
{
    match json {
        Json::String(text) => {
            let mut bytes = Bytes::new(alloc);
            bytes.extend(text.as_bytes())?;
            Ok(bytes)
        }
        Json::Number(number) => Err(not_a_number(alloc, number)),
        Json::Object(members) => read_hex(alloc, members),
        Json::Null | Json::Bool(_) | Json::Array(_) => Err(shape(alloc)),
    }
}

/// The files of an object from names to contents.
pub(crate) fn read_files(alloc: Global, members: &Map<String, Json>) -> Result<Files, JsonError>
    ensures { Answers (read_files [] (members_view members.now.entries)) result }
{
    let mut files = Files::new(alloc);
    for (key, member) in members.iter() {
        match read_content(alloc, member) {
            Ok(content) => {
                let name = Text::of_str(alloc, key.as_str())?;
                files.set(name, content)?;
            }
            Err(error) => return Err(under(alloc, key.as_str(), error)),
        }
    }
    Ok(files)
}

/// An object as a dictionary or a folder.
fn read_object(alloc: Global, kind: Kind, members: &Map<String, Json>) -> Result<Value, JsonError>
    ensures { Answers (read_object kind (members_view members.now.entries)) result }
{
    match kind {
        Kind::Dict => match read_members(alloc, members) {
            Ok(fields) => Ok(Value::Dict(fields)),
            Err(error) => Err(error),
        },
        Kind::Folder => match read_files(alloc, members) {
            Ok(files) => Ok(Value::Folder(files)),
            Err(error) => Err(error),
        },
        Kind::Int | Kind::Bool | Kind::Text | Kind::List => Err(shape(alloc)),
    }
}

/// A number, where one is asked for.
fn read_number_as(alloc: Global, kind: Kind, number: &Number) -> Result<Value, JsonError>
    ensures { Answers (read_number_as kind (number_view number.now)) result }
{
    match read_number(alloc, number) {
        Ok(n) if kind == Kind::Int => Ok(Value::Int(n)),
        Ok(_) => Err(shape(alloc)),
        Err(error) => Err(error),
    }
}

/// A value of a kind. A number is read before its kind is looked at; a list or an object of another kind is refused
/// before what stands in it.
fn read_as(alloc: Global, kind: Kind, json: &Json) -> Result<Value, JsonError>
    ensures { Answers (read_as kind (view json.now)) result }
{
    match (kind, json) {
        (_, Json::Number(number)) => read_number_as(alloc, kind, number),
        (_, Json::Object(members)) => read_object(alloc, kind, members),
        (Kind::Bool, Json::Bool(truth)) => Ok(Value::Bool(*truth)),
        (Kind::Text, Json::String(text)) => read_text(alloc, text.as_str()),
        (Kind::List, Json::Array(_)) => read_any(alloc, json),
        _ => Err(shape(alloc)),
    }
}

/// Whether a value is within the limits.
pub(crate) fn fits(value: &Value) -> bool
    ensures { result ≡ fits value.now }
{
    is_within(value, MOST_BYTES, MOST_DEPTH)
}

/// A value, where it is within the limits.
fn within(alloc: Global, value: Value) -> Result<Value, JsonError>
    ensures { Answers (within value) result }
{
    if fits(&value) {
        Ok(value)
    } else {
        Err(shape(alloc))
    }
}

/// Whether the value of each entry is within the limits.
fn all_within(alloc: Global, fields: &Fields) -> Result<(), JsonError>
    ensures { Answers (all_within fields.now) result }
{
    for (name, value) in fields.as_slice() {
        if !fits(value) {
            return Err(under(alloc, name.as_str(), shape(alloc)));
        }
    }
    Ok(())
}

/// The value for a port of this kind, where there is one.
fn read_port(alloc: Global, kind: Option<&Kind>, json: &Json) -> Result<Value, JsonError>
    ensures { Answers (read_port (option_copied kind.entry) (view json.now)) result }
{
    match kind {
        Some(kind) => read_as(alloc, *kind, json),
        None => Err(shape(alloc)),
    }
}

/// The values by port of an object.
fn read_ports(
    alloc: Global,
    ports: &Ports,
    members: &Map<String, Json>,
) -> Result<Fields, JsonError>
    ensures { Answers (read_ports ports.now [] (members_view members.now.entries)) result }
{
    let mut fields = Fields::new(alloc);
    for (key, member) in members.iter() {
        let name = Text::of_str(alloc, key.as_str())?;
        match read_port(alloc, ports.find(name.bytes()), member) {
            Ok(value) => fields.set(name, value)?,
            Err(error) => return Err(under(alloc, key.as_str(), error)),
        }
    }
    Ok(fields)
}

/// The values by port of an inputs file.
fn read_inputs(alloc: Global, ports: &Ports, json: &Json) -> Result<Fields, JsonError>
    ensures { Answers (read_inputs ports.now (view json.now)) result }
{
    match json {
        Json::Object(members) => read_ports(alloc, ports, members),
        Json::Number(number) => Err(not_a_number(alloc, number)),
        Json::Null | Json::Bool(_) | Json::String(_) | Json::Array(_) => Err(shape(alloc)),
    }
}

/// The JSON that the bytes spell.
pub(crate) fn parse(alloc: Global, bytes: &[u8]) -> Result<Json, JsonError>
    ensures { Parses bytes.now result }
{
    match Json::from_slice(alloc, bytes) {
        Ok(json) => Ok(json),
        Err(error) => match error.classify() {
            Category::Memory => Err(JsonError::OutOfMemory),
            _ => Err(JsonError::NotJson),
        },
    }
}

/// A value of a kind, within the limits.
fn read_value(alloc: Global, kind: Kind, json: &Json) -> Result<Value, JsonError>
    ensures { Answers (read_value kind (view json.now)) result }
{
    match read_as(alloc, kind, json) {
        Ok(value) => within(alloc, value),
        Err(error) => Err(error),
    }
}

/// The values by port of an inputs file, each within the limits.
fn read_fields(alloc: Global, ports: &Ports, json: &Json) -> Result<Fields, JsonError>
    ensures { Answers (read_fields ports.now (view json.now)) result }
{
    match read_inputs(alloc, ports, json) {
        Ok(fields) => match all_within(alloc, &fields) {
            Ok(()) => Ok(fields),
            Err(error) => Err(error),
        },
        Err(error) => Err(error),
    }
}

/// The value of a kind that the bytes spell as JSON. A folder is an object from names to contents; elsewhere objects are
/// dictionaries. The first refusal in walking order is answered: keys ascending, elements in order, a container before
/// what stands in it, the limits last.
pub fn from_json(alloc: Global, bytes: &[u8], kind: Kind) -> Result<Value, JsonError>
    ensures { AnswersFor bytes.now (read_value kind) result }
{
    let json = parse(alloc, bytes)?;
    read_value(alloc, kind, &json)
}

/// The values by port that the bytes of an inputs file spell. A key that is no port is refused at its path.
pub fn fields_from_json(alloc: Global, bytes: &[u8], ports: &Ports) -> Result<Fields, JsonError>
    ensures { AnswersFor bytes.now (read_fields ports.now) result }
{
    let json = parse(alloc, bytes)?;
    read_fields(alloc, ports, &json)
}
