//! The texts, names and values of an archive.

ghost use Rattle.serde_json.specs.Data.{string};
ghost use Rattle.serde_json.specs.View.{view};
ghost use Rattle.wc_report.specs.Lists.{process_kind_text};
ghost use Rattle.wc_report.specs.Names.{state_text};
ghost use Rattle.wc_report.specs.Shows.{link_type_text};
ghost use Rattle.wc_value.specs.Spelling.{spelling};
ghost use Rattle.wc_archive_file.specs.Archives.{kind_data, link_type_data, state_data, value_data, IsState, IsValue};
ghost use Rattle.wc_archive_file.specs.Reads.{Decodes, IsAny, IsShallow, Reads, ReadsDigits, Refuses, value_digits};
ghost use Rattle.hex.specs.declared.error.FromHexError.TheVariants.{OutOfMemory};
ghost use Rattle.std.specs.Prelude.{◌≢◌};

use crate::misread::Misread;
use crate::names::{is_same, link_type_named, process_kind_named, state_named};
use hex::FromHexError;
use serde_json::Value as Json;
use std::alloc::Global;
use wc_decoding::decode;
use wc_graph::LinkType;
use wc_state::ProcessKind;
use wc_value::{ProcessState, Text, Value, ValueError};

// ---- of texts

/// A text as it stands.
fn text_in(alloc: Global, text: &str) -> Result<Text, Misread>
    ensures { Reads (λ t. t) IsAny text.now result }
{
    match Text::of_str(alloc, text) {
        Ok(text) => Ok(text),
        Err(_) => Err(Misread::OutOfMemory),
    }
}

/// Whether a text is this word.
fn word_in(text: &str, word: &str) -> Result<(), Misread>
    ensures { Reads (λ u. word.now) IsAny text.now result }
{
    if text == word {
        Ok(())
    } else {
        Err(Misread::Shape)
    }
}

/// The kind of process with this name.
fn process_kind_in(name: &str) -> Result<ProcessKind, Misread>
    ensures { Reads process_kind_text IsAny name.now result }
{
    match process_kind_named(name) {
        Some(kind) => Ok(kind),
        None => Err(Misread::Shape),
    }
}

/// The type of link with this name.
fn link_type_in(name: &str) -> Result<LinkType, Misread>
    ensures { Reads link_type_text IsAny name.now result }
{
    match link_type_named(name) {
        Some(link) => Ok(link),
        None => Err(Misread::Shape),
    }
}

/// The state with this name.
fn state_in(alloc: Global, name: &str) -> Result<ProcessState, Misread>
    ensures { Reads state_text IsState name.now result }
{
    match state_named(alloc, name) {
        Ok(Some(state)) => Ok(state),
        Ok(None) => Err(Misread::Shape),
        Err(_) => Err(Misread::OutOfMemory),
    }
}

/// Why digits aren't read.
fn misread_by(error: FromHexError) -> Misread
    ensures { Refuses (error ≢ OutOfMemory) result }
{
    match error {
        FromHexError::OutOfMemory => Misread::OutOfMemory,
        _ => Misread::Shape,
    }
}

/// The bytes of hexadecimal digits.
fn decoded(alloc: Global, digits: &str) -> Result<Vec<u8>, Misread>
    ensures { Decodes digits.now result }
{
    match hex::decode(alloc, digits.as_bytes()) {
        Ok(bytes) => Ok(bytes),
        Err(error) => Err(misread_by(error)),
    }
}

/// The bytes of hexadecimal digits in lower case.
fn bytes_in(alloc: Global, digits: &str) -> Result<Vec<u8>, Misread>
    ensures { ReadsDigits digits.now result }
{
    let bytes = decoded(alloc, digits)?;
    let again = hex::encode(alloc, bytes.as_slice())?;
    if is_same(again.as_str(), digits) {
        Ok(bytes)
    } else {
        Err(Misread::Shape)
    }
}

/// The value whose canonical bytes these are.
fn value_in(alloc: Global, bytes: &[u8]) -> Result<Value, Misread>
    ensures { Reads spelling IsShallow bytes.now result }
{
    match decode(alloc, bytes) {
        Ok(value) => Ok(value),
        Err(ValueError::OutOfMemory) => Err(Misread::OutOfMemory),
        Err(_) => Err(Misread::Shape),
    }
}

/// The value whose canonical bytes have these digits.
fn value_in_digits(alloc: Global, digits: &str) -> Result<Value, Misread>
    ensures { Reads value_digits IsValue digits.now result }
{
    let bytes = bytes_in(alloc, digits)?;
    value_in(alloc, bytes.as_slice())
}

// ---- of JSON

/// Whether a string is this word.
pub(crate) fn word_of(json: &Json, word: &str) -> Result<(), Misread>
    ensures { Reads (λ u. string word.now) IsAny (view json.now) result }
{
    match json.as_str() {
        Some(text) => word_in(text, word),
        None => Err(Misread::Shape),
    }
}

/// A string.
pub(crate) fn text_of(alloc: Global, json: &Json) -> Result<Text, Misread>
    ensures { Reads string IsAny (view json.now) result }
{
    match json.as_str() {
        Some(text) => text_in(alloc, text),
        None => Err(Misread::Shape),
    }
}

/// The name of a kind of process.
pub(crate) fn process_kind_of(json: &Json) -> Result<ProcessKind, Misread>
    ensures { Reads kind_data IsAny (view json.now) result }
{
    match json.as_str() {
        Some(name) => process_kind_in(name),
        None => Err(Misread::Shape),
    }
}

/// The name of a type of link.
pub(crate) fn link_type_of(json: &Json) -> Result<LinkType, Misread>
    ensures { Reads link_type_data IsAny (view json.now) result }
{
    match json.as_str() {
        Some(name) => link_type_in(name),
        None => Err(Misread::Shape),
    }
}

/// The text of a state.
pub(crate) fn state_of(alloc: Global, json: &Json) -> Result<ProcessState, Misread>
    ensures { Reads state_data IsState (view json.now) result }
{
    match json.as_str() {
        Some(name) => state_in(alloc, name),
        None => Err(Misread::Shape),
    }
}

/// The hexadecimal digits of the canonical bytes of a value.
pub(crate) fn value_of(alloc: Global, json: &Json) -> Result<Value, Misread>
    ensures { Reads value_data IsValue (view json.now) result }
{
    match json.as_str() {
        Some(digits) => value_in_digits(alloc, digits),
        None => Err(Misread::Shape),
    }
}
