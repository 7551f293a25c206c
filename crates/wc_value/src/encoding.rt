//! Canonical bytes, put at the end of bytes.

ghost use Rattle.std.specs.Prelude.{◌≡◌, ◌++◌, ◌<◌, ◌^◌, length, IfOk, OnOk};
ghost use Rattle.std.specs.Int.{w32, to_be_bytes};
ghost use Rattle.wc_value.specs.Spelling.{spelling, text};
ghost use Rattle.wc_value.specs.Spells.{Spells};
ghost use Rattle.wc_value.specs.Requests.{dictionary_of, list_of_texts};

use crate::list::Bytes;
use crate::process::Request;
use crate::text::Text;
use crate::value::{Fields, Files, Value, Values, Words};
use std::alloc::{AllocError, Global};

/// The canonical bytes of a value.
pub fn encode(alloc: Global, value: &Value) -> Result<Bytes, AllocError>
    ensures spelling { IfOk result (λ bytes. bytes ≡ spelling value.now) }
    ensures spells { IfOk result (λ bytes. Spells value.now bytes) }
{
    let mut out = Bytes::new(alloc);
    put_value(&mut out, value)?;
    Ok(out)
}

/// The canonical bytes of a request, which are those of the dictionary with its `args` (a list of texts), `fetch`
/// (a list of texts), `files` (a folder) and `program` (a text).
pub fn encode_request(alloc: Global, request: &Request) -> Result<Bytes, AllocError>
    // The bytes are the spelling of the request's dictionary.
    ensures spelling { IfOk result (λ bytes. bytes ≡ spelling (dictionary_of request.now)) }
    // The bytes spell the request's dictionary.
    ensures spells { IfOk result (λ bytes. Spells (dictionary_of request.now) bytes) }
{
    let mut out = Bytes::new(alloc);
    out.push(5)?;
    put_count(&mut out, 4)?;
    put_text(&mut out, b"args")?;
    put_texts(&mut out, &request.args)?;
    put_text(&mut out, b"fetch")?;
    put_texts(&mut out, &request.fetch)?;
    put_text(&mut out, b"files")?;
    put_files(&mut out, &request.files)?;
    put_text(&mut out, b"program")?;
    put_text_value(&mut out, &request.program)?;
    Ok(out)
}

/// Puts a count or length of four bytes at the end.
pub fn put_count(out: &mut Bytes, count: usize) -> Result<(), AllocError>
    // The count is below 2^32.
    requires { count < 2 ^ 32 }
    ensures { OnOk result (out.new ≡ out.old ++ to_be_bytes w32 count) }
{
    out.extend(&(count as u32).to_be_bytes())
}

/// Puts a text behind its length at the end.
pub fn put_text(out: &mut Bytes, bytes: &[u8]) -> Result<(), AllocError>
    // The bytes are fewer than 2^32.
    requires { length bytes.now < 2 ^ 32 }
    ensures { OnOk result (out.new ≡ out.old ++ text bytes.now) }
{
    put_count(out, bytes.len())?;
    out.extend(bytes)
}

#[tactic(auto, using(crate::proofs::Spelled::spelled_text, crate::proofs::Respelled::text_spelled))]
fn put_text_value(out: &mut Bytes, text: &Text) -> Result<(), AllocError>
    ensures written { OnOk result (out.new ≡ out.old ++ spelling (Value.Text text.now)) }
    ensures spells { OnOk result (Spells (Value.Text text.now) (spelling (Value.Text text.now))) }
{
    out.push(3)?;
    put_text(out, text.bytes())
}

fn put_texts(out: &mut Bytes, texts: &Words) -> Result<(), AllocError>
    ensures written { OnOk result (out.new ≡ out.old ++ spelling (list_of_texts texts.now)) }
    ensures spells { OnOk result (Spells (list_of_texts texts.now) (spelling (list_of_texts texts.now))) }
{
    out.push(4)?;
    put_count(out, texts.len())?;
    for text in texts.as_slice() {
        put_text_value(out, text)?;
    }
    Ok(())
}

/// Puts the canonical bytes of a value at the end.
#[cycle(encode)]
#[tactic(auto, using(crate::proofs::Respelled::int_spelled, crate::proofs::Respelled::bool_spelled))]
pub fn put_value(out: &mut Bytes, value: &Value) -> Result<(), AllocError>
    // Where it is Ok, the value's canonical bytes stand behind what was there.
    ensures written { OnOk result (out.new ≡ out.old ++ spelling value.now) }
    // Where it is Ok, these bytes spell the value.
    ensures spells { OnOk result (Spells value.now (spelling value.now)) }
{
    match value {
        Value::Int(n) => {
            out.push(1)?;
            out.extend(&n.to_be_bytes())
        }
        Value::Bool(b) => {
            out.push(2)?;
            out.push(if *b { 1 } else { 0 })
        }
        Value::Text(text) => put_text_value(out, text),
        Value::List(items) => put_values(out, items),
        Value::Dict(fields) => put_fields(out, fields),
        Value::Folder(files) => put_files(out, files),
    }
}

#[cycle(encode)]
#[tactic(auto, using(crate::proofs::Spelled::spelled_list))]
fn put_values(out: &mut Bytes, items: &Values) -> Result<(), AllocError>
    ensures written { OnOk result (out.new ≡ out.old ++ spelling (Value.List items.now)) }
    ensures spells { OnOk result (Spells (Value.List items.now) (spelling (Value.List items.now))) }
{
    out.push(4)?;
    put_count(out, items.len())?;
    for item in items.as_slice() {
        put_value(out, item)?;
    }
    Ok(())
}

#[cycle(encode)]
#[tactic(auto, using(crate::proofs::Spelled::spelled_dict))]
fn put_fields(out: &mut Bytes, fields: &Fields) -> Result<(), AllocError>
    ensures written { OnOk result (out.new ≡ out.old ++ spelling (Value.Dict fields.now)) }
    ensures spells { OnOk result (Spells (Value.Dict fields.now) (spelling (Value.Dict fields.now))) }
{
    out.push(5)?;
    put_count(out, fields.len())?;
    for (name, value) in fields.as_slice() {
        put_text(out, name.bytes())?;
        put_value(out, value)?;
    }
    Ok(())
}

#[tactic(auto, using(crate::proofs::Spelled::spelled_folder))]
fn put_files(out: &mut Bytes, folder: &Files) -> Result<(), AllocError>
    ensures written { OnOk result (out.new ≡ out.old ++ spelling (Value.Folder folder.now)) }
    ensures spells { OnOk result (Spells (Value.Folder folder.now) (spelling (Value.Folder folder.now))) }
{
    out.push(6)?;
    put_count(out, folder.len())?;
    for (name, content) in folder.as_slice() {
        put_text(out, name.bytes())?;
        put_text(out, content.bytes())?;
    }
    Ok(())
}
