//! Whether a value is within bounds on its canonical bytes and its depth.

ghost use Rattle.std.specs.Prelude.{◌≡◌, ◌+◌, ◌≤◌, ◌-◌, ◌↔◌, ◌<◌, length, IsTrue, SomeIff};
ghost use Rattle.wc_value.specs.Spelling.{spelling, depth, text, file, pair_of};

use crate::list::Bytes;
use crate::text::Text;
use crate::value::{Fields, Files, Value, Values};

/// Whether a value has at most so many canonical bytes and is at most so deep. A value inside no list or
/// dictionary has depth 1, and each list or dictionary around it adds 1.
pub fn is_within(value: &Value, most_bytes: usize, most_depth: u32) -> bool
    ensures { IsTrue result ↔ ((length (spelling value.now) ≤ most_bytes) × (depth value.now ≤ most_depth)) }
{
    is_within_depth(value, most_depth) && room_after(value, most_bytes).is_some()
}

/// Whether a value is at most so deep.
#[cycle(depth)]
#[tactic(auto, using(crate::proofs::Depths::depth_at_least))]
pub fn is_within_depth(value: &Value, most_depth: u32) -> bool
    ensures { IsTrue result ↔ (depth value.now ≤ most_depth) }
{
    if most_depth == 0 {
        return false;
    }
    match value {
        Value::Int(_) => true,
        Value::Bool(_) => true,
        Value::Text(_) => true,
        Value::List(items) => are_within_depth(items, most_depth),
        Value::Dict(fields) => fields_are_within_depth(fields, most_depth),
        Value::Folder(_) => true,
    }
}

#[cycle(depth)]
fn are_within_depth(items: &Values, most_depth: u32) -> bool
    requires { 0 < most_depth }
    ensures { IsTrue result ↔ (depth (Value.List items.now) ≤ most_depth) }
{
    for item in items.as_slice() {
        if !is_within_depth(item, most_depth - 1) {
            return false;
        }
    }
    true
}

#[cycle(depth)]
fn fields_are_within_depth(fields: &Fields, most_depth: u32) -> bool
    requires { 0 < most_depth }
    ensures { IsTrue result ↔ (depth (Value.Dict fields.now) ≤ most_depth) }
{
    for (_name, value) in fields.as_slice() {
        if !is_within_depth(value, most_depth - 1) {
            return false;
        }
    }
    true
}

/// What is left of some room behind a text with its length, or none exactly where it doesn't fit.
fn room_after_text(bytes: &[u8], room: usize) -> Option<usize>
    ensures { SomeIff result (length (text bytes.now) ≤ room) (room - length (text bytes.now)) }
{
    room.checked_sub(4)?.checked_sub(bytes.len())
}

/// What is left of some room behind the canonical bytes of a value, or none exactly where they don't fit.
#[cycle(room)]
fn room_after(value: &Value, room: usize) -> Option<usize>
    ensures { SomeIff result (length (spelling value.now) ≤ room) (room - length (spelling value.now)) }
{
    match value {
        Value::Int(_) => room.checked_sub(9),
        Value::Bool(_) => room.checked_sub(2),
        Value::Text(text) => room_after_text(text.bytes(), room.checked_sub(1)?),
        Value::List(items) => room_after_values(items, room),
        Value::Dict(fields) => room_after_fields(fields, room),
        Value::Folder(files) => room_after_files(files, room),
    }
}

#[cycle(room)]
fn room_after_values(items: &Values, room: usize) -> Option<usize>
    ensures { SomeIff result (length (spelling (Value.List items.now)) ≤ room) (room - length (spelling (Value.List items.now))) }
{
    let mut left = room.checked_sub(5)?;
    for item in items.as_slice() {
        left = room_after(item, left)?;
    }
    Some(left)
}

/// The same for the text of a name, and the value behind it.
#[cycle(room)]
fn room_after_pair(name: &Text, value: &Value, room: usize) -> Option<usize>
    ensures { SomeIff result (length (pair_of (name.now, value.now)) ≤ room) (room - length (pair_of (name.now, value.now))) }
{
    room_after(value, room_after_text(name.bytes(), room)?)
}

#[cycle(room)]
fn room_after_fields(fields: &Fields, room: usize) -> Option<usize>
    ensures { SomeIff result (length (spelling (Value.Dict fields.now)) ≤ room) (room - length (spelling (Value.Dict fields.now))) }
{
    let mut left = room.checked_sub(5)?;
    for (name, value) in fields.as_slice() {
        left = room_after_pair(name, value, left)?;
    }
    Some(left)
}

/// The same for the text of a name, and the content behind it.
fn room_after_file(name: &Text, content: &Bytes, room: usize) -> Option<usize>
    ensures { SomeIff result (length (file (name.now, content.now)) ≤ room) (room - length (file (name.now, content.now))) }
{
    room_after_text(content.bytes(), room_after_text(name.bytes(), room)?)
}

fn room_after_files(files: &Files, room: usize) -> Option<usize>
    ensures { SomeIff result (length (spelling (Value.Folder files.now)) ≤ room) (room - length (spelling (Value.Folder files.now))) }
{
    let mut left = room.checked_sub(5)?;
    for (name, content) in files.as_slice() {
        left = room_after_file(name, content, left)?;
    }
    Some(left)
}
