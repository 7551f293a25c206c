//! Reading from canonical bytes, from left to right: the first place that can't be read is refused.

ghost use Rattle.std.specs.Prelude.{◌≡◌, ◌+◌, ◌≤◌, ◌<◌, length, true, IfOk};
ghost use Rattle.wc_value.specs.Ascending.{goes_last};
ghost use Rattle.wc_value.specs.Spelling.{depth};
ghost use Rattle.wc_value.specs.Spells.{Spells};
ghost use Rattle.wc_value.specs.Reading.{Answers, Gives, bytes_at as bytes_from, u32_at as u32_from, i64_at as i64_from, int_at as int_from, bool_at as bool_from, content_at as content_from, text_at as text_from, text_value_at as text_value_from, name_at as name_from, entry_at as entry_from, list_at as list_from, dict_at as dict_from, folder_at as folder_from, value_at as value_from, too_deep, behind, whole};

use std::alloc::Global;
use wc_value::{Bytes, Fields, Files, Keyed, Text, Value, ValueError, Values};

/// The value whose canonical bytes these are, where it is at most 32 deep. Any other bytes are refused at the first
/// place that reading from the left can't get past. No memory is taken for lengths and counts that the bytes don't
/// hold.
pub fn decode(alloc: Global, bytes: &[u8]) -> Result<Value, ValueError>
    // What is read is spelled so.
    ensures found { IfOk result (λ v. Spells v bytes.now × (depth v ≤ 32)) }
    // What is spelled so is read, unless memory runs out.
    ensures only { (v : Value) → Spells v bytes.now → depth v ≤ 32 → Answers result (Ok v) }
    // Which refusal it is.
    ensures exact { Answers result (whole bytes.now) }
{
    value_of_all(alloc, bytes)
}

/// The value that all of the bytes are read as.
fn value_of_all(alloc: Global, bytes: &[u8]) -> Result<Value, ValueError>
    ensures { Answers result (whole bytes.now) }
{
    let (value, next) = value_at(alloc, bytes, 0, 32)?;
    if next < bytes.len() {
        return Err(ValueError::Trailing(next));
    }
    Ok(value)
}

/// So many bytes from a place on, and the place behind them.
pub fn bytes_at(n: usize, bytes: &[u8], at: usize) -> Result<(&[u8], usize), ValueError>
    // The place lies within the bytes.
    requires { at ≤ length bytes.now }
    // What reading gives, or want of memory.
    ensures answer { Gives (λ x. (x.0.now, x.1)) result (bytes_from n bytes.now at) }
    // The place behind lies within the bytes.
    ensures within { IfOk result (λ x. x.1 ≤ length bytes.now) }
{
    if bytes.len() - at < n {
        return Err(ValueError::Truncated(bytes.len()));
    }
    Ok((&bytes[at..at + n], at + n))
}

/// The number of four bytes at a place, the highest byte first, and the place behind it.
pub fn u32_at(bytes: &[u8], at: usize) -> Result<(u32, usize), ValueError>
    // The place lies within the bytes.
    requires { at ≤ length bytes.now }
    // What reading gives, or want of memory.
    ensures answer { Answers result (u32_from bytes.now at) }
    // The place behind is four further, within the bytes.
    ensures within { IfOk result (λ x. (x.1 ≡ at + 4) × (x.1 ≤ length bytes.now)) }
{
    let (digits, next) = bytes_at(4, bytes, at)?;
    Ok((
        u32::from_be_bytes([digits[0], digits[1], digits[2], digits[3]]),
        next,
    ))
}

/// The signed number of eight bytes at a place, and the place behind it.
pub fn i64_at(bytes: &[u8], at: usize) -> Result<(i64, usize), ValueError>
    // The place lies within the bytes.
    requires { at ≤ length bytes.now }
    // What reading gives, or want of memory.
    ensures answer { Answers result (i64_from bytes.now at) }
    // The place behind lies within the bytes.
    ensures within { IfOk result (λ x. x.1 ≤ length bytes.now) }
{
    let (d, next) = bytes_at(8, bytes, at)?;
    Ok((
        i64::from_be_bytes([d[0], d[1], d[2], d[3], d[4], d[5], d[6], d[7]]),
        next,
    ))
}

fn int_at(bytes: &[u8], at: usize) -> Result<(Value, usize), ValueError>
    requires { at ≤ length bytes.now }
    ensures answer { Answers result (int_from bytes.now at) }
    ensures within { IfOk result (λ x. x.1 ≤ length bytes.now) }
{
    let (n, next) = i64_at(bytes, at)?;
    Ok((Value::Int(n), next))
}

fn bool_at(bytes: &[u8], at: usize) -> Result<(Value, usize), ValueError>
    requires { at ≤ length bytes.now }
    ensures answer { Answers result (bool_from bytes.now at) }
    ensures within { IfOk result (λ x. x.1 ≤ length bytes.now) }
{
    if at == bytes.len() {
        return Err(ValueError::Truncated(bytes.len()));
    }
    match bytes[at] {
        0 => Ok((Value::Bool(false), at + 1)),
        1 => Ok((Value::Bool(true), at + 1)),
        _ => Err(ValueError::BadTag(at)),
    }
}

/// The bytes behind their length, copied only once they are there.
fn content_at(alloc: Global, bytes: &[u8], at: usize) -> Result<(Bytes, usize), ValueError>
    requires { at ≤ length bytes.now }
    ensures answer { Answers result (content_from bytes.now at) }
    ensures within { IfOk result (λ x. x.1 ≤ length bytes.now) }
    ensures start { IfOk result (λ x. at + 4 ≤ length bytes.now) }
{
    let (count, start) = u32_at(bytes, at)?;
    let (content, next) = bytes_at(count as usize, bytes, start)?;
    let mut copied = Bytes::new(alloc);
    copied.extend(content)?;
    Ok((copied, next))
}

/// The text behind its length at a place, and the place behind it.
pub fn text_at(alloc: Global, bytes: &[u8], at: usize) -> Result<(Text, usize), ValueError>
    // The place lies within the bytes.
    requires { at ≤ length bytes.now }
    // What reading gives, or want of memory.
    ensures answer { Answers result (text_from bytes.now at) }
    // The place behind lies within the bytes.
    ensures within { IfOk result (λ x. x.1 ≤ length bytes.now) }
{
    let (content, next) = content_at(alloc, bytes, at)?;
    match Text::of(content) {
        Some(text) => Ok((text, next)),
        None => Err(ValueError::NotUtf8(at + 4)),
    }
}

fn text_value_at(alloc: Global, bytes: &[u8], at: usize) -> Result<(Value, usize), ValueError>
    requires { at ≤ length bytes.now }
    ensures answer { Answers result (text_value_from bytes.now at) }
    ensures within { IfOk result (λ x. x.1 ≤ length bytes.now) }
{
    let (text, next) = text_at(alloc, bytes, at)?;
    Ok((Value::Text(text), next))
}

/// Why there is no value at a place where no level is left.
fn too_deep(tag: u8, at: usize) -> ValueError
    ensures { Err result ≡ too_deep at tag }
{
    match tag {
        1..=6 => ValueError::TooDeep(at),
        _ => ValueError::BadTag(at),
    }
}

/// The value at a place, of at most so many levels, and the place behind it.
#[cycle(value)]
#[tactic(auto, using(crate::proofs::Readings::value_at_below))]
pub fn value_at(
    alloc: Global,
    bytes: &[u8],
    at: usize,
    levels: u32,
) -> Result<(Value, usize), ValueError>
    // The place lies within the bytes.
    requires { at ≤ length bytes.now }
    // What reading gives, or want of memory.
    ensures answer { Answers result (value_from levels bytes.now at) }
    // The place behind lies within the bytes.
    ensures within { IfOk result (λ x. x.1 ≤ length bytes.now) }
{
    if at == bytes.len() {
        return Err(ValueError::Truncated(bytes.len()));
    }
    if levels == 0 {
        return Err(too_deep(bytes[at], at));
    }
    behind(alloc, bytes, at, levels - 1, bytes[at])
}

/// What stands behind the tag at a place, with at most so many levels inside.
#[cycle(value)]
fn behind(
    alloc: Global,
    bytes: &[u8],
    at: usize,
    levels: u32,
    tag: u8,
) -> Result<(Value, usize), ValueError>
    requires { at < length bytes.now }
    ensures answer { Answers result (behind (value_from levels bytes.now) bytes.now at tag) }
    ensures within { IfOk result (λ x. x.1 ≤ length bytes.now) }
{
    match tag {
        1 => int_at(bytes, at + 1),
        2 => bool_at(bytes, at + 1),
        3 => text_value_at(alloc, bytes, at + 1),
        4 => list_at(alloc, bytes, at + 1, levels),
        5 => dict_at(alloc, bytes, at + 1, levels),
        6 => folder_at(alloc, bytes, at + 1),
        _ => Err(ValueError::BadTag(at)),
    }
}

/// The list behind its tag.
#[cycle(value)]
#[tactic(auto, using(crate::proofs::Readings::several_at))]
fn list_at(
    alloc: Global,
    bytes: &[u8],
    at: usize,
    levels: u32,
) -> Result<(Value, usize), ValueError>
    requires { at ≤ length bytes.now }
    ensures answer { Answers result (list_from (value_from levels bytes.now) bytes.now at) }
    ensures within { IfOk result (λ x. x.1 ≤ length bytes.now) }
{
    let (count, start) = u32_at(bytes, at)?;
    let mut values = Values::new(alloc);
    let mut place = start;
    for _item in 0..count {
        let (value, next) = value_at(alloc, bytes, place, levels)?;
        values.push(value)?;
        place = next;
    }
    Ok((Value::List(values), place))
}

/// A key that comes after those of the fields, and its value.
#[cycle(value)]
fn field_at(
    alloc: Global,
    fields: &Fields,
    bytes: &[u8],
    at: usize,
    levels: u32,
) -> Result<((Text, Value), usize), ValueError>
    requires { at ≤ length bytes.now }
    ensures answer { Answers result (entry_from (value_from levels bytes.now) bytes.now fields.now at) }
    ensures within { IfOk result (λ x. x.1 ≤ length bytes.now) }
    ensures last { IfOk result (λ x. goes_last x.0.0 fields.now ≡ true) }
{
    let (name, place) = name_at(alloc, fields, bytes, at)?;
    let (value, next) = value_at(alloc, bytes, place, levels)?;
    Ok(((name, value), next))
}

/// The dictionary behind its tag.
#[cycle(value)]
#[tactic(auto, using(crate::proofs::Readings::several_at))]
fn dict_at(
    alloc: Global,
    bytes: &[u8],
    at: usize,
    levels: u32,
) -> Result<(Value, usize), ValueError>
    requires { at ≤ length bytes.now }
    ensures answer { Answers result (dict_from (value_from levels bytes.now) bytes.now at) }
    ensures within { IfOk result (λ x. x.1 ≤ length bytes.now) }
{
    let (count, start) = u32_at(bytes, at)?;
    let mut fields = Fields::new(alloc);
    let mut place = start;
    for _item in 0..count {
        let (field, next) = field_at(alloc, &fields, bytes, place, levels)?;
        fields.push(field)?;
        place = next;
    }
    Ok((Value::Dict(fields), place))
}

/// A name that comes after those in front, at a place, and the place behind it.
pub fn name_at<T>(
    alloc: Global,
    front: &Keyed<T>,
    bytes: &[u8],
    at: usize,
) -> Result<(Text, usize), ValueError>
    // The place lies within the bytes.
    requires { at ≤ length bytes.now }
    // What reading gives, or want of memory.
    ensures answer { Answers result (name_from front.now bytes.now at) }
    // The place behind lies within the bytes.
    ensures within { IfOk result (λ x. x.1 ≤ length bytes.now) }
    // The name comes after those in front.
    ensures last { IfOk result (λ x. goes_last x.0 front.now ≡ true) }
{
    let (name, next) = text_at(alloc, bytes, at)?;
    if front.goes_last(name.bytes()) {
        Ok((name, next))
    } else {
        Err(ValueError::Unsorted(at))
    }
}

/// A name that comes after those of the files, and its content.
fn file_at(
    alloc: Global,
    files: &Files,
    bytes: &[u8],
    at: usize,
) -> Result<((Text, Bytes), usize), ValueError>
    requires { at ≤ length bytes.now }
    ensures answer { Answers result (entry_from (content_from bytes.now) bytes.now files.now at) }
    ensures within { IfOk result (λ x. x.1 ≤ length bytes.now) }
    ensures last { IfOk result (λ x. goes_last x.0.0 files.now ≡ true) }
{
    let (name, place) = name_at(alloc, files, bytes, at)?;
    let (content, next) = content_at(alloc, bytes, place)?;
    Ok(((name, content), next))
}

/// The folder behind its tag.
#[tactic(auto, using(crate::proofs::Readings::several_at))]
fn folder_at(alloc: Global, bytes: &[u8], at: usize) -> Result<(Value, usize), ValueError>
    requires { at ≤ length bytes.now }
    ensures answer { Answers result (folder_from bytes.now at) }
    ensures within { IfOk result (λ x. x.1 ≤ length bytes.now) }
{
    let (count, start) = u32_at(bytes, at)?;
    let mut files = Files::new(alloc);
    let mut place = start;
    for _item in 0..count {
        let (file, next) = file_at(alloc, &files, bytes, place)?;
        files.push(file)?;
        place = next;
    }
    Ok((Value::Folder(files), place))
}
