//! Numbers, texts and values in the bytes of changes.

ghost use Rattle.std.specs.Prelude.{◌≡◌, ◌≤◌, length, true, IfOk};
ghost use Rattle.wc_value.specs.Ascending.{goes_last};
ghost use Rattle.wc_record.specs.Readers.{Answers, byte, byte_below, u32, u64, i64, text, value, label};
ghost use Rattle.wc_record.specs.Fields.{truth};

use crate::error::RecordError;
use std::alloc::Global;
use wc_value::{Keyed, Text, Value};

/// The byte at a place, and the place behind it.
pub fn byte_at(bytes: &[u8], at: usize) -> Result<(u8, usize), RecordError>
    requires { at ≤ length bytes.now }
    ensures answer { Answers result (byte bytes.now at) }
    ensures within { IfOk result (λ x. x.1 ≤ length bytes.now) }
{
    if at == bytes.len() {
        return Err(RecordError::Truncated(bytes.len()));
    }
    Ok((bytes[at], at + 1))
}

/// The byte at a place, which is below a bound, and the place behind it.
pub fn byte_below(bound: u8, bytes: &[u8], at: usize) -> Result<(u8, usize), RecordError>
    requires { at ≤ length bytes.now }
    ensures answer { Answers result (byte_below bound bytes.now at) }
    ensures within { IfOk result (λ x. x.1 ≤ length bytes.now) }
{
    let (number, next) = byte_at(bytes, at)?;
    if number < bound {
        Ok((number, next))
    } else {
        Err(RecordError::BadTag(at))
    }
}

/// The truth value of a byte at a place, and the place behind it.
pub fn bool_at(bytes: &[u8], at: usize) -> Result<(bool, usize), RecordError>
    requires { at ≤ length bytes.now }
    ensures answer { Answers result (truth bytes.now at) }
    ensures within { IfOk result (λ x. x.1 ≤ length bytes.now) }
{
    let (number, next) = byte_at(bytes, at)?;
    match number {
        0 => Ok((false, next)),
        1 => Ok((true, next)),
        _ => Err(RecordError::BadTag(at)),
    }
}

/// The number of four bytes at a place, and the place behind it.
pub fn u32_at(bytes: &[u8], at: usize) -> Result<(u32, usize), RecordError>
    requires { at ≤ length bytes.now }
    ensures answer { Answers result (u32 bytes.now at) }
    ensures within { IfOk result (λ x. x.1 ≤ length bytes.now) }
{
    match wc_decoding::u32_at(bytes, at) {
        Ok(found) => Ok(found),
        Err(error) => Err(RecordError::from(error)),
    }
}

/// The number of eight bytes at a place, and the place behind it.
pub fn u64_at(bytes: &[u8], at: usize) -> Result<(u64, usize), RecordError>
    requires { at ≤ length bytes.now }
    ensures answer { Answers result (u64 bytes.now at) }
    ensures within { IfOk result (λ x. x.1 ≤ length bytes.now) }
{
    let (d, next) = wc_decoding::bytes_at(8, bytes, at)?;
    Ok((
        u64::from_be_bytes([d[0], d[1], d[2], d[3], d[4], d[5], d[6], d[7]]),
        next,
    ))
}

/// The signed number of eight bytes at a place, and the place behind it.
pub fn i64_at(bytes: &[u8], at: usize) -> Result<(i64, usize), RecordError>
    requires { at ≤ length bytes.now }
    ensures answer { Answers result (i64 bytes.now at) }
    ensures within { IfOk result (λ x. x.1 ≤ length bytes.now) }
{
    match wc_decoding::i64_at(bytes, at) {
        Ok(found) => Ok(found),
        Err(error) => Err(RecordError::from(error)),
    }
}

/// The text behind its length at a place, and the place behind it.
pub fn text_at(alloc: Global, bytes: &[u8], at: usize) -> Result<(Text, usize), RecordError>
    requires { at ≤ length bytes.now }
    ensures answer { Answers result (text bytes.now at) }
    ensures within { IfOk result (λ x. x.1 ≤ length bytes.now) }
{
    match wc_decoding::text_at(alloc, bytes, at) {
        Ok(found) => Ok(found),
        Err(error) => Err(RecordError::from(error)),
    }
}

/// The value at a place, and the place behind it.
pub fn value_at(alloc: Global, bytes: &[u8], at: usize) -> Result<(Value, usize), RecordError>
    requires { at ≤ length bytes.now }
    ensures answer { Answers result (value bytes.now at) }
    ensures within { IfOk result (λ x. x.1 ≤ length bytes.now) }
{
    match wc_decoding::value_at(alloc, bytes, at, 32) {
        Ok(found) => Ok(found),
        Err(error) => Err(RecordError::from(error)),
    }
}

/// A label that comes after those in front, at a place, and the place behind it.
pub fn label_at<T>(
    alloc: Global,
    front: &Keyed<T>,
    bytes: &[u8],
    at: usize,
) -> Result<(Text, usize), RecordError>
    requires { at ≤ length bytes.now }
    ensures answer { Answers result (label front.now bytes.now at) }
    ensures within { IfOk result (λ x. x.1 ≤ length bytes.now) }
    ensures last { IfOk result (λ x. goes_last x.0 front.now ≡ true) }
{
    match wc_decoding::name_at(alloc, front, bytes, at) {
        Ok(found) => Ok(found),
        Err(error) => Err(RecordError::from(error)),
    }
}
