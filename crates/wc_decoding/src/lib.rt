//! Values read back from their canonical bytes, and the numbers, texts and values that stand at a place among others.
#![tactic(auto)]

mod decoding;

pub use decoding::{bytes_at, decode, i64_at, name_at, text_at, u32_at, value_at};
