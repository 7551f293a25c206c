//! Words that the system draws.

use crate::fault::{Fault, called};
use std::alloc::Global;
use std::fs;
use std::io::Read;
use std::rt::Files;
use std::string::String;

/// A number of six bytes that the system draws.
fn random_number<R: Files>(rt: &R) -> Result<u64, Fault> {
    let mut source = called("opening /dev/urandom", fs::open(rt, "/dev/urandom"))?;
    let mut bytes = [0u8; 8];
    called("reading /dev/urandom", source.read_exact(&mut bytes))?;
    Ok(u64::from_be_bytes(bytes) >> 16)
}

/// Twelve random hexadecimal digits.
pub fn random_word<R: Files>(rt: &R, alloc: Global) -> Result<String, Fault> {
    let number = random_number(rt)?;
    Ok(format!(in alloc; "{number:012x}")?)
}
