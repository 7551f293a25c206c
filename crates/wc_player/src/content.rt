//! Bytes in which the number of a repetition may stand.

use std::alloc::{AllocError, Global};
use wc_value::{Bytes, List};

/// Bytes, and the places in them where the number of a repetition stands.
#[derive(Drop)]
pub struct Content {
    bytes: Bytes,
    marks: List<usize>,
}

impl Content {
    /// No bytes.
    pub fn new(alloc: Global) -> Content {
        Content {
            bytes: List::new(alloc),
            marks: List::new(alloc),
        }
    }

    /// Puts bytes at the end.
    pub fn push(&mut self, bytes: &[u8]) -> Result<(), AllocError> {
        self.bytes.extend(bytes)
    }

    /// Puts the number of the repetition at the end.
    pub fn push_number(&mut self) -> Result<(), AllocError> {
        self.marks.push(self.bytes.len())
    }

    /// Puts other content at the end.
    pub fn append(&mut self, other: &Content) -> Result<(), AllocError> {
        let before = self.bytes.len();
        for mark in other.marks.as_slice() {
            self.marks.push(mark.saturating_add(before))?;
        }
        self.bytes.extend(other.bytes.as_slice())
    }

    /// Puts other content at the end so often, each time with the number of it, from 0 on.
    pub fn append_times(
        &mut self,
        alloc: Global,
        other: &Content,
        times: u64,
    ) -> Result<(), AllocError> {
        for number in 0..times {
            other.put(alloc, &mut self.bytes, number)?;
        }
        Ok(())
    }

    /// The bytes in the repetition of this number.
    pub fn written(&self, alloc: Global, number: u64) -> Result<Bytes, AllocError> {
        let mut out = List::new(alloc);
        self.put(alloc, &mut out, number)?;
        Ok(out)
    }

    /// Puts the bytes in the repetition of this number behind others.
    fn put(&self, alloc: Global, out: &mut Bytes, number: u64) -> Result<(), AllocError> {
        let digits = format!(in alloc; "{number}")?;
        put_written(out, self, digits.as_bytes())
    }
}

/// Puts the bytes of content, with the digits of a number, behind others.
fn put_written(out: &mut Bytes, content: &Content, digits: &[u8]) -> Result<(), AllocError> {
    let bytes = content.bytes.as_slice();
    let mut from = 0;
    for mark in content.marks.as_slice() {
        out.extend(bytes.get(from..*mark).unwrap_or(&[]))?;
        out.extend(digits)?;
        from = *mark;
    }
    out.extend(bytes.get(from..).unwrap_or(&[]))
}
