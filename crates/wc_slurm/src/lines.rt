//! Texts by their lines, and lines by their fields.
ghost use Rattle.std.specs.Prelude.{◌≡◌, IfOk, OnOk};
ghost use Rattle.wc_slurm.specs.Lines.{is_feed, is_blank as is_blank_byte, lines_of as lines_in, part_in, rest_in, word_in, behind_word, field_in, ReadsByte};

use std::alloc::{AllocError, Global};
use std::mem;
use wc_value::{Bytes, List};

/// A copy of bytes.
pub fn copied(alloc: Global, bytes: &[u8]) -> Result<Bytes, AllocError>
    ensures { IfOk result (λ copied. copied ≡ bytes.now) }
{
    let mut copied = Bytes::new(alloc);
    copied.extend(bytes)?;
    Ok(copied)
}

/// Whether a byte stands between two words.
fn is_blank(byte: u8) -> bool
    ensures { result ≡ is_blank_byte byte }
{
    byte == b' ' || byte == b'\t' || byte == b'\n' || byte == b'\r'
}

/// Reads one byte behind whole parts and a part that was begun, which it may end.
fn read_byte(
    alloc: Global,
    parts: &mut List<Bytes>,
    part: &mut Bytes,
    byte: u8,
    is_end: bool,
) -> Result<(), AllocError>
    ensures { OnOk result (ReadsByte is_end byte parts.old part.old parts.new part.new) }
{
    if is_end {
        let whole = mem::replace(part, Bytes::new(alloc));
        parts.push(whole)
    } else {
        part.push(byte)
    }
}

/// The lines of a text.
#[tactic(auto, using(crate::proofs::Parts::no_parts, crate::proofs::Parts::next_of_line, crate::proofs::Parts::last_of_lines))]
pub fn lines_of(alloc: Global, text: &[u8]) -> Result<List<Bytes>, AllocError>
    ensures { IfOk result (λ lines. lines ≡ lines_in text.now) }
{
    let mut lines = List::new(alloc);
    let mut line = Bytes::new(alloc);
    for byte in text {
        read_byte(alloc, &mut lines, &mut line, *byte, *byte == b'\n')?;
    }
    lines.push(line)?;
    Ok(lines)
}

/// What stands before the first bar, and what behind it.
fn parted(line: &[u8]) -> (&[u8], &[u8])
    ensures part { result.0.now ≡ part_in line.now }
    ensures rest { result.1.now ≡ rest_in line.now }
{
    match line.iter().position(|&b| b == b'|') {
        Some(i) => (&line[..i], &line[i + 1..]),
        None => (line, &[]),
    }
}

/// What stands before the first blank, and what behind it.
pub fn worded(line: &[u8]) -> (&[u8], &[u8])
    ensures word { result.0.now ≡ word_in line.now }
    ensures rest { result.1.now ≡ behind_word line.now }
{
    match line.iter().position(|&b| is_blank(b)) {
        Some(i) => (&line[..i], &line[i + 1..]),
        None => (line, &[]),
    }
}

/// The first field of a line, up to a blank in it, and what stands behind its bar.
pub fn field(line: &[u8]) -> (&[u8], &[u8])
    // The first field of the line.
    ensures word { result.0.now ≡ field_in line.now }
    // What stands behind it.
    ensures rest { result.1.now ≡ rest_in line.now }
{
    let (part, rest) = parted(line);
    let (word, _) = worded(part);
    (word, rest)
}
