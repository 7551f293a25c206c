//! What an image holds.
ghost use Rattle.std.specs.Prelude.{◌≡◌, ◌⊎◌, ◌+◌, ◌-◌, ◌<◌, ◌≤◌, ◌==◌, Bool, true, List, ℕ, length, take, drop, slice_index, IfOk, IfErr};
ghost use Rattle.wc_journal.specs.Reading.{fits_header, header_misfit, generation_in, stands_for_none, kind_of, is_snapshot_place, size_of, stated, wrong_kind, batches_from, and_then_batch, end_of, journal_of};
ghost use Rattle.wc_journal.specs.Refusals.{RefusesBatches, RefusesImage};
ghost use Rattle.wc_journal.specs.Framing.{HasFrame, HasFrames, HasBatches};

use crate::batches::{Batches, Frames};
use crate::error::{Found, JournalError};
use std::alloc::Global;
use wc_value::List;

/// How many bytes a header has.
pub const HEADER: usize = 16;

/// The first bytes of each header.
const MAGIC: [u8; 7] = [0x57, 0x43, 0x4A, 0x4E, 0x4C, 0, 0];

/// The byte of a gate that is open.
const OPEN: u8 = 1;

/// Whether a header may have this byte at this place.
fn fits(place: usize, byte: u8) -> bool
    requires { place < 16 }
    ensures { result ≡ fits_header place byte }
{
    if place < 7 {
        return byte == MAGIC[place];
    }
    if place == 7 {
        return byte == 1 || byte == 2;
    }
    true
}

/// The first place of a header that has another byte, or none, there.
#[tactic(auto, using(crate::proofs::Loading::misfit_at, crate::proofs::Loading::misfit_end), unfolding(crate::specs::Reading::header_misfit))]
pub fn misfit(image: &[u8]) -> Option<(u64, Found)>
    ensures { result ≡ header_misfit image.now }
{
    for place in 0..HEADER {
        if place >= image.len() {
            return Some((place as u64, Found::End));
        }
        if !fits(place, image[place]) {
            return Some((place as u64, Found::Byte(image[place])));
        }
    }
    None
}

/// The generation of a header.
#[tactic(auto, unfolding(crate::specs::Reading::generation_in))]
pub fn generation(image: &[u8]) -> u64
    requires { 16 ≤ length image.now }
    ensures { result ≡ generation_in image.now }
{
    u64::from_be_bytes([
        image[8], image[9], image[10], image[11], image[12], image[13], image[14], image[15],
    ])
}

/// Whether the file is empty or very short, or its header was not finished.
pub fn is_none(image: &[u8]) -> bool
    ensures { result ≡ stands_for_none image.now }
{
    image.len() <= 1 || image.len() <= 17 && image[0] != 0x57
}

/// How many bytes stand before a payload.
fn size(version: u8) -> usize
    ensures { result ≡ size_of version }
{
    if version == 1 { 4 } else { 9 }
}

/// The length that is stated before a payload.
#[tactic(auto, unfolding(crate::specs::Reading::stated))]
fn stated_len(version: u8, bytes: &[u8]) -> u64
    requires { size_of version ≤ length bytes.now }
    ensures { result ≡ stated version bytes.now }
{
    if version == 1 {
        return u64::from(u32::from_be_bytes([bytes[0], bytes[1], bytes[2], bytes[3]]));
    }
    u64::from_be_bytes([
        bytes[1], bytes[2], bytes[3], bytes[4], bytes[5], bytes[6], bytes[7], bytes[8],
    ])
}

/// The first byte of a batch, where it is a kind and not that of its place.
#[tactic(auto, unfolding(crate::specs::Reading::wrong_kind))]
fn misfit_kind(version: u8, generation: u64, place: usize, bytes: &[u8]) -> Option<u8>
    ensures { result ≡ wrong_kind version generation place bytes.now }
{
    let kind = if place == 0 && generation >= 2 { 2 } else { 1 };
    match bytes.first() {
        None => None,
        Some(first) => {
            if version == 1 || *first == kind {
                None
            } else {
                Some(*first)
            }
        }
    }
}

/// Where the payload behind an open gate begins, and how long it is.
fn frame_behind(
    image: &[u8],
    version: u8,
    generation: u64,
    place: usize,
    gate: usize,
) -> Result<(usize, usize), JournalError>
    requires within { gate < length image.now }
    requires is_open { (slice_index image.now gate == 1) ≡ true }
    ensures ok { IfOk result (HasFrame version generation place gate image.now) }
    ensures refused { IfErr result (RefusesBatches (batches_from version generation place gate 0 (drop gate image.now))) }
{
    let (_, behind) = image.split_at(gate + 1);
    if let Some(kind) = misfit_kind(version, generation, place, behind) {
        return Err(JournalError::Damaged(gate as u64 + 1, Found::Byte(kind)));
    }
    let size = size(version);
    if behind.len() < size {
        return Err(JournalError::Damaged(image.len() as u64, Found::End));
    }
    let len = stated_len(version, behind);
    if len >= (behind.len() - size) as u64 {
        return Err(JournalError::Damaged(image.len() as u64, Found::End));
    }
    Ok((gate + 1 + size, len as usize))
}

/// Where the payloads stand up to the first gate that is not open, and the offset of that gate.
fn frames(
    alloc: Global,
    image: &[u8],
    version: u8,
    generation: u64,
) -> Result<(Frames, usize), JournalError>
    requires { 16 ≤ length image.now }
    ensures ok { IfOk result (HasFrames version generation image.now) }
    ensures refused { IfErr result (RefusesBatches (batches_from version generation 0 16 0 (drop 16 image.now))) }
{
    let mut frames: Frames = List::new(alloc);
    let mut gate = HEADER;
    while gate < image.len() {
        if image[gate] != OPEN {
            return Ok((frames, gate));
        }
        let (start, len) = match frame_behind(image, version, generation, frames.len(), gate) {
            Ok(frame) => frame,
            Err(error) => return Err(error),
        };
        frames.push((start, len))?;
        gate = start + len;
    }
    Err(JournalError::Damaged(gate as u64, Found::End))
}

/// The batches up to the first gate that is not open, and the offset of that gate. The image is kept with them.
pub fn batches(
    alloc: Global,
    image: Vec<u8>,
    version: u8,
    generation: u64,
) -> Result<(Batches, usize), JournalError>
    // The image has at least the 16 bytes of a header.
    requires { 16 ≤ length image.items }
    // Where it is Ok, these are the image's batches, and where they end.
    ensures ok { IfOk result (λ found. HasBatches version generation image.items (found.0.placed, found.1)) }
    // The image is kept.
    ensures image { IfOk result (λ found. found.0.image ≡ image.items) }
    // A refusal is the damage that reading finds first, or want of memory.
    ensures refused { IfErr result (RefusesBatches (batches_from version generation 0 16 0 (drop 16 image.items))) }
{
    match frames(alloc, &image, version, generation) {
        Err(error) => Err(error),
        Ok((frames, end)) => Ok((Batches::of(image, frames), end)),
    }
}
