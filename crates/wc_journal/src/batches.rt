//! The payloads of a journal, which stay in the image that they were read from.
ghost use Rattle.std.specs.Prelude.{◌≡◌, ◌+◌, ◌^◌, ◌==◌, ◌<◌, ◌≤◌, Some, length, take, drop, slice_get, slice_index, nat_lt, if◌then◌else◌};
ghost use Rattle.wc_journal.specs.declared.error.Found.TheVariants.{Byte, End};
ghost use Rattle.wc_journal.specs.Framing.{placed_in, AreWithin};

use crate::error::Found;
use std::marker::Model;
use wc_value::List;

/// Where payloads begin in an image, and how long each is.
pub type Frames = List<(usize, usize)>;

/// An image, and payloads in it, each with the offset of its first byte. Contracts see the image beside the list of payloads; the bytes stay in the image.
#[derive(Drop)]
pub struct Batches {
    image: Vec<u8>,
    frames: Frames,
}

impl Model for Batches {
    ghost use Rattle.wc_journal.specs.Framing.{BatchImage, placed_in, AreWithin};

    ghost Value = { BatchImage };

    ghost view = { λ a. record { image = a.image.items; placed = placed_in a.image.items a.frames } };

    ghost invariant = { λ a. AreWithin a.image.items a.frames };
}

impl Batches {
    /// The payloads that an image has there. The image is kept, and not copied.
    pub fn of(image: Vec<u8>, frames: Frames) -> Batches
        // The frames lie within the image.
        requires { AreWithin image.items frames }
        // The image is kept.
        ensures image { result.image ≡ image.items }
        // The batches are those of the frames.
        ensures placed { result.placed ≡ placed_in image.items frames }
    {
        Batches { image, frames }
    }

    /// The number of payloads.
    pub fn len(&self) -> usize
        ensures value { result ≡ length self.now.placed }
        ensures bound { result < 2 ^ 32 }
    {
        self.frames.len()
    }

    /// Whether there is no payload.
    pub fn is_empty(&self) -> bool
        ensures { result ≡ (length self.now.placed == 0) }
    {
        self.frames.is_empty()
    }

    /// The offset of the payload at a place, counted from 0, and the payload, lent out of the image. It takes no memory.
    pub fn payload(&self, at: usize) -> (u64, &[u8])
        requires { at < length self.now.placed }
        ensures { slice_get self.now.placed at ≡ Some (result.0, result.1.now) }
    {
        let (start, len) = self.frames.as_slice()[at];
        (start as u64, part(&self.image, start, len))
    }

    /// The byte of the image at an offset, or its end.
    pub fn found_at(&self, at: u64) -> Found
        ensures value { result ≡ (if nat_lt at (length self.now.image) then Byte (slice_index self.now.image at) else End) }
        ensures counted { length self.now.image < 2 ^ 64 }
    {
        if at >= self.image.len() as u64 {
            return Found::End;
        }
        Found::Byte(self.image[at as usize])
    }
}

/// So many bytes of an image, from an offset on.
fn part(image: &[u8], start: usize, len: usize) -> &[u8]
    requires { start + len ≤ length image.now }
    ensures { result.now ≡ take len (drop start image.now) }
{
    &image[start..start + len]
}
