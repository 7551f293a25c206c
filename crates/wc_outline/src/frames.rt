//! The frames of a checkpoint.

ghost use Rattle.std.specs.Prelude.{◌≡◌, ◌^◌, ◌<◌, ◌≤◌, ◌∷◌, length, take, reverse, option_map, IfSome};
ghost use Rattle.wc_machine.specs.Advances.{is_done, popped};
ghost use Rattle.wc_outline.specs.Places.{behind, seen, standing};

use wc_state::Frame;
use wc_syntax::{Instr, Instrs};
use wc_value::List;

/// Where a work chain stands.
#[derive(Clone, Copy)]
pub struct Place<'a> {
    /// The instruction that comes next.
    pub instr: &'a Instr,
    /// Those before it in its block.
    pub front: &'a [Instr],
    /// Its frame.
    pub frame: Frame,
    /// The frames around that one, the outermost first.
    pub outer: &'a [Frame],
}

/// Whether a frame is at its block's end.
fn is_done(blocks: &[&Instrs], frame: Frame) -> bool
    ensures { result ≡ is_done (behind blocks.now) frame }
{
    match blocks.get(frame.block as usize) {
        Some(instrs) => instrs.len() <= frame.next as usize,
        None => true,
    }
}

/// How many frames are left once those at their block's end are popped, but for the outermost.
fn kept(blocks: &[&Instrs], frames: &[Frame]) -> usize
    ensures within { result ≤ length frames.now }
    ensures popped { reverse (take result frames.now) ≡ popped (behind blocks.now) (reverse frames.now) }
{
    let mut count = frames.len();
    while count > 1 {
        if !is_done(blocks, frames[count - 1]) {
            return count;
        }
        count -= 1;
    }
    count
}

/// Where a chain stands in a frame inside others; none at the end of the frame's block.
fn place_at<'a>(blocks: &[&'a Instrs], frame: Frame, outer: &'a [Frame]) -> Option<Place<'a>>
    ensures place { option_map seen result ≡ standing (behind blocks.now) (frame ∷ reverse outer.entry.now) }
    ensures room { IfSome result (λ place. place.frame.next < 0xffffffff) }
{
    let instrs = *blocks.get(frame.block as usize)?;
    let next = frame.next as usize;
    if next >= instrs.len() {
        return None;
    }
    let instrs = instrs.as_slice();
    Some(Place {
        instr: &instrs[next],
        front: &instrs[..next],
        frame,
        outer,
    })
}

/// Where a chain with these frames stands once those at their block's end are popped; none at the end of its outline.
pub fn place_of<'a>(blocks: &List<&'a Instrs>, frames: &'a [Frame]) -> Option<Place<'a>>
    ensures few { length blocks.now < 2 ^ 32 }
    ensures place { option_map seen result ≡ standing (behind blocks.now) (popped (behind blocks.now) (reverse frames.entry.now)) }
    ensures room { IfSome result (λ place. place.frame.next < 0xffffffff) }
{
    let _ = blocks.len();
    let blocks = blocks.as_slice();
    let count = kept(blocks, frames);
    if count == 0 {
        return None;
    }
    place_at(blocks, frames[count - 1], &frames[..count - 1])
}
