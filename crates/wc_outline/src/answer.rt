//! What an advance answers, by what its instruction came to.

ghost use Rattle.std.specs.Prelude.{◌≡◌};
ghost use Rattle.wc_outline.specs.Statements.{stepped, came_to, answered};

use crate::calls::Advanced;
use crate::statements::Noted;
use wc_state::{Awaits, Checkpoint, Frames};
use wc_value::ProcessState;

/// What an instruction comes to, beside what it noted.
#[derive(Drop)]
pub enum Next {
    /// The chain stands at these frames, and makes the calls that were noted.
    Goes(Frames),
    /// The chain stands at these frames, and a loop turned.
    Loops(Frames),
    /// The chain ends in this state.
    Ends(ProcessState),
}

/// What a step whose calls are made comes to: without calls the chain goes on, and with calls it waits for them.
fn go_on(frames: Frames, awaiting: Awaits, calls: u32, noted: Noted) -> Advanced
    ensures { result ≡ came_to awaiting calls frames (stepped None noted) }
{
    let Noted {
        env: _,
        ctx,
        outputs,
        calls: made,
    } = noted;
    let next = Checkpoint {
        frames,
        ctx,
        awaiting,
        calls,
        outputs,
    };
    if made.is_empty() {
        Advanced::Goes(next)
    } else {
        Advanced::Submits(next, made)
    }
}

/// The checkpoint of a chain that stands at these frames, with what is noted.
fn stand(frames: Frames, awaiting: Awaits, calls: u32, noted: Noted) -> Checkpoint
    ensures { result ≡ record { frames = frames; ctx = noted.ctx; awaiting = awaiting; calls = calls; outputs = noted.outputs } }
{
    Checkpoint {
        frames,
        ctx: noted.ctx,
        awaiting,
        calls,
        outputs: noted.outputs,
    }
}

/// What is answered. Nothing is copied: what was noted goes into the answer.
pub fn answer(next: Next, awaiting: Awaits, calls: u32, noted: Noted) -> Advanced
    ensures { result ≡ answered awaiting calls next noted }
{
    match next {
        Next::Goes(frames) => go_on(frames, awaiting, calls, noted),
        Next::Loops(frames) => Advanced::Loops(stand(frames, awaiting, calls, noted)),
        Next::Ends(state) => Advanced::Ends(state, noted.outputs),
    }
}
