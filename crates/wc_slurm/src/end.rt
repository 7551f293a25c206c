//! How the scheduler says that a job ended, and which exit code that leaves.
ghost use Rattle.std.specs.Prelude.{◌≡◌};
ghost use Rattle.wc_slurm.specs.Ends.{code_of as code_left, end_of as end_by, end_told};

use crate::lines::field;
use std::str;

/// An end that the scheduler tells.
#[derive(Clone, Copy, PartialEq, Eq)]
pub enum End {
    /// A user or an administrator ended the job, maybe before it began.
    Cancelled,
    /// Its time was over, or its place was wanted.
    Stopped,
    /// Its memory, its node or the start of its node failed.
    Lost,
    /// The script gave a code other than 0, or a signal ended it.
    Failed,
    /// The script gave 0.
    Completed,
}

/// How a job ended that is in this state, none where it waits or runs. A word that isn't known is none of an end.
fn end_of(state: &[u8]) -> Option<End>
    ensures { result ≡ end_by state.now }
{
    if state == b"CANCELLED".as_slice() {
        return Some(End::Cancelled);
    }
    if state == b"TIMEOUT".as_slice()
        || state == b"PREEMPTED".as_slice()
        || state == b"DEADLINE".as_slice()
    {
        return Some(End::Stopped);
    }
    if state == b"OUT_OF_MEMORY".as_slice()
        || state == b"NODE_FAIL".as_slice()
        || state == b"BOOT_FAIL".as_slice()
    {
        return Some(End::Lost);
    }
    if state == b"FAILED".as_slice() {
        return Some(End::Failed);
    }
    if state == b"COMPLETED".as_slice() {
        return Some(End::Completed);
    }
    None
}

/// How a job ended that this is told of, none where it waits or runs.
pub fn end_in(told: &[u8]) -> Option<End>
    ensures { result ≡ end_told told.now }
{
    let (state, _) = field(told);
    end_of(state)
}

/// The signal that ended a script, by the number that the queue or the accounting gives for its end: 256 times the code, or the signal; or
/// both behind one another with a colon. 0 is none.
pub fn signal_in(exit: &[u8]) -> u32 {
    let Ok(text) = str::from_utf8(exit) else {
        return 0;
    };
    match text.split_once(':') {
        Some((_, signal)) => signal.parse::<u32>().unwrap_or(0) % 128,
        None => text.parse::<u32>().unwrap_or(0) % 128,
    }
}

/// The exit code that is to be written for a run that an end has met, where one is. `had_node`: the submission had a node, or no
/// other run can have begun.
pub fn code_of(end: End, had_node: bool, signal: u32) -> Option<u32>
    ensures { result ≡ code_left end had_node signal }
{
    match end {
        End::Cancelled | End::Stopped => { if had_node { Some(143) } else { None } }
        End::Lost => Some(137),
        End::Failed => {
            if signal == 0 || signal > 127 {
                None
            } else {
                Some(128 + signal)
            }
        }
        End::Completed => None,
    }
}
