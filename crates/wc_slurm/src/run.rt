//! The run of a job's script that made its lock, and whether it is the one that the scheduler tells an end of.
ghost use Rattle.std.specs.Prelude.{◌≡◌, Some, is_none, IfSome};
ghost use Rattle.wc_slurm.specs.Ends.{end_told, is_alive};
ghost use Rattle.wc_slurm.specs.Runs.{agrees as agree, is_node as is_node_word, is_cancelled as is_cancelled_end, is_other, code_under_lock as code_left, told_node, told_number, told_restarts};

use crate::end::{End, code_of, end_in, signal_in};
use crate::lines::{field, worded};

/// What the scheduler tells of a job that ended.
#[derive(Clone, Copy)]
pub struct Told<'a> {
    /// How it ended.
    pub end: End,
    /// The node of its script.
    pub node: &'a [u8],
    /// Its number.
    pub number: &'a [u8],
    /// How often it was queued again; nothing where that isn't told.
    pub restarts: &'a [u8],
    /// The signal that ended its script, 0 where none did.
    pub signal: u32,
}

/// What is told of a job that ended: its state, its node, its number, how often it was queued again, the exit code of its script, each up
/// to a bar. None of a job that waits or runs.
pub fn told_in(told: &[u8]) -> Option<Told<'_>>
    ensures alive { is_none result ≡ is_alive told.now }
    ensures end { IfSome result (λ t. end_told told.now ≡ Some t.end) }
    ensures node { IfSome result (λ t. t.node.now ≡ told_node told.now) }
    ensures number { IfSome result (λ t. t.number.now ≡ told_number told.now) }
    ensures restarts { IfSome result (λ t. t.restarts.now ≡ told_restarts told.now) }
{
    let end = end_in(told)?;
    let (_, rest) = field(told);
    let (node, rest) = field(rest);
    let (number, rest) = field(rest);
    let (restarts, rest) = field(rest);
    let (exit, _) = field(rest);
    Some(Told {
        end,
        node,
        number,
        restarts,
        signal: signal_in(exit),
    })
}

/// Whether a word that is told is the same as another.
fn agrees(told: &[u8], word: &[u8]) -> bool
    ensures { result ≡ agree told.now word.now }
{
    told.is_empty() || told == word
}

/// Whether a job had this node, and not none.
fn is_node(node: &[u8]) -> bool
    ensures { result ≡ is_node_word node.now }
{
    !node.is_empty()
        && node != b"(null)".as_slice()
        && node != b"n/a".as_slice()
        && node != b"None".as_slice()
}

/// Whether a user or an administrator ended the job.
fn is_cancelled(end: End) -> bool
    ensures { result ≡ is_cancelled_end end }
{
    match end {
        End::Cancelled => true,
        End::Stopped | End::Lost | End::Failed | End::Completed => false,
    }
}

/// Whether the run that made a lock is another one than what is told of. `line` is what it wrote of itself: the number of its job, how often
/// that was queued again, and the node; nothing where it wrote nothing.
pub fn is_other_run(told: Told<'_>, line: &[u8]) -> bool
    ensures { result ≡ is_other told.entry.number.now told.entry.restarts.now told.entry.node.now line.now }
{
    let (number, rest) = worded(line);
    if number.is_empty() {
        return false;
    }
    let (restarts, rest) = worded(rest);
    let (node, _) = worded(rest);
    !(told.number == number && agrees(told.restarts, restarts) && agrees(told.node, node))
}

/// The exit code that is to be written for a job whose lock is there, where one is. `line` is what the run that made the lock wrote of
/// itself. The end of another run leaves no code.
pub fn code_under_lock(told: Told<'_>, line: &[u8]) -> Option<u32>
    ensures { result ≡ code_left told.entry.end told.entry.number.now told.entry.restarts.now told.entry.node.now told.entry.signal line.now }
{
    if is_other_run(told, line) {
        return None;
    }
    let (number, _) = worded(line);
    let is_alone = number.is_empty() && is_cancelled(told.end);
    code_of(told.end, is_node(told.node) || is_alone, told.signal)
}
