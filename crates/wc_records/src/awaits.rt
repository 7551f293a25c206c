//! Awaited processes that have ended.

ghost use Rattle.std.specs.Prelude.{◌≡◌, ◌≤◌};
ghost use Rattle.wc_records.specs.Ascending.{AreAscending};
ghost use Rattle.wc_records.specs.Readiness.{ended_at, awaits_of};
ghost use Rattle.wc_records.specs.Index.{ended_first};

use crate::places::find;
use crate::processes::has_ended;
use wc_state::{Await, Part, ProcessRecord};

/// Whether the process with this number is there and has ended.
fn ended_at(records: &[ProcessRecord], pid: u32) -> bool
    requires { AreAscending 0 records.now }
    ensures { result ≡ ended_at records.now pid }
{
    match find(records, pid) {
        None => false,
        Some(record) => has_ended(record.state),
    }
}

/// How many of the awaited processes have ended, from the first one on, where so many are known to have.
#[tactic(auto, using(crate::proofs::Passed::ended_more, crate::proofs::Passed::ended_stop, crate::proofs::Passed::ended_within))]
fn ended_first(records: &[ProcessRecord], awaiting: &[Await], known: usize) -> usize
    requires order { AreAscending 0 records.now }
    requires known { known ≤ ended_first records.now awaiting.now }
    ensures { result ≡ ended_first records.now awaiting.now }
{
    let mut at = known;
    while at < awaiting.len() {
        if !ended_at(records, awaiting[at].pid) {
            return at;
        }
        at += 1;
    }
    at
}

/// How many of the processes that a process awaits have ended, from the first one on, where so many are known to have.
pub(crate) fn passed_by(records: &[ProcessRecord], part: &Part, known: usize) -> usize
    requires order { AreAscending 0 records.now }
    requires known { known ≤ ended_first records.now (awaits_of part.now) }
    ensures { result ≡ ended_first records.now (awaits_of part.now) }
{
    match part {
        Part::Chain(checkpoint) => ended_first(records, checkpoint.awaiting.as_slice(), known),
        Part::Fresh | Part::Job(_) | Part::Over => 0,
    }
}
