//! What the turn of a calculation comes to, before there are changes.

ghost use Rattle.std.specs.Prelude.{◌≡◌, []};
ghost use Rattle.wc_semantics.specs.Outcomes.{excepted};
ghost use Rattle.wc_calculation_turns.specs.Courses.{added_nodes, own_end};

use crate::tasks::JobStep;
use std::alloc::Global;
use wc_semantics::Parsed;
use wc_value::{Fields, ProcessState, Reason};

/// How a calculation ends.
#[derive(Drop)]
pub(crate) struct End {
    /// Its state and its outputs.
    pub parsed: Parsed,
    /// The calculation whose outcome it takes.
    pub source: Option<u32>,
    /// The exit code of its result.
    pub code: Option<i64>,
}

/// What the turn of a calculation comes to.
#[derive(Drop)]
pub(crate) enum Course {
    /// The calculation ends.
    Ends(End),
    /// The job waits.
    Waits(JobStep),
}

/// The end of a calculation that takes no other's outcome and has no result.
pub(crate) fn own_end(parsed: Parsed) -> Course
    ensures { result ≡ own_end parsed }
{
    Course::Ends(End {
        parsed,
        source: None,
        code: None,
    })
}

/// The end of a job whose request is a reason.
pub(crate) fn excepts(alloc: Global, reason: Reason) -> Course
    ensures { result ≡ own_end (excepted reason []) }
{
    own_end(Parsed {
        state: ProcessState::Excepted(reason),
        outputs: Fields::new(alloc),
    })
}

/// How many nodes it adds.
pub(crate) fn added_nodes(course: &Course) -> usize
    ensures { result ≡ added_nodes course.now }
{
    match course {
        Course::Ends(end) => end.parsed.outputs.len(),
        Course::Waits(_) => 0,
    }
}
