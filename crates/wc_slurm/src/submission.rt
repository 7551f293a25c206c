//! What the folder of a job says of its submission to a scheduler, as text.

use crate::queue::NAMED;
use std::alloc::{AllocError, Global};
use wc_value::Text;

/// What stands before the number of a try.
pub const TRY: &str = "try ";

/// The line of a submission that ended before the program began.
pub const OVER: &str = "over";

/// The most tries that are counted. A task that fails so often in a row pauses its job.
const MOST_TRIES: u32 = 5;

/// A submission of a job.
#[derive(Drop)]
pub struct Submission {
    /// The name.
    pub name: Text,
    /// Which try of the job it is, from 1 on.
    pub tries: u32,
    /// Whether the scheduler gave it a number.
    pub is_numbered: bool,
    /// How often it was told that it ended before the program began.
    pub overs: u32,
}

impl Submission {
    /// Whether it was told that this one ended before the program began.
    pub fn is_over(&self) -> bool {
        self.overs > 0
    }

    /// Whether another one may follow one that is over: it was told once for the first try, twice for the second, and so on, so that
    /// the engine waits twice as long behind each, and pauses the job behind the fifth.
    pub fn may_be_followed(&self) -> bool {
        self.overs >= self.tries
    }

    /// Which try the next one is.
    pub fn next_try(&self) -> u32 {
        self.tries.saturating_add(1).min(MOST_TRIES)
    }
}

/// The submission that a text tells of, if it has a name.
pub fn submission_in(alloc: Global, text: &str) -> Result<Option<Submission>, AllocError> {
    let Some(name) = text.lines().next() else {
        return Ok(None);
    };
    if !name.as_bytes().starts_with(NAMED) {
        return Ok(None);
    }
    let mut found = Submission {
        name: Text::of_str(alloc, name)?,
        tries: 1,
        is_numbered: false,
        overs: 0,
    };
    for line in text.lines().skip(1) {
        if line == OVER {
            found.overs = found.overs.saturating_add(1);
        } else if let Some(tries) = line.strip_prefix(TRY) {
            found.tries = tries.parse::<u32>().unwrap_or(1);
        } else {
            found.is_numbered = true;
        }
    }
    Ok(Some(found))
}
