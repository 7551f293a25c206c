//! The report of a transcript that was played.

ghost use Rattle.std.specs.Prelude.{◌≡◌, ◌≢◌, ◌↔◌, length};
ghost use Rattle.wc_player.specs.declared.report.Verdict.{Verdict};

use crate::deed::Transcript;
use crate::error::PlayError;
use crate::findings::Findings;
use crate::outside::Outside;
use crate::player::Player;
use crate::program::Program;
use std::alloc::Global;
use std::mem;
use wc_value::{Rows, Table, let_go};

/// What is to be said of a transcript.
#[derive(Clone, Copy, PartialEq, Eq)]
pub enum Verdict {
    /// All is as it says.
    Ok,
    /// As much is otherwise as is wrong on purpose.
    Seen,
    /// Something else is otherwise.
    Failed,
}

/// The report of a transcript that was played.
#[derive(Drop)]
pub struct Report {
    /// What was found.
    pub findings: Findings,
    /// How many answers were asked for.
    pub checks: u64,
    /// How many answers are wrong on purpose.
    pub wrong: u64,
}

impl Report {
    /// What is to be said of the transcript. It is `Ok` exactly where nothing was found, and nothing was to be found.
    pub fn verdict(&self) -> Verdict
        // Ok exactly where nothing was found and nothing was meant to be.
        ensures ok { (result ≡ Verdict.Ok) ↔ ((length self.now.findings.list ≡ 0) × (self.now.wrong ≡ 0)) }
        // Not Failed exactly where as much was found as was meant to be.
        ensures seen { (result ≢ Verdict.Failed) ↔ (length self.now.findings.list ≡ self.now.wrong) }
    {
        if self.findings.count() != self.wrong {
            return Verdict::Failed;
        }
        if self.wrong == 0 {
            return Verdict::Ok;
        }
        Verdict::Seen
    }
}

/// The report of a transcript that a player has played, or what went wrong.
fn report_of<P>(alloc: Global, player: &mut Player<P>, wrong: u64) -> Result<Report, PlayError> {
    match player.kept.error {
        Some(error) => Err(error),
        None => Ok(Report {
            findings: mem::replace(&mut player.findings, Findings::new(alloc)),
            checks: player.checks,
            wrong,
        }),
    }
}

/// A transport that has no results.
fn idle_of(alloc: Global) -> Result<Outside, PlayError> {
    let table = Table::new(alloc, Rows::new(alloc))?;
    match Outside::new(alloc, table) {
        Ok(outside) => Ok(outside),
        Err(_) => Err(PlayError::OutOfMemory),
    }
}

/// Plays a transcript by calls of a program.
pub fn play<P: Program + Drop>(
    alloc: Global,
    program: P,
    transcript: &Transcript,
) -> Result<Report, PlayError> {
    let outside = idle_of(alloc)?;
    let mut player = Player::new(alloc, program, outside);
    player.play_steps(transcript.steps.as_slice());
    let report = report_of(alloc, &mut player, transcript.wrong);
    let_go(player);
    report
}
