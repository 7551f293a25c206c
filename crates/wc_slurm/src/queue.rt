//! What the scheduler says of all its jobs in one answer, and which folders were asked about since.
ghost use Rattle.std.specs.Prelude.{◌≡◌, ◌↔◌, ℕ, List, IfOk, OnOk, IsTrue, is_some, option_copied};
ghost use Rattle.wc_value.specs.Ascending.{lookup};
ghost use Rattle.wc_slurm.specs.Lines.{lines_of as lines_in, field_in, rest_in};
ghost use Rattle.wc_slurm.specs.Ends.{is_alive as is_alive_told};
ghost use Rattle.wc_slurm.specs.Queue.{key_of as key_in, now_told as told_now, with_line, told_of, told_in, IsStale, Keeps, Learns, AsksOnce, AsksOnceAtMost};

use crate::end::end_in;
use crate::lines::{copied, field, lines_of};
use crate::scheduler::Scheduler;
use std::alloc::{AllocError, Global};
use std::collections::BTreeSet;
use wc_value::{Bytes, Keyed, Text};

/// What the names of jobs of this engine begin with.
pub const NAMED: &[u8] = b"wc-";

/// A name, if it is one of this engine's.
fn key_of(alloc: Global, name: &[u8]) -> Result<Option<Text>, AllocError>
    ensures { IfOk result (λ key. key ≡ key_in name.now) }
{
    if !name.starts_with(NAMED) {
        return Ok(None);
    }
    let name = copied(alloc, name)?;
    Ok(Text::of(name))
}

/// Whether what is told of a name is that of a job that waits or runs.
fn is_alive(told: &[u8]) -> bool
    ensures { result ≡ is_alive_told told.now }
{
    end_in(told).is_none()
}

/// What counts of a name, by what was told of it and what is told now.
fn now_told<'a>(earlier: Option<&'a Bytes>, rest: &'a [u8]) -> &'a [u8]
    ensures { result.now ≡ told_now (option_copied earlier.entry) rest.entry.now }
{
    match earlier {
        Some(earlier) if is_alive(earlier.bytes()) && !is_alive(rest) => earlier.bytes(),
        _ => rest,
    }
}

/// Takes down what a line says of its name, where it counts. A name that isn't this engine's is passed over.
fn put_told(alloc: Global, told: &mut Keyed<Bytes>, line: &[u8]) -> Result<(), AllocError>
    ensures { OnOk result (told.new ≡ with_line line.now told.old) }
{
    let (name, rest) = field(line);
    match key_of(alloc, name)? {
        Some(name) => {
            let counting = copied(alloc, now_told(told.find(name.bytes()), rest))?;
            told.set(name, counting)
        }
        None => Ok(()),
    }
}

/// What counts of all that an answer says of each name of this engine.
#[tactic(auto, using(crate::proofs::Answers::tells_none, crate::proofs::Answers::tells_more, crate::proofs::Answers::tells_all))]
fn parse_queue(alloc: Global, text: &[u8]) -> Result<Keyed<Bytes>, AllocError>
    ensures { IfOk result (λ told. (name : List ℕ) → lookup name told ≡ told_of name (lines_in text.now)) }
{
    let mut told = Keyed::new(alloc);
    let lines = lines_of(alloc, text)?;
    for line in lines.as_slice() {
        put_told(alloc, &mut told, line.bytes())?;
    }
    Ok(told)
}

/// What is kept of an answer.
fn kept(alloc: Global, answer: Option<Bytes>) -> Result<Option<Keyed<Bytes>>, AllocError>
    ensures { IfOk result (λ kept. Keeps answer kept) }
{
    match answer {
        Some(text) => Ok(Some(parse_queue(alloc, text.bytes())?)),
        None => Ok(None),
    }
}

/// The scheduler's last answer, and which folders were asked about since. Two looks at one folder lie as far apart as the settings
/// say, so there is at most one question in that time, whatever the number of jobs, and no job is judged by an answer that is older than
/// its submission or the last look at it.
#[derive(Drop)]
pub struct Queue {
    answer: Option<Keyed<Bytes>>,
    noted: BTreeSet<u32>,
    submitted: BTreeSet<u32>,
    sent: u32,
    is_asked: bool,
}

impl Queue {
    /// Nothing was asked yet.
    pub fn new(alloc: Global) -> Queue
        ensures { (dir : ℕ) → IsStale result dir }
    {
        Queue {
            answer: None,
            noted: BTreeSet::new(alloc),
            submitted: BTreeSet::new(alloc),
            sent: 0,
            is_asked: false,
        }
    }

    /// Whether a folder was asked about since the last answer.
    pub fn is_stale(&self, dir: u32) -> bool
        ensures { IsTrue result ↔ IsStale self.now dir }
    {
        !self.is_asked || self.noted.contains(&dir)
    }

    /// Notes that a folder is asked about.
    pub fn note(&mut self, dir: u32) -> Result<(), AllocError>
        // The folder was looked at since the scheduler was asked last, or it wasn't asked yet.
        ensures noted { OnOk result (IsStale self.new dir) }
        // No other one counts so that didn't.
        ensures others { OnOk result ((other : ℕ) → (other ≡ dir → ⊥) → IsStale self.new other → IsStale self.old other) }
        // The answer stays.
        ensures answer { self.new.answer ≡ self.old.answer }
    {
        self.noted.insert(dir)?;
        Ok(())
    }

    /// Asks the scheduler once. Its answer takes the place of the one before, and no folder counts as asked about.
    pub fn ask<S: Scheduler>(&mut self, scheduler: &mut S, alloc: Global) -> Result<(), AllocError>
        ensures once { AsksOnce (S.answers scheduler.old) (S.answers scheduler.new) }
        ensures answer { OnOk result (Learns self.new.answer (S.answers scheduler.old) (S.answers scheduler.new)) }
        ensures fresh { OnOk result ((dir : ℕ) → IsStale self.new dir → ⊥) }
    {
        let answer = scheduler.ask(alloc)?;
        self.answer = kept(alloc, answer)?;
        self.noted.clear();
        self.sent = 0;
        self.is_asked = true;
        Ok(())
    }

    /// Looks at a folder: the scheduler is asked anew where this one was asked about since the last answer, and only there.
    pub fn look<S: Scheduler>(
        &mut self,
        scheduler: &mut S,
        alloc: Global,
        dir: u32,
    ) -> Result<(), AllocError>
        ensures once { IsStale self.old dir → AsksOnce (S.answers scheduler.old) (S.answers scheduler.new) }
        ensures answer { OnOk result (IsStale self.old dir → Learns self.new.answer (S.answers scheduler.old) (S.answers scheduler.new)) }
        ensures never { (IsStale self.old dir → ⊥) → S.answers scheduler.new ≡ S.answers scheduler.old }
        ensures keeps { (IsStale self.old dir → ⊥) → self.new.answer ≡ self.old.answer }
        ensures most { AsksOnceAtMost (S.answers scheduler.old) (S.answers scheduler.new) }
        ensures noted { OnOk result (IsStale self.new dir) }
        ensures others { OnOk result ((other : ℕ) → (other ≡ dir → ⊥) → IsStale self.new other → IsStale self.old other × (IsStale self.old dir → ⊥)) }
    {
        if self.is_stale(dir) {
            self.ask(scheduler, alloc)?;
        }
        self.note(dir)
    }

    /// Notes that a folder was submitted in this run, so that the first look at it tells nothing new.
    pub fn note_submitted(&mut self, dir: u32) -> Result<(), AllocError> {
        self.submitted.insert(dir)?;
        Ok(())
    }

    /// Whether this is the first look at a folder behind its submission in this run.
    pub fn is_first_look(&mut self, dir: u32) -> bool {
        self.submitted.remove(&dir)
    }

    /// Counts a job that was given to the scheduler since the last answer.
    pub fn count_sent(&mut self) {
        self.sent = self.sent.saturating_add(1);
    }

    /// Whether the scheduler was asked in this run.
    pub fn is_asked(&self) -> bool
        ensures { result ≡ self.now.is_asked }
    {
        self.is_asked
    }

    /// Whether there was an answer.
    pub fn is_answered(&self) -> bool
        ensures { result ≡ is_some self.now.answer }
    {
        self.answer.is_some()
    }

    /// What the scheduler said of a name.
    pub fn told(&self, name: &[u8]) -> Option<&[u8]>
        ensures { option_copied result ≡ told_in name.now self.now.answer }
    {
        match &self.answer {
            Some(answer) => answer.find(name).map(|rest| rest.bytes()),
            None => None,
        }
    }

    /// Whether the scheduler may get one more job, where it is to have so many at most.
    pub fn has_room(&self, most: u32) -> bool {
        let Some(answer) = &self.answer else {
            return false;
        };
        let mut jobs = self.sent;
        for (_, rest) in answer.as_slice() {
            if is_alive(rest.bytes()) {
                jobs = jobs.saturating_add(1);
            }
        }
        jobs < most
    }
}
