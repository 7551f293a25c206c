//! What was found to be otherwise than a transcript says.

ghost use Rattle.std.specs.Prelude.{◌≡◌, ◌+◌, ◌==◌, [], length, if◌then◌else◌, IfOk, OnOk};

use crate::called::Called;
use crate::deed::Answer;
use crate::kept::Kept;
use std::alloc::{AllocError, Global};
use wc_value::List;

/// The line of a step, and the number of the repetition.
#[derive(Clone, Copy)]
pub struct Place {
    /// The number of the line.
    pub line: usize,
    /// The number of the repetition.
    pub repetition: u64,
}

/// What was found to be otherwise than a transcript says.
#[derive(Drop)]
pub struct Finding {
    /// Where it was found.
    pub place: Place,
    /// What was asked for, and what came.
    pub told: String,
}

/// All that was found.
#[derive(Drop)]
pub struct Findings {
    list: List<Finding>,
}

/// Puts the digits of bytes behind a line.
fn put_digits(kept: &mut Kept, line: &mut String, bytes: &[u8]) {
    for byte in bytes {
        kept.keep(write!(line, " {byte:02x}"));
    }
}

/// Puts an exit status and a text in quotes behind a line. Where it is no text it puts its digits.
fn put_answer(kept: &mut Kept, line: &mut String, status: u8, text: &[u8]) {
    kept.keep(write!(line, " {status}"));
    match str::from_utf8(text) {
        Ok(text) => kept.keep(write!(line, " {text:?}")),
        Err(_) => put_digits(kept, line, text),
    }
}

/// What was asked for, and what came.
fn told_of(kept: &mut Kept, repetition: u64, answers: &[Answer], called: &Called) -> String {
    let mut line = String::new(kept.alloc);
    kept.keep(line.push_str("expected"));
    for answer in answers {
        let text = kept.written(&answer.text, repetition);
        put_answer(kept, &mut line, answer.status, text.as_slice());
    }
    kept.keep(line.push_str(", came"));
    put_answer(kept, &mut line, called.status, called.text.as_slice());
    line
}

/// Which bytes were asked for, and which came.
pub fn told_bytes(kept: &mut Kept, wanted: &[u8], held: &[u8]) -> String {
    let mut line = String::new(kept.alloc);
    kept.keep(line.push_str("expected"));
    put_digits(kept, &mut line, wanted);
    kept.keep(line.push_str(", came"));
    put_digits(kept, &mut line, held);
    line
}

impl Findings {
    /// Nothing was found.
    pub fn new(alloc: Global) -> Findings
        ensures none { length result.list ≡ 0 }
    {
        Findings {
            list: List::new(alloc),
        }
    }

    /// Puts a finding behind the others.
    pub fn put(&mut self, place: Place, told: String) -> Result<(), AllocError>
        ensures one { OnOk result (length self.new.list ≡ length self.old.list + 1) }
    {
        self.list.push(Finding { place, told })
    }

    /// Notes what is so, or isn't, and is then told. There is one more finding exactly where it isn't.
    pub fn note(
        &mut self,
        alloc: Global,
        place: Place,
        is_so: bool,
        told: &str,
    ) -> Result<(), AllocError>
        ensures counted { OnOk result (length self.new.list ≡ (if is_so then length self.old.list else length self.old.list + 1)) }
    {
        if is_so {
            return Ok(());
        }
        let told = String::from_str(alloc, told)?;
        self.put(place, told)
    }

    /// Compares what a call gave with the answers that are right. There is one more finding exactly where none of them is given.
    pub fn judge(
        &mut self,
        kept: &mut Kept,
        place: Place,
        answers: &[Answer],
        called: &Called,
    ) -> Result<bool, AllocError>
        ensures counted { IfOk result (λ fits. length self.new.list ≡ (if fits then length self.old.list else length self.old.list + 1)) }
    {
        if called.fits_one(kept, answers, place.repetition) {
            return Ok(true);
        }
        self.put(place, told_of(kept, place.repetition, answers, called))?;
        Ok(false)
    }

    /// The findings.
    pub fn as_slice(&self) -> &[Finding]
        ensures { result.now ≡ self.now.list }
    {
        self.list.as_slice()
    }

    /// How many they are.
    pub fn count(&self) -> u64
        ensures { result ≡ length self.now.list }
    {
        self.list.len() as u64
    }
}
