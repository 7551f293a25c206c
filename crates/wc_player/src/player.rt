//! The player, which takes one step after another.

use crate::called::Called;
use crate::content::Content;
use crate::deed::{Answer, Call, Deed, Device, Side, Step};
use crate::disks::Disks;
use crate::findings::{Findings, Place, told_bytes};
use crate::kept::Kept;
use crate::machine::Machine;
use crate::number::Number;
use crate::outside::Outside;
use crate::program::Program;
use std::alloc::{AllocError, Global};
use std::mem;
use wc_value::{Bytes, List, put, put_given};

/// The machine, what was found, and what was asked.
#[derive(Drop)]
pub struct Player<P> {
    /// The program that is called.
    program: P,
    /// Where memory is taken from, and what went wrong.
    pub kept: Kept,
    /// The machine on which the program is called.
    pub machine: Machine,
    /// What the disks held at the last mark.
    marked: Disks,
    /// What was found.
    pub findings: Findings,
    /// How many answers were asked for.
    pub checks: u64,
    /// How many commands met a fault since faults were asked for.
    faults: u64,
}

/// The steps up to the end of the block.
pub fn block_of(steps: &[Step]) -> &[Step] {
    for (at, step) in steps.iter().enumerate() {
        if matches!(&step.deed, Deed::End) {
            return steps.get(..at).unwrap_or(&[]);
        }
    }
    steps
}

/// A number as a place in a disk. No disk has a place that great where it is too great for one.
pub fn place_at(number: Number, repetition: u64) -> usize {
    number.at(repetition) as usize
}

/// These bytes with another one at a place, where there is such a place and such a byte.
fn altered(kept: &mut Kept, bytes: &[u8], at: usize, byte: u64) -> Option<Bytes> {
    let byte = u8::try_from(byte).ok()?;
    let (front, left) = bytes.split_at_checked(at)?;
    let (_, behind) = left.split_first()?;
    let mut image = kept.bytes_of(front);
    kept.keep(image.push(byte));
    kept.keep(image.extend(behind));
    Some(image)
}

impl<P: Program + Drop> Player<P> {
    /// A player that has taken no step.
    pub fn new(alloc: Global, program: P, outside: Outside) -> Player<P> {
        Player {
            program,
            kept: Kept { alloc, error: None },
            machine: Machine::new(alloc, outside),
            marked: Disks::new(alloc),
            findings: Findings::new(alloc),
            checks: 0,
            faults: 0,
        }
    }

    /// One more answer was asked for.
    pub fn count_check(&mut self) {
        self.checks = self.checks.saturating_add(1);
    }

    /// The machine is another one, where that could be made.
    pub fn set_machine(&mut self, machine: Result<Machine, AllocError>) {
        self.kept.keep(put_given(&mut self.machine, machine));
    }

    /// Calls the program.
    pub fn call(&mut self, call: &Call, repetition: u64) -> Called {
        let words = self.kept.words(call.words.as_slice(), repetition);
        let called = self.machine.call(&mut self.kept, &self.program, &words);
        if called.is_fault() {
            self.faults = self.faults.saturating_add(1);
        }
        called
    }

    /// Compares what a call gave with the answers that are right.
    pub fn judge(&mut self, place: Place, answers: &[Answer], called: &Called) {
        self.count_check();
        let judged = self.findings.judge(&mut self.kept, place, answers, called);
        self.kept.made(judged, false);
    }

    /// Calls the program, and compares what it gave with these answers.
    pub fn expect(&mut self, place: Place, call: &Call, answers: &[Answer]) {
        let called = self.call(call, place.repetition);
        self.judge(place, answers, &called);
    }

    /// Notes what is asked for and isn't so.
    pub fn note(&mut self, place: Place, is_so: bool, told: &str) {
        self.count_check();
        let noted = self.findings.note(self.kept.alloc, place, is_so, told);
        self.kept.keep(noted);
    }

    /// Notes which number is asked for where another came. What is counted is said before it and behind it.
    pub fn note_number(&mut self, place: Place, said: (&str, &str), wanted: u64, came: u64) {
        let (before, behind) = said;
        let mut told = String::new(self.kept.alloc);
        let put = write!(told, "expected {before}{wanted}{behind}, came {came}");
        self.kept.keep(put);
        self.note(place, came == wanted, told.as_str());
    }

    /// Another byte stands at a place of a disk.
    pub fn alter(&mut self, place: Place, side: Side, at: Number, byte: Number) {
        let at = place_at(at, place.repetition);
        let byte = byte.at(place.repetition);
        match altered(&mut self.kept, self.machine.disks.bytes(side), at, byte) {
            Some(bytes) => self.machine.set_bytes(side, bytes),
            None => self.note(place, false, "there is no such place or byte"),
        }
    }

    /// A disk is cut to a length.
    pub fn cut(&mut self, place: Place, side: Side, length: Number) {
        let length = place_at(length, place.repetition);
        match self.machine.disks.bytes(side).get(..length) {
            Some(front) => {
                let bytes = self.kept.bytes_of(front);
                self.machine.set_bytes(side, bytes);
            }
            None => self.note(place, false, "the disk is shorter"),
        }
    }

    /// Calls of a device fail.
    pub fn fail(&mut self, device: Device, failing: List<u64>) {
        self.faults = 0;
        match device {
            Device::Shelf => self.machine.fail_shelf(&mut self.kept, failing),
            Device::Sink => self.machine.fail_sink(failing),
            Device::Disk(side) => self.machine.fail_disk(&mut self.kept, side, failing),
            Device::Transport(task) => self.machine.outside.fail(task, failing),
        }
    }

    /// Asks whether a disk holds these bytes, or whether what it holds ends with them.
    pub fn holds(&mut self, place: Place, side: Side, content: &Content, is_end: bool) {
        self.count_check();
        let wanted = self.kept.written(content, place.repetition);
        let wanted = wanted.as_slice();
        let held = self.machine.disks.bytes(side);
        if held == wanted || is_end && held.ends_with(wanted) {
            return;
        }
        let told = told_bytes(&mut self.kept, wanted, held);
        self.kept.keep(self.findings.put(place, told));
    }

    /// Whether a disk holds something else than at the last mark.
    fn is_changed(&self, side: Side) -> bool {
        self.machine.disks.bytes(side) != self.marked.bytes(side)
    }

    /// Puts a finding: a disk was to hold what it held at the last mark.
    fn put_changed(&mut self, place: Place, side: Side) {
        let now = self.machine.disks.bytes(side);
        let told = told_bytes(&mut self.kept, self.marked.bytes(side), now);
        self.kept.keep(self.findings.put(place, told));
    }

    /// Asks whether the disks hold what they held at the last mark.
    pub fn unchanged(&mut self, place: Place) {
        self.count_check();
        if self.is_changed(Side::One) {
            self.put_changed(place, Side::One);
        } else if self.is_changed(Side::Two) {
            self.put_changed(place, Side::Two);
        }
    }

    /// What the disks hold now is what is asked for later.
    pub fn mark(&mut self) {
        let marked = self.machine.disks.copy(&mut self.kept);
        put(&mut self.marked, marked);
    }

    /// How many commands met a fault since this was asked.
    pub fn take_faults(&mut self) -> u64 {
        mem::replace(&mut self.faults, 0)
    }
}
