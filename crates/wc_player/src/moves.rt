//! Steps that are taken one by one.

use crate::content::Content;
use crate::deed::{Deed, Step};
use crate::findings::Place;
use crate::player::{Player, block_of, place_at};
use crate::program::Program;

impl<P: Program + Drop> Player<P> {
    /// The shelf has a file.
    fn set_file(&mut self, number: u64, name: &Content, content: &Content) {
        if let Some(name) = self.kept.text(name, number) {
            let bytes = self.kept.written(content, number);
            self.machine.set_file(&mut self.kept, name, bytes);
        }
    }

    /// Takes a step that changes what the program is called on.
    fn change(&mut self, place: Place, deed: &Deed) {
        let number = place.repetition;
        match deed {
            Deed::File(name, content) => self.set_file(number, name, content),
            Deed::Image(side, content) => {
                let bytes = self.kept.written(content, number);
                self.machine.set_bytes(*side, bytes);
            }
            Deed::Alter(side, at, byte) => self.alter(place, *side, *at, *byte),
            Deed::Cut(side, length) => self.cut(place, *side, *length),
            Deed::Sip(most) => self.machine.sip(place_at(*most, number)),
            Deed::Fault(device, numbers) => {
                let failing = self.kept.numbers(numbers.as_slice(), number);
                self.fail(*device, failing);
            }
            Deed::Transport(rows) => self.set_table(place, rows.as_slice()),
            Deed::Busy(directory, updates) => self.set_busy(place, *directory, *updates),
            Deed::Clock(moments) => {
                let moments = self.kept.numbers(moments.as_slice(), number);
                self.machine.clock.set_coming(moments);
            }
            Deed::Fuse(side, calls) => self.machine.disks.fuse(*side, calls.at(number)),
            Deed::Crash(one, two) => {
                let left = self.machine.crashed(&mut self.kept, *one, *two);
                self.set_machine(left);
            }
            _ => {}
        }
    }

    /// Asks for a number.
    fn ask(&mut self, place: Place, deed: &Deed) {
        let number = place.repetition;
        match deed {
            Deed::Moment(wanted) => {
                let moment = self.machine.clock.moment();
                self.note_number(place, ("moment ", ""), wanted.at(number), moment);
            }
            Deed::Asked(task, wanted) => {
                let calls = self.machine.outside.asked(*task);
                self.note_number(place, ("", " calls"), wanted.at(number), calls);
            }
            Deed::Faults(wanted) => {
                let faults = self.take_faults();
                self.note_number(place, ("", " faults"), wanted.at(number), faults);
            }
            _ => {}
        }
    }

    /// Takes a step.
    fn take(&mut self, place: Place, deed: &Deed) {
        match deed {
            Deed::Call(call) => self.expect(place, call, call.answers.as_slice()),
            Deed::Mark => self.mark(),
            Deed::Unchanged => self.unchanged(place),
            Deed::Holds(side, content) => self.holds(place, *side, content, false),
            Deed::Ends(side, content) => self.holds(place, *side, content, true),
            Deed::Moment(_) | Deed::Asked(..) | Deed::Faults(_) => self.ask(place, deed),
            _ => self.change(place, deed),
        }
    }

    /// Takes the steps of a block, in the repetition of this number.
    fn take_block(&mut self, block: &[Step], repetition: u64) {
        for step in block {
            let line = step.line;
            self.take(Place { line, repetition }, &step.deed);
        }
    }

    /// Takes the steps of a block with each number from the first to the last.
    fn repeat(&mut self, block: &[Step], first: u64, last: u64) {
        for repetition in first..=last {
            self.take_block(block, repetition);
        }
    }

    /// Takes a step, with its block where one begins. How many steps behind it are taken.
    fn play_step(&mut self, step: &Step, behind: &[Step]) -> usize {
        let place = Place {
            line: step.line,
            repetition: 0,
        };
        let block = block_of(behind);
        match &step.deed {
            Deed::Repeat(first, last) => self.repeat(block, *first, *last),
            Deed::Sweep(event) => self.sweep(place, *event, block),
            deed => {
                self.take(place, deed);
                return 0;
            }
        }
        block.len()
    }

    /// Takes steps one after another, up to one in which something goes wrong.
    pub fn play_steps(&mut self, steps: &[Step]) {
        let mut taken: usize = 0;
        for (at, step) in steps.iter().enumerate() {
            if at < taken || self.kept.error.is_some() {
                continue;
            }
            let next = at.saturating_add(1);
            let count = self.play_step(step, steps.get(next..).unwrap_or(&[]));
            taken = next.saturating_add(count);
        }
    }
}
