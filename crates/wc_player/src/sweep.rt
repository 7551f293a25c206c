//! Sweeps: a block is played with an event at a later and later call, and what was acknowledged has to be there behind it.

use crate::called::Called;
use crate::deed::{Answer, Call, Deed, Device, Event, Left, Stage, Step};
use crate::error::PlayError;
use crate::findings::Place;
use crate::machine::Machine;
use crate::number::Number;
use crate::player::Player;
use crate::program::Program;
use std::mem;
use wc_value::{List, let_go, put};

/// What a crash leaves of disk one and of disk two.
const PICKS: [(Left, Left); 5] = [
    (Left::Old, Left::Old),
    (Left::New, Left::New),
    (Left::Noise(5), Left::Noise(5)),
    (Left::Old, Left::New),
    (Left::New, Left::Old),
];

/// More calls than a block makes.
const MANY: u64 = 400;

/// The answers of the question that a step asks, of which there are none where it asks none.
fn asked_at(block: &[Step], at: usize) -> &[Answer] {
    match block.get(at) {
        Some(step) => match &step.deed {
            Deed::Ask(call) => call.answers.as_slice(),
            _ => &[],
        },
        None => &[],
    }
}

/// The last question before a step, and its line.
fn last_asked(block: &[Step], cut: usize) -> Option<(usize, &Call)> {
    let mut found = None;
    for step in block.get(..cut).unwrap_or(block) {
        if let Deed::Ask(call) = &step.deed {
            found = Some((step.line, call));
        }
    }
    found
}

/// Where the steps stand that are taken at each end.
fn last_steps(block: &[Step]) -> usize {
    for (at, step) in block.iter().enumerate() {
        if matches!(&step.deed, Deed::Last) {
            return at;
        }
    }
    block.len()
}

/// The exit status of a command that meets an event. A task that fails is none.
fn status_of(event: Event) -> Option<u8> {
    match event {
        Event::Crash(_) | Event::Fault(Device::Disk(_)) => Some(5),
        Event::Fault(Device::Shelf) => Some(7),
        Event::Fault(Device::Sink) => Some(8),
        Event::Fault(Device::Transport(_)) => None,
    }
}

/// The answers that are right where a call went on to its end.
fn answers_of<'a>(call: &'a Call, called: &Called) -> &'a [Answer] {
    if called.is_failed && !call.failed.is_empty() {
        return call.failed.as_slice();
    }
    call.answers.as_slice()
}

/// Where commands are to be called again from.
#[derive(Clone, Copy)]
struct Onward<'a> {
    /// The place of the first of them.
    from: usize,
    /// The answers of that one, where it was done in part.
    answers: Option<&'a [Answer]>,
}

impl<'a> Onward<'a> {
    /// All that is done is done whole.
    fn at(from: usize) -> Onward<'a> {
        Onward {
            from,
            answers: None,
        }
    }
}

/// The stages of the command at a place.
fn stages_at(block: &[Step], at: usize) -> &[Stage] {
    match block.get(at) {
        Some(step) => match &step.deed {
            Deed::Call(call) => call.stages.as_slice(),
            _ => &[],
        },
        None => &[],
    }
}

impl<P: Program + Drop> Player<P> {
    /// An event comes to the machine behind so many calls.
    fn prepare(&mut self, event: Event, calls: u64) {
        match event {
            Event::Crash(side) => self.machine.disks.fuse(side, calls),
            Event::Fault(device) => {
                let next = calls.saturating_add(1);
                let failing = self.kept.numbers(&[Number::Plain(next)], 0);
                self.fail(device, failing);
            }
        }
    }

    /// The machine holds the same, and no call of what the event came to fails.
    fn restart(&mut self, event: Event) {
        if let Event::Fault(Device::Transport(task)) = event {
            let none = List::new(self.kept.alloc);
            self.machine.outside.fail(task, none);
        }
        let machine = self.machine.copy(&mut self.kept);
        self.set_machine(machine);
    }

    /// Whether an answer begins with what a call wrote.
    fn begins(&mut self, answers: &[Answer], called: &Called, calls: u64) -> bool {
        for answer in answers {
            let text = self.kept.written(&answer.text, calls);
            if text.as_slice().starts_with(called.text.as_slice()) {
                return true;
            }
        }
        false
    }

    /// Whether a call met an event: it wrote nothing, or where the sink failed a beginning of an answer.
    fn has_met(&mut self, event: Event, call: &Call, called: &Called, calls: u64) -> bool {
        if Some(called.status) != status_of(event) {
            return false;
        }
        if matches!(event, Event::Fault(Device::Sink)) {
            return self.begins(call.answers.as_slice(), called, calls);
        }
        called.text.is_empty()
    }

    /// Calls the program. Whether the call met the event: else it has to give what the transcript says.
    fn meets(&mut self, place: Place, event: Event, call: &Call) -> bool {
        let called = self.call(call, place.repetition);
        let has_met = self.has_met(event, call, &called, place.repetition);
        if !has_met {
            self.judge(place, answers_of(call, &called), &called);
        }
        has_met
    }

    /// Calls the program with one command after another until one meets the event. Where that one stands, or the end.
    fn course(&mut self, event: Event, block: &[Step], calls: u64) -> usize {
        for (at, step) in block.iter().enumerate() {
            let place = Place {
                line: step.line,
                repetition: calls,
            };
            if let Deed::Call(call) = &step.deed
                && self.meets(place, event, call)
            {
                return at;
            }
        }
        block.len()
    }

    /// The answers of the first of these stages that a question tells.
    fn stage_told<'a>(
        &mut self,
        stages: &'a [Stage],
        called: &Called,
        calls: u64,
    ) -> Option<&'a [Answer]> {
        for stage in stages {
            let text = self.kept.written(&stage.text, calls);
            if called.status == 0 && called.text.as_slice() == text.as_slice() {
                return Some(stage.answers.as_slice());
            }
        }
        None
    }

    /// From which step on commands are to be called again, where the one at a place met an event: the last question before it is
    /// asked, and its answer is the one from before that command, the one behind it, or one of a stage of it.
    fn place_now<'a>(&mut self, block: &'a [Step], cut: usize, calls: u64) -> Onward<'a> {
        let Some((line, asked)) = last_asked(block, cut) else {
            return Onward::at(cut.saturating_add(1));
        };
        let called = self.call(asked, calls);
        let place = Place {
            line,
            repetition: calls,
        };
        self.place_told(place, block, cut, asked, &called)
    }

    /// From which step on commands are to be called again, by what a question is answered.
    fn place_told<'a>(
        &mut self,
        place: Place,
        block: &'a [Step],
        cut: usize,
        asked: &Call,
        called: &Called,
    ) -> Onward<'a> {
        let next = cut.saturating_add(1);
        if called.fits_one(&mut self.kept, asked_at(block, next), place.repetition) {
            self.count_check();
            return Onward::at(next);
        }
        let answers = self.stage_told(stages_at(block, cut), called, place.repetition);
        if answers.is_some() {
            self.count_check();
        } else {
            self.judge(place, asked.answers.as_slice(), called);
        }
        Onward { from: cut, answers }
    }

    /// Calls each command behind which a question stands, and asks it. The first has other answers where there are some.
    fn call_changes(&mut self, steps: &[Step], first: Option<&[Answer]>, calls: u64) {
        for (at, step) in steps.iter().enumerate() {
            let place = Place {
                line: step.line,
                repetition: calls,
            };
            match &step.deed {
                Deed::Ask(call) => self.expect(place, call, call.answers.as_slice()),
                Deed::Call(call) if !asked_at(steps, at.saturating_add(1)).is_empty() => {
                    let usual = call.answers.as_slice();
                    let answers = if at == 0 {
                        first.unwrap_or(usual)
                    } else {
                        usual
                    };
                    self.expect(place, call, answers);
                }
                _ => {}
            }
        }
    }

    /// Calls each command of these steps.
    fn call_all(&mut self, steps: &[Step], calls: u64) {
        for step in steps {
            let place = Place {
                line: step.line,
                repetition: calls,
            };
            if let Deed::Call(call) = &step.deed {
                self.expect(place, call, call.answers.as_slice());
            }
        }
    }

    /// Goes on behind an event that the command at a place met, or behind all.
    fn go_on(&mut self, block: &[Step], last: &[Step], cut: usize, calls: u64) {
        let onward = self.place_now(block, cut, calls);
        let steps = block.get(onward.from..).unwrap_or(&[]);
        self.call_changes(steps, onward.answers, calls);
        self.call_all(last, calls);
    }

    /// Goes on with what a crash leaves, and has what was there before again.
    fn crash_once(&mut self, left: Machine, block: &[Step], last: &[Step], cut: usize, calls: u64) {
        let before = mem::replace(&mut self.machine, left);
        self.go_on(block, last, cut, calls);
        put(&mut self.machine, before);
    }

    /// Goes on with what each crash leaves.
    fn crashes(&mut self, block: &[Step], last: &[Step], cut: usize, calls: u64) {
        for picks in &PICKS {
            match self.machine.crashed(&mut self.kept, picks.0, picks.1) {
                Ok(left) => self.crash_once(left, block, last, cut, calls),
                Err(_) => self.kept.fail(PlayError::OutOfMemory),
            }
        }
    }

    /// Goes on behind an event that the command at a place met, or behind all, where no later call fails.
    fn behind_event(
        &mut self,
        event: Event,
        block: &[Step],
        last: &[Step],
        cut: usize,
        calls: u64,
    ) {
        if let Event::Crash(_) = event {
            return self.crashes(block, last, cut, calls);
        }
        if cut >= block.len() {
            self.restart(event);
        }
        self.go_on(block, last, cut, calls);
    }

    /// Plays a block with an event behind so many calls. Whether a command met it.
    fn sweep_once(&mut self, event: Event, block: &[Step], last: &[Step], calls: u64) -> bool {
        let checks = self.checks;
        let faults = self.machine.outside.faults();
        self.prepare(event, calls);
        let cut = self.course(event, block, calls);
        let has_failed = self.machine.outside.faults() != faults;
        let is_met = cut < block.len() || (status_of(event).is_none() && has_failed);
        self.behind_event(event, block, last, cut, calls);
        if is_met {
            self.checks = checks;
        }
        is_met
    }

    /// Plays a block with an event behind no call, one, two, and so on, until no command meets it or something goes wrong. How many
    /// calls came before the event then.
    fn sweep_from(
        &mut self,
        begun: &Machine,
        event: Event,
        block: &[Step],
        last: &[Step],
    ) -> Option<u64> {
        for calls in 0..MANY {
            let machine = begun.copy(&mut self.kept);
            self.set_machine(machine);
            if !self.sweep_once(event, block, last, calls) || self.kept.error.is_some() {
                return Some(calls);
            }
        }
        None
    }

    /// Plays a block with an event at each call in turn, from what a machine holds.
    fn sweep_at(&mut self, place: Place, event: Event, steps: &[Step], begun: &Machine) {
        let (block, last) = steps
            .split_at_checked(last_steps(steps))
            .unwrap_or((steps, &[]));
        match self.sweep_from(begun, event, block, last) {
            Some(calls) => self.note(place, calls > 0, "no command meets the event"),
            None => self.note(place, false, "the block makes more calls"),
        }
    }

    /// Plays a block with an event at each call in turn.
    pub fn sweep(&mut self, place: Place, event: Event, steps: &[Step]) {
        match self.machine.copy(&mut self.kept) {
            Ok(begun) => {
                self.sweep_at(place, event, steps, &begun);
                let_go(begun);
            }
            Err(_) => self.kept.fail(PlayError::OutOfMemory),
        }
    }
}
