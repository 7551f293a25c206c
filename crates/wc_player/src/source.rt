//! The text that is read: line by line, and each line word by word.

use crate::deed::{Device, Event, Left, Side};
use crate::mistake::Mistake;
use crate::names::find;
use crate::number::Number;
use std::alloc::{AllocError, Global};
use wc_state::Task;
use wc_value::List;

/// The words that name a disk.
const SIDES: [(&str, Side); 2] = [("disk-one", Side::One), ("disk-two", Side::Two)];

/// The words that name a task at which the transport is called, or any.
const TASKS: [(&str, Option<Task>); 5] = [
    ("transport", None),
    ("upload", Some(Task::Upload)),
    ("submit", Some(Task::Submit)),
    ("update", Some(Task::Update)),
    ("retrieve", Some(Task::Retrieve)),
];

/// The words that name a device.
const DEVICES: [(&str, Device); 9] = [
    ("shelf", Device::Shelf),
    ("sink", Device::Sink),
    ("disk-one", Device::Disk(Side::One)),
    ("disk-two", Device::Disk(Side::Two)),
    ("transport", Device::Transport(None)),
    ("upload", Device::Transport(Some(Task::Upload))),
    ("submit", Device::Transport(Some(Task::Submit))),
    ("update", Device::Transport(Some(Task::Update))),
    ("retrieve", Device::Transport(Some(Task::Retrieve))),
];

/// What is left of a text. The first mistake is kept, so that what reads needs no answer: what is wrong is read as anything.
#[derive(Drop)]
pub struct Source<'a> {
    /// What is read takes its memory from here.
    pub alloc: Global,
    /// The lines that are left.
    pub left: Option<&'a str>,
    /// How many lines were taken.
    pub taken: usize,
    /// What is left of the line that was taken last.
    pub line: &'a str,
    /// The first mistake.
    pub mistake: Option<Mistake>,
}

/// The first line of a text, and what stands behind it.
fn split(text: &str) -> (&str, Option<&str>) {
    match text.split_once('\n') {
        Some((line, behind)) => (line, Some(behind)),
        None => (text, None),
    }
}

/// How many bytes the first word of a text has. A space within quotes ends no word.
fn word_length(text: &str) -> usize {
    let mut quoted = false;
    let mut escaped = false;
    for (at, byte) in text.as_bytes().iter().enumerate() {
        if *byte == b' ' && !quoted {
            return at;
        }
        if *byte == b'"' && !escaped {
            quoted = !quoted;
        }
        escaped = *byte == b'\\' && !escaped;
    }
    text.len()
}

impl<'a> Source<'a> {
    /// The lines of a text, of which none is taken.
    pub fn new(alloc: Global, text: &'a str) -> Source<'a> {
        Source {
            alloc,
            left: Some(text),
            taken: 0,
            line: "",
            mistake: None,
        }
    }

    /// Notes a mistake, where it is the first.
    pub fn fail(&mut self, mistake: Mistake) {
        if self.mistake.is_none() {
            self.mistake = Some(mistake);
        }
    }

    /// Notes that memory ran out where something wasn't kept.
    pub fn keep(&mut self, kept: Result<(), AllocError>) {
        if kept.is_err() {
            self.fail(Mistake::OutOfMemory);
        }
    }

    /// Takes the next line where it begins so. What stands behind that is left of it.
    pub fn take_behind(&mut self, sign: &str) -> bool {
        let Some(text) = self.left else {
            return false;
        };
        let (line, left) = split(text);
        let Some(behind) = line.strip_prefix(sign) else {
            return false;
        };
        self.line = behind;
        self.left = left;
        self.taken = self.taken.saturating_add(1);
        true
    }

    /// Takes the next word of the line. It is empty where nothing but spaces is left.
    pub fn word(&mut self) -> &'a str {
        let text = self.line.trim_start_matches(' ');
        let (word, behind) = text
            .split_at_checked(word_length(text))
            .unwrap_or((text, ""));
        self.line = behind.strip_prefix(' ').unwrap_or("");
        word
    }

    /// Whether no word is left of the line.
    pub fn is_ended(&self) -> bool {
        self.line.trim_start_matches(' ').is_empty()
    }

    /// It is this mistake where a word is left of the line.
    pub fn end(&mut self, mistake: Mistake) {
        if !self.is_ended() {
            self.fail(mistake);
        }
    }

    /// Takes a word that may not be missing.
    pub fn name(&mut self) -> &'a str {
        let word = self.word();
        if word.is_empty() {
            self.fail(Mistake::Word);
        }
        word
    }

    /// What a word says. It is a mistake where it says nothing.
    fn said<T: Copy>(&mut self, said: Option<T>, usual: T) -> T {
        if said.is_none() {
            self.fail(Mistake::Word);
        }
        said.unwrap_or(usual)
    }

    /// The number that digits say.
    pub fn count(&mut self) -> u64 {
        let word = self.word();
        self.said(word.parse().ok(), 0)
    }

    /// An exit status.
    pub fn status(&mut self) -> u8 {
        let word = self.word();
        self.said(word.parse().ok(), 0)
    }

    /// An exit code.
    pub fn code(&mut self) -> i64 {
        let word = self.word();
        self.said(word.parse().ok(), 0)
    }

    /// A number: digits, or `#`, or `#+` before digits.
    pub fn number(&mut self) -> Number {
        let word = self.word();
        self.said(number_of(word), Number::Plain(0))
    }

    /// The numbers of a line, where each word is one.
    pub fn numbers(&mut self) -> List<Number> {
        let mut numbers = List::new(self.alloc);
        for _ in 0..self.line.len() {
            if self.is_ended() {
                break;
            }
            let pushed = numbers.push(self.number());
            self.keep(pushed);
        }
        numbers
    }

    /// What a word names in a table. It is a mistake where it names nothing.
    fn known<T: Copy>(&mut self, table: &[(&str, T)], usual: T) -> T {
        let word = self.word();
        self.said(find(table, word).copied(), usual)
    }

    /// A disk.
    pub fn side(&mut self) -> Side {
        self.known(&SIDES, Side::One)
    }

    /// The task at which the transport is called, or any.
    pub fn task(&mut self) -> Option<Task> {
        self.known(&TASKS, None)
    }

    /// A device.
    pub fn device(&mut self) -> Device {
        self.known(&DEVICES, Device::Sink)
    }

    /// What a crash leaves.
    pub fn leaving(&mut self) -> Left {
        match self.word() {
            "old" => Left::Old,
            "new" => Left::New,
            word => Left::Noise(self.said(seed_of(word), 0)),
        }
    }

    /// What comes to a call.
    pub fn event(&mut self) -> Event {
        match self.word() {
            "fault" => Event::Fault(self.device()),
            "crash" => Event::Crash(self.side()),
            _ => {
                self.fail(Mistake::Word);
                Event::Crash(Side::One)
            }
        }
    }
}

/// The number that a word says.
fn number_of(word: &str) -> Option<Number> {
    match word.strip_prefix("#+") {
        Some(more) => Some(Number::Counted(more.parse().ok()?)),
        None if word == "#" => Some(Number::Counted(0)),
        None => Some(Number::Plain(word.parse().ok()?)),
    }
}

/// The seed of the noise that a word names.
fn seed_of(word: &str) -> Option<u32> {
    word.strip_prefix("noise-")?.parse().ok()
}
