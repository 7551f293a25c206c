//! What a transcript consists of.

use crate::content::Content;
use crate::number::Number;
use crate::row::Row;
use wc_state::Task;
use wc_value::{List, Text};

/// One of the two disks.
#[derive(Clone, Copy)]
pub enum Side {
    /// Disk one.
    One,
    /// Disk two.
    Two,
}

/// What a command asks, and what can fail.
#[derive(Clone, Copy)]
pub enum Device {
    /// The shelf.
    Shelf,
    /// The sink.
    Sink,
    /// One of the two disks.
    Disk(Side),
    /// The transport, at this task or at any.
    Transport(Option<Task>),
}

/// Which bytes a crash leaves where nothing was synced.
#[derive(Clone, Copy)]
pub enum Left {
    /// Those of before.
    Old,
    /// Those that were written.
    New,
    /// Those that are drawn from this seed.
    Noise(u32),
}

/// What comes to a call in a sweep.
#[derive(Clone, Copy)]
pub enum Event {
    /// The call fails.
    Fault(Device),
    /// It and each later one fails, and then both disks crash.
    Crash(Side),
}

/// An answer that is right: the exit status, and the text.
#[derive(Drop)]
pub struct Answer {
    /// The exit status.
    pub status: u8,
    /// What is written.
    pub text: Content,
}

/// What was done of a command that met an event: what the question before it is answered then, and what the command answers when it is
/// called again.
#[derive(Drop)]
pub struct Stage {
    /// What is written where it is asked.
    pub text: Content,
    /// The answers of the command, each of which is right.
    pub answers: List<Answer>,
}

/// A call of the program: its words, and the answers that are right.
#[derive(Drop)]
pub struct Call {
    /// The words.
    pub words: List<Content>,
    /// The answers, each of which is right.
    pub answers: List<Answer>,
    /// In a sweep of failing tasks: the answers that are right where a task failed in the call.
    pub failed: List<Answer>,
    /// In a sweep: how far the command may have come.
    pub stages: List<Stage>,
}

/// What is done or asked.
#[derive(Drop)]
pub enum Deed {
    /// The shelf has a file of this name with this content.
    File(Content, Content),
    /// A disk holds this.
    Image(Side, Content),
    /// Another byte stands at a place of a disk.
    Alter(Side, Number, Number),
    /// A disk is cut to a length.
    Cut(Side, Number),
    /// The sink takes so many bytes in a call.
    Sip(Number),
    /// These calls of a device fail, counted from here on.
    Fault(Device, List<Number>),
    /// Behind so many calls each call of a disk fails.
    Fuse(Side, Number),
    /// The transport is a new one with these results, and the clock one that stands at 0.
    Transport(List<Row>),
    /// So many first updates of a directory answer that the program is running.
    Busy(Number, Number),
    /// The clock tells these moments one after another, and goes on from the last.
    Clock(List<Number>),
    /// The clock stands at this moment.
    Moment(Number),
    /// The transport was called so often since it was made, for this task or at all.
    Asked(Option<Task>, Number),
    /// Both disks crash, which leaves this of the first and this of the second.
    Crash(Left, Left),
    /// What the disks hold now is what `Unchanged` asks for.
    Mark,
    /// The disks hold what they held at the last mark.
    Unchanged,
    /// A disk holds this, and nothing else.
    Holds(Side, Content),
    /// What a disk holds ends so.
    Ends(Side, Content),
    /// So many commands met a fault since faults were last asked for.
    Faults(Number),
    /// The steps up to the end are repeated with each number from the first to the last.
    Repeat(u64, u64),
    /// The steps up to the end are repeated with an event at a later and later call, until none is met.
    Sweep(Event),
    /// In a sweep: what is asked behind an event.
    Ask(Call),
    /// In a sweep: what follows is asked at each end.
    Last,
    /// A block ends.
    End,
    /// The program is called.
    Call(Call),
}

/// What is done or asked, and in which line of the text it stands.
#[derive(Drop)]
pub struct Step {
    /// The number of the line, counted from 1.
    pub line: usize,
    /// What is done or asked.
    pub deed: Deed,
}

/// A transcript.
#[derive(Drop)]
pub struct Transcript {
    /// Its name.
    pub name: Text,
    /// How many of its answers are wrong on purpose.
    pub wrong: u64,
    /// Its steps.
    pub steps: List<Step>,
}
