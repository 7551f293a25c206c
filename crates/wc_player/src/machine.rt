//! A machine on which the program is called: a shelf, a sink, two disks, a transport and a clock, all in memory.

use crate::called::Called;
use crate::clock::Clock;
use crate::deed::{Left, Side};
use crate::disks::Disks;
use crate::kept::Kept;
use crate::outside::Outside;
use crate::program::{Program, Sipping};
use std::alloc::{AllocError, Global};
use wc_io::{MemoryShelf, MemorySink};
use wc_value::{Bytes, Duplicate, Files, List, Table, Text, Words, put};

/// A shelf, a sink, two disks, a transport and a clock, on which the program is called.
#[derive(Drop)]
pub struct Machine {
    alloc: Global,
    files: Files,
    shelf: MemoryShelf,
    sink: Sipping,
    /// The disks.
    pub disks: Disks,
    /// The transport.
    pub outside: Outside,
    /// The clock.
    pub clock: Clock,
}

/// An empty sink that takes at most so many bytes in a call.
fn sink_of(alloc: Global, most: usize, failing: List<u64>) -> Sipping {
    Sipping {
        inner: MemorySink::new(alloc, failing),
        most,
    }
}

/// The same files.
fn copied(kept: &mut Kept, files: &Files) -> Files {
    kept.made(files.copy(), Files::new(kept.alloc))
}

impl Machine {
    /// A machine with no file, two empty disks and this transport.
    pub fn new(alloc: Global, outside: Outside) -> Machine {
        Machine {
            alloc,
            files: Files::new(alloc),
            shelf: MemoryShelf::new(Files::new(alloc), List::new(alloc)),
            sink: sink_of(alloc, usize::MAX, List::new(alloc)),
            disks: Disks::new(alloc),
            outside,
            clock: Clock::new(alloc),
        }
    }

    /// A machine that holds the same beside these disks and this transport. No call of its shelf, its sink and its disks fails.
    fn with(&self, kept: &mut Kept, disks: Disks, outside: Outside) -> Machine {
        let alloc = self.alloc;
        Machine {
            alloc,
            files: copied(kept, &self.files),
            shelf: MemoryShelf::new(copied(kept, &self.files), List::new(alloc)),
            sink: sink_of(alloc, self.sink.most, List::new(alloc)),
            disks,
            outside,
            clock: kept.made(self.clock.copy(), Clock::new(alloc)),
        }
    }

    /// A machine that holds the same. No call of its shelf, its sink and its disks fails, and all that the disks hold counts as synced.
    pub fn copy(&self, kept: &mut Kept) -> Result<Machine, AllocError> {
        let outside = self.outside.copy(kept)?;
        let disks = self.disks.copy(kept);
        Ok(self.with(kept, disks, outside))
    }

    /// What a crash of both disks leaves, where each is picked so.
    pub fn crashed(&self, kept: &mut Kept, one: Left, two: Left) -> Result<Machine, AllocError> {
        let outside = self.outside.copy(kept)?;
        let disks = self.disks.crashed(kept, one, two);
        Ok(self.with(kept, disks, outside))
    }

    /// A disk holds these bytes.
    pub fn set_bytes(&mut self, side: Side, bytes: Bytes) {
        let none = List::new(self.alloc);
        self.disks.set(self.alloc, side, bytes, none);
    }

    /// These calls of a disk fail, counted from now on.
    pub fn fail_disk(&mut self, kept: &mut Kept, side: Side, failing: List<u64>) {
        let bytes = kept.bytes_of(self.disks.bytes(side));
        self.disks.set(self.alloc, side, bytes, failing);
    }

    /// These calls of the shelf fail, counted from now on.
    pub fn fail_shelf(&mut self, kept: &mut Kept, failing: List<u64>) {
        let files = copied(kept, &self.files);
        put(&mut self.shelf, MemoryShelf::new(files, failing));
    }

    /// These calls of the sink fail, counted from now on.
    pub fn fail_sink(&mut self, failing: List<u64>) {
        let sink = sink_of(self.alloc, self.sink.most, failing);
        put(&mut self.sink, sink);
    }

    /// The sink takes at most so many bytes in a call.
    pub fn sip(&mut self, most: usize) {
        self.sink.most = most;
    }

    /// The transport is a new one with this table, and the clock one that stands at 0.
    pub fn set_table(&mut self, table: Table) -> Result<(), AllocError> {
        put(&mut self.outside, Outside::new(self.alloc, table)?);
        put(&mut self.clock, Clock::new(self.alloc));
        Ok(())
    }

    /// The shelf has a file of this name, and none of its calls fails.
    pub fn set_file(&mut self, kept: &mut Kept, name: Text, content: Bytes) {
        kept.keep(self.files.set(name, content));
        self.fail_shelf(kept, List::new(self.alloc));
    }

    /// What the sink took behind so many bytes.
    fn written_behind(&self, kept: &mut Kept, before: usize) -> Bytes {
        let all = self.sink.inner.bytes();
        kept.bytes_of(all.get(before..).unwrap_or(&[]))
    }

    /// Calls a program with these words.
    pub fn call<P: Program>(&mut self, kept: &mut Kept, program: &P, words: &Words) -> Called {
        let before = self.sink.inner.bytes().len();
        let faults = self.outside.faults();
        let status = program.call(
            self.alloc,
            words,
            &mut self.shelf,
            &mut self.sink,
            &mut self.disks.one,
            &mut self.disks.two,
            &mut self.outside,
            &mut self.clock,
        );
        Called {
            status,
            text: self.written_behind(kept, before),
            is_failed: self.outside.faults() != faults,
        }
    }
}
