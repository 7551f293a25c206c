//! The forms in memory, for tests and the drill.
ghost use Rattle.std.specs.Prelude.{◌≡◌, ◌↔◌, [], ◌++◌, ◌+◌, ◌-◌, ◌^◌, ◌≤◌, ℕ, min, length, is_err, false, if◌then◌else◌, IsTrue, IsErr, IsErrOf, IfOk, OnOk, OnErr};
ghost use Rattle.wc_value.specs.Ascending.{lookup};
ghost use Rattle.wc_io.specs.Counts.{counted, CountsFault, CountsReadFault, RisesByOne};
ghost use Rattle.wc_io.specs.Schedule.{fails_next, after_call, Advances};

use crate::pacer::Pacer;
use crate::record::Record;
use crate::schedule::{Failing, Schedule};
use crate::shelf::{Shelf, ShelfError};
use crate::sink::{Failed, Sink};
use std::alloc::Global;
use wc_value::{Bytes, Duplicate, Files, List, Text};

/// A read, by the name that was asked for.
const ASKED: u64 = 0;

/// Files in memory.
#[derive(Drop)]
pub struct MemoryShelf {
    files: Files,
    schedule: Schedule,
    log: Record,
}

impl MemoryShelf {
    ghost use Rattle.wc_io.specs.Memory.{files_of, shelf_schedule, fresh};

    /// A shelf of these files, whose reads with the listed numbers fail.
    pub fn new(files: Files, failing: Failing) -> MemoryShelf
        // It has these files.
        ensures files { files_of result ≡ files }
        // These calls will fail, and none was made yet.
        ensures schedule { shelf_schedule result ≡ fresh failing }
        // It was asked for nothing.
        ensures unasked { ⟦<MemoryShelf as Shelf>⟧.asked result ≡ [] }
    {
        MemoryShelf {
            files,
            schedule: Schedule::new(failing),
            log: Record::new(),
        }
    }
}

impl Shelf for MemoryShelf {
    ghost use Rattle.std.specs.Prelude.{◌≡◌, ◌++◌, [], ◌∷◌, Some, IsTrue};
    ghost use Rattle.wc_value.specs.Ascending.{lookup};
    ghost use Rattle.wc_io.specs.Events.{asked_names};

    ghost contents = { λ shelf. Some (λ name. lookup name shelf.files) };

    ghost asked = { λ shelf. asked_names shelf.log.events };

    ghost answered = { λ shelf asked answer. answer ≡ lookup asked shelf.files };

    ghost faults = { λ shelf. shelf.schedule.faults };

    ghost failed = { λ shelf. IsTrue shelf.schedule.failed };

    /// Fails exactly where the schedule says so.
    fn read(&mut self, _alloc: Global, name: &Text) -> Result<Option<Bytes>, ShelfError>
        ensures content { IfOk result (λ answer. answer ≡ lookup name.now self.old.files) }
        ensures kept { self.new.files ≡ self.old.files }
        ensures asked { asked_names self.new.log.events ≡ asked_names self.old.log.events ++ (name.now ∷ []) }
        ensures cause { CountsReadFault result self.old.schedule.faults self.new.schedule.faults (IsTrue self.new.schedule.failed) }
        // It fails exactly where it is listed or the fuse is blown.
        ensures fails { IsErrOf result ShelfError.Failed ↔ IsTrue (fails_next self.old.schedule) }
        // The call is counted, and whether it failed is kept.
        ensures schedule { self.new.schedule ≡ after_call self.old.schedule }
    {
        self.log.note(&[ASKED], name.bytes(), &[]);
        if let Err(Failed) = self.schedule.call() {
            return Err(ShelfError::Failed);
        }
        match self.files.find(name.bytes()) {
            None => Ok(None),
            Some(content) => Ok(Some(content.copy()?)),
        }
    }
}

/// A place for bytes in memory.
#[derive(Drop)]
pub struct MemorySink {
    bytes: Bytes,
    schedule: Schedule,
    starved: u64,
}

impl MemorySink {
    ghost use Rattle.wc_io.specs.Memory.{bytes_of, sink_schedule, starved_of, fresh};

    /// An empty place, whose writes with the listed numbers fail.
    pub fn new(alloc: Global, failing: Failing) -> MemorySink
        // It has taken nothing.
        ensures bytes { bytes_of result ≡ [] }
        // These calls will fail, and none was made yet.
        ensures schedule { sink_schedule result ≡ fresh failing }
        // Memory never ran out in it.
        ensures starved { starved_of result ≡ 0 }
    {
        MemorySink {
            bytes: List::new(alloc),
            schedule: Schedule::new(failing),
            starved: 0,
        }
    }

    /// The bytes taken.
    pub fn bytes(&self) -> &[u8]
        ensures { result.now ≡ bytes_of self.now }
    {
        self.bytes.bytes()
    }

    /// How often a write failed for want of memory.
    pub fn starved(&self) -> u64
        ensures { result ≡ starved_of self.now }
    {
        self.starved
    }
}

impl Sink for MemorySink {
    ghost use Rattle.std.specs.Prelude.{Some, IsTrue};

    ghost taken = { λ sink. Some sink.bytes };

    ghost faults = { λ sink. sink.schedule.faults };

    ghost failed = { λ sink. IsTrue sink.schedule.failed };

    /// Takes all bytes. Fails where the schedule says so, and where no memory is left for them.
    fn write(&mut self, bytes: &[u8]) -> Result<usize, Failed>
        // Where it is Ok, all bytes were taken.
        ensures all { IfOk result (λ n. n ≡ length bytes.now) }
        ensures taken { OnOk result (self.new.bytes ≡ self.old.bytes ++ bytes.now) }
        ensures kept { OnErr result (self.new.bytes ≡ self.old.bytes) }
        ensures cause { CountsFault result self.old.schedule.faults self.new.schedule.faults (IsTrue self.new.schedule.failed) }
        // That the last call failed is known exactly where it did.
        ensures failed { self.new.schedule.failed ≡ is_err result }
        // The call is counted.
        ensures schedule { Advances self.old.schedule self.new.schedule }
        // It fails where it is listed.
        ensures listed { IsTrue (fails_next self.old.schedule) → IsErr result × (self.new.starved ≡ self.old.starved) }
        // Elsewhere it fails where no memory was left, and that is counted.
        ensures unlisted { fails_next self.old.schedule ≡ false → self.new.starved ≡ (if is_err result then counted self.old.starved else self.old.starved) }
    {
        self.schedule.call()?;
        if self.bytes.extend(bytes).is_err() {
            self.schedule.count_fault();
            self.starved = self.starved.saturating_add(1);
            return Err(Failed);
        }
        Ok(bytes.len())
    }
}

/// A clock in memory, which moves by its rests alone.
#[derive(Drop)]
pub struct MemoryPacer {
    moment: u64,
    last: u64,
    told: u64,
    rests: u64,
}

impl MemoryPacer {
    ghost use Rattle.wc_io.specs.Memory.{moment_of};

    /// A clock that stands at this moment.
    pub fn new(start: u64) -> MemoryPacer
        ensures { result ≡ record { moment = start; last = 0; told = 0; rests = 0 } }
    {
        MemoryPacer {
            moment: start,
            last: 0,
            told: 0,
            rests: 0,
        }
    }
}

impl Pacer for MemoryPacer {
    ghost use Rattle.std.specs.Prelude.{◌≤◌, Some};

    ghost last = { λ pacer. pacer.last };

    ghost told = { λ pacer. pacer.told };

    ghost rests = { λ pacer. pacer.rests };

    ghost said = { λ pacer moment. moment ≤ pacer.moment };

    ghost least = { λ pacer. Some pacer.moment };

    fn now(&mut self) -> u64
        // It tells the moment at which it stands.
        ensures moment { result ≡ self.old.moment }
        // It stands there still.
        ensures kept { self.new.moment ≡ self.old.moment }
        ensures last { self.new.last ≡ result }
        ensures told { RisesByOne self.old.told self.new.told }
        ensures rests { self.new.rests ≡ self.old.rests }
    {
        self.last = self.moment;
        self.told = self.told.saturating_add(1);
        self.moment
    }

    fn rest(&mut self, ms: u64)
        ensures moment { self.new.moment ≡ min (self.old.moment + ms) (2 ^ 64 - 1) }
        ensures last { self.new.last ≡ self.old.last }
        ensures told { self.new.told ≡ self.old.told }
        ensures rests { RisesByOne self.old.rests self.new.rests }
        ensures keeps { (t : ℕ) → t ≤ self.old.moment → t ≤ self.new.moment }
    {
        self.moment = self.moment.saturating_add(ms);
        self.rests = self.rests.saturating_add(1);
    }
}
