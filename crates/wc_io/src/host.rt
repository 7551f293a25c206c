//! The adapters to the real outside. Each tells what the system answered, by a record that no memory holds.
ghost use Rattle.std.specs.Prelude.{◌≡◌, ◌<◌, ◌≤◌, ◌++◌, ◌∷◌, [], length, take, false, is_none, is_some, IfSome, IfOk, OnErr, IsTrue};
ghost use Rattle.std.specs.Duration.{as_nanos};
ghost use Rattle.std.specs.Io.KnownBytes.{WriteAppends, ReadConsumes};
ghost use Rattle.wc_io.specs.Counts.{CountsFault, CountsReadFault};
ghost use Rattle.wc_io.specs.Events.{opening, piece_of, ending, missing, refusing, telling, resting, all_bytes, was_said, asked_names, pieces, opened, Answered, KeepsAnswers};

use crate::pacer::Pacer;
use crate::record::Record;
use crate::shelf::{Shelf, ShelfError};
use crate::sink::{Failed, Sink};
use std::alloc::Global;
use std::io::{Read, Write};
use std::rt::{Clock, Files};
use std::time::{Duration, SystemTime, UNIX_EPOCH};
use std::{fs, io, thread};
use wc_value::{Bytes, List, Text};

/// The most bytes that a file on a shelf may have.
const MOST_BYTES: usize = 16 * 1024 * 1024;

/// How many bytes one read asks for.
const PIECE: usize = 64 * 1024;

/// Opening a file.
const OPENED: u64 = 0;

/// A piece of the file that was opened last.
const PIECE_OF: u64 = 1;

/// The end of the file that was opened last.
const ENDED: u64 = 2;

/// That there is no such file.
const MISSING: u64 = 3;

/// That a file couldn't be opened.
const REFUSED: u64 = 4;

/// Files of the system, each by its path. A file of more than 16 MiB counts as a fault. It tells each content that the
/// system answered.
#[derive(Drop)]
pub struct FileShelf<R: Drop> {
    rt: R,
    log: Record,
    faults: u64,
    failed: bool,
}

impl<R: Files + Drop> FileShelf<R> {
    /// The files that this runtime reaches.
    pub fn new(rt: R) -> FileShelf<R>
        // It is of this runtime, counts no fault, and its last call has not failed.
        ensures fresh { (result.rt ≡ rt) × (result.faults ≡ 0) × (result.failed ≡ false) }
        // It was asked for nothing.
        ensures unasked { result.log.events ≡ [] }
        // It doesn't tell its contents.
        ensures untold { ⟦<FileShelf<R> as Shelf>⟧.contents result ≡ None }
    {
        FileShelf {
            rt,
            log: Record::new(),
            faults: 0,
            failed: false,
        }
    }
}

/// Whether the system says that there is no file of this name: it isn't there, what should be its folder isn't one, or it
/// is longer than a name may be.
fn is_missing(kind: io::ErrorKind) -> bool {
    matches!(
        kind,
        io::ErrorKind::NotFound | io::ErrorKind::NotADirectory | io::ErrorKind::InvalidFilename
    )
}

/// Opens a file once, and keeps its name, or that it isn't there.
fn open<R: Files>(rt: &R, log: &mut Record, name: &Text) -> Result<Option<R::File>, ShelfError>
    ensures opened { IfOk result (λ file. IsTrue (is_some file) → log.new.events ≡ opening name.now ∷ log.old.events) }
    ensures missing { IfOk result (λ file. IsTrue (is_none file) → log.new.events ≡ missing name.now ∷ log.old.events) }
    ensures refused { OnErr result (log.new.events ≡ refusing name.now ∷ log.old.events) }
{
    match fs::open(rt, name.as_str()) {
        Ok(file) => {
            log.note(&[OPENED], name.bytes(), &[]);
            Ok(Some(file))
        }
        Err(error) if is_missing(error.kind()) => {
            log.note(&[MISSING], name.bytes(), &[]);
            Ok(None)
        }
        Err(_) => {
            log.note(&[REFUSED], name.bytes(), &[]);
            Err(ShelfError::Failed)
        }
    }
}

/// Reads once from a file, and keeps the piece, or that it has ended.
fn read_once<F: Read>(file: &mut F, log: &mut Record, into: &mut [u8]) -> io::Result<usize>
    ensures called { ReadConsumes (F.remaining file.old) (F.remaining file.new) result into.new }
    ensures within { IfOk result (λ n. n ≤ length into.new) }
    ensures length { length into.new ≡ length into.old }
    ensures ended { IfOk result (λ n. n ≡ 0 → log.new.events ≡ ending ∷ log.old.events) }
    ensures piece { IfOk result (λ n. 0 < n → log.new.events ≡ piece_of (take n into.new) ∷ log.old.events) }
    ensures kept { OnErr result (log.new.events ≡ log.old.events) }
{
    let count = file.read(into)?;
    if count == 0 {
        log.note(&[ENDED], &[], &[]);
    } else {
        log.note(&[PIECE_OF], &[], &into[..count]);
    }
    Ok(count)
}

/// The rest of a file that was just opened, where it isn't too long.
fn read_rest(alloc: Global, file: &mut impl Read, log: &mut Record) -> Result<Bytes, ShelfError>
    requires { pieces log.now.events ≡ [] }
    ensures answered { IfOk result (λ content. Answered (opened log.old.events) (Some content) log.new.events) }
    ensures keeps { KeepsAnswers log.old.events log.new.events }
    ensures asked { asked_names log.new.events ≡ asked_names log.old.events }
{
    let mut content: Bytes = List::new(alloc);
    let mut piece = [0; PIECE];
    for _ in 0..u64::MAX {
        let count = match read_once(file, log, &mut piece) {
            Ok(count) => count,
            Err(error) if error.kind() == io::ErrorKind::Interrupted => continue,
            Err(_) => return Err(ShelfError::Failed),
        };
        if count == 0 {
            return Ok(content);
        }
        if count > MOST_BYTES - content.len().min(MOST_BYTES) {
            return Err(ShelfError::Failed);
        }
        content.extend(&piece[..count])?;
    }
    Err(ShelfError::Failed)
}

/// The content of a file, or none where there is no such file.
fn content_of<R: Files>(
    rt: &R,
    log: &mut Record,
    alloc: Global,
    name: &Text,
) -> Result<Option<Bytes>, ShelfError>
    ensures answered { IfOk result (λ answer. Answered name.now answer log.new.events) }
    ensures keeps { KeepsAnswers log.old.events log.new.events }
    ensures asked { asked_names log.new.events ≡ asked_names log.old.events ++ (name.now ∷ []) }
{
    match open(rt, log, name)? {
        None => Ok(None),
        Some(mut file) => Ok(Some(read_rest(alloc, &mut file, log)?)),
    }
}

impl<R: Files + Drop> Shelf for FileShelf<R> {
    ghost use Rattle.std.specs.Prelude.{None, IsTrue};
    ghost use Rattle.wc_io.specs.Events.{Answered, asked_names};

    ghost contents = { λ _. None };

    ghost asked = { λ shelf. asked_names shelf.log.events };

    ghost answered = { λ shelf asked answer. Answered asked answer shelf.log.events };

    ghost faults = { λ shelf. shelf.faults };

    ghost failed = { λ shelf. IsTrue shelf.failed };

    fn read(&mut self, alloc: Global, name: &Text) -> Result<Option<Bytes>, ShelfError> {
        self.failed = false;
        let outcome = content_of(&self.rt, &mut self.log, alloc, name);
        if let Err(ShelfError::Failed) = &outcome {
            self.failed = true;
            self.faults = self.faults.saturating_add(1);
        }
        outcome
    }
}

/// The standard output. It tells what the system said that it took.
#[derive(Drop)]
pub struct StdoutSink<R: Drop> {
    rt: R,
    log: Record,
    faults: u64,
    failed: bool,
}

impl<R: Print + Drop> StdoutSink<R> {
    ghost use Rattle.std.specs.Prelude.{Some};

    /// The standard output of this runtime.
    pub fn new(rt: R) -> StdoutSink<R>
        // It is of this runtime, counts no fault, and its last call has not failed.
        ensures fresh { (result.rt ≡ rt) × (result.faults ≡ 0) × (result.failed ≡ false) }
        // It has taken nothing.
        ensures untaken { ⟦<StdoutSink<R> as Sink>⟧.taken result ≡ Some [] }
    {
        StdoutSink {
            rt,
            log: Record::new(),
            faults: 0,
            failed: false,
        }
    }
}

impl<R: Print + Drop> Sink for StdoutSink<R> {
    ghost use Rattle.std.specs.Prelude.{Some, IsTrue};
    ghost use Rattle.wc_io.specs.Events.{all_bytes};

    ghost taken = { λ sink. Some (all_bytes sink.log.events) };

    ghost faults = { λ sink. sink.faults };

    ghost failed = { λ sink. IsTrue sink.failed };

    fn write(&mut self, bytes: &[u8]) -> Result<usize, Failed> {
        self.failed = false;
        if bytes.is_empty() {
            return Ok(0);
        }
        match write_some(&self.rt, &mut self.log, bytes) {
            Some(count) => Ok(count),
            None => {
                self.failed = true;
                self.faults = self.faults.saturating_add(1);
                Err(Failed)
            }
        }
    }
}

/// Writes once, and keeps how much was taken.
fn put<W: Write>(out: &mut W, log: &mut Record, bytes: &[u8]) -> io::Result<usize>
    ensures called { WriteAppends (W.contents out.old) (W.contents out.new) result bytes.now }
    ensures within { IfOk result (λ n. n ≤ length bytes.now) }
    ensures taken { IfOk result (λ n. all_bytes log.new.events ≡ all_bytes log.old.events ++ take n bytes.now) }
    ensures kept { OnErr result (log.new.events ≡ log.old.events) }
{
    let count = out.write(bytes)?;
    log.note(&[], &[], &bytes[..count]);
    Ok(count)
}

/// Writes some of the bytes, and answers how many, if the system took any.
fn write_some<R: Print>(rt: &R, log: &mut Record, bytes: &[u8]) -> Option<usize>
    ensures some { IfSome result (λ n. 0 < n) }
    ensures within { IfSome result (λ n. n ≤ length bytes.now) }
    ensures taken { IfSome result (λ n. all_bytes log.new.events ≡ all_bytes log.old.events ++ take n bytes.now) }
    ensures kept { IsTrue (is_none result) → all_bytes log.new.events ≡ all_bytes log.old.events }
{
    for _ in 0..u64::MAX {
        match put(&mut io::writer(rt), log, bytes) {
            Ok(0) => return None,
            Ok(count) => return Some(count),
            Err(error) if error.kind() == io::ErrorKind::Interrupted => {}
            Err(_) => return None,
        }
    }
    None
}

/// The system's wall clock, in milliseconds since 1970. It tells each moment that the system answered.
#[derive(Drop)]
pub struct ClockPacer<R: Drop> {
    rt: R,
    log: Record,
    last: u64,
    told: u64,
    rests: u64,
    ghost known: { IsTrue (was_said last log.events) },
}

impl<R: Clock + Drop> ClockPacer<R> {
    /// The clock of this runtime.
    pub fn new(rt: R) -> ClockPacer<R>
        // It is of this runtime, and counts no moment that was told and no rest.
        ensures fresh { (result.rt ≡ rt) × (result.last ≡ 0) × (result.told ≡ 0) × (result.rests ≡ 0) }
        // The clock wasn't read.
        ensures unsaid { result.log.events ≡ [] }
    {
        ClockPacer {
            rt,
            log: Record::new(),
            last: 0,
            told: 0,
            rests: 0,
        }
    }
}

/// That the clock was read.
const SAID: u64 = 0;

/// That a rest was taken.
const RESTED: u64 = 1;

/// Reads the clock once, and keeps what it said.
fn moment<R: Clock>(rt: &R, log: &mut Record) -> Option<u64>
    ensures said { IfSome result (λ moment. log.new.events ≡ telling moment ∷ log.old.events) }
    ensures kept { IsTrue (is_none result) → log.new.events ≡ log.old.events }
{
    let since = SystemTime::now(rt).ok()?.duration_since(UNIX_EPOCH).ok()?;
    let moment = u64::try_from(since.as_millis()).ok()?;
    log.note(&[SAID, moment], &[], &[]);
    Some(moment)
}

/// Sleeps once, and keeps for how long.
fn sleep<R: Clock>(rt: &R, log: &mut Record, time: Duration)
    ensures { log.new.events ≡ resting (as_nanos time) ∷ log.old.events }
{
    thread::sleep(rt, time);
    log.note(
        &[RESTED, time.as_secs(), u64::from(time.subsec_nanos())],
        &[],
        &[],
    );
}

impl<R: Clock + Drop> Pacer for ClockPacer<R> {
    ghost use Rattle.std.specs.Prelude.{IsTrue, None, Some};
    ghost use Rattle.wc_io.specs.Events.{was_said, all_rests};

    ghost last = { λ pacer. pacer.last };

    ghost told = { λ pacer. pacer.told };

    ghost rests = { λ pacer. pacer.rests };

    ghost slept = { λ pacer. Some (all_rests pacer.log.events) };

    ghost said = { λ pacer moment. IsTrue (was_said moment pacer.log.events) };

    ghost least = { λ _. None };

    /// Where the clock can't be read it is the last moment again.
    fn now(&mut self) -> u64 {
        if let Some(moment) = moment(&self.rt, &mut self.log) {
            self.last = moment;
        }
        self.told = self.told.saturating_add(1);
        self.last
    }

    fn rest(&mut self, ms: u64) {
        sleep(&self.rt, &mut self.log, Duration::from_millis(ms));
        self.rests = self.rests.saturating_add(1);
    }
}
