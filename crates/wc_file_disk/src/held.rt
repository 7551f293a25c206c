//! A file of the system, opened once and held under its lock from then on.
ghost use Rattle.std.specs.Prelude.{◌≡◌, ◌≤◌, ◌+◌, true, false, [], length, take, drop, max, min, IfOk, OnOk, OnErr, IsTrue};
ghost use Rattle.wc_disk.specs.Steps.{overwritten};
ghost use Rattle.wc_file_disk.specs.Calls.{calls_of, is_open, is_held as holds_lock, is_missing, is_locked_or_missing, is_flushed, floor};
ghost use Rattle.wc_file_disk.specs.Holds.{Between, Keeps};

use crate::system::SystemFile;
use std::fs::File;
use std::io;
use std::rt::Files;

/// A file that is opened and locked at the first call, and made at the first write where it wasn't there. A missing file has
/// length 0, and a sync of it does nothing.
#[derive(Drop)]
pub struct HeldFile<R: Drop> {
    file: SystemFile<R>,
    is_held: bool,
    looked: bool,
    // A length that the file is known to have: nothing else cuts it while it is locked.
    known: u64,
    ghost held: { is_held ≡ holds_lock (calls_of file.log.events) },
    ghost reaches: { known ≤ floor (calls_of file.log.events) },
}

/// The fault of a call outside the file's bounds.
fn out_of_bounds() -> io::Error {
    io::Error::from(io::ErrorKind::InvalidInput)
}

/// The fault of a file that was missing, and that another program has made or written since.
fn overtaken() -> io::Error {
    io::Error::from(io::ErrorKind::AlreadyExists)
}

/// Locks a file that was just opened, whose name is on the disk then, and whose descriptor is none of the standard streams'.
fn hold<R: Files<File = File> + Drop>(file: &mut SystemFile<R>) -> io::Result<()>
    requires open { is_open (calls_of file.old.log.events) ≡ true }
    ensures path { file.new.path ≡ file.old.path }
    ensures held { OnOk result (holds_lock (calls_of file.new.log.events) ≡ true) }
    ensures shut { OnErr result (holds_lock (calls_of file.new.log.events) ≡ false) }
    ensures floor { floor (calls_of file.new.log.events) ≡ floor (calls_of file.old.log.events) }
    ensures kept { Keeps (calls_of file.old.log.events) (calls_of file.new.log.events) }
{
    file.set_apart()?;
    file.sync_name()?;
    file.lock()
}

/// Opens and locks a file, and answers whether it is there.
fn open_existing<R: Files<File = File> + Drop>(file: &mut SystemFile<R>) -> io::Result<bool>
    requires shut { holds_lock (calls_of file.old.log.events) ≡ false }
    ensures path { file.new.path ≡ file.old.path }
    ensures held { IfOk result (λ there. there ≡ holds_lock (calls_of file.new.log.events)) }
    ensures shut { OnErr result (holds_lock (calls_of file.new.log.events) ≡ false) }
    ensures flushed { IfOk result (λ there. there ≡ false → is_flushed (calls_of file.new.log.events) ≡ true) }
    ensures missing { IfOk result (λ there. there ≡ false → is_missing (calls_of file.new.log.events) ≡ true) }
    ensures empty { IfOk result (λ there. there ≡ false → Between (calls_of file.old.log.events) (calls_of file.new.log.events) (λ before after. before ≡ [])) }
    ensures floor { floor (calls_of file.new.log.events) ≡ floor (calls_of file.old.log.events) }
    ensures kept { Keeps (calls_of file.old.log.events) (calls_of file.new.log.events) }
{
    if !file.open()? {
        return Ok(false);
    }
    hold(file)?;
    Ok(true)
}

/// Whether a file that was just locked is empty. It is closed again where it isn't, or where that can't be told.
fn is_new<R: Files<File = File> + Drop>(file: &mut SystemFile<R>) -> io::Result<()>
    requires held { holds_lock (calls_of file.old.log.events) ≡ true }
    ensures path { file.new.path ≡ file.old.path }
    ensures held { OnOk result (holds_lock (calls_of file.new.log.events) ≡ true) }
    ensures shut { OnErr result (holds_lock (calls_of file.new.log.events) ≡ false) }
    ensures empty { OnOk result (Between (calls_of file.old.log.events) (calls_of file.new.log.events) (λ before after. before ≡ [])) }
    ensures kept { Keeps (calls_of file.old.log.events) (calls_of file.new.log.events) }
{
    let length = file.len();
    match length {
        Ok(0) => Ok(()),
        Ok(_) => {
            file.close();
            Err(overtaken())
        }
        Err(error) => {
            file.close();
            Err(error)
        }
    }
}

/// Makes the file for a first write at this offset. Another program may have written it since it was looked for, so it is
/// looked at once more under the lock: it has to be empty.
fn make<R: Files<File = File> + Drop>(file: &mut SystemFile<R>, at: u64) -> io::Result<()>
    requires shut { holds_lock (calls_of file.old.log.events) ≡ false }
    ensures path { file.new.path ≡ file.old.path }
    ensures held { OnOk result (holds_lock (calls_of file.new.log.events) ≡ true) }
    ensures shut { OnErr result (holds_lock (calls_of file.new.log.events) ≡ false) }
    ensures empty { OnOk result (Between (calls_of file.old.log.events) (calls_of file.new.log.events) (λ before after. before ≡ [])) }
    ensures kept { Keeps (calls_of file.old.log.events) (calls_of file.new.log.events) }
{
    if at > 0 {
        return Err(out_of_bounds());
    }
    file.create()?;
    hold(file)?;
    is_new(file)
}

/// Fills `into` from an offset on, in as many reads as the system wants.
fn read_all<R: Files<File = File> + Drop>(
    file: &mut SystemFile<R>,
    at: u64,
    into: &mut [u8],
) -> io::Result<()>
    requires held { holds_lock (calls_of file.old.log.events) ≡ true }
    ensures path { file.new.path ≡ file.old.path }
    ensures held { holds_lock (calls_of file.new.log.events) ≡ true }
    ensures floor { floor (calls_of file.new.log.events) ≡ floor (calls_of file.old.log.events) }
    ensures bytes { OnOk result (Between (calls_of file.old.log.events) (calls_of file.new.log.events) (λ before after. into.new ≡ take (length into.old) (drop at before))) }
    ensures kept { Keeps (calls_of file.old.log.events) (calls_of file.new.log.events) }
{
    if into.len() as u64 > u64::MAX - at {
        return Err(out_of_bounds());
    }
    let mut done = 0;
    for _ in 0..u64::MAX {
        if done >= into.len() {
            return Ok(());
        }
        let Some(count) = file.read_some(at + done as u64, &mut into[done..])? else {
            continue;
        };
        if count == 0 {
            return Err(io::Error::from(io::ErrorKind::UnexpectedEof));
        }
        done += count;
    }
    Err(io::Error::from(io::ErrorKind::TimedOut))
}

/// Writes all bytes at an offset, in as many writes as the system wants.
fn write_all<R: Files<File = File> + Drop>(
    file: &mut SystemFile<R>,
    at: u64,
    bytes: &[u8],
) -> io::Result<()>
    requires held { holds_lock (calls_of file.old.log.events) ≡ true }
    requires within { at ≤ floor (calls_of file.old.log.events) }
    ensures path { file.new.path ≡ file.old.path }
    ensures held { holds_lock (calls_of file.new.log.events) ≡ true }
    ensures floor { floor (calls_of file.old.log.events) ≤ floor (calls_of file.new.log.events) }
    ensures reaches { OnOk result (at + length bytes.now ≤ floor (calls_of file.new.log.events)) }
    ensures written { OnOk result (Between (calls_of file.old.log.events) (calls_of file.new.log.events) (λ before after. after ≡ overwritten at bytes.now before)) }
{
    if bytes.len() as u64 > u64::MAX - at {
        return Err(out_of_bounds());
    }
    let mut done = 0;
    for _ in 0..u64::MAX {
        if done >= bytes.len() {
            return Ok(());
        }
        let Some(taken) = file.write_some(at + done as u64, &bytes[done..])? else {
            continue;
        };
        if taken == 0 {
            return Err(io::Error::from(io::ErrorKind::WriteZero));
        }
        done += taken;
    }
    Err(io::Error::from(io::ErrorKind::TimedOut))
}

impl<R: Files<File = File> + Drop> HeldFile<R> {
    /// A file that no call was made of.
    pub fn new(file: SystemFile<R>) -> HeldFile<R>
        // No call of the file was made.
        requires { calls_of file.log.events ≡ [] }
        ensures { result.file ≡ file }
    {
        HeldFile {
            file,
            is_held: false,
            looked: false,
            known: 0,
        }
    }

    /// Opens the file, where it is there, at the first call, and answers whether it is open. One that was missing then has to
    /// be missing at each later call, until it is made here.
    fn open_once(&mut self) -> io::Result<bool>
        ensures path { self.new.file.path ≡ self.old.file.path }
        ensures known { self.new.known ≡ self.old.known }
        ensures floor { floor (calls_of self.new.file.log.events) ≡ floor (calls_of self.old.file.log.events) }
        ensures held { IfOk result (λ there. there ≡ self.new.is_held) }
        ensures flushed { IfOk result (λ there. there ≡ false → is_flushed (calls_of self.new.file.log.events) ≡ true) }
        ensures missing { IfOk result (λ there. there ≡ false → is_missing (calls_of self.new.file.log.events) ≡ true) }
        ensures empty { IfOk result (λ there. there ≡ false → Between (calls_of self.old.file.log.events) (calls_of self.new.file.log.events) (λ before after. before ≡ [])) }
        ensures kept { Keeps (calls_of self.old.file.log.events) (calls_of self.new.file.log.events) }
    {
        if self.is_held {
            return Ok(true);
        }
        if self.looked {
            return if self.file.is_missing()? {
                Ok(false)
            } else {
                Err(overtaken())
            };
        }
        self.is_held = open_existing(&mut self.file)?;
        self.looked = true;
        Ok(self.is_held)
    }

    /// The number of bytes.
    pub fn len(&mut self) -> io::Result<u64>
        // The path stays.
        ensures path { self.new.file.path ≡ self.old.file.path }
        // The length is that of what the file held before, in each history that agrees with all answers.
        ensures len { IfOk result (λ n. Between (calls_of self.old.file.log.events) (calls_of self.new.file.log.events) (λ before after. n ≡ length before)) }
        // A file that isn't there has the length 0.
        ensures missing { IfOk result (λ n. self.new.is_held ≡ false → n ≡ 0) }
        // The length of a locked file is known from then on.
        ensures known { IfOk result (λ n. self.new.is_held ≡ true → self.new.known ≡ n) }
        // What the file held stays, in each history that agrees with all answers.
        ensures kept { Keeps (calls_of self.old.file.log.events) (calls_of self.new.file.log.events) }
        // It is Ok only of a file that is open and locked, or that isn't there.
        ensures locked { OnOk result (is_locked_or_missing (calls_of self.new.file.log.events) ≡ true) }
    {
        if !self.open_once()? {
            return Ok(0);
        }
        self.known = 0;
        let len = self.file.len()?;
        self.known = len;
        Ok(len)
    }

    /// Fills `into` with the bytes from this offset on.
    pub fn read(&mut self, at: u64, into: &mut [u8]) -> io::Result<()>
        // The path stays.
        ensures path { self.new.file.path ≡ self.old.file.path }
        // The bytes are those of what the file held before, in each history that agrees with all answers.
        ensures bytes { OnOk result (Between (calls_of self.old.file.log.events) (calls_of self.new.file.log.events) (λ before after. into.new ≡ take (length into.old) (drop at before))) }
        // What the file held stays, in each history that agrees with all answers.
        ensures kept { Keeps (calls_of self.old.file.log.events) (calls_of self.new.file.log.events) }
        // It is Ok only of a file that is open and locked, or that isn't there.
        ensures locked { OnOk result (is_locked_or_missing (calls_of self.new.file.log.events) ≡ true) }
    {
        if self.open_once()? {
            return read_all(&mut self.file, at, into);
        }
        if at == 0 && into.is_empty() {
            return Ok(());
        }
        Err(out_of_bounds())
    }

    /// Opens the file, or makes it for a first write at this offset.
    fn open_for(&mut self, at: u64) -> io::Result<()>
        ensures path { self.new.file.path ≡ self.old.file.path }
        ensures held { OnOk result (self.new.is_held ≡ true) }
        ensures kept { Keeps (calls_of self.old.file.log.events) (calls_of self.new.file.log.events) }
    {
        if self.open_once()? {
            return Ok(());
        }
        self.known = 0;
        make(&mut self.file, at)?;
        self.is_held = true;
        Ok(())
    }

    /// That the file is known to reach to this offset. The system is asked for its length only where that isn't known.
    fn reach(&mut self, at: u64) -> io::Result<()>
        requires held { self.old.is_held ≡ true }
        ensures path { self.new.file.path ≡ self.old.file.path }
        ensures held { self.new.is_held ≡ true }
        ensures within { OnOk result (at ≤ self.new.known) }
        ensures kept { Keeps (calls_of self.old.file.log.events) (calls_of self.new.file.log.events) }
    {
        if at <= self.known {
            return Ok(());
        }
        self.known = 0;
        let len = self.file.len()?;
        self.known = len;
        if at > len {
            return Err(out_of_bounds());
        }
        Ok(())
    }

    /// Writes over what is there, and past the end, where the file reaches so far.
    pub fn write_at(&mut self, at: u64, bytes: &[u8]) -> io::Result<()>
        // The path stays.
        ensures path { self.new.file.path ≡ self.old.file.path }
        // The file holds what it held, with these bytes written over it, in each such history.
        ensures written { OnOk result (Between (calls_of self.old.file.log.events) (calls_of self.new.file.log.events) (λ before after. after ≡ overwritten at bytes.now before)) }
        // It is Ok only of a file that is open and locked.
        ensures locked { OnOk result (holds_lock (calls_of self.new.file.log.events) ≡ true) }
    {
        self.open_for(at)?;
        self.reach(at)?;
        write_all(&mut self.file, at, bytes)?;
        self.known = self.known.max(at.saturating_add(bytes.len() as u64));
        Ok(())
    }

    /// Cuts the file to a length that it has.
    pub fn cut(&mut self, len: u64) -> io::Result<()>
        // The path stays.
        ensures path { self.new.file.path ≡ self.old.file.path }
        // The file holds what it held, cut to this length, in each such history.
        ensures shorter { OnOk result (Between (calls_of self.old.file.log.events) (calls_of self.new.file.log.events) (λ before after. after ≡ take len before)) }
        // It is Ok only of a file that is open and locked, or that isn't there.
        ensures locked { OnOk result (is_locked_or_missing (calls_of self.new.file.log.events) ≡ true) }
    {
        let there = self.len()?;
        if len > there {
            return Err(out_of_bounds());
        }
        if !self.is_held {
            return Ok(());
        }
        self.known = len;
        self.file.set_len(len)
    }

    /// Brings the bytes to the disk.
    pub fn sync(&mut self) -> io::Result<()>
        // The path stays.
        ensures path { self.new.file.path ≡ self.old.file.path }
        // The last call brought all to the disk, or found no file.
        ensures flushed { OnOk result (is_flushed (calls_of self.new.file.log.events) ≡ true) }
        // What the file held stays, in each history that agrees with all answers.
        ensures kept { Keeps (calls_of self.old.file.log.events) (calls_of self.new.file.log.events) }
        // It is Ok only of a file that is open and locked, or that isn't there.
        ensures locked { OnOk result (is_locked_or_missing (calls_of self.new.file.log.events) ≡ true) }
    {
        if !self.open_once()? {
            return Ok(());
        }
        self.file.sync()
    }
}
