//! One file of the system. Each method makes one call of the system, and keeps it with its answer.
ghost use Rattle.std.specs.Prelude.{◌≡◌, ◌≤◌, min, true, false, [], ◌∷◌, length, take, is_none, IfOk, IfSome, OnOk, OnErr, IsTrue, if◌then◌else◌};
ghost use Rattle.wc_file_disk.specs.Calls.{calls_of, is_open, is_apart, is_named, is_held, floor};
ghost use Rattle.wc_file_disk.specs.Calls.FileCall.{opened, missing, created, apart, named, locked, closed, measured, read as read_piece, wrote, failed_to_write, cut, failed_to_cut, synced};

use std::fs::{File, OpenOptions};
use std::os::fd::AsRawFd;
use std::os::unix::fs::FileExt;
use std::path::Path;
use std::rt::Files;
use std::{fs, io};
use wc_io::Record;
use wc_value::Text;

const OPENED: u64 = 0;

const MISSING: u64 = 1;

const CREATED: u64 = 2;

const APART: u64 = 3;

const NAMED: u64 = 4;

const LOCKED: u64 = 5;

const CLOSED: u64 = 6;

const MEASURED: u64 = 7;

const READ: u64 = 8;

const WROTE: u64 = 9;

const FAILED_TO_WRITE: u64 = 10;

const CUT: u64 = 11;

const FAILED_TO_CUT: u64 = 12;

const SYNCED: u64 = 13;

/// A file of the system, by its path, and what was answered of it. Its content is read and changed only under its lock.
#[derive(Drop)]
pub struct SystemFile<R: Drop> {
    rt: R,
    path: Text,
    file: Option<File>,
    // Whether the system was told to drop its copies of the file's pages.
    is_fresh: bool,
    log: Record,
}

/// The file, where one is open.
fn opened_file(file: &Option<File>) -> io::Result<&File> {
    match file {
        Some(file) => Ok(file),
        None => Err(io::Error::from(io::ErrorKind::NotFound)),
    }
}

/// Tells the system to drop its copies of the file's pages, so that a read gives what the disk has: behind a sync that failed in an
/// earlier program the system may hold pages that it never wrote as if they were on the disk. It is advice, and changes no answer.
fn forget_pages(file: &File) {
    let _ = libc::posix_fadvise(file.as_raw_fd(), 0, 0, libc::POSIX_FADV_DONTNEED);
}

/// The folder that the path lies in.
fn folder_of(path: &str) -> &str {
    match Path::new(path).parent() {
        Some(parent) if !parent.as_str().is_empty() => parent.as_str(),
        _ => ".",
    }
}

/// Brings the names in a folder to the disk.
fn sync_names<R: Files<File = File>>(rt: &R, folder: &str) -> io::Result<()> {
    fs::open(rt, folder)?.sync_all()
}

/// Brings the name of a file to the disk, and that of the folder that it lies in.
fn sync_name_of<R: Files<File = File>>(rt: &R, path: &str) -> io::Result<()> {
    let folder = folder_of(path);
    sync_names(rt, folder)?;
    sync_names(rt, folder_of(folder))
}

/// Makes a folder where it isn't there, and brings its name to the disk, or takes it away again.
fn make_folder<R: Files<File = File>>(rt: &R, folder: &str) -> io::Result<()> {
    if fs::exists(rt, folder)? {
        return Ok(());
    }
    fs::create_dir_all(rt, folder)?;
    let synced = sync_names(rt, folder_of(folder));
    if synced.is_err() {
        let _ = fs::remove_dir(rt, folder);
    }
    synced
}

/// Opens a file that is there, for reading alone where it can't be opened for writing. A write to it is a fault then.
fn open_any<R: Files<File = File>>(rt: &R, path: &str) -> io::Result<File> {
    match OpenOptions::new().read(true).write(true).open(rt, path) {
        Err(error)
            if matches!(
                error.kind(),
                io::ErrorKind::PermissionDenied | io::ErrorKind::ReadOnlyFilesystem
            ) => { fs::open(rt, path) }
        opened => opened,
    }
}

/// Makes the file and its folder, where they aren't there.
fn create_any<R: Files<File = File>>(rt: &R, path: &str) -> io::Result<File> {
    make_folder(rt, folder_of(path))?;
    OpenOptions::new()
        .read(true)
        .write(true)
        .create(true)
        .open(rt, path)
}

/// The answer, or none where a signal came before anything was done.
fn unless_interrupted<T: Drop>(outcome: io::Result<T>) -> io::Result<Option<T>>
    ensures { IfOk result (λ answer. IfSome answer (λ t. outcome ≡ Ok t)) }
{
    match outcome {
        Ok(answer) => Ok(Some(answer)),
        Err(error) if error.kind() == io::ErrorKind::Interrupted => Ok(None),
        Err(error) => Err(error),
    }
}

impl<R: Files<File = File> + Drop> SystemFile<R> {
    /// The file at this path. No call of the system is made yet.
    pub fn new(rt: R, path: Text) -> SystemFile<R>
        // It is the file at this path.
        ensures path { result.path ≡ path }
        // No call was made.
        ensures uncalled { calls_of result.log.events ≡ [] }
    {
        SystemFile {
            rt,
            path,
            file: None,
            is_fresh: false,
            log: Record::new(),
        }
    }

    /// Opens the file, and answers whether it is there.
    pub fn open(&mut self) -> io::Result<bool>
        // The file isn't open and locked.
        requires shut { is_held (calls_of self.old.log.events) ≡ false }
        // The path stays.
        ensures path { self.new.path ≡ self.old.path }
        // The call and its answer are noted, and no other.
        ensures noted { IfOk result (λ there. calls_of self.new.log.events ≡ (if there then opened else missing) ∷ calls_of self.old.log.events) }
        // Where the system refused, nothing is noted.
        ensures refused { OnErr result (calls_of self.new.log.events ≡ calls_of self.old.log.events) }
    {
        match open_any(&self.rt, self.path.as_str()) {
            Ok(file) => {
                self.file = Some(file);
                self.log.note(&[OPENED], &[], &[]);
                Ok(true)
            }
            Err(error) if error.kind() == io::ErrorKind::NotFound => {
                self.log.note(&[MISSING], &[], &[]);
                Ok(false)
            }
            Err(error) => Err(error),
        }
    }

    /// Asks whether a file that was missing still is.
    pub fn is_missing(&mut self) -> io::Result<bool>
        // The file isn't open and locked.
        requires shut { is_held (calls_of self.old.log.events) ≡ false }
        // The path stays.
        ensures path { self.new.path ≡ self.old.path }
        // That the file is missing is noted.
        ensures missing { IfOk result (λ gone. IsTrue gone → calls_of self.new.log.events ≡ missing ∷ calls_of self.old.log.events) }
        // Where it is there, nothing is noted.
        ensures there { IfOk result (λ gone. gone ≡ false → calls_of self.new.log.events ≡ calls_of self.old.log.events) }
        // Where the system refused, nothing is noted.
        ensures refused { OnErr result (calls_of self.new.log.events ≡ calls_of self.old.log.events) }
    {
        if fs::exists(&self.rt, self.path.as_str())? {
            return Ok(false);
        }
        self.log.note(&[MISSING], &[], &[]);
        Ok(true)
    }

    /// Makes the file with its folder, and opens it.
    pub fn create(&mut self) -> io::Result<()>
        // The file isn't open and locked.
        requires shut { is_held (calls_of self.old.log.events) ≡ false }
        // The path stays.
        ensures path { self.new.path ≡ self.old.path }
        // The call and its answer are noted, and no other.
        ensures noted { OnOk result (calls_of self.new.log.events ≡ created ∷ calls_of self.old.log.events) }
        // Where the system refused, nothing is noted.
        ensures refused { OnErr result (calls_of self.new.log.events ≡ calls_of self.old.log.events) }
    {
        self.file = Some(create_any(&self.rt, self.path.as_str())?);
        self.log.note(&[CREATED], &[], &[]);
        Ok(())
    }

    /// Gives the file a descriptor that is none of the standard streams': where one of those is closed, the system gives its
    /// number to the next file that is opened, and what is printed would be written there.
    pub fn set_apart(&mut self) -> io::Result<()>
        // The file is open.
        requires open { is_open (calls_of self.old.log.events) ≡ true }
        // The path stays.
        ensures path { self.new.path ≡ self.old.path }
        // The call and its answer are noted, and no other.
        ensures noted { OnOk result (calls_of self.new.log.events ≡ apart ∷ calls_of self.old.log.events) }
        // Where the system refused, nothing is noted.
        ensures refused { OnErr result (calls_of self.new.log.events ≡ calls_of self.old.log.events) }
    {
        self.file = Some(opened_file(&self.file)?.try_clone()?);
        self.log.note(&[APART], &[], &[]);
        Ok(())
    }

    /// Brings the file's name to the disk, and that of its folder.
    pub fn sync_name(&mut self) -> io::Result<()>
        // Its descriptor is apart from the standard streams.
        requires apart { is_apart (calls_of self.old.log.events) ≡ true }
        // The path stays.
        ensures path { self.new.path ≡ self.old.path }
        // The call and its answer are noted, and no other.
        ensures noted { OnOk result (calls_of self.new.log.events ≡ named ∷ calls_of self.old.log.events) }
        // Where the system refused, nothing is noted.
        ensures refused { OnErr result (calls_of self.new.log.events ≡ calls_of self.old.log.events) }
    {
        sync_name_of(&self.rt, self.path.as_str())?;
        self.log.note(&[NAMED], &[], &[]);
        Ok(())
    }

    /// Locks the file, without waiting for a lock that another program holds.
    pub fn lock(&mut self) -> io::Result<()>
        // Its name is on the disk.
        requires named { is_named (calls_of self.old.log.events) ≡ true }
        // The path stays.
        ensures path { self.new.path ≡ self.old.path }
        // The call and its answer are noted, and no other.
        ensures noted { OnOk result (calls_of self.new.log.events ≡ locked ∷ calls_of self.old.log.events) }
        // Where the system refused, nothing is noted.
        ensures refused { OnErr result (calls_of self.new.log.events ≡ calls_of self.old.log.events) }
    {
        opened_file(&self.file)?.try_lock()?;
        self.log.note(&[LOCKED], &[], &[]);
        Ok(())
    }

    /// Closes the file, and gives its lock back.
    pub fn close(&mut self)
        // The path stays.
        ensures path { self.new.path ≡ self.old.path }
        // The call and its answer are noted, and no other.
        ensures noted { calls_of self.new.log.events ≡ closed ∷ calls_of self.old.log.events }
    {
        self.file = None;
        self.log.note(&[CLOSED], &[], &[]);
    }

    /// The number of bytes.
    pub fn len(&mut self) -> io::Result<u64>
        // The file is open and locked.
        requires held { is_held (calls_of self.old.log.events) ≡ true }
        // The path stays.
        ensures path { self.new.path ≡ self.old.path }
        // The call and its answer are noted, and no other.
        ensures noted { IfOk result (λ n. calls_of self.new.log.events ≡ measured n ∷ calls_of self.old.log.events) }
        // Where the system refused, nothing is noted.
        ensures refused { OnErr result (calls_of self.new.log.events ≡ calls_of self.old.log.events) }
    {
        let len = opened_file(&self.file)?.metadata()?.len();
        self.log.note(&[MEASURED, len], &[], &[]);
        Ok(len)
    }

    /// Reads some bytes from an offset on, and answers how many, or none where a signal came first.
    pub fn read_some(&mut self, at: u64, into: &mut [u8]) -> io::Result<Option<usize>>
        // The file is open and locked.
        requires held { is_held (calls_of self.old.log.events) ≡ true }
        // The path stays.
        ensures path { self.new.path ≡ self.old.path }
        // What is read into keeps its length.
        ensures length { length into.new ≡ length into.old }
        // No more bytes than were asked for.
        ensures within { IfOk result (λ count. IfSome count (λ n. n ≤ length into.new)) }
        // The call and its answer are noted, and no other.
        ensures noted { IfOk result (λ count. IfSome count (λ n. calls_of self.new.log.events ≡ read_piece at (take n into.new) ∷ calls_of self.old.log.events)) }
        // A call that a signal cut short is not noted.
        ensures interrupted { IfOk result (λ count. IsTrue (is_none count) → calls_of self.new.log.events ≡ calls_of self.old.log.events) }
        // Where the system refused, nothing is noted.
        ensures refused { OnErr result (calls_of self.new.log.events ≡ calls_of self.old.log.events) }
    {
        let answer = unless_interrupted(opened_file(&self.file)?.read_at(into, at))?;
        if let Some(count) = answer {
            self.log.note(&[READ, at], &[], &into[..count]);
        }
        Ok(answer)
    }

    /// Writes some of the bytes at an offset, and answers how many, or none where a signal came first.
    pub fn write_some(&mut self, at: u64, bytes: &[u8]) -> io::Result<Option<usize>>
        // The file is open and locked.
        requires held { is_held (calls_of self.old.log.events) ≡ true }
        // The path stays.
        ensures path { self.new.path ≡ self.old.path }
        // No more bytes than were asked for.
        ensures within { IfOk result (λ count. IfSome count (λ n. n ≤ length bytes.now)) }
        // The call and its answer are noted, and no other.
        ensures noted { IfOk result (λ count. IfSome count (λ n. calls_of self.new.log.events ≡ wrote at (take n bytes.now) ∷ calls_of self.old.log.events)) }
        // A call that a signal cut short is not noted.
        ensures interrupted { IfOk result (λ count. IsTrue (is_none count) → calls_of self.new.log.events ≡ calls_of self.old.log.events) }
        // A failed call is noted as one, since part of it may have been done.
        ensures failed { OnErr result (calls_of self.new.log.events ≡ failed_to_write at bytes.now ∷ calls_of self.old.log.events) }
    {
        let written = match &self.file {
            Some(file) => unless_interrupted(file.write_at(bytes, at)),
            None => Err(io::Error::from(io::ErrorKind::NotFound)),
        };
        match written {
            Ok(Some(count)) => self.log.note(&[WROTE, at], &[], &bytes[..count]),
            Ok(None) => {}
            Err(_) => self.log.note(&[FAILED_TO_WRITE, at], &[], bytes),
        }
        written
    }

    /// Cuts the file to a length.
    pub fn set_len(&mut self, len: u64) -> io::Result<()>
        // The file is open and locked.
        requires held { is_held (calls_of self.old.log.events) ≡ true }
        // The path stays.
        ensures path { self.new.path ≡ self.old.path }
        // The file stays open and locked.
        ensures stays { is_held (calls_of self.new.log.events) ≡ true }
        // The length that the file is known to have at least is cut to this one.
        ensures floor { floor (calls_of self.new.log.events) ≡ min (floor (calls_of self.old.log.events)) len }
        // The call and its answer are noted, and no other.
        ensures noted { OnOk result (calls_of self.new.log.events ≡ cut len ∷ calls_of self.old.log.events) }
        // A failed call is noted as one, since part of it may have been done.
        ensures failed { OnErr result (calls_of self.new.log.events ≡ failed_to_cut len ∷ calls_of self.old.log.events) }
    {
        let outcome = match &self.file {
            Some(file) => file.set_len(len),
            None => Err(io::Error::from(io::ErrorKind::NotFound)),
        };
        match outcome {
            Ok(()) => self.log.note(&[CUT, len], &[], &[]),
            Err(_) => self.log.note(&[FAILED_TO_CUT, len], &[], &[]),
        }
        outcome
    }

    /// Brings the bytes to the disk. Behind the first time the system's copies of them are dropped.
    pub fn sync(&mut self) -> io::Result<()>
        // The file is open and locked.
        requires held { is_held (calls_of self.old.log.events) ≡ true }
        // The path stays.
        ensures path { self.new.path ≡ self.old.path }
        // The call and its answer are noted, and no other.
        ensures noted { OnOk result (calls_of self.new.log.events ≡ synced ∷ calls_of self.old.log.events) }
        // Where the system refused, nothing is noted.
        ensures refused { OnErr result (calls_of self.new.log.events ≡ calls_of self.old.log.events) }
    {
        let file = opened_file(&self.file)?;
        file.sync_data()?;
        if !self.is_fresh {
            forget_pages(file);
            self.is_fresh = true;
        }
        self.log.note(&[SYNCED], &[], &[]);
        Ok(())
    }
}
