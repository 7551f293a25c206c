//! A file of the system and a disk in memory that were asked the same.
ghost use Rattle.std.specs.Prelude.{◌≡◌, ◌≤◌, ◌+◌, length};
ghost use Rattle.wc_disk.specs.Tape.{volume_of};

use std::alloc::{AllocError, Global};
use std::{fs, io};
use wc_disk::{Disk, MemoryDisk};
use wc_file_disk::FileDisk;
use wc_value::{Bytes, Generator, List, Text, put};

/// The path of the file.
const PATH: &str = "pair/disk";

/// How many bytes a call speaks of at most.
const MOST_BYTES: u32 = 64;

/// What wasn't alike.
#[derive(Debug, Drop)]
pub enum Unlike {
    /// The answers of a call of this name.
    Answers(&'static str),
    /// What both hold.
    Contents,
    /// Nothing: memory ran out, or the folder couldn't be made ready.
    Unready,
}

impl Unlike {
    /// In words.
    pub fn text(&self) -> &str {
        match self {
            Unlike::Answers(name) => name,
            Unlike::Contents => "contents",
            Unlike::Unready => "nothing, but there is no room for the try",
        }
    }
}

impl From<AllocError> for Unlike {
    fn from(_error: AllocError) -> Unlike {
        Unlike::Unready
    }
}

/// A file of the system, and a disk in memory that holds the same.
#[derive(Drop)]
pub struct Pair {
    rt: HostRuntime,
    file: FileDisk<HostRuntime>,
    memory: MemoryDisk,
}

/// The file, which isn't opened yet.
fn file(rt: HostRuntime) -> Result<FileDisk<HostRuntime>, AllocError> {
    Ok(FileDisk::new(rt, Text::of_str(rt.alloc(), PATH)?))
}

/// Takes the file away, and sometimes its folder.
fn remove(rt: HostRuntime, also_folder: bool) -> Result<(), Unlike> {
    match fs::remove_file(&rt, PATH) {
        Ok(()) => {}
        Err(error) if error.kind() == io::ErrorKind::NotFound => {}
        Err(_) => return Err(Unlike::Unready),
    }
    if also_folder {
        let _ = fs::remove_dir(&rt, "pair");
    }
    Ok(())
}

/// So many bytes at random.
fn some_bytes(alloc: Global, draws: &mut Generator) -> Result<Vec<u8>, AllocError> {
    let count = draws.draw() % (MOST_BYTES + 1);
    draws.bytes(alloc, count as usize)
}

/// Answers are alike, or they aren't.
fn alike(name: &'static str, are: bool) -> Result<(), Unlike> {
    if are {
        Ok(())
    } else {
        Err(Unlike::Answers(name))
    }
}

impl Pair {
    /// A missing file and an empty disk, or a file that holds some bytes, with a disk that holds the same.
    pub fn new(rt: HostRuntime, draws: &mut Generator) -> Result<Pair, Unlike> {
        remove(rt, draws.draw() % 2 == 0)?;
        let mut image: Bytes = List::new(rt.alloc());
        if draws.draw() % 3 > 0 {
            let bytes = some_bytes(rt.alloc(), draws)?;
            image.extend(&bytes)?;
            if file(rt)?.write_at(0, &bytes).is_err() {
                return Err(Unlike::Unready);
            }
        }
        Ok(Pair {
            rt,
            file: file(rt)?,
            memory: MemoryDisk::new(rt.alloc(), image, List::new(rt.alloc())),
        })
    }

    /// How many bytes both hold.
    fn size(&self) -> u64
        ensures { result ≡ length (volume_of self.now.memory.tape).seen }
    {
        self.memory.bytes().len() as u64
    }

    /// A place in the bytes, at their end, or behind it.
    fn place(&self, draws: &mut Generator) -> u64 {
        let size = self.size();
        let far = u64::from(draws.draw());
        match draws.draw() % 8 {
            0 => 0,
            1 => size,
            2 => size.saturating_add(1 + far % 9),
            _ => far % size.max(1),
        }
    }

    fn measure(&mut self) -> Result<(), Unlike> {
        match (self.file.len(), self.memory.len()) {
            (Ok(told), Ok(wanted)) => alike("lengths", told == wanted),
            _ => alike("lengths", false),
        }
    }

    /// Reads from both. A read that goes past the end has to fail.
    fn read(&mut self, at: u64, count: usize) -> Result<(), Unlike> {
        let mut told = vec![in self.rt.alloc(); 0u8; count]?;
        let mut wanted = vec![in self.rt.alloc(); 0u8; count]?;
        let outcome = self.file.read(at, &mut told);
        let size = self.size();
        if at > size || count as u64 > size - at {
            return alike("reads past the end", outcome.is_err() || count == 0);
        }
        let read = self.memory.read(at, &mut wanted);
        alike(
            "reads",
            outcome.is_ok() && read.is_ok() && told.as_slice() == wanted.as_slice(),
        )
    }

    /// Writes to both. A write that begins behind the end has to fail.
    fn write(&mut self, at: u64, bytes: &[u8]) -> Result<(), Unlike> {
        let outcome = self.file.write_at(at, bytes);
        if at > self.size() {
            return alike("writes behind the end", outcome.is_err());
        }
        let written = self.memory.write_at(at, bytes);
        alike("writes", outcome.is_ok() && written.is_ok())
    }

    /// Cuts both. A cut to more than there is has to fail.
    fn cut(&mut self, len: u64) -> Result<(), Unlike> {
        let outcome = self.file.cut(len);
        if len > self.size() {
            return alike("cuts behind the end", outcome.is_err());
        }
        let shortened = self.memory.cut(len);
        alike("cuts", outcome.is_ok() && shortened.is_ok())
    }

    fn sync(&mut self) -> Result<(), Unlike> {
        let both = self.file.sync().is_ok() && self.memory.sync().is_ok();
        alike("syncs", both)
    }

    /// Closes the file, and opens it again at the next call.
    fn reopen(&mut self) -> Result<(), Unlike> {
        let fresh = file(self.rt)?;
        put(&mut self.file, fresh);
        Ok(())
    }

    /// Makes one call of both.
    pub fn call(&mut self, draws: &mut Generator) -> Result<(), Unlike> {
        let at = self.place(draws);
        match draws.draw() % 12 {
            0 | 1 => self.measure(),
            2 | 3 | 4 => {
                let count = draws.draw() % (MOST_BYTES + 1);
                self.read(at, count as usize)
            }
            5 | 6 | 7 | 8 => {
                let bytes = some_bytes(self.rt.alloc(), draws)?;
                self.write(at, &bytes)
            }
            9 => self.cut(at),
            10 => self.sync(),
            _ => self.reopen(),
        }
    }

    /// Both hold the same, also once the file is opened again.
    pub fn compare(&mut self) -> Result<(), Unlike> {
        self.reopen()?;
        self.measure()?;
        let mut told = vec![in self.rt.alloc(); 0u8; self.memory.bytes().len()]?;
        if self.file.read(0, &mut told).is_err() || told.as_slice() != self.memory.bytes() {
            return Err(Unlike::Contents);
        }
        Ok(())
    }
}
