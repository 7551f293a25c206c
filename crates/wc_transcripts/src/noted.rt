//! A disk that tells its calls.
ghost use Rattle.std.specs.Prelude.{◌≡◌, ◌≤◌, ◌+◌};

use wc_disk::Disk;
use wc_io::Failed;

/// A disk, whose calls are told on the standard error, each in a line: the disk's name, the call, its numbers, and the bytes that are written.
#[derive(Drop)]
pub struct Noted<D: Drop> {
    rt: HostRuntime,
    name: &'static str,
    disk: D,
}

impl<D: Drop> Noted<D> {
    /// This disk, by this name.
    pub fn new(rt: HostRuntime, name: &'static str, disk: D) -> Noted<D> {
        Noted { rt, name, disk }
    }

    /// Tells a call with a number.
    fn tell(&self, call: &'static str, number: u64) {
        let name = self.name;
        let _ = eprintln!(self.rt; "{name} {call} {number}");
    }

    /// Tells a call with an offset and a length.
    fn tell_read(&self, at: u64, len: usize) {
        let name = self.name;
        let _ = eprintln!(self.rt; "{name} read {at} {len}");
    }

    /// Tells a write, with each byte as two digits.
    fn tell_write(&self, at: u64, bytes: &[u8]) {
        let name = self.name;
        let _ = eprint!(self.rt; "{name} write {at} ");
        for byte in bytes {
            let _ = eprint!(self.rt; "{byte:02x}");
        }
        let _ = eprintln!(self.rt; "");
    }
}

impl<D: Disk + Drop> Disk for Noted<D> {
    ghost tells = { λ d. D.tells d.disk };

    ghost seen = { λ d. D.seen d.disk };

    ghost may_leave = { λ d. D.may_leave d.disk };

    ghost moment = { λ d. D.moment d.disk };

    ghost left_since = { λ d. D.left_since d.disk };

    ghost faults = { λ d. D.faults d.disk };

    ghost failed = { λ d. D.failed d.disk };

    ghost alike = { λ one two. D.alike one.disk two.disk };

    ghost reads_as = { λ d. D.reads_as d.disk };

    ghost counts_now = { λ d. D.counts_now d.disk };

    ghost only_now = { λ d. D.only_now d.disk };

    fn len(&mut self) -> Result<u64, Failed> {
        self.tell("len", 0);
        self.disk.len()
    }

    fn read(&mut self, at: u64, into: &mut [u8]) -> Result<(), Failed> {
        self.tell_read(at, into.len());
        self.disk.read(at, into)
    }

    fn write_at(&mut self, at: u64, bytes: &[u8]) -> Result<(), Failed> {
        self.tell_write(at, bytes);
        self.disk.write_at(at, bytes)
    }

    fn cut(&mut self, len: u64) -> Result<(), Failed> {
        self.tell("cut", len);
        self.disk.cut(len)
    }

    fn sync(&mut self) -> Result<(), Failed> {
        self.tell("sync", 0);
        self.disk.sync()
    }
}
