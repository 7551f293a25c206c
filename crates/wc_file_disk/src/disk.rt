//! A file of the system as a disk. What the system does with a file is trusted: the disk tells what was answered, by a record
//! that no memory holds.
ghost use Rattle.std.specs.Prelude.{◌≡◌, true, false, [], length, take, drop, is_ok, IfOk, OnOk, IsTrue};
ghost use Rattle.wc_io.specs.Counts.{CountsFault};
ghost use Rattle.wc_disk.specs.Steps.{overwritten};
ghost use Rattle.wc_file_disk.specs.Calls.{is_flushed, is_held, is_locked_or_missing};
ghost use Rattle.wc_file_disk.specs.Holds.{Between, Keeps};

use crate::held::HeldFile;
use crate::system::SystemFile;
use std::fs::File;
use std::io;
use std::rt::Files;
use wc_disk::Disk;
use wc_io::Failed;
use wc_value::Text;

/// A file of the system, opened once and locked from then on. It is made, with its folder, at the first write, unless
/// that is out of bounds. A missing file has length 0, and a sync of it does nothing. A lock that is refused counts as
/// a fault, and so does a file that another program has made since it was missing. The opening brings the file's name to
/// the disk, and that of its folder, also where they were there: a program that was killed may have made them without.
/// Of several missing folders, the last one's name alone is brought to the disk.
#[derive(Drop)]
pub struct FileDisk<R: Drop> {
    file: HeldFile<R>,
    faults: u64,
    failed: bool,
}

impl<R: Files<File = File> + Drop> FileDisk<R> {
    ghost use Rattle.wc_file_disk.specs.Files.{calls, path_of};

    /// The file at this path. No call of the system is made yet.
    pub fn new(rt: R, path: Text) -> FileDisk<R>
        ensures path { path_of result ≡ path }
        ensures uncalled { calls result ≡ [] }
        ensures faults { result.faults ≡ 0 }
    {
        FileDisk {
            file: HeldFile::new(SystemFile::new(rt, path)),
            faults: 0,
            failed: false,
        }
    }
}

/// Counts a call of the system that failed, and keeps whether it did.
fn count_fault<T: Drop>(
    outcome: io::Result<T>,
    faults: &mut u64,
    failed: &mut bool,
) -> Result<T, Failed>
    ensures answer { IfOk result (λ answer. IfOk outcome (λ told. answer ≡ told)) }
    ensures ok { OnOk result (IsTrue (is_ok outcome)) }
    ensures cause { CountsFault result faults.old faults.new (IsTrue failed.new) }
{
    *failed = outcome.is_err();
    match outcome {
        Ok(answer) => Ok(answer),
        Err(_) => {
            *faults = faults.saturating_add(1);
            Err(Failed)
        }
    }
}

impl<R: Files<File = File> + Drop> Disk for FileDisk<R> {
    ghost use Rattle.std.specs.Prelude.{◌≡◌, false, IsTrue, [], length, take, drop, IfOk, OnOk, true};
    ghost use Rattle.std.proofs.lemmas.Bool.{false≢true};
    ghost use Rattle.wc_io.specs.Counts.{CountsFault};
    ghost use Rattle.wc_disk.specs.Steps.{overwritten};
    ghost use Rattle.wc_file_disk.specs.Calls.{is_flushed, is_held, is_locked_or_missing};
    ghost use Rattle.wc_file_disk.specs.Holds.{Between, Keeps};
    ghost use Rattle.wc_file_disk.specs.Files.{calls, path_of};

    ghost tells = { λ _. false };

    ghost seen = { λ _. [] };

    ghost may_leave = { λ _ _. ⊥ };

    ghost moment = { λ _. 0 };

    ghost left_since = { λ _ _ _. ⊥ };

    ghost faults = { λ d. d.faults };

    ghost failed = { λ d. IsTrue d.failed };

    ghost alike = { λ one two i. false };

    ghost reads_as = { λ d told. absurd (false≢true told) };

    ghost counts_now = { λ d t image le left. left };

    ghost only_now = { λ d image left. left };

    fn len(&mut self) -> Result<u64, Failed>
        ensures told { IfOk result (λ n. Between (calls self.old) (calls self.new) (λ before after. n ≡ length before)) }
        ensures kept { Keeps (calls self.old) (calls self.new) }
        ensures path { path_of self.new ≡ path_of self.old }
        ensures cause { CountsFault result self.old.faults self.new.faults (IsTrue self.new.failed) }
        // It is Ok only of a file that is open and locked, or that isn't there, so that a lock that was refused ends the call.
        ensures locked { OnOk result (is_locked_or_missing (calls self.new) ≡ true) }
    {
        count_fault(self.file.len(), &mut self.faults, &mut self.failed)
    }

    fn read(&mut self, at: u64, into: &mut [u8]) -> Result<(), Failed>
        // The bytes are those of what the file held before, in each history that agrees with all answers.
        ensures told { OnOk result (Between (calls self.old) (calls self.new) (λ before after. into.new ≡ take (length into.old) (drop at before))) }
        // What the file held stays, in each such history.
        ensures kept { Keeps (calls self.old) (calls self.new) }
        // The path stays.
        ensures path { path_of self.new ≡ path_of self.old }
        ensures cause { CountsFault result self.old.faults self.new.faults (IsTrue self.new.failed) }
        // It is Ok only of a file that is open and locked, or that isn't there, so that a lock that was refused ends the call.
        ensures locked { OnOk result (is_locked_or_missing (calls self.new) ≡ true) }
    {
        count_fault(self.file.read(at, into), &mut self.faults, &mut self.failed)
    }

    fn write_at(&mut self, at: u64, bytes: &[u8]) -> Result<(), Failed>
        // The file holds what it held, with these bytes written over it, in each history that agrees with all answers.
        ensures told { OnOk result (Between (calls self.old) (calls self.new) (λ before after. after ≡ overwritten at bytes.now before)) }
        // The path stays.
        ensures path { path_of self.new ≡ path_of self.old }
        ensures cause { CountsFault result self.old.faults self.new.faults (IsTrue self.new.failed) }
        // It is Ok only of a file that is open and locked, so that a lock that was refused ends the call.
        ensures locked { OnOk result (is_held (calls self.new) ≡ true) }
    {
        count_fault(
            self.file.write_at(at, bytes),
            &mut self.faults,
            &mut self.failed,
        )
    }

    fn cut(&mut self, len: u64) -> Result<(), Failed>
        // The file holds what it held, cut to this length, in each history that agrees with all answers.
        ensures told { OnOk result (Between (calls self.old) (calls self.new) (λ before after. after ≡ take len before)) }
        // The path stays.
        ensures path { path_of self.new ≡ path_of self.old }
        ensures cause { CountsFault result self.old.faults self.new.faults (IsTrue self.new.failed) }
        // It is Ok only of a file that is open and locked, or that isn't there, so that a lock that was refused ends the call.
        ensures locked { OnOk result (is_locked_or_missing (calls self.new) ≡ true) }
    {
        count_fault(self.file.cut(len), &mut self.faults, &mut self.failed)
    }

    fn sync(&mut self) -> Result<(), Failed>
        ensures told { OnOk result (is_flushed (calls self.new) ≡ true) }
        ensures kept { Keeps (calls self.old) (calls self.new) }
        ensures path { path_of self.new ≡ path_of self.old }
        ensures cause { CountsFault result self.old.faults self.new.faults (IsTrue self.new.failed) }
        // It is Ok only of a file that is open and locked, or that isn't there, so that a lock that was refused ends the call.
        ensures locked { OnOk result (is_locked_or_missing (calls self.new) ≡ true) }
    {
        count_fault(self.file.sync(), &mut self.faults, &mut self.failed)
    }
}
