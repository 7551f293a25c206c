//! What the program has at hand of the machine that it runs on.
ghost use Rattle.std.specs.Prelude.{◌≡◌, [], IfOk, codes};
ghost use Rattle.wc_file_disk.specs.Files.{calls, path_of};
ghost use Rattle.wc_local.specs.Folders.{jobs_folder};

use std::alloc::{AllocError, Global};
use wc_file_disk::FileDisk;
use wc_io::{ClockPacer, FileShelf, Shelf, Sink, StdoutSink};
use wc_local::LocalTransport;
use wc_value::{Text, both};

/// The files, the standard output, the two files of the store, the jobs and the clock.
#[derive(Drop)]
pub struct Machine {
    /// Files by their paths.
    pub shelf: FileShelf<HostRuntime>,
    /// The standard output.
    pub sink: StdoutSink<HostRuntime>,
    /// The first file of the store.
    pub one: FileDisk<HostRuntime>,
    /// The second file of the store.
    pub two: FileDisk<HostRuntime>,
    /// The programs of jobs.
    pub jobs: LocalTransport<HostRuntime>,
    /// The clock.
    pub clock: ClockPacer<HostRuntime>,
}

/// A file of the store, by its path.
fn disk(rt: HostRuntime, path: &str) -> Result<FileDisk<HostRuntime>, AllocError>
    ensures path { IfOk result (λ disk. path_of disk ≡ path.now) }
    ensures uncalled { IfOk result (λ disk. calls disk ≡ []) }
{
    Ok(FileDisk::new(rt, Text::of_str(rt.alloc(), path)?))
}

/// The two files of the store.
fn disks(rt: HostRuntime) -> Result<(FileDisk<HostRuntime>, FileDisk<HostRuntime>), AllocError>
    ensures one { IfOk result (λ disks. path_of disks.0 ≡ codes "wc.store/one") }
    ensures two { IfOk result (λ disks. path_of disks.1 ≡ codes "wc.store/two") }
    ensures uncalled { IfOk result (λ disks. (calls disks.0 ≡ []) × (calls disks.1 ≡ [])) }
{
    both(disk(rt, "wc.store/one")?, disk(rt, "wc.store/two"))
}

/// The programs of jobs, with their folders in one folder.
fn jobs(rt: HostRuntime) -> Result<LocalTransport<HostRuntime>, AllocError>
    ensures folder { IfOk result (λ jobs. jobs_folder jobs ≡ codes "wc.work") }
{
    let folder = Text::of_str(rt.alloc(), "wc.work")?;
    Ok(LocalTransport::new(rt, rt.alloc(), folder))
}

impl Machine {
    ghost use Rattle.std.specs.Prelude.{Some};

    /// The machine, of which nothing was asked yet.
    pub fn new(rt: HostRuntime) -> Result<Machine, AllocError>
        ensures one { IfOk result (λ machine. path_of machine.one ≡ codes "wc.store/one") }
        ensures two { IfOk result (λ machine. path_of machine.two ≡ codes "wc.store/two") }
        ensures uncalled { IfOk result (λ machine. (calls machine.one ≡ []) × (calls machine.two ≡ [])) }
        ensures folder { IfOk result (λ machine. jobs_folder machine.jobs ≡ codes "wc.work") }
        ensures unasked { IfOk result (λ machine. ⟦<FileShelf<HostRuntime> as Shelf>⟧.asked machine.shelf ≡ []) }
        ensures untaken { IfOk result (λ machine. ⟦<StdoutSink<HostRuntime> as Sink>⟧.taken machine.sink ≡ Some []) }
    {
        let ((one, two), jobs) = both(disks(rt)?, jobs(rt))?;
        Ok(Machine {
            shelf: FileShelf::new(rt),
            sink: StdoutSink::new(rt),
            one,
            two,
            jobs,
            clock: ClockPacer::new(rt),
        })
    }
}
