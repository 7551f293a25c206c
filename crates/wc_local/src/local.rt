//! Jobs as programs of this machine. What the system does is trusted: this transport tells nothing of content.
ghost use Rattle.std.specs.Prelude.{◌≡◌, None, false};
ghost use Rattle.wc_io.specs.Counts.{RisesByOne};
ghost use Rattle.wc_transport.specs.Outside.{CountsTaskFault};

use crate::slurm::{Job, followed, is_on_slurm, submitted};
use crate::squeue::Squeue;
use std::alloc::{AllocError, Global};
use std::env::Env;
use std::fs::File;
use std::process::Processes;
use std::rt::Files;
use std::string::String;
use wc_folders::{
    Failure, Fault, claim, has_ended, holds, is_alive, is_locked, must_hold, note, place,
    result_of, start, sync_names, sync_placed,
};
use wc_slurm::Queue;
use wc_transport::{Progress, TaskError, Transport};
use wc_value::{JobResult, Request, Text};

/// Places a request, where the folder doesn't hold it yet. The names of one that is there may not be on the disk yet.
fn uploaded_to<R: Files<File = File>>(
    rt: &R,
    alloc: Global,
    folder: &str,
    request: &Request,
) -> Result<(), Fault> {
    if holds(rt, alloc, folder, request)? {
        return sync_placed(rt, folder);
    }
    place(rt, alloc, folder, request)
}

/// Looks at a job of this machine whose program hasn't ended. Where no run has begun, or its user took that back, the script is started
/// again, unless one lives, as one that waits for a slot: then nothing is started.
fn pursued_here<R: Files<File = File> + Processes>(
    rt: &R,
    alloc: Global,
    folder: &str,
) -> Result<(), Fault> {
    if is_locked(rt, alloc, folder)? || is_alive(rt, alloc, folder)? {
        return Ok(());
    }
    start(rt, alloc, folder)
}

/// What the program of a job left.
fn retrieved_from<R: Files<File = File>>(
    rt: &R,
    alloc: Global,
    folder: &str,
    request: &Request,
) -> Result<JobResult, Fault> {
    must_hold(rt, alloc, folder, request)?;
    result_of(rt, alloc, folder, request)
}

/// Programs of this machine, or of a cluster, each in a folder below this one that is named by its number. A program is run by a script,
/// which makes a folder first and ends where that is there, so that the program is started once. Where a file `wc.slurm` lies beside the
/// folder of jobs, Slurm starts the script on a node.
#[derive(Drop)]
pub struct LocalTransport<R: Drop> {
    rt: R,
    alloc: Global,
    folder: Text,
    asked: u64,
    faults: u64,
    failure: Option<Failure>,
    queue: Queue,
    is_claimed: bool,
}

impl<R: Files<File = File> + Processes + Env + Drop> LocalTransport<R> {
    ghost use Rattle.wc_local.specs.Folders.{jobs_folder};

    /// The programs of this machine, below a folder. No call of the system is made yet.
    pub fn new(rt: R, alloc: Global, folder: Text) -> LocalTransport<R>
        // The jobs have their folders in this one.
        ensures folder { jobs_folder result ≡ folder }
        // It doesn't tell a table.
        ensures untold { ⟦<LocalTransport<R> as Transport>⟧.table result ≡ None }
        // It doesn't tell which requests are placed.
        ensures unplaced { ⟦<LocalTransport<R> as Transport>⟧.placed result ≡ None }
        // It doesn't tell what has ended.
        ensures unfinished { ⟦<LocalTransport<R> as Transport>⟧.tells_finished result ≡ false }
        // It was asked for nothing.
        ensures asked { result.asked ≡ 0 }
        // No call has failed.
        ensures faults { result.faults ≡ 0 }
        // No task has failed.
        ensures failure { result.failure ≡ None }
    {
        LocalTransport {
            rt,
            alloc,
            folder,
            asked: 0,
            faults: 0,
            failure: None,
            queue: Queue::new(alloc),
            is_claimed: false,
        }
    }

    /// The folder of a job.
    fn folder_of(&self, dir: u32) -> Result<String, AllocError> {
        let folder = self.folder.as_str();
        format!(in self.alloc; "{folder}/{dir}")
    }

    /// The last call that failed.
    pub fn failure(&self) -> Option<Failure>
        ensures { result ≡ self.now.failure }
    {
        self.failure
    }

    /// Writes down in the folder of a job why a task failed. Where that can't be written it is known to `failure` alone.
    fn write_down(&self, failure: Failure) -> Result<(), Fault> {
        let folder = self.folder_of(failure.dir)?;
        note(&self.rt, self.alloc, folder.as_str(), failure)
    }

    /// Counts a call for a folder, and its fault if it failed, of which the reason is kept and written down.
    fn answer<T>(
        &mut self,
        dir: u32,
        task: &'static str,
        outcome: Result<T, Fault>,
    ) -> Result<T, TaskError>
        ensures asked { RisesByOne self.old.asked self.new.asked }
        ensures faults { CountsTaskFault result self.old.faults self.new.faults }
    {
        self.asked = self.asked.saturating_add(1);
        let fault = match outcome {
            Ok(answer) => return Ok(answer),
            Err(Fault::OutOfMemory) => return Err(TaskError::OutOfMemory),
            Err(fault) => fault,
        };
        self.faults = self.faults.saturating_add(1);
        let failure = Failure { dir, task, fault };
        self.failure = Some(failure);
        let _ = self.write_down(failure);
        Err(TaskError::Failed)
    }

    /// Sees to it, before the first request is placed, that the folder of jobs is this store's.
    fn claimed(&mut self) -> Result<(), Fault>
        ensures asked { self.new.asked ≡ self.old.asked }
        ensures faults { self.new.faults ≡ self.old.faults }
    {
        if !self.is_claimed {
            claim(&self.rt, self.alloc, self.folder.as_str())?;
            self.is_claimed = true;
        }
        Ok(())
    }

    /// Places a request.
    fn uploaded(&mut self, dir: u32, request: &Request) -> Result<(), Fault>
        ensures asked { self.new.asked ≡ self.old.asked }
        ensures faults { self.new.faults ≡ self.old.faults }
    {
        self.claimed()?;
        let folder = self.folder_of(dir)?;
        uploaded_to(&self.rt, self.alloc, folder.as_str(), request)
    }

    /// Starts the program of a job in a folder that holds its request, here or on a cluster.
    fn submitted_in(&mut self, dir: u32, folder: &str, request: &Request) -> Result<(), Fault>
        ensures asked { self.new.asked ≡ self.old.asked }
        ensures faults { self.new.faults ≡ self.old.faults }
    {
        let job = Job {
            jobs: self.folder.as_str(),
            dir,
            folder,
            request,
        };
        must_hold(&self.rt, self.alloc, folder, request)?;
        if is_on_slurm(&self.rt, self.alloc, job)? {
            let mut squeue = Squeue::new(&self.rt);
            return submitted(&self.rt, self.alloc, &mut self.queue, &mut squeue, job);
        }
        start(&self.rt, self.alloc, folder)
    }

    /// Starts the program of a job.
    fn submitted(&mut self, dir: u32, request: &Request) -> Result<(), Fault>
        ensures asked { self.new.asked ≡ self.old.asked }
        ensures faults { self.new.faults ≡ self.old.faults }
    {
        let folder = self.folder_of(dir)?;
        self.submitted_in(dir, folder.as_str(), request)
    }

    /// Looks at a job whose program hasn't ended. On a cluster Slurm is asked about it.
    fn pursued(&mut self, dir: u32, folder: &str, request: &Request) -> Result<(), Fault>
        ensures asked { self.new.asked ≡ self.old.asked }
        ensures faults { self.new.faults ≡ self.old.faults }
    {
        let job = Job {
            jobs: self.folder.as_str(),
            dir,
            folder,
            request,
        };
        if is_on_slurm(&self.rt, self.alloc, job)? {
            let mut squeue = Squeue::new(&self.rt);
            return followed(&self.rt, self.alloc, &mut self.queue, &mut squeue, job);
        }
        pursued_here(&self.rt, self.alloc, folder)
    }

    /// Whether the program of a job in a folder has ended.
    fn progress_in(&mut self, dir: u32, folder: &str, request: &Request) -> Result<Progress, Fault>
        ensures asked { self.new.asked ≡ self.old.asked }
        ensures faults { self.new.faults ≡ self.old.faults }
    {
        must_hold(&self.rt, self.alloc, folder, request)?;
        if !has_ended(&self.rt, self.alloc, folder)? {
            self.pursued(dir, folder, request)?;
            return Ok(Progress::Running);
        }
        sync_names(&self.rt, folder)?;
        Ok(Progress::Done)
    }

    /// Whether the program of a job has ended.
    fn progress(&mut self, dir: u32, request: &Request) -> Result<Progress, Fault>
        ensures asked { self.new.asked ≡ self.old.asked }
        ensures faults { self.new.faults ≡ self.old.faults }
    {
        let folder = self.folder_of(dir)?;
        self.progress_in(dir, folder.as_str(), request)
    }

    /// What the program of a job left.
    fn retrieved(&self, alloc: Global, dir: u32, request: &Request) -> Result<JobResult, Fault> {
        let folder = self.folder_of(dir)?;
        retrieved_from(&self.rt, alloc, folder.as_str(), request)
    }
}

impl<R: Files<File = File> + Processes + Env + Drop> Transport for LocalTransport<R> {
    ghost use Rattle.std.specs.Prelude.{None, false};

    ghost table = { λ _. None };

    ghost placed = { λ _. None };

    ghost tells_finished = { λ _. false };

    ghost finished = { λ _ _. ⊥ };

    ghost asked = { λ t. t.asked };

    ghost gave = { λ _ _ _ _ _. Unit {0} };

    ghost obliging = { λ _. ⊥ };

    ghost faults = { λ t. t.faults };

    fn upload(&mut self, dir: u32, request: &Request) -> Result<(), TaskError> {
        let outcome = self.uploaded(dir, request);
        self.answer(dir, "upload", outcome)
    }

    fn submit(&mut self, dir: u32, request: &Request) -> Result<(), TaskError> {
        let outcome = self.submitted(dir, request);
        self.answer(dir, "submit", outcome)
    }

    fn update(&mut self, dir: u32, request: &Request) -> Result<Progress, TaskError> {
        let outcome = self.progress(dir, request);
        self.answer(dir, "update", outcome)
    }

    fn retrieve(
        &mut self,
        alloc: Global,
        dir: u32,
        request: &Request,
    ) -> Result<JobResult, TaskError> {
        let outcome = self.retrieved(alloc, dir, request);
        self.answer(dir, "retrieve", outcome)
    }
}
