//! Workers, the leases that they hold, and what is kept of each process that was ever leased.

ghost use Rattle.std.specs.Prelude.{◌≡◌, ◌<◌, ◌≤◌, length, get_or, IfOk};
ghost use Rattle.std.specs.BTreeMap.{get};
ghost use Rattle.std.specs.Ordering.{nat_cmp};
ghost use Rattle.std.specs.List.{slice_set};
ghost use Rattle.wc_world.specs.World.{World as AnyWorld};
ghost use Rattle.wc_pool.specs.Pools.{IsNew, entry_at, epoch_at, idle, seat_at, steps_at, worker_at, workers_of};
ghost use Rattle.wc_pool.specs.Fits.{FitsWorld};

use std::alloc::{AllocError, Global};
use std::collections::BTreeMap;
use wc_machine::TaskAnswer;

/// A worker may ask for this process and commit its turn, before a moment. A later lease of the same process has a greater epoch.
#[derive(Clone, Copy)]
pub struct Lease {
    /// The process.
    pub pid: u32,
    /// How many leases of it there were with this one.
    pub epoch: u64,
    /// The moment from which on it has lapsed.
    pub until: u64,
}

/// What is kept of a process that was ever leased: its last lease's number, and until when no other one begins.
#[derive(Clone, Copy)]
pub(crate) struct Entry {
    pub(crate) epoch: u64,
    pub(crate) until: u64,
}

/// What a worker has.
#[derive(Drop)]
pub enum Seat {
    /// Nothing.
    Free,
    /// A lease.
    Leased(Lease),
    /// A lease, and what the transport answered to what its process needs.
    Answered(Lease, TaskAnswer),
}

/// A worker, and how many steps it has made.
#[derive(Drop)]
pub(crate) struct Worker {
    pub(crate) seat: Seat,
    pub(crate) steps: u64,
}

/// Workers, and what is kept of each process that was ever leased.
#[derive(Drop)]
pub struct Pool {
    pub(crate) workers: Vec<Worker>,
    pub(crate) entries: BTreeMap<u32, Entry>,
}

impl Pool {
    /// So many workers, none of which has a lease or has made a step, where no process was ever leased. It fits each world.
    pub fn new(alloc: Global, workers: u32) -> Result<Pool, AllocError>
        // There is at least one worker.
        requires some { 1 ≤ workers }
        // There are at most sixteen.
        requires few { workers ≤ 16 }
        // No worker has a lease, and none has taken a step.
        ensures new { IfOk result (IsNew workers) }
        // It fits any world.
        ensures fits { IfOk result (λ pool. (w : AnyWorld) → FitsWorld pool w) }
    {
        let mut list = Vec::new(alloc);
        for _ in 0..workers {
            list.push(Worker {
                seat: Seat::Free,
                steps: 0,
            })?;
        }
        Ok(Pool {
            workers: list,
            entries: BTreeMap::new(alloc),
        })
    }

    /// How many workers there are.
    pub fn workers(&self) -> usize
        ensures { result ≡ workers_of self.now }
    {
        self.workers.len()
    }

    /// What a worker has.
    pub fn seat(&self, worker: u32) -> &Seat
        // There is such a worker.
        requires { worker < workers_of self.now }
        ensures { result.now ≡ seat_at self.now worker }
    {
        &self.workers[worker as usize].seat
    }

    /// How many steps a worker has made, a count of 64 bits.
    pub fn steps(&self, worker: u32) -> u64
        // There is such a worker.
        requires { worker < workers_of self.now }
        ensures { result ≡ steps_at self.now worker }
    {
        self.workers[worker as usize].steps
    }

    /// How many leases of a process there were.
    pub fn epoch(&self, pid: u32) -> u64
        ensures { result ≡ epoch_at self.now pid }
    {
        match self.entries.get(&pid) {
            None => 0,
            Some(entry) => entry.epoch,
        }
    }

    /// A worker has this, after so many steps.
    pub(crate) fn put(&mut self, worker: u32, seat: Seat, steps: u64)
        requires { worker < workers_of self.old }
        ensures workers { self.new.workers.items ≡ slice_set self.old.workers.items worker (record { seat = seat; steps = steps }) }
        ensures entries { self.new.entries ≡ self.old.entries }
    {
        self.workers[worker as usize] = Worker { seat, steps };
    }
}
