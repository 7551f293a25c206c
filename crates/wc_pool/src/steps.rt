//! What a step makes of a pool: a lease is taken, an answer is kept, a turn is closed, or a lease is given up or lost.

ghost use Rattle.std.specs.Prelude.{◌≡◌, ◌≢◌, ◌<◌, ◌≤◌, ℕ, true, List, Some, None, IfOk, OnOk, OnErr, IfSome, MatchOption, option_map};
ghost use Rattle.wc_world.specs.Accepted.{IsReached};
ghost use Rattle.wc_world.specs.Applied.{applied};
ghost use Rattle.wc_world.specs.World.{World as AnyWorld};
ghost use Rattle.wc_world.specs.declared.change.Change.{Change};
ghost use Rattle.wc_machine.specs.declared.answer.TaskAnswer.{TaskAnswer as AnyAnswer};
ghost use Rattle.wc_machine.specs.Machine.{Leads, turn};
ghost use Rattle.wc_pool.specs.Pools.{HasClosed, HasLost, HasTaken, IsSamePool, KeepsEntries, Turns, entry_at, free_at, freed, is_current, is_free, lease_at, seat_at, workers_of};
ghost use Rattle.wc_pool.specs.Fits.{FitsNeed, FitsWorld};
ghost use Rattle.wc_pool.specs.declared.pool.Seat.TheVariants.{Free, Leased, Answered};

use crate::laws::turns_leave_others;
use crate::pool::{Entry, Lease, Pool, Seat};
use std::alloc::{AllocError, Global};
use wc_machine::TaskAnswer;
use wc_world::World;

/// A lease lasts for so many milliseconds.
const MINUTE: u64 = 60000;

impl Pool {
    /// Whether a process may be leased at a moment.
    fn is_free(&self, pid: u32, now: u64) -> bool
        ensures { result ≡ is_free self.now now pid }
    {
        match self.entries.get(&pid) {
            None => true,
            Some(entry) => entry.epoch < u64::MAX && entry.until <= now,
        }
    }

    /// The lowest ready process that may be leased at a moment.
    fn lowest_free(&self, alloc: Global, world: &World, now: u64) -> Result<Option<u32>, AllocError>
        ensures lowest { IfOk result (λ pid. pid ≡ free_at self.now world.now.world now) }
        ensures free { IfOk result (λ pid. IfSome pid (λ q. is_free self.now now q ≡ true)) }
    {
        let ready = world.ready(alloc, now)?;
        for pid in ready.as_slice() {
            if self.is_free(*pid, now) {
                return Ok(Some(*pid));
            }
        }
        Ok(None)
    }

    /// This is kept of a process from now on. It takes memory only for one that was never leased.
    fn set_entry(&mut self, pid: u32, entry: Entry) -> Result<(), AllocError>
        ensures here { OnOk result (entry_at self.new pid ≡ Some entry) }
        ensures others { OnOk result ((q : ℕ) → q ≢ pid → entry_at self.new q ≡ entry_at self.old q) }
        ensures absent { OnErr result (entry_at self.old pid ≡ None) }
        ensures same { OnErr result (KeepsEntries self.old self.new) }
        ensures workers { self.new.workers ≡ self.old.workers }
    {
        match self.entries.insert(pid, entry) {
            Ok(_) => Ok(()),
            Err(error) => Err(error.into()),
        }
    }

    /// A worker takes the next lease of a process that may be leased.
    fn begin(&mut self, worker: u32, pid: u32, now: u64) -> Result<(), AllocError>
        requires there { worker < workers_of self.old }
        requires free { is_free self.old now pid ≡ true }
        ensures taken { OnOk result (HasTaken self.old self.new worker pid now) }
        ensures same { OnErr result (IsSamePool self.old self.new) }
    {
        let epoch = self.epoch(pid) + 1;
        let until = now.saturating_add(MINUTE);
        self.set_entry(pid, Entry { epoch, until })?;
        let steps = self.steps(worker).saturating_add(1);
        self.put(worker, Seat::Leased(Lease { pid, epoch, until }), steps);
        Ok(())
    }

    /// A worker without a lease takes one on the lowest ready process that may be leased. Where there is none, it makes a step without it.
    pub fn take(
        &mut self,
        alloc: Global,
        world: &World,
        worker: u32,
        now: u64,
    ) -> Result<Option<u32>, AllocError>
        // There is such a worker.
        requires there { worker < workers_of self.old }
        // The worker has no lease.
        requires free { seat_at self.old worker ≡ Free }
        // The process is the lowest ready one that is free, if there is one.
        ensures lowest { IfOk result (λ pid. pid ≡ free_at self.old world.now.world now) }
        // The worker has a lease on it, with the next epoch; or nothing changes but that the worker took a step.
        ensures taken { IfOk result (λ taken. MatchOption taken (Turns self.old self.new worker Free) (λ pid. HasTaken self.old self.new worker pid now)) }
        // It goes on to fit the world.
        ensures fits { OnOk result ((w : AnyWorld) → FitsWorld self.old w → FitsWorld self.new w) }
        // Where memory ran out, the pool is as it was.
        ensures same { OnErr result (IsSamePool self.old self.new) }
    {
        let Some(pid) = self.lowest_free(alloc, world, now)? else {
            self.leave(worker);
            return Ok(None);
        };
        self.begin(worker, pid, now)?;
        Ok(Some(pid))
    }

    /// A worker makes a step that leaves it with nothing.
    pub fn leave(&mut self, worker: u32)
        // There is such a worker.
        requires there { worker < workers_of self.old }
        // The worker has no lease then, and took a step.
        ensures left { Turns self.old self.new worker Free }
        // It goes on to fit the world.
        ensures fits { (w : AnyWorld) → FitsWorld self.old w → FitsWorld self.new w }
    {
        let steps = self.steps(worker).saturating_add(1);
        self.put(worker, Seat::Free, steps);
    }

    /// A worker with a lease keeps what was answered to what its process needs.
    pub fn keep(&mut self, worker: u32, lease: Lease, answer: TaskAnswer)
        // There is such a worker.
        requires there { worker < workers_of self.old }
        // The worker has this lease.
        requires leased { lease_at self.old worker ≡ Some lease }
        // The worker keeps the answer beside its lease, and took a step.
        ensures kept { Turns self.old self.new worker (Answered lease answer) }
        // It goes on to fit the world, where the answer fits what the process asks.
        ensures fits { (w : AnyWorld) → FitsWorld self.old w → FitsNeed w lease.pid answer → FitsWorld self.new w }
    {
        let steps = self.steps(worker).saturating_add(1);
        self.put(worker, Seat::Answered(lease, answer), steps);
    }

    /// A worker makes a step that leaves it with nothing, and a process may be leased again.
    fn end(&mut self, worker: u32, pid: u32)
        requires there { worker < workers_of self.old }
        ensures closed { HasClosed self.old self.new worker pid }
    {
        let steps = self.steps(worker).saturating_add(1);
        self.put(worker, Seat::Free, steps);
        self.free(pid);
    }

    /// A worker whose lease is the last one of its process has committed its turn, and has nothing then; the process may be leased again.
    pub fn close(&mut self, worker: u32, lease: Lease)
        // There is such a worker.
        requires there { worker < workers_of self.old }
        // The worker has this lease.
        requires leased { lease_at self.old worker ≡ Some lease }
        // The lease is the last one of its process.
        requires current { is_current self.old lease ≡ true }
        // The lease has ended, and the worker took a step.
        ensures closed { HasClosed self.old self.new worker lease.pid }
        // It goes on to fit the world after the turn.
        ensures fits { (w : AnyWorld) (poll now : ℕ) (a : AnyAnswer) (cs : List Change) → IsReached w → Leads poll w (turn lease.pid a now) cs
            → FitsWorld self.old w → FitsWorld self.new (applied w cs) }
    {
        turns_leave_others();
        self.end(worker, lease.pid);
    }

    /// A process may be leased again at every moment.
    fn free(&mut self, pid: u32)
        ensures here { entry_at self.new pid ≡ option_map freed (entry_at self.old pid) }
        ensures others { (q : ℕ) → q ≢ pid → entry_at self.new q ≡ entry_at self.old q }
        ensures workers { self.new.workers ≡ self.old.workers }
    {
        if let Some(entry) = self.entries.get(&pid) {
            let freed = Entry {
                epoch: entry.epoch,
                until: 0,
            };
            match self.set_entry(pid, freed) {
                Ok(()) => {}
                Err(_) => unreachable!(),
            }
        }
    }

    /// A worker forgets its lease and its answer. It takes no memory, and what is kept of the process stays.
    pub fn lose(&mut self, worker: u32)
        // There is such a worker.
        requires there { worker < workers_of self.old }
        // The worker has no lease, as if it had gone.
        ensures lost { HasLost self.old self.new worker }
        // It goes on to fit the world.
        ensures fits { (w : AnyWorld) → FitsWorld self.old w → FitsWorld self.new w }
    {
        let steps = self.steps(worker);
        self.put(worker, Seat::Free, steps);
    }
}
