//! A transport in memory that keeps its calls, so that it can be made once more as it stands.

ghost use Rattle.std.specs.Prelude.{◌≡◌, ◌==◌, ◌-◌, IfOk};
ghost use Rattle.std.specs.List.{list_any};
ghost use Rattle.wc_io.specs.Counts.{counted, RisesByOne};
ghost use Rattle.wc_transport.specs.Outside.{CountsTaskFault};

use crate::kept::Kept;
use std::alloc::{AllocError, Global};
use wc_state::Task;
use wc_transport::{Busy, Progress, TableTransport, TaskError, Transport};
use wc_value::{Duplicate, JobResult, List, Request, Table, both, put};

/// The numbers of the calls that are to fail, counted from a call on.
#[derive(Drop)]
struct Counter {
    /// How many calls were made.
    calls: u64,
    /// How many of them were made before those that are counted.
    before: u64,
    /// The numbers of the counted calls that fail, from 1.
    failing: List<u64>,
}

impl Counter {
    /// No call was made, and none is to fail.
    fn new(alloc: Global) -> Counter {
        Counter {
            calls: 0,
            before: 0,
            failing: List::new(alloc),
        }
    }

    /// The same counter.
    fn copy(&self, kept: &mut Kept) -> Counter {
        Counter {
            calls: self.calls,
            before: self.before,
            failing: kept.made(self.failing.copy(), List::new(kept.alloc)),
        }
    }

    /// These calls fail, counted from now on.
    fn set_failing(&mut self, failing: List<u64>) {
        self.before = self.calls;
        self.failing = failing;
    }

    /// Counts a call. Whether it is to fail, since its number is listed.
    fn fails(&mut self) -> bool
        ensures listed { result ≡ list_any (λ n. n == counted self.old.calls - self.old.before) self.old.failing }
        ensures after { self.new ≡ record self.old { calls = counted self.old.calls } }
        ensures counted { RisesByOne self.old.calls self.new.calls }
    {
        self.calls = self.calls.saturating_add(1);
        let number = self.calls.saturating_sub(self.before);
        self.failing.as_slice().contains(&number)
    }
}

/// The counters of all calls, and of those for each task.
#[derive(Drop)]
struct Counters {
    all: Counter,
    uploads: Counter,
    submits: Counter,
    updates: Counter,
    retrieves: Counter,
}

impl Counters {
    /// No call was made, and none is to fail.
    fn new(alloc: Global) -> Counters {
        Counters {
            all: Counter::new(alloc),
            uploads: Counter::new(alloc),
            submits: Counter::new(alloc),
            updates: Counter::new(alloc),
            retrieves: Counter::new(alloc),
        }
    }

    /// The same counters.
    fn copy(&self, kept: &mut Kept) -> Counters {
        Counters {
            all: self.all.copy(kept),
            uploads: self.uploads.copy(kept),
            submits: self.submits.copy(kept),
            updates: self.updates.copy(kept),
            retrieves: self.retrieves.copy(kept),
        }
    }

    /// The counter of the calls for a task, or of all.
    fn of(&self, task: Option<Task>) -> &Counter {
        match task {
            None => &self.all,
            Some(Task::Upload) => &self.uploads,
            Some(Task::Submit) => &self.submits,
            Some(Task::Update) => &self.updates,
            Some(Task::Retrieve) => &self.retrieves,
        }
    }

    /// These calls fail, counted from now on.
    fn set_failing(&mut self, task: Option<Task>, failing: List<u64>) {
        match task {
            None => self.all.set_failing(failing),
            Some(Task::Upload) => self.uploads.set_failing(failing),
            Some(Task::Submit) => self.submits.set_failing(failing),
            Some(Task::Update) => self.updates.set_failing(failing),
            Some(Task::Retrieve) => self.retrieves.set_failing(failing),
        }
    }

    /// Counts a call for a task. Whether it is to fail.
    fn fails(&mut self, task: Task) -> bool
        ensures { RisesByOne self.old.all.calls self.new.all.calls }
    {
        let is_listed = self.all.fails();
        let is_listed_there = match task {
            Task::Upload => self.uploads.fails(),
            Task::Submit => self.submits.fails(),
            Task::Update => self.updates.fails(),
            Task::Retrieve => self.retrieves.fails(),
        };
        is_listed || is_listed_there
    }
}

/// A call that was passed on.
#[derive(Drop)]
struct Asked {
    task: Task,
    directory: u32,
    request: Request,
}

impl Asked {
    /// Makes the call. One that the rules refuse changes nothing.
    fn make(&self, inner: &mut TableTransport) -> Result<(), AllocError> {
        let lost = match self.task {
            Task::Upload => is_lost(inner.upload(self.directory, &self.request)),
            Task::Submit => is_lost(inner.submit(self.directory, &self.request)),
            Task::Update => is_lost(inner.update(self.directory, &self.request)),
            Task::Retrieve => false,
        };
        if lost {
            return Err(AllocError);
        }
        Ok(())
    }
}

/// Whether memory ran out in a call.
fn is_lost<V: Drop>(reply: Result<V, TaskError>) -> bool {
    matches!(reply, Err(TaskError::OutOfMemory))
}

/// Keeps a call behind others.
fn keep_call(
    passed: &mut List<Asked>,
    task: Task,
    directory: u32,
    request: &Request,
) -> Result<(), AllocError> {
    let request = request.copy()?;
    passed.push(Asked {
        task,
        directory,
        request,
    })
}

/// Makes calls one after another, and keeps them behind others.
fn follow(kept: &mut Kept, inner: &mut TableTransport, passed: &mut List<Asked>, calls: &[Asked]) {
    for asked in calls {
        kept.keep(asked.make(inner));
        kept.keep(keep_call(passed, asked.task, asked.directory, &asked.request));
    }
}

/// The same pairs.
fn copy_busy(kept: &mut Kept, busy: &[(u32, u64)]) -> Busy {
    let mut list = List::new(kept.alloc);
    kept.keep(list.extend(busy));
    list
}

/// What runs the programs of jobs: results by requests, the directories whose first updates answer Running, and what was done.
#[derive(Drop)]
pub struct Outside {
    alloc: Global,
    table: Table,
    busy: Busy,
    inner: TableTransport,
    passed: List<Asked>,
    counters: Counters,
    faults: u64,
}

impl Outside {
    /// A transport that holds no request, with these results and Running answers, which stand in a list of its own and in one of what is below it.
    fn of(alloc: Global, tables: (Table, Table), busy: Busy, below: Busy) -> Outside {
        let (table, known) = tables;
        Outside {
            alloc,
            table,
            busy,
            inner: TableTransport::new(alloc, known, List::new(alloc), below),
            passed: List::new(alloc),
            counters: Counters::new(alloc),
            faults: 0,
        }
    }

    /// A transport that holds no request, with these results. No call of it fails, and no update answers Running.
    pub fn new(alloc: Global, table: Table) -> Result<Outside, AllocError> {
        let known = table.copy();
        let tables = both(table, known)?;
        Ok(Outside::of(alloc, tables, List::new(alloc), List::new(alloc)))
    }

    /// A transport that holds the same, and of which the same calls will fail.
    pub fn copy(&self, kept: &mut Kept) -> Result<Outside, AllocError>
        ensures { IfOk result (λ copied. copied.faults ≡ self.now.faults) }
    {
        let tables = both(self.table.copy()?, self.table.copy())?;
        let busy = copy_busy(kept, self.busy.as_slice());
        let below = copy_busy(kept, self.busy.as_slice());
        let mut outside = Outside::of(self.alloc, tables, busy, below);
        put(&mut outside.counters, self.counters.copy(kept));
        outside.faults = self.faults;
        let calls = self.passed.as_slice();
        follow(kept, &mut outside.inner, &mut outside.passed, calls);
        Ok(outside)
    }

    /// So many first updates of a directory answer Running, of which those count that were asked for before.
    pub fn set_busy(
        &mut self,
        kept: &mut Kept,
        directory: u32,
        updates: u64,
    ) -> Result<(), AllocError> {
        self.busy.push((directory, updates))?;
        let next = self.copy(kept)?;
        put(self, next);
        Ok(())
    }

    /// These calls for a task, or of all, fail, counted from now on.
    pub fn fail(&mut self, task: Option<Task>, failing: List<u64>) {
        self.counters.set_failing(task, failing);
    }

    /// How many calls were made for a task, or at all.
    pub fn asked(&self, task: Option<Task>) -> u64 {
        self.counters.of(task).calls
    }

    /// How many calls failed.
    pub fn faults(&self) -> u64
        ensures { result ≡ self.now.faults }
    {
        self.faults
    }

    /// Counts a fault.
    fn count_fault(&mut self)
        ensures kept { self.new.counters ≡ self.old.counters }
        ensures risen { RisesByOne self.old.faults self.new.faults }
    {
        self.faults = self.faults.saturating_add(1);
    }

    /// Counts a call and keeps it, unless it is to fail.
    fn begin(&mut self, task: Task, directory: u32, request: &Request) -> Result<(), TaskError>
        ensures asked { RisesByOne self.old.counters.all.calls self.new.counters.all.calls }
        ensures cause { CountsTaskFault result self.old.faults self.new.faults }
    {
        if self.counters.fails(task) {
            self.count_fault();
            return Err(TaskError::Failed);
        }
        Ok(keep_call(&mut self.passed, task, directory, request)?)
    }

    /// What a call answered, which is counted where it failed.
    fn answer<V>(&mut self, reply: Result<V, TaskError>) -> Result<V, TaskError>
        ensures same { result ≡ reply }
        ensures kept { self.new.counters ≡ self.old.counters }
        ensures cause { CountsTaskFault result self.old.faults self.new.faults }
    {
        if let Err(TaskError::Failed) = &reply {
            self.count_fault();
        }
        reply
    }
}

/// It tells nothing of what it holds, as no adapter does.
impl Transport for Outside {
    ghost use Rattle.std.specs.Prelude.{None, false};

    ghost table = { λ _. None };

    ghost placed = { λ _. None };

    ghost tells_finished = { λ _. false };

    ghost finished = { λ _ _. Unit {0} };

    ghost asked = { λ t. t.counters.all.calls };

    ghost gave = { λ _ _ _ _ _. Unit {0} };

    ghost obliging = { λ _. ⊥ };

    ghost faults = { λ t. t.faults };

    fn upload(&mut self, dir: u32, request: &Request) -> Result<(), TaskError> {
        self.begin(Task::Upload, dir, request)?;
        let reply = self.inner.upload(dir, request);
        self.answer(reply)
    }

    fn submit(&mut self, dir: u32, request: &Request) -> Result<(), TaskError> {
        self.begin(Task::Submit, dir, request)?;
        let reply = self.inner.submit(dir, request);
        self.answer(reply)
    }

    fn update(&mut self, dir: u32, request: &Request) -> Result<Progress, TaskError> {
        self.begin(Task::Update, dir, request)?;
        let reply = self.inner.update(dir, request);
        self.answer(reply)
    }

    fn retrieve(
        &mut self,
        alloc: Global,
        dir: u32,
        request: &Request,
    ) -> Result<JobResult, TaskError> {
        self.begin(Task::Retrieve, dir, request)?;
        let reply = self.inner.retrieve(alloc, dir, request);
        self.answer(reply)
    }
}
