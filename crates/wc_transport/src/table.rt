//! The form of a transport in memory: each result is that of a table.
ghost use Rattle.std.specs.Prelude.{true, ◌≡◌, ◌≢◌, ◌↔◌, ◌⊎◌, ℕ, Some, None, IsTrue, is_err, IsErrOf, IfOk, OnOk, OnErr, MatchOption, if◌then◌else◌};
ghost use Rattle.std.specs.List.{Contains};
ghost use Rattle.std.specs.Map.{lookup};
ghost use Rattle.wc_io.specs.Counts.{counted, RisesByOne};
ghost use Rattle.wc_io.specs.Schedule.{fails_next, Advances};
ghost use Rattle.wc_value.specs.Requests.{requests};
ghost use Rattle.wc_transport.specs.Outside.{CountsTaskFault, Places, Stays, IsRow, OnDone};
ghost use Rattle.wc_transport.specs.Form.{placed_at, stage_of, busy_at, asked_of, IsFinished, HoldsAnother, IsHeld, idle};
ghost use Rattle.wc_transport.specs.declared.error.TaskError.TheVariants as error;
ghost use Rattle.wc_transport.specs.declared.transport.Progress.TheVariants as progress;

use crate::error::TaskError;
use crate::transport::{Progress, Transport};
use std::alloc::Global;
use std::collections::BTreeMap;
use wc_io::{Failing, Schedule};
use wc_value::{Duplicate, JobResult, List, Request, Table, same_request};

/// Directories, each with how many of its first updates answer Running. The first pair of a directory counts.
pub type Busy = List<(u32, u64)>;

/// What was done in a directory beside placing its request.
#[derive(Clone, Copy, Debug, PartialEq, Eq)]
struct Stage {
    /// Whether its program was started.
    started: bool,
    /// How many updates answered Running there.
    updates: u64,
}

/// Nothing was done yet.
const IDLE: Stage = Stage {
    started: false,
    updates: 0,
};

/// How a request stands to what a directory holds.
#[derive(Clone, Copy, Debug, PartialEq, Eq)]
enum Held {
    /// The directory holds no request.
    Nothing,
    /// It holds this one.
    This,
    /// It holds another.
    Another,
}

/// The result that a table has for a request.
fn row_of<'a>(table: &'a Table, request: &Request) -> Option<&'a JobResult>
    ensures { MatchOption result (¬ Contains (requests table.now) request.now) (λ found. IsRow request.now found.now table.now) }
{
    // The rows tell that no request stands twice.
    let _rows = table.rows();
    table.find(request)
}

/// Jobs in memory. A program that was started has ended once the busy updates are over, if the table has its request.
#[derive(Drop)]
pub struct TableTransport {
    table: Table,
    busy: Busy,
    schedule: Schedule,
    placed: BTreeMap<u32, Request>,
    stages: BTreeMap<u32, Stage>,
}

impl TableTransport {
    ghost use Rattle.wc_io.specs.Memory.{fresh};

    /// A transport that holds no request yet, with the results of this table. Its calls with the listed numbers fail.
    pub fn new(alloc: Global, table: Table, failing: Failing, busy: Busy) -> TableTransport
        // It has these results.
        ensures table { result.table ≡ table }
        // These updates will answer that the program is running.
        ensures busy { result.busy ≡ busy }
        // These calls will fail, and none was made yet.
        ensures schedule { result.schedule ≡ fresh failing }
        // No directory holds a request.
        ensures placed { (dir : ℕ) → placed_at result dir ≡ None }
        // Nothing was started.
        ensures idle { (dir : ℕ) → stage_of result dir ≡ idle }
    {
        TableTransport {
            table,
            busy,
            schedule: Schedule::new(failing),
            placed: BTreeMap::new(alloc),
            stages: BTreeMap::new(alloc),
        }
    }

    /// How a request stands to what the directory holds.
    fn held(&self, dir: u32, request: &Request) -> Held
        ensures { IsHeld request.now (placed_at self.now dir) result }
    {
        match self.placed.get(&dir) {
            None => Held::Nothing,
            Some(placed) => {
                if same_request(placed, request) {
                    Held::This
                } else {
                    Held::Another
                }
            }
        }
    }

    /// What was done in a directory.
    fn stage(&self, dir: u32) -> Stage
        ensures { result ≡ stage_of self.now dir }
    {
        match self.stages.get(&dir) {
            None => IDLE,
            Some(stage) => *stage,
        }
    }

    /// How many of the first updates of a directory answer Running.
    fn busy(&self, dir: u32) -> u64
        ensures { result ≡ busy_at self.now.busy dir }
    {
        for (place, count) in self.busy.as_slice() {
            if *place == dir {
                return *count;
            }
        }
        0
    }

    /// The result of a finished directory, which holds this request.
    fn finished(&self, dir: u32, request: &Request) -> Option<&JobResult>
        requires { placed_at self.now dir ≡ Some request.now }
        ensures { MatchOption result (¬ IsFinished self.now dir) (λ found. IsFinished self.now dir × IsRow request.now found.now self.now.table) }
    {
        let stage = self.stage(dir);
        if !stage.started || stage.updates < self.busy(dir) {
            return None;
        }
        row_of(&self.table, request)
    }

    /// Counts a call that the rules refuse.
    fn refuse(&mut self) -> TaskError
        ensures failed { result ≡ error.Failed }
        ensures kept { self.new ≡ record self.old { schedule = self.new.schedule } }
        ensures schedule { self.new.schedule ≡ record self.old.schedule { faults = self.new.schedule.faults; failed = self.new.schedule.failed } }
        ensures risen { RisesByOne self.old.schedule.faults self.new.schedule.faults }
    {
        self.schedule.count_fault();
        TaskError::Failed
    }

    /// Counts a call, which fails where it is listed.
    fn call(&mut self) -> Result<(), TaskError>
        ensures failed { OnErr result (IsErrOf result error.Failed) }
        ensures fails { is_err result ≡ fails_next self.old.schedule }
        ensures kept { self.new ≡ record self.old { schedule = self.new.schedule } }
        ensures asked { RisesByOne (asked_of self.old) (asked_of self.new) }
        ensures schedule { Advances self.old.schedule self.new.schedule }
        ensures cause { CountsTaskFault result self.old.schedule.faults self.new.schedule.faults }
    {
        self.schedule.call()?;
        Ok(())
    }

    /// Counts a call, which fails where it is listed, and where the directory doesn't hold this request.
    fn begin(&mut self, dir: u32, request: &Request) -> Result<(), TaskError>
        ensures failed { OnErr result (IsErrOf result error.Failed) }
        ensures fails { IsErrOf result error.Failed ↔ (IsTrue (fails_next self.old.schedule) ⊎ (placed_at self.old dir ≢ Some request.now)) }
        ensures held { OnOk result (placed_at self.new dir ≡ Some request.now) }
        ensures kept { self.new ≡ record self.old { schedule = self.new.schedule } }
        ensures asked { RisesByOne (asked_of self.old) (asked_of self.new) }
        ensures schedule { Advances self.old.schedule self.new.schedule }
        ensures cause { CountsTaskFault result self.old.schedule.faults self.new.schedule.faults }
    {
        self.call()?;
        match self.held(dir, request) {
            Held::This => {}
            Held::Nothing | Held::Another => return Err(self.refuse()),
        }
        Ok(())
    }
}

impl Transport for TableTransport {
    ghost use Rattle.std.specs.Prelude.{Some, true};
    ghost use Rattle.wc_transport.specs.Form.{placed_at, asked_of, IsFinished, IsObliging};

    ghost table = { λ t. Some t.table };

    ghost placed = { λ t. Some (placed_at t) };

    ghost tells_finished = { λ _. true };

    ghost finished = { IsFinished };

    ghost asked = { asked_of };

    ghost gave = { λ _ _ _ _ _. Unit {0} };

    ghost obliging = { IsObliging };

    ghost faults = { λ t. t.schedule.faults };

    fn upload(&mut self, dir: u32, request: &Request) -> Result<(), TaskError>
        // It fails exactly where it is listed, or the directory holds another request.
        ensures fails { IsErrOf result error.Failed ↔ (IsTrue (fails_next self.old.schedule) ⊎ HoldsAnother request.now (placed_at self.old dir)) }
        ensures placed { Places dir request.now result (placed_at self.old) (placed_at self.new) }
        // Where it isn't Ok, all directories stay.
        ensures kept { OnErr result ((d : ℕ) → placed_at self.new d ≡ placed_at self.old d) }
        // Which programs were started, and which have ended, stays.
        ensures stages { (d : ℕ) → stage_of self.new d ≡ stage_of self.old d }
        ensures finished { Stays (IsFinished self.old) (IsFinished self.new) }
        ensures table { self.new.table ≡ self.old.table }
        // Which updates answer Running stays.
        ensures busy { self.new.busy ≡ self.old.busy }
        // The call is counted.
        ensures schedule { Advances self.old.schedule self.new.schedule }
        ensures asked { RisesByOne (asked_of self.old) (asked_of self.new) }
        ensures cause { CountsTaskFault result self.old.schedule.faults self.new.schedule.faults }
    {
        self.call()?;
        match self.held(dir, request) {
            Held::This => Ok(()),
            Held::Another => Err(self.refuse()),
            Held::Nothing => {
                self.placed.insert(dir, request.copy()?)?;
                Ok(())
            }
        }
    }

    fn submit(&mut self, dir: u32, request: &Request) -> Result<(), TaskError>
        // It fails exactly where it is listed, or the directory doesn't hold this request.
        ensures fails { IsErrOf result error.Failed ↔ (IsTrue (fails_next self.old.schedule) ⊎ (placed_at self.old dir ≢ Some request.now)) }
        ensures held { OnOk result (placed_at self.old dir ≡ Some request.now) }
        ensures placed { self.new.placed ≡ self.old.placed }
        // Where it is Ok, the program is started.
        ensures started { OnOk result (stage_of self.new dir ≡ record (stage_of self.old dir) { started = true }) }
        // Other directories stay.
        ensures others { (d : ℕ) → d ≢ dir → stage_of self.new d ≡ stage_of self.old d }
        // Where it isn't Ok, nothing was started.
        ensures kept { OnErr result ((d : ℕ) → stage_of self.new d ≡ stage_of self.old d) }
        ensures finished { Stays (IsFinished self.old) (IsFinished self.new) }
        ensures table { self.new.table ≡ self.old.table }
        // Which updates answer Running stays.
        ensures busy { self.new.busy ≡ self.old.busy }
        // The call is counted.
        ensures schedule { Advances self.old.schedule self.new.schedule }
        ensures asked { RisesByOne (asked_of self.old) (asked_of self.new) }
        ensures cause { CountsTaskFault result self.old.schedule.faults self.new.schedule.faults }
    {
        self.begin(dir, request)?;
        let stage = self.stage(dir);
        let started = Stage {
            started: true,
            ..stage
        };
        self.stages.insert(dir, started)?;
        Ok(())
    }

    fn update(&mut self, dir: u32, request: &Request) -> Result<Progress, TaskError>
        ensures fails { IsErrOf result error.Failed ↔ (IsTrue (fails_next self.old.schedule) ⊎ (placed_at self.old dir ≢ Some request.now)) }
        ensures held { OnOk result (placed_at self.old dir ≡ Some request.now) }
        ensures done { IfOk result (λ answer. answer ≡ progress.Done ↔ IsFinished self.old dir) }
        ensures placed { self.new.placed ≡ self.old.placed }
        ensures over { IfOk result (λ answer. answer ≡ progress.Done → stage_of self.new dir ≡ stage_of self.old dir) }
        ensures counted { IfOk result (λ answer. answer ≡ progress.Running → stage_of self.new dir ≡ record (stage_of self.old dir) { updates = counted (stage_of self.old dir).updates }) }
        ensures others { (d : ℕ) → d ≢ dir → stage_of self.new d ≡ stage_of self.old d }
        ensures kept { OnErr result ((d : ℕ) → stage_of self.new d ≡ stage_of self.old d) }
        ensures finished { Stays (IsFinished self.old) (IsFinished self.new) }
        ensures table { self.new.table ≡ self.old.table }
        ensures busy { self.new.busy ≡ self.old.busy }
        ensures schedule { Advances self.old.schedule self.new.schedule }
        ensures asked { RisesByOne (asked_of self.old) (asked_of self.new) }
        ensures cause { CountsTaskFault result self.old.schedule.faults self.new.schedule.faults }
    {
        self.begin(dir, request)?;
        if self.finished(dir, request).is_some() {
            return Ok(Progress::Done);
        }
        let stage = self.stage(dir);
        let counted = Stage {
            updates: stage.updates.saturating_add(1),
            ..stage
        };
        self.stages.insert(dir, counted)?;
        Ok(Progress::Running)
    }

    fn retrieve(
        &mut self,
        _alloc: Global,
        dir: u32,
        request: &Request,
    ) -> Result<JobResult, TaskError>
        ensures fails { IsErrOf result error.Failed ↔ (IsTrue (fails_next self.old.schedule) ⊎ ((placed_at self.old dir ≢ Some request.now) ⊎ (¬ IsFinished self.old dir))) }
        ensures result { IfOk result (λ brought. IsRow request.now brought self.old.table) }
        ensures held { OnOk result (placed_at self.old dir ≡ Some request.now) }
        ensures done { OnOk result (IsFinished self.old dir) }
        ensures kept { self.new ≡ record self.old { schedule = self.new.schedule } }
        ensures asked { RisesByOne (asked_of self.old) (asked_of self.new) }
        ensures schedule { Advances self.old.schedule self.new.schedule }
        ensures cause { CountsTaskFault result self.old.schedule.faults self.new.schedule.faults }
    {
        self.begin(dir, request)?;
        match self.finished(dir, request) {
            Some(found) => Ok(found.copy()?),
            None => Err(self.refuse()),
        }
    }
}
