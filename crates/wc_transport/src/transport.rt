//! What runs the programs of jobs.
ghost use Rattle.std.specs.Prelude.{◌≡◌, ℕ, List, Bool, Option, IsTrue, IfOk, OnOk};
ghost use Rattle.wc_io.specs.Counts.{RisesByOne};
ghost use Rattle.wc_state.specs.declared.record.Task.{Task};
ghost use Rattle.wc_state.specs.declared.record.Task.TheVariants as task;
ghost use Rattle.wc_value.specs.declared.process.Request.{Request};
ghost use Rattle.wc_value.specs.declared.process.JobResult.{JobResult};
ghost use Rattle.wc_transport.specs.Outside.{Reply, task_reply, update_reply, retrieve_reply, CountsTaskFault, WhereTold, BothTold, Places, Stays, Holds, IsRow, OnDone};
ghost use Rattle.wc_transport.specs.Obliging.{IsObliged};

use crate::error::TaskError;
use std::alloc::Global;
use wc_value::{JobResult, Request};

/// How far the program of a job has come.
#[derive(Clone, Copy, PartialEq, Eq)]
pub enum Progress {
    /// It hasn't ended, as far as is known.
    Running,
    /// It has ended.
    Done,
}

/// What runs the programs of jobs, each in a directory of its own, which takes one request for ever.
///
/// A call with another request than the placed one fails, and so does any but `upload` on a directory that holds none.
/// Each call may be made again, after a failure and after a crash.
pub trait Transport {
    /// The results that it gives, by their requests, where it tells them. No call changes them.
    ghost table: { Self → Option (List (Request × JobResult)) };

    /// The request of each directory that holds one, where it tells them. A placed one stays as it is.
    ghost placed: { Self → Option (ℕ → Option Request) };

    /// Whether it tells which directories are finished.
    ghost tells_finished: { Self → Bool };

    /// The directories whose job has ended, where it tells them. A finished one stays finished.
    ghost finished: { Self → ℕ → Type 0 };

    /// How many calls were made.
    ghost asked: { Self → ℕ };

    /// What a call for a directory, of a kind and with a request answered. Of this relation nothing else is known.
    ghost gave: { Self → ℕ → Task → Request → Reply → Type 0 };

    /// It fails no call that the rules don't refuse, and a program that it starts has ended, if its table has the request.
    ghost obliging: { Self → Type 0 };

    /// How often a call has failed.
    ghost faults: { Self → ℕ };

    /// Places the request. Repeated, it has no second effect. It may have placed the request where it doesn't answer Ok.
    fn upload(&mut self, dir: u32, request: &Request) -> Result<(), TaskError>
        ensures table { table self.new ≡ table self.old }
        ensures placed { BothTold (Places dir request.now result) (placed self.old) (placed self.new) }
        ensures finished { Stays (finished self.old) (finished self.new) }
        ensures tells_finished { tells_finished self.new ≡ tells_finished self.old }
        ensures asked { RisesByOne (asked self.old) (asked self.new) }
        ensures gave { gave self.new dir task.Upload request.now (task_reply result) }
        ensures obliging { obliging self.old
            → obliging self.new × IsObliged (table self.old) (placed self.old) (finished self.old) (finished self.new) dir task.Upload request.now (task_reply result) }
        ensures cause { CountsTaskFault result (faults self.old) (faults self.new) };

    /// Starts the program, once.
    fn submit(&mut self, dir: u32, request: &Request) -> Result<(), TaskError>
        ensures held { OnOk result (WhereTold (Holds dir request.now) (placed self.old)) }
        ensures table { table self.new ≡ table self.old }
        ensures placed { placed self.new ≡ placed self.old }
        ensures finished { Stays (finished self.old) (finished self.new) }
        ensures tells_finished { tells_finished self.new ≡ tells_finished self.old }
        ensures asked { RisesByOne (asked self.old) (asked self.new) }
        ensures gave { gave self.new dir task.Submit request.now (task_reply result) }
        ensures obliging { obliging self.old
            → obliging self.new × IsObliged (table self.old) (placed self.old) (finished self.old) (finished self.new) dir task.Submit request.now (task_reply result) }
        ensures cause { CountsTaskFault result (faults self.old) (faults self.new) };

    /// Whether the program has ended: done only for a finished directory.
    fn update(&mut self, dir: u32, request: &Request) -> Result<Progress, TaskError>
        // Where it is Ok and requests are told, the directory holds this one.
        ensures held { OnOk result (WhereTold (Holds dir request.now) (placed self.old)) }
        // Done only where the directory's program has ended, if that is told.
        ensures done { IfOk result (λ progress. OnDone progress (IsTrue (tells_finished self.old) → finished self.old dir)) }
        // The table stays.
        ensures table { table self.new ≡ table self.old }
        // Which requests are placed stays.
        ensures placed { placed self.new ≡ placed self.old }
        // What has ended stays so.
        ensures finished { Stays (finished self.old) (finished self.new) }
        // Whether ends are told stays.
        ensures tells_finished { tells_finished self.new ≡ tells_finished self.old }
        // It was asked once more.
        ensures asked { RisesByOne (asked self.old) (asked self.new) }
        // Its answer counts as given, for this directory, task and request.
        ensures gave { gave self.new dir task.Update request.now (update_reply result) }
        // An obliging transport stays one, and its answer is as obliging ones are.
        ensures obliging { obliging self.old
            → obliging self.new × IsObliged (table self.old) (placed self.old) (finished self.old) (finished self.new) dir task.Update request.now (update_reply result) }
        // A failure raises the count of faults, and nothing else does.
        ensures cause { CountsTaskFault result (faults self.old) (faults self.new) };

    /// Brings back the result of a finished directory. Where the table is told it is the table's.
    fn retrieve(
        &mut self,
        alloc: Global,
        dir: u32,
        request: &Request,
    ) -> Result<JobResult, TaskError>
        // What is brought back is the table's row for the request, if the table is told.
        ensures result { IfOk result (λ brought. WhereTold (IsRow request.now brought) (table self.old)) }
        // Where it is Ok and requests are told, the directory holds this one.
        ensures held { OnOk result (WhereTold (Holds dir request.now) (placed self.old)) }
        // Ok only where the directory's program has ended, if that is told.
        ensures done { OnOk result (IsTrue (tells_finished self.old) → finished self.old dir) }
        // The table stays.
        ensures table { table self.new ≡ table self.old }
        // Which requests are placed stays.
        ensures placed { placed self.new ≡ placed self.old }
        // What has ended stays so.
        ensures finished { Stays (finished self.old) (finished self.new) }
        // Whether ends are told stays.
        ensures tells_finished { tells_finished self.new ≡ tells_finished self.old }
        // It was asked once more.
        ensures asked { RisesByOne (asked self.old) (asked self.new) }
        // Its answer counts as given, for this directory, task and request.
        ensures gave { gave self.new dir task.Retrieve request.now (retrieve_reply result) }
        // An obliging transport stays one, and its answer is as obliging ones are.
        ensures obliging { obliging self.old
            → obliging self.new × IsObliged (table self.old) (placed self.old) (finished self.old) (finished self.new) dir task.Retrieve request.now (retrieve_reply result) }
        // A failure raises the count of faults, and nothing else does.
        ensures cause { CountsTaskFault result (faults self.old) (faults self.new) };
}
