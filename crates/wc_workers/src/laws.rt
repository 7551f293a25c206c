//! Laws of logs and of runs of workers. Each is the contract of a function that does nothing.

ghost use Rattle.wc_state.specs.declared.record.Limits.{Limits};
ghost use Rattle.wc_workers.specs.Laws.{NewWorkersTakeTurns, WorkersTakeTurns, WorksAreLogs};
ghost use Rattle.wc_workers.specs.Logs.{LogsHold};

use wc_io::Pacer;
use wc_pool::turns_leave_others;
use wc_transport::Transport;

/// The worlds of a log are those of the turns that it commits, each with the answer that its worker got under its lease, before this lapses, under
/// epochs that rise for each process; its pool fits its world; and a sound world stays sound and is continued.
pub fn logs_hold<T: Transport>()
    ensures { (limits : Limits) → LogsHold T.Transport limits }
{
    turns_leave_others();
}

/// The steps of a run of workers are a log.
pub fn works_are_logs<T: Transport, P: Pacer>()
    ensures { (limits : Limits) → WorksAreLogs T.Transport P.Pacer limits }
{}

/// What a run of workers may leave at any moment is what turns and rests make of the world, where no answer was held before.
pub fn workers_take_turns<T: Transport, P: Pacer>()
    // So it is of each pool that fits.
    ensures held { (limits : Limits) → WorkersTakeTurns T.Transport P.Pacer limits }
    // So it is of a new one.
    ensures new { (limits : Limits) → NewWorkersTakeTurns T.Transport P.Pacer limits }
{
    turns_leave_others();
}
