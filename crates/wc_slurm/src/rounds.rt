//! One question a round, whatever the number of jobs.
ghost use Rattle.wc_slurm.specs.Queue.{AreDistinct, AsksOnceAtMost};

use crate::queue::Queue;
use crate::scheduler::Scheduler;
use std::alloc::{AllocError, Global};

/// Looks at folders one after another, each named once, as a round of polls does: at most one question is asked.
#[tactic(auto, using(crate::proofs::Stale::begins, crate::proofs::Stale::next_look, crate::proofs::Stale::broken_look, crate::proofs::Stale::ends))]
pub fn look_at_all<S: Scheduler>(
    queue: &mut Queue,
    scheduler: &mut S,
    alloc: Global,
    dirs: &[u32],
) -> Result<(), AllocError>
    requires { AreDistinct dirs.now }
    ensures { AsksOnceAtMost (S.answers scheduler.old) (S.answers scheduler.new) }
{
    for dir in dirs {
        queue.look(scheduler, alloc, *dir)?;
    }
    Ok(())
}
