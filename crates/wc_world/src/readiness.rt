//! Which processes of a world are ready for a turn.

ghost use Rattle.std.specs.Prelude.{◌≡◌, IfOk};
ghost use Rattle.wc_records.specs.Readiness.{ready_at};
ghost use Rattle.wc_records.specs.Ready.{is_ready_at, first_above};

use crate::world::World;
use std::alloc::{AllocError, Global};

impl World {
    /// Whether the process with this number is there and is ready at a moment. It takes no memory.
    pub fn is_ready(&self, pid: u32, now: u64) -> bool
        ensures { result ≡ is_ready_at self.now.world.records pid now }
    {
        self.records.is_ready(pid, now)
    }

    /// The numbers of the processes that are ready at a moment, ascending.
    pub fn ready(&self, alloc: Global, now: u64) -> Result<Vec<u32>, AllocError>
        ensures { IfOk result (λ ids. ids.items ≡ ready_at self.now.world.records now) }
    {
        self.records.ready(alloc, now)
    }

    /// The first number above the last one of the processes that are ready at a moment, else the first of all, and none where
    /// none is ready. It takes no memory.
    pub fn next_ready(&self, last: u32, now: u64) -> Option<u32>
        ensures { result ≡ first_above last (ready_at self.now.world.records now) }
    {
        self.records.next_ready(last, now)
    }
}
