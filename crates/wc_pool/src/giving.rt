//! Why a lease is given up.

ghost use Rattle.std.specs.Prelude.{◌≡◌};
ghost use Rattle.wc_pool.specs.Pools.{why_given};

use crate::pool::{Lease, Pool};
use wc_world::World;

/// Why a lease was given up.
#[derive(Clone, Copy)]
pub enum Why {
    /// It was the lease of this number, and the process has had this many.
    Stale(u64, u64),
    /// It was one until this moment, and now it is this one.
    Lapsed(u64, u64),
    /// The process isn't ready.
    NotReady,
}

impl Pool {
    /// Why a lease is given up at a moment, if it is.
    pub fn why_given(&self, world: &World, lease: Lease, now: u64) -> Option<Why>
        ensures { result ≡ why_given self.now world.now.world lease now }
    {
        let current = self.epoch(lease.pid);
        if lease.epoch < current {
            return Some(Why::Stale(lease.epoch, current));
        }
        if lease.until <= now {
            return Some(Why::Lapsed(lease.until, now));
        }
        if world.is_ready(lease.pid, now) {
            None
        } else {
            Some(Why::NotReady)
        }
    }
}
