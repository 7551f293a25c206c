//! Turns one after another.

ghost use Rattle.std.specs.Prelude.{◌≡◌, ◌<◌, ◌≤◌, ◌+◌, ◌^◌, true, IsTrue, IfErr};
ghost use Rattle.wc_io.specs.Counts.{Rises};
ghost use Rattle.wc_state.specs.Ranges.{AreLimits};
ghost use Rattle.wc_store.specs.Stepped.{LeavesNow, Stepped, of_world};
ghost use Rattle.wc_store.specs.Stores.{StandsFor};
ghost use Rattle.wc_runner.specs.Asked.{AreOfProcesses, IsAskedFor};
ghost use Rattle.wc_runner.specs.Leaves.{IsLedWithin};
ghost use Rattle.wc_world.specs.Accepted.{IsReached};
ghost use Rattle.wc_machine.specs.Sound.{IsSound};
ghost use Rattle.wc_runner.specs.Codes.{AreBrought};
ghost use Rattle.wc_runner.specs.Marks.{AreNoWorse};
ghost use Rattle.wc_runner.specs.Orders.{Went};
ghost use Rattle.wc_runner.specs.Outside.{in_run};
ghost use Rattle.wc_runner.specs.Refusals.{RefusesRun, is_live_after};
ghost use Rattle.wc_runner.specs.Runs.{Ends, TakesUpTo};

use crate::error::RunError;
use crate::turns::turn_one;
use std::alloc::Global;
use wc_core::{Next, Order, Standing, next_turn, standing_of};
use wc_disk::Disk;
use wc_io::Pacer;
use wc_state::Limits;
use wc_store::Store;
use wc_transport::Transport;

/// How a run ended.
#[derive(Clone, Copy, PartialEq, Eq)]
pub enum RunEnd {
    /// No process is live.
    AllEnded,
    /// As many turns and rests were taken as were given.
    Spent,
    /// Each live process is paused, or waits, through calls, for a paused one.
    Resting,
}

/// Takes turns of ready processes, and commits each, until no process is live, or each live one is held up, or as many turns and rests were
/// taken as are given. Where none is ready it rests until the first one will be.
pub fn run<D: Disk, T: Transport, P: Pacer>(
    alloc: Global,
    store: &mut Store,
    one: &mut D,
    two: &mut D,
    transport: &mut T,
    pacer: &mut P,
    limits: &Limits,
    turns: u64,
    seed: u32,
) -> Result<RunEnd, RunError>
    requires live { store.old.live ≡ true }
    requires stands { IsTrue (D.tells one.old) → IsTrue (D.tells two.old) → StandsFor D.Disk store.old one.old two.old }
    requires limits { AreLimits limits.now }
    // At each moment, and then, the store has what a trail of at most as many turns and rests as are given led to, within the limits of nodes and of bytes.
    ensures stepped { Stepped D.Disk (IsLedWithin T.Transport P.Pacer limits.now turns transport.old pacer.old store.old.world.world store.old.journal transport.new pacer.new)
        (is_live_after result) store.old one.old two.old store.new one.new two.new }
    // Each turn is taken with the answer to its own call of the transport, at a moment that the clock was asked for once, one after another from
    // transport, clock and world as they were to those that are left, in the order of the seed. So it is up to where a run breaks off: there a turn is
    // refused, by its own call, or memory ran out before one. Full is told of the store that is left, by its own journal.
    ensures went { Went T.Transport P.Pacer limits.now transport.old pacer.old store.old.world.world seed turns result store.new.journal transport.new pacer.new store.new.world.world }
    ensures takes { TakesUpTo (in_run T.Transport P.Pacer limits.now transport.old transport.new pacer.new) turns store.old.world.world store.new.world.world (P.rests pacer.old) (P.rests pacer.new) }
    // A run breaks off before it has taken as many turns and rests as are given.
    ensures ends { Ends (in_run T.Transport P.Pacer limits.now transport.old transport.new pacer.new) turns store.old.world.world store.new.world.world (P.rests pacer.old) (P.rests pacer.new) result }
    ensures refused { IfErr result (RefusesRun (in_run T.Transport P.Pacer limits.now transport.old transport.new pacer.new) store.new) }
    // What a crash leaves in the end holds each process whose directory is placed then, where it was so in the beginning.
    ensures directories { AreOfProcesses (T.placed transport.old) store.old.world.world → IsTrue (D.tells one.old) → IsTrue (D.tells two.old)
        → LeavesNow D.Disk store.old.place (of_world (AreOfProcesses (T.placed transport.new))) one.new two.new }
    ensures processes { AreOfProcesses (T.placed transport.old) store.old.world.world → AreOfProcesses (T.placed transport.new) store.new.world.world }
    // Where no call of the transport failed, no process was paused, and none has failed more often.
    ensures marks { ¬ Rises (T.faults transport.old) (T.faults transport.new) → AreNoWorse store.old.world.world store.new.world.world }
    // In a sound world each exit code that was not kept before is that of a result that the transport gave for the job's request.
    ensures codes { IsReached store.old.world.world → IsSound store.old.world.world
        → AreBrought (in_run T.Transport P.Pacer limits.now transport.old transport.new pacer.new) store.old.world.world store.new.world.world }
    ensures asked { IsAskedFor T.Transport turns transport.old transport.new }
{
    let mut taken: u64 = 0;
    let mut order = Order::of(seed);
    'trip: loop {
        match standing_of(store.world()) {
            Standing::AllEnded => return Ok(RunEnd::AllEnded),
            Standing::Resting => return Ok(RunEnd::Resting),
            Standing::Going => {}
        }
        if taken == turns {
            return Ok(RunEnd::Spent);
        }
        let now = pacer.now();
        let next = next_turn(alloc, store.world(), now, &mut order)?;
        let pid = match next {
            Next::Turn(pid) => pid,
            Next::Rest(until) => {
                pacer.rest(until - now);
                taken += 1;
                continue 'trip;
            }
        };
        match turn_one(alloc, store, one, two, transport, limits, pid, now) {
            Ok(()) => taken += 1,
            Err(error) => return Err(error),
        }
    }
}
