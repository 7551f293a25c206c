//! The run of a drill.

ghost use Rattle.std.specs.Prelude.{◌≡◌, Some, true, IsTrue, IfOk, IfErr, OnErr};
ghost use Rattle.wc_store.specs.Stepped.{Stepped};
ghost use Rattle.wc_store.specs.Stores.{StandsFor};
ghost use Rattle.wc_ends.specs.Runner.Refusals.{RefusesRun, is_live_after};
ghost use Rattle.wc_drill.specs.Squares.{square_rows};
ghost use Rattle.wc_drill.specs.Drilled.{outside};
ghost use Rattle.wc_drill.specs.Runs.{EndsAll, TakesFewer, TakesSome};
ghost use Rattle.wc_ends.specs.Enough.{HasEnough};
ghost use Rattle.wc_world.specs.Accepted.{IsReached};

use crate::submissions::usual_limits;
use std::alloc::Global;
use wc_disk::Disk;
use wc_ends::{RunEnd, RunError, run};
use wc_io::Pacer;
use wc_store::Store;
use wc_transport::Transport;

/// Takes turns on a store, with a transport whose results are the squares, in the order of the processes' numbers, until no process is live: as many are given
/// as are enough.
pub(crate) fn run_chains<D: Disk, T: Transport, P: Pacer>(
    alloc: Global,
    store: &mut Store,
    one: &mut D,
    two: &mut D,
    transport: &mut T,
    pacer: &mut P,
    turns: u64,
) -> Result<RunEnd, RunError>
    requires live { store.old.live ≡ true }
    requires stands { IsTrue (D.tells one.old) → IsTrue (D.tells two.old) → StandsFor D.Disk store.old one.old two.old }
    requires table { T.table transport.old ≡ Some (square_rows 100) }
    requires reached { IsReached store.old.world.world }
    requires enough { HasEnough T.Transport P.Pacer transport.old pacer.old store.old.world.world turns }
    // At each moment, and then, the store has what at most as many turns and rests as are given make, by its journal.
    ensures stepped { Stepped D.Disk (TakesSome turns store.old) (is_live_after result) store.old one.old two.old store.new one.new two.new }
    ensures ends { IfOk result (EndsAll store.new.world.world) }
    ensures early { OnErr result (TakesFewer turns store.old.world.world store.new.world.world) }
    ensures refused { IfErr result (RefusesRun outside store.new) }
{
    let limits = usual_limits();
    run(alloc, store, one, two, transport, pacer, &limits, turns, 0)
}
