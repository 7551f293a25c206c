//! What a deed does with two disks, a transport and a clock. No shelf is in scope.

ghost use Rattle.std.specs.Prelude.{◌≡◌, ◌⊎◌, true, IsTrue, IfErr, IfOk};
ghost use Rattle.wc_store.specs.Stores.{HasImages, StandsFor};
ghost use Rattle.wc_act.specs.Counts.{CountsDisks};
ghost use Rattle.wc_act.specs.Crashes.{AreDurable, HoldsKeeping, LeavesKept, LeavesPairs};
ghost use Rattle.wc_act.specs.Aborted.{Aborts, WorkAborts};
ghost use Rattle.wc_act.specs.Exchanges.{exchange};
ghost use Rattle.wc_act.specs.Outside.{ActsOutside, AsksByTurns, WorksOutside, IsIdle, IsNoRun};
ghost use Rattle.wc_act.specs.Owed.{visit, DoneOn, OfVisit, OwedDeed};
ghost use Rattle.wc_plan.specs.Plans.{IsReadyDeed, IsReadyWork};
ghost use Rattle.wc_act.specs.Statuses.{IsDoneOrFull};
ghost use Rattle.wc_act.specs.Rows.{row, work_row};
ghost use Rattle.wc_act.specs.Undone.{EndsWith, IsBeforeTurns, IsUnbroken, LeavesUnwritten, ended_by};
ghost use Rattle.wc_plan.specs.declared.deed.Deed.TheVariants.{Work as OnStore};

use crate::drills::drill_reply;
use crate::error::ActError;
use crate::events::event_reply;
use crate::init::init_reply;
use crate::laws::worlds_are_kept;
use crate::opened::{Opened, open_store};
use crate::packs::pack_reply;
use crate::runs::run_reply;
use crate::views::view_reply;
use std::alloc::Global;
use wc_disk::Disk;
use wc_io::Pacer;
use wc_plan::{Begin, Deed, Reply, Work};
use wc_store::Store;
use wc_transport::Transport;

/// The reply of what is done on a store.
fn worked<D: Disk, T: Transport, P: Pacer>(
    alloc: Global,
    store: &mut Store,
    work: Work,
    one: &mut D,
    two: &mut D,
    transport: &mut T,
    pacer: &mut P,
) -> Result<Reply, ActError>
    requires ready { IsReadyWork work }
    requires live { store.old.live ≡ true }
    requires stands { IsTrue (D.tells one.old) → IsTrue (D.tells two.old) → StandsFor D.Disk store.old one.old two.old }
    requires images { HasImages store.old }
    ensures does { IfOk result (λ r. OfVisit (visit D.Disk one.old two.old one.new two.new) (DoneOn (work_row work) store.old.world.world r)) }
    ensures kept { IsTrue (D.tells one.old) → IsTrue (D.tells two.old) → LeavesPairs D.Disk one.old two.old one.new two.new
        (HoldsKeeping ((work_row work).makes (exchange T.Transport P.Pacer transport.old transport.new pacer.old pacer.new)) (D.seen one.old, D.seen two.old) store.old.world.world) }
    ensures durable { IsUnbroken result → IsTrue (D.tells one.old) → IsTrue (D.tells two.old) → AreDurable D.Disk one.new two.new }
    ensures tells { (D.tells one.new ≡ D.tells one.old) × (D.tells two.new ≡ D.tells two.old) }
    ensures untouched { EndsWith (work_row work).undone result → (one.new ≡ one.old) × (two.new ≡ two.old) }
    ensures idle { IsNoRun work → (transport.new ≡ transport.old) × (pacer.new ≡ pacer.old) }
    ensures unbegun { EndsWith IsBeforeTurns result → (transport.new ≡ transport.old) × (pacer.new ≡ pacer.old) }
    ensures asked { AsksByTurns T.Transport (OnStore work) transport.old transport.new }
    ensures outside { IfOk result (λ r. IsTrue (D.tells one.old) → IsTrue (D.tells two.old)
        → WorksOutside (exchange T.Transport P.Pacer transport.old transport.new pacer.old pacer.new) work store.old.world.world (D.seen one.new, D.seen two.new) r.status) }
    ensures broken { IfErr result (λ e. IsTrue (D.tells one.old) → IsTrue (D.tells two.old)
        → WorkAborts D.Disk (exchange T.Transport P.Pacer transport.old transport.new pacer.old pacer.new) work store.old.world.world one.new two.new (ended_by e)) }
    ensures cause { CountsDisks result (D.faults one.old) (D.faults one.new) (D.faults two.old) (D.faults two.new) (D.failed one.new) (D.failed two.new) }
{
    worlds_are_kept();
    match work {
        Work::View(view) => Ok(view_reply(alloc, store.world(), view)?),
        Work::Event(asked) => event_reply(alloc, store, asked, one, two),
        Work::Run(options) => run_reply(alloc, store, options, one, two, transport, pacer),
        Work::Pack => pack_reply(alloc, store, one, two),
    }
}

/// Whether processes take turns, some of which look for a calculation with the same key.
fn takes_turns(work: &Work) -> bool {
    matches!(work, Work::Run(_))
}

/// The reply of what is done on the store that the disks hold, if they hold one.
fn work_reply<D: Disk, T: Transport, P: Pacer>(
    alloc: Global,
    work: Work,
    one: &mut D,
    two: &mut D,
    transport: &mut T,
    pacer: &mut P,
) -> Result<Reply, ActError>
    requires ready { IsReadyWork work }
    ensures does { IfOk result (λ r. OwedDeed (visit D.Disk one.old two.old one.new two.new) (OnStore work) r) }
    ensures kept { IsTrue (D.tells one.old) → IsTrue (D.tells two.old) → LeavesKept D.Disk (row (OnStore work)).begins
        ((row (OnStore work)).makes (exchange T.Transport P.Pacer transport.old transport.new pacer.old pacer.new)) one.old two.old one.new two.new }
    ensures durable { IfOk result (λ r. IsDoneOrFull r.status → IsTrue (D.tells one.old) → IsTrue (D.tells two.old) → AreDurable D.Disk one.new two.new) }
    ensures tells { (D.tells one.new ≡ D.tells one.old) × (D.tells two.new ≡ D.tells two.old) }
    ensures undone { EndsWith (row (OnStore work)).undone result → IsTrue (D.tells one.old) → IsTrue (D.tells two.old) → LeavesUnwritten D.Disk one.old two.old one.new two.new }
    ensures idle { IsNoRun work → (transport.new ≡ transport.old) × (pacer.new ≡ pacer.old) }
    ensures unbegun { EndsWith IsBeforeTurns result → (transport.new ≡ transport.old) × (pacer.new ≡ pacer.old) }
    ensures asked { AsksByTurns T.Transport (OnStore work) transport.old transport.new }
    ensures outside { IfOk result (λ r. IsDoneOrFull r.status → IsTrue (D.tells one.old) → IsTrue (D.tells two.old)
        → ActsOutside (exchange T.Transport P.Pacer transport.old transport.new pacer.old pacer.new) (OnStore work) (D.seen one.old, D.seen two.old) (D.seen one.new, D.seen two.new) r.status) }
    ensures broken { IfErr result (λ e. IsTrue (D.tells one.old) → IsTrue (D.tells two.old)
        → Aborts D.Disk (exchange T.Transport P.Pacer transport.old transport.new pacer.old pacer.new) (OnStore work) one.old two.old one.new two.new (ended_by e)
        ((transport.new ≡ transport.old) × (pacer.new ≡ pacer.old))) }
    ensures cause { CountsDisks result (D.faults one.old) (D.faults one.new) (D.faults two.old) (D.faults two.new) (D.failed one.new) (D.failed two.new) }
{
    match open_store(alloc, one, two, takes_turns(&work))? {
        Opened::Reply(reply) => Ok(reply),
        Opened::Store(mut store) => { worked(alloc, &mut store, work, one, two, transport, pacer) }
    }
}

/// The reply of a deed.
pub fn act<D: Disk, T: Transport, P: Pacer>(
    alloc: Global,
    deed: Deed,
    one: &mut D,
    two: &mut D,
    transport: &mut T,
    pacer: &mut P,
) -> Result<Reply, ActError>
    requires ready { IsReadyDeed deed }
    ensures does { IfOk result (λ r. OwedDeed (visit D.Disk one.old two.old one.new two.new) deed r) }
    ensures kept { IsTrue (D.tells one.old) → IsTrue (D.tells two.old) → LeavesKept D.Disk (row deed).begins
        ((row deed).makes (exchange T.Transport P.Pacer transport.old transport.new pacer.old pacer.new)) one.old two.old one.new two.new }
    ensures durable { IfOk result (λ r. IsDoneOrFull r.status → IsTrue (D.tells one.old) → IsTrue (D.tells two.old) → AreDurable D.Disk one.new two.new) }
    ensures tells { (D.tells one.new ≡ D.tells one.old) × (D.tells two.new ≡ D.tells two.old) }
    ensures undone { EndsWith (row deed).undone result → IsTrue (D.tells one.old) → IsTrue (D.tells two.old) → LeavesUnwritten D.Disk one.old two.old one.new two.new }
    // The transport and the clock are as they were for a deed that takes no turns, and where it ends before the first one.
    ensures still { IsIdle deed ⊎ EndsWith IsBeforeTurns result → (transport.new ≡ transport.old) × (pacer.new ≡ pacer.old) }
    ensures asked { AsksByTurns T.Transport deed transport.old transport.new }
    ensures outside { IfOk result (λ r. IsDoneOrFull r.status → IsTrue (D.tells one.old) → IsTrue (D.tells two.old)
        → ActsOutside (exchange T.Transport P.Pacer transport.old transport.new pacer.old pacer.new) deed (D.seen one.old, D.seen two.old) (D.seen one.new, D.seen two.new) r.status) }
    ensures broken { IfErr result (λ e. IsTrue (D.tells one.old) → IsTrue (D.tells two.old)
        → Aborts D.Disk (exchange T.Transport P.Pacer transport.old transport.new pacer.old pacer.new) deed one.old two.old one.new two.new (ended_by e)
        ((transport.new ≡ transport.old) × (pacer.new ≡ pacer.old))) }
    ensures cause { CountsDisks result (D.faults one.old) (D.faults one.new) (D.faults two.old) (D.faults two.new) (D.failed one.new) (D.failed two.new) }
{
    match deed {
        Deed::Begin(Begin::Init) => init_reply(alloc, one, two),
        Deed::Begin(Begin::Drill { seed, count }) => drill_reply(alloc, one, two, seed, count),
        Deed::Work(work) => work_reply(alloc, work, one, two, transport, pacer),
    }
}
