//! The top call.

ghost use Rattle.std.specs.Prelude.{◌≡◌, IsTrue, IfErr, IfOk};
ghost use Rattle.wc_cli.specs.Words.{command_of};
ghost use Rattle.wc_io.specs.Counts.{RisesByOne, EitherFailedLast};
ghost use Rattle.wc_io.specs.Forms.{TakesPart};
ghost use Rattle.wc_act.specs.Asked.{IsAskedFor};
ghost use Rattle.wc_act.specs.Counts.{CountsReply, status_of};
ghost use Rattle.wc_act.specs.Crashes.{AreDurable, EachPair, HoldsSound, HoldsTheSame, LeavesMade, Stands, StaySound};
ghost use Rattle.wc_act.specs.Aborted.{ServesAborted};
ghost use Rattle.wc_act.specs.Enough.{EndsOrBreaks, HasEnoughToRun};
ghost use Rattle.wc_act.specs.Exchanges.{exchange};
ghost use Rattle.wc_act.specs.Outside.{turns_of, ServesOutside, TakesNoTurns};
ghost use Rattle.wc_act.specs.Owed.{visit, AskNoDisk, IsCertain, IsNoDeeds, IsOwed, LeaveUndone, NeedDisks};
ghost use Rattle.wc_plan.specs.Expand.{SparesSpec};
ghost use Rattle.wc_plan.specs.Naming.{files_named, AsksFirst};
ghost use Rattle.wc_plan.specs.Plans.{NamesNoFile};
ghost use Rattle.wc_plan.specs.Replies.{IsReplied, OwesStatus, Writes};
ghost use Rattle.wc_act.specs.Statuses.{IsDoneOrFull};
ghost use Rattle.wc_act.specs.Undone.{IsBeforeTurns, LeavesUnwritten};
ghost use Rattle.wc_plan.specs.declared.reply.Reply.{Reply as AReply};
ghost use Rattle.wc_plan.specs.declared.status.Cause.{Cause as ACause};

use std::alloc::Global;
use wc_act::{ReplyError, act, worlds_are_kept};
use wc_disk::Disk;
use wc_io::{Pacer, Shelf, Sink};
use wc_plan::{Plan, Reply, Status, finish, plan};
use wc_transport::Transport;
use wc_value::Words;

/// The reply to the words, as the shelf's files and the disks make it.
fn answer<R: Shelf, D: Disk, T: Transport, P: Pacer>(
    alloc: Global,
    words: &Words,
    shelf: &mut R,
    one: &mut D,
    two: &mut D,
    transport: &mut T,
    pacer: &mut P,
) -> Result<Reply, ReplyError>
    ensures owed { IfOk result (λ r. IsOwed (R.contents shelf.old) (visit D.Disk one.old two.old one.new two.new) words.now r) }
    ensures counts { CountsReply result (R.faults shelf.old) (R.faults shelf.new) (D.faults one.old) (D.faults one.new) (D.faults two.old) (D.faults two.new)
        one.old one.new two.old two.new (R.failed shelf.new) (D.failed one.new) (D.failed two.new) }
    ensures contents { R.contents shelf.new ≡ R.contents shelf.old }
    ensures tells { (D.tells one.new ≡ D.tells one.old) × (D.tells two.new ≡ D.tells two.old) }
    ensures unnamed { NamesNoFile (command_of words.now) → shelf.new ≡ shelf.old }
    ensures named { AsksFirst (files_named (command_of words.now)) (R.asked shelf.old) (R.asked shelf.new) }
    ensures spared { SparesSpec (R.contents shelf.old) (command_of words.now) (R.asked shelf.old) (R.asked shelf.new) }
    ensures idle { TakesNoTurns (command_of words.now) → (transport.new ≡ transport.old) × (pacer.new ≡ pacer.old) }
    ensures unbegun { IsBeforeTurns (status_of result) → (transport.new ≡ transport.old) × (pacer.new ≡ pacer.old) }
    ensures asked { IsAskedFor T.Transport (turns_of (command_of words.now)) transport.old transport.new }
    ensures outside { IfOk result (λ r. NeedDisks (R.contents shelf.old) words.now → IsDoneOrFull r.status → IsTrue (D.tells one.old) → IsTrue (D.tells two.old)
        → ServesOutside (R.contents shelf.old) words.now (exchange T.Transport P.Pacer transport.old transport.new pacer.old pacer.new) (visit D.Disk one.old two.old one.new two.new) r.status) }
    ensures unasked { AskNoDisk (R.contents shelf.old) words.now → (one.new ≡ one.old) × (two.new ≡ two.old) × (status_of result ≡ Status.DiskFault → ⊥) }
    ensures early { (c : ACause) → status_of result ≡ Status.Refused c → IsNoDeeds (R.contents shelf.old) words.now c → (one.new ≡ one.old) × (two.new ≡ two.old) }
    ensures undone { LeaveUndone (R.contents shelf.old) words.now (status_of result) → IsTrue (D.tells one.old) → IsTrue (D.tells two.old) → LeavesUnwritten D.Disk one.old two.old one.new two.new }
    ensures made { IsTrue (D.tells one.old) → IsTrue (D.tells two.old) → LeavesMade D.Disk (R.contents shelf.old) words.now
        (exchange T.Transport P.Pacer transport.old transport.new pacer.old pacer.new) one.old two.old one.new two.new }
    ensures broken { IfErr result (λ e. IsTrue (D.tells one.old) → IsTrue (D.tells two.old) → ServesAborted D.Disk (R.contents shelf.old) words.now
        (exchange T.Transport P.Pacer transport.old transport.new pacer.old pacer.new) one.old two.old one.new two.new (status_of result)
        ((transport.new ≡ transport.old) × (pacer.new ≡ pacer.old))) }
    ensures durable { IfOk result (λ r. NeedDisks (R.contents shelf.old) words.now → IsDoneOrFull r.status → IsTrue (D.tells one.old) → IsTrue (D.tells two.old) → AreDurable D.Disk one.new two.new) }
{
    match plan(alloc, words, shelf)? {
        Plan::Reply(reply) => Ok(reply),
        Plan::On(deed) => Ok(act(alloc, deed, one, two, transport, pacer)?),
    }
}

/// Does what the words say, with the files of the shelf, a store on two disks, the transport of its jobs and a clock, and writes one text
/// to the sink.
///
/// What comes first of these is the status, where the shelf and the disks tell and neither memory runs out nor a file, a disk or
/// the sink fails: the words are no command, or those behind `query` no query; the settings file isn't there or gives no settings;
/// the file isn't there, isn't UTF-8, stands for no library, or its library breaks a rule; the library doesn't define the name; the
/// file of inputs isn't there or gives none; for `dry`: the table file isn't there or has no table; a port is given badly, of which
/// the least is named; for `dry`: the table has no result of a job, or the fuel doesn't suffice; for `expand`: the spec file isn't there,
/// or no restart chain is added to the library as it says; for a command of a store: a disk
/// is damaged; there is no store, or for `init` and `drill` there is one; there is no such process or node; it has ended; the store
/// would be too full. Else the text of the command is written, also where `run` took as many turns as it may, or where each live
/// process rests.
pub fn serve<R: Shelf, W: Sink, D: Disk, T: Transport, P: Pacer>(
    alloc: Global,
    words: &Words,
    shelf: &mut R,
    sink: &mut W,
    one: &mut D,
    two: &mut D,
    transport: &mut T,
    pacer: &mut P,
) -> Status
    // The text of the right reply was written whole, be it that of the command or a refusal, and this is its status.
    ensures replied { IsReplied result → (r : AReply) × IsOwed (R.contents shelf.old) (visit D.Disk one.old two.old one.new two.new) words.now r
        × (r.status ≡ result) × Writes r.text (W.taken sink.old) (W.taken sink.new) }
    // Where the shelf tells its contents, each deed that the words plan is certain, and the disks that it asks tell their bytes, the status
    // is that of the right reply, unless memory runs out or something fails. All deeds are certain but `run` and `drill`.
    ensures exact { IsCertain (R.contents shelf.old) (D.tells one.old) (D.tells two.old) words.now
        → (r : AReply) → IsOwed (R.contents shelf.old) (visit D.Disk one.old two.old one.new two.new) words.now r → OwesStatus r.status result }
    // At any moment of the call one of the disks has only images that a crash at entry might have left. Each image of the other, beside each that the first
    // may leave at exit, is such a pair, or holds what the words make of what the disks read as at entry: of nothing, where they begin a store, nothing or a
    // world with which they begin it, which is sound, for `init` the empty one, and for `drill` what submissions of its first chains, and turns once all are
    // submitted, make of that; of a world, the same world, or what a deed that they plan makes of it, which for `submit` is the one submission as which its
    // words are prepared, within its settings' limit of nodes, for `pause`, `play` and `kill` that event, and for `run` what at most as many turns and rests
    // as are given led to, within the limits of its settings, each turn with the answer that this transport gave to its own call, at a moment that this
    // clock was asked for. The journal by which the images hold it is of the same version and generation, at the same place, and within the limit of bytes
    // where the event or a turn was committed; of `pack` it is the store's own, or the next one on the other disk; of a store that is begun it is on disk
    // one, for `init` the first one, for `drill` one of version 2 and generation 1 within the limits. What is made of a sound world is sound, and continues
    // it.
    ensures crash { IsTrue (D.tells one.old) → IsTrue (D.tells two.old) → LeavesMade D.Disk (R.contents shelf.old) words.now
        (exchange T.Transport P.Pacer transport.old transport.new pacer.old pacer.new) one.old two.old one.new two.new }
    // Once a deed was done, or found the store too full, nothing is pending, and each pair of images holds what the disks then read as.
    ensures durable { NeedDisks (R.contents shelf.old) words.now → IsDoneOrFull result → IsTrue (D.tells one.old) → IsTrue (D.tells two.old) → AreDurable D.Disk one.new two.new
        × EachPair D.Disk one.new two.new (HoldsTheSame D.Disk one.new two.new) }
    // Where each pair of images that a crash at entry may leave holds nothing or a sound world (each process that has ended has the tree that
    // its definition means for its recorded inputs, and each created value has one creator, whose inputs give it), so does each at any moment
    // and at exit, and no disk is reported as damaged. Two empty disks meet this.
    ensures sound { IsTrue (D.tells one.old) → IsTrue (D.tells two.old) → EachPair D.Disk one.old two.old HoldsSound → StaySound D.Disk one.old two.old one.new two.new result }
    // What was done with status Ok stands: each pair of images at exit holds the world of which the deed's row acknowledges what was written.
    // After `submit` it has the process of the number that was written, with library, name, inputs and caching; after `pause`, `play` and `kill` that
    // process has the pause mark, has none, or is killed, and then all that it called have ended; after `drill` all its chains have run to their end.
    ensures acknowledged { NeedDisks (R.contents shelf.old) words.now → result ≡ Status.Ok → IsTrue (D.tells one.old) → IsTrue (D.tells two.old) → Stands D.Disk (R.contents shelf.old) words.now one.new two.new (W.taken sink.old) (W.taken sink.new) }
    // Nothing was written where the rows of the deeds that the words plan say so for this status: by a view, however it ends; by none that ends
    // with Refused, Damaged or ReadFault; by events and `pack` that end with Full; nor by `init` and events that end with OutOfMemory. Then
    // each image at any moment of the call is one that a crash at entry might have left, and the disks read as before.
    ensures undone { LeaveUndone (R.contents shelf.old) words.now result → IsTrue (D.tells one.old) → IsTrue (D.tells two.old) → LeavesUnwritten D.Disk one.old two.old one.new two.new }
    // The disks are as they were, and none of them failed, for words that plan no deed: `check`, `dry`, `expand`, words that are no command, and a `submit`,
    // `run` or `query` that is refused for its words or its files, where the shelf tells its contents.
    ensures files { AskNoDisk (R.contents shelf.old) words.now → (one.new ≡ one.old) × (two.new ≡ two.old) × (result ≡ Status.DiskFault → ⊥) }
    // They also are where the cause of a refusal is none of a deed's, whether the shelf tells its contents or not.
    ensures early { (c : ACause) → result ≡ Status.Refused c → IsNoDeeds (R.contents shelf.old) words.now c → (one.new ≡ one.old) × (two.new ≡ two.old) }
    // The shelf is as it was for words that name no file.
    ensures unnamed { NamesNoFile (command_of words.now) → shelf.new ≡ shelf.old }
    // It was asked for the first of the files that the words name, each once and in the order of settings, library, inputs and results of jobs, or library and what a restart chain is
    // made of, and for nothing else, however the call ends.
    ensures named { AsksFirst (files_named (command_of words.now)) (R.asked shelf.old) (R.asked shelf.new) }
    // Where the shelf tells its contents, and the library's file of `expand` is refused, that file alone was asked for, if any was, however the call ends.
    ensures spared { SparesSpec (R.contents shelf.old) (command_of words.now) (R.asked shelf.old) (R.asked shelf.new) }
    // The transport and the clock are as they were for words that are no `run`.
    ensures idle { TakesNoTurns (command_of words.now) → (transport.new ≡ transport.old) × (pacer.new ≡ pacer.old) }
    // They also are where the status is Refused, Damaged or ReadFault, whatever the words.
    ensures unbegun { IsBeforeTurns result → (transport.new ≡ transport.old) × (pacer.new ≡ pacer.old) }
    // A `run` asks the transport at most as often as it may take turns, whatever comes of them, and the table of results that it answers by stays.
    ensures asked { IsAskedFor T.Transport (turns_of (command_of words.now)) transport.old transport.new }
    // Where a `run` was done, or found the store too full, the world that the disks hold then is what turns and rests make of the one that they
    // held at entry, at most as many as it may take, all of them with Spent, and fewer with Full. They follow each other from the transport and the clock as they were
    // to those that are left, in the order of the seed: each turn has the answer to its own call of the transport, or none where nothing is needed, at a moment that the clock was asked for once, also the
    // last one, which is refused, with Full; each rest was counted, and none was taken where a process was ready. Each exit code that is kept since, of a sound
    // world, is that of the job's recorded result for its request, which is the table's where the transport has one. Where no call of the
    // transport failed, no process got the pause mark and none failed more often. Where each placed directory belonged to a process, each does.
    ensures outside { NeedDisks (R.contents shelf.old) words.now → IsDoneOrFull result → IsTrue (D.tells one.old) → IsTrue (D.tells two.old)
        → ServesOutside (R.contents shelf.old) words.now (exchange T.Transport P.Pacer transport.old transport.new pacer.old pacer.new) (visit D.Disk one.old two.old one.new two.new) result }
    // So it is where the sink failed.
    ensures outside_at_fault { result ≡ Status.WriteFault → (r : AReply) × IsOwed (R.contents shelf.old) (visit D.Disk one.old two.old one.new two.new) words.now r
        × (NeedDisks (R.contents shelf.old) words.now → IsDoneOrFull r.status → IsTrue (D.tells one.old) → IsTrue (D.tells two.old)
        → ServesOutside (R.contents shelf.old) words.now (exchange T.Transport P.Pacer transport.old transport.new pacer.old pacer.new) (visit D.Disk one.old two.old one.new two.new) r.status) }
    // A `run` whose turns are enough (each live process that nothing called means a tree by the transport's table, the transport and
    // the clock oblige, no live process is paused, and there is a turn for each that is left and one for each job that waits) never ends as Spent or
    // Resting: no process is live then, or the store would be too full, memory ran out, or the shelf, a disk or the sink failed.
    ensures enough { HasEnoughToRun D.Disk T.Transport P.Pacer (R.contents shelf.old) words.now one.old two.old transport.old pacer.old → EndsOrBreaks (D.seen one.new, D.seen two.new) result }
    // Nothing was written on a disk then, and the transport and the clock are as they were; or a deed that the words plan has come to the disks. Then nothing is
    // pending on them. If it begins a store, as `drill` does, they read as a sound world with which it begins, by its journal. If it is a `run`, they read as the world to which turns and rests led from the one at entry, with this transport and this clock and in the
    // order of the seed, whether memory ran out in the run or for its reply; exit codes, marks and directories are as `outside` says.
    ensures memory { result ≡ Status.OutOfMemory → (W.taken sink.new ≡ W.taken sink.old)
        × (IsTrue (D.tells one.old) → IsTrue (D.tells two.old) → ServesAborted D.Disk (R.contents shelf.old) words.now
        (exchange T.Transport P.Pacer transport.old transport.new pacer.old pacer.new) one.old two.old one.new two.new Status.OutOfMemory
        ((transport.new ≡ transport.old) × (pacer.new ≡ pacer.old))) }
    // One call of the shelf failed, the last one that was made, and the disks are as they were.
    ensures read_fault { result ≡ Status.ReadFault → RisesByOne (R.faults shelf.old) (R.faults shelf.new) × R.failed shelf.new × (W.taken sink.new ≡ W.taken sink.old) × (one.new ≡ one.old) × (two.new ≡ two.old) }
    // One call of one of the disks failed, the last one that was made of it, and none of the other. A `run` broke off there: turns and rests, with this transport
    // and this clock and in the order of the seed, had led to the world that it held then, as where memory ran out; what the disks hold is in `crash`.
    ensures disk_fault { result ≡ Status.DiskFault → EitherFailedLast (D.faults one.old) (D.faults one.new) (D.faults two.old) (D.faults two.new) (D.failed one.new) (D.failed two.new)
        × (W.taken sink.new ≡ W.taken sink.old)
        × (IsTrue (D.tells one.old) → IsTrue (D.tells two.old) → ServesAborted D.Disk (R.contents shelf.old) words.now
        (exchange T.Transport P.Pacer transport.old transport.new pacer.old pacer.new) one.old two.old one.new two.new Status.DiskFault
        ((transport.new ≡ transport.old) × (pacer.new ≡ pacer.old))) }
    // One call of the sink failed, the last one that was made, and it took a part of the reply's text. What was done stays, also where the store was found too full; where
    // the reply is one that writes no disk, none was written; and where it refuses or reports damage, the transport and the clock are as they were.
    ensures write_fault { result ≡ Status.WriteFault → RisesByOne (W.faults sink.old) (W.faults sink.new) × W.failed sink.new
        × (r : AReply) × IsOwed (R.contents shelf.old) (visit D.Disk one.old two.old one.new two.new) words.now r × TakesPart r.text (W.taken sink.old) (W.taken sink.new)
        × (NeedDisks (R.contents shelf.old) words.now → IsDoneOrFull r.status → IsTrue (D.tells one.old) → IsTrue (D.tells two.old) → AreDurable D.Disk one.new two.new)
        × (LeaveUndone (R.contents shelf.old) words.now r.status → IsTrue (D.tells one.old) → IsTrue (D.tells two.old) → LeavesUnwritten D.Disk one.old two.old one.new two.new)
        × (IsBeforeTurns r.status → (transport.new ≡ transport.old) × (pacer.new ≡ pacer.old)) }
    // No count rose but for these.
    ensures reads { (result ≡ Status.ReadFault → ⊥) → R.faults shelf.new ≡ R.faults shelf.old }
    // The count of the sink rose only with WriteFault.
    ensures writes { (result ≡ Status.WriteFault → ⊥) → W.faults sink.new ≡ W.faults sink.old }
    // The counts of the disks rose only with DiskFault.
    ensures disks { (result ≡ Status.DiskFault → ⊥) → (D.faults one.new ≡ D.faults one.old) × (D.faults two.new ≡ D.faults two.old) }
    // What the shelf tells of its contents stays.
    ensures kept { R.contents shelf.new ≡ R.contents shelf.old }
    // Whether a disk tells its bytes stays.
    ensures tells { (D.tells one.new ≡ D.tells one.old) × (D.tells two.new ≡ D.tells two.old) }
{
    worlds_are_kept();
    match answer(alloc, words, shelf, one, two, transport, pacer) {
        Ok(reply) => finish(sink, reply),
        Err(ReplyError::OutOfMemory) => Status::OutOfMemory,
        Err(ReplyError::ReadFault) => Status::ReadFault,
        Err(ReplyError::DiskFault) => Status::DiskFault,
    }
}
