//! Jobs on a cluster that Slurm schedules. What it says of a job may be the news of the day before: it forgets jobs that run, queues some
//! again and gives a number twice. So the folder decides, and never its memory: the run that makes the lock is the only one.

ghost use Rattle.wc_slurm.specs.Queue.{AsksOnceAtMost};

use crate::settlement::{Settled, forget_end, settle};
use std::alloc::{AllocError, Global};
use std::env::Env;
use std::fs::File;
use std::path::Path;
use std::process::{Output, Processes};
use std::rt::Files;
use std::str;
use wc_folders::{
    Fault, content_in, folder_of, has_ended, has_submission, is_alive, is_locked, length_in,
    new_name, output_of, place_file, place_name, put_number, put_over, submission_of, tell_open,
    write_file,
};
use wc_slurm::{Queue, Scheduler, Submission, batch_for, end_in, lines_of};
use wc_value::{Bytes, List, Request, Text};

/// The file beside the folder of jobs that chooses Slurm, and that of a job's own lines.
const HEAD: &str = "wc.slurm";

/// The most bytes of such a file.
const MOST_HEAD: u64 = 1024 * 1024;

/// Gives the batch script to Slurm. Words: the folder and the name. In the path of the output, and there alone, a `%` stands for
/// something, unless it is written twice. Neither the surroundings nor lines of other schedulers in the user's files make an array of it.
const SUBMIT: &str = r#"unset CDPATH SBATCH_ARRAY_INX SBATCH_WAIT
export SBATCH_IGNORE_PBS=1
cd -- "$1" || exit 1
rest=$PWD
out=
while :; do
  case $rest in
    *%*) out=$out${rest%%"%"*}%% rest=${rest#*"%"} ;;
    *) break ;;
  esac
done
limit=
command -v timeout >/dev/null && limit='timeout 60'
exec $limit sbatch --parsable --no-requeue --job-name="$2" --chdir="$PWD" --output="$out$rest/slurm.txt" --open-mode=append _wc_batch.sh"#;

/// A job of the folder of jobs `jobs`.
#[derive(Clone, Copy)]
pub struct Job<'a> {
    /// The folder of jobs.
    pub jobs: &'a str,
    /// The number of its folder.
    pub dir: u32,
    /// Its folder.
    pub folder: &'a str,
    /// What it runs.
    pub request: &'a Request,
}

/// Whether the file is there that chooses Slurm.
fn is_chosen<R: Files<File = File>>(rt: &R, alloc: Global, jobs: &str) -> Result<bool, Fault> {
    Ok(length_in(rt, alloc, folder_of(jobs), HEAD)?.is_some())
}

/// Whether a job is Slurm's: it was meant for it, or nothing has begun and the file is there that chooses it.
pub fn is_on_slurm<R: Files<File = File>>(
    rt: &R,
    alloc: Global,
    job: Job<'_>,
) -> Result<bool, Fault> {
    if has_submission(rt, alloc, job.folder)? {
        return Ok(true);
    }
    if !is_chosen(rt, alloc, job.jobs)? {
        return Ok(false);
    }
    Ok(!is_locked(rt, alloc, job.folder)? && !is_alive(rt, alloc, job.folder)?)
}

/// How many jobs Slurm is to have at most, where the user says so.
fn most_jobs<R: Env>(rt: &R) -> Option<u32> {
    let mut digits = [0u8; 16];
    let Ok(count) = rt.var("MAROONCLAMP_JOBS", &mut digits) else {
        return None;
    };
    let Some(digits) = digits.get(..count) else {
        return None;
    };
    match str::from_utf8(digits) {
        Ok(text) => text.parse::<u32>().ok().filter(|most| *most > 0),
        Err(_) => None,
    }
}

/// The lines of a file's content, which may be so long.
fn head_in(alloc: Global, content: &[u8]) -> Result<List<Bytes>, Fault> {
    if content.len() as u64 > MOST_HEAD {
        return Err(Fault::Head);
    }
    Ok(lines_of(alloc, content)?)
}

/// The lines of a file, none where it isn't there.
fn head_lines<R: Files>(
    rt: &R,
    alloc: Global,
    folder: &str,
    name: &str,
) -> Result<List<Bytes>, Fault> {
    match content_in(rt, alloc, folder, name, MOST_HEAD)? {
        Some(content) => head_in(alloc, content.as_slice()),
        None => Ok(List::new(alloc)),
    }
}

/// The lines of all jobs of a program, none where there is no file with its name.
fn program_lines<R: Files>(
    rt: &R,
    alloc: Global,
    folder: &str,
    program: &str,
) -> Result<List<Bytes>, Fault> {
    let Some(program) = Path::new(program).file_name() else {
        return Ok(List::new(alloc));
    };
    let name = format!(in alloc; "{HEAD}.{program}")?;
    head_lines(rt, alloc, folder, name.as_str())
}

/// The lines of a job itself, which its request brings.
fn own_lines(alloc: Global, request: &Request) -> Result<List<Bytes>, AllocError> {
    match request.files.find(HEAD.as_bytes()) {
        Some(content) => lines_of(alloc, content.bytes()),
        None => Ok(List::new(alloc)),
    }
}

/// The batch script of a job by the lines of all jobs and of its program.
fn batch_with(
    alloc: Global,
    all: &[Bytes],
    program: &[Bytes],
    request: &Request,
) -> Result<Bytes, Fault> {
    let own = own_lines(alloc, request)?;
    match batch_for(alloc, all, program, own.as_slice())? {
        Some(batch) => Ok(batch),
        None => Err(Fault::Directive),
    }
}

/// The batch script of a job by the lines of all jobs.
fn batch_behind<R: Files>(
    rt: &R,
    alloc: Global,
    all: &[Bytes],
    job: Job<'_>,
) -> Result<Bytes, Fault> {
    let folder = folder_of(job.jobs);
    let program = program_lines(rt, alloc, folder, job.request.program.as_str())?;
    batch_with(alloc, all, program.as_slice(), job.request)
}

/// The batch script of a job.
fn batch<R: Files>(rt: &R, alloc: Global, job: Job<'_>) -> Result<Bytes, Fault> {
    let all = head_lines(rt, alloc, folder_of(job.jobs), HEAD)?;
    batch_behind(rt, alloc, all.as_slice(), job)
}

/// Keeps the number that Slurm gave, or its words where it refused.
fn answered<R: Files<File = File>>(
    rt: &R,
    alloc: Global,
    folder: &str,
    output: &Output,
) -> Result<(), Fault> {
    if !output.status.success() {
        write_file(rt, alloc, folder, "slurm.err", output.stderr.as_slice())?;
        return Err(Fault::Scheduler);
    }
    let number = str::from_utf8(output.stdout.as_slice()).unwrap_or("");
    let number = number.lines().next().unwrap_or("").trim();
    if !number.is_empty() {
        put_number(rt, alloc, folder, number)?;
    }
    Ok(())
}

/// A submission that is to be made.
#[derive(Drop)]
struct Try {
    /// Its name, none where it gets a new one.
    name: Option<Text>,
    /// Which try of the job it is.
    tries: u32,
}

impl Try {
    /// One under a new name.
    fn new(tries: u32) -> Try {
        Try { name: None, tries }
    }
}

/// Brings a name to the disk, and writes the batch script.
fn place_batch<R: Files<File = File>>(
    rt: &R,
    alloc: Global,
    folder: &str,
    batch: &[u8],
    name: &str,
    tries: u32,
) -> Result<(), Fault> {
    place_name(rt, alloc, folder, name, tries)?;
    forget_end(rt, alloc, folder)?;
    place_file(rt, alloc, folder, "_wc_batch.sh", batch)
}

/// Makes ready what Slurm is to get under a name, which is on the disk then.
fn prepare<R: Files<File = File>>(
    rt: &R,
    alloc: Global,
    job: Job<'_>,
    name: &str,
    tries: u32,
) -> Result<(), Fault> {
    let batch = batch(rt, alloc, job)?;
    place_batch(rt, alloc, job.folder, batch.bytes(), name, tries)
}

/// Gives the batch script of a folder to Slurm, and keeps what it answers.
fn give<R: Files<File = File> + Processes>(
    rt: &R,
    alloc: Global,
    folder: &str,
    name: &str,
) -> Result<(), Fault> {
    match output_of(rt, alloc, SUBMIT, folder, name)? {
        Some(output) => answered(rt, alloc, folder, &output),
        None => Err(Fault::Scheduler),
    }
}

/// Gives a job to Slurm, under a name that is on the disk before.
fn send_as<R: Files<File = File> + Processes>(
    rt: &R,
    alloc: Global,
    queue: &mut Queue,
    job: Job<'_>,
    name: &str,
    tries: u32,
) -> Result<(), Fault> {
    prepare(rt, alloc, job, name, tries)?;
    queue.count_sent();
    give(rt, alloc, job.folder, name)
}

/// The name of a submission that is to be made.
fn name_of<R: Files>(rt: &R, alloc: Global, dir: u32, name: Option<Text>) -> Result<Text, Fault> {
    match name {
        Some(name) => Ok(name),
        None => new_name(rt, alloc, dir),
    }
}

/// Gives a job to Slurm.
fn send<R: Files<File = File> + Processes>(
    rt: &R,
    alloc: Global,
    queue: &mut Queue,
    job: Job<'_>,
    next: Try,
) -> Result<(), Fault> {
    let Try { name, tries } = next;
    let name = name_of(rt, alloc, job.dir, name)?;
    send_as(rt, alloc, queue, job, name.as_str(), tries)
}

/// Gives a job to Slurm where it may have one more. Where not, a later look does.
fn send_where_room<R: Files<File = File> + Processes + Env>(
    rt: &R,
    alloc: Global,
    queue: &mut Queue,
    job: Job<'_>,
    next: Try,
) -> Result<(), Fault> {
    match most_jobs(rt) {
        Some(most) if !queue.has_room(most) => Ok(()),
        _ => send(rt, alloc, queue, job, next),
    }
}

/// What an earlier submission, whose fate isn't known, calls for, by an answer that is younger than it: nothing where Slurm has it, else
/// another one, under its name where Slurm never knew that.
fn next_of(alloc: Global, queue: &Queue, earlier: &Submission) -> Result<Option<Try>, Fault> {
    if !queue.is_answered() {
        return Err(Fault::Silent);
    }
    let tries = earlier.tries;
    match queue.told(earlier.name.bytes()) {
        Some(told) => {
            if end_in(told).is_none() {
                return Ok(None);
            }
            Ok(Some(Try::new(tries)))
        }
        None => {
            if earlier.is_numbered {
                return Ok(Some(Try::new(tries)));
            }
            let name = Some(Text::of_str(alloc, earlier.name.as_str())?);
            Ok(Some(Try { name, tries }))
        }
    }
}

/// Whether Slurm has to be asked before a submission: of an earlier one whose fate isn't known, or how many jobs it has.
fn must_ask<R: Env>(rt: &R, queue: &Queue, earlier: &Option<Submission>) -> bool {
    match earlier {
        Some(earlier) if !earlier.is_over() => true,
        _ => !queue.is_asked() && most_jobs(rt).is_some(),
    }
}

/// The submission that a job is to get now, none where Slurm has it.
fn next_submission(
    alloc: Global,
    queue: &Queue,
    earlier: Option<Submission>,
) -> Result<Option<Try>, Fault> {
    match earlier {
        None => Ok(Some(Try::new(1))),
        Some(earlier) if earlier.is_over() => Ok(Some(Try::new(earlier.next_try()))),
        Some(earlier) => next_of(alloc, queue, &earlier),
    }
}

/// Makes a submission, unless Slurm has the job, whose folder counts as asked about and as submitted.
fn proceed<R: Files<File = File> + Processes + Env>(
    rt: &R,
    alloc: Global,
    queue: &mut Queue,
    job: Job<'_>,
    next: Option<Try>,
) -> Result<(), Fault> {
    queue.note(job.dir)?;
    match next {
        Some(next) => send_where_room(rt, alloc, queue, job, next)?,
        None => {}
    }
    Ok(queue.note_submitted(job.dir)?)
}

/// Submits a job to Slurm behind an earlier submission, unless Slurm has that.
fn submitted_behind<R: Files<File = File> + Processes + Env>(
    rt: &R,
    alloc: Global,
    queue: &mut Queue,
    job: Job<'_>,
    earlier: Option<Submission>,
) -> Result<(), Fault> {
    let next = next_submission(alloc, queue, earlier)?;
    proceed(rt, alloc, queue, job, next)
}

/// Asks Slurm once where it has to be asked before a submission.
fn ask_where_needed<R: Env, S: Scheduler>(
    rt: &R,
    alloc: Global,
    queue: &mut Queue,
    scheduler: &mut S,
    earlier: &Option<Submission>,
) -> Result<(), AllocError>
    ensures { AsksOnceAtMost (S.answers scheduler.old) (S.answers scheduler.new) }
{
    if must_ask(rt, queue, earlier) {
        return queue.ask(scheduler, alloc);
    }
    Ok(())
}

/// Submits a job of which no run has begun to Slurm, unless Slurm has it.
fn submitted_anew<R: Files<File = File> + Processes + Env, S: Scheduler>(
    rt: &R,
    alloc: Global,
    queue: &mut Queue,
    scheduler: &mut S,
    job: Job<'_>,
) -> Result<(), Fault>
    ensures { AsksOnceAtMost (S.answers scheduler.old) (S.answers scheduler.new) }
{
    let earlier = submission_of(rt, alloc, job.folder)?;
    ask_where_needed(rt, alloc, queue, scheduler, &earlier)?;
    submitted_behind(rt, alloc, queue, job, earlier)
}

/// Submits a job to Slurm, unless a run has begun or Slurm has it.
pub fn submitted<R: Files<File = File> + Processes + Env, S: Scheduler>(
    rt: &R,
    alloc: Global,
    queue: &mut Queue,
    scheduler: &mut S,
    job: Job<'_>,
) -> Result<(), Fault>
    ensures { AsksOnceAtMost (S.answers scheduler.old) (S.answers scheduler.new) }
{
    if has_ended(rt, alloc, job.folder)? || is_locked(rt, alloc, job.folder)? {
        return Ok(());
    }
    submitted_anew(rt, alloc, queue, scheduler, job)
}

/// Looks at a submission by what Slurm says of it.
fn judge_told<R: Files<File = File> + Processes>(
    rt: &R,
    alloc: Global,
    job: Settled<'_>,
    is_locked: bool,
) -> Result<(), Fault> {
    match job.told {
        Some(told) if end_in(told).is_none() => forget_end(rt, alloc, job.folder),
        _ => settle(rt, alloc, job, is_locked),
    }
}

/// Looks at a submission by the last answer.
fn judge<R: Files<File = File> + Processes>(
    rt: &R,
    alloc: Global,
    queue: &Queue,
    job: Job<'_>,
    name: &Text,
    is_locked: bool,
) -> Result<(), Fault> {
    if !queue.is_answered() {
        let why = "the scheduler doesn't answer";
        return tell_open(rt, alloc, job.folder, job.dir, why);
    }
    let told = queue.told(name.bytes());
    let submitted = Settled {
        dir: job.dir,
        folder: job.folder,
        name: name.as_str(),
        told,
    };
    judge_told(rt, alloc, submitted, is_locked)
}

/// Looks at a job by the last answer: one that waits or runs is left alone, one that Slurm ended is settled, and one whose submission is over
/// gets another.
fn judge_submission<R: Files<File = File> + Processes + Env>(
    rt: &R,
    alloc: Global,
    queue: &mut Queue,
    job: Job<'_>,
    submission: &Submission,
    is_locked: bool,
) -> Result<(), Fault> {
    if is_locked || !submission.is_over() {
        return judge(rt, alloc, queue, job, &submission.name, is_locked);
    }
    if !submission.may_be_followed() {
        put_over(rt, alloc, job.folder)?;
        return Err(Fault::Unstarted);
    }
    let next = Try::new(submission.next_try());
    send_where_room(rt, alloc, queue, job, next)
}

/// Looks at a job by the last answer. One that has no submission is submitted, unless a run has begun.
fn judged<R: Files<File = File> + Processes + Env>(
    rt: &R,
    alloc: Global,
    queue: &mut Queue,
    job: Job<'_>,
) -> Result<(), Fault> {
    let is_locked = is_locked(rt, alloc, job.folder)?;
    match submission_of(rt, alloc, job.folder)? {
        Some(submission) => judge_submission(rt, alloc, queue, job, &submission, is_locked),
        None if is_locked => Ok(()),
        None => send_where_room(rt, alloc, queue, job, Try::new(1)),
    }
}

/// Looks at a job of Slurm's that has no exit code. Slurm is asked once at most, for all jobs.
pub fn followed<R: Files<File = File> + Processes + Env, S: Scheduler>(
    rt: &R,
    alloc: Global,
    queue: &mut Queue,
    scheduler: &mut S,
    job: Job<'_>,
) -> Result<(), Fault>
    ensures { AsksOnceAtMost (S.answers scheduler.old) (S.answers scheduler.new) }
{
    if queue.is_first_look(job.dir) {
        return Ok(());
    }
    queue.look(scheduler, alloc, job.dir)?;
    judged(rt, alloc, queue, job)
}
