//! A job whose run the scheduler has ended, or doesn't know any more.

use std::alloc::{AllocError, Global};
use std::fs::File;
use std::process::Processes;
use std::rt::Files;
use std::str;
use std::string::String;
use wc_folders::{
    Fault, append_line, content_in, has_ended, is_alive, make_lock, modified_in, output_of,
    place_file, put_code, put_over, remove_in, sync_names, tell_open,
};
use wc_slurm::{End, code_under_lock, end_in, is_other_run, told_in};

/// Asks the accounting for the state, the first node, the number and the exit code of the last job of a name, and lays them out as the queue
/// does. Words: the name, and what the run that made the lock wrote of itself, of which the number comes first: where it is there, that job is meant.
const ACCOUNTS: &str = r#"command -v sacct >/dev/null || exit 1
limit=
command -v timeout >/dev/null && limit='timeout 60'
$limit sacct -n -P -X --name="$1" -S now-30days -o State,NodeList,JobIDRaw,ExitCode |
  awk -F'|' -v number="${2%% *}" 'number == "" || $3 == number { told = $0 } END { print told }' | {
  IFS='|' read -r state nodes number code
  case $nodes in *[[,]*) nodes=$(scontrol show hostnames "$nodes" | head -n 1) ;; esac
  echo "$state|$nodes|$number||$code|"
}"#;

/// When an end was first seen, by the time of this file, and which.
const ENDED: &str = "_wc_ended";

/// A file whose time is the file server's.
const NOW: &str = "_wc_now";

/// Which run made the lock: written by the script, on its node.
const RUNS: &str = "_wc_runs";

/// Where the scheduler writes, and what settles a job.
const WORDS: &str = "slurm.txt";

/// The most bytes of the file of an end, and of that of a run.
const MOST_ENDED: u64 = 4096;

/// How long an end is left alone, in seconds: a node may have made a lock or written a code that isn't seen here yet.
const GRACE: u64 = 60;

/// A submitted job that the scheduler has ended, or doesn't know.
#[derive(Clone, Copy)]
pub struct Settled<'a> {
    /// The number of its folder.
    pub dir: u32,
    /// Its folder.
    pub folder: &'a str,
    /// The name of its submission.
    pub name: &'a str,
    /// What the scheduler says of it.
    pub told: Option<&'a [u8]>,
}

impl<'a> Settled<'a> {
    /// A part of what is told, as text.
    fn part(&self, at: usize) -> &'a str {
        let Some(told) = self.told else {
            return "";
        };
        let part = told.split(|b| *b == b'|').nth(at).unwrap_or(&[]);
        let text = str::from_utf8(part).unwrap_or("");
        text.trim()
    }

    /// Whether the scheduler says that it was cancelled.
    fn is_cancelled(&self) -> bool {
        match self.told {
            Some(told) => end_in(told) == Some(End::Cancelled),
            None => false,
        }
    }

    /// What is written down of its end: the name and the state.
    fn seen(&self, alloc: Global) -> Result<String, AllocError> {
        let name = self.name;
        let state = self.part(0);
        format!(in alloc; "{name} {state}\n")
    }

    /// The scheduler's words: the state and the reason.
    fn words(&self, alloc: Global) -> Result<String, AllocError> {
        if self.told.is_none() {
            return String::from_str(alloc, "slurm: the job isn't known");
        }
        let state = self.part(0);
        let reason = self.part(5);
        format!(in alloc; "slurm: {state} {reason}")
    }
}

/// Forgets an end that was seen: the job goes on.
pub fn forget_end<R: Files>(rt: &R, alloc: Global, folder: &str) -> Result<(), Fault> {
    remove_in(rt, alloc, folder, ENDED)
}

/// Whether the file of an end has these words.
fn has_seen<R: Files>(rt: &R, alloc: Global, folder: &str, words: &str) -> Result<bool, Fault> {
    match content_in(rt, alloc, folder, ENDED, MOST_ENDED)? {
        Some(content) => Ok(content.as_slice() == words.as_bytes()),
        None => Ok(false),
    }
}

/// How many seconds have gone by since an end was first seen, by the times of the file server alone.
fn age_of<R: Files<File = File>>(rt: &R, alloc: Global, folder: &str) -> Result<u64, Fault> {
    place_file(rt, alloc, folder, NOW, b"now\n")?;
    let now = modified_in(rt, alloc, folder, NOW)?;
    let then = modified_in(rt, alloc, folder, ENDED)?;
    match now.duration_since(then) {
        Ok(age) => Ok(age.as_secs()),
        Err(_) => Ok(0),
    }
}

/// Whether an end was first seen a minute ago or earlier. Another one than the last that was seen begins the minute anew.
fn is_minute_over<R: Files<File = File>>(
    rt: &R,
    alloc: Global,
    folder: &str,
    words: &str,
) -> Result<bool, Fault> {
    if has_seen(rt, alloc, folder, words)? {
        return Ok(age_of(rt, alloc, folder)? >= GRACE);
    }
    place_file(rt, alloc, folder, ENDED, words.as_bytes())?;
    Ok(false)
}

/// Puts the scheduler's words behind what it wrote itself.
fn put_words<R: Files<File = File>>(rt: &R, alloc: Global, job: Settled<'_>) -> Result<(), Fault> {
    let words = job.words(alloc)?;
    append_line(rt, alloc, job.folder, WORDS, words.as_str())
}

/// Settles a job with an exit code, unless the folder, opened once more, has one, or a script lives.
fn settle_with<R: Files<File = File>>(
    rt: &R,
    alloc: Global,
    job: Settled<'_>,
    code: u32,
) -> Result<(), Fault> {
    sync_names(rt, job.folder)?;
    if has_ended(rt, alloc, job.folder)? || is_alive(rt, alloc, job.folder)? {
        return Ok(());
    }
    put_words(rt, alloc, job)?;
    put_code(rt, alloc, job.folder, code)
}

/// Settles a job that was cancelled and has no lock: who makes the lock is sure that no run begins.
fn settle_cancelled<R: Files<File = File>>(
    rt: &R,
    alloc: Global,
    job: Settled<'_>,
) -> Result<(), Fault> {
    if !make_lock(rt, alloc, job.folder)? {
        return Ok(());
    }
    sync_names(rt, job.folder)?;
    settle_with(rt, alloc, job, 143)
}

/// What the run that made the lock wrote of itself, nothing where it hasn't.
fn holder_of<R: Files>(rt: &R, alloc: Global, folder: &str) -> Result<Vec<u8>, Fault> {
    match content_in(rt, alloc, folder, RUNS, MOST_ENDED)? {
        Some(content) => Ok(content),
        None => Ok(Vec::new(alloc)),
    }
}

/// The exit code for the run with the lock, by what is told of an end, if one is to be written.
fn code_by(told: &[u8], holder: &[u8]) -> Option<u32> {
    match told_in(told) {
        Some(told) => code_under_lock(told, holder),
        None => None,
    }
}

/// The exit code for a run that the queue knows no more, by the accounting, where there is one.
fn code_by_accounts<R: Processes>(
    rt: &R,
    alloc: Global,
    name: &str,
    holder: &[u8],
) -> Result<Option<u32>, AllocError> {
    let line = str::from_utf8(holder).unwrap_or("");
    match output_of(rt, alloc, ACCOUNTS, name, line)? {
        Some(output) => Ok(code_by(output.stdout.as_slice(), holder)),
        None => Ok(None),
    }
}

/// Why a job stays open whose lock is there.
fn why_open(told: Option<&[u8]>, holder: &[u8]) -> &'static str {
    let Some(told) = told else {
        return "the scheduler doesn't know the job any more, whose program may run: look for it, and write its code to _wc_status, or remove _wc_lock for a new run";
    };
    match told_in(told) {
        Some(told) if is_other_run(told, holder) => {
            "the scheduler has ended another copy of the job than the one in _wc_runs (number, restarts, node), whose program may run: look for it, and write its code to _wc_status, or remove _wc_lock for a new run"
        }
        _ => "the scheduler has ended the job, and no exit code has come",
    }
}

/// The exit code for the run with the lock, if one is to be written.
fn code_for<R: Processes>(
    rt: &R,
    alloc: Global,
    job: Settled<'_>,
    holder: &[u8],
) -> Result<Option<u32>, AllocError> {
    match job.told {
        Some(told) => Ok(code_by(told, holder)),
        None => code_by_accounts(rt, alloc, job.name, holder),
    }
}

/// Settles a job whose lock is there by what the run that made it wrote of itself. An end of another run leaves it open.
fn settle_held<R: Files<File = File> + Processes>(
    rt: &R,
    alloc: Global,
    job: Settled<'_>,
    seen: &str,
    holder: &[u8],
) -> Result<(), Fault> {
    if let Some(code) = code_for(rt, alloc, job, holder)? {
        return settle_with(rt, alloc, job, code);
    }
    // The next look that asks comes a minute later.
    place_file(rt, alloc, job.folder, ENDED, seen.as_bytes())?;
    tell_open(rt, alloc, job.folder, job.dir, why_open(job.told, holder))
}

/// Settles a job whose lock is there, a minute after its end was seen.
fn settle_locked<R: Files<File = File> + Processes>(
    rt: &R,
    alloc: Global,
    job: Settled<'_>,
    seen: &str,
) -> Result<(), Fault> {
    let holder = holder_of(rt, alloc, job.folder)?;
    settle_held(rt, alloc, job, seen, holder.as_slice())
}

/// Settles a job without a lock, a minute after its end was seen: this submission is over, and another may follow.
fn settle_unstarted<R: Files<File = File>>(
    rt: &R,
    alloc: Global,
    job: Settled<'_>,
) -> Result<(), Fault> {
    put_words(rt, alloc, job)?;
    put_over(rt, alloc, job.folder)?;
    forget_end(rt, alloc, job.folder)?;
    Err(Fault::Unstarted)
}

/// Settles a job whose end was seen, where that was a minute ago or earlier.
fn settle_after<R: Files<File = File> + Processes>(
    rt: &R,
    alloc: Global,
    job: Settled<'_>,
    is_locked: bool,
    seen: &str,
) -> Result<(), Fault> {
    if !is_minute_over(rt, alloc, job.folder, seen)? {
        return Ok(());
    }
    if is_locked {
        return settle_locked(rt, alloc, job, seen);
    }
    settle_unstarted(rt, alloc, job)
}

/// Settles a job that the scheduler has ended, or doesn't know, as far as that can be said. `is_locked`: a run of the script has begun.
pub fn settle<R: Files<File = File> + Processes>(
    rt: &R,
    alloc: Global,
    job: Settled<'_>,
    is_locked: bool,
) -> Result<(), Fault> {
    if job.is_cancelled() && !is_locked {
        return settle_cancelled(rt, alloc, job);
    }
    let seen = job.seen(alloc)?;
    settle_after(rt, alloc, job, is_locked, seen.as_str())
}
