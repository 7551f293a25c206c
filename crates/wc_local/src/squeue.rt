//! The question that `squeue` answers. What it printed is kept in a record, which only clauses read.

use std::alloc::{AllocError, Global};
use std::process::Processes;
use wc_folders::output_of;
use wc_io::Record;
use wc_slurm::Scheduler;
use wc_value::Bytes;

/// Asks for the name, the state, the script's node, the number, how often it was queued again, the exit code and the reason of each job of
/// this user, whatever the user has set for other questions.
const QUESTION: &str =
    r#"unset SQUEUE_ACCOUNT SQUEUE_FORMAT SQUEUE_FORMAT2 SQUEUE_LICENSES SQUEUE_NAMES SQUEUE_PARTITION SQUEUE_QOS SQUEUE_STATES SQUEUE_USERS
limit=
command -v timeout >/dev/null && limit='timeout 60'
exec $limit squeue -h -a -u "$(id -u)" -t all -O 'Name:40|,State:20|,BatchHost:80|,JobID:20|,RestartCnt:12|,exit_code:12|,Reason:60|'"#;

/// An event of a record: this was printed.
const ANSWERED: u64 = 1;

/// An event of a record: there was no answer.
const SILENT: u64 = 0;

/// What `squeue` says.
#[derive(Drop)]
pub struct Squeue<'a, R> {
    rt: &'a R,
    log: Record,
}

impl<'a, R: Processes> Squeue<'a, R> {
    /// Nothing was asked yet.
    pub fn new(rt: &'a R) -> Squeue<'a, R> {
        Squeue {
            rt,
            log: Record::new(),
        }
    }
}

/// What `squeue` prints, none where it can't be started or fails.
fn printed<R: Processes>(rt: &R, alloc: Global) -> Result<Option<Bytes>, AllocError> {
    match output_of(rt, alloc, QUESTION, "", "")? {
        Some(output) if output.status.success() => {
            let mut text = Bytes::new(alloc);
            text.extend(output.stdout.as_slice())?;
            Ok(Some(text))
        }
        _ => Ok(None),
    }
}

impl<'a, R: Processes> Scheduler for Squeue<'a, R> {
    ghost use Rattle.wc_local.specs.Questions.{answers_in};

    ghost answers = { λ squeue. answers_in squeue.log.events };

    fn ask(&mut self, alloc: Global) -> Result<Option<Bytes>, AllocError> {
        let answer = printed(self.rt, alloc);
        match &answer {
            Ok(Some(text)) => self.log.note(&[ANSWERED], &[], text.bytes()),
            _ => self.log.note(&[SILENT], &[], &[]),
        }
        answer
    }
}
