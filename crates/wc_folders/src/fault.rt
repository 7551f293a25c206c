//! Why a task of a job failed on this machine.

use std::alloc::{AllocError, AllocFailed};
use std::error::Error;
use std::fmt::{self, Display, Formatter, Write};
use std::io;

/// Why a task of a job failed on this machine.
#[derive(Clone, Copy, Debug)]
pub enum Fault {
    /// Memory ran out.
    OutOfMemory,
    /// The system refused a call.
    System(&'static str, io::Error),
    /// The program is empty or begins with `-`, or it or an argument has a byte of 0.
    Program,
    /// A file that is brought or asked for has a name that none in the folder may have.
    Name,
    /// The folder holds no request.
    NoRequest,
    /// The folder holds another request.
    OtherRequest,
    /// Another store takes the folder of jobs again and again.
    OtherStore,
    /// The `sh` that starts the script failed.
    Start,
    /// The scheduler refused a job.
    Scheduler,
    /// Whether the scheduler has a job isn't known.
    Silent,
    /// The scheduler ended a job before its program began, or doesn't know it.
    Unstarted,
    /// A line for the scheduler asks for what a job can't be.
    Directive,
    /// The lines for the scheduler are too many.
    Head,
    /// The program hasn't ended.
    Running,
    /// The exit code isn't a number.
    Code,
    /// A fetched file is too long.
    Long,
}

impl Fault {
    /// What is said of it, or before the system's own words.
    fn text(&self) -> &'static str {
        match self {
            Fault::OutOfMemory => "out of memory",
            Fault::System(call, _) => call,
            Fault::Program => "sh can't run such a program with such arguments",
            Fault::Name => "a file has a name that isn't allowed",
            Fault::NoRequest => "the folder holds no request",
            Fault::OtherRequest => "the folder holds another request",
            Fault::OtherStore => "another store takes the folder of jobs",
            Fault::Start => "sh couldn't start the script",
            Fault::Scheduler => "the scheduler refused: see slurm.err",
            Fault::Silent => "the scheduler doesn't answer",
            Fault::Unstarted => {
                "the scheduler ended the job before its program began: see slurm.txt"
            }
            Fault::Directive => {
                "a line of #SBATCH asks for an array, for several jobs or to wait"
            }
            Fault::Head => "a file wc.slurm has more than 1048576 bytes",
            Fault::Running => "the program hasn't ended",
            Fault::Code => "the exit code isn't a number",
            Fault::Long => "a file to be fetched has more than 4194304 bytes",
        }
    }
}

impl Display for Fault {
    fn fmt<W: Write>(&self, f: &mut Formatter<W>) -> fmt::Result {
        let text = self.text();
        match self {
            Fault::System(_, error) => write!(f, "{text}: {error}"),
            _ => f.write_str(text),
        }
    }
}

impl Error for Fault {}

impl From<AllocError> for Fault {
    ghost use Rattle.std.specs.Prelude.{◌≡◌};
    ghost use Rattle.wc_folders.specs.declared.fault.Fault.TheVariants.{OutOfMemory};

    ghost from_gives = { λ _ e. e ≡ OutOfMemory };

    fn from(_error: AllocError) -> Fault {
        Fault::OutOfMemory
    }
}

impl<T: Drop> From<AllocFailed<T>> for Fault {
    ghost use Rattle.std.specs.Prelude.{◌≡◌};
    ghost use Rattle.wc_folders.specs.declared.fault.Fault.TheVariants.{OutOfMemory};

    ghost from_gives = { λ _ e. e ≡ OutOfMemory };

    fn from(_error: AllocFailed<T>) -> Fault {
        Fault::OutOfMemory
    }
}

/// Whether an error is want of this program's own memory. The system's own may pass, and is an error like any other.
pub fn is_want_of_memory(error: &io::Error) -> bool {
    error.kind() == io::ErrorKind::OutOfMemory && error.raw_os_error().is_none()
}

/// What a call of the system that failed means for the task.
pub fn called<T: Drop>(what: &'static str, outcome: io::Result<T>) -> Result<T, Fault> {
    match outcome {
        Ok(answer) => Ok(answer),
        Err(error) if is_want_of_memory(&error) => Err(Fault::OutOfMemory),
        Err(error) => Err(Fault::System(what, error)),
    }
}

/// A task that failed.
#[derive(Clone, Copy, Debug)]
pub struct Failure {
    /// The number of the job's folder.
    pub dir: u32,
    /// The task.
    pub task: &'static str,
    /// Why it failed.
    pub fault: Fault,
}

impl Display for Failure {
    fn fmt<W: Write>(&self, f: &mut Formatter<W>) -> fmt::Result {
        let Failure { dir, task, fault } = self;
        write!(f, "the {task} of job {dir} failed: {fault}")
    }
}

impl Error for Failure {}
