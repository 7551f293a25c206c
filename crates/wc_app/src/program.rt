//! What the program does: it hands its words and the machine over once, and ends with what is answered.
ghost use Rattle.std.specs.Prelude.{◌≡◌, ℕ, List, [], Some, IfOk, codes, map, string_bytes};
ghost use Rattle.std.specs.Process.{exit_status};
ghost use Rattle.std.specs.Vec.Iter.{into_iter_items};
ghost use Rattle.wc_file_disk.specs.Files.{calls, path_of};
ghost use Rattle.wc_local.specs.Folders.{jobs_folder};
ghost use Rattle.wc_app.specs.Words.{AreWords};
ghost use Rattle.wc_app.specs.Ends.{IsServed, EndsAs};
ghost use Rattle.wc_app.specs.declared.machine.Machine.{Machine as AMachine};

use crate::machine::Machine;
use crate::words::words_of;
use std::alloc::AllocError;
use std::env::Args;
use std::io;
use std::process::ExitCode;
use wc_engine::Status;
use wc_value::{Words, both};

/// What does what words say on a machine.
pub trait Service {
    /// It was handed these words and a machine, left the machine so, and answered this number.
    ghost answered: { Self → List (List ℕ) → AMachine → AMachine → ℕ → Type 0 };

    /// Does what the words say. How it ended, as a number.
    fn serve(&self, rt: HostRuntime, words: &Words, machine: &mut Machine) -> u8
        ensures { answered self.now words.now machine.old machine.new result };
}

/// Has the words done on the machine. The status of the process is the number that is answered.
fn served<S: Service>(rt: HostRuntime, words: &Words, service: &S) -> Result<ExitCode, AllocError>
    ensures { IfOk result (λ code. IsServed (S.answered service.now) words.now (exit_status code)) }
{
    let mut machine = Machine::new(rt)?;
    Ok(ExitCode::from(service.serve(rt, words, &mut machine)))
}

/// Has the words of the command line done on this machine. Where memory runs out before that, nothing is asked of the machine.
pub fn run<S: Service>(rt: HostRuntime, told: io::Result<Args>, service: &S) -> ExitCode
    ensures { EndsAs (S.answered service.now) (AreWords (λ texts. map string_bytes (into_iter_items texts)) told) (exit_status result) }
{
    let ended = match words_of(rt.alloc(), told) {
        Ok(words) => served(rt, &words, service),
        Err(error) => Err(error),
    };
    match ended {
        Ok(code) => code,
        Err(_) => ExitCode::from(Status::OutOfMemory.code()),
    }
}
