//! Who is asked for what the scheduler has.
ghost use Rattle.std.specs.Prelude.{◌≡◌, ℕ, List, ◌∷◌, Option};
ghost use Rattle.wc_slurm.specs.Queue.{answer_in};

use std::alloc::{AllocError, Global};
use wc_value::Bytes;

/// A scheduler that can be asked for all jobs of this user, which costs as much as to ask for one.
pub trait Scheduler {
    /// What it printed to each question, none where there was no answer, the last one first.
    ghost answers: { Self → List (Option (List ℕ)) };

    /// Asks it once. Where memory runs out its answer is lost.
    fn ask(&mut self, alloc: Global) -> Result<Option<Bytes>, AllocError>
        ensures { answers self.new ≡ answer_in result ∷ answers self.old };
}
