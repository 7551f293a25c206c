//! Files by name.
ghost use Rattle.std.specs.Prelude.{◌≡◌, [], ◌∷◌, ◌++◌, ℕ, List, Option, IfOk, IfSome};
ghost use Rattle.wc_io.specs.Counts.{CountsReadFault};

use std::alloc::{AllocError, AllocFailed, Global};
use thiserror::Error;
use wc_value::{Bytes, Text};

/// Why a file was not read.
#[derive(Debug, Drop, Error)]
pub enum ShelfError {
    /// The shelf failed.
    #[error("the file can't be read")]
    Failed,
    /// Memory ran out.
    #[error("out of memory")]
    OutOfMemory,
}

impl From<AllocError> for ShelfError {
    ghost use Rattle.std.specs.Prelude.{◌≡◌};
    ghost use Rattle.wc_io.specs.declared.shelf.ShelfError.TheVariants.{OutOfMemory};

    ghost from_gives = { λ _ e. e ≡ OutOfMemory };

    fn from(_error: AllocError) -> ShelfError {
        ShelfError::OutOfMemory
    }
}

impl<T: Drop> From<AllocFailed<T>> for ShelfError {
    ghost use Rattle.std.specs.Prelude.{◌≡◌};
    ghost use Rattle.wc_io.specs.declared.shelf.ShelfError.TheVariants.{OutOfMemory};

    ghost from_gives = { λ _ e. e ≡ OutOfMemory };

    fn from(_error: AllocFailed<T>) -> ShelfError {
        ShelfError::OutOfMemory
    }
}

/// Files by name, which no call changes.
pub trait Shelf {
    /// The content of each name, none where the name isn't there. Untold where the shelf doesn't tell.
    ghost contents: { Self → Option (List ℕ → Option (List ℕ)) };

    /// The names that were asked for, the earliest first, whatever was answered.
    ghost asked: { Self → List (List ℕ) };

    /// This content, or none, was answered for this name.
    ghost answered: { Self → List ℕ → Option (List ℕ) → Type 0 };

    /// How often a read has failed.
    ghost faults: { Self → ℕ };

    /// The last read failed. Nothing says so after a read that succeeded.
    ghost failed: { Self → Type 0 };

    /// The content of a file, or none where the name isn't there.
    fn read(&mut self, alloc: Global, name: &Text) -> Result<Option<Bytes>, ShelfError>
        ensures content { IfOk result (λ answer. IfSome (contents self.old) (λ content. answer ≡ content name.now)) }
        ensures asked { asked self.new ≡ asked self.old ++ (name.now ∷ []) }
        ensures answered { IfOk result (λ answer. answered self.new name.now answer) }
        ensures keeps { (other : List ℕ) (answer : Option (List ℕ)) → answered self.old other answer → answered self.new other answer }
        ensures kept { contents self.new ≡ contents self.old }
        ensures cause { CountsReadFault result (faults self.old) (faults self.new) (failed self.new) };
}
