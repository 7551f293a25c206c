//! Why a part of an archive isn't read.

ghost use Rattle.std.specs.Prelude.{◌≡◌};
ghost use Rattle.wc_archive_file.specs.declared.misread.Misread.TheVariants.{OutOfMemory};

use std::alloc::{AllocError, AllocFailed};

/// Why a part of an archive isn't read.
#[derive(Debug, Drop)]
pub(crate) enum Misread {
    /// It hasn't the shape of such a part.
    Shape,
    /// Memory ran out.
    OutOfMemory,
}

impl From<AllocError> for Misread {
    ghost from_gives = { λ _ e. e ≡ OutOfMemory };

    fn from(_error: AllocError) -> Misread {
        Misread::OutOfMemory
    }
}

impl<T: Drop> From<AllocFailed<T>> for Misread {
    ghost from_gives = { λ _ e. e ≡ OutOfMemory };

    fn from(_error: AllocFailed<T>) -> Misread {
        Misread::OutOfMemory
    }
}
