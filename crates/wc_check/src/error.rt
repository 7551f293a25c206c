//! Why a library isn't checked.

ghost use Rattle.std.specs.Prelude.{◌≡◌};
ghost use Rattle.wc_check.specs.declared.error.CheckError.TheVariants.{OutOfMemory};

use std::alloc::{AllocError, AllocFailed};
use thiserror::Error;
use wc_value::Text;

/// Why a library is not checked: the first place at which a rule is broken. Of two rules that are broken at one place the
/// refusal is the one that stands first here, and of two names the lesser in byte order. Offsets count bytes.
#[derive(Debug, Drop, Error)]
pub enum CheckError {
    /// This name, or the decimal number of this exit status, stands twice.
    #[error("twice {} at {}", .0.as_str(), .1)]
    Twice(Text, u32),
    /// This name stands for nothing that may stand here.
    #[error("unknown {} at {}", .0.as_str(), .1)]
    Unknown(Text, u32),
    /// The call here lacks this port.
    #[error("port missing {} at {}", .0.as_str(), .1)]
    PortMissing(Text, u32),
    /// What is called has no such port.
    #[error("port unknown {} at {}", .0.as_str(), .1)]
    PortUnknown(Text, u32),
    /// An output of a work chain isn't data.
    #[error("not data at {0}")]
    NotData(u32),
    /// This status may not be declared, or isn't.
    #[error("bad status at {0}")]
    BadStatus(u32),
    /// This item is one too many.
    #[error("too many at {0}")]
    TooMany(u32),
    /// This name has too many bytes, or isn't one that a job's file may have.
    #[error("bad name {} at {}", .0.as_str(), .1)]
    BadName(Text, u32),
    /// Memory ran out.
    #[error("out of memory")]
    OutOfMemory,
}

impl From<AllocError> for CheckError {
    ghost from_gives = { λ _ e. e ≡ OutOfMemory };

    /// Memory ran out.
    fn from(_error: AllocError) -> CheckError {
        CheckError::OutOfMemory
    }
}

impl<T: Drop> From<AllocFailed<T>> for CheckError {
    ghost from_gives = { λ _ e. e ≡ OutOfMemory };

    /// Memory ran out before a value could be handed on.
    fn from(_error: AllocFailed<T>) -> CheckError {
        CheckError::OutOfMemory
    }
}
