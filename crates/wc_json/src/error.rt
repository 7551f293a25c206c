//! Why a JSON text is refused.

ghost use Rattle.std.specs.Prelude.{◌≡◌};
ghost use Rattle.wc_json.specs.declared.error.JsonError.TheVariants.{OutOfMemory};

use std::alloc::{AllocError, AllocFailed};
use thiserror::Error;
use wc_value::Text;

/// Why a JSON text is refused. A path is `/` and the key or the index at each level, and is empty at the top.
#[derive(Debug, Drop, Error)]
pub enum JsonError {
    /// The bytes are no JSON.
    #[error("not json")]
    NotJson,
    /// The number at this path is neither whole within 64 bits with sign nor within 64 bits without.
    #[error("float at {0:?}")]
    Float(Text),
    /// The number at this path is whole and above the greatest of 64 bits with sign.
    #[error("out of range at {0:?}")]
    OutOfRange(Text),
    /// What stands at this path isn't what is asked for there.
    #[error("shape at {0:?}")]
    Shape(Text),
    /// Memory ran out.
    #[error("out of memory")]
    OutOfMemory,
}

impl From<AllocError> for JsonError {
    ghost from_gives = { λ _ e. e ≡ OutOfMemory };

    fn from(_error: AllocError) -> JsonError {
        JsonError::OutOfMemory
    }
}

impl<T: Drop> From<AllocFailed<T>> for JsonError {
    ghost from_gives = { λ _ e. e ≡ OutOfMemory };

    fn from(_error: AllocFailed<T>) -> JsonError {
        JsonError::OutOfMemory
    }
}
