//! Why no restart chain is made.

ghost use Rattle.std.specs.Prelude.{◌≡◌};
ghost use Rattle.wc_handlers.specs.declared.error.RestartError.TheVariants.{OutOfMemory};

use std::alloc::AllocError;
use thiserror::Error;
use wc_value::Text;

/// Why no restart chain is made of a library and a spec file: the first of these that holds, in this order.
#[derive(Debug, Drop, Error)]
pub enum RestartError {
    /// The bytes of the spec file are no TOML.
    #[error("not toml")]
    NotToml,
    /// The spec has nothing at this key.
    #[error("unknown key {0:?}")]
    UnknownKey(Text),
    /// The key can't have its value, or isn't there.
    #[error("bad value {0:?}")]
    BadValue(Text),
    /// The library has no definition of this name and kind.
    #[error("unknown name {0:?}")]
    UnknownName(Text),
    /// The library has a definition of the new chain's name.
    #[error("name taken {0:?}")]
    NameTaken(Text),
    /// This function of a handler doesn't take and give what the job asks for.
    #[error("bad ports {0:?}")]
    BadPorts(Text),
    /// Two handlers have this priority.
    #[error("same priority {0}")]
    SamePriority(u32),
    /// The library with the chain has too many definitions or too long a text.
    #[error("too many")]
    TooMany,
    /// Memory ran out.
    #[error("out of memory")]
    OutOfMemory,
}

impl From<AllocError> for RestartError {
    ghost from_gives = { λ _ e. e ≡ OutOfMemory };

    fn from(_error: AllocError) -> RestartError {
        RestartError::OutOfMemory
    }
}
