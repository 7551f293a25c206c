//! Why a settings file is refused.

ghost use Rattle.std.specs.Prelude.{◌≡◌};
ghost use Rattle.wc_config.specs.declared.error.ConfigError.TheVariants.{OutOfMemory};

use std::alloc::AllocError;
use thiserror::Error;
use wc_value::Text;

/// Why a settings file is refused.
#[derive(Debug, Drop, Error)]
pub enum ConfigError {
    /// The bytes are no TOML.
    #[error("not toml")]
    NotToml,
    /// No setting has this key.
    #[error("unknown key {0:?}")]
    UnknownKey(Text),
    /// The setting with this key can't have its value.
    #[error("bad value {0:?}")]
    BadValue(Text),
    /// Memory ran out.
    #[error("out of memory")]
    OutOfMemory,
}

impl From<AllocError> for ConfigError {
    ghost from_gives = { λ _ e. e ≡ OutOfMemory };

    fn from(_error: AllocError) -> ConfigError {
        ConfigError::OutOfMemory
    }
}
