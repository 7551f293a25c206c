//! Settings, and whether caching is on for a name.

ghost use Rattle.std.specs.Prelude.{◌≡◌, [], false};
ghost use Rattle.wc_state.specs.Ranges.{AreLimits};
ghost use Rattle.wc_config.specs.Settings.{is_listed, caching_on};

use crate::keys::{USUAL_BYTES, USUAL_NODES, USUAL_POLL};
use std::alloc::Global;
use wc_state::Limits;
use wc_value::{Text, Words};

/// What a settings file says.
#[derive(Debug, Drop)]
pub struct Settings {
    /// Whether caching is on for a name that is in no list.
    pub default_on: bool,
    /// Names of definitions with caching on.
    pub enabled: Words,
    /// Names of definitions with caching off.
    pub disabled: Words,
    /// How large a store may grow, and how often a running job is asked.
    pub limits: Limits,
}

impl Settings {
    /// The settings where no file gives any. They take no memory.
    pub fn usual(alloc: Global) -> Settings
        // Caching is off for all.
        ensures caching { (result.default_on ≡ false) × (result.enabled ≡ []) × (result.disabled ≡ []) }
        // A million nodes, 268,435,456 bytes, a second between looks.
        ensures limits { (result.limits.max_nodes ≡ 1000000) × (result.limits.max_bytes ≡ 268435456) × (result.limits.poll_ms ≡ 1000) }
        // The limits lie within their ranges.
        ensures ranges { AreLimits result.limits }
    {
        Settings {
            default_on: false,
            enabled: Words::new(alloc),
            disabled: Words::new(alloc),
            limits: Limits {
                max_nodes: USUAL_NODES as u32,
                max_bytes: USUAL_BYTES as u64,
                poll_ms: USUAL_POLL as u64,
            },
        }
    }
}

/// Whether a name is one of these.
pub(crate) fn is_listed(name: &Text, names: &Words) -> bool
    ensures { result ≡ is_listed name.now names.now }
{
    for one in names.as_slice() {
        if one.bytes() == name.bytes() {
            return true;
        }
    }
    false
}

/// Whether caching is on for the definition with a name. It takes no memory.
pub fn caching_on(settings: &Settings, name: &Text) -> bool
    ensures { result ≡ caching_on settings.now name.now }
{
    if is_listed(name, &settings.disabled) {
        false
    } else if is_listed(name, &settings.enabled) {
        true
    } else {
        settings.default_on
    }
}
