//! The settings that there are: one table of parts, keys and what each holds.

ghost use Rattle.std.specs.Prelude.{◌≡◌};
ghost use Rattle.wc_config.specs.Keys.{part_named, name_of, caching_key, limits_key, run_key, holds_of};

/// The most nodes of a store, by default.
pub const USUAL_NODES: i64 = 1_000_000;
/// The most bytes of a journal, by default.
pub const USUAL_BYTES: i64 = 268_435_456;
/// Milliseconds between two questions whether a job has ended, by default.
pub const USUAL_POLL: i64 = 1_000;

/// A part of the settings.
#[derive(Clone, Copy, PartialEq, Eq)]
pub enum Part {
    /// Which definitions have caching on.
    Caching,
    /// How large a store may grow.
    Limits,
    /// How a run goes.
    Run,
}

/// What a setting holds.
#[derive(Clone, Copy, PartialEq, Eq)]
pub enum Holds {
    /// True or false.
    Truth,
    /// Names of definitions.
    Names,
    /// A whole number from the first to the second.
    Number(i64, i64),
}

/// The part with this name, if there is one.
pub fn part_named(name: &str) -> Option<Part>
    ensures { result ≡ part_named name.now }
{
    if name == "caching" {
        Some(Part::Caching)
    } else if name == "limits" {
        Some(Part::Limits)
    } else if name == "run" {
        Some(Part::Run)
    } else {
        None
    }
}

/// The name of a part.
pub fn name_of(part: Part) -> &'static str
    ensures { result.now ≡ name_of part }
{
    match part {
        Part::Caching => "caching",
        Part::Limits => "limits",
        Part::Run => "run",
    }
}

/// What a setting of the part on caching holds, if there is one with this key.
fn caching_key(key: &str) -> Option<Holds>
    ensures { result ≡ caching_key key.now }
{
    if key == "default" {
        Some(Holds::Truth)
    } else if key == "enabled" || key == "disabled" {
        Some(Holds::Names)
    } else {
        None
    }
}

/// What a setting of the part on limits holds, if there is one with this key.
fn limits_key(key: &str) -> Option<Holds>
    ensures { result ≡ limits_key key.now }
{
    if key == "max_nodes" {
        Some(Holds::Number(1, 8_000_000))
    } else if key == "max_bytes" {
        Some(Holds::Number(1_024, 2_147_483_648))
    } else {
        None
    }
}

/// What a setting of the part on runs holds, if there is one with this key.
fn run_key(key: &str) -> Option<Holds>
    ensures { result ≡ run_key key.now }
{
    if key == "poll_ms" {
        Some(Holds::Number(1, 600_000))
    } else {
        None
    }
}

/// What a setting holds, if there is one with this key in this part.
pub fn holds_of(part: Part, key: &str) -> Option<Holds>
    ensures { result ≡ holds_of part key.now }
{
    match part {
        Part::Caching => caching_key(key),
        Part::Limits => limits_key(key),
        Part::Run => run_key(key),
    }
}
