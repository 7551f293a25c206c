//! Settings of a command, and what they say of a submission.

ghost use Rattle.std.specs.Prelude.{◌≡◌, [], IfOk};
ghost use Rattle.std.specs.Map.{keys_of};
ghost use Rattle.wc_plan.specs.Settings.{ReadsConfig, ReadsSettings, usual_settings, with_name, with_names, names_on, submitted_with};

use crate::status::Cause;
use crate::submission::{Invocation, Submission};
use std::alloc::{AllocError, Global};
use wc_config::{ConfigError, Settings, caching_on, read_settings};
use wc_syntax::{Library, head};
use wc_value::{Bytes, Duplicate, Keyed, Text, Words};

/// Names in their order.
type Names = Keyed<()>;

/// The settings that bytes are read as, or why there are none.
fn read_config(alloc: Global, bytes: &Bytes) -> Result<Result<Settings, Cause>, AllocError>
    ensures { IfOk result (λ s. ReadsConfig bytes.now s) }
{
    match read_settings(alloc, bytes.bytes()) {
        Ok(settings) => Ok(Ok(settings)),
        Err(ConfigError::OutOfMemory) => Err(AllocError),
        Err(error) => Ok(Err(Cause::Settings(error))),
    }
}

/// The settings that the file of this name is read as, or why there are none, where this is its content, none where there is no such
/// file.
pub fn read_settings_content(
    alloc: Global,
    file: &Text,
    content: Option<Bytes>,
) -> Result<Result<Settings, Cause>, AllocError>
    ensures { IfOk result (λ s. ReadsSettings file.now content s) }
{
    match content {
        None => Ok(Err(Cause::NoFile(file.copy()?))),
        Some(bytes) => read_config(alloc, &bytes),
    }
}

/// The settings where no file is named.
pub(crate) fn usual_settings(alloc: Global) -> Settings
    ensures { result ≡ usual_settings }
{
    Settings::usual(alloc)
}

/// Names and one more, where caching is on for it.
fn with_name(settings: &Settings, name: &Text, names: Names) -> Result<Names, AllocError>
    ensures { IfOk result (λ all. all ≡ with_name settings.now name.now names) }
{
    let mut all = names;
    if caching_on(settings, name) {
        all.set(name.copy()?, ())?;
    }
    Ok(all)
}

/// The names of definitions for which caching is on.
fn entries_on(alloc: Global, settings: &Settings, library: &Library) -> Result<Names, AllocError>
    ensures { IfOk result (λ names. names ≡ with_names settings.now library.now []) }
{
    let mut names = Names::new(alloc);
    for definition in library.as_slice() {
        names = with_name(settings, &head(definition).name.text, names)?;
    }
    Ok(names)
}

/// The names of these entries.
fn names_of(alloc: Global, entries: &[(Text, ())]) -> Result<Words, AllocError>
    ensures { IfOk result (λ names. names ≡ keys_of entries.now) }
{
    let mut names = Words::new(alloc);
    for (name, _) in entries {
        names.push(name.copy()?)?;
    }
    Ok(names)
}

/// The names of a library's definitions for which caching is on, ascending.
pub fn names_on(alloc: Global, settings: &Settings, library: &Library) -> Result<Words, AllocError>
    ensures { IfOk result (λ names. names ≡ names_on settings.now library.now) }
{
    let entries = entries_on(alloc, settings, library)?;
    names_of(alloc, entries.as_slice())
}

/// What is submitted where a definition is called so, with these settings.
#[tactic(auto, using(crate::proofs::Configured::names_bare))]
pub(crate) fn submitted_with(
    alloc: Global,
    settings: &Settings,
    invocation: Invocation,
) -> Result<Submission, AllocError>
    ensures { IfOk result (λ s. s ≡ submitted_with settings.now invocation) }
{
    let Invocation {
        library,
        name,
        inputs,
    } = invocation;
    let caching = names_on(alloc, settings, library.library())?;
    Ok(Submission {
        library,
        name,
        inputs,
        caching,
        limits: settings.limits,
    })
}
