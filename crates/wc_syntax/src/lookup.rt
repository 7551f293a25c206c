//! Definitions by name, and names among others.

ghost use Rattle.std.specs.Prelude.{◌≡◌};
ghost use Rattle.std.specs.Option.{option_copied};
ghost use Rattle.wc_syntax.specs.Findings.{head_of, definition_named, is_among};

use crate::definition::{Definition, Head, Library};
use wc_lexer::{Text, Words};

/// What a definition begins with.
pub fn head(definition: &Definition) -> &Head
    ensures { result.now ≡ head_of definition.now }
{
    match definition {
        Definition::Function(function) => &function.head,
        Definition::Job(job) => &job.head,
        Definition::Chain(chain) => &chain.head,
    }
}

/// The definition of a library with this name.
pub fn find_definition<'a>(library: &'a Library, name: &Text) -> Option<&'a Definition>
    ensures { option_copied result ≡ definition_named name.now library.now }
{
    for definition in library.as_slice() {
        if head(definition).name.text.bytes() == name.bytes() {
            return Some(definition);
        }
    }
    None
}

/// Whether a name is one of these.
pub fn is_among(name: &Text, names: &Words) -> bool
    ensures { result ≡ is_among name.now names.now }
{
    for one in names.as_slice() {
        if one.bytes() == name.bytes() {
            return true;
        }
    }
    false
}
