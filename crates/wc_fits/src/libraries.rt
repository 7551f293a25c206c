//! The definitions of a world.

ghost use Rattle.std.specs.Prelude.{◌≡◌, option_map};
ghost use Rattle.std.specs.Option.{option_copied};
ghost use Rattle.wc_syntax.specs.Bare.{bare_definition};
ghost use Rattle.wc_fits.specs.Records.{definition_in, kind_of_definition, library_at, same_kind};

use wc_state::ProcessKind;
use wc_syntax::{Checked, Definition, find_definition};
use wc_value::{Roomy, Text, Words};

/// A library, with the names of its definitions that have caching on, ascending.
pub type Known = (Checked, Words);

/// The libraries, of which the first has the number 1.
pub type Libraries = Roomy<Known>;

/// The library with this number.
pub fn library_at(libraries: &[Known], number: u32) -> Option<&Checked>
    ensures { option_copied result ≡ library_at libraries.now number }
{
    if number == 0 {
        return None;
    }
    match libraries.get(number as usize - 1) {
        Some((library, _)) => Some(library),
        None => None,
    }
}

/// The definition of this name in the library with this number.
pub(crate) fn definition_in<'a>(
    libraries: &'a [Known],
    number: u32,
    name: &Text,
) -> Option<&'a Definition>
    ensures { option_map bare_definition (option_copied result) ≡ definition_in libraries.now number name.now }
{
    let checked = library_at(libraries, number)?;
    find_definition(checked.library(), name)
}

/// What kind of definition it is.
pub fn kind_of_definition(definition: &Definition) -> ProcessKind
    ensures { result ≡ kind_of_definition (bare_definition definition.now) }
{
    match definition {
        Definition::Function(_) => ProcessKind::Function,
        Definition::Job(_) => ProcessKind::Job,
        Definition::Chain(_) => ProcessKind::Chain,
    }
}

/// Whether two kinds are the same.
pub(crate) fn same_kind(a: ProcessKind, b: ProcessKind) -> bool
    ensures { result ≡ same_kind a b }
{
    match a {
        ProcessKind::Function => matches!(b, ProcessKind::Function),
        ProcessKind::Job => matches!(b, ProcessKind::Job),
        ProcessKind::Chain => matches!(b, ProcessKind::Chain),
    }
}
