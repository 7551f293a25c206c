//! Files that hold libraries.

ghost use Rattle.std.specs.Prelude.{◌≡◌, [], ◌∷◌, ◌++◌, IfOk};
ghost use Rattle.std.specs.Str.{is_utf8};
ghost use Rattle.wc_syntax.specs.Writable.{IsWritable};
ghost use Rattle.wc_plan.specs.Counts.{CountsShelf};
ghost use Rattle.wc_plan.specs.Files.{ReadsLibrary, ReadsText, ReadsBytes, Reads, ReadsFrom};

use crate::error::PlanError;
use crate::further::content_from;
use crate::status::Cause;
use std::alloc::{AllocError, Global};
use wc_check::{first_finding, rules_are_kept_where_nothing_is_found, share};
use wc_io::Shelf;
use wc_parser::{ParseError, parse};
use wc_syntax::{Checked, Printed};
use wc_value::{Bytes, Duplicate, Text};

/// What a file is read as.
#[derive(Drop)]
pub enum Read {
    /// It holds no checked library, for this cause.
    Refused(Cause),
    /// The library that it holds.
    Library(Checked),
}

/// What a library is read as.
fn read_library(alloc: Global, library: Printed) -> Result<Read, AllocError>
    requires { IsWritable library }
    ensures { IfOk result (λ r. ReadsLibrary library r) }
{
    match first_finding(alloc, &library)? {
        Some(error) => Ok(Read::Refused(Cause::Check(error))),
        None => {
            rules_are_kept_where_nothing_is_found();
            Ok(Read::Library(share(alloc, library)?))
        }
    }
}

/// What a text is read as.
fn read_text(alloc: Global, text: &Text) -> Result<Read, AllocError>
    ensures { IfOk result (λ r. ReadsText text.now r) }
{
    match parse(alloc, text) {
        Ok(library) => read_library(alloc, library),
        Err(ParseError::OutOfMemory) => Err(AllocError),
        Err(error) => Ok(Read::Refused(Cause::Parse(error))),
    }
}

/// What a file of this name with these bytes is read as.
fn read_bytes(alloc: Global, file: &Text, bytes: Bytes) -> Result<Read, AllocError>
    ensures { IfOk result (λ r. ReadsBytes file.now (is_utf8 bytes) bytes r) }
{
    match Text::of(bytes) {
        Some(text) => read_text(alloc, &text),
        None => Ok(Read::Refused(Cause::NotUtf8(file.copy()?))),
    }
}

/// What the file of this name is read as, where this is its content, none where there is no such file.
pub fn read_content(alloc: Global, file: &Text, content: Option<Bytes>) -> Result<Read, AllocError>
    ensures { IfOk result (λ r. Reads file.now content r) }
{
    match content {
        None => Ok(Read::Refused(Cause::NoFile(file.copy()?))),
        Some(bytes) => read_bytes(alloc, file, bytes),
    }
}

/// What a file of the shelf is read as.
pub(crate) fn read_from<R: Shelf>(
    alloc: Global,
    shelf: &mut R,
    file: &Text,
) -> Result<Read, PlanError>
    ensures read { IfOk result (λ r. ReadsFrom (R.contents shelf.old) file.now r) }
    ensures counts { CountsShelf result (R.faults shelf.old) (R.faults shelf.new) (R.failed shelf.new) }
    ensures kept { R.contents shelf.new ≡ R.contents shelf.old }
    ensures named { R.asked shelf.new ≡ R.asked shelf.old ++ (file.now ∷ []) }
{
    let content = content_from(alloc, shelf, file)?;
    Ok(read_content(alloc, file, content)?)
}
