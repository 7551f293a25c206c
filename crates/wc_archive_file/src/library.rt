//! The library of an archive.

ghost use Rattle.std.specs.Prelude.{◌≡◌, ◌↔◌, IfOk, IsTrue, Ok};
ghost use Rattle.wc_parser.specs.declared.error.ParseError.TheVariants as refusal;
ghost use Rattle.wc_parser.specs.Parsing.{TextSays};
ghost use Rattle.wc_syntax.specs.Checked.{KeepsRules};
ghost use Rattle.wc_syntax.specs.Printing.{printed};
ghost use Rattle.wc_archive_file.specs.Archives.{IsKept};
ghost use Rattle.wc_archive_file.specs.Reads.{Names};

use std::alloc::{AllocError, Global};
use wc_check::{first_finding, share};
use wc_parser::{ParseError, parse};
use wc_syntax::{Checked, Printed};
use wc_value::{Text, same_text};

/// A library that meets the rules, where it prints as the text that it was parsed from.
fn printed_of(alloc: Global, text: &Text, library: Printed) -> Result<Option<Checked>, AllocError>
    requires says { TextSays text.now (Ok library) }
    requires rules { KeepsRules library }
    ensures { IfOk result (λ found. Names printed IsKept text.now found) }
{
    let again = library.text(alloc)?;
    if same_text(&again, text) {
        Ok(Some(share(alloc, library)?))
    } else {
        Ok(None)
    }
}

/// A library that was parsed, where it meets the rules and prints as the text that it was parsed from.
fn checked_of(alloc: Global, text: &Text, library: Printed) -> Result<Option<Checked>, AllocError>
    requires { TextSays text.now (Ok library) }
    ensures { IfOk result (λ found. Names printed IsKept text.now found) }
{
    match first_finding(alloc, &library)? {
        Some(_) => Ok(None),
        None => printed_of(alloc, text, library),
    }
}

/// Whether memory ran out in parsing.
fn is_memory(error: &ParseError) -> bool
    ensures { IsTrue result ↔ (error.now ≡ refusal.OutOfMemory) }
{
    matches!(error, ParseError::OutOfMemory)
}

/// The library whose printed text this is, if there is one.
pub(crate) fn library_of(alloc: Global, text: &Text) -> Result<Option<Checked>, AllocError>
    ensures { IfOk result (λ found. Names printed IsKept text.now found) }
{
    match parse(alloc, text) {
        Ok(library) => checked_of(alloc, text, library),
        Err(error) => {
            if is_memory(&error) {
                Err(AllocError)
            } else {
                Ok(None)
            }
        }
    }
}
