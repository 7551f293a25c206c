//! The printed text of libraries: each item on a line of its own, indented by two spaces an open brace.

ghost use Rattle.wc_syntax.specs.Laws.{OffsetsArentPrinted};
ghost use Rattle.std.specs.Prelude.{◌≡◌, ◌++◌, OnOk, IfOk, string_bytes, codes};
ghost use Rattle.wc_syntax.specs.Printing.{printed_definition};

mod definitions;
mod expressions;
mod lines;
mod outlines;

use crate::definition::Definition;
use definitions::put_definition;
use std::alloc::{AllocError, Global};
use wc_lexer::Text;

/// The printed text of one definition, as it stands in that of its library.
pub fn print_definition(alloc: Global, definition: &Definition) -> Result<Text, AllocError>
    ensures { IfOk result (λ text. text ≡ printed_definition definition.now) }
{
    let mut out = String::new(alloc);
    put_definition(alloc, &mut out, definition)?;
    Text::of_string(out)
}

/// Libraries that are the same but for offsets print the same text.
pub fn offsets_are_not_printed()
    ensures { OffsetsArentPrinted }
{}
