//! Lines of a word and a number.

ghost use Rattle.std.specs.Prelude.{◌≡◌, IfOk, string_bytes};
ghost use Rattle.wc_report.specs.Shows.{number_text, number_line, label_line};

use std::alloc::{AllocError, Global};
use wc_value::Text;

/// A number, or that there is none.
fn number_name(alloc: Global, number: Option<u32>) -> Result<String, AllocError>
    ensures { IfOk result (λ name. string_bytes name ≡ number_text number) }
{
    match number {
        Some(number) => format!(in alloc; "{number}"),
        None => String::from_str(alloc, "none"),
    }
}

/// A word and a number.
pub(crate) fn number_line(
    alloc: Global,
    word: &str,
    number: Option<u32>,
) -> Result<String, AllocError>
    ensures { IfOk result (λ line. string_bytes line ≡ number_line word.now number) }
{
    let name = number_name(alloc, number)?;
    format!(in alloc; "{word} {}\n", name.as_str())
}

/// A word, a label and a number.
pub(crate) fn label_line(
    alloc: Global,
    word: &str,
    label: &Text,
    number: u32,
) -> Result<String, AllocError>
    ensures { IfOk result (λ line. string_bytes line ≡ label_line word.now label.now number) }
{
    format!(in alloc; "{word} {} {number}\n", label.as_str())
}
