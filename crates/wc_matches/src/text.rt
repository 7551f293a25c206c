//! The text of rows.

ghost use Rattle.std.specs.Prelude.{◌≡◌, ◌++◌, IfOk, OnOk, flat_map, string_bytes};
ghost use Rattle.wc_matches.specs.Texts.{count_line, further_text, more_text, row_line, rows_text};

use crate::found::Matches;
use crate::rows::Rows;
use std::alloc::{AllocError, Global};
use std::fmt::Write;
use wc_value::Text;

/// Writes the further numbers of a row.
fn put_further(out: &mut String, numbers: &[u32]) -> Result<(), AllocError>
    ensures { OnOk result (string_bytes out.new ≡ string_bytes out.old ++ further_text numbers.now) }
{
    for number in numbers {
        write!(out, " {number}")?;
    }
    Ok(())
}

/// Writes the line of a row.
fn put_row(out: &mut String, row: &[u32]) -> Result<(), AllocError>
    ensures { OnOk result (string_bytes out.new ≡ string_bytes out.old ++ row_line row.now) }
{
    if let [first, further @ ..] = row {
        write!(out, "{first}")?;
        put_further(out, further)?;
    }
    out.push_str("\n")
}

/// What is said of further rows.
fn more_text(more: bool) -> &'static str
    ensures { result.now ≡ more_text more }
{
    if more { " more" } else { "" }
}

/// The line that says how many rows there are, and whether there are further ones.
fn count_line(alloc: Global, count: usize, more: bool) -> Result<String, AllocError>
    ensures { IfOk result (λ line. string_bytes line ≡ count_line count more) }
{
    let mut line = format!(in alloc; "rows {count}")?;
    line.push_str(more_text(more))?;
    line.push_str("\n")?;
    Ok(line)
}

/// Writes a line for each row.
fn put_rows(out: &mut String, rows: &Rows) -> Result<(), AllocError>
    ensures { OnOk result (string_bytes out.new ≡ string_bytes out.old ++ flat_map row_line rows.now) }
{
    for at in 0..rows.len() {
        put_row(out, rows.row(at))?;
    }
    Ok(())
}

/// The text of the rows: a line for each with its numbers, and then how many there are and whether there are further ones.
pub fn rows_text(alloc: Global, matches: &Matches) -> Result<Text, AllocError>
    ensures { IfOk result (λ text. text ≡ rows_text matches.now.rows matches.now.more) }
{
    let rows = &matches.rows;
    let mut out = String::new(alloc);
    put_rows(&mut out, rows)?;
    let last = count_line(alloc, rows.len(), matches.more)?;
    out.push_str(last.as_str())?;
    Text::of_string(out)
}
