//! Parts of texts.

ghost use Rattle.std.specs.Prelude.{◌≡◌, slice_get};
ghost use Rattle.std.specs.Option.{option_copied};
ghost use Rattle.wc_expression.specs.Texts.{trimmed, pieces, stands_in};

/// The text without the spaces, tabs, line feeds and carriage returns at its ends.
pub fn trim_white(text: &str) -> &str
    ensures { result.now ≡ trimmed text.now }
{
    text.trim_start_matches([' ', '\t', '\n', '\r'])
        .trim_end_matches([' ', '\t', '\n', '\r'])
}

/// The piece at a number, counted from 0, of a text cut at each line feed.
pub fn find_line(text: &str, number: u64) -> Option<&str>
    ensures { option_copied result ≡ slice_get (pieces text.now) number }
{
    let mut rest = text;
    for _piece in 0..number {
        match rest.split_once('\n') {
            Some((_, behind)) => rest = behind,
            None => return None,
        }
    }
    match rest.split_once('\n') {
        Some((piece, _)) => Some(piece),
        None => Some(rest),
    }
}

/// Whether a text stands in another.
pub fn has_part(text: &str, part: &str) -> bool
    ensures { result ≡ stands_in part.now text.now }
{
    text.contains(part)
}
