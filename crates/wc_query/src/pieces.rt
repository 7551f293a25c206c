//! Parts of a word.

ghost use Rattle.std.specs.Prelude.{◌≡◌, ◌∷◌, ◌<◌, length, option_map, IfSome};
ghost use Rattle.std.specs.Option.{option_copied};
ghost use Rattle.wc_query.specs.Pieces.{behind, without_star, pieces, pieces_of};

/// What is behind this beginning of a text, if the text begins so.
pub(crate) fn behind<'a>(text: &'a str, beginning: &str) -> Option<&'a str>
    ensures { option_copied result ≡ behind beginning.now text.now }
{
    text.strip_prefix(beginning)
}

/// A text without the `*` that it ends with, if it ends so.
pub(crate) fn without_star(text: &str) -> Option<&str>
    ensures { option_copied result ≡ without_star text.now }
{
    text.strip_suffix('*')
}

/// The first piece of a text that is cut at each comma, and the text behind that comma, if there is one.
pub(crate) fn first_piece(text: &str) -> (&str, Option<&str>)
    ensures pieces { pieces text.now ≡ result.0.now ∷ pieces_of (option_copied result.1) }
    ensures shorter { IfSome result.1 (λ rest. length rest.now < length text.now) }
{
    match text.split_once(',') {
        Some((piece, rest)) => (piece, Some(rest)),
        None => (text, None),
    }
}
