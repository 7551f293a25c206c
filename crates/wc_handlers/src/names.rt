//! Names of definitions.

ghost use Rattle.std.specs.Prelude.{◌≡◌};
ghost use Rattle.std.specs.List.{list_all};
ghost use Rattle.wc_lexer.specs.Cuts.{is_letters};
ghost use Rattle.wc_lexer.specs.Tokens.{begins_name, is_in_name};
ghost use Rattle.wc_handlers.specs.Names.{is_name};

use wc_lexer::word_of;

/// A letter or `_`.
fn begins_name(byte: u8) -> bool
    ensures { result ≡ begins_name byte }
{
    byte.is_ascii_alphabetic() || byte == b'_'
}

/// Whether each byte is a letter, a digit or `_`.
fn all_in_name(bytes: &[u8]) -> bool
    ensures { result ≡ list_all is_in_name bytes.now }
{
    for byte in bytes {
        if !begins_name(*byte) && !byte.is_ascii_digit() {
            return false;
        }
    }
    true
}

/// Whether these are a letter or `_`, and then letters, digits and `_`.
fn is_letters(bytes: &[u8]) -> bool
    ensures { result ≡ is_letters bytes.now }
{
    match bytes {
        [] => false,
        [first, rest @ ..] => begins_name(*first) && all_in_name(rest),
    }
}

/// Whether a definition may have this name.
pub fn is_name(bytes: &[u8]) -> bool
    ensures { result ≡ is_name bytes.now }
{
    bytes.len() <= 64 && is_letters(bytes) && word_of(bytes).is_none()
}
