//! Keys, hashed as their parts come.

ghost use Rattle.std.specs.Prelude.{◌≡◌};
ghost use Rattle.sha2.specs.Hashers.{Holds256};
ghost use Rattle.wc_value.specs.Spelling.{pair_of};
ghost use Rattle.wc_keys.specs.Hashing.{Adds};
ghost use Rattle.wc_keys.specs.SealKeys.{key_start};

use crate::hashing::{put_byte, put_count, put_text, put_value};
use sha2::{Digest, Sha256};
use wc_value::{Text, Value};

/// A hasher of a key's beginning, up to the count of its inputs, where this is the text of the definition.
pub fn key_hasher(text: &Text) -> Sha256
    ensures { Holds256 result (key_start text.now) }
{
    let mut hasher = Sha256::new();
    put_byte(&mut hasher, 5);
    put_count(&mut hasher, 2);
    put_text(&mut hasher, b"definition");
    put_byte(&mut hasher, 3);
    put_text(&mut hasher, text.bytes());
    put_text(&mut hasher, b"inputs");
    put_byte(&mut hasher, 5);
    hasher
}

/// Adds an input with its port.
pub fn put_entry(hasher: &mut Sha256, port: &Text, value: &Value)
    ensures { Adds hasher.old (pair_of (port.now, value.now)) hasher.new }
{
    put_text(hasher, port.bytes());
    put_value(hasher, value);
}
