//! Canonical bytes of values, hashed as they come. It takes no memory.

ghost use Rattle.std.specs.Prelude.{◌≡◌, [], ◌∷◌, ◌<◌, ◌^◌, ℕ, List, length};
ghost use Rattle.std.specs.Int.{w32, to_be_bytes};
ghost use Rattle.sha2.specs.Hashers.{Holds256};
ghost use Rattle.sha2.specs.Sha256.{sha256};
ghost use Rattle.wc_value.specs.Spelling.{spelling, text};
ghost use Rattle.wc_keys.specs.Hashing.{Adds};

use sha2::{Digest, Sha256};
use wc_value::{Fields, Files, Text, Value, Values};

/// The SHA-256 of bytes. Equal bytes have equal digests; that bytes are equal, the bytes alone decide.
pub fn digest_of(bytes: &[u8]) -> [u8; 32]
    ensures { result ≡ sha256 bytes.now }
{
    let mut hasher = Sha256::new();
    hasher.update(bytes);
    hasher.finalize()
}

/// The SHA-256 of the message that a hasher holds.
pub fn finish(hasher: Sha256) -> [u8; 32]
    ensures { (message : List ℕ) → Holds256 hasher message → result ≡ sha256 message }
{
    hasher.finalize()
}

/// Adds bytes.
fn put(hasher: &mut Sha256, bytes: &[u8])
    ensures { Adds hasher.old bytes.now hasher.new }
{
    hasher.update(bytes);
}

/// Adds one byte.
pub(crate) fn put_byte(hasher: &mut Sha256, byte: u8)
    ensures { Adds hasher.old (byte ∷ []) hasher.new }
{
    put(hasher, &[byte]);
}

/// Adds a count or length of four bytes.
pub fn put_count(hasher: &mut Sha256, count: usize)
    // The count is below 2^32.
    requires { count < 2 ^ 32 }
    ensures { Adds hasher.old (to_be_bytes w32 count) hasher.new }
{
    put(hasher, &(count as u32).to_be_bytes());
}

/// Adds a text behind its length.
#[tactic(auto, using(crate::proofs::Added::adds_both))]
pub(crate) fn put_text(hasher: &mut Sha256, bytes: &[u8])
    requires { length bytes.now < 2 ^ 32 }
    ensures { Adds hasher.old (text bytes.now) hasher.new }
{
    put_count(hasher, bytes.len());
    put(hasher, bytes);
}

fn put_text_value(hasher: &mut Sha256, text: &Text)
    ensures { Adds hasher.old (spelling (Value.Text text.now)) hasher.new }
{
    put_byte(hasher, 3);
    put_text(hasher, text.bytes());
}

fn put_int(hasher: &mut Sha256, number: i64)
    ensures { Adds hasher.old (spelling (Value.Int number)) hasher.new }
{
    put_byte(hasher, 1);
    put(hasher, &number.to_be_bytes());
}

fn put_bool(hasher: &mut Sha256, truth: bool)
    ensures { Adds hasher.old (spelling (Value.Bool truth)) hasher.new }
{
    put_byte(hasher, 2);
    put_byte(hasher, if truth { 1 } else { 0 });
}

/// Adds the canonical bytes of a value.
#[cycle(hash)]
pub(crate) fn put_value(hasher: &mut Sha256, value: &Value)
    ensures { Adds hasher.old (spelling value.now) hasher.new }
{
    match value {
        Value::Int(number) => put_int(hasher, *number),
        Value::Bool(truth) => put_bool(hasher, *truth),
        Value::Text(text) => put_text_value(hasher, text),
        Value::List(items) => put_values(hasher, items),
        Value::Dict(fields) => put_fields(hasher, fields),
        Value::Folder(files) => put_files(hasher, files),
    }
}

#[cycle(hash)]
fn put_values(hasher: &mut Sha256, items: &Values)
    ensures { Adds hasher.old (spelling (Value.List items.now)) hasher.new }
{
    put_byte(hasher, 4);
    put_count(hasher, items.len());
    for item in items.as_slice() {
        put_value(hasher, item);
    }
}

#[cycle(hash)]
fn put_fields(hasher: &mut Sha256, fields: &Fields)
    ensures { Adds hasher.old (spelling (Value.Dict fields.now)) hasher.new }
{
    put_byte(hasher, 5);
    put_count(hasher, fields.len());
    for (name, value) in fields.as_slice() {
        put_text(hasher, name.bytes());
        put_value(hasher, value);
    }
}

fn put_files(hasher: &mut Sha256, folder: &Files)
    ensures { Adds hasher.old (spelling (Value.Folder folder.now)) hasher.new }
{
    put_byte(hasher, 6);
    put_count(hasher, folder.len());
    for (name, content) in folder.as_slice() {
        put_text(hasher, name.bytes());
        put_text(hasher, content.bytes());
    }
}
