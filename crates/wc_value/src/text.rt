//! UTF-8 text.

ghost use Rattle.std.specs.Prelude.{◌≡◌, ◌<◌, ◌^◌, length, true, IfOk, string_bytes, if◌then◌else◌};
ghost use Rattle.std.specs.Str.{is_utf8};

use crate::duplicate::Duplicate;
use crate::list::{Bytes, MOST};
use std::alloc::{AllocError, Global};
use std::marker::Model;

/// UTF-8 text, which contracts see as the list of its bytes.
#[derive(Debug, Drop)]
pub struct Text {
    inner: String,
}

impl Model for Text {
    ghost use Rattle.std.specs.Prelude.{◌^◌, ◌<◌, List, ℕ, length, string_bytes};

    ghost Value = { List ℕ };

    ghost view = { λ a. string_bytes a.inner };

    ghost invariant = { λ a. length (string_bytes a.inner) < 2 ^ 32 };
}

impl Text {
    /// The text of these bytes, or none exactly where they are no UTF-8.
    pub fn of(bytes: Bytes) -> Option<Text>
        ensures { result ≡ (if is_utf8 bytes then Some bytes else None) }
    {
        match String::from_utf8(bytes.into_vec()) {
            Ok(inner) => Some(Text { inner }),
            Err(_) => None,
        }
    }

    /// The text of a string, which may have no more bytes than a list can have items.
    pub fn of_string(string: String) -> Result<Text, AllocError>
        ensures { IfOk result (λ text. text ≡ string_bytes string) }
    {
        if string.len() > MOST {
            return Err(AllocError);
        }
        Ok(Text { inner: string })
    }

    /// A copy of a `str`.
    pub fn of_str(alloc: Global, str: &str) -> Result<Text, AllocError>
        ensures { IfOk result (λ text. text ≡ str.now) }
    {
        Text::of_string(String::from_str(alloc, str)?)
    }

    /// The bytes of the text.
    pub fn bytes(&self) -> &[u8]
        // The text's bytes.
        ensures value { result.now ≡ self.now }
        // They are fewer than 2^32.
        ensures bound { length self.now < 2 ^ 32 }
        // They are UTF-8.
        ensures utf8 { is_utf8 self.now ≡ true }
    {
        self.inner.as_bytes()
    }

    /// The text as a `str`.
    pub fn as_str(&self) -> &str
        ensures { result.now ≡ self.now }
    {
        self.inner.as_str()
    }
}

impl Duplicate for Text {
    fn copy(&self) -> Result<Text, AllocError> {
        Ok(Text {
            inner: self.inner.clone()?,
        })
    }
}
