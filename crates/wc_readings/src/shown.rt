//! Texts that are put together from parts.

use std::alloc::{AllocError, Global};
use std::fmt::{Debug, Display};

/// A text that parts are put behind. Where memory runs out for one it is lost, which `finish` tells, so that what puts parts needs no answer.
#[derive(Drop)]
pub struct Shown {
    text: String,
    is_lost: bool,
}

impl Shown {
    /// No text.
    pub fn new(alloc: Global) -> Shown {
        Shown {
            text: String::new(alloc),
            is_lost: false,
        }
    }

    /// The text so far.
    pub fn as_str(&self) -> &str {
        self.text.as_str()
    }

    /// Whether memory ran out for a part.
    pub fn is_lost(&self) -> bool {
        self.is_lost
    }

    /// Memory ran out for a part.
    pub fn lose(&mut self) {
        self.is_lost = true;
    }

    /// Puts a text.
    pub fn put(&mut self, part: &str) {
        if self.text.push_str(part).is_err() {
            self.lose();
        }
    }

    /// Puts a character.
    pub fn put_sign(&mut self, sign: char) {
        if self.text.push(sign).is_err() {
            self.lose();
        }
    }

    /// Puts what is shown.
    pub fn put_item<T: Display>(&mut self, item: &T) {
        if write!(self.text, "{item}").is_err() {
            self.lose();
        }
    }

    /// Puts a word.
    pub fn put_word<T: Debug>(&mut self, word: &T) {
        if write!(self.text, "{word:?}").is_err() {
            self.lose();
        }
    }

    /// The text.
    pub fn finish(self) -> Result<String, AllocError> {
        if self.is_lost {
            return Err(AllocError);
        }
        Ok(self.text)
    }
}
