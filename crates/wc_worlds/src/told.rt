//! What rows answer, and texts like it.

use std::alloc::{AllocError, Global};
use std::fmt::{Debug, Display};
use wc_value::Text;

/// A text that parts are put behind. Where memory runs out for one it is lost, which `is_lost` tells, so that what puts parts needs no answer.
#[derive(Drop)]
pub struct Told {
    text: String,
    is_lost: bool,
}

impl Told {
    /// No text.
    pub fn new(alloc: Global) -> Told {
        Told {
            text: String::new(alloc),
            is_lost: false,
        }
    }

    /// The text.
    pub fn as_str(&self) -> &str {
        self.text.as_str()
    }

    /// Whether memory ran out for a part.
    pub fn is_lost(&self) -> bool {
        self.is_lost
    }

    /// No text again.
    pub fn clear(&mut self) {
        self.text.clear();
    }

    /// Memory ran out for a part.
    pub fn lose(&mut self) {
        self.is_lost = true;
    }

    /// Puts a text.
    pub fn put(&mut self, part: &str) {
        if self.text.push_str(part).is_err() {
            self.lose();
        }
    }

    /// Puts a text, if there was memory for it.
    pub fn put_text(&mut self, part: Result<Text, AllocError>) {
        match part {
            Ok(part) => self.put(part.as_str()),
            Err(_) => self.lose(),
        }
    }

    /// Puts what is shown.
    pub fn put_item<T: Display>(&mut self, item: &T) {
        if write!(self.text, "{item}").is_err() {
            self.lose();
        }
    }

    /// Puts a text in quotes.
    pub fn put_quoted<T: Debug>(&mut self, item: &T) {
        if write!(self.text, "{item:?}").is_err() {
            self.lose();
        }
    }

    /// Puts texts, each with the number behind it, and an end of the line.
    pub fn put_numbers(&mut self, numbers: &[(&str, u64)]) {
        for (part, number) in numbers {
            self.put(part);
            self.put_item(number);
        }
        self.put("\n");
    }

    /// Puts what is shown, and an end of the line.
    pub fn put_line<T: Display>(&mut self, item: &T) {
        self.put_item(item);
        self.put("\n");
    }

    /// Puts a line with an error, if there is one.
    pub fn put_done<E: Display + Drop>(&mut self, done: Result<(), E>) {
        if let Err(error) = done {
            self.put_line(&error);
        }
    }

    /// No row begins so, or a word of it is missing or wrong.
    pub fn refuse(&mut self) {
        self.put("no such row\n");
    }
}
