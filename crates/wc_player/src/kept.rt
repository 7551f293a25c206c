//! What is made of a transcript's content, and what went wrong in that.

use crate::content::Content;
use crate::error::PlayError;
use crate::number::Number;
use crate::row::Named;
use std::alloc::{AllocError, Global};
use wc_value::{Bytes, Files, List, Text, Words};

/// Where memory is taken from, and what went wrong first, so that what makes something needs no answer.
#[derive(Drop)]
pub struct Kept {
    /// What is made takes its memory from here.
    pub alloc: Global,
    /// What went wrong first.
    pub error: Option<PlayError>,
}

impl Kept {
    /// Notes what went wrong, where it is the first.
    pub fn fail(&mut self, error: PlayError) {
        if self.error.is_none() {
            self.error = Some(error);
        }
    }

    /// Notes that memory ran out where something wasn't kept.
    pub fn keep(&mut self, kept: Result<(), AllocError>) {
        if kept.is_err() {
            self.fail(PlayError::OutOfMemory);
        }
    }

    /// What was made, or the usual where memory ran out.
    pub fn made<T: Drop>(&mut self, made: Result<T, AllocError>, usual: T) -> T {
        match made {
            Ok(made) => made,
            Err(_) => {
                self.fail(PlayError::OutOfMemory);
                usual
            }
        }
    }

    /// These bytes as a list.
    pub fn bytes_of(&mut self, bytes: &[u8]) -> Bytes {
        let mut list = List::new(self.alloc);
        self.keep(list.extend(bytes));
        list
    }

    /// The bytes of content in a repetition.
    pub fn written(&mut self, content: &Content, repetition: u64) -> Bytes {
        let written = content.written(self.alloc, repetition);
        self.made(written, List::new(self.alloc))
    }

    /// The text of content in a repetition.
    pub fn text(&mut self, content: &Content, repetition: u64) -> Option<Text> {
        let text = Text::of(self.written(content, repetition));
        if text.is_none() {
            self.fail(PlayError::Word);
        }
        text
    }

    /// The texts of words in a repetition.
    pub fn words(&mut self, words: &[Content], repetition: u64) -> Words {
        let mut list = Words::new(self.alloc);
        for word in words {
            if let Some(text) = self.text(word, repetition) {
                self.keep(list.push(text));
            }
        }
        list
    }

    /// Files in a repetition.
    pub fn files(&mut self, named: &Named, repetition: u64) -> Files {
        let mut files = Files::new(self.alloc);
        for (name, content) in named.as_slice() {
            if let Some(name) = self.text(name, repetition) {
                let content = self.written(content, repetition);
                self.keep(files.set(name, content));
            }
        }
        files
    }

    /// Numbers in a repetition.
    pub fn numbers(&mut self, numbers: &[Number], repetition: u64) -> List<u64> {
        let mut list = List::new(self.alloc);
        for number in numbers {
            self.keep(list.push(number.at(repetition)));
        }
        list
    }
}
