//! Bytes that items are put behind.

use crate::told::Told;
use std::alloc::Global;
use wc_value::Bytes;

/// Bytes that parts are put behind. Where an item is wrong, or memory runs out, that is remembered until `is_right` tells it, so that what puts parts
/// needs no answer.
#[derive(Drop)]
pub struct Parts {
    bytes: Bytes,
    is_wrong: bool,
    is_lost: bool,
}

impl Parts {
    /// No bytes.
    pub fn new(alloc: Global) -> Parts {
        Parts {
            bytes: Bytes::new(alloc),
            is_wrong: false,
            is_lost: false,
        }
    }

    /// The bytes.
    pub fn bytes(&self) -> &[u8] {
        self.bytes.bytes()
    }

    /// Puts bytes.
    pub fn put(&mut self, part: &[u8]) {
        if self.bytes.extend(part).is_err() {
            self.is_lost = true;
        }
    }

    /// An item is wrong.
    pub fn refuse(&mut self) {
        self.is_wrong = true;
    }

    /// Whether all that was put since this was asked is right. Else it is told.
    pub fn is_right(&mut self, told: &mut Told) -> bool {
        if self.is_lost {
            told.lose();
        }
        if self.is_wrong {
            told.refuse();
        }
        let is_right = !self.is_lost && !self.is_wrong;
        self.is_wrong = false;
        is_right
    }
}
