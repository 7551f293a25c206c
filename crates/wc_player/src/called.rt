//! What a call of the program gave, and whether an answer says so.

use crate::deed::Answer;
use crate::kept::Kept;
use wc_value::Bytes;

/// What a call of the program gave.
#[derive(Drop)]
pub struct Called {
    /// The exit status.
    pub status: u8,
    /// What was written.
    pub text: Bytes,
    /// Whether a call of the transport failed in it.
    pub is_failed: bool,
}

impl Called {
    /// Whether an answer says this.
    fn fits(&self, kept: &mut Kept, answer: &Answer, number: u64) -> bool {
        let text = kept.written(&answer.text, number);
        self.status == answer.status && self.text.as_slice() == text.as_slice()
    }

    /// Whether one of these answers says this.
    pub fn fits_one(&self, kept: &mut Kept, answers: &[Answer], number: u64) -> bool {
        for answer in answers {
            if self.fits(kept, answer, number) {
                return true;
            }
        }
        false
    }

    /// Whether this is a fault of the shelf, the sink or a disk.
    pub fn is_fault(&self) -> bool {
        matches!(self.status, 5 | 7 | 8)
    }
}
