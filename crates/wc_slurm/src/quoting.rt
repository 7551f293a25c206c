//! Words as `sh` reads them.
ghost use Rattle.std.specs.Prelude.{◌≡◌, Some, IfOk};
ghost use Rattle.wc_slurm.specs.Quotes.{piece as piece_of, word_read};

use std::alloc::{AllocError, Global};
use std::slice;
use wc_value::Bytes;

/// The byte of a single quote.
const QUOTE: u8 = b'\'';

/// A byte between two single quotes. A quote ends them, stands behind a backslash, and begins them anew.
fn piece(byte: &u8) -> &[u8]
    ensures { result.now ≡ piece_of byte.now }
{
    if *byte == QUOTE {
        br"'\''"
    } else {
        slice::from_ref(byte)
    }
}

/// A word in single quotes: `sh` reads back the word, whatever its bytes are.
#[tactic(auto, using(crate::proofs::Reading::read_none, crate::proofs::Reading::read_more, crate::proofs::Reading::read_all))]
pub fn quoted(alloc: Global, word: &[u8]) -> Result<Bytes, AllocError>
    ensures { IfOk result (λ text. word_read text ≡ Some word.now) }
{
    let mut text = Bytes::new(alloc);
    text.push(QUOTE)?;
    for byte in word {
        text.extend(piece(byte))?;
    }
    text.push(QUOTE)?;
    Ok(text)
}
