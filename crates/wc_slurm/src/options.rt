//! The options that a line gives the scheduler, by the words that `sbatch` reads of it.
ghost use Rattle.std.specs.Prelude.{◌≡◌, ◌++◌, ◌∷◌, [], if◌then◌else◌, IfOk, OnOk};
ghost use Rattle.wc_slurm.specs.Options.{is_space as is_space_byte, is_quote as is_quote_byte, inside_after as place_inside, place_after as next_place, is_bare as is_bare_byte, belongs as belongs_there, is_begun as is_begun_at, words_read as words_in, is_lone as is_lone_letter, letters_ask as letters_asking, dash_asks as dash_asking, parts_jobs as parts_job, asks_for_more as asks, words_ask as words_asking, ReadsByte};

use std::alloc::{AllocError, Global};
use std::mem;
use wc_value::{Bytes, List};

/// Where the reading of a line stands.
#[derive(Clone, Copy)]
enum Place {
    /// Between two words.
    Between,
    /// In a word.
    Inside,
    /// In a word, between two quotes of this kind.
    Quoted(u8),
    /// In a word, behind a backslash.
    Escaped,
    /// In a word, behind a backslash that stands between two quotes of this kind.
    EscapedIn(u8),
    /// Behind the sign of a comment.
    Over,
}

/// Whether a byte stands between two words.
fn is_space(byte: u8) -> bool
    ensures { result ≡ is_space_byte byte }
{
    byte == b' ' || (8 < byte && byte < 14)
}

/// Whether a byte is a quote.
fn is_quote(byte: u8) -> bool
    ensures { result ≡ is_quote_byte byte }
{
    byte == b'"' || byte == b'\''
}

/// Where the reading stands behind a byte outside of quotes that ends no word.
fn inside_after(byte: u8) -> Place
    ensures { result ≡ place_inside byte }
{
    if byte == b'\\' {
        Place::Escaped
    } else if is_quote(byte) {
        Place::Quoted(byte)
    } else if byte == b'#' {
        Place::Over
    } else {
        Place::Inside
    }
}

/// Where the reading stands behind a byte.
fn place_after(place: Place, byte: u8) -> Place
    ensures { result ≡ next_place place byte }
{
    match place {
        Place::Between | Place::Inside => {
            if is_space(byte) {
                Place::Between
            } else {
                inside_after(byte)
            }
        }
        Place::Quoted(quote) => {
            if byte == b'\\' {
                Place::EscapedIn(quote)
            } else if byte == quote {
                Place::Inside
            } else {
                Place::Quoted(quote)
            }
        }
        Place::Escaped => {
            if is_space(byte) {
                Place::Between
            } else {
                Place::Inside
            }
        }
        Place::EscapedIn(quote) => Place::Quoted(quote),
        Place::Over => Place::Over,
    }
}

/// Whether a byte outside of quotes is one of a word.
fn is_bare(byte: u8) -> bool
    ensures { result ≡ is_bare_byte byte }
{
    !(is_space(byte) || byte == b'\\' || is_quote(byte) || byte == b'#')
}

/// Whether a byte is one of the word.
fn belongs(place: Place, byte: u8) -> bool
    ensures { result ≡ belongs_there place byte }
{
    match place {
        Place::Between | Place::Inside => is_bare(byte),
        Place::Quoted(quote) => !(byte == b'\\' || byte == quote),
        Place::Escaped => !is_space(byte),
        Place::EscapedIn(_) => true,
        Place::Over => false,
    }
}

/// Whether a word was begun.
fn is_begun(place: Place) -> bool
    ensures { result ≡ is_begun_at place }
{
    match place {
        Place::Between | Place::Over => false,
        Place::Inside | Place::Quoted(_) | Place::Escaped | Place::EscapedIn(_) => true,
    }
}

/// Reads one byte behind whole words and one that was begun.
fn read_byte(
    alloc: Global,
    words: &mut List<Bytes>,
    word: &mut Bytes,
    place: Place,
    byte: u8,
) -> Result<(), AllocError>
    ensures { OnOk result (ReadsByte place byte words.old word.old words.new word.new) }
{
    if is_begun(place) && !is_begun(place_after(place, byte)) {
        let whole = mem::replace(word, Bytes::new(alloc));
        return words.push(whole);
    }
    if belongs(place, byte) {
        return word.push(byte);
    }
    Ok(())
}

/// Whole words, with the one that was begun where the line ends.
fn finished(mut words: List<Bytes>, word: Bytes, place: Place) -> Result<List<Bytes>, AllocError>
    ensures { IfOk result (λ all. all ≡ (if is_begun_at place then words ++ word ∷ [] else words)) }
{
    if is_begun(place) {
        words.push(word)?;
    }
    Ok(words)
}

/// The words of a line behind the sign that makes it one for the scheduler.
#[tactic(auto, using(crate::proofs::OptionWords::no_words, crate::proofs::OptionWords::next_byte, crate::proofs::OptionWords::all_words))]
fn words_read(alloc: Global, line: &[u8]) -> Result<List<Bytes>, AllocError>
    ensures { IfOk result (λ words. words ≡ words_in line.now) }
{
    let mut words = List::new(alloc);
    let mut word = Bytes::new(alloc);
    let mut place = Place::Between;
    for byte in line {
        read_byte(alloc, &mut words, &mut word, place, *byte)?;
        place = place_after(place, *byte);
    }
    finished(words, word, place)
}

/// Whether a letter is that of an option that takes no word, behind which further ones may stand.
fn is_lone(letter: u8) -> bool
    ensures { result ≡ is_lone_letter letter }
{
    letter == b'H'
        || letter == b'O'
        || letter == b'Q'
        || letter == b'V'
        || letter == b'h'
        || letter == b's'
        || letter == b'v'
}

/// Whether letters of options ask for an array, or for a submission that waits.
fn letters_ask(letters: &[u8]) -> bool
    ensures { result ≡ letters_asking letters.now }
{
    for letter in letters {
        if *letter == b'a' || *letter == b'W' {
            return true;
        }
        if !is_lone(*letter) {
            return false;
        }
    }
    false
}

/// Whether a word of letters behind one dash does.
fn dash_asks(word: &[u8]) -> bool
    ensures { result ≡ dash_asking word.now }
{
    match word {
        [b'-', letters @ ..] => letters_ask(letters),
        _ => false,
    }
}

/// Whether a word parts a job into several, in whatever letters.
fn parts_jobs(alloc: Global, word: &[u8]) -> Result<bool, AllocError>
    ensures { IfOk result (λ parts. parts ≡ parts_job word.now) }
{
    let word = word.to_ascii_lowercase(alloc)?;
    let word = word.as_slice();
    Ok(word == b"hetjob".as_slice() || word == b"packjob".as_slice())
}

/// Whether a word asks for more than one job, or for a submission that waits for the job's end.
fn asks_for_more(alloc: Global, word: &[u8]) -> Result<bool, AllocError>
    ensures { IfOk result (λ more. more ≡ asks word.now) }
{
    if word.starts_with(b"--ar".as_slice()) || word == b"--wait".as_slice() || dash_asks(word) {
        return Ok(true);
    }
    parts_jobs(alloc, word)
}

/// Whether one of these words does, of which the scheduler reads none behind one of no byte.
fn words_ask(alloc: Global, words: &[Bytes]) -> Result<bool, AllocError>
    ensures { IfOk result (λ more. more ≡ words_asking words.now) }
{
    for word in words {
        let word = word.bytes();
        if word.is_empty() {
            return Ok(false);
        }
        if asks_for_more(alloc, word)? {
            return Ok(true);
        }
    }
    Ok(false)
}

/// Whether what a line says behind its sign asks the scheduler for more than one job, or for a submission that waits.
pub fn line_asks(alloc: Global, line: &[u8]) -> Result<bool, AllocError>
    ensures { IfOk result (λ more. more ≡ words_asking (words_in line.now)) }
{
    let words = words_read(alloc, line)?;
    words_ask(alloc, words.as_slice())
}
