//! Items, which stand for bytes: hexadecimal digits, text in quotes, a name behind `@`, and each of these so many times.

ghost use Rattle.std.specs.Prelude.{◌<◌, IfSome};

use crate::content::Content;
use crate::mistake::Mistake;
use crate::names::{Names, find};
use crate::source::Source;

/// Puts what a word says: quotes fall away, and a backslash stands before `n`, a quote, a backslash or `#`.
pub fn put_word(source: &mut Source<'_>, content: &mut Content, word: &str) {
    let mut quoted = false;
    let mut escaped = false;
    for byte in word.as_bytes() {
        match (escaped, *byte) {
            (false, b'\\') => {}
            (false, b'"') => quoted = !quoted,
            (true, b'n') => source.keep(content.push(b"\n")),
            (true, b'#') => source.keep(content.push_number()),
            (false, _) | (true, b'"' | b'\\') => source.keep(content.push(&[*byte])),
            (true, _) => source.fail(Mistake::Quote),
        }
        escaped = !escaped && *byte == b'\\';
    }
    if quoted || escaped {
        source.fail(Mistake::Quote);
    }
}

/// The value of a hexadecimal digit.
fn digit(byte: u8) -> Option<u8>
    ensures { IfSome result (λ value. value < 16) }
{
    match byte {
        b'0'..=b'9' => Some(byte - b'0'),
        b'a'..=b'f' => Some(byte - b'a' + 10),
        b'A'..=b'F' => Some(byte - b'A' + 10),
        _ => None,
    }
}

/// The byte of two hexadecimal digits.
fn byte_of(digits: &[u8]) -> Option<u8> {
    let [high, low] = digits else {
        return None;
    };
    Some(digit(*high)? * 16 + digit(*low)?)
}

/// Puts the bytes of hexadecimal digits.
fn put_digits(source: &mut Source<'_>, content: &mut Content, digits: &[u8]) {
    for pair in digits.chunks(2) {
        match byte_of(pair) {
            Some(byte) => source.keep(content.push(&[byte])),
            None => source.fail(Mistake::Word),
        }
    }
}

/// Puts the bytes of a name.
fn put_named(source: &mut Source<'_>, names: &Names<'_>, content: &mut Content, name: &str) {
    match find(names.named.as_slice(), name) {
        Some(named) => source.keep(content.append(named)),
        None => source.fail(Mistake::Unknown),
    }
}

/// Puts the bytes of an item that isn't repeated.
fn put_single(source: &mut Source<'_>, names: &Names<'_>, content: &mut Content, item: &str) {
    if let Some(name) = item.strip_prefix('@') {
        put_named(source, names, content, name);
    } else if item.starts_with('"') {
        put_word(source, content, item);
    } else {
        put_digits(source, content, item.as_bytes());
    }
}

/// How often an item is repeated, and which one.
fn repeated(item: &str) -> Option<(u64, &str)> {
    let (times, part) = item.split_once('*')?;
    Some((times.parse().ok()?, part))
}

/// Puts the bytes of an item.
fn put_item(source: &mut Source<'_>, names: &Names<'_>, content: &mut Content, item: &str) {
    let Some((times, part)) = repeated(item) else {
        return put_single(source, names, content, item);
    };
    let mut once = Content::new(source.alloc);
    put_single(source, names, &mut once, part);
    if source.mistake.is_none() {
        source.keep(content.append_times(source.alloc, &once, times));
    }
}

/// Puts the bytes of the items of a line. The line has at most as many items as bytes.
pub fn put_items(source: &mut Source<'_>, names: &Names<'_>, content: &mut Content) {
    for _ in 0..source.line.len() {
        if source.is_ended() {
            break;
        }
        let item = source.word();
        put_item(source, names, content, item);
    }
}
