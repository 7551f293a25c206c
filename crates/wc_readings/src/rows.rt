//! Rows: a word that says what is read, a text, and below a `=` what is wanted.

use crate::answers::answer;
use crate::shown::Shown;
use std::alloc::Global;

/// The character for which a sign stands.
fn meant(sign: char) -> char {
    match sign {
        '␀' => '\0',
        '␉' => '\t',
        '␊' => '\n',
        '␍' => '\r',
        '␠' => ' ',
        '␡' => '\u{7f}',
        _ => sign,
    }
}

/// Puts a line with the characters for which signs stand.
fn put_line(unfolded: &mut Shown, line: &str) {
    for sign in line.chars() {
        unfolded.put_sign(meant(sign));
    }
}

/// A text whose further lines begin with two spaces, without these, and with the characters for which signs stand.
fn unfolded(alloc: Global, text: &str) -> Shown {
    let mut unfolded = Shown::new(alloc);
    for (at, line) in text.split("\n  ").enumerate() {
        if at > 0 {
            unfolded.put("\n");
        }
        put_line(&mut unfolded, line);
    }
    unfolded
}

/// Puts a row, and what is found for it.
fn put_difference(told: &mut Shown, row: &str, found: &str) {
    told.put(row);
    told.put("\nbut found: ");
    told.put(found);
    told.put("\n");
}

/// Tries a row, and tells of it where something else is found. Whether it is right. Spaces at the end don't count.
pub fn try_row(alloc: Global, told: &mut Shown, row: &str) -> bool {
    let (asked, wanted) = row.split_once("\n=").unwrap_or((row, ""));
    let (word, text) = asked.split_once(' ').unwrap_or((asked, ""));
    let text = unfolded(alloc, text);
    let wanted = unfolded(alloc, wanted.strip_prefix(' ').unwrap_or(wanted));
    let found = answer(alloc, word, text.as_str());
    if text.is_lost() | wanted.is_lost() | found.is_lost() {
        told.lose();
    }
    let found = found.as_str().trim_end_matches(' ');
    let is_right = found == wanted.as_str().trim_end_matches(' ');
    if !is_right {
        put_difference(told, row, found);
    }
    is_right
}
