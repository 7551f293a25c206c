//! The lists that values are made of.

use crate::shown::Shown;
use crate::values::put_json;
use std::alloc::{AllocError, Global};
use wc_value::{
    Boxed, Duplicate, Fields, Roomy, Text, Value, Words, let_go, same_fields, same_words,
};

/// Puts what is so and what isn't.
pub fn put_facts(shown: &mut Shown, facts: &[(&str, bool)]) {
    for (what, is_so) in facts {
        shown.put(if *is_so { "" } else { "not " });
        shown.put(what);
        shown.put("; ");
    }
}

/// The words of a text.
fn words_of(alloc: Global, text: &str) -> Result<Words, AllocError> {
    let mut words = Words::new(alloc);
    for word in text.split(' ') {
        words.push(Text::of_str(alloc, word)?)?;
    }
    Ok(words)
}

/// Puts what words answer, and a copy of them.
fn put_word_facts(shown: &mut Shown, words: Words, copy: &Words) {
    let count = words.len();
    put_facts(
        shown,
        &[
            ("two", count == 2),
            ("emptied", words.emptied().is_empty()),
            ("one behind", words.get(count).is_some()),
            ("copied", same_words(copy, &words)),
            ("taken", words.into_vec().len() == count),
        ],
    );
}

/// Puts what the words of a text answer.
pub fn put_words(alloc: Global, shown: &mut Shown, text: &str) {
    match words_of(alloc, text) {
        Ok(words) => match words.copy() {
            Ok(copy) => put_word_facts(shown, words, &copy),
            Err(_) => shown.lose(),
        },
        Err(_) => shown.lose(),
    }
}

/// Sets a whole number from a word like `k=1`.
fn set_field(alloc: Global, fields: &mut Fields, word: &str) -> Result<(), AllocError> {
    let (key, number) = word.split_once('=').unwrap_or((word, ""));
    let key = Text::of_str(alloc, key)?;
    fields.set(key, Value::Int(number.parse().unwrap_or(0)))
}

/// Whole numbers by their keys, from words like `k=1`. A word for which memory runs out is lost.
pub fn fields_of(alloc: Global, shown: &mut Shown, text: &str) -> Fields {
    let mut fields = Fields::new(alloc);
    for word in text.split(' ') {
        if set_field(alloc, &mut fields, word).is_err() {
            shown.lose();
        }
    }
    fields
}

/// Puts what fields answer, and a copy of them.
fn put_field_facts(shown: &mut Shown, fields: &Fields, copy: &Fields) {
    let count = fields.len();
    put_facts(
        shown,
        &[
            ("one", count == 1),
            ("emptied", fields.emptied().len() == 0),
            ("k there", fields.find(b"k").is_some()),
            ("l there", fields.find(b"l").is_some()),
            ("k last", fields.goes_last(b"k")),
            ("l last", fields.goes_last(b"l")),
            ("one behind", fields.get(count).is_some()),
            ("copied", same_fields(copy, fields)),
        ],
    );
}

/// Puts the fields of a text as JSON, and what they answer.
pub fn put_fields(alloc: Global, shown: &mut Shown, text: &str) {
    let fields = fields_of(alloc, shown, text);
    match fields.copy() {
        Ok(copy) => {
            put_field_facts(shown, &fields, &copy);
            put_json(alloc, shown, Value::Dict(copy));
        }
        Err(_) => shown.lose(),
    }
    let_go(fields);
}

/// A list with room and a box, each with an item.
fn rooms(alloc: Global) -> Result<(Roomy<u8>, Boxed<u32>), AllocError> {
    let mut roomy = Roomy::new(alloc);
    roomy.reserve(2)?;
    roomy.push(7u8)?;
    Ok((roomy, Boxed::new(alloc, 4u32)?))
}

/// Puts what a list with room and a box answer.
pub fn put_rooms(alloc: Global, shown: &mut Shown) {
    let Ok((roomy, boxed)) = rooms(alloc) else {
        shown.lose();
        return;
    };
    put_facts(
        shown,
        &[
            ("one", roomy.len() == 1),
            ("7", roomy.get(0).copied() == Some(7)),
            ("7 alone", roomy.as_slice() == [7u8].as_slice()),
            ("4", *boxed.get() == 4),
            ("4 taken", boxed.into_inner() == 4),
        ],
    );
}
