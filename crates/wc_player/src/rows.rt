//! The reader of results of programs.

use crate::content::Content;
use crate::items::put_items;
use crate::mistake::Mistake;
use crate::names::Names;
use crate::row::{Named, Row};
use crate::source::Source;
use crate::steps::{read_name, read_words};
use std::mem;
use wc_value::{List, let_go};

/// Puts a file with the content of items.
fn put_file(source: &mut Source<'_>, names: &Names<'_>, files: &mut Named) {
    let name = read_name(source);
    let mut content = Content::new(source.alloc);
    put_items(source, names, &mut content);
    source.keep(files.push((name, content)));
}

/// Puts the name of a file to bring back.
fn put_fetch(source: &mut Source<'_>, fetch: &mut List<Content>) {
    let name = read_name(source);
    source.end(Mistake::Word);
    source.keep(fetch.push(name));
}

/// Puts what a line says that begins with a word into a row, where one has begun.
fn put_line(source: &mut Source<'_>, names: &Names<'_>, row: &mut Row, word: &str) {
    if row.words.is_empty() {
        source.fail(Mistake::Beginning);
    }
    match word {
        "file" => put_file(source, names, &mut row.files),
        "leaves" => put_file(source, names, &mut row.left),
        "fetch" => put_fetch(source, &mut row.fetch),
        "code" => {
            row.code = source.code();
            source.end(Mistake::Word);
        }
        _ => source.fail(Mistake::Beginning),
    }
}

/// Puts a row behind others, where one has begun.
fn put_row(source: &mut Source<'_>, rows: &mut List<Row>, row: Row) {
    if row.words.is_empty() {
        let_go(row);
    } else {
        source.keep(rows.push(row));
    }
}

/// The row is whole, and another one begins with the words of a line.
fn begin(source: &mut Source<'_>, rows: &mut List<Row>, row: &mut Row) {
    let words = read_words(source);
    if words.is_empty() {
        source.fail(Mistake::Word);
    }
    let next = Row::new(source.alloc, words);
    put_row(source, rows, mem::replace(row, next));
}

/// Puts the rows of the indented lines below: `run` begins one, and any other line goes on with it. The last one is left in its place.
fn put_rows(source: &mut Source<'_>, names: &Names<'_>, rows: &mut List<Row>, row: &mut Row) {
    for _ in 0..u64::MAX {
        if !source.take_behind("  ") {
            break;
        }
        match source.word() {
            "run" => begin(source, rows, row),
            word => put_line(source, names, row, word),
        }
    }
}

/// The results of the indented lines below.
pub fn read_rows(source: &mut Source<'_>, names: &Names<'_>) -> List<Row> {
    let mut rows = List::new(source.alloc);
    let mut row = Row::new(source.alloc, List::new(source.alloc));
    put_rows(source, names, &mut rows, &mut row);
    put_row(source, &mut rows, row);
    rows
}
