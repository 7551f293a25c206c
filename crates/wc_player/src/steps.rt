//! Steps with content, which may stand in several lines.

use crate::content::Content;
use crate::deed::{Answer, Call, Deed, Side, Stage};
use crate::items::{put_items, put_word};
use crate::mistake::Mistake;
use crate::names::{Names, find};
use crate::row::Row;
use crate::rows::read_rows;
use crate::simple::read_simple;
use crate::source::Source;
use wc_value::List;

/// Puts the indented lines below, each with its end.
fn put_block(source: &mut Source<'_>, content: &mut Content) {
    for _ in 0..u64::MAX {
        if !source.take_behind("  ") {
            break;
        }
        source.keep(content.push(source.line.as_bytes()));
        source.keep(content.push(b"\n"));
    }
}

/// Content of the indented lines below, each with its end.
pub fn read_block(source: &mut Source<'_>) -> Content {
    let mut content = Content::new(source.alloc);
    put_block(source, &mut content);
    content
}

/// Puts the items of a line and of the indented lines below.
fn put_all_items(source: &mut Source<'_>, names: &Names<'_>, content: &mut Content) {
    for _ in 0..u64::MAX {
        put_items(source, names, content);
        if !source.take_behind("  ") {
            break;
        }
    }
}

/// Content of the items of a line and of the indented lines below.
pub fn read_items(source: &mut Source<'_>, names: &Names<'_>) -> Content {
    let mut content = Content::new(source.alloc);
    put_all_items(source, names, &mut content);
    content
}

/// Content: `text` and a text, `bytes` and items, or the lines below.
fn read_content(source: &mut Source<'_>, names: &Names<'_>) -> Content {
    let mut content = Content::new(source.alloc);
    match source.word() {
        "" => put_block(source, &mut content),
        "text" => source.keep(content.push(source.line.as_bytes())),
        "bytes" => put_all_items(source, names, &mut content),
        _ => source.fail(Mistake::Word),
    }
    content
}

/// The content of the next word, as it stands.
pub fn read_name(source: &mut Source<'_>) -> Content {
    let mut content = Content::new(source.alloc);
    let name = source.name();
    source.keep(content.push(name.as_bytes()));
    content
}

/// The content that the next word says.
fn read_word(source: &mut Source<'_>) -> Content {
    let mut content = Content::new(source.alloc);
    let word = source.word();
    put_word(source, &mut content, word);
    content
}

/// The words of a command.
pub fn read_words(source: &mut Source<'_>) -> List<Content> {
    let mut words = List::new(source.alloc);
    for _ in 0..source.line.len() {
        if source.is_ended() {
            break;
        }
        let pushed = words.push(read_word(source));
        source.keep(pushed);
    }
    words
}

/// Puts the answers below, of which the first begins with this sign, and each other with `|`. There may be none.
fn put_signed(source: &mut Source<'_>, names: &Names<'_>, answers: &mut List<Answer>, sign: &str) {
    for _ in 0..u64::MAX {
        let sign = if answers.is_empty() { sign } else { "| " };
        if !source.take_behind(sign) {
            break;
        }
        let status = source.status();
        let text = read_content(source, names);
        source.keep(answers.push(Answer { status, text }));
    }
}

/// The answers below a command.
fn read_answers(source: &mut Source<'_>, names: &Names<'_>) -> List<Answer> {
    let mut answers = List::new(source.alloc);
    put_signed(source, names, &mut answers, "= ");
    if answers.is_empty() {
        source.fail(Mistake::NoAnswer);
    }
    answers
}

/// Puts how far a command may have come: what the question before it is answered then, and what the command answers.
fn put_stages(source: &mut Source<'_>, names: &Names<'_>, stages: &mut List<Stage>) {
    for _ in 0..u64::MAX {
        if !source.take_behind("part ") {
            break;
        }
        let text = read_content(source, names);
        let answers = read_answers(source, names);
        source.keep(stages.push(Stage { text, answers }));
    }
}

/// A question and its answers.
fn read_question(source: &mut Source<'_>, names: &Names<'_>) -> Call {
    Call {
        words: read_words(source),
        answers: read_answers(source, names),
        failed: List::new(source.alloc),
        stages: List::new(source.alloc),
    }
}

/// A command and its answers, those where a task failed, and how far it may have come.
fn read_call(source: &mut Source<'_>, names: &Names<'_>) -> Call {
    let mut call = read_question(source, names);
    put_signed(source, names, &mut call.failed, "! ");
    put_stages(source, names, &mut call.stages);
    call
}

/// The results with which lines begin. No name stands there that has no bytes.
fn results_of(source: &mut Source<'_>, names: &Names<'_>, lines: &str) -> List<Row> {
    let mut below = Source::new(source.alloc, lines);
    let rows = read_rows(&mut below, names);
    if let Some(mistake) = below.mistake {
        source.fail(mistake);
    }
    rows
}

/// The results of a name, or none where there is no name.
fn read_results(source: &mut Source<'_>, names: &Names<'_>) -> List<Row> {
    let name = source.word();
    source.end(Mistake::TooManyWords);
    match find(names.tables.as_slice(), name) {
        Some(lines) => results_of(source, names, lines),
        None => {
            if !name.is_empty() {
                source.fail(Mistake::Unknown);
            }
            List::new(source.alloc)
        }
    }
}

/// A step that begins with a word.
pub fn read_deed(source: &mut Source<'_>, names: &Names<'_>, word: &str) -> Deed {
    match word {
        "$" => Deed::Call(read_call(source, names)),
        "?" => Deed::Ask(read_question(source, names)),
        "file" => Deed::File(read_name(source), read_content(source, names)),
        "transport" => Deed::Transport(read_results(source, names)),
        "disk-one" => Deed::Image(Side::One, read_items(source, names)),
        "disk-two" => Deed::Image(Side::Two, read_items(source, names)),
        "holds" => Deed::Holds(source.side(), read_items(source, names)),
        "ends" => Deed::Ends(source.side(), read_items(source, names)),
        _ => read_simple(source, word),
    }
}
