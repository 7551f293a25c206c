//! The reader of transcripts.

use crate::deed::{Step, Transcript};
use crate::draft::Draft;
use crate::mistake::{Mistake, ReadError};
use crate::names::add;
use crate::rows::read_rows;
use crate::source::Source;
use crate::steps::{read_block, read_deed, read_items};
use std::alloc::Global;
use wc_value::{List, filled, let_go};

/// Bytes get a name, by items.
fn name_items<'a>(source: &mut Source<'a>, draft: &mut Draft<'a>) {
    let name = source.name();
    let content = read_items(source, &draft.names);
    add(source, &mut draft.names.named, name, content);
}

/// Bytes get a name, by lines.
fn name_lines<'a>(source: &mut Source<'a>, draft: &mut Draft<'a>) {
    let name = source.name();
    source.end(Mistake::Word);
    let content = read_block(source);
    add(source, &mut draft.names.named, name, content);
}

/// Results get a name.
fn name_rows<'a>(source: &mut Source<'a>, draft: &mut Draft<'a>) {
    let name = source.name();
    source.end(Mistake::Word);
    let lines = source.left.unwrap_or("");
    let_go(read_rows(source, &draft.names));
    add(source, &mut draft.names.tables, name, lines);
}

/// A step comes to the transcript.
fn put_step<'a>(source: &mut Source<'a>, draft: &mut Draft<'a>, word: &str) {
    let line = source.taken;
    let deed = read_deed(source, &draft.names, word);
    draft.put(source, Step { line, deed });
}

/// Takes what is left of a line, and the lines below that belong to it.
fn take_line<'a>(source: &mut Source<'a>, draft: &mut Draft<'a>) {
    if source.line.is_empty() || source.line.starts_with('#') {
        return;
    }
    if source.line.starts_with(' ') {
        return source.fail(Mistake::Beginning);
    }
    match source.word() {
        "bytes" => name_items(source, draft),
        "text" => name_lines(source, draft),
        "results" => name_rows(source, draft),
        "transcript" => {
            draft.close(source);
            draft.begin(source);
        }
        "wrong" => draft.set_wrong(source),
        word => put_step(source, draft, word),
    }
}

/// Takes all lines, or those up to a mistake. The number of the last one.
fn take_lines<'a>(source: &mut Source<'a>, draft: &mut Draft<'a>) -> usize {
    for _ in 0..u64::MAX {
        if !source.take_behind("") {
            break;
        }
        let line = source.taken;
        take_line(source, draft);
        if source.mistake.is_some() {
            return line;
        }
    }
    draft.close(source);
    source.taken
}

/// Whether all is right up to a line.
fn outcome(source: &Source<'_>, line: usize) -> Result<(), ReadError> {
    match source.mistake {
        Some(mistake) => Err(ReadError { line, mistake }),
        None => Ok(()),
    }
}

/// The transcripts of a text, in their order, or what is wrong with it and in which line.
pub fn read_transcripts(alloc: Global, text: &str) -> Result<List<Transcript>, ReadError> {
    let mut source = Source::new(alloc, text);
    let mut draft = Draft::new(alloc);
    let line = take_lines(&mut source, &mut draft);
    let transcripts = draft.finish(alloc);
    let_go(draft);
    filled(transcripts, outcome(&source, line))
}
