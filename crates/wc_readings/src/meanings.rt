//! What definitions mean, also where processes are killed, which no command is told of.

use crate::lists::fields_of;
use crate::shown::Shown;
use std::alloc::{AllocError, Global};
use wc_check::check;
use wc_meaning::{DryError, dry, replay};
use wc_parser::parse;
use wc_report::tree_lines;
use wc_semantics::{Kills, Replayed};
use wc_syntax::Checked;
use wc_value::{Fields, Rows, Table, TableError, Text, Tree, Words, both};

/// The first word of a text, and what stands behind the space that ends it.
fn first_word(text: &str) -> (&str, &str) {
    text.split_once(' ').unwrap_or((text, ""))
}

/// The checked library of a file. Of one that is refused it puts why.
fn checked_of(alloc: Global, shown: &mut Shown, file: &Text) -> Option<Checked> {
    match parse(alloc, file) {
        Ok(library) => match check(alloc, library) {
            Ok(checked) => return Some(checked),
            Err(error) => shown.put_item(&error),
        },
        Err(error) => shown.put_item(&error),
    }
    None
}

/// A table with no row.
fn empty_table(alloc: Global) -> Result<Table, AllocError> {
    match Table::new(alloc, Rows::new(alloc)) {
        Ok(table) => Ok(table),
        Err(TableError::OutOfMemory) => Err(AllocError),
        Err(TableError::Twice(_)) => unreachable!(),
    }
}

/// The path of the root, or of the process that it called under a label.
fn path_of(alloc: Global, label: &str) -> Result<Words, AllocError> {
    let mut path = Words::new(alloc);
    if label != "root" {
        path.push(Text::of_str(alloc, label)?)?;
    }
    Ok(path)
}

/// One kill: of a process, after so many calls.
fn kills_of(alloc: Global, words: &str) -> Result<Kills, AllocError> {
    let (label, count) = first_word(words);
    let mut kills = Kills::new(alloc);
    kills.push((path_of(alloc, label)?, count.parse().unwrap_or(0)))?;
    Ok(kills)
}

/// Puts the lines of a tree.
fn put_tree(alloc: Global, shown: &mut Shown, tree: &Tree) {
    match tree_lines(alloc, tree) {
        Ok(text) => shown.put(text.as_str()),
        Err(_) => shown.lose(),
    }
}

/// Puts what came of a definition where nothing was killed.
fn put_dried(alloc: Global, shown: &mut Shown, came: Result<Option<Tree>, DryError>) {
    match came {
        Ok(Some(tree)) => put_tree(alloc, shown, &tree),
        Ok(None) => shown.put("none"),
        Err(error) => shown.put_item(&error),
    }
}

/// Puts what came of a definition where a process was killed.
fn put_replayed(alloc: Global, shown: &mut Shown, came: Result<Option<Replayed>, DryError>) {
    match came {
        Ok(Some(replayed)) => put_tree(alloc, shown, &replayed.tree),
        Ok(None) => shown.put("none"),
        Err(error) => shown.put_item(&error),
    }
}

/// What is asked for.
#[derive(Clone, Copy)]
struct Question<'a> {
    /// The name of the definition.
    name: &'a Text,
    /// Its inputs.
    inputs: &'a Fields,
    /// How many turns of loops and calls there may be.
    fuel: u64,
    /// Who is killed and after how many calls, in words, or nobody.
    killed: &'a str,
}

/// Puts what a library's definition means, with no results of jobs.
fn put_answer(
    alloc: Global,
    shown: &mut Shown,
    library: &Checked,
    question: Question<'_>,
) -> Result<(), AllocError> {
    let Question {
        name,
        inputs,
        fuel,
        killed,
    } = question;
    let table = empty_table(alloc)?;
    if killed.is_empty() {
        put_dried(
            alloc,
            shown,
            dry(alloc, library, name, inputs, &table, fuel),
        );
        return Ok(());
    }
    let (table, kills) = both(table, kills_of(alloc, killed))?;
    let came = replay(alloc, library, name, inputs, 1, &table, &kills, fuel);
    put_replayed(alloc, shown, came);
    Ok(())
}

/// Puts what words ask of a library: a name, the fuel, inputs, and who is killed after how many calls.
fn put_asked(
    alloc: Global,
    shown: &mut Shown,
    library: &Checked,
    words: &str,
) -> Result<(), AllocError> {
    let (name, words) = first_word(words);
    let (fuel, words) = first_word(words);
    let (input, killed) = first_word(words);
    let name = Text::of_str(alloc, name)?;
    let inputs = fields_of(alloc, shown, input);
    let fuel = fuel.parse().unwrap_or(0);
    let question = Question {
        name: &name,
        inputs: &inputs,
        fuel,
        killed,
    };
    put_answer(alloc, shown, library, question)
}

/// Puts what words ask of a file's library, or why the file is refused.
fn put_of_file(
    alloc: Global,
    shown: &mut Shown,
    words: &str,
    file: &Text,
) -> Result<(), AllocError> {
    match checked_of(alloc, shown, file) {
        Some(library) => put_asked(alloc, shown, &library, words),
        None => Ok(()),
    }
}

/// Puts what the first line of a text asks of the library of the file below it.
pub fn put_meaning(alloc: Global, shown: &mut Shown, text: &str) {
    let (words, file) = text.split_once('\n').unwrap_or((text, ""));
    let put = match Text::of_str(alloc, file) {
        Ok(file) => put_of_file(alloc, shown, words, &file),
        Err(error) => Err(error),
    };
    if put.is_err() {
        shown.lose();
    }
}
