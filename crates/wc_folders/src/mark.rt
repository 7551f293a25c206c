//! The mark of a store: a word that the system drew, in a file beside the store's and in the folder of jobs, so that no job's folder of
//! another store is taken over.

use crate::fault::{Fault, called};
use crate::file::{
    content_in, folder_of, link_in, make_folder, path_in, place_file, remove_in, rename_in,
    replace_file, sync_names,
};
use crate::random::random_word;
use std::alloc::{AllocError, Global};
use std::fs::File;
use std::rt::Files;
use std::{fs, str};
use wc_value::{Text, same_text};

/// The folder of the store, beside that of jobs.
const STORE: &str = "wc.store";

/// The file with the mark, in both folders.
const MARK: &str = "mark";

/// The most bytes of a mark's file.
const MOST_MARK: u64 = 64;

/// Whether a text is a mark, which a path may be made of.
fn is_mark(text: &str) -> bool {
    !text.is_empty() && text.bytes().all(|byte| byte.is_ascii_alphanumeric())
}

/// The mark that a file has, if it is one.
fn mark_of(alloc: Global, content: &[u8]) -> Result<Option<Text>, AllocError> {
    match str::from_utf8(content) {
        Ok(text) if is_mark(text.trim()) => Ok(Some(Text::of_str(alloc, text.trim())?)),
        _ => Ok(None),
    }
}

/// The mark in a folder, if there is one.
fn mark_in<R: Files>(rt: &R, alloc: Global, folder: &str) -> Result<Option<Text>, Fault> {
    match content_in(rt, alloc, folder, MARK, MOST_MARK)? {
        Some(content) => Ok(mark_of(alloc, content.as_slice())?),
        None => Ok(None),
    }
}

/// Brings a mark to the disk.
fn place_mark<R: Files<File = File>>(
    rt: &R,
    alloc: Global,
    folder: &str,
    mark: &str,
) -> Result<(), Fault> {
    let line = format!(in alloc; "{mark}\n")?;
    replace_file(rt, alloc, folder, "mark.tmp", MARK, line.as_bytes())
}

/// Gives the file with a store's mark the name of marks, unless another store's has it. Where a file can't have two names, it takes that name.
fn name_mark<R: Files>(rt: &R, alloc: Global, jobs: &str, part: &str) -> Result<(), Fault> {
    match link_in(rt, alloc, jobs, part, MARK) {
        Ok(()) => remove_in(rt, alloc, jobs, part),
        Err(Fault::System(..)) => rename_in(rt, alloc, jobs, part, MARK),
        Err(fault) => Err(fault),
    }
}

/// Brings a store's mark to a folder of jobs that has none, unless another store's comes there meanwhile.
fn bring_mark<R: Files<File = File>>(
    rt: &R,
    alloc: Global,
    jobs: &str,
    mark: &str,
) -> Result<(), Fault> {
    let line = format!(in alloc; "{mark}\n")?;
    let part = format!(in alloc; "{MARK}.{mark}")?;
    place_file(rt, alloc, jobs, part.as_str(), line.as_bytes())?;
    name_mark(rt, alloc, jobs, part.as_str())?;
    sync_names(rt, jobs)
}

/// A new mark of the store.
fn new_mark<R: Files<File = File>>(rt: &R, alloc: Global, store: &str) -> Result<Text, Fault> {
    let word = random_word(rt, alloc)?;
    place_mark(rt, alloc, store, word.as_str())?;
    Ok(Text::of_string(word)?)
}

/// Renames the folder of jobs.
fn rename_jobs<R: Files<File = File>>(rt: &R, jobs: &str, aside: &str) -> Result<(), Fault> {
    let what = "putting the folder of another store's jobs aside";
    called(what, fs::rename(rt, jobs, aside))?;
    sync_names(rt, folder_of(jobs))
}

/// Puts the folder of jobs of another store aside, under that store's mark.
fn put_aside<R: Files<File = File>>(
    rt: &R,
    alloc: Global,
    jobs: &str,
    mark: &str,
) -> Result<(), Fault> {
    let aside = format!(in alloc; "{jobs}.{mark}")?;
    rename_jobs(rt, jobs, aside.as_str())
}

/// Makes the folder of jobs where it isn't there, and brings the store's mark to it.
fn begin<R: Files<File = File>>(
    rt: &R,
    alloc: Global,
    jobs: &str,
    mark: &str,
) -> Result<(), Fault> {
    make_folder(rt, jobs)?;
    bring_mark(rt, alloc, jobs, mark)?;
    sync_names(rt, folder_of(jobs))
}

/// Sees to it that the folder of jobs, which bears this mark or none, is that of a store with this mark.
fn claim_with<R: Files<File = File>>(
    rt: &R,
    alloc: Global,
    jobs: &str,
    mark: &Text,
    marked: &Option<Text>,
) -> Result<(), Fault> {
    match marked {
        Some(marked) if same_text(mark, marked) => Ok(()),
        Some(other) => {
            put_aside(rt, alloc, jobs, other.as_str())?;
            begin(rt, alloc, jobs, mark.as_str())
        }
        None => begin(rt, alloc, jobs, mark.as_str()),
    }
}

/// The store's mark, which is made where it has none.
fn store_mark<R: Files<File = File>>(rt: &R, alloc: Global, jobs: &str) -> Result<Text, Fault> {
    let store = path_in(alloc, folder_of(jobs), STORE)?;
    match mark_in(rt, alloc, store.as_str())? {
        Some(mark) => Ok(mark),
        None => new_mark(rt, alloc, store.as_str()),
    }
}

/// Whether the folder of jobs bears this mark. A file of that name that is no mark is replaced by it.
fn bears<R: Files<File = File>>(
    rt: &R,
    alloc: Global,
    jobs: &str,
    mark: &Text,
) -> Result<bool, Fault> {
    match mark_in(rt, alloc, jobs)? {
        Some(marked) => Ok(same_text(mark, &marked)),
        None => {
            place_mark(rt, alloc, jobs, mark.as_str())?;
            Ok(true)
        }
    }
}

/// Tries to make the folder of jobs that of a store with this mark. Whether it is: another store may do so at the same moment.
fn is_claimed<R: Files<File = File>>(
    rt: &R,
    alloc: Global,
    jobs: &str,
    mark: &Text,
) -> Result<bool, Fault> {
    let marked = mark_in(rt, alloc, jobs)?;
    claim_with(rt, alloc, jobs, mark, &marked)?;
    bears(rt, alloc, jobs, mark)
}

/// Sees to it that the folder of jobs is this store's: one with the mark of another store is put aside, and a new one begins. The store
/// gets its mark first, so that a folder of jobs never bears a mark that its own store lacks. Of two stores that find one folder with no mark
/// at the same moment one has it.
pub fn claim<R: Files<File = File>>(rt: &R, alloc: Global, jobs: &str) -> Result<(), Fault> {
    let mark = store_mark(rt, alloc, jobs)?;
    if is_claimed(rt, alloc, jobs, &mark)? || is_claimed(rt, alloc, jobs, &mark)? {
        return Ok(());
    }
    Err(Fault::OtherStore)
}
