//! The files of a folder, each by its name there. A path is owned only while the system is called.

use crate::fault::{Fault, called};
use std::alloc::{AllocError, Global};
use std::fs::{File, OpenOptions};
use std::io::{Read, Write};
use std::path::Path;
use std::rt::Files;
use std::string::String;
use std::time::SystemTime;
use std::{fs, io};

/// The path of a file in a folder.
pub fn path_in(alloc: Global, folder: &str, name: &str) -> Result<String, AllocError> {
    format!(in alloc; "{folder}/{name}")
}

/// The folder that a path lies in.
pub fn folder_of(path: &str) -> &str {
    match Path::new(path).parent() {
        Some(parent) if !parent.as_str().is_empty() => parent.as_str(),
        _ => ".",
    }
}

/// The length of a file at a path, or none where no file is there.
fn length_at<R: Files>(rt: &R, path: &str) -> Result<Option<u64>, Fault> {
    match fs::metadata(rt, path) {
        Ok(found) if found.is_file() => Ok(Some(found.len())),
        Ok(_) => Ok(None),
        Err(error) if error.kind() == io::ErrorKind::NotFound => Ok(None),
        Err(error) => called("looking for a file", Err(error)),
    }
}

/// The length of a file, or none where no file is there. What isn't a file, as a folder or a pipe, counts as none.
pub fn length_in<R: Files>(
    rt: &R,
    alloc: Global,
    folder: &str,
    name: &str,
) -> Result<Option<u64>, Fault> {
    let path = path_in(alloc, folder, name)?;
    length_at(rt, path.as_str())
}

/// The content of the file at a path, of which one byte more than may be is read at most.
fn content_at<R: Files>(rt: &R, alloc: Global, path: &str, most: u64) -> Result<Vec<u8>, Fault> {
    let file = called("opening a file", fs::open(rt, path))?;
    let mut content = Vec::new(alloc);
    let count = file.take(most.saturating_add(1)).read_to_end(&mut content);
    called("reading a file", count)?;
    Ok(content)
}

/// The content of the file at a path, or none where no file is there.
fn found_at<R: Files>(
    rt: &R,
    alloc: Global,
    path: &str,
    most: u64,
) -> Result<Option<Vec<u8>>, Fault> {
    match length_at(rt, path)? {
        Some(_) => Ok(Some(content_at(rt, alloc, path, most)?)),
        None => Ok(None),
    }
}

/// The content of a file, of which one byte more than may be is read at most, or none where no file is there.
pub fn content_in<R: Files>(
    rt: &R,
    alloc: Global,
    folder: &str,
    name: &str,
    most: u64,
) -> Result<Option<Vec<u8>>, Fault> {
    let path = path_in(alloc, folder, name)?;
    found_at(rt, alloc, path.as_str(), most)
}

/// A file at a path, which is made or emptied.
fn made_at<R: Files<File = File>>(rt: &R, path: &str) -> Result<File, Fault> {
    let opened = OpenOptions::new()
        .write(true)
        .create(true)
        .truncate(true)
        .open(rt, path);
    called("making a file", opened)
}

/// A file in a folder, which is made or emptied.
fn made_in<R: Files<File = File>>(
    rt: &R,
    alloc: Global,
    folder: &str,
    name: &str,
) -> Result<File, Fault> {
    let path = path_in(alloc, folder, name)?;
    made_at(rt, path.as_str())
}

/// Writes a file.
pub fn write_file<R: Files<File = File>>(
    rt: &R,
    alloc: Global,
    folder: &str,
    name: &str,
    content: &[u8],
) -> Result<(), Fault> {
    let mut file = made_in(rt, alloc, folder, name)?;
    called("writing a file", file.write_all(content))
}

/// Writes a file, and brings its content to the disk.
pub fn place_file<R: Files<File = File>>(
    rt: &R,
    alloc: Global,
    folder: &str,
    name: &str,
    content: &[u8],
) -> Result<(), Fault> {
    let mut file = made_in(rt, alloc, folder, name)?;
    called("writing a file", file.write_all(content))?;
    called("bringing a file to the disk", file.sync_data())
}

/// A file at a path to whose end one writes, which is made where it isn't there.
fn end_at<R: Files<File = File>>(rt: &R, path: &str) -> Result<File, Fault> {
    let opened = OpenOptions::new().append(true).create(true).open(rt, path);
    called("making a file", opened)
}

/// Writes at the end of a file.
fn append<R: Files<File = File>>(
    rt: &R,
    alloc: Global,
    folder: &str,
    name: &str,
    content: &[u8],
) -> Result<(), Fault> {
    let path = path_in(alloc, folder, name)?;
    let mut file = end_at(rt, path.as_str())?;
    called("writing a file", file.write_all(content))
}

/// Puts a line behind those of a file in a folder, which is made where it isn't there.
pub fn append_line<R: Files<File = File>>(
    rt: &R,
    alloc: Global,
    folder: &str,
    name: &str,
    line: &str,
) -> Result<(), Fault> {
    let line: String = format!(in alloc; "{line}\n")?;
    append(rt, alloc, folder, name, line.as_bytes())
}

/// Gives a file of a folder another name, in place of the file that had it.
pub fn rename_in<R: Files>(
    rt: &R,
    alloc: Global,
    folder: &str,
    part: &str,
    whole: &str,
) -> Result<(), Fault> {
    let part = path_in(alloc, folder, part)?;
    let whole = path_in(alloc, folder, whole)?;
    let renamed = fs::rename(rt, part.as_str(), whole.as_str());
    called("renaming a file", renamed)
}

/// Gives the file at a path one path more, unless something is there.
fn link_at<R: Files>(rt: &R, part: &str, whole: &str) -> Result<(), Fault> {
    match fs::hard_link(rt, part, whole) {
        Err(error) if error.kind() != io::ErrorKind::AlreadyExists => called(
            "linking a file",
            Err(error),
        ),
        _ => Ok(()),
    }
}

/// Gives a file of a folder one name more, unless something has that name.
pub fn link_in<R: Files>(
    rt: &R,
    alloc: Global,
    folder: &str,
    part: &str,
    whole: &str,
) -> Result<(), Fault> {
    let part = path_in(alloc, folder, part)?;
    let whole = path_in(alloc, folder, whole)?;
    link_at(rt, part.as_str(), whole.as_str())
}

/// Removes a file, where it is there.
pub fn remove_in<R: Files>(rt: &R, alloc: Global, folder: &str, name: &str) -> Result<(), Fault> {
    let path = path_in(alloc, folder, name)?;
    match fs::remove_file(rt, path.as_str()) {
        Err(error) if error.kind() != io::ErrorKind::NotFound => called(
            "removing a file",
            Err(error),
        ),
        _ => Ok(()),
    }
}

/// When the file at a path was written last.
fn modified_at<R: Files>(rt: &R, path: &str) -> Result<SystemTime, Fault> {
    let found = called("looking for a file", fs::metadata(rt, path))?;
    called("asking for a time", found.modified())
}

/// When a file was written last, by the time of the machine that keeps it.
pub fn modified_in<R: Files>(
    rt: &R,
    alloc: Global,
    folder: &str,
    name: &str,
) -> Result<SystemTime, Fault> {
    let path = path_in(alloc, folder, name)?;
    modified_at(rt, path.as_str())
}

/// Brings the names in a folder to the disk.
pub fn sync_names<R: Files<File = File>>(rt: &R, folder: &str) -> Result<(), Fault> {
    let names = called("opening a folder", fs::open(rt, folder))?;
    called("bringing a folder to the disk", names.sync_all())
}

/// Brings a file to the disk under a name of its own, and then under its name, in place of the file that had it.
pub fn replace_file<R: Files<File = File>>(
    rt: &R,
    alloc: Global,
    folder: &str,
    part: &str,
    whole: &str,
    content: &[u8],
) -> Result<(), Fault> {
    place_file(rt, alloc, folder, part, content)?;
    rename_in(rt, alloc, folder, part, whole)?;
    sync_names(rt, folder)
}

/// Whether something of this name is in the folder.
pub fn is_there<R: Files>(rt: &R, alloc: Global, folder: &str, name: &str) -> Result<bool, Fault> {
    let path = path_in(alloc, folder, name)?;
    called("looking for a file", fs::exists(rt, path.as_str()))
}

/// Makes a folder, and those that it lies in.
pub fn make_folder<R: Files>(rt: &R, folder: &str) -> Result<(), Fault> {
    called("making the folder", fs::create_dir_all(rt, folder))
}
