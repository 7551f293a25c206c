//! The folder of a job.

use crate::fault::{Failure, Fault, called};
use crate::file::{
    content_in, folder_of, is_there, length_in, link_in, make_folder, path_in, place_file,
    rename_in, sync_names, write_file,
};
use std::alloc::Global;
use std::fs::{File, TryLockError};
use std::rt::Files;
use std::{fs, io, str};
use wc_slurm::script_of;
use wc_value::{Bytes, JobResult, Keyed, Request, Text, encode_request};

/// The request that the folder holds. It is written last.
const REQUEST: &str = "_wc_request";

/// The script that runs its program.
const SCRIPT: &str = "_wc_run.sh";

/// The folder that the first run of the script makes.
const LOCK: &str = "_wc_lock";

/// The exit code of the program, once it has ended.
const STATUS: &str = "_wc_status";

/// The last task that failed, and why.
const FAILED: &str = "_wc_failed";

/// The most bytes that a fetched file may have.
const MOST_FETCHED: u64 = 4 * 1024 * 1024;

/// The most bytes of a status, which is a number and a line feed.
const MOST_STATUS: u64 = 32;

/// Whether a name is that of a file in the folder itself, and none of the folder's own.
fn is_file_name(name: &Text) -> bool {
    let name = name.as_str();
    !name.is_empty() && !name.starts_with('.') && !name.starts_with("_wc") && !name.contains('/')
}

/// Whether `sh` can run the program with its arguments: no byte of them is 0, and the program is no option of `exec`.
fn is_runnable(request: &Request) -> bool {
    let program = request.program.as_str();
    if program.is_empty() || program.starts_with('-') || program.as_bytes().contains(&0) {
        return false;
    }
    for word in request.args.as_slice() {
        if word.bytes().contains(&0) {
            return false;
        }
    }
    true
}

/// Whether each file that a request brings or asks for is one of the folder itself.
fn names_are_of_files(request: &Request) -> bool {
    for (name, _) in request.files.as_slice() {
        if !is_file_name(name) {
            return false;
        }
    }
    for name in request.fetch.as_slice() {
        if !is_file_name(name) {
            return false;
        }
    }
    true
}

/// Brings the names in the folder of a job to the disk, its own name, and that of the folder of jobs.
pub fn sync_placed<R: Files<File = File>>(rt: &R, folder: &str) -> Result<(), Fault> {
    let jobs = folder_of(folder);
    sync_names(rt, folder)?;
    sync_names(rt, jobs)?;
    sync_names(rt, folder_of(jobs))
}

/// Whether a file of this length is the request of the folder. One of another length isn't read.
fn is_same<R: Files>(
    rt: &R,
    alloc: Global,
    folder: &str,
    length: u64,
    wanted: &[u8],
) -> Result<bool, Fault> {
    if length != wanted.len() as u64 {
        return Ok(false);
    }
    match content_in(rt, alloc, folder, REQUEST, length)? {
        Some(found) => Ok(found.as_slice() == wanted),
        None => Ok(false),
    }
}

/// Whether the folder holds this request. It fails where it holds another.
pub fn holds<R: Files>(
    rt: &R,
    alloc: Global,
    folder: &str,
    request: &Request,
) -> Result<bool, Fault> {
    let Some(length) = length_in(rt, alloc, folder, REQUEST)? else {
        return Ok(false);
    };
    let wanted = encode_request(alloc, request)?;
    if is_same(rt, alloc, folder, length, wanted.bytes())? {
        return Ok(true);
    }
    Err(Fault::OtherRequest)
}

/// Fails where the folder doesn't hold this request.
pub fn must_hold<R: Files>(
    rt: &R,
    alloc: Global,
    folder: &str,
    request: &Request,
) -> Result<(), Fault> {
    if holds(rt, alloc, folder, request)? {
        return Ok(());
    }
    Err(Fault::NoRequest)
}

/// Writes the script of a request.
fn place_script<R: Files<File = File>>(
    rt: &R,
    alloc: Global,
    folder: &str,
    request: &Request,
) -> Result<(), Fault> {
    let script = script_of(alloc, request)?;
    place_file(rt, alloc, folder, SCRIPT, script.bytes())
}

/// Writes the files of a request and its script.
fn place_files<R: Files<File = File>>(
    rt: &R,
    alloc: Global,
    folder: &str,
    request: &Request,
) -> Result<(), Fault> {
    for (name, content) in request.files.as_slice() {
        place_file(rt, alloc, folder, name.as_str(), content.bytes())?;
    }
    place_script(rt, alloc, folder, request)
}

/// Writes the request of a folder under a name of its own.
fn place_request<R: Files<File = File>>(
    rt: &R,
    alloc: Global,
    folder: &str,
    request: &Request,
) -> Result<(), Fault> {
    let spelled = encode_request(alloc, request)?;
    place_file(rt, alloc, folder, "_wc_request.tmp", spelled.bytes())
}

/// Makes the folder of a request. The request's own file comes by rename, when all others and their names are on the
/// disk, so that a folder with that file is whole.
pub fn place<R: Files<File = File>>(
    rt: &R,
    alloc: Global,
    folder: &str,
    request: &Request,
) -> Result<(), Fault> {
    if !is_runnable(request) {
        return Err(Fault::Program);
    }
    if !names_are_of_files(request) {
        return Err(Fault::Name);
    }
    make_folder(rt, folder)?;
    place_files(rt, alloc, folder, request)?;
    place_request(rt, alloc, folder, request)?;
    sync_names(rt, folder)?;
    rename_in(rt, alloc, folder, "_wc_request.tmp", REQUEST)?;
    sync_placed(rt, folder)
}

/// Writes down what keeps a job open.
pub fn tell_open<R: Files<File = File>>(
    rt: &R,
    alloc: Global,
    folder: &str,
    dir: u32,
    why: &str,
) -> Result<(), Fault> {
    let line = format!(in alloc; "the update of job {dir} is open: {why}\n")?;
    write_file(rt, alloc, folder, FAILED, line.as_bytes())
}

/// Writes an exit code, in place of the script, unless the script has.
pub fn put_code<R: Files<File = File>>(
    rt: &R,
    alloc: Global,
    folder: &str,
    code: u32,
) -> Result<(), Fault> {
    let line = format!(in alloc; "{code}\n")?;
    place_file(rt, alloc, folder, "_wc_status.slurm", line.as_bytes())?;
    link_in(rt, alloc, folder, "_wc_status.slurm", STATUS)?;
    sync_names(rt, folder)
}

/// Writes down why a task failed.
pub fn note<R: Files<File = File>>(
    rt: &R,
    alloc: Global,
    folder: &str,
    failure: Failure,
) -> Result<(), Fault> {
    make_folder(rt, folder)?;
    let line = format!(in alloc; "{failure}\n")?;
    write_file(rt, alloc, folder, FAILED, line.as_bytes())
}

/// Whether a run of the script has begun that no one has taken back.
pub fn is_locked<R: Files>(rt: &R, alloc: Global, folder: &str) -> Result<bool, Fault> {
    is_there(rt, alloc, folder, LOCK)
}

/// Makes the lock at a path. Whether it was made.
fn make_lock_at<R: Files>(rt: &R, path: &str) -> Result<bool, Fault> {
    match fs::create_dir(rt, path) {
        Ok(()) => Ok(true),
        Err(error) if error.kind() == io::ErrorKind::AlreadyExists => Ok(false),
        Err(error) => called("making the lock", Err(error)),
    }
}

/// Makes the lock of a folder, so that no run begins. Whether it was made: it isn't where one is there.
pub fn make_lock<R: Files>(rt: &R, alloc: Global, folder: &str) -> Result<bool, Fault> {
    let path = path_in(alloc, folder, LOCK)?;
    make_lock_at(rt, path.as_str())
}

/// Whether a run of the script lives, as far as its lock tells: it is taken by a script that waits or whose program runs, where the command
/// `flock` is there. That none lives isn't sure, as many file systems keep such a lock to one machine.
pub fn is_alive<R: Files<File = File>>(rt: &R, alloc: Global, folder: &str) -> Result<bool, Fault> {
    let path = path_in(alloc, folder, SCRIPT)?;
    let Ok(script) = fs::open(rt, path.as_str()) else {
        return Ok(false);
    };
    Ok(matches!(script.try_lock_shared(), Err(TryLockError::WouldBlock)))
}

/// Whether the program has ended.
pub fn has_ended<R: Files>(rt: &R, alloc: Global, folder: &str) -> Result<bool, Fault> {
    is_there(rt, alloc, folder, STATUS)
}

/// The exit code that a text tells.
fn code_in(content: &[u8]) -> Result<i64, Fault> {
    let Ok(text) = str::from_utf8(content) else {
        return Err(Fault::Code);
    };
    match text.trim().parse::<i64>() {
        Ok(code) => Ok(code),
        Err(_) => Err(Fault::Code),
    }
}

/// The exit code of a program that has ended.
fn code_of<R: Files>(rt: &R, alloc: Global, folder: &str) -> Result<i64, Fault> {
    match content_in(rt, alloc, folder, STATUS, MOST_STATUS)? {
        Some(content) => code_in(content.as_slice()),
        None => Err(Fault::Running),
    }
}

/// The content of a file as bytes, which may be so long.
fn bytes_of(alloc: Global, content: &[u8]) -> Result<Bytes, Fault> {
    if content.len() as u64 > MOST_FETCHED {
        return Err(Fault::Long);
    }
    let mut bytes = Bytes::new(alloc);
    bytes.extend(content)?;
    Ok(bytes)
}

/// The content of a fetched file, or none where no file is there.
fn fetched<R: Files>(
    rt: &R,
    alloc: Global,
    folder: &str,
    name: &Text,
) -> Result<Option<Bytes>, Fault> {
    if !is_file_name(name) {
        return Err(Fault::Name);
    }
    match content_in(rt, alloc, folder, name.as_str(), MOST_FETCHED)? {
        Some(content) => Ok(Some(bytes_of(alloc, content.as_slice())?)),
        None => Ok(None),
    }
}

/// Puts a fetched file beside others, where it is there.
fn put_fetched<R: Files>(
    rt: &R,
    alloc: Global,
    folder: &str,
    name: &Text,
    files: &mut Keyed<Bytes>,
) -> Result<(), Fault> {
    if let Some(content) = fetched(rt, alloc, folder, name)? {
        files.set(Text::of_str(alloc, name.as_str())?, content)?;
    }
    Ok(())
}

/// Those files that a request asks for and that are there.
fn files_of<R: Files>(
    rt: &R,
    alloc: Global,
    folder: &str,
    request: &Request,
) -> Result<Keyed<Bytes>, Fault> {
    let mut files = Keyed::new(alloc);
    for name in request.fetch.as_slice() {
        put_fetched(rt, alloc, folder, name, &mut files)?;
    }
    Ok(files)
}

/// What a program that has ended left: its exit code, and those files that the request asks for and that are there. The folder is opened
/// first, so that no name is missed that a node of a cluster made a moment ago.
pub fn result_of<R: Files>(
    rt: &R,
    alloc: Global,
    folder: &str,
    request: &Request,
) -> Result<JobResult, Fault> {
    called("opening a folder", fs::open(rt, folder))?;
    let code = code_of(rt, alloc, folder)?;
    let files = files_of(rt, alloc, folder, request)?;
    Ok(JobResult { code, files })
}
