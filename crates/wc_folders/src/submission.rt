//! What the folder of a job says of its submission to a scheduler, which is what it is known by: a name that no other has, on the disk
//! before the scheduler gets it. The number that the scheduler gives stands behind it for people, since one may be given twice.
ghost use Rattle.std.specs.Prelude.{◌≡◌, ◌++◌, IfOk, string_bytes};

use crate::fault::Fault;
use crate::file::{append_line, content_in, is_there, replace_file};
use crate::random::random_word;
use std::alloc::{AllocError, Global};
use std::fs::File;
use std::rt::Files;
use std::str;
use std::string::String;
use wc_slurm::{OVER, Submission, TRY, submission_in};
use wc_value::Text;

/// The file: a line with the name, one with which try of the job it is, then one with the number, and one with `over` for each time that a
/// look told that this try ended before the program began.
const SUBMISSION: &str = "_wc_slurm";

/// The most bytes of that file.
const MOST_SUBMISSION: u64 = 4096;

/// Whether a job was meant for a scheduler.
pub fn has_submission<R: Files>(rt: &R, alloc: Global, folder: &str) -> Result<bool, Fault> {
    is_there(rt, alloc, folder, SUBMISSION)
}

/// The submission that a file tells of, if it does.
fn told_by(alloc: Global, content: &[u8]) -> Result<Option<Submission>, AllocError> {
    match str::from_utf8(content) {
        Ok(text) => submission_in(alloc, text),
        Err(_) => Ok(None),
    }
}

/// The last submission of a job, if there is one.
pub fn submission_of<R: Files>(
    rt: &R,
    alloc: Global,
    folder: &str,
) -> Result<Option<Submission>, Fault> {
    match content_in(rt, alloc, folder, SUBMISSION, MOST_SUBMISSION)? {
        Some(content) => Ok(told_by(alloc, content.as_slice())?),
        None => Ok(None),
    }
}

/// A name that ends in a word that no other has.
fn with_token(mut front: String, token: &str) -> Result<String, AllocError>
    ensures { IfOk result (λ name. string_bytes name ≡ string_bytes front ++ token.now) }
{
    front.push_str(token)?;
    Ok(front)
}

/// A name that begins with the number of a folder, and ends in a word.
fn name_with(alloc: Global, dir: u32, token: &str) -> Result<Text, AllocError> {
    let front = format!(in alloc; "wc-{dir}-")?;
    Text::of_string(with_token(front, token)?)
}

/// A name for a submission of the job in a folder of this number.
pub fn new_name<R: Files>(rt: &R, alloc: Global, dir: u32) -> Result<Text, Fault> {
    let token = random_word(rt, alloc)?;
    Ok(name_with(alloc, dir, token.as_str())?)
}

/// Brings a name to the disk, and which try of the job it is.
pub fn place_name<R: Files<File = File>>(
    rt: &R,
    alloc: Global,
    folder: &str,
    name: &str,
    tries: u32,
) -> Result<(), Fault> {
    let lines = format!(in alloc; "{name}\n{TRY}{tries}\n")?;
    replace_file(
        rt,
        alloc,
        folder,
        "_wc_slurm.tmp",
        SUBMISSION,
        lines.as_bytes(),
    )
}

/// Puts the number that the scheduler gave behind the name. That it is lost does no harm.
pub fn put_number<R: Files<File = File>>(
    rt: &R,
    alloc: Global,
    folder: &str,
    number: &str,
) -> Result<(), Fault> {
    append_line(rt, alloc, folder, SUBMISSION, number)
}

/// Writes down that it was told that a submission ended before the program began.
pub fn put_over<R: Files<File = File>>(rt: &R, alloc: Global, folder: &str) -> Result<(), Fault> {
    append_line(rt, alloc, folder, SUBMISSION, OVER)
}
