//! Lines of the shell whose answer is waited for.

use crate::fault::is_want_of_memory;
use std::alloc::{AllocError, Global};
use std::io;
use std::process::{Command, Output, Processes};

/// Puts a word behind those of a command.
fn put_word(command: &mut Command, word: &str) -> Result<(), AllocError> {
    command.arg(word)?;
    Ok(())
}

/// The command that runs a text of the shell.
pub fn shell(alloc: Global, text: &str) -> Result<Command, AllocError> {
    let mut command = Command::new(alloc, "sh")?;
    put_word(&mut command, "-c")?;
    put_word(&mut command, text)?;
    Ok(command)
}

/// Puts the two words of a text of the shell behind it.
fn put_words(command: &mut Command, first: &str, second: &str) -> Result<(), AllocError> {
    put_word(command, "sh")?;
    put_word(command, first)?;
    put_word(command, second)
}

/// Runs a text of the shell with two words, and collects what it writes.
fn collected<R: Processes>(
    rt: &R,
    alloc: Global,
    text: &str,
    first: &str,
    second: &str,
) -> Result<io::Result<Output>, AllocError> {
    let mut command = shell(alloc, text)?;
    put_words(&mut command, first, second)?;
    Ok(command.output(rt))
}

/// What a text of the shell with two words gives, none where it can't be started.
pub fn output_of<R: Processes>(
    rt: &R,
    alloc: Global,
    text: &str,
    first: &str,
    second: &str,
) -> Result<Option<Output>, AllocError> {
    match collected(rt, alloc, text, first, second)? {
        Ok(output) => Ok(Some(output)),
        Err(error) if is_want_of_memory(&error) => Err(AllocError),
        Err(_) => Ok(None),
    }
}
