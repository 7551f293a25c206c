//! The start of a script on this machine.

use crate::fault::{Fault, called};
use crate::shell::shell;
use std::alloc::{AllocError, Global};
use std::process::{Command, Processes, Stdio};

/// Starts the script in the background, in a session of its own where the command `setsid` is there.
const START: &str = "\
if command -v setsid >/dev/null; then setsid sh ./_wc_run.sh & else sh ./_wc_run.sh & fi";

/// The command that starts the script in a folder, which says and hears nothing.
fn starter(alloc: Global, folder: &str) -> Result<Command, AllocError> {
    let mut command = shell(alloc, START)?;
    command.current_dir(folder)?;
    command.stdin(Stdio::null());
    command.stdout(Stdio::null());
    command.stderr(Stdio::null());
    Ok(command)
}

/// Starts the script in a folder, and doesn't wait for it: the `sh` that is waited for starts another in the background.
pub fn start<R: Processes>(rt: &R, alloc: Global, folder: &str) -> Result<(), Fault> {
    let mut command = starter(alloc, folder)?;
    let status = called("starting sh", command.status(rt))?;
    if status.success() {
        return Ok(());
    }
    Err(Fault::Start)
}
