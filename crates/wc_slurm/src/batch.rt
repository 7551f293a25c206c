//! The batch script of a job on a cluster, from the user's lines.
ghost use Rattle.std.specs.Prelude.{◌≡◌, ◌++◌, drop, IfOk, OnOk};
ghost use Rattle.std.specs.List.{filter, list_any};
ghost use Rattle.wc_slurm.specs.Batch.{IsBatchOf, HasScript, is_directive as is_directive_line, is_command, said_in as said_behind, is_refused as is_refused_line, taken, text_of};

use crate::lines::copied;
use crate::options::line_asks;
use std::alloc::{AllocError, Global};
use wc_value::Bytes;

/// What a line for the scheduler begins with.
const DIRECTIVE: &[u8] = b"#SBATCH";

/// What one began with long ago, which is read as well.
const OLD_DIRECTIVE: &[u8] = b"#SLURM";

/// What comes first.
const SHELL: &[u8] = b"#!/bin/sh\n";

/// What stands behind the user's lines. The scheduler runs a copy of this text in a folder of its own. The node may not see the job's
/// folder at once.
const BEHIND: &[u8] = br#"tries=0
until cd "$SLURM_SUBMIT_DIR" 2>/dev/null && [ -e _wc_request ]; do
  tries=$((tries + 1)); [ "$tries" -le 90 ] || exit 75; sleep 1
done
export MAROONCLAMP_JOBS=0
exec /bin/sh ./_wc_run.sh slurm
"#;

/// Whether a line is for the scheduler.
fn is_directive(line: &[u8]) -> bool
    ensures { result ≡ is_directive_line line.now }
{
    line.starts_with(DIRECTIVE) || line.starts_with(OLD_DIRECTIVE)
}

/// Puts a line with its line feed behind a text, where it is taken.
#[tactic(auto, using(crate::proofs::Taken::taken_line, crate::proofs::Taken::left_line))]
fn put_line(text: &mut Bytes, line: &[u8], is_taken: bool) -> Result<(), AllocError>
    ensures { OnOk result (text.new ≡ text.old ++ taken is_taken line.now) }
{
    if is_taken {
        text.extend(line)?;
        text.push(b'\n')?;
    }
    Ok(())
}

/// Puts those lines behind a text that are for the scheduler.
#[tactic(auto, using(crate::proofs::Taken::none_put, crate::proofs::Taken::all_put))]
fn put_directives(text: &mut Bytes, lines: &[Bytes]) -> Result<(), AllocError>
    ensures { OnOk result (text.new ≡ text.old ++ text_of (filter is_directive_line lines.now)) }
{
    for line in lines {
        let content = line.bytes();
        put_line(text, content, is_directive(content))?;
    }
    Ok(())
}

/// Puts those lines behind a text that aren't for the scheduler.
#[tactic(auto, using(crate::proofs::Taken::none_put, crate::proofs::Taken::all_put))]
fn put_commands(text: &mut Bytes, lines: &[Bytes]) -> Result<(), AllocError>
    ensures { OnOk result (text.new ≡ text.old ++ text_of (filter is_command lines.now)) }
{
    for line in lines {
        let content = line.bytes();
        put_line(text, content, !is_directive(content))?;
    }
    Ok(())
}

/// The batch script of a job: the lines for the scheduler of all jobs, of the job's program and of the job itself come before all
/// others, in this order, since of two lines for one option the last counts, and none behind a command does.
fn batch_of(
    alloc: Global,
    all: &[Bytes],
    program: &[Bytes],
    own: &[Bytes],
) -> Result<Bytes, AllocError>
    ensures { IfOk result (λ batch. IsBatchOf SHELL.now all.now program.now own.now BEHIND.now batch) }
{
    let mut batch = copied(alloc, SHELL)?;
    put_directives(&mut batch, all)?;
    put_directives(&mut batch, program)?;
    put_directives(&mut batch, own)?;
    put_commands(&mut batch, all)?;
    put_commands(&mut batch, program)?;
    batch.extend(BEHIND)?;
    Ok(batch)
}

/// What is left of a line behind so many bytes.
fn dropped(line: &[u8], count: usize) -> &[u8]
    ensures { result.now ≡ drop count line.now }
{
    if count < line.len() {
        &line[count..]
    } else {
        &[]
    }
}

/// What a line for the scheduler says, behind its sign.
fn said_in(line: &[u8]) -> &[u8]
    ensures { result.now ≡ said_behind line.now }
{
    if line.starts_with(DIRECTIVE) {
        dropped(line, 7)
    } else {
        dropped(line, 6)
    }
}

/// Whether a line for the scheduler asks for what a job can't be. Its bytes may be any.
fn is_refused(alloc: Global, line: &[u8]) -> Result<bool, AllocError>
    ensures { IfOk result (λ refused. refused ≡ is_refused_line line.now) }
{
    if is_directive(line) {
        return line_asks(alloc, said_in(line));
    }
    Ok(false)
}

/// Whether one of these lines asks the scheduler for what a job can't be.
fn has_refused(alloc: Global, lines: &[Bytes]) -> Result<bool, AllocError>
    ensures { IfOk result (λ refused. refused ≡ list_any is_refused_line lines.now) }
{
    for line in lines {
        if is_refused(alloc, line.bytes())? {
            return Ok(true);
        }
    }
    Ok(false)
}

/// The batch script of a job by the lines of all jobs, of its program and of its own. There is none where one of them asks the scheduler
/// for more than one job, or for a submission that waits.
pub fn batch_for(
    alloc: Global,
    all: &[Bytes],
    program: &[Bytes],
    own: &[Bytes],
) -> Result<Option<Bytes>, AllocError>
    ensures { IfOk result (λ batch. HasScript SHELL.now all.now program.now own.now BEHIND.now batch) }
{
    if has_refused(alloc, all)? || has_refused(alloc, program)? || has_refused(alloc, own)? {
        return Ok(None);
    }
    Ok(Some(batch_of(alloc, all, program, own)?))
}
