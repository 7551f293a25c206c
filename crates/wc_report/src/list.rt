//! The text of `list`.

ghost use Rattle.std.specs.Prelude.{◌≡◌, ◌++◌, IfOk, OnOk, string_bytes};
ghost use Rattle.wc_report.specs.Lists.{process_kind_text, mark_text, process_line, list_text};

use crate::tree::put_process;
use std::alloc::{AllocError, Global};
use wc_state::{ProcessKind, ProcessRecord};
use wc_value::Text;
use wc_world::World;

/// What a kind of process is called.
pub fn process_kind_name(kind: ProcessKind) -> &'static str
    ensures { result.now ≡ process_kind_text kind }
{
    match kind {
        ProcessKind::Function => "calcfunction",
        ProcessKind::Job => "calcjob",
        ProcessKind::Chain => "workchain",
    }
}

/// What stands behind a state.
fn mark(paused: bool) -> &'static str
    ensures { result.now ≡ mark_text paused }
{
    if paused { " paused" } else { "" }
}

/// Writes the line of a process.
fn put_line(alloc: Global, out: &mut String, process: &ProcessRecord) -> Result<(), AllocError>
    ensures { OnOk result (string_bytes out.new ≡ string_bytes out.old ++ process_line process.now) }
{
    let number = format!(in alloc; "{}", process.node)?;
    out.push_str(number.as_str())?;
    out.push_str(" ")?;
    out.push_str(process_kind_name(process.kind))?;
    out.push_str(" ")?;
    put_process(alloc, out, &process.definition, process.state)?;
    out.push_str(mark(process.paused))?;
    out.push_str("\n")
}

/// Writes the lines of these processes.
pub(crate) fn put_processes(
    alloc: Global,
    out: &mut String,
    processes: &[ProcessRecord],
) -> Result<(), AllocError>
    ensures { OnOk result (string_bytes out.new ≡ string_bytes out.old ++ list_text processes.now) }
{
    for process in processes {
        put_line(alloc, out, process)?;
    }
    Ok(())
}

/// The text of `list`: for each process, in order of their numbers, a line `PID KIND NAME STATE`, with ` paused`
/// behind it where it is marked.
pub fn list_text(alloc: Global, world: &World) -> Result<Text, AllocError>
    ensures { IfOk result (λ text. text ≡ list_text world.now.world.records) }
{
    let mut out = String::new(alloc);
    put_processes(alloc, &mut out, world.records().as_slice())?;
    Text::of_string(out)
}
