//! The processes that a work chain calls, as changes.

ghost use Rattle.std.specs.Prelude.{◌≡◌, ℕ, ◌++◌, ◌+◌, ◌<◌, ◌≤◌, ◌^◌, length, IfOk, OnOk};
ghost use Rattle.wc_changes.specs.Called.{data_of, added, number_at, waited, kind_at, child, link_to, one_call, all_calls};

use crate::arguments::{count_data, put_data, put_links};
use crate::known::{call_link, kind_named};
use std::alloc::{AllocError, Global};
use wc_graph::Link;
use wc_machine::input_link;
use wc_outline::{Call, Calls};
use wc_state::{Await, Awaits, ProcessKind, ProcessRecord};
use wc_syntax::{Checked, is_among};
use wc_value::{Duplicate, Words};
use wc_world::{Change, Changes, Known, NewProcess};

/// A work chain that calls.
#[derive(Clone, Copy)]
pub struct Caller<'a> {
    /// Its record.
    pub process: &'a ProcessRecord,
    /// Its library.
    pub library: &'a Checked,
    /// The names of the library's definitions with caching on.
    pub caching: &'a Words,
}

/// A work chain of a library that the world knows.
pub fn caller_of<'a>(process: &'a ProcessRecord, known: &'a Known) -> Caller<'a>
    ensures process { result.process.now ≡ process.entry.now }
    ensures library { result.library.now ≡ known.entry.now.0 }
    ensures caching { result.caching.now ≡ known.entry.now.1 }
{
    Caller {
        process,
        library: &known.0,
        caching: &known.1,
    }
}

/// The process of a call of this kind.
fn new_child(caller: Caller<'_>, call: &Call, kind: ProcessKind) -> Result<Change, AllocError>
    requires depth { caller.process.now.depth ≤ 16 }
    requires kind { kind ≡ kind_at caller call.now }
    ensures { IfOk result (λ change. change ≡ child caller.entry call.now) }
{
    Ok(Change::Process(NewProcess {
        kind,
        definition: call.definition.copy()?,
        library: caller.process.library,
        depth: caller.process.depth + 1,
        label: call.label.copy()?,
        caching: is_among(&call.definition, caller.caching),
    }))
}

/// The call link to a process of this kind.
fn link_to(
    caller: Caller<'_>,
    call: &Call,
    kind: ProcessKind,
    pid: u32,
) -> Result<Change, AllocError>
    ensures { IfOk result (λ change. (next : ℕ) → kind ≡ kind_at caller.entry call.now → pid ≡ number_at next call.now → change ≡ link_to caller.entry next call.now) }
{
    Ok(Change::Link(Link {
        source: caller.process.node,
        target: pid,
        link: call_link(kind),
        label: call.label.copy()?,
    }))
}

/// Puts the changes of a call at the end, and gives the number of the called process.
fn put_call(
    caller: Caller<'_>,
    next: u32,
    call: &Call,
    changes: &mut Changes,
) -> Result<u32, AllocError>
    requires depth { caller.process.now.depth ≤ 16 }
    requires few { next + length (data_of call.now.args) < 2 ^ 32 }
    ensures number { IfOk result (λ pid. pid ≡ number_at next call.now) }
    ensures changes { OnOk result (changes.new ≡ changes.old ++ one_call caller.entry next call.now) }
{
    let kind = kind_named(caller.library, &call.definition);
    let pid = next + count_data(&call.args) as u32;
    put_data(changes, &call.args)?;
    changes.push(new_child(caller, call, kind)?)?;
    put_links(changes, input_link(kind), next, pid, &call.args)?;
    changes.push(link_to(caller, call, kind, pid)?)?;
    Ok(pid)
}

/// Puts the changes of calls at the end, of which the first node has this number, and gives what is awaited of them.
pub fn put_calls(
    alloc: Global,
    caller: Caller<'_>,
    first: u32,
    calls: &Calls,
    changes: &mut Changes,
) -> Result<Awaits, AllocError>
    requires depth { caller.process.now.depth ≤ 16 }
    requires few { first + added calls.now < 2 ^ 32 }
    ensures awaits { IfOk result (λ awaits. awaits ≡ waited first calls.now) }
    ensures changes { OnOk result (changes.new ≡ changes.old ++ all_calls caller.entry first calls.now) }
{
    let mut awaits = Awaits::new(alloc);
    let mut next = first;
    for call in calls.as_slice() {
        let pid = put_call(caller, next, call, changes)?;
        awaits.push(Await {
            key: call.key.copy()?,
            append: call.append,
            pid,
        })?;
        next = pid + 1;
    }
    Ok(awaits)
}
