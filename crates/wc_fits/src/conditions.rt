//! What a change must fit.

ghost use Rattle.std.specs.Prelude.{◌≡◌, ◌==◌, suc, option_map};
ghost use Rattle.std.specs.Option.{option_copied};
ghost use Rattle.wc_syntax.specs.Bare.{bare_definition};
ghost use Rattle.wc_value.specs.Ascending.{before};
ghost use Rattle.wc_fits.specs.Records.{definition_in, is_calculation};
ghost use Rattle.wc_fits.specs.Fits.{comes_after, names_ascend, new_fits, is_of_kind, is_called_by, call_fits, part_fits, fails_fit, chain_runs, waits, is_fresh, is_over};

use crate::libraries::{Known, definition_in, kind_of_definition, same_kind};
use wc_graph::Link;
use wc_records::{NewProcess, Records};
use wc_state::{Part, ProcessKind, ProcessRecord};
use wc_syntax::Definition;
use wc_value::{ProcessState, Text, Words};

/// Whether a name comes after the one before, if there is one.
fn comes_after(last: Option<&Text>, name: &Text) -> bool
    ensures { result ≡ comes_after (option_copied last.entry) name.now }
{
    match last {
        None => true,
        Some(last) => last.bytes().cmp(&name.bytes()).is_lt(),
    }
}

/// Whether each name comes before those behind it.
pub fn names_ascend(names: &Words) -> bool
    ensures { result ≡ names_ascend names.now }
{
    let mut last = None;
    for name in names.as_slice() {
        if !comes_after(last, name) {
            return false;
        }
        last = Some(name);
    }
    true
}

fn is_of_kind(kind: ProcessKind, definition: Option<&Definition>) -> bool
    ensures { result ≡ is_of_kind kind (option_map bare_definition (option_copied definition.entry)) }
{
    match definition {
        None => false,
        Some(definition) => same_kind(kind_of_definition(definition), kind),
    }
}

/// Whether a new process has its definition and a depth from 1 to 16.
pub fn new_fits(libraries: &[Known], process: &NewProcess) -> bool
    ensures { result ≡ new_fits libraries.now process.now }
{
    let found = definition_in(libraries, process.library, &process.definition);
    1 <= process.depth && process.depth <= 16 && is_of_kind(process.kind, found)
}

fn is_called_by(label: &Text, caller: &ProcessRecord, target: Option<&ProcessRecord>) -> bool
    ensures { result ≡ is_called_by label.now caller.now (option_copied target.entry) }
{
    match target {
        None => false,
        Some(target) => {
            target.depth > caller.depth
                && target.depth - caller.depth == 1
                && target.label.bytes() == label.bytes()
        }
    }
}

/// Whether the target of a call has its source's depth plus 1, and the link's label.
pub fn call_fits(records: &Records, link: &Link) -> bool
    ensures { result ≡ call_fits records.now.0 link.now }
{
    match records.find(link.source) {
        None => false,
        Some(caller) => is_called_by(&link.label, caller, records.find(link.target)),
    }
}

fn chain_runs(kind: ProcessKind, part: &Part) -> bool
    ensures { result ≡ chain_runs kind part.now }
{
    match (kind, part) {
        (ProcessKind::Chain, Part::Chain(checkpoint)) => checkpoint.awaiting.is_empty(),
        _ => false,
    }
}

fn waits(kind: ProcessKind, part: &Part) -> bool
    ensures { result ≡ waits kind part.now }
{
    match (kind, part) {
        (ProcessKind::Chain, Part::Chain(checkpoint)) => !checkpoint.awaiting.is_empty(),
        (ProcessKind::Job, Part::Job(_)) => true,
        _ => false,
    }
}

/// Whether kind, state and part fit together.
pub(crate) fn part_fits(kind: ProcessKind, state: ProcessState, part: &Part) -> bool
    ensures { result ≡ part_fits kind state part.now }
{
    match state {
        ProcessState::Created => matches!(part, Part::Fresh),
        ProcessState::Running => chain_runs(kind, part),
        ProcessState::Waiting => waits(kind, part),
        ProcessState::Finished(_) => matches!(part, Part::Over),
        ProcessState::Excepted(_) => matches!(part, Part::Over),
        ProcessState::Killed => matches!(part, Part::Over),
    }
}

/// Whether a job failed at most five times in a row, and is paused where it is five times.
pub(crate) fn fails_fit(part: &Part, paused: bool) -> bool
    ensures { result ≡ fails_fit part.now paused }
{
    match part {
        Part::Job(job) => job.fails < 5 || (job.fails == 5 && paused),
        _ => true,
    }
}

/// Whether processes of this kind are calculations.
pub fn is_calculation(kind: ProcessKind) -> bool
    ensures { result ≡ is_calculation kind }
{
    !matches!(kind, ProcessKind::Chain)
}
