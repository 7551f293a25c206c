//! States of processes, and new ones.

ghost use Rattle.std.specs.Prelude.{◌≡◌};
ghost use Rattle.wc_records.specs.Records.{has_ended};
ghost use Rattle.wc_records.specs.Changes.{made, started_in};

use crate::change::NewProcess;
use wc_state::{Part, ProcessRecord};
use wc_value::ProcessState;

/// Whether a process in this state has ended.
pub fn has_ended(state: ProcessState) -> bool
    ensures { result ≡ has_ended state }
{
    matches!(
        state,
        ProcessState::Finished(_) | ProcessState::Excepted(_) | ProcessState::Killed
    )
}

/// The batch in which a process has started after it goes to a state.
pub fn started_in(batch: u32, record: &ProcessRecord, to: ProcessState) -> u32
    ensures { result ≡ started_in batch «record».now to }
{
    let created = matches!(record.state, ProcessState::Created);
    let starts = !matches!(to, ProcessState::Created | ProcessState::Killed);
    if created && starts {
        batch
    } else {
        record.started
    }
}

/// The record of a new process with this number.
pub(crate) fn make(number: u32, process: NewProcess) -> ProcessRecord
    ensures { result ≡ made number process }
{
    ProcessRecord {
        node: number,
        kind: process.kind,
        definition: process.definition,
        library: process.library,
        depth: process.depth,
        label: process.label,
        caching: process.caching,
        state: ProcessState::Created,
        paused: false,
        cached_from: None,
        fuel: 0,
        code: None,
        started: 0,
        ended: 0,
        part: Part::Fresh,
    }
}
