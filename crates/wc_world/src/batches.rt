//! The batches in which a process starts and ends.

ghost use Rattle.std.specs.Prelude.{◌≡◌};
ghost use Rattle.wc_world.specs.Accepted.{ended_fits};
ghost use Rattle.wc_world.specs.Drafts.{started_by, ended_by};

use crate::slots::kept_at;
use crate::terms::Terms;
use wc_records::{Kept, SetProcess, has_ended, started_in};
use wc_state::ProcessRecord;

/// The batch in which a process has started after it is set.
pub(crate) fn started_after(terms: &Terms, set: &SetProcess, record: &ProcessRecord) -> u32
    ensures { result ≡ started_by terms.now set.now «record».now }
{
    if terms.snapshot {
        match kept_at(terms.slots.as_slice(), record.node) {
            None => 0,
            Some(kept) => kept.started,
        }
    } else {
        started_in(terms.batch, record, set.state)
    }
}

/// The batch in which a process ended, 0 for not yet.
pub(crate) fn ended_before(terms: &Terms, record: &ProcessRecord) -> u32
    ensures { result ≡ ended_by terms.now «record».now }
{
    if terms.snapshot {
        match kept_at(terms.slots.as_slice(), record.node) {
            None => 0,
            Some(kept) => kept.ended,
        }
    } else {
        record.ended
    }
}

/// Whether the end of a process in a snapshot fits its state and its start.
pub(crate) fn ended_fits(kept: &Kept, record: &ProcessRecord) -> bool
    ensures { result ≡ ended_fits kept.now «record».now }
{
    if has_ended(record.state) {
        kept.ended > 0 && kept.started <= kept.ended
    } else {
        kept.ended == 0
    }
}
