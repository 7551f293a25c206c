//! Records that change in place.

ghost use Rattle.std.specs.Prelude.{◌≡◌};
ghost use Rattle.wc_records.specs.Changes.{source_of, set, keep};

use crate::change::{Kept, SetProcess};
use crate::processes::{has_ended, started_in};
use wc_state::ProcessRecord;

/// The source with this number, where 0 stands for none.
fn source_of(number: u32) -> Option<u32>
    ensures { result ≡ source_of number }
{
    if number == 0 {
        return None;
    }
    Some(number)
}

/// Sets what a process is from now on, in the batch of this number.
pub(crate) fn set(item: &mut ProcessRecord, batch: u32, change: SetProcess)
    ensures { item.new ≡ set batch change item.old }
{
    item.started = started_in(batch, item, change.state);
    if has_ended(change.state) {
        item.ended = batch;
    }
    item.state = change.state;
    item.paused = change.paused;
    item.cached_from = source_of(change.cached_from);
    item.fuel = change.fuel;
    item.code = change.code;
    item.part = change.part;
}

/// Keeps when a process started and ended.
pub(crate) fn keep(item: &mut ProcessRecord, change: Kept)
    ensures { item.new ≡ keep change item.old }
{
    item.started = change.started;
    item.ended = change.ended;
}
