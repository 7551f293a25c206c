//! Which processes are ready at a moment, by what an index says of them.

ghost use Rattle.std.specs.Prelude.{◌≡◌, ◌++◌, ℕ, map, IfOk};
ghost use Rattle.std.specs.List.Sorted.{IsNonDecreasing, IsPermutation};
ghost use Rattle.wc_records.specs.Ascending.{AreAscending};
ghost use Rattle.wc_records.specs.Readiness.{sooner};
ghost use Rattle.wc_records.specs.Marked.{IsSorted};
ghost use Rattle.wc_records.specs.Index.{passed_by};
ghost use Rattle.wc_records.specs.Ready.{is_ready_at, due_by};

use crate::places::{is_numbered, place_of};
use crate::readiness::is_ready_past;
use std::alloc::{AllocError, Global};
use wc_state::ProcessRecord;

/// Whether the process with this number is there and is ready at a moment, where it is known of each process how many of
/// those that it awaits have ended, from the first one on.
pub(crate) fn is_ready_at(records: &[ProcessRecord], passed: &[usize], pid: u32, now: u64) -> bool
    requires ascending { AreAscending 0 records.now }
    requires passed { passed.now ≡ map (passed_by records.now) records.now }
    ensures { result ≡ is_ready_at records.now pid now }
{
    let at = place_of(records, pid);
    if is_numbered(records, at, pid) {
        is_ready_past(passed[at], now, &records[at])
    } else {
        false
    }
}

/// The due moments, in order, that aren't after this one.
pub(crate) fn due_by(dues: &[(u64, u32)], now: u64) -> &[(u64, u32)]
    requires { IsSorted sooner dues.now }
    ensures { result.now ≡ due_by now dues.now }
{
    let at = dues.partition_point(|due| due.0 <= now);
    &dues[..at]
}

/// These numbers and those of the processes of due moments, in order.
pub(crate) fn joined(
    alloc: Global,
    numbers: &[u32],
    due: &[(u64, u32)],
) -> Result<Vec<u32>, AllocError>
    ensures entries { IfOk result (λ all. IsPermutation (numbers.now ++ map (λ (d : ℕ × ℕ). d.1) due.now) all.items) }
    ensures order { IfOk result (λ all. IsNonDecreasing all.items) }
{
    let mut all = Vec::new(alloc);
    all.extend_from_slice(numbers)?;
    all.reserve(due.len())?;
    for (_, pid) in due {
        all.push(*pid)?;
    }
    all.sort()?;
    Ok(all)
}
