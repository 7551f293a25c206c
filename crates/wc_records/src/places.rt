//! Where the records of processes stand, which are in order of their numbers.

ghost use Rattle.std.specs.Prelude.{◌≡◌, ◌<◌, true, length, slice_get};
ghost use Rattle.std.specs.Option.{option_copied};
ghost use Rattle.wc_records.specs.Records.{find_record};
ghost use Rattle.wc_records.specs.Ascending.{AreAscending, IsCut, is_numbered};

use wc_state::ProcessRecord;

/// How many records have lesser numbers.
pub(crate) fn place_of(records: &[ProcessRecord], pid: u32) -> usize
    requires { AreAscending 0 records.now }
    ensures { IsCut pid records.now result }
{
    records.partition_point(|record| record.node < pid)
}

/// Whether the record at a place has this number.
pub(crate) fn is_numbered(records: &[ProcessRecord], at: usize, pid: u32) -> bool
    ensures value { result ≡ is_numbered pid (slice_get records.now at) }
    ensures within { result ≡ true → at < length records.now }
{
    match records.get(at) {
        None => false,
        Some(record) => record.node == pid,
    }
}

/// The record of the process with this number, if there is one.
pub(crate) fn find(records: &[ProcessRecord], pid: u32) -> Option<&ProcessRecord>
    requires { AreAscending 0 records.now }
    ensures { option_copied result ≡ find_record pid records.now }
{
    let at = place_of(records, pid);
    if is_numbered(records, at, pid) {
        Some(&records[at])
    } else {
        None
    }
}
