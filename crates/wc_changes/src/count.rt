//! How many nodes calls add.

ghost use Rattle.std.specs.Prelude.{◌≡◌, ◌≤◌, ◌-◌, ◌^◌};
ghost use Rattle.wc_changes.specs.Called.{added};

use crate::arguments::count_data;
use wc_outline::Calls;

/// How many nodes calls add: one for each called process, and one for each argument that gets a node of its own.
pub fn count_added(calls: &Calls) -> u64
    ensures value { result ≡ added calls.now }
    ensures few { result ≤ 2 ^ 64 - 2 ^ 32 }
{
    let _ = calls.len();
    let mut count = 0;
    for call in calls.as_slice() {
        count += count_data(&call.args) + 1;
    }
    count
}
