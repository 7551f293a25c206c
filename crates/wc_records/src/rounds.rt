//! Which number comes next in a round.

ghost use Rattle.std.specs.Prelude.{◌≡◌, nat_lt, slice_get};
ghost use Rattle.wc_records.specs.Marked.{IsSorted};
ghost use Rattle.wc_records.specs.Ready.{first_above};
ghost use Rattle.wc_records.specs.Rounds.{comes_before, earlier, first_with};

/// The number at a place, if there is one.
fn number_at(numbers: &[u32], at: usize) -> Option<u32>
    ensures { result ≡ slice_get numbers.now at }
{
    numbers.get(at).copied()
}

/// The first of the ascending numbers above the last one, else the first of all, if there is one.
pub(crate) fn first_above(numbers: &[u32], last: u32) -> Option<u32>
    requires { IsSorted nat_lt numbers.now }
    ensures { result ≡ first_above last numbers.now }
{
    let at = numbers.partition_point(|number| *number <= last);
    number_at(numbers, at).or(number_at(numbers, 0))
}

/// Whether one number comes before another in the round that begins above the last one.
fn comes_before(last: u32, one: u32, other: u32) -> bool
    ensures { result ≡ comes_before last one other }
{
    if last < one {
        other <= last || one < other
    } else {
        other <= last && one < other
    }
}

/// The one of two that comes first, where the first of them is there.
fn earlier(last: u32, best: Option<u32>, pid: u32) -> u32
    ensures { result ≡ earlier last best pid }
{
    match best {
        Some(one) => {
            if comes_before(last, pid, one) {
                pid
            } else {
                one
            }
        }
        None => pid,
    }
}

/// The one that comes first of this one, if it is there, and of the processes of due moments.
pub(crate) fn first_with(last: u32, start: Option<u32>, due: &[(u64, u32)]) -> Option<u32>
    ensures { result ≡ first_with last start due.now }
{
    let mut best = start;
    for (_, pid) in due {
        best = Some(earlier(last, best, *pid));
    }
    best
}
