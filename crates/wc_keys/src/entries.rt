//! Entries in order.

ghost use Rattle.std.specs.Prelude.{◌≡◌, ◌≤◌, true, length, slice_get, vec_capacity};
ghost use Rattle.wc_records.specs.Marked.{IsSorted, IsPlace, is_item, marked};
ghost use Rattle.wc_keys.specs.Order.{earlier, is_in, is_seal};

/// The digest of the key of a calculation that has finished, with its number.
#[derive(Clone, Copy, PartialEq, Eq, PartialOrd, Ord)]
pub struct Sealed {
    /// The SHA-256 of its key.
    pub digest: [u8; 32],
    /// Its number.
    pub pid: u32,
}

/// Whether one entry comes before another.
fn is_earlier(one: &Sealed, other: &Sealed) -> bool
    ensures { result ≡ earlier one.now other.now }
{
    one.cmp(other).is_lt()
}

/// Whether this entry comes behind all others, as the next one of a run does that is put in from behind.
fn is_behind(seals: &[Sealed], seal: &Sealed) -> bool
    requires { IsSorted earlier seals.now }
    ensures { result ≡ true → IsPlace earlier seal.now seals.now (length seals.now) }
{
    let count = seals.len();
    if count == 0 {
        return true;
    }
    is_earlier(&seals[count - 1], seal)
}

/// How many entries come before this one.
pub(crate) fn place_in(seals: &[Sealed], seal: &Sealed) -> usize
    requires { IsSorted earlier seals.now }
    ensures { IsPlace earlier seal.now seals.now result }
{
    if is_behind(seals, seal) {
        return seals.len();
    }
    seals.partition_point(|other| is_earlier(other, seal))
}

/// Whether the entry at a place is this one.
fn is_at(seals: &[Sealed], at: usize, seal: &Sealed) -> bool
    ensures { result ≡ is_item (is_seal seal.now.digest seal.now.pid) (slice_get seals.now at) }
{
    match seals.get(at) {
        None => false,
        Some(other) => other.digest == seal.digest && other.pid == seal.pid,
    }
}

/// Whether an entry stands there.
pub(crate) fn contains(seals: &[Sealed], seal: &Sealed) -> bool
    requires { IsSorted earlier seals.now }
    ensures { result ≡ is_in seal.now.digest seal.now.pid seals.now }
{
    is_at(seals, place_in(seals, seal), seal)
}

/// Whether an entry stands there, and at which place the next one is looked for first. It is looked for at such a place itself
/// first, where it stands if it comes right behind one that was found.
pub(crate) fn find_from(seals: &[Sealed], from: usize, seal: &Sealed) -> (bool, usize)
    requires { IsSorted earlier seals.now }
    ensures { result.0 ≡ is_in seal.now.digest seal.now.pid seals.now }
{
    if is_at(seals, from, seal) {
        return (true, from.saturating_add(1));
    }
    let at = place_in(seals, seal);
    if is_at(seals, at, seal) {
        return (true, at.saturating_add(1));
    }
    (false, at)
}

/// Puts an entry in, where it is wanted, and else takes it out. There is a place for it, so that this takes no memory.
pub(crate) fn mark(seals: &mut Vec<Sealed>, seal: Sealed, wanted: bool)
    requires order { IsSorted earlier seals.old.items }
    requires room { length (marked earlier seal wanted seals.old.items) ≤ vec_capacity seals.old }
    ensures items { seals.new.items ≡ marked earlier seal wanted seals.old.items }
    ensures capacity { vec_capacity seals.new ≡ vec_capacity seals.old }
{
    let at = place_in(seals.as_slice(), &seal);
    if is_at(seals.as_slice(), at, &seal) == wanted {
        return;
    }
    if wanted {
        let _in_room = seals.insert(at, seal);
    } else {
        seals.remove(at);
    }
}
