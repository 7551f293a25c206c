//! Entries in two lists in order, of which the second one is short, so that little is moved where an entry is put in.

ghost use Rattle.std.specs.Prelude.{◌≡◌, ℕ, [], ◌+◌, ◌++◌, ◌<◌, ◌≤◌, true, false, filter, length, not, take, vec_capacity};
ghost use Rattle.wc_records.specs.Marked.{IsSorted, IsPlace, marked};
ghost use Rattle.wc_keys.specs.Order.{earlier, is_in, joined, AreApart, AreTwo};
ghost use Rattle.wc_keys.specs.Gaps.{PutsInGap};

use crate::entries::{Sealed, contains, find_from, mark, place_in};
use crate::seals::part_of;

/// How many entries the short list has at most, copies among them.
pub(crate) const SHORT_MOST: usize = 16_384;

/// How many entries a digest has at most where they are copied into the short list. Those of a digest with more stay in the long
/// list, and a further one goes there. So the short list is emptied into the long one at each fourth entry at most.
const COPIES_MOST: usize = SHORT_MOST / 4 - 1;

/// Adds entries at the end. There are places for them, so that this takes no memory.
fn push_all(long: &mut Vec<Sealed>, seals: &[Sealed])
    requires { length long.old.items + length seals.now ≤ vec_capacity long.old }
    ensures items { long.new.items ≡ long.old.items ++ seals.now }
    ensures capacity { vec_capacity long.new ≡ vec_capacity long.old }
{
    for seal in seals {
        long.push_reserved(*seal);
    }
}

/// Puts an entry into the list, of whose entries so many stand in front of a gap of places, and those between it and the gap
/// behind the gap. Answers how many stand before it, which is where the gap is then. Each entry is moved over the gap.
fn put_in_gap(long: &mut Vec<Sealed>, at: usize, gap: usize, seal: Sealed) -> usize
    requires order { IsSorted earlier (take at long.old.items) }
    requires some { 0 < gap }
    requires within { at + gap ≤ length long.old.items }
    ensures place { IsPlace earlier seal (take at long.old.items) result }
    ensures puts { PutsInGap long.old.items long.new.items at result gap seal }
    ensures capacity { vec_capacity long.new ≡ vec_capacity long.old }
{
    let to = place_in(&long.as_slice()[..at], &seal);
    let items = long.as_mut_slice();
    items.copy_within(to..at, to + gap);
    items[to + gap - 1] = seal;
    to
}

/// Puts entries into a list that has none of them, from the last on, so that each is moved once. There are places for them, so
/// that this takes no memory.
fn join(long: &mut Vec<Sealed>, seals: &[Sealed])
    requires { AreApart long.old.items seals.now (vec_capacity long.old) }
    ensures items { long.new.items ≡ joined long.old.items seals.now }
    ensures capacity { vec_capacity long.new ≡ vec_capacity long.old }
{
    let mut at = long.len();
    push_all(long, seals);
    let mut gap = seals.len();
    while gap > 0 {
        at = put_in_gap(long, at, gap, seals[gap - 1]);
        gap -= 1;
    }
}

/// Leaves out the entries that stand in another list.
fn drop_known(long: &[Sealed], short: &mut Vec<Sealed>)
    requires { IsSorted earlier long.now }
    ensures items { short.new.items ≡ filter (λ s. not (is_in s.digest s.pid long.now)) short.old.items }
    ensures capacity { vec_capacity short.new ≡ vec_capacity short.old }
{
    let mut kept = 0;
    let mut from = 0;
    for at in 0..short.len() {
        let seal = short[at];
        let (known, next) = find_from(long, from, &seal);
        from = next;
        if !known {
            short[kept] = seal;
            kept += 1;
        }
    }
    short.truncate(kept);
}

/// Moves the entries of the short list into the long one. There are places for them, so that this takes no memory.
fn merge(long: &mut Vec<Sealed>, short: &mut Vec<Sealed>)
    requires { AreTwo long.old.items short.old.items (vec_capacity long.old) }
    ensures items { long.new.items ≡ joined long.old.items short.old.items }
    ensures emptied { short.new.items ≡ [] }
    ensures capacity { vec_capacity long.new ≡ vec_capacity long.old }
{
    drop_known(long.as_slice(), short);
    join(long, short.as_slice());
    short.clear();
}

/// Whether so many entries of a digest are copied into the short list.
fn are_copied(count: usize) -> bool {
    count <= COPIES_MOST
}

/// How many places there have to be in the short list before an entry with a digest is put in: one, and one for each entry of the
/// digest that is copied.
fn places_needed(long: &[Sealed], short: &[Sealed], digest: &[u8]) -> usize
    requires long { IsSorted earlier long.now }
    requires short { IsSorted earlier short.now }
    ensures { 0 < result }
{
    if !part_of(short, digest).is_empty() {
        return 1;
    }
    let count = part_of(long, digest).len();
    if are_copied(count) {
        count.saturating_add(1)
    } else {
        1
    }
}

/// Empties the short list into the long one, where it hasn't the places for an entry with a digest and the copies that it brings.
fn make_place(long: &mut Vec<Sealed>, short: &mut Vec<Sealed>, digest: &[u8])
    requires { AreTwo long.old.items short.old.items (vec_capacity long.old) }
    ensures two { AreTwo long.new.items short.new.items (vec_capacity long.new) }
    ensures same { joined long.new.items short.new.items ≡ joined long.old.items short.old.items }
    ensures place { 0 < length short.new.items → length short.new.items < vec_capacity short.new }
    ensures capacity { vec_capacity long.new ≡ vec_capacity long.old }
{
    let places = places_needed(long.as_slice(), short.as_slice(), digest);
    if places <= short.capacity().min(SHORT_MOST).saturating_sub(short.len()) {
        return;
    }
    merge(long, short);
}

/// Copies the entries of a digest into the short list, if it has none of them, they aren't too many, and there is a place for one
/// more. Whether all of them are there, and a place.
fn gather(long: &[Sealed], short: &mut Vec<Sealed>, digest: &[u8]) -> bool
    requires two { (places : ℕ) × AreTwo long.now short.old.items places }
    requires place { 0 < length short.old.items → length short.old.items < vec_capacity short.old }
    ensures two { (places : ℕ) → AreTwo long.now short.old.items places → AreTwo long.now short.new.items places }
    ensures same { joined long.now short.new.items ≡ joined long.now short.old.items }
    ensures place { result ≡ true → length short.new.items < vec_capacity short.new }
    ensures all { result ≡ true → (pid : ℕ) → is_in digest.now pid long.now ≡ true → is_in digest.now pid short.new.items ≡ true }
    ensures none { result ≡ false → (pid : ℕ) → is_in digest.now pid short.new.items ≡ false }
{
    if !part_of(short.as_slice(), digest).is_empty() {
        return true;
    }
    let part = part_of(long, digest);
    if !are_copied(part.len()) {
        return false;
    }
    if short.capacity() - short.len() <= part.len() {
        return false;
    }
    join(short, part);
    true
}

/// Puts an entry in, where there is a place for it, so that this takes no memory.
pub(crate) fn put_in(long: &mut Vec<Sealed>, short: &mut Vec<Sealed>, seal: Sealed)
    requires two { AreTwo long.old.items short.old.items (vec_capacity long.old) }
    requires room { length (joined long.old.items short.old.items) < vec_capacity long.old }
    ensures two { AreTwo long.new.items short.new.items (vec_capacity long.new) }
    ensures items { joined long.new.items short.new.items ≡ marked earlier seal true (joined long.old.items short.old.items) }
    ensures capacity { vec_capacity long.new ≡ vec_capacity long.old }
{
    if contains(long.as_slice(), &seal) {
        return;
    }
    if contains(short.as_slice(), &seal) {
        return;
    }
    make_place(long, short, seal.digest.as_slice());
    if gather(long.as_slice(), short, seal.digest.as_slice()) {
        mark(short, seal, true);
    } else {
        mark(long, seal, true);
    }
}

/// Takes an entry out, where it is there. It takes no memory.
pub(crate) fn take_out(long: &mut Vec<Sealed>, short: &mut Vec<Sealed>, seal: Sealed)
    requires { AreTwo long.old.items short.old.items (vec_capacity long.old) }
    ensures two { AreTwo long.new.items short.new.items (vec_capacity long.new) }
    ensures items { joined long.new.items short.new.items ≡ marked earlier seal false (joined long.old.items short.old.items) }
    ensures capacity { vec_capacity long.new ≡ vec_capacity long.old }
{
    mark(long, seal, false);
    mark(short, seal, false);
}
