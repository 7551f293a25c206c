//! The entries of calculations that have finished.

ghost use Rattle.std.specs.Prelude.{◌≡◌, [], ℕ, List, ◌<◌, ◌≤◌, true, false, length, vec_capacity, OnOk};
ghost use Rattle.std.specs.Str.{bytes_eq};
ghost use Rattle.wc_records.specs.Marked.{IsSorted, marked};
ghost use Rattle.wc_value.specs.Ascending.{before};
ghost use Rattle.wc_keys.specs.Order.{earlier, is_in, with_digest, NumbersAscend, IsDigestPlace, IsDigestRun};

use crate::entries::Sealed;
use crate::lists::{SHORT_MOST, put_in, take_out};
use std::alloc::{AllocError, Global};
use std::marker::Model;

/// Digests in order, each with the number of a calculation. Contracts see the entries, and for how many there are places.
/// Most stand in one list. Those that came last stand in a short one, so that little is moved where one is put in. A digest that
/// has an entry there has all of them there, the older ones as copies: what a digest has is lent as one slice, of the short list
/// if it is in there. Those of a digest that has very many stay in the long one.
#[derive(Drop)]
pub struct Seals {
    long: Vec<Sealed>,
    short: Vec<Sealed>,
}

impl Model for Seals {
    ghost use Rattle.std.specs.Prelude.{ℕ, List, vec_capacity};
    ghost use Rattle.wc_keys.specs.declared.entries.Sealed.{Sealed};
    ghost use Rattle.wc_keys.specs.Order.{joined, AreTwo};

    ghost Value = { List Sealed × ℕ };

    ghost view = { λ a. (joined a.long.items a.short.items, vec_capacity a.long) };

    ghost invariant = { λ a. AreTwo a.long.items a.short.items (vec_capacity a.long) };
}

/// Whether the digest of an entry comes before another.
fn is_lower(seal: &Sealed, digest: &[u8]) -> bool
    ensures { result ≡ before seal.now.digest digest.now }
{
    seal.digest.as_slice().cmp(&digest).is_lt()
}

/// Whether an entry has a digest.
fn is_of(seal: &Sealed, digest: &[u8]) -> bool
    ensures { result ≡ bytes_eq seal.now.digest digest.now }
{
    seal.digest.as_slice() == digest
}

/// How many entries have a digest that comes before this one.
fn place_of(seals: &[Sealed], digest: &[u8]) -> usize
    requires { IsSorted earlier seals.now }
    ensures { IsDigestPlace digest.now seals.now result }
{
    seals.partition_point(|seal| is_lower(seal, digest))
}

/// How many entries have a digest, where those that have it come first.
fn run_of(seals: &[Sealed], digest: &[u8]) -> usize
    requires order { IsSorted earlier seals.now }
    requires first { IsDigestPlace digest.now seals.now 0 }
    ensures { IsDigestRun digest.now seals.now result }
{
    seals.partition_point(|seal| is_of(seal, digest))
}

/// The entries with a digest.
pub(crate) fn part_of<'a>(seals: &'a [Sealed], digest: &[u8]) -> &'a [Sealed]
    requires { IsSorted earlier seals.now }
    ensures { result.now ≡ with_digest digest.now seals.now }
{
    let rest = &seals[place_of(seals, digest)..];
    &rest[..run_of(rest, digest)]
}

impl Seals {
    /// No entries, which take no memory.
    pub fn new(alloc: Global) -> Seals
        ensures { result.0 ≡ [] }
    {
        Seals {
            long: Vec::new(alloc),
            short: Vec::new(alloc),
        }
    }

    /// These entries in order. They are put in order in place, which takes no memory.
    pub fn of(mut items: Vec<Sealed>) -> Seals
        // Their numbers ascend, so none stands there twice.
        requires { NumbersAscend items.items }
        ensures entries { (digest : List ℕ) (pid : ℕ) → is_in digest pid result.0 ≡ is_in digest pid items.items }
        ensures order { IsSorted earlier result.0 }
        ensures count { length result.0 ≡ length items.items }
        ensures places { result.1 ≡ vec_capacity items }
    {
        items.sort_unstable();
        let short = Vec::new(*items.allocator());
        Seals { long: items, short }
    }

    /// The entries with a digest, in order of their numbers. It takes no memory.
    pub fn part(&self, digest: &[u8]) -> &[Sealed]
        // The entries with the digest, and no others.
        ensures part { result.now ≡ with_digest digest.now self.now.0 }
        // All entries stand in order.
        ensures order { IsSorted earlier self.now.0 }
    {
        let short = part_of(self.short.as_slice(), digest);
        if short.is_empty() {
            part_of(self.long.as_slice(), digest)
        } else {
            short
        }
    }

    /// Puts an entry in, where there is a place for it, so that this takes no memory.
    pub fn put(&mut self, seal: Sealed)
        requires { length self.old.0 < self.old.1 }
        ensures { self.new ≡ (marked earlier seal true self.old.0, self.old.1) }
    {
        put_in(&mut self.long, &mut self.short, seal);
    }

    /// Takes an entry out, where it is there. It takes no memory.
    pub fn take(&mut self, seal: Sealed)
        ensures { self.new ≡ (marked earlier seal false self.old.0, self.old.1) }
    {
        take_out(&mut self.long, &mut self.short, seal);
    }

    /// Makes places for so many entries in all, and those of the short list.
    pub fn reserve(&mut self, count: usize) -> Result<(), AllocError>
        ensures same { self.new.0 ≡ self.old.0 }
        ensures places { OnOk result (count ≤ self.new.1) }
        ensures kept { self.old.1 ≤ self.new.1 }
    {
        self.short
            .reserve(SHORT_MOST.saturating_sub(self.short.len()))?;
        if count > self.long.len() {
            self.long.reserve(count - self.long.len())?;
        }
        Ok(())
    }
}
