//! Numbers of nodes in order, and sets of them.

ghost use Rattle.std.specs.Prelude.{◌≡◌, ◌&&◌, ◌<◌, ◌^◌, ℕ, true, false, length, IfOk, slice_index_or};
ghost use Rattle.wc_matches.specs.Found.{has};
ghost use Rattle.wc_matches.specs.Numbers.{Ascends, AreNumbers};

use std::alloc::{AllocError, Global};

/// Whether a place is marked.
pub(crate) fn is_at(set: &[bool], place: usize) -> bool
    ensures { result ≡ slice_index_or set.now place false }
{
    place < set.len() && set[place]
}

/// Whether a number is marked.
pub(crate) fn is_marked(set: &[bool], node: u32) -> bool
    ensures { result ≡ slice_index_or set.now node false }
{
    is_at(set, node as usize)
}

/// The numbers that are marked, in order.
pub(crate) fn numbers(alloc: Global, set: &[bool]) -> Result<Vec<u32>, AllocError>
    requires { length set.now < 2 ^ 32 }
    ensures { IfOk result (λ ids. AreNumbers (λ m. slice_index_or set.now m false ≡ true) ids.items) }
{
    let mut ids = Vec::new(alloc);
    for place in 0..set.len() {
        if set[place] {
            ids.push(place as u32)?;
        }
    }
    Ok(ids)
}

/// Those of some numbers that are marked.
pub(crate) fn marked_of(alloc: Global, found: &[u32], set: &[bool]) -> Result<Vec<u32>, AllocError>
    ensures { IfOk result (λ kept. (m : ℕ) → has kept.items m ≡ (has found.now m && slice_index_or set.now m false)) }
{
    let mut kept = Vec::new(alloc);
    for node in found {
        if is_marked(set, *node) {
            kept.push(*node)?;
        }
    }
    Ok(kept)
}

/// Puts numbers in order, each once.
pub(crate) fn put_in_order(ids: &mut Vec<u32>)
    ensures ascend { Ascends ids.new.items }
    ensures same { (m : ℕ) → has ids.new.items m ≡ has ids.old.items m }
{
    ids.sort_unstable();
    ids.dedup();
}
