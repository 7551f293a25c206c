//! What a snapshot's Kepts tell of the nodes that it makes.

ghost use Rattle.std.specs.Prelude.{◌≡◌, ◌<◌, ◌≤◌, true, not, length, option_map, IfOk};
ghost use Rattle.std.specs.List.{list_all};
ghost use Rattle.wc_world.specs.Accepted.{is_in_order, kepts};
ghost use Rattle.wc_world.specs.Slots.{slot_in, slots_in, is_made, made_at, kept_at, filled, AreSlotsOf};

use crate::change::Change;
use crate::snapshots::{Order, is_ended, order_after};
use std::alloc::{AllocError, Global};
use wc_records::Kept;

/// What is known of a node that a snapshot makes.
#[derive(Clone, Copy)]
pub(crate) enum Slot {
    /// It isn't a process.
    Other,
    /// It is a process, of which there was no Kept yet.
    Made,
    /// It is a process of which this is the Kept.
    Kept(Kept),
}

/// What is known of the node that a change makes, before the Kepts.
fn slot_in(change: &Change) -> Option<Slot>
    ensures { result ≡ slot_in change.now }
{
    match change {
        Change::Data(_) => Some(Slot::Other),
        Change::Process(_) => Some(Slot::Made),
        _ => None,
    }
}

/// What one walk over changes finds.
#[derive(Drop)]
struct Found {
    /// Whether they stand in the order of a snapshot.
    ordered: bool,
    /// What is known of the nodes that they make, before the Kepts.
    slots: Vec<Slot>,
    /// The Kepts, in order.
    kepts: Vec<Kept>,
}

/// Walks over changes once.
fn found_in(alloc: Global, changes: &[Change]) -> Result<Found, AllocError>
    ensures ordered { IfOk result (λ found. found.ordered ≡ is_in_order changes.now) }
    ensures slots { IfOk result (λ found. found.slots.items ≡ slots_in changes.now) }
    ensures kepts { IfOk result (λ found. found.kepts.items ≡ kepts changes.now) }
{
    let mut order = Order::Others;
    let mut slots = Vec::new(alloc);
    let mut kepts = Vec::new(alloc);
    for change in changes {
        order = order_after(order, change);
        if let Some(slot) = slot_in(change) {
            slots.push(slot)?;
        }
        if let Change::Kept(kept) = change {
            kepts.push(*kept)?;
        }
    }
    let ordered = is_ended(order);
    Ok(Found {
        ordered,
        slots,
        kepts,
    })
}

/// Whether the node of this number is a process of which there was no Kept yet.
fn is_made_at(slots: &[Slot], pid: u32) -> bool
    ensures value { result ≡ made_at pid slots.now }
    ensures within { result ≡ true → (0 < pid) × (pid ≤ length slots.now) }
{
    if pid == 0 {
        return false;
    }
    match slots.get(pid as usize - 1) {
        Some(Slot::Made) => true,
        _ => false,
    }
}

/// Whether there was a Kept of each process.
fn are_kept(slots: &[Slot]) -> bool
    ensures { result ≡ list_all (λ s. not (is_made s)) slots.now }
{
    for slot in slots {
        if matches!(slot, Slot::Made) {
            return false;
        }
    }
    true
}

/// The slots with these Kepts, if each is of another process that was made, and all of those have one.
fn filled(mut slots: Vec<Slot>, kepts: &[Kept]) -> Option<Vec<Slot>>
    ensures { option_map (λ v. v.items) result ≡ filled slots.items kepts.now }
{
    for kept in kepts {
        if !is_made_at(slots.as_slice(), kept.pid) {
            return None;
        }
        slots[kept.pid as usize - 1] = Slot::Kept(*kept);
    }
    if are_kept(slots.as_slice()) {
        Some(slots)
    } else {
        None
    }
}

/// What the Kepts tell of each node, if the changes are a snapshot's, where the world is the empty one.
pub(crate) fn snapshot_slots(
    alloc: Global,
    changes: &[Change],
) -> Result<Option<Vec<Slot>>, AllocError>
    ensures { IfOk result (λ slots. AreSlotsOf changes.now (option_map (λ v. v.items) slots)) }
{
    let Found {
        ordered,
        slots,
        kepts,
    } = found_in(alloc, changes)?;
    if !ordered {
        return Ok(None);
    }
    Ok(filled(slots, kepts.as_slice()))
}

/// The Kept of a process, if there is one.
pub(crate) fn kept_at(slots: &[Slot], pid: u32) -> Option<Kept>
    ensures { result ≡ kept_at pid slots.now }
{
    if pid == 0 {
        return None;
    }
    match slots.get(pid as usize - 1) {
        Some(Slot::Kept(kept)) => Some(*kept),
        _ => None,
    }
}
