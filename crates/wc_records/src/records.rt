//! The records of a world's processes.

ghost use Rattle.std.specs.Prelude.{◌≡◌, [], ◌∷◌, ◌++◌, ◌-◌, ◌==◌, ◌<◌, ◌≤◌, true, false, length, slice_get, All, OnOk, OnErr, IfOk};
ghost use Rattle.std.specs.Option.{option_copied};
ghost use Rattle.wc_records.specs.Records.{find_record, at_process, has_ended};
ghost use Rattle.wc_records.specs.Changes.{made, set, keep};
ghost use Rattle.wc_records.specs.Readiness.{ended_at, ready_at, AreDues, live_in, IsAwaitedBy};
ghost use Rattle.wc_records.specs.Ready.{is_ready_at, first_above};

use crate::change::{Kept, NewProcess, SetProcess};
use crate::in_place;
use crate::index::{Index, set_at};
use crate::places::{find, is_numbered, place_of};
use crate::processes::make;
use crate::ready::{due_by, is_ready_at, joined};
use crate::rounds::{first_above, first_with};
use std::alloc::{AllocError, Global};
use std::marker::Model;
use wc_state::ProcessRecord;
use wc_value::Duplicate;

/// Records in ascending order of the processes' numbers, and which of these are ready. Contracts see the list, and how
/// many further records take no memory.
#[derive(Drop)]
pub struct Records {
    items: Vec<ProcessRecord>,
    index: Index,
    room: usize,
}

impl Model for Records {
    ghost use Rattle.std.specs.Prelude.{ℕ, ◌+◌, ◌≤◌, List, length, vec_capacity};
    ghost use Rattle.wc_state.specs.declared.record.ProcessRecord.{ProcessRecord};
    ghost use Rattle.wc_records.specs.Ascending.{AreAscending};
    ghost use Rattle.wc_records.specs.Index.{IsIndexOf, HasPlaces};

    ghost Value = { List ProcessRecord × ℕ };

    ghost use Rattle.std.specs.Coded.{codes};
    ghost use Rattle.wc_value.specs.contracts.value.Value as value;

    ghost coded = { Prim.hlevel (codes, value.the_row.coded) };

    ghost view = { λ a. (a.items.items, a.room) };

    ghost invariant = { λ a. AreAscending 0 a.items.items × IsIndexOf a.items.items a.index
        × (length a.items.items + a.room ≤ vec_capacity a.items) × HasPlaces (length a.items.items + a.room) a.index };
}

impl Records {
    /// No records, which take no memory.
    pub fn new(alloc: Global) -> Records
        ensures { result.0 ≡ [] }
    {
        Records {
            items: Vec::new(alloc),
            index: Index::new(alloc),
            room: 0,
        }
    }

    /// Equal records with memory of their own.
    pub fn copy(&self, alloc: Global) -> Result<Records, AllocError>
        ensures { IfOk result (λ copy. copy.0 ≡ self.now.0) }
    {
        let items = copy_items(alloc, self.items.as_slice())?;
        let index = self.index.copy(alloc, items.len())?;
        Ok(Records {
            items,
            index,
            room: 0,
        })
    }

    /// The records as a slice.
    pub fn as_slice(&self) -> &[ProcessRecord]
        ensures { result.now ≡ self.now.0 }
    {
        self.items.as_slice()
    }

    /// The number of records.
    pub fn len(&self) -> usize
        ensures { result ≡ length self.now.0 }
    {
        self.items.len()
    }

    /// The record at a place, counted from 0.
    pub fn get(&self, at: usize) -> Option<&ProcessRecord>
        ensures { option_copied result ≡ slice_get self.now.0 at }
    {
        self.items.get(at)
    }

    /// The record of the process with this number, if there is one.
    pub fn find(&self, pid: u32) -> Option<&ProcessRecord>
        ensures { option_copied result ≡ find_record pid self.now.0 }
    {
        find(self.items.as_slice(), pid)
    }

    /// The numbers of the processes that are ready at moment 0, and so at every moment, ascending. It takes no memory.
    pub fn ready_at_once(&self) -> &[u32]
        ensures { result.now ≡ ready_at self.now.0 0 }
    {
        self.index.at_once.as_slice()
    }

    /// The due moments of the jobs that wait for a later one and aren't paused, in order, each with the job's number. It
    /// takes no memory.
    pub fn ready_later(&self) -> &[(u64, u32)]
        ensures { AreDues self.now.0 result.now }
    {
        self.index.later.as_slice()
    }

    /// Whether the process with this number is there and is ready at a moment. It takes no memory.
    pub fn is_ready(&self, pid: u32, now: u64) -> bool
        ensures { result ≡ is_ready_at self.now.0 pid now }
    {
        is_ready_at(
            self.items.as_slice(),
            self.index.passed.as_slice(),
            pid,
            now,
        )
    }

    /// The numbers of the processes that are ready at a moment, ascending.
    pub fn ready(&self, alloc: Global, now: u64) -> Result<Vec<u32>, AllocError>
        ensures { IfOk result (λ ids. ids.items ≡ ready_at self.now.0 now) }
    {
        let due = due_by(self.index.later.as_slice(), now);
        joined(alloc, self.index.at_once.as_slice(), due)
    }

    /// The first number above the last one of the processes that are ready at a moment, else the first of all, and none where
    /// none is ready. It takes no memory.
    pub fn next_ready(&self, last: u32, now: u64) -> Option<u32>
        ensures { result ≡ first_above last (ready_at self.now.0 now) }
    {
        let due = due_by(self.index.later.as_slice(), now);
        first_with(last, first_above(self.index.at_once.as_slice(), last), due)
    }

    /// How many processes haven't ended.
    pub fn live(&self) -> usize
        ensures { result ≡ live_in self.now.0 }
    {
        self.index.live
    }

    /// Makes room for so many further records.
    pub fn reserve(&mut self, more: usize) -> Result<(), AllocError>
        ensures same { self.new.0 ≡ self.old.0 }
        ensures room { OnOk result (more ≤ self.new.1) }
        ensures kept { self.old.1 ≤ self.new.1 }
        ensures err { OnErr result (self.new ≡ self.old) }
    {
        self.items.reserve(more)?;
        self.index.reserve(self.items.len() + more)?;
        if self.room < more {
            self.room = more;
        }
        Ok(())
    }

    /// Puts the record of a new process of a greater number at the end, where there is room for it.
    pub fn push(&mut self, number: u32, process: NewProcess)
        requires room { 0 < self.old.1 }
        requires number { 0 < number }
        requires above { All (λ r. r.node < number) self.old.0 }
        ensures { self.new ≡ (self.old.0 ++ made number process ∷ [], self.old.1 - 1) }
    {
        self.items.push_reserved(make(number, process));
        self.index.push(number);
        self.room -= 1;
    }

    /// Sets what the process with a number is from now on, in the batch of this number. A process that has ended isn't set,
    /// and where one ends, its caller is told, which alone may await it. It takes no memory.
    pub fn set(&mut self, batch: u32, change: SetProcess, caller: Option<u32>)
        requires live { ended_at self.old.0 change.pid ≡ false }
        requires awaited { has_ended change.state ≡ true → IsAwaitedBy caller change.pid self.old.0 }
        ensures { self.new ≡ (at_process change.pid (set batch change) self.old.0, self.old.1) }
    {
        let at = place_of(self.items.as_slice(), change.pid);
        if is_numbered(self.items.as_slice(), at, change.pid) {
            set_at(&mut self.items, &mut self.index, at, batch, change, caller);
        }
    }

    /// Keeps when the process with a number started and ended. It takes no memory.
    pub fn keep(&mut self, change: Kept)
        ensures { self.new ≡ (at_process change.pid (keep change) self.old.0, self.old.1) }
    {
        let at = place_of(self.items.as_slice(), change.pid);
        if is_numbered(self.items.as_slice(), at, change.pid) {
            in_place::keep(&mut self.items[at], change);
        }
    }
}

/// Equal records with memory of their own.
fn copy_items(alloc: Global, records: &[ProcessRecord]) -> Result<Vec<ProcessRecord>, AllocError>
    ensures { IfOk result (λ copy. copy.items ≡ records.now) }
{
    let mut items = Vec::new(alloc);
    items.reserve(records.len())?;
    for item in records {
        items.push(item.copy()?)?;
    }
    Ok(items)
}
