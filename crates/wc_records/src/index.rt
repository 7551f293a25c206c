//! Which processes are ready, and what is counted for that.

ghost use Rattle.std.specs.Prelude.{◌≡◌, ℕ, ◌<◌, ◌≤◌, ◌+◌, ◌++◌, ◌∷◌, [], true, false, length, map, nat_lt, slice_get, slice_set, vec_capacity, IfOk, OnOk};
ghost use Rattle.wc_records.specs.Records.{at_process, has_ended};
ghost use Rattle.wc_records.specs.Changes.{set};
ghost use Rattle.wc_records.specs.Ascending.{AreAscending, is_numbered};
ghost use Rattle.wc_records.specs.Readiness.{is_over, is_ready, ready_at, sooner, IsAwaitedBy};
ghost use Rattle.wc_records.specs.Marked.{IsSorted, marked};
ghost use Rattle.wc_records.specs.Index.{passed_by, IsIndexOf, AreCounted, AreNotAbove, is_other, without_due, with_due, HasPlaces};

use crate::awaits::passed_by;
use crate::change::SetProcess;
use crate::in_place;
use crate::places::{is_numbered, place_of};
use crate::processes::has_ended;
use crate::readiness::{due_of, is_ready_past, waits_later};
use crate::window::Window;
use std::alloc::{AllocError, Global};
use wc_state::ProcessRecord;

/// What tells of records, without a look at each, which processes are ready.
#[derive(Drop)]
pub(crate) struct Index {
    /// Of each record, how many of the processes that it awaits have ended, from the first one on.
    pub passed: Vec<usize>,
    /// The numbers of the processes that are ready at moment 0, ascending.
    pub at_once: Window<u32>,
    /// The due moments of the jobs that wait for a later one, in order, each with the job's number.
    pub later: Window<(u64, u32)>,
    /// How many processes haven't ended.
    pub live: usize,
}

/// Takes the due moment of a process out.
fn take_due(later: &mut Window<(u64, u32)>, process: &ProcessRecord)
    requires order { IsSorted sooner later.old.items }
    requires room { length (without_due process.now later.old.items) ≤ later.old.room }
    ensures items { later.new.items ≡ without_due process.now later.old.items }
    ensures room { later.new.room ≡ later.old.room }
{
    if waits_later(process) {
        later.mark((due_of(&process.part), process.node), false);
    }
}

/// Puts the due moment of a process in.
fn put_due(later: &mut Window<(u64, u32)>, process: &ProcessRecord)
    requires order { IsSorted sooner later.old.items }
    requires room { length (with_due process.now later.old.items) ≤ later.old.room }
    ensures items { later.new.items ≡ with_due process.now later.old.items }
    ensures room { later.new.room ≡ later.old.room }
{
    if waits_later(process) {
        later.mark((due_of(&process.part), process.node), true);
    }
}

/// Counts how many of the processes that a process awaits have ended, where so many are known to have, and marks whether
/// it is ready.
fn recount(
    passed: &mut Vec<usize>,
    at_once: &mut Window<u32>,
    records: &[ProcessRecord],
    at: usize,
    process: &ProcessRecord,
    known: usize,
)
    requires within { at < length passed.old.items }
    requires ascending { AreAscending 0 records.now }
    requires known { known ≤ passed_by records.now process.now }
    requires order { IsSorted nat_lt at_once.old.items }
    requires room { length (marked nat_lt process.now.node (is_ready records.now 0 process.now) at_once.old.items) ≤ at_once.old.room }
    ensures passed { passed.new.items ≡ slice_set passed.old.items at (passed_by records.now process.now) }
    ensures at_once { at_once.new.items ≡ marked nat_lt process.now.node (is_ready records.now 0 process.now) at_once.old.items }
    ensures capacity { vec_capacity passed.new ≡ vec_capacity passed.old }
    ensures room { at_once.new.room ≡ at_once.old.room }
{
    let count = passed_by(records, &process.part, known);
    passed[at] = count;
    at_once.mark(process.node, is_ready_past(count, 0, process));
}

/// Counts anew for the caller of a process that has ended, if there is one.
fn tell_caller(
    passed: &mut Vec<usize>,
    at_once: &mut Window<u32>,
    records: &[ProcessRecord],
    caller: Option<u32>,
)
    requires ascending { AreAscending 0 records.now }
    requires counted { AreCounted (is_other caller) records.now passed.old.items at_once.old.items }
    requires known { AreNotAbove records.now passed.old.items }
    requires room { length records.now ≤ at_once.old.room }
    ensures passed { passed.new.items ≡ map (passed_by records.now) records.now }
    ensures at_once { at_once.new.items ≡ ready_at records.now 0 }
    ensures capacity { vec_capacity passed.new ≡ vec_capacity passed.old }
    ensures room { at_once.new.room ≡ at_once.old.room }
{
    match caller {
        None => {}
        Some(pid) => {
            let at = place_of(records, pid);
            if is_numbered(records, at, pid) {
                let known = passed[at];
                recount(passed, at_once, records, at, &records[at], known);
            }
        }
    }
}

/// Sets what the process at a place is from now on, in the batch of this number.
pub(crate) fn set_at(
    items: &mut Vec<ProcessRecord>,
    index: &mut Index,
    at: usize,
    batch: u32,
    change: SetProcess,
    caller: Option<u32>,
)
    requires number { is_numbered change.pid (slice_get items.old.items at) ≡ true }
    requires ascending { AreAscending 0 items.old.items }
    requires index { IsIndexOf items.old.items index.old }
    requires room { HasPlaces (length items.old.items) index.old }
    requires live { is_over (slice_get items.old.items at) ≡ false }
    requires awaited { has_ended change.state ≡ true → IsAwaitedBy caller change.pid items.old.items }
    ensures items { items.new.items ≡ at_process change.pid (set batch change) items.old.items }
    ensures index { IsIndexOf items.new.items index.new }
    ensures capacity { vec_capacity items.new ≡ vec_capacity items.old }
    ensures room { (n : ℕ) → HasPlaces n index.old → HasPlaces n index.new }
{
    let ends = has_ended(change.state);
    take_due(&mut index.later, &items[at]);
    in_place::set(&mut items[at], batch, change);
    put_due(&mut index.later, &items[at]);
    recount(
        &mut index.passed,
        &mut index.at_once,
        items.as_slice(),
        at,
        &items[at],
        0,
    );
    if ends {
        index.live -= 1;
        tell_caller(
            &mut index.passed,
            &mut index.at_once,
            items.as_slice(),
            caller,
        );
    }
}

impl Index {
    /// The index of no records, which takes no memory.
    pub(crate) fn new(alloc: Global) -> Index
        ensures { IsIndexOf [] result }
    {
        Index {
            passed: Vec::new(alloc),
            at_once: Window::new(alloc),
            later: Window::new(alloc),
            live: 0,
        }
    }

    /// An equal index with memory of its own, with room for the entries of so many records.
    pub(crate) fn copy(&self, alloc: Global, count: usize) -> Result<Index, AllocError>
        ensures passed { IfOk result (λ copy. copy.passed.items ≡ self.now.passed.items) }
        ensures at_once { IfOk result (λ copy. copy.at_once.items ≡ self.now.at_once.items) }
        ensures later { IfOk result (λ copy. copy.later.items ≡ self.now.later.items) }
        ensures live { IfOk result (λ copy. copy.live ≡ self.now.live) }
        ensures room { IfOk result (HasPlaces count) }
    {
        let mut passed = Vec::with_capacity(alloc, count)?;
        passed.extend_from_slice(self.passed.as_slice())?;
        Ok(Index {
            passed,
            at_once: self.at_once.copy(alloc, count)?,
            later: self.later.copy(alloc, count)?,
            live: self.live,
        })
    }

    /// Makes room for the entries of so many records.
    pub(crate) fn reserve(&mut self, count: usize) -> Result<(), AllocError>
        requires passed { length self.old.passed.items ≤ count }
        requires at_once { length self.old.at_once.items ≤ count }
        requires later { length self.old.later.items ≤ count }
        ensures passed { self.new.passed.items ≡ self.old.passed.items }
        ensures at_once { self.new.at_once.items ≡ self.old.at_once.items }
        ensures later { self.new.later.items ≡ self.old.later.items }
        ensures live { self.new.live ≡ self.old.live }
        ensures room { OnOk result (HasPlaces count self.new) }
        ensures kept { (n : ℕ) → HasPlaces n self.old → HasPlaces n self.new }
    {
        self.passed.reserve(count - self.passed.len())?;
        self.at_once.reserve(count)?;
        self.later.reserve(count)
    }

    /// Takes up a new process, which is ready and awaits nothing, with a number above all others.
    pub(crate) fn push(&mut self, number: u32)
        requires room { HasPlaces (length self.old.passed.items + 1) self.old }
        requires at_once { length self.old.at_once.items ≤ length self.old.passed.items }
        requires live { self.old.live ≤ length self.old.passed.items }
        ensures passed { self.new.passed.items ≡ self.old.passed.items ++ 0 ∷ [] }
        ensures at_once { self.new.at_once.items ≡ self.old.at_once.items ++ number ∷ [] }
        ensures later { self.new.later ≡ self.old.later }
        ensures live { self.new.live ≡ self.old.live + 1 }
        ensures kept { (n : ℕ) → HasPlaces n self.old → HasPlaces n self.new }
    {
        self.passed.push_reserved(0);
        self.at_once.push(number);
        self.live += 1;
    }
}
