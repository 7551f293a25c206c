//! A vector that gives way at its front too.

ghost use Rattle.std.specs.Prelude.{◌≡◌, [], ◌∷◌, ◌+◌, ◌<◌, ◌≤◌, ◌++◌, drop, length, vec_capacity, IfOk, OnOk};
ghost use Rattle.std.specs.List.{insert, remove};
ghost use Rattle.wc_records.specs.Marked.{IsSorted, marked};

use crate::order::{Ordered, is_at, place_in};
use std::alloc::{AllocError, Global};
use std::marker::Model;

/// Items in a row. The places before the first one are free, so that an item is put in and taken out on the side of the fewer
/// others. Contracts see the items, and for how many there is room.
#[derive(Drop)]
pub(crate) struct Window<T> {
    places: Vec<T>,
    begin: usize,
}

impl<T> Model for Window<T> {
    ghost use Rattle.std.specs.Prelude.{◌≤◌, drop, length, vec_capacity};
    ghost use Rattle.wc_records.specs.Window.{Held, held_code};

    ghost Value = { Held T };

    ghost coded = { held_code T.code };

    ghost view = { λ w. record { items = drop w.begin w.places.items; room = vec_capacity w.places } };

    ghost invariant = { λ w. w.begin ≤ length w.places.items };
}

/// Takes the item at a place behind the beginning out: those before it move up by one place.
fn move_up<T>(places: &mut [T], begin: usize, at: usize)
    requires { begin + at < length places.old }
    ensures len { length places.new ≡ length places.old }
    ensures items { drop (begin + 1) places.new ≡ remove (drop begin places.old) at }
{
    places[begin..begin + at + 1].rotate_right(1);
}

/// Puts an item in at a place behind the beginning, which is free: those before it move down by one place.
fn move_down<T: Copy>(places: &mut [T], begin: usize, at: usize, item: T)
    requires { begin + at < length places.old }
    ensures len { length places.new ≡ length places.old }
    ensures items { drop begin places.new ≡ insert (drop (begin + 1) places.old) at item }
{
    places[begin..begin + at + 1].rotate_left(1);
    places[begin + at] = item;
}

/// Moves the items to the front of all places.
fn close_up<T: Copy>(places: &mut Vec<T>, begin: usize)
    requires { begin ≤ length places.old.items }
    ensures items { places.new.items ≡ drop begin places.old.items }
    ensures capacity { vec_capacity places.new ≡ vec_capacity places.old }
{
    let count = places.len() - begin;
    places.copy_within(begin.., 0);
    places.truncate(count);
}

/// Where no place is free behind the items, moves them to the front. Tells where they begin.
fn free_end<T: Copy>(places: &mut Vec<T>, begin: usize) -> usize
    requires within { begin ≤ length places.old.items }
    requires room { length places.old.items < vec_capacity places.old + begin }
    ensures items { drop result places.new.items ≡ drop begin places.old.items }
    ensures within { result ≤ length places.new.items }
    ensures room { length places.new.items < vec_capacity places.new }
    ensures capacity { vec_capacity places.new ≡ vec_capacity places.old }
{
    if places.len() < places.capacity() {
        return begin;
    }
    close_up(places, begin);
    0
}

/// Puts an item in at a place behind the beginning: those from it on move up by one place. Tells where the items begin.
fn put_behind<T: Copy>(places: &mut Vec<T>, begin: usize, at: usize, item: T) -> usize
    requires within { begin + at ≤ length places.old.items }
    requires room { length places.old.items < vec_capacity places.old + begin }
    ensures items { drop result places.new.items ≡ insert (drop begin places.old.items) at item }
    ensures within { result ≤ length places.new.items }
    ensures capacity { vec_capacity places.new ≡ vec_capacity places.old }
{
    let from = free_end(places, begin);
    let _in_room = places.insert(from + at, item);
    from
}

impl<T: Copy> Window<T> {
    /// No items, which take no memory.
    pub(crate) fn new(alloc: Global) -> Window<T>
        ensures { result.items ≡ [] }
    {
        Window {
            places: Vec::new(alloc),
            begin: 0,
        }
    }

    /// The same items with memory of their own, with room for so many.
    pub(crate) fn copy(&self, alloc: Global, count: usize) -> Result<Window<T>, AllocError>
        ensures items { IfOk result (λ copy. copy.items ≡ self.now.items) }
        ensures room { IfOk result (λ copy. count ≤ copy.room) }
    {
        let mut places = Vec::with_capacity(alloc, count)?;
        places.extend_from_slice(self.as_slice())?;
        Ok(Window { places, begin: 0 })
    }

    /// The items as a slice.
    pub(crate) fn as_slice(&self) -> &[T]
        ensures { result.now ≡ self.now.items }
    {
        &self.places[self.begin..]
    }

    /// The number of items.
    pub(crate) fn len(&self) -> usize
        ensures { result ≡ length self.now.items }
    {
        self.places.len() - self.begin
    }

    /// Makes room for so many items.
    pub(crate) fn reserve(&mut self, count: usize) -> Result<(), AllocError>
        requires { length self.old.items ≤ count }
        ensures items { self.new.items ≡ self.old.items }
        ensures room { OnOk result (count ≤ self.new.room) }
        ensures kept { self.old.room ≤ self.new.room }
    {
        if count <= self.places.capacity() {
            return Ok(());
        }
        close_up(&mut self.places, self.begin);
        self.begin = 0;
        self.places.reserve(count - self.places.len())
    }

    /// Puts an item in at a place, on the side of the fewer others where it has room there.
    fn put(&mut self, at: usize, item: T)
        requires within { at ≤ length self.old.items }
        requires room { length self.old.items < self.old.room }
        ensures items { self.new.items ≡ insert self.old.items at item }
        ensures room { self.new.room ≡ self.old.room }
    {
        if self.begin > 0 && at < self.len() - at {
            self.begin -= 1;
            move_down(self.places.as_mut_slice(), self.begin, at, item);
        } else {
            self.begin = put_behind(&mut self.places, self.begin, at, item);
        }
    }

    /// Takes the item at a place out, on the side of the fewer others.
    fn take_out(&mut self, at: usize)
        requires { at < length self.old.items }
        ensures items { self.new.items ≡ remove self.old.items at }
        ensures room { self.new.room ≡ self.old.room }
    {
        if at < self.len() - at {
            move_up(self.places.as_mut_slice(), self.begin, at);
            self.begin += 1;
        } else {
            self.places.remove(self.begin + at);
        }
    }

    /// Puts an item at the end, where there is room for it.
    pub(crate) fn push(&mut self, item: T)
        requires { length self.old.items < self.old.room }
        ensures items { self.new.items ≡ self.old.items ++ item ∷ [] }
        ensures room { self.new.room ≡ self.old.room }
    {
        self.put(self.len(), item);
    }
}

impl<T: Ordered> Window<T> {
    /// Puts an item in, where it is wanted, and else takes it out. There is room for it, so that this takes no memory.
    pub(crate) fn mark(&mut self, item: T, wanted: bool)
        requires order { IsSorted T.before self.old.items }
        requires room { length (marked T.before item wanted self.old.items) ≤ self.old.room }
        ensures items { self.new.items ≡ marked T.before item wanted self.old.items }
        ensures room { self.new.room ≡ self.old.room }
    {
        let at = place_in(self.as_slice(), item);
        if is_at(self.as_slice(), at, item) == wanted {
            return;
        }
        if wanted {
            self.put(at, item);
        } else {
            self.take_out(at);
        }
    }
}
