//! Changes and snapshots as bytes.

use crate::parts::Parts;
use crate::told::Told;
use std::alloc::Global;
use wc_record::{RecordError, SharedLibraries, read_changes, write_changes, write_snapshot};
use wc_value::{Bytes, let_go};
use wc_world::{Changes, World};

/// The changes that bytes spell. This says nothing of the call, so that no row carries what it promises.
pub fn changes_of(alloc: Global, bytes: &[u8]) -> Result<Changes, RecordError> {
    read_changes(alloc, bytes, &mut SharedLibraries::new(alloc))
}

/// The changes that bytes spell, as bytes again.
#[tactic(auto, using(crate::proofs::Writables::written_is_writable))]
fn written_back(alloc: Global, bytes: &[u8]) -> Result<Bytes, RecordError> {
    let changes = read_changes(alloc, bytes, &mut SharedLibraries::new(alloc))?;
    let written = write_changes(alloc, &changes);
    let_go(changes);
    Ok(written?)
}

/// Tells whether bytes spell changes that are written so, or why they spell none.
pub fn put_read(alloc: Global, bytes: &[u8], told: &mut Told) {
    match written_back(alloc, bytes) {
        Ok(written) => {
            let is_same = written.bytes() == bytes;
            told.put(if is_same {
                "read\n"
            } else {
                "written otherwise\n"
            });
        }
        Err(error) => told.put_line(&error),
    }
}

/// The bytes with another one at a place.
fn with_byte(alloc: Global, bytes: &[u8], at: usize, byte: u8) -> Parts {
    let mut changed = Parts::new(alloc);
    for (place, old) in bytes.iter().enumerate() {
        changed.put(&[if place == at { byte } else { *old }]);
    }
    changed
}

/// Tells the same of the bytes with another one at a place.
pub fn read_changed(alloc: Global, bytes: &[u8], rest: &str, told: &mut Told) {
    let (place, byte) = rest.split_once(' ').unwrap_or(("", ""));
    match (place.parse(), byte.parse()) {
        (Ok(at), Ok(byte)) => {
            let mut changed = with_byte(alloc, bytes, at, byte);
            if changed.is_right(told) {
                put_read(alloc, changed.bytes(), told);
            }
        }
        _ => told.refuse(),
    }
}

/// Tells whether bytes are these, or these in hexadecimal digits.
fn put_same(alloc: Global, snapshot: &[u8], bytes: &[u8], told: &mut Told) {
    if snapshot == bytes {
        told.put("same\n");
        return;
    }
    match hex::encode(alloc, snapshot) {
        Ok(digits) => told.put_line(&digits),
        Err(_) => told.lose(),
    }
}

/// Tells whether bytes are the snapshot of a world, or which bytes its snapshot has.
pub fn put_snapshot(alloc: Global, world: &World, bytes: &[u8], told: &mut Told) {
    match write_snapshot(alloc, world) {
        Ok(snapshot) => put_same(alloc, snapshot.bytes(), bytes, told),
        Err(_) => told.lose(),
    }
}
