//! Changes from their bytes.

ghost use Rattle.std.specs.Prelude.{◌≡◌, ◌≤◌, length, List, Ok, IfOk};
ghost use Rattle.wc_world.specs.declared.change.Change.{Change as Changed};
ghost use Rattle.wc_record.specs.Spelled.{spelled};
ghost use Rattle.wc_record.specs.Written.{IsWritten};
ghost use Rattle.wc_record.specs.Reading.{library_change, one_change, counted_changes, whole, Told, Meets};

use crate::error::RecordError;
use crate::fields::other_change_at;
use crate::library::{SharedLibraries, library_at, names_at};
use crate::pieces::u32_at;
use std::alloc::Global;
use wc_world::{Change, Changes};

/// The tag of a library.
const LIBRARY: u8 = 1;

/// A library behind its tag.
fn library_change_at(
    alloc: Global,
    bytes: &[u8],
    at: usize,
    read: &mut SharedLibraries,
) -> Result<(Change, usize), RecordError>
    requires { at ≤ length bytes.now }
    ensures answer { Told result (library_change bytes.now at) }
    ensures within { IfOk result (λ x. x.1 ≤ length bytes.now) }
{
    let (library, place) = library_at(alloc, bytes, at, read)?;
    let (names, next) = names_at(alloc, bytes, place)?;
    Ok((Change::Library(library, names), next))
}

/// The change at a byte, and where the next one begins; a library with the text of the last one is shared with it.
fn change_at(
    alloc: Global,
    bytes: &[u8],
    at: usize,
    read: &mut SharedLibraries,
) -> Result<(Change, usize), RecordError>
    requires { at ≤ length bytes.now }
    ensures answer { Told result (one_change bytes.now at) }
    ensures within { IfOk result (λ x. x.1 ≤ length bytes.now) }
{
    if at < bytes.len() && bytes[at] == LIBRARY {
        return library_change_at(alloc, bytes, at + 1, read);
    }
    other_change_at(alloc, bytes, at)
}

/// A count, and that many changes. No memory is taken for the count.
fn changes_at(
    alloc: Global,
    bytes: &[u8],
    read: &mut SharedLibraries,
) -> Result<(Changes, usize), RecordError>
    ensures answer { Told result (counted_changes bytes.now 0) }
    ensures within { IfOk result (λ x. x.1 ≤ length bytes.now) }
{
    let (count, start) = u32_at(bytes, 0)?;
    let mut changes = Changes::new(alloc);
    let mut place = start;
    for _item in 0..count {
        let (change, next) = change_at(alloc, bytes, place, read)?;
        changes.push(change)?;
        place = next;
    }
    Ok((changes, place))
}

/// The changes that all of the bytes are read as.
fn changes_of_all(
    alloc: Global,
    bytes: &[u8],
    read: &mut SharedLibraries,
) -> Result<Changes, RecordError>
    ensures { Told result (whole bytes.now) }
{
    let (changes, next) = changes_at(alloc, bytes, read)?;
    if next < bytes.len() {
        return Err(RecordError::Trailing(next));
    }
    Ok(changes)
}

/// The changes that these bytes spell, or the first refusal that reading from the left meets. No memory is taken for
/// lengths and counts that the bytes don't hold. A library whose text was read before is shared with
/// that one.
pub fn read_changes(
    alloc: Global,
    bytes: &[u8],
    read: &mut SharedLibraries,
) -> Result<Changes, RecordError>
    // What is answered is what reading gives.
    ensures told { Told result (whole bytes.now) }
    // What is read is spelled so.
    ensures found { IfOk result (λ changes. (bytes.now ≡ spelled changes) × IsWritten changes) }
    // What is spelled so is read, unless memory runs out.
    ensures only { (changes : List Changed) → bytes.now ≡ spelled changes → IsWritten changes → Meets result (Ok changes) }
{
    changes_of_all(alloc, bytes, read)
}
