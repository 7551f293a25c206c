//! Copies of a world and of changes.

ghost use Rattle.std.specs.Prelude.{◌≡◌, IfOk};

use crate::change::{Change, Changes};
use crate::played::Played;
use crate::world::{Libraries, World};
use std::alloc::{AllocError, Global};
use wc_value::{Duplicate, both};

/// A copy of a change.
fn copy_change(change: &Change) -> Result<Change, AllocError>
    ensures { IfOk result (λ copy. copy ≡ change.now) }
{
    match change {
        Change::Library(library, names) => Ok(Change::Library(library.clone()?, names.copy()?)),
        Change::Data(value) => Ok(Change::Data(value.copy()?)),
        Change::Process(process) => Ok(Change::Process(process.copy()?)),
        Change::Link(link) => Ok(Change::Link(link.copy()?)),
        Change::Set(set) => Ok(Change::Set(set.copy()?)),
        Change::Count(count) => Ok(Change::Count(*count)),
        Change::Kept(kept) => Ok(Change::Kept(*kept)),
    }
}

/// A copy of changes.
pub(crate) fn copy_changes(alloc: Global, changes: &Changes) -> Result<Changes, AllocError>
    ensures { IfOk result (λ copy. copy ≡ changes.now) }
{
    let mut copies = Changes::new(alloc);
    for change in changes.as_slice() {
        copies.push(copy_change(change)?)?;
    }
    Ok(copies)
}

fn copy_libraries(alloc: Global, libraries: &Libraries) -> Result<Libraries, AllocError>
    ensures { IfOk result (λ copy. copy.0 ≡ libraries.now.0) }
{
    let mut copies = Libraries::new(alloc);
    for known in libraries.as_slice() {
        copies.push((known.0.clone()?, known.1.copy()?))?;
    }
    Ok(copies)
}

impl World {
    /// What made an equal world, with memory of its own.
    pub(crate) fn copy(&self, alloc: Global) -> Result<Played, AllocError>
        ensures { IfOk result (λ copy. copy ≡ self.now.world) }
    {
        let graph = self.graph.copy(alloc)?;
        let lists = both(graph, self.records.copy(alloc))?;
        let ((graph, records), libraries) = both(lists, copy_libraries(alloc, &self.libraries))?;
        Ok(Played {
            graph,
            records,
            libraries,
            batches: self.batches,
        })
    }
}
