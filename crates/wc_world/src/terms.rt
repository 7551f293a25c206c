//! What is known of a batch before its first change.

ghost use Rattle.std.specs.Prelude.{◌≡◌, ◌<◌, option_map, IfOk};
ghost use Rattle.wc_world.specs.Accepted.{setting, is_empty, count_in};
ghost use Rattle.wc_world.specs.Slots.{AreSlotsIn};
ghost use Rattle.wc_world.specs.Drafts.{Tells};

use crate::change::Change;
use crate::played::Played;
use crate::slots::{Slot, snapshot_slots};
use std::alloc::{AllocError, Global};

/// The number of a batch, and what the changes of a snapshot say at their end.
#[derive(Drop)]
pub(crate) struct Terms {
    /// The number of the batch.
    pub batch: u32,
    /// Whether the changes are a snapshot.
    pub snapshot: bool,
    /// What the Kepts of a snapshot tell of each node, of which the first has the number 1.
    pub slots: Vec<Slot>,
    /// The number of batches that the first Count tells.
    pub count: u32,
}

/// The number of batches that the first Count of the changes tells.
fn count_in(changes: &[Change]) -> u32
    ensures { result ≡ count_in changes.now }
{
    for change in changes {
        if let Change::Count(count) = change {
            return *count;
        }
    }
    0
}

impl Played {
    /// Whether the world has nothing.
    fn is_empty(&self) -> bool
        ensures { result ≡ is_empty self.now }
    {
        self.graph.nodes().len() == 0
            && self.graph.links().len() == 0
            && self.records.len() == 0
            && self.libraries.len() == 0
            && self.batches == 0
    }

    /// What the Kepts of changes tell of each node, if they are a snapshot.
    fn slots(&self, alloc: Global, all: &[Change]) -> Result<Option<Vec<Slot>>, AllocError>
        ensures { IfOk result (λ slots. AreSlotsIn self.now all.now (option_map (λ v. v.items) slots)) }
    {
        if self.is_empty() {
            snapshot_slots(alloc, all)
        } else {
            Ok(None)
        }
    }

    /// What is known of the next batch, where its changes are these.
    pub(crate) fn terms(&self, alloc: Global, all: &[Change]) -> Result<Terms, AllocError>
        requires { self.now.batches < 4000000000 }
        ensures { IfOk result (λ terms. Tells terms (setting self.now all.now)) }
    {
        let batch = self.batches + 1;
        let count = count_in(all);
        match self.slots(alloc, all)? {
            Some(slots) => Ok(Terms {
                batch,
                snapshot: true,
                slots,
                count,
            }),
            None => Ok(Terms {
                batch,
                snapshot: false,
                slots: Vec::new(alloc),
                count,
            }),
        }
    }
}
