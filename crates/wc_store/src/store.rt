//! A store, and what it lends.
ghost use Rattle.std.specs.Prelude.{◌≡◌};

use crate::place::Place;
use wc_journal::Journal;
use wc_world::World;

/// A world, with the journal that keeps it. After a fault of a disk the store isn't live: it is dropped, and loaded again.
#[derive(Drop)]
pub struct Store {
    pub(crate) world: World,
    pub(crate) journal: Journal,
    pub(crate) place: Place,
    pub(crate) live: bool,
}

impl Store {
    /// The world that the store holds.
    pub fn world(&self) -> &World
        ensures { result.now ≡ self.now.world }
    {
        &self.world
    }

    /// Whether no disk has failed in a call on this store.
    pub fn is_live(&self) -> bool
        ensures { result ≡ self.now.live }
    {
        self.live
    }
}
