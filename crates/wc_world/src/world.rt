//! The world that a store holds.

ghost use Rattle.std.specs.Prelude.{◌≡◌, ◌↔◌, true, length, is_some, IsNone, IfSome};
ghost use Rattle.std.specs.Option.{option_copied};
ghost use Rattle.wc_graph.specs.Rules.{IsLinkCorrect};
ghost use Rattle.wc_records.specs.Readiness.{ready_at, AreDues, live_in};
ghost use Rattle.wc_world.specs.World.{empty};
ghost use Rattle.wc_world.specs.Records.{find_record};
ghost use Rattle.wc_world.specs.Accepted.{IsReached};
ghost use Rattle.wc_keys.specs.Order.{IsPartOf};
ghost use Rattle.wc_world.specs.Keys.{digest_at};

use std::alloc::Global;
use std::marker::Model;
use wc_graph::Graph;
pub use wc_keys::{Known, Libraries};
use wc_keys::{Sealed, Seals};
use wc_records::Records;
use wc_state::ProcessRecord;

/// Everything that a store holds. It changes by whole lists of changes alone, each of which it accepts.
#[derive(Drop)]
pub struct World {
    /// The provenance graph.
    pub(crate) graph: Graph,
    /// The records of the processes.
    pub(crate) records: Records,
    /// The libraries.
    pub(crate) libraries: Libraries,
    /// How many batches there were.
    pub(crate) batches: u32,
    /// The digests of the calculations that have finished, or places for them.
    pub(crate) seals: Seals,
    /// Whether the digests are made. Only the search for a calculation with the same key looks at them.
    pub(crate) digested: bool,
}

impl Model for World {
    ghost use Rattle.std.specs.Prelude.{◌-◌, ◌≤◌, length};
    ghost use Rattle.wc_world.specs.Room.{Holding};
    ghost use Rattle.wc_world.specs.Accepted.{IsReached};
    ghost use Rattle.wc_world.specs.Digested.{AreMade};

    ghost Value = { Holding };

    ghost use Rattle.std.specs.Coded.{codes};
    ghost use Rattle.wc_value.specs.contracts.value.Value as value;
    ghost use Rattle.wc_syntax.specs.contracts.definition.Definition as definition;

    ghost coded = { Prim.hlevel (codes, value.the_row.coded, definition.the_row.coded) };

    ghost view = { λ a. record {
      world = record { nodes = a.graph.nodes; links = a.graph.links; records = a.records.0; libraries = a.libraries.0; batches = a.batches };
      room = record { nodes = a.graph.node_room; links = a.graph.link_room; records = a.records.1; libraries = a.libraries.1; seals = a.seals.1 - length a.records.0 };
      digested = a.digested;
    } };

    ghost invariant = { λ a. IsReached (record { nodes = a.graph.nodes; links = a.graph.links; records = a.records.0; libraries = a.libraries.0; batches = a.batches })
        × AreMade a.digested (record { nodes = a.graph.nodes; links = a.graph.links; records = a.records.0; libraries = a.libraries.0; batches = a.batches }) a.seals.0
        × (length a.records.0 ≤ a.seals.1) };
}

impl World {
    /// The empty world, which takes no memory.
    pub fn new(alloc: Global) -> World
        // The world is the empty one.
        ensures empty { result.world ≡ empty }
        // Its digests are made, of which there are none.
        ensures digested { result.digested ≡ true }
    {
        World {
            graph: Graph::new(alloc),
            records: Records::new(alloc),
            libraries: Libraries::new(alloc),
            batches: 0,
            seals: Seals::new(alloc),
            digested: true,
        }
    }

    /// The provenance graph.
    pub fn graph(&self) -> &Graph
        // Its nodes are the world's, with the room for further ones.
        ensures nodes { (result.now.nodes ≡ self.now.world.nodes) × (result.now.node_room ≡ self.now.room.nodes) }
        // Its links are the world's, with the room for further ones.
        ensures links { (result.now.links ≡ self.now.world.links) × (result.now.link_room ≡ self.now.room.links) }
        // Accepted changes made the world.
        ensures reached { IsReached self.now.world }
    {
        &self.graph
    }

    /// The records of the processes, in order of their numbers.
    pub fn records(&self) -> &Records
        ensures { result.now ≡ (self.now.world.records, self.now.room.records) }
    {
        &self.records
    }

    /// The libraries, of which the first has the number 1.
    pub fn libraries(&self) -> &Libraries
        ensures { result.now ≡ (self.now.world.libraries, self.now.room.libraries) }
    {
        &self.libraries
    }

    /// How many batches there were.
    pub fn batches(&self) -> u32
        ensures { result ≡ self.now.world.batches }
    {
        self.batches
    }

    /// The record of a process, if there is one with this number.
    pub fn record_of(&self, pid: u32) -> Option<&ProcessRecord>
        ensures { option_copied result ≡ find_record pid self.now.world.records }
    {
        self.records.find(pid)
    }

    /// The numbers of the processes that are ready at moment 0, and so at every moment, ascending. It takes no memory.
    pub fn ready_at_once(&self) -> &[u32]
        ensures { result.now ≡ ready_at self.now.world.records 0 }
    {
        self.records.ready_at_once()
    }

    /// The due moments of the jobs that wait for a later one and aren't paused, in order, each with the job's number. It
    /// takes no memory.
    pub fn ready_later(&self) -> &[(u64, u32)]
        ensures { AreDues self.now.world.records result.now }
    {
        self.records.ready_later()
    }

    /// The calculations that have finished with this digest of their keys, in order of their numbers, or none where the digests
    /// aren't made. The key is that of the links as they stand. It takes no memory.
    pub fn with_digest(&self, digest: &[u8]) -> Option<&[Sealed]>
        ensures part { IfSome result (λ part. IsPartOf (digest_at self.now.world) digest.now part.now) }
        ensures made { is_some result ≡ self.now.digested }
    {
        if self.digested {
            Some(self.seals.part(digest))
        } else {
            None
        }
    }

    /// How many processes haven't ended.
    pub fn live(&self) -> usize
        ensures { result ≡ live_in self.now.world.records }
    {
        self.records.live()
    }
}
