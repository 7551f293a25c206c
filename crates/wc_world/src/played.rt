//! What changes have made, on the way to a world.

ghost use Rattle.std.specs.Prelude.{◌≡◌, true, false, IfOk, OnOk};
ghost use Rattle.wc_world.specs.World.{empty};

use crate::world::{Libraries, World};
use std::alloc::{AllocError, Global};
use std::marker::Model;
use wc_graph::Graph;
use wc_keys::{Seals, seals_of};
use wc_records::Records;

/// A world without digests of what it has finished. Changes are played on it one batch after another.
#[derive(Drop)]
pub struct Played {
    /// The provenance graph.
    pub(crate) graph: Graph,
    /// The records of the processes.
    pub(crate) records: Records,
    /// The libraries.
    pub(crate) libraries: Libraries,
    /// How many batches there were.
    pub(crate) batches: u32,
}

impl Model for Played {
    ghost use Rattle.wc_world.specs.World.{World};
    ghost use Rattle.wc_world.specs.Accepted.{IsReached};

    ghost Value = { World };

    ghost use Rattle.std.specs.Coded.{codes};
    ghost use Rattle.wc_value.specs.contracts.value.Value as value;
    ghost use Rattle.wc_syntax.specs.contracts.definition.Definition as definition;

    ghost coded = { Prim.hlevel (codes, value.the_row.coded, definition.the_row.coded) };

    ghost view = { λ a. record { nodes = a.graph.nodes; links = a.graph.links; records = a.records.0; libraries = a.libraries.0; batches = a.batches } };

    ghost invariant = { λ a. IsReached (record { nodes = a.graph.nodes; links = a.graph.links; records = a.records.0; libraries = a.libraries.0; batches = a.batches }) };
}

impl Played {
    /// What no changes have made, which takes no memory.
    pub fn new(alloc: Global) -> Played
        ensures { result ≡ empty }
    {
        Played {
            graph: Graph::new(alloc),
            records: Records::new(alloc),
            libraries: Libraries::new(alloc),
            batches: 0,
        }
    }
}

impl World {
    /// The world that was played. The digests of what it has finished aren't made.
    pub fn of(alloc: Global, played: Played) -> Result<World, AllocError>
        // The world is what was played.
        ensures world { IfOk result (λ world. world.world ≡ played) }
        // It has no digests.
        ensures digested { IfOk result (λ world. world.digested ≡ false) }
    {
        let mut seals = Seals::new(alloc);
        seals.reserve(played.records.len())?;
        Ok(World {
            graph: played.graph,
            records: played.records,
            libraries: played.libraries,
            batches: played.batches,
            seals,
            digested: false,
        })
    }

    /// Makes the digests of what the world has finished, where they aren't made.
    pub fn make_digests(&mut self, alloc: Global) -> Result<(), AllocError>
        // The world stays.
        ensures same { self.new.world ≡ self.old.world }
        // Where it is Ok, it has digests.
        ensures digested { OnOk result (self.new.digested ≡ true) }
    {
        if !self.digested {
            self.seals = seals_of(alloc, &self.graph, &self.libraries, &self.records)?;
            self.digested = true;
        }
        Ok(())
    }
}
