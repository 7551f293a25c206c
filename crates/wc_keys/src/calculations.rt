//! The entries of calculations that have finished: all at once, and one while a change is applied.

ghost use Rattle.std.specs.Prelude.{◌≡◌, ◌≤◌, length, IfOk};
ghost use Rattle.wc_keys.specs.Order.{AreSealsOf, without};
ghost use Rattle.wc_fits.specs.Records.{Ascend};
ghost use Rattle.wc_keys.specs.Keys.{digest_from};

use crate::Seals;
use crate::digests::{entries_in, entry_of};
use std::alloc::{AllocError, Global};
use wc_fits::{Known, Libraries};
use wc_graph::Graph;
use wc_records::Records;

/// The entries of all calculations that have finished, with a place for each process.
pub fn seals_of(
    alloc: Global,
    graph: &Graph,
    libraries: &Libraries,
    records: &Records,
) -> Result<Seals, AllocError>
    requires { Ascend 0 records.now.0 (length graph.now.nodes) }
    ensures entries { IfOk result (λ seals. AreSealsOf (digest_from graph.now.nodes graph.now.links libraries.now.0 records.now.0) seals.0) }
    ensures places { IfOk result (λ seals. length records.now.0 ≤ seals.1) }
{
    let mut seals = Seals::of(entries_in(alloc, graph, libraries.as_slice(), records)?);
    seals.reserve(records.len())?;
    Ok(seals)
}

/// Takes out the entry of a process, if it has one. It takes no memory.
pub fn unseal(graph: &Graph, libraries: &[Known], records: &Records, seals: &mut Seals, pid: u32)
    requires { AreSealsOf (digest_from graph.now.nodes graph.now.links libraries.now records.now.0) seals.old.0 }
    ensures entries { AreSealsOf (without pid (digest_from graph.now.nodes graph.now.links libraries.now records.now.0)) seals.new.0 }
    ensures places { seals.new.1 ≡ seals.old.1 }
{
    match entry_of(graph, libraries, records, pid) {
        Some(seal) => seals.take(seal),
        None => (),
    }
}

/// Puts in the entry of a process, if it has one. There is a place for each process, so that this takes no memory.
pub fn seal(graph: &Graph, libraries: &[Known], records: &Records, seals: &mut Seals, pid: u32)
    requires others { AreSealsOf (without pid (digest_from graph.now.nodes graph.now.links libraries.now records.now.0)) seals.old.0 }
    requires places { length records.now.0 ≤ seals.old.1 }
    ensures entries { AreSealsOf (digest_from graph.now.nodes graph.now.links libraries.now records.now.0) seals.new.0 }
    ensures places { seals.new.1 ≡ seals.old.1 }
{
    match entry_of(graph, libraries, records, pid) {
        Some(seal) => seals.put(seal),
        None => (),
    }
}
