//! Changes that a world accepts, applied to it.

ghost use Rattle.std.specs.Prelude.{◌≡◌, [], ◌∷◌, ◌++◌, ◌+◌, ◌-◌, ◌<◌, ◌≤◌, ◌^◌, true, false, List, length, All, OnOk};
ghost use Rattle.wc_graph.specs.Refusals.{IsAllowed};
ghost use Rattle.wc_graph.specs.Rules.{IsLinkCorrect};
ghost use Rattle.wc_world.specs.declared.change.Change.{Change};
ghost use Rattle.wc_records.specs.Readiness.{ended_at};
ghost use Rattle.wc_world.specs.Records.{at_process, process_node};
ghost use Rattle.wc_world.specs.Called.{awaits_called, AwaitsCalled};
ghost use Rattle.wc_world.specs.Applied.{made, set, after_change, applied};
ghost use Rattle.wc_world.specs.Accepted.{IsAccepted};
ghost use Rattle.wc_world.specs.Room.{HasRoom, needed};
ghost use Rattle.wc_world.specs.Applying.{world_of, room_of, CanApply, Ascend, IsAtLeast};
ghost use Rattle.wc_world.specs.Digested.{AreMade, AreMadeOf};
ghost use Rattle.wc_world.specs.Keys.{AreDefined, digest_from};
ghost use Rattle.wc_keys.specs.Order.{AreSealsOf};

use crate::change::{Change, Changes};
use crate::world::{Known, Libraries, World};
use std::alloc::{AllocError, Global};
use wc_graph::{Graph, Link, NodeKind};
use wc_keys::{Seals, caller_of, node_of_kind, seal, unseal};
use wc_records::{NewProcess, Records, SetProcess};

/// How many items changes add.
#[derive(Drop)]
pub(crate) struct Need {
    /// Nodes, of data and of processes.
    pub nodes: usize,
    /// Links.
    pub links: usize,
    /// Processes.
    pub records: usize,
    /// Libraries.
    pub libraries: usize,
}

/// Counts what one more change adds.
fn count_change(need: &mut Need, change: &Change)
    requires nodes { need.old.nodes < 2 ^ 32 }
    requires links { need.old.links < 2 ^ 32 }
    requires records { need.old.records < 2 ^ 32 }
    requires libraries { need.old.libraries < 2 ^ 32 }
    ensures nodes { need.new.nodes ≡ need.old.nodes + (needed (change.now ∷ [])).nodes }
    ensures links { need.new.links ≡ need.old.links + (needed (change.now ∷ [])).links }
    ensures records { need.new.records ≡ need.old.records + (needed (change.now ∷ [])).records }
    ensures libraries { need.new.libraries ≡ need.old.libraries + (needed (change.now ∷ [])).libraries }
{
    match change {
        Change::Library(_library, _names) => need.libraries += 1,
        Change::Data(_value) => need.nodes += 1,
        Change::Process(_process) => {
            need.nodes += 1;
            need.records += 1;
        }
        Change::Link(_link) => need.links += 1,
        Change::Set(_set) => (),
        Change::Count(_count) => (),
        Change::Kept(_kept) => (),
    }
}

/// Counts what changes add.
pub(crate) fn count(changes: &[Change]) -> Need
    requires { length changes.now < 2 ^ 32 }
    ensures nodes { result.nodes ≡ (needed changes.now).nodes }
    ensures links { result.links ≡ (needed changes.now).links }
    ensures records { result.records ≡ (needed changes.now).records }
    ensures libraries { result.libraries ≡ (needed changes.now).libraries }
    ensures few { (result.nodes < 2 ^ 32) × (result.links < 2 ^ 32) × (result.records < 2 ^ 32) }
{
    let mut need = Need {
        nodes: 0,
        links: 0,
        records: 0,
        libraries: 0,
    };
    for change in changes {
        count_change(&mut need, change);
    }
    need
}

/// Puts a library at the end, where there is room for it.
fn put_library(libraries: &mut Libraries, library: Known)
    requires { 0 < libraries.old.1 }
    ensures value { libraries.new.0 ≡ libraries.old.0 ++ library ∷ [] }
    ensures room { libraries.old.1 ≤ libraries.new.1 + 1 }
{
    let _pushed = libraries.push(library);
}

/// Puts a node at the end, where there is a number and room for it.
fn put_node(graph: &mut Graph, kind: NodeKind)
    requires number { length graph.old.nodes < 8000000 }
    requires room { 0 < graph.old.node_room }
    ensures nodes { graph.new.nodes ≡ graph.old.nodes ++ kind ∷ [] }
    ensures others { (graph.new.links ≡ graph.old.links) × (graph.new.link_room ≡ graph.old.link_room) }
    ensures room { graph.old.node_room ≤ graph.new.node_room + 1 }
{
    let _number = graph.add_node(kind);
}

/// Puts a new process at the end, where there is a number and room for it.
fn put_process(graph: &mut Graph, records: &mut Records, process: NewProcess)
    requires number { length graph.old.nodes < 8000000 }
    requires node_room { 0 < graph.old.node_room }
    requires room { 0 < records.old.1 }
    requires ascending { Ascend 0 records.old.0 (length graph.old.nodes) }
    ensures nodes { graph.new.nodes ≡ graph.old.nodes ++ process_node process.kind ∷ [] }
    ensures links { (graph.new.links ≡ graph.old.links) × (graph.new.link_room ≡ graph.old.link_room) }
    ensures node_room { graph.old.node_room ≤ graph.new.node_room + 1 }
    ensures records { records.new ≡ (records.old.0 ++ made (length graph.old.nodes + 1) process ∷ [], records.old.1 - 1) }
{
    put_node(graph, node_of_kind(process.kind));
    let number = graph.nodes().len() as u32;
    records.push(number, process);
}

/// Sets what a process is from now on, in the batch of this number, and tells its caller.
pub(crate) fn set_process(graph: &Graph, records: &mut Records, batch: u32, change: SetProcess)
    requires live { ended_at records.old.0 change.pid ≡ false }
    requires awaits { All (λ r. awaits_called graph.now.links r ≡ true) records.old.0 }
    ensures { records.new ≡ (at_process change.pid (set batch change) records.old.0, records.old.1) }
{
    let caller = caller_of(graph, change.pid);
    records.set(batch, change, caller);
}

/// Puts a link that breaks no rule at the end, and makes the entry of its target anew, where it has one.
fn put_link_sealed(
    graph: &mut Graph,
    records: &Records,
    libraries: &[Known],
    seals: &mut Seals,
    link: Link,
)
    requires allowed { IsAllowed graph.old.nodes graph.old.links link }
    requires room { 0 < graph.old.link_room }
    requires sealed { AreSealsOf (digest_from graph.old.nodes graph.old.links libraries.now records.now.0) seals.old.0 }
    requires places { length records.now.0 ≤ seals.old.1 }
    ensures links { graph.new.links ≡ graph.old.links ++ link ∷ [] }
    ensures others { (graph.new.nodes ≡ graph.old.nodes) × (graph.new.node_room ≡ graph.old.node_room) }
    ensures room { graph.old.link_room ≤ graph.new.link_room + 1 }
    ensures sealed { AreSealsOf (digest_from graph.new.nodes graph.new.links libraries.now records.now.0) seals.new.0 }
    ensures places { seals.new.1 ≡ seals.old.1 }
{
    let pid = link.target;
    unseal(graph, libraries, records, seals, pid);
    graph.push_link(link);
    seal(graph, libraries, records, seals, pid);
}

/// Sets what a process is from now on, and makes its entry, where it has finished as a calculation.
fn set_process_sealed(
    graph: &Graph,
    records: &mut Records,
    libraries: &[Known],
    seals: &mut Seals,
    batch: u32,
    change: SetProcess,
)
    requires live { ended_at records.old.0 change.pid ≡ false }
    requires awaits { All (λ r. awaits_called graph.now.links r ≡ true) records.old.0 }
    requires sealed { AreSealsOf (digest_from graph.now.nodes graph.now.links libraries.now records.old.0) seals.old.0 }
    requires places { length records.old.0 ≤ seals.old.1 }
    ensures records { records.new ≡ (at_process change.pid (set batch change) records.old.0, records.old.1) }
    ensures sealed { AreSealsOf (digest_from graph.now.nodes graph.now.links libraries.now records.new.0) seals.new.0 }
    ensures places { seals.new.1 ≡ seals.old.1 }
{
    let pid = change.pid;
    set_process(graph, records, batch, change);
    seal(graph, libraries, records, seals, pid);
}

/// Puts a link that breaks no rule at the end, and keeps the entries in step, where the digests are made.
fn put_link(
    graph: &mut Graph,
    records: &Records,
    libraries: &[Known],
    seals: &mut Seals,
    digested: bool,
    link: Link,
)
    requires allowed { IsAllowed graph.old.nodes graph.old.links link }
    requires room { 0 < graph.old.link_room }
    requires sealed { AreMadeOf digested (digest_from graph.old.nodes graph.old.links libraries.now records.now.0) seals.old.0 }
    requires places { length records.now.0 ≤ seals.old.1 }
    ensures links { graph.new.links ≡ graph.old.links ++ link ∷ [] }
    ensures others { (graph.new.nodes ≡ graph.old.nodes) × (graph.new.node_room ≡ graph.old.node_room) }
    ensures room { graph.old.link_room ≤ graph.new.link_room + 1 }
    ensures sealed { AreMadeOf digested (digest_from graph.new.nodes graph.new.links libraries.now records.now.0) seals.new.0 }
    ensures places { seals.new.1 ≡ seals.old.1 }
{
    if digested {
        put_link_sealed(graph, records, libraries, seals, link);
    } else {
        graph.push_link(link);
    }
}

/// Sets what a process is from now on, and keeps the entries in step, where the digests are made.
fn put_set(
    graph: &Graph,
    records: &mut Records,
    libraries: &[Known],
    seals: &mut Seals,
    digested: bool,
    batch: u32,
    change: SetProcess,
)
    requires live { ended_at records.old.0 change.pid ≡ false }
    requires awaits { All (λ r. awaits_called graph.now.links r ≡ true) records.old.0 }
    requires sealed { AreMadeOf digested (digest_from graph.now.nodes graph.now.links libraries.now records.old.0) seals.old.0 }
    requires places { length records.old.0 ≤ seals.old.1 }
    ensures records { records.new ≡ (at_process change.pid (set batch change) records.old.0, records.old.1) }
    ensures sealed { AreMadeOf digested (digest_from graph.now.nodes graph.now.links libraries.now records.new.0) seals.new.0 }
    ensures places { seals.new.1 ≡ seals.old.1 }
{
    if digested {
        set_process_sealed(graph, records, libraries, seals, batch, change);
    } else {
        set_process(graph, records, batch, change);
    }
}

/// Applies one change to the parts of a world, in the batch of this number.
fn apply_change(
    graph: &mut Graph,
    records: &mut Records,
    libraries: &mut Libraries,
    batches: &mut u32,
    seals: &mut Seals,
    digested: bool,
    batch: u32,
    change: Change,
)
    requires fits { CanApply (world_of graph.old records.old libraries.old batches.old) change }
    requires ascending { Ascend 0 records.old.0 (length graph.old.nodes) }
    requires awaits { AwaitsCalled (world_of graph.old records.old libraries.old batches.old) }
    requires correct { IsLinkCorrect graph.old.nodes graph.old.links }
    requires defined { AreDefined (world_of graph.old records.old libraries.old batches.old) }
    requires sealed { AreMade digested (world_of graph.old records.old libraries.old batches.old) seals.old.0 }
    requires places { length records.old.0 ≤ seals.old.1 }
    requires room { HasRoom (room_of graph.old records.old libraries.old seals.old) (change ∷ []) }
    ensures world { world_of graph.new records.new libraries.new batches.new ≡ after_change batch (world_of graph.old records.old libraries.old batches.old) change }
    ensures sealed { AreMade digested (world_of graph.new records.new libraries.new batches.new) seals.new.0 }
    ensures places { length records.new.0 ≤ seals.new.1 }
    ensures room { (cs : List Change) → HasRoom (room_of graph.old records.old libraries.old seals.old) (change ∷ cs) → HasRoom (room_of graph.new records.new libraries.new seals.new) cs }
{
    match change {
        Change::Library(library, names) => put_library(libraries, (library, names)),
        Change::Data(value) => put_node(graph, NodeKind::Data(value)),
        Change::Process(process) => put_process(graph, records, process),
        Change::Link(link) => {
            put_link(graph, records, libraries.as_slice(), seals, digested, link)
        }
        Change::Set(set) => {
            put_set(
                graph,
                records,
                libraries.as_slice(),
                seals,
                digested,
                batch,
                set,
            )
        }
        Change::Count(count) => *batches = count,
        Change::Kept(kept) => records.keep(kept),
    }
}

/// Takes memory for the labels of the links among changes, at nodes that have very many links.
fn reserve_labels(graph: &mut Graph, changes: &[Change])
    ensures { graph.new ≡ graph.old }
{
    for change in changes {
        if let Change::Link(link) = change {
            graph.reserve_label(link);
        }
    }
}

impl World {
    /// Makes room for the changes, and changes nothing else. For labels at nodes that have very many links it takes memory where
    /// there is some.
    #[tactic(auto, using(crate::proofs::Needs::needed_seals))]
    pub fn reserve(&mut self, _alloc: Global, changes: &Changes) -> Result<(), AllocError>
        ensures same { self.new.world ≡ self.old.world }
        ensures room { OnOk result (HasRoom self.new.room changes.now) }
        ensures kept { IsAtLeast self.old.room self.new.room }
        ensures digested { self.new.digested ≡ self.old.digested }
    {
        let _ = changes.len();
        let need = count(changes.as_slice());
        self.graph.reserve(need.nodes as u32, need.links as u32)?;
        self.records.reserve(need.records)?;
        self.libraries.reserve(need.libraries)?;
        let held = self.records.len();
        let places = held + need.records;
        self.seals.reserve(places)?;
        reserve_labels(&mut self.graph, changes.as_slice());
        Ok(())
    }

    /// Applies changes that the world accepts. It takes no memory, neither for the digests of what they finish nor for the
    /// labels at nodes that have very many links.
    pub fn apply(&mut self, changes: Changes)
        requires accepted { IsAccepted self.old.world changes }
        requires room { HasRoom self.old.room changes }
        ensures world { self.new.world ≡ applied self.old.world changes }
        ensures digested { self.new.digested ≡ self.old.digested }
    {
        let batch = self.batches + 1;
        self.batches = batch;
        for change in changes.into_vec() {
            apply_change(
                &mut self.graph,
                &mut self.records,
                &mut self.libraries,
                &mut self.batches,
                &mut self.seals,
                self.digested,
                batch,
                change,
            );
        }
    }
}
