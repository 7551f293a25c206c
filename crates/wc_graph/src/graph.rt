//! The graph, which grows by nodes and links that it takes.

ghost use Rattle.std.specs.Prelude.{◌≡◌, ℕ, [], ◌∷◌, ◌++◌, ◌+◌, ◌-◌, ◌<◌, ◌≤◌, ◌↔◌, ◌⊎◌, length, IfOk, OnOk, OnErr, IsOk, IsErrOf, IsTrue};
ghost use Rattle.wc_graph.specs.Rules.{IsLinkCorrect};
ghost use Rattle.wc_graph.specs.Index.{Skips, source_of, target_of};
ghost use Rattle.wc_graph.specs.Labels.{side};
ghost use Rattle.wc_graph.specs.Refusals.{IsAllowed, Refuses, RefusesExactly, LabelIsTaken, TripleIsTaken};

use crate::busy::{gather, has_many};
use crate::copies::{copy_links, copy_nodes};
use crate::error::GraphError;
use crate::index::Index;
use crate::labels::{End, Labels, label_node};
use crate::link::Link;
use crate::node::NodeKind;
use crate::rules;
use std::alloc::{AllocError, Global};
use std::marker::Model;
use wc_value::Roomy;

/// The most nodes that a graph may have.
pub const MOST_NODES: usize = 8_000_000;

/// The nodes, of which the first has the number 1.
pub type Nodes = Roomy<NodeKind>;

/// The links, in the order in which they were added.
pub type Links = Roomy<Link>;

/// A provenance graph. It can only grow, and always meets the rules of links.
#[derive(Drop)]
pub struct Graph {
    nodes: Nodes,
    links: Links,
    by_source: Index,
    by_target: Index,
    at_source: Labels,
    at_target: Labels,
}

impl Model for Graph {
    ghost use Rattle.std.specs.Prelude.{◌≤◌, length};
    ghost use Rattle.wc_graph.specs.Rules.{IsLinkCorrect};
    ghost use Rattle.wc_graph.specs.Provenance.{Provenance};
    ghost use Rattle.wc_graph.specs.Index.{IsIndexed, source_of, target_of};
    ghost use Rattle.wc_graph.specs.Labels.{IsLabelled};
    ghost use Rattle.wc_graph.specs.declared.labels.End.TheVariants.{Source, Target};

    ghost Value = { Provenance };

    ghost use Rattle.wc_value.specs.contracts.value.Value as value;
    ghost use Rattle.std.specs.Coded.{codes};

    ghost coded = { Prim.hlevel (codes, value.the_row.coded) };

    ghost view = { λ a. record { nodes = a.nodes.0; links = a.links.0; node_room = a.nodes.1; link_room = a.links.1 } };

    ghost invariant = { λ a. IsLinkCorrect a.nodes.0 a.links.0 × (length a.nodes.0 ≤ 8000000)
        × IsIndexed source_of a.links.0 (length a.nodes.0) a.by_source
        × IsIndexed target_of a.links.0 (length a.nodes.0) a.by_target
        × IsLabelled Source a.links.0 a.at_source.busy
        × IsLabelled Target a.links.0 a.at_target.busy };
}

impl Graph {
    /// A graph with no nodes, which takes no memory.
    #[tactic(auto, using(crate::proofs::Labelling::none_busy))]
    pub fn new(alloc: Global) -> Graph
        // It has no nodes.
        ensures nodes { result.nodes ≡ [] }
        // It has no links.
        ensures links { result.links ≡ [] }
    {
        Graph {
            nodes: Nodes::new(alloc),
            links: Links::new(alloc),
            by_source: Index::new(alloc),
            by_target: Index::new(alloc),
            at_source: Labels::new(alloc),
            at_target: Labels::new(alloc),
        }
    }

    /// An equal graph with memory of its own, where no node is busy yet.
    #[tactic(auto, using(crate::proofs::Labelling::none_busy))]
    pub fn copy(&self, alloc: Global) -> Result<Graph, AllocError>
        // The copy has the same nodes.
        ensures nodes { IfOk result (λ copy. copy.nodes ≡ self.now.nodes) }
        // The copy has the same links.
        ensures links { IfOk result (λ copy. copy.links ≡ self.now.links) }
    {
        let nodes = copy_nodes(alloc, &self.nodes)?;
        let links = copy_links(alloc, &self.links)?;
        let by_source = self.by_source.copy(alloc)?;
        let by_target = self.by_target.copy(alloc)?;
        Ok(Graph {
            nodes,
            links,
            by_source,
            by_target,
            at_source: Labels::new(alloc),
            at_target: Labels::new(alloc),
        })
    }

    /// The nodes.
    pub fn nodes(&self) -> &Nodes
        // The nodes, with the room for further ones.
        ensures value { result.now ≡ (self.now.nodes, self.now.node_room) }
        // They are at most 8,000,000.
        ensures bound { length self.now.nodes ≤ MOST_NODES }
    {
        &self.nodes
    }

    /// The links.
    pub fn links(&self) -> &Links
        // The links, with the room for further ones.
        ensures value { result.now ≡ (self.now.links, self.now.link_room) }
        // The links are link-correct.
        ensures correct { IsLinkCorrect self.now.nodes self.now.links }
    {
        &self.links
    }

    /// Makes room for so many further nodes and links.
    pub fn reserve(&mut self, nodes: u32, links: u32) -> Result<(), AllocError>
        // The nodes stay.
        ensures nodes { self.new.nodes ≡ self.old.nodes }
        // The links stay.
        ensures links { self.new.links ≡ self.old.links }
        // Where it is Ok, there is room for so many further nodes and links.
        ensures room { OnOk result ((nodes ≤ self.new.node_room) × (links ≤ self.new.link_room)) }
        // No room gets less.
        ensures kept { (self.old.node_room ≤ self.new.node_room) × (self.old.link_room ≤ self.new.link_room) }
    {
        // The indices come first: where a node or a link has room, they have some for it too.
        self.by_source.reserve(nodes as usize, links as usize)?;
        self.by_target.reserve(nodes as usize, links as usize)?;
        self.nodes.reserve(nodes as usize)?;
        self.links.reserve(links as usize)
    }

    /// Where a walk down the links that leave a node begins: at this place, counted from 1, and behind it is none.
    pub fn last_from(&self, node: u32) -> usize
        ensures { Skips source_of self.now.links node (length self.now.links) result }
    {
        match self.by_source.last_at(node) {
            Some(at) => at as usize,
            None => self.links.len(),
        }
    }

    /// Where a walk down the links that leave a node goes on below a place, both counted from 1: between them is none.
    pub fn before_from(&self, node: u32, at: usize) -> usize
        // The place is counted from 1.
        requires some { 0 < at }
        // There is a link at the place.
        requires within { at ≤ length self.now.links }
        ensures { Skips source_of self.now.links node (at - 1) result }
    {
        let place = at - 1;
        if self.links.as_slice()[place].source != node {
            return place;
        }
        match self.by_source.before_at(place) {
            Some(before) => before as usize,
            None => place,
        }
    }

    /// Where a walk down the links that enter a node begins: at this place, counted from 1, and behind it is none.
    pub fn last_into(&self, node: u32) -> usize
        ensures { Skips target_of self.now.links node (length self.now.links) result }
    {
        match self.by_target.last_at(node) {
            Some(at) => at as usize,
            None => self.links.len(),
        }
    }

    /// Where a walk down the links that enter a node goes on below a place, both counted from 1: between them is none.
    pub fn before_into(&self, node: u32, at: usize) -> usize
        // The place is counted from 1.
        requires some { 0 < at }
        // There is a link at the place.
        requires within { at ≤ length self.now.links }
        ensures { Skips target_of self.now.links node (at - 1) result }
    {
        let place = at - 1;
        if self.links.as_slice()[place].target != node {
            return place;
        }
        match self.by_target.before_at(place) {
            Some(before) => before as usize,
            None => place,
        }
    }

    /// Where a walk down the links that have a node at this end begins.
    pub(crate) fn last_at(&self, end: End, node: u32) -> usize
        ensures { Skips (side end) self.now.links node (length self.now.links) result }
    {
        match end {
            End::Source => self.last_from(node),
            End::Target => self.last_into(node),
        }
    }

    /// Where a walk down the links that have a node at this end goes on below a place.
    pub(crate) fn before_at(&self, end: End, node: u32, at: usize) -> usize
        requires some { 0 < at }
        requires within { at ≤ length self.now.links }
        ensures { Skips (side end) self.now.links node (at - 1) result }
    {
        match end {
            End::Source => self.before_from(node, at),
            End::Target => self.before_into(node, at),
        }
    }

    /// Whether more than 64 links may enter a node, by a walk of few steps. Where they do it is true; where the index was given up
    /// for want of memory it is true for each node of a graph with more than 64 links.
    pub fn has_many_into(&self, node: u32) -> bool {
        has_many(self, End::Target, node)
    }

    /// Whether a node is there, isn't busy at this end and may become so.
    pub(crate) fn may_be_busy(&self, end: End, node: u32) -> bool {
        if node == 0 || node as usize > self.nodes.len() {
            return false;
        }
        match end {
            End::Source => self.at_source.takes(node),
            End::Target => self.at_target.takes(node),
        }
    }

    /// Whether the link's label stands once at a busy node, and is known to be free there.
    pub(crate) fn is_label_free(&self, link: &Link) -> bool
        ensures triple { IsTrue result → ¬ TripleIsTaken self.now.links link.now }
        ensures label { IsTrue result → ¬ LabelIsTaken self.now.links link.now }
    {
        if self
            .at_source
            .lacks(label_node(End::Source, link), &link.label)
        {
            return true;
        }
        self.at_target
            .lacks(label_node(End::Target, link), &link.label)
    }

    /// Puts a node at the end, and gives its number.
    pub fn add_node(&mut self, kind: NodeKind) -> Result<u32, GraphError>
        ensures added { OnOk result (self.new.nodes ≡ self.old.nodes ++ kind ∷ []) }
        ensures number { IfOk result (λ id. id ≡ length self.new.nodes) }
        ensures others { (self.new.links ≡ self.old.links) × (self.new.link_room ≡ self.old.link_room) }
        ensures correct { IsLinkCorrect self.new.nodes self.new.links }

        ensures full { IsErrOf result GraphError.Full ↔ (length self.old.nodes ≡ MOST_NODES) }
        ensures only { OnErr result (IsErrOf result GraphError.Full ⊎ IsErrOf result GraphError.OutOfMemory) }
        ensures err { OnErr result (self.new ≡ self.old) }

        // A node takes at most one place of the room, and with room left it takes no memory.
        ensures room { self.old.node_room ≤ self.new.node_room + 1 }
        ensures takes { 0 < self.old.node_room → ¬ IsErrOf result GraphError.OutOfMemory }
    {
        let count = self.nodes.len();
        if count >= MOST_NODES {
            return Err(GraphError::Full);
        }
        self.nodes.push(kind)?;
        self.by_source.add_node();
        self.by_target.add_node();
        Ok(count as u32 + 1)
    }

    /// Whether `add_link` takes the link, as far as the rules go.
    fn check_link(&self, link: &Link) -> Result<(), GraphError>
        ensures ok { OnOk result (IsAllowed self.now.nodes self.now.links link.now) }
        ensures refusals { RefusesExactly result (Refuses self.now.nodes self.now.links link.now) }
        ensures memory { ¬ IsErrOf result GraphError.OutOfMemory }
        ensures correct { IsLinkCorrect self.now.nodes self.now.links }
    {
        let _ = &self.links;
        rules::allow(self, link)
    }

    /// Takes memory for the label of a coming link, at each node that is busy or has so many links that it becomes so.
    /// Where there is none it goes on without.
    pub fn reserve_label(&mut self, link: &Link)
        ensures { self.new ≡ self.old }
    {
        let alloc = *self.by_source.last.allocator();
        let from = label_node(End::Source, link);
        let into = label_node(End::Target, link);
        let gathered_from = gather(alloc, self, End::Source, from);
        let gathered_into = gather(alloc, self, End::Target, into);
        self.at_source.note(alloc, from, gathered_from, &link.label);
        self.at_target.note(alloc, into, gathered_into, &link.label);
    }

    /// Puts a link that breaks no rule at the end. With room left it takes no memory.
    fn put_link(&mut self, link: Link) -> Result<(), AllocError>
        requires allowed { IsAllowed self.old.nodes self.old.links link }
        ensures added { OnOk result (self.new.links ≡ self.old.links ++ link ∷ []) }
        ensures others { (self.new.nodes ≡ self.old.nodes) × (self.new.node_room ≡ self.old.node_room) }
        ensures correct { IsLinkCorrect self.new.nodes self.new.links }
        ensures err { OnErr result (self.new ≡ self.old) }
        ensures room { self.old.link_room ≤ self.new.link_room + 1 }
        ensures takes { 0 < self.old.link_room → IsOk result }
    {
        let from = label_node(End::Source, &link);
        let into = label_node(End::Target, &link);
        self.at_source.settle(from, &link.label);
        self.at_target.settle(into, &link.label);
        let source = link.source;
        let target = link.target;
        self.links.push(link)?;
        self.by_source.add_link(source);
        self.by_target.add_link(target);
        Ok(())
    }

    /// Puts a link that breaks no rule at the end, where there is room for it. It takes no memory: a busy node for whose
    /// label none was taken before is busy no more.
    pub fn push_link(&mut self, link: Link)
        requires allowed { IsAllowed self.old.nodes self.old.links link }
        requires room { 0 < self.old.link_room }
        ensures added { self.new.links ≡ self.old.links ++ link ∷ [] }
        ensures others { (self.new.nodes ≡ self.old.nodes) × (self.new.node_room ≡ self.old.node_room) }
        ensures correct { IsLinkCorrect self.new.nodes self.new.links }
        ensures room { self.old.link_room ≤ self.new.link_room + 1 }
    {
        let _pushed = self.put_link(link);
    }

    /// Puts a link at the end.
    pub fn add_link(&mut self, link: Link) -> Result<(), GraphError>
        ensures added { OnOk result (self.new.links ≡ self.old.links ++ link ∷ []) }
        ensures others { (self.new.nodes ≡ self.old.nodes) × (self.new.node_room ≡ self.old.node_room) }
        ensures correct { IsLinkCorrect self.new.nodes self.new.links }
        ensures allowed { OnOk result (IsAllowed self.old.nodes self.old.links link) }

        // Each refusal comes exactly where its rule is the first that is broken.
        ensures refusals { RefusesExactly result (Refuses self.old.nodes self.old.links link) }
        ensures err { OnErr result (self.new ≡ self.old) }

        // A link takes at most one place of the room, and with room left it isn't refused for want of memory.
        ensures room { self.old.link_room ≤ self.new.link_room + 1 }
        ensures takes { 0 < self.old.link_room → ¬ IsErrOf result GraphError.OutOfMemory }
    {
        self.check_link(&link)?;
        self.reserve_label(&link);
        self.put_link(link)?;
        Ok(())
    }
}
