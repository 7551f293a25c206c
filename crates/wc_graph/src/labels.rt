//! The labels at nodes that have very many links.

ghost use Rattle.std.specs.Prelude.{◌≡◌, ℕ, List, [], OnOk, IsTrue};
ghost use Rattle.wc_graph.specs.Labels.{Has, IsGathered, Knows, Lacks, Notes, Settles, label_node};

use crate::link::{Link, LinkType};
use std::alloc::{AllocError, Global};
use std::collections::{BTreeMap, BTreeSet};
use wc_value::Text;

/// An end of a link.
#[derive(Clone, Copy, Debug, PartialEq, Eq)]
pub(crate) enum End {
    /// The node that the link leaves.
    Source,
    /// The node that the link enters.
    Target,
}

/// A set of labels, each as its bytes.
pub(crate) type Names = BTreeSet<Vec<u8>>;

/// The node at this end of a link, if the link's label stands once there.
pub(crate) fn label_node(end: End, link: &Link) -> Option<u32>
    ensures { result ≡ label_node end link.now }
{
    match (end, link.link) {
        (End::Source, LinkType::Create | LinkType::Return) => Some(link.source),
        (End::Target, LinkType::InputCalc | LinkType::InputWork) => Some(link.target),
        _ => None,
    }
}

/// Puts a label into a set.
pub(crate) fn put_name(alloc: Global, names: &mut Names, label: &Text) -> Result<(), AllocError>
    ensures put { OnOk result (Has names.new label.now) }
    ensures kept { OnOk result ((l : List ℕ) → Has names.old l → Has names.new l) }
{
    let label = Vec::from_slice(alloc, label.bytes())?;
    names.insert(label)?;
    Ok(())
}

/// The labels that stand once at one end, of the nodes that are busy there: that have very many links.
///
/// They are a matter of speed alone: a label that isn't there is free, and what is there or of another node is looked for
/// along the links. Where memory for them runs out, no further node becomes busy.
#[derive(Drop)]
pub(crate) struct Labels {
    /// Whether memory sufficed so far.
    pub whole: bool,
    /// The labels of each busy node.
    pub busy: BTreeMap<u32, BTreeSet<Vec<u8>>>,
}

impl Labels {
    /// No node is busy, which takes no memory.
    pub(crate) fn new(alloc: Global) -> Labels
        ensures { result.busy.entries ≡ [] }
    {
        Labels {
            whole: true,
            busy: BTreeMap::new(alloc),
        }
    }

    /// Whether the node isn't busy and may become so.
    pub(crate) fn takes(&self, node: u32) -> bool {
        self.whole && !self.busy.contains_key(&node)
    }

    /// Whether the node is busy, and the label isn't among its labels.
    pub(crate) fn lacks(&self, node: Option<u32>, label: &Text) -> bool
        ensures { IsTrue result → Lacks self.now.busy node label.now }
    {
        let Some(node) = node else {
            return false;
        };
        match self.busy.get(&node) {
            Some(names) => !names.contains(label.bytes()),
            None => false,
        }
    }

    /// Makes a node busy, of which these are the labels.
    fn add_node(&mut self, node: u32, names: Names)
        ensures { (n : ℕ) (l : List ℕ) → Knows self.old.busy n l → (n ≡ node → Has names l) → Knows self.new.busy n l }
    {
        let done = self.busy.insert(node, names).is_ok();
        self.whole = self.whole && done;
    }

    /// Puts a label into those of a node, if it is busy. Where memory for it runs out, the node is busy no more.
    fn add_label(&mut self, alloc: Global, node: u32, label: &Text)
        ensures kept { (n : ℕ) (l : List ℕ) → Knows self.old.busy n l → Knows self.new.busy n l }
        ensures put { Knows self.new.busy node label.now }
    {
        let Some(mut names) = self.busy.remove(&node) else {
            return;
        };
        if put_name(alloc, &mut names, label).is_err() {
            self.whole = false;
            return;
        }
        self.add_node(node, names);
    }

    /// Makes a node busy if its labels were gathered.
    fn add_gathered(&mut self, node: u32, gathered: Result<Option<Names>, AllocError>)
        ensures { (n : ℕ) (l : List ℕ) → Knows self.old.busy n l → (n ≡ node → IsGathered gathered l) → Knows self.new.busy n l }
    {
        match gathered {
            Ok(Some(names)) => self.add_node(node, names),
            Ok(None) => (),
            Err(_) => self.whole = false,
        }
    }

    /// Takes up the label of a link that has the node at this end, once those are in that were gathered before it.
    pub(crate) fn note(
        &mut self,
        alloc: Global,
        node: Option<u32>,
        gathered: Result<Option<Names>, AllocError>,
        label: &Text,
    )
        ensures { Notes self.old.busy self.new.busy node gathered label.now }
    {
        if let Some(node) = node {
            self.add_gathered(node, gathered);
            self.add_label(alloc, node, label);
        }
    }

    /// Makes a node busy no more, unless the label is among its labels.
    fn settle_node(&mut self, node: u32, label: &Text)
        ensures kept { (n : ℕ) (l : List ℕ) → Knows self.old.busy n l → Knows self.new.busy n l }
        ensures put { Knows self.new.busy node label.now }
    {
        let is_known = match self.busy.get(&node) {
            Some(names) => names.contains(label.bytes()),
            None => true,
        };
        if !is_known {
            let _names = self.busy.remove(&node);
        }
    }

    /// Takes up the label of a link that has the node at this end, without memory: where none was taken for it before, the
    /// node is busy no more.
    pub(crate) fn settle(&mut self, node: Option<u32>, label: &Text)
        ensures { Settles self.old.busy self.new.busy node label.now }
    {
        if let Some(node) = node {
            self.settle_node(node, label);
        }
    }
}
