//! Where the links of each node stand in the list of links.

ghost use Rattle.std.specs.Prelude.{◌≡◌, ◌<◌, ◌≤◌, ◌++◌, ◌∷◌, [], true, if◌then◌else◌, None, length, slice_get, IfOk};
ghost use Rattle.wc_graph.specs.Index.{last_at, AddsLink};

use std::alloc::{AllocError, Global};

/// The most links that an index has.
const MOST_LINKS: usize = 0xffff_fffe;

/// For each node the last link that has the node at one of its ends, and for each link the one before it that has the same
/// node at this end. The places of links are counted from 1, and 0 stands for no link.
///
/// An index is a matter of speed alone: where memory for it ran out, it is given up.
#[derive(Drop)]
pub(crate) struct Index {
    /// Whether all nodes and links are in it.
    pub whole: bool,
    /// The last link of each node, of which the first has the number 1.
    pub last: Vec<u32>,
    /// The link before each link.
    pub before: Vec<u32>,
}

impl Index {
    /// The index of no nodes and no links, which takes no memory.
    pub(crate) fn new(alloc: Global) -> Index
        ensures last { result.last.items ≡ [] }
        ensures before { result.before.items ≡ [] }
    {
        Index {
            whole: true,
            last: Vec::new(alloc),
            before: Vec::new(alloc),
        }
    }

    /// An equal index with memory of its own.
    pub(crate) fn copy(&self, alloc: Global) -> Result<Index, AllocError>
        ensures whole { IfOk result (λ copy. copy.whole ≡ self.now.whole) }
        ensures last { IfOk result (λ copy. copy.last.items ≡ self.now.last.items) }
        ensures before { IfOk result (λ copy. copy.before.items ≡ self.now.before.items) }
    {
        let last = Vec::from_slice(alloc, self.last.as_slice())?;
        let before = Vec::from_slice(alloc, self.before.as_slice())?;
        Ok(Index {
            whole: self.whole,
            last,
            before,
        })
    }

    /// Makes room for so many further nodes and links.
    pub(crate) fn reserve(&mut self, nodes: usize, links: usize) -> Result<(), AllocError>
        ensures whole { self.new.whole ≡ self.old.whole }
        ensures last { self.new.last.items ≡ self.old.last.items }
        ensures before { self.new.before.items ≡ self.old.before.items }
    {
        self.last.reserve(nodes)?;
        self.before.reserve(links)
    }

    /// The place of the last link of a node, where the index tells it.
    pub(crate) fn last_at(&self, node: u32) -> Option<u32>
        ensures { result ≡ (if self.now.whole then last_at self.now.last.items node else None) }
    {
        if !self.whole || node == 0 {
            return None;
        }
        self.last.get(node as usize - 1).copied()
    }

    /// The place of the link before the one at a place that is counted from 0, where the index tells it.
    pub(crate) fn before_at(&self, place: usize) -> Option<u32>
        ensures { result ≡ (if self.now.whole then slice_get self.now.before.items place else None) }
    {
        if !self.whole {
            return None;
        }
        self.before.get(place).copied()
    }

    /// Takes up a node that has no links.
    pub(crate) fn add_node(&mut self)
        ensures whole { self.new.whole ≡ true → self.old.whole ≡ true }
        ensures last { self.new.whole ≡ true → self.new.last.items ≡ self.old.last.items ++ 0 ∷ [] }
        ensures before { self.new.before.items ≡ self.old.before.items }
    {
        if self.whole {
            self.whole = self.last.push(0).is_ok();
        }
    }

    /// Puts a link behind those of a node, before which is the link at this place.
    fn put(&mut self, node: u32, earlier: u32)
        requires some { 0 < node }
        requires within { node ≤ length self.old.last.items }
        ensures whole { self.new.whole ≡ true → self.old.whole ≡ true }
        ensures adds { self.new.whole ≡ true → AddsLink (Some earlier) self.old node self.new }
    {
        let count = self.before.len();
        if count >= MOST_LINKS || self.before.push(earlier).is_err() {
            self.whole = false;
            return;
        }
        self.last[node as usize - 1] = count as u32 + 1;
    }

    /// Takes up a link that has the node at this end.
    pub(crate) fn add_link(&mut self, node: u32)
        ensures whole { self.new.whole ≡ true → self.old.whole ≡ true }
        ensures adds { self.new.whole ≡ true → AddsLink (last_at self.old.last.items node) self.old node self.new }
    {
        match self.last_at(node) {
            Some(earlier) => self.put(node, earlier),
            None => self.whole = false,
        }
    }
}
