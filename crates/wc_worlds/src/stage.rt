//! What rows act on.

use crate::items::put_items;
use crate::parts::Parts;
use crate::told::Told;
use std::alloc::{AllocError, Global};
use wc_graph::Graph;
use wc_value::{Bytes, Files, Text, put};
use wc_world::World;

/// What rows act on: bytes, and those that have names, a graph, and a world.
#[derive(Drop)]
pub struct Stage {
    /// The bytes that have names.
    pub names: Files,
    /// The bytes.
    pub bytes: Parts,
    /// The graph.
    pub graph: Graph,
    /// The world.
    pub world: World,
}

impl Stage {
    /// Nothing is there.
    pub fn new(alloc: Global) -> Stage {
        Stage {
            names: Files::new(alloc),
            bytes: Parts::new(alloc),
            graph: Graph::new(alloc),
            world: World::new(alloc),
        }
    }

    /// A case begins. What has a name keeps it.
    pub fn begin(&mut self, alloc: Global) {
        put(&mut self.bytes, Parts::new(alloc));
        put(&mut self.graph, Graph::new(alloc));
        put(&mut self.world, World::new(alloc));
    }

    /// The bytes are those of these items. Whether they are right.
    pub fn set_bytes(&mut self, alloc: Global, items: &str, told: &mut Told) -> bool {
        put(&mut self.bytes, Parts::new(alloc));
        self.put_bytes(alloc, items, told)
    }

    /// Puts the bytes of these items at the end. Whether they are right.
    pub fn put_bytes(&mut self, alloc: Global, items: &str, told: &mut Told) -> bool {
        put_items(alloc, &self.names, &mut self.bytes, items);
        self.bytes.is_right(told)
    }

    /// Puts a line of a text at the end.
    pub fn put_line(&mut self, line: &str, told: &mut Told) {
        self.bytes.put(line.as_bytes());
        self.bytes.put(b"\n");
        let _ = self.bytes.is_right(told);
    }
}

/// Gives bytes a name.
fn set(alloc: Global, names: &mut Files, name: &str, bytes: &[u8]) -> Result<(), AllocError> {
    let mut copied = Bytes::new(alloc);
    copied.extend(bytes)?;
    names.set(Text::of_str(alloc, name)?, copied)
}

/// Gives bytes a name that none have.
pub fn add_name(alloc: Global, names: &mut Files, name: &str, bytes: &[u8], told: &mut Told) {
    if names.find(name.as_bytes()).is_some() {
        told.refuse();
    } else if set(alloc, names, name, bytes).is_err() {
        told.lose();
    }
}
