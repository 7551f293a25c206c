//! What an expression is evaluated in.

ghost use Rattle.std.specs.Prelude.{◌≡◌};

use crate::name_map::NameMap;
use crate::ordered::Ordered;
use std::alloc::AllocError;
use wc_value::{Duplicate, Keyed, List, ProcessState, Value};

/// A value and the data node that holds it.
#[derive(Drop)]
pub struct NodeValue {
    /// The number of the node; 0 where there is none, as in a dry run.
    pub node: u32,
    /// The value.
    pub value: Value,
}

/// Values with their nodes by label, strictly ascending by the bytes of the labels.
pub type Named = Keyed<NodeValue>;

/// A process that was called.
#[derive(Drop)]
pub struct Child {
    /// The number of its node; 0 in a dry run.
    pub node: u32,
    /// Its state.
    pub state: ProcessState,
    /// Its outputs.
    pub outputs: Named,
}

/// Called processes, in order of submission.
pub type Children = List<Child>;

/// What a key of the context holds.
#[derive(Drop)]
pub enum Item {
    /// A value that a step set.
    Plain(Value),
    /// One called process.
    One(Child),
    /// Several called processes.
    Many(Children),
}

impl Clone for Item {
    ghost is_clone = { λ s t. t ≡ s };

    fn clone(&self) -> Result<Item, AllocError> {
        match self {
            Item::Plain(value) => Ok(Item::Plain(value.copy()?)),
            Item::One(child) => Ok(Item::One(child.copy()?)),
            Item::Many(children) => Ok(Item::Many(children.copy()?)),
        }
    }
}

/// What the keys of the context hold, in the order in which the keys were first set.
pub type Items = Ordered<Item>;

impl Duplicate for NameMap<Item> {
    fn copy(&self) -> Result<NameMap<Item>, AllocError> {
        Ok(NameMap {
            map: self.map.clone()?,
        })
    }
}

impl Duplicate for Items {
    fn copy(&self) -> Result<Items, AllocError> {
        match &self.pairs {
            None => Ok(Ordered::new(self.alloc)),
            Some(pairs) => Ok(Ordered {
                alloc: self.alloc,
                pairs: Some(Box::new(self.alloc, pairs.copy()?)?),
            }),
        }
    }
}

/// What an expression is evaluated in. In a function only `inputs` is filled.
#[derive(Drop)]
pub struct Env {
    /// The input values by port.
    pub inputs: Named,
    /// The context by key.
    pub ctx: Items,
}
