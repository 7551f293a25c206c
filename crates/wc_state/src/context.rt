//! The context of a work chain, as it is kept.

ghost use Rattle.std.specs.Prelude.{◌≡◌};

use crate::name_map::NameMap;
use crate::ordered::Ordered;
use crate::record::Ids;
use std::alloc::AllocError;
use wc_value::{Duplicate, Value};

/// What a key of the context holds.
#[derive(Drop)]
pub enum CtxRef {
    /// A value that a step set.
    Plain(Value),
    /// The number of a called process.
    One(u32),
    /// The numbers of called processes, in order of submission.
    Many(Ids),
}

impl Clone for CtxRef {
    ghost is_clone = { λ s t. t ≡ s };

    fn clone(&self) -> Result<CtxRef, AllocError> {
        match self {
            CtxRef::Plain(value) => Ok(CtxRef::Plain(value.copy()?)),
            CtxRef::One(pid) => Ok(CtxRef::One(*pid)),
            CtxRef::Many(pids) => Ok(CtxRef::Many(pids.copy()?)),
        }
    }
}

/// What the keys hold, in the order in which they were first set.
pub type Context = Ordered<CtxRef>;

impl Duplicate for NameMap<CtxRef> {
    fn copy(&self) -> Result<NameMap<CtxRef>, AllocError> {
        Ok(NameMap {
            map: self.map.clone()?,
        })
    }
}

impl Duplicate for Context {
    fn copy(&self) -> Result<Context, AllocError> {
        match &self.pairs {
            None => Ok(Ordered::new(self.alloc)),
            Some(pairs) => Ok(Ordered {
                alloc: self.alloc,
                pairs: Some(Box::new(self.alloc, pairs.copy()?)?),
            }),
        }
    }
}
