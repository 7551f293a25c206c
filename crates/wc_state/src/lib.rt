//! What the state of a process is made of.
#![tactic(auto)]

mod context;
mod copies;
mod environment;
mod name_map;
mod ordered;
mod record;

pub use context::{Context, CtxRef};
pub use environment::{Child, Children, Env, Item, Items, Named, NodeValue};
pub use ordered::Ordered;
pub use record::{
    Await, Awaits, Checkpoint, Frame, Frames, Ids, JobPart, Limits, Outs, Part, ProcessKind,
    ProcessRecord, Task, What,
};
