//! Copies of what the state of a process is made of.

use crate::context::CtxRef;
use crate::environment::{Child, Env, Item, NodeValue};
use crate::record::{Await, Checkpoint, Frame, JobPart, Part, ProcessRecord};
use std::alloc::AllocError;
use wc_value::Duplicate;

impl Duplicate for NodeValue {
    fn copy(&self) -> Result<NodeValue, AllocError> {
        Ok(NodeValue {
            node: self.node,
            value: self.value.copy()?,
        })
    }
}

impl Duplicate for Child {
    fn copy(&self) -> Result<Child, AllocError> {
        Ok(Child {
            node: self.node,
            state: self.state,
            outputs: self.outputs.copy()?,
        })
    }
}

impl Duplicate for Item {
    fn copy(&self) -> Result<Item, AllocError> {
        self.clone()
    }
}

impl Duplicate for Env {
    fn copy(&self) -> Result<Env, AllocError> {
        Ok(Env {
            inputs: self.inputs.copy()?,
            ctx: self.ctx.copy()?,
        })
    }
}

impl Duplicate for CtxRef {
    fn copy(&self) -> Result<CtxRef, AllocError> {
        self.clone()
    }
}

impl Duplicate for Frame {
    fn copy(&self) -> Result<Frame, AllocError> {
        Ok(*self)
    }
}

impl Duplicate for JobPart {
    fn copy(&self) -> Result<JobPart, AllocError> {
        Ok(*self)
    }
}

impl Duplicate for Await {
    fn copy(&self) -> Result<Await, AllocError> {
        Ok(Await {
            key: self.key.copy()?,
            append: self.append,
            pid: self.pid,
        })
    }
}

impl Duplicate for Checkpoint {
    fn copy(&self) -> Result<Checkpoint, AllocError> {
        Ok(Checkpoint {
            frames: self.frames.copy()?,
            ctx: self.ctx.copy()?,
            awaiting: self.awaiting.copy()?,
            calls: self.calls,
            outputs: self.outputs.copy()?,
        })
    }
}

impl Duplicate for Part {
    fn copy(&self) -> Result<Part, AllocError> {
        match self {
            Part::Fresh => Ok(Part::Fresh),
            Part::Chain(checkpoint) => Ok(Part::Chain(checkpoint.copy()?)),
            Part::Job(job) => Ok(Part::Job(*job)),
            Part::Over => Ok(Part::Over),
        }
    }
}

impl Duplicate for ProcessRecord {
    fn copy(&self) -> Result<ProcessRecord, AllocError> {
        Ok(ProcessRecord {
            node: self.node,
            kind: self.kind,
            definition: self.definition.copy()?,
            library: self.library,
            depth: self.depth,
            label: self.label.copy()?,
            caching: self.caching,
            state: self.state,
            paused: self.paused,
            cached_from: self.cached_from,
            fuel: self.fuel,
            code: self.code,
            started: self.started,
            ended: self.ended,
            part: self.part.copy()?,
        })
    }
}
