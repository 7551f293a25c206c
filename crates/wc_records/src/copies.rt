//! Copies of what changes say.

use crate::change::{NewProcess, SetProcess};
use std::alloc::AllocError;
use wc_value::Duplicate;

impl Duplicate for NewProcess {
    fn copy(&self) -> Result<NewProcess, AllocError> {
        Ok(NewProcess {
            kind: self.kind,
            definition: self.definition.copy()?,
            library: self.library,
            depth: self.depth,
            label: self.label.copy()?,
            caching: self.caching,
        })
    }
}

impl Duplicate for SetProcess {
    fn copy(&self) -> Result<SetProcess, AllocError> {
        Ok(SetProcess {
            pid: self.pid,
            state: self.state,
            paused: self.paused,
            cached_from: self.cached_from,
            fuel: self.fuel,
            code: self.code,
            part: self.part.copy()?,
        })
    }
}
