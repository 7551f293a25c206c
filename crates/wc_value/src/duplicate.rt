//! What can be copied into an equal value.

ghost use Rattle.std.specs.Prelude.{◌≡◌, IfOk};

use std::alloc::AllocError;

/// A value that can be copied into an equal one.
pub trait Duplicate {
    /// An equal value with memory of its own.
    fn copy(&self) -> Result<Self, AllocError>
        ensures { IfOk result (λ copied. copied ≡ self.now) };
}

impl Duplicate for u8 {
    fn copy(&self) -> Result<u8, AllocError> {
        Ok(*self)
    }
}

impl Duplicate for u32 {
    fn copy(&self) -> Result<u32, AllocError> {
        Ok(*self)
    }
}

impl Duplicate for u64 {
    fn copy(&self) -> Result<u64, AllocError> {
        Ok(*self)
    }
}

impl Duplicate for i64 {
    fn copy(&self) -> Result<i64, AllocError> {
        Ok(*self)
    }
}

impl Duplicate for bool {
    fn copy(&self) -> Result<bool, AllocError> {
        Ok(*self)
    }
}

impl<A: Duplicate + Drop, B: Duplicate + Drop> Duplicate for (A, B) {
    fn copy(&self) -> Result<(A, B), AllocError> {
        Ok((self.0.copy()?, self.1.copy()?))
    }
}

impl<T: Duplicate + Drop> Duplicate for Option<T> {
    fn copy(&self) -> Result<Option<T>, AllocError> {
        match self {
            Some(item) => Ok(Some(item.copy()?)),
            None => Ok(None),
        }
    }
}
