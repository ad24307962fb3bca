// Copies that contracts know to be equal.
ghost use Rattle.std.specs.Prelude.{◌≡◌, IfOk};

use crate::{Boxed, NoMemory};
use std::alloc::Global;

/// A value that can be copied; what its copy keeps on the heap is the copy's own.
pub trait Copies: Drop {
    /// An equal value.
    fn copy(&self, alloc: Global) -> Result<Self, NoMemory>
        ensures copied { IfOk result (λ copied. copied ≡ self.now) };
}

impl Copies for u8 {
    fn copy(&self, _alloc: Global) -> Result<Self, NoMemory> {
        Ok(*self)
    }
}

impl Copies for u32 {
    fn copy(&self, _alloc: Global) -> Result<Self, NoMemory> {
        Ok(*self)
    }
}

impl Copies for u64 {
    fn copy(&self, _alloc: Global) -> Result<Self, NoMemory> {
        Ok(*self)
    }
}

impl Copies for bool {
    fn copy(&self, _alloc: Global) -> Result<Self, NoMemory> {
        Ok(*self)
    }
}

impl<T: Copies> Copies for Boxed<T> {
    fn copy(&self, alloc: Global) -> Result<Self, NoMemory> {
        Boxed::new(alloc, self.get().copy(alloc)?)
    }
}

impl<T: Copies> Copies for Option<T> {
    fn copy(&self, alloc: Global) -> Result<Self, NoMemory> {
        match self {
            Some(value) => Ok(Some(value.copy(alloc)?)),
            None => Ok(None),
        }
    }
}
