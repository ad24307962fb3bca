// A value on the heap that contracts see as the value.
ghost use Rattle.std.specs.Prelude.{◌≡◌, IfOk};

use crate::NoMemory;
use std::alloc::Global;
use std::marker::Model;

/// A value on the heap, which contracts see as the value: it keeps a large variant of an enum small.
#[derive(Debug, Drop)]
pub struct Boxed<T> {
    inner: Box<T>,
}

impl<T> Model for Boxed<T> {
    ghost Value = { T };

    ghost view = { λ boxed. boxed.inner.value };
}

impl<T: Drop> Boxed<T> {
    /// Puts a value on the heap.
    pub fn new(alloc: Global, value: T) -> Result<Self, NoMemory>
        ensures { IfOk result (λ boxed. boxed ≡ value) }
    {
        Ok(Boxed {
            inner: Box::new(alloc, value)?,
        })
    }

    /// The value.
    pub fn get(&self) -> &T
        ensures { result.now ≡ self.now }
    {
        &self.inner
    }
}
