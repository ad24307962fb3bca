// A list whose reserved room contracts see.
ghost use Rattle.std.specs.Prelude.{◌≡◌, ◌+◌, ◌-◌, ◌<◌, ◌≤◌, ℕ, List, [], ◌∷◌, ◌++◌, length, take, remove, slice_get, slice_set, Some, OnOk, OnErr};
ghost use Rattle.basics.specs.Roomy.{Roomy};

use crate::NoMemory;
use std::alloc::Global;
use std::marker::Model;

/// A list with room that was made beforehand: `reserve` may answer want of memory, and what is put into that room cannot.
#[derive(Debug, Drop)]
pub struct RoomySequence<T> {
    items: Vec<T>,
}

impl<T> Model for RoomySequence<T> {
    ghost use Rattle.std.specs.Prelude.{◌-◌};
    ghost use Rattle.std.specs.Vec.{vec_len, vec_capacity};
    ghost use Rattle.basics.specs.Roomy.{Roomy};

    ghost Value = { Roomy T };

    ghost view = { λ list. record { elements = list.items.items; room = vec_capacity list.items - vec_len list.items } };
}

impl<T> RoomySequence<T> {
    /// The empty list, without room.
    pub fn new(alloc: Global) -> Self
        ensures { result.elements ≡ [] }
    {
        RoomySequence {
            items: Vec::new(alloc),
        }
    }

    /// How many elements there are.
    pub fn len(&self) -> usize
        ensures { result ≡ length self.now.elements }
    {
        self.items.len()
    }

    /// The elements.
    pub fn as_slice(&self) -> &[T]
        ensures { result.now ≡ self.now.elements }
    {
        &self.items
    }

    /// Makes room for at least so many elements more.
    pub fn reserve(&mut self, additional: usize) -> Result<(), NoMemory>
        ensures elements { self.new.elements ≡ self.old.elements }
        ensures room { OnOk result (additional ≤ self.new.room) }
        ensures kept { self.old.room ≤ self.new.room }
        ensures err { OnErr result (self.new ≡ self.old) }
    {
        self.items.reserve(additional)?;
        Ok(())
    }

    /// Puts an element behind the others, in the room that is there.
    pub fn push_reserved(&mut self, item: T)
        requires { 0 < self.old.room }
        ensures { self.new ≡ record { elements = self.old.elements ++ item ∷ []; room = self.old.room - 1 } }
    {
        self.items.push_reserved(item);
    }

    /// Takes out the element at an index; those behind it move down, and its place is room.
    pub fn remove(&mut self, index: usize) -> T
        requires { index < length self.old.elements }
        ensures taken { slice_get self.old.elements index ≡ Some result }
        ensures left { self.new ≡ record { elements = remove self.old.elements index; room = self.old.room + 1 } }
    {
        self.items.remove(index)
    }

    /// Drops all elements but the first `count`. Their places are room.
    pub fn truncate(&mut self, count: usize)
    where
        T: Drop,
        ensures elements { self.new.elements ≡ take count self.old.elements }
        ensures room { self.old.room ≤ self.new.room }
    {
        self.items.truncate(count);
    }
}
