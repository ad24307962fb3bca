// A growing list that contracts see as the list of its elements.
ghost use Rattle.std.specs.Prelude.{◌≡◌, ◌<◌, ◌≤◌, option_to_list, List, [], ◌∷◌, ◌++◌, length, take, insert, remove, slice_get, slice_set, string_bytes, Some, IsSome, IfOk, OnOk, OnErr, IsTrue, ◌↔◌};
ghost use Rattle.std.specs.Hash as fed;
ghost use Rattle.std.specs.Cmp.Lexicographic.{pointwise, slice_cmp, slice_partial_cmp, lists_equiv, lists_agrees, lists_total, lists_ties, lists_po, lists_per};
ghost use Rattle.std.specs.Hash.{items_Alike};

use crate::{Copies, NoMemory};
use std::alloc::Global;
use std::cmp::Ordering;
use std::hash::{Hash, Hasher};
use std::marker::Model;
use std::mem;

/// A list of elements, which contracts see as that list.
#[derive(Debug, Drop)]
pub struct Sequence<T> {
    items: Vec<T>,
}

/// A text of bytes.
pub type Bytes = Sequence<u8>;

/// A list of byte texts.
pub type BytesList = Sequence<Bytes>;

/// The numbers of the calls of an object in memory that are to fail, counted from 1.
pub type FailList = Sequence<u64>;

impl<T> Model for Sequence<T> {
    ghost Value = { List T };

    ghost view = { λ sequence. sequence.items.items };
}

impl Sequence<u8> {
    /// A copy of these bytes.
    pub fn copy_of(alloc: Global, bytes: &[u8]) -> Result<Self, NoMemory>
        ensures { IfOk result (λ made. made ≡ bytes.now) }
    {
        Ok(Sequence {
            items: Vec::from_slice(alloc, bytes)?,
        })
    }

    /// The bytes of a string, in its memory.
    pub fn from_string(text: String) -> Self
        ensures { result ≡ string_bytes text }
    {
        Sequence {
            items: text.into_bytes(),
        }
    }
}

impl<T> Sequence<T> {
    /// The empty list. It takes no memory until it grows.
    pub fn new(alloc: Global) -> Self
        ensures { result ≡ [] }
    {
        Sequence {
            items: Vec::new(alloc),
        }
    }

    /// An empty list with room for so many elements.
    pub fn with_capacity(alloc: Global, capacity: usize) -> Result<Self, NoMemory>
        ensures { IfOk result (λ made. made ≡ []) }
    {
        Ok(Sequence {
            items: Vec::with_capacity(alloc, capacity)?,
        })
    }

    /// The list of a vector's elements, in its memory.
    pub fn from_vec(items: Vec<T>) -> Self
        ensures { result ≡ items.items }
    {
        Sequence { items }
    }

    /// The vector of the elements, in this list's memory.
    pub fn into_vec(self) -> Vec<T>
        ensures { result.items ≡ self }
    {
        self.items
    }

    /// How many elements there are.
    pub fn len(&self) -> usize
        ensures { result ≡ length self.now }
    {
        self.items.len()
    }

    /// Whether there is no element.
    pub fn is_empty(&self) -> bool
        ensures { IsTrue result ↔ (self.now ≡ []) }
    {
        self.items.is_empty()
    }

    /// The element at an index, from 0.
    pub fn at(&self, index: usize) -> &T
        requires { index < length self.now }
        ensures { slice_get self.now index ≡ Some result.now }
    {
        &self.items[index]
    }

    /// The elements as a slice.
    pub fn as_slice(&self) -> &[T]
        ensures { result.now ≡ self.now }
    {
        &self.items
    }

    /// Puts an element behind the others.
    pub fn push(&mut self, item: T) -> Result<(), NoMemory>
    where
        T: Drop,
        ensures ok { OnOk result (self.new ≡ self.old ++ item ∷ []) }
        ensures err { OnErr result (self.new ≡ self.old) }
    {
        self.items.push(item)?;
        Ok(())
    }

    /// Puts these elements behind the others, all of them or none.
    pub fn append(&mut self, mut items: Vec<T>) -> Result<(), NoMemory>
    where
        T: Drop,
        ensures ok { OnOk result (self.new ≡ self.old ++ items.items) }
        ensures err { OnErr result (self.new ≡ self.old) }
    {
        self.items.append(&mut items)?;
        Ok(())
    }

    /// Puts an element in the place of the one at an index.
    pub fn set(&mut self, index: usize, item: T)
    where
        T: Drop,
        requires { index < length self.old }
        ensures { self.new ≡ slice_set self.old index item }
    {
        self.items[index] = item;
    }

    /// Puts an element in the place of the one at an index, and hands that out.
    pub fn replace(&mut self, index: usize, item: T) -> T
        requires { index < length self.old }
        ensures set { self.new ≡ slice_set self.old index item }
        ensures taken { slice_get self.old index ≡ Some result }
    {
        mem::replace(&mut self.items[index], item)
    }

    /// Takes out the last element; `None` exactly where there is none.
    pub fn pop(&mut self) -> Option<T>
        ensures taken { self.old ≡ self.new ++ option_to_list result }
        ensures some { IsSome result ↔ (0 < length self.old) }
    {
        self.items.pop()
    }

    /// Puts an element in front of the one at an index, or behind all of them.
    pub fn insert(&mut self, index: usize, item: T) -> Result<(), NoMemory>
    where
        T: Drop,
        requires { index ≤ length self.old }
        ensures ok { OnOk result (self.new ≡ insert self.old index item) }
        ensures err { OnErr result (self.new ≡ self.old) }
    {
        self.items.insert(index, item)?;
        Ok(())
    }

    /// Takes out the element at an index; those behind it move down.
    pub fn remove(&mut self, index: usize) -> T
        requires { index < length self.old }
        ensures taken { slice_get self.old index ≡ Some result }
        ensures left { self.new ≡ remove self.old index }
    {
        self.items.remove(index)
    }

    /// Drops all elements but the first `count`.
    pub fn truncate(&mut self, count: usize)
    where
        T: Drop,
        ensures { self.new ≡ take count self.old }
    {
        self.items.truncate(count);
    }

    /// Drops all elements, and keeps the memory.
    pub fn clear(&mut self)
    where
        T: Drop,
        ensures { self.new ≡ [] }
    {
        self.items.clear();
    }

    /// Makes room for so many elements more, so that the list grows once.
    pub fn reserve(&mut self, additional: usize) -> Result<(), NoMemory>
        ensures { self.new ≡ self.old }
    {
        self.items.reserve(additional)?;
        Ok(())
    }
}

impl Sequence<u8> {
    /// Puts a copy of these bytes behind the others, all of them or none.
    pub fn extend(&mut self, bytes: &[u8]) -> Result<(), NoMemory>
        ensures ok { OnOk result (self.new ≡ self.old ++ bytes.now) }
        ensures err { OnErr result (self.new ≡ self.old) }
    {
        self.items.extend_from_slice(bytes)?;
        Ok(())
    }
}

impl<T: Copies> Copies for Sequence<T> {
    fn copy(&self, alloc: Global) -> Result<Self, NoMemory> {
        let mut copied = Sequence::with_capacity(alloc, self.items.len())?;
        for item in &self.items {
            copied.push(item.copy(alloc)?)?;
        }
        Ok(copied)
    }
}

impl<T: PartialEq> PartialEq for Sequence<T> {
    ghost eq = { λ list other. pointwise T.eq list other };

    ghost laws = { lists_per T.laws };

    fn eq(&self, other: &Self) -> bool {
        self.as_slice() == other.as_slice()
    }
}

impl<T: Eq> Eq for Sequence<T> {
    ghost laws = { lists_equiv T.Eq.laws };
}

impl<T: PartialOrd> PartialOrd for Sequence<T> {
    ghost partial_cmp = { λ list other. slice_partial_cmp T.partial_cmp list other };

    ghost laws = { lists_po T.PartialOrd.laws };

    fn partial_cmp(&self, other: &Self) -> Option<Ordering> {
        self.as_slice().partial_cmp(&other.as_slice())
    }
}

/// Lists are ordered by their first elements that differ.
impl<T: Ord> Ord for Sequence<T> {
    ghost cmp = { λ list other. slice_cmp T.cmp list other };

    ghost total = { lists_total T.total };

    ghost matches_partial_cmp = { λ list other. lists_agrees T.matches_partial_cmp list other };

    ghost matches_eq = { λ list other. lists_ties T.cmp T.matches_eq list other };

    fn cmp(&self, other: &Self) -> Ordering {
        self.as_slice().cmp(&other.as_slice())
    }
}

impl<T: Hash> Hash for Sequence<T> {
    ghost hash_input = { λ list. fed.slice T.hash_input list };

    ghost respects_eq = { (items_Alike (record { fed = T.respects_eq })).fed };

    fn hash<H: Hasher>(&self, state: &mut H) {
        self.as_slice().hash(state);
    }
}
