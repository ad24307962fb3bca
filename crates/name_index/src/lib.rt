//! Names in constant time: some names, each once, and the place of each.
#![tactic(auto)]

ghost use Rattle.std.specs.Prelude.{◌≡◌, ◌<◌, ℕ, [], Some, IfNone, IfOk, IfSome, OnErr, OnOk, length, slice_get};
ghost use Rattle.std.specs.List.{IsDistinct};
ghost use Rattle.std.specs.Str.{bytes_eq};
ghost use Rattle.name_index.specs.Named.{with_name};

use basics::NoMemory;
use indexmap::IndexSet;
use std::alloc::Global;
use std::marker::Model;

/// Some names in order, each once. The place of one is found in constant time, whatever their number.
#[derive(Drop)]
pub struct NameIndex {
    names: IndexSet<String>,
}

impl Model for NameIndex {
    ghost use Rattle.std.specs.Prelude.{List, ℕ, map, string_bytes};
    ghost use Rattle.std.specs.List.{IsDistinct};
    ghost use Rattle.std.specs.Str.{bytes_eq};

    ghost Value = { List (List ℕ) };

    ghost view = { λ index. map (λ name. string_bytes name) index.names.keys };

    ghost invariant = { λ index. IsDistinct bytes_eq (map (λ name. string_bytes name) index.names.keys) };
}

impl NameIndex {
    /// No names. It takes no memory until it grows.
    pub fn new(alloc: Global) -> Self
        ensures { result ≡ [] }
    {
        NameIndex {
            names: IndexSet::new(alloc),
        }
    }

    /// How many names there are.
    pub fn len(&self) -> usize
        ensures len { result ≡ length self.now }
        ensures distinct { IsDistinct bytes_eq self.now }
    {
        self.names.len()
    }

    /// The name at a place, from 0.
    pub fn at(&self, place: usize) -> &str
        requires { place < length self.now }
        ensures { slice_get self.now place ≡ Some result.now }
    {
        match self.names.get_index(place) {
            Some(name) => name.as_str(),
            None => unreachable!(),
        }
    }

    /// The place of a name, `None` exactly where it is not there.
    pub fn find(&self, name: &str) -> Option<usize>
        ensures found { IfSome result (λ place. slice_get self.now place ≡ Some name.now) }
        ensures none { IfNone result ((place : ℕ) → ¬ (slice_get self.now place ≡ Some name.now)) }
    {
        self.names.get_index_of(name)
    }

    /// The place of a name, which is put behind the others where it is not there.
    pub fn add(&mut self, alloc: Global, name: &str) -> Result<usize, NoMemory>
        ensures place { IfOk result (λ place. slice_get self.new place ≡ Some name.now) }
        ensures grown { OnOk result (self.new ≡ with_name self.old name.now) }
        ensures err { OnErr result (self.new ≡ self.old) }
    {
        let (place, _) = self.names.insert_full(String::from_str(alloc, name)?)?;
        Ok(place)
    }
}
