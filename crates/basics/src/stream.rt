// Streams by name, and the places of values in a record.
ghost use Rattle.std.specs.Prelude.{◌≡◌, IfOk};

use crate::{Copies, Name, NoMemory, Sequence};
use std::alloc::Global;

/// A stream by its name and its namespace. An empty namespace is a namespace.
#[derive(Debug, Drop, PartialEq, Eq, PartialOrd, Ord, Hash)]
pub struct StreamId {
    pub name: Name,
    pub namespace: Option<Name>,
}

/// A stream's place in the configured catalog, from 0.
pub type StreamNo = u32;

/// The place of a value in a record's data: the names of the members that lead to it, the outermost first.
pub type Path = Sequence<Name>;

/// Several places, as those of a primary key.
pub type PathList = Sequence<Path>;

impl Copies for StreamId {
    fn copy(&self, alloc: Global) -> Result<Self, NoMemory> {
        Ok(StreamId {
            name: self.name.copy(alloc)?,
            namespace: self.namespace.copy(alloc)?,
        })
    }
}
