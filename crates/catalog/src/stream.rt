// A configured stream.
ghost use Rattle.std.specs.Prelude.{◌≡◌, IfOk};

use crate::{DestMode, SyncMode};
use basics::{Bytes, Copies, NoMemory, Path, PathList, Sequence, StreamId};
use std::alloc::Global;

/// A stream of a configured catalog.
#[derive(Debug, Drop)]
pub struct ConfStream {
    pub id: StreamId,
    pub sync: SyncMode,
    pub dest: DestMode,
    /// The place of the cursor in a record: `cursor_field`, or else the stream's own `default_cursor_field`.
    pub cursor: Option<Path>,
    /// The places of the primary key: `primary_key`, or else the stream's own `source_defined_primary_key`.
    pub key: PathList,
    /// At most 2^62.
    pub generation: Option<u64>,
    /// At most the generation; 0 where it is absent.
    pub minimum: u64,
    /// At most 2^62.
    pub sync_id: Option<u64>,
    pub resumable: bool,
    /// The stream's JSON schema, as it stood; `{}` where it was absent.
    pub schema: Bytes,
    /// The whole entry, as it stood.
    pub raw_entry: Bytes,
}

impl Copies for ConfStream {
    fn copy(&self, alloc: Global) -> Result<Self, NoMemory> {
        Ok(ConfStream {
            id: self.id.copy(alloc)?,
            sync: self.sync,
            dest: self.dest,
            cursor: self.cursor.copy(alloc)?,
            key: self.key.copy(alloc)?,
            generation: self.generation,
            minimum: self.minimum,
            sync_id: self.sync_id,
            resumable: self.resumable,
            schema: self.schema.copy(alloc)?,
            raw_entry: self.raw_entry.copy(alloc)?,
        })
    }
}

/// A stream's generation and its minimum generation in one attempt.
#[derive(Clone, Copy, Debug, PartialEq, Eq)]
pub struct Gen {
    pub generation: u64,
    pub minimum: u64,
}

/// The generations of all streams of a catalog, in its order.
pub type GenList = Sequence<Gen>;
