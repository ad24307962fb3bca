// An entry of a catalog, before it is judged.
use basics::{Bytes, Name, Path, PathList, StreamId};

/// What an entry's `stream` says.
#[derive(Drop)]
pub struct StreamPart {
    pub id: StreamId,
    /// The member `default_cursor_field`, empty where it is absent.
    pub cursor: Path,
    /// The member `source_defined_primary_key`, empty where it is absent.
    pub key: PathList,
    pub resumable: bool,
    pub schema: Bytes,
}

/// The members that are generations, and the sync's id.
#[derive(Clone, Copy)]
pub struct Ids {
    pub generation: Option<u64>,
    pub minimum: Option<u64>,
    pub sync_id: Option<u64>,
}

/// What an entry's members say.
#[derive(Drop)]
pub struct Entry {
    pub stream: StreamPart,
    /// The word of the sync mode.
    pub sync: Name,
    /// The word of the destination's mode.
    pub dest: Name,
    /// The member `cursor_field`, empty where it is absent.
    pub cursor: Path,
    /// The member `primary_key`, empty where it is absent.
    pub key: PathList,
    pub ids: Ids,
}
