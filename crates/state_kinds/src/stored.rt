// What a text of the state store holds, before it is checked.
use airbyte_message::StateMsg;
use basics::{Sequence, StreamId};

/// What an entry says.
#[derive(Drop)]
pub struct StoredEntry {
    pub id: StreamId,
    pub generation: u64,
    pub state: Option<StateMsg>,
}

/// What the store's members say.
#[derive(Drop)]
pub struct Stored {
    pub entries: Sequence<StoredEntry>,
    pub global: Option<StateMsg>,
}
