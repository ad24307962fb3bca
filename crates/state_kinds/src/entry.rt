// What is saved of a stream.
use airbyte_message::StateObject;
use basics::StreamId;

/// A stream, its generation, and its state where it has one.
#[derive(Debug, Drop)]
pub struct SavedEntry {
    pub id: StreamId,
    pub generation: u64,
    pub state: Option<StateObject>,
}
