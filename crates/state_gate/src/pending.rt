// Records and states as a gate knows them.
use airbyte_message::StateMsg;
use basics::StreamNo;

/// What a state covers (Airbyte Protocol, version 0: AirbyteStateMessage): the records of one stream, or all records.
#[derive(Clone, Copy, Debug, PartialEq, Eq)]
pub enum Lane {
    Stream(StreamNo),
    Global,
}

/// A state that was accepted and not taken out.
#[derive(Debug, Drop)]
pub struct Pending {
    pub lane: Lane,
    pub state: StateMsg,
    /// How many records that it covers were accepted since the lane's state before it.
    pub count: u64,
    /// Its place among all accepted states, from 0.
    pub number: u64,
}

/// A record that was accepted.
#[derive(Clone, Copy, Debug, PartialEq, Eq)]
pub struct Accepted {
    pub seq: u64,
    pub stream: StreamNo,
}

/// A state that waits, and the sequence behind that of the last record before it.
#[derive(Debug, Drop)]
pub struct Waiting {
    pub pending: Pending,
    pub behind: u64,
}
