// The messages of the protocol.
ghost use Rattle.std.specs.Prelude.{◌≡◌, IfOk};
ghost use Rattle.airbyte_message.specs.States.{IsState};

use crate::{FailureType, Level, StateObject, StreamStatus};
use basics::{Bytes, Copies, Name, NoMemory, Sequence, StreamId};
use std::alloc::Global;
use std::marker::Model;

/// The text of a JSON value, as it stood in its line.
pub type Raw = Bytes;

/// A record of a stream.
#[derive(Debug, Drop)]
pub struct RecordMsg {
    pub id: StreamId,
    /// The member `data`, an object.
    pub body: Raw,
    /// When the source read the record, in milliseconds since 1970; below 2^63.
    pub emitted_at: u64,
    pub meta: Option<Raw>,
}

/// A state of a source: the object that is the member `state`, and what it says. There is no other: `state_of` makes
/// one of a text. Contracts see its `object`, its `kind` and its `source_count`.
#[derive(Debug, Drop)]
pub struct StateMsg {
    object: StateObject,
    kind: StateKind,
    // The member `recordCount` of `sourceStats`; below 2^63.
    source_count: Option<u64>,
}

impl Model for StateMsg {
    ghost use Rattle.airbyte_message.specs.State.{State};
    ghost use Rattle.airbyte_message.specs.States.{IsState};

    ghost Value = { State };

    ghost view = { λ state. record { object = state.object; kind = state.kind; source_count = state.source_count } };

    ghost invariant = { λ state. IsState state.object (record { object = state.object; kind = state.kind; source_count = state.source_count }) };
}

impl StateMsg {
    // The state that this object is.
    pub(crate) fn new(object: StateObject, kind: StateKind, source_count: Option<u64>) -> Self
        requires { IsState object (record { object = object; kind = kind; source_count = source_count }) }
        ensures { result ≡ record { object = object; kind = kind; source_count = source_count } }
    {
        StateMsg {
            object,
            kind,
            source_count,
        }
    }

    /// The member `state`.
    pub fn object(&self) -> &StateObject
        ensures object { result.now ≡ self.now.object }
        ensures state { IsState self.now.object self.now }
    {
        &self.object
    }

    /// What it is of.
    pub fn kind(&self) -> &StateKind
        ensures { result.now ≡ self.now.kind }
    {
        &self.kind
    }

    /// The member `recordCount` of `sourceStats`; below 2^63.
    pub fn source_count(&self) -> Option<u64>
        ensures { result ≡ self.now.source_count }
    {
        self.source_count
    }

    /// The member `state`, in its memory.
    pub fn into_object(self) -> StateObject
        ensures { result ≡ self.object }
    {
        self.object
    }

    /// The object and what it is of, in their memory.
    pub fn into_parts(self) -> (StateObject, StateKind)
        ensures parts { result ≡ (self.object, self.kind) }
        ensures state { IsState self.object self }
    {
        (self.object, self.kind)
    }
}

impl Copies for StateMsg {
    fn copy(&self, alloc: Global) -> Result<Self, NoMemory> {
        Ok(StateMsg {
            object: self.object.copy(alloc)?,
            kind: self.kind.copy(alloc)?,
            source_count: self.source_count,
        })
    }
}

/// What a state is of. A blob is a member `stream_state`, which is the source's own and opaque.
#[derive(Debug, Drop)]
pub enum StateKind {
    /// One stream.
    Stream {
        id: StreamId,
        blob: Option<Raw>,
    },
    /// All streams: the member `shared_state`, and what stands in `stream_states`, in its order.
    Global {
        shared: Option<Raw>,
        streams: StreamBlobList,
    },
    /// A state of the form before states had types.
    Legacy,
}

impl Copies for StateKind {
    fn copy(&self, alloc: Global) -> Result<Self, NoMemory> {
        match self {
            StateKind::Stream { id, blob } => Ok(StateKind::Stream {
                id: id.copy(alloc)?,
                blob: blob.copy(alloc)?,
            }),
            StateKind::Global { shared, streams } => Ok(StateKind::Global {
                shared: shared.copy(alloc)?,
                streams: streams.copy(alloc)?,
            }),
            StateKind::Legacy => Ok(StateKind::Legacy),
        }
    }
}

/// A stream and its blob.
#[derive(Debug, Drop)]
pub struct StreamBlob {
    pub id: StreamId,
    pub blob: Option<Raw>,
}

impl Copies for StreamBlob {
    fn copy(&self, alloc: Global) -> Result<Self, NoMemory> {
        Ok(StreamBlob {
            id: self.id.copy(alloc)?,
            blob: self.blob.copy(alloc)?,
        })
    }
}

/// Streams and their blobs, in the order of the text.
pub type StreamBlobList = Sequence<StreamBlob>;

/// A line of a log.
#[derive(Debug, Drop)]
pub struct LogMsg {
    pub level: Level,
    /// The member `message`.
    pub text: Name,
}

/// What a connector takes as its configuration.
#[derive(Debug, Drop)]
pub struct SpecMsg {
    /// The member `connectionSpecification`, an object.
    pub specification: Raw,
}

/// Whether a configuration serves.
#[derive(Debug, Drop)]
pub struct ConnectionMsg {
    pub succeeded: bool,
    /// The member `message`.
    pub text: Option<Name>,
}

/// The streams that a source has.
#[derive(Debug, Drop)]
pub struct CatalogMsg {
    /// The member `streams`, an array.
    pub streams: Raw,
}

/// What a connector tells of its run. The member `emitted_at` is any JSON number, as it stood.
#[derive(Debug, Drop)]
pub enum TraceMsg {
    /// The member `error`: its message and its failure type.
    Error {
        text: Name,
        failure: Option<FailureType>,
        emitted_at: Option<Raw>,
    },
    /// The member `stream_status`.
    Status {
        id: StreamId,
        status: StreamStatus,
        emitted_at: Option<Raw>,
    },
    /// An estimate, or one for analytics: the member `trace` as it stood.
    Other {
        object: Raw,
    },
}

/// What a connector asks of its platform.
#[derive(Debug, Drop)]
pub struct ControlMsg {
    /// The member `control`, an object.
    pub object: Raw,
}

/// A message of the protocol.
#[derive(Debug, Drop)]
pub enum Message {
    Rec(RecordMsg),
    State(StateMsg),
    Log(LogMsg),
    Spec(SpecMsg),
    Connection(ConnectionMsg),
    Catalog(CatalogMsg),
    Trace(TraceMsg),
    Control(ControlMsg),
}
