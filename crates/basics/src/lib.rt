//! What every crate of the worker stands on: byte texts, names, lists and stream ids, their copies, and the limits.
#![tactic(auto)]

mod boxed;
mod copies;
mod limits;
mod memory;
mod name;
mod roomy;
mod sequence;
mod stream;

pub use boxed::Boxed;
pub use copies::Copies;
pub use limits::{
    DEEPEST_JSON, DEEPEST_STATE, GREATEST_GENERATION, LONGEST_DEST_LINE, LONGEST_LINE,
    LONGEST_NAME, MOST_STREAMS,
};
pub use memory::NoMemory;
pub use name::Name;
pub use roomy::RoomySequence;
pub use sequence::{Bytes, BytesList, FailList, Sequence};
pub use stream::{Path, PathList, StreamId, StreamNo};
