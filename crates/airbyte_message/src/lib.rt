//! Airbyte messages, read from lines, and the echo of a state.
#![tactic(auto)]

mod catalog_message;
mod connection_message;
mod control_message;
mod echo;
mod failure_type;
mod laws;
mod level;
mod log_message;
mod message;
mod parts;
mod read;
mod record_message;
mod same;
mod spec_message;
mod state_message;
mod state_object;
mod stream_blob;
mod stream_status;
mod trace_message;
mod view;

pub use echo::echo_of;
pub use failure_type::FailureType;
pub use laws::{echoes_read_back, one_echo, one_message};
pub use level::Level;
pub use message::{
    CatalogMsg, ConnectionMsg, ControlMsg, LogMsg, Message, Raw, RecordMsg, SpecMsg, StateKind,
    StateMsg, StreamBlob, StreamBlobList, TraceMsg,
};
pub use read::{MessageReader, MessageType, read_message};
pub use same::{same_laws, same_state};
pub use state_message::state_of;
pub use state_object::StateObject;
pub use stream_status::StreamStatus;
pub use trace_message::TraceType;
pub use view::{MessageView, RecordView, StreamView, own_id, own_message, own_record};
