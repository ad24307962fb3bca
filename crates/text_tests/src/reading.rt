// Messages of lines.
use airbyte_message::{Message, RecordMsg, StateMsg, read_message};
use basics::{Bytes, NoMemory};
use std::alloc::Global;

/// What may hold of a message. A function that owns a message is dear to prove, so there is one, `fits`, and a test says
/// what is to hold by a type of its own.
pub trait Want {
    fn holds(&self, alloc: Global, message: &Message) -> Result<bool, NoMemory>;
}

/// Whether a line is a message of which this holds.
pub fn fits<W: Want>(alloc: Global, line: &str, want: &W) -> Result<bool, NoMemory> {
    match read_message(alloc, line.as_bytes())? {
        Some(message) => want.holds(alloc, &message),
        None => Ok(false),
    }
}

/// Whether a line is a message.
pub fn is_message(alloc: Global, line: &[u8]) -> Result<bool, NoMemory> {
    Ok(read_message(alloc, line)?.is_some())
}

/// The record that a message is.
pub fn record_in(message: &Message) -> Option<&RecordMsg> {
    match message {
        Message::Rec(content) => Some(content),
        _ => None,
    }
}

/// The state that a message is.
pub fn state_in(message: &Message) -> Option<&StateMsg> {
    match message {
        Message::State(state) => Some(state),
        _ => None,
    }
}

/// Whether a text is this one, or there is none.
pub fn is_text(text: &Option<Bytes>, want: Option<&str>) -> bool {
    match (text, want) {
        (Some(text), Some(want)) => text.as_slice() == want.as_bytes(),
        (None, None) => true,
        _ => false,
    }
}
