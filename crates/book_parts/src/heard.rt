// What a line says to a book.
ghost use Rattle.std.specs.Prelude.{◌≡◌, Option, IfOk};
ghost use Rattle.airbyte_message.specs.Views.{id_at, message_at};
ghost use Rattle.airbyte_message.specs.declared.message.Message.TheVariants as message;
ghost use Rattle.json_fields.specs.Answer.{IsAnswer};
ghost use Rattle.load_rules.specs.Lines.{status_told};
ghost use Rattle.book_parts.specs.Heard.{Hears, HearsMessage};

use airbyte_message::{
    Message, MessageReader, MessageView, StateMsg, StreamStatus, TraceMsg, own_id,
};
use basics::{NoMemory, StreamId, StreamNo};
use catalog::Configured;
use std::alloc::Global;

/// What a line says, with the numbers of its streams.
#[derive(Debug, Drop)]
pub enum Heard {
    /// It is no message.
    Nothing,
    /// A record.
    Record(Option<StreamNo>),
    /// A state.
    State(StateMsg),
    /// The status of a stream.
    Status(Option<StreamNo>, StreamStatus),
    /// Another message.
    Other,
}

// What a trace says.
fn trace_heard(catalog: &Configured, content: &TraceMsg) -> Heard
    ensures { HearsMessage catalog.now (message.Trace content.now) result }
{
    match content {
        TraceMsg::Status { id, status, .. } => Heard::Status(catalog.find(id), *status),
        _ => Heard::Other,
    }
}

// What a message says.
fn message_heard(catalog: &Configured, content: Message) -> Heard
    ensures { HearsMessage catalog.now content result }
{
    match content {
        Message::Rec(content) => Heard::Record(catalog.find(&content.id)),
        Message::State(state) => Heard::State(state),
        Message::Trace(content) => trace_heard(catalog, &content),
        _ => Heard::Other,
    }
}

/// Reads a line.
pub fn hear(
    alloc: Global,
    reader: &mut MessageReader,
    catalog: &Configured,
    line: &[u8],
) -> Result<Heard, NoMemory>
    ensures { IfOk result (Hears catalog.now line.now) }
{
    match reader.read(line)? {
        Some(MessageView::Rec(record)) => {
            let id = own_id(alloc, &record.id)?;
            Ok(Heard::Record(catalog.find(&id)))
        }
        Some(MessageView::Owned(content)) => Ok(message_heard(catalog, content)),
        None => Ok(Heard::Nothing),
    }
}
