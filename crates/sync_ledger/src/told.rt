// What a line tells a ledger.
ghost use Rattle.std.specs.Prelude.{◌≡◌, IfOk, Some, option_map};
ghost use Rattle.airbyte_message.specs.Views.{message_at};
ghost use Rattle.airbyte_message.specs.declared.message.Message.TheVariants as message;
ghost use Rattle.sync_ledger.specs.Told.{told_of as told_by, trace_told as told_by_trace};

use crate::Saying;
use crate::said::{log_line, plain_line, say_error};
use airbyte_message::{Message, MessageView, StateMsg, StreamStatus, TraceMsg, own_id};
use basics::{NoMemory, StreamId};
use outside::Side;
use std::alloc::Global;

/// What a line tells a ledger: of a record its stream, a state, the status of a stream; of all else what is to be said.
#[derive(Debug, Drop)]
pub enum Told {
    Record(StreamId),
    State(StateMsg),
    Status(StreamId, StreamStatus),
    Other(Saying),
}

// What a trace tells.
fn trace_told(alloc: Global, side: Side, trace: TraceMsg) -> Result<Told, NoMemory>
    ensures { IfOk result (λ told. told ≡ told_by_trace side trace) }
{
    match trace {
        TraceMsg::Error { text, failure, .. } => {
            Ok(Told::Other(say_error(alloc, side, failure, &text)?))
        }
        TraceMsg::Status { id, status, .. } => Ok(Told::Status(id, status)),
        TraceMsg::Other { .. } => Ok(Told::Other(Saying::Nothing)),
    }
}

// What a message tells.
fn message_told(alloc: Global, side: Side, line: &[u8], content: Message) -> Result<Told, NoMemory>
    ensures { IfOk result (λ told. told ≡ told_by side line.now (Some content)) }
{
    match content {
        Message::Rec(record) => Ok(Told::Record(record.id)),
        Message::State(state) => Ok(Told::State(state)),
        Message::Log(log) => Ok(Told::Other(Saying::Say(log_line(alloc, side, &log)?))),
        Message::Trace(trace) => trace_told(alloc, side, trace),
        Message::Spec(_) => Ok(Told::Other(Saying::Nothing)),
        Message::Connection(_) => Ok(Told::Other(Saying::Nothing)),
        Message::Catalog(_) => Ok(Told::Other(Saying::Nothing)),
        Message::Control(_) => Ok(Told::Other(Saying::Nothing)),
    }
}

/// What a line tells that reads as this.
pub fn told_of(
    alloc: Global,
    side: Side,
    line: &[u8],
    found: Option<MessageView<'_>>,
) -> Result<Told, NoMemory>
    ensures { IfOk result (λ told. told ≡ told_by side line.now (option_map message_at found.entry)) }
{
    match found {
        None => Ok(Told::Other(Saying::Say(plain_line(alloc, side, line)?))),
        Some(MessageView::Rec(record)) => Ok(Told::Record(own_id(alloc, &record.id)?)),
        Some(MessageView::Owned(content)) => message_told(alloc, side, line, content),
    }
}
