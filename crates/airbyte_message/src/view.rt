// Messages in their lines.
ghost use Rattle.std.specs.Prelude.{◌≡◌, IfOk, option_map};
ghost use Rattle.json_fields.specs.Words.{viewed};
ghost use Rattle.airbyte_message.specs.Views.{id_at, message_at, record_at};

use crate::parts::copied;
use crate::{Message, RecordMsg};
use basics::{Bytes, Name, NoMemory, StreamId};
use json_fields::TextView;
use std::alloc::Global;

/// A stream by its name and its namespace, in its line.
#[derive(Debug, Drop)]
pub struct StreamView<'a> {
    pub name: TextView<'a>,
    pub namespace: Option<TextView<'a>>,
}

/// A record of a stream, in its line.
#[derive(Debug, Drop)]
pub struct RecordView<'a> {
    pub id: StreamView<'a>,
    /// The member `data`, an object.
    pub body: &'a [u8],
    /// When the source read the record, in milliseconds since 1970; below 2^63.
    pub emitted_at: u64,
    pub meta: Option<&'a [u8]>,
}

/// A message of the protocol, in its line. Records, of which there are most, are borrowed; others have their parts.
#[derive(Debug, Drop)]
pub enum MessageView<'a> {
    Rec(RecordView<'a>),
    Owned(Message),
}

// A text as a name of its own, where there is one.
fn named(alloc: Global, view: &Option<TextView<'_>>) -> Result<Option<Name>, NoMemory>
    ensures { IfOk result (λ name. name ≡ option_map viewed view.now) }
{
    match view {
        Some(text) => Ok(Some(text.copied(alloc)?)),
        None => Ok(None),
    }
}

/// The stream, with names of its own.
pub fn own_id(alloc: Global, view: &StreamView<'_>) -> Result<StreamId, NoMemory>
    ensures { IfOk result (λ id. id ≡ id_at view.now) }
{
    Ok(StreamId {
        name: view.name.copied(alloc)?,
        namespace: named(alloc, &view.namespace)?,
    })
}

/// The record, with parts of its own.
pub fn own_record(alloc: Global, view: &RecordView<'_>) -> Result<RecordMsg, NoMemory>
    ensures { IfOk result (λ content. content ≡ record_at view.now) }
{
    Ok(RecordMsg {
        id: own_id(alloc, &view.id)?,
        body: Bytes::copy_of(alloc, view.body)?,
        emitted_at: view.emitted_at,
        meta: copied(alloc, view.meta)?,
    })
}

/// The message, with parts of its own.
pub fn own_message(alloc: Global, view: MessageView<'_>) -> Result<Message, NoMemory>
    ensures { IfOk result (λ message. message ≡ message_at view.entry) }
{
    match view {
        MessageView::Rec(record) => Ok(Message::Rec(own_record(alloc, &record)?)),
        MessageView::Owned(message) => Ok(message),
    }
}
