// The line of a message.
ghost use Rattle.std.specs.Prelude.{◌≡◌, ◌++◌, IfOk, OnOk};
ghost use Rattle.airbyte_message.specs.Messages.{IsMessage};
ghost use Rattle.airbyte_message.specs.declared.message.Message.{Message};
ghost use Rattle.message_writer.specs.Forms.{HasForms, ReadHasForms};
ghost use Rattle.message_writer.specs.Written.{payload_of, type_of, written};

use crate::payload::{put_catalog, put_connection, put_log, put_record, put_spec};
use crate::trace::put_trace;
use airbyte_message::{Message, MessageType};
use basics::{Bytes, NoMemory};
use json_write::{put_key, put_string_member};
use std::alloc::Global;

// The bytes of a line around the largest part of its message, in most cases.
const ENVELOPE: usize = 256;

// The type of a message's line.
fn kind_of(message: &Message) -> MessageType
    ensures { result ≡ type_of message.now }
{
    match message {
        Message::Rec(_) => MessageType::Rec,
        Message::State(_) => MessageType::State,
        Message::Log(_) => MessageType::Log,
        Message::Spec(_) => MessageType::Spec,
        Message::Connection(_) => MessageType::Connection,
        Message::Catalog(_) => MessageType::Catalog,
        Message::Trace(_) => MessageType::Trace,
        Message::Control(_) => MessageType::Control,
    }
}

// The room that a line needs, or nearly so.
fn room_of(message: &Message) -> usize {
    let largest = match message {
        Message::Rec(content) => content.body.len(),
        Message::State(content) => content.object().len(),
        Message::Spec(content) => content.specification.len(),
        Message::Catalog(content) => content.streams.len(),
        Message::Control(content) => content.object.len(),
        _ => 0,
    };
    largest.saturating_add(ENVELOPE)
}

// Puts an object as it stands.
fn put_object(text: &mut Bytes, object: &[u8]) -> Result<(), NoMemory>
    ensures { OnOk result (text.new ≡ text.old ++ object.now) }
{
    text.extend(object)
}

// Puts what the line tells.
fn put_payload(line: &mut Bytes, message: &Message) -> Result<(), NoMemory>
    ensures { OnOk result (line.new ≡ line.old ++ payload_of message.now) }
{
    match message {
        Message::Rec(content) => put_record(line, content),
        Message::State(content) => put_object(line, content.object().as_slice()),
        Message::Log(content) => put_log(line, content),
        Message::Spec(content) => put_spec(line, content),
        Message::Connection(content) => put_connection(line, content),
        Message::Catalog(content) => put_catalog(line, content),
        Message::Trace(content) => put_trace(line, content),
        Message::Control(content) => put_object(line, content.object.as_slice()),
    }
}

/// The line of a message, without a newline: its members in the order of the protocol, without white space. Texts
/// are quoted as `serde_json` quotes them, raw parts stand as they are, and optional parts are left out where they
/// are absent. Where the parts have the forms that the protocol asks for, the line is read as the same message.
pub fn write_message(alloc: Global, message: &Message) -> Result<Bytes, NoMemory>
    ensures written { IfOk result (λ line. line ≡ written message.now) }
    ensures reads_back { HasForms message.now → IfOk result (λ line. IsMessage line message.now) }
    ensures only { HasForms message.now → IfOk result (λ line. (other : Message) → IsMessage line other → other ≡ message.now) }
{
    let kind = kind_of(message);
    let mut line = Bytes::with_capacity(alloc, room_of(message))?;
    put_string_member(&mut line, b'{', "type", kind.text())?;
    put_key(&mut line, b',', kind.payload())?;
    put_payload(&mut line, message)?;
    line.push(b'}')?;
    Ok(line)
}

/// A law: every message that a line is has the forms, so that its own line is read as it.
pub fn read_has_forms()
    ensures { ReadHasForms }
{}
