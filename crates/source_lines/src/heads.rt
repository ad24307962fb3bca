// The parts of a stream's lines that are the same in many of them.
ghost use Rattle.std.specs.Prelude.{◌≡◌, ◌++◌, IfOk, OnOk};
ghost use Rattle.airbyte_message.specs.declared.stream_status.StreamStatus.{StreamStatus};
ghost use Rattle.source_lines.specs.Lines.{status_line};
ghost use Rattle.source_lines.specs.Heads.{line_head, record_head, record_tail, state_head, state_tail};

use airbyte_message::{Message, MessageType, StreamStatus, TraceMsg};
use basics::{Bytes, Copies, NoMemory, StreamId};
use json_write::{put_key, put_number, put_number_member, put_string_member};
use message_writer::{put_id, write_message};
use std::alloc::Global;

// The line of a stream's status.
pub fn status_line_of(
    alloc: Global,
    id: &StreamId,
    moment: u64,
    status: StreamStatus,
) -> Result<Bytes, NoMemory>
    ensures { IfOk result (λ line. line ≡ status_line id.now moment status) }
{
    let mut digits = Bytes::new(alloc);
    put_number(&mut digits, moment)?;
    let message = Message::Trace(TraceMsg::Status {
        id: id.copy(alloc)?,
        status,
        emitted_at: Some(digits),
    });
    write_message(alloc, &message)
}

// A line of this type, up to what it tells.
fn line_start(alloc: Global, kind: MessageType) -> Result<Bytes, NoMemory>
    ensures { IfOk result (λ head. head ≡ line_head kind) }
{
    let mut head = Bytes::new(alloc);
    put_string_member(&mut head, b'{', "type", kind.text())?;
    put_key(&mut head, b',', kind.payload())?;
    Ok(head)
}

// A record's line, up to its body.
pub fn record_start(alloc: Global, id: &StreamId) -> Result<Bytes, NoMemory>
    ensures { IfOk result (λ head. head ≡ record_head id.now) }
{
    let mut head = line_start(alloc, MessageType::Rec)?;
    put_id(&mut head, "stream", id)?;
    put_key(&mut head, b',', "data")?;
    Ok(head)
}

// A record's line, behind its body.
pub fn record_end(alloc: Global, moment: u64) -> Result<Bytes, NoMemory>
    ensures { IfOk result (λ tail. tail ≡ record_tail moment) }
{
    let mut tail = Bytes::new(alloc);
    put_number_member(&mut tail, b',', "emitted_at", moment)?;
    tail.extend(b"}}")?;
    Ok(tail)
}

// A state's line, up to its blob.
pub fn state_start(alloc: Global, id: &StreamId) -> Result<Bytes, NoMemory>
    ensures { IfOk result (λ head. head ≡ state_head id.now) }
{
    let mut head = line_start(alloc, MessageType::State)?;
    put_string_member(&mut head, b'{', "type", "STREAM")?;
    put_key(&mut head, b',', "stream")?;
    put_key(&mut head, b'{', "stream_descriptor")?;
    put_id(&mut head, "name", id)?;
    head.push(b'}')?;
    put_key(&mut head, b',', "stream_state")?;
    Ok(head)
}

// Puts what stands behind a state's blob.
pub fn put_state_end(line: &mut Bytes, count: u64) -> Result<(), NoMemory>
    ensures { OnOk result (line.new ≡ line.old ++ state_tail count) }
{
    line.push(b'}')?;
    put_key(line, b',', "sourceStats")?;
    put_number_member(line, b'{', "recordCount", count)?;
    line.extend(b"}}}")
}
