// What a TRACE line tells.
ghost use Rattle.std.specs.Prelude.{◌≡◌, [], ◌∷◌, ◌++◌, List, ℕ, Option, OnOk, codes, option_map};
ghost use Rattle.json.specs.Print.{quoted};
ghost use Rattle.airbyte_message.specs.Words.{failure_text, trace_text};
ghost use Rattle.json_write.specs.Objects.{more_text, named, optional, part_before};
ghost use Rattle.message_writer.specs.Written.{error_text, stream_status_text, told_text, trace_object};
ghost use Rattle.airbyte_message.specs.declared.trace_message.TraceType.TheVariants as types;

use crate::parts::put_id;
use airbyte_message::{FailureType, Raw, StreamStatus, TraceMsg, TraceType};
use basics::{Bytes, Name, NoMemory, StreamId};
use json_write::{put_key, put_optional_member, put_string_member};

// Puts a further member that is a failure type, where there is one.
fn put_failure(text: &mut Bytes, failure: &Option<FailureType>) -> Result<(), NoMemory>
    ensures { OnOk result (text.new ≡ text.old ++ more_text (optional (codes "failure_type") (option_map (λ f. quoted (failure_text f)) failure.now) [])) }
{
    match failure {
        Some(held) => {
            put_string_member(text, b',', "failure_type", held.text())?;
            Ok(())
        }
        None => Ok(()),
    }
}

// Puts the `error` of a trace.
fn put_error(
    text: &mut Bytes,
    meaning: &Name,
    failure: &Option<FailureType>,
) -> Result<(), NoMemory>
    ensures { OnOk result (text.new ≡ text.old ++ error_text meaning.now failure.now) }
{
    put_string_member(text, b'{', "message", meaning.as_str())?;
    put_failure(text, failure)?;
    text.push(b'}')?;
    Ok(())
}

// Puts the `stream_status` of a trace.
fn put_status(text: &mut Bytes, id: &StreamId, status: StreamStatus) -> Result<(), NoMemory>
    ensures { OnOk result (text.new ≡ text.old ++ stream_status_text id.now status) }
{
    put_key(text, b'{', "stream_descriptor")?;
    put_id(text, "name", id)?;
    text.push(b'}')?;
    put_string_member(text, b',', "status", status.text())?;
    text.push(b'}')?;
    Ok(())
}

// Puts the first members of a trace: its type, and when it was emitted where that is known.
fn put_type(text: &mut Bytes, kind: TraceType, emitted_at: &Option<Raw>) -> Result<(), NoMemory>
    ensures { OnOk result (text.new ≡ text.old ++ (123 ∷ part_before (named (codes "type") (quoted (trace_text kind))) []) ++ more_text (optional (codes "emitted_at") emitted_at.now [])) }
{
    put_string_member(text, b'{', "type", kind.text())?;
    put_optional_member(text, "emitted_at", emitted_at)
}

// Puts a trace of type ERROR.
fn put_error_trace(
    text: &mut Bytes,
    meaning: &Name,
    failure: &Option<FailureType>,
    emitted_at: &Option<Raw>,
) -> Result<(), NoMemory>
    ensures { OnOk result (text.new ≡ text.old ++ told_text types.Error emitted_at.now (codes "error") (error_text meaning.now failure.now)) }
{
    put_type(text, TraceType::Error, emitted_at)?;
    put_key(text, b',', "error")?;
    put_error(text, meaning, failure)?;
    text.push(b'}')?;
    Ok(())
}

// Puts a trace of type STREAM_STATUS.
fn put_status_trace(
    text: &mut Bytes,
    id: &StreamId,
    status: StreamStatus,
    emitted_at: &Option<Raw>,
) -> Result<(), NoMemory>
    ensures { OnOk result (text.new ≡ text.old ++ told_text types.StreamStatus emitted_at.now (codes "stream_status") (stream_status_text id.now status)) }
{
    put_type(text, TraceType::StreamStatus, emitted_at)?;
    put_key(text, b',', "stream_status")?;
    put_status(text, id, status)?;
    text.push(b'}')?;
    Ok(())
}

// Puts the `trace` of a TRACE line.
pub fn put_trace(text: &mut Bytes, content: &TraceMsg) -> Result<(), NoMemory>
    ensures { OnOk result (text.new ≡ text.old ++ trace_object content.now) }
{
    match content {
        TraceMsg::Error {
            text: meaning,
            failure,
            emitted_at,
        } => put_error_trace(text, meaning, failure, emitted_at),
        TraceMsg::Status {
            id,
            status,
            emitted_at,
        } => put_status_trace(text, id, *status, emitted_at),
        TraceMsg::Other { object } => text.extend(object.as_slice()),
    }
}
