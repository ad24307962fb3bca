// What a state is of: a stream and its blob, or all streams.
ghost use Rattle.std.specs.Prelude.{All, IfOk};
ghost use Rattle.json_span.specs.Elements.{IsElementOf};
ghost use Rattle.json_fields.specs.Answer.{IsAnswer};
ghost use Rattle.json_fields.specs.Fields.{IsCut};
ghost use Rattle.airbyte_message.specs.States.{AreStreamBlobs, HasStreamBlobs, IsKind, IsStreamBlob, IsStreamState};

use crate::parts::{copied, descriptor_of};
use crate::state_message::StateType;
use crate::{StateKind, StreamBlob, StreamBlobList};
use json_fields::{cut, cut_list, field, optional};
use json_span::{MAX_DEPTH, MemberList, Span};
use basics::NoMemory;
use std::alloc::Global;

// A stream and its blob.
fn stream_blob_of(alloc: Global, text: &[u8]) -> Result<Option<StreamBlob>, NoMemory>
    ensures { IfOk result (IsAnswer (IsStreamBlob text.now)) }
{
    let Some(members) = cut(alloc, text, MAX_DEPTH)? else {
        return Ok(None);
    };
    let Some(id) = descriptor_of(alloc, text, &members)? else {
        return Ok(None);
    };
    let blob = optional(alloc, text, &members, "stream_state")?;
    Ok(Some(StreamBlob {
        id,
        blob: copied(alloc, blob)?,
    }))
}

/// The `stream` of a state of type STREAM.
pub fn stream_of(
    alloc: Global,
    text: &[u8],
    members: &MemberList,
) -> Result<Option<StreamBlob>, NoMemory>
    requires { IsCut text.now members.now }
    ensures { IfOk result (IsAnswer (IsStreamState text.now)) }
{
    match field(alloc, text, members, "stream")? {
        Some(stream) => stream_blob_of(alloc, stream),
        None => Ok(None),
    }
}

// The streams and their blobs that the elements at these places are.
fn stream_blobs_at(
    alloc: Global,
    text: &[u8],
    spans: &[Span],
) -> Result<Option<StreamBlobList>, NoMemory>
    requires { All (IsElementOf text.now) spans.now }
    ensures { IfOk result (IsAnswer (AreStreamBlobs text.now spans.now)) }
{
    let mut parts = StreamBlobList::new(alloc);
    for span in spans {
        let Some(part) = stream_blob_of(alloc, span.of(text))? else {
            return Ok(None);
        };
        parts.push(part)?;
    }
    Ok(Some(parts))
}

// The member `stream_states`.
fn stream_blobs_of(
    alloc: Global,
    text: &[u8],
    members: &MemberList,
) -> Result<Option<StreamBlobList>, NoMemory>
    requires { IsCut text.now members.now }
    ensures { IfOk result (IsAnswer (HasStreamBlobs text.now)) }
{
    let Some(list) = field(alloc, text, members, "stream_states")? else {
        return Ok(None);
    };
    match cut_list(alloc, list, MAX_DEPTH)? {
        Some(spans) => stream_blobs_at(alloc, list, spans.as_slice()),
        None => Ok(None),
    }
}

/// The `global` of a state of type GLOBAL.
pub fn global_of(
    alloc: Global,
    text: &[u8],
    members: &MemberList,
) -> Result<Option<StateKind>, NoMemory>
    requires { IsCut text.now members.now }
    ensures { IfOk result (IsAnswer (IsKind StateType.Global text.now)) }
{
    let Some(global) = field(alloc, text, members, "global")? else {
        return Ok(None);
    };
    let Some(parts) = cut(alloc, global, MAX_DEPTH)? else {
        return Ok(None);
    };
    let Some(streams) = stream_blobs_of(alloc, global, &parts)? else {
        return Ok(None);
    };
    let shared = optional(alloc, global, &parts, "shared_state")?;
    Ok(Some(StateKind::Global {
        shared: copied(alloc, shared)?,
        streams,
    }))
}
