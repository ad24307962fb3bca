// What the members of an entry say.
ghost use Rattle.std.specs.Prelude.{◌↔◌, ◌≤◌, IfOk, IsTrue, codes, length};
ghost use Rattle.json_fields.specs.Answer.{IsAnswer, IsOnly};
ghost use Rattle.json_span.specs.Levels.{AreInside};
ghost use Rattle.json_fields.specs.Fields.{HasField, IsCut, line_depth};
ghost use Rattle.catalog.specs.Entry.{HasIds, HasSchema, HasStream, HasStreamId, IsEntry, IsOptionalShortName, IsStream};

use crate::entry::{Entry, Ids, StreamPart};
use crate::parts::{name_in, optional_count_in, optional_name_in};
use crate::paths::{optional_key, optional_path};
use basics::{Bytes, LONGEST_NAME, Name, NoMemory, StreamId};
use json_fields::{field_in, optional_in, place_of};
use json_span::{DeepMembers, Member, SpanFault};
use std::alloc::Global;

// Whether a namespace, where there is one, is within the limit.
fn is_short(namespace: &Option<Name>) -> bool
    ensures { IsTrue result ↔ IsOptionalShortName namespace.now }
{
    match namespace {
        Some(name) => name.as_str().len() <= LONGEST_NAME,
        None => true,
    }
}

// The stream's name and its namespace.
fn stream_id_of(
    alloc: Global,
    stream: &[u8],
    members: &[Member],
) -> Result<Option<StreamId>, NoMemory>
    requires { IsCut stream.now members.now }
    ensures { IfOk result (IsAnswer (HasStreamId stream.now)) }
{
    let Some(name) = name_in(alloc, stream, members, "name")? else {
        return Ok(None);
    };
    let Some(namespace) = optional_name_in(alloc, stream, members, "namespace")? else {
        return Ok(None);
    };
    if name.as_str().len() > LONGEST_NAME {
        return Ok(None);
    }
    if !is_short(&namespace) {
        return Ok(None);
    }
    Ok(Some(StreamId { name, namespace }))
}

// The stream's schema.
fn schema_of(alloc: Global, stream: &[u8], members: &[Member]) -> Result<Bytes, NoMemory>
    requires { IsCut stream.now members.now }
    ensures { IfOk result (IsOnly (HasSchema stream.now)) }
{
    match optional_in(alloc, stream, members, "json_schema")? {
        Some(held) => Bytes::copy_of(alloc, held),
        None => Bytes::copy_of(alloc, b"{}"),
    }
}

// Whether the stream goes on where it ended.
fn is_resumable(alloc: Global, stream: &[u8], members: &[Member]) -> Result<bool, NoMemory>
    requires { IsCut stream.now members.now }
    ensures { IfOk result (λ is. IsTrue is ↔ HasField stream.now (codes "is_resumable") (codes "true")) }
{
    match field_in(alloc, stream, members, "is_resumable")? {
        Some(held) => Ok(held == b"true".as_slice()),
        None => Ok(false),
    }
}

// What an entry's `stream` says, whose members are these.
fn stream_part_of(
    alloc: Global,
    stream: &[u8],
    members: &[Member],
) -> Result<Option<StreamPart>, NoMemory>
    requires { IsCut stream.now members.now }
    ensures { IfOk result (IsAnswer (IsStream stream.now)) }
{
    let Some(id) = stream_id_of(alloc, stream, members)? else {
        return Ok(None);
    };
    let Some(cursor) = optional_path(alloc, stream, members, "default_cursor_field")? else {
        return Ok(None);
    };
    let Some(key) = optional_key(alloc, stream, members, "source_defined_primary_key")? else {
        return Ok(None);
    };
    let resumable = is_resumable(alloc, stream, members)?;
    let schema = schema_of(alloc, stream, members)?;
    Ok(Some(StreamPart {
        id,
        cursor,
        key,
        resumable,
        schema,
    }))
}

// What the member `stream` of an entry says.
fn stream_in_entry(
    alloc: Global,
    text: &[u8],
    levels: &DeepMembers,
) -> Result<Option<StreamPart>, NoMemory>
    requires cut { IsCut text.now levels.now.outer }
    requires inside { AreInside line_depth text.now levels.now.outer levels.now.inner }
    ensures { IfOk result (IsAnswer (HasStream text.now)) }
{
    let members = levels.outer();
    let Some(place) = place_of(alloc, text, members, "stream")? else {
        return Ok(None);
    };
    let member = members[place];
    match levels.inner(place) {
        Some(parts) => stream_part_of(alloc, member.value.of(text), parts),
        None => Ok(None),
    }
}

// The generation, the minimum generation and the sync's id.
fn ids_of(alloc: Global, text: &[u8], members: &[Member]) -> Result<Option<Ids>, NoMemory>
    requires { IsCut text.now members.now }
    ensures { IfOk result (IsAnswer (HasIds text.now)) }
{
    let Some(generation) = optional_count_in(alloc, text, members, "generation_id")? else {
        return Ok(None);
    };
    let Some(minimum) = optional_count_in(alloc, text, members, "minimum_generation_id")? else {
        return Ok(None);
    };
    match optional_count_in(alloc, text, members, "sync_id")? {
        Some(sync_id) => Ok(Some(Ids {
            generation,
            minimum,
            sync_id,
        })),
        None => Ok(None),
    }
}

// What an entry's members say, where they are cut.
fn entry_in(alloc: Global, text: &[u8], levels: &DeepMembers) -> Result<Option<Entry>, NoMemory>
    requires cut { IsCut text.now levels.now.outer }
    requires inside { AreInside line_depth text.now levels.now.outer levels.now.inner }
    ensures { IfOk result (IsAnswer (IsEntry text.now)) }
{
    let members = levels.outer();
    let Some(stream) = stream_in_entry(alloc, text, levels)? else {
        return Ok(None);
    };
    let Some(sync) = name_in(alloc, text, members, "sync_mode")? else {
        return Ok(None);
    };
    let Some(dest) = name_in(alloc, text, members, "destination_sync_mode")? else {
        return Ok(None);
    };
    let Some(cursor) = optional_path(alloc, text, members, "cursor_field")? else {
        return Ok(None);
    };
    let Some(key) = optional_key(alloc, text, members, "primary_key")? else {
        return Ok(None);
    };
    match ids_of(alloc, text, members)? {
        Some(ids) => Ok(Some(Entry {
            stream,
            sync,
            dest,
            cursor,
            key,
            ids,
        })),
        None => Ok(None),
    }
}

/// What an entry's members say, `None` where one that is required is absent or one has another form. The lists into which
/// the entry is cut are kept for the next one.
pub fn entry_of(
    alloc: Global,
    levels: &mut DeepMembers,
    text: &[u8],
) -> Result<Option<Entry>, NoMemory>
    ensures { IfOk result (IsAnswer (IsEntry text.now)) }
{
    match levels.cut(text) {
        Ok(()) => entry_in(alloc, text, levels),
        Err(SpanFault::NotObject) => Ok(None),
        Err(SpanFault::TooDeep) => Ok(None),
        Err(SpanFault::NotArray) => unreachable!(),
        Err(SpanFault::NoMemory) => Err(NoMemory),
    }
}
