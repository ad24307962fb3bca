// Streams in the members of objects.
ghost use Rattle.std.specs.Prelude.{◌≡◌, IfOk};
ghost use Rattle.std.specs.Option.{option_copied};
ghost use Rattle.json_fields.specs.Answer.{IsAnswer};
ghost use Rattle.json_fields.specs.Fields.{IsCut};
ghost use Rattle.airbyte_message.specs.Parts.{HasDescriptor, IsStreamId};

use basics::{Bytes, NoMemory, StreamId};
use json_fields::{cut, field, optional_text, text_field};
use json_span::{MAX_DEPTH, MemberList};
use std::alloc::Global;

/// A stream's name, in the member `name_member`, and perhaps its namespace.
pub fn stream_id_of(
    alloc: Global,
    text: &[u8],
    members: &MemberList,
    name_member: &str,
) -> Result<Option<StreamId>, NoMemory>
    requires { IsCut text.now members.now }
    ensures { IfOk result (IsAnswer (IsStreamId text.now name_member.now)) }
{
    let Some(name) = text_field(alloc, text, members, name_member)? else {
        return Ok(None);
    };
    let Some(namespace) = optional_text(alloc, text, members, "namespace")? else {
        return Ok(None);
    };
    Ok(Some(StreamId { name, namespace }))
}

/// The stream that the member `stream_descriptor` names.
pub fn descriptor_of(
    alloc: Global,
    text: &[u8],
    members: &MemberList,
) -> Result<Option<StreamId>, NoMemory>
    requires { IsCut text.now members.now }
    ensures { IfOk result (IsAnswer (HasDescriptor text.now)) }
{
    let Some(descriptor) = field(alloc, text, members, "stream_descriptor")? else {
        return Ok(None);
    };
    match cut(alloc, descriptor, MAX_DEPTH)? {
        Some(parts) => stream_id_of(alloc, descriptor, &parts, "name"),
        None => Ok(None),
    }
}

/// A copy of a text that may be absent.
pub fn copied(alloc: Global, text: Option<&[u8]>) -> Result<Option<Bytes>, NoMemory>
    ensures { IfOk result (λ copy. copy ≡ option_copied text.entry) }
{
    match text {
        Some(bytes) => Ok(Some(Bytes::copy_of(alloc, bytes)?)),
        None => Ok(None),
    }
}
