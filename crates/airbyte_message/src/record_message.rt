// The payload of a RECORD line.
ghost use Rattle.std.specs.Prelude.{IfOk, codes, option_map};
ghost use Rattle.json_fields.specs.Answer.{IsAnswer};
ghost use Rattle.json_fields.specs.Fields.{IsCut};
ghost use Rattle.airbyte_message.specs.Messages.{IsRecord};
ghost use Rattle.airbyte_message.specs.Parts.{IsStreamId};
ghost use Rattle.airbyte_message.specs.Views.{id_at, record_at};

use crate::view::{RecordView, StreamView};
use basics::NoMemory;
use json_fields::{count_in, object_in, optional_in, optional_text_in, text_in};
use json_span::Member;
use std::alloc::Global;

// The stream of a record: its name, and perhaps its namespace.
fn stream_in<'a>(
    alloc: Global,
    text: &'a [u8],
    members: &[Member],
) -> Result<Option<StreamView<'a>>, NoMemory>
    requires { IsCut text.now members.now }
    ensures { IfOk result (λ found. IsAnswer (IsStreamId text.now (codes "stream")) (option_map id_at found)) }
{
    let Some(name) = text_in(alloc, text, members, "stream")? else {
        return Ok(None);
    };
    let Some(namespace) = optional_text_in(alloc, text, members, "namespace")? else {
        return Ok(None);
    };
    Ok(Some(StreamView { name, namespace }))
}

/// The record that a payload is, in place, where its members are known.
pub fn record_in<'a>(
    alloc: Global,
    text: &'a [u8],
    members: &[Member],
) -> Result<Option<RecordView<'a>>, NoMemory>
    requires { IsCut text.now members.now }
    ensures { IfOk result (λ found. IsAnswer (IsRecord text.now) (option_map record_at found)) }
{
    let Some(id) = stream_in(alloc, text, members)? else {
        return Ok(None);
    };
    let Some(body) = object_in(alloc, text, members, "data")? else {
        return Ok(None);
    };
    let Some(emitted_at) = count_in(alloc, text, members, "emitted_at")? else {
        return Ok(None);
    };
    let meta = optional_in(alloc, text, members, "meta")?;
    Ok(Some(RecordView {
        id,
        body,
        emitted_at,
        meta,
    }))
}
