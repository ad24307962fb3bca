// The payload of a SPEC line.
ghost use Rattle.std.specs.Prelude.{IfOk};
ghost use Rattle.json_fields.specs.Answer.{IsAnswer};
ghost use Rattle.airbyte_message.specs.Messages.{IsSpec};

use crate::SpecMsg;
use json_fields::{cut, object_field};
use json_span::MAX_DEPTH;
use basics::{Bytes, NoMemory};
use std::alloc::Global;

/// The specification that a payload is.
pub fn spec_of(alloc: Global, text: &[u8]) -> Result<Option<SpecMsg>, NoMemory>
    ensures { IfOk result (IsAnswer (IsSpec text.now)) }
{
    let Some(members) = cut(alloc, text, MAX_DEPTH)? else {
        return Ok(None);
    };
    match object_field(alloc, text, &members, "connectionSpecification")? {
        Some(object) => Ok(Some(SpecMsg {
            specification: Bytes::copy_of(alloc, object)?,
        })),
        None => Ok(None),
    }
}
