// The payload of a CONTROL line.
ghost use Rattle.std.specs.Prelude.{IfOk};
ghost use Rattle.json_fields.specs.Answer.{IsAnswer};
ghost use Rattle.airbyte_message.specs.Messages.{IsControl};

use crate::ControlMsg;
use json_fields::{cut, text_field};
use json_span::MAX_DEPTH;
use basics::{Bytes, NoMemory};
use std::alloc::Global;

/// The control message that a payload is.
pub fn control_of(alloc: Global, text: &[u8]) -> Result<Option<ControlMsg>, NoMemory>
    ensures { IfOk result (IsAnswer (IsControl text.now)) }
{
    let Some(members) = cut(alloc, text, MAX_DEPTH)? else {
        return Ok(None);
    };
    match text_field(alloc, text, &members, "type")? {
        Some(_name) => Ok(Some(ControlMsg {
            object: Bytes::copy_of(alloc, text)?,
        })),
        None => Ok(None),
    }
}
