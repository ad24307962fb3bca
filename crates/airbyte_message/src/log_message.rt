// The payload of a LOG line.
ghost use Rattle.std.specs.Prelude.{IfOk, codes};
ghost use Rattle.json_fields.specs.Answer.{IsAnswer};
ghost use Rattle.json_fields.specs.Fields.{HasText, IsCut};
ghost use Rattle.airbyte_message.specs.Messages.{IsLog};
ghost use Rattle.airbyte_message.specs.Words.{level_text};

use crate::{Level, LogMsg};
use json_fields::{cut, text_field};
use json_span::{MAX_DEPTH, MemberList};
use basics::NoMemory;
use std::alloc::Global;

// The member `level`.
fn level_of(alloc: Global, text: &[u8], members: &MemberList) -> Result<Option<Level>, NoMemory>
    requires { IsCut text.now members.now }
    ensures { IfOk result (IsAnswer (λ level. HasText text.now (codes "level") (level_text level))) }
{
    match text_field(alloc, text, members, "level")? {
        Some(name) => Ok(Level::of(name.as_str())),
        None => Ok(None),
    }
}

/// The line of a log that a payload is.
pub fn log_of(alloc: Global, text: &[u8]) -> Result<Option<LogMsg>, NoMemory>
    ensures { IfOk result (IsAnswer (IsLog text.now)) }
{
    let Some(members) = cut(alloc, text, MAX_DEPTH)? else {
        return Ok(None);
    };
    let Some(level) = level_of(alloc, text, &members)? else {
        return Ok(None);
    };
    match text_field(alloc, text, &members, "message")? {
        Some(text) => Ok(Some(LogMsg { level, text })),
        None => Ok(None),
    }
}
