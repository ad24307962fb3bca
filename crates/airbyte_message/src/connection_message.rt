// The payload of a CONNECTION_STATUS line.
ghost use Rattle.std.specs.Prelude.{◌≡◌, IfOk, codes};
ghost use Rattle.json_fields.specs.Answer.{IsAnswer};
ghost use Rattle.json_fields.specs.Fields.{HasText, IsCut};
ghost use Rattle.airbyte_message.specs.Messages.{IsConnection};
ghost use Rattle.airbyte_message.specs.Words.{connection_text};

use crate::ConnectionMsg;
use basics::NoMemory;
use json_fields::{cut, optional_text, text_field};
use json_span::{MAX_DEPTH, MemberList};
use std::alloc::Global;

impl ConnectionMsg {
    /// The member `status`.
    pub fn status(&self) -> &'static str
        ensures { result.now ≡ connection_text self.now.succeeded }
    {
        if self.succeeded {
            "SUCCEEDED"
        } else {
            "FAILED"
        }
    }
}

// Whether a status of this name is a success.
fn success_named(text: &str) -> Option<bool>
    ensures { IsAnswer (λ success. text.now ≡ connection_text success) result }
{
    if text == "SUCCEEDED" {
        return Some(true);
    }
    if text == "FAILED" {
        return Some(false);
    }
    None
}

// The member `status`.
fn success_of(alloc: Global, text: &[u8], members: &MemberList) -> Result<Option<bool>, NoMemory>
    requires { IsCut text.now members.now }
    ensures { IfOk result (IsAnswer (λ success. HasText text.now (codes "status") (connection_text success))) }
{
    let Some(name) = text_field(alloc, text, members, "status")? else {
        return Ok(None);
    };
    Ok(success_named(name.as_str()))
}

/// The status that a payload is.
pub fn connection_of(alloc: Global, text: &[u8]) -> Result<Option<ConnectionMsg>, NoMemory>
    ensures { IfOk result (IsAnswer (IsConnection text.now)) }
{
    let Some(members) = cut(alloc, text, MAX_DEPTH)? else {
        return Ok(None);
    };
    let Some(succeeded) = success_of(alloc, text, &members)? else {
        return Ok(None);
    };
    match optional_text(alloc, text, &members, "message")? {
        Some(text) => Ok(Some(ConnectionMsg { succeeded, text })),
        None => Ok(None),
    }
}
