// The payload of a TRACE line.
ghost use Rattle.std.specs.Prelude.{◌≡◌, IfOk, codes, option_map};
ghost use Rattle.std.specs.Option.{option_copied};
ghost use Rattle.json_fields.specs.Answer.{IsAnswer};
ghost use Rattle.json_fields.specs.Fields.{HasText, HasOptionalText, IsCut};
ghost use Rattle.airbyte_message.specs.Traces.{IsTold, IsTrace};
ghost use Rattle.airbyte_message.specs.Words.{failure_text, status_text, trace_text};

use crate::parts::{copied, descriptor_of};
use crate::{FailureType, StreamStatus, TraceMsg};
use basics::{Bytes, NoMemory};
use json_fields::{cut, field, optional_number, optional_text, text_field};
use json_span::{MAX_DEPTH, MemberList};
use std::alloc::Global;

/// What a trace is of.
#[derive(Clone, Copy, Debug, PartialEq, Eq)]
pub enum TraceType {
    Error,
    Estimate,
    StreamStatus,
    Analytics,
}

impl TraceType {
    /// The type's name in a message.
    pub fn text(&self) -> &'static str
        ensures { result.now ≡ trace_text self.now }
    {
        match self {
            TraceType::Error => "ERROR",
            TraceType::Estimate => "ESTIMATE",
            TraceType::StreamStatus => "STREAM_STATUS",
            TraceType::Analytics => "ANALYTICS",
        }
    }

    /// The type of this name.
    pub fn of(text: &str) -> Option<Self>
        ensures { IsAnswer (λ type. text.now ≡ trace_text type) result }
    {
        if text == "ERROR" {
            return Some(TraceType::Error);
        }
        if text == "ESTIMATE" {
            return Some(TraceType::Estimate);
        }
        if text == "STREAM_STATUS" {
            return Some(TraceType::StreamStatus);
        }
        if text == "ANALYTICS" {
            return Some(TraceType::Analytics);
        }
        None
    }
}

// The member `type`.
fn type_of(alloc: Global, text: &[u8], members: &MemberList) -> Result<Option<TraceType>, NoMemory>
    requires { IsCut text.now members.now }
    ensures { IfOk result (IsAnswer (λ type. HasText text.now (codes "type") (trace_text type))) }
{
    match text_field(alloc, text, members, "type")? {
        Some(name) => Ok(TraceType::of(name.as_str())),
        None => Ok(None),
    }
}

// The member `failure_type`, `Some(None)` where it is absent.
fn failure_of(
    alloc: Global,
    text: &[u8],
    members: &MemberList,
) -> Result<Option<Option<FailureType>>, NoMemory>
    requires { IsCut text.now members.now }
    ensures { IfOk result (IsAnswer (λ failure. HasOptionalText text.now (codes "failure_type") (option_map failure_text failure))) }
{
    match optional_text(alloc, text, members, "failure_type")? {
        Some(Some(name)) => match FailureType::of(name.as_str()) {
            Some(failure) => Ok(Some(Some(failure))),
            None => Ok(None),
        },
        Some(None) => Ok(Some(None)),
        None => Ok(None),
    }
}

// The trace that a payload of type ERROR is, whose time is known.
fn error_of(
    alloc: Global,
    text: &[u8],
    members: &MemberList,
    emitted_at: Option<&[u8]>,
) -> Result<Option<TraceMsg>, NoMemory>
    requires { IsCut text.now members.now }
    ensures { IfOk result (IsAnswer (IsTold TraceType.Error text.now (option_copied emitted_at.entry))) }
{
    let Some(error) = field(alloc, text, members, "error")? else {
        return Ok(None);
    };
    let Some(parts) = cut(alloc, error, MAX_DEPTH)? else {
        return Ok(None);
    };
    let Some(text) = text_field(alloc, error, &parts, "message")? else {
        return Ok(None);
    };
    let Some(failure) = failure_of(alloc, error, &parts)? else {
        return Ok(None);
    };
    Ok(Some(TraceMsg::Error {
        text,
        failure,
        emitted_at: copied(alloc, emitted_at)?,
    }))
}

// The member `status`.
fn status_of(
    alloc: Global,
    text: &[u8],
    members: &MemberList,
) -> Result<Option<StreamStatus>, NoMemory>
    requires { IsCut text.now members.now }
    ensures { IfOk result (IsAnswer (λ status. HasText text.now (codes "status") (status_text status))) }
{
    match text_field(alloc, text, members, "status")? {
        Some(name) => Ok(StreamStatus::of(name.as_str())),
        None => Ok(None),
    }
}

// The trace that a payload of type STREAM_STATUS is, whose time is known.
fn stream_status_of(
    alloc: Global,
    text: &[u8],
    members: &MemberList,
    emitted_at: Option<&[u8]>,
) -> Result<Option<TraceMsg>, NoMemory>
    requires { IsCut text.now members.now }
    ensures { IfOk result (IsAnswer (IsTold TraceType.StreamStatus text.now (option_copied emitted_at.entry))) }
{
    let Some(held) = field(alloc, text, members, "stream_status")? else {
        return Ok(None);
    };
    let Some(parts) = cut(alloc, held, MAX_DEPTH)? else {
        return Ok(None);
    };
    let Some(id) = descriptor_of(alloc, held, &parts)? else {
        return Ok(None);
    };
    let Some(status) = status_of(alloc, held, &parts)? else {
        return Ok(None);
    };
    Ok(Some(TraceMsg::Status {
        id,
        status,
        emitted_at: copied(alloc, emitted_at)?,
    }))
}

// The trace that a payload of this type is, whose time is known.
fn told_of(
    alloc: Global,
    text: &[u8],
    members: &MemberList,
    kind: TraceType,
    emitted_at: Option<&[u8]>,
) -> Result<Option<TraceMsg>, NoMemory>
    requires { IsCut text.now members.now }
    ensures { IfOk result (IsAnswer (IsTold kind text.now (option_copied emitted_at.entry))) }
{
    match kind {
        TraceType::Error => error_of(alloc, text, members, emitted_at),
        TraceType::StreamStatus => stream_status_of(alloc, text, members, emitted_at),
        TraceType::Estimate => other_of(alloc, text),
        TraceType::Analytics => other_of(alloc, text),
    }
}

// The trace that a payload of another type is.
fn other_of(alloc: Global, text: &[u8]) -> Result<Option<TraceMsg>, NoMemory>
    ensures { IfOk result (λ found. found ≡ Some (TraceMsg.Other text.now)) }
{
    Ok(Some(TraceMsg::Other {
        object: Bytes::copy_of(alloc, text)?,
    }))
}

/// The trace that a payload is.
pub fn trace_of(alloc: Global, text: &[u8]) -> Result<Option<TraceMsg>, NoMemory>
    ensures { IfOk result (IsAnswer (IsTrace text.now)) }
{
    let Some(members) = cut(alloc, text, MAX_DEPTH)? else {
        return Ok(None);
    };
    let Some(kind) = type_of(alloc, text, &members)? else {
        return Ok(None);
    };
    match optional_number(alloc, text, &members, "emitted_at")? {
        Some(emitted_at) => told_of(alloc, text, &members, kind, emitted_at),
        None => Ok(None),
    }
}
