// The payload of a STATE line.
ghost use Rattle.std.specs.Prelude.{◌↔◌, IfOk, IsTrue, Some, codes};
ghost use Rattle.json_fields.specs.Answer.{IsAnswer};
ghost use Rattle.json_fields.specs.Fields.{IsCut};
ghost use Rattle.json_fields.specs.Parts.{HasOptionalCount};
ghost use Rattle.airbyte_message.specs.States.{HasStats, HasStateType, IsKind, IsOneLine, IsState, IsStateType};

use crate::stream_blob::{global_of, stream_of};
use crate::{StateKind, StateMsg, StateObject, StreamBlob};
use basics::{Bytes, Name, NoMemory};
use json_fields::{cut, optional, optional_count, optional_text};
use json_span::{MAX_DEPTH, MemberList};
use std::alloc::Global;

// A state nests at most so deep, so that the state store can hold it.
const STATE_DEPTH: usize = 124;

/// What a state is of, by its `type`.
#[derive(Clone, Copy, Debug, PartialEq, Eq)]
pub enum StateType {
    Stream,
    Global,
    Legacy,
}

// The type of a state whose `type` is this.
fn type_named(name: &str) -> Option<StateType>
    ensures { IsAnswer (IsStateType (Some name.now)) result }
{
    if name == "STREAM" {
        return Some(StateType::Stream);
    }
    if name == "GLOBAL" {
        return Some(StateType::Global);
    }
    if name == "LEGACY" {
        return Some(StateType::Legacy);
    }
    None
}

// The type of a state whose `type` is this, or absent.
fn optional_type(name: &Option<Name>) -> Option<StateType>
    ensures { IsAnswer (IsStateType name.now) result }
{
    match name {
        Some(name) => type_named(name.as_str()),
        None => Some(StateType::Legacy),
    }
}

// The member `type`.
fn type_of(alloc: Global, text: &[u8], members: &MemberList) -> Result<Option<StateType>, NoMemory>
    requires { IsCut text.now members.now }
    ensures { IfOk result (IsAnswer (HasStateType text.now)) }
{
    match optional_text(alloc, text, members, "type")? {
        Some(name) => Ok(optional_type(&name)),
        None => Ok(None),
    }
}

// The `recordCount` of `sourceStats`, `Some(None)` where it is absent, `None` where the text is no such object.
fn stats_of(alloc: Global, text: &[u8]) -> Result<Option<Option<u64>>, NoMemory>
    ensures { IfOk result (IsAnswer (HasOptionalCount text.now (codes "recordCount"))) }
{
    match cut(alloc, text, MAX_DEPTH)? {
        Some(members) => optional_count(alloc, text, &members, "recordCount"),
        None => Ok(None),
    }
}

// The `sourceStats` of a state, `Some(None)` where no count is told.
fn source_count_of(
    alloc: Global,
    text: &[u8],
    members: &MemberList,
) -> Result<Option<Option<u64>>, NoMemory>
    requires { IsCut text.now members.now }
    ensures { IfOk result (IsAnswer (HasStats text.now)) }
{
    match optional(alloc, text, members, "sourceStats")? {
        Some(stats) => stats_of(alloc, stats),
        None => Ok(Some(None)),
    }
}

// What a state of this type is of.
fn kind_of(
    alloc: Global,
    text: &[u8],
    members: &MemberList,
    state_type: StateType,
) -> Result<Option<StateKind>, NoMemory>
    requires { IsCut text.now members.now }
    ensures { IfOk result (IsAnswer (IsKind state_type text.now)) }
{
    match state_type {
        StateType::Stream => match stream_of(alloc, text, members)? {
            Some(StreamBlob { id, blob }) => Ok(Some(StateKind::Stream { id, blob })),
            None => Ok(None),
        },
        StateType::Global => global_of(alloc, text, members),
        StateType::Legacy => Ok(Some(StateKind::Legacy)),
    }
}

// Whether a text has no line feed.
fn is_one_line(text: &[u8]) -> bool
    ensures { IsTrue result ↔ IsOneLine text.now }
{
    !text.contains(&b'\n')
}

/// The state that a payload is. A text with line feeds is none, since an echo or a saved line that held it would break:
/// squeeze such a text first.
pub fn state_of(alloc: Global, text: &[u8]) -> Result<Option<StateMsg>, NoMemory>
    ensures { IfOk result (IsAnswer (IsState text.now)) }
{
    if !is_one_line(text) {
        return Ok(None);
    }
    let Some(members) = cut(alloc, text, STATE_DEPTH)? else {
        return Ok(None);
    };
    let Some(state_type) = type_of(alloc, text, &members)? else {
        return Ok(None);
    };
    let Some(kind) = kind_of(alloc, text, &members, state_type)? else {
        return Ok(None);
    };
    let Some(source_count) = source_count_of(alloc, text, &members)? else {
        return Ok(None);
    };
    let object = StateObject::new(Bytes::copy_of(alloc, text)?);
    Ok(Some(StateMsg::new(object, kind, source_count)))
}
