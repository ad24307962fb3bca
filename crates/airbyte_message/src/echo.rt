// The echo of a state.
ghost use Rattle.std.specs.Prelude.{◌≡◌, ◌≢◌, ◌++◌, All, flat_map, IfOk, OnOk};
ghost use Rattle.json_span.specs.Members.{IsMemberOf};
ghost use Rattle.airbyte_message.specs.Echo.{IsEcho, member_text};
ghost use Rattle.airbyte_message.specs.EchoReads.{ReadsAsEcho};
ghost use Rattle.airbyte_message.specs.declared.message.StateKind.TheVariants.{Legacy};

use crate::StateMsg;
use basics::{Bytes, NoMemory};
use json_fields::{cut, without};
use json_span::{MAX_DEPTH, Member};
use json_write::put_number;
use std::alloc::Global;

// The bytes of an echo around the members of its state, at most.
const ENVELOPE: usize = 80;

// Puts a member behind what is written: its key and value as they stand, and a comma.
fn put_raw_member(echo: &mut Bytes, object: &[u8], member: Member) -> Result<(), NoMemory>
    requires { IsMemberOf object.now member }
    ensures { OnOk result (echo.new ≡ echo.old ++ member_text object.now member) }
{
    echo.extend(member.key.of(object))?;
    echo.push(b':')?;
    echo.extend(member.value.of(object))?;
    echo.push(b',')?;
    Ok(())
}

// Puts these members behind what is written.
fn put_raw_members(echo: &mut Bytes, object: &[u8], members: &[Member]) -> Result<(), NoMemory>
    requires { All (IsMemberOf object.now) members.now }
    ensures { OnOk result (echo.new ≡ echo.old ++ flat_map (member_text object.now) members.now) }
{
    for member in members {
        put_raw_member(echo, object, *member)?;
    }
    Ok(())
}

/// The line by which a destination sends a state back after committing `count` records: the state's members as they
/// stand, without `destinationStats`, and then `destinationStats` with the count. It reads back as the same state. A
/// Legacy state has no echo.
pub fn echo_of(alloc: Global, state: &StateMsg, count: u64) -> Result<Bytes, NoMemory>
    requires { state.now.kind ≢ Legacy }
    ensures echo { IfOk result (IsEcho state.now.object count) }
    ensures reads_back { IfOk result (ReadsAsEcho state.now count) }
{
    let object = state.object().as_slice();
    let Some(members) = cut(alloc, object, MAX_DEPTH)? else {
        unreachable!()
    };
    let kept = without(alloc, object, &members, "destinationStats")?;
    let mut echo = Bytes::with_capacity(alloc, object.len().saturating_add(ENVELOPE))?;
    echo.extend(b"{\"type\":\"STATE\",\"state\":{")?;
    put_raw_members(&mut echo, object, kept.as_slice())?;
    echo.extend(b"\"destinationStats\":{\"recordCount\":")?;
    put_number(&mut echo, count)?;
    echo.extend(b"}}}")?;
    Ok(echo)
}
