// The members without one name.
ghost use Rattle.std.specs.Prelude.{IfOk, All};
ghost use Rattle.json_span.specs.Members.{IsMemberOf};
ghost use Rattle.json_fields.specs.Answer.{IsOnly};
ghost use Rattle.json_fields.specs.Fields.{IsCut};
ghost use Rattle.json_fields.specs.Parts.{Without};

use json_span::{MemberList, is_string_of};
use basics::NoMemory;
use std::alloc::Global;

/// The members that do not have this name, in order.
pub fn without(
    alloc: Global,
    text: &[u8],
    members: &MemberList,
    name: &str,
) -> Result<MemberList, NoMemory>
    requires { IsCut text.now members.now }
    ensures kept { IfOk result (IsOnly (Without text.now name.now members.now)) }
    ensures parts { IfOk result (All (IsMemberOf text.now)) }
{
    let mut kept = MemberList::with_capacity(alloc, members.len())?;
    for member in members.as_slice() {
        if !is_string_of(alloc, member.key.of(text), name)? {
            kept.push(*member)?;
        }
    }
    Ok(kept)
}
