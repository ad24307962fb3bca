// Cutting a text into the members of its object.
ghost use Rattle.std.specs.Prelude.{◌≡◌, All, IfOk, IsErrOf, IsTrue, ◌↔◌};
ghost use Rattle.json_span.specs.Members.{AreMembers, IsNoObject, IsDeeper, HasOnlyMembers, IsMemberOf, IsValue, IsSomeObject, NoObjectInFront};
ghost use Rattle.json_span.specs.Machine.{read_whole};

use crate::machine::Machine;
use crate::phase::{Frame, is_done};
use crate::{MAX_DEPTH, MemberList, SpanFault};
use basics::NoMemory;
use std::alloc::Global;

/// What the machine makes of the whole text, where it wants an array or an object.
pub fn read(alloc: Global, text: &[u8], frame: Frame) -> Result<Machine, NoMemory>
    ensures { IfOk result (λ machine. machine ≡ read_whole frame text.now) }
{
    let mut machine = Machine::new(alloc, frame);
    let mut at = 0;
    while at < text.len() {
        at = machine.take(text, at)?;
    }
    Ok(machine)
}

/// Cuts an object that nests at most `limit` deep into its members, with names that stand twice.
pub fn members_within(alloc: Global, text: &[u8], limit: usize) -> Result<MemberList, SpanFault>
    ensures found { IfOk result (AreMembers limit text.now) }
    ensures only { IfOk result (HasOnlyMembers limit text.now) }
    ensures parts { IfOk result (All (IsMemberOf text.now)) }
    ensures not_object { IsErrOf result SpanFault.NotObject → IsNoObject text.now }
    ensures too_deep { IsErrOf result SpanFault.TooDeep → IsDeeper limit text.now }
    ensures never_not_array { ¬ IsErrOf result SpanFault.NotArray }
{
    if !simdutf8::is_utf8(text) {
        return Err(SpanFault::NotObject);
    }
    let machine = read(alloc, text, Frame::Object)?;
    if !is_done(machine.phase) {
        return Err(SpanFault::NotObject);
    }
    if machine.deepest > limit {
        return Err(SpanFault::TooDeep);
    }
    let cutter = machine.cutter;
    Ok(cutter.members)
}

/// Cuts an object that nests at most 127 deep into its members, with names that stand twice.
pub fn members(alloc: Global, text: &[u8]) -> Result<MemberList, SpanFault>
    ensures found { IfOk result (AreMembers MAX_DEPTH text.now) }
    ensures only { IfOk result (HasOnlyMembers MAX_DEPTH text.now) }
    ensures parts { IfOk result (All (IsMemberOf text.now)) }
    ensures not_object { IsErrOf result SpanFault.NotObject → IsNoObject text.now }
    ensures too_deep { IsErrOf result SpanFault.TooDeep → IsDeeper MAX_DEPTH text.now }
    ensures never_not_array { ¬ IsErrOf result SpanFault.NotArray }
{
    members_within(alloc, text, MAX_DEPTH)
}

/// Whether a JSON value is an object. It looks at the first byte.
pub fn is_object(text: &[u8]) -> bool
    requires { IsValue text.now }
    ensures { IsTrue result ↔ IsSomeObject text.now }
{
    text[0] == b'{'
}

/// A law: what stands in front of the end of an object is no object, where the end is no white space.
pub fn no_object_in_front()
    ensures { NoObjectInFront }
{}
