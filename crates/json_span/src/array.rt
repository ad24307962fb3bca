// Cutting a text into the elements of its array.
ghost use Rattle.std.specs.Prelude.{All, IfOk, IsErrOf, IsTrue, ◌↔◌};
ghost use Rattle.json_span.specs.Members.{IsValue};
ghost use Rattle.json_span.specs.Elements.{AreElements, IsNoArray, IsDeeperArray, HasOnlyElements, IsElementOf, IsSomeArray};

use crate::cut::read;
use crate::phase::{Frame, is_done};
use crate::{MAX_DEPTH, SpanFault, SpanList};
use std::alloc::Global;

/// Cuts an array that nests at most `limit` deep into its elements.
pub fn elements_within(alloc: Global, text: &[u8], limit: usize) -> Result<SpanList, SpanFault>
    ensures found { IfOk result (AreElements limit text.now) }
    ensures only { IfOk result (HasOnlyElements limit text.now) }
    ensures parts { IfOk result (All (IsElementOf text.now)) }
    ensures not_array { IsErrOf result SpanFault.NotArray → IsNoArray text.now }
    ensures too_deep { IsErrOf result SpanFault.TooDeep → IsDeeperArray limit text.now }
    ensures never_not_object { ¬ IsErrOf result SpanFault.NotObject }
{
    if !simdutf8::is_utf8(text) {
        return Err(SpanFault::NotArray);
    }
    let machine = read(alloc, text, Frame::Array)?;
    if !is_done(machine.phase) {
        return Err(SpanFault::NotArray);
    }
    if machine.deepest > limit {
        return Err(SpanFault::TooDeep);
    }
    let cutter = machine.cutter;
    Ok(cutter.elements)
}

/// Cuts an array that nests at most 127 deep into its elements.
pub fn elements(alloc: Global, text: &[u8]) -> Result<SpanList, SpanFault>
    ensures found { IfOk result (AreElements MAX_DEPTH text.now) }
    ensures only { IfOk result (HasOnlyElements MAX_DEPTH text.now) }
    ensures parts { IfOk result (All (IsElementOf text.now)) }
    ensures not_array { IsErrOf result SpanFault.NotArray → IsNoArray text.now }
    ensures too_deep { IsErrOf result SpanFault.TooDeep → IsDeeperArray MAX_DEPTH text.now }
    ensures never_not_object { ¬ IsErrOf result SpanFault.NotObject }
{
    elements_within(alloc, text, MAX_DEPTH)
}

/// Whether a JSON value is an array. It looks at the first byte.
pub fn is_array(text: &[u8]) -> bool
    requires { IsValue text.now }
    ensures { IsTrue result ↔ IsSomeArray text.now }
{
    text[0] == b'['
}
