// Members by what they hold.
ghost use Rattle.std.specs.Prelude.{◌≡◌, ◌↔◌, ◌≤◌, List, IfNone, IfOk, IfSome, IsTrue, Some, option_map};
ghost use Rattle.std.specs.Option.{option_copied};
ghost use Rattle.json_span.specs.Members.{AreMembers, IsValue};
ghost use Rattle.json_span.specs.Lists.{IsArrayCutInto, IsListed};
ghost use Rattle.json_span.specs.declared.Member.{Member};
ghost use Rattle.json_span.specs.Elements.{AreElements};
ghost use Rattle.json_span.specs.declared.Span.{Span};
ghost use Rattle.json_fields.specs.Answer.{IsAnswer};
ghost use Rattle.json_fields.specs.Fields.{IsCut};
ghost use Rattle.json_fields.specs.Parts.{HasArray, HasCount, HasObject, HasOptionalCount, HasOptionalNumber, IsCutList, IsNumber};

use crate::{field, optional};
use basics::NoMemory;
use json_span::{
    ListedMembers, MAX_DEPTH, MemberList, SpanFault, SpanList, elements_within, is_array,
    is_object, members_and_list, whole_of,
};
use std::alloc::Global;

/// A member that is an object.
pub fn object_field<'a>(
    alloc: Global,
    text: &'a [u8],
    members: &MemberList,
    name: &str,
) -> Result<Option<&'a [u8]>, NoMemory>
    requires { IsCut text.now members.now }
    ensures { IfOk result (λ found. IsAnswer (HasObject text.now name.now) (option_copied found)) }
{
    match field(alloc, text, members, name)? {
        Some(held) if is_object(held) => Ok(Some(held)),
        Some(_no_object) => Ok(None),
        None => Ok(None),
    }
}

/// A member that is an array.
pub fn array_field<'a>(
    alloc: Global,
    text: &'a [u8],
    members: &MemberList,
    name: &str,
) -> Result<Option<&'a [u8]>, NoMemory>
    requires { IsCut text.now members.now }
    ensures { IfOk result (λ found. IsAnswer (HasArray text.now name.now) (option_copied found)) }
{
    match field(alloc, text, members, name)? {
        Some(held) if is_array(held) => Ok(Some(held)),
        Some(_no_array) => Ok(None),
        None => Ok(None),
    }
}

/// A member that is a whole number.
pub fn count_field(
    alloc: Global,
    text: &[u8],
    members: &MemberList,
    name: &str,
) -> Result<Option<u64>, NoMemory>
    requires { IsCut text.now members.now }
    ensures { IfOk result (IsAnswer (HasCount text.now name.now)) }
{
    match field(alloc, text, members, name)? {
        Some(held) => Ok(whole_of(held)),
        None => Ok(None),
    }
}

/// An optional member that is a whole number, `Some(None)` where it is absent, `None` where it is no such number.
pub fn optional_count(
    alloc: Global,
    text: &[u8],
    members: &MemberList,
    name: &str,
) -> Result<Option<Option<u64>>, NoMemory>
    requires { IsCut text.now members.now }
    ensures { IfOk result (IsAnswer (HasOptionalCount text.now name.now)) }
{
    match optional(alloc, text, members, name)? {
        Some(held) => match whole_of(held) {
            Some(count) => Ok(Some(Some(count))),
            None => Ok(None),
        },
        None => Ok(Some(None)),
    }
}

/// Whether a JSON value is a number. It looks at the first byte.
pub fn is_number(value: &[u8]) -> bool
    requires { IsValue value.now }
    ensures { IsTrue result ↔ IsNumber value.now }
{
    value[0] == b'-' || value[0].is_ascii_digit()
}

/// An optional member that is a number, `Some(None)` where it is absent, `None` where it is no number.
pub fn optional_number<'a>(
    alloc: Global,
    text: &'a [u8],
    members: &MemberList,
    name: &str,
) -> Result<Option<Option<&'a [u8]>>, NoMemory>
    requires { IsCut text.now members.now }
    ensures { IfOk result (λ found. IsAnswer (HasOptionalNumber text.now name.now) (option_map option_copied found)) }
{
    match optional(alloc, text, members, name)? {
        Some(held) if is_number(held) => Ok(Some(Some(held))),
        Some(_no_number) => Ok(None),
        None => Ok(Some(None)),
    }
}

/// The elements of an array that nests at most `limit` deep, `None` where the text is none.
pub fn cut_list(alloc: Global, text: &[u8], limit: usize) -> Result<Option<SpanList>, NoMemory>
    requires { limit ≤ MAX_DEPTH }
    ensures cut { IfOk result (λ found. IfSome found (IsCutList text.now)) }
    ensures within { IfOk result (λ found. IfSome found (AreElements limit text.now)) }
    ensures none { IfOk result (λ found. IfNone found ((spans : List Span) → ¬ AreElements limit text.now spans)) }
{
    match elements_within(alloc, text, limit) {
        Ok(spans) => Ok(Some(spans)),
        Err(SpanFault::NotArray) => Ok(None),
        Err(SpanFault::TooDeep) => Ok(None),
        Err(SpanFault::NotObject) => unreachable!(),
        Err(SpanFault::NoMemory) => Err(NoMemory),
    }
}

/// An object that nests at most 127 deep, cut together with the first of its values that is an array; `None` where the text
/// is none.
pub fn cut_with_list(alloc: Global, text: &[u8]) -> Result<Option<ListedMembers>, NoMemory>
    ensures cut { IfOk result (λ found. IfSome found (λ cut. IsCut text.now cut.members)) }
    ensures list { IfOk result (λ found. IfSome found (λ cut. IsListed MAX_DEPTH text.now cut.members cut.listed cut.elements)) }
    ensures none { IfOk result (λ found. IfNone found ((members : List Member) → ¬ AreMembers MAX_DEPTH text.now members)) }
{
    match members_and_list(alloc, text) {
        Ok(cut) => Ok(Some(cut)),
        Err(SpanFault::NotObject) => Ok(None),
        Err(SpanFault::TooDeep) => Ok(None),
        Err(SpanFault::NotArray) => unreachable!(),
        Err(SpanFault::NoMemory) => Err(NoMemory),
    }
}

/// The elements of the array that the member at an index holds, `None` where it holds none. An array that was cut with its
/// object is not read again.
pub fn elements_at(
    alloc: Global,
    value: &[u8],
    cut: ListedMembers,
    index: usize,
) -> Result<Option<SpanList>, NoMemory>
    requires kept { cut.listed ≡ Some index → IsArrayCutInto MAX_DEPTH value.now cut.elements }
    ensures cut { IfOk result (λ found. IfSome found (IsCutList value.now)) }
    ensures none { IfOk result (λ found. IfNone found ((spans : List Span) → ¬ AreElements MAX_DEPTH value.now spans)) }
{
    match cut.listed {
        Some(listed) if listed == index => Ok(Some(cut.elements)),
        _ => cut_list(alloc, value, MAX_DEPTH),
    }
}
