// The members of an object by name.
ghost use Rattle.std.specs.Prelude.{codes, ◌≡◌, ◌≤◌, ◌<◌, ◌↔◌, ℕ, List, Option, None, Some, length, All, option_map, IfOk, IfSome, IfNone, IsTrue};
ghost use Rattle.std.specs.Str.{bytes_eq};
ghost use Rattle.std.specs.Option.{option_copied};
ghost use Rattle.json_span.specs.declared.Member.{Member};
ghost use Rattle.json_fields.specs.Answer.{IsAnswer, IsOnly};
ghost use Rattle.json_fields.specs.Fields.{Holds, HasField, HasOptional, HasText, HasOptionalText, IsCut};
ghost use Rattle.json_span.specs.Members.{AreMembers, IsMemberOf, IsValue};

use json_span::{MAX_DEPTH, Member, MemberList, SpanFault, is_string_of, members_within, text_of};
use basics::{Name, NoMemory};
use std::alloc::Global;

/// The members of an object that nests at most `limit` deep, `None` where the text is none.
pub fn cut(alloc: Global, text: &[u8], limit: usize) -> Result<Option<MemberList>, NoMemory>
    requires { limit ≤ MAX_DEPTH }
    ensures cut { IfOk result (λ found. IfSome found (IsCut text.now)) }
    ensures within { IfOk result (λ found. IfSome found (AreMembers limit text.now)) }
    ensures none { IfOk result (λ found. IfNone found ((members : List Member) → ¬ AreMembers limit text.now members)) }
{
    match members_within(alloc, text, limit) {
        Ok(members) => Ok(Some(members)),
        Err(SpanFault::NotObject) => Ok(None),
        Err(SpanFault::TooDeep) => Ok(None),
        Err(SpanFault::NotArray) => unreachable!(),
        Err(SpanFault::NoMemory) => Err(NoMemory),
    }
}

// What the last member of this name holds.
fn last_of<'a>(
    alloc: Global,
    text: &'a [u8],
    members: &[Member],
    name: &str,
) -> Result<Option<&'a [u8]>, NoMemory>
    requires { All (IsMemberOf text.now) members.now }
    ensures holds { IfOk result (λ found. IsOnly (Holds text.now name.now members.now) (option_copied found)) }
    ensures value { IfOk result (λ found. IfSome found (λ held. IsValue held.now)) }
{
    let mut found = None;
    for member in members {
        if is_string_of(alloc, member.key.of(text), name)? {
            found = Some(member.value.of(text));
        }
    }
    Ok(found)
}

/// What the member of this name holds.
pub fn field<'a>(
    alloc: Global,
    text: &'a [u8],
    members: &MemberList,
    name: &str,
) -> Result<Option<&'a [u8]>, NoMemory>
    requires { IsCut text.now members.now }
    ensures field { IfOk result (λ found. IsAnswer (HasField text.now name.now) (option_copied found)) }
    ensures value { IfOk result (λ found. IfSome found (λ held. IsValue held.now)) }
{
    last_of(alloc, text, members.as_slice(), name)
}

// Whether a value is `null`.
pub fn is_null(value: &[u8]) -> bool
    ensures { result ≡ bytes_eq value.now (codes "null") }
{
    value == b"null".as_slice()
}

/// What the optional member of this name holds; `null` counts as absent.
pub fn optional<'a>(
    alloc: Global,
    text: &'a [u8],
    members: &MemberList,
    name: &str,
) -> Result<Option<&'a [u8]>, NoMemory>
    requires { IsCut text.now members.now }
    ensures { IfOk result (λ found. IsOnly (HasOptional text.now name.now) (option_copied found)) }
{
    match last_of(alloc, text, members.as_slice(), name)? {
        Some(held) if is_null(held) => Ok(None),
        Some(held) => Ok(Some(held)),
        None => Ok(None),
    }
}

/// Whether the member of this name is a string that stands for `meaning`.
pub fn has_text(
    alloc: Global,
    text: &[u8],
    members: &MemberList,
    name: &str,
    meaning: &str,
) -> Result<bool, NoMemory>
    requires { IsCut text.now members.now }
    ensures { IfOk result (λ is. IsTrue is ↔ HasText text.now name.now meaning.now) }
{
    match field(alloc, text, members, name)? {
        Some(held) => is_string_of(alloc, held, meaning),
        None => Ok(false),
    }
}

/// The text that the member of this name stands for, `None` where it is no string.
pub fn text_field(
    alloc: Global,
    text: &[u8],
    members: &MemberList,
    name: &str,
) -> Result<Option<Name>, NoMemory>
    requires { IsCut text.now members.now }
    ensures { IfOk result (IsAnswer (HasText text.now name.now)) }
{
    match field(alloc, text, members, name)? {
        Some(held) => text_of(alloc, held),
        None => Ok(None),
    }
}

/// The text that an optional member stands for, `Some(None)` where it is absent, `None` where it is no string.
pub fn optional_text(
    alloc: Global,
    text: &[u8],
    members: &MemberList,
    name: &str,
) -> Result<Option<Option<Name>>, NoMemory>
    requires { IsCut text.now members.now }
    ensures { IfOk result (IsAnswer (HasOptionalText text.now name.now)) }
{
    match optional(alloc, text, members, name)? {
        Some(held) => match text_of(alloc, held)? {
            Some(text) => Ok(Some(Some(text))),
            None => Ok(None),
        },
        None => Ok(Some(None)),
    }
}
