// Members by names that are words, in place.
ghost use Rattle.std.specs.Prelude.{◌≡◌, ◌↔◌, IfOk, IfSome, IsTrue, All, false, option_map};
ghost use Rattle.std.specs.Option.{option_copied};
ghost use Rattle.json_scalar.specs.Text.{IsString};
ghost use Rattle.json_span.specs.Members.{IsMemberOf, IsValue};
ghost use Rattle.json_fields.specs.Answer.{IsAnswer, IsOnly};
ghost use Rattle.json_fields.specs.Fields.{HasField, HasOptional, HasOptionalText, HasText, Holds, IsCut};
ghost use Rattle.json_fields.specs.Parts.{HasCount, HasObject};
ghost use Rattle.json_fields.specs.Words.{IsPlaceOf, IsSomeString, is_word, viewed};

use crate::fields::is_null;
use crate::view::{TextView, utf8_view};
use basics::NoMemory;
use json_span::{Member, is_object, is_string_of, whole_of};
use std::alloc::Global;

// Whether a key may be that of a name, by the byte behind its quotation mark. Most keys of another name are known by it.
#[inline(always)]
fn may_be(key: &[u8], name: &[u8]) -> bool
    ensures { result ≡ false → ¬ IsString key.now name.now }
{
    match key {
        [_, byte, ..] => match name {
            [first, ..] => *byte == *first || *byte == b'\\',
            [] => true,
        },
        _ => true,
    }
}

// Whether a key is that of a name. It is compared in place.
#[inline(always)]
fn is_key(alloc: Global, key: &[u8], name: &str) -> Result<bool, NoMemory>
    requires key { IsSomeString key.now }
    requires word { IsTrue (is_word name.now) }
    ensures { IfOk result (λ is. IsTrue is ↔ IsString key.now name.now) }
{
    if !may_be(key, name.as_bytes()) {
        return Ok(false);
    }
    if &key[1..key.len() - 1] == name.as_bytes() {
        return Ok(true);
    }
    is_string_of(alloc, key, name)
}

/// Where the last member of this name stands among the members. The name is a word, whose bytes stand for themselves in a
/// string.
pub fn place_of(
    alloc: Global,
    text: &[u8],
    members: &[Member],
    name: &str,
) -> Result<Option<usize>, NoMemory>
    requires parts { All (IsMemberOf text.now) members.now }
    requires word { IsTrue (is_word name.now) }
    ensures { IfOk result (IsPlaceOf text.now name.now members.now) }
{
    let mut left = members.len();
    while left > 0 {
        left -= 1;
        let member = members[left];
        if is_key(alloc, member.key.of(text), name)? {
            return Ok(Some(left));
        }
    }
    Ok(None)
}

/// What the last member of this name holds.
pub fn member_of<'a>(
    alloc: Global,
    text: &'a [u8],
    members: &[Member],
    name: &str,
) -> Result<Option<&'a [u8]>, NoMemory>
    requires parts { All (IsMemberOf text.now) members.now }
    requires word { IsTrue (is_word name.now) }
    ensures holds { IfOk result (λ found. IsOnly (Holds text.now name.now members.now) (option_copied found)) }
    ensures value { IfOk result (λ found. IfSome found (λ held. IsValue held.now)) }
{
    match place_of(alloc, text, members, name)? {
        Some(place) => {
            let member = members[place];
            Ok(Some(member.value.of(text)))
        }
        None => Ok(None),
    }
}

/// What the member of this name holds.
pub fn field_in<'a>(
    alloc: Global,
    text: &'a [u8],
    members: &[Member],
    name: &str,
) -> Result<Option<&'a [u8]>, NoMemory>
    requires cut { IsCut text.now members.now }
    requires word { IsTrue (is_word name.now) }
    ensures field { IfOk result (λ found. IsAnswer (HasField text.now name.now) (option_copied found)) }
    ensures value { IfOk result (λ found. IfSome found (λ held. IsValue held.now)) }
{
    member_of(alloc, text, members, name)
}

// What the optional member of this name holds; `null` counts as absent.
fn optional_value<'a>(
    alloc: Global,
    text: &'a [u8],
    members: &[Member],
    name: &str,
) -> Result<Option<&'a [u8]>, NoMemory>
    requires cut { IsCut text.now members.now }
    requires word { IsTrue (is_word name.now) }
    ensures optional { IfOk result (λ found. IsOnly (HasOptional text.now name.now) (option_copied found)) }
    ensures value { IfOk result (λ found. IfSome found (λ held. IsValue held.now)) }
{
    match member_of(alloc, text, members, name)? {
        Some(held) if is_null(held) => Ok(None),
        Some(held) => Ok(Some(held)),
        None => Ok(None),
    }
}

/// What the optional member of this name holds; `null` counts as absent.
pub fn optional_in<'a>(
    alloc: Global,
    text: &'a [u8],
    members: &[Member],
    name: &str,
) -> Result<Option<&'a [u8]>, NoMemory>
    requires cut { IsCut text.now members.now }
    requires word { IsTrue (is_word name.now) }
    ensures { IfOk result (λ found. IsOnly (HasOptional text.now name.now) (option_copied found)) }
{
    optional_value(alloc, text, members, name)
}

/// A member that is an object.
pub fn object_in<'a>(
    alloc: Global,
    text: &'a [u8],
    members: &[Member],
    name: &str,
) -> Result<Option<&'a [u8]>, NoMemory>
    requires cut { IsCut text.now members.now }
    requires word { IsTrue (is_word name.now) }
    ensures { IfOk result (λ found. IsAnswer (HasObject text.now name.now) (option_copied found)) }
{
    match field_in(alloc, text, members, name)? {
        Some(held) if is_object(held) => Ok(Some(held)),
        Some(_no_object) => Ok(None),
        None => Ok(None),
    }
}

/// A member that is a whole number.
pub fn count_in(
    alloc: Global,
    text: &[u8],
    members: &[Member],
    name: &str,
) -> Result<Option<u64>, NoMemory>
    requires cut { IsCut text.now members.now }
    requires word { IsTrue (is_word name.now) }
    ensures { IfOk result (IsAnswer (HasCount text.now name.now)) }
{
    match field_in(alloc, text, members, name)? {
        Some(held) => Ok(whole_of(held)),
        None => Ok(None),
    }
}

/// The text that the member of this name stands for, `None` where it is no string.
pub fn text_in<'a>(
    alloc: Global,
    text: &'a [u8],
    members: &[Member],
    name: &str,
) -> Result<Option<TextView<'a>>, NoMemory>
    requires cut { IsCut text.now members.now }
    requires word { IsTrue (is_word name.now) }
    ensures { IfOk result (λ found. IsAnswer (HasText text.now name.now) (option_map viewed found)) }
{
    match field_in(alloc, text, members, name)? {
        Some(held) => utf8_view(alloc, held),
        None => Ok(None),
    }
}

/// The text that an optional member stands for, `Some(None)` where it is absent, `None` where it is no string.
pub fn optional_text_in<'a>(
    alloc: Global,
    text: &'a [u8],
    members: &[Member],
    name: &str,
) -> Result<Option<Option<TextView<'a>>>, NoMemory>
    requires cut { IsCut text.now members.now }
    requires word { IsTrue (is_word name.now) }
    ensures { IfOk result (λ found. IsAnswer (HasOptionalText text.now name.now) (option_map (option_map viewed) found)) }
{
    match optional_value(alloc, text, members, name)? {
        Some(held) => match utf8_view(alloc, held)? {
            Some(view) => Ok(Some(Some(view))),
            None => Ok(None),
        },
        None => Ok(Some(None)),
    }
}
