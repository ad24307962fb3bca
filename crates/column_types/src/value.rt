// The value at a place of a record.
ghost use Rattle.std.specs.Prelude.{◌≡◌, ◌⊎◌, ◌↔◌, ℕ, List, IfOk, IfSome, IsTrue, Bool};
ghost use Rattle.std.specs.Option.{option_copied};
ghost use Rattle.json_span.specs.Members.{IsValue};
ghost use Rattle.json_scalar.specs.Text.{IsString};
ghost use Rattle.json_fields.specs.Answer.{IsAnswer};
ghost use Rattle.json_fields.specs.Fields.{HasField, IsCut};
ghost use Rattle.json_fields.specs.Parts.{IsNumber};
ghost use Rattle.column_types.specs.Values.{HasValue, IsOther, IsValueOf, Reaches};
ghost use Rattle.column_types.specs.Words.{IsWord, IsValueAlong};

use crate::instant::instant_of;
use crate::number::number_of;
use basics::{Name, NoMemory, Path};
use json_fields::{cut, field, is_number};
use json_span::{MAX_DEPTH, MemberList, is_array, is_object, text_of};
use json_squeeze::squeeze;
use std::alloc::Global;
use value_order::Value;

/// The value at a path of a record's data. What is missing counts as null; at the empty path stands the data itself.
/// Strings that are instants are instants where `is_instant` asks for it, and texts elsewhere.
pub fn value_of(
    alloc: Global,
    body: &[u8],
    path: &Path,
    is_instant: bool,
) -> Result<Value, NoMemory>
    ensures { IfOk result (HasValue body.now path.now is_instant) }
{
    match cut(alloc, body, MAX_DEPTH)? {
        Some(members) => value_in(alloc, body, &members, path, is_instant),
        None => Ok(Value::Null),
    }
}

/// The same of data that was cut into its members.
pub fn value_in(
    alloc: Global,
    body: &[u8],
    members: &MemberList,
    path: &Path,
    is_instant: bool,
) -> Result<Value, NoMemory>
    requires { IsCut body.now members.now }
    ensures { IfOk result (HasValue body.now path.now is_instant) }
{
    match path.as_slice().split_first() {
        Some((name, names)) => match field(alloc, body, members, name.as_str())? {
            Some(held) => value_along(alloc, held, names, is_instant),
            None => Ok(Value::Null),
        },
        None => Ok(Value::Other(squeeze(alloc, body)?)),
    }
}

/// The value at the end of a path from a value on: what is missing counts as null, and at the empty path stands the value.
pub fn value_along(
    alloc: Global,
    text: &[u8],
    names: &[Name],
    is_instant: bool,
) -> Result<Value, NoMemory>
    requires { IsValue text.now }
    ensures { IfOk result (IsValueAlong text.now names.now is_instant) }
{
    match text_along(alloc, text, names)? {
        Some(held) => text_value(alloc, held, is_instant),
        None => Ok(Value::Null),
    }
}

/// What stands at the end of a path from a value on.
pub fn text_along<'a>(
    alloc: Global,
    text: &'a [u8],
    names: &[Name],
) -> Result<Option<&'a [u8]>, NoMemory>
    requires { IsValue text.now }
    ensures reached { IfOk result (λ found. Reaches text.now names.now (option_copied found)) }
    ensures value { IfOk result (λ found. IfSome found (λ held. IsValue held.now)) }
{
    let mut at = text;
    for name in names {
        match step(alloc, at, name)? {
            Some(held) => at = held,
            None => return Ok(None),
        }
    }
    Ok(Some(at))
}

// What the member of this name holds.
fn step<'a>(alloc: Global, text: &'a [u8], name: &Name) -> Result<Option<&'a [u8]>, NoMemory>
    ensures field { IfOk result (λ found. IsAnswer (HasField text.now name.now) (option_copied found)) }
    ensures value { IfOk result (λ found. IfSome found (λ held. IsValue held.now)) }
{
    match cut(alloc, text, MAX_DEPTH)? {
        Some(members) => field(alloc, text, &members, name.as_str()),
        None => Ok(None),
    }
}

// The value that the text of a JSON value stands for.
fn text_value(alloc: Global, text: &[u8], is_instant: bool) -> Result<Value, NoMemory>
    requires { IsValue text.now }
    ensures { IfOk result (IsValueOf is_instant text.now) }
{
    if is_object(text) || is_array(text) {
        return Ok(Value::Other(squeeze(alloc, text)?));
    }
    if is_number(text) {
        return number_value(alloc, text);
    }
    match text_of(alloc, text)? {
        Some(name) => Ok(string_value(name, is_instant)),
        None => Ok(word_value(text)),
    }
}

// The value of a number.
fn number_value(alloc: Global, text: &[u8]) -> Result<Value, NoMemory>
    requires { IsNumber text.now }
    ensures { IfOk result (λ value. (is_instant : Bool) → IsValueOf is_instant text.now value) }
{
    match number_of(text) {
        Some(number) => Ok(Value::Number(number)),
        None => Ok(Value::Other(squeeze(alloc, text)?)),
    }
}

// The value of a string that stands for this name.
fn string_value(name: Name, is_instant: bool) -> Value
    ensures { (text : List ℕ) → IsString text name → IsValueOf is_instant text result }
{
    if is_instant {
        match instant_of(name.as_str()) {
            Some(nanoseconds) => Value::Instant(nanoseconds),
            None => Value::Text(name),
        }
    } else {
        Value::Text(name)
    }
}

// The value of `null`, `true` and `false`.
fn word_value(text: &[u8]) -> Value
    requires { IsWord text.now }
    ensures { (is_instant : Bool) → IsValueOf is_instant text.now result }
{
    if text == b"true".as_slice() {
        Value::True
    } else if text == b"false".as_slice() {
        Value::False
    } else {
        Value::Null
    }
}
