// The kind of column that a property of a schema makes.
ghost use Rattle.std.specs.Prelude.{◌≡◌, ◌⊎◌, ◌↔◌, ℕ, List, IfOk, IsTrue, codes, true};
ghost use Rattle.json_span.specs.Members.{IsValue};
ghost use Rattle.json_scalar.specs.Text.{IsString};
ghost use Rattle.json_fields.specs.Fields.{IsCut};
ghost use Rattle.json_fields.specs.Parts.{IsCutList};
ghost use Rattle.column_types.specs.Kinds.{IsKind, IsListOf, HasOnlyType, IsOtherWord};

use crate::ColumnType;
use basics::NoMemory;
use json_fields::{cut, cut_list, field, has_text};
use json_span::{MAX_DEPTH, MemberList, Span, is_string_of, text_of};
use std::alloc::Global;

/// The kind of column that a property makes.
pub fn kind_of(alloc: Global, property: &[u8]) -> Result<ColumnType, NoMemory>
    ensures { IfOk result (IsKind property.now) }
{
    match cut(alloc, property, MAX_DEPTH)? {
        Some(members) => kind_by(alloc, property, &members),
        None => Ok(ColumnType::Json),
    }
}

// The same of a property that is an object.
fn kind_by(alloc: Global, property: &[u8], members: &MemberList) -> Result<ColumnType, NoMemory>
    requires { IsCut property.now members.now }
    ensures { IfOk result (IsKind property.now) }
{
    if has_only_type(alloc, property, members, "string")? {
        return string_kind(alloc, property, members);
    }
    if has_only_type(alloc, property, members, "boolean")? {
        return Ok(ColumnType::Bool);
    }
    if has_only_type(alloc, property, members, "integer")? {
        return Ok(ColumnType::Whole);
    }
    if has_only_type(alloc, property, members, "number")? {
        return number_kind(alloc, property, members);
    }
    Ok(ColumnType::Json)
}

// The kind of a string.
fn string_kind(alloc: Global, property: &[u8], members: &MemberList) -> Result<ColumnType, NoMemory>
    requires cut { IsCut property.now members.now }
    requires string { HasOnlyType property.now (codes "string") }
    ensures { IfOk result (IsKind property.now) }
{
    if has_text(alloc, property, members, "format", "date-time")? {
        Ok(ColumnType::Instant)
    } else {
        Ok(ColumnType::Text)
    }
}

// The kind of a number.
fn number_kind(alloc: Global, property: &[u8], members: &MemberList) -> Result<ColumnType, NoMemory>
    requires cut { IsCut property.now members.now }
    requires number { HasOnlyType property.now (codes "number") }
    ensures { IfOk result (IsKind property.now) }
{
    if has_text(alloc, property, members, "airbyte_type", "integer")? {
        Ok(ColumnType::Whole)
    } else {
        Ok(ColumnType::Number)
    }
}

// Whether the type of a property is this word alone, `null` apart.
fn has_only_type(
    alloc: Global,
    property: &[u8],
    members: &MemberList,
    word: &str,
) -> Result<bool, NoMemory>
    requires { IsCut property.now members.now }
    ensures { IfOk result (λ is. IsTrue is ↔ HasOnlyType property.now word.now) }
{
    match field(alloc, property, members, "type")? {
        Some(held) => is_alone(alloc, held, word),
        None => Ok(false),
    }
}

// Whether a type is this word, or a list of it and `null`.
fn is_alone(alloc: Global, text: &[u8], word: &str) -> Result<bool, NoMemory>
    ensures { IfOk result (λ is. IsTrue is ↔ (IsString text.now word.now ⊎ IsListOf text.now word.now)) }
{
    if is_string_of(alloc, text, word)? {
        return Ok(true);
    }
    match cut_list(alloc, text, MAX_DEPTH)? {
        Some(spans) => is_list_of(alloc, text, spans.as_slice(), word),
        None => Ok(false),
    }
}

// Whether this word stands in a list, and no other string but `null`.
fn is_list_of(alloc: Global, text: &[u8], spans: &[Span], word: &str) -> Result<bool, NoMemory>
    requires { IsCutList text.now spans.now }
    ensures { IfOk result (λ is. IsTrue is ↔ IsListOf text.now word.now) }
{
    let mut some = false;
    for span in spans {
        let element = span.of(text);
        if is_string_of(alloc, element, word)? {
            some = true;
        } else if is_other_word(alloc, element)? {
            return Ok(false);
        }
    }
    Ok(some)
}

// Whether an element is a string, and not `null`.
fn is_other_word(alloc: Global, text: &[u8]) -> Result<bool, NoMemory>
    ensures { IfOk result (λ is. IsTrue is ↔ IsOtherWord text.now) }
{
    match text_of(alloc, text)? {
        Some(word) => Ok(word.as_str() != "null"),
        None => Ok(false),
    }
}
