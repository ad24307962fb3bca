// How a value is written in a column.
ghost use Rattle.std.specs.Prelude.{◌≡◌, ◌≢◌, ◌⊎◌, ◌↔◌, ◌^◌, ◌<◌, ◌≤◌, ℤ, pos, neg_ℤ, if◌then◌else◌, IfOk, IfSome, IfNone, IsTrue, codes, FitsSigned};
ghost use Rattle.std.specs.Int.{w64};
ghost use Rattle.json_span.specs.Members.{IsValue};
ghost use Rattle.column_types.specs.Typed.{IsSomeString, IsTyped};
ghost use Rattle.column_types.specs.Ways.{IsWay, IsWholeOf};
ghost use Rattle.column_types.specs.declared.kind.ColumnType.TheVariants as kinds;
ghost use Rattle.column_types.specs.declared.typed.Way.TheVariants as ways;

use crate::ColumnType;
use crate::number::number_of;
use basics::{Bytes, NoMemory};
use itoa::Buffer;
use json_fields::is_number;
use std::alloc::Global;
use value_order::Decimal;

// How far below zero an `i64` goes.
const MOST_BELOW_ZERO: u128 = 1 << 63;

/// What a column has of a value.
#[derive(Debug, Drop)]
pub enum Typed {
    /// The text that is written.
    Fits(Bytes),
    /// The value is not of the column's kind: `null` is written, and the change is told.
    Nulled,
}

/// How a column has the text of a value.
#[derive(Clone, Copy, Debug, PartialEq, Eq)]
pub enum Way {
    AsItStands,
    /// As the plain decimal of this number.
    Whole(i64),
    Nulled,
}

/// How a value is written in a column of this kind.
pub fn type_value(alloc: Global, kind: ColumnType, text: &[u8]) -> Result<Typed, NoMemory>
    requires { IsValue text.now }
    ensures { IfOk result (IsTyped kind text.now) }
{
    match way_of(kind, text) {
        Way::AsItStands => Ok(Typed::Fits(Bytes::copy_of(alloc, text)?)),
        Way::Whole(number) => {
            let mut buffer = Buffer::new();
            let plain = Bytes::copy_of(alloc, buffer.format(number).as_bytes())?;
            Ok(Typed::Fits(plain))
        }
        Way::Nulled => Ok(Typed::Nulled),
    }
}

/// How a value is written in a column of this kind, without a copy of its text.
pub fn way_of(kind: ColumnType, text: &[u8]) -> Way
    requires { IsValue text.now }
    ensures { IsWay kind text.now result }
{
    if text == b"null".as_slice() {
        return Way::AsItStands;
    }
    match kind {
        ColumnType::Text => standing(is_string(text)),
        ColumnType::Instant => standing(is_string(text)),
        ColumnType::Bool => standing(is_bool(text)),
        ColumnType::Number => standing(is_number(text)),
        ColumnType::Whole => whole_way(text),
        ColumnType::Json => Way::AsItStands,
    }
}

// A text that fits stands as it is.
fn standing(fits: bool) -> Way
    ensures { result ≡ (if fits then ways.AsItStands else ways.Nulled) }
{
    if fits { Way::AsItStands } else { Way::Nulled }
}

// Whether a JSON value is a string. It looks at the first byte.
fn is_string(text: &[u8]) -> bool
    requires { IsValue text.now }
    ensures { IsTrue result ↔ IsSomeString text.now }
{
    text[0] == b'"'
}

// Whether a JSON value is `true` or `false`.
fn is_bool(text: &[u8]) -> bool
    ensures { IsTrue result ↔ ((text.now ≡ codes "true") ⊎ (text.now ≡ codes "false")) }
{
    text == b"true".as_slice() || text == b"false".as_slice()
}

// How a whole number is written.
fn whole_way(text: &[u8]) -> Way
    requires { text.now ≢ codes "null" }
    ensures { IsWay kinds.Whole text.now result }
{
    match number_of(text) {
        Some(number) => match whole_value(&number) {
            Some(whole) => Way::Whole(whole),
            None => Way::Nulled,
        },
        None => Way::Nulled,
    }
}

// The whole number that a decimal is, where it has 64 bits.
fn whole_value(number: &Decimal) -> Option<i64>
    ensures found { IfSome result (IsWholeOf number.now) }
    ensures none { IfNone result ((value : ℤ) → FitsSigned w64 value → ¬ IsWholeOf number.now value) }
{
    if number.exponent < 0 || number.exponent > 18 {
        return None;
    }
    let size = number
        .digits
        .checked_mul(10u128.pow(number.exponent as u32))?;
    if number.negative {
        below_zero(size)
    } else {
        i64::try_from(size).ok()
    }
}

// A number with a minus, where it has 64 bits.
fn below_zero(size: u128) -> Option<i64>
    ensures found { IfSome result (λ value. (size ≤ 2 ^ 63) × (value ≡ neg_ℤ (pos size))) }
    ensures none { IfNone result (2 ^ 63 < size) }
{
    if size > MOST_BELOW_ZERO {
        return None;
    }
    Some((-(size as i128)) as i64)
}
