// The value that a text is of.
ghost use Rattle.std.specs.Prelude.{◌≡◌, ◌≢◌, ◌<◌, ◌^◌, ◌-◌, ◌⊎◌, ◌∷◌, ◌++◌, ℕ, ℤ, pos, negsuc, ◌≤◌, List, length, IfOk, IfSome, IfNone, decimal, FitsSigned};
ghost use Rattle.std.specs.Int.{w128};
ghost use Rattle.std.specs.Fmt.{signed_decimal};
ghost use Rattle.value_order.specs.Texts.{counted_text, decimal_text, text_of};
ghost use Rattle.value_order.specs.Held.{IsHeld};
ghost use Rattle.value_order.specs.Marks.{Lacks};
ghost use Rattle.value_order.specs.declared.decimal.Decimal.{Decimal};
ghost use Rattle.value_order.specs.declared.value.Value.{Value};

use crate::{Decimal, Value};
use basics::{Bytes, Name, NoMemory};
use itoa::Buffer;
use std::alloc::Global;
use std::str;

// How many numbers below zero an `i128` can be.
const MOST_BELOW_ZERO: u128 = 1 << 127;

/// The value that has this text, `None` where no value has it.
pub fn read_value(alloc: Global, text: &[u8]) -> Result<Option<Value>, NoMemory>
    ensures found { IfOk result (λ found. IfSome found (λ value. text_of value ≡ text.now)) }
    ensures held { IfOk result (λ found. IfSome found IsHeld) }
    ensures none { IfOk result (λ found. IfNone found ((value : Value) → IsHeld value → text_of value ≢ text.now)) }
{
    match text.split_first() {
        Some((mark, rest)) => read_behind(alloc, *mark, rest),
        None => Ok(None),
    }
}

// The value whose text is the mark and what stands behind it.
fn read_behind(alloc: Global, mark: u8, rest: &[u8]) -> Result<Option<Value>, NoMemory>
    ensures found { IfOk result (λ found. IfSome found (λ value. text_of value ≡ mark ∷ rest.now)) }
    ensures held { IfOk result (λ found. IfSome found IsHeld) }
    ensures none { IfOk result (λ found. IfNone found ((value : Value) → IsHeld value → text_of value ≢ mark ∷ rest.now)) }
{
    match mark {
        b'n' => Ok(if rest.is_empty() {
            Some(Value::Null)
        } else {
            None
        }),
        b'f' => Ok(if rest.is_empty() {
            Some(Value::False)
        } else {
            None
        }),
        b't' => Ok(if rest.is_empty() {
            Some(Value::True)
        } else {
            None
        }),
        b'#' => Ok(number_of(rest)),
        b'"' => name_of(alloc, rest),
        b'@' => Ok(instant_of(rest)),
        b'?' => bytes_of(alloc, rest),
        _ => Ok(None),
    }
}

// The decimal whose text stands behind its mark.
fn number_of(text: &[u8]) -> Option<Value>
    ensures found { IfSome result (λ value. text_of value ≡ 35 ∷ text.now) }
    ensures held { IfSome result IsHeld }
    ensures none { IfNone result ((value : Value) → IsHeld value → text_of value ≢ 35 ∷ text.now) }
{
    match decimal_of(text) {
        Some(number) => Some(Value::Number(number)),
        None => None,
    }
}

// The instant whose text stands behind its mark.
fn instant_of(text: &[u8]) -> Option<Value>
    ensures found { IfSome result (λ value. text_of value ≡ 64 ∷ text.now) }
    ensures held { IfSome result IsHeld }
    ensures none { IfNone result ((value : Value) → IsHeld value → text_of value ≢ 64 ∷ text.now) }
{
    match integer_of(text) {
        Some(nanoseconds) => Some(Value::Instant(nanoseconds)),
        None => None,
    }
}

// The text whose counted text this is.
fn name_of(alloc: Global, text: &[u8]) -> Result<Option<Value>, NoMemory>
    ensures found { IfOk result (λ found. IfSome found (λ value. text_of value ≡ 34 ∷ text.now)) }
    ensures held { IfOk result (λ found. IfSome found IsHeld) }
    ensures none { IfOk result (λ found. IfNone found ((value : Value) → IsHeld value → text_of value ≢ 34 ∷ text.now)) }
{
    let Some(bytes) = counted(text) else {
        return Ok(None);
    };
    match str::from_utf8(bytes) {
        Ok(name) => Ok(Some(Value::Text(Name::copy_of(alloc, name)?))),
        Err(_) => Ok(None),
    }
}

// The bytes whose counted text this is.
fn bytes_of(alloc: Global, text: &[u8]) -> Result<Option<Value>, NoMemory>
    ensures found { IfOk result (λ found. IfSome found (λ value. text_of value ≡ 63 ∷ text.now)) }
    ensures held { IfOk result (λ found. IfSome found IsHeld) }
    ensures none { IfOk result (λ found. IfNone found ((value : Value) → IsHeld value → text_of value ≢ 63 ∷ text.now)) }
{
    match counted(text) {
        Some(bytes) => Ok(Some(Value::Other(Bytes::copy_of(alloc, bytes)?))),
        None => Ok(None),
    }
}

// What stands in front of the first such byte, and what stands behind it.
fn split_at(text: &[u8], byte: u8) -> Option<(&[u8], &[u8])>
    ensures found { IfSome result (λ parts. (text.now ≡ parts.0.now ++ byte ∷ parts.1.now) × Lacks byte parts.0.now) }
    ensures none { IfNone result (Lacks byte text.now) }
{
    for (at, found) in text.iter().enumerate() {
        if *found == byte {
            return Some((&text[..at], &text[at + 1..]));
        }
    }
    None
}

// The bytes whose counted text this is.
fn counted(text: &[u8]) -> Option<&[u8]>
    ensures found { IfSome result (λ bytes. (counted_text bytes.now ≡ text.now) × (length bytes.now < 2 ^ 63)) }
    ensures none { IfNone result ((bytes : List ℕ) → length bytes < 2 ^ 63 → counted_text bytes ≢ text.now) }
{
    match split_at(text, b':') {
        Some((count, bytes)) => {
            let mut buffer = Buffer::new();
            if buffer.format(bytes.len()).as_bytes() == count {
                Some(bytes)
            } else {
                None
            }
        }
        None => None,
    }
}

// The number whose decimal text this is.
fn natural_of(text: &[u8]) -> Option<u128>
    ensures found { IfSome result (λ n. decimal n ≡ text.now) }
    ensures none { IfNone result ((n : ℕ) → n < 2 ^ 128 → decimal n ≢ text.now) }
{
    let Ok(numeral) = str::from_utf8(text) else {
        return None;
    };
    let Ok(number) = numeral.parse::<u128>() else {
        return None;
    };
    let mut buffer = Buffer::new();
    if buffer.format(number).as_bytes() == text {
        Some(number)
    } else {
        None
    }
}

// What stands behind a minus, where there is one.
fn behind_minus(text: &[u8]) -> Option<&[u8]>
    ensures found { IfSome result (λ rest. text.now ≡ 45 ∷ rest.now) }
    ensures none { IfNone result ((rest : List ℕ) → text.now ≢ 45 ∷ rest) }
{
    match text.split_first() {
        Some((first, rest)) => { if *first == b'-' { Some(rest) } else { None } }
        None => None,
    }
}

// The whole number whose text this is.
fn integer_of(text: &[u8]) -> Option<i128>
    ensures found { IfSome result (λ n. signed_decimal n ≡ text.now) }
    ensures none { IfNone result ((n : ℤ) → FitsSigned w128 n → signed_decimal n ≢ text.now) }
{
    match behind_minus(text) {
        Some(digits) => match natural_of(digits) {
            Some(number) => below_zero(number),
            None => None,
        },
        None => match natural_of(text) {
            Some(number) => from_zero(number),
            None => None,
        },
    }
}

// A number without a minus.
fn from_zero(number: u128) -> Option<i128>
    ensures found { IfSome result (λ n. n ≡ pos number) }
    ensures none { IfNone result (2 ^ 127 ≤ number) }
{
    if number >= MOST_BELOW_ZERO {
        return None;
    }
    Some(number as i128)
}

// A number with a minus: 0 has none.
fn below_zero(number: u128) -> Option<i128>
    ensures found { IfSome result (λ n. (0 < number) × (n ≡ negsuc (number - 1))) }
    ensures none { IfNone result ((number ≡ 0) ⊎ (2 ^ 127 < number)) }
{
    if number == 0 || number > MOST_BELOW_ZERO {
        return None;
    }
    Some(-((number - 1) as i128) - 1)
}

// The decimal whose text this is.
fn decimal_of(text: &[u8]) -> Option<Decimal>
    ensures found { IfSome result (λ d. decimal_text d ≡ text.now) }
    ensures none { IfNone result ((d : Decimal) → decimal_text d ≢ text.now) }
{
    match behind_minus(text) {
        Some(rest) => decimal_behind(true, rest),
        None => decimal_behind(false, text),
    }
}

// The decimal of this sign whose digits and exponent these are.
fn decimal_behind(negative: bool, text: &[u8]) -> Option<Decimal>
    ensures found { IfSome result (λ d. (d.negative ≡ negative) × (decimal d.digits ++ 101 ∷ signed_decimal d.exponent ≡ text.now)) }
    ensures none { IfNone result ((d : Decimal) → d.negative ≡ negative → decimal d.digits ++ 101 ∷ signed_decimal d.exponent ≢ text.now) }
{
    match split_at(text, b'e') {
        Some((digits, exponent)) => decimal_from(negative, digits, exponent),
        None => None,
    }
}

// The decimal of this sign with these texts of its digits and its exponent.
fn decimal_from(negative: bool, digits: &[u8], exponent: &[u8]) -> Option<Decimal>
    ensures found { IfSome result (λ d. (d.negative ≡ negative) × (decimal d.digits ≡ digits.now) × (signed_decimal d.exponent ≡ exponent.now)) }
    ensures none { IfNone result ((d : Decimal) → d.negative ≡ negative → decimal d.digits ≡ digits.now → signed_decimal d.exponent ≢ exponent.now) }
{
    match natural_of(digits) {
        Some(number) => match integer_of(exponent) {
            Some(power) => Decimal::normal(negative, number, power),
            None => None,
        },
        None => None,
    }
}
