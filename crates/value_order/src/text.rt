// The text of a value.
ghost use Rattle.std.specs.Prelude.{◌≡◌, ◌∷◌, ◌++◌, ◌<◌, ◌^◌, length, IfOk, OnOk};
ghost use Rattle.std.specs.Fmt.{signed_decimal};
ghost use Rattle.value_order.specs.Texts.{counted_text, decimal_text, text_of};
ghost use Rattle.value_order.specs.Held.{IsHeld, TextsAreDistinct, TextsEnd, TiesHaveOneText};

use crate::{Decimal, Value};
use basics::{Bytes, NoMemory};
use itoa::Buffer;
use std::alloc::Global;

/// The text of a value.
pub fn value_text(alloc: Global, value: &Value) -> Result<Bytes, NoMemory>
    ensures text { IfOk result (λ text. text ≡ text_of value.now) }
    ensures held { IsHeld value.now }
{
    Ok(Bytes::from_vec(put_value(Vec::new(alloc), value)?))
}

/// Puts the text of a value behind what is written. Want of memory drops it all.
pub fn put_value(mut text: Vec<u8>, value: &Value) -> Result<Vec<u8>, NoMemory>
    ensures text { IfOk result (λ made. made.items ≡ text.items ++ text_of value.now) }
    ensures held { IsHeld value.now }
{
    match value {
        Value::Null => put(&mut text, b"n")?,
        Value::False => put(&mut text, b"f")?,
        Value::True => put(&mut text, b"t")?,
        Value::Number(number) => put_decimal(&mut text, number)?,
        Value::Text(name) => put_counted(&mut text, b'"', name.as_str().as_bytes())?,
        Value::Instant(nanoseconds) => put_instant(&mut text, *nanoseconds)?,
        Value::Other(bytes) => put_counted(&mut text, b'?', bytes.as_slice())?,
    }
    Ok(text)
}

/// A law: no two values have the same text.
pub fn texts_are_distinct()
    ensures { TextsAreDistinct }
{}

/// A law: two values are equal in order exactly where their texts are equal.
pub fn ties_have_one_text()
    ensures { TiesHaveOneText }
{}

/// A law: no value's text stands in front of another's, where a semicolon follows both. So equal lists of texts, each
/// with a semicolon behind it, are of equal lists of values.
pub fn texts_end()
    ensures { TextsEnd }
{}

fn put(text: &mut Vec<u8>, bytes: &[u8]) -> Result<(), NoMemory>
    ensures { OnOk result (text.new.items ≡ text.old.items ++ bytes.now) }
{
    text.extend_from_slice(bytes)?;
    Ok(())
}

// Puts a mark, how many bytes there are, a colon and the bytes.
fn put_counted(text: &mut Vec<u8>, mark: u8, bytes: &[u8]) -> Result<(), NoMemory>
    ensures text { OnOk result (text.new.items ≡ text.old.items ++ mark ∷ counted_text bytes.now) }
    ensures small { length bytes.now < 2 ^ 63 }
{
    let mut buffer = Buffer::new();
    text.push(mark)?;
    put(text, buffer.format(bytes.len()).as_bytes())?;
    text.push(b':')?;
    put(text, bytes)
}

// Puts the text of a decimal behind its mark.
fn put_decimal(text: &mut Vec<u8>, number: &Decimal) -> Result<(), NoMemory>
    ensures { OnOk result (text.new.items ≡ text.old.items ++ 35 ∷ decimal_text number.now) }
{
    put(
        text,
        if number.negative {
            b"#-".as_slice()
        } else {
            b"#".as_slice()
        },
    )?;
    let mut digits = Buffer::new();
    put(text, digits.format(number.digits).as_bytes())?;
    text.push(b'e')?;
    let mut exponent = Buffer::new();
    put(text, exponent.format(number.exponent).as_bytes())
}

// Puts the text of an instant.
fn put_instant(text: &mut Vec<u8>, nanoseconds: i128) -> Result<(), NoMemory>
    ensures { OnOk result (text.new.items ≡ text.old.items ++ 64 ∷ signed_decimal nanoseconds) }
{
    let mut buffer = Buffer::new();
    text.push(b'@')?;
    put(text, buffer.format(nanoseconds).as_bytes())
}
