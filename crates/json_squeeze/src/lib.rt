//! Takes the white space out of JSON texts (RFC 8259).
#![tactic(auto)]

ghost use Rattle.std.specs.Prelude.{◌≡◌, ◌≤◌, ◌<◌, ◌++◌, length, drop, slice_range, ◌≢◌, slice_index, false, IfOk, IsUtf8};
ghost use Rattle.json_span.specs.Grammar.{Value};
ghost use Rattle.json_squeeze.specs.Squeeze.{is_space as space_test, squeezed, in_string};
ghost use Rattle.json_squeeze.specs.Dense.{dense_text, IsSpelling, StaysObject, StaysArray, SqueezesValues, SqueezesAlike, SqueezesOnce, KeepsUtf8};

use basics::{Bytes, NoMemory};
use std::alloc::Global;

/// The text without spaces, tabs, newlines and carriage returns outside strings. A string that does not end goes on
/// to the end of the text. It works on any bytes; of a JSON value it makes the same value without white space.
pub fn squeeze(alloc: Global, text: &[u8]) -> Result<Bytes, NoMemory>
    ensures squeezed { IfOk result (λ made. made ≡ squeezed text.now) }
    ensures dense { IfOk result (λ made. (v : Value) → IsSpelling text.now v → made ≡ dense_text v) }
    ensures utf8 { IfOk result (λ made. IsUtf8 text.now → IsUtf8 made) }
    ensures object { IfOk result (StaysObject text.now) }
    ensures array { IfOk result (StaysArray text.now) }
{
    let mut made = Vec::with_capacity(alloc, text.len())?;
    let mut at = 0;
    while at < text.len() {
        if is_space(text[at]) {
            at += 1;
        } else {
            let end = run_end(text, at);
            made.extend_from_slice(&text[at..end])?;
            at = end;
        }
    }
    Ok(Bytes::from_vec(made))
}

// The place of the next white space outside a string, or the end. A run begins with no white space.
fn run_end(text: &[u8], from: usize) -> usize
    requires inside { from < length text.now }
    requires shown { space_test (slice_index text.now from) ≡ false }
    ensures range { (from < result) × (result ≤ length text.now) }
    ensures kept { squeezed (drop from text.now) ≡ slice_range text.now from result ++ squeezed (drop result text.now) }
{
    let mut at = shown_end(text, from);
    while at < text.len() && !is_space(text[at]) {
        at = shown_end(text, at);
    }
    at
}

// The place behind the byte at `from`, or behind the string that begins there.
#[inline(always)]
fn shown_end(text: &[u8], from: usize) -> usize
    requires inside { from < length text.now }
    requires shown { space_test (slice_index text.now from) ≡ false }
    ensures range { (from < result) × (result ≤ length text.now) }
    ensures kept { squeezed (drop from text.now) ≡ slice_range text.now from result ++ squeezed (drop result text.now) }
{
    if text[from] == b'"' {
        string_end(text, from + 1)
    } else {
        from + 1
    }
}

// The place behind the quotation mark that ends a string, from a place in it on, or the end.
fn string_end(text: &[u8], from: usize) -> usize
    requires { from ≤ length text.now }
    ensures range { (from ≤ result) × (result ≤ length text.now) }
    ensures kept { in_string (drop from text.now) ≡ slice_range text.now from result ++ squeezed (drop result text.now) }
{
    let mut at = from;
    while at < text.len() {
        if text[at] == b'"' {
            return at + 1;
        }
        at = piece_end(text, at);
    }
    at
}

// The place behind a byte in a string, and behind the byte that a backslash escapes.
#[inline(always)]
fn piece_end(text: &[u8], at: usize) -> usize
    requires inside { at < length text.now }
    requires unquoted { slice_index text.now at ≢ 34 }
    ensures range { (at < result) × (result ≤ length text.now) }
    ensures kept { in_string (drop at text.now) ≡ slice_range text.now at result ++ in_string (drop result text.now) }
{
    if text[at] == b'\\' && at + 1 < text.len() {
        at + 2
    } else {
        at + 1
    }
}

// Whether the byte is white space.
#[inline(always)]
fn is_space(byte: u8) -> bool
    ensures { result ≡ space_test byte }
{
    byte == b' ' || byte == b'\t' || byte == b'\n' || byte == b'\r'
}

/// A law: the squeezed text of a value is what its tree spells without white space.
pub fn squeezes_values()
    ensures { SqueezesValues }
{}

/// A law: spellings of one value that differ in white space alone squeeze to the same bytes.
pub fn squeezes_alike()
    ensures { SqueezesAlike }
{}

/// A law: squeezing twice is squeezing once.
pub fn squeezes_once()
    ensures { SqueezesOnce }
{}

/// A law: what is UTF-8 stays UTF-8.
pub fn keeps_utf8()
    ensures { KeepsUtf8 }
{}
