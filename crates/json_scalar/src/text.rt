// Strings: what one stands for, and how one is written.
ghost use Rattle.std.specs.Prelude.{◌≡◌, ◌≢◌, ◌↔◌, ℕ, List, IfOk, IfSome, IfNone, IsTrue, MatchOption, false, not};
ghost use Rattle.std.specs.List.{find};
ghost use Rattle.json.specs.Print.{quoted};
ghost use Rattle.json_scalar.specs.Text.{IsString, IsNoString, is_plain as plain_test};
ghost use Rattle.json_scalar.specs.Form.{IsFormOf};
ghost use Rattle.json_scalar.specs.Quotes.{in_quotes, IsQuoted};

use basics::{Bytes, Name, NoMemory};
use serde_json::Value;
use std::alloc::Global;

/// The text that a JSON string stands for, `None` where the text is no JSON string. White space around the
/// quotation marks, a control byte, an escape of a lone surrogate and bytes that are not UTF-8 make it none.
pub fn text_of(alloc: Global, text: &[u8]) -> Result<Option<Name>, NoMemory>
    ensures string { IfOk result (λ found. IfSome found (IsString text.now)) }
    ensures only { IfOk result (λ found. IfSome found (λ name. (meaning : List ℕ) → IsString text.now meaning → meaning ≡ name)) }
    ensures none { IfOk result (λ found. IfNone found (IsNoString text.now)) }
{
    match form_of(text) {
        Form::NoString => Ok(None),
        Form::Plain(inside) => Ok(Some(Name::copy_of(alloc, inside)?)),
        Form::Escaped(string) => decoded(alloc, string),
    }
}

// Whether a text may be a string of this name, by the byte behind its quotation mark. Most keys that have another name
// are known by it.
#[inline(always)]
fn may_be(text: &[u8], name: &[u8]) -> bool
    ensures { result ≡ false → ¬ IsString text.now name.now }
{
    match text {
        [_, byte, ..] => match name {
            [first, ..] => *byte == *first || *byte == b'\\',
            [] => true,
        },
        _ => true,
    }
}

/// Whether the text is a JSON string that stands for this name. A string without escapes is compared in place.
pub fn is_string_of(alloc: Global, text: &[u8], name: &str) -> Result<bool, NoMemory>
    ensures { IfOk result (λ is. IsTrue is ↔ IsString text.now name.now) }
{
    if !may_be(text, name.as_bytes()) {
        return Ok(false);
    }
    match form_of(text) {
        Form::NoString => Ok(false),
        Form::Plain(inside) => Ok(inside == name),
        Form::Escaped(string) => match decoded(alloc, string)? {
            Some(meaning) => Ok(meaning.as_str() == name),
            None => Ok(false),
        },
    }
}

/// The JSON string of a text, as `serde_json` writes it: the short escapes, `\u00XX` for other control bytes.
pub fn quote(alloc: Global, text: &str) -> Result<Bytes, NoMemory>
    ensures written { IfOk result (λ string. string ≡ quoted text.now) }
    ensures reads_back { IfOk result (λ string. IsString string text.now) }
{
    let value = Value::String(String::from_str(alloc, text)?);
    Ok(Bytes::from_vec(value.to_vec(alloc)?))
}

// What a text is, as far as its bytes tell before they are decoded.
#[derive(Clone, Copy)]
enum Form<'a> {
    NoString,

    // What stands between the quotation marks, all of which stands for itself.
    Plain(&'a str),

    // The whole text, which has quotation marks at both ends and a backslash between them.
    Escaped(&'a str),
}

fn form_of(text: &[u8]) -> Form<'_>
    ensures { IsFormOf text.now result }
{
    let Ok(string) = simdutf8::compat::from_utf8(text) else {
        return Form::NoString;
    };
    let Some(inside) = between_quotes(string) else {
        return Form::NoString;
    };
    match first_not_plain(inside.as_bytes()) {
        None => Form::Plain(inside),
        Some(b'\\') => Form::Escaped(string),
        Some(_) => Form::NoString,
    }
}

// What stands between a quotation mark at the front and one at the end.
fn between_quotes(string: &str) -> Option<&str>
    ensures { MatchOption result ((inside : List ℕ) → string.now ≢ in_quotes inside) (λ inside. string.now ≡ in_quotes inside.now) }
{
    string.strip_prefix("\"")?.strip_suffix("\"")
}

// The first byte that does not stand for itself in a string.
fn first_not_plain(bytes: &[u8]) -> Option<u8>
    ensures { result ≡ find (λ byte. not (plain_test byte)) bytes.now }
{
    bytes.iter().copied().find(|byte| !is_plain(*byte))
}

// Whether the byte stands for itself in a string.
fn is_plain(byte: u8) -> bool
    ensures { result ≡ plain_test byte }
{
    32 <= byte && byte != b'"' && byte != b'\\'
}

// What a text with quotation marks at both ends stands for, if it is a string.
fn decoded(alloc: Global, string: &str) -> Result<Option<Name>, NoMemory>
    requires { IsQuoted string.now }
    ensures string { IfOk result (λ found. IfSome found (IsString string.now)) }
    ensures only { IfOk result (λ found. IfSome found (λ name. (meaning : List ℕ) → IsString string.now meaning → meaning ≡ name)) }
    ensures none { IfOk result (λ found. IfNone found (IsNoString string.now)) }
{
    let value = match Value::from_str(alloc, string) {
        Ok(value) => value,
        Err(fault) if fault.is_memory() => return Err(NoMemory),
        Err(_) => return Ok(None),
    };
    match value {
        Value::String(meaning) => Ok(Some(Name::from_string(meaning))),
        _ => Ok(None),
    }
}
