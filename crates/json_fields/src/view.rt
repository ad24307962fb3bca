// Texts in place.
ghost use Rattle.std.specs.Prelude.{◌≡◌, IsUtf8, IfOk, IfSome, MatchOption, ℕ, List, ◌≢◌, not, option_map};
ghost use Rattle.std.specs.List.{find};
ghost use Rattle.json_scalar.specs.Text.{IsString, is_plain as plain_test};
ghost use Rattle.json_scalar.specs.Quotes.{in_quotes};
ghost use Rattle.json_fields.specs.Answer.{IsAnswer};
ghost use Rattle.json_fields.specs.Words.{viewed};

use basics::{Name, NoMemory};
use json_span::text_of;
use std::alloc::Global;

/// What a JSON string stands for: in place where the string has no escapes.
#[derive(Debug, Drop)]
pub enum TextView<'a> {
    Plain(&'a str),
    Decoded(Name),
}

impl TextView<'_> {
    ghost use Rattle.std.specs.Prelude.{◌≡◌, IfOk};
    ghost use Rattle.json_fields.specs.Words.{viewed};

    /// The text.
    pub fn as_str(&self) -> &str
        ensures { result.now ≡ viewed self.now }
    {
        match self {
            TextView::Plain(text) => text,
            TextView::Decoded(name) => name.as_str(),
        }
    }

    /// The text as a name of its own.
    pub fn copied(&self, alloc: Global) -> Result<Name, NoMemory>
        ensures { IfOk result (λ name. name ≡ viewed self.now) }
    {
        Name::copy_of(alloc, self.as_str())
    }
}

// Whether the byte stands for itself in a string.
fn is_plain(byte: u8) -> bool
    ensures { result ≡ plain_test byte }
{
    32 <= byte && byte != b'"' && byte != b'\\'
}

// The first byte that does not stand for itself in a string.
fn first_not_plain(bytes: &[u8]) -> Option<u8>
    ensures { result ≡ find (λ byte. not (plain_test byte)) bytes.now }
{
    bytes.iter().copied().find(|byte| !is_plain(*byte))
}

// What stands between a quotation mark at the front and one at the end.
fn between_quotes(string: &str) -> Option<&str>
    ensures { MatchOption result ((inside : List ℕ) → string.now ≢ in_quotes inside) (λ inside. string.now ≡ in_quotes inside.now) }
{
    string.strip_prefix("\"")?.strip_suffix("\"")
}

// What a string without escapes stands for, where it is one.
fn plain_inside(text: &[u8]) -> Option<&str>
    requires { IsUtf8 text.now }
    ensures { IfSome result (λ inside. IsString text.now inside.now) }
{
    // The caller knows that it is UTF-8: the whole line was looked at once.
    let string = unsafe { std::str::from_utf8_unchecked(text) };
    let Some(inside) = between_quotes(string) else {
        return None;
    };
    match first_not_plain(inside.as_bytes()) {
        None => Some(inside),
        Some(_) => None,
    }
}

// What a text stands for as a JSON string, decoded.
fn decoded_view(alloc: Global, text: &[u8]) -> Result<Option<TextView<'_>>, NoMemory>
    ensures { IfOk result (λ found. IsAnswer (IsString text.now) (option_map viewed found)) }
{
    match text_of(alloc, text)? {
        Some(name) => Ok(Some(TextView::Decoded(name))),
        None => Ok(None),
    }
}

/// What a text in UTF-8 stands for as a JSON string, in place where it has no escapes; `None` where it is no string.
pub fn utf8_view(alloc: Global, text: &[u8]) -> Result<Option<TextView<'_>>, NoMemory>
    requires { IsUtf8 text.now }
    ensures { IfOk result (λ found. IsAnswer (IsString text.now) (option_map viewed found)) }
{
    if let Some(inside) = plain_inside(text) {
        return Ok(Some(TextView::Plain(inside)));
    }
    decoded_view(alloc, text)
}

/// What a text stands for as a JSON string, in place where it has no escapes; `None` where it is no string.
pub fn string_view(alloc: Global, text: &[u8]) -> Result<Option<TextView<'_>>, NoMemory>
    ensures { IfOk result (λ found. IsAnswer (IsString text.now) (option_map viewed found)) }
{
    if simdutf8::is_utf8(text) {
        return utf8_view(alloc, text);
    }
    decoded_view(alloc, text)
}
