// The lines that are said, as texts.
ghost use Rattle.std.specs.Prelude.{◌≡◌, ◌++◌, map, nat_lt, if◌then◌else◌, IfOk, OnOk};
ghost use Rattle.worker_run.specs.Output.{source_line as source_line_of, log_line as log_line_of, error_line as error_line_of, table_line as table_line_of, failure_name as failure_name_of, shown};

use airbyte_message::{FailureType, LogMsg};
use outside::{Bytes, Name, NoMemory};
use std::alloc::Global;

// A text to which so many bytes will be put, so that it grows once.
fn begun(alloc: Global, front: &[u8], more: usize) -> Result<Vec<u8>, NoMemory>
    ensures { IfOk result (λ text. text.items ≡ front.now) }
{
    let mut text = Vec::with_capacity(alloc, front.len().saturating_add(more))?;
    text.extend_from_slice(front)?;
    Ok(text)
}

/// Two texts, one behind the other.
pub fn joined(alloc: Global, front: &[u8], back: &[u8]) -> Result<Bytes, NoMemory>
    ensures { IfOk result (λ text. text ≡ front.now ++ back.now) }
{
    let mut text = begun(alloc, front, back.len())?;
    text.extend_from_slice(back)?;
    Ok(Bytes::from_vec(text))
}

// A byte as it is said: one below 32 is a space.
fn shown_byte(byte: u8) -> u8
    ensures { result ≡ (if nat_lt byte 32 then 32 else byte) }
{
    if byte < 32 { b' ' } else { byte }
}

// Puts a text behind what is written, as it is said.
fn push_shown(line: &mut Vec<u8>, text: &[u8]) -> Result<(), NoMemory>
    ensures { OnOk result (line.new.items ≡ line.old.items ++ shown text.now) }
{
    for byte in text {
        line.push(shown_byte(*byte))?;
    }
    Ok(())
}

/// A line that is no message, behind `source: `, with all its bytes.
pub fn source_line(alloc: Global, line: &[u8]) -> Result<Bytes, NoMemory>
    ensures { IfOk result (λ text. text ≡ source_line_of line.now) }
{
    joined(alloc, b"source: ", line)
}

/// A line of the source's log, behind `source [LEVEL] `.
pub fn log_line(alloc: Global, log: &LogMsg) -> Result<Bytes, NoMemory>
    ensures { IfOk result (λ text. text ≡ log_line_of log.now.level log.now.text) }
{
    let level = log.level.text().as_bytes();
    let said = log.text.as_str().as_bytes();
    let room = level.len().saturating_add(said.len()).saturating_add(2);
    let mut text = begun(alloc, b"source [", room)?;
    text.extend_from_slice(level)?;
    text.extend_from_slice(b"] ")?;
    push_shown(&mut text, said)?;
    Ok(Bytes::from_vec(text))
}

// The type of an error; where none is told it is the system's.
fn failure_name(failure: Option<FailureType>) -> &'static str
    ensures { result.now ≡ failure_name_of failure }
{
    match failure {
        Some(kind) => kind.text(),
        None => "system_error",
    }
}

/// An error of the source, behind `source error ` and its type.
pub fn error_line(
    alloc: Global,
    failure: Option<FailureType>,
    message: &Name,
) -> Result<Bytes, NoMemory>
    ensures { IfOk result (λ text. text ≡ error_line_of failure message.now) }
{
    let kind = failure_name(failure).as_bytes();
    let said = message.as_str().as_bytes();
    let room = kind.len().saturating_add(said.len()).saturating_add(1);
    let mut text = begun(alloc, b"source error ", room)?;
    text.extend_from_slice(kind)?;
    text.push(b' ')?;
    push_shown(&mut text, said)?;
    Ok(Bytes::from_vec(text))
}

/// The number of rows of a stream's table, behind `table ` and its name.
pub fn table_line(alloc: Global, stream: &Name, rows: u64) -> Result<Bytes, NoMemory>
    ensures { IfOk result (λ text. text ≡ table_line_of stream.now rows) }
{
    let count = format!(in alloc; " rows {rows}")?;
    let name = stream.as_str().as_bytes();
    let mut text = begun(alloc, b"table ", name.len().saturating_add(count.len()))?;
    push_shown(&mut text, name)?;
    text.extend_from_slice(count.as_bytes())?;
    Ok(Bytes::from_vec(text))
}
