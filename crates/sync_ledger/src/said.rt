// What is said of a line.
ghost use Rattle.std.specs.Prelude.{◌≡◌, ◌++◌, nat_lt, if◌then◌else◌, IfOk, OnOk};
ghost use Rattle.sync_ledger.specs.Said.{error_said, error_line as error_line_of, failure_name as failure_name_of, log_line as log_line_of, plain_line as plain_line_of, shown, side_text as side_text_of};

use airbyte_message::{FailureType, LogMsg};
use basics::{Bytes, Name, NoMemory};
use outside::Side;
use std::alloc::Global;

/// What is to be said of a line, if anything.
#[derive(Debug, Drop)]
pub enum Saying {
    Say(Bytes),
    Nothing,
    /// This is to be said of an error in the configuration, which ends the sync.
    ConfigError(Bytes),
}

fn side_text(side: Side) -> &'static [u8]
    ensures { result.now ≡ side_text_of side }
{
    match side {
        Side::Source => b"source",
        Side::Dest => b"dest",
    }
}

// A byte as it is said: one below 32 is a space.
fn shown_byte(byte: u8) -> u8
    ensures { result ≡ (if nat_lt byte 32 then 32 else byte) }
{
    if byte < 32 { b' ' } else { byte }
}

// Puts a message behind what is written, as it is said.
fn put_shown(line: &mut Bytes, message: &[u8]) -> Result<(), NoMemory>
    ensures { OnOk result (line.new ≡ line.old ++ shown message.now) }
{
    for byte in message {
        line.push(shown_byte(*byte))?;
    }
    Ok(())
}

// The text of a side, with room for so many bytes behind it.
fn begun(alloc: Global, side: Side, more: usize) -> Result<Bytes, NoMemory>
    ensures { IfOk result (λ line. line ≡ side_text_of side) }
{
    let text = side_text(side);
    let mut line = Bytes::with_capacity(alloc, text.len().saturating_add(more))?;
    line.extend(text)?;
    Ok(line)
}

/// A line that is no message, with all its bytes.
pub fn plain_line(alloc: Global, side: Side, text: &[u8]) -> Result<Bytes, NoMemory>
    ensures { IfOk result (λ line. line ≡ plain_line_of side text.now) }
{
    let mut line = begun(alloc, side, text.len().saturating_add(2))?;
    line.extend(b": ")?;
    line.extend(text)?;
    Ok(line)
}

/// A line of a log.
pub fn log_line(alloc: Global, side: Side, log: &LogMsg) -> Result<Bytes, NoMemory>
    ensures { IfOk result (λ line. line ≡ log_line_of side log.now.level log.now.text) }
{
    let level = log.level.text().as_bytes();
    let message = log.text.as_str().as_bytes();
    let room = level.len().saturating_add(message.len());
    let mut line = begun(alloc, side, room.saturating_add(4))?;
    line.extend(b" [")?;
    line.extend(level)?;
    line.extend(b"] ")?;
    put_shown(&mut line, message)?;
    Ok(line)
}

// The type of an error; where none is told it is the system's.
fn failure_name(failure: Option<FailureType>) -> &'static str
    ensures { result.now ≡ failure_name_of failure }
{
    match failure {
        Some(kind) => kind.text(),
        None => "system_error",
    }
}

// An error.
fn error_line(
    alloc: Global,
    side: Side,
    failure: Option<FailureType>,
    message: &Name,
) -> Result<Bytes, NoMemory>
    ensures { IfOk result (λ line. line ≡ error_line_of side failure message.now) }
{
    let kind = failure_name(failure).as_bytes();
    let message = message.as_str().as_bytes();
    let room = kind.len().saturating_add(message.len());
    let mut line = begun(alloc, side, room.saturating_add(8))?;
    line.extend(b" error ")?;
    line.extend(kind)?;
    line.extend(b" ")?;
    put_shown(&mut line, message)?;
    Ok(line)
}

/// What is said of an error: one in the configuration ends the sync.
pub fn say_error(
    alloc: Global,
    side: Side,
    failure: Option<FailureType>,
    message: &Name,
) -> Result<Saying, NoMemory>
    ensures { IfOk result (λ saying. saying ≡ error_said side failure message.now) }
{
    let line = error_line(alloc, side, failure, message)?;
    match failure {
        Some(FailureType::ConfigError) => Ok(Saying::ConfigError(line)),
        _ => Ok(Saying::Say(line)),
    }
}
