// Which lines are taken.
ghost use Rattle.std.specs.Prelude.{◌≡◌, ◌≤◌, IfOk, IsTrue, ◌↔◌};
ghost use Rattle.worker_run.specs.TakenLines.{IsOfStream, IsTakenState, longest_line};

use crate::lines::{error_line, log_line, source_line};
use airbyte_message::{
    FailureType, Message, MessageReader, RecordMsg, StateKind, StateMsg, TraceMsg, own_message,
};
use outside::{Bytes, Name, NoMemory, StreamId};
use std::alloc::Global;

// The longest line that is taken, in bytes.
const LONGEST_LINE: usize = 20_971_520;

/// What a line is to the world.
#[derive(Debug, Drop)]
pub enum Judged {
    /// A record of the stream.
    Record(RecordMsg),
    /// A state of the stream, whose count is right.
    State(StateMsg),
    /// A line that is passed over, and what is said of it, if anything.
    Other(Option<Bytes>),
    /// A line that is not taken.
    Unbuilt,
}

// Whether a message is of the stream, which has no namespace.
fn is_of_stream(id: &StreamId, stream: &Name) -> bool
    ensures { IsTrue result ↔ IsOfStream stream.now id.now }
{
    id.namespace.is_none() && id.name.as_str() == stream.as_str()
}

// Whether a state is of the stream, and tells the number of records since the last one if it tells a number.
fn is_taken(state: &StateMsg, stream: &Name, since: u64) -> bool
    ensures { IsTrue result ↔ IsTakenState stream.now since state.now }
{
    let StateKind::Stream { id, .. } = state.kind() else {
        return false;
    };
    let is_counted = match state.source_count() {
        Some(count) => count == since,
        None => true,
    };
    is_of_stream(id, stream) && is_counted
}

impl Judged {
    ghost use Rattle.std.specs.Prelude.{IfOk};
    ghost use Rattle.worker_run.specs.Steps.{IsJudged, IsJudgedRecord, IsJudgedState, IsJudgedAs, IsJudgedTrace};

    /// Judges a line of a stream, of which so many records were read since the last state.
    pub fn of(
        alloc: Global,
        reader: &mut MessageReader,
        line: &[u8],
        stream: &Name,
        since: u64,
    ) -> Result<Self, NoMemory>
        ensures { IfOk result (IsJudged stream.now since line.now) }
    {
        if line.len() > LONGEST_LINE {
            return Ok(Judged::Unbuilt);
        }
        match reader.read(line)? {
            Some(view) => {
                let message = own_message(alloc, view)?;
                Judged::of_message(alloc, message, stream, since)
            }
            None => Ok(Judged::Other(Some(source_line(alloc, line)?))),
        }
    }

    // Judges a message.
    fn of_message(
        alloc: Global,
        message: Message,
        stream: &Name,
        since: u64,
    ) -> Result<Self, NoMemory>
        ensures { IfOk result (IsJudgedAs stream.now since message) }
    {
        match message {
            Message::Rec(content) => Ok(Judged::of_record(content, stream)),
            Message::State(state) => Ok(Judged::of_state(state, stream, since)),
            Message::Log(log) => Ok(Judged::Other(Some(log_line(alloc, &log)?))),
            Message::Spec(_spec) => Ok(Judged::Other(None)),
            Message::Connection(_connection) => Ok(Judged::Other(None)),
            Message::Catalog(_catalog) => Ok(Judged::Other(None)),
            Message::Trace(trace) => Judged::of_trace(alloc, &trace),
            Message::Control(_control) => Ok(Judged::Other(None)),
        }
    }

    // Judges a record.
    fn of_record(content: RecordMsg, stream: &Name) -> Self
        ensures { IsJudgedRecord stream.now content result }
    {
        if is_of_stream(&content.id, stream) {
            Judged::Record(content)
        } else {
            Judged::Unbuilt
        }
    }

    // Judges a state.
    fn of_state(state: StateMsg, stream: &Name, since: u64) -> Self
        ensures { IsJudgedState stream.now since state result }
    {
        if is_taken(&state, stream, since) {
            Judged::State(state)
        } else {
            Judged::Unbuilt
        }
    }

    // Judges a trace.
    fn of_trace(alloc: Global, trace: &TraceMsg) -> Result<Self, NoMemory>
        ensures { IfOk result (IsJudgedTrace trace.now) }
    {
        match trace {
            TraceMsg::Error { text, failure, .. } => match failure {
                Some(FailureType::ConfigError) => Ok(Judged::Unbuilt),
                _ => Ok(Judged::Other(Some(error_line(alloc, *failure, text)?))),
            },
            TraceMsg::Status { .. } => Ok(Judged::Unbuilt),
            TraceMsg::Other { .. } => Ok(Judged::Other(None)),
        }
    }
}
