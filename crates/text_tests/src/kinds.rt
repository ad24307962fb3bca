// Messages of the kinds that carry no record and no state, and states of all kinds.
use crate::reading::{Want, fits, is_message, state_in};
use airbyte_message::{ConnectionMsg, LogMsg, Message, StateKind, TraceMsg, same_state};
use basics::NoMemory;
use message_writer::write_message;
use std::alloc::{AllocError, Global};
use std::test::Fail;

const KINDS: &[(&str, &str)] = &[
    (
        r#"{"type":"LOG","log":{"level":"INFO","message":"hi"}}"#,
        "log INFO hi",
    ),
    (
        r#"{"log":{"message":"\u0041","level":"TRACE","x":1},"type":"LOG"}"#,
        "log TRACE A",
    ),
    (
        r#"{"type":"CONNECTION_STATUS","connectionStatus":{"status":"SUCCEEDED"}}"#,
        "connection true -",
    ),
    (
        r#"{"type":"CONNECTION_STATUS","connectionStatus":{"status":"FAILED","message":"no"}}"#,
        "connection false no",
    ),
    (
        r#"{"type":"CONNECTION_STATUS","connectionStatus":{"status":"FAILED","message":null}}"#,
        "connection false -",
    ),
    (
        r#"{"type":"SPEC","spec":{"connectionSpecification":{"a":1}}}"#,
        "spec of 7 bytes",
    ),
    (
        r#"{"type":"CATALOG","catalog":{"streams":[ 1 ]}}"#,
        "catalog of 5 bytes",
    ),
    (
        r#"{"type":"CONTROL","control":{"type":"any"}}"#,
        "control of 14 bytes",
    ),
    (
        r#"{"type":"TRACE","trace":{"type":"ERROR","error":{"message":"m"}}}"#,
        "error - m",
    ),
    (
        r#"{"type":"TRACE","trace":{"type":"ERROR","emitted_at":1.5e3,"error":{"message":"m","failure_type":"config_error"}}}"#,
        "error config_error m",
    ),
    (
        r#"{"type":"TRACE","trace":{"type":"STREAM_STATUS","stream_status":{"stream_descriptor":{"name":"a"},"status":"COMPLETE"}}}"#,
        "status a COMPLETE",
    ),
    (
        r#"{"type":"TRACE","trace":{"type":"ANALYTICS"}}"#,
        "trace of 20 bytes",
    ),
    (
        r#"{"type":"STATE","state":{"type":"GLOBAL","global":{"stream_states":[{"stream_descriptor":{"name":"a"}},{"stream_descriptor":{"name":"b","namespace":"n"},"stream_state":1}]}}}"#,
        "global false 2",
    ),
    (
        r#"{"type":"STATE","state":{"type":"GLOBAL","global":{"shared_state":{},"stream_states":[]}}}"#,
        "global true 0",
    ),
    (r#"{"type":"STATE","state":{"data":{}}}"#, "legacy"),
    (
        r#"{"type":"STATE","state":{"type":null,"sourceStats":{}}}"#,
        "legacy",
    ),
];

// What a line of a log tells, in a few words.
fn told_log(alloc: Global, log: &LogMsg) -> Result<String, AllocError> {
    format!(in alloc; "log {} {}", log.level.text(), log.text.as_str())
}

// What the status of a connection tells.
fn told_connection(alloc: Global, connection: &ConnectionMsg) -> Result<String, AllocError> {
    let text = match &connection.text {
        Some(text) => text.as_str(),
        None => "-",
    };
    format!(in alloc; "connection {} {text}", connection.succeeded)
}

// What a trace tells.
fn told_trace(alloc: Global, trace: &TraceMsg) -> Result<String, AllocError> {
    match trace {
        TraceMsg::Error { text, failure, .. } => {
            let kind = match failure {
                Some(failure) => failure.text(),
                None => "-",
            };
            format!(in alloc; "error {kind} {}", text.as_str())
        }
        TraceMsg::Status { id, status, .. } => {
            format!(in alloc; "status {} {}", id.name.as_str(), status.text())
        }
        TraceMsg::Other { object } => told_size(alloc, "trace", object.len()),
    }
}

// What a state tells.
fn told_state(alloc: Global, kind: &StateKind) -> Result<String, AllocError> {
    match kind {
        StateKind::Stream { id, .. } => format!(in alloc; "stream {}", id.name.as_str()),
        StateKind::Global { shared, streams } => {
            format!(in alloc; "global {} {}", shared.is_some(), streams.len())
        }
        StateKind::Legacy => String::from_str(alloc, "legacy"),
    }
}

// The size of what a message holds.
fn told_size(alloc: Global, kind: &str, size: usize) -> Result<String, AllocError> {
    format!(in alloc; "{kind} of {size} bytes")
}

// What a message tells, in a few words.
fn told(alloc: Global, message: &Message) -> Result<String, AllocError> {
    match message {
        Message::Log(log) => told_log(alloc, log),
        Message::Connection(connection) => told_connection(alloc, connection),
        Message::Trace(trace) => told_trace(alloc, trace),
        Message::Spec(spec) => told_size(alloc, "spec", spec.specification.len()),
        Message::Catalog(catalog) => told_size(alloc, "catalog", catalog.streams.len()),
        Message::Control(control) => told_size(alloc, "control", control.object.len()),
        Message::State(state) => told_state(alloc, state.kind()),
        Message::Rec(content) => format!(in alloc; "record {}", content.id.name.as_str()),
    }
}

// A message that tells this.
#[derive(Drop)]
struct Tells<'a> {
    text: &'a str,
}

impl Want for Tells<'_> {
    fn holds(&self, alloc: Global, message: &Message) -> Result<bool, NoMemory> {
        Ok(told(alloc, message)?.as_str() == self.text)
    }
}

#[test]
fn each_kind_is_read_from_its_line(rt: HostRuntime) -> Result<(), Fail> {
    for (line, text) in KINDS {
        assert!(rt; fits(rt.alloc(), line, &Tells { text })?, "{line}");
    }
    Ok(())
}

const OTHER_FORMS: &[&str] = &[
    r#"{"type":"LOG","log":{"level":"INFO"}}"#,
    r#"{"type":"LOG","log":{"level":"INFO","message":1}}"#,
    r#"{"type":"CONNECTION_STATUS","connectionStatus":{"status":"SUCCEEDED","message":1}}"#,
    r#"{"type":"CONNECTION_STATUS","connectionStatus":{"status":"OK"}}"#,
    r#"{"type":"SPEC","spec":{"connectionSpecification":[]}}"#,
    r#"{"type":"CATALOG","catalog":{"streams":{}}}"#,
    r#"{"type":"CONTROL","control":{"type":1}}"#,
    r#"{"type":"CONTROL","control":[]}"#,
    r#"{"type":"TRACE","trace":{"type":"ERROR","emitted_at":"1","error":{"message":"m"}}}"#,
    r#"{"type":"TRACE","trace":{"type":"ERROR","error":{"message":"m","failure_type":"other"}}}"#,
    r#"{"type":"TRACE","trace":{"type":"STREAM_STATUS","stream_status":{"stream_descriptor":{"name":"a"},"status":"DONE"}}}"#,
    r#"{"type":"STATE","state":{"type":"GLOBAL","global":{}}}"#,
    r#"{"type":"STATE","state":{"type":"GLOBAL","global":{"stream_states":[1]}}}"#,
    r#"{"type":"STATE","state":{"type":"OTHER"}}"#,
    r#"{"type":"STATE","state":{"type":7}}"#,
    r#"{"type":"STATE","state":{"sourceStats":{"recordCount":1.5}}}"#,
];

#[test]
fn other_forms_of_these_kinds_are_no_messages(rt: HostRuntime) -> Result<(), Fail> {
    for line in OTHER_FORMS {
        assert!(rt; !is_message(rt.alloc(), line.as_bytes())?, "{line}");
    }
    Ok(())
}

const BLOBS: &[(&str, &str, bool)] = &[
    (r#"{"p": 1}"#, r#"{"p":1}"#, true),
    ("1.0", "1", false),
    (r#""a b""#, r#""ab""#, false),
    ("null", " null", true),
];

// The line of a state of the stream `a` with this blob, and more members of the state behind it.
fn line_with(alloc: Global, blob: &str, more: &str) -> Result<String, AllocError> {
    format!(in alloc;
        r#"{{"type":"STATE","state":{{"type":"STREAM","stream":{{"stream_descriptor":{{"name":"a"}},"stream_state":{blob}}}{more}}}}}"#
    )
}

// A state that is the same as that of the other message, or is not.
#[derive(Drop)]
struct IsSame<'a> {
    other: &'a Message,
    is: bool,
}

impl Want for IsSame<'_> {
    fn holds(&self, alloc: Global, message: &Message) -> Result<bool, NoMemory> {
        match (state_in(message), state_in(self.other)) {
            (Some(a), Some(b)) => Ok(same_state(alloc, a, b)? == self.is),
            _ => Ok(false),
        }
    }
}

// A state that is the same as that of the other line, or is not.
#[derive(Drop)]
struct IsSameAsLine<'a> {
    other: &'a str,
    is: bool,
}

impl Want for IsSameAsLine<'_> {
    fn holds(&self, alloc: Global, message: &Message) -> Result<bool, NoMemory> {
        let is = self.is;
        fits(alloc, self.other, &IsSame { other: message, is })
    }
}

#[test]
fn states_are_the_same_up_to_white_space_and_counts(rt: HostRuntime) -> Result<(), Fail> {
    for (blob, other, is) in BLOBS {
        let line = line_with(rt.alloc(), blob, r#","sourceStats":{"recordCount":1}"#)?;
        let other_line = line_with(rt.alloc(), other, "")?;
        let want = IsSameAsLine {
            other: other_line.as_str(),
            is: *is,
        };
        assert!(rt;
            fits(rt.alloc(), line.as_str(), &want)?,
            "{blob} and {other}"
        );
    }
    Ok(())
}

const WRITTEN: &[&str] = &[
    r#"{"type":"RECORD","record":{"stream":"Zo\"","namespace":"n","data":{ "a":1.0},"emitted_at":7,"meta":[]}}"#,
    r#"{"type":"STATE","state":{"type":"STREAM","stream":{"stream_descriptor":{"name":"a"}} }}"#,
    r#"{"type":"LOG","log":{"level":"INFO","message":"hi"}}"#,
    r#"{"type":"SPEC","spec":{"connectionSpecification":{}}}"#,
    r#"{"type":"CONNECTION_STATUS","connectionStatus":{"status":"FAILED","message":"no"}}"#,
    r#"{"type":"CATALOG","catalog":{"streams":[]}}"#,
    r#"{"type":"TRACE","trace":{"type":"ERROR","emitted_at":1,"error":{"message":"m","failure_type":"config_error"}}}"#,
    r#"{"type":"TRACE","trace":{"type":"STREAM_STATUS","stream_status":{"stream_descriptor":{"name":"a"},"status":"STARTED"}}}"#,
    r#"{"type":"TRACE","trace":{"type":"ANALYTICS","x":1}}"#,
    r#"{"type":"CONTROL","control":{"type":"CONNECTOR_CONFIG"}}"#,
];

// A message that is written as this line.
#[derive(Drop)]
struct IsWritten<'a> {
    line: &'a str,
}

impl Want for IsWritten<'_> {
    fn holds(&self, alloc: Global, message: &Message) -> Result<bool, NoMemory> {
        Ok(write_message(alloc, message)?.as_slice() == self.line.as_bytes())
    }
}

#[test]
fn a_line_in_the_written_form_is_written_again(rt: HostRuntime) -> Result<(), Fail> {
    for line in WRITTEN {
        assert!(rt; fits(rt.alloc(), line, &IsWritten { line })?, "{line}");
    }
    Ok(())
}
