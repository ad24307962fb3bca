// Which lines are states, and what they hold.
use crate::reading::{Want, fits, is_message, is_text, state_in};
use airbyte_message::{Message, StateKind, StateMsg};
use basics::{Bytes, Copies, NoMemory, StreamId};
use std::alloc::{AllocError, Global};
use std::test::Fail;

// The line of a state of a stream, and what it holds.
struct State {
    line: &'static str,
    object: &'static str,
    stream: &'static str,
    namespace: Option<&'static str>,
    blob: Option<&'static str>,
    count: Option<u64>,
}

const STATES: &[State] = &[
    State {
        line: r#"{"type":"STATE","state":{"type":"STREAM","stream":{"stream_descriptor":{"name":"a"}}}}"#,
        object: r#"{"type":"STREAM","stream":{"stream_descriptor":{"name":"a"}}}"#,
        stream: "a",
        namespace: None,
        blob: None,
        count: None,
    },
    State {
        line: r#"{"type":"STATE","state":{"type":"STREAM","stream":{"stream_descriptor":{"name":"a","namespace":"n"},"stream_state":{"p": 10.0}},"sourceStats":{"recordCount":2.0}}}"#,
        object: r#"{"type":"STREAM","stream":{"stream_descriptor":{"name":"a","namespace":"n"},"stream_state":{"p": 10.0}},"sourceStats":{"recordCount":2.0}}"#,
        stream: "a",
        namespace: Some("n"),
        blob: Some(r#"{"p": 10.0}"#),
        count: Some(2),
    },
    State {
        line: r#" { "type" : "STATE" , "state" : { "type" : "STREAM" , "stream" : { "stream_descriptor" : { "name" : "a" } , "stream_state" : [ 1 ] } , "sourceStats" : { } } } "#,
        object: r#"{ "type" : "STREAM" , "stream" : { "stream_descriptor" : { "name" : "a" } , "stream_state" : [ 1 ] } , "sourceStats" : { } }"#,
        stream: "a",
        namespace: None,
        blob: Some("[ 1 ]"),
        count: None,
    },
    State {
        line: r#"{"type":"STATE","state":{"type":"STREAM","stream":{"stream_descriptor":{"name":"a","namespace":null},"stream_state":null},"sourceStats":{"recordCount":null},"destinationStats":[]}}"#,
        object: r#"{"type":"STREAM","stream":{"stream_descriptor":{"name":"a","namespace":null},"stream_state":null},"sourceStats":{"recordCount":null},"destinationStats":[]}"#,
        stream: "a",
        namespace: None,
        blob: None,
        count: None,
    },
    State {
        line: r#"{"type":"STATE","state":{"sourceStats":null,"stream":{"stream_descriptor":{"name":"a"}},"stream":{"stream_state":1,"stream_state":"x","stream_descriptor":[],"stream_descriptor":{"name":1,"name":"Zo\u00eb"}},"type":"GLOBAL","type":"STR\u0045AM"}}"#,
        object: r#"{"sourceStats":null,"stream":{"stream_descriptor":{"name":"a"}},"stream":{"stream_state":1,"stream_state":"x","stream_descriptor":[],"stream_descriptor":{"name":1,"name":"Zo\u00eb"}},"type":"GLOBAL","type":"STR\u0045AM"}"#,
        stream: "Zoë",
        namespace: None,
        blob: Some(r#""x""#),
        count: None,
    },
    State {
        line: r#"{"type":"STATE","state":{"type":"STREAM","stream":{"stream_descriptor":{"name":"a"}},"sourceStats":{"recordCount":1.5,"recordCount":9223372036854775807}}}"#,
        object: r#"{"type":"STREAM","stream":{"stream_descriptor":{"name":"a"}},"sourceStats":{"recordCount":1.5,"recordCount":9223372036854775807}}"#,
        stream: "a",
        namespace: None,
        blob: None,
        count: Some(9_223_372_036_854_775_807),
    },
];

// Whether the stream of a state and its blob are as wanted.
fn is_of(id: &StreamId, blob: &Option<Bytes>, want: &State) -> bool {
    let namespace = id.namespace.as_ref().map(|name| name.as_str());
    id.name.as_str() == want.stream && namespace == want.namespace && is_text(blob, want.blob)
}

// Whether a state holds what is wanted.
fn is_state(state: &StateMsg, want: &State) -> bool {
    let kind = match state.kind() {
        StateKind::Stream { id, blob } => is_of(id, blob, want),
        _ => false,
    };
    let object = state.object().as_slice() == want.object.as_bytes();
    kind && object && state.source_count() == want.count
}

impl Want for State {
    fn holds(&self, _alloc: Global, message: &Message) -> Result<bool, NoMemory> {
        Ok(match state_in(message) {
            Some(state) => is_state(state, self),
            None => false,
        })
    }
}

#[test]
fn states_hold_their_members(rt: HostRuntime) -> Result<(), Fail> {
    for state in STATES {
        assert!(rt; fits(rt.alloc(), state.line, state)?, "in {}", state.line);
    }
    Ok(())
}

// A state whose copy has this object.
#[derive(Drop)]
struct Copied {
    object: &'static str,
}

impl Want for Copied {
    fn holds(&self, alloc: Global, message: &Message) -> Result<bool, NoMemory> {
        match state_in(message) {
            Some(state) => Ok(state.copy(alloc)?.object().as_slice() == self.object.as_bytes()),
            None => Ok(false),
        }
    }
}

#[test]
fn a_copy_of_a_state_has_its_object(rt: HostRuntime) -> Result<(), Fail> {
    for object in [
        r#"{"type":"STREAM","stream":{"stream_descriptor":{"name":"a","namespace":""},"stream_state":1 }}"#,
        r#"{"type":"GLOBAL","global":{"shared_state":{},"stream_states":[{"stream_descriptor":{"name":"a"}}]}}"#,
        r#"{"data":{"cursor":3}}"#,
    ] {
        let line = format!(in rt.alloc(); r#"{{"type":"STATE","state":{object}}}"#)?;
        assert!(rt;
            fits(rt.alloc(), line.as_str(), &Copied { object })?,
            "of {object}"
        );
    }
    Ok(())
}

const NO_STATES: &[&str] = &[
    r#"{"type":"STATE"}"#,
    r#"{"type":"STATE","state":null}"#,
    r#"{"type":"STATE","state":[]}"#,
    r#"{"type":"STATE","state":{"type":"GLOBAL","stream":{"stream_descriptor":{"name":"a"}}}}"#,
    r#"{"type":"STATE","state":{"type":"stream","stream":{"stream_descriptor":{"name":"a"}}}}"#,
    r#"{"type":"STATE","state":{"type":"STREAM"}}"#,
    r#"{"type":"STATE","state":{"type":"STREAM","stream":null}}"#,
    r#"{"type":"STATE","state":{"type":"STREAM","stream":[]}}"#,
    r#"{"type":"STATE","state":{"type":"STREAM","stream":{}}}"#,
    r#"{"type":"STATE","state":{"type":"STREAM","stream":{"stream_descriptor":null}}}"#,
    r#"{"type":"STATE","state":{"type":"STREAM","stream":{"stream_descriptor":"a"}}}"#,
    r#"{"type":"STATE","state":{"type":"STREAM","stream":{"stream_descriptor":{}}}}"#,
    r#"{"type":"STATE","state":{"type":"STREAM","stream":{"stream_descriptor":{"name":null}}}}"#,
    r#"{"type":"STATE","state":{"type":"STREAM","stream":{"stream_descriptor":{"name":"a","namespace":{}}}}}"#,
    r#"{"type":"STATE","state":{"type":"STREAM","stream":{"stream_descriptor":{"name":"a"}},"sourceStats":[]}}"#,
    r#"{"type":"STATE","state":{"type":"STREAM","stream":{"stream_descriptor":{"name":"a"}},"sourceStats":{"recordCount":1.5}}}"#,
    r#"{"type":"STATE","state":{"type":"STREAM","stream":{"stream_descriptor":{"name":"a"}},"sourceStats":{"recordCount":-1}}}"#,
    r#"{"type":"STATE","state":{"type":"STREAM","stream":{"stream_descriptor":{"name":"a"}},"sourceStats":{"recordCount":"1"}}}"#,
    r#"{"type":"STATE","state":{"type":"STREAM","stream":{"stream_descriptor":{"name":"a"}},"sourceStats":{"recordCount":9223372036854775808}}}"#,
    r#"{"type":"STATE","record":{"stream":"a","data":{},"emitted_at":1}}"#,
    r#"{"type":"RECORD","state":{"type":"STREAM","stream":{"stream_descriptor":{"name":"a"}}}}"#,
    r#"{"type":"STATE","state":{"type":"STREAM","stream":{"stream_descriptor":{"name":"a"}}}"#,
    r#"{"type":"STATE","state":{"type":"STREAM","stream":{"stream_descriptor":{"name":"a"},}}}"#,
    "{\"type\":\"STATE\",\"state\":{\"type\":\"STREAM\",\n\"stream\":{\"stream_descriptor\":{\"name\":\"a\"}}}}",
];

#[test]
fn other_states_are_no_messages(rt: HostRuntime) -> Result<(), Fail> {
    for line in NO_STATES {
        assert!(rt; !is_message(rt.alloc(), line.as_bytes())?, "in {line}");
    }
    Ok(())
}

// The line of a state that nests so deep: it and its `stream` hold a blob of arrays that nest two less.
fn nested(alloc: Global, deep: usize) -> Result<Vec<u8>, AllocError> {
    let mut line = Vec::new(alloc);
    line.extend_from_slice(
        br#"{"type":"STATE","state":{"type":"STREAM","stream":{"stream_descriptor":{"name":"a"},"stream_state":"#,
    )?;
    for _ in 2..deep {
        line.push(b'[')?;
    }
    for _ in 2..deep {
        line.push(b']')?;
    }
    line.extend_from_slice(b"}}}")?;
    Ok(line)
}

const STATES_DEEP: &[(usize, bool)] = &[
    (3, true),
    (123, true),
    (124, true),
    (125, false),
    (126, false),
    (127, false),
    (200, false),
];

#[test]
fn a_state_nests_at_most_124_deep(rt: HostRuntime) -> Result<(), Fail> {
    for (deep, is) in STATES_DEEP {
        let line = nested(rt.alloc(), *deep)?;
        let found = is_message(rt.alloc(), line.as_slice())?;
        assert_eq!(rt; found, *is, "at {deep}");
    }
    Ok(())
}

// The line of a record whose `data` nests so deep.
fn nested_record(alloc: Global, deep: usize) -> Result<Vec<u8>, AllocError> {
    let mut line = Vec::new(alloc);
    line.extend_from_slice(br#"{"type":"RECORD","record":{"stream":"a","emitted_at":1,"data":"#)?;
    for _ in 1..deep {
        line.extend_from_slice(br#"{"a":"#)?;
    }
    line.extend_from_slice(b"{}")?;
    for _ in 1..deep {
        line.push(b'}')?;
    }
    line.extend_from_slice(b"}}")?;
    Ok(line)
}

const RECORDS_DEEP: &[(usize, bool)] = &[
    (1, true),
    (124, true),
    (125, true),
    (126, false),
    (127, false),
];

#[test]
fn a_line_nests_at_most_127_deep(rt: HostRuntime) -> Result<(), Fail> {
    for (deep, is) in RECORDS_DEEP {
        let line = nested_record(rt.alloc(), *deep)?;
        let found = is_message(rt.alloc(), line.as_slice())?;
        assert_eq!(rt; found, *is, "at {deep}");
    }
    Ok(())
}
