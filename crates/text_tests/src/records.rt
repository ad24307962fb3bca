// Which lines are records, and what they hold.
use crate::reading::{Want, fits, is_message, is_text, record_in};
use airbyte_message::{Message, RecordMsg};
use basics::NoMemory;
use std::alloc::Global;
use std::test::Fail;

// The line of a record, and what it holds.
struct Record {
    line: &'static str,
    stream: &'static str,
    namespace: Option<&'static str>,
    data: &'static str,
    emitted_at: u64,
    meta: Option<&'static str>,
}

const RECORDS: &[Record] = &[
    Record {
        line: r#"{"type":"RECORD","record":{"namespace":"n","stream":"a","data":{"id":7,"v":[1.50, {}]},"emitted_at":1714557600000,"meta":{"changes":[]}}}"#,
        stream: "a",
        namespace: Some("n"),
        data: r#"{"id":7,"v":[1.50, {}]}"#,
        emitted_at: 1_714_557_600_000,
        meta: Some(r#"{"changes":[]}"#),
    },
    Record {
        line: r#" { "type" : "RECORD" , "record" : { "stream" : "a" , "data" : { "id" : 7 } , "emitted_at" : 1 } } "#,
        stream: "a",
        namespace: None,
        data: r#"{ "id" : 7 }"#,
        emitted_at: 1,
        meta: None,
    },
    Record {
        line: r#"{"record":{"emitted_at":1.0E3,"data":{},"namespace":null,"meta":null,"stream":"a"},"type":"RECORD"}"#,
        stream: "a",
        namespace: None,
        data: "{}",
        emitted_at: 1000,
        meta: None,
    },
    Record {
        line: r#"{"type":"RECORD","record":{"stream":"a","stream":"b","data":{"x":1},"data":{"x":2},"emitted_at":1,"emitted_at":-0}}"#,
        stream: "b",
        namespace: None,
        data: r#"{"x":2}"#,
        emitted_at: 0,
        meta: None,
    },
    Record {
        line: r#"{"type":"STATE","state":{},"record":[],"record":{"stream":1,"stream":"a","data":{},"emitted_at":1,"namespace":"n","namespace":null},"type":"RECORD"}"#,
        stream: "a",
        namespace: None,
        data: "{}",
        emitted_at: 1,
        meta: None,
    },
    Record {
        line: r#"{"t\u0079pe":"\u0052ECORD","\u0072ecord":{"str\u0065am":"Zo\u00eb","d\u0061ta":{"\u0061":"\u0061"},"emitted\u005fat":9223372036854775807,"namespace":""}}"#,
        stream: "Zoë",
        namespace: Some(""),
        data: r#"{"\u0061":"\u0061"}"#,
        emitted_at: 9_223_372_036_854_775_807,
        meta: None,
    },
    Record {
        line: r#"{"type":"RECORD","record":{"stream":"","data":{"a":1,"a":2},"emitted_at":0,"meta":12,"other":{"stream":"b"}},"other":[null]}"#,
        stream: "",
        namespace: None,
        data: r#"{"a":1,"a":2}"#,
        emitted_at: 0,
        meta: Some("12"),
    },
];

// Whether a record holds what is wanted.
fn is_record(content: &RecordMsg, want: &Record) -> bool {
    let namespace = content.id.namespace.as_ref().map(|name| name.as_str());
    content.id.name.as_str() == want.stream
        && namespace == want.namespace
        && content.body.as_slice() == want.data.as_bytes()
        && content.emitted_at == want.emitted_at
        && is_text(&content.meta, want.meta)
}

impl Want for Record {
    fn holds(&self, _alloc: Global, message: &Message) -> Result<bool, NoMemory> {
        Ok(match record_in(message) {
            Some(content) => is_record(content, self),
            None => false,
        })
    }
}

#[test]
fn records_hold_their_members(rt: HostRuntime) -> Result<(), Fail> {
    for record in RECORDS {
        assert!(rt;
            fits(rt.alloc(), record.line, record)?,
            "in {}",
            record.line
        );
    }
    Ok(())
}

const NO_MESSAGES: &[&str] = &[
    "",
    "{}",
    "[]",
    "some words",
    r#"{"type":"LOG","log":{"level":"info","message":"hello"}}"#,
    r#"{"type":"TRACE","trace":{"type":"STREAM_STATUS","emitted_at":1}}"#,
    r#"{"type":"record","record":{"stream":"a","data":{},"emitted_at":1}}"#,
    r#"{"type":"RECORD "}"#,
    r#"{"type":"RECORD"}"#,
    r#"{"type":null,"record":{"stream":"a","data":{},"emitted_at":1}}"#,
    r#"{"type":"RECORD","type":"LOG","record":{"stream":"a","data":{},"emitted_at":1}}"#,
    r#"{"record":{"stream":"a","data":{},"emitted_at":1}}"#,
    r#"{"type":"RECORD","record":null}"#,
    r#"{"type":"RECORD","record":[]}"#,
    r#"{"type":"RECORD","record":{"stream":"a","data":{},"emitted_at":1},"record":null}"#,
    r#"{"type":"RECORD","record":{"data":{},"emitted_at":1}}"#,
    r#"{"type":"RECORD","record":{"stream":null,"data":{},"emitted_at":1}}"#,
    r#"{"type":"RECORD","record":{"stream":1,"data":{},"emitted_at":1}}"#,
    r#"{"type":"RECORD","record":{"stream":"a","stream":2,"data":{},"emitted_at":1}}"#,
    r#"{"type":"RECORD","record":{"stream":"a","namespace":1,"data":{},"emitted_at":1}}"#,
    r#"{"type":"RECORD","record":{"stream":"a","emitted_at":1}}"#,
    r#"{"type":"RECORD","record":{"stream":"a","data":null,"emitted_at":1}}"#,
    r#"{"type":"RECORD","record":{"stream":"a","data":[],"emitted_at":1}}"#,
    r#"{"type":"RECORD","record":{"stream":"a","data":"{}","emitted_at":1}}"#,
    r#"{"type":"RECORD","record":{"stream":"a","data":{}}}"#,
    r#"{"type":"RECORD","record":{"stream":"a","data":{},"emitted_at":null}}"#,
    r#"{"type":"RECORD","record":{"stream":"a","data":{},"emitted_at":"1"}}"#,
    r#"{"type":"RECORD","record":{"stream":"a","data":{},"emitted_at":1.5}}"#,
    r#"{"type":"RECORD","record":{"stream":"a","data":{},"emitted_at":-1}}"#,
    r#"{"type":"RECORD","record":{"stream":"a","data":{},"emitted_at":9223372036854775808}}"#,
    r#"{"type":"RECORD","record":{"stream":"a","data":{},"emitted_at":1}"#,
    r#"{"type":"RECORD","record":{"stream":"a","data":{},"emitted_at":1}}}"#,
    r#"{"type":"RECORD","record":{"stream":"a","data":{},"emitted_at":1,}}"#,
    r#"{"type":"RECORD","record":{"stream":"a","data":{"v":01},"emitted_at":1}}"#,
    r#"{"type":"RECORD","record":{"stream":"a","data":{"v":"\ud800"},"emitted_at":1}}"#,
    r#"{"type":"RECORD","record":{"stream":"a","data":{},"emitted_at":1}} {}"#,
];

#[test]
fn other_lines_are_no_messages(rt: HostRuntime) -> Result<(), Fail> {
    for line in NO_MESSAGES {
        assert!(rt; !is_message(rt.alloc(), line.as_bytes())?, "in {line}");
    }
    Ok(())
}
