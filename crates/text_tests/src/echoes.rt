// The lines by which states are sent back.
use crate::reading::{Want, fits, is_text, state_in};
use airbyte_message::{Message, StateKind, StateMsg, echo_of};
use basics::{Bytes, NoMemory};
use std::alloc::Global;
use std::test::Fail;

const ECHOES: &[(&str, u64, &str)] = &[
    (
        r#"{"type":"STATE","state":{"type":"STREAM","stream":{"stream_descriptor":{"name":"a"}},"destinationStats":{"recordCount":9}}}"#,
        4,
        r#"{"type":"STATE","state":{"type":"STREAM","stream":{"stream_descriptor":{"name":"a"}},"destinationStats":{"recordCount":4}}}"#,
    ),
    (
        r#"{"type":"STATE","state":{"type":"STREAM","stream":{"stream_descriptor":{"name":"a"},"stream_state":{"p":10.0}},"sourceStats":{"recordCount":2.0}}}"#,
        2,
        r#"{"type":"STATE","state":{"type":"STREAM","stream":{"stream_descriptor":{"name":"a"},"stream_state":{"p":10.0}},"sourceStats":{"recordCount":2.0},"destinationStats":{"recordCount":2}}}"#,
    ),
    (
        r#" {"state": {"d\u0065stinationStats":1 , "\u0074ype" : "STREAM", "x":1,"x":2, "stream":{ "stream_descriptor":{"name":"Zo\u00eb"} } ,"destinationStats":{}} , "type":"STATE"}"#,
        18_446_744_073_709_551_615,
        r#"{"type":"STATE","state":{"\u0074ype":"STREAM","x":1,"x":2,"stream":{ "stream_descriptor":{"name":"Zo\u00eb"} },"destinationStats":{"recordCount":18446744073709551615}}}"#,
    ),
    (
        r#"{"type":"STATE","state":{"type":"STREAM","stream":{"destinationStats":1,"stream_descriptor":{"name":"a"}},"destinationStats ":0}}"#,
        0,
        r#"{"type":"STATE","state":{"type":"STREAM","stream":{"destinationStats":1,"stream_descriptor":{"name":"a"}},"destinationStats ":0,"destinationStats":{"recordCount":0}}}"#,
    ),
];

// The echo of a state of a stream.
fn echo(alloc: Global, state: &StateMsg, count: u64) -> Result<Option<Bytes>, NoMemory> {
    match state.kind() {
        StateKind::Stream { .. } => Ok(Some(echo_of(alloc, state, count)?)),
        _ => Ok(None),
    }
}

// A message whose echo with this count is this text.
#[derive(Drop)]
struct Echoes<'a> {
    count: u64,
    text: &'a str,
}

impl Want for Echoes<'_> {
    fn holds(&self, alloc: Global, message: &Message) -> Result<bool, NoMemory> {
        let Some(state) = state_in(message) else {
            return Ok(false);
        };
        Ok(is_text(&echo(alloc, state, self.count)?, Some(self.text)))
    }
}

#[test]
fn an_echo_has_the_state_as_it_stood_and_the_count(rt: HostRuntime) -> Result<(), Fail> {
    for (line, count, text) in ECHOES {
        let want = Echoes {
            count: *count,
            text,
        };
        assert!(rt; fits(rt.alloc(), line, &want)?, "of {line}");
    }
    Ok(())
}
