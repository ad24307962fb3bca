// A file that is given again behind saved states.
use basics::{Bytes, NoMemory};
use local_world::MessageFeed;
use outside::{Feed, StateFault, Status};
use std::alloc::Global;
use std::test::Fail;

const RECORD_A: &str =
    r#"{"type":"RECORD","record":{"stream":"a","data":{"id":1},"emitted_at":1}}"#;

const RECORD_B: &str =
    r#"{"type":"RECORD","record":{"stream":"b","data":{"id":2},"emitted_at":1}}"#;

const STATE_1: &str =
    r#"{"type":"STATE","state":{"type":"STREAM","stream":{"stream_descriptor":{"name":"a"},"stream_state":{"n": 1}}}}"#;

const STATE_2: &str =
    r#"{"type":"STATE","state":{"type":"STREAM","stream":{"stream_descriptor":{"name":"a"},"stream_state":{"n": 2}}}}"#;

const GLOBAL: &str =
    r#"{"type":"STATE","state":{"type":"GLOBAL","global":{"shared_state":{"n":1},"stream_states":[]}}}"#;

const LOG: &str = r#"{"type":"LOG","log":{"level":"INFO","message":"hi"}}"#;

const NO_MESSAGE: &str = "Picked up JAVA_TOOL_OPTIONS";

const STATUS: &str =
    r#"{"type":"TRACE","trace":{"type":"STREAM_STATUS","stream_status":{"stream_descriptor":{"name":"a"},"status":"STARTED"}}}"#;

// Lines, an array of states, and the places of the lines that are left, or the fault.
const ROWS: &[(&[&str], &str, Result<&[usize], StateFault>)] = &[
    (&[], "[]", Ok(&[])),
    (&[RECORD_A, LOG, STATE_1], "[]", Ok(&[0, 1, 2])),
    (
        &[
            STATUS, RECORD_A, STATE_1, RECORD_B, LOG, RECORD_A, STATE_2, NO_MESSAGE, RECORD_A,
        ],
        r#"[{"type":"STREAM","stream":{"stream_descriptor":{"name":"a"},"stream_state":{"n":1}}}]"#,
        Ok(&[0, 3, 4, 5, 6, 7, 8]),
    ),
    (
        &[
            STATUS, RECORD_A, STATE_1, RECORD_B, LOG, RECORD_A, STATE_2, NO_MESSAGE, RECORD_A,
        ],
        r#"[{"type":"STREAM","stream":{"stream_descriptor":{"name":"a"},"stream_state":{"n":2}}}]"#,
        Ok(&[0, 3, 4, 7, 8]),
    ),
    (
        &[RECORD_A, RECORD_B, LOG, STATE_1, GLOBAL, RECORD_B],
        r#"[{"type":"GLOBAL","global":{"shared_state":{"n":1},"stream_states":[]}}]"#,
        Ok(&[2, 5]),
    ),
    (
        &[RECORD_A, STATE_1],
        r#"[{"type":"STREAM","stream":{"stream_descriptor":{"name":"b"},"stream_state":{"n":1}}}]"#,
        Err(StateFault::OutOfRange),
    ),
    (
        &[RECORD_A, STATE_1],
        r#"[{"data":{}}]"#,
        Err(StateFault::Legacy),
    ),
    (&[RECORD_A, STATE_1], "{}", Err(StateFault::NotJson)),
];

// A text of these lines.
fn joined(alloc: Global, lines: &[&str]) -> Result<Bytes, NoMemory> {
    let mut text = Bytes::new(alloc);
    for line in lines {
        text.extend(line.as_bytes())?;
        text.push(b'\n')?;
    }
    Ok(text)
}

// The lines at these places, each with its newline.
fn chosen(alloc: Global, lines: &[&str], places: &[usize]) -> Result<Bytes, NoMemory> {
    let mut text = Bytes::new(alloc);
    for place in places {
        if *place < lines.len() {
            text.extend(lines[*place].as_bytes())?;
            text.push(b'\n')?;
        }
    }
    Ok(text)
}

// What a feed over these lines gives behind these states, each line with its newline.
fn given(alloc: Global, lines: &[&str], states: &str) -> Result<Bytes, Status> {
    let text = joined(alloc, lines).map_err(|_| Status::NoMemory)?;
    let mut feed = MessageFeed::new(alloc, text);
    feed.begin(alloc, b"", states.as_bytes())?;
    let mut all = Bytes::new(alloc);
    for _ in 0..100 {
        let Some(line) = feed.next_line(alloc)? else {
            return Ok(all);
        };
        all.extend(line.as_slice()).map_err(|_| Status::NoMemory)?;
        all.push(b'\n').map_err(|_| Status::NoMemory)?;
    }
    Ok(all)
}

#[test]
fn a_file_is_given_again_behind_its_states(rt: HostRuntime) -> Result<(), Fail> {
    for (lines, states, want) in ROWS {
        let found = given(rt.alloc(), lines, states);
        match want {
            Ok(places) => {
                let Ok(all) = found else {
                    return Err(Fail::from(NoMemory));
                };
                let wanted = chosen(rt.alloc(), lines, places)?;
                assert_eq!(rt; all.as_slice(), wanted.as_slice(), "behind {states}");
            }
            Err(fault) => {
                let refused = matches!(found, Err(Status::BadState(own)) if own == *fault);
                assert!(rt; refused, "behind {states}");
            }
        }
    }
    Ok(())
}

#[test]
fn a_feed_that_refused_begins_anew(rt: HostRuntime) -> Result<(), Fail> {
    let alloc = rt.alloc();
    let mut feed = MessageFeed::new(alloc, joined(alloc, &[RECORD_A])?);
    let refused = Status::BadState(StateFault::NotJson);
    assert_eq!(rt; feed.begin(alloc, b"", b"{}"), Err(refused));
    assert!(rt; matches!(feed.next_line(alloc), Err(why) if why == refused));
    assert_eq!(rt; feed.begin(alloc, b"", b"[]"), Ok(()));
    let Ok(Some(line)) = feed.next_line(alloc) else {
        return Err(Fail::from(NoMemory));
    };
    assert_eq!(rt; line.as_slice(), RECORD_A.as_bytes());
    assert!(rt; matches!(feed.next_line(alloc), Ok(None)));
    assert!(rt; matches!(feed.next_line(alloc), Ok(None)));
    Ok(())
}
