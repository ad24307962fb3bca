// What a ledger answers.
use crate::lines::{
    ONE_STREAM, RECORD_OF_A, RECORD_OF_B, RECORD_OF_ZZ, SAVED_GLOBAL, SAVED_STREAM, TWO_STREAMS,
};
use crate::plays::{Act, play};
use std::test::Fail;

// A catalog, a store, what is done, and what is answered.
type Row = (&'static str, &'static str, &'static [Act], &'static str);

const HOSTILE_LINES_ARE_READ_BY_THE_TABLE: &[Row] = &[
    (
        ONE_STREAM,
        "",
        &[Act::Give(
            r#"{"type":"LOG","type":"RECORD","record":{"stream":"a","data":{},"emitted_at":1}}"#,
        )],
        r#"give
stream 1 -
pending 0 first 0"#,
    ),
    (
        ONE_STREAM,
        "",
        &[
            Act::Give(
                r#"{"type":"RECORD","record":{"stream":"a","data":{"x":[[[[[[[[[[[[[[[[[[[[[[[[[[[[[[[[[[[[[[[[[[[[[[[[[[[[[[[[[[[[[[[[[[[[[[[[[[[[[[[[[[[[[[[[[[[[[[[[[[[[[[[[[[[[[[[[[[[[[[[[[[[[[]]]]]]]]]]]]]]]]]]]]]]]]]]]]]]]]]]]]]]]]]]]]]]]]]]]]]]]]]]]]]]]]]]]]]]]]]]]]]]]]]]]]]]]]]]]]]]]]]]]]]]]]]]]]]]]]]]]]]]]]]]]]]},"emitted_at":1}}"#,
            ),
            Act::Give(
                r#"{"type":"RECORD","record":{"stream":"a","data":{"x":[[[[[[[[[[[[[[[[[[[[[[[[[[[[[[[[[[[[[[[[[[[[[[[[[[[[[[[[[[[[[[[[[[[[[[[[[[[[[[[[[[[[[[[[[[[[[[[[[[[[[[[[[[[[[[[[[[[[[[[[[[[[]]]]]]]]]]]]]]]]]]]]]]]]]]]]]]]]]]]]]]]]]]]]]]]]]]]]]]]]]]]]]]]]]]]]]]]]]]]]]]]]]]]]]]]]]]]]]]]]]]]]]]]]]]]]]]]]]]]]]]]]]]]]},"emitted_at":1}}"#,
            ),
        ],
        r#"say source: {"type":"RECORD","record":{"stream":"a","data":{"x":[[[[[[[[[[[[[[[[[[[[[[[[[[[[[[[[[[[[[[[[[[[[[[[[[[[[[[[[[[[[[[[[[[[[[[[[[[[[[[[[[[[[[[[[[[[[[[[[[[[[[[[[[[[[[[[[[[[[[[[[[[[[[]]]]]]]]]]]]]]]]]]]]]]]]]]]]]]]]]]]]]]]]]]]]]]]]]]]]]]]]]]]]]]]]]]]]]]]]]]]]]]]]]]]]]]]]]]]]]]]]]]]]]]]]]]]]]]]]]]]]]]]]]]]]]},"emitted_at":1}}
give
stream 1 -
pending 0 first 0"#,
    ),
    (
        ONE_STREAM,
        "",
        &[
            Act::Give(
                r#"{"type":"STATE","state":{"type":"STREAM","stream":{"stream_descriptor":{"name":"a"},"stream_state":[[[[[[[[[[[[[[[[[[[[[[[[[[[[[[[[[[[[[[[[[[[[[[[[[[[[[[[[[[[[[[[[[[[[[[[[[[[[[[[[[[[[[[[[[[[[[[[[[[[[[[[[[[[[[[[[[[[[[[[[[[[]]]]]]]]]]]]]]]]]]]]]]]]]]]]]]]]]]]]]]]]]]]]]]]]]]]]]]]]]]]]]]]]]]]]]]]]]]]]]]]]]]]]]]]]]]]]]]]]]]]]]]]]]]]]]]]]]]]]]]]]]]]},"sourceStats":{"recordCount":0}}}"#,
            ),
            Act::Give(
                r#"{"type":"STATE","state":{"type":"STREAM","stream":{"stream_descriptor":{"name":"a"},"stream_state":[[[[[[[[[[[[[[[[[[[[[[[[[[[[[[[[[[[[[[[[[[[[[[[[[[[[[[[[[[[[[[[[[[[[[[[[[[[[[[[[[[[[[[[[[[[[[[[[[[[[[[[[[[[[[[[[[[[[[[[[[[]]]]]]]]]]]]]]]]]]]]]]]]]]]]]]]]]]]]]]]]]]]]]]]]]]]]]]]]]]]]]]]]]]]]]]]]]]]]]]]]]]]]]]]]]]]]]]]]]]]]]]]]]]]]]]]]]]]]]]]]]]},"sourceStats":{"recordCount":0}}}"#,
            ),
        ],
        r#"say source: {"type":"STATE","state":{"type":"STREAM","stream":{"stream_descriptor":{"name":"a"},"stream_state":[[[[[[[[[[[[[[[[[[[[[[[[[[[[[[[[[[[[[[[[[[[[[[[[[[[[[[[[[[[[[[[[[[[[[[[[[[[[[[[[[[[[[[[[[[[[[[[[[[[[[[[[[[[[[[[[[[[[[[[[[[[]]]]]]]]]]]]]]]]]]]]]]]]]]]]]]]]]]]]]]]]]]]]]]]]]]]]]]]]]]]]]]]]]]]]]]]]]]]]]]]]]]]]]]]]]]]]]]]]]]]]]]]]]]]]]]]]]]]]]]]]]]]},"sourceStats":{"recordCount":0}}}
give
stream 0 -
pending 1 first 2"#,
    ),
    (
        ONE_STREAM,
        "",
        &[Act::Give(
            r#"{"type":"RECORD","record":{"stream":"a","namespace":null,"data":{},"emitted_at":1}}"#,
        )],
        r#"give
stream 1 -
pending 0 first 0"#,
    ),
    (
        ONE_STREAM,
        "",
        &[Act::Give(
            r#"{"type":"STATE","state":{"type":"GLOBAL","global":{"shared_state":{},"stream_states":[{"stream_descriptor":{"name":"zz"},"stream_state":{}}]},"sourceStats":{"recordCount":0}}}"#,
        )],
        r#"give
stream 0 -
pending 1 first 1"#,
    ),
    (
        ONE_STREAM,
        "",
        &[Act::Give(
            r#"{"type":"STATE","state":{"type":"STREAM","stream":{"stream_descriptor":{"name":"a"},"stream_state":{}},"sourceStats":{"recordCount":1.5}}}"#,
        )],
        r#"say source: {"type":"STATE","state":{"type":"STREAM","stream":{"stream_descriptor":{"name":"a"},"stream_state":{}},"sourceStats":{"recordCount":1.5}}}
stream 0 -
pending 0 first 0"#,
    ),
    (
        ONE_STREAM,
        "",
        &[Act::Give(r#"{"type":"RECORD","rec"#)],
        r#"say source: {"type":"RECORD","rec
stream 0 -
pending 0 first 0"#,
    ),
];

#[test]
fn hostile_lines_are_read_by_the_table(rt: HostRuntime) -> Result<(), Fail> {
    for row in HOSTILE_LINES_ARE_READ_BY_THE_TABLE {
        let told = play(rt.alloc(), row.0, row.1, row.2)?;
        assert_eq!(rt; told.as_slice(), row.3.as_bytes(), "{}", row.3);
    }
    Ok(())
}

const STATES_COME_BACK_AS_WHAT_THEY_WERE: &[Row] = &[
    (
        ONE_STREAM,
        "",
        &[
            Act::Give(
                r#"{"type":"STATE","state":{"type":"STREAM","stream":{"stream_descriptor":{"name":"a"},"stream_state":{"n":1}},"sourceStats":{"recordCount":0}}}"#,
            ),
            Act::Dest(
                r#"{"type":"STATE","state":{"type":"STREAM","stream":{"stream_descriptor":{"name":"a"},"stream_state":{"n": 1}},"sourceStats":{"recordCount":0}}}"#,
            ),
        ],
        r#"give
state {"type":"STREAM","stream":{"stream_descriptor":{"name":"a"},"stream_state":{"n":1}},"sourceStats":{"recordCount":0}}
stream 0 -
pending 0 first 0"#,
    ),
    (
        ONE_STREAM,
        "",
        &[
            Act::Give(
                r#"{"type":"STATE","state":{"type":"STREAM","stream":{"stream_descriptor":{"name":"a"},"stream_state":{"n":1}},"sourceStats":{"recordCount":0}}}"#,
            ),
            Act::Dest(
                r#"{"type":"STATE","state":{"type":"STREAM","stream":{"stream_descriptor":{"name":"a"},"stream_state":{"n":1.0}},"sourceStats":{"recordCount":0}}}"#,
            ),
        ],
        r#"give
31 DestBreach Stranger line 1
stream 0 -
pending 1 first 1"#,
    ),
    (
        ONE_STREAM,
        "",
        &[
            Act::Hear(
                r#"{"type":"STATE","state":{"type":"STREAM","stream":{"stream_descriptor":{"name":"a"},"stream_state":{"n":1}},"sourceStats":{"recordCount":0}}}"#,
            ),
            Act::Dest(
                r#"{"type":"STATE","state":{"type":"STREAM","stream":{"stream_descriptor":{"name":"a"},"stream_state":{"n":1}},"sourceStats":{"recordCount":0}}}"#,
            ),
        ],
        r#"give
31 DestBreach Stranger line 1
stream 0 -
pending 0 first 0"#,
    ),
    (
        ONE_STREAM,
        "",
        &[
            Act::Give(
                r#"{"type":"STATE","state":{"type":"STREAM","stream":{"stream_descriptor":{"name":"a"},"stream_state":{"n":1}},"sourceStats":{"recordCount":0}}}"#,
            ),
            Act::Dest(
                r#"{"type":"STATE","state":{"type":"STREAM","stream":{"stream_descriptor":{"name":"a"},"stream_state":{"n":1}},"sourceStats":{"recordCount":0}}}"#,
            ),
            Act::Dest(
                r#"{"type":"STATE","state":{"type":"STREAM","stream":{"stream_descriptor":{"name":"a"},"stream_state":{"n":1}},"sourceStats":{"recordCount":0}}}"#,
            ),
        ],
        r#"give
state {"type":"STREAM","stream":{"stream_descriptor":{"name":"a"},"stream_state":{"n":1}},"sourceStats":{"recordCount":0}}
31 DestBreach Stranger line 2
stream 0 -
pending 0 first 0"#,
    ),
    (
        ONE_STREAM,
        "",
        &[
            Act::Give(
                r#"{"type":"STATE","state":{"type":"STREAM","stream":{"stream_descriptor":{"name":"a"},"stream_state":{"n":1}},"sourceStats":{"recordCount":0}}}"#,
            ),
            Act::Give(
                r#"{"type":"STATE","state":{"type":"STREAM","stream":{"stream_descriptor":{"name":"a"},"stream_state":{"n":2}},"sourceStats":{"recordCount":0}}}"#,
            ),
            Act::Give(
                r#"{"type":"STATE","state":{"type":"STREAM","stream":{"stream_descriptor":{"name":"a"},"stream_state":{"n":3}},"sourceStats":{"recordCount":0}}}"#,
            ),
            Act::Dest(
                r#"{"type":"STATE","state":{"type":"STREAM","stream":{"stream_descriptor":{"name":"a"},"stream_state":{"n":2}},"sourceStats":{"recordCount":0}}}"#,
            ),
            Act::Dest(
                r#"{"type":"STATE","state":{"type":"STREAM","stream":{"stream_descriptor":{"name":"a"},"stream_state":{"n":1}},"sourceStats":{"recordCount":0}}}"#,
            ),
        ],
        r#"give
give
give
state {"type":"STREAM","stream":{"stream_descriptor":{"name":"a"},"stream_state":{"n":2}},"sourceStats":{"recordCount":0}}
31 DestBreach Stranger line 2
stream 0 -
pending 1 first 3"#,
    ),
    (
        TWO_STREAMS,
        "",
        &[
            Act::Give(
                r#"{"type":"STATE","state":{"type":"STREAM","stream":{"stream_descriptor":{"name":"b","namespace":"n"},"stream_state":{"n":1}},"sourceStats":{"recordCount":0}}}"#,
            ),
            Act::Give(
                r#"{"type":"STATE","state":{"type":"STREAM","stream":{"stream_descriptor":{"name":"a"},"stream_state":{"n":1}},"sourceStats":{"recordCount":0}}}"#,
            ),
            Act::Dest(
                r#"{"type":"STATE","state":{"type":"STREAM","stream":{"stream_descriptor":{"name":"a"},"stream_state":{"n":1}},"sourceStats":{"recordCount":0}}}"#,
            ),
            Act::Dest(
                r#"{"type":"STATE","state":{"type":"STREAM","stream":{"stream_descriptor":{"name":"b","namespace":"n"},"stream_state":{"n":1}}}}"#,
            ),
        ],
        r#"give
give
state {"type":"STREAM","stream":{"stream_descriptor":{"name":"a"},"stream_state":{"n":1}},"sourceStats":{"recordCount":0}}
state {"type":"STREAM","stream":{"stream_descriptor":{"name":"b","namespace":"n"},"stream_state":{"n":1}},"sourceStats":{"recordCount":0}}
stream 0 -
stream 0 -
pending 0 first 0"#,
    ),
    (
        TWO_STREAMS,
        "",
        &[
            Act::Give(
                r#"{"type":"STATE","state":{"type":"STREAM","stream":{"stream_descriptor":{"name":"b","namespace":"n"},"stream_state":{"n":1}},"sourceStats":{"recordCount":0}}}"#,
            ),
            Act::Dest(
                r#"{"type":"STATE","state":{"type":"STREAM","stream":{"stream_descriptor":{"name":"a"},"stream_state":{"n":1}},"sourceStats":{"recordCount":0}}}"#,
            ),
        ],
        r#"give
31 DestBreach Stranger line 1
stream 0 -
stream 0 -
pending 1 first 1"#,
    ),
];

#[test]
fn states_come_back_as_what_they_were(rt: HostRuntime) -> Result<(), Fail> {
    for row in STATES_COME_BACK_AS_WHAT_THEY_WERE {
        let told = play(rt.alloc(), row.0, row.1, row.2)?;
        assert_eq!(rt; told.as_slice(), row.3.as_bytes(), "{}", row.3);
    }
    Ok(())
}

const A_SOURCE_IS_REFUSED_BY_ITS_FIRST_FAULT: &[Row] = &[
    (
        ONE_STREAM,
        "",
        &[
            Act::Give(RECORD_OF_A),
            Act::Dest(
                r#"{"type":"STATE","state":{"type":"STREAM","stream":{"stream_descriptor":{"name":"a"},"stream_state":{}},"sourceStats":{"recordCount":1}}}"#,
            ),
            Act::Give(r#"hello"#),
        ],
        r#"give
31 DestBreach Stranger line 1
say source: hello
stream 1 -
pending 0 first 0"#,
    ),
    (
        ONE_STREAM,
        "",
        &[
            Act::Give(
                r#"{"type":"RECORD","record":{"stream":"a","data":{"id":1},"emitted_at":1}}"#,
            ),
            Act::Give(RECORD_OF_ZZ),
        ],
        r#"give
21 SourceBreach UnknownStream line 2
stream 1 -
pending 0 first 0"#,
    ),
    (
        ONE_STREAM,
        "",
        &[
            Act::Give(RECORD_OF_A),
            Act::Give(RECORD_OF_A),
            Act::Give(
                r#"{"type":"STATE","state":{"type":"STREAM","stream":{"stream_descriptor":{"name":"a"},"stream_state":{}},"sourceStats":{"recordCount":3}}}"#,
            ),
        ],
        r#"give
give
21 SourceBreach Miscount line 3 said 3 counted 2
stream 2 -
pending 0 first 0"#,
    ),
    (
        ONE_STREAM,
        "",
        &[Act::Give(r#"{"type":"STATE","state":{"data":{}}}"#)],
        r#"21 SourceBreach Legacy line 1
stream 0 -
pending 0 first 0"#,
    ),
    (
        ONE_STREAM,
        "",
        &[
            Act::Give(
                r#"{"type":"STATE","state":{"type":"STREAM","stream":{"stream_descriptor":{"name":"a"},"stream_state":{}},"sourceStats":{"recordCount":0}}}"#,
            ),
            Act::Give(
                r#"{"type":"STATE","state":{"type":"GLOBAL","global":{"shared_state":{},"stream_states":[]},"sourceStats":{"recordCount":0}}}"#,
            ),
        ],
        r#"give
21 SourceBreach Mixed line 2
stream 0 -
pending 1 first 1"#,
    ),
    (
        ONE_STREAM,
        SAVED_GLOBAL,
        &[Act::Give(
            r#"{"type":"STATE","state":{"type":"STREAM","stream":{"stream_descriptor":{"name":"a"},"stream_state":{}},"sourceStats":{"recordCount":0}}}"#,
        )],
        r#"21 SourceBreach Mixed line 1
stream 0 -
pending 0 first 0"#,
    ),
    (
        ONE_STREAM,
        SAVED_STREAM,
        &[
            Act::Give(
                r#"{"type":"STATE","state":{"type":"GLOBAL","global":{"shared_state":{},"stream_states":[]},"sourceStats":{"recordCount":0}}}"#,
            ),
            Act::Give(
                r#"{"type":"STATE","state":{"type":"STREAM","stream":{"stream_descriptor":{"name":"a"},"stream_state":{}},"sourceStats":{"recordCount":0}}}"#,
            ),
        ],
        r#"21 SourceBreach Mixed line 1
give
stream 0 -
pending 1 first 1"#,
    ),
    (
        ONE_STREAM,
        SAVED_GLOBAL,
        &[
            Act::Give(
                r#"{"type":"STATE","state":{"type":"STREAM","stream":{"stream_descriptor":{"name":"zz"},"stream_state":{}},"sourceStats":{"recordCount":9}}}"#,
            ),
            Act::Give(r#"{"type":"STATE","state":{"type":"LEGACY","data":{}}}"#),
        ],
        r#"21 SourceBreach Mixed line 1
21 SourceBreach Legacy line 1
stream 0 -
pending 0 first 0"#,
    ),
    (
        ONE_STREAM,
        "",
        &[Act::Give(
            r#"{"type":"STATE","state":{"type":"STREAM","stream":{"stream_descriptor":{"name":"zz"},"stream_state":{}},"sourceStats":{"recordCount":9}}}"#,
        )],
        r#"21 SourceBreach UnknownStream line 1
stream 0 -
pending 0 first 0"#,
    ),
    (
        ONE_STREAM,
        "",
        &[Act::Dest(r#"{"type":"STATE","state":{"data":{}}}"#)],
        r#"31 DestBreach Legacy line 1
stream 0 -
pending 0 first 0"#,
    ),
];

#[test]
fn a_source_is_refused_by_its_first_fault(rt: HostRuntime) -> Result<(), Fail> {
    for row in A_SOURCE_IS_REFUSED_BY_ITS_FIRST_FAULT {
        let told = play(rt.alloc(), row.0, row.1, row.2)?;
        assert_eq!(rt; told.as_slice(), row.3.as_bytes(), "{}", row.3);
    }
    Ok(())
}

const RECORDS_COUNT_FOR_THE_STATES_OF_THEIR_LANE: &[Row] = &[
    (
        TWO_STREAMS,
        "",
        &[
            Act::Give(RECORD_OF_A),
            Act::Give(RECORD_OF_B),
            Act::Give(RECORD_OF_A),
            Act::Give(
                r#"{"type":"STATE","state":{"type":"STREAM","stream":{"stream_descriptor":{"name":"a"},"stream_state":{"n":1}},"sourceStats":{"recordCount":2}}}"#,
            ),
            Act::Give(RECORD_OF_A),
            Act::Give(
                r#"{"type":"STATE","state":{"type":"STREAM","stream":{"stream_descriptor":{"name":"a"},"stream_state":{"n":2}},"sourceStats":{"recordCount":1.0}}}"#,
            ),
            Act::Give(
                r#"{"type":"STATE","state":{"type":"STREAM","stream":{"stream_descriptor":{"name":"b","namespace":"n"},"stream_state":{}},"sourceStats":{"recordCount":1}}}"#,
            ),
            Act::Give(
                r#"{"type":"STATE","state":{"type":"STREAM","stream":{"stream_descriptor":{"name":"b","namespace":"n"},"stream_state":{}},"sourceStats":{"recordCount":1}}}"#,
            ),
        ],
        r#"give
give
give
give
give
give
give
21 SourceBreach Miscount line 8 said 1 counted 0
stream 3 -
stream 1 -
pending 3 first 4"#,
    ),
    (
        TWO_STREAMS,
        "",
        &[
            Act::Give(RECORD_OF_A),
            Act::Give(RECORD_OF_B),
            Act::Give(
                r#"{"type":"STATE","state":{"type":"GLOBAL","global":{"shared_state":{"n":1},"stream_states":[]},"sourceStats":{"recordCount":2}}}"#,
            ),
            Act::Give(RECORD_OF_A),
            Act::Give(
                r#"{"type":"STATE","state":{"type":"GLOBAL","global":{"shared_state":{"n":2},"stream_states":[]}}}"#,
            ),
            Act::Give(
                r#"{"type":"STATE","state":{"type":"GLOBAL","global":{"shared_state":{"n":3},"stream_states":[]},"sourceStats":{"recordCount":1}}}"#,
            ),
        ],
        r#"give
give
give
give
give
21 SourceBreach Miscount line 6 said 1 counted 0
stream 2 -
stream 1 -
pending 2 first 3"#,
    ),
];

#[test]
fn records_count_for_the_states_of_their_lane(rt: HostRuntime) -> Result<(), Fail> {
    for row in RECORDS_COUNT_FOR_THE_STATES_OF_THEIR_LANE {
        let told = play(rt.alloc(), row.0, row.1, row.2)?;
        assert_eq!(rt; told.as_slice(), row.3.as_bytes(), "{}", row.3);
    }
    Ok(())
}

const WHAT_IS_SAID_AND_THE_LAST_STATUS: &[Row] = &[
    (
        TWO_STREAMS,
        "",
        &[
            Act::Give(
                r#"{"type":"TRACE","trace":{"type":"STREAM_STATUS","emitted_at":1,"stream_status":{"stream_descriptor":{"name":"a"},"status":"STARTED"}}}"#,
            ),
            Act::Give(
                r#"{"type":"TRACE","trace":{"type":"STREAM_STATUS","emitted_at":1,"stream_status":{"stream_descriptor":{"name":"b","namespace":"n"},"status":"RUNNING"}}}"#,
            ),
            Act::Give(
                r#"{"type":"TRACE","trace":{"type":"STREAM_STATUS","emitted_at":1,"stream_status":{"stream_descriptor":{"name":"a"},"status":"COMPLETE"}}}"#,
            ),
            Act::Give(
                r#"{"type":"TRACE","trace":{"type":"STREAM_STATUS","emitted_at":1,"stream_status":{"stream_descriptor":{"name":"b"},"status":"INCOMPLETE"}}}"#,
            ),
        ],
        r#"give
give
give
nothing
stream 0 COMPLETE
stream 0 RUNNING
pending 0 first 0"#,
    ),
    (
        ONE_STREAM,
        "",
        &[
            Act::Give(r#"{"type":"LOG","log":{"level":"INFO","message":"one\ntwo\u0000"}}"#),
            Act::Dest(r#"{"type":"LOG","log":{"level":"WARN","message":"hi"}}"#),
        ],
        r#"say source [INFO] one two 
say dest [WARN] hi
stream 0 -
pending 0 first 0"#,
    ),
    (
        ONE_STREAM,
        "",
        &[
            Act::Give(r#"{"type":"TRACE","trace":{"type":"ERROR","error":{"message":"a\tb"}}}"#),
            Act::Give(
                r#"{"type":"TRACE","trace":{"type":"ERROR","error":{"message":"no","failure_type":"config_error"}}}"#,
            ),
            Act::Dest(
                r#"{"type":"TRACE","trace":{"type":"ERROR","error":{"message":"no","failure_type":"config_error"}}}"#,
            ),
            Act::Dest(
                r#"{"type":"TRACE","trace":{"type":"ERROR","error":{"message":"x","failure_type":"transient_error"}}}"#,
            ),
        ],
        r#"say source error system_error a b
config source error config_error no
config dest error config_error no
say dest error transient_error x
stream 0 -
pending 0 first 0"#,
    ),
    (
        ONE_STREAM,
        "",
        &[
            Act::Give(r#"{"type":"TRACE","trace":{"type":"ESTIMATE"}}"#),
            Act::Give(r#"{"type":"CONTROL","control":{"type":"X"}}"#),
            Act::Dest(RECORD_OF_A),
            Act::Dest(
                r#"{"type":"TRACE","trace":{"type":"STREAM_STATUS","emitted_at":1,"stream_status":{"stream_descriptor":{"name":"a"},"status":"COMPLETE"}}}"#,
            ),
            Act::Dest(r#"plain"#),
        ],
        r#"nothing
nothing
nothing
nothing
say dest: plain
stream 0 -
pending 0 first 0"#,
    ),
];

#[test]
fn what_is_said_and_the_last_status(rt: HostRuntime) -> Result<(), Fail> {
    for row in WHAT_IS_SAID_AND_THE_LAST_STATUS {
        let told = play(rt.alloc(), row.0, row.1, row.2)?;
        assert_eq!(rt; told.as_slice(), row.3.as_bytes(), "{}", row.3);
    }
    Ok(())
}
