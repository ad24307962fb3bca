// What a book answers, call by call, and which echoes it emits, as worked out by hand.
use crate::book_plays::{Act, Bounds, Input, Line, Tail, play};
use std::test::Fail;

const ONE: &str =
    r#"{"streams":[{"stream":{"name":"a","json_schema":{"type":"object","properties":{"id":{"type":"integer"},"v":{"type":"number"}}},"supported_sync_modes":["incremental"]},"sync_mode":"incremental","destination_sync_mode":"append"}]}"#;

const TWO: &str =
    r#"{"streams":[{"stream":{"name":"a","json_schema":{}},"sync_mode":"incremental","destination_sync_mode":"append"},{"stream":{"name":"b","json_schema":{}},"sync_mode":"incremental","destination_sync_mode":"append"}]}"#;

// A catalog whose stream is to have a generation of its own.
const OVERWRITE: &str =
    r#"{"streams":[{"stream":{"name":"a","json_schema":{}},"sync_mode":"full_refresh","destination_sync_mode":"overwrite"}]}"#;

const RECORD_OF_A: &str =
    r#"{"type":"RECORD","record":{"stream":"a","data":{"id":1},"emitted_at":1}}"#;

const RECORD_OF_B: &str =
    r#"{"type":"RECORD","record":{"stream":"b","data":{"id":1},"emitted_at":1}}"#;

const RECORD_OF_ZZ: &str = r#"{"type":"RECORD","record":{"stream":"zz","data":{},"emitted_at":1}}"#;

const STATE_OF_A: &str =
    r#"{"type":"STATE","state":{"type":"STREAM","stream":{"stream_descriptor":{"name":"a"},"stream_state":{"n":1}},"sourceStats":{"recordCount":2}}}"#;

const NEXT_STATE_OF_A: &str =
    r#"{"type":"STATE","state":{"type":"STREAM","stream":{"stream_descriptor":{"name":"a"},"stream_state":{"n":2}},"sourceStats":{"recordCount":1}}}"#;

const STATE_OF_B: &str =
    r#"{"type":"STATE","state":{"type":"STREAM","stream":{"stream_descriptor":{"name":"b"},"stream_state":{"n":1}}}}"#;

const GLOBAL_STATE: &str =
    r#"{"type":"STATE","state":{"type":"GLOBAL","global":{"shared_state":{"n":1},"stream_states":[]}}}"#;

const LEGACY_STATE: &str = r#"{"type":"STATE","state":{"data":{}}}"#;

const STATUS_OF_ZZ: &str =
    r#"{"type":"TRACE","trace":{"type":"STREAM_STATUS","emitted_at":1,"stream_status":{"stream_descriptor":{"name":"zz"},"status":"COMPLETE"}}}"#;

// Room for a line of the greatest length, and little else.
const SMALL: Bounds = (4, 20_971_520, 2, 10);

// A catalog, bounds, calls of the dock that fail, the input, what is done, and what is answered.
type Row = (
    &'static str,
    Bounds,
    &'static [u64],
    Input,
    &'static [Act],
    &'static str,
);

const ROWS: &[Row] = &[
    // The later batch is committed first: no echo before the records of the earlier state stand, and then both in order.
    (
        ONE,
        SMALL,
        &[],
        (
            &[
                Line::Text(RECORD_OF_A),
                Line::Text(RECORD_OF_A),
                Line::Text(STATE_OF_A),
                Line::Text(RECORD_OF_A),
                Line::Text(NEXT_STATE_OF_A),
            ],
            Tail::Open,
        ),
        &[
            Act::Accept,
            Act::Accept,
            Act::Accept,
            Act::Accept,
            Act::Accept,
            Act::Pick,
            Act::Pick,
            Act::Put(1),
            Act::Put(0),
            Act::Accept,
        ],
        r#"took
took
took
took
took
batch 0 1
batch 2
done
done
> {"type":"STATE","state":{"type":"STREAM","stream":{"stream_descriptor":{"name":"a"},"stream_state":{"n":1}},"sourceStats":{"recordCount":2},"destinationStats":{"recordCount":2}}}
> {"type":"STATE","state":{"type":"STREAM","stream":{"stream_descriptor":{"name":"a"},"stream_state":{"n":2}},"sourceStats":{"recordCount":1},"destinationStats":{"recordCount":1}}}
not yet
running
rows 1:2 1:0 1:1"#,
    ),
    // A stop behind the commit and before the echo: marks, load, three polls, the commit, and the echo, which fails.
    (
        ONE,
        SMALL,
        &[7],
        (
            &[
                Line::Text(RECORD_OF_A),
                Line::Text(RECORD_OF_A),
                Line::Text(STATE_OF_A),
            ],
            Tail::Open,
        ),
        &[
            Act::Accept,
            Act::Accept,
            Act::Accept,
            Act::Pick,
            Act::Put(0),
            Act::Accept,
        ],
        r#"took
took
took
batch 0 1
broken 7 WriteFault
broken 7 WriteFault
stays broken 7 WriteFault
rows 1:0 1:1"#,
    ),
    // A commit that fails: no row and no echo, for good.
    (
        ONE,
        SMALL,
        &[6],
        (
            &[
                Line::Text(RECORD_OF_A),
                Line::Text(RECORD_OF_A),
                Line::Text(STATE_OF_A),
            ],
            Tail::Open,
        ),
        &[
            Act::Accept,
            Act::Accept,
            Act::Accept,
            Act::Pick,
            Act::Put(0),
            Act::Pick,
        ],
        r#"took
took
took
batch 0 1
broken 5 StoreFault
none
stays broken 5 StoreFault
rows"#,
    ),
    // A state of all streams waits for the records of both.
    (
        TWO,
        SMALL,
        &[],
        (
            &[
                Line::Text(RECORD_OF_A),
                Line::Text(RECORD_OF_B),
                Line::Text(GLOBAL_STATE),
            ],
            Tail::Open,
        ),
        &[
            Act::Accept,
            Act::Accept,
            Act::Accept,
            Act::Pick,
            Act::Pick,
            Act::Put(0),
            Act::Put(1),
        ],
        r#"took
took
took
batch 0
batch 1
done
done
> {"type":"STATE","state":{"type":"GLOBAL","global":{"shared_state":{"n":1},"stream_states":[]},"destinationStats":{"recordCount":2}}}
running
rows 1:0 1:1"#,
    ),
    // A state before any record goes at once. One of another stream does not wait for a record that it does not cover.
    (
        TWO,
        SMALL,
        &[],
        (
            &[
                Line::Text(STATE_OF_B),
                Line::Text(RECORD_OF_A),
                Line::Text(STATE_OF_B),
            ],
            Tail::Open,
        ),
        &[Act::Accept, Act::Accept, Act::Accept],
        r#"took
> {"type":"STATE","state":{"type":"STREAM","stream":{"stream_descriptor":{"name":"b"},"stream_state":{"n":1}},"destinationStats":{"recordCount":0}}}
took
took
> {"type":"STATE","state":{"type":"STREAM","stream":{"stream_descriptor":{"name":"b"},"stream_state":{"n":1}},"destinationStats":{"recordCount":0}}}
running
rows"#,
    ),
    // A state without a lane, states of both kinds, a record and a state of a stream that is not there, and a line that is none,
    // each with its number; a status of such a stream is passed over.
    (
        ONE,
        SMALL,
        &[],
        (&[Line::Text(LEGACY_STATE)], Tail::Open),
        &[Act::Accept],
        "broken 4 BadInput Legacy line 1\nstays broken 4 BadInput Legacy line 1\nrows",
    ),
    (
        ONE,
        SMALL,
        &[],
        (
            &[Line::Text(GLOBAL_STATE), Line::Text(STATE_OF_B)],
            Tail::Open,
        ),
        &[Act::Accept, Act::Accept],
        r#"took
> {"type":"STATE","state":{"type":"GLOBAL","global":{"shared_state":{"n":1},"stream_states":[]},"destinationStats":{"recordCount":0}}}
broken 4 BadInput Mixed line 2
stays broken 4 BadInput Mixed line 2
rows"#,
    ),
    (
        ONE,
        SMALL,
        &[],
        (
            &[Line::Text(STATUS_OF_ZZ), Line::Text(RECORD_OF_ZZ)],
            Tail::Open,
        ),
        &[Act::Accept, Act::Accept],
        "took\nbroken 4 BadInput UnknownStream line 2\nstays broken 4 BadInput UnknownStream line 2\nrows",
    ),
    (
        ONE,
        SMALL,
        &[],
        (&[Line::Text(STATE_OF_B)], Tail::Open),
        &[Act::Accept],
        "broken 4 BadInput UnknownStream line 1\nstays broken 4 BadInput UnknownStream line 1\nrows",
    ),
    (
        ONE,
        SMALL,
        &[],
        (&[Line::Text("hello")], Tail::Open),
        &[Act::Accept],
        "broken 4 BadInput BadLine line 1\nstays broken 4 BadInput BadLine line 1\nrows",
    ),
    // A last piece without a newline counts where it is a message, is nothing where it is blank, and is torn where it is none.
    (
        ONE,
        SMALL,
        &[],
        (&[Line::Text(RECORD_OF_A)], Tail::Torn(RECORD_OF_A)),
        &[
            Act::Accept,
            Act::Accept,
            Act::Accept,
            Act::Accept,
            Act::Pick,
            Act::Put(0),
        ],
        "took\ntook\nend\nend\nbatch 0 1\ndone\nended\nrows 1:0 1:1",
    ),
    (
        ONE,
        SMALL,
        &[],
        (&[], Tail::Torn(" \t")),
        &[Act::Accept],
        "end\nended\nrows",
    ),
    (
        ONE,
        SMALL,
        &[],
        (
            &[Line::Text(RECORD_OF_A)],
            Tail::Torn(r#"{"type":"RECORD","record":{"stream":"a","data":{},"emitted_at":1}"#),
        ),
        &[Act::Accept, Act::Accept],
        "took\nbroken 4 BadInput TornTail line 2\nstays broken 4 BadInput TornTail line 2\nrows",
    ),
    // Four slots, and batches of four: the fifth record waits until the batch is committed.
    (
        ONE,
        (4, 20_971_520, 4, 10),
        &[],
        (
            &[
                Line::Text(RECORD_OF_A),
                Line::Text(RECORD_OF_A),
                Line::Text(RECORD_OF_A),
                Line::Text(RECORD_OF_A),
                Line::Text(RECORD_OF_A),
            ],
            Tail::Open,
        ),
        &[
            Act::Accept,
            Act::Accept,
            Act::Accept,
            Act::Accept,
            Act::Accept,
            Act::Pick,
            Act::Accept,
            Act::Put(0),
            Act::Accept,
            Act::Accept,
        ],
        "took\ntook\ntook\ntook\nfull\nbatch 0 1 2 3\nfull\ndone\ntook\nnot yet\nrunning\nrows 1:0 1:1 1:2 1:3",
    ),
    // Batches that come back are sealed again, and go once more; one that was taken back is a stranger.
    (
        ONE,
        SMALL,
        &[],
        (
            &[Line::Text(RECORD_OF_A), Line::Text(RECORD_OF_A)],
            Tail::Open,
        ),
        &[
            Act::Accept,
            Act::Accept,
            Act::Pick,
            Act::GiveBack(0),
            Act::Pick,
            Act::Recall,
            Act::Pick,
            Act::Put(1),
            Act::Put(2),
            Act::Pick,
        ],
        "took\ntook\nbatch 0 1\nsealed\nbatch 0 1\nbatch 0 1\nstranger\ndone\nnone\nrunning\nrows 1:0 1:1",
    ),
    // What was prepared of other lines is not committed: the book's own lines are.
    (
        ONE,
        SMALL,
        &[],
        (
            &[
                Line::Text(RECORD_OF_A),
                Line::Text(RECORD_OF_A),
                Line::Text(STATE_OF_A),
            ],
            Tail::Open,
        ),
        &[
            Act::Accept,
            Act::Accept,
            Act::Accept,
            Act::Pick,
            Act::PutEmptied(0),
        ],
        r#"took
took
took
batch 0 1
done
> {"type":"STATE","state":{"type":"STREAM","stream":{"stream_descriptor":{"name":"a"},"stream_state":{"n":1}},"sourceStats":{"recordCount":2},"destinationStats":{"recordCount":2}}}
running
rows 1:0 1:1"#,
    ),
    // The end seals what is left.
    (
        ONE,
        SMALL,
        &[],
        (&[Line::Text(RECORD_OF_A)], Tail::End),
        &[Act::Accept, Act::Pick, Act::Accept, Act::Pick, Act::Put(0)],
        "took\nnone\nend\nbatch 0\ndone\nended\nrows 1:0",
    ),
    // The first calls of the dock read the marks and open the load.
    (
        ONE,
        SMALL,
        &[1],
        (&[], Tail::Open),
        &[],
        "refused 5 StoreFault\nrows",
    ),
    (
        ONE,
        SMALL,
        &[2],
        (&[], Tail::Open),
        &[],
        "refused 5 StoreFault\nrows",
    ),
    (
        OVERWRITE,
        SMALL,
        &[],
        (&[], Tail::Open),
        &[Act::Accept],
        "not yet\nrunning\nrows",
    ),
];

#[test]
fn books_answer_as_worked(rt: HostRuntime) -> Result<(), Fail> {
    for (catalog, bounds, fails, input, acts, told) in ROWS {
        let found = play(rt.alloc(), catalog, *bounds, fails, *input, acts)?;
        assert_eq!(rt; found.as_slice(), told.as_bytes(), "{told}");
    }
    Ok(())
}

#[test]
fn long_lines_are_taken_up_to_the_limit(rt: HostRuntime) -> Result<(), Fail> {
    for (lines, acts, told) in [
        (
            &[Line::Long(20_971_520)][..],
            &[Act::Accept, Act::Close, Act::Accept, Act::Pick, Act::Put(0)][..],
            "took\nend\nbatch 0\ndone\nended\nrows 1:0",
        ),
        (
            &[Line::Long(20_971_521)],
            &[Act::Accept],
            "broken 4 BadInput TooLong line 1\nstays broken 4 BadInput TooLong line 1\nrows",
        ),
        // Beside a record of 20,000,000 bytes there is no room for one of 1,000,000.
        (
            &[Line::Long(20_000_000), Line::Long(1_000_000)],
            &[
                Act::Accept,
                Act::Accept,
                Act::Pick,
                Act::Put(0),
                Act::Accept,
            ],
            "took\nfull\nbatch 0\ndone\ntook\nrunning\nrows 1:0",
        ),
    ] {
        let found = play(rt.alloc(), ONE, SMALL, &[], (lines, Tail::Open), acts)?;
        assert_eq!(rt; found.as_slice(), told.as_bytes(), "{told}");
    }
    Ok(())
}
