// What becomes of streams at the end of a load, as worked out by hand.
use crate::book_plays::{Act, Bounds, Input, Line, Load, Tail, play, play_loads};
use std::test::Fail;

// A stream that a load hides: its minimum generation is above the floor of a new store, which is 0.
const HIDDEN: &str =
    r#"{"streams":[{"stream":{"name":"a","json_schema":{}},"sync_mode":"full_refresh","destination_sync_mode":"overwrite","generation_id":2,"minimum_generation_id":2}]}"#;

// The generation before it.
const EARLIER: &str =
    r#"{"streams":[{"stream":{"name":"a","json_schema":{}},"sync_mode":"full_refresh","destination_sync_mode":"overwrite","generation_id":1,"minimum_generation_id":0}]}"#;

const DEDUPLICATED: &str =
    r#"{"streams":[{"stream":{"name":"a","json_schema":{"type":"object","properties":{"id":{"type":"integer"},"v":{"type":"integer"}}}},"sync_mode":"incremental","destination_sync_mode":"append_dedup","primary_key":[["id"]],"cursor_field":["v"]}]}"#;

// Both: deduplicated and hidden.
const HIDDEN_DEDUPLICATED: &str =
    r#"{"streams":[{"stream":{"name":"a","json_schema":{"type":"object","properties":{"id":{"type":"integer"},"v":{"type":"integer"}}}},"sync_mode":"incremental","destination_sync_mode":"append_dedup","primary_key":[["id"]],"cursor_field":["v"],"generation_id":2,"minimum_generation_id":2}]}"#;

const FIRST: &str =
    r#"{"type":"RECORD","record":{"stream":"a","data":{"id":1,"v":1},"emitted_at":1}}"#;

const SECOND: &str =
    r#"{"type":"RECORD","record":{"stream":"a","data":{"id":2,"v":1},"emitted_at":1}}"#;

const STARTED: &str =
    r#"{"type":"TRACE","trace":{"type":"STREAM_STATUS","emitted_at":1,"stream_status":{"stream_descriptor":{"name":"a"},"status":"STARTED"}}}"#;

const COMPLETE: &str =
    r#"{"type":"TRACE","trace":{"type":"STREAM_STATUS","emitted_at":1,"stream_status":{"stream_descriptor":{"name":"a"},"status":"COMPLETE"}}}"#;

const LARGE_PAGES: Bounds = (4, 20_971_520, 2, 10);

const SMALL_PAGES: Bounds = (4, 20_971_520, 2, 1);

// A catalog, bounds, calls of the dock that fail, the input, what is done, and what is answered.
type Row = (
    &'static str,
    Bounds,
    &'static [u64],
    Input,
    &'static [Act],
    &'static str,
);

const ROWS: &[Row] = &[
    // While the input goes on, and while a record is uncommitted, nothing is shown. Then the stream is, and only once.
    (
        HIDDEN,
        LARGE_PAGES,
        &[],
        (
            &[Line::Text(STARTED), Line::Text(FIRST), Line::Text(COMPLETE)],
            Tail::End,
        ),
        &[
            Act::Accept,
            Act::Accept,
            Act::Accept,
            Act::Finish(0),
            Act::Accept,
            Act::Finish(0),
            Act::Pick,
            Act::Finish(0),
            Act::Put(0),
            Act::Finish(0),
            Act::Finish(0),
        ],
        "took\ntook\ntook\nundrained\nend\nundrained\nbatch 0\nundrained\ndone\nshown\nkept\nended\nrows 1:0\nshown 0 2 2",
    ),
    // A stream that was started again behind its end is not complete, and stays hidden.
    (
        HIDDEN,
        LARGE_PAGES,
        &[],
        (
            &[Line::Text(FIRST), Line::Text(COMPLETE), Line::Text(STARTED)],
            Tail::End,
        ),
        &[
            Act::Accept,
            Act::Accept,
            Act::Accept,
            Act::Accept,
            Act::Pick,
            Act::Put(0),
            Act::Finish(0),
        ],
        "took\ntook\ntook\nend\nbatch 0\ndone\nnot complete\nended\nrows 1:0",
    ),
    // Nor is a stream of which no status came.
    (
        DEDUPLICATED,
        LARGE_PAGES,
        &[],
        (&[], Tail::End),
        &[Act::Accept, Act::Finish(0)],
        "end\nnot complete\nended\nrows",
    ),
    // Two rows in pages of one: two merges.
    (
        DEDUPLICATED,
        SMALL_PAGES,
        &[],
        (
            &[Line::Text(FIRST), Line::Text(SECOND), Line::Text(COMPLETE)],
            Tail::End,
        ),
        &[
            Act::Accept,
            Act::Accept,
            Act::Accept,
            Act::Accept,
            Act::Pick,
            Act::Put(0),
            Act::Finish(0),
        ],
        "took\ntook\ntook\nend\nbatch 0 1\ndone\nkept\nended\nrows 1:0 1:1\nmerged 0 1 1\nmerged 0 1 2",
    ),
    // A hidden stream is merged on its hidden side, and then shown.
    (
        HIDDEN_DEDUPLICATED,
        LARGE_PAGES,
        &[],
        (
            &[Line::Text(FIRST), Line::Text(SECOND), Line::Text(COMPLETE)],
            Tail::End,
        ),
        &[
            Act::Accept,
            Act::Accept,
            Act::Accept,
            Act::Accept,
            Act::Pick,
            Act::Put(0),
            Act::Finish(0),
        ],
        "took\ntook\ntook\nend\nbatch 0 1\ndone\nshown\nended\nrows 1:0 1:1\nmerged 0 2 2\nshown 0 2 2",
    ),
    // The dock's calls are: marks, load, three polls, the commit, the page and the winner of its key, which fails; and then none.
    (
        HIDDEN_DEDUPLICATED,
        LARGE_PAGES,
        &[8],
        (&[Line::Text(FIRST), Line::Text(COMPLETE)], Tail::End),
        &[
            Act::Accept,
            Act::Accept,
            Act::Accept,
            Act::Pick,
            Act::Put(0),
            Act::Finish(0),
            Act::Finish(0),
        ],
        "took\ntook\nend\nbatch 0\ndone\nbroken 5 StoreFault\nbroken 5 StoreFault\nstays broken 5 StoreFault\nrows 1:0",
    ),
    // The next call merges, and the one behind it shows.
    (
        HIDDEN_DEDUPLICATED,
        LARGE_PAGES,
        &[10],
        (&[Line::Text(FIRST), Line::Text(COMPLETE)], Tail::End),
        &[
            Act::Accept,
            Act::Accept,
            Act::Accept,
            Act::Pick,
            Act::Put(0),
            Act::Finish(0),
            Act::Finish(0),
        ],
        "took\ntook\nend\nbatch 0\ndone\nbroken 5 StoreFault\nbroken 5 StoreFault\nstays broken 5 StoreFault\nrows 1:0\nmerged 0 1 1",
    ),
];

#[test]
fn streams_are_finished_as_worked(rt: HostRuntime) -> Result<(), Fail> {
    for (catalog, bounds, fails, input, acts, told) in ROWS {
        let found = play(rt.alloc(), catalog, *bounds, fails, *input, acts)?;
        assert_eq!(rt; found.as_slice(), told.as_bytes(), "{told}");
    }
    Ok(())
}

// A load of generation 1 is seen at once. One of generation 2 commits a row, and ends without its stream being complete; the next one
// of that generation goes on with the same hidden side, and shows it.
const GENERATIONS: &[Load] = &[
    (
        EARLIER,
        (&[Line::Text(FIRST), Line::Text(COMPLETE)], Tail::End),
        &[
            Act::Accept,
            Act::Accept,
            Act::Accept,
            Act::Pick,
            Act::Put(0),
            Act::Finish(0),
        ],
    ),
    (
        HIDDEN,
        (&[Line::Text(FIRST)], Tail::End),
        &[
            Act::Accept,
            Act::Accept,
            Act::Pick,
            Act::Put(0),
            Act::Finish(0),
        ],
    ),
    (
        HIDDEN,
        (&[Line::Text(SECOND), Line::Text(COMPLETE)], Tail::End),
        &[
            Act::Accept,
            Act::Accept,
            Act::Accept,
            Act::Pick,
            Act::Put(0),
            Act::Finish(0),
        ],
    ),
];

#[test]
fn a_generation_is_shown_once_it_is_complete(rt: HostRuntime) -> Result<(), Fail> {
    let found = play_loads(rt.alloc(), LARGE_PAGES, GENERATIONS)?;
    let told =
        "took\ntook\nend\nbatch 0\ndone\nkept\nended\ntook\nend\nbatch 0\ndone\nnot complete\nended\ntook\ntook\nend\nbatch 0\ndone\nshown\nended\nrows 1:0 2:0 3:0\nshown 0 2 2";
    assert_eq!(rt; found.as_slice(), told.as_bytes(), "{told}");
    Ok(())
}
