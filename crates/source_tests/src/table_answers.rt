// The commands `spec`, `check` and `discover`, what is refused, and calls that fail.
use crate::table_runs::{Row, Text, run};
use basics::NoMemory;
use std::alloc::Global;
use std::test::Fail;

// The texts, the words, the calls of the desk and of the store that fail, and what is said with the status behind it.
type Case = (
    &'static str,
    &'static [Text],
    &'static [&'static str],
    &'static [u64],
    &'static [u64],
    &'static str,
);

const ROWS: &[Row] = &[("a", 1, "{}")];

const FIRST: &[Case] = &[
    (
        "spec",
        &[],
        &["spec"],
        &[],
        &[],
        "{\"type\":\"SPEC\",\"spec\":{\"connectionSpecification\":{\"type\":\"object\",\"required\":[\"database\",\"tables\"]}}}\n0 Ok",
    ),
    ("a word too many", &[], &["spec", "x"], &[], &[], "2 Usage"),
    ("no words", &[], &[], &[], &[], "2 Usage"),
    (
        "write",
        &[],
        &["write", "--config", "c", "--catalog", "k"],
        &[],
        &[],
        "2 Usage",
    ),
    (
        "the pipe breaks at the line",
        &[],
        &["spec"],
        &[1],
        &[],
        "7 WriteFault",
    ),
    (
        "the pipe breaks at the last flush",
        &[],
        &["spec"],
        &[2],
        &[],
        "{\"type\":\"SPEC\",\"spec\":{\"connectionSpecification\":{\"type\":\"object\",\"required\":[\"database\",\"tables\"]}}}\n7 WriteFault",
    ),
    (
        "check",
        &[(
            "c",
            r#"{"database":"d","tables":[{"name":"a","schema":{}}]}"#,
        )],
        &["check", "--config", "c"],
        &[],
        &[],
        "{\"type\":\"CONNECTION_STATUS\",\"connectionStatus\":{\"status\":\"SUCCEEDED\"}}\n0 Ok",
    ),
    (
        "check of no table",
        &[("c", r#"{"database":"d","tables":[]}"#)],
        &["check", "--config", "c"],
        &[],
        &[],
        "{\"type\":\"CONNECTION_STATUS\",\"connectionStatus\":{\"status\":\"SUCCEEDED\"}}\n0 Ok",
    ),
];

const SECOND: &[Case] = &[
    (
        "check of what is no JSON",
        &[("c", r#"tables"#)],
        &["check", "--config", "c"],
        &[],
        &[],
        "{\"type\":\"CONNECTION_STATUS\",\"connectionStatus\":{\"status\":\"FAILED\",\"message\":\"bad config\"}}\n0 Ok",
    ),
    (
        "check without members",
        &[("c", r#"{}"#)],
        &["check", "--config", "c"],
        &[],
        &[],
        "{\"type\":\"CONNECTION_STATUS\",\"connectionStatus\":{\"status\":\"FAILED\",\"message\":\"bad config\"}}\n0 Ok",
    ),
    (
        "check of a number out of range",
        &[(
            "c",
            r#"{"database":"d","tables":[{"name":"a","schema":{},"every":0}]}"#,
        )],
        &["check", "--config", "c"],
        &[],
        &[],
        "{\"type\":\"CONNECTION_STATUS\",\"connectionStatus\":{\"status\":\"FAILED\",\"message\":\"bad config\"}}\n0 Ok",
    ),
    (
        "check with no configuration",
        &[],
        &["check", "--config", "c"],
        &[],
        &[],
        "{\"type\":\"CONNECTION_STATUS\",\"connectionStatus\":{\"status\":\"FAILED\",\"message\":\"cannot open\"}}\n0 Ok",
    ),
    (
        "check where the store does not open",
        &[(
            "c",
            r#"{"database":"d","tables":[{"name":"a","schema":{}}]}"#,
        )],
        &["check", "--config", "c"],
        &[],
        &[1],
        "{\"type\":\"CONNECTION_STATUS\",\"connectionStatus\":{\"status\":\"FAILED\",\"message\":\"cannot open\"}}\n0 Ok",
    ),
    (
        "discover",
        &[(
            "c",
            r#"{"database":"d","tables":[{"name":"a","schema":{ "type": "object" },"cursor":"at","key":["id","n"],"every":7},{"name":"b","schema":{},"cursor":null,"key":[],"every":null}]}"#,
        )],
        &["discover", "--config", "c"],
        &[],
        &[],
        "{\"type\":\"CATALOG\",\"catalog\":{\"streams\":[{\"name\":\"a\",\"json_schema\":{\"type\":\"object\"},\"supported_sync_modes\":[\"full_refresh\",\"incremental\"],\"source_defined_cursor\":false,\"default_cursor_field\":[\"at\"],\"source_defined_primary_key\":[[\"id\"],[\"n\"]],\"is_resumable\":true},{\"name\":\"b\",\"json_schema\":{},\"supported_sync_modes\":[\"full_refresh\",\"incremental\"],\"source_defined_cursor\":false,\"is_resumable\":true}]}}\n0 Ok",
    ),
    (
        "discover of two tables with one name",
        &[(
            "c",
            r#"{"database":"d","tables":[{"name":"a","schema":{},"cursor":"x"},{"name":"b","schema":{}},{"name":"a","schema":{},"cursor":"y"}]}"#,
        )],
        &["discover", "--config", "c"],
        &[],
        &[],
        "{\"type\":\"CATALOG\",\"catalog\":{\"streams\":[{\"name\":\"a\",\"json_schema\":{},\"supported_sync_modes\":[\"full_refresh\",\"incremental\"],\"source_defined_cursor\":false,\"default_cursor_field\":[\"x\"],\"is_resumable\":true},{\"name\":\"b\",\"json_schema\":{},\"supported_sync_modes\":[\"full_refresh\",\"incremental\"],\"source_defined_cursor\":false,\"is_resumable\":true}]}}\n0 Ok",
    ),
    (
        "discover with no configuration",
        &[],
        &["discover", "--config", "c"],
        &[],
        &[],
        "13 FileFault",
    ),
];

const THIRD: &[Case] = &[
    (
        "discover without members",
        &[("c", r#"{}"#)],
        &["discover", "--config", "c"],
        &[],
        &[],
        "10 BadConfig Missing",
    ),
    (
        "a cursor that is no text",
        &[(
            "c",
            r#"{"database":"d","tables":[{"name":"a","schema":{},"cursor":["x"]}]}"#,
        )],
        &["discover", "--config", "c"],
        &[],
        &[],
        "10 BadConfig Missing",
    ),
    (
        "a key that is no array",
        &[(
            "c",
            r#"{"database":"d","tables":[{"name":"a","schema":{},"key":"x"}]}"#,
        )],
        &["discover", "--config", "c"],
        &[],
        &[],
        "10 BadConfig Missing",
    ),
    (
        "a key of other than texts",
        &[(
            "c",
            r#"{"database":"d","tables":[{"name":"a","schema":{},"key":[1]}]}"#,
        )],
        &["discover", "--config", "c"],
        &[],
        &[],
        "10 BadConfig Missing",
    ),
    (
        "a number that is none",
        &[(
            "c",
            r#"{"database":"d","tables":[{"name":"a","schema":{},"every":"2"}]}"#,
        )],
        &["discover", "--config", "c"],
        &[],
        &[],
        "10 BadConfig Missing",
    ),
    (
        "a number that is not whole",
        &[(
            "c",
            r#"{"database":"d","tables":[{"name":"a","schema":{},"every":1.5}]}"#,
        )],
        &["discover", "--config", "c"],
        &[],
        &[],
        "10 BadConfig OutOfRange",
    ),
    (
        "a number above the most",
        &[(
            "c",
            r#"{"database":"d","tables":[{"name":"a","schema":{},"every":1000001}]}"#,
        )],
        &["discover", "--config", "c"],
        &[],
        &[],
        "10 BadConfig OutOfRange",
    ),
    (
        "a form is judged before a number",
        &[(
            "c",
            r#"{"database":"d","tables":[{"name":"a","schema":{},"every":0},{"name":"b"}]}"#,
        )],
        &["discover", "--config", "c"],
        &[],
        &[],
        "10 BadConfig Missing",
    ),
];

const FOURTH: &[Case] = &[
    (
        "a schema as deep as one may be",
        &[(
            "c",
            r#"{"database":"d","tables":[{"name":"a","schema":{"x":[[[[[[[[[[[[[[[[[[[[[[[[[[[[[[[[[[[[[[[[[[[[[[[[[[[[[[[[[[[[[[[[[[[[[[[[[[[[[[[[[[[[[[[[[[[[[[[[[[[]]]]]]]]]]]]]]]]]]]]]]]]]]]]]]]]]]]]]]]]]]]]]]]]]]]]]]]]]]]]]]]]]]]]]]]]]]]]]]]]]]]]]]]]]]]]]]]]]]]}}]}"#,
        )],
        &["discover", "--config", "c"],
        &[],
        &[],
        "{\"type\":\"CATALOG\",\"catalog\":{\"streams\":[{\"name\":\"a\",\"json_schema\":{\"x\":[[[[[[[[[[[[[[[[[[[[[[[[[[[[[[[[[[[[[[[[[[[[[[[[[[[[[[[[[[[[[[[[[[[[[[[[[[[[[[[[[[[[[[[[[[[[[[[[[[[]]]]]]]]]]]]]]]]]]]]]]]]]]]]]]]]]]]]]]]]]]]]]]]]]]]]]]]]]]]]]]]]]]]]]]]]]]]]]]]]]]]]]]]]]]]]]]]]]]]},\"supported_sync_modes\":[\"full_refresh\",\"incremental\"],\"source_defined_cursor\":false,\"is_resumable\":true}]}}\n0 Ok",
    ),
    (
        "a schema that is too deep",
        &[(
            "c",
            r#"{"database":"d","tables":[{"name":"a","schema":{"x":[[[[[[[[[[[[[[[[[[[[[[[[[[[[[[[[[[[[[[[[[[[[[[[[[[[[[[[[[[[[[[[[[[[[[[[[[[[[[[[[[[[[[[[[[[[[[[[[[[[[]]]]]]]]]]]]]]]]]]]]]]]]]]]]]]]]]]]]]]]]]]]]]]]]]]]]]]]]]]]]]]]]]]]]]]]]]]]]]]]]]]]]]]]]]]]]]]]]]]]]}}]}"#,
        )],
        &["discover", "--config", "c"],
        &[],
        &[],
        "10 BadConfig Missing",
    ),
    (
        "a schema that is no object",
        &[(
            "c",
            r#"{"database":"d","tables":[{"name":"a","schema":[]}]}"#,
        )],
        &["discover", "--config", "c"],
        &[],
        &[],
        "10 BadConfig Missing",
    ),
    (
        "no database",
        &[("c", r#"{"tables":[]}"#)],
        &["discover", "--config", "c"],
        &[],
        &[],
        "10 BadConfig Missing",
    ),
    (
        "a text is missing before a configuration is bad",
        &[("c", r#"{}"#)],
        &["read", "--config", "c", "--catalog", "k"],
        &[],
        &[],
        "13 FileFault",
    ),
    (
        "a configuration is bad before a catalog",
        &[("c", r#"{}"#), ("k", r#"{}"#)],
        &["read", "--config", "c", "--catalog", "k"],
        &[],
        &[],
        "10 BadConfig Missing",
    ),
    (
        "states that are none",
        &[
            (
                "c",
                r#"{"database":"d","tables":[{"name":"a","schema":{}}]}"#,
            ),
            (
                "k",
                r#"{"streams":[{"stream":{"name":"a","json_schema":{}},"sync_mode":"incremental","destination_sync_mode":"append"}]}"#,
            ),
            ("s", r#"{}"#),
        ],
        &["read", "--config", "c", "--catalog", "k", "--state", "s"],
        &[],
        &[1],
        "12 BadState NotJson",
    ),
    (
        "a state of all streams",
        &[
            (
                "c",
                r#"{"database":"d","tables":[{"name":"a","schema":{}}]}"#,
            ),
            (
                "k",
                r#"{"streams":[{"stream":{"name":"a","json_schema":{}},"sync_mode":"incremental","destination_sync_mode":"append"}]}"#,
            ),
            ("s", r#"[{"type":"GLOBAL","global":{"stream_states":[]}}]"#),
        ],
        &["read", "--config", "c", "--catalog", "k", "--state", "s"],
        &[],
        &[1],
        "12 BadState Blob",
    ),
];

const FIFTH: &[Case] = &[
    (
        "a blob of another form is found before the store is opened",
        &[
            (
                "c",
                r#"{"database":"d","tables":[{"name":"a","schema":{}}]}"#,
            ),
            (
                "k",
                r#"{"streams":[{"stream":{"name":"a","json_schema":{}},"sync_mode":"incremental","destination_sync_mode":"append"}]}"#,
            ),
            (
                "s",
                r#"[{"type":"STREAM","stream":{"stream_descriptor":{"name":"a"},"stream_state":{"x":1}}}]"#,
            ),
        ],
        &["read", "--config", "c", "--catalog", "k", "--state", "s"],
        &[],
        &[1],
        "12 BadState Blob",
    ),
    (
        "a state of another stream",
        &[
            (
                "c",
                r#"{"database":"d","tables":[{"name":"a","schema":{}}]}"#,
            ),
            (
                "k",
                r#"{"streams":[{"stream":{"name":"a","json_schema":{}},"sync_mode":"incremental","destination_sync_mode":"append"}]}"#,
            ),
            (
                "s",
                r#"[{"type":"STREAM","stream":{"stream_descriptor":{"name":"b"},"stream_state":{"x":1}}}]"#,
            ),
        ],
        &["read", "--config", "c", "--catalog", "k", "--state", "s"],
        &[],
        &[],
        "{\"type\":\"TRACE\",\"trace\":{\"type\":\"STREAM_STATUS\",\"emitted_at\":5,\"stream_status\":{\"stream_descriptor\":{\"name\":\"a\"},\"status\":\"STARTED\"}}}\n{\"type\":\"RECORD\",\"record\":{\"stream\":\"a\",\"data\":{},\"emitted_at\":5}}\n{\"type\":\"STATE\",\"state\":{\"type\":\"STREAM\",\"stream\":{\"stream_descriptor\":{\"name\":\"a\"},\"stream_state\":{\"cursor\":null,\"key\":[]}},\"sourceStats\":{\"recordCount\":1}}}\n{\"type\":\"TRACE\",\"trace\":{\"type\":\"STREAM_STATUS\",\"emitted_at\":5,\"stream_status\":{\"stream_descriptor\":{\"name\":\"a\"},\"status\":\"COMPLETE\"}}}\n0 Ok",
    ),
    (
        "the store does not open",
        &[
            (
                "c",
                r#"{"database":"d","tables":[{"name":"a","schema":{}}]}"#,
            ),
            (
                "k",
                r#"{"streams":[{"stream":{"name":"a","json_schema":{}},"sync_mode":"incremental","destination_sync_mode":"append"}]}"#,
            ),
        ],
        &["read", "--config", "c", "--catalog", "k"],
        &[],
        &[1],
        "8 RowFault",
    ),
    (
        "the first page fails",
        &[
            (
                "c",
                r#"{"database":"d","tables":[{"name":"a","schema":{}}]}"#,
            ),
            (
                "k",
                r#"{"streams":[{"stream":{"name":"a","json_schema":{}},"sync_mode":"incremental","destination_sync_mode":"append"}]}"#,
            ),
        ],
        &["read", "--config", "c", "--catalog", "k"],
        &[],
        &[2],
        "8 RowFault",
    ),
    (
        "the page behind the last row fails",
        &[
            (
                "c",
                r#"{"database":"d","tables":[{"name":"a","schema":{}}]}"#,
            ),
            (
                "k",
                r#"{"streams":[{"stream":{"name":"a","json_schema":{}},"sync_mode":"incremental","destination_sync_mode":"append"}]}"#,
            ),
        ],
        &["read", "--config", "c", "--catalog", "k"],
        &[],
        &[3],
        "8 RowFault",
    ),
    (
        "the pipe breaks behind a record",
        &[
            (
                "c",
                r#"{"database":"d","tables":[{"name":"a","schema":{}}]}"#,
            ),
            (
                "k",
                r#"{"streams":[{"stream":{"name":"a","json_schema":{}},"sync_mode":"incremental","destination_sync_mode":"append"}]}"#,
            ),
        ],
        &["read", "--config", "c", "--catalog", "k"],
        &[5],
        &[],
        "{\"type\":\"TRACE\",\"trace\":{\"type\":\"STREAM_STATUS\",\"emitted_at\":5,\"stream_status\":{\"stream_descriptor\":{\"name\":\"a\"},\"status\":\"STARTED\"}}}\n{\"type\":\"RECORD\",\"record\":{\"stream\":\"a\",\"data\":{},\"emitted_at\":5}}\n7 WriteFault",
    ),
    (
        "the pipe breaks at the flush behind a state",
        &[
            (
                "c",
                r#"{"database":"d","tables":[{"name":"a","schema":{}}]}"#,
            ),
            (
                "k",
                r#"{"streams":[{"stream":{"name":"a","json_schema":{}},"sync_mode":"incremental","destination_sync_mode":"append"}]}"#,
            ),
        ],
        &["read", "--config", "c", "--catalog", "k"],
        &[6],
        &[],
        "{\"type\":\"TRACE\",\"trace\":{\"type\":\"STREAM_STATUS\",\"emitted_at\":5,\"stream_status\":{\"stream_descriptor\":{\"name\":\"a\"},\"status\":\"STARTED\"}}}\n{\"type\":\"RECORD\",\"record\":{\"stream\":\"a\",\"data\":{},\"emitted_at\":5}}\n{\"type\":\"STATE\",\"state\":{\"type\":\"STREAM\",\"stream\":{\"stream_descriptor\":{\"name\":\"a\"},\"stream_state\":{\"cursor\":null,\"key\":[]}},\"sourceStats\":{\"recordCount\":1}}}\n7 WriteFault",
    ),
    (
        "the pipe breaks at the last flush of a read",
        &[
            (
                "c",
                r#"{"database":"d","tables":[{"name":"a","schema":{}}]}"#,
            ),
            (
                "k",
                r#"{"streams":[{"stream":{"name":"a","json_schema":{}},"sync_mode":"incremental","destination_sync_mode":"append"}]}"#,
            ),
        ],
        &["read", "--config", "c", "--catalog", "k"],
        &[8],
        &[],
        "{\"type\":\"TRACE\",\"trace\":{\"type\":\"STREAM_STATUS\",\"emitted_at\":5,\"stream_status\":{\"stream_descriptor\":{\"name\":\"a\"},\"status\":\"STARTED\"}}}\n{\"type\":\"RECORD\",\"record\":{\"stream\":\"a\",\"data\":{},\"emitted_at\":5}}\n{\"type\":\"STATE\",\"state\":{\"type\":\"STREAM\",\"stream\":{\"stream_descriptor\":{\"name\":\"a\"},\"stream_state\":{\"cursor\":null,\"key\":[]}},\"sourceStats\":{\"recordCount\":1}}}\n{\"type\":\"TRACE\",\"trace\":{\"type\":\"STREAM_STATUS\",\"emitted_at\":5,\"stream_status\":{\"stream_descriptor\":{\"name\":\"a\"},\"status\":\"COMPLETE\"}}}\n7 WriteFault",
    ),
];

// The first of these that says something else.
fn first_wrong(alloc: Global, cases: &[Case]) -> Result<Option<&'static str>, NoMemory> {
    for (what, texts, words, desk_fails, row_fails, want) in cases {
        match run(alloc, texts, ROWS, words, desk_fails, row_fails)? {
            Some(found) if found.as_slice() == want.as_bytes() => {}
            _ => return Ok(Some(*what)),
        }
    }
    Ok(None)
}

fn wrong_first(alloc: Global) -> Result<Option<&'static str>, NoMemory> {
    first_wrong(alloc, FIRST)
}

fn wrong_second(alloc: Global) -> Result<Option<&'static str>, NoMemory> {
    first_wrong(alloc, SECOND)
}

fn wrong_third(alloc: Global) -> Result<Option<&'static str>, NoMemory> {
    first_wrong(alloc, THIRD)
}

fn wrong_fourth(alloc: Global) -> Result<Option<&'static str>, NoMemory> {
    first_wrong(alloc, FOURTH)
}

fn wrong_fifth(alloc: Global) -> Result<Option<&'static str>, NoMemory> {
    first_wrong(alloc, FIFTH)
}

#[test]
fn a_source_of_tables_answers(rt: HostRuntime) -> Result<(), Fail> {
    assert_eq!(rt; wrong_first(rt.alloc())?, None);
    assert_eq!(rt; wrong_second(rt.alloc())?, None);
    assert_eq!(rt; wrong_third(rt.alloc())?, None);
    assert_eq!(rt; wrong_fourth(rt.alloc())?, None);
    assert_eq!(rt; wrong_fifth(rt.alloc())?, None);
    Ok(())
}
