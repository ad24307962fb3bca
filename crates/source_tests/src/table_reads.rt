// The command `read`. What is said was worked out by a Python program, by its own JSON, decimals and dates.
use crate::table_runs::{Row, Text, run};
use basics::NoMemory;
use std::alloc::Global;
use std::test::Fail;

// The texts, the rows, whether states are among the texts, and what is said with the status behind it.
type Case = (
    &'static str,
    &'static [Text],
    &'static [Row],
    bool,
    &'static str,
);

const READ: &[&str] = &["read", "--config", "c", "--catalog", "k"];

const READ_FROM: &[&str] = &["read", "--config", "c", "--catalog", "k", "--state", "s"];

const FIRST: &[Case] = &[
    (
        "rows in order of cursor and key",
        &[
            (
                "c",
                r#"{"database":"d","tables":[{"name":"users","schema":{},"every":2}]}"#,
            ),
            (
                "k",
                r#"{"streams":[{"stream":{"name":"users","json_schema":{"type":"object","properties":{"id":{"type":"integer"},"name":{"type":["null","string"]},"updated_at":{"type":["null","string"],"format":"date-time"}}},"supported_sync_modes":["full_refresh","incremental"]},"sync_mode":"incremental","destination_sync_mode":"append_dedup","cursor_field":["updated_at"],"primary_key":[["id"]]}]}"#,
            ),
        ],
        &[
            (
                "users",
                1,
                r#"{"id":1,"name":"Zoë","updated_at":"2024-05-01T10:00:00Z"}"#,
            ),
            (
                "users",
                2,
                r#"{"id":2,"name":"李雷","updated_at":"2024-05-01T09:00:00Z"}"#,
            ),
            ("users", 3, r#"{"id":3,"name":"Ann","updated_at":null}"#),
        ],
        false,
        "{\"type\":\"TRACE\",\"trace\":{\"type\":\"STREAM_STATUS\",\"emitted_at\":5,\"stream_status\":{\"stream_descriptor\":{\"name\":\"users\"},\"status\":\"STARTED\"}}}\n{\"type\":\"RECORD\",\"record\":{\"stream\":\"users\",\"data\":{\"id\":3,\"name\":\"Ann\",\"updated_at\":null},\"emitted_at\":5}}\n{\"type\":\"RECORD\",\"record\":{\"stream\":\"users\",\"data\":{\"id\":2,\"name\":\"李雷\",\"updated_at\":\"2024-05-01T09:00:00Z\"},\"emitted_at\":5}}\n{\"type\":\"STATE\",\"state\":{\"type\":\"STREAM\",\"stream\":{\"stream_descriptor\":{\"name\":\"users\"},\"stream_state\":{\"cursor\":\"2024-05-01T09:00:00Z\",\"key\":[2]}},\"sourceStats\":{\"recordCount\":2}}}\n{\"type\":\"RECORD\",\"record\":{\"stream\":\"users\",\"data\":{\"id\":1,\"name\":\"Zoë\",\"updated_at\":\"2024-05-01T10:00:00Z\"},\"emitted_at\":5}}\n{\"type\":\"STATE\",\"state\":{\"type\":\"STREAM\",\"stream\":{\"stream_descriptor\":{\"name\":\"users\"},\"stream_state\":{\"cursor\":\"2024-05-01T10:00:00Z\",\"key\":[1]}},\"sourceStats\":{\"recordCount\":1}}}\n{\"type\":\"TRACE\",\"trace\":{\"type\":\"STREAM_STATUS\",\"emitted_at\":5,\"stream_status\":{\"stream_descriptor\":{\"name\":\"users\"},\"status\":\"COMPLETE\"}}}\n0 Ok",
    ),
    (
        "a row that is no object",
        &[
            (
                "c",
                r#"{"database":"d","tables":[{"name":"users","schema":{}}]}"#,
            ),
            (
                "k",
                r#"{"streams":[{"stream":{"name":"users","json_schema":{"type":"object","properties":{"id":{"type":"integer"},"name":{"type":["null","string"]},"updated_at":{"type":["null","string"],"format":"date-time"}}},"supported_sync_modes":["full_refresh","incremental"]},"sync_mode":"incremental","destination_sync_mode":"append_dedup","cursor_field":["updated_at"],"primary_key":[["id"]]}]}"#,
            ),
        ],
        &[("users", 1, r#"{"id":1}"#), ("users", 2, r#"[1]"#)],
        false,
        "9 BadRow stream 0 row 2",
    ),
    (
        "a blob of another form",
        &[
            (
                "c",
                r#"{"database":"d","tables":[{"name":"users","schema":{}}]}"#,
            ),
            (
                "k",
                r#"{"streams":[{"stream":{"name":"users","json_schema":{"type":"object","properties":{"id":{"type":"integer"},"name":{"type":["null","string"]},"updated_at":{"type":["null","string"],"format":"date-time"}}},"supported_sync_modes":["full_refresh","incremental"]},"sync_mode":"incremental","destination_sync_mode":"append_dedup","cursor_field":["updated_at"],"primary_key":[["id"]]}]}"#,
            ),
            (
                "s",
                r#"[{"type":"STREAM","stream":{"stream_descriptor":{"name":"users"},"stream_state":{"x":1}}}]"#,
            ),
        ],
        &[("users", 1, r#"{"id":1}"#)],
        true,
        "12 BadState Blob",
    ),
    (
        "no state between equal pairs",
        &[
            (
                "c",
                r#"{"database":"d","tables":[{"name":"a","schema":{},"every":1}]}"#,
            ),
            (
                "k",
                r#"{"streams":[{"stream":{"name":"a","json_schema":{"type":"object","properties":{"at":{"type":"string","format":"date-time"},"v":{"type":"number"}}}},"sync_mode":"incremental","destination_sync_mode":"append","cursor_field":["v"]}]}"#,
            ),
        ],
        &[
            ("a", 1, r#"{"v":2}"#),
            ("a", 2, r#"{"v": 1.0, "s": "x y"}"#),
            ("a", 3, r#"{"v":10e-1}"#),
            ("a", 5, r#"{"v":3}"#),
            ("a", 9, r#"{"v":1}"#),
        ],
        false,
        "{\"type\":\"TRACE\",\"trace\":{\"type\":\"STREAM_STATUS\",\"emitted_at\":5,\"stream_status\":{\"stream_descriptor\":{\"name\":\"a\"},\"status\":\"STARTED\"}}}\n{\"type\":\"RECORD\",\"record\":{\"stream\":\"a\",\"data\":{\"v\":1.0,\"s\":\"x y\"},\"emitted_at\":5}}\n{\"type\":\"RECORD\",\"record\":{\"stream\":\"a\",\"data\":{\"v\":10e-1},\"emitted_at\":5}}\n{\"type\":\"RECORD\",\"record\":{\"stream\":\"a\",\"data\":{\"v\":1},\"emitted_at\":5}}\n{\"type\":\"STATE\",\"state\":{\"type\":\"STREAM\",\"stream\":{\"stream_descriptor\":{\"name\":\"a\"},\"stream_state\":{\"cursor\":1,\"key\":[]}},\"sourceStats\":{\"recordCount\":3}}}\n{\"type\":\"RECORD\",\"record\":{\"stream\":\"a\",\"data\":{\"v\":2},\"emitted_at\":5}}\n{\"type\":\"STATE\",\"state\":{\"type\":\"STREAM\",\"stream\":{\"stream_descriptor\":{\"name\":\"a\"},\"stream_state\":{\"cursor\":2,\"key\":[]}},\"sourceStats\":{\"recordCount\":1}}}\n{\"type\":\"RECORD\",\"record\":{\"stream\":\"a\",\"data\":{\"v\":3},\"emitted_at\":5}}\n{\"type\":\"STATE\",\"state\":{\"type\":\"STREAM\",\"stream\":{\"stream_descriptor\":{\"name\":\"a\"},\"stream_state\":{\"cursor\":3,\"key\":[]}},\"sourceStats\":{\"recordCount\":1}}}\n{\"type\":\"TRACE\",\"trace\":{\"type\":\"STREAM_STATUS\",\"emitted_at\":5,\"stream_status\":{\"stream_descriptor\":{\"name\":\"a\"},\"status\":\"COMPLETE\"}}}\n0 Ok",
    ),
    (
        "rows behind a state, and not at it",
        &[
            (
                "c",
                r#"{"database":"d","tables":[{"name":"a","schema":{},"every":1}]}"#,
            ),
            (
                "k",
                r#"{"streams":[{"stream":{"name":"a","json_schema":{"type":"object","properties":{"at":{"type":"string","format":"date-time"},"v":{"type":"number"}}}},"sync_mode":"incremental","destination_sync_mode":"append","cursor_field":["v"]}]}"#,
            ),
            (
                "s",
                r#"[{"type":"STREAM","stream":{"stream_descriptor":{"name":"a"},"stream_state":{"cursor":1.00,"key":[]}}}]"#,
            ),
        ],
        &[
            ("a", 1, r#"{"v":2}"#),
            ("a", 2, r#"{"v": 1.0, "s": "x y"}"#),
            ("a", 3, r#"{"v":10e-1}"#),
            ("a", 5, r#"{"v":3}"#),
            ("a", 9, r#"{"v":1}"#),
        ],
        true,
        "{\"type\":\"TRACE\",\"trace\":{\"type\":\"STREAM_STATUS\",\"emitted_at\":5,\"stream_status\":{\"stream_descriptor\":{\"name\":\"a\"},\"status\":\"STARTED\"}}}\n{\"type\":\"RECORD\",\"record\":{\"stream\":\"a\",\"data\":{\"v\":2},\"emitted_at\":5}}\n{\"type\":\"STATE\",\"state\":{\"type\":\"STREAM\",\"stream\":{\"stream_descriptor\":{\"name\":\"a\"},\"stream_state\":{\"cursor\":2,\"key\":[]}},\"sourceStats\":{\"recordCount\":1}}}\n{\"type\":\"RECORD\",\"record\":{\"stream\":\"a\",\"data\":{\"v\":3},\"emitted_at\":5}}\n{\"type\":\"STATE\",\"state\":{\"type\":\"STREAM\",\"stream\":{\"stream_descriptor\":{\"name\":\"a\"},\"stream_state\":{\"cursor\":3,\"key\":[]}},\"sourceStats\":{\"recordCount\":1}}}\n{\"type\":\"TRACE\",\"trace\":{\"type\":\"STREAM_STATUS\",\"emitted_at\":5,\"stream_status\":{\"stream_descriptor\":{\"name\":\"a\"},\"status\":\"COMPLETE\"}}}\n0 Ok",
    ),
    (
        "a state counts the records since the last",
        &[
            (
                "c",
                r#"{"database":"d","tables":[{"name":"a","schema":{},"every":2}]}"#,
            ),
            (
                "k",
                r#"{"streams":[{"stream":{"name":"a","json_schema":{"type":"object","properties":{"at":{"type":"string","format":"date-time"},"v":{"type":"number"}}}},"sync_mode":"incremental","destination_sync_mode":"append","cursor_field":["v"]}]}"#,
            ),
        ],
        &[
            ("a", 1, r#"{"v":2}"#),
            ("a", 2, r#"{"v": 1.0, "s": "x y"}"#),
            ("a", 3, r#"{"v":10e-1}"#),
            ("a", 5, r#"{"v":3}"#),
            ("a", 9, r#"{"v":1}"#),
        ],
        false,
        "{\"type\":\"TRACE\",\"trace\":{\"type\":\"STREAM_STATUS\",\"emitted_at\":5,\"stream_status\":{\"stream_descriptor\":{\"name\":\"a\"},\"status\":\"STARTED\"}}}\n{\"type\":\"RECORD\",\"record\":{\"stream\":\"a\",\"data\":{\"v\":1.0,\"s\":\"x y\"},\"emitted_at\":5}}\n{\"type\":\"RECORD\",\"record\":{\"stream\":\"a\",\"data\":{\"v\":10e-1},\"emitted_at\":5}}\n{\"type\":\"RECORD\",\"record\":{\"stream\":\"a\",\"data\":{\"v\":1},\"emitted_at\":5}}\n{\"type\":\"STATE\",\"state\":{\"type\":\"STREAM\",\"stream\":{\"stream_descriptor\":{\"name\":\"a\"},\"stream_state\":{\"cursor\":1,\"key\":[]}},\"sourceStats\":{\"recordCount\":3}}}\n{\"type\":\"RECORD\",\"record\":{\"stream\":\"a\",\"data\":{\"v\":2},\"emitted_at\":5}}\n{\"type\":\"RECORD\",\"record\":{\"stream\":\"a\",\"data\":{\"v\":3},\"emitted_at\":5}}\n{\"type\":\"STATE\",\"state\":{\"type\":\"STREAM\",\"stream\":{\"stream_descriptor\":{\"name\":\"a\"},\"stream_state\":{\"cursor\":3,\"key\":[]}},\"sourceStats\":{\"recordCount\":2}}}\n{\"type\":\"TRACE\",\"trace\":{\"type\":\"STREAM_STATUS\",\"emitted_at\":5,\"stream_status\":{\"stream_descriptor\":{\"name\":\"a\"},\"status\":\"COMPLETE\"}}}\n0 Ok",
    ),
];

const SECOND: &[Case] = &[
    (
        "behind the last row",
        &[
            (
                "c",
                r#"{"database":"d","tables":[{"name":"a","schema":{}}]}"#,
            ),
            (
                "k",
                r#"{"streams":[{"stream":{"name":"a","json_schema":{"type":"object","properties":{"at":{"type":"string","format":"date-time"},"v":{"type":"number"}}}},"sync_mode":"incremental","destination_sync_mode":"append","cursor_field":["v"]}]}"#,
            ),
            (
                "s",
                r#"[{"type":"STREAM","stream":{"stream_descriptor":{"name":"a"},"stream_state":{"cursor":3,"key":[]}}}]"#,
            ),
        ],
        &[
            ("a", 1, r#"{"v":2}"#),
            ("a", 2, r#"{"v": 1.0, "s": "x y"}"#),
            ("a", 3, r#"{"v":10e-1}"#),
            ("a", 5, r#"{"v":3}"#),
            ("a", 9, r#"{"v":1}"#),
        ],
        true,
        "{\"type\":\"TRACE\",\"trace\":{\"type\":\"STREAM_STATUS\",\"emitted_at\":5,\"stream_status\":{\"stream_descriptor\":{\"name\":\"a\"},\"status\":\"STARTED\"}}}\n{\"type\":\"STATE\",\"state\":{\"type\":\"STREAM\",\"stream\":{\"stream_descriptor\":{\"name\":\"a\"},\"stream_state\":{\"cursor\":3,\"key\":[]}},\"sourceStats\":{\"recordCount\":0}}}\n{\"type\":\"TRACE\",\"trace\":{\"type\":\"STREAM_STATUS\",\"emitted_at\":5,\"stream_status\":{\"stream_descriptor\":{\"name\":\"a\"},\"status\":\"COMPLETE\"}}}\n0 Ok",
    ),
    (
        "behind no row",
        &[
            (
                "c",
                r#"{"database":"d","tables":[{"name":"a","schema":{}}]}"#,
            ),
            (
                "k",
                r#"{"streams":[{"stream":{"name":"a","json_schema":{"type":"object","properties":{"at":{"type":"string","format":"date-time"},"v":{"type":"number"}}}},"sync_mode":"incremental","destination_sync_mode":"append","cursor_field":["v"]}]}"#,
            ),
            (
                "s",
                r#"[{"type":"STREAM","stream":{"stream_descriptor":{"name":"a"},"stream_state":{}}}]"#,
            ),
        ],
        &[
            ("a", 1, r#"{"v":2}"#),
            ("a", 2, r#"{"v": 1.0, "s": "x y"}"#),
            ("a", 3, r#"{"v":10e-1}"#),
            ("a", 5, r#"{"v":3}"#),
            ("a", 9, r#"{"v":1}"#),
        ],
        true,
        "{\"type\":\"TRACE\",\"trace\":{\"type\":\"STREAM_STATUS\",\"emitted_at\":5,\"stream_status\":{\"stream_descriptor\":{\"name\":\"a\"},\"status\":\"STARTED\"}}}\n{\"type\":\"RECORD\",\"record\":{\"stream\":\"a\",\"data\":{\"v\":1.0,\"s\":\"x y\"},\"emitted_at\":5}}\n{\"type\":\"RECORD\",\"record\":{\"stream\":\"a\",\"data\":{\"v\":10e-1},\"emitted_at\":5}}\n{\"type\":\"RECORD\",\"record\":{\"stream\":\"a\",\"data\":{\"v\":1},\"emitted_at\":5}}\n{\"type\":\"RECORD\",\"record\":{\"stream\":\"a\",\"data\":{\"v\":2},\"emitted_at\":5}}\n{\"type\":\"RECORD\",\"record\":{\"stream\":\"a\",\"data\":{\"v\":3},\"emitted_at\":5}}\n{\"type\":\"STATE\",\"state\":{\"type\":\"STREAM\",\"stream\":{\"stream_descriptor\":{\"name\":\"a\"},\"stream_state\":{\"cursor\":3,\"key\":[]}},\"sourceStats\":{\"recordCount\":5}}}\n{\"type\":\"TRACE\",\"trace\":{\"type\":\"STREAM_STATUS\",\"emitted_at\":5,\"stream_status\":{\"stream_descriptor\":{\"name\":\"a\"},\"status\":\"COMPLETE\"}}}\n0 Ok",
    ),
    (
        "no rows",
        &[
            (
                "c",
                r#"{"database":"d","tables":[{"name":"a","schema":{}}]}"#,
            ),
            (
                "k",
                r#"{"streams":[{"stream":{"name":"a","json_schema":{"type":"object","properties":{"at":{"type":"string","format":"date-time"},"v":{"type":"number"}}}},"sync_mode":"incremental","destination_sync_mode":"append","cursor_field":["v"]}]}"#,
            ),
        ],
        &[("b", 1, r#"{}"#)],
        false,
        "{\"type\":\"TRACE\",\"trace\":{\"type\":\"STREAM_STATUS\",\"emitted_at\":5,\"stream_status\":{\"stream_descriptor\":{\"name\":\"a\"},\"status\":\"STARTED\"}}}\n{\"type\":\"STATE\",\"state\":{\"type\":\"STREAM\",\"stream\":{\"stream_descriptor\":{\"name\":\"a\"},\"stream_state\":{}},\"sourceStats\":{\"recordCount\":0}}}\n{\"type\":\"TRACE\",\"trace\":{\"type\":\"STREAM_STATUS\",\"emitted_at\":5,\"stream_status\":{\"stream_descriptor\":{\"name\":\"a\"},\"status\":\"COMPLETE\"}}}\n0 Ok",
    ),
    (
        "a blob of another length of key",
        &[
            (
                "c",
                r#"{"database":"d","tables":[{"name":"users","schema":{}}]}"#,
            ),
            (
                "k",
                r#"{"streams":[{"stream":{"name":"users","json_schema":{"type":"object","properties":{"id":{"type":"integer"},"name":{"type":["null","string"]},"updated_at":{"type":["null","string"],"format":"date-time"}}},"supported_sync_modes":["full_refresh","incremental"]},"sync_mode":"incremental","destination_sync_mode":"append_dedup","cursor_field":["updated_at"],"primary_key":[["id"]]}]}"#,
            ),
            (
                "s",
                r#"[{"type":"STREAM","stream":{"stream_descriptor":{"name":"users"},"stream_state":{"cursor":null,"key":[1,2]}}}]"#,
            ),
        ],
        &[
            (
                "users",
                1,
                r#"{"id":1,"name":"Zoë","updated_at":"2024-05-01T10:00:00Z"}"#,
            ),
            (
                "users",
                2,
                r#"{"id":2,"name":"李雷","updated_at":"2024-05-01T09:00:00Z"}"#,
            ),
            ("users", 3, r#"{"id":3,"name":"Ann","updated_at":null}"#),
        ],
        true,
        "12 BadState Blob",
    ),
    (
        "a blob with its members the other way round",
        &[
            (
                "c",
                r#"{"database":"d","tables":[{"name":"users","schema":{},"every":1}]}"#,
            ),
            (
                "k",
                r#"{"streams":[{"stream":{"name":"users","json_schema":{"type":"object","properties":{"id":{"type":"integer"},"name":{"type":["null","string"]},"updated_at":{"type":["null","string"],"format":"date-time"}}},"supported_sync_modes":["full_refresh","incremental"]},"sync_mode":"incremental","destination_sync_mode":"append_dedup","cursor_field":["updated_at"],"primary_key":[["id"]]}]}"#,
            ),
            (
                "s",
                r#"[{"type":"STREAM","stream":{"stream_descriptor":{"name":"users"},"stream_state":{ "key": [3], "cursor": null }}}]"#,
            ),
        ],
        &[
            (
                "users",
                1,
                r#"{"id":1,"name":"Zoë","updated_at":"2024-05-01T10:00:00Z"}"#,
            ),
            (
                "users",
                2,
                r#"{"id":2,"name":"李雷","updated_at":"2024-05-01T09:00:00Z"}"#,
            ),
            ("users", 3, r#"{"id":3,"name":"Ann","updated_at":null}"#),
        ],
        true,
        "{\"type\":\"TRACE\",\"trace\":{\"type\":\"STREAM_STATUS\",\"emitted_at\":5,\"stream_status\":{\"stream_descriptor\":{\"name\":\"users\"},\"status\":\"STARTED\"}}}\n{\"type\":\"RECORD\",\"record\":{\"stream\":\"users\",\"data\":{\"id\":2,\"name\":\"李雷\",\"updated_at\":\"2024-05-01T09:00:00Z\"},\"emitted_at\":5}}\n{\"type\":\"STATE\",\"state\":{\"type\":\"STREAM\",\"stream\":{\"stream_descriptor\":{\"name\":\"users\"},\"stream_state\":{\"cursor\":\"2024-05-01T09:00:00Z\",\"key\":[2]}},\"sourceStats\":{\"recordCount\":1}}}\n{\"type\":\"RECORD\",\"record\":{\"stream\":\"users\",\"data\":{\"id\":1,\"name\":\"Zoë\",\"updated_at\":\"2024-05-01T10:00:00Z\"},\"emitted_at\":5}}\n{\"type\":\"STATE\",\"state\":{\"type\":\"STREAM\",\"stream\":{\"stream_descriptor\":{\"name\":\"users\"},\"stream_state\":{\"cursor\":\"2024-05-01T10:00:00Z\",\"key\":[1]}},\"sourceStats\":{\"recordCount\":1}}}\n{\"type\":\"TRACE\",\"trace\":{\"type\":\"STREAM_STATUS\",\"emitted_at\":5,\"stream_status\":{\"stream_descriptor\":{\"name\":\"users\"},\"status\":\"COMPLETE\"}}}\n0 Ok",
    ),
    (
        "a blob of three members",
        &[
            (
                "c",
                r#"{"database":"d","tables":[{"name":"users","schema":{}}]}"#,
            ),
            (
                "k",
                r#"{"streams":[{"stream":{"name":"users","json_schema":{"type":"object","properties":{"id":{"type":"integer"},"name":{"type":["null","string"]},"updated_at":{"type":["null","string"],"format":"date-time"}}},"supported_sync_modes":["full_refresh","incremental"]},"sync_mode":"incremental","destination_sync_mode":"append_dedup","cursor_field":["updated_at"],"primary_key":[["id"]]}]}"#,
            ),
            (
                "s",
                r#"[{"type":"STREAM","stream":{"stream_descriptor":{"name":"users"},"stream_state":{"cursor":null,"key":[3],"x":1}}}]"#,
            ),
        ],
        &[
            (
                "users",
                1,
                r#"{"id":1,"name":"Zoë","updated_at":"2024-05-01T10:00:00Z"}"#,
            ),
            (
                "users",
                2,
                r#"{"id":2,"name":"李雷","updated_at":"2024-05-01T09:00:00Z"}"#,
            ),
            ("users", 3, r#"{"id":3,"name":"Ann","updated_at":null}"#),
        ],
        true,
        "12 BadState Blob",
    ),
];

const THIRD: &[Case] = &[
    (
        "an instant in another zone",
        &[
            (
                "c",
                r#"{"database":"d","tables":[{"name":"users","schema":{},"every":1}]}"#,
            ),
            (
                "k",
                r#"{"streams":[{"stream":{"name":"users","json_schema":{"type":"object","properties":{"id":{"type":"integer"},"name":{"type":["null","string"]},"updated_at":{"type":["null","string"],"format":"date-time"}}},"supported_sync_modes":["full_refresh","incremental"]},"sync_mode":"incremental","destination_sync_mode":"append_dedup","cursor_field":["updated_at"],"primary_key":[["id"]]}]}"#,
            ),
            (
                "s",
                r#"[{"type":"STREAM","stream":{"stream_descriptor":{"name":"users"},"stream_state":{"cursor":"2024-05-01T11:00:00+02:00","key":[1]}}}]"#,
            ),
        ],
        &[
            (
                "users",
                1,
                r#"{"id":1,"name":"Zoë","updated_at":"2024-05-01T10:00:00Z"}"#,
            ),
            (
                "users",
                2,
                r#"{"id":2,"name":"李雷","updated_at":"2024-05-01T09:00:00Z"}"#,
            ),
            ("users", 3, r#"{"id":3,"name":"Ann","updated_at":null}"#),
        ],
        true,
        "{\"type\":\"TRACE\",\"trace\":{\"type\":\"STREAM_STATUS\",\"emitted_at\":5,\"stream_status\":{\"stream_descriptor\":{\"name\":\"users\"},\"status\":\"STARTED\"}}}\n{\"type\":\"RECORD\",\"record\":{\"stream\":\"users\",\"data\":{\"id\":2,\"name\":\"李雷\",\"updated_at\":\"2024-05-01T09:00:00Z\"},\"emitted_at\":5}}\n{\"type\":\"STATE\",\"state\":{\"type\":\"STREAM\",\"stream\":{\"stream_descriptor\":{\"name\":\"users\"},\"stream_state\":{\"cursor\":\"2024-05-01T09:00:00Z\",\"key\":[2]}},\"sourceStats\":{\"recordCount\":1}}}\n{\"type\":\"RECORD\",\"record\":{\"stream\":\"users\",\"data\":{\"id\":1,\"name\":\"Zoë\",\"updated_at\":\"2024-05-01T10:00:00Z\"},\"emitted_at\":5}}\n{\"type\":\"STATE\",\"state\":{\"type\":\"STREAM\",\"stream\":{\"stream_descriptor\":{\"name\":\"users\"},\"stream_state\":{\"cursor\":\"2024-05-01T10:00:00Z\",\"key\":[1]}},\"sourceStats\":{\"recordCount\":1}}}\n{\"type\":\"TRACE\",\"trace\":{\"type\":\"STREAM_STATUS\",\"emitted_at\":5,\"stream_status\":{\"stream_descriptor\":{\"name\":\"users\"},\"status\":\"COMPLETE\"}}}\n0 Ok",
    ),
    (
        "values of every class",
        &[
            (
                "c",
                r#"{"database":"d","tables":[{"name":"a","schema":{},"every":3}]}"#,
            ),
            (
                "k",
                r#"{"streams":[{"stream":{"name":"a","json_schema":{"type":"object","properties":{"at":{"type":"string","format":"date-time"},"v":{"type":"number"}}}},"sync_mode":"incremental","destination_sync_mode":"append","cursor_field":["v"]}]}"#,
            ),
        ],
        &[
            ("a", 1, r#"{"v":"b"}"#),
            ("a", 2, r#"{"v":{"x":1}}"#),
            ("a", 3, r#"{"v":true}"#),
            ("a", 4, r#"{"v":-7.5}"#),
            ("a", 5, r#"{"v":null}"#),
            ("a", 6, r#"{}"#),
            ("a", 7, r#"{"v":false}"#),
            ("a", 8, r#"{"v":"a"}"#),
            ("a", 9, r#"{"v":12345678901234567890}"#),
            ("a", 10, r#"{"v":[1, 2]}"#),
        ],
        false,
        "{\"type\":\"TRACE\",\"trace\":{\"type\":\"STREAM_STATUS\",\"emitted_at\":5,\"stream_status\":{\"stream_descriptor\":{\"name\":\"a\"},\"status\":\"STARTED\"}}}\n{\"type\":\"RECORD\",\"record\":{\"stream\":\"a\",\"data\":{\"v\":null},\"emitted_at\":5}}\n{\"type\":\"RECORD\",\"record\":{\"stream\":\"a\",\"data\":{},\"emitted_at\":5}}\n{\"type\":\"RECORD\",\"record\":{\"stream\":\"a\",\"data\":{\"v\":false},\"emitted_at\":5}}\n{\"type\":\"STATE\",\"state\":{\"type\":\"STREAM\",\"stream\":{\"stream_descriptor\":{\"name\":\"a\"},\"stream_state\":{\"cursor\":false,\"key\":[]}},\"sourceStats\":{\"recordCount\":3}}}\n{\"type\":\"RECORD\",\"record\":{\"stream\":\"a\",\"data\":{\"v\":true},\"emitted_at\":5}}\n{\"type\":\"RECORD\",\"record\":{\"stream\":\"a\",\"data\":{\"v\":-7.5},\"emitted_at\":5}}\n{\"type\":\"RECORD\",\"record\":{\"stream\":\"a\",\"data\":{\"v\":12345678901234567890},\"emitted_at\":5}}\n{\"type\":\"STATE\",\"state\":{\"type\":\"STREAM\",\"stream\":{\"stream_descriptor\":{\"name\":\"a\"},\"stream_state\":{\"cursor\":12345678901234567890,\"key\":[]}},\"sourceStats\":{\"recordCount\":3}}}\n{\"type\":\"RECORD\",\"record\":{\"stream\":\"a\",\"data\":{\"v\":\"a\"},\"emitted_at\":5}}\n{\"type\":\"RECORD\",\"record\":{\"stream\":\"a\",\"data\":{\"v\":\"b\"},\"emitted_at\":5}}\n{\"type\":\"RECORD\",\"record\":{\"stream\":\"a\",\"data\":{\"v\":[1,2]},\"emitted_at\":5}}\n{\"type\":\"STATE\",\"state\":{\"type\":\"STREAM\",\"stream\":{\"stream_descriptor\":{\"name\":\"a\"},\"stream_state\":{\"cursor\":[1,2],\"key\":[]}},\"sourceStats\":{\"recordCount\":3}}}\n{\"type\":\"RECORD\",\"record\":{\"stream\":\"a\",\"data\":{\"v\":{\"x\":1}},\"emitted_at\":5}}\n{\"type\":\"STATE\",\"state\":{\"type\":\"STREAM\",\"stream\":{\"stream_descriptor\":{\"name\":\"a\"},\"stream_state\":{\"cursor\":{\"x\":1},\"key\":[]}},\"sourceStats\":{\"recordCount\":1}}}\n{\"type\":\"TRACE\",\"trace\":{\"type\":\"STREAM_STATUS\",\"emitted_at\":5,\"stream_status\":{\"stream_descriptor\":{\"name\":\"a\"},\"status\":\"COMPLETE\"}}}\n0 Ok",
    ),
    (
        "instants",
        &[
            (
                "c",
                r#"{"database":"d","tables":[{"name":"a","schema":{},"every":1}]}"#,
            ),
            (
                "k",
                r#"{"streams":[{"stream":{"name":"a","json_schema":{"type":"object","properties":{"at":{"type":"string","format":"date-time"},"v":{"type":"number"}}}},"sync_mode":"incremental","destination_sync_mode":"append","cursor_field":["at"]}]}"#,
            ),
        ],
        &[
            ("a", 1, r#"{"at":"2024-01-01T02:00:00+02:00"}"#),
            ("a", 2, r#"{"at":"2024-01-01T00:00:00Z"}"#),
            ("a", 3, r#"{"at":"2023-12-31T23:59:59Z"}"#),
            ("a", 4, r#"{"at":"soon"}"#),
        ],
        false,
        "{\"type\":\"TRACE\",\"trace\":{\"type\":\"STREAM_STATUS\",\"emitted_at\":5,\"stream_status\":{\"stream_descriptor\":{\"name\":\"a\"},\"status\":\"STARTED\"}}}\n{\"type\":\"RECORD\",\"record\":{\"stream\":\"a\",\"data\":{\"at\":\"soon\"},\"emitted_at\":5}}\n{\"type\":\"STATE\",\"state\":{\"type\":\"STREAM\",\"stream\":{\"stream_descriptor\":{\"name\":\"a\"},\"stream_state\":{\"cursor\":\"soon\",\"key\":[]}},\"sourceStats\":{\"recordCount\":1}}}\n{\"type\":\"RECORD\",\"record\":{\"stream\":\"a\",\"data\":{\"at\":\"2023-12-31T23:59:59Z\"},\"emitted_at\":5}}\n{\"type\":\"STATE\",\"state\":{\"type\":\"STREAM\",\"stream\":{\"stream_descriptor\":{\"name\":\"a\"},\"stream_state\":{\"cursor\":\"2023-12-31T23:59:59Z\",\"key\":[]}},\"sourceStats\":{\"recordCount\":1}}}\n{\"type\":\"RECORD\",\"record\":{\"stream\":\"a\",\"data\":{\"at\":\"2024-01-01T02:00:00+02:00\"},\"emitted_at\":5}}\n{\"type\":\"RECORD\",\"record\":{\"stream\":\"a\",\"data\":{\"at\":\"2024-01-01T00:00:00Z\"},\"emitted_at\":5}}\n{\"type\":\"STATE\",\"state\":{\"type\":\"STREAM\",\"stream\":{\"stream_descriptor\":{\"name\":\"a\"},\"stream_state\":{\"cursor\":\"2024-01-01T00:00:00Z\",\"key\":[]}},\"sourceStats\":{\"recordCount\":2}}}\n{\"type\":\"TRACE\",\"trace\":{\"type\":\"STREAM_STATUS\",\"emitted_at\":5,\"stream_status\":{\"stream_descriptor\":{\"name\":\"a\"},\"status\":\"COMPLETE\"}}}\n0 Ok",
    ),
    (
        "without a cursor or a key",
        &[
            (
                "c",
                r#"{"database":"d","tables":[{"name":"a","schema":{},"every":2}]}"#,
            ),
            (
                "k",
                r#"{"streams":[{"stream":{"name":"a","json_schema":{"type":"object","properties":{"at":{"type":"string","format":"date-time"},"v":{"type":"number"}}}},"sync_mode":"incremental","destination_sync_mode":"append"}]}"#,
            ),
        ],
        &[
            ("a", 1, r#"{"v":2}"#),
            ("a", 2, r#"{"v": 1.0, "s": "x y"}"#),
            ("a", 3, r#"{"v":10e-1}"#),
            ("a", 5, r#"{"v":3}"#),
            ("a", 9, r#"{"v":1}"#),
        ],
        false,
        "{\"type\":\"TRACE\",\"trace\":{\"type\":\"STREAM_STATUS\",\"emitted_at\":5,\"stream_status\":{\"stream_descriptor\":{\"name\":\"a\"},\"status\":\"STARTED\"}}}\n{\"type\":\"RECORD\",\"record\":{\"stream\":\"a\",\"data\":{\"v\":2},\"emitted_at\":5}}\n{\"type\":\"RECORD\",\"record\":{\"stream\":\"a\",\"data\":{\"v\":1.0,\"s\":\"x y\"},\"emitted_at\":5}}\n{\"type\":\"RECORD\",\"record\":{\"stream\":\"a\",\"data\":{\"v\":10e-1},\"emitted_at\":5}}\n{\"type\":\"RECORD\",\"record\":{\"stream\":\"a\",\"data\":{\"v\":3},\"emitted_at\":5}}\n{\"type\":\"RECORD\",\"record\":{\"stream\":\"a\",\"data\":{\"v\":1},\"emitted_at\":5}}\n{\"type\":\"STATE\",\"state\":{\"type\":\"STREAM\",\"stream\":{\"stream_descriptor\":{\"name\":\"a\"},\"stream_state\":{\"cursor\":null,\"key\":[]}},\"sourceStats\":{\"recordCount\":5}}}\n{\"type\":\"TRACE\",\"trace\":{\"type\":\"STREAM_STATUS\",\"emitted_at\":5,\"stream_status\":{\"stream_descriptor\":{\"name\":\"a\"},\"status\":\"COMPLETE\"}}}\n0 Ok",
    ),
    (
        "without a cursor, by key",
        &[
            (
                "c",
                r#"{"database":"d","tables":[{"name":"a","schema":{},"every":1}]}"#,
            ),
            (
                "k",
                r#"{"streams":[{"stream":{"name":"a","json_schema":{"type":"object","properties":{"at":{"type":"string","format":"date-time"},"v":{"type":"number"}}}},"sync_mode":"incremental","destination_sync_mode":"append","primary_key":[["v"],["s"]]}]}"#,
            ),
        ],
        &[
            ("a", 1, r#"{"v":2}"#),
            ("a", 2, r#"{"v": 1.0, "s": "x y"}"#),
            ("a", 3, r#"{"v":10e-1}"#),
            ("a", 5, r#"{"v":3}"#),
            ("a", 9, r#"{"v":1}"#),
        ],
        false,
        "{\"type\":\"TRACE\",\"trace\":{\"type\":\"STREAM_STATUS\",\"emitted_at\":5,\"stream_status\":{\"stream_descriptor\":{\"name\":\"a\"},\"status\":\"STARTED\"}}}\n{\"type\":\"RECORD\",\"record\":{\"stream\":\"a\",\"data\":{\"v\":10e-1},\"emitted_at\":5}}\n{\"type\":\"RECORD\",\"record\":{\"stream\":\"a\",\"data\":{\"v\":1},\"emitted_at\":5}}\n{\"type\":\"STATE\",\"state\":{\"type\":\"STREAM\",\"stream\":{\"stream_descriptor\":{\"name\":\"a\"},\"stream_state\":{\"cursor\":null,\"key\":[1,null]}},\"sourceStats\":{\"recordCount\":2}}}\n{\"type\":\"RECORD\",\"record\":{\"stream\":\"a\",\"data\":{\"v\":1.0,\"s\":\"x y\"},\"emitted_at\":5}}\n{\"type\":\"STATE\",\"state\":{\"type\":\"STREAM\",\"stream\":{\"stream_descriptor\":{\"name\":\"a\"},\"stream_state\":{\"cursor\":null,\"key\":[1.0,\"x y\"]}},\"sourceStats\":{\"recordCount\":1}}}\n{\"type\":\"RECORD\",\"record\":{\"stream\":\"a\",\"data\":{\"v\":2},\"emitted_at\":5}}\n{\"type\":\"STATE\",\"state\":{\"type\":\"STREAM\",\"stream\":{\"stream_descriptor\":{\"name\":\"a\"},\"stream_state\":{\"cursor\":null,\"key\":[2,null]}},\"sourceStats\":{\"recordCount\":1}}}\n{\"type\":\"RECORD\",\"record\":{\"stream\":\"a\",\"data\":{\"v\":3},\"emitted_at\":5}}\n{\"type\":\"STATE\",\"state\":{\"type\":\"STREAM\",\"stream\":{\"stream_descriptor\":{\"name\":\"a\"},\"stream_state\":{\"cursor\":null,\"key\":[3,null]}},\"sourceStats\":{\"recordCount\":1}}}\n{\"type\":\"TRACE\",\"trace\":{\"type\":\"STREAM_STATUS\",\"emitted_at\":5,\"stream_status\":{\"stream_descriptor\":{\"name\":\"a\"},\"status\":\"COMPLETE\"}}}\n0 Ok",
    ),
    (
        "a stream with a namespace",
        &[
            (
                "c",
                r#"{"database":"d","tables":[{"name":"a","schema":{}}]}"#,
            ),
            (
                "k",
                r#"{"streams":[{"stream":{"name":"a","namespace":"n","json_schema":{}},"sync_mode":"incremental","destination_sync_mode":"append"}]}"#,
            ),
        ],
        &[
            ("a", 1, r#"{"v":2}"#),
            ("a", 2, r#"{"v": 1.0, "s": "x y"}"#),
            ("a", 3, r#"{"v":10e-1}"#),
            ("a", 5, r#"{"v":3}"#),
            ("a", 9, r#"{"v":1}"#),
        ],
        false,
        "11 BadCatalog Missing stream 0",
    ),
];

const FOURTH: &[Case] = &[
    (
        "a stream that is no table",
        &[
            (
                "c",
                r#"{"database":"d","tables":[{"name":"a","schema":{}}]}"#,
            ),
            (
                "k",
                r#"{"streams":[{"stream":{"name":"a","json_schema":{"type":"object","properties":{"at":{"type":"string","format":"date-time"},"v":{"type":"number"}}}},"sync_mode":"incremental","destination_sync_mode":"append"},{"stream":{"name":"b","json_schema":{"type":"object","properties":{"at":{"type":"string","format":"date-time"},"v":{"type":"number"}}}},"sync_mode":"incremental","destination_sync_mode":"append"}]}"#,
            ),
        ],
        &[
            ("a", 1, r#"{"v":2}"#),
            ("a", 2, r#"{"v": 1.0, "s": "x y"}"#),
            ("a", 3, r#"{"v":10e-1}"#),
            ("a", 5, r#"{"v":3}"#),
            ("a", 9, r#"{"v":1}"#),
        ],
        false,
        "11 BadCatalog Missing stream 1",
    ),
    (
        "of two tables with one name the first counts",
        &[
            (
                "c",
                r#"{"database":"d","tables":[{"name":"a","schema":{},"every":1},{"name":"a","schema":{},"every":2}]}"#,
            ),
            (
                "k",
                r#"{"streams":[{"stream":{"name":"a","json_schema":{"type":"object","properties":{"at":{"type":"string","format":"date-time"},"v":{"type":"number"}}}},"sync_mode":"incremental","destination_sync_mode":"append","cursor_field":["v"]}]}"#,
            ),
        ],
        &[
            ("a", 1, r#"{"v":2}"#),
            ("a", 2, r#"{"v": 1.0, "s": "x y"}"#),
            ("a", 3, r#"{"v":10e-1}"#),
            ("a", 5, r#"{"v":3}"#),
            ("a", 9, r#"{"v":1}"#),
        ],
        false,
        "{\"type\":\"TRACE\",\"trace\":{\"type\":\"STREAM_STATUS\",\"emitted_at\":5,\"stream_status\":{\"stream_descriptor\":{\"name\":\"a\"},\"status\":\"STARTED\"}}}\n{\"type\":\"RECORD\",\"record\":{\"stream\":\"a\",\"data\":{\"v\":1.0,\"s\":\"x y\"},\"emitted_at\":5}}\n{\"type\":\"RECORD\",\"record\":{\"stream\":\"a\",\"data\":{\"v\":10e-1},\"emitted_at\":5}}\n{\"type\":\"RECORD\",\"record\":{\"stream\":\"a\",\"data\":{\"v\":1},\"emitted_at\":5}}\n{\"type\":\"STATE\",\"state\":{\"type\":\"STREAM\",\"stream\":{\"stream_descriptor\":{\"name\":\"a\"},\"stream_state\":{\"cursor\":1,\"key\":[]}},\"sourceStats\":{\"recordCount\":3}}}\n{\"type\":\"RECORD\",\"record\":{\"stream\":\"a\",\"data\":{\"v\":2},\"emitted_at\":5}}\n{\"type\":\"STATE\",\"state\":{\"type\":\"STREAM\",\"stream\":{\"stream_descriptor\":{\"name\":\"a\"},\"stream_state\":{\"cursor\":2,\"key\":[]}},\"sourceStats\":{\"recordCount\":1}}}\n{\"type\":\"RECORD\",\"record\":{\"stream\":\"a\",\"data\":{\"v\":3},\"emitted_at\":5}}\n{\"type\":\"STATE\",\"state\":{\"type\":\"STREAM\",\"stream\":{\"stream_descriptor\":{\"name\":\"a\"},\"stream_state\":{\"cursor\":3,\"key\":[]}},\"sourceStats\":{\"recordCount\":1}}}\n{\"type\":\"TRACE\",\"trace\":{\"type\":\"STREAM_STATUS\",\"emitted_at\":5,\"stream_status\":{\"stream_descriptor\":{\"name\":\"a\"},\"status\":\"COMPLETE\"}}}\n0 Ok",
    ),
    (
        "two streams, the second with a row that is none",
        &[
            (
                "c",
                r#"{"database":"d","tables":[{"name":"b","schema":{}},{"name":"a","schema":{},"every":2}]}"#,
            ),
            (
                "k",
                r#"{"streams":[{"stream":{"name":"a","json_schema":{"type":"object","properties":{"at":{"type":"string","format":"date-time"},"v":{"type":"number"}}}},"sync_mode":"incremental","destination_sync_mode":"append","cursor_field":["v"]},{"stream":{"name":"b","json_schema":{"type":"object","properties":{"at":{"type":"string","format":"date-time"},"v":{"type":"number"}}}},"sync_mode":"incremental","destination_sync_mode":"append","cursor_field":["v"]}]}"#,
            ),
        ],
        &[
            ("a", 1, r#"{"v":2}"#),
            ("a", 2, r#"{"v": 1.0, "s": "x y"}"#),
            ("a", 3, r#"{"v":10e-1}"#),
            ("a", 5, r#"{"v":3}"#),
            ("a", 9, r#"{"v":1}"#),
            ("b", 10, r#"{"v":1}"#),
            ("b", 11, r#"{"v":"#),
        ],
        false,
        "{\"type\":\"TRACE\",\"trace\":{\"type\":\"STREAM_STATUS\",\"emitted_at\":5,\"stream_status\":{\"stream_descriptor\":{\"name\":\"a\"},\"status\":\"STARTED\"}}}\n{\"type\":\"RECORD\",\"record\":{\"stream\":\"a\",\"data\":{\"v\":1.0,\"s\":\"x y\"},\"emitted_at\":5}}\n{\"type\":\"RECORD\",\"record\":{\"stream\":\"a\",\"data\":{\"v\":10e-1},\"emitted_at\":5}}\n{\"type\":\"RECORD\",\"record\":{\"stream\":\"a\",\"data\":{\"v\":1},\"emitted_at\":5}}\n{\"type\":\"STATE\",\"state\":{\"type\":\"STREAM\",\"stream\":{\"stream_descriptor\":{\"name\":\"a\"},\"stream_state\":{\"cursor\":1,\"key\":[]}},\"sourceStats\":{\"recordCount\":3}}}\n{\"type\":\"RECORD\",\"record\":{\"stream\":\"a\",\"data\":{\"v\":2},\"emitted_at\":5}}\n{\"type\":\"RECORD\",\"record\":{\"stream\":\"a\",\"data\":{\"v\":3},\"emitted_at\":5}}\n{\"type\":\"STATE\",\"state\":{\"type\":\"STREAM\",\"stream\":{\"stream_descriptor\":{\"name\":\"a\"},\"stream_state\":{\"cursor\":3,\"key\":[]}},\"sourceStats\":{\"recordCount\":2}}}\n{\"type\":\"TRACE\",\"trace\":{\"type\":\"STREAM_STATUS\",\"emitted_at\":5,\"stream_status\":{\"stream_descriptor\":{\"name\":\"a\"},\"status\":\"COMPLETE\"}}}\n9 BadRow stream 1 row 11",
    ),
    (
        "a row as deep as one may be",
        &[
            (
                "c",
                r#"{"database":"d","tables":[{"name":"a","schema":{}}]}"#,
            ),
            (
                "k",
                r#"{"streams":[{"stream":{"name":"a","json_schema":{"type":"object","properties":{"at":{"type":"string","format":"date-time"},"v":{"type":"number"}}}},"sync_mode":"incremental","destination_sync_mode":"append"}]}"#,
            ),
        ],
        &[(
            "a",
            1,
            r#"{"v":[[[[[[[[[[[[[[[[[[[[[[[[[[[[[[[[[[[[[[[[[[[[[[[[[[[[[[[[[[[[[[[[[[[[[[[[[[[[[[[[[[[[[[[[[[[[[[[[[[[]]]]]]]]]]]]]]]]]]]]]]]]]]]]]]]]]]]]]]]]]]]]]]]]]]]]]]]]]]]]]]]]]]]]]]]]]]]]]]]]]]]]]]]]]]]]]]]]]]]}"#,
        )],
        false,
        "{\"type\":\"TRACE\",\"trace\":{\"type\":\"STREAM_STATUS\",\"emitted_at\":5,\"stream_status\":{\"stream_descriptor\":{\"name\":\"a\"},\"status\":\"STARTED\"}}}\n{\"type\":\"RECORD\",\"record\":{\"stream\":\"a\",\"data\":{\"v\":[[[[[[[[[[[[[[[[[[[[[[[[[[[[[[[[[[[[[[[[[[[[[[[[[[[[[[[[[[[[[[[[[[[[[[[[[[[[[[[[[[[[[[[[[[[[[[[[[[[]]]]]]]]]]]]]]]]]]]]]]]]]]]]]]]]]]]]]]]]]]]]]]]]]]]]]]]]]]]]]]]]]]]]]]]]]]]]]]]]]]]]]]]]]]]]]]]]]]]},\"emitted_at\":5}}\n{\"type\":\"STATE\",\"state\":{\"type\":\"STREAM\",\"stream\":{\"stream_descriptor\":{\"name\":\"a\"},\"stream_state\":{\"cursor\":null,\"key\":[]}},\"sourceStats\":{\"recordCount\":1}}}\n{\"type\":\"TRACE\",\"trace\":{\"type\":\"STREAM_STATUS\",\"emitted_at\":5,\"stream_status\":{\"stream_descriptor\":{\"name\":\"a\"},\"status\":\"COMPLETE\"}}}\n0 Ok",
    ),
    (
        "a row that is too deep",
        &[
            (
                "c",
                r#"{"database":"d","tables":[{"name":"a","schema":{}}]}"#,
            ),
            (
                "k",
                r#"{"streams":[{"stream":{"name":"a","json_schema":{"type":"object","properties":{"at":{"type":"string","format":"date-time"},"v":{"type":"number"}}}},"sync_mode":"incremental","destination_sync_mode":"append"}]}"#,
            ),
        ],
        &[
            ("a", 1, r#"{}"#),
            (
                "a",
                4,
                r#"{"v":[[[[[[[[[[[[[[[[[[[[[[[[[[[[[[[[[[[[[[[[[[[[[[[[[[[[[[[[[[[[[[[[[[[[[[[[[[[[[[[[[[[[[[[[[[[[[[[[[[[[]]]]]]]]]]]]]]]]]]]]]]]]]]]]]]]]]]]]]]]]]]]]]]]]]]]]]]]]]]]]]]]]]]]]]]]]]]]]]]]]]]]]]]]]]]]]]]]]]]]]}"#,
            ),
        ],
        false,
        "9 BadRow stream 0 row 4",
    ),
];

// The first of these that says something else.
fn first_wrong(alloc: Global, cases: &[Case]) -> Result<Option<&'static str>, NoMemory> {
    for (what, texts, rows, from, want) in cases {
        let words = if *from { READ_FROM } else { READ };
        match run(alloc, texts, rows, words, &[], &[])? {
            Some(found) if found.as_slice() == want.as_bytes() => {}
            _ => return Ok(Some(*what)),
        }
    }
    Ok(None)
}

fn wrong_first(alloc: Global) -> Result<Option<&'static str>, NoMemory> {
    first_wrong(alloc, FIRST)
}

fn wrong_second(alloc: Global) -> Result<Option<&'static str>, NoMemory> {
    first_wrong(alloc, SECOND)
}

fn wrong_third(alloc: Global) -> Result<Option<&'static str>, NoMemory> {
    first_wrong(alloc, THIRD)
}

fn wrong_fourth(alloc: Global) -> Result<Option<&'static str>, NoMemory> {
    first_wrong(alloc, FOURTH)
}

#[test]
fn tables_are_read(rt: HostRuntime) -> Result<(), Fail> {
    assert_eq!(rt; wrong_first(rt.alloc())?, None);
    assert_eq!(rt; wrong_second(rt.alloc())?, None);
    assert_eq!(rt; wrong_third(rt.alloc())?, None);
    assert_eq!(rt; wrong_fourth(rt.alloc())?, None);
    Ok(())
}
