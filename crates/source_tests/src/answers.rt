// The commands `spec`, `check` and `discover`.
use crate::runs::{Text, run};
use std::test::Fail;

// The texts, the words, the calls that fail, and what is said with the status behind it.
type Case = (
    &'static str,
    &'static [Text],
    &'static [&'static str],
    &'static [u64],
    &'static str,
);

const CHECK: &[&str] = &["check", "--config", "c"];

const DISCOVER: &[&str] = &["discover", "--config", "c"];

const TWO: &[u8] = br#"{"files":[{"name":"a","path":"x"},{"name":"b","path":"y","every":5}]}"#;

const CASES: &[Case] = &[
    (
        "spec",
        &[],
        &["spec"],
        &[],
        "{\"type\":\"SPEC\",\"spec\":{\"connectionSpecification\":{\"type\":\"object\",\"required\":[\"files\"]}}}\n0 Ok",
    ),
    ("a word too many", &[], &["spec", "x"], &[], "2 Usage"),
    ("no words", &[], &[], &[], "2 Usage"),
    (
        "write",
        &[],
        &["write", "--config", "c", "--catalog", "k"],
        &[],
        "2 Usage",
    ),
    (
        "the pipe breaks at the line",
        &[],
        &["spec"],
        &[1],
        "7 WriteFault",
    ),
    (
        "the pipe breaks at the last flush",
        &[],
        &["spec"],
        &[2],
        "{\"type\":\"SPEC\",\"spec\":{\"connectionSpecification\":{\"type\":\"object\",\"required\":[\"files\"]}}}\n7 WriteFault",
    ),
    (
        "check",
        &[("c", TWO), ("x", b"id\n"), ("y", b"")],
        CHECK,
        &[],
        "{\"type\":\"CONNECTION_STATUS\",\"connectionStatus\":{\"status\":\"SUCCEEDED\"}}\n0 Ok",
    ),
    (
        "check of what is no JSON",
        &[("c", b"files")],
        CHECK,
        &[],
        "{\"type\":\"CONNECTION_STATUS\",\"connectionStatus\":{\"status\":\"FAILED\",\"message\":\"bad config\"}}\n0 Ok",
    ),
    (
        "check of a number out of range",
        &[("c", br#"{"files":[{"name":"a","path":"x","every":0}]}"#)],
        CHECK,
        &[],
        "{\"type\":\"CONNECTION_STATUS\",\"connectionStatus\":{\"status\":\"FAILED\",\"message\":\"bad config\"}}\n0 Ok",
    ),
    (
        "check with a missing file",
        &[("c", TWO), ("x", b"id\n")],
        CHECK,
        &[],
        "{\"type\":\"CONNECTION_STATUS\",\"connectionStatus\":{\"status\":\"FAILED\",\"message\":\"cannot open\"}}\n0 Ok",
    ),
    (
        "check with no configuration",
        &[],
        CHECK,
        &[],
        "{\"type\":\"CONNECTION_STATUS\",\"connectionStatus\":{\"status\":\"FAILED\",\"message\":\"cannot open\"}}\n0 Ok",
    ),
    (
        "discover",
        &[
            ("c", TWO),
            ("x", b"id,\"the \"\"name\"\"\"\n1,2\n"),
            ("y", b""),
        ],
        DISCOVER,
        &[],
        "{\"type\":\"CATALOG\",\"catalog\":{\"streams\":[{\"name\":\"a\",\"json_schema\":{\"type\":\"object\",\"properties\":{\"id\":{\"type\":\"string\"},\"the \\\"name\\\"\":{\"type\":\"string\"}}},\"supported_sync_modes\":[\"full_refresh\",\"incremental\"],\"source_defined_cursor\":true,\"is_resumable\":true},{\"name\":\"b\",\"json_schema\":{\"type\":\"object\",\"properties\":{}},\"supported_sync_modes\":[\"full_refresh\",\"incremental\"],\"source_defined_cursor\":true,\"is_resumable\":true}]}}\n0 Ok",
    ),
    (
        "discover of two entries with one name",
        &[
            (
                "c",
                br#"{"files":[{"name":"a","path":"x"},{"name":"a","path":"y"}]}"#,
            ),
            ("x", b"id\n1\n"),
            ("y", b"age\n2\n"),
        ],
        DISCOVER,
        &[],
        "{\"type\":\"CATALOG\",\"catalog\":{\"streams\":[{\"name\":\"a\",\"json_schema\":{\"type\":\"object\",\"properties\":{\"id\":{\"type\":\"string\"}}},\"supported_sync_modes\":[\"full_refresh\",\"incremental\"],\"source_defined_cursor\":true,\"is_resumable\":true}]}}\n0 Ok",
    ),
    (
        "discover with a record that does not fit in the second entry of a name",
        &[
            (
                "c",
                br#"{"files":[{"name":"a","path":"x"},{"name":"a","path":"y"},{"name":"b","path":"z"}]}"#,
            ),
            ("x", b"id\n1\n"),
            ("y", b"id\n1,2\n"),
            ("z", b"n\n"),
        ],
        DISCOVER,
        &[],
        "{\"type\":\"CATALOG\",\"catalog\":{\"streams\":[{\"name\":\"a\",\"json_schema\":{\"type\":\"object\",\"properties\":{\"id\":{\"type\":\"string\"}}},\"supported_sync_modes\":[\"full_refresh\",\"incremental\"],\"source_defined_cursor\":true,\"is_resumable\":true},{\"name\":\"b\",\"json_schema\":{\"type\":\"object\",\"properties\":{\"n\":{\"type\":\"string\"}}},\"supported_sync_modes\":[\"full_refresh\",\"incremental\"],\"source_defined_cursor\":true,\"is_resumable\":true}]}}\n0 Ok",
    ),
    (
        "discover with a record that does not fit behind the second entry of a name",
        &[
            (
                "c",
                br#"{"files":[{"name":"a","path":"x"},{"name":"a","path":"y"},{"name":"b","path":"z"}]}"#,
            ),
            ("x", b"id\n1\n"),
            ("y", b"id\n1\n"),
            ("z", b"n\n1\n1,2\n"),
        ],
        DISCOVER,
        &[],
        "9 BadRow stream 2 row 2",
    ),
    (
        "discover with the second entry of a name missing",
        &[
            (
                "c",
                br#"{"files":[{"name":"a","path":"x"},{"name":"a","path":"y"}]}"#,
            ),
            ("x", b"id\n1\n"),
        ],
        DISCOVER,
        &[],
        "13 FileFault",
    ),
    (
        "discover of no file",
        &[("c", br#"{"files":[]}"#)],
        DISCOVER,
        &[],
        "{\"type\":\"CATALOG\",\"catalog\":{\"streams\":[]}}\n0 Ok",
    ),
    (
        "discover with a record that does not fit",
        &[("c", TWO), ("x", b"id\n"), ("y", b"id\n1\n1,2\n")],
        DISCOVER,
        &[],
        "9 BadRow stream 1 row 2",
    ),
    (
        "discover of another text",
        &[("c", b"{}")],
        DISCOVER,
        &[],
        "10 BadConfig Missing",
    ),
    (
        "discover with a missing file",
        &[("c", TWO), ("x", b"")],
        DISCOVER,
        &[],
        "13 FileFault",
    ),
];

#[test]
fn a_source_of_files_says_of_itself(rt: HostRuntime) -> Result<(), Fail> {
    for (what, texts, words, fails, want) in CASES {
        let found = run(rt.alloc(), texts, words, fails)?;
        assert_eq!(rt; found.as_slice(), want.as_bytes(), "{what}");
    }
    Ok(())
}
