// A `read` in which a call of the desk fails.
use crate::runs::{Text, run};
use basics::{Bytes, NoMemory};
use std::alloc::Global;
use std::test::Fail;

const TEXTS: &[Text] = &[
    ("c", b"{\"files\":[{\"name\":\"a\",\"path\":\"x\"}]}"),
    (
        "k",
        b"{\"streams\":[{\"stream\":{\"name\":\"a\",\"json_schema\":{\"type\":\"object\"}},\"sync_mode\":\"incremental\",\"destination_sync_mode\":\"append\"}]}",
    ),
    (
        "s",
        b"[{\"type\":\"STREAM\",\"stream\":{\"stream_descriptor\":{\"name\":\"a\"},\"stream_state\":{\"row\":1}}}]",
    ),
    ("x", b"n\n1\n2\n3\n"),
];

const WORDS: &[&str] = &["read", "--config", "c", "--catalog", "k", "--state", "s"];

// The lines that are said where no call fails.
const LINES: &[&str] = &[
    "{\"type\":\"TRACE\",\"trace\":{\"type\":\"STREAM_STATUS\",\"emitted_at\":5,\"stream_status\":{\"stream_descriptor\":{\"name\":\"a\"},\"status\":\"STARTED\"}}}\n",
    "{\"type\":\"RECORD\",\"record\":{\"stream\":\"a\",\"data\":{\"n\":\"2\"},\"emitted_at\":5}}\n",
    "{\"type\":\"RECORD\",\"record\":{\"stream\":\"a\",\"data\":{\"n\":\"3\"},\"emitted_at\":5}}\n",
    "{\"type\":\"STATE\",\"state\":{\"type\":\"STREAM\",\"stream\":{\"stream_descriptor\":{\"name\":\"a\"},\"stream_state\":{\"row\":3}},\"sourceStats\":{\"recordCount\":2}}}\n",
    "{\"type\":\"TRACE\",\"trace\":{\"type\":\"STREAM_STATUS\",\"emitted_at\":5,\"stream_status\":{\"stream_descriptor\":{\"name\":\"a\"},\"status\":\"COMPLETE\"}}}\n",
];

// The call that fails, what it is, how many lines are said, and the status.
const CASES: &[(u64, &str, usize, &str)] = &[
    (1, "the configuration is read", 0, "13 FileFault"),
    (2, "the catalog is read", 0, "13 FileFault"),
    (3, "the states are read", 0, "13 FileFault"),
    (4, "the file is read", 0, "13 FileFault"),
    (5, "STARTED is said", 0, "7 WriteFault"),
    (6, "the first record is said", 1, "7 WriteFault"),
    (7, "the second record is said", 2, "7 WriteFault"),
    (8, "the state is said", 3, "7 WriteFault"),
    (9, "the state is written out", 4, "7 WriteFault"),
    (10, "COMPLETE is said", 4, "7 WriteFault"),
    (11, "all is written out", 5, "7 WriteFault"),
    (12, "no call", 5, "0 Ok"),
];

// The first lines, and the status.
fn wanted(alloc: Global, count: usize, status: &str) -> Result<Bytes, NoMemory> {
    let mut all = Bytes::new(alloc);
    for line in LINES.iter().take(count) {
        all.extend(line.as_bytes())?;
    }
    all.extend(status.as_bytes())?;
    Ok(all)
}

#[test]
fn a_fault_ends_a_read(rt: HostRuntime) -> Result<(), Fail> {
    for (call, what, count, status) in CASES {
        let found = run(rt.alloc(), TEXTS, WORDS, &[*call])?;
        let want = wanted(rt.alloc(), *count, status)?;
        assert_eq!(rt; found.as_slice(), want.as_slice(), "{what}");
    }
    Ok(())
}
