// The command `read`. What is said of a text was worked out by Python's csv module.
use crate::runs::{Text, run};
use basics::NoMemory;
use std::alloc::Global;
use std::test::Fail;

// The texts, whether states are among them, and what is said with the status behind it.
type Case = (&'static str, &'static [Text], bool, &'static str);

const READ: &[&str] = &["read", "--config", "c", "--catalog", "k"];

const READ_FROM: &[&str] = &["read", "--config", "c", "--catalog", "k", "--state", "s"];

const STARTS: &[Case] = &[
    (
        "two records",
        &[
            ("c", b"{\"files\":[{\"name\":\"a\",\"path\":\"x\"}]}"),
            (
                "k",
                b"{\"streams\":[{\"stream\":{\"name\":\"a\",\"json_schema\":{\"type\":\"object\"}},\"sync_mode\":\"incremental\",\"destination_sync_mode\":\"append\"}]}",
            ),
            ("x", b"id,name\n1,Ann\n2,\"O\"\"Neil\"\n"),
        ],
        false,
        "{\"type\":\"TRACE\",\"trace\":{\"type\":\"STREAM_STATUS\",\"emitted_at\":5,\"stream_status\":{\"stream_descriptor\":{\"name\":\"a\"},\"status\":\"STARTED\"}}}\n{\"type\":\"RECORD\",\"record\":{\"stream\":\"a\",\"data\":{\"id\":\"1\",\"name\":\"Ann\"},\"emitted_at\":5}}\n{\"type\":\"RECORD\",\"record\":{\"stream\":\"a\",\"data\":{\"id\":\"2\",\"name\":\"O\\\"Neil\"},\"emitted_at\":5}}\n{\"type\":\"STATE\",\"state\":{\"type\":\"STREAM\",\"stream\":{\"stream_descriptor\":{\"name\":\"a\"},\"stream_state\":{\"row\":2}},\"sourceStats\":{\"recordCount\":2}}}\n{\"type\":\"TRACE\",\"trace\":{\"type\":\"STREAM_STATUS\",\"emitted_at\":5,\"stream_status\":{\"stream_descriptor\":{\"name\":\"a\"},\"status\":\"COMPLETE\"}}}\n0 Ok",
    ),
    (
        "behind the last record",
        &[
            ("c", b"{\"files\":[{\"name\":\"a\",\"path\":\"x\"}]}"),
            (
                "k",
                b"{\"streams\":[{\"stream\":{\"name\":\"a\",\"json_schema\":{\"type\":\"object\"}},\"sync_mode\":\"incremental\",\"destination_sync_mode\":\"append\"}]}",
            ),
            (
                "s",
                b"[{\"type\":\"STREAM\",\"stream\":{\"stream_descriptor\":{\"name\":\"a\"},\"stream_state\":{\"row\":2}}}]",
            ),
            ("x", b"id,name\n1,Ann\n2,\"O\"\"Neil\"\n"),
        ],
        true,
        "{\"type\":\"TRACE\",\"trace\":{\"type\":\"STREAM_STATUS\",\"emitted_at\":5,\"stream_status\":{\"stream_descriptor\":{\"name\":\"a\"},\"status\":\"STARTED\"}}}\n{\"type\":\"STATE\",\"state\":{\"type\":\"STREAM\",\"stream\":{\"stream_descriptor\":{\"name\":\"a\"},\"stream_state\":{\"row\":2}},\"sourceStats\":{\"recordCount\":0}}}\n{\"type\":\"TRACE\",\"trace\":{\"type\":\"STREAM_STATUS\",\"emitted_at\":5,\"stream_status\":{\"stream_descriptor\":{\"name\":\"a\"},\"status\":\"COMPLETE\"}}}\n0 Ok",
    ),
    (
        "behind more records than there are",
        &[
            ("c", b"{\"files\":[{\"name\":\"a\",\"path\":\"x\"}]}"),
            (
                "k",
                b"{\"streams\":[{\"stream\":{\"name\":\"a\",\"json_schema\":{\"type\":\"object\"}},\"sync_mode\":\"incremental\",\"destination_sync_mode\":\"append\"}]}",
            ),
            (
                "s",
                b"[{\"type\":\"STREAM\",\"stream\":{\"stream_descriptor\":{\"name\":\"a\"},\"stream_state\":{\"row\":3}}}]",
            ),
            ("x", b"id,name\n1,Ann\n2,\"O\"\"Neil\"\n"),
        ],
        true,
        "12 BadState OutOfRange",
    ),
    (
        "behind none",
        &[
            ("c", b"{\"files\":[{\"name\":\"a\",\"path\":\"x\"}]}"),
            (
                "k",
                b"{\"streams\":[{\"stream\":{\"name\":\"a\",\"json_schema\":{\"type\":\"object\"}},\"sync_mode\":\"incremental\",\"destination_sync_mode\":\"append\"}]}",
            ),
            (
                "s",
                b"[{\"type\":\"STREAM\",\"stream\":{\"stream_descriptor\":{\"name\":\"a\"},\"stream_state\":{\"row\":0}}}]",
            ),
            ("x", b"id,name\n1,Ann\n2,\"O\"\"Neil\"\n"),
        ],
        true,
        "{\"type\":\"TRACE\",\"trace\":{\"type\":\"STREAM_STATUS\",\"emitted_at\":5,\"stream_status\":{\"stream_descriptor\":{\"name\":\"a\"},\"status\":\"STARTED\"}}}\n{\"type\":\"RECORD\",\"record\":{\"stream\":\"a\",\"data\":{\"id\":\"1\",\"name\":\"Ann\"},\"emitted_at\":5}}\n{\"type\":\"RECORD\",\"record\":{\"stream\":\"a\",\"data\":{\"id\":\"2\",\"name\":\"O\\\"Neil\"},\"emitted_at\":5}}\n{\"type\":\"STATE\",\"state\":{\"type\":\"STREAM\",\"stream\":{\"stream_descriptor\":{\"name\":\"a\"},\"stream_state\":{\"row\":2}},\"sourceStats\":{\"recordCount\":2}}}\n{\"type\":\"TRACE\",\"trace\":{\"type\":\"STREAM_STATUS\",\"emitted_at\":5,\"stream_status\":{\"stream_descriptor\":{\"name\":\"a\"},\"status\":\"COMPLETE\"}}}\n0 Ok",
    ),
];

const STATES: &[Case] = &[
    (
        "a state behind each second record",
        &[
            (
                "c",
                b"{\"files\":[{\"name\":\"a\",\"path\":\"x\",\"every\":2}]}",
            ),
            (
                "k",
                b"{\"streams\":[{\"stream\":{\"name\":\"a\",\"json_schema\":{\"type\":\"object\"}},\"sync_mode\":\"incremental\",\"destination_sync_mode\":\"append\"}]}",
            ),
            ("x", b"n\n1\n2\n3\n4\n5\n"),
        ],
        false,
        "{\"type\":\"TRACE\",\"trace\":{\"type\":\"STREAM_STATUS\",\"emitted_at\":5,\"stream_status\":{\"stream_descriptor\":{\"name\":\"a\"},\"status\":\"STARTED\"}}}\n{\"type\":\"RECORD\",\"record\":{\"stream\":\"a\",\"data\":{\"n\":\"1\"},\"emitted_at\":5}}\n{\"type\":\"RECORD\",\"record\":{\"stream\":\"a\",\"data\":{\"n\":\"2\"},\"emitted_at\":5}}\n{\"type\":\"STATE\",\"state\":{\"type\":\"STREAM\",\"stream\":{\"stream_descriptor\":{\"name\":\"a\"},\"stream_state\":{\"row\":2}},\"sourceStats\":{\"recordCount\":2}}}\n{\"type\":\"RECORD\",\"record\":{\"stream\":\"a\",\"data\":{\"n\":\"3\"},\"emitted_at\":5}}\n{\"type\":\"RECORD\",\"record\":{\"stream\":\"a\",\"data\":{\"n\":\"4\"},\"emitted_at\":5}}\n{\"type\":\"STATE\",\"state\":{\"type\":\"STREAM\",\"stream\":{\"stream_descriptor\":{\"name\":\"a\"},\"stream_state\":{\"row\":4}},\"sourceStats\":{\"recordCount\":2}}}\n{\"type\":\"RECORD\",\"record\":{\"stream\":\"a\",\"data\":{\"n\":\"5\"},\"emitted_at\":5}}\n{\"type\":\"STATE\",\"state\":{\"type\":\"STREAM\",\"stream\":{\"stream_descriptor\":{\"name\":\"a\"},\"stream_state\":{\"row\":5}},\"sourceStats\":{\"recordCount\":1}}}\n{\"type\":\"TRACE\",\"trace\":{\"type\":\"STREAM_STATUS\",\"emitted_at\":5,\"stream_status\":{\"stream_descriptor\":{\"name\":\"a\"},\"status\":\"COMPLETE\"}}}\n0 Ok",
    ),
    (
        "from a state behind the first",
        &[
            (
                "c",
                b"{\"files\":[{\"name\":\"a\",\"path\":\"x\",\"every\":2}]}",
            ),
            (
                "k",
                b"{\"streams\":[{\"stream\":{\"name\":\"a\",\"json_schema\":{\"type\":\"object\"}},\"sync_mode\":\"incremental\",\"destination_sync_mode\":\"append\"}]}",
            ),
            (
                "s",
                b"[{\"type\":\"STREAM\",\"stream\":{\"stream_descriptor\":{\"name\":\"a\"},\"stream_state\":{\"row\":1}}}]",
            ),
            ("x", b"n\n1\n2\n3\n4\n5\n"),
        ],
        true,
        "{\"type\":\"TRACE\",\"trace\":{\"type\":\"STREAM_STATUS\",\"emitted_at\":5,\"stream_status\":{\"stream_descriptor\":{\"name\":\"a\"},\"status\":\"STARTED\"}}}\n{\"type\":\"RECORD\",\"record\":{\"stream\":\"a\",\"data\":{\"n\":\"2\"},\"emitted_at\":5}}\n{\"type\":\"RECORD\",\"record\":{\"stream\":\"a\",\"data\":{\"n\":\"3\"},\"emitted_at\":5}}\n{\"type\":\"STATE\",\"state\":{\"type\":\"STREAM\",\"stream\":{\"stream_descriptor\":{\"name\":\"a\"},\"stream_state\":{\"row\":3}},\"sourceStats\":{\"recordCount\":2}}}\n{\"type\":\"RECORD\",\"record\":{\"stream\":\"a\",\"data\":{\"n\":\"4\"},\"emitted_at\":5}}\n{\"type\":\"RECORD\",\"record\":{\"stream\":\"a\",\"data\":{\"n\":\"5\"},\"emitted_at\":5}}\n{\"type\":\"STATE\",\"state\":{\"type\":\"STREAM\",\"stream\":{\"stream_descriptor\":{\"name\":\"a\"},\"stream_state\":{\"row\":5}},\"sourceStats\":{\"recordCount\":2}}}\n{\"type\":\"TRACE\",\"trace\":{\"type\":\"STREAM_STATUS\",\"emitted_at\":5,\"stream_status\":{\"stream_descriptor\":{\"name\":\"a\"},\"status\":\"COMPLETE\"}}}\n0 Ok",
    ),
    (
        "the last state stands behind the last record",
        &[
            (
                "c",
                b"{\"files\":[{\"name\":\"a\",\"path\":\"x\",\"every\":5}]}",
            ),
            (
                "k",
                b"{\"streams\":[{\"stream\":{\"name\":\"a\",\"json_schema\":{\"type\":\"object\"}},\"sync_mode\":\"incremental\",\"destination_sync_mode\":\"append\"}]}",
            ),
            ("x", b"n\n1\n2\n3\n4\n5\n"),
        ],
        false,
        "{\"type\":\"TRACE\",\"trace\":{\"type\":\"STREAM_STATUS\",\"emitted_at\":5,\"stream_status\":{\"stream_descriptor\":{\"name\":\"a\"},\"status\":\"STARTED\"}}}\n{\"type\":\"RECORD\",\"record\":{\"stream\":\"a\",\"data\":{\"n\":\"1\"},\"emitted_at\":5}}\n{\"type\":\"RECORD\",\"record\":{\"stream\":\"a\",\"data\":{\"n\":\"2\"},\"emitted_at\":5}}\n{\"type\":\"RECORD\",\"record\":{\"stream\":\"a\",\"data\":{\"n\":\"3\"},\"emitted_at\":5}}\n{\"type\":\"RECORD\",\"record\":{\"stream\":\"a\",\"data\":{\"n\":\"4\"},\"emitted_at\":5}}\n{\"type\":\"RECORD\",\"record\":{\"stream\":\"a\",\"data\":{\"n\":\"5\"},\"emitted_at\":5}}\n{\"type\":\"STATE\",\"state\":{\"type\":\"STREAM\",\"stream\":{\"stream_descriptor\":{\"name\":\"a\"},\"stream_state\":{\"row\":5}},\"sourceStats\":{\"recordCount\":5}}}\n{\"type\":\"TRACE\",\"trace\":{\"type\":\"STREAM_STATUS\",\"emitted_at\":5,\"stream_status\":{\"stream_descriptor\":{\"name\":\"a\"},\"status\":\"COMPLETE\"}}}\n0 Ok",
    ),
];

const TEXTS: &[Case] = &[
    (
        "CRLF, and newlines in quotes",
        &[
            ("c", b"{\"files\":[{\"name\":\"a\",\"path\":\"x\"}]}"),
            (
                "k",
                b"{\"streams\":[{\"stream\":{\"name\":\"a\",\"json_schema\":{\"type\":\"object\"}},\"sync_mode\":\"incremental\",\"destination_sync_mode\":\"append\"}]}",
            ),
            ("x", b"id,note\r\n1,\"a\r\nb\"\r\n2,\"c,d\"\r\n"),
        ],
        false,
        "{\"type\":\"TRACE\",\"trace\":{\"type\":\"STREAM_STATUS\",\"emitted_at\":5,\"stream_status\":{\"stream_descriptor\":{\"name\":\"a\"},\"status\":\"STARTED\"}}}\n{\"type\":\"RECORD\",\"record\":{\"stream\":\"a\",\"data\":{\"id\":\"1\",\"note\":\"a\\r\\nb\"},\"emitted_at\":5}}\n{\"type\":\"RECORD\",\"record\":{\"stream\":\"a\",\"data\":{\"id\":\"2\",\"note\":\"c,d\"},\"emitted_at\":5}}\n{\"type\":\"STATE\",\"state\":{\"type\":\"STREAM\",\"stream\":{\"stream_descriptor\":{\"name\":\"a\"},\"stream_state\":{\"row\":2}},\"sourceStats\":{\"recordCount\":2}}}\n{\"type\":\"TRACE\",\"trace\":{\"type\":\"STREAM_STATUS\",\"emitted_at\":5,\"stream_status\":{\"stream_descriptor\":{\"name\":\"a\"},\"status\":\"COMPLETE\"}}}\n0 Ok",
    ),
    (
        "a header alone",
        &[
            ("c", b"{\"files\":[{\"name\":\"a\",\"path\":\"x\"}]}"),
            (
                "k",
                b"{\"streams\":[{\"stream\":{\"name\":\"a\",\"json_schema\":{\"type\":\"object\"}},\"sync_mode\":\"incremental\",\"destination_sync_mode\":\"append\"}]}",
            ),
            ("x", b"id,name\n"),
        ],
        false,
        "{\"type\":\"TRACE\",\"trace\":{\"type\":\"STREAM_STATUS\",\"emitted_at\":5,\"stream_status\":{\"stream_descriptor\":{\"name\":\"a\"},\"status\":\"STARTED\"}}}\n{\"type\":\"STATE\",\"state\":{\"type\":\"STREAM\",\"stream\":{\"stream_descriptor\":{\"name\":\"a\"},\"stream_state\":{\"row\":0}},\"sourceStats\":{\"recordCount\":0}}}\n{\"type\":\"TRACE\",\"trace\":{\"type\":\"STREAM_STATUS\",\"emitted_at\":5,\"stream_status\":{\"stream_descriptor\":{\"name\":\"a\"},\"status\":\"COMPLETE\"}}}\n0 Ok",
    ),
    (
        "an empty file",
        &[
            ("c", b"{\"files\":[{\"name\":\"a\",\"path\":\"x\"}]}"),
            (
                "k",
                b"{\"streams\":[{\"stream\":{\"name\":\"a\",\"json_schema\":{\"type\":\"object\"}},\"sync_mode\":\"incremental\",\"destination_sync_mode\":\"append\"}]}",
            ),
            ("x", b""),
        ],
        false,
        "{\"type\":\"TRACE\",\"trace\":{\"type\":\"STREAM_STATUS\",\"emitted_at\":5,\"stream_status\":{\"stream_descriptor\":{\"name\":\"a\"},\"status\":\"STARTED\"}}}\n{\"type\":\"STATE\",\"state\":{\"type\":\"STREAM\",\"stream\":{\"stream_descriptor\":{\"name\":\"a\"},\"stream_state\":{\"row\":0}},\"sourceStats\":{\"recordCount\":0}}}\n{\"type\":\"TRACE\",\"trace\":{\"type\":\"STREAM_STATUS\",\"emitted_at\":5,\"stream_status\":{\"stream_descriptor\":{\"name\":\"a\"},\"status\":\"COMPLETE\"}}}\n0 Ok",
    ),
    (
        "an empty file behind a record",
        &[
            ("c", b"{\"files\":[{\"name\":\"a\",\"path\":\"x\"}]}"),
            (
                "k",
                b"{\"streams\":[{\"stream\":{\"name\":\"a\",\"json_schema\":{\"type\":\"object\"}},\"sync_mode\":\"incremental\",\"destination_sync_mode\":\"append\"}]}",
            ),
            (
                "s",
                b"[{\"type\":\"STREAM\",\"stream\":{\"stream_descriptor\":{\"name\":\"a\"},\"stream_state\":{\"row\":1}}}]",
            ),
            ("x", b""),
        ],
        true,
        "12 BadState OutOfRange",
    ),
];

const FIELDS: &[Case] = &[
    (
        "a last record without newline",
        &[
            ("c", b"{\"files\":[{\"name\":\"a\",\"path\":\"x\"}]}"),
            (
                "k",
                b"{\"streams\":[{\"stream\":{\"name\":\"a\",\"json_schema\":{\"type\":\"object\"}},\"sync_mode\":\"incremental\",\"destination_sync_mode\":\"append\"}]}",
            ),
            ("x", b"id\n1\n2"),
        ],
        false,
        "{\"type\":\"TRACE\",\"trace\":{\"type\":\"STREAM_STATUS\",\"emitted_at\":5,\"stream_status\":{\"stream_descriptor\":{\"name\":\"a\"},\"status\":\"STARTED\"}}}\n{\"type\":\"RECORD\",\"record\":{\"stream\":\"a\",\"data\":{\"id\":\"1\"},\"emitted_at\":5}}\n{\"type\":\"RECORD\",\"record\":{\"stream\":\"a\",\"data\":{\"id\":\"2\"},\"emitted_at\":5}}\n{\"type\":\"STATE\",\"state\":{\"type\":\"STREAM\",\"stream\":{\"stream_descriptor\":{\"name\":\"a\"},\"stream_state\":{\"row\":2}},\"sourceStats\":{\"recordCount\":2}}}\n{\"type\":\"TRACE\",\"trace\":{\"type\":\"STREAM_STATUS\",\"emitted_at\":5,\"stream_status\":{\"stream_descriptor\":{\"name\":\"a\"},\"status\":\"COMPLETE\"}}}\n0 Ok",
    ),
    (
        "empty fields",
        &[
            ("c", b"{\"files\":[{\"name\":\"a\",\"path\":\"x\"}]}"),
            (
                "k",
                b"{\"streams\":[{\"stream\":{\"name\":\"a\",\"json_schema\":{\"type\":\"object\"}},\"sync_mode\":\"incremental\",\"destination_sync_mode\":\"append\"}]}",
            ),
            ("x", b"id,name\n1,\n,\n"),
        ],
        false,
        "{\"type\":\"TRACE\",\"trace\":{\"type\":\"STREAM_STATUS\",\"emitted_at\":5,\"stream_status\":{\"stream_descriptor\":{\"name\":\"a\"},\"status\":\"STARTED\"}}}\n{\"type\":\"RECORD\",\"record\":{\"stream\":\"a\",\"data\":{\"id\":\"1\",\"name\":\"\"},\"emitted_at\":5}}\n{\"type\":\"RECORD\",\"record\":{\"stream\":\"a\",\"data\":{\"id\":\"\",\"name\":\"\"},\"emitted_at\":5}}\n{\"type\":\"STATE\",\"state\":{\"type\":\"STREAM\",\"stream\":{\"stream_descriptor\":{\"name\":\"a\"},\"stream_state\":{\"row\":2}},\"sourceStats\":{\"recordCount\":2}}}\n{\"type\":\"TRACE\",\"trace\":{\"type\":\"STREAM_STATUS\",\"emitted_at\":5,\"stream_status\":{\"stream_descriptor\":{\"name\":\"a\"},\"status\":\"COMPLETE\"}}}\n0 Ok",
    ),
    (
        "texts beyond ASCII, and a control byte",
        &[
            ("c", b"{\"files\":[{\"name\":\"a\",\"path\":\"x\"}]}"),
            (
                "k",
                b"{\"streams\":[{\"stream\":{\"name\":\"a\",\"json_schema\":{\"type\":\"object\"}},\"sync_mode\":\"incremental\",\"destination_sync_mode\":\"append\"}]}",
            ),
            (
                "x",
                b"id,name\n1,Zo\xc3\xab\n2,\xe6\x9d\x8e\xe9\x9b\xb7\n3,\"tab\there\"\n",
            ),
        ],
        false,
        "{\"type\":\"TRACE\",\"trace\":{\"type\":\"STREAM_STATUS\",\"emitted_at\":5,\"stream_status\":{\"stream_descriptor\":{\"name\":\"a\"},\"status\":\"STARTED\"}}}\n{\"type\":\"RECORD\",\"record\":{\"stream\":\"a\",\"data\":{\"id\":\"1\",\"name\":\"Zoë\"},\"emitted_at\":5}}\n{\"type\":\"RECORD\",\"record\":{\"stream\":\"a\",\"data\":{\"id\":\"2\",\"name\":\"李雷\"},\"emitted_at\":5}}\n{\"type\":\"RECORD\",\"record\":{\"stream\":\"a\",\"data\":{\"id\":\"3\",\"name\":\"tab\\there\"},\"emitted_at\":5}}\n{\"type\":\"STATE\",\"state\":{\"type\":\"STREAM\",\"stream\":{\"stream_descriptor\":{\"name\":\"a\"},\"stream_state\":{\"row\":3}},\"sourceStats\":{\"recordCount\":3}}}\n{\"type\":\"TRACE\",\"trace\":{\"type\":\"STREAM_STATUS\",\"emitted_at\":5,\"stream_status\":{\"stream_descriptor\":{\"name\":\"a\"},\"status\":\"COMPLETE\"}}}\n0 Ok",
    ),
    (
        "a byte order mark",
        &[
            ("c", b"{\"files\":[{\"name\":\"a\",\"path\":\"x\"}]}"),
            (
                "k",
                b"{\"streams\":[{\"stream\":{\"name\":\"a\",\"json_schema\":{\"type\":\"object\"}},\"sync_mode\":\"incremental\",\"destination_sync_mode\":\"append\"}]}",
            ),
            ("x", b"\xef\xbb\xbfid\n1\n"),
        ],
        false,
        "{\"type\":\"TRACE\",\"trace\":{\"type\":\"STREAM_STATUS\",\"emitted_at\":5,\"stream_status\":{\"stream_descriptor\":{\"name\":\"a\"},\"status\":\"STARTED\"}}}\n{\"type\":\"RECORD\",\"record\":{\"stream\":\"a\",\"data\":{\"id\":\"1\"},\"emitted_at\":5}}\n{\"type\":\"STATE\",\"state\":{\"type\":\"STREAM\",\"stream\":{\"stream_descriptor\":{\"name\":\"a\"},\"stream_state\":{\"row\":1}},\"sourceStats\":{\"recordCount\":1}}}\n{\"type\":\"TRACE\",\"trace\":{\"type\":\"STREAM_STATUS\",\"emitted_at\":5,\"stream_status\":{\"stream_descriptor\":{\"name\":\"a\"},\"status\":\"COMPLETE\"}}}\n0 Ok",
    ),
];

const MISFITS: &[Case] = &[
    (
        "a record of another length",
        &[
            ("c", b"{\"files\":[{\"name\":\"a\",\"path\":\"x\"}]}"),
            (
                "k",
                b"{\"streams\":[{\"stream\":{\"name\":\"a\",\"json_schema\":{\"type\":\"object\"}},\"sync_mode\":\"incremental\",\"destination_sync_mode\":\"append\"}]}",
            ),
            ("x", b"id,name\n1,Ann\n2\n3,Bob\n"),
        ],
        false,
        "9 BadRow stream 0 row 2",
    ),
    (
        "a longer record, behind which a stream starts",
        &[
            ("c", b"{\"files\":[{\"name\":\"a\",\"path\":\"x\"}]}"),
            (
                "k",
                b"{\"streams\":[{\"stream\":{\"name\":\"a\",\"json_schema\":{\"type\":\"object\"}},\"sync_mode\":\"incremental\",\"destination_sync_mode\":\"append\"}]}",
            ),
            (
                "s",
                b"[{\"type\":\"STREAM\",\"stream\":{\"stream_descriptor\":{\"name\":\"a\"},\"stream_state\":{\"row\":2}}}]",
            ),
            ("x", b"id\n1,2\n3\n4\n"),
        ],
        true,
        "9 BadRow stream 0 row 1",
    ),
    (
        "a field that is no UTF-8",
        &[
            ("c", b"{\"files\":[{\"name\":\"a\",\"path\":\"x\"}]}"),
            (
                "k",
                b"{\"streams\":[{\"stream\":{\"name\":\"a\",\"json_schema\":{\"type\":\"object\"}},\"sync_mode\":\"incremental\",\"destination_sync_mode\":\"append\"}]}",
            ),
            ("x", b"id\n1\n\xff\n"),
        ],
        false,
        "9 BadRow stream 0 row 2",
    ),
    (
        "a header that is no UTF-8",
        &[
            ("c", b"{\"files\":[{\"name\":\"a\",\"path\":\"x\"}]}"),
            (
                "k",
                b"{\"streams\":[{\"stream\":{\"name\":\"a\",\"json_schema\":{\"type\":\"object\"}},\"sync_mode\":\"incremental\",\"destination_sync_mode\":\"append\"}]}",
            ),
            ("x", b"\xff\n1\n"),
        ],
        false,
        "9 BadRow stream 0 row 0",
    ),
    (
        "a misfit comes before a state out of range",
        &[
            ("c", b"{\"files\":[{\"name\":\"a\",\"path\":\"x\"}]}"),
            (
                "k",
                b"{\"streams\":[{\"stream\":{\"name\":\"a\",\"json_schema\":{\"type\":\"object\"}},\"sync_mode\":\"incremental\",\"destination_sync_mode\":\"append\"}]}",
            ),
            (
                "s",
                b"[{\"type\":\"STREAM\",\"stream\":{\"stream_descriptor\":{\"name\":\"a\"},\"stream_state\":{\"row\":9}}}]",
            ),
            ("x", b"id\n1,2\n"),
        ],
        true,
        "9 BadRow stream 0 row 1",
    ),
];

const FILES: &[Case] = &[
    (
        "two files",
        &[
            (
                "c",
                b"{\"files\":[{\"name\":\"a\",\"path\":\"x\"},{\"name\":\"b\",\"path\":\"y\"}]}",
            ),
            (
                "k",
                b"{\"streams\":[{\"stream\":{\"name\":\"a\",\"json_schema\":{\"type\":\"object\"}},\"sync_mode\":\"incremental\",\"destination_sync_mode\":\"append\"},{\"stream\":{\"name\":\"b\",\"json_schema\":{\"type\":\"object\"}},\"sync_mode\":\"incremental\",\"destination_sync_mode\":\"append\"}]}",
            ),
            ("x", b"id,name\n1,Ann\n2,\"O\"\"Neil\"\n"),
            ("y", b"n\n1\n2\n3\n4\n5\n"),
        ],
        false,
        "{\"type\":\"TRACE\",\"trace\":{\"type\":\"STREAM_STATUS\",\"emitted_at\":5,\"stream_status\":{\"stream_descriptor\":{\"name\":\"a\"},\"status\":\"STARTED\"}}}\n{\"type\":\"RECORD\",\"record\":{\"stream\":\"a\",\"data\":{\"id\":\"1\",\"name\":\"Ann\"},\"emitted_at\":5}}\n{\"type\":\"RECORD\",\"record\":{\"stream\":\"a\",\"data\":{\"id\":\"2\",\"name\":\"O\\\"Neil\"},\"emitted_at\":5}}\n{\"type\":\"STATE\",\"state\":{\"type\":\"STREAM\",\"stream\":{\"stream_descriptor\":{\"name\":\"a\"},\"stream_state\":{\"row\":2}},\"sourceStats\":{\"recordCount\":2}}}\n{\"type\":\"TRACE\",\"trace\":{\"type\":\"STREAM_STATUS\",\"emitted_at\":5,\"stream_status\":{\"stream_descriptor\":{\"name\":\"a\"},\"status\":\"COMPLETE\"}}}\n{\"type\":\"TRACE\",\"trace\":{\"type\":\"STREAM_STATUS\",\"emitted_at\":5,\"stream_status\":{\"stream_descriptor\":{\"name\":\"b\"},\"status\":\"STARTED\"}}}\n{\"type\":\"RECORD\",\"record\":{\"stream\":\"b\",\"data\":{\"n\":\"1\"},\"emitted_at\":5}}\n{\"type\":\"RECORD\",\"record\":{\"stream\":\"b\",\"data\":{\"n\":\"2\"},\"emitted_at\":5}}\n{\"type\":\"RECORD\",\"record\":{\"stream\":\"b\",\"data\":{\"n\":\"3\"},\"emitted_at\":5}}\n{\"type\":\"RECORD\",\"record\":{\"stream\":\"b\",\"data\":{\"n\":\"4\"},\"emitted_at\":5}}\n{\"type\":\"RECORD\",\"record\":{\"stream\":\"b\",\"data\":{\"n\":\"5\"},\"emitted_at\":5}}\n{\"type\":\"STATE\",\"state\":{\"type\":\"STREAM\",\"stream\":{\"stream_descriptor\":{\"name\":\"b\"},\"stream_state\":{\"row\":5}},\"sourceStats\":{\"recordCount\":5}}}\n{\"type\":\"TRACE\",\"trace\":{\"type\":\"STREAM_STATUS\",\"emitted_at\":5,\"stream_status\":{\"stream_descriptor\":{\"name\":\"b\"},\"status\":\"COMPLETE\"}}}\n0 Ok",
    ),
    (
        "two files in the catalog's order",
        &[
            (
                "c",
                b"{\"files\":[{\"name\":\"a\",\"path\":\"x\"},{\"name\":\"b\",\"path\":\"y\"}]}",
            ),
            (
                "k",
                b"{\"streams\":[{\"stream\":{\"name\":\"b\",\"json_schema\":{\"type\":\"object\"}},\"sync_mode\":\"incremental\",\"destination_sync_mode\":\"append\"},{\"stream\":{\"name\":\"a\",\"json_schema\":{\"type\":\"object\"}},\"sync_mode\":\"incremental\",\"destination_sync_mode\":\"append\"}]}",
            ),
            ("x", b"id,name\n1,Ann\n2,\"O\"\"Neil\"\n"),
            ("y", b"n\n1\n2\n3\n4\n5\n"),
        ],
        false,
        "{\"type\":\"TRACE\",\"trace\":{\"type\":\"STREAM_STATUS\",\"emitted_at\":5,\"stream_status\":{\"stream_descriptor\":{\"name\":\"b\"},\"status\":\"STARTED\"}}}\n{\"type\":\"RECORD\",\"record\":{\"stream\":\"b\",\"data\":{\"n\":\"1\"},\"emitted_at\":5}}\n{\"type\":\"RECORD\",\"record\":{\"stream\":\"b\",\"data\":{\"n\":\"2\"},\"emitted_at\":5}}\n{\"type\":\"RECORD\",\"record\":{\"stream\":\"b\",\"data\":{\"n\":\"3\"},\"emitted_at\":5}}\n{\"type\":\"RECORD\",\"record\":{\"stream\":\"b\",\"data\":{\"n\":\"4\"},\"emitted_at\":5}}\n{\"type\":\"RECORD\",\"record\":{\"stream\":\"b\",\"data\":{\"n\":\"5\"},\"emitted_at\":5}}\n{\"type\":\"STATE\",\"state\":{\"type\":\"STREAM\",\"stream\":{\"stream_descriptor\":{\"name\":\"b\"},\"stream_state\":{\"row\":5}},\"sourceStats\":{\"recordCount\":5}}}\n{\"type\":\"TRACE\",\"trace\":{\"type\":\"STREAM_STATUS\",\"emitted_at\":5,\"stream_status\":{\"stream_descriptor\":{\"name\":\"b\"},\"status\":\"COMPLETE\"}}}\n{\"type\":\"TRACE\",\"trace\":{\"type\":\"STREAM_STATUS\",\"emitted_at\":5,\"stream_status\":{\"stream_descriptor\":{\"name\":\"a\"},\"status\":\"STARTED\"}}}\n{\"type\":\"RECORD\",\"record\":{\"stream\":\"a\",\"data\":{\"id\":\"1\",\"name\":\"Ann\"},\"emitted_at\":5}}\n{\"type\":\"RECORD\",\"record\":{\"stream\":\"a\",\"data\":{\"id\":\"2\",\"name\":\"O\\\"Neil\"},\"emitted_at\":5}}\n{\"type\":\"STATE\",\"state\":{\"type\":\"STREAM\",\"stream\":{\"stream_descriptor\":{\"name\":\"a\"},\"stream_state\":{\"row\":2}},\"sourceStats\":{\"recordCount\":2}}}\n{\"type\":\"TRACE\",\"trace\":{\"type\":\"STREAM_STATUS\",\"emitted_at\":5,\"stream_status\":{\"stream_descriptor\":{\"name\":\"a\"},\"status\":\"COMPLETE\"}}}\n0 Ok",
    ),
];

const REFUSED_SECOND: &[Case] = &[
    (
        "the second starts behind more records than there are",
        &[
            (
                "c",
                b"{\"files\":[{\"name\":\"a\",\"path\":\"x\"},{\"name\":\"b\",\"path\":\"y\"}]}",
            ),
            (
                "k",
                b"{\"streams\":[{\"stream\":{\"name\":\"a\",\"json_schema\":{\"type\":\"object\"}},\"sync_mode\":\"incremental\",\"destination_sync_mode\":\"append\"},{\"stream\":{\"name\":\"b\",\"json_schema\":{\"type\":\"object\"}},\"sync_mode\":\"incremental\",\"destination_sync_mode\":\"append\"}]}",
            ),
            (
                "s",
                b"[{\"type\":\"STREAM\",\"stream\":{\"stream_descriptor\":{\"name\":\"b\"},\"stream_state\":{\"row\":6}}}]",
            ),
            ("x", b"id,name\n1,Ann\n2,\"O\"\"Neil\"\n"),
            ("y", b"n\n1\n2\n3\n4\n5\n"),
        ],
        true,
        "{\"type\":\"TRACE\",\"trace\":{\"type\":\"STREAM_STATUS\",\"emitted_at\":5,\"stream_status\":{\"stream_descriptor\":{\"name\":\"a\"},\"status\":\"STARTED\"}}}\n{\"type\":\"RECORD\",\"record\":{\"stream\":\"a\",\"data\":{\"id\":\"1\",\"name\":\"Ann\"},\"emitted_at\":5}}\n{\"type\":\"RECORD\",\"record\":{\"stream\":\"a\",\"data\":{\"id\":\"2\",\"name\":\"O\\\"Neil\"},\"emitted_at\":5}}\n{\"type\":\"STATE\",\"state\":{\"type\":\"STREAM\",\"stream\":{\"stream_descriptor\":{\"name\":\"a\"},\"stream_state\":{\"row\":2}},\"sourceStats\":{\"recordCount\":2}}}\n{\"type\":\"TRACE\",\"trace\":{\"type\":\"STREAM_STATUS\",\"emitted_at\":5,\"stream_status\":{\"stream_descriptor\":{\"name\":\"a\"},\"status\":\"COMPLETE\"}}}\n12 BadState OutOfRange",
    ),
    (
        "the second has a misfit",
        &[
            (
                "c",
                b"{\"files\":[{\"name\":\"a\",\"path\":\"x\"},{\"name\":\"b\",\"path\":\"y\"}]}",
            ),
            (
                "k",
                b"{\"streams\":[{\"stream\":{\"name\":\"a\",\"json_schema\":{\"type\":\"object\"}},\"sync_mode\":\"incremental\",\"destination_sync_mode\":\"append\"},{\"stream\":{\"name\":\"b\",\"json_schema\":{\"type\":\"object\"}},\"sync_mode\":\"incremental\",\"destination_sync_mode\":\"append\"}]}",
            ),
            ("x", b"id,name\n1,Ann\n2,\"O\"\"Neil\"\n"),
            ("y", b"id\n1\n2,3\n"),
        ],
        false,
        "{\"type\":\"TRACE\",\"trace\":{\"type\":\"STREAM_STATUS\",\"emitted_at\":5,\"stream_status\":{\"stream_descriptor\":{\"name\":\"a\"},\"status\":\"STARTED\"}}}\n{\"type\":\"RECORD\",\"record\":{\"stream\":\"a\",\"data\":{\"id\":\"1\",\"name\":\"Ann\"},\"emitted_at\":5}}\n{\"type\":\"RECORD\",\"record\":{\"stream\":\"a\",\"data\":{\"id\":\"2\",\"name\":\"O\\\"Neil\"},\"emitted_at\":5}}\n{\"type\":\"STATE\",\"state\":{\"type\":\"STREAM\",\"stream\":{\"stream_descriptor\":{\"name\":\"a\"},\"stream_state\":{\"row\":2}},\"sourceStats\":{\"recordCount\":2}}}\n{\"type\":\"TRACE\",\"trace\":{\"type\":\"STREAM_STATUS\",\"emitted_at\":5,\"stream_status\":{\"stream_descriptor\":{\"name\":\"a\"},\"status\":\"COMPLETE\"}}}\n9 BadRow stream 1 row 2",
    ),
    (
        "the second's blob has another form",
        &[
            (
                "c",
                b"{\"files\":[{\"name\":\"a\",\"path\":\"x\"},{\"name\":\"b\",\"path\":\"y\"}]}",
            ),
            (
                "k",
                b"{\"streams\":[{\"stream\":{\"name\":\"a\",\"json_schema\":{\"type\":\"object\"}},\"sync_mode\":\"incremental\",\"destination_sync_mode\":\"append\"},{\"stream\":{\"name\":\"b\",\"json_schema\":{\"type\":\"object\"}},\"sync_mode\":\"incremental\",\"destination_sync_mode\":\"append\"}]}",
            ),
            (
                "s",
                b"[{\"type\":\"STREAM\",\"stream\":{\"stream_descriptor\":{\"name\":\"b\"},\"stream_state\":{\"row\":\"1\"}}}]",
            ),
            ("x", b"id,name\n1,Ann\n2,\"O\"\"Neil\"\n"),
            ("y", b"n\n1\n2\n3\n4\n5\n"),
        ],
        true,
        "12 BadState Blob",
    ),
    (
        "a blob with two members",
        &[
            ("c", b"{\"files\":[{\"name\":\"a\",\"path\":\"x\"}]}"),
            (
                "k",
                b"{\"streams\":[{\"stream\":{\"name\":\"a\",\"json_schema\":{\"type\":\"object\"}},\"sync_mode\":\"incremental\",\"destination_sync_mode\":\"append\"}]}",
            ),
            (
                "s",
                b"[{\"type\":\"STREAM\",\"stream\":{\"stream_descriptor\":{\"name\":\"a\"},\"stream_state\":{\"row\":1,\"x\":1}}}]",
            ),
            ("x", b"id,name\n1,Ann\n2,\"O\"\"Neil\"\n"),
        ],
        true,
        "12 BadState Blob",
    ),
];

const NAMES: &[Case] = &[
    (
        "a state of another stream is passed over",
        &[
            ("c", b"{\"files\":[{\"name\":\"a\",\"path\":\"x\"}]}"),
            (
                "k",
                b"{\"streams\":[{\"stream\":{\"name\":\"a\",\"json_schema\":{\"type\":\"object\"}},\"sync_mode\":\"incremental\",\"destination_sync_mode\":\"append\"}]}",
            ),
            (
                "s",
                b"[{\"type\":\"STREAM\",\"stream\":{\"stream_descriptor\":{\"name\":\"b\"},\"stream_state\":{\"row\":\"1\"}}}]",
            ),
            ("x", b"id,name\n1,Ann\n2,\"O\"\"Neil\"\n"),
        ],
        true,
        "{\"type\":\"TRACE\",\"trace\":{\"type\":\"STREAM_STATUS\",\"emitted_at\":5,\"stream_status\":{\"stream_descriptor\":{\"name\":\"a\"},\"status\":\"STARTED\"}}}\n{\"type\":\"RECORD\",\"record\":{\"stream\":\"a\",\"data\":{\"id\":\"1\",\"name\":\"Ann\"},\"emitted_at\":5}}\n{\"type\":\"RECORD\",\"record\":{\"stream\":\"a\",\"data\":{\"id\":\"2\",\"name\":\"O\\\"Neil\"},\"emitted_at\":5}}\n{\"type\":\"STATE\",\"state\":{\"type\":\"STREAM\",\"stream\":{\"stream_descriptor\":{\"name\":\"a\"},\"stream_state\":{\"row\":2}},\"sourceStats\":{\"recordCount\":2}}}\n{\"type\":\"TRACE\",\"trace\":{\"type\":\"STREAM_STATUS\",\"emitted_at\":5,\"stream_status\":{\"stream_descriptor\":{\"name\":\"a\"},\"status\":\"COMPLETE\"}}}\n0 Ok",
    ),
    (
        "a stream with a namespace",
        &[
            ("c", b"{\"files\":[{\"name\":\"a\",\"path\":\"x\"}]}"),
            (
                "k",
                b"{\"streams\":[{\"stream\":{\"name\":\"a\",\"namespace\":\"n\",\"json_schema\":{\"type\":\"object\"}},\"sync_mode\":\"incremental\",\"destination_sync_mode\":\"append\"}]}",
            ),
            ("x", b"id,name\n1,Ann\n2,\"O\"\"Neil\"\n"),
        ],
        false,
        "11 BadCatalog Missing stream 0",
    ),
    (
        "a stream that is no file",
        &[
            ("c", b"{\"files\":[{\"name\":\"a\",\"path\":\"x\"}]}"),
            (
                "k",
                b"{\"streams\":[{\"stream\":{\"name\":\"a\",\"json_schema\":{\"type\":\"object\"}},\"sync_mode\":\"incremental\",\"destination_sync_mode\":\"append\"},{\"stream\":{\"name\":\"b\",\"json_schema\":{\"type\":\"object\"}},\"sync_mode\":\"incremental\",\"destination_sync_mode\":\"append\"}]}",
            ),
            ("x", b"id,name\n1,Ann\n2,\"O\"\"Neil\"\n"),
        ],
        false,
        "11 BadCatalog Missing stream 1",
    ),
    (
        "of two files with one name the first counts",
        &[
            (
                "c",
                b"{\"files\":[{\"name\":\"a\",\"path\":\"x\"},{\"name\":\"a\",\"path\":\"y\"}]}",
            ),
            (
                "k",
                b"{\"streams\":[{\"stream\":{\"name\":\"a\",\"json_schema\":{\"type\":\"object\"}},\"sync_mode\":\"incremental\",\"destination_sync_mode\":\"append\"}]}",
            ),
            ("x", b"id,name\n1,Ann\n2,\"O\"\"Neil\"\n"),
            ("y", b"n\n1\n2\n3\n4\n5\n"),
        ],
        false,
        "{\"type\":\"TRACE\",\"trace\":{\"type\":\"STREAM_STATUS\",\"emitted_at\":5,\"stream_status\":{\"stream_descriptor\":{\"name\":\"a\"},\"status\":\"STARTED\"}}}\n{\"type\":\"RECORD\",\"record\":{\"stream\":\"a\",\"data\":{\"id\":\"1\",\"name\":\"Ann\"},\"emitted_at\":5}}\n{\"type\":\"RECORD\",\"record\":{\"stream\":\"a\",\"data\":{\"id\":\"2\",\"name\":\"O\\\"Neil\"},\"emitted_at\":5}}\n{\"type\":\"STATE\",\"state\":{\"type\":\"STREAM\",\"stream\":{\"stream_descriptor\":{\"name\":\"a\"},\"stream_state\":{\"row\":2}},\"sourceStats\":{\"recordCount\":2}}}\n{\"type\":\"TRACE\",\"trace\":{\"type\":\"STREAM_STATUS\",\"emitted_at\":5,\"stream_status\":{\"stream_descriptor\":{\"name\":\"a\"},\"status\":\"COMPLETE\"}}}\n0 Ok",
    ),
];

const CONFIGS: &[Case] = &[
    (
        "no member files",
        &[
            ("c", b"{}"),
            (
                "k",
                b"{\"streams\":[{\"stream\":{\"name\":\"a\",\"json_schema\":{\"type\":\"object\"}},\"sync_mode\":\"incremental\",\"destination_sync_mode\":\"append\"}]}",
            ),
            ("x", b"id,name\n1,Ann\n2,\"O\"\"Neil\"\n"),
        ],
        false,
        "10 BadConfig Missing",
    ),
    (
        "every is a text",
        &[
            (
                "c",
                b"{\"files\":[{\"name\":\"a\",\"path\":\"x\",\"every\":\"1\"}]}",
            ),
            (
                "k",
                b"{\"streams\":[{\"stream\":{\"name\":\"a\",\"json_schema\":{\"type\":\"object\"}},\"sync_mode\":\"incremental\",\"destination_sync_mode\":\"append\"}]}",
            ),
            ("x", b"id,name\n1,Ann\n2,\"O\"\"Neil\"\n"),
        ],
        false,
        "10 BadConfig Missing",
    ),
    (
        "a path is missing behind a number out of range",
        &[
            (
                "c",
                b"{\"files\":[{\"name\":\"a\",\"path\":\"x\",\"every\":0},{\"name\":\"b\"}]}",
            ),
            (
                "k",
                b"{\"streams\":[{\"stream\":{\"name\":\"a\",\"json_schema\":{\"type\":\"object\"}},\"sync_mode\":\"incremental\",\"destination_sync_mode\":\"append\"}]}",
            ),
            ("x", b"id,name\n1,Ann\n2,\"O\"\"Neil\"\n"),
        ],
        false,
        "10 BadConfig Missing",
    ),
    (
        "every is out of range",
        &[
            (
                "c",
                b"{\"files\":[{\"name\":\"a\",\"path\":\"x\",\"every\":1000001}]}",
            ),
            (
                "k",
                b"{\"streams\":[{\"stream\":{\"name\":\"a\",\"json_schema\":{\"type\":\"object\"}},\"sync_mode\":\"incremental\",\"destination_sync_mode\":\"append\"}]}",
            ),
            ("x", b"id,name\n1,Ann\n2,\"O\"\"Neil\"\n"),
        ],
        false,
        "10 BadConfig OutOfRange",
    ),
    (
        "every is no whole number",
        &[
            (
                "c",
                b"{\"files\":[{\"name\":\"a\",\"path\":\"x\",\"every\":1.5}]}",
            ),
            (
                "k",
                b"{\"streams\":[{\"stream\":{\"name\":\"a\",\"json_schema\":{\"type\":\"object\"}},\"sync_mode\":\"incremental\",\"destination_sync_mode\":\"append\"}]}",
            ),
            ("x", b"id,name\n1,Ann\n2,\"O\"\"Neil\"\n"),
        ],
        false,
        "10 BadConfig OutOfRange",
    ),
    (
        "every is null",
        &[
            (
                "c",
                b"{\"files\":[{\"name\":\"a\",\"path\":\"x\",\"every\":null}]}",
            ),
            (
                "k",
                b"{\"streams\":[{\"stream\":{\"name\":\"a\",\"json_schema\":{\"type\":\"object\"}},\"sync_mode\":\"incremental\",\"destination_sync_mode\":\"append\"}]}",
            ),
            ("x", b"id,name\n1,Ann\n2,\"O\"\"Neil\"\n"),
        ],
        false,
        "{\"type\":\"TRACE\",\"trace\":{\"type\":\"STREAM_STATUS\",\"emitted_at\":5,\"stream_status\":{\"stream_descriptor\":{\"name\":\"a\"},\"status\":\"STARTED\"}}}\n{\"type\":\"RECORD\",\"record\":{\"stream\":\"a\",\"data\":{\"id\":\"1\",\"name\":\"Ann\"},\"emitted_at\":5}}\n{\"type\":\"RECORD\",\"record\":{\"stream\":\"a\",\"data\":{\"id\":\"2\",\"name\":\"O\\\"Neil\"},\"emitted_at\":5}}\n{\"type\":\"STATE\",\"state\":{\"type\":\"STREAM\",\"stream\":{\"stream_descriptor\":{\"name\":\"a\"},\"stream_state\":{\"row\":2}},\"sourceStats\":{\"recordCount\":2}}}\n{\"type\":\"TRACE\",\"trace\":{\"type\":\"STREAM_STATUS\",\"emitted_at\":5,\"stream_status\":{\"stream_descriptor\":{\"name\":\"a\"},\"status\":\"COMPLETE\"}}}\n0 Ok",
    ),
    (
        "an array",
        &[
            ("c", b"[]"),
            (
                "k",
                b"{\"streams\":[{\"stream\":{\"name\":\"a\",\"json_schema\":{\"type\":\"object\"}},\"sync_mode\":\"incremental\",\"destination_sync_mode\":\"append\"}]}",
            ),
            ("x", b"id,name\n1,Ann\n2,\"O\"\"Neil\"\n"),
        ],
        false,
        "10 BadConfig NotJson",
    ),
    (
        "no files at all",
        &[("c", b"{\"files\":[]}"), ("k", b"{\"streams\":[]}")],
        false,
        "0 Ok",
    ),
];

const ORDER: &[Case] = &[
    (
        "a missing file",
        &[
            (
                "c",
                b"{\"files\":[{\"name\":\"a\",\"path\":\"x\"},{\"name\":\"b\",\"path\":\"y\"}]}",
            ),
            (
                "k",
                b"{\"streams\":[{\"stream\":{\"name\":\"a\",\"json_schema\":{\"type\":\"object\"}},\"sync_mode\":\"incremental\",\"destination_sync_mode\":\"append\"},{\"stream\":{\"name\":\"b\",\"json_schema\":{\"type\":\"object\"}},\"sync_mode\":\"incremental\",\"destination_sync_mode\":\"append\"}]}",
            ),
            ("x", b"id,name\n1,Ann\n2,\"O\"\"Neil\"\n"),
        ],
        false,
        "13 FileFault",
    ),
    (
        "a missing file before a faulty catalog",
        &[
            (
                "c",
                b"{\"files\":[{\"name\":\"a\",\"path\":\"x\"},{\"name\":\"b\",\"path\":\"y\"}]}",
            ),
            ("k", b"x"),
            ("x", b"id,name\n1,Ann\n2,\"O\"\"Neil\"\n"),
        ],
        false,
        "13 FileFault",
    ),
    (
        "a faulty catalog before faulty states",
        &[
            ("c", b"{\"files\":[{\"name\":\"a\",\"path\":\"x\"}]}"),
            ("k", b"x"),
            ("s", b"x"),
            ("x", b"id,name\n1,Ann\n2,\"O\"\"Neil\"\n"),
        ],
        true,
        "11 BadCatalog NotJson",
    ),
    (
        "faulty states",
        &[
            ("c", b"{\"files\":[{\"name\":\"a\",\"path\":\"x\"}]}"),
            (
                "k",
                b"{\"streams\":[{\"stream\":{\"name\":\"a\",\"json_schema\":{\"type\":\"object\"}},\"sync_mode\":\"incremental\",\"destination_sync_mode\":\"append\"}]}",
            ),
            ("s", b"x"),
            ("x", b"id,name\n1,Ann\n2,\"O\"\"Neil\"\n"),
        ],
        true,
        "12 BadState NotJson",
    ),
    (
        "a state of all streams",
        &[
            ("c", b"{\"files\":[{\"name\":\"a\",\"path\":\"x\"}]}"),
            (
                "k",
                b"{\"streams\":[{\"stream\":{\"name\":\"a\",\"json_schema\":{\"type\":\"object\"}},\"sync_mode\":\"incremental\",\"destination_sync_mode\":\"append\"}]}",
            ),
            (
                "s",
                b"[{\"type\":\"GLOBAL\",\"global\":{\"shared_state\":{},\"stream_states\":[]}}]",
            ),
            ("x", b"id,name\n1,Ann\n2,\"O\"\"Neil\"\n"),
        ],
        true,
        "12 BadState Blob",
    ),
];

// The first of these that is read in another way.
fn first_wrong(alloc: Global, cases: &[Case]) -> Result<Option<&'static str>, NoMemory> {
    for (what, texts, has_states, want) in cases {
        let words = if *has_states { READ_FROM } else { READ };
        let found = run(alloc, texts, words, &[])?;
        if found.as_slice() != want.as_bytes() {
            return Ok(Some(*what));
        }
    }
    Ok(None)
}

fn wrong_starts(alloc: Global) -> Result<Option<&'static str>, NoMemory> {
    first_wrong(alloc, STARTS)
}

fn wrong_states(alloc: Global) -> Result<Option<&'static str>, NoMemory> {
    first_wrong(alloc, STATES)
}

fn wrong_texts(alloc: Global) -> Result<Option<&'static str>, NoMemory> {
    first_wrong(alloc, TEXTS)
}

fn wrong_fields(alloc: Global) -> Result<Option<&'static str>, NoMemory> {
    first_wrong(alloc, FIELDS)
}

fn wrong_misfits(alloc: Global) -> Result<Option<&'static str>, NoMemory> {
    first_wrong(alloc, MISFITS)
}

fn wrong_files(alloc: Global) -> Result<Option<&'static str>, NoMemory> {
    first_wrong(alloc, FILES)
}

fn wrong_refused_second(alloc: Global) -> Result<Option<&'static str>, NoMemory> {
    first_wrong(alloc, REFUSED_SECOND)
}

fn wrong_names(alloc: Global) -> Result<Option<&'static str>, NoMemory> {
    first_wrong(alloc, NAMES)
}

fn wrong_configs(alloc: Global) -> Result<Option<&'static str>, NoMemory> {
    first_wrong(alloc, CONFIGS)
}

fn wrong_order(alloc: Global) -> Result<Option<&'static str>, NoMemory> {
    first_wrong(alloc, ORDER)
}

#[test]
fn files_are_read(rt: HostRuntime) -> Result<(), Fail> {
    assert_eq!(rt; wrong_starts(rt.alloc())?, None);
    assert_eq!(rt; wrong_states(rt.alloc())?, None);
    assert_eq!(rt; wrong_texts(rt.alloc())?, None);
    assert_eq!(rt; wrong_fields(rt.alloc())?, None);
    assert_eq!(rt; wrong_misfits(rt.alloc())?, None);
    assert_eq!(rt; wrong_files(rt.alloc())?, None);
    assert_eq!(rt; wrong_refused_second(rt.alloc())?, None);
    assert_eq!(rt; wrong_names(rt.alloc())?, None);
    assert_eq!(rt; wrong_configs(rt.alloc())?, None);
    assert_eq!(rt; wrong_order(rt.alloc())?, None);
    Ok(())
}
