// The command `local` over texts in memory.
use crate::desks::{CATALOG, desk_of, local_says, says};
use outside::Status;
use std::test::Fail;

const FILES: &[(&str, &str, Status, &[&str])] = &[
    (
        "a state alone is saved",
        "{\"type\":\"STATE\",\"state\":{\"type\":\"STREAM\",\"stream\":{\"stream_descriptor\":{\"name\":\"a\"},\"stream_state\":{}},\"sourceStats\":{\"recordCount\":0}}}",
        Status::Ok,
        &[
            "saved {\"type\":\"STREAM\",\"stream\":{\"stream_descriptor\":{\"name\":\"a\"},\"stream_state\":{}},\"sourceStats\":{\"recordCount\":0}}",
            "attempt 1: 0 Ok",
            "table a rows 0",
            "status 0 Ok",
        ],
    ),
    (
        "an empty file has an empty table",
        "",
        Status::Ok,
        &["attempt 1: 0 Ok", "table a rows 0", "status 0 Ok"],
    ),
    (
        "a record and its state",
        "{\"type\":\"RECORD\",\"record\":{\"stream\":\"a\",\"data\":{\"id\":7,\"v\":1},\"emitted_at\":1}}\n{\"type\":\"STATE\",\"state\":{\"type\":\"STREAM\",\"stream\":{\"stream_descriptor\":{\"name\":\"a\"},\"stream_state\":{\"n\":1}},\"sourceStats\":{\"recordCount\":1}}}\n",
        Status::Ok,
        &[
            "saved {\"type\":\"STREAM\",\"stream\":{\"stream_descriptor\":{\"name\":\"a\"},\"stream_state\":{\"n\":1}},\"sourceStats\":{\"recordCount\":1}}",
            "attempt 1: 0 Ok",
            "table a rows 1",
            "row {\"id\":7,\"v\":1}",
            "status 0 Ok",
        ],
    ),
    (
        "a record of another stream is not taken",
        "{\"type\":\"RECORD\",\"record\":{\"stream\":\"a\",\"data\":{\"id\":1},\"emitted_at\":1}}\n{\"type\":\"RECORD\",\"record\":{\"stream\":\"zz\",\"data\":{},\"emitted_at\":1}}\n",
        Status::Unbuilt { line: 2 },
        &["attempt 1: 60 Unbuilt line 2", "status 60 Unbuilt line 2"],
    ),
    (
        "states saved before a refused line stay said",
        "{\"type\":\"STATE\",\"state\":{\"type\":\"STREAM\",\"stream\":{\"stream_descriptor\":{\"name\":\"a\"},\"stream_state\":{}},\"sourceStats\":{\"recordCount\":0}}}\n{\"type\":\"RECORD\",\"record\":{\"stream\":\"zz\",\"data\":{},\"emitted_at\":1}}\n",
        Status::Unbuilt { line: 2 },
        &[
            "saved {\"type\":\"STREAM\",\"stream\":{\"stream_descriptor\":{\"name\":\"a\"},\"stream_state\":{}},\"sourceStats\":{\"recordCount\":0}}",
            "attempt 1: 60 Unbuilt line 2",
            "status 60 Unbuilt line 2",
        ],
    ),
    (
        "a torn last line that is a message counts",
        "{\"type\":\"RECORD\",\"record\":{\"stream\":\"a\",\"data\":{\"id\":1},\"emitted_at\":1}}\n{\"type\":\"RECORD\",\"record\":{\"stream\":\"a\",\"data\":{\"id\":2},\"emitted_at\":1}}",
        Status::Ok,
        &[
            "attempt 1: 0 Ok",
            "table a rows 2",
            "row {\"id\":1}",
            "row {\"id\":2}",
            "status 0 Ok",
        ],
    ),
    (
        "a torn last line that is none is said",
        "{\"type\":\"RECORD\",\"record\":{\"stream\":\"a\",\"data\":{\"id\":1},\"emitted_at\":1}}\n{\"type\":\"RECORD\",\"record\":{\"stream\":\"a\",\"data\":{\"id\":2},\"emitted_at\":1}",
        Status::Ok,
        &[
            "source: {\"type\":\"RECORD\",\"record\":{\"stream\":\"a\",\"data\":{\"id\":2},\"emitted_at\":1}",
            "attempt 1: 0 Ok",
            "table a rows 1",
            "row {\"id\":1}",
            "status 0 Ok",
        ],
    ),
    (
        "blank lines have no number",
        "\n \t\r\n{\"type\":\"RECORD\",\"record\":{\"stream\":\"a\",\"data\":{\"id\":1},\"emitted_at\":1}}\n\n\r\n{\"type\":\"RECORD\",\"record\":{\"stream\":\"zz\",\"data\":{},\"emitted_at\":1}}\n",
        Status::Unbuilt { line: 2 },
        &["attempt 1: 60 Unbuilt line 2", "status 60 Unbuilt line 2"],
    ),
    (
        "a count that differs is refused",
        "{\"type\":\"RECORD\",\"record\":{\"stream\":\"a\",\"data\":{\"id\":1},\"emitted_at\":1}}\n{\"type\":\"RECORD\",\"record\":{\"stream\":\"a\",\"data\":{\"id\":2},\"emitted_at\":1}}\n{\"type\":\"STATE\",\"state\":{\"type\":\"STREAM\",\"stream\":{\"stream_descriptor\":{\"name\":\"a\"},\"stream_state\":{}},\"sourceStats\":{\"recordCount\":3}}}\n",
        Status::Unbuilt { line: 3 },
        &["attempt 1: 60 Unbuilt line 3", "status 60 Unbuilt line 3"],
    ),
    (
        "counts are those since the state before",
        "{\"type\":\"RECORD\",\"record\":{\"stream\":\"a\",\"data\":{},\"emitted_at\":1}}\n{\"type\":\"STATE\",\"state\":{\"type\":\"STREAM\",\"stream\":{\"stream_descriptor\":{\"name\":\"a\"},\"stream_state\":{\"n\":1}},\"sourceStats\":{\"recordCount\":1}}}\n{\"type\":\"RECORD\",\"record\":{\"stream\":\"a\",\"data\":{},\"emitted_at\":1}}\n{\"type\":\"RECORD\",\"record\":{\"stream\":\"a\",\"data\":{},\"emitted_at\":1}}\n{\"type\":\"STATE\",\"state\":{\"type\":\"STREAM\",\"stream\":{\"stream_descriptor\":{\"name\":\"a\"},\"stream_state\":{\"n\":3}},\"sourceStats\":{\"recordCount\":2.0}}}\n",
        Status::Ok,
        &[
            "saved {\"type\":\"STREAM\",\"stream\":{\"stream_descriptor\":{\"name\":\"a\"},\"stream_state\":{\"n\":1}},\"sourceStats\":{\"recordCount\":1}}",
            "saved {\"type\":\"STREAM\",\"stream\":{\"stream_descriptor\":{\"name\":\"a\"},\"stream_state\":{\"n\":3}},\"sourceStats\":{\"recordCount\":2.0}}",
            "attempt 1: 0 Ok",
            "table a rows 3",
            "row {}",
            "row {}",
            "row {}",
            "status 0 Ok",
        ],
    ),
    (
        "a state without a count is taken",
        "{\"type\":\"STATE\",\"state\":{\"type\":\"STREAM\",\"stream\":{\"stream_descriptor\":{\"name\":\"a\"}}}}\n",
        Status::Ok,
        &[
            "saved {\"type\":\"STREAM\",\"stream\":{\"stream_descriptor\":{\"name\":\"a\"}}}",
            "attempt 1: 0 Ok",
            "table a rows 0",
            "status 0 Ok",
        ],
    ),
    (
        "a stream in a namespace is another",
        "{\"type\":\"RECORD\",\"record\":{\"stream\":\"a\",\"namespace\":\"\",\"data\":{},\"emitted_at\":1}}\n",
        Status::Unbuilt { line: 1 },
        &["attempt 1: 60 Unbuilt line 1", "status 60 Unbuilt line 1"],
    ),
    (
        "a body is said as it stood",
        "{\"type\":\"RECORD\",\"record\":{\"emitted_at\":1,\"data\":{ \"v\" : 10.0 , \"z\":\"Zo\\u00eb\" },\"stream\":\"a\"}}\n",
        Status::Ok,
        &[
            "attempt 1: 0 Ok",
            "table a rows 1",
            "row { \"v\" : 10.0 , \"z\":\"Zo\\u00eb\" }",
            "status 0 Ok",
        ],
    ),
];

#[test]
fn files_are_taken_line_by_line(rt: HostRuntime) -> Result<(), Fail> {
    for (name, messages, status, lines) in FILES {
        let said = local_says(rt.alloc(), messages, CATALOG, *status, lines)?;
        assert!(rt; said, "{name}");
    }
    Ok(())
}

const REFUSED: &[(&str, &str)] = &[
    ("no JSON", "{"),
    ("no streams", "{}"),
    ("no stream", "{\"streams\":[]}"),
    (
        "two streams",
        "{\"streams\":[{\"stream\":{\"name\":\"a\",\"json_schema\":{\"type\":\"object\",\"properties\":{\"id\":{\"type\":\"integer\"},\"v\":{\"type\":\"number\"}}},\"supported_sync_modes\":[\"incremental\"]},\"sync_mode\":\"incremental\",\"destination_sync_mode\":\"append\"},{\"stream\":{\"name\":\"a\",\"json_schema\":{\"type\":\"object\",\"properties\":{\"id\":{\"type\":\"integer\"},\"v\":{\"type\":\"number\"}}},\"supported_sync_modes\":[\"incremental\"]},\"sync_mode\":\"incremental\",\"destination_sync_mode\":\"append\"}]}",
    ),
    (
        "a namespace",
        "{\"streams\":[{\"stream\":{\"name\":\"a\",\"namespace\":\"n\",\"json_schema\":{\"type\":\"object\",\"properties\":{\"id\":{\"type\":\"integer\"},\"v\":{\"type\":\"number\"}}},\"supported_sync_modes\":[\"incremental\"]},\"sync_mode\":\"incremental\",\"destination_sync_mode\":\"append\"}]}",
    ),
    (
        "another mode",
        "{\"streams\":[{\"stream\":{\"name\":\"a\",\"json_schema\":{\"type\":\"object\",\"properties\":{\"id\":{\"type\":\"integer\"},\"v\":{\"type\":\"number\"}}},\"supported_sync_modes\":[\"incremental\"]},\"sync_mode\":\"incremental\",\"destination_sync_mode\":\"overwrite\"}]}",
    ),
    (
        "a full refresh",
        "{\"streams\":[{\"stream\":{\"name\":\"a\",\"json_schema\":{\"type\":\"object\",\"properties\":{\"id\":{\"type\":\"integer\"},\"v\":{\"type\":\"number\"}}},\"supported_sync_modes\":[\"incremental\"]},\"sync_mode\":\"full_refresh\",\"destination_sync_mode\":\"append\"}]}",
    ),
    (
        "a generation",
        "{\"streams\":[{\"stream\":{\"name\":\"a\",\"json_schema\":{\"type\":\"object\",\"properties\":{\"id\":{\"type\":\"integer\"},\"v\":{\"type\":\"number\"}}},\"supported_sync_modes\":[\"incremental\"]},\"sync_mode\":\"incremental\",\"destination_sync_mode\":\"append\",\"generation_id\":1}]}",
    ),
    (
        "no name",
        "{\"streams\":[{\"stream\":{\"json_schema\":{\"type\":\"object\",\"properties\":{\"id\":{\"type\":\"integer\"},\"v\":{\"type\":\"number\"}}},\"supported_sync_modes\":[\"incremental\"]},\"sync_mode\":\"incremental\",\"destination_sync_mode\":\"append\"}]}",
    ),
];

#[test]
fn catalogs_of_another_form_are_refused_without_an_attempt(rt: HostRuntime) -> Result<(), Fail> {
    let status = Status::Unbuilt { line: 0 };
    for (name, catalog) in REFUSED {
        let lines = ["status 60 Unbuilt line 0"];
        let said = local_says(rt.alloc(), "", catalog, status, &lines)?;
        assert!(rt; said, "{name}");
    }
    Ok(())
}

const TAKEN: &[(&str, &str)] = &[
    (
        "null members",
        "{\"streams\":[{\"stream\":{\"name\":\"a\",\"namespace\":null,\"json_schema\":{\"type\":\"object\",\"properties\":{\"id\":{\"type\":\"integer\"},\"v\":{\"type\":\"number\"}}},\"supported_sync_modes\":[\"incremental\"]},\"sync_mode\":\"incremental\",\"destination_sync_mode\":\"append\",\"generation_id\":null}]}",
    ),
    (
        "white space",
        "{\"streams\":[ {\"stream\":{\"name\":\"a\",\"json_schema\":{\"type\":\"object\",\"properties\":{\"id\":{\"type\":\"integer\"},\"v\":{\"type\":\"number\"}}},\"supported_sync_modes\":[\"incremental\"]},\"sync_mode\":\"incremental\",\"destination_sync_mode\":\"append\"}\t]}",
    ),
];

#[test]
fn null_members_and_white_space_of_a_catalog_are_passed_over(rt: HostRuntime) -> Result<(), Fail> {
    for (name, catalog) in TAKEN {
        let lines = ["attempt 1: 0 Ok", "table a rows 0", "status 0 Ok"];
        let said = local_says(rt.alloc(), "", catalog, Status::Ok, &lines)?;
        assert!(rt; said, "{name}");
    }
    Ok(())
}

#[test]
fn a_name_with_control_bytes_begins_no_line(rt: HostRuntime) -> Result<(), Fail> {
    let catalog =
        r#"{"streams":[{"stream":{"name":"a\nstatus 0 Ok\u0001"},"sync_mode":"incremental","destination_sync_mode":"append"}]}"#;
    let lines = [
        "attempt 1: 0 Ok",
        "table a status 0 Ok  rows 0",
        "status 0 Ok",
    ];
    let said = local_says(rt.alloc(), "", catalog, Status::Ok, &lines)?;
    assert!(rt; said, "a name that would begin a line");
    Ok(())
}

const MISSING: &[&[&str]] = &[
    &["local", "--messages", "none", "--catalog", "c"],
    &["local", "--messages", "m", "--catalog", "none"],
];

#[test]
fn a_missing_text_ends_the_run(rt: HostRuntime) -> Result<(), Fail> {
    let lines = ["status 13 FileFault"];
    for words in MISSING {
        let desk = desk_of(rt.alloc(), b"", CATALOG.as_bytes(), 0)?;
        let said = says(rt.alloc(), desk, words, Status::FileFault, &lines)?;
        assert!(rt; said, "{words:?}");
    }
    Ok(())
}

#[test]
fn a_catalog_is_refused_before_missing_messages_are_asked_for(rt: HostRuntime) -> Result<(), Fail> {
    let words = ["local", "--messages", "none", "--catalog", "c"];
    let status = Status::Unbuilt { line: 0 };
    let desk = desk_of(rt.alloc(), b"", b"{}", 0)?;
    let said = says(
        rt.alloc(),
        desk,
        &words,
        status,
        &["status 60 Unbuilt line 0"],
    )?;
    assert!(rt; said);
    Ok(())
}

const OTHER_WORDS: &[&[&str]] = &[
    &[],
    &["local"],
    &["local", "--messages", "m.txt"],
    &["local", "--messages", "m", "--catalog", ""],
    &["local", "--messages", "m", "--catalog", "-c"],
    &["local", "--messages", "m", "--messages", "c"],
    &["local", "--messages", "m", "--catalog", "c", "x"],
    &["sync", "--messages", "m", "--catalog", "c"],
];

#[test]
fn words_of_another_form_get_the_usage(rt: HostRuntime) -> Result<(), Fail> {
    let lines = [
        "usage: airbyte_worker local --messages F --catalog F",
        "status 2 Usage",
    ];
    for words in OTHER_WORDS {
        let desk = desk_of(rt.alloc(), b"", CATALOG.as_bytes(), 0)?;
        let said = says(rt.alloc(), desk, words, Status::Usage, &lines)?;
        assert!(rt; said, "{words:?}");
    }
    Ok(())
}

#[test]
fn the_options_stand_in_either_order(rt: HostRuntime) -> Result<(), Fail> {
    let words = ["local", "--catalog", "c", "--messages", "m"];
    let lines = ["attempt 1: 0 Ok", "table a rows 0", "status 0 Ok"];
    let desk = desk_of(rt.alloc(), b"", CATALOG.as_bytes(), 0)?;
    assert!(rt; says(rt.alloc(), desk, &words, Status::Ok, &lines)?);
    Ok(())
}
