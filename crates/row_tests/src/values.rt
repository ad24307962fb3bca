// The values at paths.
use basics::{Bytes, Name, NoMemory, Path};
use column_types::value_of;
use std::alloc::Global;
use std::test::Fail;
use value_order::value_text;

// The text of the value at a path of two names at most; an empty name ends the path.
fn text_at(
    alloc: Global,
    body: &str,
    path: [&str; 2],
    is_instant: bool,
) -> Result<Bytes, NoMemory> {
    let mut names = Path::new(alloc);
    for name in path {
        if !name.is_empty() {
            names.push(Name::copy_of(alloc, name)?)?;
        }
    }
    value_text(
        alloc,
        &value_of(alloc, body.as_bytes(), &names, is_instant)?,
    )
}

#[test]
fn values_are_found_at_their_paths(rt: HostRuntime) -> Result<(), Fail> {
    for (body, path, is_instant, text) in [
        (r#"{"k":{"z":false}}"#, ["k", "z"], false, "f"),
        (r#"{"k":{"z":false}}"#, ["q", ""], false, "n"),
        (r#"{"k":{"z":false}}"#, ["k", "q"], false, "n"),
        (r#"{"k":[1]}"#, ["k", "0"], false, "n"),
        (r#"{"k":1,"k":2}"#, ["k", ""], false, "#2e0"),
        (r#"{"k":1,"\u006b":null}"#, ["k", ""], false, "n"),
        (r#"{"k":-0}"#, ["k", ""], false, "#0e0"),
        (r#"{"k":0.0}"#, ["k", ""], false, "#0e0"),
        (r#"{"k":0e5}"#, ["k", ""], false, "#0e0"),
        (r#"{"k":10}"#, ["k", ""], false, "#1e1"),
        (r#"{"k":1e1}"#, ["k", ""], false, "#1e1"),
        (r#"{"k":-9.50}"#, ["k", ""], false, "#-95e-1"),
        (r#"{"k":1e400}"#, ["k", ""], false, "#1e400"),
        (r#"{"k":1e401}"#, ["k", ""], false, "?5:1e401"),
        (
            r#"{"k":100000000000000000000000000000000000001}"#,
            ["k", ""],
            false,
            "?39:100000000000000000000000000000000000001",
        ),
        (
            r#"{"k":1000000000000000000000000000000000000000}"#,
            ["k", ""],
            false,
            "#1e39",
        ),
        (r#"{"k":"Zo\u00eb"}"#, ["k", ""], false, "\"4:Zoë"),
        (r#"{"k":[ 1, "a b" ]}"#, ["k", ""], false, "?9:[1,\"a b\"]"),
        (r#"{"k":{ }}"#, ["k", ""], false, "?2:{}"),
        (
            r#"{"k":"2024-05-01T10:00:00Z"}"#,
            ["k", ""],
            true,
            "@1714557600000000000",
        ),
        (
            r#"{"k":"2024-05-01T12:00:00+02:00"}"#,
            ["k", ""],
            true,
            "@1714557600000000000",
        ),
        (
            r#"{"k":"2024-05-01T10:00:00Z"}"#,
            ["k", ""],
            false,
            "\"20:2024-05-01T10:00:00Z",
        ),
        (
            r#"{"k":"2024-05-01T00:00:00+02:00"}"#,
            ["k", ""],
            true,
            "@1714514400000000000",
        ),
        (
            r#"{"k":"2024-04-30T23:00:00Z"}"#,
            ["k", ""],
            true,
            "@1714518000000000000",
        ),
        (r#"{"k":"2024-05-01"}"#, ["k", ""], true, "\"10:2024-05-01"),
        (
            r#"{"k":"1969-12-31T23:59:59.999999999Z"}"#,
            ["k", ""],
            true,
            "@-1",
        ),
        // A leap second counts as the second before it.
        (
            r#"{"k":"2016-12-31T23:59:60Z"}"#,
            ["k", ""],
            true,
            "@1483228799000000000",
        ),
        (r#"{"k":"soon"}"#, ["k", ""], true, "\"4:soon"),
        (r#"{"k":7}"#, ["k", ""], true, "#7e0"),
        (r#"{ "k" : 1 }"#, ["", ""], false, "?7:{\"k\":1}"),
        ("[1]", ["k", ""], false, "n"),
        ("", ["", ""], false, "n"),
    ] {
        assert_eq!(rt;
            text_at(rt.alloc(), body, path, is_instant)?.as_slice(),
            text.as_bytes(),
            "{body}"
        );
    }
    Ok(())
}
