// How values are written in columns.
use basics::{Bytes, NoMemory};
use column_types::{ColumnType, Typed, type_value};
use json_fields::{cut, field};
use std::alloc::Global;
use std::test::Fail;

// What a column of this kind has of the member `v`: its text, and `-` where the value is nulled.
fn written(alloc: Global, kind: ColumnType, data: &str) -> Result<Bytes, NoMemory> {
    let Some(members) = cut(alloc, data.as_bytes(), 127)? else {
        return Ok(Bytes::new(alloc));
    };
    match field(alloc, data.as_bytes(), &members, "v")? {
        Some(value) => match type_value(alloc, kind, value)? {
            Typed::Fits(text) => Ok(text),
            Typed::Nulled => Bytes::copy_of(alloc, b"-"),
        },
        None => Ok(Bytes::new(alloc)),
    }
}

#[test]
fn values_are_written_by_their_kind(rt: HostRuntime) -> Result<(), Fail> {
    for (kind, data, text) in [
        (ColumnType::Whole, r#"{"v":10.0}"#, "10"),
        (ColumnType::Whole, r#"{"v":1e3}"#, "1000"),
        (ColumnType::Whole, r#"{"v":-0}"#, "0"),
        (ColumnType::Whole, r#"{"v":"x"}"#, "-"),
        (ColumnType::Whole, r#"{"v":"7"}"#, "-"),
        (ColumnType::Whole, r#"{"v":1.5}"#, "-"),
        (ColumnType::Whole, r#"{"v":true}"#, "-"),
        (ColumnType::Whole, r#"{"v":null}"#, "null"),
        (
            ColumnType::Whole,
            r#"{"v":9223372036854775807}"#,
            "9223372036854775807",
        ),
        (ColumnType::Whole, r#"{"v":9223372036854775808}"#, "-"),
        (
            ColumnType::Whole,
            r#"{"v":-9.223372036854775808e18}"#,
            "-9223372036854775808",
        ),
        (ColumnType::Whole, r#"{"v":-9223372036854775809}"#, "-"),
        (ColumnType::Whole, r#"{"v":1e400}"#, "-"),
        (ColumnType::Whole, r#"{"v":-50e-1}"#, "-5"),
        (ColumnType::Instant, r#"{"v":"soon"}"#, r#""soon""#),
        (ColumnType::Instant, r#"{"v":1714557600}"#, "-"),
        (ColumnType::Text, r#"{"v":"Zo\u00eb"}"#, r#""Zo\u00eb""#),
        (ColumnType::Text, r#"{"v":1}"#, "-"),
        (ColumnType::Text, r#"{"v":["a"]}"#, "-"),
        (ColumnType::Text, r#"{"v":null}"#, "null"),
        (ColumnType::Bool, r#"{"v":true}"#, "true"),
        (ColumnType::Bool, r#"{"v":false}"#, "false"),
        (ColumnType::Bool, r#"{"v":"true"}"#, "-"),
        (ColumnType::Number, r#"{"v":1.50}"#, "1.50"),
        (ColumnType::Number, r#"{"v":1e401}"#, "1e401"),
        (ColumnType::Number, r#"{"v":-0}"#, "-0"),
        (ColumnType::Number, r#"{"v":"1"}"#, "-"),
        (ColumnType::Json, r#"{"v":[ 1 ]}"#, "[ 1 ]"),
        (ColumnType::Json, r#"{"v":null}"#, "null"),
    ] {
        assert_eq!(rt;
            written(rt.alloc(), kind, data)?.as_slice(),
            text.as_bytes(),
            "{data}"
        );
    }
    Ok(())
}
