// The columns of schemas.
use basics::{Bytes, Name, NoMemory, Path};
use column_types::{ColumnType, columns_of, is_instant};
use std::alloc::Global;
use std::test::Fail;

fn kind_name(kind: ColumnType) -> &'static str {
    match kind {
        ColumnType::Text => "Text",
        ColumnType::Bool => "Bool",
        ColumnType::Whole => "Whole",
        ColumnType::Number => "Number",
        ColumnType::Instant => "Instant",
        ColumnType::Json => "Json",
    }
}

// The columns of a schema, one behind the other.
fn listed(alloc: Global, schema: &str) -> Result<Bytes, NoMemory> {
    let columns = columns_of(alloc, schema.as_bytes())?;
    let mut text = Bytes::new(alloc);
    for column in columns.as_slice() {
        text.extend(column.name.as_str().as_bytes())?;
        text.extend(b" ")?;
        text.extend(kind_name(column.kind).as_bytes())?;
        text.extend(b",")?;
    }
    Ok(text)
}

#[test]
fn columns_follow_the_schema(rt: HostRuntime) -> Result<(), Fail> {
    for (schema, columns) in [
        (
            r#"{"type":"object","properties":{"id":{"type":"integer"},"name":{"type":["null","string"]},"updated_at":{"type":["null","string"],"format":"date-time"}}}"#,
            "id Whole,name Text,updated_at Instant,",
        ),
        (
            r#"{"properties":{"a":{"type":"number"},"b":{"type":"number","airbyte_type":"integer"},"c":{"type":"boolean"},"d":{"type":["string","integer"]},"e":{"type":"null"},"f":{},"g":true}}"#,
            "a Number,b Whole,c Bool,d Json,e Json,f Json,g Json,",
        ),
        (
            r#"{"properties":{"a":{"type":"string"},"b":{"type":"number"},"\u0061":{"type":"boolean"}}}"#,
            "b Number,a Bool,",
        ),
        (
            r#"{"properties":{"a":{"type":["string",null,5]},"b":{"type":[]},"c":{"type":["null"]},"d":{"type":["string","string"]},"e":{"type":"string","format":"date"},"f":{"type":"integer","airbyte_type":"x"},"g":{"type":"string","type":"integer"}}}"#,
            "a Text,b Json,c Json,d Text,e Text,f Whole,g Whole,",
        ),
        (r#"{"properties":{}}"#, ""),
        (r#"{"properties":[]}"#, ""),
        (r#"{"properties":{"a":{}},"properties":null}"#, ""),
        ("{}", ""),
        ("[]", ""),
        ("", ""),
    ] {
        assert_eq!(rt;
            listed(rt.alloc(), schema)?.as_slice(),
            columns.as_bytes(),
            "{schema}"
        );
    }
    Ok(())
}

#[test]
fn a_path_is_an_instant_by_its_column(rt: HostRuntime) -> Result<(), Fail> {
    let alloc = rt.alloc();
    let schema =
        br#"{"properties":{"t":{"type":"string","format":"date-time"},"s":{"type":"string"}}}"#;
    let columns = columns_of(alloc, schema)?;
    for (name, is) in [("t", true), ("s", false), ("x", false)] {
        let mut path = Path::new(alloc);
        assert!(rt; !is_instant(&columns, &path));
        path.push(Name::copy_of(alloc, name)?)?;
        assert!(rt; is_instant(&columns, &path) == is, "{name}");
        path.push(Name::copy_of(alloc, name)?)?;
        assert!(rt; !is_instant(&columns, &path));
    }
    Ok(())
}
