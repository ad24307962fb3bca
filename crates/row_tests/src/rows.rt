// The rows of lines. Raw ids are from Python's uuid.
use basics::{Bytes, Name, NoMemory, Path, PathList};
use batch_prep::{PrepPlan, WorkItem, prepare};
use column_types::columns_of;
use outside::{RawRow, SeqLine, SeqLineList};
use std::alloc::Global;
use std::test::Fail;

const ITEMS: &str =
    r#"{"type":"object","properties":{"id":{"type":"integer"},"v":{"type":"number"}}}"#;

const USERS: &str =
    r#"{"properties":{"id":{"type":"integer"},"name":{"type":["null","string"]},"updated_at":{"type":["null","string"],"format":"date-time"}}}"#;

// The path of one name; an empty name is no path.
fn path_of(alloc: Global, name: &str) -> Result<Option<Path>, NoMemory> {
    if name.is_empty() {
        return Ok(None);
    }
    let mut path = Path::new(alloc);
    path.push(Name::copy_of(alloc, name)?)?;
    Ok(Some(path))
}

fn plan_of(alloc: Global, schema: &str, key: &str, cursor: &str) -> Result<PrepPlan, NoMemory> {
    let mut paths = PathList::new(alloc);
    if let Some(path) = path_of(alloc, key)? {
        paths.push(path)?;
    }
    Ok(PrepPlan {
        stream: 0,
        load: 1,
        moment: 1_714_557_600_000,
        generation: 4,
        columns: columns_of(alloc, schema.as_bytes())?,
        key: paths,
        cursor: path_of(alloc, cursor)?,
    })
}

// The lines, with numbers from 0.
fn lines_of(alloc: Global, text: &str) -> Result<SeqLineList, NoMemory> {
    let mut lines = SeqLineList::new(alloc);
    for (seq, line) in text.as_bytes().split(|byte| *byte == b'\n').enumerate() {
        lines.push(SeqLine {
            seq: seq as u64,
            line: Bytes::copy_of(alloc, line)?,
        })?;
    }
    Ok(lines)
}

// A row's texts with bars between them, and a newline.
fn put_row(text: &mut Bytes, row: &RawRow) -> Result<(), NoMemory> {
    for part in [
        &row.raw_id,
        &row.key,
        &row.cursor,
        &row.body,
        &row.columns,
        &row.meta,
    ] {
        text.extend(part.as_slice())?;
        text.push(b'|')?;
    }
    text.push(b'\n')
}

// The rows of these lines.
fn rows_of(
    alloc: Global,
    schema: &str,
    key: &str,
    cursor: &str,
    lines: &str,
) -> Result<Bytes, NoMemory> {
    let item = WorkItem {
        batch: 0,
        plan: plan_of(alloc, schema, key, cursor)?,
        lines: lines_of(alloc, lines)?,
    };
    let Ok(prepared) = prepare(alloc, item) else {
        return Err(NoMemory);
    };
    let mut text = Bytes::new(alloc);
    for row in prepared.rows().as_slice() {
        put_row(&mut text, row)?;
    }
    Ok(text)
}

#[test]
fn records_have_their_rows(rt: HostRuntime) -> Result<(), Fail> {
    for (schema, key, cursor, lines, rows) in [
        // A value that does not fit is nulled and told; a number in a Number column stands as it was.
        (
            ITEMS,
            "",
            "",
            r#"{"type":"RECORD","record":{"stream":"a","data":{"id":"x","v":1.50},"emitted_at":1}}"#,
            r#"f4e2ff74-1d61-52a1-866a-8adab2a4500e||n|{"id":"x","v":1.50}|{"id":null,"v":1.50}|{"changes":[{"field":"id","change":"NULLED","reason":"DESTINATION_TYPECAST_ERROR"}]}|
"#,
        ),
        // A user without a time of change.
        (
            USERS,
            "id",
            "updated_at",
            r#"{"type":"RECORD","record":{"stream":"users","data":{"id":3,"name":"Ann","updated_at":null},"emitted_at":1}}
{"type":"RECORD","record":{"stream":"users","data":{"id":2,"name":"李雷","updated_at":"2024-05-01T09:00:00Z"},"emitted_at":1}}"#,
            r#"f4e2ff74-1d61-52a1-866a-8adab2a4500e|#3e0;|n|{"id":3,"name":"Ann","updated_at":null}|{"id":3,"name":"Ann","updated_at":null}|{"changes":[]}|
ee145358-dfd7-5012-a8c5-e1b706e87d0a|#2e0;|@1714554000000000000|{"id":2,"name":"李雷","updated_at":"2024-05-01T09:00:00Z"}|{"id":2,"name":"李雷","updated_at":"2024-05-01T09:00:00Z"}|{"changes":[]}|
"#,
        ),
        // Lines that are no records have no row, and keep their number.
        (
            ITEMS,
            "v",
            "",
            r#"{"type":"LOG","log":{"level":"INFO","message":"hi"}}
{"type":"RECORD","record":{"stream":"a","data":{"v":1e1},"emitted_at":1}}
x"#,
            r#"ee145358-dfd7-5012-a8c5-e1b706e87d0a|#1e1;|n|{"v":1e1}|{"id":null,"v":1e1}|{"changes":[]}|
"#,
        ),
        // Of a member that stands twice the last counts, under any spelling; whole numbers become plain.
        (
            ITEMS,
            "id",
            "v",
            r#"{"type":"RECORD","record":{"stream":"a","data":{"id":1,"v":2,"\u0069d":1.0e1},"emitted_at":1}}"#,
            r#"f4e2ff74-1d61-52a1-866a-8adab2a4500e|#1e1;|#2e0|{"id":1,"v":2,"\u0069d":1.0e1}|{"id":10,"v":2}|{"changes":[]}|
"#,
        ),
        // The record's own changes stand first, as they stood; a `changes` that is no array is left out.
        (
            ITEMS,
            "",
            "",
            r#"{"type":"RECORD","record":{"stream":"a","data":{"id":1.5},"emitted_at":1,"meta":{"x":1,"changes":[ {"field": "w"} , 5]}}}
{"type":"RECORD","record":{"stream":"a","data":{},"emitted_at":1,"meta":{"changes":{"field":"w"}}}}"#,
            r#"f4e2ff74-1d61-52a1-866a-8adab2a4500e||n|{"id":1.5}|{"id":null,"v":null}|{"changes":[{"field": "w"},5,{"field":"id","change":"NULLED","reason":"DESTINATION_TYPECAST_ERROR"}]}|
ee145358-dfd7-5012-a8c5-e1b706e87d0a||n|{}|{"id":null,"v":null}|{"changes":[]}|
"#,
        ),
    ] {
        assert_eq!(rt;
            rows_of(rt.alloc(), schema, key, cursor, lines)?.as_slice(),
            rows.as_bytes(),
            "{lines}"
        );
    }
    Ok(())
}
