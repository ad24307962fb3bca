// Made input and its catalog.
use basics::{Bytes, NoMemory, Path};
use catalog::{ConfStream, read_configured};
use made_input::{MadeLines, made_catalog, made_lines};
use outside::CatalogFault;
use std::alloc::Global;
use std::test::Fail;

// A number of rows, and the length, the lines and the Adler-32 of their text, by another program.
const MADE: &[(u32, usize, usize, u64)] = &[
    (0, 281, 2, 4_099_300_713),
    (1, 750, 6, 848_296_644),
    (3, 1_095, 10, 702_769_771),
    (1_000, 178_258, 2_004, 317_717_473),
    (1_001, 178_739, 2_008, 1_552_784_271),
    (2_500, 448_699, 5_008, 4_005_007_805),
];

const ONE_ROW: &str = concat!(
    r#"{"type":"RECORD","record":{"stream":"items","data":{"id":0,"version":0},"emitted_at":0}}"#,
    "\n",
    r#"{"type":"RECORD","record":{"stream":"visits","data":{"version":0},"emitted_at":0}}"#,
    "\n",
    r#"{"type":"STATE","state":{"type":"STREAM","stream":{"stream_descriptor":{"name":"items"},"stream_state":{"row":0}},"sourceStats":{"recordCount":1}}}"#,
    "\n",
    r#"{"type":"STATE","state":{"type":"STREAM","stream":{"stream_descriptor":{"name":"visits"},"stream_state":{"row":0}},"sourceStats":{"recordCount":1}}}"#,
    "\n",
    r#"{"type":"TRACE","trace":{"type":"STREAM_STATUS","emitted_at":0,"stream_status":{"stream_descriptor":{"name":"items"},"status":"COMPLETE"}}}"#,
    "\n",
    r#"{"type":"TRACE","trace":{"type":"STREAM_STATUS","emitted_at":0,"stream_status":{"stream_descriptor":{"name":"visits"},"status":"COMPLETE"}}}"#,
    "\n",
);

fn adler32(bytes: &[u8]) -> u64 {
    let mut low = 1u64;
    let mut high = 0u64;
    for byte in bytes {
        low = low.wrapping_add(u64::from(*byte)) % 65_521;
        high = high.wrapping_add(low) % 65_521;
    }
    high.wrapping_mul(65_536).wrapping_add(low)
}

fn newlines(bytes: &[u8]) -> usize {
    bytes.iter().filter(|byte| **byte == b'\n').count()
}

// The lines of so many rows, row by row; empty where there are more parts.
fn row_by_row(alloc: Global, rows: u32) -> Result<Bytes, NoMemory> {
    let mut text = Bytes::new(alloc);
    let mut made = MadeLines::new(rows);
    for _ in 0..=rows {
        made.put_next(&mut text)?;
    }
    if made.put_next(&mut text)? {
        text.clear();
    }
    Ok(text)
}

#[test]
fn lines_are_those_of_another_program(rt: HostRuntime) -> Result<(), Fail> {
    for (rows, length, lines, sum) in MADE {
        let text = made_lines(rt.alloc(), *rows)?;
        assert_eq!(rt; text.len(), *length, "{rows} rows");
        assert_eq!(rt; newlines(text.as_slice()), *lines, "{rows} rows");
        assert_eq!(rt; adler32(text.as_slice()), *sum, "{rows} rows");
        let text = row_by_row(rt.alloc(), *rows)?;
        assert_eq!(rt; adler32(text.as_slice()), *sum, "{rows} rows, row by row");
    }
    Ok(())
}

#[test]
fn one_row_is_made_in_this_order(rt: HostRuntime) -> Result<(), Fail> {
    let text = made_lines(rt.alloc(), 1)?;
    assert_eq!(rt; text.as_slice(), ONE_ROW.as_bytes(), "one row");
    Ok(())
}

fn put_path(text: &mut Bytes, path: &Path) -> Result<(), NoMemory> {
    for name in path.as_slice() {
        text.push(b'/')?;
        text.extend(name.as_str().as_bytes())?;
    }
    Ok(())
}

// A stream's name, modes, cursor, key, generations and schema.
fn put_stream(alloc: Global, text: &mut Bytes, stream: &ConfStream) -> Result<(), NoMemory> {
    text.extend(stream.id.name.as_str().as_bytes())?;
    let sync = stream.sync;
    let dest = stream.dest;
    let modes = format!(in alloc; " {sync:?} {dest:?} cursor ")?;
    text.extend(modes.as_bytes())?;
    if let Some(path) = &stream.cursor {
        put_path(text, path)?;
    }
    text.extend(b" key ")?;
    for path in stream.key.as_slice() {
        put_path(text, path)?;
    }
    let generation = stream.generation;
    let minimum = stream.minimum;
    let generations = format!(in alloc; " {generation:?} {minimum} ")?;
    text.extend(generations.as_bytes())?;
    text.extend(stream.schema.as_slice())?;
    text.push(b'\n')
}

fn described(alloc: Global, catalog: &str) -> Result<Bytes, CatalogFault> {
    let configured = read_configured(alloc, catalog.as_bytes())?;
    let mut text = Bytes::new(alloc);
    for n in 0..configured.len() {
        put_stream(alloc, &mut text, configured.stream(n))?;
    }
    Ok(text)
}

#[test]
fn the_catalog_has_two_streams(rt: HostRuntime) -> Result<(), Fail> {
    let text = described(rt.alloc(), made_catalog())?;
    let want = concat!(
        r#"items Incremental AppendDedup cursor /version key /id Some(0) 0 {"type":"object","properties":{"id":{"type":"integer"},"version":{"type":"integer"}}}"#,
        "\n",
        r#"visits Incremental Append cursor  key  Some(0) 0 {"type":"object","properties":{"version":{"type":"integer"}}}"#,
        "\n",
    );
    assert_eq!(rt; text.as_slice(), want.as_bytes(), "the catalog");
    Ok(())
}
