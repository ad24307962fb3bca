//! Times the list of a table's rows: `table_bench ROWS`.
//!
//! So many rows of some 100 bytes, in an order that is none of theirs, are listed by cursor and key, as a stream of a source has
//! them. Says how many were listed, and on standard error the nanoseconds that this took, and those that sorting the texts of their
//! keys alone took.
#![tactic(auto)]

use anyhow::{Context, Result, bail};
use basics::{Bytes, BytesList, NoMemory};
use catalog::read_configured;
use json_write::put_number;
use outside::{NumberedRow, NumberedRowList};
use source_lines::ListedRows;
use std::alloc::Global;
use std::time::Instant;
use table_source::{Keying, keying_of, list_table};

const CATALOG: &[u8] =
    br#"{"streams":[{"stream":{"name":"users","json_schema":{"type":"object","properties":{"id":{"type":"integer"},"updated_at":{"type":"string","format":"date-time"}}}},"sync_mode":"incremental","destination_sync_mode":"append_dedup","cursor_field":["updated_at"],"primary_key":[["id"]]}]}"#;

// Coprime to the number of rows of each size that the bench takes.
const STEP: u64 = 7_919;

fn words_of(rt: &HostRuntime) -> Result<Vec<String>> {
    let mut words = Vec::new(rt.alloc());
    for word in std::env::args(rt)?.skip(1) {
        words.push(word)?;
    }
    Ok(words)
}

// A number of two digits.
fn put_two(text: &mut Bytes, number: u64) -> Result<(), NoMemory> {
    if number < 10 {
        text.push(b'0')?;
    }
    put_number(text, number)
}

// The body of a row with this key.
fn body_of(alloc: Global, key: u64) -> Result<Bytes, NoMemory> {
    let mut text = Bytes::with_capacity(alloc, 128)?;
    text.extend(br#"{"id":"#)?;
    put_number(&mut text, key)?;
    text.extend(br#","name":"Name "#)?;
    put_number(&mut text, key)?;
    text.extend(br#"","email":"user@example.org","updated_at":"2024-"#)?;
    put_two(&mut text, key % 12 + 1)?;
    text.push(b'-')?;
    put_two(&mut text, key % 28 + 1)?;
    text.push(b'T')?;
    put_two(&mut text, key % 24)?;
    text.extend(br#":00:00Z"}"#)?;
    Ok(text)
}

fn key_of(row: u32, rows: u32) -> u64 {
    u64::from(row) * STEP % u64::from(rows).max(1)
}

fn rows_of(alloc: Global, count: u32) -> Result<NumberedRowList, NoMemory> {
    let mut rows = NumberedRowList::new(alloc);
    for row in 0..count {
        let key = key_of(row, count);
        rows.push(NumberedRow {
            id: u64::from(row) + 1,
            body: body_of(alloc, key)?,
        })?;
    }
    Ok(rows)
}

fn keying(alloc: Global) -> Result<Keying> {
    match read_configured(alloc, CATALOG) {
        Ok(configured) if configured.len() > 0 => Ok(keying_of(alloc, configured.stream(0))?),
        _ => bail!("the catalog is none"),
    }
}

// The nanoseconds of sorting the texts of so many keys.
fn sort_keys(rt: &HostRuntime, count: u32) -> Result<u128> {
    let mut keys = Vec::new(rt.alloc());
    for row in 0..count {
        let mut text = Bytes::new(rt.alloc());
        put_number(&mut text, key_of(row, count))?;
        keys.push(text)?;
    }
    let start = Instant::now(rt)?;
    keys.sort()?;
    Ok(start.elapsed(rt)?.as_nanos())
}

fn main(rt: HostRuntime) -> Result<()> {
    let words = words_of(&rt)?;
    if words.len() != 1 {
        bail!("usage: table_bench ROWS");
    }
    let count = words[0].parse::<u32>().context("no number of rows")?;
    let keying = keying(rt.alloc())?;
    let rows = rows_of(rt.alloc(), count)?;
    let start = Instant::now(&rt)?;
    let Ok(listed) = list_table(rt.alloc(), &keying, &None, rows.as_slice()) else {
        bail!("the rows were not listed");
    };
    let list = start.elapsed(&rt)?.as_nanos();
    let sort = sort_keys(&rt, count)?;
    rt.println(listed.len())?;
    eprintln!(rt; "{list} {sort}")?;
    Ok(())
}
