//! Prepares the lines of a file by a schema: `rows_bench SCHEMA LINES KEY CURSOR [ROUNDS]`.
//!
//! KEY is the paths of a primary key with commas between them, CURSOR is one path, and the names of a path have slashes between
//! them; an empty word is none. Without ROUNDS the rows are written, each as its numbers and then its texts, which stand each
//! behind the number of their bytes. With ROUNDS the lines are prepared so many times: the number of rows is written, and the
//! nanoseconds that passed on standard error.
#![tactic(auto)]

mod plan;

use crate::plan::{item_of, plan_of};
use anyhow::{Context, Result, bail};
use basics::Bytes;
use batch_prep::{WorkItem, prepare};
use outside::{RawRow, RawRowList};
use std::alloc::Global;
use std::fs;
use std::io::{self, BufWriter, Write};
use std::time::Instant;

const PIECE: usize = 65_536;

fn words_of(rt: &HostRuntime) -> Result<Vec<String>> {
    let mut words = Vec::new(rt.alloc());
    for word in std::env::args(rt)?.skip(1) {
        words.push(word)?;
    }
    Ok(words)
}

// A text behind the number of its bytes.
fn write_text<W: Write>(out: &mut W, text: &Bytes) -> Result<()> {
    let mut buffer = itoa::Buffer::new();
    out.write_all(buffer.format(text.len()).as_bytes())?;
    out.write_all(b" ")?;
    out.write_all(text.as_slice())?;
    out.write_all(b"\n")?;
    Ok(())
}

fn write_number<W: Write>(out: &mut W, number: u64) -> Result<()> {
    let mut buffer = itoa::Buffer::new();
    out.write_all(buffer.format(number).as_bytes())?;
    out.write_all(b" ")?;
    Ok(())
}

fn write_row<W: Write>(out: &mut W, row: &RawRow) -> Result<()> {
    for number in [
        row.load,
        row.seq,
        row.generation,
        row.extracted_at,
        row.loaded_at,
    ] {
        write_number(out, number)?;
    }
    out.write_all(b"\n")?;
    for text in [
        &row.raw_id,
        &row.key,
        &row.cursor,
        &row.body,
        &row.columns,
        &row.meta,
    ] {
        write_text(out, text)?;
    }
    Ok(())
}

fn write_rows(rt: &HostRuntime, rows: &RawRowList) -> Result<()> {
    let mut out = BufWriter::with_capacity(rt.alloc(), PIECE, io::writer(rt))?;
    for row in rows.as_slice() {
        write_row(&mut out, row)?;
    }
    out.flush()?;
    Ok(())
}

// The batch and its rows.
fn prepared(alloc: Global, item: WorkItem) -> Result<(WorkItem, RawRowList)> {
    match prepare(alloc, item) {
        Ok(prepared) => Ok(prepared.into_parts()),
        Err(_) => bail!("out of memory"),
    }
}

// Prepares a batch so many times, and tells how many rows it has.
fn time_rows(rt: &HostRuntime, mut item: WorkItem, rounds: u32) -> Result<()> {
    let start = Instant::now(rt)?;
    let mut count = 0;
    for _ in 0..rounds {
        let (again, rows) = prepared(rt.alloc(), item)?;
        count = rows.len();
        item = again;
    }
    let nanoseconds = start.elapsed(rt)?.as_nanos();
    rt.println(count)?;
    eprintln!(rt; "{nanoseconds}")?;
    Ok(())
}

fn main(rt: HostRuntime) -> Result<()> {
    let words = words_of(&rt)?;
    if words.len() < 4 || words.len() > 5 {
        bail!("usage: rows_bench SCHEMA LINES KEY CURSOR [ROUNDS]");
    }
    let schema = fs::read(&rt, words[0].as_str())?;
    let lines = fs::read(&rt, words[1].as_str())?;
    let plan = plan_of(rt.alloc(), &schema, words[2].as_str(), words[3].as_str())?;
    let item = item_of(rt.alloc(), plan, &lines)?;
    if words.len() == 5 {
        let rounds = words[4].parse::<u32>().context("no number of rounds")?;
        return time_rows(&rt, item, rounds);
    }
    let (_item, rows) = prepared(rt.alloc(), item)?;
    write_rows(&rt, &rows)
}
