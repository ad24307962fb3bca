//! Times the book of a load: `book_bench CATALOG`, with lines of messages on standard input.
//!
//! The lines go through a book whose dock keeps nothing. Its echoes go to standard output, and to standard error the number of rows that
//! were committed and the nanoseconds that `accept` (with the reading of standard input), `pick`, preparing and `put` took, in this order.
#![tactic(auto)]

mod keeper;

use crate::keeper::EmptyKeeper;
use anyhow::{Result, bail};
use batch_prep::{Prepared, WorkItem, prepare};
use book_rules::{Accepted, Put};
use catalog::{Configured, read_configured};
use dest_book::Book;
use kept_dock::KeptDock;
use outside::{Dock, Limits, StdSink, StdSource};
use std::alloc::Global;
use std::time::Instant;
use std::{fs, io};

const LIMITS: Limits = Limits {
    slots: 4_096,
    bytes: 67_108_864,
    batch: 1_000,
    workers: 1,
    page: 1_000,
};

// The rows that were committed, and the nanoseconds that each kind of call took.
#[derive(Drop)]
struct Figures {
    rows: u64,
    accept: u128,
    pick: u128,
    prepare: u128,
    put: u128,
}

fn words_of(rt: &HostRuntime) -> Result<Vec<String>> {
    let mut words = Vec::new(rt.alloc());
    for word in std::env::args(rt)?.skip(1) {
        words.push(word)?;
    }
    Ok(words)
}

fn catalog_in(alloc: Global, text: &[u8]) -> Result<Configured> {
    match read_configured(alloc, text) {
        Ok(configured) => Ok(configured),
        Err(_) => bail!("the catalog is none"),
    }
}

fn prepared(alloc: Global, item: WorkItem) -> Result<Prepared> {
    match prepare(alloc, item) {
        Ok(done) => Ok(done),
        Err(_) => bail!("out of memory"),
    }
}

// Accepts until a call has no line taken; whether the input has ended.
fn fill<D: Dock + Drop>(
    rt: &HostRuntime,
    book: &mut Book<D>,
    figures: &mut Figures,
) -> Result<bool> {
    let start = Instant::now(rt)?;
    let mut answer = book.accept();
    for _ in 0..u64::MAX {
        if answer != Accepted::Took {
            break;
        }
        answer = book.accept();
    }
    figures.accept = figures.accept.saturating_add(start.elapsed(rt)?.as_nanos());
    match answer {
        Accepted::End => Ok(true),
        Accepted::Full | Accepted::Took | Accepted::NotYet => Ok(false),
        Accepted::Broken(_) => bail!("the book is broken"),
    }
}

// Puts a batch that was prepared.
fn put<D: Dock + Drop>(
    rt: &HostRuntime,
    book: &mut Book<D>,
    done: Prepared,
    figures: &mut Figures,
) -> Result<()> {
    let rows = done.rows().len() as u64;
    let start = Instant::now(rt)?;
    let answer = book.put(done);
    figures.put = figures.put.saturating_add(start.elapsed(rt)?.as_nanos());
    figures.rows = figures.rows.saturating_add(rows);
    match answer {
        Put::Done => Ok(()),
        Put::Stranger(_) => bail!("a batch was a stranger"),
        Put::Broken(_) => bail!("the book is broken"),
    }
}

// Hands out a batch, prepares it, and puts it; whether there was one.
fn work<D: Dock + Drop>(
    rt: &HostRuntime,
    book: &mut Book<D>,
    figures: &mut Figures,
) -> Result<bool> {
    let start = Instant::now(rt)?;
    let picked = book.pick()?;
    figures.pick = figures.pick.saturating_add(start.elapsed(rt)?.as_nanos());
    let Some(item) = picked else {
        return Ok(false);
    };
    let start = Instant::now(rt)?;
    let done = prepared(rt.alloc(), item)?;
    figures.prepare = figures
        .prepare
        .saturating_add(start.elapsed(rt)?.as_nanos());
    put(rt, book, done, figures)?;
    Ok(true)
}

fn drain<D: Dock + Drop>(
    rt: &HostRuntime,
    book: &mut Book<D>,
    figures: &mut Figures,
) -> Result<()> {
    for _ in 0..u64::MAX {
        if !work(rt, book, figures)? {
            return Ok(());
        }
    }
    Ok(())
}

fn run<D: Dock + Drop>(rt: &HostRuntime, book: &mut Book<D>) -> Result<Figures> {
    let mut figures = Figures {
        rows: 0,
        accept: 0,
        pick: 0,
        prepare: 0,
        put: 0,
    };
    for _ in 0..u64::MAX {
        let is_over = fill(rt, book, &mut figures)?;
        drain(rt, book, &mut figures)?;
        if is_over {
            break;
        }
    }
    Ok(figures)
}

// Runs a book over a dock.
fn bench<D: Dock + Drop>(rt: &HostRuntime, dock: D, configured: &Configured) -> Result<Figures> {
    if !LIMITS.are_limits() {
        bail!("the limits are none");
    }
    match Book::start(rt.alloc(), dock, configured, LIMITS) {
        Ok(mut book) => run(rt, &mut book),
        Err(_) => bail!("the book was not started"),
    }
}

// Runs a book over standard input and output.
fn bench_streams(rt: &HostRuntime, configured: &Configured) -> Result<Figures> {
    let keeper = EmptyKeeper { alloc: rt.alloc() };
    let source = StdSource::new(rt.reader());
    let sink = StdSink::new(io::writer(rt));
    match KeptDock::new(rt.alloc(), 0, keeper, source, sink) {
        Ok(dock) => bench(rt, dock, configured),
        Err(_) => bail!("out of memory"),
    }
}

fn main(rt: HostRuntime) -> Result<()> {
    let words = words_of(&rt)?;
    if words.len() != 1 {
        bail!("usage: book_bench CATALOG");
    }
    let text = fs::read(&rt, words[0].as_str())?;
    let configured = catalog_in(rt.alloc(), &text)?;
    let figures = bench_streams(&rt, &configured)?;
    eprintln!(rt;
        "{} {} {} {} {}",
        figures.rows, figures.accept, figures.pick, figures.prepare, figures.put
    )?;
    Ok(())
}
