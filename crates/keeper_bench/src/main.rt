//! Loads rows into a store: `keeper_bench STORE append|dedup|append_files|dedup_files BATCH`. The store is a database in a file
//! or, of the last two, a file of comma-separated values in a folder.
//!
//! Each line of standard input is a row: its key, its cursor and its body, with a space between them. After each batch that is
//! committed, and once all are merged, a line is written that says so.
#![tactic(auto)]

mod load;

use crate::load::{Job, load};
use anyhow::{Context, Result, bail};
use file_dock::{FileDock, FileKeeper, StdFolder};
use outside::{Fault, StdSink, StdSource};
use sqlite_dock::{SqliteDock, SqliteKeeper};
use sqlite_file::FileOpener;
use std::io;
use std::time::SystemTime;

fn words_of(rt: &HostRuntime) -> Result<Vec<String>> {
    let mut words = Vec::new(rt.alloc());
    for word in std::env::args(rt)?.skip(1) {
        words.push(word)?;
    }
    Ok(words)
}

// Milliseconds since 1970.
fn moment(rt: &HostRuntime) -> Result<u64> {
    let now = SystemTime::now(rt)?;
    let since = now.duration_since(SystemTime::UNIX_EPOCH)?;
    Ok(u64::try_from(since.as_millis())?)
}

fn load_in_database(rt: &HostRuntime, moment: u64, name: &str, job: Job) -> Result<(), Fault> {
    let mut dock = SqliteDock::new(
        rt.alloc(),
        moment,
        SqliteKeeper::new(rt.alloc(), FileOpener::new(rt)),
        StdSource::new(rt.reader()),
        StdSink::new(io::writer(rt)),
    )?;
    load(rt.alloc(), &mut dock, name, job)
}

fn load_in_folder(rt: &HostRuntime, moment: u64, name: &str, job: Job) -> Result<(), Fault> {
    let mut dock = FileDock::new(
        rt.alloc(),
        moment,
        FileKeeper::new(rt.alloc(), StdFolder::new(rt)),
        StdSource::new(rt.reader()),
        StdSink::new(io::writer(rt)),
    )?;
    load(rt.alloc(), &mut dock, name, job)
}

// Whether rows are deduplicated, and whether they go to a folder.
fn kind_of(word: &str) -> Option<(bool, bool)> {
    if word == "append" {
        Some((false, false))
    } else if word == "dedup" {
        Some((true, false))
    } else if word == "append_files" {
        Some((false, true))
    } else if word == "dedup_files" {
        Some((true, true))
    } else {
        None
    }
}

fn main(rt: HostRuntime) -> Result<()> {
    let words = words_of(&rt)?;
    if words.len() != 3 {
        bail!("usage: keeper_bench STORE append|dedup|append_files|dedup_files BATCH");
    }
    let Some((dedup, in_folder)) = kind_of(words[1].as_str()) else {
        bail!("no kind of a load: {}", words[1]);
    };
    let job = Job {
        dedup,
        batch: words[2].parse::<u32>().context("no batch")?.max(1),
    };
    let name = words[0].as_str();
    let loaded = if in_folder {
        load_in_folder(&rt, moment(&rt)?, name, job)
    } else {
        load_in_database(&rt, moment(&rt)?, name, job)
    };
    match loaded {
        Ok(()) => Ok(()),
        Err(fault) => bail!("{fault}"),
    }
}
