//! Times the readers of lines: `reading_bench CALL FILE ROUNDS` reads each line of a file so many times by one call.
//!
//! It prints what the lines held, so that no call can be left out, and on standard error the nanoseconds that passed.
#![tactic(auto)]

mod calls;

use crate::calls::Call;
use anyhow::{Context, Result, bail};
use std::alloc::{AllocError, Global};
use std::fs;
use std::time::Instant;

fn words_of(rt: &HostRuntime) -> Result<Vec<String>> {
    let mut words = Vec::new(rt.alloc());
    for word in std::env::args(rt)?.skip(1) {
        words.push(word)?;
    }
    Ok(words)
}

// The pieces between newlines.
fn lines_of(alloc: Global, text: &[u8]) -> Result<Vec<&[u8]>, AllocError> {
    let mut lines = Vec::new(alloc);
    for line in text.split(|byte| *byte == b'\n') {
        lines.push(line)?;
    }
    Ok(lines)
}

fn main(rt: HostRuntime) -> Result<()> {
    let words = words_of(&rt)?;
    if words.len() != 3 {
        bail!("usage: reading_bench CALL FILE ROUNDS");
    }
    let call = Call::named(words[0].as_str()).context("no such call")?;
    let text = fs::read(&rt, words[1].as_str())?;
    let lines = lines_of(rt.alloc(), &text)?;
    let rounds = words[2].parse::<u32>()?;
    let start = Instant::now(&rt)?;
    let mut held = 0;
    for _ in 0..rounds {
        held = call.over(rt.alloc(), &lines)?;
    }
    let nanoseconds = start.elapsed(&rt)?.as_nanos();
    rt.println(held)?;
    eprintln!(rt; "{nanoseconds}")?;
    Ok(())
}
