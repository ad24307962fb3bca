//! Times the calls on catalogs: `catalog_bench CALL FILE ROUNDS` makes one call over a catalog so many times.
//!
//! It prints what the call found, so that none can be left out, and on standard error the nanoseconds that passed.
#![tactic(auto)]

mod calls;

use crate::calls::Call;
use anyhow::{Context, Result, bail};
use std::fs;

fn words_of(rt: &HostRuntime) -> Result<Vec<String>> {
    let mut words = Vec::new(rt.alloc());
    for word in std::env::args(rt)?.skip(1) {
        words.push(word)?;
    }
    Ok(words)
}

fn main(rt: HostRuntime) -> Result<()> {
    let words = words_of(&rt)?;
    if words.len() != 3 {
        bail!("usage: catalog_bench CALL FILE ROUNDS");
    }
    let call = Call::named(words[0].as_str()).context("no such call")?;
    let text = fs::read(&rt, words[1].as_str())?;
    let rounds = words[2].parse::<u32>()?;
    let timed = call.over(&rt, &text, rounds)?;
    rt.println(timed.found)?;
    eprintln!(rt; "{}", timed.nanoseconds)?;
    Ok(())
}
