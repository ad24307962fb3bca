//! Times `put` of saved sets: `sets_bench STREAMS ROUNDS` puts a state of each of so many streams so many times.
//!
//! It prints how many states were put, and on standard error the nanoseconds that passed in `put` alone.
#![tactic(auto)]

use airbyte_message::{StateMsg, state_of};
use anyhow::{Context, Result, bail};
use state_kinds::{SavedSet, read_store};
use std::alloc::Global;
use std::time::Instant;

fn words_of(rt: &HostRuntime) -> Result<Vec<String>> {
    let mut words = Vec::new(rt.alloc());
    for word in std::env::args(rt)?.skip(1) {
        words.push(word)?;
    }
    Ok(words)
}

// A set with an entry of each stream.
fn set_of(alloc: Global, streams: u32) -> Result<SavedSet> {
    let mut text = String::from_str(alloc, "{\"version\":1,\"streams\":[")?;
    for n in 0..streams {
        if n > 0 {
            text.push(',')?;
        }
        let entry = format!(in alloc; "{{\"name\":\"s{n}\",\"generation\":0,\"state\":null}}")?;
        text.push_str(entry.as_str())?;
    }
    text.push_str("],\"global\":null}")?;
    match read_store(alloc, text.as_bytes()) {
        Ok(set) => Ok(set),
        Err(_fault) => bail!("no set"),
    }
}

// A state of each stream.
fn states_of(alloc: Global, streams: u32) -> Result<Vec<StateMsg>> {
    let mut states = Vec::new(alloc);
    for n in 0..streams {
        let text = format!(in alloc;
            "{{\"type\":\"STREAM\",\"stream\":{{\"stream_descriptor\":{{\"name\":\"s{n}\"}}}}}}"
        )?;
        let found = state_of(alloc, text.as_bytes())?;
        states.push(found.context("no state")?)?;
    }
    Ok(states)
}

// Puts the states, and says how many were taken.
fn put_all(set: &mut SavedSet, states: Vec<StateMsg>) -> u64 {
    let mut count: u64 = 0;
    for state in states {
        if set.put(state).is_ok() {
            count = count.saturating_add(1);
        }
    }
    count
}

fn main(rt: HostRuntime) -> Result<()> {
    let words = words_of(&rt)?;
    if words.len() != 2 {
        bail!("usage: sets_bench STREAMS ROUNDS");
    }
    let streams = words[0].parse::<u32>()?;
    let rounds = words[1].parse::<u32>()?;
    let mut set = set_of(rt.alloc(), streams)?;
    let mut count: u64 = 0;
    let mut nanoseconds: u128 = 0;
    for _ in 0..rounds {
        let states = states_of(rt.alloc(), streams)?;
        let start = Instant::now(&rt)?;
        count = count.saturating_add(put_all(&mut set, states));
        nanoseconds = nanoseconds.saturating_add(start.elapsed(&rt)?.as_nanos());
    }
    rt.println(count)?;
    eprintln!(rt; "{nanoseconds}")?;
    Ok(())
}
