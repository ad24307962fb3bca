// The calls that are timed. A call to be timed too is one more variant, with its name and its loop.
use anyhow::{Context, Result};
use basics::NoMemory;
use catalog::{Configured, read_configured};
use json_span::{elements, members};
use std::alloc::Global;
use std::time::Instant;

/// What is done with a catalog.
#[derive(Clone, Copy)]
pub enum Call {
    /// Its members are cut, which reads each byte once.
    Members,
    /// Its members are cut, and the elements of each.
    Elements,
    /// It is read.
    Read,
    /// It is read once, and then each of its streams is found by its id.
    Find,
}

/// What the calls found, and how long they took.
#[derive(Clone, Copy)]
pub struct Timed {
    pub found: u64,
    pub nanoseconds: u128,
}

impl Call {
    /// The call of this name.
    pub fn named(name: &str) -> Option<Call> {
        if name == "members" {
            return Some(Call::Members);
        }
        if name == "elements" {
            return Some(Call::Elements);
        }
        if name == "read" {
            return Some(Call::Read);
        }
        if name == "find" {
            return Some(Call::Find);
        }
        None
    }

    /// Makes the call so many times.
    pub fn over(self, rt: &HostRuntime, text: &[u8], rounds: u32) -> Result<Timed> {
        match self {
            Call::Find => find_rounds(rt, text, rounds),
            call => text_rounds(rt, call, text, rounds),
        }
    }
}

fn text_rounds(rt: &HostRuntime, call: Call, text: &[u8], rounds: u32) -> Result<Timed> {
    let start = Instant::now(rt)?;
    let mut found = 0;
    for _ in 0..rounds {
        found = once(rt.alloc(), call, text).context("the file is no catalog")?;
    }
    Ok(Timed {
        found,
        nanoseconds: start.elapsed(rt)?.as_nanos(),
    })
}

fn find_rounds(rt: &HostRuntime, text: &[u8], rounds: u32) -> Result<Timed> {
    let Ok(configured) = read_configured(rt.alloc(), text) else {
        anyhow::bail!("the file is no catalog");
    };
    let start = Instant::now(rt)?;
    let mut found = 0u64;
    for _ in 0..rounds {
        found = found.wrapping_add(count_found(&configured));
    }
    Ok(Timed {
        found,
        nanoseconds: start.elapsed(rt)?.as_nanos(),
    })
}

// How much one call over a text found.
fn once(alloc: Global, call: Call, text: &[u8]) -> Option<u64> {
    match call {
        Call::Members => count_members(alloc, text),
        Call::Elements => count_elements(alloc, text),
        _ => count_streams(alloc, text),
    }
}

fn count_members(alloc: Global, text: &[u8]) -> Option<u64> {
    match members(alloc, text) {
        Ok(members) => Some(members.len() as u64),
        Err(_) => None,
    }
}

fn count_elements(alloc: Global, text: &[u8]) -> Option<u64> {
    let Ok(members) = members(alloc, text) else {
        return None;
    };
    let mut count = 0u64;
    for member in members.as_slice() {
        if let Ok(spans) = elements(alloc, member.value.of(text)) {
            count = count.wrapping_add(spans.len() as u64);
        }
    }
    Some(count)
}

fn count_streams(alloc: Global, text: &[u8]) -> Option<u64> {
    match read_configured(alloc, text) {
        Ok(configured) => Some(configured.len() as u64),
        Err(_) => None,
    }
}

// How many streams stand where they are found.
fn count_found(configured: &Configured) -> u64 {
    let mut count = 0u64;
    for n in 0..configured.len() {
        if configured.find(&configured.stream(n).id) == Some(n) {
            count = count.wrapping_add(1);
        }
    }
    count
}
