// What a pool holds after pushes, detached chains and frees.
use basics::{Bytes, NoMemory};
use buffer_pool::{Chain, Pool};
use json_write::put_number;
use std::alloc::Global;
use std::test::Fail;

// What is done with a pool.
#[derive(Clone, Copy)]
enum Act {
    // A record of so many bytes.
    Push(u32, u64, usize),
    Detach(u32, u32),
    // What was detached first is put back, or freed.
    Restore,
    Free,
    Oldest,
    Front(u32),
}

fn push(
    alloc: Global,
    pool: &mut Pool,
    stream: u32,
    seq: u64,
    len: usize,
) -> Result<&'static [u8], NoMemory> {
    if stream >= pool.streams() || seq < pool.next() || seq == u64::MAX {
        return Ok(b"? ");
    }
    let line = Bytes::from_vec(vec![in alloc; b'x'; len]?);
    match pool.push(stream, seq, line) {
        Ok(()) => Ok(b"+ "),
        Err(_) => Ok(b"- "),
    }
}

// Detaches, and writes the sequences of what was detached.
fn detach(
    alloc: Global,
    pool: &mut Pool,
    stream: u32,
    max: u32,
    said: &mut Bytes,
) -> Result<Option<Chain>, NoMemory> {
    if stream >= pool.streams() || max == 0 {
        return Ok(None);
    }
    match pool.detach(stream, max) {
        Some(chain) => {
            for record in pool.copy(alloc, &chain)?.as_slice() {
                put_number(said, record.seq)?;
                said.extend(b",")?;
            }
            said.extend(b" ")?;
            Ok(Some(chain))
        }
        None => {
            said.extend(b"none ")?;
            Ok(None)
        }
    }
}

fn say(said: &mut Bytes, found: Option<u64>) -> Result<(), NoMemory> {
    match found {
        Some(number) => put_number(said, number)?,
        None => said.extend(b"none")?,
    }
    said.extend(b" ")
}

fn front(pool: &Pool, stream: u32) -> Option<u64> {
    if stream < pool.streams() {
        return pool.front(stream);
    }
    None
}

fn play(alloc: Global, pool: &mut Pool, acts: &[Act]) -> Result<Bytes, NoMemory> {
    let mut said = Bytes::new(alloc);
    let mut chain = None;
    for act in acts {
        match *act {
            Act::Push(stream, seq, len) => said.extend(push(alloc, pool, stream, seq, len)?)?,
            Act::Detach(stream, max) => chain = detach(alloc, pool, stream, max, &mut said)?,
            Act::Restore => {
                if let Some(chain) = chain.take() {
                    pool.restore(chain);
                }
            }
            Act::Free => {
                if let Some(chain) = chain.take() {
                    pool.free(chain);
                }
            }
            Act::Oldest => say(&mut said, pool.oldest().map(|stream| stream as u64))?,
            Act::Front(stream) => say(&mut said, front(pool, stream))?,
        }
    }
    Ok(said)
}

#[test]
fn pools_hold_what_was_pushed(rt: HostRuntime) -> Result<(), Fail> {
    for (streams, bytes, acts, said) in [
        // Four slots: the fifth record waits until two are freed.
        (
            1,
            100,
            &[
                Act::Push(0, 0, 1),
                Act::Push(0, 1, 1),
                Act::Push(0, 2, 1),
                Act::Push(0, 3, 1),
                Act::Push(0, 4, 1),
                Act::Detach(0, 2),
                Act::Free,
                Act::Push(0, 4, 1),
                Act::Oldest,
                Act::Detach(0, 9),
                Act::Detach(0, 9),
                Act::Oldest,
            ][..],
            "+ + + + - 0,1, + 0 2,3,4, none none ",
        ),
        // A chain that is put back stands at its place again, before what came meanwhile.
        (
            2,
            100,
            &[
                Act::Push(1, 0, 2),
                Act::Push(0, 1, 2),
                Act::Detach(1, 1),
                Act::Oldest,
                Act::Front(1),
                Act::Push(1, 2, 2),
                Act::Front(1),
                Act::Restore,
                Act::Oldest,
                Act::Detach(1, 2),
            ],
            "+ + 0, 0 none + 2 1 0,2, ",
        ),
        // The bytes of a detached record count until it is freed.
        (
            1,
            100,
            &[
                Act::Push(0, 0, 100),
                Act::Push(0, 1, 1),
                Act::Detach(0, 1),
                Act::Push(0, 1, 1),
                Act::Push(0, 1, 0),
                Act::Free,
                Act::Push(0, 2, 99),
                Act::Push(0, 3, 2),
                Act::Push(0, 3, 1),
            ],
            "+ - 0, - + + - + ",
        ),
    ] {
        let mut pool = Pool::new(rt.alloc(), streams, 4, bytes)?;
        let found = play(rt.alloc(), &mut pool, acts)?;
        assert_eq!(rt; found.as_slice(), said.as_bytes(), "{said}");
    }
    Ok(())
}
