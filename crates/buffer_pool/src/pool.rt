// A pool of records that wait.
ghost use Rattle.std.specs.Prelude.{◌≡◌, ℕ, ◌+◌, ◌-◌, ◌<◌, ◌≤◌, ◌^◌, [], ◌∷◌, ◌++◌, ◌↔◌, drop, length, take, None, IfErr, IfNone, IfOk, IfSome, IsOk, OnOk, vec_capacity};
ghost use Rattle.buffer_pool.specs.Content.{HasRoom, IsFrontAt, PoolView, RiseFrom, bytes_of, chain_of, first_of, is_in_chain, is_queued_of, oldest_of, queue_of, queued, released, with_chain, with_front_detached, with_restored, without_chain};

use crate::{Chain, Slot};
use basics::{Bytes, Copies, NoMemory, StreamNo};
use outside::{SeqLine, SeqLineList};
use std::alloc::Global;
use std::marker::Model;

/// Records that wait, each in its stream's queue or detached from it. Records and bytes are bounded, and the memory for
/// all of them is taken when the pool is made.
#[derive(Debug, Drop)]
pub struct Pool {
    held: Vec<Slot>,
    streams: u32,
    slots: u32,
    bytes: u64,
    // The bytes of all records that are held.
    sum: u64,
    // Above the sequences of all records that were ever pushed.
    next: u64,
}

impl Model for Pool {
    ghost use Rattle.std.specs.Prelude.{◌≤◌, vec_capacity};
    ghost use Rattle.buffer_pool.specs.Content.{PoolView, IsPool};

    ghost Value = { PoolView };

    ghost view = { λ pool. record { held = pool.held.items; streams = pool.streams; slots = pool.slots; bytes = pool.bytes; next = pool.next } };

    ghost invariant = { λ pool. IsPool pool.held.items pool.slots pool.bytes pool.sum pool.next × (pool.slots ≤ vec_capacity pool.held) };
}

fn is_in(slot: &Slot, chain: u64) -> bool
    ensures { result ≡ is_in_chain chain slot.now }
{
    match slot.chain {
        Some(own) => own == chain,
        None => false,
    }
}

fn is_queued_in(slot: &Slot, stream: StreamNo) -> bool
    ensures { result ≡ is_queued_of stream slot.now }
{
    slot.stream == stream && slot.chain.is_none()
}

// The index of the first record of a stream's queue.
fn front_index(held: &[Slot], stream: StreamNo) -> Option<usize>
    ensures none { IfNone result (first_of stream held.now ≡ None) }
    ensures some { IfSome result (IsFrontAt stream held.now) }
{
    for index in 0..held.len() {
        if is_queued_in(&held[index], stream) {
            return Some(index);
        }
    }
    None
}

// Detaches the first so many of a stream's queue, which begins at this index, in this chain.
fn detach_from(held: &mut Vec<Slot>, from: usize, chain: u64, stream: StreamNo, most: u32)
    requires { from < length held.old.items }
    ensures items { held.new.items ≡ take from held.old.items ++ with_chain chain stream most (drop from held.old.items) }
    ensures capacity { vec_capacity held.new ≡ vec_capacity held.old }
{
    let mut left = most;
    for index in from..held.len() {
        if left == 0 {
            return;
        }
        if is_queued_in(&held[index], stream) {
            held[index].chain = Some(chain);
            left -= 1;
        }
    }
}

// Copies the lines of a chain.
fn copy_chain(alloc: Global, held: &[Slot], chain: u64) -> Result<SeqLineList, NoMemory>
    ensures { IfOk result (λ lines. lines ≡ chain_of chain held.now) }
{
    let mut lines = SeqLineList::new(alloc);
    for slot in held {
        if is_in(slot, chain) {
            lines.push(SeqLine {
                seq: slot.seq,
                line: slot.line.copy(alloc)?,
            })?;
        }
    }
    Ok(lines)
}

fn release(slot: &mut Slot, chain: u64)
    ensures { slot.new ≡ released chain slot.old }
{
    if is_in(slot, chain) {
        slot.chain = None;
    }
}

// Puts the records of a chain back into their queue.
fn restore_chain(held: &mut Vec<Slot>, chain: u64)
    ensures items { held.new.items ≡ with_restored chain held.old.items }
    ensures capacity { vec_capacity held.new ≡ vec_capacity held.old }
{
    for index in 0..held.len() {
        release(&mut held[index], chain);
    }
}

// The bytes of a chain's records.
fn bytes_in(held: &[Slot], chain: u64) -> u64
    requires { bytes_of held.now < 2 ^ 64 }
    ensures { result + bytes_of (without_chain chain held.now) ≡ bytes_of held.now }
{
    let mut sum = 0;
    for slot in held {
        if is_in(slot, chain) {
            sum += slot.line.len() as u64;
        }
    }
    sum
}

// Drops the records of a chain.
fn drop_chain(held: &mut Vec<Slot>, chain: u64)
    ensures items { held.new.items ≡ without_chain chain held.old.items }
    ensures capacity { vec_capacity held.new ≡ vec_capacity held.old }
{
    held.retain(|slot| !is_in(slot, chain));
}

// The stream of the first record in a queue.
fn oldest_in(held: &[Slot]) -> Option<StreamNo>
    ensures { result ≡ oldest_of held.now }
{
    for slot in held {
        if slot.chain.is_none() {
            return Some(slot.stream);
        }
    }
    None
}

impl Pool {
    /// An empty pool for so many streams, records and bytes.
    pub fn new(alloc: Global, streams: u32, slots: u32, bytes: u64) -> Result<Self, NoMemory>
        ensures { IfOk result (λ pool. pool ≡ record { held = []; streams = streams; slots = slots; bytes = bytes; next = 0 }) }
    {
        Ok(Pool {
            held: Vec::with_capacity(alloc, slots as usize)?,
            streams,
            slots,
            bytes,
            sum: 0,
            next: 0,
        })
    }

    /// Of how many streams there are queues.
    pub fn streams(&self) -> u32
        ensures { result ≡ self.now.streams }
    {
        self.streams
    }

    /// A sequence above those of all records that were ever pushed.
    pub fn next(&self) -> u64
        ensures { result ≡ self.now.next }
    {
        self.next
    }

    /// Puts a record behind its stream's queue; its sequence is above those of all records before. The line comes back
    /// exactly where no slot is free, or its bytes would pass the bound. It takes no memory.
    pub fn push(&mut self, stream: StreamNo, seq: u64, line: Bytes) -> Result<(), Bytes>
        requires stream { stream < self.old.streams }
        requires above { self.old.next ≤ seq }
        requires below { seq < 2 ^ 64 - 1 }
        ensures room { IsOk result ↔ HasRoom self.old (length line) }
        ensures ok { OnOk result (self.new ≡ record (self.old) { held = self.old.held ++ queued stream seq line ∷ []; next = seq + 1 }) }
        ensures err { IfErr result (λ back. (back ≡ line) × (self.new ≡ self.old)) }
    {
        let bytes = line.len() as u64;
        if self.held.len() >= self.slots as usize || bytes > self.bytes - self.sum {
            return Err(line);
        }
        self.held.push_reserved(Slot {
            seq,
            stream,
            line,
            chain: None,
        });
        self.sum += bytes;
        self.next = seq + 1;
        Ok(())
    }

    /// Detaches the front of a stream's queue, at most so many records; `None` exactly where the queue is empty. It
    /// takes no memory.
    pub fn detach(&mut self, stream: StreamNo, max: u32) -> Option<Chain>
        requires stream { stream < self.old.streams }
        requires max { 1 ≤ max }
        ensures chain { result ≡ first_of stream self.old.held }
        ensures held { self.new ≡ record (self.old) { held = with_front_detached stream max self.old.held } }
        ensures queue { queue_of stream self.new.held ≡ drop max (queue_of stream self.old.held) }
        ensures records { IfSome result (λ chain. chain_of chain self.new.held ≡ take max (queue_of stream self.old.held)) }
    {
        let from = front_index(&self.held, stream)?;
        let front = self.held[from].seq;
        detach_from(&mut self.held, from, front, stream, max);
        Some(Chain::new(front))
    }

    /// A copy of a chain's records, by sequence.
    pub fn copy(&self, alloc: Global, chain: &Chain) -> Result<SeqLineList, NoMemory>
        ensures { IfOk result (λ lines. lines ≡ chain_of chain.now self.now.held) }
    {
        copy_chain(alloc, &self.held, chain.front())
    }

    /// Puts a chain's records back into their queue, by sequence. It takes no memory.
    pub fn restore(&mut self, chain: Chain)
        ensures { self.new ≡ record (self.old) { held = with_restored chain self.old.held } }
    {
        restore_chain(&mut self.held, chain.front());
    }

    /// Drops a chain's records. Their slots and bytes are free.
    pub fn free(&mut self, chain: Chain)
        ensures { self.new ≡ record (self.old) { held = without_chain chain self.old.held } }
    {
        self.sum -= bytes_in(&self.held, chain.front());
        drop_chain(&mut self.held, chain.front());
    }

    /// The stream of the least sequence in a queue; `None` exactly where all queues are empty. It takes no memory.
    pub fn oldest(&self) -> Option<StreamNo>
        ensures { result ≡ oldest_of self.now.held }
    {
        oldest_in(&self.held)
    }

    /// The least sequence in a stream's queue; `None` exactly where it is empty. It takes no memory.
    pub fn front(&self, stream: StreamNo) -> Option<u64>
        requires { stream < self.now.streams }
        ensures { result ≡ first_of stream self.now.held }
    {
        let index = front_index(&self.held, stream)?;
        Some(self.held[index].seq)
    }

    /// Records stand by sequence, and within the bounds.
    pub fn stands(&self)
        ensures rise { RiseFrom 0 self.now.held }
        ensures few { length self.now.held ≤ self.now.slots }
        ensures small { bytes_of self.now.held ≤ self.now.bytes }
    {
        let _ = &self.held;
    }
}
