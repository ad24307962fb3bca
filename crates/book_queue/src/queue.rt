// The queue of a load.
ghost use Rattle.std.specs.Prelude.{◌≡◌, ℕ, ◌+◌, ◌-◌, ◌<◌, ◌≤◌, ◌^◌, ◌↔◌, [], ◌∷◌, ◌++◌, filter, find, length, not, true, false, None, Some, IfErr, IfNone, IfOk, IfSome, IsSome, IsTrue, OnErr, OnOk, replicate};
ghost use Rattle.std.specs.List.{AllByRecursion, list_any};
ghost use Rattle.buffer_pool.specs.Content.{chain_of, first_of, is_in_chain, with_front_detached, with_restored};
ghost use Rattle.book_queue.specs.Views.{changed, lane_at, no_lane, refilled};
ghost use Rattle.book_queue.specs.Content.{QueueView, Sealed, all_of, batch_of, HandsOut, HasRoom, is_handed_out, is_in_batch, is_in_queue, IsBatchOf, IsQueue, move, ParkedFits, queued, ready_of, sealed_full, sealed_oldest, sealed_whole, still_parked, unparked};

use crate::batch::{Batch, Handed, Parked, index_of, take_out};
use crate::lane::{Lane, grow, oldest_sealed, refill, seal, seal_all, shrink};
use basics::{Bytes, NoMemory, StreamNo};
use buffer_pool::{Chain, Pool};
use outside::{SeqLine, SeqLineList};
use std::alloc::Global;
use std::marker::Model;

/// The records of a load that are not committed: in the queues of their streams, sealed there or not, or in batches that are
/// handed out. One record more than finds room may be parked; it is the unsealed end of its stream's queue.
#[derive(Debug, Drop)]
pub struct BookQueue {
    pool: Pool,
    lanes: Vec<Lane>,
    out: Vec<Batch>,
    parked: Option<Parked>,
    batch: u32,
    next_batch: u64,
}

impl Model for BookQueue {
    ghost use Rattle.book_queue.specs.Content.{QueueView};
    ghost use Rattle.book_queue.specs.Views.{view_of, IsKept};

    ghost Value = { QueueView };

    ghost view = { λ queue. view_of queue.pool queue.lanes.items queue.out.items queue.parked queue.batch queue.next_batch };

    ghost invariant = { λ queue. IsKept queue.pool queue.lanes.items queue.out.items queue.parked queue.batch queue.next_batch };
}

// Empty queues of so many streams.
fn empty_lanes(alloc: Global, streams: u32) -> Result<Vec<Lane>, NoMemory>
    ensures { IfOk result (λ lanes. lanes.items ≡ replicate streams no_lane) }
{
    let empty = Lane {
        queued: 0,
        sealed: 0,
        front: None,
        behind: 0,
    };
    Ok(vec![in alloc; empty; streams as usize]?)
}

// Detaches the front of a stream's queue, and copies its records; for want of memory nothing changes.
fn detach(
    pool: &mut Pool,
    alloc: Global,
    stream: StreamNo,
    count: u32,
) -> Result<(Chain, SeqLineList), NoMemory>
    requires stream { stream < pool.old.streams }
    requires count { 1 ≤ count }
    requires some { IsSome (first_of stream pool.old.held) }
    requires apart { IfSome (first_of stream pool.old.held) (λ front. AllByRecursion (λ slot. is_in_chain front slot ≡ false) pool.old.held) }
    ensures pool { OnOk result (pool.new ≡ record (pool.old) { held = with_front_detached stream count pool.old.held }) }
    ensures chain { IfOk result (λ both. first_of stream pool.old.held ≡ Some both.0) }
    ensures lines { IfOk result (λ both. both.1 ≡ chain_of both.0 pool.new.held) }
    ensures err { OnErr result (pool.new ≡ pool.old) }
{
    let Some(chain) = pool.detach(stream, count) else {
        unreachable!();
    };
    match pool.copy(alloc, &chain) {
        Ok(lines) => Ok((chain, lines)),
        Err(NoMemory) => {
            pool.restore(chain);
            Err(NoMemory)
        }
    }
}

// Puts the records of a batch that was taken out back into their queue.
fn put_back(pool: &mut Pool, lanes: &mut Vec<Lane>, batch: Batch)
    requires stream { batch.stream < pool.old.streams }
    requires within { batch.stream < length lanes.old.items }
    requires queued { (lane_at lanes.old.items batch.stream).queued + batch.count < 2 ^ 32 }
    requires sealed { (lane_at lanes.old.items batch.stream).sealed + batch.count < 2 ^ 32 }
    ensures pool { pool.new ≡ record (pool.old) { held = with_restored batch.chain pool.old.held } }
    ensures lanes { lanes.new.items ≡ changed batch.stream (refilled batch.count (first_of batch.stream pool.new.held)) lanes.old.items }
{
    pool.restore(batch.chain);
    let front = pool.front(batch.stream);
    refill(lanes, batch.stream, batch.count, front);
}

fn is_same(line: &SeqLine, other: &SeqLine) -> bool
    ensures { IsTrue result ↔ (line.now ≡ other.now) }
{
    line.seq == other.seq && line.line == other.line
}

// Whether two lists have the same lines.
fn are_same(lines: &[SeqLine], others: &[SeqLine]) -> bool
    ensures { IsTrue result ↔ (lines.now ≡ others.now) }
{
    if lines.len() != others.len() {
        return false;
    }
    for index in 0..lines.len() {
        if !is_same(&lines[index], &others[index]) {
            return false;
        }
    }
    true
}

impl BookQueue {
    /// An empty queue for so many streams, records and bytes, and batches of so many records. All memory is taken here, but
    /// that of batches.
    pub fn new(
        alloc: Global,
        streams: u32,
        slots: u32,
        bytes: u64,
        batch: u32,
    ) -> Result<Self, NoMemory>
        requires { 1 ≤ batch }
        ensures { IfOk result (λ queue. queue ≡ record { held = []; parked = None; streams = streams; slots = slots; bytes = bytes; batch = batch; next = 0; next_batch = 0 }) }
    {
        Ok(BookQueue {
            pool: Pool::new(alloc, streams, slots, bytes)?,
            lanes: empty_lanes(alloc, streams)?,
            out: Vec::new(alloc),
            parked: None,
            batch,
            next_batch: 0,
        })
    }

    /// Of how many streams there are queues.
    pub fn streams(&self) -> u32
        ensures { result ≡ self.now.streams }
    {
        self.pool.streams()
    }

    // Puts a record behind its stream's queue where it finds room, and parks it else.
    fn put(&mut self, came: Parked) -> bool
        requires parked { self.old.parked ≡ None }
        requires stream { came.stream < self.old.streams }
        requires above { self.old.next ≤ came.seq }
        requires below { came.seq < 2 ^ 64 - 1 }
        ensures room { IsTrue result ↔ HasRoom self.old (length came.line) }
        ensures fits { result ≡ true → self.new ≡ record (self.old) { held = sealed_full self.old.batch came.stream (self.old.held ++ queued came.seq came.stream came.line ∷ []); next = came.seq + 1 } }
        ensures parks { result ≡ false → self.new ≡ record (self.old) { held = sealed_oldest self.old.held; parked = Some (queued came.seq came.stream came.line); next = came.seq + 1 } }
    {
        let Parked { seq, stream, line } = came;
        match self.pool.push(stream, seq, line) {
            Ok(()) => {
                grow(&mut self.lanes, stream, seq);
                self.seal_full(stream);
                true
            }
            Err(line) => {
                self.parked = Some(Parked { seq, stream, line });
                self.seal_oldest();
                false
            }
        }
    }

    // Seals the queue of a stream where it has a batch.
    fn seal_full(&mut self, stream: StreamNo)
        requires { stream < self.old.streams }
        ensures { self.new ≡ record (self.old) { held = sealed_full self.old.batch stream self.old.held } }
    {
        if self.lanes[stream as usize].queued >= self.batch {
            self.seal(stream);
        }
    }

    // Seals the oldest queue.
    fn seal_oldest(&mut self)
        ensures { self.new ≡ record (self.old) { held = sealed_oldest self.old.held } }
    {
        if let Some(stream) = self.pool.oldest() {
            self.seal(stream);
        }
    }

    // The number of the batch that was handed out last, of those that are.
    fn last_out(&self) -> Option<u64>
        ensures none { IfNone result (list_any is_handed_out self.now.held ≡ false) }
        ensures some { IfSome result (λ number. list_any (is_in_batch number) self.now.held ≡ true) }
    {
        let last = self.out.last()?;
        Some(last.number)
    }

    /// A sequence above those of all records that ever came.
    pub fn next(&self) -> u64
        ensures { result ≡ self.now.next }
    {
        match &self.parked {
            Some(parked) => parked.seq + 1,
            None => self.pool.next(),
        }
    }

    /// Whether a record is parked.
    pub fn is_parked(&self) -> bool
        ensures { IsTrue result ↔ IsSome self.now.parked }
    {
        self.parked.is_some()
    }

    /// Puts a record in, whose sequence is above those of all before: behind its stream's queue, which is sealed where it
    /// has a batch then. Exactly where no room is left it is parked, and the oldest queue is sealed: the answer is false. It
    /// takes no memory.
    pub fn push(&mut self, stream: StreamNo, seq: u64, line: Bytes) -> bool
        requires parked { self.old.parked ≡ None }
        requires stream { stream < self.old.streams }
        requires above { self.old.next ≤ seq }
        requires below { seq < 2 ^ 64 - 1 }
        ensures room { IsTrue result ↔ HasRoom self.old (length line) }
        ensures fits { result ≡ true → self.new ≡ record (self.old) { held = sealed_full self.old.batch stream (self.old.held ++ queued seq stream line ∷ []); next = seq + 1 } }
        ensures parks { result ≡ false → self.new ≡ record (self.old) { held = sealed_oldest self.old.held; parked = Some (queued seq stream line); next = seq + 1 } }
    {
        self.put(Parked { seq, stream, line })
    }

    /// Puts the parked record, where there is one, behind its stream's queue, as `push` does. Exactly where it still finds
    /// no room it stays parked, and the oldest queue is sealed: the answer is false. It takes no memory.
    pub fn unpark(&mut self) -> bool
        ensures room { IsTrue result ↔ ParkedFits self.old }
        ensures fits { result ≡ true → self.new ≡ unparked self.old }
        ensures parks { result ≡ false → self.new ≡ still_parked self.old }
    {
        match self.parked.take() {
            Some(parked) => self.put(parked),
            None => true,
        }
    }

    /// Seals the queue of a stream. It takes no memory.
    pub fn seal(&mut self, stream: StreamNo)
        requires { stream < self.old.streams }
        ensures { self.new ≡ record (self.old) { held = sealed_whole stream self.old.held } }
    {
        let next = self.pool.next();
        seal(&mut self.lanes, stream, next);
    }

    /// Seals all queues. It takes no memory.
    pub fn seal_all(&mut self)
        ensures { self.new ≡ record (self.old) { held = move is_in_queue Sealed self.old.held } }
    {
        let next = self.pool.next();
        seal_all(&mut self.lanes, next);
    }

    /// The stream of the first sealed record; `None` exactly where none is sealed.
    pub fn ready(&self) -> Option<StreamNo>
        ensures { result ≡ ready_of self.now.held }
    {
        self.pool.stands();
        oldest_sealed(&self.lanes, self.pool.streams())
    }

    /// Hands out the front of that stream's sealed records as a batch with a number of its own. For want of memory nothing
    /// changes; that answer stands for the want of a number too.
    pub fn hand_out(&mut self, alloc: Global, stream: StreamNo) -> Result<Handed, NoMemory>
        requires { ready_of self.old.held ≡ Some stream }
        ensures ok { IfOk result (λ handed. HandsOut stream handed.number handed.lines self.old self.new) }
        ensures err { OnErr result (self.new ≡ self.old) }
    {
        let number = self.next_batch;
        if number == u64::MAX {
            return Err(NoMemory);
        }
        self.out.reserve(1)?;
        self.pool.stands();
        let count = self.lanes[stream as usize].sealed.min(self.batch);
        let (chain, lines) = detach(&mut self.pool, alloc, stream, count)?;
        let front = self.pool.front(stream);
        shrink(&mut self.lanes, stream, count, front);
        self.out.push_reserved(Batch {
            number,
            stream,
            count,
            chain,
        });
        self.next_batch = number + 1;
        Ok(Handed { number, lines })
    }

    /// The stream of a batch; `None` exactly where no batch with this number is handed out.
    pub fn stream_of(&self, number: u64) -> Option<StreamNo>
        ensures none { IfNone result (list_any (is_in_batch number) self.now.held ≡ false) }
        ensures some { IfSome result (λ stream. IsBatchOf stream number self.now.held) }
    {
        let index = index_of(&self.out, number)?;
        Some(self.out[index].stream)
    }

    /// A copy of a batch's records, by sequence; of no record where none is handed out with this number.
    pub fn copy(&self, alloc: Global, number: u64) -> Result<SeqLineList, NoMemory>
        ensures { IfOk result (λ lines. lines ≡ batch_of number self.now.held) }
    {
        match index_of(&self.out, number) {
            Some(index) => self.pool.copy(alloc, &self.out[index].chain),
            None => Ok(SeqLineList::new(alloc)),
        }
    }

    /// Whether these are a batch's records.
    pub fn has_lines(
        &self,
        alloc: Global,
        number: u64,
        lines: &SeqLineList,
    ) -> Result<bool, NoMemory>
        ensures { IfOk result (λ has. IsTrue has ↔ (lines.now ≡ batch_of number self.now.held)) }
    {
        let own = self.copy(alloc, number)?;
        Ok(are_same(own.as_slice(), lines.as_slice()))
    }

    /// Drops the records of a batch; the answer is whether one with this number was handed out. It takes no memory.
    pub fn let_go(&mut self, number: u64) -> bool
        ensures was { result ≡ list_any (is_in_batch number) self.old.held }
        ensures gone { self.new ≡ record (self.old) { held = filter (λ one. not (is_in_batch number one)) self.old.held } }
    {
        match take_out(&mut self.out, number) {
            Some(batch) => {
                self.pool.free(batch.chain);
                true
            }
            None => false,
        }
    }

    /// Puts the records of a batch back into their queue, sealed, by sequence; the answer is whether one with this number
    /// was handed out. It takes no memory.
    pub fn take_back(&mut self, number: u64) -> bool
        ensures was { result ≡ list_any (is_in_batch number) self.old.held }
        ensures back { self.new ≡ record (self.old) { held = move (is_in_batch number) Sealed self.old.held } }
    {
        match take_out(&mut self.out, number) {
            Some(batch) => {
                self.pool.stands();
                put_back(&mut self.pool, &mut self.lanes, batch);
                true
            }
            None => false,
        }
    }

    /// Puts the records of all batches back. It takes no memory.
    pub fn take_all_back(&mut self)
        ensures { self.new ≡ record (self.old) { held = move is_handed_out Sealed self.old.held } }
    {
        while let Some(number) = self.last_out() {
            self.take_back(number);
        }
    }

    /// Whether a record is in a queue, or parked.
    pub fn has_queued(&self) -> bool
        ensures { result ≡ list_any is_in_queue (all_of self.now) }
    {
        self.parked.is_some() || self.pool.oldest().is_some()
    }

    /// Whether a batch is handed out.
    pub fn has_out(&self) -> bool
        ensures { result ≡ list_any is_handed_out self.now.held }
    {
        self.last_out().is_some()
    }

    /// What is so of every queue.
    pub fn stands(&self)
        ensures { IsQueue self.now }
    {
        self.pool.stands();
    }
}
