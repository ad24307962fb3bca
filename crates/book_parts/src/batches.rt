// What becomes of batches.
ghost use Rattle.std.specs.Prelude.{◌≡◌, ◌<◌, IfNone, IfOk, IfSome, IsTrue, None, false, length};
ghost use Rattle.std.specs.List.{list_any};
ghost use Rattle.book_queue.specs.Content.{IsBatchOf, batch_of, is_in_batch, ready_of};
ghost use Rattle.book_rules.specs.Holds.{CanPut};
ghost use Rattle.book_rules.specs.Puts.{GiveBackAnswer, PickAnswer, PutAnswer, recalled, seqs_of};
ghost use Rattle.book_parts.specs.Batches.{BreaksBy, FreeAnswer, HasRows, IsOwn, OwnsItem, PutsOwn};

use crate::parts::Parts;
use crate::release::{release, stop_of};
use basics::{NoMemory, StreamNo};
use batch_prep::{Prepared, WorkItem, prepare};
use book_queue::BookQueue;
use book_rules::Put;
use outside::{Dock, Fault, RawRowList, SeqLine, Status};
use std::alloc::Global;

// The stream of the first sealed record.
fn ready_in(queue: &BookQueue) -> Option<StreamNo>
    ensures ready { result ≡ ready_of queue.now.held }
    ensures below { IfSome result (λ stream. stream < queue.now.streams) }
{
    queue.stands();
    queue.ready()
}

// The stream of a batch; `None` exactly where no batch with this number is handed out.
fn stream_in(queue: &BookQueue, batch: u64) -> Option<StreamNo>
    ensures none { IfNone result (list_any (is_in_batch batch) queue.now.held ≡ false) }
    ensures some { IfSome result (λ stream. IsBatchOf stream batch queue.now.held) }
    ensures below { IfSome result (λ stream. stream < queue.now.streams) }
{
    queue.stands();
    queue.stream_of(batch)
}

// The sequences of these lines.
fn seqs_in(alloc: Global, lines: &[SeqLine]) -> Result<Vec<u64>, NoMemory>
    ensures { IfOk result (λ seqs. seqs.items ≡ seqs_of lines.now) }
{
    Ok(lines.iter().map(|line| line.seq).collect(alloc)?)
}

// The rows of a batch, and the sequences of its records.
#[derive(Drop)]
pub struct OwnBatch {
    pub seqs: Vec<u64>,
    pub rows: RawRowList,
}

impl<D: Dock + Drop> Parts<D> {
    /// Hands out a batch: the front of the sealed records of the stream whose first one is oldest.
    pub fn pick(&mut self) -> Result<Option<WorkItem>, NoMemory>
        requires { self.old.queue.streams ≡ length self.old.catalog }
        ensures { PickAnswer result self.old self.new }
    {
        let Some(stream) = ready_in(&self.queue) else {
            return Ok(None);
        };
        let plan = self.opened.prep_plan(self.alloc, stream)?;
        let handed = self.queue.hand_out(self.alloc, stream)?;
        Ok(Some(WorkItem {
            batch: handed.number,
            plan,
            lines: handed.lines,
        }))
    }

    /// Seals a batch again, and hands a stranger back.
    pub fn give_back(&mut self, item: WorkItem) -> Option<WorkItem>
        ensures { GiveBackAnswer item result self.old self.new }
    {
        if self.queue.take_back(item.batch) {
            return None;
        }
        Some(item)
    }

    /// Seals every batch that is handed out again.
    pub fn recall(&mut self)
        ensures { self.new ≡ recalled self.old }
    {
        self.queue.take_all_back();
    }

    // Whether an item is the book's own batch, by its own plan.
    fn is_own(&self, stream: StreamNo, item: &WorkItem) -> Result<bool, NoMemory>
        requires { stream < length self.now.catalog }
        ensures { IfOk result (λ is. IsTrue is → OwnsItem stream self.now item.now) }
    {
        if !self.opened.is_plan(stream, &item.plan) {
            return Ok(false);
        }
        self.queue.has_lines(self.alloc, item.batch, &item.lines)
    }

    // A batch that is handed out, by the book's own plan.
    fn own_item(&self, stream: StreamNo, batch: u64) -> Result<WorkItem, NoMemory>
        requires { stream < length self.now.catalog }
        ensures { IfOk result (IsOwn stream batch self.now) }
    {
        Ok(WorkItem {
            batch,
            plan: self.opened.prep_plan(self.alloc, stream)?,
            lines: self.queue.copy(self.alloc, batch)?,
        })
    }

    // What was prepared of a batch that is handed out, or what is prepared anew where that was of other lines or by another
    // plan.
    fn own_prepared(&self, stream: StreamNo, done: Prepared) -> Result<Prepared, NoMemory>
        requires { stream < length self.now.catalog }
        ensures { IfOk result (λ own. IsOwn stream done.item.batch self.now own.item) }
    {
        if self.is_own(stream, done.item())? {
            return Ok(done);
        }
        let item = self.own_item(stream, done.item().batch)?;
        match prepare(self.alloc, item) {
            Ok(own) => Ok(own),
            Err(_) => Err(NoMemory),
        }
    }

    // The rows of a batch that is handed out, whatever was prepared.
    fn own_batch(&self, stream: StreamNo, done: Prepared) -> Result<OwnBatch, NoMemory>
        requires below { stream < length self.now.catalog }
        requires of { IsBatchOf stream done.item.batch self.now.queue.held }
        ensures { IfOk result (HasRows stream done.item.batch self.now) }
    {
        let own = self.own_prepared(stream, done)?;
        let seqs = seqs_in(self.alloc, own.item().lines.as_slice())?;
        let (_, rows) = own.into_parts();
        Ok(OwnBatch { seqs, rows })
    }

    // It broke by this.
    fn breaks_by(&mut self, stop: Status) -> Put
        ensures { BreaksBy stop result self.old self.new }
    {
        self.tally.broken = Some(stop);
        Put::Broken(stop)
    }

    // A batch is committed: its slots are free, the gate knows, and all states that may go are released.
    fn frees(&mut self, stream: StreamNo, batch: u64, seqs: &[u64]) -> Put
        requires can { CanPut self.old }
        requires whole { self.old.tally.broken ≡ None }
        requires of { IsBatchOf stream batch self.old.queue.held }
        requires seqs { seqs.now ≡ seqs_of (batch_of batch self.old.queue.held) }
        ensures { FreeAnswer batch result self.old self.new }
    {
        self.queue.stands();
        self.gate.committed(stream, seqs);
        self.queue.let_go(batch);
        match release(
            self.alloc,
            &mut self.dock,
            &mut self.gate,
            &mut self.tally.emitted,
        ) {
            Ok(()) => Put::Done,
            Err(fault) => self.breaks_by(stop_of(fault)),
        }
    }

    // Commits the rows of a batch.
    fn commits(&mut self, stream: StreamNo, batch: u64, own: OwnBatch) -> Put
        requires can { CanPut self.old }
        requires whole { self.old.tally.broken ≡ None }
        requires below { stream < length self.old.catalog }
        requires rows { HasRows stream batch self.old own }
        ensures { PutsOwn batch result self.old self.new }
    {
        match self.dock.commit(stream, &own.rows) {
            Ok(()) => self.frees(stream, batch, own.seqs.as_slice()),
            Err(Fault::Failed) => self.breaks_by(Status::StoreFault),
            Err(Fault::NoMemory) => self.breaks_by(Status::NoMemory),
        }
    }

    // Commits a batch that is handed out.
    fn puts(&mut self, stream: StreamNo, done: Prepared) -> Put
        requires can { CanPut self.old }
        requires whole { self.old.tally.broken ≡ None }
        requires below { stream < length self.old.catalog }
        requires of { IsBatchOf stream done.item.batch self.old.queue.held }
        ensures { PutsOwn done.item.batch result self.old self.new }
    {
        let batch = done.item().batch;
        match self.own_batch(stream, done) {
            Ok(own) => self.commits(stream, batch, own),
            Err(NoMemory) => self.breaks_by(Status::NoMemory),
        }
    }

    /// Commits a batch that is handed out, and releases all states that this sets free. Of another plan or other lines than the
    /// batch's own nothing is committed: it is prepared anew.
    pub fn put(&mut self, done: Prepared) -> Put
        requires { self.old.tally.broken ≡ None → CanPut self.old }
        ensures { PutAnswer done result self.old self.new }
    {
        if let Some(stop) = self.tally.broken {
            return Put::Broken(stop);
        }
        match stream_in(&self.queue, done.item().batch) {
            Some(stream) => self.puts(stream, done),
            None => Put::Stranger(done),
        }
    }
}
