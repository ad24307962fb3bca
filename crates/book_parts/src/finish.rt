// What becomes of a stream at the end of a load.
ghost use Rattle.std.specs.Prelude.{◌≡◌, ◌<◌, ◌^◌, None, false, length, slice_get, slice_index, IfOk, IsTrue};
ghost use Rattle.book_queue.specs.Content.{all_of};
ghost use Rattle.book_rules.specs.Finishes.{BreaksFinish, CanFinish, FinishAnswer, FinishesBy, MergesAll, MergesWhere, ShowsHidden, ShowsWhere, has_none, is_complete, is_drained, is_marked};
ghost use Rattle.book_parts.specs.Finishing.{NextMerge};

use crate::parts::Parts;
use airbyte_message::StreamStatus;
use basics::StreamNo;
use book_queue::BookQueue;
use book_rules::Finished;
use dedup_merge::{MergeFault, Merged, merge_page};
use outside::{Dock, Fault, Status};
use std::alloc::Global;

// Whether no record is held.
fn is_empty(queue: &BookQueue) -> bool
    ensures { result ≡ has_none (all_of queue.now) }
{
    queue.stands();
    !queue.has_queued() && !queue.has_out()
}

// Whether a stream's last status is that it is complete.
fn is_complete_at(statuses: &[Option<StreamStatus>], stream: StreamNo) -> bool
    ensures { result ≡ is_complete (slice_get statuses.now stream) }
{
    match statuses.get(stream as usize) {
        Some(Some(StreamStatus::Complete)) => true,
        _ => false,
    }
}

// Whether a stream was shown.
fn is_marked_at(shown: &[bool], stream: StreamNo) -> bool
    ensures { result ≡ is_marked (slice_get shown.now stream) }
{
    match shown.get(stream as usize) {
        Some(flag) => *flag,
        None => false,
    }
}

// Merges a page of a stream's rows; the answer is whether rows are left.
fn merge_next<D: Dock>(
    alloc: Global,
    dock: &mut D,
    stream: StreamNo,
    page: u32,
) -> Result<bool, MergeFault>
    requires known { stream < length (D.seen dock.old).face.side_marks }
    requires some { 0 < page }
    ensures merges { NextMerge result stream page (D.seen dock.old) (D.seen dock.new) }
    ensures rises { IfOk result (λ more. IsTrue more → slice_index (D.seen dock.old).face.side_marks stream < slice_index (D.seen dock.new).face.side_marks stream) }
    ensures place { IfOk result (λ more. slice_index (D.seen dock.new).face.side_marks stream < 2 ^ 63) }
{
    match merge_page(alloc, dock, stream, page)? {
        Merged::More => Ok(true),
        Merged::Done => Ok(false),
    }
}

// Merges pages of a stream's rows until none is left.
fn merge_all<D: Dock>(
    alloc: Global,
    dock: &mut D,
    stream: StreamNo,
    page: u32,
) -> Result<(), MergeFault>
    requires known { stream < length (D.seen dock.old).face.side_marks }
    requires some { 0 < page }
    ensures { MergesAll result stream page (D.seen dock.old) (D.seen dock.new) }
{
    'pages: while merge_next(alloc, dock, stream, page)? {}
    Ok(())
}

impl<D: Dock + Drop> Parts<D> {
    // It broke by this.
    fn breaks_finish(&mut self, stop: Status) -> Result<Finished, Status>
        ensures { BreaksFinish stop result self.old self.new }
    {
        self.tally.broken = Some(stop);
        Err(stop)
    }

    // Shows a stream.
    fn shows(&mut self, stream: StreamNo) -> Result<Finished, Status>
        requires known { stream < length self.old.seen.face.side_marks }
        requires listed { stream < length self.old.shown }
        ensures { ShowsHidden stream result self.old self.new }
    {
        match self.dock.show(stream) {
            Ok(()) => {
                self.shown[stream as usize] = true;
                Ok(Finished::Shown)
            }
            Err(Fault::Failed) => self.breaks_finish(Status::StoreFault),
            Err(Fault::NoMemory) => self.breaks_finish(Status::NoMemory),
        }
    }

    // Shows a stream that is to be shown, and keeps every other.
    fn shows_where(&mut self, to_show: bool, stream: StreamNo) -> Result<Finished, Status>
        requires known { stream < length self.old.seen.face.side_marks }
        requires listed { stream < length self.old.shown }
        ensures { ShowsWhere to_show stream result self.old self.new }
    {
        if to_show {
            return self.shows(stream);
        }
        Ok(Finished::Kept)
    }

    // Merges a stream's rows, where it is deduplicated.
    fn merges_where(&mut self, dedup: bool, stream: StreamNo) -> Result<(), MergeFault>
        requires known { stream < length self.old.seen.face.side_marks }
        requires some { 0 < self.old.limits.page }
        ensures merges { MergesWhere dedup result stream self.old.limits.page self.old.seen self.new.seen }
        ensures many { length self.new.seen.face.side_marks ≡ length self.old.seen.face.side_marks }
        ensures rest { self.new ≡ record (self.old) { seen = self.new.seen } }
    {
        if dedup {
            return merge_all(self.alloc, &mut self.dock, stream, self.limits.page);
        }
        Ok(())
    }

    // Merges a stream's rows, where it is deduplicated, and shows it, where it is hidden and was not shown yet.
    fn finishes(&mut self, dedup: bool, hidden: bool, stream: StreamNo) -> Result<Finished, Status>
        requires { CanFinish stream self.old }
        ensures { FinishesBy dedup hidden stream result self.old self.new }
    {
        let to_show = hidden && !is_marked_at(self.shown.as_slice(), stream);
        match self.merges_where(dedup, stream) {
            Ok(()) => self.shows_where(to_show, stream),
            Err(MergeFault::StoreFault) => self.breaks_finish(Status::StoreFault),
            Err(MergeFault::NoMemory) => self.breaks_finish(Status::NoMemory),
        }
    }

    // Whether the input has ended and no record is uncommitted.
    fn is_done(&self) -> bool
        ensures { result ≡ is_drained self.now }
    {
        self.tally.is_ended && is_empty(&self.queue)
    }

    /// Merges a stream's rows, where it is deduplicated, and shows it, where it is hidden and was not shown yet: once the input
    /// has ended, all records are committed, and its source said last that it is complete.
    pub fn finish(&mut self, stream: StreamNo) -> Result<Finished, Status>
        requires { self.old.tally.broken ≡ None → CanFinish stream self.old }
        ensures { FinishAnswer stream result self.old self.new }
    {
        if let Some(stop) = self.tally.broken {
            return Err(stop);
        }
        if !self.is_done() {
            return Ok(Finished::Undrained);
        }
        if !is_complete_at(self.statuses.as_slice(), stream) {
            return Ok(Finished::NotComplete);
        }
        let plan = self.opened.plan(stream);
        let dedup = plan.dedup;
        let hidden = plan.hidden;
        self.finishes(dedup, hidden, stream)
    }
}
